// The reader: the header, and then the words.
ghost use Rattle.rows.specs.Row.{room_of};
ghost use Rattle.rows.specs.Runs.{ReadAs};
ghost use Rattle.raw.specs.Reader.{words_as, reading_of};

use rows::ReadError;

// Which words follow the header: the caller says it, and the file itself is not asked. An enum and no closure, since the definition
// and the laws speak of each of the two.
#[derive(Clone, Copy, Debug, PartialEq, Eq)]
pub enum Format {
    Evt2,
    Evt3,
}

// Reads the words.
#[tactic(auto, using(rows::proofs::Viewed::reads_as), unfolding(crate::specs::Reader::words_as))]
fn read_words(
    bytes: &[u8],
    format: Format,
    width: u32,
    height: u32,
    rows: &mut [u32],
) -> Result<usize, ReadError>
    ensures { ReadAs (words_as format width height bytes.now (room_of rows.old)) rows.old rows.new result }
{
    match format {
        Format::Evt2 => evt2::read(bytes, width, height, rows),
        Format::Evt3 => evt3::read(bytes, width, height, rows),
    }
}

// Reads a RAW file into rows. The places of words count from the file's first byte.
pub fn read(bytes: &[u8], format: Format, rows: &mut [u32]) -> Result<usize, ReadError>
    ensures { ReadAs (reading_of format bytes.now (room_of rows.old)) rows.old rows.new result }
{
    let header = header::read(bytes, 2048)?;
    let data = &bytes[header.at..];
    read_words(data, format, header.width, header.height, rows).map_err(|error| ReadError {
        fault: error.fault,
        rows: error.rows,
        place: header.at + error.place,
    })
}
