// The reader: the header, the two bytes after it, and the events.
ghost use Rattle.std.specs.Prelude.{length, ◌≤◌};
ghost use Rattle.rows.specs.Row.{room_of};
ghost use Rattle.rows.specs.Runs.{ReadAs};
ghost use Rattle.dat.specs.Reader.{after_type_and_size, reading_of};

use crate::events::Events;
use rows::{Fault, ReadError};
use words::Picture;

// Reads what follows the header: bytes 0 and 8, and the events.
#[tactic(auto, using(rows::proofs::Sofar::reads_refused), unfolding(crate::specs::Reader::after_type_and_size))]
fn read_data(
    bytes: &[u8],
    at: usize,
    picture: Picture,
    rows: &mut [u32],
) -> Result<usize, ReadError>
    requires { at ≤ length bytes.now }
    ensures { ReadAs (after_type_and_size picture bytes.now at (room_of rows.old)) rows.old rows.new result }
{
    if bytes.len() - at < 2 {
        return Err(ReadError {
            fault: Fault::Cut,
            rows: 0,
            place: at,
        });
    }
    if bytes[at] == 0 && bytes[at + 1] == 8 {
        words::read_steps(&Events { picture }, bytes, at + 2, rows)
    } else {
        Err(ReadError {
            fault: Fault::BadHeader,
            rows: 0,
            place: at,
        })
    }
}

// Reads a DAT file into rows.
pub fn read(bytes: &[u8], rows: &mut [u32]) -> Result<usize, ReadError>
    ensures { ReadAs (reading_of bytes.now (room_of rows.old)) rows.old rows.new result }
{
    let header = header::read(bytes, 16384)?;
    let picture = Picture {
        width: header.width,
        height: header.height,
    };
    read_data(bytes, header.at, picture, rows)
}
