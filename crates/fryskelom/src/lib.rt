// The C interface: the readers, the writers, the event of a row and the place from which on nothing is missing, under C names, and nothing but calls.
//
// include/fryskelom.h declares what stands here, under the names that C callers use. A slice passes as a pointer and a
// length; the pointer is never null, and buffers do not overlap.
#![tactic(auto)]

ghost use Rattle.std.specs.Prelude.{◌≡◌};
ghost use Rattle.events.specs.Event.{event_numbers};
ghost use Rattle.rows.specs.Row.{room_of};
ghost use Rattle.rows.specs.Runs.{ReadNumbers};
ghost use Rattle.words.specs.Picture.{picture_of};
ghost use Rattle.words.specs.Writer.{WroteNumbers};
ghost use Rattle.header.specs.Header.{header_of, header_numbers};
ghost use Rattle.evt2.specs.Reader as evt2;
ghost use Rattle.evt2.specs.Spelling as evt2_words;
ghost use Rattle.evt3.specs.Reader as evt3;
ghost use Rattle.evt3.specs.Spelling as evt3_words;
ghost use Rattle.join.specs.Seen.{whole_from, whole_numbers};
ghost use Rattle.raw.specs.declared.reader.Format.TheVariants.{Evt2, Evt3};
ghost use Rattle.raw.specs.Reader as raw;
ghost use Rattle.dat.specs.Reader as dat;
ghost use Rattle.aedat.specs.Reader as aedat;

use events::EventNumbers;
use header::HeaderNumbers;
use join::WholeNumbers;
use raw::Format;
use rows::{ReadingNumbers, WritingNumbers};

// The event of a row of ten numbers.
#[unsafe(no_mangle)]
pub extern "C" fn fry_event_of(row: &[u32]) -> EventNumbers
    ensures { result ≡ event_numbers row.now }
{
    events::event_numbers(row)
}

// The rows of EVT2 words.
#[unsafe(no_mangle)]
pub extern "C" fn fry_read_evt2(
    bytes: &[u8],
    width: u32,
    height: u32,
    rows: &mut [u32],
) -> ReadingNumbers
    ensures { ReadNumbers (evt2.reading_of (picture_of width height) bytes.now (room_of rows.old)) rows.old rows.new result }
{
    evt2::read(bytes, width, height, rows).into()
}

// The EVT2 words of rows.
#[unsafe(no_mangle)]
pub extern "C" fn fry_write_evt2(rows: &[u32], out: &mut [u8]) -> WritingNumbers
    ensures { WroteNumbers evt2_words.spelling rows.now out.old out.new result }
{
    evt2::write(rows, out).into()
}

// The rows of EVT3 words.
#[unsafe(no_mangle)]
pub extern "C" fn fry_read_evt3(
    bytes: &[u8],
    width: u32,
    height: u32,
    rows: &mut [u32],
) -> ReadingNumbers
    ensures { ReadNumbers (evt3.reading_of (picture_of width height) bytes.now (room_of rows.old)) rows.old rows.new result }
{
    evt3::read(bytes, width, height, rows).into()
}

// The EVT3 words of rows.
#[unsafe(no_mangle)]
pub extern "C" fn fry_write_evt3(rows: &[u32], out: &mut [u8]) -> WritingNumbers
    ensures { WroteNumbers evt3_words.spelling rows.now out.old out.new result }
{
    evt3::write(rows, out).into()
}

// The place in EVT3 words from which on a fresh reader of them misses no row.
#[unsafe(no_mangle)]
pub extern "C" fn fry_whole_evt3(bytes: &[u8]) -> WholeNumbers
    ensures { result ≡ whole_numbers (whole_from bytes.now) }
{
    join::whole_from(bytes).into()
}

// The text header of a RAW or DAT file.
#[unsafe(no_mangle)]
pub extern "C" fn fry_read_header(bytes: &[u8], limit: u32) -> HeaderNumbers
    ensures { result ≡ header_numbers (header_of limit bytes.now) }
{
    header::read(bytes, limit).into()
}

// The rows of a RAW file of EVT2 words.
#[unsafe(no_mangle)]
pub extern "C" fn fry_read_raw_evt2(bytes: &[u8], rows: &mut [u32]) -> ReadingNumbers
    ensures { ReadNumbers (raw.reading_of Evt2 bytes.now (room_of rows.old)) rows.old rows.new result }
{
    raw::read(bytes, Format::Evt2, rows).into()
}

// The rows of a RAW file of EVT3 words.
#[unsafe(no_mangle)]
pub extern "C" fn fry_read_raw_evt3(bytes: &[u8], rows: &mut [u32]) -> ReadingNumbers
    ensures { ReadNumbers (raw.reading_of Evt3 bytes.now (room_of rows.old)) rows.old rows.new result }
{
    raw::read(bytes, Format::Evt3, rows).into()
}

// The rows of a DAT file.
#[unsafe(no_mangle)]
pub extern "C" fn fry_read_dat(bytes: &[u8], rows: &mut [u32]) -> ReadingNumbers
    ensures { ReadNumbers (dat.reading_of bytes.now (room_of rows.old)) rows.old rows.new result }
{
    dat::read(bytes, rows).into()
}

// The rows of an AEDAT 3.1 file.
#[unsafe(no_mangle)]
pub extern "C" fn fry_read_aedat(bytes: &[u8], rows: &mut [u32]) -> ReadingNumbers
    ensures { ReadNumbers (aedat.reading_of bytes.now (room_of rows.old)) rows.old rows.new result }
{
    aedat::read(bytes, rows).into()
}
