// The header, line by line.
ghost use Rattle.std.specs.Prelude.{◌≡◌};
ghost use Rattle.header.specs.Header.{step_of, header_of, header_numbers, no_rows};

use crate::line::{is_line, line_end};
use crate::side::Sides;
use rows::{Fault, ReadError};

// Where the data begin, and the picture's sides.
#[derive(Clone, Copy, Debug, PartialEq, Eq)]
pub struct Header {
    pub at: usize,
    pub width: u32,
    pub height: u32,
}

// A refusal, at the first byte of the line at fault.
#[derive(Clone, Copy, Debug, PartialEq, Eq)]
pub struct HeaderError {
    pub fault: Fault,
    pub place: usize,
}

// The answer as four numbers, as the C interface has it: refusal 0 and where the data begin, or the refusal, its place and no sides.
#[repr(C)]
#[derive(Clone, Copy, Debug, PartialEq, Eq)]
pub struct HeaderNumbers {
    pub refusal: u64,
    pub place: u64,
    pub width: u32,
    pub height: u32,
}

// A good line: its length, and what is known of the picture after it.
#[derive(Clone, Copy, Debug, PartialEq, Eq)]
pub(crate) struct Line {
    pub length: usize,
    pub sides: Sides,
}

// The line at the front after what is known of the picture; None where no line stands there.
fn read_line(bytes: &[u8], limit: u32, sides: Sides) -> Result<Option<Line>, Fault>
    ensures { result ≡ step_of limit bytes.now sides }
{
    if !is_line(bytes) {
        return Ok(None);
    }
    let end = line_end(bytes, 256)?;
    let sides = sides.judge(&bytes[2..end], limit).ok_or(Fault::BadHeader)?;
    Ok(Some(Line {
        length: end + 1,
        sides,
    }))
}

// Reads the header that bytes begin with; no side may be over the limit.
pub fn read(bytes: &[u8], limit: u32) -> Result<Header, HeaderError>
    ensures { result ≡ header_of limit bytes.now }
{
    if 1073741824 < bytes.len() {
        return Err(HeaderError {
            fault: Fault::TooLong,
            place: 0,
        });
    }
    // The place of a line is what a refusal answers, and lines differ in length.
    let mut at = 0;
    let mut sides = Sides::default();
    while let Some(line) = read_line(&bytes[at..], limit, sides).map_err(|fault| HeaderError {
        fault,
        place: at,
    })? {
        at += line.length;
        sides = line.sides;
    }
    Ok(Header {
        at,
        width: sides.width.unwrap_or(limit),
        height: sides.height.unwrap_or(limit),
    })
}

// A file whose header is refused gives no rows.
impl From<HeaderError> for ReadError {
    ghost from_gives = { λ e r. r ≡ no_rows e };

    fn from(error: HeaderError) -> ReadError {
        ReadError {
            fault: error.fault,
            rows: 0,
            place: error.place,
        }
    }
}

impl From<Result<Header, HeaderError>> for HeaderNumbers {
    ghost from_gives = { λ r n. n ≡ header_numbers r };

    fn from(answer: Result<Header, HeaderError>) -> HeaderNumbers {
        match answer {
            Ok(header) => HeaderNumbers {
                refusal: 0,
                place: header.at as u64,
                width: header.width,
                height: header.height,
            },
            Err(error) => HeaderNumbers {
                refusal: u64::from(error.fault),
                place: error.place as u64,
                width: 0,
                height: 0,
            },
        }
    }
}
