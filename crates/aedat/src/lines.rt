// The lines that a file begins with.
ghost use Rattle.std.specs.Prelude.{◌≡◌};
ghost use Rattle.aedat.specs.Lines.{text_step, step_of, lines_of};

use header::HeaderError;
use rows::Fault;

// Which line comes next.
#[derive(Clone, Copy, Debug, PartialEq, Eq)]
pub enum Stage {
    Version,
    Format,
    Further,
}

// A good line: its length, and which line comes next; none after the last.
#[derive(Clone, Copy, Debug, PartialEq, Eq)]
pub struct Line {
    pub length: usize,
    pub next: Option<Stage>,
}

impl Stage {
    // What a line says by its text: which line comes next.
    #[tactic(auto, unfolding(crate::specs::Lines::text_step))]
    fn judge(self, text: &[u8]) -> Result<Option<Stage>, Fault>
        ensures { result ≡ text_step self text.now }
    {
        match self {
            Stage::Version if text == b"#!AER-DAT3.1".as_slice() => Ok(Some(Stage::Format)),
            Stage::Format if text == b"#Format: RAW".as_slice() => Ok(Some(Stage::Further)),
            Stage::Further if text == b"#!END-HEADER".as_slice() => Ok(None),
            Stage::Further if text.starts_with(b"#") => Ok(Some(Stage::Further)),
            _ => Err(Fault::BadHeader),
        }
    }
}

// The line at the front: its text lies before a CR and its first newline, one of its first 1,024 bytes.
fn read_line(stage: Stage, bytes: &[u8]) -> Result<Line, Fault>
    ensures { result ≡ step_of stage bytes.now }
{
    let end = header::line_end(bytes, 1024)?;
    let text = bytes[..end].strip_suffix(b"\r").ok_or(Fault::BadHeader)?;
    Ok(Line {
        length: end + 1,
        next: stage.judge(text)?,
    })
}

// Where the packets begin, after the last line; or the refusal, at the first byte of the line at fault.
pub(crate) fn read_lines(bytes: &[u8]) -> Result<usize, HeaderError>
    ensures { result ≡ lines_of bytes.now }
{
    // No iterator: each line ends where its newline is found, and says which is next.
    let mut stage = Stage::Version;
    let mut at = 0;
    loop {
        let line = read_line(stage, &bytes[at..]).map_err(|fault| HeaderError {
            fault,
            place: at,
        })?;
        at += line.length;
        let Some(next) = line.next else {
            return Ok(at);
        };
        stage = next;
    }
}
