// Where a line of the header begins and ends.
ghost use Rattle.std.specs.Prelude.{◌≡◌};
ghost use Rattle.header.specs.Lines.{is_line, line_end};

use rows::Fault;

// Whether a line of the header stands at the front: a percent sign and a space.
#[tactic(auto, using(crate::proofs::LineEnds::line_starts))]
pub(crate) fn is_line(bytes: &[u8]) -> bool
    ensures { result ≡ is_line bytes.now }
{
    bytes.starts_with(b"% ")
}

// The end of the line at the front: the first newline among its first `most` bytes. Refused 4 where the input ends before it, and 9
// where it is too far away.
pub fn line_end(bytes: &[u8], most: usize) -> Result<usize, Fault>
    ensures { result ≡ line_end most bytes.now 0 }
{
    match bytes.iter().take(most).position(|c| *c == b'\n') {
        Some(i) => Ok(i),
        None if bytes.len() < most => Err(Fault::Cut),
        None => Err(Fault::BadHeader),
    }
}
