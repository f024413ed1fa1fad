// How far a reading has come.
ghost use Rattle.std.specs.Prelude.{◌≡◌};
ghost use Rattle.aedat.specs.Parts.{refused_in};

use rows::{Fault, ReadError};

// What is known after what was read, the place of what is next, and the rows that are finished. The place stands beside the bytes, and they
// are not cut off: a refusal's place counts from the first byte of the file.
#[derive(Clone, Copy, Debug, PartialEq, Eq)]
pub(crate) struct Reading<S> {
    pub state: S,
    pub at: usize,
    pub rows: usize,
}

impl<S: Copy> Reading<S> {
    // What is next is refused.
    pub(crate) fn refused(self, fault: Fault) -> ReadError
        ensures { result ≡ refused_in self fault }
    {
        ReadError {
            fault,
            rows: self.rows,
            place: self.at,
        }
    }
}
