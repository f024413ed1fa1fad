// The reader: EVT3 words as words that a machine reads.
ghost use Rattle.std.specs.Prelude.{refl};
ghost use Rattle.rows.specs.Row.{room_of};
ghost use Rattle.rows.specs.Runs.{ReadAs};
ghost use Rattle.words.specs.Picture.{picture_of};
ghost use Rattle.evt3.specs.State.{fresh};
ghost use Rattle.evt3.specs.Reader.{machine, reading_of};

use crate::state::State;
use rows::ReadError;
use words::{Picture, StepReader, Stop, Turn};

// Words of a picture.
#[derive(Clone, Copy, Debug, PartialEq, Eq)]
struct Stream {
    picture: Picture,
}

impl StepReader for Stream {
    type Word = u16;

    type State = State;

    ghost machine = { λ stream. machine stream.picture };

    ghost start = { fresh };

    ghost sized = { λ stream. refl };

    fn fresh(&self) -> State {
        State::default()
    }

    fn step(
        &self,
        state: &mut State,
        _place: usize,
        w: u64,
        rows: &mut [u32],
        n: usize,
    ) -> Result<Turn, Stop> {
        state.step(self.picture, w, rows, n)
    }

    fn is_pending(&self, _state: State) -> bool {
        false
    }

    fn origin(&self, _state: State, at: usize) -> usize {
        at
    }
}

// Reads EVT3 words of a picture of `width` by `height` into rows. What is refused before the first word is said here, and not with the loop, since DAT has no such picture.
pub fn read(bytes: &[u8], width: u32, height: u32, rows: &mut [u32]) -> Result<usize, ReadError>
    ensures { ReadAs (reading_of (picture_of width height) bytes.now (room_of rows.old)) rows.old rows.new result }
{
    let picture = Picture { width, height };
    words::admit(bytes, picture).map_err(|fault| ReadError {
        fault,
        rows: 0,
        place: 0,
    })?;
    words::read_steps(&Stream { picture }, bytes, 0, rows)
}
