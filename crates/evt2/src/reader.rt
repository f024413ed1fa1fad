// The reader: EVT2 words as a machine, which the loop of crate `words` runs.
ghost use Rattle.std.specs.Prelude.{refl};
ghost use Rattle.rows.specs.Row.{room_of};
ghost use Rattle.rows.specs.Runs.{ReadAs};
ghost use Rattle.words.specs.Picture.{picture_of};
ghost use Rattle.evt2.specs.State.{fresh};
ghost use Rattle.evt2.specs.Reader.{machine, reading_of};

use crate::state::State;
use rows::ReadError;
use words::{Picture, StepReader, Stop, Turn};

// EVT2 words of a picture.
#[derive(Clone, Copy)]
struct Words {
    picture: Picture,
}

impl StepReader for Words {
    type Word = u32;

    type State = State;

    ghost machine = { λ words. machine words.picture };

    ghost start = { fresh };

    ghost sized = { λ words. refl };

    fn fresh(&self) -> State {
        State::default()
    }

    fn step(
        &self,
        state: &mut State,
        place: usize,
        w: u64,
        rows: &mut [u32],
        n: usize,
    ) -> Result<Turn, Stop> {
        state.step(self.picture, place, w, rows, n)
    }

    fn is_pending(&self, state: State) -> bool {
        state.is_pending()
    }

    fn origin(&self, state: State, at: usize) -> usize {
        state.origin(at)
    }
}

// Reads EVT2 words of a picture of `width` by `height` into rows. What is refused before the first word is said here, and not with the loop, since DAT has no such picture.
pub fn read(bytes: &[u8], width: u32, height: u32, rows: &mut [u32]) -> Result<usize, ReadError>
    ensures { ReadAs (reading_of (picture_of width height) bytes.now (room_of rows.old)) rows.old rows.new result }
{
    let picture = Picture { width, height };
    words::admit(bytes, picture).map_err(|fault| ReadError {
        fault,
        rows: 0,
        place: 0,
    })?;
    words::read_steps(&Words { picture }, bytes, 0, rows)
}
