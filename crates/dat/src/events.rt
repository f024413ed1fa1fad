// The events of a DAT file as words that a machine reads: each has eight bytes and a row of its own, and there are no groups.
ghost use Rattle.std.specs.Prelude.{refl};
ghost use Rattle.dat.specs.Words.{fresh};
ghost use Rattle.dat.specs.Reader.{machine};

use crate::state::State;
use words::{Picture, StepReader, Stop, Turn};

// Events of a picture.
#[derive(Clone, Copy, Debug, PartialEq, Eq)]
pub(crate) struct Events {
    pub picture: Picture,
}

impl StepReader for Events {
    type Word = u64;

    type State = State;

    ghost machine = { λ events. machine events.picture };

    ghost start = { fresh };

    ghost sized = { λ events. refl };

    fn fresh(&self) -> State {
        State::default()
    }

    fn step(
        &self,
        state: &mut State,
        _place: usize,
        w: u64,
        rows: &mut [u32],
        n: usize,
    ) -> Result<Turn, Stop> {
        let count = state.give(self.picture, w, rows, n)?;
        *state = state.event(w);
        Ok(Turn::Moves(count))
    }

    fn is_pending(&self, _state: State) -> bool {
        false
    }

    fn origin(&self, _state: State, at: usize) -> usize {
        at
    }
}
