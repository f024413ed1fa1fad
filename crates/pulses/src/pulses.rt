// The reader: pulses as a format in three methods, which the loop of crate `words` runs.
ghost use Rattle.std.specs.Prelude.{◌≡◌, refl};
ghost use Rattle.rows.specs.Row.{room_of};
ghost use Rattle.rows.specs.Runs.{ReadAs};
ghost use Rattle.pulses.specs.Words.{fresh, kind_in, given_as, next_as, edge_of};
ghost use Rattle.pulses.specs.Reader.{machine, reading_of};

use crate::kind::Kind;
use crate::state::State;
use rows::{Fault, ReadError, Row};
use words::{Reader, Stop};

// Words of pulses.
#[derive(Clone, Copy)]
pub(crate) struct Pulses;

// The edge that a word says, at a time.
fn edge(time: u64, w: u64) -> Row
    ensures { result ≡ edge_of time w }
{
    Row::trigger(time, (w / 2 % 32) as u32, (w % 2) as u32)
}

impl Reader for Pulses {
    type Word = u16;

    type State = State;

    type Kind = Kind;

    ghost machine = { λ pulses. machine };

    ghost start = { fresh };

    ghost kind_in = { λ pulses s w. kind_in s w };

    ghost given_as = { λ pulses s k w. given_as k s w };

    ghost next_as = { λ pulses s k place w. next_as k s place w };

    ghost sized = { λ pulses. refl };

    fn fresh(&self) -> State {
        State::default()
    }

    fn kind(&self, state: State, w: u64) -> Kind {
        if state.late.is_some() {
            return Kind::within(w);
        }
        Kind::outside(w)
    }

    fn give(
        &self,
        state: State,
        kind: Kind,
        w: u64,
        rows: &mut [u32],
        n: usize,
    ) -> Result<usize, Stop> {
        match kind {
            Kind::Time | Kind::Late => Ok(n),
            Kind::Edge => words::give(rows, n, edge(state.time, w)),
            Kind::Reserved => Err(Stop::Refused(Fault::Reserved)),
            Kind::Second => match state.late {
                Some(late) => words::give(rows, n, edge(w % 16384, late.word)),
                None => Ok(n),
            },
            Kind::Stray => Err(Stop::Refused(Fault::Stray)),
        }
    }

    fn next(&self, state: State, kind: Kind, place: usize, w: u64) -> Option<State> {
        match kind {
            Kind::Time | Kind::Second => Some(State::timed(w)),
            Kind::Late => Some(state.begun(place, w)),
            Kind::Edge | Kind::Reserved | Kind::Stray => None,
        }
    }

    fn is_pending(&self, state: State) -> bool {
        state.late.is_some()
    }

    fn origin(&self, state: State, at: usize) -> usize {
        match state.late {
            Some(late) => late.place,
            None => at,
        }
    }
}

// Reads pulses into rows.
pub(crate) fn read(bytes: &[u8], rows: &mut [u32]) -> Result<usize, ReadError>
    ensures { ReadAs (reading_of bytes.now (room_of rows.old)) rows.old rows.new result }
{
    words::read_words(&Pulses, bytes, 0, rows)
}
