// What a reader knows between events, and what an event does with it.
ghost use Rattle.std.specs.Prelude.{◌≡◌, ◌≤◌};
ghost use Rattle.rows.specs.Row.{room_of};
ghost use Rattle.words.specs.Fields.{field};
ghost use Rattle.words.specs.Written.{GaveAs};
ghost use Rattle.dat.specs.Words.{with_last, event_of};

use rows::{Fault, Row};
use words::{Picture, Stop};

// What a reader knows between events: the last one's time, and 0 before the first.
#[derive(Clone, Copy, Debug, Default, PartialEq, Eq)]
pub struct State {
    pub last: u32,
}

impl State {
    // After an event.
    pub(crate) fn event(mut self, w: u64) -> State
        ensures { result ≡ with_last self (field 0 32 w) }
    {
        self.last = (w % 4294967296) as u32;
        self
    }

    // What an event gives: one pixel, if there is room, or its refusal.
    #[tactic(auto, using(words::proofs::Wrote::gave_refused, words::proofs::Wrote::gave_row), unfolding(crate::specs::Words::event_of))]
    pub(crate) fn give(
        self,
        picture: Picture,
        w: u64,
        rows: &mut [u32],
        n: usize,
    ) -> Result<usize, Stop>
        ensures { GaveAs (event_of picture self w) n rows.old rows.new result }
    {
        let time = w % 4294967296;
        if time < self.last as u64 {
            return Err(Stop::Refused(Fault::BadTime));
        }
        let x = (w / 4294967296 % 16384) as u32;
        let y = (w / 70368744177664 % 16384) as u32;
        if picture.holds(x, y) {
            let polarity = (w / 1152921504606846976 % 16) as u32;
            if polarity <= 1 {
                return words::give(rows, n, Row::pixel(time, x, y, polarity));
            }
        }
        Err(Stop::Refused(Fault::Outside))
    }
}
