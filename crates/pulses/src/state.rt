// What a reader of pulses knows between two words.
ghost use Rattle.std.specs.Prelude.{◌≡◌};
ghost use Rattle.pulses.specs.Words.{with_time, with_late};

// The first word of a late edge, and its place.
#[derive(Clone, Copy, Debug, PartialEq, Eq)]
pub(crate) struct Late {
    pub place: usize,
    pub word: u64,
}

// The last time, and the late edge in hand.
#[derive(Clone, Copy, Debug, Default, PartialEq, Eq)]
pub(crate) struct State {
    pub time: u64,
    pub late: Option<Late>,
}

impl State {
    // A late edge begins.
    pub(crate) fn begun(self, place: usize, word: u64) -> State
        ensures { result ≡ with_late self place word }
    {
        State {
            time: self.time,
            late: Some(Late { place, word }),
        }
    }

    // A time, after which no late edge is in hand.
    pub(crate) fn timed(w: u64) -> State
        ensures { result ≡ with_time w }
    {
        State {
            time: w % 16384,
            late: None,
        }
    }
}
