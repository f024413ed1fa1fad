// Which words have been seen.
ghost use Rattle.std.specs.Prelude.{◌≡◌};
ghost use Rattle.evt3.specs.Words.{kind_of};
ghost use Rattle.join.specs.Seen.{seen_with, all_seen};

// Which words have been seen, by their kinds alone; at first none. Four facts, and no value stands beside any.
#[derive(Clone, Copy, Debug, Default, PartialEq, Eq)]
pub struct Seen {
    pub high: bool,
    // A TIME_LOW after a TIME_HIGH.
    pub low: bool,
    pub y: bool,
    pub base: bool,
}

impl Seen {
    // With one word more. Each field is worked out whatever the word is: no branch for a processor to guess.
    #[tactic(auto, using(crate::proofs::Told::told_kind))]
    pub(crate) fn with(self, w: u64) -> Seen
        ensures { result ≡ seen_with (kind_of w) self }
    {
        let top = w / 4096 % 16;
        Seen {
            high: (top == 8) | self.high,
            low: ((top == 6) & self.high) | self.low,
            y: (top == 0) | self.y,
            base: (top == 3) | self.base,
        }
    }

    // Whether all four have been seen.
    pub(crate) fn all(self) -> bool
        ensures { result ≡ all_seen self }
    {
        self.high & self.low & self.y & self.base
    }
}
