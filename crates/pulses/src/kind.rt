// The kinds of words.
ghost use Rattle.std.specs.Prelude.{◌≡◌};
ghost use Rattle.pulses.specs.Words.{kind_outside, kind_within};

// In the order of the top two bits, and then those of a late edge's second word.
#[derive(Clone, Copy, Debug, PartialEq, Eq)]
pub(crate) enum Kind {
    Time,
    Edge,
    Late,
    Reserved,
    Second,
    Stray,
}

impl Kind {
    // That of a word outside a late edge.
    #[tactic(auto, unfolding(crate::specs::Words::kind_outside))]
    pub(crate) fn outside(w: u64) -> Kind
        ensures { result ≡ kind_outside w }
    {
        match w / 16384 % 4 {
            0 => Kind::Time,
            1 => Kind::Edge,
            2 => Kind::Late,
            _ => Kind::Reserved,
        }
    }

    // And of one inside a late edge.
    #[tactic(auto, unfolding(crate::specs::Words::kind_within))]
    pub(crate) fn within(w: u64) -> Kind
        ensures { result ≡ kind_within w }
    {
        match w / 16384 % 4 {
            2 => Kind::Second,
            _ => Kind::Stray,
        }
    }
}
