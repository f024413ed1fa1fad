// From which byte on no row is missing.
ghost use Rattle.std.specs.Prelude.{◌≡◌};
ghost use Rattle.join.specs.Seen.{whole_from, whole_numbers};

use crate::seen::Seen;
use words::Word;

// The answer of `whole_from` as two numbers, as the C interface has it: seen 1 and the place, or 0 and 0.
#[repr(C)]
#[derive(Clone, Copy, Debug, PartialEq, Eq)]
pub struct WholeNumbers {
    pub seen: u64,
    pub place: u64,
}

// A place as numbers, or none.
impl From<Option<usize>> for WholeNumbers {
    ghost from_gives = { λ whole numbers. numbers ≡ whole_numbers whole };

    fn from(whole: Option<usize>) -> WholeNumbers {
        match whole {
            Some(place) => WholeNumbers {
                seen: 1,
                place: place as u64,
            },
            None => WholeNumbers { seen: 0, place: 0 },
        }
    }
}

// The place in EVT3 words from which on a fresh reader of them misses no row: after the word by which a TIME_HIGH, a later TIME_LOW, an
// ADDR_Y and a VECT_BASE_X have all been seen. Or none, where they never all are.
pub fn whole_from(bytes: &[u8]) -> Option<usize>
    ensures { result ≡ whole_from bytes.now }
{
    let mut seen = Seen::default();
    let mut at: usize = 0;
    // The place is the answer, so it is counted.
    while let Some(word) = u16::front(&bytes[at..]) {
        let end = at + 2;
        seen = seen.with(u64::from(word));
        if seen.all() {
            return Some(end);
        }
        at = end;
    }
    None
}
