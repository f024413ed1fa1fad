// An IMU reading in hand, which takes six words.
ghost use Rattle.std.specs.Prelude.{◌≡◌, ◌≤◌};
ghost use Rattle.rows.specs.Row.{room_of};
ghost use Rattle.words.specs.Written.{GaveAs};
ghost use Rattle.evt2.specs.State.{begun, is_last, further};
ghost use Rattle.evt2.specs.Words.{time_at, count_of, counts_of, inside_of};

use rows::{Fault, Row};
use words::Stop;

// An IMU reading of which words are to come. The order leaves no gaps between the fields: gaps would be copied with the reader's state.
#[derive(Clone, Copy, Debug, PartialEq, Eq)]
pub struct Group {
    // Where it begins.
    pub place: usize,
    // Its words so far: the last is e, the one before it d. No array: the row names each of them, and each word would move all of it.
    pub a: u64,
    pub b: u64,
    pub c: u64,
    pub d: u64,
    pub e: u64,
    // The high part of its time.
    pub high: u32,
    // How many words of it are to come.
    pub left: u32,
}

// The time of a word after a high part.
#[tactic(auto, unfolding(crate::specs::Words::time_at))]
pub(crate) fn time_at(high: u32, w: u64) -> u64
    ensures { result ≡ time_at high w }
{
    high as u64 * 64 + w / 4194304 % 64
}

// The count of a word of an IMU reading.
fn count_of(w: u64) -> u32
    ensures { result ≡ count_of w }
{
    (w / 2 % 65536) as u32
}

impl Group {
    // One that begins with a word at a place.
    pub(crate) fn begun(high: u32, place: usize, w: u64) -> Group
        ensures { result ≡ begun high place w }
    {
        Group {
            place,
            a: 0,
            b: 0,
            c: 0,
            d: 0,
            e: w,
            high,
            left: 5,
        }
    }

    // Whether its last word is next.
    fn is_last(self) -> bool
        ensures { result ≡ is_last self }
    {
        self.left <= 1
    }

    // The group with one word more, until it has them all.
    pub(crate) fn further(self, w: u64) -> Option<Group>
        ensures { result ≡ further self w }
    {
        if self.is_last() {
            return None;
        }
        Some(Group {
            a: self.b,
            b: self.c,
            c: self.d,
            d: self.e,
            e: w,
            left: self.left - 1,
            ..self
        })
    }

    // The row of the IMU reading that a word is the last of, at the time of its first.
    #[tactic(auto, unfolding(crate::specs::Words::counts_of))]
    fn counts(self, w: u64) -> Row
        ensures { result ≡ counts_of self w }
    {
        Row::imu_counts(
            time_at(self.high, self.a),
            count_of(self.a),
            count_of(self.b),
            count_of(self.c),
            count_of(self.d),
            count_of(self.e),
            count_of(w),
        )
    }

    // A word inside an IMU reading: the last one gives the row.
    #[tactic(auto, unfolding(crate::specs::Words::inside_of))]
    pub(crate) fn give(self, w: u64, rows: &mut [u32], n: usize) -> Result<usize, Stop>
        ensures { GaveAs (inside_of self w) n rows.old rows.new result }
    {
        if w / 268435456 % 16 == 15 {
            if self.is_last() {
                return words::give(rows, n, self.counts(w));
            }
            return Ok(n);
        }
        Err(Stop::Refused(Fault::Stray))
    }
}
