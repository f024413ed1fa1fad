// Formats that name a word's kind first, and then say apart what it gives and where it leads: the plainer form. The formats of this library are written in one
// step for each word (`StepReader`), which was up to three times as fast for words that set something.
ghost use Rattle.std.specs.Prelude.{◌≡◌, ℕ, min, MatchOption, length};
ghost use Rattle.rows.specs.Row.{room_of};
ghost use Rattle.rows.specs.Runs.{ReadAs};
ghost use Rattle.words.specs.Machine.{Machine, Given, read_from};
ghost use Rattle.words.specs.Written.{given_of, next_of, IsGiven, GaveAs};

use crate::reader::{StepReader, read_steps};
use crate::word::Word;
use crate::{Stop, Turn};
use rows::ReadError;

// A format that is read word by word, in three methods: the kind of a word, the rows that a word of a kind gives, and the state that it leads to.
pub trait Reader {
    type Word: Word;

    type State: Copy;

    type Kind: Copy;

    // The machine that the methods run, its state before the first word, and the kind of a word in a state.
    ghost machine: { Self → Machine Self.State };

    ghost start: { Self.State };

    ghost kind_in: { Self → Self.State → ℕ → Self.Kind };

    // What a word gives and where it leads where it is taken for one of a kind.
    ghost given_as: { Self → Self.State → Self.Kind → ℕ → Given };

    ghost next_as: { Self → Self.State → Self.Kind → ℕ → ℕ → Self.State };

    fn fresh(&self) -> Self::State
        ensures { result ≡ start };

    // The kind of a word, by which the next two methods tell words apart: it is worked out once.
    fn kind(&self, state: Self::State, w: u64) -> Self::Kind
        ensures { result ≡ kind_in self.now state w };

    // Writes the rows that a word gives, taken for one of a kind, all or none, after the n that are in the slice. Of its own kind they are the machine's.
    fn give(
        &self,
        state: Self::State,
        kind: Self::Kind,
        w: u64,
        rows: &mut [u32],
        n: usize,
    ) -> Result<usize, Stop>
        ensures any { GaveAs (given_as self.now state kind w) n rows.old rows.new result }
        ensures own { kind ≡ kind_in self.now state w → (place : ℕ) → GaveAs (given_of ((machine self.now).step state place w)) n rows.old rows.new result };

    // The state after a word at a place, taken for one of a kind, or none where it sets nothing. Of its own kind, and not refused, it is the machine's.
    fn next(
        &self,
        state: Self::State,
        kind: Self::Kind,
        place: usize,
        w: u64,
    ) -> Option<Self::State>
        ensures any { MatchOption result (next_as self.now state kind place w ≡ state) (λ t. t ≡ next_as self.now state kind place w) }
        ensures own { kind ≡ kind_in self.now state w → IsGiven (given_of ((machine self.now).step state place w)) → MatchOption result (next_of ((machine self.now).step state place w) state ≡ state) (λ t. t ≡ next_of ((machine self.now).step state place w) state) };

    // Whether a group is in hand.
    fn is_pending(&self, state: Self::State) -> bool
        ensures { result ≡ (machine self.now).pending state };

    // Where it begins, and else the word at a place.
    fn origin(&self, state: Self::State, at: usize) -> usize
        ensures { result ≡ (machine self.now).origin state at };

    // The machine's words have the size of the type.
    ghost sized: { (r : Self) → (machine r).size ≡ Self.Word.SIZE };
}

// Such a format as one that is read in one step for each word.
#[derive(Clone, Copy)]
struct InKinds<'r, R: Reader> {
    reader: &'r R,
}

impl<R: Reader> StepReader for InKinds<'_, R> {
    type Word = R::Word;

    type State = R::State;

    ghost machine = { λ k. R.machine k.reader.now };

    ghost start = { R.start };

    ghost sized = { λ k. R.sized k.reader.now };

    fn fresh(&self) -> R::State {
        self.reader.fresh()
    }

    fn step(
        &self,
        state: &mut R::State,
        place: usize,
        w: u64,
        rows: &mut [u32],
        n: usize,
    ) -> Result<Turn, Stop> {
        let kind = self.reader.kind(*state, w);
        let count = self.reader.give(*state, kind, w, rows, n)?;
        match self.reader.next(*state, kind, place, w) {
            None => Ok(Turn::Stays(count)),
            Some(next) => {
                *state = next;
                Ok(Turn::Moves(count))
            }
        }
    }

    fn is_pending(&self, state: R::State) -> bool {
        self.reader.is_pending(state)
    }

    fn origin(&self, state: R::State, at: usize) -> usize {
        self.reader.origin(state, at)
    }
}

// Reads the words of such a format from a place on into rows; past the end there are none.
pub fn read_words<R: Reader>(
    reader: &R,
    bytes: &[u8],
    from: usize,
    rows: &mut [u32],
) -> Result<usize, ReadError>
    ensures { ReadAs (read_from (R.machine reader.now) bytes.now R.start (min from (length bytes.now)) (room_of rows.old)) rows.old rows.new result }
{
    read_steps(&InKinds { reader }, bytes, from, rows)
}
