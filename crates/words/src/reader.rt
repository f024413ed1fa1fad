// The reader of every format of words: one loop over the words of bytes, by the format's machine.
ghost use Rattle.std.specs.Prelude.{◌≡◌, min, length};
ghost use Rattle.rows.specs.Row.{room_of};
ghost use Rattle.rows.specs.Runs.{ReadAs};
ghost use Rattle.words.specs.Machine.{Machine, read_from};
ghost use Rattle.words.specs.Written.{StepAs};

use crate::word::{Word, first};
use crate::{Stop, Turn};
use rows::{Fault, ReadError};

// A format that is read word by word, in one step for each.
pub trait StepReader {
    type Word: Word;

    type State: Copy;

    // The machine that the methods run, and its state before the first word.
    ghost machine: { Self → Machine Self.State };

    ghost start: { Self.State };

    fn fresh(&self) -> Self::State
        ensures { result ≡ start };

    // Reads a word at a place: writes the rows that it gives, all or none, after the n that are in the slice, answers how many there are then, and moves
    // the state, if the word sets something; where it stops, the state stays. One method and one match on a word's kind: where one method gave the rows
    // and another the state, words that set something took up to three times as long.
    fn step(
        &self,
        state: &mut Self::State,
        place: usize,
        w: u64,
        rows: &mut [u32],
        n: usize,
    ) -> Result<Turn, Stop>
        ensures { StepAs ((machine self.now).step state.old place w) state.old n rows.old rows.new result state.new };

    // Whether a group is in hand.
    fn is_pending(&self, state: Self::State) -> bool
        ensures { result ≡ (machine self.now).pending state };

    // Where it begins, and else the word at a place.
    fn origin(&self, state: Self::State, at: usize) -> usize
        ensures { result ≡ (machine self.now).origin state at };

    // The machine's words have the size of the type.
    ghost sized: { (r : Self) → (machine r).size ≡ Self.Word.SIZE };
}

// Reads the words from a place on into rows; past the end there are none.
pub fn read_steps<R: StepReader>(
    reader: &R,
    bytes: &[u8],
    from: usize,
    rows: &mut [u32],
) -> Result<usize, ReadError>
    ensures { ReadAs (read_from (R.machine reader.now) bytes.now R.start (min from (length bytes.now)) (room_of rows.old)) rows.old rows.new result }
{
    let mut state = reader.fresh();
    // The place of a word is what a refusal answers; words are taken from the front of what is left, and one that is cut is no chunk.
    let mut at = from.min(bytes.len());
    let mut n = 0;
    while let Some(front) = first::<R::Word>(&bytes[at..]) {
        match front {
            Err(fault) => {
                return Err(ReadError {
                    fault,
                    rows: n,
                    place: reader.origin(state, at),
                });
            }
            Ok(w) => {
                match reader.step(&mut state, at, w, rows, n) {
                    Err(Stop::Full) => {
                        return Err(ReadError {
                            fault: Fault::NoRoom,
                            rows: n,
                            place: reader.origin(state, at),
                        });
                    }
                    // A stray word is at fault itself, and not its group.
                    Err(Stop::Refused(fault)) => {
                        return Err(ReadError {
                            fault,
                            rows: n,
                            place: at,
                        });
                    }
                    Ok(Turn::Stays(count)) => {
                        n = count;
                        at += R::Word::SIZE;
                    }
                    // Words that move the state go round the loop from here, so that the others have a way of their own, in which the state stays
                    // where it is: without it EVT2 takes a fifth longer.
                    Ok(Turn::Moves(count)) => {
                        n = count;
                        at += R::Word::SIZE;
                        continue;
                    }
                    // So do ticks, which leave a group in hand where it is: in one way with the others they took half as long again.
                    Ok(Turn::Ticks(count)) => {
                        n = count;
                        at += R::Word::SIZE;
                        continue;
                    }
                }
            }
        }
    }
    if reader.is_pending(state) {
        return Err(ReadError {
            fault: Fault::Cut,
            rows: n,
            place: reader.origin(state, at),
        });
    }
    Ok(n)
}
