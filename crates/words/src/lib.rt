// Words of a stream of bytes, the low byte first, and the machine that reads them.
//
// A format of words is a machine over a state of its own: the size of a word, what a word does to the state and which
// rows it gives, where the group in hand begins, and whether one is. What the machine gives for any bytes is said once,
// in specs/Machine.antt, and one loop runs the machine of each format of words. What a list of rows is written as is said in specs/Writer.antt.
//
//     Word                          a word of two, four or eight bytes: u16, u32, u64
//     first::<W>(bytes)             the word at the front of a slice, a part of one, or the end
//     put_word::<W>(out, at, n)     a number stored as a word, where it has room
//     StepReader, read_steps        a format that is read in one step for each word, and the loop that reads it
//     Reader, read_words            a format that is read in three methods, for the kind of a word, its rows and the next state; the same loop reads it
//     Writer, write                 a format that is written, and the function that writes it
//     Sink, Written, Counted        where its words go: into a slice, or nowhere, where they are counted alone
//     give(rows, n, row)            a word's row into a lent slice, after the n that are there
//     Turn, Stop                    that a word was read, and why it was not
//     admit(bytes, picture)         refusals 1 and 14, which come before the first word
//     Picture                       the picture that pixels lie in
//
// Bit fields are written with / and % in code, and as `field` in specs/Fields.antt, whose laws hold for every position and width.
#![tactic(auto)]

ghost use Rattle.std.specs.Prelude.{[], ◌∷◌};
ghost use Rattle.words.specs.Machine.{gives};
ghost use Rattle.words.specs.Written.{GaveAs};

use rows::{Fault, Row};

mod kinds;
mod picture;
mod reader;
mod sink;
mod word;
mod writer;

pub use kinds::{Reader, read_words};
pub use picture::{Picture, admit};
pub use reader::{StepReader, read_steps};
pub use sink::{Counted, Sink, Written};
pub use word::{Word, first, put_word};
pub use writer::{Writer, write};

// Why none of a word's rows were written: there is no room for them, or the word is refused.
#[derive(Clone, Copy, Debug, PartialEq, Eq)]
pub enum Stop {
    Full,
    Refused(Fault),
}

// A word that was read: how many rows there are then, and whether the state stays, may have moved, or moved by a tick of its clock. A tick is a move:
// it is told apart for the loop alone, which goes its own way for each of the three.
#[derive(Clone, Copy, Debug, PartialEq, Eq)]
pub enum Turn {
    Stays(usize),
    Moves(usize),
    Ticks(usize),
}

// One row after the n that are in the slice, if there is room for it: so many are finished then. The slice and n stay two parameters here and
// in the formats: as one struct they were tried, and took a tenth of their speed from single EVT3 pixels.
pub fn give(rows: &mut [u32], n: usize, row: Row) -> Result<usize, Stop>
    ensures { GaveAs (gives (row ∷ [])) n rows.old rows.new result }
{
    if rows::put(rows, n, row) {
        return Ok(n + 1);
    }
    Err(Stop::Full)
}
