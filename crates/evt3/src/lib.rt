// EVT3: words of two bytes that say only what changed. Source document 003 has the layout; 01, "EVT3 words" and "Spelling", the rules, and
// 02, R-3, which drops of the high part are wraps, and R-9, which camera a line is of.
//
//     read(bytes, width, height, rows)     the rows of a stream of words, into a lent slice
//     write(rows, out)                     the words of a list of rows, into a lent slice
//
// Reading is refused: 1 too long, 14 the picture's size, then word by word 4 half a word at the end, 3 a reserved type, 5 a clock that
// goes back or wraps for the 1,024th time, 6 a pixel outside the picture, 2 no room for a word's rows. The rows finished before the fault
// are in the slice, nothing past them is touched, and the answer has their count and the place of the word.
//
// Writing is refused: 13 the list's length, then row by row 12 a bad row, or one that these words cannot say, and 5 a time that goes
// back, then 2 a slice shorter than the words. A refused writer touches nothing. Four words an event are enough, and two more for each
// wrap of the clock up to the last time.
//
// The reader's state is a struct by value: for each kind of word that changes it, a method takes the word and hands back the
// next state. specs/Words.antt says what each word does, specs/Reader.antt what any bytes give, specs/Spelling.antt what any list of rows
// is written as. The writer holds what it has told and the pixels of a row group that are not written yet, and writes those when it is
// known how: as one pixel, as a base and a vector, or as a vector from the last base on.
#![tactic(auto)]

mod given;
mod kind;
mod put;
mod reader;
mod span;
mod standing;
mod state;
mod told;
mod writer;

pub use kind::Kind;
pub use reader::read;
pub use state::{Known, State};
pub use told::Told;
pub use writer::write;
