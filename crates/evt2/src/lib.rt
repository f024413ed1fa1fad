// EVT2: words of four bytes; a pixel and a trigger take one each, an IMU reading six. Source document 002 has the layout, 000 that of IMU readings;
// 01, "EVT2 words" and "Spelling", the rules. USB packets, which 000 has too, are passed over (02, R-11).
//
//     read(bytes, width, height, rows)     the rows of a stream of words, into a lent slice
//     write(rows, out)                     the words of a list of rows, into a lent slice
//
// Reading is refused: 1 too long, 14 the picture's size, then word by word 4 the input ends within a word or a group, 3 a
// reserved type, 5 a TIME_HIGH lower than before, 8 a word inside a group that is not CONTINUED, 6 a pixel outside the picture,
// 2 no room for a row. The rows finished before the fault are in the slice, nothing past them is touched, and the answer has
// their count and the place of the word, or of the group for 4 and 2.
//
// Writing is refused: 13 the list's length, then row by row 12 a bad row, or one that these words cannot say, and 5 a time
// that goes back, then 2 a slice shorter than the words. A refused writer touches nothing.
//
// Both run in the loops of crate `words`: `Words` is the machine that its reader asks of each word, `Spelled` what its writer asks of each row. The
// reader's state is a struct: one method takes a word, writes its row and moves the state. specs/Words.antt says what each word does,
// specs/Reader.antt what any bytes give, specs/Spelling.antt what any list of rows is written as.
#![tactic(auto)]

mod group;
mod kind;
mod reader;
mod state;
mod writer;

pub use group::Group;
pub use kind::Kind;
pub use reader::read;
pub use state::State;
pub use writer::write;
