// DAT files: a text header, two bytes, and then events of eight bytes, each a pixel. Source document 000 has the layout; 01, "Files",
// the rules.
//
//     read(bytes, rows)     the rows of a file, into a lent slice
//
// The header gives the picture, 16,384 by 16,384 where it says nothing. Refused is what the header is refused for (1, 4, 9), at the line; of
// the two bytes after it, which are 0 and 8, 4 where they are cut and 9 where one is wrong, at the first; and then event by
// event 4 the file ends within it, 5 a time below the last, 6 a pixel outside the picture or a polarity over 1, 2 no room for its
// row. The rows finished before the fault are in the slice, nothing past them is touched, and places count from the file's first byte.
//
// An event is a word of eight bytes: the machine of crate `words` reads it. specs/Words.antt says what a word does, specs/Reader.antt
// what any bytes give.
#![tactic(auto)]

mod events;
mod reader;
mod state;

pub use reader::read;
pub use state::State;
