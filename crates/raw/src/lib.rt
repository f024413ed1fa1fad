// RAW files: a text header, and then words of EVT2 or EVT3, as the caller says. Source document 000 has the layout; 01, "Files",
// the rules.
//
//     read(bytes, format, rows)     the rows of a file, into a lent slice
//
// The header gives the picture, 2,048 by 2,048 where it says nothing; the words after it are read by crate `evt2` or `evt3`. Refused
// is what the header is refused for (1, 4, 9), at the line, and then what the words are (4, 3, 7, 5, 8, 6, 2). Places count from the file's
// first byte, the header included. The rows finished before the fault are in the slice, and nothing past them is touched.
//
// specs/Reader.antt says what any bytes give.
#![tactic(auto)]

mod reader;

pub use reader::{Format, read};
