// The text header that RAW and DAT files begin with. Source document 000 has the layout; 01, "Files", the rules.
//
//     read(bytes, limit)     where the data begin, and the picture's width and height, each 1 to the limit of the format
//     line_end(bytes, most)  where the line at the front ends; other text headers use it too
//
// The header is every leading line that starts with 0x25 0x20, a percent sign and a space; there may be none. A line of the
// keyword `width` or `height`, in any letter case, gives that side of the picture: an optional colon, one space and one to five digits,
// and then the newline. Other lines are passed over. A side that no line gives is the limit.
//
// Refused: 1 too long, and then line by line, at the line's first byte, 4 the input ends within the line, 9 no newline among its
// first 256 bytes, or a width or height that is malformed, 0, over the limit or said before. A comma or a point in one of
// them is malformed: it is never passed over, so that 12,5 is no 125.
//
// specs/Lines.antt says where a line ends, specs/Texts.antt when two texts are the same in any letter case, specs/Sides.antt what a line
// says of the picture, specs/Header.antt what any bytes give.
#![tactic(auto)]

mod line;
mod reader;
mod side;
mod value;

pub use line::line_end;
pub use reader::{Header, HeaderError, HeaderNumbers, read};
