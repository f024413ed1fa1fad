// AEDAT 3.1 files: text lines, and then packets of events. Source document 001 has the layout; 01, "Files", the rules.
//
//     read(bytes, rows)     the rows of a file, into a lent slice
//
// A file begins with the lines `#!AER-DAT3.1` and `#Format: RAW`, and then lines that start with `#` up to `#!END-HEADER`, each ended
// by CR and LF. Packets of special events, polarity events and IMU6 events are read; frames, IMU9, spikes and the types from 100 on are jumped
// over. Special events become triggers where their type is an edge of an input, polarity events pixels, IMU6 events seven singles.
//
// Refused: 1 too long; then line by line, at the line's first byte, 4 the input ends within it or before the last line, 9 it is bad; then
// packet by packet, at the packet's first byte, 4 its header is cut, 10 it is bad, 4 its data are cut, 10 its marks do not add up; and of
// each valid event, at the event, 5 its time is negative, 11 it resets the clock, 5 it is earlier than the last of its type, 2 no room for its
// row. The rows finished before the fault are in the slice, nothing past them is touched, and places count from the file's first byte.
//
// specs/Lines.antt says what the lines are, specs/Packets.antt what a packet's header says and a packet gives, specs/Events.antt what an event
// does, specs/Specials.antt what the special types mean, specs/Reader.antt what any bytes give.
#![tactic(auto)]

mod event;
mod events;
mod lines;
mod marks;
mod number;
mod packet;
mod reader;
mod reading;
mod special;
mod state;

pub use lines::{Line, Stage};
pub use packet::{Kind, PacketHeader};
pub use reader::read;
pub use state::State;
