// Join part way: a fresh EVT3 reader that begins at any word of a recording. 02, R-10.
//
//     whole_from(bytes)     the byte from which on a fresh reader of these bytes misses no row
//
// There is no reader here: to join is to read the rest of the bytes with evt3's own. What comes out of that, for every recording which is read without
// refusal and every word of it, is the law JoinPartWay of specs/Promises.antt: the reader that joined is never refused, and each of its words gives no
// row, or those that the full reader gave of it, with one and the same multiple of 2^24 between the times. Once it has seen a TIME_HIGH, a later
// TIME_LOW, an ADDR_Y and a VECT_BASE_X, every word gives them all: `whole_from` says where that is, and the law NoneMissing that it is so.
#![tactic(auto)]

mod seen;
mod whole;

pub use seen::Seen;
pub use whole::{WholeNumbers, whole_from};
