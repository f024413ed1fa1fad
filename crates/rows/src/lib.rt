// Rows of events, and the rules that every format keeps.
//
// An event is a row of ten 32-bit numbers: its kind, the two halves of its time in microseconds, and seven
// numbers of the kind's own. Readers put rows into a slice that the caller lends, writers take rows out of one,
// and nothing here allocates or names a format:
//
//     Row::pixel(time, x, y, polarity)    a row of a kind from its values; so for the other four kinds. camera_pixel names the camera too
//     put(rows, i, row), get(rows, i)     row i of a lent slice; where there is no row i nothing is touched
//     good(row), judge(kind, row, ..)     the row rules, and what a writer asks of one row after another
//     ReadError, WriteError, Fault        why a reader and a writer refuse, with the number of each refusal
//
// Each function's contract is an equation with a definition of specs/; specs/Promises.antt has the laws.
#![tactic(auto)]

mod fault;
mod row;
mod rules;

pub use fault::{Fault, ReadError, ReadingNumbers, WriteError, WritingNumbers};
pub use row::{Row, get, put, room};
pub use rules::{Kind, good, good_length, judge};
