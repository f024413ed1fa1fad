// Typed events: what a row of each kind stands for.
//
//     Event::try_from(row)                the event of a good row, an IMU's readings as f32; any other row is refused 12
//     event_numbers(numbers)              the same of ten numbers, as the C interface hands it over; other than ten are refused 13
//     acceleration, rotation, single      the reading of a count, and of a pattern of bits
//
// No format needs them: readers and writers speak of rows alone, and `rows` has the rules that make a row good. Each function's contract is
// an equation with a definition of specs/; specs/Promises.antt has the laws, among them that a reading is exact, or rounded once.
#![tactic(auto)]

mod event;
mod readings;

pub use event::{Event, EventNumbers, event_numbers};
pub use readings::{acceleration, rotation, single};
