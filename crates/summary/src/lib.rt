// A summary of rows: for each block of 256 rows its first, last, smallest and largest time, and its number of rows of each kind.
//
//     write(rows, out)      the stored summary of a list: a field for the row count, and one for each block
//     read(bytes, blocks)   the row count of a stored summary, and the ten numbers of each block
//     block_count(rows)     how many blocks so many rows make
//
// specs/Blocks.antt says what is kept of a list, specs/Stored.antt which bytes that is, and specs/Fields.antt what any bytes hold.
#![tactic(auto)]

ghost use Rattle.std.specs.Prelude.{◌≡◌};
ghost use Rattle.summary.specs.Blocks.{block_count, ten_of};

mod reader;
mod writer;

pub use reader::{Refusal, SummaryNumbers, read};
pub use writer::write;

// What is kept of a block of rows: four times in microseconds, and the number of rows of each kind, 1 to 6. No good row is a
// packet any more.
// The six numbers are named and no array: a name says what is counted, and an array's length would stand in every law.
#[derive(Clone, Copy, Debug, Default, PartialEq, Eq)]
pub struct Block {
    pub first: u64,
    pub last: u64,
    pub smallest: u64,
    pub largest: u64,
    pub pixels: u32,
    pub triggers: u32,
    pub counts: u32,
    pub singles: u32,
    pub packets: u32,
    pub specials: u32,
}

impl Block {
    // The ten numbers of a block, as the reader hands them out.
    pub(crate) fn numbers(self) -> [u64; 10]
        ensures { result ≡ ten_of self }
    {
        [
            self.first,
            self.last,
            self.smallest,
            self.largest,
            self.pixels as u64,
            self.triggers as u64,
            self.counts as u64,
            self.singles as u64,
            self.packets as u64,
            self.specials as u64,
        ]
    }
}

// The rows of a block, but for the last.
const BLOCK: usize = 256;

// How many blocks so many rows make.
pub fn block_count(rows: usize) -> usize
    ensures { result ≡ block_count rows }
{
    rows.div_ceil(BLOCK)
}
