// The writer of a summary: the list is judged before a byte is written.
ghost use Rattle.std.specs.Prelude.{◌≡◌, [], ◌∷◌, ◌++◌, ◌+◌, ◌-◌, ◌*◌, ◌≤◌, ◌<◌, length};
ghost use Rattle.std.proofs.lemmas.List.Edits.{sets};
ghost use Rattle.rows.specs.Row.{room_of, row_from, rows_from, rows_of};
ghost use Rattle.rows.specs.Rules.{good_row};
ghost use Rattle.words.specs.Words.{bytes_of};
ghost use Rattle.words.specs.Writer.{writing_of, PutWords};
ghost use Rattle.summary.specs.Blocks.{block_count, block_of, summary_of};
ghost use Rattle.summary.specs.Stored.{field, block_bytes, block_fields, stored_of};
ghost use Rattle.summary.specs.Verdicts.{verdict_by, in_any_order};
ghost use Rattle.summary.specs.Writer.{Few, Within, Puts, add_row, WroteSummary};

use crate::{BLOCK, Block, block_count};
use rows::{Fault, Row, WriteError};
use words::{Word, put_word};

// Row i, which the list has.
fn row_at(rows: &[u32], i: usize) -> Row
    requires { i < room_of rows.now }
    ensures { result ≡ row_from rows.now (i * 10) }
{
    rows::get(rows, i).unwrap()
}

// Judges rows one after the other and counts the bytes of their summary: what is to be written if there is room.
fn count(rows: &[u32]) -> Result<usize, WriteError>
    ensures { result ≡ writing_of (verdict_by (in_any_order good_row) (rows_of rows.now) 0 0) (length (stored_of (rows_of rows.now))) }
{
    let n = rows::room(rows);
    for i in 0..n {
        if !rows::good(row_at(rows, i)) {
            return Err(WriteError {
                fault: Fault::BadRow,
                row: i,
            });
        }
    }
    Ok(7 + block_count(n) * 59)
}

// A block with one row more.
#[tactic(auto, unfolding(crate::specs::Writer::add_row))]
fn add_row(block: Block, row: Row) -> Block
    requires { Few 255 block }
    ensures { result ≡ add_row block row }
{
    let time = row.time();
    Block {
        first: block.first,
        last: time,
        smallest: block.smallest.min(time),
        largest: block.largest.max(time),
        pixels: block.pixels + u32::from(row.kind == 1),
        triggers: block.triggers + u32::from(row.kind == 2),
        counts: block.counts + u32::from(row.kind == 3),
        singles: block.singles + u32::from(row.kind == 4),
        packets: block.packets + u32::from(row.kind == 5),
        specials: block.specials + u32::from(row.kind == 6),
    }
}

// What is kept of the rows from one up to another: at least one row, and at most 256.
fn block_of(rows: &[u32], from: usize, to: usize) -> Block
    requires { Within (room_of rows.now) from to }
    ensures { result ≡ block_of (rows_from rows.now from (to - from)) }
{
    let time = row_at(rows, from).time();
    let mut block = Block {
        first: time,
        smallest: time,
        largest: time,
        ..Block::default()
    };
    for i in from..to {
        block = add_row(block, row_at(rows, i));
    }
    block
}

// A word of a number that has room; answers the place after it.
fn put_number<W: Word>(out: &mut [u8], at: usize, number: u64) -> usize
    requires { at + W.SIZE ≤ length out.old }
    ensures { PutWords W.SIZE (number ∷ []) out.old at out.new result }
{
    put_word::<W>(out, at, number).unwrap()
}

// Words of numbers at a place, one after the other; answers the place after them, as put_head and put_block do.
fn put_words<W: Word>(out: &mut [u8], at: usize, numbers: &[u64]) -> usize
    requires { at + length numbers.now * W.SIZE ≤ length out.old }
    ensures { PutWords W.SIZE numbers.now out.old at out.new result }
{
    let mut at = at;
    for number in numbers {
        at = put_number::<W>(out, at, *number);
    }
    at
}

// What a field begins with: its tag and the length of its contents.
fn put_head(out: &mut [u8], at: usize, tag: u8, size: u64) -> usize
    requires { at + 3 ≤ length out.old }
    ensures { Puts (bytes_of 1 tag ++ bytes_of 2 size) out.old at out.new result }
{
    out[at] = tag;
    put_number::<u16>(out, at + 1, size)
}

// The field of a block.
fn put_block(out: &mut [u8], at: usize, block: Block) -> usize
    requires { at + 59 ≤ length out.old }
    ensures { Puts (field 2 (block_bytes block)) out.old at out.new result }
{
    let numbers = block.numbers();
    let times = put_head(out, at, 2, 56);
    let kinds = put_words::<u64>(out, times, &numbers[..4]);
    put_words::<u32>(out, kinds, &numbers[4..])
}

// The fields of all blocks.
fn put_blocks(rows: &[u32], out: &mut [u8], at: usize)
    requires { at + block_count (room_of rows.now) * 59 ≤ length out.old }
    ensures { out.new ≡ sets out.old at (block_fields (summary_of (rows_of rows.now))) }
{
    let n = rows::room(rows);
    let mut at = at;
    for j in 0..block_count(n) {
        let from = j * BLOCK;
        let to = n.min(from + BLOCK);
        at = put_block(out, at, block_of(rows, from, to));
    }
}

// The stored summary, where there is room for it.
fn put_summary(rows: &[u32], out: &mut [u8])
    requires { 7 + block_count (room_of rows.now) * 59 ≤ length out.old }
    ensures { out.new ≡ sets out.old 0 (stored_of (rows_of rows.now)) }
{
    let count = put_head(out, 0, 1, 4);
    let blocks = put_number::<u32>(out, count, rows::room(rows) as u64);
    put_blocks(rows, out, blocks);
}

// Writes the summary of a list and answers its bytes; or 13, 12 at the first bad row, or 2, with nothing touched. The times may
// go back, and what is written is no words of rows, so that this is no writer of `words`.
pub fn write(rows: &[u32], out: &mut [u8]) -> Result<usize, WriteError>
    ensures { WroteSummary rows.now out.old out.new result }
{
    if !rows::good_length(rows) {
        return Err(WriteError {
            fault: Fault::BadList,
            row: 0,
        });
    }
    let bytes = count(rows)?;
    if out.len() < bytes {
        return Err(WriteError {
            fault: Fault::NoRoom,
            row: 0,
        });
    }
    put_summary(rows, out);
    Ok(bytes)
}
