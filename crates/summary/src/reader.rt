// The reader of a stored summary: all of it is judged before a number is handed out.
ghost use Rattle.std.specs.Prelude.{◌≡◌, ◌+◌, ◌<◌, ◌≤◌, ℕ, length, take, drop, IfOk, IfErr, IfSome};
ghost use Rattle.std.proofs.lemmas.List.Edits.{sets};
ghost use Rattle.words.specs.Words.{value};
ghost use Rattle.summary.specs.Fields.{Fields, tagged, fields_of, block_from, adds_up, blocks_from};
ghost use Rattle.summary.specs.Reader.{refusal_number, summary_numbers, CutAs, field_or, next_in, many_of, HandedOut, ReadAs};

use crate::{BLOCK, Block, block_count};
use words::Word;

// Why bytes are refused.
#[derive(Clone, Copy, Debug, PartialEq, Eq)]
pub enum Refusal {
    // The input is longer than 1,073,741,824 bytes.
    TooLong = 1,
    // The numbers of the blocks do not fit the lent slice.
    NoRoom = 2,
    // A bad summary.
    BadSummary = 17,
}

// What `read` answers as two numbers, as a C interface has it: refusal 0 and the row count, or the refusal and 0.
#[repr(C)]
#[derive(Clone, Copy, Debug, PartialEq, Eq)]
pub struct SummaryNumbers {
    pub refusal: u64,
    pub rows: u64,
}

// A field of a known tag: the row count, or a block.
#[derive(Clone, Copy, Debug, PartialEq, Eq)]
pub enum Field {
    Count(usize),
    Block(Block),
}

// The number of a refusal.
impl From<Refusal> for u64 {
    ghost from_gives = { λ refusal number. number ≡ refusal_number refusal };

    fn from(refusal: Refusal) -> u64 {
        refusal as u64
    }
}

// What `read` answers as numbers: the row count, or why it refused.
impl From<Result<usize, Refusal>> for SummaryNumbers {
    ghost from_gives = { λ answer numbers. numbers ≡ summary_numbers answer };

    fn from(answer: Result<usize, Refusal>) -> SummaryNumbers {
        match answer {
            Ok(rows) => SummaryNumbers {
                refusal: 0,
                rows: rows as u64,
            },
            Err(refusal) => SummaryNumbers {
                refusal: u64::from(refusal),
                rows: 0,
            },
        }
    }
}

// The field at the front of bytes: its tag, its contents, and the bytes after it; or none where it is cut.
fn cut(bytes: &[u8]) -> Option<(u8, &[u8], &[u8])>
    ensures { CutAs bytes.now result }
{
    let [tag, low, high, after @ ..] = bytes else {
        return None;
    };
    let size = *low as usize + 256 * *high as usize;
    let (contents, rest) = after.split_at_checked(size)?;
    Some((*tag, contents, rest))
}

// The number at a place.
fn number<W: Word>(bytes: &[u8], at: usize) -> W
    requires { at + W.SIZE ≤ length bytes.now }
    ensures { W.number result ≡ value (take W.SIZE (drop at bytes.now)) }
{
    W::front(&bytes[at..]).unwrap()
}

// The block that 56 bytes hold.
#[tactic(auto, unfolding(crate::specs::Fields::block_from))]
fn block_from(contents: &[u8]) -> Block
    requires { length contents.now ≡ 56 }
    ensures { result ≡ block_from contents.now }
{
    Block {
        first: number(contents, 0),
        last: number(contents, 8),
        smallest: number(contents, 16),
        largest: number(contents, 24),
        pixels: number(contents, 32),
        triggers: number(contents, 36),
        counts: number(contents, 40),
        singles: number(contents, 44),
        packets: number(contents, 48),
        specials: number(contents, 52),
    }
}

// The field of a tag and contents: none of an unknown tag, and refused where a known one has contents of another length.
fn field_of(tag: u8, contents: &[u8]) -> Result<Option<Field>, Refusal>
    ensures same { (rest : Fields) → tagged tag contents.now rest ≡ field_or result rest }
    ensures refused { IfErr result (λ refusal. refusal ≡ Refusal.BadSummary) }
{
    match (tag, contents.len()) {
        (1, 4) => Ok(Some(Field::Count(number::<u32>(contents, 0) as usize))),
        (2, 56) => Ok(Some(Field::Block(block_from(contents)))),
        (1, _) | (2, _) => Err(Refusal::BadSummary),
        _ => Ok(None),
    }
}

// The next field of a known tag, and the bytes after it; or none before the end.
fn next_field(bytes: &[u8]) -> Result<Option<(Field, &[u8])>, Refusal>
    ensures same { fields_of bytes.now ≡ next_in result }
    ensures refused { IfErr result (λ refusal. refusal ≡ Refusal.BadSummary) }
    ensures shorter { IfOk result (λ found. IfSome found (λ next. length next.1.now < length bytes.now)) }
{
    let mut rest = bytes;
    while !rest.is_empty() {
        let (tag, contents, after) = cut(rest).ok_or(Refusal::BadSummary)?;
        if let Some(field) = field_of(tag, contents)? {
            return Ok(Some((field, after)));
        }
        rest = after;
    }
    Ok(None)
}

// Whether the kinds' numbers add up to so many rows, with none of kind 5.
#[tactic(auto, unfolding(crate::specs::Fields::adds_up))]
fn adds_up(rows: u64, block: Block) -> bool
    ensures { result ≡ adds_up rows block }
{
    let sum = block.pixels as u64
        + block.triggers as u64
        + block.counts as u64
        + block.singles as u64
        + block.packets as u64
        + block.specials as u64;
    (sum == rows) & (block.packets == 0)
}

// How many blocks follow the row count: as many as so many rows make, and each adds up.
fn judge(fields: &[u8], rows: usize) -> Result<usize, Refusal>
    ensures { result ≡ many_of (blocks_from rows 0 (fields_of fields.now)) }
{
    let mut rest = fields;
    let mut left = rows as u64;
    let mut many: usize = 0;
    while let Some((field, after)) = next_field(rest)? {
        let block = match field {
            Field::Count(_) => return Err(Refusal::BadSummary),
            Field::Block(block) => block,
        };
        let some = left.min(BLOCK as u64);
        if !adds_up(some, block) {
            return Err(Refusal::BadSummary);
        }
        left -= some;
        many += 1;
        rest = after;
    }
    if many != block_count(rows) {
        return Err(Refusal::BadSummary);
    }
    Ok(many)
}

// Puts ten numbers at a place, one by one: `copy_from_slice` asks whether the two overlap, and a block then takes 1.2 times as long.
fn put_ten(out: &mut [u64], at: usize, ten: [u64; 10])
    requires { at + length ten ≤ length out.old }
    ensures { out.new ≡ sets out.old at ten }
{
    for (k, number) in ten.iter().enumerate() {
        out[at + k] = *number;
    }
}

// Puts the ten numbers of each block, one block after the other, as far as there is room. A fault ends them, as the end does.
fn hand_out(fields: &[u8], out: &mut [u64])
    ensures { HandedOut (fields_of fields.now) out.old out.new }
{
    let mut rest = fields;
    for j in 0..out.len() / 10 {
        let Some((field, after)) = next_field(rest).unwrap_or(None) else {
            return;
        };
        let Field::Block(block) = field else {
            return;
        };
        put_ten(out, j * 10, block.numbers());
        rest = after;
    }
}

// Reads a stored summary: answers the row count and puts the ten numbers of each block into the lent slice; or 1, 17 or 2, with
// nothing touched.
pub fn read(bytes: &[u8], blocks: &mut [u64]) -> Result<usize, Refusal>
    ensures { ReadAs bytes.now blocks.old blocks.new result }
{
    if 1073741824 < bytes.len() {
        return Err(Refusal::TooLong);
    }
    match next_field(bytes)? {
        Some((Field::Count(rows), fields)) => {
            let many = judge(fields, rows)?;
            if blocks.len() / 10 < many {
                return Err(Refusal::NoRoom);
            }
            hand_out(fields, blocks);
            Ok(rows)
        }
        Some((Field::Block(_), _)) => Err(Refusal::BadSummary),
        None => Err(Refusal::BadSummary),
    }
}
