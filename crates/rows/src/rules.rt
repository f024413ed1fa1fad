// The row rules: which rows are good, and what a writer asks of one row after another.
ghost use Rattle.std.specs.Prelude.{◌≡◌, length};
ghost use Rattle.rows.specs.Rules.{kind_of, unused, below, timely, good_pair, good_as, good_row, judged_as, good_length};

use crate::fault::Fault;
use crate::row::Row;

// The kinds of rows, 1 to 4 and 6, and every other number. 5 was the USB packet, and is never used again.
#[derive(Clone, Copy, Debug, PartialEq, Eq)]
pub enum Kind {
    Pixel,
    Trigger,
    ImuCounts,
    ImuSingles,
    Special,
    Other,
}

// The kind that a row's first number names.
impl From<u32> for Kind {
    ghost from_gives = { λ number kind. kind ≡ kind_of number };

    #[tactic(auto, unfolding(crate::specs::Rules::kind_of))]
    fn from(number: u32) -> Kind {
        match number {
            1 => Kind::Pixel,
            2 => Kind::Trigger,
            3 => Kind::ImuCounts,
            4 => Kind::ImuSingles,
            6 => Kind::Special,
            _ => Kind::Other,
        }
    }
}

// Whether data numbers are all 0, as unused ones are. Two functions, since the rules name two tests. Here and below all tests are made and joined by `&`, with no branch for each: good
// rows meet every one of them.
fn are_unused<const N: usize>(numbers: [u32; N]) -> bool
    ensures { result ≡ unused numbers.entry }
{
    let mut all = true;
    for n in &numbers {
        all &= *n == 0;
    }
    all
}

// Whether data numbers are all below a limit.
fn are_below<const N: usize>(limit: u32, numbers: [u32; N]) -> bool
    ensures { result ≡ below limit numbers.entry }
{
    let mut all = true;
    for n in &numbers {
        all &= *n < limit;
    }
    all
}

// Whether a row's time is within the limit of 2^34 microseconds.
fn is_timely(row: Row) -> bool
    ensures { result ≡ timely row }
{
    row.time() < 17179869184
}

#[tactic(auto, unfolding(crate::specs::Rules::good_as))]
fn is_pixel(row: Row) -> bool
    ensures { result ≡ good_as Kind.Pixel row }
{
    let timely = is_timely(row);
    let within = are_below(32768, [row.a, row.b]);
    let bits = are_below(2, [row.c, row.d]);
    let unused = are_unused([row.e, row.f, row.g]);
    timely & within & bits & unused
}

// Whether a row has two data numbers below their limits and no others, as triggers and special events have.
fn is_pair(row: Row, first: u32, second: u32) -> bool
    ensures { result ≡ good_pair first second row }
{
    let timely = is_timely(row);
    let unused = are_unused([row.c, row.d, row.e, row.f, row.g]);
    timely & (row.a < first) & (row.b < second) & unused
}

#[tactic(auto, unfolding(crate::specs::Rules::good_as))]
fn is_imu_counts(row: Row) -> bool
    ensures { result ≡ good_as Kind.ImuCounts row }
{
    let timely = is_timely(row);
    let below = are_below(65536, [row.a, row.b, row.c, row.d, row.e, row.f]);
    timely & below & (row.g == 0)
}

// Whether a row keeps the rules of a kind.
#[tactic(auto, unfolding(crate::specs::Rules::good_as))]
fn good_as(kind: Kind, row: Row) -> bool
    ensures { result ≡ good_as kind row }
{
    match kind {
        Kind::Pixel => is_pixel(row),
        Kind::Trigger => is_pair(row, 32, 2),
        Kind::ImuCounts => is_imu_counts(row),
        Kind::ImuSingles => is_timely(row),
        Kind::Special => is_pair(row, 128, 16777216),
        Kind::Other => false,
    }
}

// Whether a row is a good row; any other is refused 12.
#[tactic(auto, unfolding(crate::specs::Rules::good_row))]
pub fn good(row: Row) -> bool
    ensures { result ≡ good_row row }
{
    good_as(Kind::from(row.kind), row)
}

// Whether a list of rows to be written has a length that is not refused 13.
#[tactic(auto, unfolding(crate::specs::Rules::good_length))]
pub fn good_length(rows: &[u32]) -> bool
    ensures { result ≡ good_length (length rows.now) }
{
    rows.len() % 10 == 0 && rows.len() / 10 <= 16777216
}

// One row of a list to be written, by the rules of the kind that the caller names, after a row of the time `last`: its own time, which the
// next row's must reach; or 12 where it breaks the rules or the format cannot write it, then 5 where its time is below `last`. A format that
// has matched on the row's kind names it, and the answer is then `judged_of`.
#[tactic(auto, unfolding(crate::specs::Rules::judged_as))]
pub fn judge(kind: Kind, row: Row, writable: bool, last: u64) -> Result<u64, Fault>
    ensures { result ≡ judged_as kind writable row last }
{
    let good = good_as(kind, row);
    if good & writable {
        let time = row.time();
        if time < last {
            return Err(Fault::BadTime);
        }
        return Ok(time);
    }
    Err(Fault::BadRow)
}
