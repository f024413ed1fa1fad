// The writer of every format of words: a list is judged and its words are counted, and then they are written.
ghost use Rattle.std.specs.Prelude.{◌≡◌, ℕ, true};
ghost use Rattle.rows.specs.Row.{rows_of};
ghost use Rattle.rows.specs.Rules.{judged_of};
ghost use Rattle.words.specs.Sinks.{after, Put};
ghost use Rattle.words.specs.Walked.{walk_verdict, words_counted, WalkedAs};
ghost use Rattle.words.specs.Writer.{Spelling, writing_of, Walk, walked};

use crate::sink::{Counted, Sink, Written, room};
use crate::word::Word;
use rows::{Fault, Row, WriteError};

// A format that rows are written in, one after the other.
pub trait Writer {
    type Word: Word;
    // Where a writer stands between two rows.
    type Standing: Copy;

    // What a list is written as, what a row adds where the writer stands, where it stands before the first row, and the time of the row before.
    ghost spelling: { Spelling };

    ghost walk: { Walk Self.Standing };

    ghost begin: { Self.Standing };

    ghost last: { Self.Standing → ℕ };

    fn start() -> Self::Standing
        ensures { result ≡ begin };

    // Judges the next row: 12 where it is bad or the format has no words for it, then 5.
    fn judge(standing: Self::Standing, row: Row) -> Result<u64, Fault>
        ensures { result ≡ judged_of (spelling.writable row) row (last standing) };

    // What a row adds, put into a sink from word `at` on. It answers the place after it.
    fn put<S: Sink>(out: &mut [u8], at: usize, standing: &mut Self::Standing, row: Row) -> usize
        ensures put { Put S.writes Self.Word.SIZE (walk.words standing.old row) out.old at out.new result }
        ensures next { standing.new ≡ walk.next standing.old row };

    // What is left after the last row.
    fn close<S: Sink>(out: &mut [u8], at: usize, standing: Self::Standing) -> usize
        ensures { Put S.writes Self.Word.SIZE (walk.close standing) out.old at out.new result };

    // The words of a list have the size of the type.
    ghost sized: { spelling.size ≡ Self.Word.SIZE };
}

// Judges rows one after the other and counts their words: what is to be written if there is room.
fn count<W: Writer>(rows: &[u32]) -> Result<usize, WriteError>
    ensures { result ≡ writing_of (walk_verdict W.spelling.writable W.walk W.last W.begin (rows_of rows.now) 0) (words_counted (walked W.walk W.begin (rows_of rows.now))) }
{
    let mut nothing: [u8; 0] = [];
    let mut words: usize = 0;
    let mut standing = W::start();
    // A `for` over indices would find each row anew and unwrap it, and an index is what a refusal answers.
    let mut i = 0;
    while let Some(row) = rows::get(rows, i) {
        if let Err(fault) = W::judge(standing, row) {
            return Err(WriteError { fault, row: i });
        }
        // Each row's words are counted from 0 on, which compiled is a small number, and added up here alone.
        words = words.saturating_add(W::put::<Counted>(&mut nothing, 0, &mut standing, row));
        i += 1;
    }
    Ok(words.saturating_add(W::close::<Counted>(&mut nothing, 0, standing)))
}

// Writes the words of rows into a slice.
fn put_rows<W: Writer>(rows: &[u32], out: &mut [u8])
    ensures { out.new ≡ after true W.Word.SIZE out.old 0 (walked W.walk W.begin (rows_of rows.now)) }
{
    let mut at = 0;
    let mut standing = W::start();
    // As in `count`, so that both go through a list in one way.
    let mut done = 0;
    while let Some(row) = rows::get(rows, done) {
        at = W::put::<Written>(out, at, &mut standing, row);
        done += 1;
    }
    W::close::<Written>(out, at, standing);
}

// Writes the words of rows from the first byte of `out` on, and answers how many they are. Refused, it touches nothing. The words are those that the
// format's walk adds. That they are those of its spelling no law of the trait says, since a law can rest on no lemma of a format's proofs/: where they
// are (`Spells`), the format's own promise follows (`spelled_as`).
pub fn write<W: Writer>(rows: &[u32], out: &mut [u8]) -> Result<usize, WriteError>
    ensures { WalkedAs W.Word.SIZE W.spelling.writable W.walk W.begin W.last rows.now out.old out.new result }
{
    if !rows::good_length(rows) {
        return Err(WriteError {
            fault: Fault::BadList,
            row: 0,
        });
    }
    let words = count::<W>(rows)?;
    if room::<W::Word>(out) < words {
        return Err(WriteError {
            fault: Fault::NoRoom,
            row: 0,
        });
    }
    put_rows::<W>(rows, out);
    Ok(words)
}
