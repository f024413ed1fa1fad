// Holds the library to the cases of a table: the file stdin beside src/, one case a line, whose head says how a case is written. Of a case that
// does not hold a line says what came back; the last line has the numbers of cases and of those that do not hold. The last cases of
// the table state what is wrong, to show that this is seen; the file stdout has their lines. No answer is taken from a run.
#![tactic(auto)]

ghost use Rattle.std.specs.Prelude.{◌≤◌, length, IfOk};

use std::io;
use std::io::Read;

mod calls;
mod case;
mod data;
mod parts;
mod text;

// The bytes of the longest table, and one more.
const TABLE: usize = 262144;

#[derive(Clone, Copy, Default)]
struct Tally {
    cases: u64,
    failed: u64,
}

impl Tally {
    // Counts the case of a line; one that is empty or begins with `#` is no case.
    fn count(&mut self, rt: &impl Print, line: &[u8]) -> io::Result<()> {
        if let [] | [b'#', ..] = line {
            return Ok(());
        }
        self.cases = self.cases.wrapping_add(1);
        if !case::holds(rt, line)? {
            self.failed = self.failed.wrapping_add(1);
        }
        Ok(())
    }
}

// Reads until the buffer is full or the input ends, and answers what was read. What `std` has for this needs a `Vec`, and the heap would be one
// more thing to trust.
fn read_full<'a>(input: &mut impl Read, buf: &'a mut [u8]) -> io::Result<&'a [u8]>
    ensures { IfOk result (λ read. length read.now ≤ length buf.old) }
{
    let mut done = 0;
    while done < buf.len() {
        let n = input.read(&mut buf[done..])?;
        if n == 0 {
            break;
        }
        done += n;
    }
    Ok(&buf[..done])
}

fn main(rt: HostRuntime) -> io::Result<()> {
    let mut buffer = [0; TABLE];
    let table = read_full(&mut rt.stdin(), &mut buffer)?;
    let mut tally = Tally::default();
    for line in table.split(|byte| *byte == b'\n') {
        tally.count(&rt, line)?;
    }
    println!(rt;
        "{} cases, {} of them do not hold",
        tally.cases, tally.failed
    )?;
    if table.len() == TABLE {
        text::say(&rt, b"the table does not fit\n")?;
    }
    Ok(())
}
