// One case: its call is made, and what comes back is held to what the case states. A case that holds says nothing.
use crate::calls;
use crate::calls::{Call, Came, Reader};
use crate::data::{ROOM, narrow, units};
use crate::parts::{after_two, column};
use crate::text::{say, unit};
use std::io;

// How the columns of a call are written: whether data and what is to be in the buffer are decimal; what stands in the buffer before; and the
// first of the call's numbers, where the case does not give it.
#[derive(Clone, Copy)]
struct Form {
    data: bool,
    rows: bool,
    before: u32,
    given: u32,
}

fn form_of(call: Call) -> Form {
    let (data, rows, before, given) = match call {
        Call::Read(_) => (false, true, 7, 16),
        Call::Header => (false, true, 0, 2048),
        Call::Whole => (false, true, 0, 0),
        Call::Write(_) => (true, false, 9, 96),
        Call::Event => (true, true, 0, 0),
    };
    Form {
        data,
        rows,
        before,
        given,
    }
}

// The lines that stand before AEDAT packets.
fn lines_before(call: Call, data: &mut [u32]) -> usize {
    match call {
        Call::Read(Reader::Packets) => units(
            b"\"#!AER-DAT3.1\\r\\n#Format: RAW\\r\\n#!END-HEADER\\r\\n\"",
            0,
            false,
            data,
        ),
        _ => 0,
    }
}

// The name and the call of a case that does not hold, as the table has them.
fn say_case(rt: &impl Print, line: &[u8]) -> io::Result<()> {
    for column in line.split_inclusive(|byte| *byte == b'|').take(2) {
        say(rt, column)?;
    }
    Ok(())
}

// A line on a case that does not hold.
fn tell(rt: &impl Print, line: &[u8], what: &[u8]) -> io::Result<bool> {
    say_case(rt, line)?;
    say(rt, what)?;
    say(rt, b"\n")?;
    Ok(false)
}

fn say_all(rt: &impl Print, list: &[u32], came: Came) -> io::Result<()> {
    for (i, n) in list.iter().enumerate() {
        if i == came.answers {
            say(rt, b" |")?;
        }
        if i == came.rows {
            say(rt, b" then")?;
        }
        unit(rt, *n, i < came.decimals)?;
    }
    Ok(())
}

// What came back of a case that does not hold.
fn tell_all(rt: &impl Print, line: &[u8], list: &[u32], came: Came) -> io::Result<bool> {
    say_case(rt, line)?;
    say_all(rt, list, came)?;
    say(rt, b"\n")?;
    Ok(false)
}

// Calls, and compares: a reader's rows end where the stated ones do, and all numbers are the stated ones.
fn holds_for(
    rt: &impl Print,
    line: &[u8],
    call: Call,
    data: &[u32],
    stated: &[u32],
    end: usize,
) -> io::Result<bool> {
    let form = form_of(call);
    let mut given = [form.given, 2048, 2048];
    let numbers = after_two(column(line, b'|', 1), b' ');
    units(numbers, 0, true, &mut given);
    let mut input = [0; ROOM];
    narrow(data, &mut input);
    let input = &input[..data.len().min(ROOM)];
    let mut list = [form.before; ROOM];
    let came = calls::run(call, given, data, input, &mut list);
    let Some(list) = list.get(..came.length) else {
        return tell(rt, line, b" does not fit");
    };
    let ends = (came.rows == came.length) | (came.rows == end);
    if ends && stated.starts_with(list) {
        return Ok(true);
    }
    tell_all(rt, line, list, came)
}

// Whether the case of a line holds.
pub(crate) fn holds(rt: &impl Print, line: &[u8]) -> io::Result<bool> {
    let name = column(column(line, b'|', 1), b' ', 1);
    let Some(call) = calls::call_of(name) else {
        return tell(rt, line, b" no such call");
    };
    let form = form_of(call);
    let mut data = [0; ROOM];
    let from = lines_before(call, &mut data);
    let to = units(column(line, b'|', 2), from, form.data, &mut data);
    let mut stated = [form.before; ROOM];
    let answer = units(column(line, b'|', 3), 0, true, &mut stated);
    if answer == 0 {
        return tell(rt, line, b" no case");
    }
    let buffer = units(column(line, b'|', 4), answer, form.rows, &mut stated);
    let end = units(column(line, b'|', 5), buffer, false, &mut stated);
    if (ROOM < to) | (ROOM < end) {
        return tell(rt, line, b" does not fit");
    }
    holds_for(rt, line, call, &data[..to], &stated, end)
}
