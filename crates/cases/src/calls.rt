// What a case calls, and what came back of it: a list of numbers, first those of the answer and then all of the lent buffer. The head of the
// table says which numbers each call is given and which it answers.
use crate::data::{ROOM, widen};
use header::HeaderNumbers;
use join::WholeNumbers;
use raw::Format;
use rows::{ReadError, ReadingNumbers, WriteError, WritingNumbers};

#[derive(Clone, Copy)]
pub(crate) enum Reader {
    Evt2,
    Evt3,
    Raw(Format),
    Dat,
    Aedat,
    // AEDAT packets, the lines before which the case leaves out.
    Packets,
}

#[derive(Clone, Copy)]
pub(crate) enum Writer {
    Evt2,
    Evt3,
}

#[derive(Clone, Copy)]
pub(crate) enum Call {
    Read(Reader),
    Header,
    Whole,
    Write(Writer),
    Event,
}

// What came back: so many numbers of the answer, so many in all, so many that are no bytes; and the end of the rows that a reader says it has put, of
// others the end of all.
#[derive(Clone, Copy)]
pub(crate) struct Came {
    pub(crate) answers: usize,
    pub(crate) length: usize,
    pub(crate) decimals: usize,
    pub(crate) rows: usize,
}

// The call of a name.
pub(crate) fn call_of(name: &[u8]) -> Option<Call> {
    match name {
        b"evt2" => Some(Call::Read(Reader::Evt2)),
        b"evt3" => Some(Call::Read(Reader::Evt3)),
        b"raw-evt2" => Some(Call::Read(Reader::Raw(Format::Evt2))),
        b"raw-evt3" => Some(Call::Read(Reader::Raw(Format::Evt3))),
        b"dat" => Some(Call::Read(Reader::Dat)),
        b"aedat" => Some(Call::Read(Reader::Aedat)),
        b"packets" => Some(Call::Read(Reader::Packets)),
        b"header" => Some(Call::Header),
        b"whole" => Some(Call::Whole),
        b"write-evt2" => Some(Call::Write(Writer::Evt2)),
        b"write-evt3" => Some(Call::Write(Writer::Evt3)),
        b"event" => Some(Call::Event),
        _ => None,
    }
}

// A number of the answer. None that a case states is as large as the last one.
fn small(n: u64) -> u32 {
    n.min(4294967295) as u32
}

// The first two numbers of an answer.
fn put_two(came: &mut [u32; ROOM], first: u64, second: u64) {
    came[0] = small(first);
    came[1] = small(second);
}

fn read_by(
    reader: Reader,
    width: u32,
    height: u32,
    input: &[u8],
    rows: &mut [u32],
) -> Result<usize, ReadError> {
    match reader {
        Reader::Evt2 => evt2::read(input, width, height, rows),
        Reader::Evt3 => evt3::read(input, width, height, rows),
        Reader::Raw(format) => raw::read(input, format, rows),
        Reader::Dat => dat::read(input, rows),
        Reader::Aedat | Reader::Packets => aedat::read(input, rows),
    }
}

// The lent buffer is nine numbers longer than its rows.
fn read(reader: Reader, given: [u32; 3], input: &[u8], came: &mut [u32; ROOM]) -> Came {
    let [room, width, height] = given;
    let length = room as usize * 10 + 11;
    let lent = &mut came[2..length.min(ROOM)];
    let reading = ReadingNumbers::from(read_by(reader, width, height, input, lent));
    put_two(came, reading.refusal, reading.place);
    let rows = small(reading.rows);
    Came {
        answers: 2,
        length,
        decimals: length,
        rows: rows as usize * 10 + 2,
    }
}

fn read_header(limit: u32, input: &[u8], came: &mut [u32; ROOM]) -> Came {
    let header = HeaderNumbers::from(header::read(input, limit));
    put_two(came, header.refusal, header.place);
    came[2] = header.width;
    came[3] = header.height;
    Came {
        answers: 4,
        length: 4,
        decimals: 4,
        rows: 4,
    }
}

fn find_whole(input: &[u8], came: &mut [u32; ROOM]) -> Came {
    let whole = WholeNumbers::from(join::whole_from(input));
    put_two(came, whole.seen, whole.place);
    Came {
        answers: 2,
        length: 2,
        decimals: 2,
        rows: 2,
    }
}

fn write_by(writer: Writer, list: &[u32], out: &mut [u8]) -> Result<usize, WriteError> {
    match writer {
        Writer::Evt2 => evt2::write(list, out),
        Writer::Evt3 => evt3::write(list, out),
    }
}

fn write(writer: Writer, room: u32, list: &[u32], came: &mut [u32; ROOM]) -> Came {
    let mut out = [9; ROOM];
    let lent = &mut out[..(room as usize).min(ROOM)];
    let writing = WritingNumbers::from(write_by(writer, list, lent));
    put_two(came, writing.refusal, writing.count);
    widen(&out, &mut came[2..]);
    Came {
        answers: 2,
        length: room as usize + 2,
        decimals: 2,
        rows: room as usize + 2,
    }
}

// The bits of a single, a NaN's as those of one NaN.
fn bits_of(x: f32) -> u32 {
    if x.is_nan() {
        return 2143289344;
    }
    x.to_bits()
}

fn make_event(list: &[u32], came: &mut [u32; ROOM]) -> Came {
    let event = events::event_numbers(list);
    put_two(came, event.refusal, event.kind);
    came[2] = (event.time % 4294967296) as u32;
    came[3] = small(event.time / 4294967296);
    came[4..11].copy_from_slice(&event.values);
    for (places, reading) in came[11..].chunks_mut(4).zip(event.readings) {
        widen(&bits_of(reading).to_le_bytes(), places);
    }
    Came {
        answers: 1,
        length: 39,
        decimals: 11,
        rows: 39,
    }
}

// Calls with up to three numbers, and with data as a list and as bytes.
pub(crate) fn run(
    call: Call,
    given: [u32; 3],
    list: &[u32],
    input: &[u8],
    came: &mut [u32; ROOM],
) -> Came {
    match call {
        Call::Read(reader) => read(reader, given, input, came),
        Call::Header => read_header(given[0], input, came),
        Call::Whole => find_whole(input, came),
        Call::Write(writer) => write(writer, given[0], list, came),
        Call::Event => make_event(list, came),
    }
}
