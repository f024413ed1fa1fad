// A made-up format, small enough to be seen whole, and a program that reads its examples. No recording has it. It shows what a format of words consists of
// that is written in three methods, `words::Reader`, and calls each of them; and it has a sink that says only what one word does. The file stdout beside
// src/ has what is to come back, worked out from what is said here.
//
// A word has two bytes. By its top two bits it is 0 a time, the other fourteen bits, in microseconds; 1 an edge at the last time, with a channel in bits
// 5..1 and a value in bit 0; 2 the first word of a late edge, with channel and value likewise, whose second word is of type 2 too and has the time of it, from
// which time goes on; 3 reserved. Before the first time it is 0.
//
// Reading is refused: 4 half a word at the end, or one word of a late edge, 3 a reserved word, 8 a second word of another type, a reserved one too, 2 no
// room for a word's row. The rows finished before the fault are in the slice, nothing past them is touched, and the answer has their count and the place
// of the word, or for 4 and 2 of the late edge.
#![tactic(auto)]

ghost use Rattle.std.specs.Prelude.{false};

use std::io;

mod kind;
mod pulses;
mod state;

use kind::Kind;
use pulses::{Pulses, read};
use state::State;
use words::{Reader, Sink, Word, read_words};

// A time of 5, an edge of channel 3 with value 1, a late edge of channel 31 with value 0 at 16,383, and an edge of channel 0 with value 1.
const WORDS: [u8; 10] = [5, 0, 7, 64, 62, 128, 255, 191, 1, 64];

// A reserved word after an edge.
const RESERVED: [u8; 4] = [1, 64, 0, 192];

// An edge, and a late one whose second word is a time.
const STRAY: [u8; 6] = [1, 64, 3, 128, 9, 0];

// A sink of its own, which says what one word does.
struct Counter;

impl Sink for Counter {
    ghost writes = { false };

    fn word<W: Word>(_out: &mut [u8], at: usize, _word: u64) -> usize {
        if at < usize::MAX { at + 1 } else { at }
    }
}

// What an input gives in a slice with room for so many numbers: the answer, and the slice.
fn show(rt: &impl Print, name: &str, bytes: &[u8], room: usize) -> io::Result<()> {
    let mut rows = [7; 31];
    let answer = read(bytes, &mut rows[..room.min(31)]);
    println!(rt; "{name}: {answer:?}\n    {rows:?}")
}

// What the three methods say of a word in a state, of which `give` writes after one row that is there.
fn show_word(rt: &impl Print, state: State, w: u64) -> io::Result<()> {
    let kind = Pulses.kind(state, w);
    let mut rows = [7; 21];
    let given = Pulses.give(state, kind, w, &mut rows, 1);
    let next = Pulses.next(state, kind, 8, w);
    println!(rt; "{w}: {kind:?}, {given:?}, {next:?}\n    {rows:?}")
}

fn main(rt: HostRuntime) -> io::Result<()> {
    show(&rt, "whole", &WORDS, 31)?;
    show(&rt, "half a word", &WORDS[..3], 31)?;
    show(&rt, "half a late edge", &WORDS[..6], 31)?;
    show(&rt, "room for one row", &WORDS, 19)?;
    show(&rt, "reserved", &RESERVED, 31)?;
    show(&rt, "stray", &STRAY, 31)?;

    let mut rows = [7; 11];
    let answer = read_words(&Pulses, &WORDS[..4], 2, &mut rows);
    println!(&rt; "from the second word on: {answer:?}\n    {rows:?}")?;
    let answer = read_words(&Pulses, &WORDS, 11, &mut rows);
    println!(&rt; "from past the end on: {answer:?}")?;

    let first = Pulses.fresh();
    let begun = first.begun(6, 32773);
    for state in [first, begun] {
        println!(&rt;
            "{:?}, {}, {}",
            state,
            Pulses.is_pending(state),
            Pulses.origin(state, 10)
        )?;
        for w in [16383, 16389, 32773, 49152] {
            show_word(&rt, state, w)?;
        }
    }

    let three = Counter::words::<u16>(&mut [], 3, &[1, 2, 3]);
    let last = Counter::words::<u16>(&mut [], usize::MAX - 1, &[1, 2, 3]);
    println!(&rt; "{three}, {last}")
}
