// Where words go: into a slice, or nowhere, where they are counted alone. So the words of a row are said once, for counting and for writing.
ghost use Rattle.std.specs.Prelude.{◌≡◌, Bool, true, false, [], ◌∷◌};
ghost use Rattle.words.specs.Sinks.{room, Put};

use crate::word::{Word, store, store_all};

// How many words a slice has room for.
pub(crate) fn room<W: Word>(out: &[u8]) -> usize
    ensures { result ≡ room true W.SIZE out.now }
{
    out.len() / W::SIZE
}

// A place for words, the first of which is word 0. It takes any word at any place, so that it asks nothing: a word that has no room there is left out.
pub trait Sink {
    // Whether words are written into the slice.
    ghost writes: { Bool };

    // Puts word `at`, and answers the place after it.
    fn word<W: Word>(out: &mut [u8], at: usize, word: u64) -> usize
        ensures { Put writes W.SIZE (word ∷ []) out.old at out.new result };

    // Puts words one after the other, the first of them word `at`, and answers the place after them.
    fn words<W: Word>(out: &mut [u8], at: usize, words: &[u64]) -> usize
        ensures { Put writes W.SIZE words.now out.old at out.new result }
    {
        let mut end = at;
        for word in words {
            end = Self::word::<W>(out, end, *word);
        }
        end
    }
}

// Words are written into the slice.
#[derive(Clone, Copy, Debug, PartialEq, Eq)]
pub struct Written;

// Words are counted, and the slice is left alone.
#[derive(Clone, Copy, Debug, PartialEq, Eq)]
pub struct Counted;

impl Sink for Written {
    ghost writes = { true };

    fn word<W: Word>(out: &mut [u8], at: usize, word: u64) -> usize {
        if at < room::<W>(out) {
            store::<W>(out, at * W::SIZE, word);
            return at + 1;
        }
        at
    }

    fn words<W: Word>(out: &mut [u8], at: usize, words: &[u64]) -> usize {
        // One test for all of them: word by word an EVT2 list of IMU readings takes a sixth longer.
        let room = room::<W>(out);
        if at <= room && words.len() <= room - at {
            store_all::<W>(out, at * W::SIZE, words);
            return at + words.len();
        }
        let mut to = at;
        for word in words {
            to = Self::word::<W>(out, to, *word);
        }
        to
    }
}

impl Sink for Counted {
    ghost writes = { false };

    fn word<W: Word>(_out: &mut [u8], at: usize, _word: u64) -> usize {
        if at < usize::MAX { at + 1 } else { at }
    }

    fn words<W: Word>(_out: &mut [u8], at: usize, words: &[u64]) -> usize {
        at.saturating_add(words.len())
    }
}
