// Words of two, four and eight bytes, the low byte first: read at the front of a slice, and stored in one.
ghost use Rattle.std.specs.Prelude.{◌≡◌, ℕ, ◌+◌, ◌*◌, ◌<◌, ◌≤◌, MatchOption, [], ◌∷◌, length, take};
ghost use Rattle.std.proofs.Common.{rules};
ghost use Rattle.words.specs.Words.{value, first_of, words_of};
ghost use Rattle.words.specs.Writer.{PutWords};

use rows::Fault;

// A number that bytes make.
pub trait Word: Into<u64> {
    // How many bytes.
    const SIZE: usize;

    ghost SIZE: { ℕ };

    ghost number: { Self → ℕ };

    // The word that the first bytes make, where there are enough.
    fn front(bytes: &[u8]) -> Option<Self>
        ensures { MatchOption result (length bytes.now < SIZE) (λ w. (SIZE ≤ length bytes.now) × (number w ≡ value (take SIZE bytes.now))) };

    // It has a byte, and at most eight; and converted it is its number.
    ghost some: { 0 < SIZE };

    ghost small: { SIZE ≤ 8 };

    ghost numbered: { (w : Self) (n : ℕ) → Self.converts w n → n ≡ number w };
}

// Three impls that differ in a type and a size: `from_le_bytes` and `first_chunk` want both written out, and no macro writes impls here.
impl Word for u16 {
    const SIZE: usize = 2;

    ghost SIZE = { 2 };

    ghost number = { λ w. w };

    ghost some = { Prim.search rules };

    ghost small = { Prim.search rules };

    ghost numbered = { λ w n e. e };

    fn front(bytes: &[u8]) -> Option<u16> {
        let two = bytes.first_chunk::<2>()?;
        Some(u16::from_le_bytes(*two))
    }
}

impl Word for u32 {
    const SIZE: usize = 4;

    ghost SIZE = { 4 };

    ghost number = { λ w. w };

    ghost some = { Prim.search rules };

    ghost small = { Prim.search rules };

    ghost numbered = { λ w n e. e };

    fn front(bytes: &[u8]) -> Option<u32> {
        let four = bytes.first_chunk::<4>()?;
        Some(u32::from_le_bytes(*four))
    }
}

impl Word for u64 {
    const SIZE: usize = 8;

    ghost SIZE = { 8 };

    ghost number = { λ w. w };

    ghost some = { Prim.search rules };

    ghost small = { Prim.search rules };

    ghost numbered = { λ w n e. e };

    fn front(bytes: &[u8]) -> Option<u64> {
        let eight = bytes.first_chunk::<8>()?;
        Some(u64::from_le_bytes(*eight))
    }
}

// The word at the front of bytes, a part of one, which is cut, or the end.
pub fn first<W: Word>(bytes: &[u8]) -> Option<Result<u64, Fault>>
    ensures { result ≡ first_of (words_of W.SIZE bytes.now) }
{
    match W::front(bytes) {
        Some(word) => Some(Ok(word.into())),
        None if bytes.is_empty() => None,
        None => Some(Err(Fault::Cut)),
    }
}

// Stores a word, the lowest bytes of a number, and answers the place after it.
pub(crate) fn store<W: Word>(out: &mut [u8], at: usize, word: u64) -> usize
    requires { at + W.SIZE ≤ length out.old }
    ensures { PutWords W.SIZE (word ∷ []) out.old at out.new result }
{
    let end = at + W::SIZE;
    out[at..end].copy_from_slice(&word.to_le_bytes()[..W::SIZE]);
    end
}

// Stores words one after the other, and answers the place after them.
pub(crate) fn store_all<W: Word>(out: &mut [u8], at: usize, words: &[u64]) -> usize
    requires { at + length words.now * W.SIZE ≤ length out.old }
    ensures { PutWords W.SIZE words.now out.old at out.new result }
{
    let mut to = at;
    for word in words {
        to = store::<W>(out, to, *word);
    }
    to
}

// Stores a word where there is room for it, and answers the place after it. Where there is none it answers none, and touches nothing.
pub fn put_word<W: Word>(out: &mut [u8], at: usize, word: u64) -> Option<usize>
    ensures { MatchOption result ((length out.old < at + W.SIZE) × (out.new ≡ out.old)) (λ end. (at + W.SIZE ≤ length out.old) × PutWords W.SIZE (word ∷ []) out.old at out.new end) }
{
    if out.len() < at.saturating_add(W::SIZE) {
        return None;
    }
    Some(store::<W>(out, at, word))
}
