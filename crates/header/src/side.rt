// The sides of the picture, and which of them a line's keyword names.
ghost use Rattle.std.specs.Prelude.{◌≡◌};
ghost use Rattle.header.specs.Sides.{keyword_length, side_of, may_be, said, with_side, judged_of};

use crate::value::value_of;

// A side of the picture.
#[derive(Clone, Copy, Debug, PartialEq, Eq)]
pub(crate) enum Side {
    Width,
    Height,
}

// What lines have said of the picture so far: nothing before the first.
#[derive(Clone, Copy, Debug, Default, PartialEq, Eq)]
pub(crate) struct Sides {
    pub width: Option<u32>,
    pub height: Option<u32>,
}

// The bytes of the keyword that a text begins with: those before a space, a colon or the end.
fn keyword_length(text: &[u8]) -> usize
    ensures { result ≡ keyword_length text.now }
{
    text.iter()
        .position(|c| *c == b' ' || *c == b':')
        .unwrap_or(text.len())
}

// The side that a keyword names, in any letter case.
#[tactic(auto, using(crate::proofs::Keywords::named_true, crate::proofs::Keywords::named_name), unfolding(crate::specs::Sides::side_of))]
fn side_of(keyword: &[u8]) -> Option<Side>
    ensures { result ≡ side_of keyword.now }
{
    if keyword.eq_ignore_ascii_case(b"width") {
        Some(Side::Width)
    } else if keyword.eq_ignore_ascii_case(b"height") {
        Some(Side::Height)
    } else {
        None
    }
}

// Whether a value may be that of a side: said for the first time, and from 1 to the limit.
fn may_be(before: Option<u32>, n: u32, limit: u32) -> bool
    ensures { result ≡ may_be limit before n }
{
    before.is_none() && (1..=limit).contains(&n)
}

impl Sides {
    // What is known of a side.
    fn said(self, side: Side) -> Option<u32>
        ensures { result ≡ said side self }
    {
        match side {
            Side::Width => self.width,
            Side::Height => self.height,
        }
    }

    // With the value that a line says of a side.
    fn with_side(self, side: Side, n: u32) -> Sides
        ensures { result ≡ with_side side n self }
    {
        match side {
            Side::Width => Sides {
                width: Some(n),
                height: self.height,
            },
            Side::Height => Sides {
                width: self.width,
                height: Some(n),
            },
        }
    }

    // With what a line says, whose text is what stands between its first two bytes and its newline; None where that is bad.
    pub(crate) fn judge(self, text: &[u8], limit: u32) -> Option<Sides>
        ensures { result ≡ judged_of limit text.now self }
    {
        let (keyword, value) = text.split_at(keyword_length(text));
        let Some(side) = side_of(keyword) else {
            return Some(self);
        };
        let n = value_of(value)?;
        if may_be(self.said(side), n, limit) {
            Some(self.with_side(side, n))
        } else {
            None
        }
    }
}
