// The value of a width or a height.
ghost use Rattle.std.specs.Prelude.{◌≡◌};
ghost use Rattle.header.specs.Sides.{digit_of, number_of, spaced, value_of};

// The value of a digit. Any other byte has none, a comma or a point too.
fn digit_of(c: u8) -> Option<u32>
    ensures { result ≡ digit_of c }
{
    match c {
        b'0'..=b'9' => Some((c - b'0') as u32),
        _ => None,
    }
}

// The number of one to five digits. Any other byte among them makes it malformed: none is passed over.
fn number_of(digits: &[u8]) -> Option<u32>
    ensures { result ≡ number_of digits.now }
{
    if digits.is_empty() || 5 < digits.len() {
        return None;
    }
    let mut n: u32 = 0;
    for c in digits {
        n = n * 10 + digit_of(*c)?;
    }
    Some(n)
}

// One space, and a number.
#[tactic(auto, unfolding(crate::specs::Sides::spaced))]
fn spaced(text: &[u8]) -> Option<u32>
    ensures { result ≡ spaced text.now }
{
    match text {
        [b' ', digits @ ..] => number_of(digits),
        _ => None,
    }
}

// What stands after the keyword: an optional colon, one space, a number.
#[tactic(auto, unfolding(crate::specs::Sides::value_of))]
pub(crate) fn value_of(text: &[u8]) -> Option<u32>
    ensures { result ≡ value_of text.now }
{
    match text {
        [b':', number @ ..] => spaced(number),
        _ => spaced(text),
    }
}
