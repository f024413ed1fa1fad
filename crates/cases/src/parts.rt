// Parts of a line.

// What follows so many separators, up to the next one; nothing where there are fewer.
pub(crate) fn column(s: &[u8], separator: u8, count: usize) -> &[u8] {
    s.split(|byte| *byte == separator).nth(count).unwrap_or(&[])
}

// All that follows two separators; nothing where there are fewer.
pub(crate) fn after_two(s: &[u8], separator: u8) -> &[u8] {
    s.splitn(3, |byte| *byte == separator).nth(2).unwrap_or(&[])
}
