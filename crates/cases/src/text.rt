// Text on standard output.
use std::io;

pub(crate) fn say(rt: &impl Print, text: &[u8]) -> io::Result<()> {
    rt.write_all(text)
}

// A space and a number, a byte in two hexadecimal digits where it is one.
pub(crate) fn unit(rt: &impl Print, n: u32, decimal: bool) -> io::Result<()> {
    if decimal {
        return print!(rt; " {n}");
    }
    print!(rt; " {n:02x}")
}
