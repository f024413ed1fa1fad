// Numbers of two, four and eight bytes, the low byte first.
ghost use Rattle.std.specs.Prelude.{◌≡◌, ◌+◌, ◌≤◌, length};
ghost use Rattle.aedat.specs.Packets.{number_at};

use words::Word;

// The number of the bytes at a place.
pub(crate) fn number<W: Word>(bytes: &[u8], at: usize) -> W
    requires { at + W.SIZE ≤ length bytes.now }
    ensures { W.number result ≡ number_at W.SIZE bytes.now at }
{
    W::front(&bytes[at..]).unwrap()
}
