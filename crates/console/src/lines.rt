// The lines of an input, whose bytes come in one by one.
ghost use Rattle.std.specs.Prelude.{◌≤◌};

mod split;

const NEWLINE: u8 = b'\n';

// One byte more than the longest line that the console takes, so that any longer line is still too long.
const KEPT: usize = 41;

// A line so far: its first bytes, since a line of the input may be of any length. The bytes past `len` are 0. A vector of
// fixed capacity would not be `Copy`.
#[derive(Clone, Copy, PartialEq, Eq, Debug)]
pub struct LineBuffer {
    bytes: [u8; KEPT],
    len: usize,
    ghost within: { len ≤ 41 },
}
