// The print of a fault matrix.
ghost use Rattle.std.specs.Prelude.{◌≡◌, ◌+◌, ◌≤◌, ◌∷◌, length, decimal};
ghost use Rattle.matrices.specs.FaultMatrices.{matrix_print};
ghost use Rattle.matrices.specs.Values.{matrix_value};
ghost use Rattle.text.specs.Placed.{placed};

use super::FaultMatrix;
use itoa::Buffer;
use text::{put, put_decimal};

// How many digits a number has.
fn digit_count(n: u64) -> usize
    ensures value { result ≡ length (decimal n) }
    ensures few { result ≤ 20 }
{
    Buffer::new().format(n).len()
}

// Writes a space and a number from `at` on, and answers where it ends.
fn put_after_space(buffer: &mut [u8], at: usize, n: u64) -> usize
    requires { at + length (32 ∷ decimal n) ≤ length buffer.old }
    ensures value { result ≡ at + length (32 ∷ decimal n) }
    ensures after { buffer.new ≡ placed at (32 ∷ decimal n) buffer.old }
{
    let start = put(buffer, at, b" ").unwrap_or(at);
    put_decimal(buffer, start, n).unwrap_or(start)
}

impl FaultMatrix {
    // How long the print is.
    pub(super) fn print_len(&self) -> usize
        ensures { result ≡ length (matrix_print (matrix_value self.now)) }
    {
        let mut len = digit_count(self.entries[0]);
        for n in &self.entries[1..] {
            len += 1 + digit_count(*n);
        }
        len
    }

    // Writes the print at the start of a buffer that has room for it, and answers where it ends.
    pub(super) fn print_into(&self, buffer: &mut [u8]) -> usize
        requires { length (matrix_print (matrix_value self.now)) ≤ length buffer.old }
        ensures value { result ≡ length (matrix_print (matrix_value self.now)) }
        ensures after { buffer.new ≡ placed 0 (matrix_print (matrix_value self.now)) buffer.old }
    {
        let mut end = put_decimal(buffer, 0, self.entries[0]).unwrap_or(0);
        for n in &self.entries[1..] {
            end = put_after_space(buffer, end, *n);
        }
        end
    }
}
