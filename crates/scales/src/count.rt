// Counts, which go modulo 2^64.
ghost use Rattle.scales.specs.Counts.{counts, count_value, count_print};
ghost use Rattle.scales.specs.CountsLemmas.{counts_laws};
ghost use Rattle.std.proofs.Common.{ap, lit<};

use algebra::{Scale, Weight};
use refusals::Refusal;
use text::put_decimal;

// How many there are, modulo 2^64.
#[derive(Clone, Copy, PartialEq, Eq, Debug)]
pub struct Count {
    pub n: u64,
}

impl Weight for Count {
    ghost kind = { counts };

    ghost value = { count_value };

    fn nothing() -> Count {
        Count { n: 0 }
    }

    fn unit() -> Count {
        Count { n: 1 }
    }

    fn plus(&self, other: &Count) -> Count {
        Count {
            n: self.n.wrapping_add(other.n),
        }
    }

    fn times(&self, other: &Count) -> Count {
        Count {
            n: self.n.wrapping_mul(other.n),
        }
    }
}

impl Scale for Count {
    const LETTER: char = 'C';

    ghost sign = { 67 };

    ghost print = { λ c. count_print (count_value c) };

    ghost laws = { counts_laws };

    ghost sign_is_ascii = { lit< tt };

    ghost print_of_value = { λ x y same. ap count_print same };

    fn symbol() -> char {
        Self::LETTER
    }

    fn write(&self, buffer: &mut [u8]) -> Result<usize, Refusal> {
        put_decimal(buffer, 0, self.n).ok_or(Refusal::BufferTooShort)
    }
}
