// Numbers modulo 97: a scale of its own, made by what any crate can use.
ghost use Rattle.std.specs.Prelude.{◌≡◌};
ghost use Rattle.std.proofs.Common.{ap, lit<};
ghost use Rattle.trials.specs.Residues.{remainder, residues, residue_value, residue_print};
ghost use Rattle.scales.specs.RemaindersLemmas.{modulo_laws};

use algebra::{Scale, Weight};
use refusals::Refusal;
use text::put_decimal;

// How many residues there are.
const MODULUS: u16 = 97;

// A number that counts modulo 97 only.
#[derive(Clone, Copy, PartialEq, Eq, Debug)]
pub struct Residue {
    pub n: u8,
}

impl Residue {
    // The remainder of a number.
    pub fn of(n: u16) -> Residue
        ensures { result.n ≡ (remainder n).number }
    {
        Residue {
            // below 97
            n: (n % MODULUS) as u8,
        }
    }
}

impl Weight for Residue {
    ghost kind = { residues };

    ghost value = { residue_value };

    fn nothing() -> Residue {
        Residue { n: 0 }
    }

    fn unit() -> Residue {
        Residue { n: 1 }
    }

    fn plus(&self, other: &Residue) -> Residue {
        Residue::of(u16::from(self.n) + u16::from(other.n))
    }

    fn times(&self, other: &Residue) -> Residue {
        Residue::of(u16::from(self.n) * u16::from(other.n))
    }
}

impl Scale for Residue {
    const LETTER: char = 'R';

    ghost sign = { 82 };

    ghost print = { λ x. residue_print (residue_value x) };

    ghost laws = { modulo_laws 97 (lit< tt) };

    ghost sign_is_ascii = { lit< tt };

    ghost print_of_value = { λ x y same. ap residue_print same };

    fn symbol() -> char {
        Self::LETTER
    }

    fn write(&self, buffer: &mut [u8]) -> Result<usize, Refusal> {
        let least = Residue::of(u16::from(self.n));
        put_decimal(buffer, 0, u64::from(least.n)).ok_or(Refusal::BufferTooShort)
    }
}
