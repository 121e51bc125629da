// Fault matrices as a scale.
ghost use Rattle.matrices.specs.FaultMatrices.{fault_matrices, matrix_print};
ghost use Rattle.matrices.specs.Values.{matrix_value};
ghost use Rattle.matrices.specs.FaultMatricesLemmas.{fault_matrices_laws};
ghost use Rattle.std.proofs.Common.{ap, lit<};

use super::place::Place;
use super::{FaultMatrix, PLACES};
use algebra::{Scale, Weight};
use refusals::Refusal;
use std::array;

impl Weight for FaultMatrix {
    ghost kind = { fault_matrices };

    ghost value = { matrix_value };

    fn nothing() -> FaultMatrix {
        FaultMatrix {
            entries: [0; PLACES],
        }
    }

    fn unit() -> FaultMatrix {
        FaultMatrix::powers(Place::new(0, 0))
    }

    fn plus(&self, other: &FaultMatrix) -> FaultMatrix {
        FaultMatrix {
            entries: array::from_fn(|index| self.entries[index].wrapping_add(other.entries[index])),
        }
    }

    fn times(&self, other: &FaultMatrix) -> FaultMatrix {
        FaultMatrix {
            entries: array::from_fn(|index| self.product_entry(other, Place::of(index))),
        }
    }
}

impl Scale for FaultMatrix {
    const LETTER: char = 'F';

    ghost sign = { 70 };

    ghost print = { λ m. matrix_print (matrix_value m) };

    ghost laws = { fault_matrices_laws };

    ghost sign_is_ascii = { lit< tt };

    ghost print_of_value = { λ x y same. ap matrix_print same };

    fn symbol() -> char {
        Self::LETTER
    }

    fn write(&self, buffer: &mut [u8]) -> Result<usize, Refusal> {
        if self.print_len() > buffer.len() {
            return Err(Refusal::BufferTooShort);
        }
        Ok(self.print_into(buffer))
    }
}
