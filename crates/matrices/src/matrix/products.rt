// The entries of a product, modulo 2^64.
ghost use Rattle.std.specs.Prelude.{◌≡◌, ◌≤◌};
ghost use Rattle.matrices.specs.FaultMatrices.{entry_at, product_entry, row_product};
ghost use Rattle.matrices.specs.Values.{matrix_value, residue};

use super::place::Place;
use super::{COLUMNS, FaultMatrix};

impl FaultMatrix {
    // What row `a` of the one and the row of the other that makes up for it give to the entry of their product at `place`.
    fn row_product(&self, other: &FaultMatrix, a: usize, place: Place) -> u64
        requires { a ≤ place.row }
        ensures { residue result ≡ row_product (entry_at (matrix_value self.now)) (entry_at (matrix_value other.now)) place.row place.column a }
    {
        let mut total = 0u64;
        // b stands in the formula twice, so the loop goes over it and not over the entries
        for b in 0..=place.column {
            let x = self.entries[COLUMNS * a + b];
            let y = other.entries[COLUMNS * (place.row - a) + (place.column - b)];
            total = total.wrapping_add(x.wrapping_mul(y));
        }
        total
    }

    // The entry of the product at `place`.
    pub(super) fn product_entry(&self, other: &FaultMatrix, place: Place) -> u64
        ensures { residue result ≡ product_entry (entry_at (matrix_value self.now)) (entry_at (matrix_value other.now)) place.row place.column }
    {
        let mut total = 0u64;
        for a in 0..=place.row {
            total = total.wrapping_add(self.row_product(other, a, place));
        }
        total
    }
}
