// Fault matrices from their entries, and the entries of one.
ghost use Rattle.std.specs.Prelude.{◌≡◌, ◌&&◌, if◌then◌else◌, Some, None, nat_lt};
ghost use Rattle.matrices.specs.FaultMatrices.{entry_at, module_fault, powers, voter_fault};
ghost use Rattle.matrices.specs.Values.{matrix_of, matrix_value};

use super::place::Place;
use super::{COLUMNS, FaultMatrix, PLACES, ROWS};

impl FaultMatrix {
    // The matrix with these entries, row by row.
    pub fn new(entries: [u64; PLACES]) -> FaultMatrix
        ensures { matrix_value result ≡ matrix_of entries }
    {
        FaultMatrix { entries }
    }

    // The entry for `row` voter faults and `column` module faults; none past the last row or column.
    pub fn entry(&self, row: usize, column: usize) -> Option<u64>
        ensures { result ≡ (if nat_lt row 17 && nat_lt column 16 then Some (entry_at (matrix_value self.now) row column).number else None) }
    {
        if row >= ROWS || column >= COLUMNS {
            return None;
        }
        Some(self.entries[Place::new(row, column).index()])
    }

    // The unknown of voter faults.
    pub fn voter_fault() -> FaultMatrix
        ensures { matrix_value result ≡ voter_fault }
    {
        FaultMatrix::powers(Place::new(1, 0))
    }

    // The unknown of module faults.
    pub fn module_fault() -> FaultMatrix
        ensures { matrix_value result ≡ module_fault }
    {
        FaultMatrix::powers(Place::new(0, 1))
    }

    // Powers of the two unknowns, multiplied: one in one place, and zero elsewhere.
    pub(super) fn powers(place: Place) -> FaultMatrix
        ensures { matrix_value result ≡ powers place.row place.column }
    {
        let mut numbers = [0; PLACES];
        numbers[place.index()] = 1;
        FaultMatrix { entries: numbers }
    }
}
