// What is in a list of cells.
ghost use Rattle.std.specs.Prelude.{◌≡◌, [], ◌∷◌, ◌++◌, length, if◌then◌else◌, nat_lt};
ghost use Rattle.cabinet.specs.CellLists.{listed};

use super::CellList;
use wiring::Cell;

impl CellList {
    // The cells, in order of their numbers.
    pub fn as_slice(&self) -> &[Cell]
        ensures { result.now ≡ listed self.now }
    {
        &self.cells[0..self.count]
    }

    // No cell yet.
    pub(crate) fn new() -> CellList
        ensures { listed result ≡ [] }
    {
        CellList {
            cells: [Cell::default(); 31],
            count: 0,
        }
    }

    // One cell more, where there is room.
    pub(crate) fn push(&mut self, cell: Cell)
        ensures { listed self.new ≡ (if nat_lt (length (listed self.old)) 31 then listed self.old ++ (cell ∷ []) else listed self.old) }
    {
        if self.count < 31 {
            self.cells[self.count] = cell;
            self.count += 1;
        }
    }
}
