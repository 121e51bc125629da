// The places of a fault matrix.
ghost use Rattle.std.specs.Prelude.{◌≡◌, ◌+◌, ◌*◌, ◌/◌, ◌%◌, ◌<◌};

use super::COLUMNS;

// A row and a column of a matrix.
#[derive(Clone, Copy)]
pub(super) struct Place {
    pub(super) row: usize,
    pub(super) column: usize,
    ghost row_within: { row < 17 },
    ghost column_within: { column < 16 },
}

impl Place {
    // The place at a row and a column.
    pub(super) fn new(row: usize, column: usize) -> Place
        requires row_within { row < 17 }
        requires column_within { column < 16 }
        ensures row { result.row ≡ row }
        ensures column { result.column ≡ column }
    {
        Place { row, column }
    }

    // The place of the entry that stands at `index`.
    pub(super) fn of(index: usize) -> Place
        requires { index < 272 }
        ensures row { result.row ≡ index / 16 }
        ensures column { result.column ≡ index % 16 }
    {
        Place::new(index / COLUMNS, index % COLUMNS)
    }

    // Where the entry stands.
    pub(super) fn index(self) -> usize
        ensures value { result ≡ 16 * self.row + self.column }
        ensures within { result < 272 }
    {
        COLUMNS * self.row + self.column
    }
}
