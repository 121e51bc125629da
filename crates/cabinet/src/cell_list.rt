// The cells of a cabinet, listed.
ghost use Rattle.std.specs.Prelude.{◌≡◌, ◌≤◌, length};

use wiring::Cell;

mod entries;

// The first `count` cells of the array, in order of their numbers. A cabinet of 31 trios has at most 31 cells. A vector of
// fixed capacity would not be `Copy`.
#[derive(Clone, Copy, PartialEq, Eq, Debug)]
pub struct CellList {
    cells: [Cell; 31],
    count: usize,
    ghost long: { length cells ≡ 31 },
    ghost fits: { count ≤ 31 },
}
