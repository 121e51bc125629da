// A fault matrix, by its entries.
ghost use Rattle.std.specs.Prelude.{◌≡◌, length};

mod entries;
mod place;
mod printing;
mod products;
mod scale;

const ROWS: usize = 17;

const COLUMNS: usize = 16;

const PLACES: usize = 272;

// 17 rows of 16 entries, row by row: the entry for i voter faults and j module faults is at 16·i + j.
#[derive(Clone, Copy, PartialEq, Eq, Debug)]
pub struct FaultMatrix {
    entries: [u64; PLACES],
    ghost long: { length entries ≡ 272 },
}
