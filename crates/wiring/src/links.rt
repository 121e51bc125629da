// The links of a cabinet, a set of module trios for each voter trio.
ghost use Rattle.std.specs.Prelude.{◌≡◌, length};

use sets::TrioSet;

mod cells;
mod edits;

// A cabinet has at most so many voter trios.
const VOTERS: usize = 16;

// Row v holds the module trios that voter trio v feeds.
#[derive(Clone, Copy)]
pub struct Links {
    rows: [TrioSet; VOTERS],
    ghost long: { length rows ≡ 16 },
}
