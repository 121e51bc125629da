// An empty table, and how many trios there are.
ghost use Rattle.std.specs.Prelude.{◌≡◌, [], length};
ghost use Rattle.wiring.specs.Tables.{codes};

use super::{TrioRecord, TrioTable};

impl<const N: usize> TrioTable<N> {
    // No trio yet.
    pub fn new() -> TrioTable<N>
        ensures { codes result ≡ [] }
    {
        TrioTable {
            trios: [TrioRecord { code: 0 }; N],
            count: 0,
        }
    }

    // How many trios there are.
    pub fn len(&self) -> usize
        ensures { result ≡ length (codes self.now) }
    {
        self.count
    }
}
