// Cells, found from the links that stand.
ghost use Rattle.std.specs.Prelude.{◌≡◌, ℕ, ◌&&◌, ◌||◌};
ghost use Rattle.network.specs.Chains.{joined};
ghost use Rattle.network.specs.declared.Trio.{Trio};
ghost use Rattle.sets.specs.Sets.{member};
ghost use Rattle.wiring.specs.CellSets.{holds, in_range};
ghost use Rattle.wiring.specs.Wires.{edge_list, fed_by_some, feeds_some};

use super::Links;
use crate::cell::Cell;
use network::Trio;
use sets::TrioSet;

impl Links {
    // The cell that a trio is in: the trio, and again and again what the links join to it, until no voter is added. What the
    // voters feed is in by then.
    pub fn cell_around(&self, trio: Trio) -> Cell
        ensures { (u : Trio) → holds result u ≡ (in_range u && joined (edge_list self.now) trio u) }
    {
        let mut cell = Cell::only(trio);
        loop {
            let grown = self.grown(cell);
            if grown.voters == cell.voters {
                return grown;
            }
            cell = grown;
        }
    }

    // The trios, the modules that their voters feed, and the voters that feed one of these modules.
    fn grown(&self, cell: Cell) -> Cell
        ensures modules { (m : ℕ) → member result.modules m ≡ (member cell.modules m || fed_by_some self.now cell.voters m) }
        ensures voters { (v : ℕ) → member result.voters v ≡ (member cell.voters v || feeds_some self.now result.modules v) }
    {
        let modules = cell.modules.union(self.fed_by(cell.voters));
        let voters = cell.voters.union(self.feeding(modules));
        Cell { voters, modules }
    }

    // The modules that some voter of the set feeds.
    pub fn fed_by(&self, voters: TrioSet) -> TrioSet
        ensures { (m : ℕ) → member result m ≡ fed_by_some self.now voters m }
    {
        let mut fed = TrioSet::empty();
        for v in voters {
            fed = fed.union(self.rows[v]);
        }
        fed
    }

    // The voters that feed some module of the set. Every row is asked.
    fn feeding(&self, modules: TrioSet) -> TrioSet
        ensures { (v : ℕ) → member result v ≡ feeds_some self.now modules v }
    {
        let mut found = TrioSet::empty();
        for (v, row) in self.rows.iter().enumerate() {
            if modules.meets(*row) {
                found = found.with(v);
            }
        }
        found
    }
}
