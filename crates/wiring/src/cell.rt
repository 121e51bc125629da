// A cell by its members.
ghost use Rattle.std.specs.Prelude.{◌≡◌, ◌&&◌};
ghost use Rattle.network.specs.Chains.{same_trio};
ghost use Rattle.network.specs.declared.Trio.{Trio};
ghost use Rattle.wiring.specs.CellSets.{holds, in_range, starts_at};

use network::Trio;
use sets::TrioSet;

// The trios that chains of links join, as sets of their numbers.
#[derive(Clone, Copy, PartialEq, Eq, Debug, Default)]
pub struct Cell {
    pub voters: TrioSet,
    pub modules: TrioSet,
}

impl Cell {
    // The trio is in the cell.
    pub fn holds(self, trio: Trio) -> bool
        ensures { result ≡ holds self trio }
    {
        match trio {
            Trio::Voter(v) => self.voters.contains(v),
            Trio::Module(m) => self.modules.contains(m),
        }
    }

    // The trio is the first of the cell, voters before modules.
    pub fn starts_at(self, trio: Trio) -> bool
        ensures { result ≡ starts_at self trio }
    {
        match trio {
            Trio::Voter(v) => self.voters.first() == Some(v),
            Trio::Module(m) => self.voters.first() == None && self.modules.first() == Some(m),
        }
    }

    // One trio and no other; nothing where its number is 16 or more.
    pub(crate) fn only(trio: Trio) -> Cell
        ensures { (u : Trio) → holds result u ≡ (in_range u && same_trio trio u) }
    {
        let none = TrioSet::empty();
        match trio {
            Trio::Voter(v) => Cell {
                voters: none.with(v),
                modules: none,
            },
            Trio::Module(m) => Cell {
                voters: none,
                modules: none.with(m),
            },
        }
    }
}
