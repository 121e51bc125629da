// What the rules of a cabinet speak of: its trios and links, and theorems about them.
#![tactic(auto)]

ghost use Rattle.network.specs.Chains.{ChainsAgree};
ghost use Rattle.network.specs.Changes.{LimitsKept};
ghost use Rattle.network.specs.Partition.{CellsAreNumbered};

// A trio of a cabinet: three copies of a voter, or of a module, by its number among its kind.
#[derive(Clone, Copy, PartialEq, Eq, Debug)]
pub enum Trio {
    Voter(usize),
    Module(usize),
}

// A link: each copy of the voter trio feeds the copy of the module trio in the same position.
#[derive(Clone, Copy, PartialEq, Eq, Debug)]
pub struct Link {
    pub voter: usize,
    pub module: usize,
}

// Two trios are joined by a chain of links exactly where the test `joined` says so.
pub fn chains_agree()
    ensures { ChainsAgree }
{}

// A call that is not refused keeps a network within the limits, and a refused one leaves it as it was.
pub fn limits_kept()
    ensures { LimitsKept }
{}

// Cells are numbered from 0 without a gap, and two trios have the same number just where a chain of links joins them.
pub fn cells_are_numbered()
    ensures { CellsAreNumbered }
{}
