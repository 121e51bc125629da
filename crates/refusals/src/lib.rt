// The refusals of all calls, with their numbers.
#![tactic(auto)]

ghost use Rattle.std.specs.Prelude.{◌≡◌};
ghost use Rattle.refusals.specs.Refusals.{number};

// Why a call is refused, each case with its number.
#[derive(Clone, Copy, PartialEq, Eq, Debug)]
pub enum Refusal {
    // no room for another voter trio
    VotersFull = 1,
    // no room for another module trio
    ModulesFull = 2,
    // the voter trio is not there
    NoVoter = 3,
    // the module trio is not there
    NoModule = 4,
    // the link is there already
    LinkStands = 5,
    // the link is not there
    NoLink = 6,
    // the link would make a cell of more than 12 voter trios
    CellTooWide = 7,
    // the cell is not there
    NoCell = 8,
    // not exactly one entry of weights for each trio
    WeightsMismatch = 9,
    // a buffer is too short
    BufferTooShort = 26,
    // a line of no known form, or a number in it that is too large
    BadLine = 30,
}

impl Refusal {
    // The number that a refusal is reported by.
    pub fn number(self) -> u8
        ensures { result ≡ number self }
    {
        self as u8
    }
}
