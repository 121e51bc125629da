// The calls that change a cabinet.
ghost use Rattle.std.specs.Prelude.{◌≡◌};
ghost use Rattle.network.specs.Changes.{add_voter, add_module, link as linking, cut, change_part, network_after, refusal};
ghost use Rattle.network.specs.Networks.{empty, voter_count, module_count};
ghost use Rattle.refusals.specs.Refusals.{answered};
ghost use Rattle.cabinet.specs.Cabinets.{network};

use super::Cabinet;
use network::{Link, Trio};
use refusals::Refusal;
use wiring::{Links, TrioTable};

// Voter trios in one cell.
const WIDEST: usize = 12;

impl Cabinet {
    // An empty cabinet.
    pub fn new() -> Cabinet
        ensures { network result ≡ empty }
    {
        Cabinet {
            voters: TrioTable::new(),
            modules: TrioTable::new(),
            links: Links::none(),
        }
    }

    // One voter trio more; answers its number.
    pub fn add_voter(&mut self, code: u16) -> Result<usize, Refusal>
        ensures answer { result ≡ answered (refusal (add_voter code) (network self.old)) (voter_count (network self.old)) }
        ensures after { network self.new ≡ network_after (add_voter code) (network self.old) }
    {
        self.voters.push(code).ok_or(Refusal::VotersFull)
    }

    // One module trio more; answers its number.
    pub fn add_module(&mut self, code: u16) -> Result<usize, Refusal>
        ensures answer { result ≡ answered (refusal (add_module code) (network self.old)) (module_count (network self.old)) }
        ensures after { network self.new ≡ network_after (add_module code) (network self.old) }
    {
        self.modules.push(code).ok_or(Refusal::ModulesFull)
    }

    // A link from a voter trio to a module trio.
    pub fn link(&mut self, link: Link) -> Result<(), Refusal>
        ensures answer { result ≡ answered (refusal (linking link.voter link.«module») (network self.old)) tt }
        ensures after { network self.new ≡ network_after (linking link.voter link.«module») (network self.old) }
    {
        if self.is_linked(link)? {
            return Err(Refusal::LinkStands);
        }
        let links = self.links.with(link);
        if links.cell_around(Trio::Voter(link.voter)).voters.len() > WIDEST {
            return Err(Refusal::CellTooWide);
        }
        self.links = links;
        Ok(())
    }

    // A link cut.
    pub fn cut(&mut self, link: Link) -> Result<(), Refusal>
        ensures answer { result ≡ answered (refusal (cut link.voter link.«module») (network self.old)) tt }
        ensures after { network self.new ≡ network_after (cut link.voter link.«module») (network self.old) }
    {
        if !self.is_linked(link)? {
            return Err(Refusal::NoLink);
        }
        self.links = self.links.without(link);
        Ok(())
    }

    // Another part code for one trio.
    pub fn change_part(&mut self, trio: Trio, code: u16) -> Result<(), Refusal>
        ensures answer { result ≡ answered (refusal (change_part trio code) (network self.old)) tt }
        ensures after { network self.new ≡ network_after (change_part trio code) (network self.old) }
    {
        match trio {
            Trio::Voter(v) => self.voters.relabel(v, code).ok_or(Refusal::NoVoter),
            Trio::Module(m) => self.modules.relabel(m, code).ok_or(Refusal::NoModule),
        }
    }
}
