// What can be asked of a cabinet.
ghost use Rattle.std.specs.Prelude.{◌≡◌, [], ◌∷◌};
ghost use Rattle.network.specs.Changes.{absent};
ghost use Rattle.network.specs.Networks.{voter_count, module_count};
ghost use Rattle.network.specs.Questions.{code_answer, link_answer};
ghost use Rattle.refusals.specs.Refusals.{answered, first_due};
ghost use Rattle.cabinet.specs.Cabinets.{network};

use super::Cabinet;
use network::{Link, Trio};
use refusals::Refusal;

impl Cabinet {
    // How many voter trios there are.
    pub fn voter_count(&self) -> usize
        ensures { result ≡ voter_count (network self.now) }
    {
        self.voters.len()
    }

    // How many module trios there are.
    pub fn module_count(&self) -> usize
        ensures { result ≡ module_count (network self.now) }
    {
        self.modules.len()
    }

    // The part code of a trio.
    pub fn code(&self, trio: Trio) -> Result<u16, Refusal>
        ensures { result ≡ code_answer (network self.now) trio }
    {
        match trio {
            Trio::Voter(v) => self.voters.code(v).ok_or(Refusal::NoVoter),
            Trio::Module(m) => self.modules.code(m).ok_or(Refusal::NoModule),
        }
    }

    // Whether a link stands.
    pub fn is_linked(&self, link: Link) -> Result<bool, Refusal>
        ensures { result ≡ link_answer (network self.now) link.voter link.«module» }
    {
        self.present(Trio::Voter(link.voter))?;
        self.present(Trio::Module(link.module))?;
        Ok(self.links.stands(link))
    }

    // The cabinet has the trio, or the refusal says which kind is lacking.
    pub(super) fn present(&self, trio: Trio) -> Result<(), Refusal>
        ensures { result ≡ answered (first_due (absent trio (network self.now) ∷ [])) tt }
    {
        match trio {
            Trio::Voter(v) if v >= self.voter_count() => Err(Refusal::NoVoter),
            Trio::Module(m) if m >= self.module_count() => Err(Refusal::NoModule),
            _ => Ok(()),
        }
    }
}
