// The cells of a cabinet, found from its links.
ghost use Rattle.std.specs.Prelude.{◌≡◌, position};
ghost use Rattle.std.specs.Result.{result_map_both};
ghost use Rattle.network.specs.Cells.{all_cells, cell_count};
ghost use Rattle.network.specs.Questions.{cell_answer, cell_of_answer};
ghost use Rattle.wiring.specs.CellSets.{holds, shown};
ghost use Rattle.cabinet.specs.CellLists.{listed, shown_list};
ghost use Rattle.cabinet.specs.Cabinets.{network};

use super::Cabinet;
use crate::cell_list::CellList;
use network::Trio;
use refusals::Refusal;
use wiring::Cell;

impl Cabinet {
    // All cells: those of the trios that are the first of theirs.
    pub fn cells(&self) -> CellList
        ensures { shown_list (listed result) ≡ all_cells (network self.now) }
    {
        let voters = (0..self.voters.len()).map(Trio::Voter);
        let modules = (0..self.modules.len()).map(Trio::Module);
        let mut list = CellList::new();
        for trio in voters.chain(modules) {
            let cell = self.links.cell_around(trio);
            if cell.starts_at(trio) {
                list.push(cell);
            }
        }
        list
    }

    // How many cells there are.
    pub fn cell_count(&self) -> usize
        ensures { result ≡ cell_count (network self.now) }
    {
        self.cells().as_slice().len()
    }

    // The number of a trio's cell: how many cells come before it. A trio that is present is in one.
    pub fn cell_of(&self, trio: Trio) -> Result<usize, Refusal>
        ensures { result ≡ cell_of_answer (network self.now) trio }
    {
        self.present(trio)?;
        let list = self.cells();
        let cells = list.as_slice();
        let number = first_holding(cells, trio);
        Ok(number.unwrap_or(cells.len()))
    }

    // A cell's voter trios and module trios.
    pub fn cell(&self, number: usize) -> Result<Cell, Refusal>
        ensures { result_map_both shown (λ e. e) result ≡ cell_answer (network self.now) number }
    {
        let list = self.cells();
        list.as_slice().get(number).copied().ok_or(Refusal::NoCell)
    }
}

// The place of the first cell that holds the trio.
fn first_holding(cells: &[Cell], trio: Trio) -> Option<usize>
    ensures { result ≡ position (λ c. holds c trio) cells.now }
{
    cells.iter().position(|cell| cell.holds(trio))
}
