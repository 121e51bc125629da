// Totals over the fault patterns of a cabinet.
ghost use Rattle.std.specs.Prelude.{◌≡◌};
ghost use Rattle.std.specs.Result.{result_map_both};
ghost use Rattle.method.specs.Method.{by_cells_answer};
ghost use Rattle.network.specs.Questions.{total_answer};
ghost use Rattle.weighing.specs.Entries.{read_all};
ghost use Rattle.cabinet.specs.Cabinets.{network};

use super::Cabinet;
use algebra::{Scale, Weight};
use refusals::Refusal;
use weighing::{Weights, weigh_cells};

impl Cabinet {
    // The total over all tolerated fault patterns. There is an entry of weights for each trio, voters first.
    pub fn total<S: Scale>(&self, weights: &[Weights<S>]) -> Result<S, Refusal>
        ensures { result_map_both S.Weight.value (λ e. e) result ≡ total_answer S.Weight.kind (network self.now) (read_all S.Weight.value weights.now) }
    {
        self.weigh(weights)
    }

    // The same sum on any kind of weight, worked out cell by cell. Without the laws of a scale it is what the cell method makes it.
    pub fn weigh<W: Weight>(&self, weights: &[Weights<W>]) -> Result<W, Refusal>
        ensures { result_map_both W.Weight.value (λ e. e) result ≡ by_cells_answer W.Weight.kind (network self.now) (read_all W.Weight.value weights.now) }
    {
        let voter_count = self.voters.len();
        if weights.len() != voter_count + self.modules.len() {
            return Err(Refusal::WeightsMismatch);
        }
        let list = self.cells();
        Ok(weigh_cells(
            &self.links,
            list.as_slice(),
            &weights[..voter_count],
            &weights[voter_count..],
        ))
    }
}
