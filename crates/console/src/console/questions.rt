// What the console is asked about its cabinet.
ghost use Rattle.std.specs.Prelude.{◌≡◌, ◌+◌, ◌≤◌, Ok};
ghost use Rattle.std.specs.Result.{result_map_both};
ghost use Rattle.network.specs.Networks.{module_count, voter_count};
ghost use Rattle.scales.specs.Counts.{count_value};
ghost use Rattle.scales.specs.Durations.{duration_value};
ghost use Rattle.console.specs.Consoles.{network_in};
ghost use Rattle.console.specs.Totals.{longest_repair, pattern_count};

use super::Console;
use refusals::Refusal;
use scales::{Count, Hours};
use weighing::Weights;

// Trios in a cabinet. Each total has its own row of weights: generic code cannot show that an array of a type parameter
// fits in memory.
const MOST_TRIOS: usize = 31;

impl Console {
    // How many fault patterns are tolerated.
    pub(super) fn pattern_count(&self) -> Result<Count, Refusal>
        ensures { result_map_both count_value (λ e. e) result ≡ Ok (pattern_count (network_in self.now)) }
    {
        let one = Count { n: 1 };
        let weights = [Weights::alike(one, one); MOST_TRIOS];
        self.cabinet.total(&weights[..self.trio_count()])
    }

    // The longest repair of a tolerated pattern, where each faulty trio takes these hours.
    pub(super) fn longest_repair(&self, hours: u32) -> Result<Hours, Refusal>
        ensures { result_map_both duration_value (λ e. e) result ≡ Ok (longest_repair hours (network_in self.now)) }
    {
        let weights = [Weights::alike(Hours(Some(0)), Hours(Some(hours))); MOST_TRIOS];
        self.cabinet.total(&weights[..self.trio_count()])
    }

    // How many trios there are.
    fn trio_count(&self) -> usize
        ensures value { result ≡ voter_count (network_in self.now) + module_count (network_in self.now) }
        ensures few { result ≤ 31 }
    {
        self.cabinet.voter_count() + self.cabinet.module_count()
    }
}
