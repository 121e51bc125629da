// Cells weighed combination by combination.
ghost use Rattle.std.specs.Prelude.{◌≡◌, map, length};
ghost use Rattle.algebra.specs.Sums.{product};
ghost use Rattle.method.specs.Groups.{combination};
ghost use Rattle.method.specs.Method.{cell_weight, group_weight, module_weights, voter_weights};
ghost use Rattle.sets.specs.Sets.{members};
ghost use Rattle.wiring.specs.Wires.{link_list};
ghost use Rattle.weighing.specs.Entries.{first_members, read_all, shown_below};

use crate::products::product_over;
use crate::weights::Weights;
use algebra::Weight;
use network::Trio;
use sets::TrioSet;
use wiring::{Cell, Links};

// The product of what the cells weigh. The weights of the voter trios and of the module trios are listed by number; a
// trio without weights is left out.
pub fn weigh_cells<W: Weight>(
    links: &Links,
    cells: &[Cell],
    voters: &[Weights<W>],
    modules: &[Weights<W>],
) -> W
    ensures { W.Weight.value result ≡ product W.Weight.kind (cell_weight W.Weight.kind (voter_weights W.Weight.kind (read_all W.Weight.value voters.now)) (module_weights W.Weight.kind (read_all W.Weight.value modules.now)) (link_list links.now)) (map (shown_below (length voters.now) (length modules.now)) cells.now) }
{
    let weighing = Weighing {
        links,
        voters,
        modules,
    };
    let mut product = W::unit();
    for cell in cells {
        product = product.times(&weighing.cell(cell));
    }
    product
}

// What cells are weighed by: the links, and the weights of the voter trios and of the module trios by number.
#[derive(Clone, Copy)]
struct Weighing<'a, W> {
    links: &'a Links,
    voters: &'a [Weights<W>],
    modules: &'a [Weights<W>],
}

impl<W: Weight> Weighing<'_, W> {
    // The weight of all tolerated patterns of a cell: one step for each combination of its voter trios. In a
    // combination the trios fall into groups that share modules, and each group is faulty at one position.
    fn cell(&self, cell: &Cell) -> W
        ensures { W.Weight.value result ≡ cell_weight W.Weight.kind (voter_weights W.Weight.kind (read_all W.Weight.value self.now.voters.now)) (module_weights W.Weight.kind (read_all W.Weight.value self.now.modules.now)) (link_list self.now.links.now) (shown_below (length self.now.voters.now) (length self.now.modules.now) cell.now) }
    {
        let voters = cell.voters.below(self.voters.len());
        let modules = cell.modules.below(self.modules.len());
        let mut total = W::nothing();
        for j in 0..1 << voters.len() {
            let chosen = combination_of(voters, j);
            let own = self.links.only_from(chosen);
            let mut ungrouped = chosen;
            let mut groups = W::unit();
            while let Some(v) = ungrouped.first() {
                let group = own.cell_around(Trio::Voter(v));
                let fed = group.modules.intersection(modules);
                groups = groups.times(&self.group(group.voters, fed));
                ungrouped = ungrouped.difference(group.voters);
            }
            let whole = product_over(self.voters, voters.difference(chosen), |w| w.whole);
            let unfed = product_over(
                self.modules,
                modules.difference(self.links.fed_by(chosen)),
                |w| w.in_any_state(),
            );
            total = total.plus(&whole.times(&groups).times(&unfed));
        }
        total
    }

    // The weight of a group: its voters are faulty at one position, and the modules that it feeds may be at the same.
    fn group(&self, voters: TrioSet, fed: TrioSet) -> W
        ensures { W.Weight.value result ≡ group_weight W.Weight.kind (voter_weights W.Weight.kind (read_all W.Weight.value self.now.voters.now)) (module_weights W.Weight.kind (read_all W.Weight.value self.now.modules.now)) (first_members voters (length self.now.voters.now), first_members fed (length self.now.modules.now)) }
    {
        let faults = product_over(self.voters, voters, |w| w.faulty);
        let places = product_over(self.modules, fed, |w| w.whole_or_faulty());
        faults.times(&places).sum()
    }
}

// Combination `j` of some voters: the i-th of them where binary digit i of `j` is 1.
pub fn combination_of(voters: TrioSet, j: usize) -> TrioSet
    ensures { members result ≡ combination (members voters) j }
{
    let mut chosen = TrioSet::empty();
    let mut digits = j;
    for v in voters {
        if digits % 2 == 1 {
            chosen = chosen.with(v);
        }
        digits /= 2;
    }
    chosen
}
