// Products over the trios of a set.
ghost use Rattle.std.specs.Prelude.{◌≡◌, ℕ, length};
ghost use Rattle.std.specs.Fn.{FnReturnsAt};
ghost use Rattle.algebra.specs.Sums.{product};
ghost use Rattle.weighing.specs.Entries.{ReturnsByPlace, first_members};

use crate::weights::Weights;
use algebra::Weight;
use sets::TrioSet;

// The product of the shares of the trios of a set. `share` says what the weights of a trio add. The loop goes over the
// weights with their index; by the set's members each would be looked up at an index to be bounded.
pub(crate) fn product_over<W, P: Weight, F: Fn(&Weights<W>) -> P>(
    entries: &[Weights<W>],
    set: TrioSet,
    share: F,
) -> P
    requires { F.IsAlwaysCallable share }
    ensures { (f : ℕ → P.Weight.kind.Value) → ReturnsByPlace (FnReturnsAt F.Fn share) P.Weight.value entries.now f → P.Weight.value result ≡ product P.Weight.kind f (first_members set (length entries.now)) }
{
    let mut product = P::unit();
    for (i, weights) in entries.iter().enumerate() {
        if set.contains(i) {
            product = product.times(&share(weights));
        }
    }
    product
}
