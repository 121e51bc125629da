// What the weights of a module trio add to a combination.
ghost use Rattle.std.specs.Prelude.{◌≡◌};
ghost use Rattle.network.specs.Patterns.{Position, whole, at};
ghost use Rattle.method.specs.Method.{merged};
ghost use Rattle.weighing.specs.Entries.{at_position, read};

use super::{PerPosition, Weights};
use algebra::Weight;

impl<W: Weight> Weights<W> {
    // Outside every group the trio may be in any state.
    pub(crate) fn in_any_state(&self) -> W
        ensures { W.Weight.value result ≡ merged W.Weight.kind (read W.Weight.value self.now) whole }
    {
        self.whole
            .plus(&self.faulty.a)
            .plus(&self.faulty.b)
            .plus(&self.faulty.c)
    }

    // In a group at a position the trio may be whole, or faulty there.
    pub(crate) fn whole_or_faulty(&self) -> PerPosition<W>
        ensures { (p : Position) → at_position W.Weight.value result p ≡ merged W.Weight.kind (read W.Weight.value self.now) (at p) }
    {
        PerPosition {
            a: self.whole.plus(&self.faulty.a),
            b: self.whole.plus(&self.faulty.b),
            c: self.whole.plus(&self.faulty.c),
        }
    }
}
