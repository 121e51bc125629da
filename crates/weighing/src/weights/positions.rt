// Weights position by position. `plus` and `times` are both written out: a function over the method that they call three
// times would need a clause on what it answers.
ghost use Rattle.std.specs.Prelude.{◌≡◌};
ghost use Rattle.method.specs.Method.{over_positions};
ghost use Rattle.weighing.specs.Entries.{at_position, each_position};

use super::PerPosition;
use algebra::Weight;

impl<W: Weight> Weight for PerPosition<W> {
    ghost kind = { each_position W.Weight.kind };

    ghost value = { at_position W.Weight.value };

    fn nothing() -> PerPosition<W> {
        PerPosition::same(W::nothing())
    }

    fn unit() -> PerPosition<W> {
        PerPosition::same(W::unit())
    }

    fn plus(&self, other: &PerPosition<W>) -> PerPosition<W> {
        PerPosition {
            a: self.a.plus(&other.a),
            b: self.b.plus(&other.b),
            c: self.c.plus(&other.c),
        }
    }

    fn times(&self, other: &PerPosition<W>) -> PerPosition<W> {
        PerPosition {
            a: self.a.times(&other.a),
            b: self.b.times(&other.b),
            c: self.c.times(&other.c),
        }
    }
}

impl<W: Weight> PerPosition<W> {
    // The sum over the positions.
    pub(crate) fn sum(&self) -> W
        ensures { W.Weight.value result ≡ over_positions W.Weight.kind (at_position W.Weight.value self.now) }
    {
        self.a.plus(&self.b).plus(&self.c)
    }
}
