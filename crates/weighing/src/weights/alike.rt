// Weights that are the same at each position.
ghost use Rattle.std.specs.Prelude.{◌≡◌};
ghost use Rattle.weighing.specs.Entries.{entry_of};

use super::{PerPosition, Weights};

impl<W: Copy> PerPosition<W> {
    // One weight at each position.
    pub(crate) fn same(weight: W) -> PerPosition<W>
        ensures { result ≡ record { a = weight; b = weight; c = weight } }
    {
        PerPosition {
            a: weight,
            b: weight,
            c: weight,
        }
    }
}

impl<W: Copy> Weights<W> {
    // One weight for a whole trio, and one for a trio that is faulty at whichever position.
    pub fn alike(whole: W, faulty: W) -> Weights<W>
        ensures { result ≡ entry_of whole faulty }
    {
        Weights {
            whole,
            faulty: PerPosition::same(faulty),
        }
    }
}
