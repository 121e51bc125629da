// Links put and taken out. `with` and `without` differ in the row's method alone, and a closure for it would make neither
// shorter.
ghost use Rattle.std.specs.Prelude.{◌≡◌, ℕ, ◌<◌, ◌&&◌, [], if◌then◌else◌, filter, nat_lt};
ghost use Rattle.network.specs.Networks.{link_of, put, stands, taken_out};
ghost use Rattle.sets.specs.Sets.{member};
ghost use Rattle.wiring.specs.Wires.{feeds, link_list};

use super::{Links, VOTERS};
use network::Link;
use sets::TrioSet;
use std::array;

impl Links {
    // No link at all.
    pub fn none() -> Links
        ensures { link_list result ≡ [] }
    {
        Links {
            rows: [TrioSet::empty(); VOTERS],
        }
    }

    // Whether the voter feeds the module.
    pub fn stands(&self, link: Link) -> bool
        ensures { result ≡ stands (link_list self.now) (link_of link) }
    {
        link.voter < VOTERS && self.rows[link.voter].contains(link.module)
    }

    // The links with one more; one past the last row or place adds nothing.
    pub fn with(self, link: Link) -> Links
        ensures { link_list result ≡ (if nat_lt link.voter 16 && nat_lt link.«module» 16 then put (link_of link) (link_list self) else link_list self) }
    {
        let mut rows = self.rows;
        if link.voter < VOTERS {
            rows[link.voter] = rows[link.voter].with(link.module);
        }
        Links { rows }
    }

    // The links of some voters only.
    pub fn only_from(&self, voters: TrioSet) -> Links
        ensures { link_list result ≡ filter (λ l. member voters l.0) (link_list self.now) }
    {
        Links {
            rows: array::from_fn(|v| self.row_if(voters, v)),
        }
    }

    // What a voter feeds, if it is in the set, and else nothing. All rows are asked for alike, which the compiler turns into
    // steps on several rows at once; the members taken one after another, each waiting for the last, took a fifth more time.
    pub(super) fn row_if(&self, voters: TrioSet, v: usize) -> TrioSet
        requires { v < 16 }
        ensures { (m : ℕ) → member result m ≡ (member voters v && feeds self.now v m) }
    {
        let row = self.rows[v];
        if voters.contains(v) {
            row
        } else {
            TrioSet::empty()
        }
    }

    // The links without one.
    pub fn without(self, link: Link) -> Links
        ensures { link_list result ≡ taken_out (link_of link) (link_list self) }
    {
        let mut rows = self.rows;
        if link.voter < VOTERS {
            rows[link.voter] = rows[link.voter].without(link.module);
        }
        Links { rows }
    }
}
