// The cabinet and the limits that each one keeps.
ghost use Rattle.std.specs.Prelude.{◌≡◌, true};
ghost use Rattle.network.specs.Limits.{within_limits};
ghost use Rattle.cabinet.specs.Parts.{network_of};

use wiring::{Links, TrioTable};

mod cells;
mod changes;
mod questions;
mod totals;

// Up to 16 voter trios and 15 module trios, each with a part code, and the links between them.
// Cells are worked out from the present links, so a link that was cut leaves no trace.
#[derive(Drop)]
pub struct Cabinet {
    voters: TrioTable<16>,
    modules: TrioTable<15>,
    links: Links,
    ghost limits: { within_limits (network_of voters modules links) ≡ true },
}
