// The parts that a cabinet is made of: the table of its trios, its links, and the cells that the links make.
#![tactic(auto)]

mod cell;
mod links;
mod table;

pub use cell::Cell;
pub use links::Links;
pub use table::TrioTable;
