// The cabinet: trios and links that a fitter keys, and the cells that they make. It works without a heap.
#![tactic(auto)]

mod cabinet;
mod cell_list;

pub use cabinet::Cabinet;
pub use cell_list::CellList;
