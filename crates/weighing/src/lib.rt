// Weighing the fault patterns of cells by the cell method, on any kind of weight.
#![tactic(auto)]

mod cells;
mod products;
mod weights;

pub use cells::{combination_of, weigh_cells};
pub use weights::{PerPosition, Weights};
