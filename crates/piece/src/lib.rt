//! What a piece is told of the cells that it fetches, and its private run.
#![tactic(auto)]

mod cells;
mod index;
pub mod laws;
pub mod places;
mod rising;
mod running;
mod types;

pub use cells::LookedCells;
pub use running::{private_run, run_in};
