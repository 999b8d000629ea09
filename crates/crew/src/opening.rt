//! The board over a checked plan and an input of its algorithm.
//!
//! A board keeps words alone: `layout_of` says which cells, pieces and picture a checked plan has, and `values_of` which
//! values its cells get on an input. The laws put what a board's calls promise into the algorithm's terms.

mod cells;
pub mod laws;
mod opening;

pub use opening::open;
pub(crate) use opening::open_alone;
