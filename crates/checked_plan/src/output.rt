//! Which cell of a checked plan each group has at each point, and which the output has.

mod axis;
mod cells;
mod ends;
mod plan_cells;

pub use axis::Axis;
pub use cells::OutputCells;
pub use ends::{high_end, low_end};
pub use plan_cells::{GroupCells, PlanCells};
