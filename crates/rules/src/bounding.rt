//! The bounds of forms and expressions that show what a checked plan owes.

mod called;
mod inside;
mod kept;
pub mod laws;
mod plan_bounds;
mod same;
mod scope;
mod seats;

pub use kept::Kept;
pub use plan_bounds::PlanBounds;
