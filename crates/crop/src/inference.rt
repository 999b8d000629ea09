//! The regions that functions need of one another: the points at which definitions call.

mod calls;
mod definitions;

pub use bounds::BoundsError;
pub use definitions::{needed, needed_outside};
