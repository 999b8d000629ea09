//! What the lines of a plan's groups refer to, and tests that are asked of lines.

pub mod forms;
pub mod kept;
mod loads;
mod outlined;
pub mod refusals;
mod rooms;
mod source;

pub use outlined::Outlined;
pub use source::Source;
