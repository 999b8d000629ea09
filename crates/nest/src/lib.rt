//! Plans as text: each plan has one text, and no other text is read as that plan.
#![tactic(auto)]

pub mod blocks;
mod fitting;
pub mod laws;
mod reading;
mod text;
mod writing;

pub use plan::Plan;
pub use text::read;
pub use writing::write;
