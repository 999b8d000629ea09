//! What an algorithm, read without any schedule, says a pixel is.
#![tactic(auto)]

pub mod image;
pub mod inlining;
pub mod laws;
pub mod sameness;
pub mod worked;
