//! What the checker of plans asks, as one definition; what a yes gives, and what a refusal says.

pub mod bounded;
pub mod clear;
pub mod examples;
pub mod folds;
pub mod indices;
pub mod kinds;
pub mod laws;
pub mod plans;
pub mod shown;
