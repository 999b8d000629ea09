//! The whole-number types of a pipeline, their operators, and laws on whole numbers.
//!
//! A value is an `i64` that lies in its type. Nothing here takes memory or refuses.
#![tactic(auto)]

pub mod laws;
pub mod op;
pub mod ty;

pub use op::{Comparison, Op, apply, compare, negate};
pub use ty::{Ty, cast, wrap};
