//! Plans written out: why they are right, and how little makes them wrong.

pub mod counts;
pub mod sums;
