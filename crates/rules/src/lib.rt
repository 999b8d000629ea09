//! Tests by bounds: what a line of a plan has to keep, decided from the spans of its symbols.
#![tactic(auto)]

pub mod bounding;
pub mod nests;
pub mod widths;
