//! What is wrong with the lines of a plan's groups by names, limits and stored expressions.

mod ends;
mod groups;
mod here;
mod lanes;
pub mod laws;
mod lines;
mod sizes;

pub use groups::first_flaw;
