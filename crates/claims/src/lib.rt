//! What the lines of a plan's groups owe: whether all of it is shown, and the first that is not, in the order of the lines
//! and at one line in that of the codes.
#![tactic(auto)]

mod group;
mod group_bounds;
mod least;
mod tasks;

pub use tasks::first_fault;
