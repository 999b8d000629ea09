//! Plans as work for a crew: what a yes of the checker promises, and why the pieces of a right plan give the algorithm's
//! values.
#![tactic(auto)]

pub mod laws;
