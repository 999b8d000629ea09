//! What has to be shown of a group's lines: a walk that decides each obligation, and tells the first that is not shown.
#![tactic(auto)]

mod asked;
mod claiming;
pub mod context;
pub mod laws;
mod loads;
mod spans;
mod stores;
mod walk;
mod windows;

pub use crate::context::{Facts, Part};
pub use walk::first_unmet;
