//! Names, limits and stored expressions of all lines of a plan file.
#![tactic(auto)]

mod among;
pub mod certificate;
pub mod groups;
pub mod stored;
