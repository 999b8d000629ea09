//! Plans that a checker has accepted for an algorithm.
#![tactic(auto)]

mod checked;
pub mod output;
pub mod ready;

pub use checked::Checked;
