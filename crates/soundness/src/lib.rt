//! Why a sound plan computes right values.
#![tactic(auto)]

pub mod binders;
pub mod laws;
pub mod nests;
pub mod outline;
pub mod worked;
