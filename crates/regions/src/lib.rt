//! Which region of each function is needed where, and where it is computed.
#![tactic(auto)]

pub mod calls;
pub mod demand;
pub mod fetching;
mod forms;
mod guarded;
pub mod lacking;
pub mod nests;
mod pieces;
pub mod regions;
pub mod sliding;
pub mod spots;
mod standing;
pub mod turns;
pub mod uses;
pub mod windows;
