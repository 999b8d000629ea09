//! The steps of a checked plan's workers, replayed in any order, and the picture that they compute.
#![tactic(auto)]

mod act;
mod alone;
mod counts;
mod crew;
mod desk;
mod job;
mod replaying;
mod runs;
mod samples;
mod state;
mod worker;

pub use replaying::{picture, replay};
pub use state::State;
