//! Whether a schedule can be lowered, what pieces own and claim, and how their statements are written.
#![tactic(auto)]

pub mod blocks;
mod breaches;
pub mod counting;
pub mod definitions;
pub mod ends;
pub mod group;
pub mod legality;
pub mod loading;
mod mixed;
pub mod parts;
mod renaming;
pub mod rounded;
pub mod storage;
mod telling;
pub mod whole;

pub use breaches::{Breach, find_breach, find_region_breach, unknown_word};
