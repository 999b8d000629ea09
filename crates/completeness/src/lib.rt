//! The checker takes what `lower` makes, as far as that is proved: laws alone, over the definitions of both.
#![tactic(auto)]

pub mod blocked;
pub mod filled;
pub mod fitting;
pub mod inside;
pub mod laws;
pub mod looped;
pub mod nests;
pub mod owed;
pub mod said;
pub mod told;
pub mod worked;
