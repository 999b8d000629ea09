//! From an algorithm and a schedule to a plan and its certificate.
#![tactic(auto)]

mod error;
mod grouping;
mod inner;
mod later;
pub mod laws;
mod legality;
mod lowering;
mod needs;
mod nesting;
mod parties;
mod reasons;
mod rounding;

pub use error::LowerError;
pub use lowering::{Lowered, lower};
pub use reasons::{
    Amount, BoundCause, Cause, Excess, FoldCause, LargestSplit, Link, Reason, SizeCause,
    Standstill, Storage, TurnCause, reason,
};
