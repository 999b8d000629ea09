//! What made a schedule break a rule: what was found, what was needed, and the shortest change that mends it.

mod asked;
mod causes;
mod flaws;
mod folds;
mod mends;
mod reach;
mod readings;
mod rules;
mod sizes;
mod slides;
mod stores;
mod texts;
mod turned;

pub use causes::{
    Amount, BoundCause, Cause, Excess, FoldCause, LargestSplit, Link, Reason, SizeCause,
    Standstill, Storage, TurnCause,
};
pub use rules::reason;
