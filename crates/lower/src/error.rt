//! Why an algorithm and a schedule give no plan.

ghost use Rattle.std.specs.Prelude.{◌≡◌};
ghost use Rattle.lower.specs.declared.error.LowerError.TheVariants.{Memory, Schedule};

use sched::{RegionRule, SchedError};
use std::alloc::{AllocError, AllocFailed};
use tree::token::Name;

/// Why an algorithm and a schedule give no plan.
#[derive(Clone, Copy, PartialEq, Eq, Drop)]
pub enum LowerError {
    /// Memory ran out.
    Memory,
    /// The schedule breaks a rule that asks for no region.
    Schedule(SchedError),
    /// What the function's loops run over breaks a rule.
    Broken(RegionRule, Name),
}

impl From<AllocError> for LowerError {
    ghost from_gives = { λ _ e. e ≡ Memory };

    fn from(_e: AllocError) -> LowerError {
        LowerError::Memory
    }
}

impl<T: Drop> From<AllocFailed<T>> for LowerError {
    ghost from_gives = { λ _ e. e ≡ Memory };

    fn from(_e: AllocFailed<T>) -> LowerError {
        LowerError::Memory
    }
}

impl From<SchedError> for LowerError {
    ghost from_gives = { λ s e. e ≡ Schedule s };

    fn from(error: SchedError) -> LowerError {
        LowerError::Schedule(error)
    }
}
