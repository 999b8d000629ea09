//! Why a part of a plan is not made.

ghost use Rattle.std.specs.Prelude.{◌≡◌};
ghost use Rattle.sched.specs.declared.stop.Stop.TheVariants.{Memory as NoMemory};
ghost use Rattle.sched.specs.Refused as spec;

use crate::SkeletonError;
use lin::LinError;
use std::alloc::{AllocError, AllocFailed};
use subst::SubstError;

/// Why a part of a plan was not made.
#[derive(Clone, Copy, Drop)]
pub enum Stop {
    /// Memory ran out.
    Memory,
    /// A form leaves the limits of forms, or a bound is missing.
    Limit,
}

impl From<AllocError> for Stop {
    ghost from_gives = { λ _ s. s ≡ NoMemory };

    fn from(_e: AllocError) -> Stop {
        Stop::Memory
    }
}

impl<T: Drop> From<AllocFailed<T>> for Stop {
    ghost from_gives = { λ _ s. s ≡ NoMemory };

    fn from(_e: AllocFailed<T>) -> Stop {
        Stop::Memory
    }
}

impl From<LinError> for Stop {
    ghost from_gives = { λ l s. s ≡ spec.stop_of_form l };

    fn from(error: LinError) -> Stop {
        match error {
            LinError::Memory => Stop::Memory,
            LinError::Limit => Stop::Limit,
        }
    }
}

impl From<SkeletonError> for Stop {
    ghost from_gives = { λ l s. s ≡ spec.stop_of_skeleton l };

    fn from(error: SkeletonError) -> Stop {
        match error {
            SkeletonError::Memory => Stop::Memory,
            SkeletonError::Limit => Stop::Limit,
        }
    }
}

impl From<SubstError> for Stop {
    ghost from_gives = { λ l s. s ≡ spec.stop_of_put_in l };

    fn from(error: SubstError) -> Stop {
        match error {
            SubstError::Memory => Stop::Memory,
            SubstError::Updates | SubstError::TooLarge => Stop::Limit,
        }
    }
}
