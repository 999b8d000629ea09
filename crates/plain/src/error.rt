//! Why no value is given.

ghost use Rattle.std.specs.Prelude.{◌≡◌};
ghost use Rattle.plain.specs.declared.error.PlainError.TheVariants.{Memory};

use std::alloc::{AllocError, AllocFailed};
use thiserror::Error;

/// Why no value is given.
#[derive(Clone, Copy, Debug, PartialEq, Eq, Error)]
pub enum PlainError {
    /// A value takes more evaluations than the budget allows.
    #[error("P1")]
    Budget,
    /// Memory ran out.
    #[error("M0")]
    Memory,
}

impl From<AllocError> for PlainError {
    ghost from_gives = { λ _ e. e ≡ Memory };

    fn from(_e: AllocError) -> PlainError {
        PlainError::Memory
    }
}

impl<T: Drop> From<AllocFailed<T>> for PlainError {
    ghost from_gives = { λ _ e. e ≡ Memory };

    fn from(_e: AllocFailed<T>) -> PlainError {
        PlainError::Memory
    }
}
