//! Why calls were not put in.

ghost use Rattle.std.specs.Prelude.{◌≡◌};
ghost use Rattle.subst.specs.declared.error.SubstError.TheVariants.{Memory};

use std::alloc::{AllocError, AllocFailed};
use thiserror::Error;

/// Why calls were not put in.
#[derive(Clone, Copy, Debug, PartialEq, Eq, Error, Drop)]
pub enum SubstError {
    /// Memory ran out.
    #[error("out of memory")]
    Memory,
    /// A function that has updates and is not stored is called, by the expression or by what is put in for its calls.
    #[error("a function with updates is called")]
    Updates,
    /// With the calls put in, the expression has more than 4096 nodes, or more than 256 on a way down.
    #[error("more than 4096 nodes or 256 levels")]
    TooLarge,
}

impl From<AllocError> for SubstError {
    ghost from_gives = { λ _ e. e ≡ Memory };

    fn from(_: AllocError) -> SubstError {
        SubstError::Memory
    }
}

impl<T: Drop> From<AllocFailed<T>> for SubstError {
    ghost from_gives = { λ _ e. e ≡ Memory };

    fn from(_: AllocFailed<T>) -> SubstError {
        SubstError::Memory
    }
}
