//! Why an algorithm was not written.

ghost use Rattle.std.specs.Prelude.{◌≡◌};
ghost use Rattle.printer.specs.declared.error.WriteError.TheVariants.{Memory};

use std::alloc::{AllocError, AllocFailed};
use thiserror::Error;

/// Why an algorithm was not written.
#[derive(Clone, Copy, Debug, PartialEq, Eq, Error, Drop)]
pub enum WriteError {
    /// Memory ran out.
    #[error("out of memory")]
    Memory,
    /// The canonical text has more than 65,536 bytes.
    #[error("a text of more than 65536 bytes")]
    TooLong,
}

impl From<AllocError> for WriteError {
    ghost from_gives = { λ _ e. e ≡ Memory };

    fn from(_: AllocError) -> WriteError {
        WriteError::Memory
    }
}

impl<T: Drop> From<AllocFailed<T>> for WriteError {
    ghost from_gives = { λ _ e. e ≡ Memory };

    fn from(_: AllocFailed<T>) -> WriteError {
        WriteError::Memory
    }
}
