//! Why an algorithm is not cut.

ghost use Rattle.std.specs.Prelude.{◌≡◌};
ghost use Rattle.crop.specs.declared.error.CropError.TheVariants.{Memory};

use std::alloc::{AllocError, AllocFailed};
use thiserror::Error;

/// Why an algorithm is not cut.
#[derive(Debug, Error, Drop)]
pub enum CropError {
    /// Memory ran out.
    #[error("M0")]
    Memory,
    /// The rectangle is empty or leaves the output's extents.
    #[error("C1")]
    Outside,
    /// The cut algorithm passes a limit of an algorithm's text. The name is the input's, where an extent of the part of it that is
    /// read is past the limit; a function's, where an expression or a reduction of it is; else the output's.
    #[error("C2 {name}")]
    Limit { name: String },
}

impl From<AllocError> for CropError {
    ghost from_gives = { λ _ e. e ≡ Memory };

    fn from(_: AllocError) -> CropError {
        CropError::Memory
    }
}

impl<T: Drop> From<AllocFailed<T>> for CropError {
    ghost from_gives = { λ _ e. e ≡ Memory };

    fn from(_: AllocFailed<T>) -> CropError {
        CropError::Memory
    }
}
