//! Why a text of lines was not read.

ghost use Rattle.std.specs.Prelude.{◌≡◌};
ghost use Rattle.spelling.specs.declared.lines.error.TextError.TheVariants.{Memory};

use std::alloc::{AllocError, AllocFailed};

/// Why a text was not read, with the number of the first line that is wrong.
#[derive(Clone, Copy, Debug, PartialEq, Eq, Drop)]
pub enum TextError {
    /// N1: the line is not as it is written for any value, or the text ends before it is whole.
    Form(usize),
    /// N2: the line passes a limit.
    Limit(usize),
    /// Memory ran out.
    Memory,
}

impl From<AllocError> for TextError {
    ghost from_gives = { λ _ e. e ≡ Memory };

    fn from(_e: AllocError) -> TextError {
        TextError::Memory
    }
}

impl<T: Drop> From<AllocFailed<T>> for TextError {
    ghost from_gives = { λ _ e. e ≡ Memory };

    fn from(_e: AllocFailed<T>) -> TextError {
        TextError::Memory
    }
}
