//! Why a text has no tokens.

ghost use Rattle.std.specs.Prelude.{◌≡◌};
ghost use Rattle.tree.specs.declared.token.error.TokenError.TheVariants.{Memory};

use crate::token::span::Span;
use std::alloc::{AllocError, AllocFailed};

/// Why the tokens of a text were not found.
#[derive(Clone, Copy, Drop)]
pub enum TokenError {
    /// Memory ran out.
    Memory,
    /// The text has more than 65,536 bytes: those from there on.
    TooLong(Span),
    /// What stands here is no token.
    BadToken(Span),
}

impl From<AllocError> for TokenError {
    ghost from_gives = { λ _ e. e ≡ Memory };

    fn from(_e: AllocError) -> TokenError {
        TokenError::Memory
    }
}

impl<T: Drop> From<AllocFailed<T>> for TokenError {
    ghost from_gives = { λ _ e. e ≡ Memory };

    fn from(_e: AllocFailed<T>) -> TokenError {
        TokenError::Memory
    }
}
