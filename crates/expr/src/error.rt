//! Why no expression was read.

ghost use Rattle.std.specs.Prelude.{◌≡◌};
ghost use Rattle.expr.specs.declared.error.Stop.TheVariants.{Memory};
ghost use Rattle.expr.specs.Text.{token_refusal};

use std::alloc::{AllocError, AllocFailed};
use tree::token::{Span, TokenError};

/// What is wrong with the tokens. A number says how many of them are left where the fault stands.
#[derive(Clone, Copy, Drop)]
pub enum Refusal {
    /// The tokens do not go on as the grammar says.
    BadForm(usize),
    /// A name of more than 16 bytes stands here.
    LongName(usize),
    /// The expression has too many nodes or too many levels.
    TooLarge,
}

/// Why no expression was read from tokens.
#[derive(Clone, Copy, Drop)]
pub enum Stop {
    /// Memory ran out.
    Memory,
    /// The tokens were refused.
    Refused(Refusal),
}

impl From<AllocError> for Stop {
    ghost from_gives = { λ _ s. s ≡ Memory };

    fn from(_e: AllocError) -> Stop {
        Stop::Memory
    }
}

impl<T: Drop> From<AllocFailed<T>> for Stop {
    ghost from_gives = { λ _ s. s ≡ Memory };

    fn from(_e: AllocFailed<T>) -> Stop {
        Stop::Memory
    }
}

/// Why a text is no expression, and where.
#[derive(Clone, Copy, Drop)]
pub enum ExprError {
    /// Memory ran out.
    Memory,
    /// E1: what stands here is no token.
    BadToken(Span),
    /// E2: the tokens do not go on here as the grammar says.
    BadForm(Span),
    /// E4: the text is longer than 65,536 bytes (those from there on), a name has more than 16 bytes, or the
    /// expression has more than 512 nodes or 64 levels (then it is the whole expression).
    TooLarge(Span),
}

impl From<TokenError> for ExprError {
    ghost from_gives = { λ t e. e ≡ token_refusal t };

    fn from(error: TokenError) -> ExprError {
        match error {
            TokenError::Memory => ExprError::Memory,
            TokenError::TooLong(span) => ExprError::TooLarge(span),
            TokenError::BadToken(span) => ExprError::BadToken(span),
        }
    }
}
