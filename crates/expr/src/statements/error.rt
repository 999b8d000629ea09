//! Why a text is no list of statements.

ghost use Rattle.std.specs.Prelude.{◌≡◌};
ghost use Rattle.expr.specs.declared.statements.error.Stop.TheVariants.{Memory};
ghost use Rattle.expr.specs.Statements.Places.{token_refusal};

use std::alloc::{AllocError, AllocFailed};
use tree::token::{Span, TokenError};

/// What is wrong with the tokens. A number says how many of them are left where the fault stands.
#[derive(Clone, Copy, Drop)]
pub enum Refusal {
    /// The tokens do not go on as the grammar says.
    BadForm(usize),
    /// A name of more than 16 bytes stands here.
    LongName(usize),
    /// The expression that begins here has too many nodes or too many levels.
    TooLarge(usize),
}

/// Why no statement was read from tokens.
#[derive(Clone, Copy, Drop)]
pub enum Stop {
    /// Memory ran out.
    Memory,
    /// The tokens were refused.
    Refused(Refusal),
}

impl From<AllocError> for Stop {
    ghost from_gives = { λ _ s. s ≡ Memory };

    fn from(_e: AllocError) -> Stop {
        Stop::Memory
    }
}

impl<T: Drop> From<AllocFailed<T>> for Stop {
    ghost from_gives = { λ _ s. s ≡ Memory };

    fn from(_e: AllocFailed<T>) -> Stop {
        Stop::Memory
    }
}

/// Why a text is no list of statements.
#[derive(Clone, Copy, Drop)]
pub enum FormError {
    /// Memory ran out.
    Memory,
    /// What stands here is no token (E1).
    BadToken(Span),
    /// What stands here does not go on as the grammar says (E2).
    BadForm(Span),
    /// What stands here is larger than the limits: the text, a name or an expression (E4).
    TooLarge(Span),
}

impl From<TokenError> for FormError {
    ghost from_gives = { λ e f. f ≡ token_refusal e };

    fn from(e: TokenError) -> FormError {
        match e {
            TokenError::Memory => FormError::Memory,
            TokenError::TooLong(span) => FormError::TooLarge(span),
            TokenError::BadToken(span) => FormError::BadToken(span),
        }
    }
}
