//! Why a text is no algorithm.

ghost use Rattle.std.specs.Prelude.{◌≡◌};
ghost use Rattle.algo.specs.declared.error.AlgoError.TheVariants.{Memory};
ghost use Rattle.algo.specs.Refusal.{code_of, form_error, place_of};

use expr::statements::FormError;
use std::alloc::{AllocError, AllocFailed};
use std::fmt::{self, Display, Formatter};
use thiserror::Error;
use tree::token::Span;

/// What a text breaks.
#[derive(Clone, Copy, Debug, Error)]
pub enum Code {
    /// What stands here is no token.
    #[error("E1")]
    BadToken,
    /// What stands here does not go on as the grammar says.
    #[error("E2")]
    BadForm,
    /// The types of an expression's parts differ, or its type is not the wanted one.
    #[error("E3")]
    TypesDiffer,
    /// The text, a name or an expression is too large.
    #[error("E4")]
    TooLarge,
    /// A name is unknown or doubled.
    #[error("A1")]
    Name,
    /// A call of a later function, or of itself in a pure definition.
    #[error("A2")]
    LaterCall,
    /// A wrong number of indices.
    #[error("A3")]
    IndexCount,
    /// A function's variable stands out of its place in an update.
    #[error("A4")]
    MovedVariable,
    /// An update has no reduction domain.
    #[error("A5")]
    NoDomain,
    /// A limit is passed.
    #[error("A6")]
    Limit,
    /// The type of the input or of the output is none of images.
    #[error("A7")]
    SampleType,
}

/// Why a text is no algorithm.
#[derive(Clone, Copy, Debug, Error)]
pub enum AlgoError {
    /// Memory ran out.
    #[error("M0")]
    Memory,
    /// The text breaks a rule, at these bytes.
    #[error("{code} bytes {}..{}", .span.start, .span.end)]
    Refused { code: Code, span: Span },
}

impl From<AllocError> for AlgoError {
    ghost from_gives = { λ _ e. e ≡ Memory };

    fn from(_e: AllocError) -> AlgoError {
        AlgoError::Memory
    }
}

impl<T: Drop> From<AllocFailed<T>> for AlgoError {
    ghost from_gives = { λ _ e. e ≡ Memory };

    fn from(_e: AllocFailed<T>) -> AlgoError {
        AlgoError::Memory
    }
}

impl From<FormError> for AlgoError {
    ghost from_gives = { λ e f. f ≡ form_error e };

    fn from(e: FormError) -> AlgoError {
        match e {
            FormError::Memory => AlgoError::Memory,
            FormError::BadToken(span) => AlgoError::Refused {
                code: Code::BadToken,
                span,
            },
            FormError::BadForm(span) => AlgoError::Refused {
                code: Code::BadForm,
                span,
            },
            FormError::TooLarge(span) => AlgoError::Refused {
                code: Code::TooLarge,
                span,
            },
        }
    }
}

impl AlgoError {
    /// What the text breaks, if it is refused.
    pub fn code(&self) -> Option<Code>
        ensures { result ≡ code_of self.now }
    {
        match self {
            AlgoError::Memory => None,
            AlgoError::Refused { code, .. } => Some(*code),
        }
    }

    /// Where it breaks it, if it is refused.
    pub fn span(&self) -> Option<Span>
        ensures { result ≡ place_of self.now }
    {
        match self {
            AlgoError::Memory => None,
            AlgoError::Refused { span, .. } => Some(*span),
        }
    }
}
