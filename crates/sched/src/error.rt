//! Why a text is no schedule, and why a schedule is refused.

ghost use Rattle.std.specs.Prelude.{◌≡◌};
ghost use Rattle.sched.specs.declared.error.Stop.TheVariants.{Memory};
ghost use Rattle.sched.specs.declared.error.SchedError.TheVariants.{Memory as NoMemory};
ghost use Rattle.sched.specs.Text.{token_refusal};

use std::alloc::{AllocError, AllocFailed};
use tree::token::{Name, Span, TokenError};

/// What is wrong with the tokens. A number says how many of them are left where the fault stands.
#[derive(Clone, Copy, Drop)]
pub enum Refusal {
    /// The tokens do not go on as the grammar says.
    BadForm(usize),
    /// A name of more than 16 bytes stands here.
    LongName(usize),
}

/// Why no schedule was read from tokens.
#[derive(Clone, Copy, Drop)]
pub enum Stop {
    /// Memory ran out.
    Memory,
    /// The tokens were refused.
    Refused(Refusal),
}

impl From<AllocError> for Stop {
    ghost from_gives = { λ _ s. s ≡ Memory };

    fn from(_e: AllocError) -> Stop {
        Stop::Memory
    }
}

impl<T: Drop> From<AllocFailed<T>> for Stop {
    ghost from_gives = { λ _ s. s ≡ Memory };

    fn from(_e: AllocFailed<T>) -> Stop {
        Stop::Memory
    }
}

/// A rule of schedules.
#[derive(Clone, Copy, Debug, PartialEq, Eq, Drop)]
pub enum Rule {
    /// L1: a name of no function or loop.
    UnknownName,
    /// L2: a split of a reduction variable, with a name that is used already, or with a factor out of 1 to 1024.
    BadSplit,
    /// L3: a reorder that names a loop twice or a reduction variable.
    BadReorder,
    /// L4: an unrolled or vectorised loop that is marked already or is not the inner loop of a split of at most 64, or a
    /// vectorised one that is not the innermost.
    BadMark,
    /// L5: a parallel loop that is marked already, of a function that is not root, or of a dimension for which some
    /// update has no pure variable; or parallel loops that are not the outermost ones.
    BadParallel,
    /// L6: a function that is computed at a loop, and is root, or has two such loops, or whose loop is none of another stored
    /// function, or is one that is unrolled or vectorised or has a parallel loop inside it.
    BadHome,
    /// L7: a function that is stored at a loop, and is computed at none, or at none of that function, or is stored at two,
    /// or whose loop does not stand outside the one at which it is computed, or has a parallel loop inside it.
    BadStorage,
    /// L8: a split with `shift` of a function with updates.
    BadShift,
    /// L9: a fold of a function that is stored at no loop, or to no places.
    BadFold,
    /// L10: a function with updates that is not stored.
    InlineUpdates,
}

impl Rule {
    ghost use Rattle.sched.specs.Rules.{number_of};

    /// The number of its code: 3 of L3.
    pub fn number(self) -> u32
        ensures { result ≡ number_of self }
    {
        match self {
            Rule::UnknownName => 1,
            Rule::BadSplit => 2,
            Rule::BadReorder => 3,
            Rule::BadMark => 4,
            Rule::BadParallel => 5,
            Rule::BadHome => 6,
            Rule::BadStorage => 7,
            Rule::BadShift => 8,
            Rule::BadFold => 9,
            Rule::InlineUpdates => 10,
        }
    }
}

/// Why a schedule was refused.
#[derive(Clone, Copy, PartialEq, Eq, Drop)]
pub enum SchedError {
    /// Memory ran out.
    Memory,
    /// E1: what stands here is no token.
    BadToken(Span),
    /// E2: the tokens do not go on here as the grammar says, or the directive is one that the compiler has not yet.
    BadForm(Span),
    /// E4: the text is longer than 65,536 bytes (those from there on), or a name has more than 16 bytes.
    TooLarge(Span),
    /// L1 to L12: the rule that is broken, and the name of the function.
    Broken(Rule, Name),
    /// The algorithm has a function, a variable or a reduction variable whose name no text could give: one of more than
    /// 16 bytes, or with bytes that are no ASCII. An algorithm that was read from a text has none.
    UnfitNames,
}

impl From<AllocError> for SchedError {
    ghost from_gives = { λ _ e. e ≡ NoMemory };

    fn from(_e: AllocError) -> SchedError {
        SchedError::Memory
    }
}

impl<T: Drop> From<AllocFailed<T>> for SchedError {
    ghost from_gives = { λ _ e. e ≡ NoMemory };

    fn from(_e: AllocFailed<T>) -> SchedError {
        SchedError::Memory
    }
}

impl From<TokenError> for SchedError {
    ghost from_gives = { λ t e. e ≡ token_refusal t };

    fn from(error: TokenError) -> SchedError {
        match error {
            TokenError::Memory => SchedError::Memory,
            TokenError::TooLong(span) => SchedError::TooLarge(span),
            TokenError::BadToken(span) => SchedError::BadToken(span),
        }
    }
}
