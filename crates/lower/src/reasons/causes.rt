//! What is told of a broken rule.

use std::alloc::{AllocError, Global};
use tree::token::{Name, Span};

/// Why a function slides in no dimension.
#[derive(Clone, Copy, Drop)]
pub enum Standstill {
    /// Its storage is that of one turn of the loop at which it is computed.
    OneTurn,
    /// No dimension of what is needed moves with the loop, as far as bounds tell.
    Still,
    /// More than one dimension moves with the loop.
    Several,
    /// An end falls as the loop rises.
    Falls,
    /// An update has no variable for the dimension that moves.
    Scattered,
}

/// What makes a function slide that is folded and stored at no loop: to be stored at this loop, with so many places.
#[derive(Clone, Copy, Drop)]
pub struct Storage {
    /// The function whose loop it is.
    pub host: Name,
    pub turn: Name,
    pub along: Name,
    pub places: i64,
}

/// What is wrong with the folds of a function, which is L9.
#[derive(Clone, Copy, Drop)]
pub enum FoldCause {
    /// It is folded and stored at no loop; `turn` is the loop at which it is computed, if any.
    NotStored {
        function: Name,
        turn: Option<Name>,
        mend: Option<Storage>,
    },
    /// A fold has no place; `enough` is as for `SmallFold`.
    NoPlaces {
        function: Name,
        along: Name,
        enough: Option<i64>,
    },
    /// It is folded, and slides nowhere in the turns of a loop.
    NotSliding {
        function: Name,
        turn: Name,
        why: Standstill,
    },
    /// It slides along one variable and is folded along another one.
    OtherFold {
        along: Name,
        fold: Name,
    },
    /// A fold has fewer places than the window has numbers; `enough` are as many as the windows have wherever the function is
    /// computed, where that is known.
    SmallFold {
        function: Name,
        along: Name,
        turn: Name,
        places: u32,
        window: i64,
        enough: Option<i64>,
    },
}

/// What is too large, which is L11.
#[derive(Clone, Copy, Drop)]
pub enum SizeCause {
    /// With calls put in, the definitions of a function; `store` is one of those put in, and `is_enough` where nothing else has
    /// to be stored.
    Inlined {
        function: Name,
        store: Name,
        is_enough: bool,
    },
    /// The cells of the stored functions up to one, of which `most` has the most.
    Cells {
        count: u64,
        most: Name,
    },
    /// Their pieces.
    Pieces {
        count: u64,
        most: Name,
    },
}

/// Which limit of forms is passed.
#[derive(Clone, Copy, Drop)]
pub enum Excess {
    /// A factor, by its size without the sign: more than 1048576.
    Factor(u64),
    /// So many symbols, which are loops and lets: more than 8.
    Symbols(usize),
    /// One of these, or a constant past 2^40.
    Some,
}

/// The loop that is split, by at most how much in all.
#[derive(Clone, Copy, Drop)]
pub struct LargestSplit {
    pub variable: Name,
    pub most: u64,
}

/// Why the turns of the loop at which a function is computed have no bounds of what they need of it, which is L12.
#[derive(Clone, Copy, Drop)]
pub enum TurnCause {
    /// How many numbers of a variable a turn needs is bounded by no form.
    NoCount {
        function: Name,
        variable: Name,
        turn: Name,
    },
    /// The loops over what a turn needs have forms past the limits.
    Forms {
        function: Name,
        turn: Name,
    },
    /// No more is known.
    Unknown(Name),
}

/// Which bounds are missing or too wide, which is L12.
#[derive(Clone, Copy, Drop)]
pub enum BoundCause {
    /// No function that is stored calls it.
    Unused(Name),
    /// An index of a function has no bounds; `is_set` where it is the left one of the caller's own update.
    NoBounds {
        function: Name,
        caller: Name,
        is_set: bool,
    },
    /// An index of the input (where no function is named) or of a function has a form past the limits of forms. Where the
    /// splits of its caller alone take it there, `is_split` is so, and `largest` is known where a factor of the text does it.
    Form {
        function: Option<Name>,
        caller: Name,
        excess: Excess,
        is_split: bool,
        largest: Option<LargestSplit>,
    },
    /// The splits of a function's loops alone have forms past the limits.
    Splits {
        function: Name,
        variable: Name,
        excess: Excess,
    },
    /// A function is read, or set by its own update, from one number to another of a variable, which are more than 8192.
    Wide {
        function: Name,
        variable: Name,
        low: i64,
        high: i64,
        is_set: bool,
    },
    /// An index may leave the numbers that the input has (where no function is named), or the function.
    Outside {
        function: Option<Name>,
        caller: Name,
        found: Option<(i64, i64)>,
        has: (i64, i64),
        is_rounded: bool,
    },
    /// The same of an index that is a clamp to numbers of these already, which bounds lose: `store` is a function on the way to
    /// it that is put in, and `is_enough` where nothing else has to be stored.
    Clamped {
        function: Option<Name>,
        caller: Name,
        has: (i64, i64),
        store: Option<Name>,
        is_enough: bool,
    },
    /// Of what a turn needs of a function.
    Turn(TurnCause),
}

/// What made a rule break.
#[derive(Clone, Copy, Drop)]
pub enum Cause {
    /// L10: a function with updates is not stored.
    Updates(Name),
    Fold(FoldCause),
    Size(SizeCause),
    Bound(BoundCause),
}

/// How much of a dimension.
#[derive(Clone, Copy, Drop)]
pub enum Amount {
    /// So many numbers in a turn.
    Numbers(i64),
    /// From one number to another.
    Ends(i64, i64),
}

/// How much of a function is asked for along one of its variables.
#[derive(Clone, Copy, Drop)]
pub struct Link {
    pub function: Name,
    pub variable: Name,
    pub amount: Amount,
}

/// What made a rule break, where in the algorithm's text, and by which functions it came there.
#[derive(Drop)]
pub struct Reason {
    pub cause: Cause,
    /// The places in the algorithm's text of the indices that are told of.
    pub places: Vec<Span>,
    /// The function that is read first, and its readers.
    pub chain: Vec<Link>,
}

impl Cause {
    /// The cause alone.
    pub(crate) fn alone(self, alloc: Global) -> Reason {
        Reason {
            cause: self,
            places: Vec::new(alloc),
            chain: Vec::new(alloc),
        }
    }

    /// The cause, with the place of an index.
    pub(crate) fn at(self, alloc: Global, place: Span) -> Result<Reason, AllocError> {
        let mut reason = self.alone(alloc);
        reason.places.push(place)?;
        Ok(reason)
    }
}
