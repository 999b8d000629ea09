//! How what broke a rule is told.

use crate::reasons::causes::{
    Amount, BoundCause, Cause, Excess, FoldCause, Link, SizeCause, Standstill, TurnCause,
};
use std::fmt::{self, Display, Formatter, Write};
use tree::token::Name;

impl Display for Standstill {
    fn fmt<W: Write>(&self, f: &mut Formatter<W>) -> fmt::Result {
        match self {
            Standstill::OneTurn => f.write_str("is stored for one turn alone"),
            Standstill::Still => f.write_str(
                "is the same in each turn, as far as bounds tell (a division, a remainder or a sample hides more)",
            ),
            Standstill::Several => f.write_str("moves in more than one dimension"),
            Standstill::Falls => f.write_str("has an end that falls as the loop rises"),
            Standstill::Scattered => f.write_str("is set at places that an update computes"),
        }
    }
}

impl Display for Amount {
    fn fmt<W: Write>(&self, f: &mut Formatter<W>) -> fmt::Result {
        match self {
            Amount::Numbers(count) => write!(f, "by {count}"),
            Amount::Ends(low, high) => write!(f, "{low}:{high}"),
        }
    }
}

impl Display for Link {
    fn fmt<W: Write>(&self, f: &mut Formatter<W>) -> fmt::Result {
        write!(
            f,
            "{}.{} {}",
            self.function.as_str(),
            self.variable.as_str(),
            self.amount
        )
    }
}

fn write_unslid<W: Write>(
    function: &Name,
    turn: &Name,
    why: Standstill,
    f: &mut Formatter<W>,
) -> fmt::Result {
    let name = function.as_str();
    let turn = turn.as_str();
    write!(
        f,
        "`{name}` does not slide: what a turn of `{turn}` needs of it {why}."
    )
}

fn write_unstored<W: Write>(
    function: &Name,
    turn: &Option<Name>,
    f: &mut Formatter<W>,
) -> fmt::Result {
    let name = function.as_str();
    match turn {
        Some(turn) => write!(
            f,
            "`{name}` has no `store_at`: each turn of `{}` has storage of its own, in which nothing slides.",
            turn.as_str()
        ),
        None => write!(
            f,
            "`{name}` is computed at no loop, so that it slides along none."
        ),
    }
}

fn write_empty<W: Write>(function: &Name, along: &Name, f: &mut Formatter<W>) -> fmt::Result {
    write!(
        f,
        "The fold of `{}.{}` has 0 places, and holds nothing.",
        function.as_str(),
        along.as_str()
    )
}

fn write_small<W: Write>(
    function: &Name,
    along: &Name,
    turn: &Name,
    places: u32,
    window: i64,
    f: &mut Formatter<W>,
) -> fmt::Result {
    let turn = turn.as_str();
    let things = if places == 1 { "place" } else { "places" };
    write!(
        f,
        "A turn of `{turn}` needs {window} numbers of `{}.{}`, and the fold has {places} {things}.",
        function.as_str(),
        along.as_str()
    )
}

fn write_outside<W: Write>(
    function: &Option<Name>,
    caller: &Name,
    found: Option<(i64, i64)>,
    has: (i64, i64),
    f: &mut Formatter<W>,
) -> fmt::Result {
    let caller = caller.as_str();
    let callee = match function {
        Some(name) => name.as_str(),
        None => "the input",
    };
    let (first, last) = has;
    write!(f, "In `{caller}` this index of {callee} ")?;
    match found {
        Some((low, high)) => write!(f, "comes to {low}:{high}, and must stay in {first}:{last}."),
        None => write!(f, "is not shown to stay in {first}:{last}."),
    }
}

fn write_clamped<W: Write>(
    function: &Option<Name>,
    caller: &Name,
    has: (i64, i64),
    f: &mut Formatter<W>,
) -> fmt::Result {
    write_outside(function, caller, None, has, f)?;
    f.write_str(
        " It is clamped there already, but bounds keep four ends a side, and of nested clamps lose the inner ones.",
    )
}

fn write_total<W: Write>(
    count: u64,
    things: &str,
    limit: u64,
    most: &Name,
    f: &mut Formatter<W>,
) -> fmt::Result {
    let most = most.as_str();
    write!(
        f,
        "The stored functions so far have {count} {things}, most of them `{most}`; {limit} are allowed."
    )
}

// Of what keeps one function from having bounds.
fn write_unbounded<W: Write>(
    function: &Name,
    caller: &Name,
    is_set: bool,
    f: &mut Formatter<W>,
) -> fmt::Result {
    let name = function.as_str();
    let caller = caller.as_str();
    if is_set {
        write!(
            f,
            "An index at which an update of `{name}` sets it has no bounds."
        )
    } else {
        write!(
            f,
            "An index at which `{caller}` calls `{name}` has no bounds."
        )
    }
}

impl Display for Excess {
    fn fmt<W: Write>(&self, f: &mut Formatter<W>) -> fmt::Result {
        match self {
            Excess::Factor(factor) => write!(
                f,
                "the factor {factor}, and factors up to 1048576 are allowed"
            ),
            Excess::Symbols(count) => write!(
                f,
                "a form of {count} loops and lets, and 8 are allowed"
            ),
            Excess::Some => f.write_str(
                "a form past the limits (8 loops and lets, factors up to 1048576)",
            ),
        }
    }
}

fn write_form<W: Write>(
    function: &Option<Name>,
    caller: &Name,
    excess: Excess,
    is_split: bool,
    f: &mut Formatter<W>,
) -> fmt::Result {
    let caller = caller.as_str();
    let callee = match function {
        Some(name) => name.as_str(),
        None => "the input",
    };
    let place = if is_split {
        "In the loops of the splits of"
    } else {
        "In"
    };
    write!(
        f,
        "{place} `{caller}` this has {excess}; so this index of {callee} has no bounds."
    )
}

fn write_splits<W: Write>(
    function: &Name,
    variable: &Name,
    excess: Excess,
    f: &mut Formatter<W>,
) -> fmt::Result {
    write!(
        f,
        "With its splits `{}.{}` has {excess}.",
        function.as_str(),
        variable.as_str()
    )
}

fn write_uncounted<W: Write>(
    function: &Name,
    variable: &Name,
    turn: &Name,
    f: &mut Formatter<W>,
) -> fmt::Result {
    let turn = turn.as_str();
    write!(
        f,
        "No bound is found of how many numbers of `{}.{}` a turn of `{turn}` needs.",
        function.as_str(),
        variable.as_str()
    )
}

fn write_turn_forms<W: Write>(function: &Name, turn: &Name, f: &mut Formatter<W>) -> fmt::Result {
    let name = function.as_str();
    let turn = turn.as_str();
    write!(
        f,
        "The loops over what a turn of `{turn}` needs of `{name}` have {}.",
        Excess::Some
    )
}

fn write_inlined<W: Write>(function: &Name, f: &mut Formatter<W>) -> fmt::Result {
    let name = function.as_str();
    write!(
        f,
        "With all calls put in, `{name}` has more than 4096 nodes or 256 levels."
    )
}

fn write_wide<W: Write>(
    function: &Name,
    variable: &Name,
    low: i64,
    high: i64,
    is_set: bool,
    f: &mut Formatter<W>,
) -> fmt::Result {
    let done = if is_set { "set" } else { "called" };
    write!(
        f,
        "`{}.{}` is {done} from {low} to {high}, and 8192 numbers are allowed.",
        function.as_str(),
        variable.as_str()
    )
}

impl Display for FoldCause {
    fn fmt<W: Write>(&self, f: &mut Formatter<W>) -> fmt::Result {
        match self {
            FoldCause::NotStored { function, turn, .. } => write_unstored(function, turn, f),
            FoldCause::NoPlaces {
                function,
                along,
                ..
            } => write_empty(function, along, f),
            FoldCause::NotSliding {
                function,
                turn,
                why,
            } => write_unslid(function, turn, *why, f),
            FoldCause::OtherFold { along, fold } => write!(
                f,
                "It slides along `{}`, and the fold is of `{}`.",
                along.as_str(),
                fold.as_str()
            ),
            FoldCause::SmallFold {
                function,
                along,
                turn,
                places,
                window,
                ..
            } => write_small(function, along, turn, *places, *window, f),
        }
    }
}

impl Display for SizeCause {
    fn fmt<W: Write>(&self, f: &mut Formatter<W>) -> fmt::Result {
        match self {
            SizeCause::Inlined { function, .. } => write_inlined(function, f),
            SizeCause::Cells { count, most } => write_total(*count, "cells", 1 << 24, most, f),
            SizeCause::Pieces { count, most } => write_total(*count, "pieces", 1 << 20, most, f),
        }
    }
}

impl Display for TurnCause {
    fn fmt<W: Write>(&self, f: &mut Formatter<W>) -> fmt::Result {
        match self {
            TurnCause::NoCount {
                function,
                variable,
                turn,
            } => write_uncounted(function, variable, turn, f),
            TurnCause::Forms { function, turn } => write_turn_forms(function, turn, f),
            TurnCause::Unknown(name) => write!(
                f,
                "No bounds are found of what a turn needs of `{}`.",
                name.as_str()
            ),
        }
    }
}

impl Display for BoundCause {
    fn fmt<W: Write>(&self, f: &mut Formatter<W>) -> fmt::Result {
        match self {
            BoundCause::Unused(name) => write!(f, "No stored function calls `{}`.", name.as_str()),
            BoundCause::NoBounds {
                function,
                caller,
                is_set,
            } => write_unbounded(function, caller, *is_set, f),
            BoundCause::Form {
                function,
                caller,
                excess,
                is_split,
                ..
            } => write_form(function, caller, *excess, *is_split, f),
            BoundCause::Splits {
                function,
                variable,
                excess,
            } => write_splits(function, variable, *excess, f),
            BoundCause::Wide {
                function,
                variable,
                low,
                high,
                is_set,
            } => write_wide(function, variable, *low, *high, *is_set, f),
            BoundCause::Outside {
                function,
                caller,
                found,
                has,
                ..
            } => write_outside(function, caller, *found, *has, f),
            BoundCause::Clamped {
                function,
                caller,
                has,
                ..
            } => write_clamped(function, caller, *has, f),
            BoundCause::Turn(cause) => cause.fmt(f),
        }
    }
}

impl Display for Cause {
    fn fmt<W: Write>(&self, f: &mut Formatter<W>) -> fmt::Result {
        match self {
            Cause::Updates(name) => write!(
                f,
                "`{}` has updates, and is not stored.",
                name.as_str()
            ),
            Cause::Fold(cause) => cause.fmt(f),
            Cause::Size(cause) => cause.fmt(f),
            Cause::Bound(cause) => cause.fmt(f),
        }
    }
}
