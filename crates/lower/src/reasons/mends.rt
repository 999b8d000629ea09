//! How the shortest change that mends a broken rule is told.

use crate::reasons::causes::{
    BoundCause, Cause, Excess, FoldCause, LargestSplit, Link, Reason, SizeCause, Storage, TurnCause,
};
use std::fmt::{self, Display, Formatter, Write};
use tree::token::Name;

/// The shortest change that mends what a cause tells.
#[derive(Clone, Copy, Drop)]
struct Mend<'a> {
    cause: &'a Cause,
}

fn write_fold<W: Write>(
    function: &Name,
    along: &Name,
    enough: Option<i64>,
    f: &mut Formatter<W>,
) -> fmt::Result {
    match enough {
        Some(count) => write!(
            f,
            "Write `{}.fold({}, {count})`, or leave the fold out.",
            function.as_str(),
            along.as_str()
        ),
        None => f.write_str("Leave the fold out."),
    }
}

fn write_storage<W: Write>(
    function: &Name,
    mend: &Option<Storage>,
    f: &mut Formatter<W>,
) -> fmt::Result {
    let name = function.as_str();
    match mend {
        Some(storage) => write!(
            f,
            "Write `{name}.store_at({}, {}).fold({}, {})`, or leave the fold out.",
            storage.host.as_str(),
            storage.turn.as_str(),
            storage.along.as_str(),
            storage.places
        ),
        None => f.write_str("Leave the fold out."),
    }
}

fn write_store<W: Write>(store: &Name, is_enough: bool, f: &mut Formatter<W>) -> fmt::Result {
    let name = store.as_str();
    if is_enough {
        write!(f, "Store `{name}`: `{name}.compute_root();`.")
    } else {
        write!(
            f,
            "Store `{name}` first: `{name}.compute_root();`. That alone is not enough."
        )
    }
}

fn write_clamp<W: Write>(has: (i64, i64), is_rounded: bool, f: &mut Formatter<W>) -> fmt::Result {
    let (low, high) = has;
    if is_rounded {
        write!(
            f,
            "Write `clamp(.., {low}, {high})` around it; or split with `guard` in place of `roundup`, where that alone takes it there."
        )
    } else {
        write!(f, "Write `clamp(.., {low}, {high})` around it.")
    }
}

// What keeps the bounds of a clamp.
fn write_unnested<W: Write>(
    store: &Option<Name>,
    is_enough: bool,
    f: &mut Formatter<W>,
) -> fmt::Result {
    match store {
        Some(store) => write_store(store, is_enough, f),
        None => f.write_str("Split less often, or nest fewer clamps."),
    }
}

// What mends a fold.
fn write_refold<W: Write>(cause: &FoldCause, f: &mut Formatter<W>) -> fmt::Result {
    match cause {
        FoldCause::NotStored { function, mend, .. } => write_storage(function, mend, f),
        FoldCause::NoPlaces {
            function,
            along,
            enough,
        } => write_fold(function, along, *enough, f),
        FoldCause::NotSliding { .. } => f.write_str("Leave the fold out."),
        FoldCause::OtherFold { along, .. } => write!(
            f,
            "Fold `{}`, or leave the fold out.",
            along.as_str()
        ),
        FoldCause::SmallFold {
            function,
            along,
            enough,
            ..
        } => write_fold(function, along, *enough, f),
    }
}

// What makes smaller.
fn write_smaller<W: Write>(cause: &SizeCause, f: &mut Formatter<W>) -> fmt::Result {
    match cause {
        SizeCause::Inlined {
            store,
            is_enough,
            ..
        } => write_store(store, *is_enough, f),
        SizeCause::Cells { .. } => f.write_str(
            "Store fewer functions by `compute_root()`, or cut the picture.",
        ),
        SizeCause::Pieces { most, .. } => write!(
            f,
            "Split `{}` into larger blocks, or make fewer loops parallel.",
            most.as_str()
        ),
    }
}

// What mends a factor past the limits in the loops of splits.
fn write_smaller_split<W: Write>(
    caller: &Name,
    largest: &Option<LargestSplit>,
    f: &mut Formatter<W>,
) -> fmt::Result {
    let caller = caller.as_str();
    match largest {
        Some(LargestSplit { variable, most }) => write!(
            f,
            "Split `{}` of `{caller}` by at most {most} in all, or take fewer bits behind the point.",
            variable.as_str()
        ),
        None => write!(
            f,
            "Split `{caller}` by smaller factors, or take fewer bits behind the point."
        ),
    }
}

// What mends a form past the limits in the loops of splits.
fn write_fewer_splits<W: Write>(
    caller: &Name,
    excess: Excess,
    largest: &Option<LargestSplit>,
    f: &mut Formatter<W>,
) -> fmt::Result {
    match excess {
        Excess::Factor(_) => write_smaller_split(caller, largest, f),
        Excess::Symbols(_) => write!(f, "Split `{}` less often.", caller.as_str()),
        Excess::Some => write!(
            f,
            "Split `{}` less often, or by smaller factors.",
            caller.as_str()
        ),
    }
}

// What mends a form past the limits.
fn write_smaller_form<W: Write>(
    caller: &Name,
    excess: Excess,
    is_split: bool,
    largest: &Option<LargestSplit>,
    f: &mut Formatter<W>,
) -> fmt::Result {
    if is_split {
        return write_fewer_splits(caller, excess, largest, f);
    }
    match excess {
        Excess::Factor(_) => f.write_str("Take a smaller factor there."),
        Excess::Symbols(_) => f.write_str("Take fewer variables there."),
        Excess::Some => f.write_str("Take smaller factors there, or fewer variables."),
    }
}

// What gives bounds without turns.
fn write_turned<W: Write>(cause: &TurnCause, f: &mut Formatter<W>) -> fmt::Result {
    let name = match cause {
        TurnCause::NoCount { function, .. } | TurnCause::Forms { function, .. } => *function,
        TurnCause::Unknown(function) => *function,
    };
    write!(
        f,
        "Write `{}.compute_root()` in place of its `compute_at`.",
        name.as_str()
    )
}

// What gives bounds.
fn write_bounded<W: Write>(cause: &BoundCause, f: &mut Formatter<W>) -> fmt::Result {
    match cause {
        BoundCause::Unused(_) => f.write_str("Leave its directives out."),
        BoundCause::Form {
            caller,
            excess,
            is_split,
            largest,
            ..
        } => write_smaller_form(caller, *excess, *is_split, largest, f),
        BoundCause::Splits {
            function,
            variable,
            ..
        } => write!(
            f,
            "Split `{}` of `{}` less often, or by smaller factors.",
            variable.as_str(),
            function.as_str()
        ),
        BoundCause::NoBounds { .. } | BoundCause::Wide { .. } => f.write_str(
            "Write a `clamp` between constants around it.",
        ),
        BoundCause::Outside {
            has,
            is_rounded,
            ..
        } => write_clamp(*has, *is_rounded, f),
        BoundCause::Clamped {
            store,
            is_enough,
            ..
        } => write_unnested(store, *is_enough, f),
        BoundCause::Turn(cause) => write_turned(cause, f),
    }
}

impl Display for Mend<'_> {
    fn fmt<W: Write>(&self, f: &mut Formatter<W>) -> fmt::Result {
        match self.cause {
            Cause::Updates(name) => write_store(name, true, f),
            Cause::Fold(cause) => write_refold(cause, f),
            Cause::Size(cause) => write_smaller(cause, f),
            Cause::Bound(cause) => write_bounded(cause, f),
        }
    }
}

// The readers, the last one first, and then what they read.
fn write_chain<W: Write>(chain: &[Link], f: &mut Formatter<W>) -> fmt::Result {
    if chain.is_empty() {
        return Ok(());
    }
    f.write_str("It comes of ")?;
    let mut is_first = true;
    for link in chain.iter().rev() {
        if !is_first {
            f.write_str(" -> ")?;
        }
        write!(f, "`{link}`")?;
        is_first = false;
    }
    f.write_str(".\n")
}

impl Display for Reason {
    fn fmt<W: Write>(&self, f: &mut Formatter<W>) -> fmt::Result {
        let mend = Mend { cause: &self.cause };
        writeln!(f, "{}", self.cause)?;
        write_chain(&self.chain, f)?;
        writeln!(f, "{mend}")
    }
}
