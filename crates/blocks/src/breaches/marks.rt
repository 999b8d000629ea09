//! Splits, orders and marks that a loop can't have: L2 to L5.

use crate::breaches::lists::put;
use crate::breaches::loops::{is_among, loop_named};
use itoa::Buffer;
use sched::placing::{MAX_FACTOR, MAX_LANES};
use sched::{Directive, Loop, Mark, Placed, Sched, Split, Subject, has_home};
use std::alloc::AllocError;
use tree::token::Name;

fn tell_reduction(
    said: &mut String,
    subject: &Subject,
    name: &Name,
    mend: &str,
) -> Result<(), AllocError> {
    put(
        said,
        &[
            "`",
            name.as_str(),
            "` is a reduction variable of `",
            subject.name.as_str(),
            "`: its turns are done one after another, inside of all other loops.\n",
            mend,
        ],
    )
}

// ---- splits

fn tell_used(said: &mut String, subject: &Subject, name: &Name) -> Result<(), AllocError> {
    put(
        said,
        &[
            "`",
            subject.name.as_str(),
            "` has the name `",
            name.as_str(),
            "` already, or had it.\nTake a new one.\n",
        ],
    )
}

fn tell_factor(said: &mut String, factor: u32) -> Result<(), AllocError> {
    put(
        said,
        &[
            "The factor is ",
            Buffer::new().format(factor),
            ".\nTake one from 1 to ",
            Buffer::new().format(MAX_FACTOR),
            ".\n",
        ],
    )
}

// What is wrong with the names or the factor of a split.
fn tell_split_parts(
    said: &mut String,
    subject: &Subject,
    placed: &Placed,
    split: &Split,
) -> Result<usize, AllocError> {
    if is_among(&placed.used, &split.outer) {
        tell_used(said, subject, &split.outer)?;
        return Ok(1);
    }
    if is_among(&placed.used, &split.inner) || split.outer.as_str() == split.inner.as_str() {
        tell_used(said, subject, &split.inner)?;
        return Ok(2);
    }
    tell_factor(said, split.factor)?;
    Ok(3)
}

/// Tells what is wrong with a split. The answer is which argument it is.
pub(crate) fn tell_split(
    said: &mut String,
    subject: &Subject,
    placed: &Placed,
    directive: &Directive,
) -> Result<usize, AllocError> {
    let Directive::Split(split) = directive else {
        return Ok(0);
    };
    if is_among(&subject.reductions, &split.whole) {
        tell_reduction(said, subject, &split.whole, "Leave the split out.\n")?;
        return Ok(0);
    }
    tell_split_parts(said, subject, placed, split)
}

// ---- orders

// The first of these that is a reduction variable or stands among those before it.
fn first_misplaced(subject: &Subject, names: &[Name]) -> usize {
    for (index, name) in names.iter().enumerate() {
        let (before, _) = names.split_at(index);
        if is_among(&subject.reductions, name) || is_among(before, name) {
            return index;
        }
    }
    0
}

/// Tells which name of a `reorder` can't stand there. The answer is which argument it is.
pub(crate) fn tell_reorder(
    said: &mut String,
    subject: &Subject,
    directive: &Directive,
) -> Result<usize, AllocError> {
    let Directive::Reorder(names) = directive else {
        return Ok(0);
    };
    let index = first_misplaced(subject, names);
    let Some(name) = names.get(index) else {
        return Ok(0);
    };
    if is_among(&subject.reductions, name) {
        tell_reduction(said, subject, name, "Leave it out.\n")?;
    } else {
        put(
            said,
            &["`", name.as_str(), "` stands there twice.\nName it once.\n"],
        )?;
    }
    Ok(index)
}

// ---- marks

fn mark_text(mark: Mark) -> &'static str {
    match mark {
        Mark::Unrolled => "unrolled",
        Mark::Vectorized => "vectorised",
        Mark::Parallel => "parallel",
    }
}

/// Writes how the turns of a loop are done.
pub(crate) fn put_marked(said: &mut String, one: &Loop, mark: Mark) -> Result<(), AllocError> {
    put(said, &["The loop `", one.name.as_str(), "` is "])?;
    said.push_str(mark_text(mark))
}

fn tell_marked(said: &mut String, one: &Loop, mark: Mark) -> Result<(), AllocError> {
    put_marked(said, one, mark)?;
    said.push_str(" already.\nKeep one of the two.\n")
}

fn tell_long(said: &mut String, one: &Loop, factor: u32) -> Result<(), AllocError> {
    put(
        said,
        &[
            "`",
            one.name.as_str(),
            "` is the inner loop of a split by ",
            Buffer::new().format(factor),
            ", and ",
            Buffer::new().format(MAX_LANES),
            " are allowed.\nSplit by less, or split it once more, and name the inner loop here.\n",
        ],
    )
}

fn tell_whole(said: &mut String, one: &Loop) -> Result<(), AllocError> {
    put(
        said,
        &[
            "`",
            one.name.as_str(),
            "` is not the inner loop of a split.\nSplit it first, by at most ",
            Buffer::new().format(MAX_LANES),
            ", and name the inner loop here.\n",
        ],
    )
}

fn tell_loop(said: &mut String, one: &Loop) -> Result<(), AllocError> {
    match (one.mark, one.within) {
        (Some(mark), _) => tell_marked(said, one, mark),
        (None, Some(factor)) => tell_long(said, one, factor),
        (None, None) => tell_whole(said, one),
    }
}

/// Tells why a loop is not unrolled or vectorised.
pub(crate) fn tell_mark(
    said: &mut String,
    subject: &Subject,
    placed: &Placed,
    name: &Name,
) -> Result<(), AllocError> {
    match loop_named(&placed.loops, name) {
        Some(one) => tell_loop(said, one),
        None => tell_reduction(said, subject, name, "Leave it out.\n"),
    }
}

// ---- parallel loops

fn tell_rootless(said: &mut String, sched: &Sched, subject: &Subject) -> Result<(), AllocError> {
    let name = subject.name.as_str();
    if has_home(sched, name) {
        put(
            said,
            &[
                "`",
                name,
                "` is computed inside a loop, so that its own loops make no pieces.\nLeave it out.\n",
            ],
        )
    } else {
        put(
            said,
            &[
                "`",
                name,
                "` is put in where it is called, and has no loops of its own.\nWrite `",
                name,
                ".compute_root();`, too.\n",
            ],
        )
    }
}

fn tell_scattered(said: &mut String, subject: &Subject, one: &Loop) -> Result<(), AllocError> {
    let Some(variable) = subject.variables.get(one.dimension) else {
        return Ok(());
    };
    put(
        said,
        &[
            "An update of `",
            subject.name.as_str(),
            "` has another left index than `",
            variable.as_str(),
            "`: two turns of `",
            one.name.as_str(),
            "` could set one point.\nLeave it out.\n",
        ],
    )
}

fn tell_parallel_loop(said: &mut String, subject: &Subject, one: &Loop) -> Result<(), AllocError> {
    match one.mark {
        Some(mark) => tell_marked(said, one, mark),
        None => tell_scattered(said, subject, one),
    }
}

/// Tells why a loop is not parallel.
pub(crate) fn tell_parallel(
    said: &mut String,
    sched: &Sched,
    subject: &Subject,
    placed: &Placed,
    name: &Name,
) -> Result<(), AllocError> {
    match loop_named(&placed.loops, name) {
        Some(one) => {
            if subject.is_root {
                tell_parallel_loop(said, subject, one)
            } else {
                tell_rootless(said, sched, subject)
            }
        }
        None => tell_reduction(said, subject, name, "Leave it out.\n"),
    }
}
