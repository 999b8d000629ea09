//! Where a function can't be computed: L6.

use crate::breaches::lists::put;
use crate::breaches::loops::{
    first_parallel, is_among, loop_named, outside_of, placed_named, subject_named,
};
use crate::breaches::marks::put_marked;
use crate::breaches::spots::{Spot, Wanted, argument_of, is_same, word_of};
use crate::breaches::unknown::tell_no_loop;
use sched::{Home, Loop, Mark, Placed, Placement, Sched, Subject};
use std::alloc::AllocError;
use tree::token::Name;

fn tell_root(said: &mut String, subject: &Subject) -> Result<(), AllocError> {
    let name = subject.name.as_str();
    if subject.is_output {
        put(
            said,
            &[
                "`",
                name,
                "` is the output, and computed at no loop of another function.\nLeave it out.\n",
            ],
        )
    } else {
        put(
            said,
            &[
                "`",
                name,
                "` has a `compute_root`, too.\nKeep one of the two.\n",
            ],
        )
    }
}

/// Tells that a function has a directive twice.
pub(crate) fn tell_twice(
    said: &mut String,
    subject: &Subject,
    word: &str,
) -> Result<(), AllocError> {
    put(
        said,
        &[
            "`",
            subject.name.as_str(),
            "` has two `",
            word,
            "`.\nKeep one of them.\n",
        ],
    )
}

// ---- functions

fn tell_own(said: &mut String, subject: &Subject) -> Result<(), AllocError> {
    put(
        said,
        &[
            "`",
            subject.name.as_str(),
            "` is not computed inside of its own loops.\nName a function that calls it.\n",
        ],
    )
}

fn tell_unstored(said: &mut String, host: &Subject) -> Result<(), AllocError> {
    let name = host.name.as_str();
    put(
        said,
        &[
            "`",
            name,
            "` is put in where it is called, and has no loops of its own.\nWrite `",
            name,
            ".compute_root();`, too, or name a function that is stored.\n",
        ],
    )
}

// ---- loops

fn tell_reduction(said: &mut String, host: &Subject, name: &Name) -> Result<(), AllocError> {
    put(
        said,
        &[
            "`",
            name.as_str(),
            "` is a reduction variable of `",
            host.name.as_str(),
            "`.\nName a loop of one of its variables.\n",
        ],
    )
}

fn tell_outer(said: &mut String, outside: &[Loop]) -> Result<(), AllocError> {
    match outside {
        [] => said.push_str(".\nLeave one of the two out.\n"),
        [outer, ..] => put(
            said,
            &[
                ".\nName `",
                outer.name.as_str(),
                "`, which stands outside of it.\n",
            ],
        ),
    }
}

fn tell_flat(said: &mut String, loops: &[Loop], one: &Loop, mark: Mark) -> Result<(), AllocError> {
    put_marked(said, one, mark)?;
    tell_outer(said, outside_of(loops, &one.name))
}

/// Tells that a loop inside of this one is parallel.
pub(crate) fn tell_parallel_inside(
    said: &mut String,
    host: &Subject,
    loops: &[Loop],
    name: &Name,
) -> Result<(), AllocError> {
    let Some(parallel) = first_parallel(loops) else {
        return Ok(());
    };
    let inner = parallel.name.as_str();
    put(
        said,
        &[
            "Inside of the loop `",
            name.as_str(),
            "` of `",
            host.name.as_str(),
            "` the loop `",
            inner,
            "` is parallel.\nName `",
            inner,
            "`, or a loop inside of it.\n",
        ],
    )
}

// Tells of a loop that is there.
fn tell_closed(
    said: &mut String,
    host: &Subject,
    loops: &[Loop],
    one: &Loop,
) -> Result<(), AllocError> {
    match one.mark {
        Some(Mark::Unrolled) => tell_flat(said, loops, one, Mark::Unrolled),
        Some(Mark::Vectorized) => tell_flat(said, loops, one, Mark::Vectorized),
        _ => tell_parallel_inside(said, host, loops, &one.name),
    }
}

/// Tells that a function has no loop of this name when all directives are done.
pub(crate) fn tell_missing(
    said: &mut String,
    sched: &Sched,
    host: &Subject,
    placed: &Placed,
    name: &Name,
) -> Result<(), AllocError> {
    if is_among(&host.reductions, name) {
        tell_reduction(said, host, name)
    } else {
        tell_no_loop(said, sched, host, placed, name)
    }
}

fn tell_loop(
    said: &mut String,
    sched: &Sched,
    placement: &Placement,
    host: &Subject,
    home: &Home,
) -> Result<(), AllocError> {
    let Some(placed) = placed_named(placement, &home.function) else {
        return Ok(());
    };
    match loop_named(&placed.loops, &home.turn) {
        Some(one) => tell_closed(said, host, &placed.loops, one),
        None => tell_missing(said, sched, host, placed, &home.turn),
    }
}

// Tells what is wrong with the place at which a function is to be computed. The answer is which argument it is.
fn tell_place(
    said: &mut String,
    sched: &Sched,
    placement: &Placement,
    subject: &Subject,
    home: &Home,
) -> Result<usize, AllocError> {
    if is_same(&home.function, &subject.name) {
        tell_own(said, subject)?;
        return Ok(0);
    }
    let Some(host) = subject_named(placement, &home.function) else {
        return Ok(0);
    };
    if !host.is_stored {
        tell_unstored(said, host)?;
        return Ok(0);
    }
    tell_loop(said, sched, placement, host, home)?;
    Ok(1)
}

/// Tells why a function is not computed where the text says.
pub(crate) fn tell_home(
    said: &mut String,
    sched: &Sched,
    placement: &Placement,
    subject: &Subject,
    placed: &Placed,
) -> Result<Option<Spot>, AllocError> {
    if subject.is_root {
        tell_root(said, subject)?;
        return Ok(word_of(sched, &subject.name, &Wanted::ComputeAt, 0));
    }
    match placed.homes.as_slice() {
        [] => Ok(None),
        [home] => {
            let argument = tell_place(said, sched, placement, subject, home)?;
            Ok(argument_of(sched, &subject.name, &Wanted::ComputeAt, argument))
        }
        [_, _, ..] => {
            tell_twice(said, subject, "compute_at")?;
            Ok(word_of(sched, &subject.name, &Wanted::ComputeAt, 1))
        }
    }
}
