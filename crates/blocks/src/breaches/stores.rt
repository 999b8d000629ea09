//! Where a function can't be stored: L7.

use crate::breaches::homes::{tell_missing, tell_parallel_inside, tell_twice};
use crate::breaches::lists::{put, put_loops};
use crate::breaches::loops::{first_parallel, loop_named, outside_of, placed_named, subject_named};
use crate::breaches::spots::{Spot, Wanted, argument_of, is_same, word_of};
use sched::{Home, Loop, Placed, Placement, Sched, Subject};
use std::alloc::AllocError;

fn tell_homeless(said: &mut String, subject: &Subject) -> Result<(), AllocError> {
    let name = subject.name.as_str();
    put(
        said,
        &[
            "`",
            name,
            "` has no `compute_at`.\nAdd one at a loop inside of that one, or leave the `store_at` out.\n",
        ],
    )
}

fn tell_elsewhere(said: &mut String, subject: &Subject, home: &Home) -> Result<(), AllocError> {
    put(
        said,
        &[
            "`",
            subject.name.as_str(),
            "` is computed at a loop of `",
            home.function.as_str(),
            "`.\nName a loop of `",
            home.function.as_str(),
            "` that stands outside of `",
            home.turn.as_str(),
            "`.\n",
        ],
    )
}

fn tell_choice(said: &mut String, outside: &[Loop]) -> Result<(), AllocError> {
    match outside {
        [] => said.push_str("No loop stands outside of that: leave it out.\n"),
        [_, ..] => {
            said.push_str("Name a loop outside of that, ")?;
            put_loops(said, outside)?;
            said.push_str(", or leave it out.\n")
        }
    }
}

fn tell_inside(
    said: &mut String,
    loops: &[Loop],
    subject: &Subject,
    home: &Home,
) -> Result<(), AllocError> {
    put(
        said,
        &[
            "`",
            subject.name.as_str(),
            "` is computed at the loop `",
            home.turn.as_str(),
            "`, and this one does not stand outside of it.\n",
        ],
    )?;
    tell_choice(said, outside_of(loops, &home.turn))
}

// Tells that a loop inside of the one at which it is stored is parallel: one of those between, or the one at which it is computed or one
// inside of that.
fn tell_parted(
    said: &mut String,
    host: &Subject,
    loops: &[Loop],
    home: &Home,
    store: &Home,
) -> Result<(), AllocError> {
    let Some(parallel) = first_parallel(loops) else {
        return Ok(());
    };
    if loop_named(outside_of(loops, &home.turn), &parallel.name).is_some() {
        return tell_parallel_inside(said, host, loops, &store.turn);
    }
    put(
        said,
        &[
            "The loop `",
            parallel.name.as_str(),
            "` of `",
            host.name.as_str(),
            "` is parallel, and each of its turns has storage of its own.\nLeave it out.\n",
        ],
    )
}

// Tells what is wrong with a loop of the function in which it is computed.
fn tell_loop(
    said: &mut String,
    sched: &Sched,
    host: &Subject,
    placed: &Placed,
    subject: &Subject,
    home: &Home,
    store: &Home,
) -> Result<(), AllocError> {
    if loop_named(&placed.loops, &store.turn).is_none() {
        return tell_missing(said, sched, host, placed, &store.turn);
    }
    if loop_named(outside_of(&placed.loops, &home.turn), &store.turn).is_none() {
        return tell_inside(said, &placed.loops, subject, home);
    }
    tell_parted(said, host, &placed.loops, home, store)
}

// Tells what is wrong with the place at which a function is to be stored. The answer is which argument it is.
fn tell_place(
    said: &mut String,
    sched: &Sched,
    placement: &Placement,
    subject: &Subject,
    home: &Home,
    store: &Home,
) -> Result<usize, AllocError> {
    if !is_same(&home.function, &store.function) {
        tell_elsewhere(said, subject, home)?;
        return Ok(0);
    }
    let Some(host) = subject_named(placement, &home.function) else {
        return Ok(0);
    };
    let Some(placed) = placed_named(placement, &home.function) else {
        return Ok(0);
    };
    tell_loop(said, sched, host, placed, subject, home, store)?;
    Ok(1)
}

/// Tells why a function is not stored where the text says.
pub(crate) fn tell_storage(
    said: &mut String,
    sched: &Sched,
    placement: &Placement,
    subject: &Subject,
    placed: &Placed,
) -> Result<Option<Spot>, AllocError> {
    match (placed.homes.as_slice(), placed.stores.as_slice()) {
        (_, []) => Ok(None),
        (_, [_, _, ..]) => {
            tell_twice(said, subject, "store_at")?;
            Ok(word_of(sched, &subject.name, &Wanted::StoreAt, 1))
        }
        ([], [_]) => {
            tell_homeless(said, subject)?;
            Ok(word_of(sched, &subject.name, &Wanted::StoreAt, 0))
        }
        ([home, ..], [store]) => {
            let argument = tell_place(said, sched, placement, subject, home, store)?;
            Ok(argument_of(sched, &subject.name, &Wanted::StoreAt, argument))
        }
    }
}
