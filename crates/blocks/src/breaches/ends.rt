//! What a function breaks behind the last directive: L4 to L8.

use crate::breaches::homes::tell_home;
use crate::breaches::lists::{innermost_first, parallel_last, put, put_reorder};
use crate::breaches::loops::{
    first_parallel, first_serial, first_vector, outside_of, placed_named, subject_named,
};
use crate::breaches::spots::{Spot, Wanted, argument_of, is_same, shift_of};
use crate::breaches::stores::tell_storage;
use sched::{Loop, Placed, Placement, Rule, Sched, Subject};
use std::alloc::{AllocError, Global};
use tree::token::Name;

// ---- vectorised loops

fn tell_two_vectors(said: &mut String, inner: &Loop, outer: &Loop) -> Result<(), AllocError> {
    put(
        said,
        &[
            "Both `",
            inner.name.as_str(),
            "` and `",
            outer.name.as_str(),
            "` are vectorised, and a vectorised loop is the innermost.\nKeep one of the two.\n",
        ],
    )
}

fn tell_vector_outside(
    alloc: Global,
    said: &mut String,
    subject: &Subject,
    loops: &[Loop],
    inner: &Loop,
    vector: &Loop,
) -> Result<(), AllocError> {
    put(
        said,
        &[
            "The loop `",
            inner.name.as_str(),
            "` stands inside of `",
            vector.name.as_str(),
            "`, and a vectorised loop is the innermost.\nWrite ",
        ],
    )?;
    let names = innermost_first(alloc, loops, &vector.name)?;
    put_reorder(said, &subject.name, &names)?;
    said.push_str(" last.\n")
}

// Tells of the innermost loop and of the vectorised one outside of it.
fn tell_vector(
    alloc: Global,
    said: &mut String,
    sched: &Sched,
    subject: &Subject,
    loops: &[Loop],
) -> Result<Option<Spot>, AllocError> {
    let [inner, outer @ ..] = loops else {
        return Ok(None);
    };
    let Some(vector) = first_vector(outer) else {
        return Ok(None);
    };
    if inner.is_vectorized() {
        tell_two_vectors(said, inner, vector)?;
    } else {
        tell_vector_outside(alloc, said, subject, loops, inner, vector)?;
    }
    Ok(argument_of(sched, &subject.name, &Wanted::Vectorize(vector.name), 0))
}

// ---- parallel loops

// Whether some update has no pure variable for the dimension of the loop, so that it can't be parallel.
fn is_scattered(subject: &Subject, one: &Loop) -> bool {
    for dimension in &subject.scattered {
        if *dimension == one.dimension {
            return true;
        }
    }
    false
}

// The beginning of what mends it.
fn mend_of(subject: &Subject, serial: &Loop) -> &'static str {
    if is_scattered(subject, serial) {
        "Write "
    } else {
        "Make it parallel, too, or write "
    }
}

fn tell_serial_outside(
    alloc: Global,
    said: &mut String,
    subject: &Subject,
    loops: &[Loop],
    parallel: &Loop,
    serial: &Loop,
) -> Result<(), AllocError> {
    put(
        said,
        &[
            "The loop `",
            serial.name.as_str(),
            "` stands outside of `",
            parallel.name.as_str(),
            "` and is not parallel.\n",
        ],
    )?;
    said.push_str(mend_of(subject, serial))?;
    let names = parallel_last(alloc, loops)?;
    put_reorder(said, &subject.name, &names)?;
    said.push_str(" last.\n")
}

fn tell_serial(
    alloc: Global,
    said: &mut String,
    sched: &Sched,
    subject: &Subject,
    loops: &[Loop],
) -> Result<Option<Spot>, AllocError> {
    let Some(parallel) = first_parallel(loops) else {
        return Ok(None);
    };
    let Some(serial) = first_serial(outside_of(loops, &parallel.name)) else {
        return Ok(None);
    };
    tell_serial_outside(alloc, said, subject, loops, parallel, serial)?;
    Ok(argument_of(sched, &subject.name, &Wanted::Parallel(parallel.name), 0))
}

// ---- tails

fn tell_shift(
    said: &mut String,
    sched: &Sched,
    subject: &Subject,
) -> Result<Option<Spot>, AllocError> {
    put(
        said,
        &[
            "`",
            subject.name.as_str(),
            "` has updates, and `shift` would do some of them twice.\nWrite `guard` in its place.\n",
        ],
    )?;
    Ok(shift_of(sched, &subject.name))
}

// ---- rules

fn tell_rule(
    alloc: Global,
    said: &mut String,
    sched: &Sched,
    placement: &Placement,
    rule: Rule,
    subject: &Subject,
    placed: &Placed,
) -> Result<Option<Spot>, AllocError> {
    match rule {
        Rule::BadMark => tell_vector(alloc, said, sched, subject, &placed.loops),
        Rule::BadParallel => tell_serial(alloc, said, sched, subject, &placed.loops),
        Rule::BadHome => tell_home(said, sched, placement, subject, placed),
        Rule::BadStorage => tell_storage(said, sched, placement, subject, placed),
        Rule::BadShift => tell_shift(said, sched, subject),
        _ => Ok(None),
    }
}

// Whether this is the first function that breaks a rule behind the last directive, and the rule that it breaks.
fn is_fault(placement: &Placement, rule: Rule, function: &Name) -> bool {
    match &placement.fault {
        Some((broken, name)) => *broken == rule && is_same(name, function),
        None => false,
    }
}

/// Tells what makes this function break a rule behind the last directive.
pub(crate) fn tell_end(
    alloc: Global,
    sched: &Sched,
    placement: &Placement,
    rule: Rule,
    function: &Name,
    said: &mut String,
) -> Result<Option<Spot>, AllocError> {
    if !is_fault(placement, rule, function) {
        return Ok(None);
    }
    let Some(subject) = subject_named(placement, function) else {
        return Ok(None);
    };
    let Some(placed) = placed_named(placement, function) else {
        return Ok(None);
    };
    tell_rule(alloc, said, sched, placement, rule, subject, placed)
}
