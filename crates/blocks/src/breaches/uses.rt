//! Uses of a function outside of the loop at which it is computed: L6.

ghost use Rattle.std.specs.Prelude.{◌≡◌, not};
ghost use Rattle.meaning.specs.Names.{is_among};

use crate::breaches::lists::put;
use crate::breaches::loops::{loop_named, outside_of, placed_named, subject_named};
use crate::breaches::spots::{Spot, Wanted, argument_of, is_same};
use algo::scoping::{CallTest, first_call};
use algo::{Algo, Function, Update};
use sched::{Home, Placed, Placement, Sched, Subject};
use std::alloc::{AllocError, Global};
use tree::Expr;
use tree::token::Name;

// ---- calls

/// Calls of functions that have none of these names.
#[derive(Clone, Copy, Drop)]
struct Apart<'a> {
    names: &'a [Name],
}

fn has_name(names: &[Name], name: &str) -> bool
    ensures { result ≡ is_among names.now name.now }
{
    names.iter().any(|other| other.as_str() == name)
}

impl CallTest for Apart<'_> {
    ghost accepted = { λ t name at. not (is_among t.names.now name) };

    fn accepts(&self, name: &str, _at: &[Expr]) -> bool {
        !has_name(self.names, name)
    }
}

fn calls(expr: &Expr, names: &[Name]) -> bool {
    first_call(expr, &Apart { names }).is_some()
}

fn some_calls(exprs: &[Expr], names: &[Name]) -> bool {
    for expr in exprs {
        if calls(expr, names) {
            return true;
        }
    }
    false
}

fn update_calls(update: &Update, names: &[Name]) -> bool {
    calls(&update.value, names) || some_calls(&update.at, names)
}

fn function_calls(function: &Function, names: &[Name]) -> bool {
    if calls(&function.value, names) {
        return true;
    }
    for update in &function.updates {
        if update_calls(update, names) {
            return true;
        }
    }
    false
}

// Adds the name of a function that is put in where it is called, if it calls one of these.
fn add_inlined(
    algo: &Algo,
    number: usize,
    subject: &Subject,
    names: &mut Vec<Name>,
) -> Result<(), AllocError> {
    if subject.is_stored {
        return Ok(());
    }
    if let Some((_, function)) = algo.funcs().get_index(number) {
        if function_calls(function, names) {
            names.push(subject.name)?;
        }
    }
    Ok(())
}

// The name of a function, and of those that are put in and need it.
fn leading(
    alloc: Global,
    algo: &Algo,
    subjects: &[Subject],
    name: &Name,
) -> Result<Vec<Name>, AllocError> {
    let mut names = Vec::new(alloc);
    names.push(*name)?;
    for (number, subject) in subjects.iter().enumerate() {
        add_inlined(algo, number, subject, &mut names)?;
    }
    Ok(names)
}

// ---- places

// The loop at which a function is computed that is no root.
fn home_named(placement: &Placement, name: &Name) -> Option<Home> {
    if subject_named(placement, name)?.is_root {
        return None;
    }
    let home = placed_named(placement, name)?.homes.first()?;
    Some(*home)
}

// Whether the one loop of a function is the other one, or stands inside of it.
fn is_within(placement: &Placement, inner: &Home, outer: &Name) -> bool {
    if is_same(&inner.turn, outer) {
        return true;
    }
    match placed_named(placement, &inner.function) {
        Some(placed) => {
            let outside = outside_of(&placed.loops, &inner.turn);
            loop_named(outside, outer).is_some()
        }
        None => false,
    }
}

// Whether a function is computed at a loop or inside of it, by the loops' order alone.
fn stands_inside(placement: &Placement, name: &Name, outer: &Home) -> bool {
    let mut inner = *name;
    for _ in 0..placement.subjects.len() {
        let Some(home) = home_named(placement, &inner) else {
            return false;
        };
        if is_same(&home.function, &outer.function) {
            return is_within(placement, &home, &outer.turn);
        }
        inner = home.function;
    }
    false
}

// ---- uses

// Whether a function needs one of these outside of the loop.
fn needs_outside(
    algo: &Algo,
    placement: &Placement,
    number: usize,
    subject: &Subject,
    outer: &Home,
    names: &[Name],
) -> bool {
    if !subject.is_stored || is_same(&subject.name, &outer.function) {
        return false;
    }
    match algo.funcs().get_index(number) {
        Some((_, function)) => {
            function_calls(function, names) && !stands_inside(placement, &subject.name, outer)
        }
        None => false,
    }
}

// The first function but this one that needs it outside of its loop.
fn first_outside<'a>(
    algo: &Algo,
    placement: &'a Placement,
    own: &Name,
    outer: &Home,
    names: &[Name],
) -> Option<&'a Subject> {
    for (number, subject) in placement.subjects.iter().enumerate() {
        if !is_same(&subject.name, own)
            && needs_outside(algo, placement, number, subject, outer, names)
        {
            return Some(subject);
        }
    }
    None
}

// ---- texts

fn tell_outside(
    said: &mut String,
    user: &Subject,
    own: &Name,
    outer: &Home,
) -> Result<(), AllocError> {
    put(
        said,
        &[
            "`",
            user.name.as_str(),
            "` needs `",
            own.as_str(),
            "`, and stands outside of the loop `",
            outer.turn.as_str(),
            "` of `",
            outer.function.as_str(),
            "`.\n",
        ],
    )
}

fn tell_lacking(said: &mut String, own: &Name, outer: &Home) -> Result<(), AllocError> {
    put(
        said,
        &[
            "An update of `",
            outer.function.as_str(),
            "` needs `",
            own.as_str(),
            "`, and has no loop `",
            outer.turn.as_str(),
            "`: its left index is another one.\n",
        ],
    )
}

fn tell_mend(said: &mut String, own: &Name) -> Result<(), AllocError> {
    put(
        said,
        &[
            "Write `",
            own.as_str(),
            ".compute_root()` in its place, or name a loop with all that need it inside.\n",
        ],
    )
}

fn tell_among(
    said: &mut String,
    algo: &Algo,
    placement: &Placement,
    own: &Name,
    outer: &Home,
    names: &[Name],
) -> Result<(), AllocError> {
    match first_outside(algo, placement, own, outer, names) {
        Some(user) => tell_outside(said, user, own, outer)?,
        None => tell_lacking(said, own, outer)?,
    }
    tell_mend(said, own)
}

/// Tells what needs a function outside of the loop at which it is computed.
pub(crate) fn tell_use(
    alloc: Global,
    said: &mut String,
    algo: &Algo,
    sched: &Sched,
    placement: &Placement,
    own: &Name,
    placed: &Placed,
) -> Result<Option<Spot>, AllocError> {
    let Some(outer) = placed.homes.first() else {
        return Ok(None);
    };
    let names = leading(alloc, algo, &placement.subjects, own)?;
    tell_among(said, algo, placement, own, outer, &names)?;
    Ok(argument_of(sched, own, &Wanted::ComputeAt, 1))
}
