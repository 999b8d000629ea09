//! The first directive of a text that breaks a rule, as they are taken in their order.

use crate::breaches::loops::subject_named;
use crate::breaches::marks::{tell_mark, tell_parallel, tell_reorder, tell_split};
use crate::breaches::spots::{Spot, is_same};
use crate::breaches::unknown::{tell_no_function, tell_unknown};
use algo::Algo;
use sched::placing::{apply_all, start};
use sched::{
    Directive, Halt, Placed, Rule, Sched, SchedError, Scheduled, Split, Subject, Tile, followed,
    has_root,
};
use std::alloc::{AllocError, Global};
use std::slice;
use tree::token::Name;

/// An algorithm, a schedule, and what that has to know of one of the functions.
#[derive(Clone, Copy, Drop)]
struct Case<'a> {
    algo: &'a Algo,
    sched: &'a Sched,
    subject: &'a Subject,
}

// Tells what is wrong with a directive that marks a loop. The answer is which argument it is.
fn tell_marking(
    case: Case<'_>,
    placed: &Placed,
    directive: &Directive,
    said: &mut String,
) -> Result<usize, AllocError> {
    match directive {
        Directive::Unroll(name) | Directive::Vectorize(name) => {
            tell_mark(said, case.subject, placed, name)?;
        }
        Directive::Parallel(name) => {
            tell_parallel(said, case.sched, case.subject, placed, name)?;
        }
        _ => {}
    }
    Ok(0)
}

// Tells what is wrong with a directive that breaks this rule. The answer is which argument it is.
fn tell(
    case: Case<'_>,
    placed: &Placed,
    directive: &Directive,
    rule: Rule,
    said: &mut String,
) -> Result<usize, AllocError> {
    match rule {
        Rule::UnknownName => {
            tell_unknown(said, case.algo, case.sched, case.subject, placed, directive)
        }
        Rule::BadSplit => tell_split(said, case.subject, placed, directive),
        Rule::BadReorder => tell_reorder(said, case.subject, directive),
        _ => tell_marking(case, placed, directive, said),
    }
}

// Applies a directive, and tells what is wrong with it where it breaks a rule. The answer is which argument that is.
fn slip_of(
    alloc: Global,
    case: Case<'_>,
    placed: &mut Placed,
    directive: &Directive,
    said: &mut String,
) -> Result<Option<usize>, AllocError> {
    match apply_all(alloc, case.subject, placed, slice::from_ref(directive)) {
        Ok(()) => Ok(None),
        Err(Halt::Memory) => Err(AllocError),
        Err(Halt::Broken(rule)) => {
            let argument = tell(case, placed, directive, rule, said)?;
            Ok(Some(argument))
        }
    }
}

// ---- tiles

fn slip_of_split(
    alloc: Global,
    case: Case<'_>,
    placed: &mut Placed,
    split: Split,
    said: &mut String,
) -> Result<Option<usize>, AllocError> {
    let directive = Directive::Split(split);
    slip_of(alloc, case, placed, &directive, said)
}

// Both inner loops inside both outer ones.
fn slip_of_order(
    alloc: Global,
    case: Case<'_>,
    placed: &mut Placed,
    tile: &Tile,
    said: &mut String,
) -> Result<Option<usize>, AllocError> {
    let order = [tile.x_inner, tile.y_inner, tile.x_outer, tile.y_outer];
    let directive = Directive::Reorder(Vec::from_slice(alloc, &order)?);
    slip_of(alloc, case, placed, &directive, said)
}

fn split_of_x(tile: &Tile) -> Split {
    Split {
        whole: tile.x,
        outer: tile.x_outer,
        inner: tile.x_inner,
        factor: tile.x_factor,
        tail: tile.tail,
    }
}

fn split_of_y(tile: &Tile) -> Split {
    Split {
        whole: tile.y,
        outer: tile.y_outer,
        inner: tile.y_inner,
        factor: tile.y_factor,
        tail: tile.tail,
    }
}

// Which argument of a tile this argument of its order is.
fn argument_of_order(argument: usize) -> usize {
    if argument < 2 {
        argument.saturating_add(4)
    } else {
        argument
    }
}

// The steps of a tile one after another.
fn slip_of_tile(
    alloc: Global,
    case: Case<'_>,
    placed: &mut Placed,
    tile: &Tile,
    said: &mut String,
) -> Result<Option<usize>, AllocError> {
    if let Some(argument) = slip_of_split(alloc, case, placed, split_of_x(tile), said)? {
        return Ok(Some(argument.saturating_mul(2)));
    }
    if let Some(argument) = slip_of_split(alloc, case, placed, split_of_y(tile), said)? {
        return Ok(Some(argument.saturating_mul(2).saturating_add(1)));
    }
    match slip_of_order(alloc, case, placed, tile, said)? {
        Some(argument) => Ok(Some(argument_of_order(argument))),
        None => Ok(None),
    }
}

// ---- texts

fn slip_in(
    alloc: Global,
    case: Case<'_>,
    placed: &mut Placed,
    directive: &Directive,
    said: &mut String,
) -> Result<Option<usize>, AllocError> {
    match directive {
        Directive::Tile(tile) => slip_of_tile(alloc, case, placed, tile, said),
        _ => slip_of(alloc, case, placed, directive, said),
    }
}

// The first of these directives that breaks a rule; the first of all has this number.
fn slip_among(
    alloc: Global,
    case: Case<'_>,
    placed: &mut Placed,
    directives: &[Directive],
    first: usize,
    said: &mut String,
) -> Result<Option<Spot>, AllocError> {
    for (index, directive) in directives.iter().enumerate() {
        if let Some(argument) = slip_in(alloc, case, placed, directive, said)? {
            return Ok(Some(Spot::Argument(first.saturating_add(index), argument)));
        }
    }
    Ok(None)
}

fn first_slip(
    alloc: Global,
    case: Case<'_>,
    placed: &mut Placed,
    said: &mut String,
) -> Result<Option<Spot>, AllocError> {
    let mut first: usize = 0;
    for scheduled in &case.sched.functions {
        if is_same(&scheduled.function, &case.subject.name) {
            let directives = scheduled.directives.as_slice();
            if let Some(spot) = slip_among(alloc, case, placed, directives, first, said)? {
                return Ok(Some(spot));
            }
        }
        first = first.saturating_add(scheduled.directives.len());
    }
    Ok(None)
}

fn slip_of_function(
    alloc: Global,
    case: Case<'_>,
    said: &mut String,
) -> Result<Option<Spot>, AllocError> {
    let mut placed = start(alloc, case.subject)?;
    first_slip(alloc, case, &mut placed, said)
}

// A schedule that says of this function alone whether it is computed wholly before those that use it.
fn rooted(alloc: Global, sched: &Sched, function: &Name) -> Result<Sched, AllocError> {
    let mut directives = Vec::new(alloc);
    if has_root(sched, function) {
        directives.push(Directive::ComputeRoot)?;
    }
    let mut functions = Vec::new(alloc);
    functions.push(Scheduled {
        function: *function,
        directives,
    })?;
    Ok(Sched { functions })
}

// The number of the first statement of this function.
fn statement_of(sched: &Sched, function: &Name) -> Option<Spot> {
    for (number, scheduled) in sched.functions.iter().enumerate() {
        if is_same(&scheduled.function, function) {
            return Some(Spot::Statement(number));
        }
    }
    None
}

/// Tells which directive of this function breaks a rule as the text's directives are taken in their order.
pub(crate) fn tell_slip(
    alloc: Global,
    algo: &Algo,
    sched: &Sched,
    function: &Name,
    said: &mut String,
) -> Result<Option<Spot>, AllocError> {
    let only = rooted(alloc, sched, function)?;
    match followed(alloc, algo, &only) {
        Ok(placement) => match subject_named(&placement, function) {
            Some(subject) => slip_of_function(
                alloc,
                Case {
                    algo,
                    sched,
                    subject,
                },
                said,
            ),
            None => Ok(None),
        },
        Err(SchedError::Memory) => Err(AllocError),
        Err(_) => {
            tell_no_function(said, algo, function)?;
            Ok(statement_of(sched, function))
        }
    }
}
