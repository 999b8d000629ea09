//! Names of no function, no loop or no variable: L1.

use crate::breaches::lists::{put, put_listed, put_loops, put_names};
use crate::breaches::loops::{cut_of, is_among, loop_named};
use crate::breaches::spots::is_same;
use algo::Algo;
use sched::{Directive, Fold, Placed, Sched, Split, Subject};
use std::alloc::AllocError;
use tree::token::Name;

// ---- functions

fn put_functions(said: &mut String, algo: &Algo) -> Result<(), AllocError> {
    let functions = algo.funcs();
    for index in 0..functions.len() {
        if let Some((name, _)) = functions.get_index(index) {
            put_listed(said, index, name.as_str())?;
        }
    }
    Ok(())
}

/// Tells that there is no function of this name.
pub(crate) fn tell_no_function(
    said: &mut String,
    algo: &Algo,
    name: &Name,
) -> Result<(), AllocError> {
    let name = name.as_str();
    if algo.input().name.as_str() == name {
        return put(
            said,
            &[
                "`",
                name,
                "` is the input, of which a schedule says nothing.\nLeave it out.\n",
            ],
        );
    }
    put(
        said,
        &[
            "The algorithm has no function `",
            name,
            "`; its functions are ",
        ],
    )?;
    put_functions(said, algo)?;
    said.push_str(".\nName one of these.\n")
}

// ---- loops

fn makes(directive: &Directive, name: &Name) -> bool {
    match directive {
        Directive::Split(split) => is_same(&split.outer, name) || is_same(&split.inner, name),
        Directive::Tile(tile) => {
            is_same(&tile.x_outer, name)
                || is_same(&tile.y_outer, name)
                || is_same(&tile.x_inner, name)
                || is_same(&tile.y_inner, name)
        }
        _ => false,
    }
}

fn some_makes(directives: &[Directive], name: &Name) -> bool {
    for directive in directives {
        if makes(directive, name) {
            return true;
        }
    }
    false
}

// Whether some split of the function makes a loop of this name.
fn is_made(sched: &Sched, function: &Name, name: &Name) -> bool {
    for scheduled in &sched.functions {
        if is_same(&scheduled.function, function) && some_makes(&scheduled.directives, name) {
            return true;
        }
    }
    false
}

fn tell_cut(said: &mut String, subject: &Subject, cut: &Split) -> Result<(), AllocError> {
    put(
        said,
        &[
            "`",
            subject.name.as_str(),
            "` has no loop `",
            cut.whole.as_str(),
            "` any more: it was split into `",
            cut.outer.as_str(),
            "` and `",
            cut.inner.as_str(),
            "`.\nName one of these.\n",
        ],
    )
}

fn tell_later(said: &mut String, subject: &Subject, name: &Name) -> Result<(), AllocError> {
    put(
        said,
        &[
            "`",
            name.as_str(),
            "` is a loop of `",
            subject.name.as_str(),
            "` only behind the directive that makes it.\nWrite this one behind that one.\n",
        ],
    )
}

fn tell_others(
    said: &mut String,
    subject: &Subject,
    placed: &Placed,
    name: &Name,
) -> Result<(), AllocError> {
    put(
        said,
        &[
            "`",
            subject.name.as_str(),
            "` has no loop `",
            name.as_str(),
            "`; its loops are, the innermost first, ",
        ],
    )?;
    put_loops(said, &placed.loops)?;
    said.push_str(".\nName one of these, or leave it out.\n")
}

/// Tells that a function has no loop of this name.
pub(crate) fn tell_no_loop(
    said: &mut String,
    sched: &Sched,
    subject: &Subject,
    placed: &Placed,
    name: &Name,
) -> Result<(), AllocError> {
    match cut_of(&placed.cuts, name) {
        Some(cut) => tell_cut(said, subject, cut),
        None => {
            if is_made(sched, &subject.name, name) {
                tell_later(said, subject, name)
            } else {
                tell_others(said, subject, placed, name)
            }
        }
    }
}

// ---- directives

fn tell_no_variable(said: &mut String, subject: &Subject, fold: &Fold) -> Result<(), AllocError> {
    put(
        said,
        &[
            "`",
            subject.name.as_str(),
            "` has no variable `",
            fold.dimension.as_str(),
            "`; its variables are ",
        ],
    )?;
    put_names(said, &subject.variables)?;
    said.push_str(".\nName one of these, or leave the fold out.\n")
}

// The first of these that is the name of no loop and of no reduction variable.
fn first_unknown(subject: &Subject, placed: &Placed, names: &[Name]) -> usize {
    for (index, name) in names.iter().enumerate() {
        if loop_named(&placed.loops, name).is_none() && !is_among(&subject.reductions, name) {
            return index;
        }
    }
    0
}

fn tell_unknown_loop(
    said: &mut String,
    sched: &Sched,
    subject: &Subject,
    placed: &Placed,
    names: &[Name],
) -> Result<usize, AllocError> {
    let index = first_unknown(subject, placed, names);
    if let Some(name) = names.get(index) {
        tell_no_loop(said, sched, subject, placed, name)?;
    }
    Ok(index)
}

/// Tells which name of a directive stands for nothing. The answer is which argument it is.
pub(crate) fn tell_unknown(
    said: &mut String,
    algo: &Algo,
    sched: &Sched,
    subject: &Subject,
    placed: &Placed,
    directive: &Directive,
) -> Result<usize, AllocError> {
    match directive {
        Directive::ComputeAt(home) | Directive::StoreAt(home) => {
            tell_no_function(said, algo, &home.function)?;
        }
        Directive::Fold(fold) => tell_no_variable(said, subject, fold)?,
        Directive::Split(split) => tell_no_loop(said, sched, subject, placed, &split.whole)?,
        Directive::Reorder(names) => {
            return tell_unknown_loop(said, sched, subject, placed, names);
        }
        Directive::Unroll(name) | Directive::Vectorize(name) | Directive::Parallel(name) => {
            tell_no_loop(said, sched, subject, placed, name)?;
        }
        Directive::ComputeRoot | Directive::Tile(_) => {}
    }
    Ok(0)
}
