//! The indices of calls, with what they stay within.

use crate::reasons::flaws::{Flaw, flaw_in, interval_or_none};
use algo::Algo;
use algo::scoping::{NotAmong, first_variable};
use lin::{Scope, Span1};
use sched::Nest;
use sched::calls::{Call, calls_of};
use sched::definitions::{Formula, counts};
use sched::roots::Root;
use sched::scopes::{Around, around_in, around_left};
use sched::stop::Stop;
use std::alloc::{AllocError, Global};
use std::slice;
use tree::Expr;
use tree::token::Name;

/// An index of a call or of the left side of an update, and what it stays within.
#[derive(Drop)]
pub(crate) struct Reading<'a> {
    pub caller: Name,
    /// The caller's number among others; none where it is the group's own function.
    pub number: Option<usize>,
    pub definition: usize,
    /// The dimension of what is called.
    pub dimension: usize,
    pub index: &'a Expr,
    /// The caller's dimension whose variable the index has, with what that stays within.
    pub along: Option<usize>,
    pub own: Option<Span1>,
    pub scope: Scope,
    /// None where a form leaves its limits.
    pub span: Option<Span1>,
    /// Which part of it does.
    pub flaw: Option<Flaw>,
    /// Whether it stands on the left side of an update.
    pub is_set: bool,
}

// The first dimension of the function whose variable the index has.
fn along_of(root: &Root<'_>, index: &Expr) -> Option<usize> {
    for (dimension, variable) in root.stored.function.variables.iter().enumerate() {
        let test = NotAmong {
            names: slice::from_ref(variable),
        };
        if first_variable(index, &test).is_some() {
            return Some(dimension);
        }
    }
    None
}

// What the caller's own variable of this dimension stays within.
fn coordinate(
    alloc: Global,
    around: &Around<'_>,
    dimension: Option<usize>,
) -> Result<Option<Span1>, AllocError> {
    let Some(dimension) = dimension else {
        return Ok(None);
    };
    match around.coordinates.as_slice().get(dimension) {
        Some(span) => Ok(Some(span.copy(alloc)?)),
        None => Ok(None),
    }
}

// An index, with what it stays within there.
fn reading_of<'a>(
    alloc: Global,
    algo: &Algo,
    user: &Root<'a>,
    number: Option<usize>,
    definition: usize,
    around: &Around<'_>,
    dimension: usize,
    index: &'a Expr,
    is_set: bool,
) -> Result<Reading<'a>, AllocError> {
    let along = along_of(user, index);
    let flaw = flaw_in(alloc, algo, around, index)?;
    let own = coordinate(alloc, around, along)?;
    let span = interval_or_none(alloc, algo, around, index)?;
    Ok(Reading {
        caller: user.stored.subject.name,
        number,
        definition,
        dimension,
        index,
        along,
        own,
        scope: around.scope.copy(alloc)?,
        span,
        flaw,
        is_set,
    })
}

// Adds the indices of a call; of an update's call of its own function those alone that count.
fn add_call<'a>(
    alloc: Global,
    algo: &Algo,
    user: &Root<'a>,
    number: Option<usize>,
    definition: usize,
    around: &Around<'_>,
    own: Option<&Formula>,
    call: &Call<'a>,
    found: &mut Vec<Reading<'a>>,
) -> Result<(), AllocError> {
    for (dimension, index) in call.at.iter().enumerate() {
        if counts(own, dimension) {
            let one = reading_of(
                alloc, algo, user, number, definition, around, dimension, index, false,
            )?;
            found.push(one)?;
        }
    }
    Ok(())
}

// Adds the indices of a definition's calls of the function of this name.
fn add_calls<'a>(
    alloc: Global,
    algo: &Algo,
    user: &Root<'a>,
    number: Option<usize>,
    definition: usize,
    around: &Around<'_>,
    own: Option<&Formula>,
    formula: &'a Formula,
    callee: &str,
    found: &mut Vec<Reading<'a>>,
) -> Result<(), Stop> {
    let calls = calls_of(alloc, formula)?;
    for call in &calls {
        if call.name == callee {
            add_call(
                alloc, algo, user, number, definition, around, own, call, found,
            )?;
        }
    }
    Ok(())
}

fn add_definition<'a>(
    alloc: Global,
    algo: &Algo,
    user: &Root<'a>,
    number: Option<usize>,
    definition: usize,
    outer: &Scope,
    nest: &Nest,
    callee: &str,
    found: &mut Vec<Reading<'a>>,
) -> Result<(), Stop> {
    let Some(formula) = user.formulas.get(definition) else {
        return Ok(());
    };
    let around = around_in(alloc, algo, user.stored, outer, nest, formula, definition)?;
    add_calls(
        alloc, algo, user, number, definition, &around, None, formula, callee, found,
    )
}

/// Adds the indices at which a function's nests call another one, or that of one definition, inside of other symbols.
pub(crate) fn add_readings<'a>(
    alloc: Global,
    algo: &Algo,
    user: &Root<'a>,
    number: Option<usize>,
    outer: &Scope,
    nests: &[Nest],
    only: Option<usize>,
    callee: &str,
    found: &mut Vec<Reading<'a>>,
) -> Result<(), Stop> {
    for (definition, nest) in nests.iter().enumerate() {
        if only.is_none() || only == Some(definition) {
            add_definition(
                alloc, algo, user, number, definition, outer, nest, callee, found,
            )?;
        }
    }
    Ok(())
}

// ---- updates

fn add_left<'a>(
    alloc: Global,
    algo: &Algo,
    user: &Root<'a>,
    number: Option<usize>,
    definition: usize,
    around: &Around<'_>,
    formula: &'a Formula,
    found: &mut Vec<Reading<'a>>,
) -> Result<(), AllocError> {
    for (dimension, index) in formula.at.iter().enumerate() {
        if let Some(index) = index {
            let one = reading_of(
                alloc, algo, user, number, definition, around, dimension, index, true,
            )?;
            found.push(one)?;
        }
    }
    Ok(())
}

// None where an index of the left side leaves the limits of forms.
fn around_or_none<'a>(
    alloc: Global,
    algo: &Algo,
    user: &Root<'a>,
    outer: &Scope,
    nest: &Nest,
    formula: &Formula,
    definition: usize,
) -> Result<Option<Around<'a>>, AllocError> {
    match around_in(alloc, algo, user.stored, outer, nest, formula, definition) {
        Ok(around) => Ok(Some(around)),
        Err(Stop::Limit) => Ok(None),
        Err(Stop::Memory) => Err(AllocError),
    }
}

// Adds the indices of the left side of a definition, by its nest.
fn add_set<'a>(
    alloc: Global,
    algo: &Algo,
    user: &Root<'a>,
    number: Option<usize>,
    definition: usize,
    outer: &Scope,
    nest: &Nest,
    formula: &'a Formula,
    found: &mut Vec<Reading<'a>>,
) -> Result<(), AllocError> {
    let left = around_left(alloc, user.stored, outer, nest, definition)?;
    add_left(alloc, algo, user, number, definition, &left, formula, found)
}

// Adds the indices at which a definition calls its own function, by its nest.
fn add_own<'a>(
    alloc: Global,
    algo: &Algo,
    user: &Root<'a>,
    number: Option<usize>,
    definition: usize,
    outer: &Scope,
    nest: &Nest,
    formula: &'a Formula,
    found: &mut Vec<Reading<'a>>,
) -> Result<(), Stop> {
    match around_or_none(alloc, algo, user, outer, nest, formula, definition)? {
        Some(around) => {
            let name = user.stored.subject.name;
            let own = Some(formula);
            let callee = name.as_str();
            add_calls(
                alloc, algo, user, number, definition, &around, own, formula, callee, found,
            )
        }
        None => Ok(()),
    }
}

/// The indices at which a function's updates set it, and at which they call it, inside of other symbols.
pub(crate) fn own_readings<'a>(
    alloc: Global,
    algo: &Algo,
    user: &Root<'a>,
    number: Option<usize>,
    outer: &Scope,
    nests: &[Nest],
) -> Result<Vec<Reading<'a>>, Stop> {
    let mut found = Vec::new(alloc);
    for (definition, formula) in user.formulas.iter().enumerate() {
        let Some(nest) = nests.get(definition) else {
            return Ok(found);
        };
        add_set(
            alloc, algo, user, number, definition, outer, nest, formula, &mut found,
        )?;
        add_own(
            alloc, algo, user, number, definition, outer, nest, formula, &mut found,
        )?;
    }
    Ok(found)
}
