//! Regions inside one another and spans beside one another.

ghost use Rattle.std.specs.Prelude.{◌≡◌, IfOk, IsTrue};
ghost use Rattle.std.specs.List.{list_all, list_any};
ghost use Rattle.lin.specs.Search.{at_most};
ghost use Rattle.lin.specs.Regions.{span_inside, inside, at_most_successor, successor_at_most, adjacent, IsInside, AreAdjacent};

use crate::form::{Lin, LinError};
use crate::scope::Scope;
use crate::span::{Region, Span1};
use std::alloc::{AllocError, Global};

/// Whether a form is shown to be at most one of some others.
fn is_below_one(
    alloc: Global,
    scope: &Scope,
    form: &Lin,
    others: &[Lin],
) -> Result<bool, AllocError>
    ensures { IfOk result (λ yes. yes ≡ list_any (λ m. at_most scope.now form.now m) others.now) }
{
    for other in others {
        if scope.at_most(alloc, form, other)? {
            return Ok(true);
        }
    }
    Ok(false)
}

/// Whether a form is shown to be at least one of some others.
fn is_above_one(
    alloc: Global,
    scope: &Scope,
    form: &Lin,
    others: &[Lin],
) -> Result<bool, AllocError>
    ensures { IfOk result (λ yes. yes ≡ list_any (λ m. at_most scope.now m form.now) others.now) }
{
    for other in others {
        if scope.at_most(alloc, other, form)? {
            return Ok(true);
        }
    }
    Ok(false)
}

/// Whether each form is shown to be at most one of some others.
fn are_below(
    alloc: Global,
    scope: &Scope,
    forms: &[Lin],
    others: &[Lin],
) -> Result<bool, AllocError>
    ensures { IfOk result (λ yes. yes ≡ list_all (λ f. list_any (λ m. at_most scope.now f m) others.now) forms.now) }
{
    for form in forms {
        if !is_below_one(alloc, scope, form, others)? {
            return Ok(false);
        }
    }
    Ok(true)
}

/// Whether each form is shown to be at least one of some others.
fn are_above(
    alloc: Global,
    scope: &Scope,
    forms: &[Lin],
    others: &[Lin],
) -> Result<bool, AllocError>
    ensures { IfOk result (λ yes. yes ≡ list_all (λ f. list_any (λ m. at_most scope.now m f) others.now) forms.now) }
{
    for form in forms {
        if !is_above_one(alloc, scope, form, others)? {
            return Ok(false);
        }
    }
    Ok(true)
}

/// Whether each value of one span is shown to be a value of another.
fn is_span_inside(alloc: Global, scope: &Scope, a: &Span1, b: &Span1) -> Result<bool, AllocError>
    ensures { IfOk result (λ yes. yes ≡ span_inside scope.now a.now b.now) }
{
    Ok(
        are_below(alloc, scope, b.lower.as_slice(), a.lower.as_slice())?
            && are_above(alloc, scope, b.upper.as_slice(), a.upper.as_slice())?,
    )
}

/// Whether each span of one region is shown to be inside that of another, which has as many.
fn are_spans_inside(
    alloc: Global,
    scope: &Scope,
    a: &[Span1],
    b: &[Span1],
) -> Result<bool, AllocError>
    ensures { IfOk result (λ yes. yes ≡ inside scope.now a.now b.now) }
{
    if a.len() != b.len() {
        return Ok(false);
    }
    for (place, span) in a.iter().enumerate() {
        if !is_span_inside(alloc, scope, span, &b[place])? {
            return Ok(false);
        }
    }
    Ok(true)
}

/// Whether a form is shown to be at most one above another.
fn is_at_most_successor(
    alloc: Global,
    scope: &Scope,
    form: &Lin,
    other: &Lin,
) -> Result<bool, AllocError>
    ensures { IfOk result (λ yes. yes ≡ at_most_successor scope.now form.now other.now) }
{
    match other.add(alloc, &Lin::number(alloc, 1)) {
        Ok(next) => scope.at_most(alloc, form, &next),
        Err(LinError::Limit) => Ok(false),
        Err(LinError::Memory) => Err(AllocError),
    }
}

/// Whether one above a form is shown to be at most another.
fn is_successor_at_most(
    alloc: Global,
    scope: &Scope,
    form: &Lin,
    other: &Lin,
) -> Result<bool, AllocError>
    ensures { IfOk result (λ yes. yes ≡ successor_at_most scope.now form.now other.now) }
{
    match form.add(alloc, &Lin::number(alloc, 1)) {
        Ok(next) => scope.at_most(alloc, &next, other),
        Err(LinError::Limit) => Ok(false),
        Err(LinError::Memory) => Err(AllocError),
    }
}

/// Whether a form is shown to be at most one above each of some others.
fn is_below_successors(
    alloc: Global,
    scope: &Scope,
    form: &Lin,
    others: &[Lin],
) -> Result<bool, AllocError>
    ensures { IfOk result (λ yes. yes ≡ list_all (λ u. at_most_successor scope.now form.now u) others.now) }
{
    for other in others {
        if !is_at_most_successor(alloc, scope, form, other)? {
            return Ok(false);
        }
    }
    Ok(true)
}

/// Whether each form is shown to be at most one above each of some others.
fn are_below_successors(
    alloc: Global,
    scope: &Scope,
    forms: &[Lin],
    others: &[Lin],
) -> Result<bool, AllocError>
    ensures { IfOk result (λ yes. yes ≡ list_all (λ f. list_all (λ u. at_most_successor scope.now f u) others.now) forms.now) }
{
    for form in forms {
        if !is_below_successors(alloc, scope, form, others)? {
            return Ok(false);
        }
    }
    Ok(true)
}

/// Whether one above a form is shown to be at most one of some others.
fn has_successor_below(
    alloc: Global,
    scope: &Scope,
    form: &Lin,
    others: &[Lin],
) -> Result<bool, AllocError>
    ensures { IfOk result (λ yes. yes ≡ list_any (λ f. successor_at_most scope.now form.now f) others.now) }
{
    for other in others {
        if is_successor_at_most(alloc, scope, form, other)? {
            return Ok(true);
        }
    }
    Ok(false)
}

/// Whether one above some form is shown to be at most one of some others.
fn have_successor_below(
    alloc: Global,
    scope: &Scope,
    forms: &[Lin],
    others: &[Lin],
) -> Result<bool, AllocError>
    ensures { IfOk result (λ yes. yes ≡ list_any (λ u. list_any (λ f. successor_at_most scope.now u f) others.now) forms.now) }
{
    for form in forms {
        if has_successor_below(alloc, scope, form, others)? {
            return Ok(true);
        }
    }
    Ok(false)
}

impl Scope {
    /// Whether each point of one region is shown to be in another, whatever the symbols stand for. No where the two have
    /// not equally many coordinates.
    pub fn inside(&self, alloc: Global, a: &Region, b: &Region) -> Result<bool, AllocError>
        ensures exact { IfOk result (λ yes. yes ≡ inside self.now a.now b.now) }
        ensures sound { IfOk result (λ yes. IsTrue yes → IsInside self.now a.now b.now) }
    {
        are_spans_inside(alloc, self, a.as_slice(), b.as_slice())
    }

    /// Whether the lower end of the second span is shown to be the upper end of the first and 1, whatever the symbols
    /// stand for.
    pub fn adjacent(&self, alloc: Global, a: &Span1, b: &Span1) -> Result<bool, AllocError>
        ensures exact { IfOk result (λ yes. yes ≡ adjacent self.now a.now b.now) }
        ensures sound { IfOk result (λ yes. IsTrue yes → AreAdjacent self.now a.now b.now) }
    {
        let upper = a.upper.as_slice();
        let lower = b.lower.as_slice();
        Ok(
            are_below_successors(alloc, self, lower, upper)?
                && have_successor_below(alloc, self, upper, lower)?,
        )
    }
}
