//! The loops of an update's reduction variables, and the other steps round its store.

ghost use Rattle.std.specs.Prelude.{◌≡◌, [], ◌∷◌, filter, map, reverse, IfOk};
ghost use Rattle.std.specs.List.{list_any};
ghost use Rattle.lin.specs.Forms.{number};
ghost use Rattle.algo.specs.Parts.{range_of};
ghost use Rattle.plan.specs.View.{coordinate_of};
ghost use Rattle.soundness.specs.Binders.View.{binders_of};
ghost use Rattle.soundness.specs.Nests.Nest.{is_symbol, symbol_of};
ghost use Rattle.soundness.specs.Nests.Tests.{are_whole, is_among, is_reduced, is_whole, range_span};
ghost use Rattle.tails.specs.Updates.{is_reducing, loops_in, pure_steps, reducing};
ghost use Rattle.tails.specs.Domains.{ranges_held, ranges_of};
ghost use Rattle.tails.specs.View.{step_of};

use crate::descent::Step;
use algo::Range;
use lin::{Forms, Lin, Span1, Sym};
use plan::{Coordinate, Index};
use soundness::binders::{Binder, Bounds};
use std::alloc::{AllocError, Global};

/// The symbol that the form is, if it is one.
fn symbol_of(form: &Lin) -> Option<Sym>
    ensures { result ≡ symbol_of form.now }
{
    match form.terms() {
        [term] if form.constant() == 0 && term.factor == 1 => Some(term.symbol),
        _ => None,
    }
}

/// Whether the coordinate is the symbol.
fn is_symbol(symbol: Sym, coordinate: &Coordinate) -> bool
    ensures { result ≡ is_symbol symbol (coordinate_of coordinate.now) }
{
    match &coordinate.index {
        Index::Form(form) => match symbol_of(form) {
            Some(found) => found == symbol,
            None => false,
        },
        Index::Found(_) => false,
    }
}

/// Whether one of the coordinates is the symbol.
fn is_among(symbol: Sym, coordinates: &[Coordinate]) -> bool
    ensures { result ≡ list_any (is_symbol symbol) (map coordinate_of coordinates.now) }
{
    match coordinates {
        [] => false,
        [first, rest @ ..] => is_symbol(symbol, first) || is_among(symbol, rest),
    }
}

/// Whether the step is a loop of the reduction over these variables.
fn is_reducing(over: &[Coordinate], step: &Step<'_>) -> bool
    ensures { result ≡ is_reducing (map coordinate_of over.now) (step_of step.now) }
{
    match step {
        Step::Turns { symbol, .. } => is_among(*symbol, over),
        Step::Named { .. } | Step::Tested { .. } => false,
    }
}

/// The steps with one before them.
fn behind<'a>(first: Step<'a>, steps: Vec<Step<'a>>) -> Result<Vec<Step<'a>>, AllocError>
    ensures { IfOk result (λ all. all.items ≡ first.entry ∷ steps.entry.items) }
{
    let mut all = steps;
    all.insert(0, first)?;
    Ok(all)
}

/// The loops of the reduction among the steps.
pub(crate) fn reducing<'a>(
    alloc: Global,
    over: &[Coordinate],
    steps: &[Step<'a>],
) -> Result<Vec<Step<'a>>, AllocError>
    ensures { IfOk result (λ all. map step_of all.items ≡ reducing (map coordinate_of over.now) (map step_of steps.now)) }
{
    match steps {
        [] => Ok(Vec::new(alloc)),
        [first, rest @ ..] => {
            let more = reducing(alloc, over, rest)?;
            if is_reducing(over, first) {
                behind(*first, more)
            } else {
                Ok(more)
            }
        }
    }
}

/// The other steps.
pub(crate) fn pure_steps<'a>(
    alloc: Global,
    over: &[Coordinate],
    steps: &[Step<'a>],
) -> Result<Vec<Step<'a>>, AllocError>
    ensures { IfOk result (λ all. map step_of all.items ≡ pure_steps (map coordinate_of over.now) (map step_of steps.now)) }
{
    match steps {
        [] => Ok(Vec::new(alloc)),
        [first, rest @ ..] => {
            let more = pure_steps(alloc, over, rest)?;
            if is_reducing(over, first) {
                Ok(more)
            } else {
                behind(*first, more)
            }
        }
    }
}

/// The list of one number.
fn number_alone(alloc: Global, value: i32) -> Result<Forms, AllocError>
    ensures { IfOk result (λ forms. forms ≡ number value ∷ []) }
{
    let mut forms = Forms::new(alloc);
    forms.push(Lin::number(alloc, i64::from(value)))?;
    Ok(forms)
}

/// From the first to the last number of the range.
fn range_span(alloc: Global, range: &Range) -> Result<Span1, AllocError>
    ensures { IfOk result (λ span. span ≡ range_span (range_of range.now)) }
{
    Ok(Span1 {
        lower: number_alone(alloc, range.low)?,
        upper: number_alone(alloc, range.high)?,
    })
}

/// Whether the span is shown to be that of the range.
fn is_whole<B: Bounds>(
    alloc: Global,
    bounds: &B,
    binders: &[Binder<'_>],
    span: &Span1,
    range: &Range,
) -> Result<bool, AllocError>
    ensures { IfOk result (λ yes. yes ≡ is_whole (B.rules bounds.now) (binders_of binders.now) span.now (range_of range.now)) }
{
    let whole = range_span(alloc, range)?;
    if bounds.is_within(alloc, binders, span, &whole)? {
        bounds.is_within(alloc, binders, &whole, span)
    } else {
        Ok(false)
    }
}

/// Whether the loops of a reduction, those whose symbols are among all its coordinates, are those of the coordinates `over`, the
/// last coordinate's first, and each is shown to run over its range.
fn are_whole<B: Bounds>(
    alloc: Global,
    bounds: &B,
    binders: &[Binder<'_>],
    all: &[Coordinate],
    steps: &[Step<'_>],
    over: &[Coordinate],
    ranges: &[Range],
) -> Result<bool, AllocError>
    ensures { IfOk result (λ yes. yes ≡ are_whole (B.rules bounds.now) (binders_of binders.now) (filter (is_among (map coordinate_of all.now)) (loops_in (map step_of steps.now))) (reverse (map coordinate_of over.now)) (reverse (ranges_of ranges.now))) }
{
    let [first, steps @ ..] = steps else {
        return Ok(over.is_empty() && ranges.is_empty());
    };
    let Step::Turns { symbol, span, .. } = first else {
        return are_whole(alloc, bounds, binders, all, steps, over, ranges);
    };
    if !is_among(*symbol, all) {
        return are_whole(alloc, bounds, binders, all, steps, over, ranges);
    }
    let [over @ .., one] = over else {
        return Ok(false);
    };
    let [ranges @ .., range] = ranges else {
        return Ok(false);
    };
    if is_symbol(*symbol, one) && is_whole(alloc, bounds, binders, span, range)? {
        are_whole(alloc, bounds, binders, all, steps, over, ranges)
    } else {
        Ok(false)
    }
}

/// Whether of the loops of a reduction that of the last variable is the outermost, and each is shown to run over its variable's
/// range. Without a domain there is no such nest.
pub(crate) fn is_reduced<B: Bounds>(
    alloc: Global,
    bounds: &B,
    binders: &[Binder<'_>],
    domain: Option<&[Range]>,
    over: &[Coordinate],
    steps: &[Step<'_>],
) -> Result<bool, AllocError>
    ensures { IfOk result (λ yes. yes ≡ is_reduced (B.rules bounds.now) (binders_of binders.now) (ranges_held domain.entry) (map coordinate_of over.now) (loops_in (map step_of steps.now))) }
{
    match domain {
        None => Ok(false),
        Some(ranges) => { are_whole(alloc, bounds, binders, over, steps, over, ranges) }
    }
}
