//! Whether the points of split loops rise, from the innermost step outwards.

ghost use Rattle.std.specs.Prelude.{◌≡◌, ◌+ℤ◌, if◌then◌else◌, int_le, pos, map, IfOk, None};
ghost use Rattle.std.specs.List.{list_all, list_any};
ghost use Rattle.tails.specs.Order.{before_step, is_in_order, is_led, is_short, is_short_from, is_still, moves_on, span_over, spans_between, spans_rising};
ghost use Rattle.tails.specs.Steps.{Named};
ghost use Rattle.tails.specs.View.{step_of};

use crate::choosing::is_single;
use crate::descent::Step;
use crate::forms::expanded;
use crate::maps::each_exactly;
use crate::spans::{Spans, copied};
use crate::turns::have_same_terms;
use lin::{Lin, Span1, Sym};
use plan::Pick;
use soundness::binders::symbols::span_has;
use std::alloc::{AllocError, Global};

/// Whether a number is less than so far above another.
fn is_nearer(last: i64, first: i64, far: i64) -> bool
    ensures { result ≡ int_le (last +ℤ pos 1) (first +ℤ far) }
{
    i128::from(last) + 1 <= i128::from(first) + i128::from(far)
}

/// Whether the upper form is above the lower one by less than a turn of the symbol moves that.
fn is_short(symbol: Sym, lower: &Lin, upper: &Lin) -> bool
    ensures { result ≡ is_short symbol lower.now upper.now }
{
    have_same_terms(upper.terms(), lower.terms())
        && is_nearer(upper.constant(), lower.constant(), lower.factor(symbol))
}

/// Whether some upper form is.
fn some_is_short(symbol: Sym, lower: &Lin, upper: &[Lin]) -> bool
    ensures { result ≡ list_any (is_short symbol lower.now) upper.now }
{
    upper.iter().any(|form| is_short(symbol, lower, form))
}

/// Whether the symbol moves the lower form up, and some upper form is above it by less.
fn is_short_from(symbol: Sym, upper: &[Lin], lower: &Lin) -> bool
    ensures { result ≡ is_short_from symbol upper.now lower.now }
{
    lower.factor(symbol) >= 1 && some_is_short(symbol, lower, upper)
}

/// Whether all numbers of a later turn are above those of an earlier one.
fn moves_on(symbol: Sym, span: &Span1) -> bool
    ensures { result ≡ moves_on symbol span.now }
{
    let upper = span.upper.as_slice();
    span.lower
        .as_slice()
        .iter()
        .any(|form| is_short_from(symbol, upper, form))
}

/// Whether the coordinate is one number, whatever the symbol is.
fn is_still(symbol: Sym, span: &Span1) -> bool
    ensures { result ≡ is_still symbol span.now }
{
    is_single(span.lower.as_slice(), span.upper.as_slice()) && !span_has(symbol, span)
}

/// Whether each coordinate is.
fn are_still(symbol: Sym, spans: &[Span1]) -> bool
    ensures { result ≡ list_all (is_still symbol) spans.now }
{
    spans.iter().all(|span| is_still(symbol, span))
}

/// Whether the last coordinate that is not still moves on.
fn is_led(symbol: Sym, spans: &[Span1]) -> bool
    ensures { result ≡ is_led symbol spans.now }
{
    match spans {
        [] => false,
        [first, rest @ ..] => {
            is_led(symbol, rest) || (are_still(symbol, rest) && moves_on(symbol, first))
        }
    }
}

/// Whether no point of a later turn is before one of an earlier turn.
fn is_in_order(symbol: Sym, turns: &Span1, spans: &[Span1]) -> bool
    ensures { result ≡ is_in_order symbol turns.now spans.now }
{
    is_single(turns.lower.as_slice(), turns.upper.as_slice())
        || (are_still(symbol, spans) || is_led(symbol, spans))
}

/// Between which numbers a coordinate is, where the symbol is at least each of some forms and at most each of others. None where its
/// factor is not positive, or a form leaves the limits.
fn span_over(
    alloc: Global,
    symbol: Sym,
    lower: &[Lin],
    upper: &[Lin],
    span: &Span1,
) -> Result<Option<Span1>, AllocError>
    ensures { IfOk result (λ made. made ≡ span_over symbol lower.now upper.now span.now) }
{
    let Some(lower) = expanded(alloc, symbol, lower, span.lower.as_slice())? else {
        return Ok(None);
    };
    match expanded(alloc, symbol, upper, span.upper.as_slice())? {
        Some(upper) => Ok(Some(Span1 { lower, upper })),
        None => Ok(None),
    }
}

/// The same of each coordinate.
fn spans_between(
    alloc: Global,
    symbol: Sym,
    lower: &[Lin],
    upper: &[Lin],
    spans: &[Span1],
) -> Result<Option<Spans>, AllocError>
    ensures { IfOk result (λ made. made ≡ spans_between symbol lower.now upper.now spans.now) }
{
    match spans {
        [] => Ok(Some(Spans::new(alloc))),
        [first, rest @ ..] => {
            let Some(span) = span_over(alloc, symbol, lower, upper, first)? else {
                return Ok(None);
            };
            match spans_between(alloc, symbol, lower, upper, rest)? {
                Some(more) => Ok(Some(more.behind(span)?)),
                None => Ok(None),
            }
        }
    }
}

/// Between which numbers the coordinates are over all turns of the loop, if its points rise.
fn before_loop(
    alloc: Global,
    symbol: Sym,
    turns: &Span1,
    spans: &[Span1],
) -> Result<Option<Spans>, AllocError>
    ensures { IfOk result (λ made. made ≡ if is_in_order symbol turns.now spans.now then spans_between symbol turns.now.lower turns.now.upper spans.now else None) }
{
    if !is_in_order(symbol, turns, spans) {
        return Ok(None);
    }
    spans_between(
        alloc,
        symbol,
        turns.lower.as_slice(),
        turns.upper.as_slice(),
        spans,
    )
}

/// Between which numbers the coordinates are where the name is the smallest or largest of the forms.
fn before_name(
    alloc: Global,
    symbol: Sym,
    pick: Pick,
    forms: &[Lin],
    spans: &[Span1],
) -> Result<Option<Spans>, AllocError>
    ensures { IfOk result (λ made. made ≡ before_step (Named symbol pick forms.now) spans.now) }
{
    match pick {
        Pick::Min => spans_between(alloc, symbol, &[], forms, spans),
        Pick::Max => spans_between(alloc, symbol, forms, &[], spans),
    }
}

/// Between which numbers the coordinates are over all turns of the step, if its points rise where those of each turn do.
fn before_step(alloc: Global, step: &Step<'_>, spans: &[Span1]) -> Result<Option<Spans>, AllocError>
    ensures { IfOk result (λ made. made ≡ before_step (step_of step.now) spans.now) }
{
    match step {
        Step::Turns { symbol, span, .. } => before_loop(alloc, *symbol, span, spans),
        Step::Named {
            symbol,
            pick,
            forms,
        } => before_name(alloc, *symbol, *pick, forms.as_slice(), spans),
        Step::Tested { .. } => Ok(Some(copied(alloc, spans)?)),
    }
}

/// Between which numbers the coordinates are over all turns of the steps. None where it is not shown that their points rise.
pub(crate) fn spans_rising(
    alloc: Global,
    steps: &[Step<'_>],
    forms: &[&Lin],
) -> Result<Option<Spans>, AllocError>
    ensures { IfOk result (λ made. made ≡ spans_rising (map step_of steps.now) (map (λ f. f.now) forms.now)) }
{
    match steps {
        [] => Ok(Some(each_exactly(alloc, forms)?)),
        [first, rest @ ..] => match spans_rising(alloc, rest, forms)? {
            Some(spans) => before_step(alloc, first, spans.as_slice()),
            None => Ok(None),
        },
    }
}
