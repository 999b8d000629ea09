//! Guards that bound a span, or are shown.

ghost use Rattle.std.specs.Prelude.{◌≡◌, [], ◌∷◌, ◌++◌, false, IfOk};
ghost use Rattle.tails.specs.Moves.{bounded, first_some, last_under, under_guard};
ghost use Rattle.tails.specs.Held.{guard_spans, others_of, pending_of};

use crate::forms::combined;
use crate::pending::{Others, Pending};
use crate::shown::Shows;
use crate::spans::{Spans, before, copied};
use lin::{Lin, Span1};
use std::alloc::{AllocError, Global};

/// The last number, of those from a form on, at which the guard holds, if no other step binds a symbol of it.
fn last_under(
    alloc: Global,
    others: &Others<'_, '_>,
    low: &Lin,
    high: &Lin,
    first: &Lin,
) -> Result<Option<Lin>, AllocError>
    ensures { IfOk result (λ made. made ≡ last_under false (λ a b. false) (others_of others.now) low.now high.now first.now) }
{
    let Some(above) = combined(alloc, first, -1, low)? else {
        return Ok(None);
    };
    let Some(last) = combined(alloc, &above, 1, high)? else {
        return Ok(None);
    };
    if others.are_within(&last) {
        Ok(Some(last))
    } else {
        Ok(None)
    }
}

/// The same from the first of some forms from which on there is one.
fn first_last_under(
    alloc: Global,
    others: &Others<'_, '_>,
    low: &Lin,
    high: &Lin,
    forms: &[Lin],
) -> Result<Option<Lin>, AllocError>
    ensures { IfOk result (λ made. made ≡ first_some (last_under false (λ a b. false) (others_of others.now) low.now high.now) forms.now) }
{
    match forms {
        [] => Ok(None),
        [first, rest @ ..] => match last_under(alloc, others, low, high, first)? {
            Some(last) => Ok(Some(last)),
            None => first_last_under(alloc, others, low, high, rest),
        },
    }
}

/// The span with one more upper form.
fn with_upper(alloc: Global, span: &Span1, last: Lin) -> Result<Span1, AllocError>
    ensures { IfOk result (λ made. made ≡ record { lower = span.now.lower; upper = span.now.upper ++ last ∷ [] }) }
{
    let mut upper = span.upper.copy(alloc)?;
    upper.push(last)?;
    Ok(Span1 {
        lower: span.lower.copy(alloc)?,
        upper,
    })
}

/// The spans, of which the guard bounds one; None where it bounds none.
fn bounded(
    alloc: Global,
    others: &Others<'_, '_>,
    low: &Lin,
    high: &Lin,
    spans: &[Span1],
) -> Result<Option<Spans>, AllocError>
    ensures { IfOk result (λ made. made ≡ bounded false (λ a b. false) (others_of others.now) low.now high.now spans.now) }
{
    match spans {
        [] => Ok(None),
        [first, rest @ ..] => {
            match first_last_under(alloc, others, low, high, first.lower.as_slice())? {
                Some(last) => {
                    let first = with_upper(alloc, first, last)?;
                    Ok(Some(copied(alloc, rest)?.behind(first)?))
                }
                None => before(alloc, first, bounded(alloc, others, low, high, rest)?),
            }
        }
    }
}

/// The spans behind the guard: one that no other step has to do with is to be shown, any other bounds a span.
#[tactic(auto, using(crate::proofs::Alike::bounded_plain))]
fn under_guard<S: Shows>(
    alloc: Global,
    shows: &S,
    others: &Others<'_, '_>,
    low: &Lin,
    high: &Lin,
    spans: &[Span1],
) -> Result<Option<Spans>, AllocError>
    ensures { IfOk result (λ made. made ≡ under_guard false (S.shows shows.now) (others_of others.now) low.now high.now spans.now) }
{
    if !(others.are_within(low) && others.are_within(high)) {
        return bounded(alloc, others, low, high, spans);
    }
    if shows.is_shown(alloc, low, high)? {
        Ok(Some(copied(alloc, spans)?))
    } else {
        Ok(None)
    }
}

/// The spans behind the guard that the step is, if it is one. Where no number may be met twice it may fail.
pub(crate) fn guard_spans<S: Shows>(
    alloc: Global,
    exact: bool,
    shows: &S,
    spans: &[Span1],
    step: &Pending<'_>,
    others: &Others<'_, '_>,
) -> Result<Option<Spans>, AllocError>
    ensures { IfOk result (λ made. made ≡ guard_spans exact (S.shows shows.now) spans.now (pending_of step.now) (others_of others.now)) }
{
    match step {
        Pending::Passed { low, high } => {
            if exact {
                Ok(Some(copied(alloc, spans)?))
            } else {
                under_guard(alloc, shows, others, low, high, spans)
            }
        }
        Pending::Ranged { .. } | Pending::Picked { .. } => Ok(None),
    }
}
