//! Tests of spans in a scope.

ghost use Rattle.std.specs.Prelude.{◌≡◌, ◌≢◌, ◌<◌, ◌-ℤ◌, ◌++◌, All, OnOk, pos, false, [], ◌∷◌, IfOk, MatchOption};
ghost use Rattle.std.specs.List.{list_all};
ghost use Rattle.numeric.specs.declared.ty.Ty.TheVariants.{I32 as Index};
ghost use Rattle.lin.specs.Forms.{is_within_limits};
ghost use Rattle.lin.specs.Regions.{span_inside};
ghost use Rattle.bounds.specs.Spans.{range_of};
ghost use Rattle.soundness.specs.Shown.{raised};
ghost use Rattle.rules.specs.Bounding.Seats.{seats, is_seated_in};

use crate::bounding::kept::Kept;
use crate::bounding::scope::one_form;
use lin::{Lin, Multiple, Span1};
use numeric::Ty;
use plan::Places;
use std::alloc::{AllocError, Global};

/// The largest constant of a form within the limits.
const LARGEST_CONSTANT: u128 = 1 << 40;

/// Whether each number of each span is shown to be one of another.
fn are_inside(
    alloc: Global,
    kept: &mut Kept,
    spans: &[Span1],
    outer: &Span1,
) -> Result<bool, AllocError>
    ensures same { OnOk result (kept.new ≡ kept.old) }
    ensures shown { IfOk result (λ yes. yes ≡ list_all (λ x. span_inside kept.old x outer.now) spans.now) }
{
    match spans {
        [] => Ok(true),
        [span, rest @ ..] => {
            if kept.is_inside(alloc, span, outer)? {
                are_inside(alloc, kept, rest, outer)
            } else {
                Ok(false)
            }
        }
    }
}

/// Whether each number of each span is shown to be an i32.
pub(crate) fn are_indices(
    alloc: Global,
    kept: &mut Kept,
    spans: &[Span1],
) -> Result<bool, AllocError>
    ensures same { OnOk result (kept.new ≡ kept.old) }
    ensures shown { IfOk result (λ yes. yes ≡ list_all (λ x. span_inside kept.old x (range_of Index)) spans.now) }
{
    let range = bounds::range(alloc, Ty::I32)?;
    are_inside(alloc, kept, spans, &range)
}

/// Adds a term behind the others.
fn push_term(form: &mut Lin, term: Multiple) -> Result<(), AllocError>
    requires rises { All (λ t. t.symbol < term.symbol) form.old.terms }
    requires factor { term.factor ≢ pos 0 }
    ensures { OnOk result (form.new ≡ record { constant = form.old.constant; terms = form.old.terms ++ term ∷ [] }) }
{
    form.push_term(term.symbol, term.factor)
}

/// The form with another constant.
fn with_constant(alloc: Global, form: &Lin, constant: i64) -> Result<Lin, AllocError>
    ensures { IfOk result (λ made. made ≡ record { constant = constant; terms = form.now.terms }) }
{
    let mut made = Lin::number(alloc, constant);
    for term in form.terms() {
        push_term(&mut made, *term)?;
    }
    Ok(made)
}

/// The constant of the form that is the last of so many numbers from an origin on. None where it is outside the limits.
fn last_constant(origin: &Lin, count: u64) -> Option<i64>
    ensures { MatchOption result (is_within_limits (raised origin.now (pos count -ℤ pos 1)) ≡ false) (λ z. z ≡ (raised origin.now (pos count -ℤ pos 1)).constant) }
{
    let last = i128::from(origin.constant()) + i128::from(count) - 1;
    if last.unsigned_abs() <= LARGEST_CONSTANT {
        Some(last as i64)
    } else {
        None
    }
}

/// The span from a form to the same form with another constant.
fn up_to(alloc: Global, form: &Lin, last: i64) -> Result<Span1, AllocError>
    ensures { IfOk result (λ span. span ≡ record { lower = form.now ∷ []; upper = record { constant = last; terms = form.now.terms } ∷ [] }) }
{
    Ok(Span1 {
        lower: one_form(alloc, form.copy(alloc)?)?,
        upper: one_form(alloc, with_constant(alloc, form, last)?)?,
    })
}

/// Whether each number of a span is shown to have one of so many places from an origin on.
fn is_between(
    alloc: Global,
    kept: &mut Kept,
    span: &Span1,
    origin: &Lin,
    count: u64,
) -> Result<bool, AllocError>
    ensures { IfOk result (λ yes. yes ≡ span_inside kept.old span.now (seats origin.now count)) }
{
    match last_constant(origin, count) {
        Some(last) => kept.is_inside(alloc, span, &up_to(alloc, origin, last)?),
        None => Ok(false),
    }
}

/// Whether each number of a span is shown to have a place.
pub(crate) fn is_seated(
    alloc: Global,
    kept: &mut Kept,
    span: &Span1,
    places: &Places,
) -> Result<bool, AllocError>
    ensures { IfOk result (λ yes. yes ≡ is_seated_in kept.old span.now places.now) }
{
    match places {
        Places::From { origin, count } => is_between(alloc, kept, span, origin, *count),
        Places::Folded { count } => Ok(0 < *count),
    }
}
