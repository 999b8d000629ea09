//! Whether forms are shown to be small numbers.

ghost use Rattle.std.specs.Prelude.{◌≡◌, ◌&&◌, IfOk};
ghost use Rattle.std.specs.List.{list_all};
ghost use Rattle.soundness.specs.Obligations.{exactly};
ghost use Rattle.soundness.specs.Shown.{is_within};
ghost use Rattle.plan.specs.View.{index_of};
ghost use Rattle.soundness.specs.Binders.View.{binders_of};
ghost use Rattle.rules.specs.Widths.Widths.{alone, are_near_places, from_to, is_i32, is_near, is_near_form, is_near_span};

use lin::{Forms, Lin, Span1, Sym};
use plan::{Coordinate, Index, Places};
use soundness::binders::{Binder, Bounds};
use std::alloc::{AllocError, Global};

/// The span from one number to another.
fn from_to(alloc: Global, low: i64, high: i64) -> Result<Span1, AllocError>
    ensures { IfOk result (λ span. span ≡ from_to low high) }
{
    let mut lower = Forms::new(alloc);
    lower.push(Lin::number(alloc, low))?;
    let mut upper = Forms::new(alloc);
    upper.push(Lin::number(alloc, high))?;
    Ok(Span1 { lower, upper })
}

/// The span of one number.
fn exactly(alloc: Global, form: &Lin) -> Result<Span1, AllocError>
    ensures { IfOk result (λ span. span ≡ exactly form.now) }
{
    let mut lower = Forms::new(alloc);
    lower.push(form.copy(alloc)?)?;
    let mut upper = Forms::new(alloc);
    upper.push(form.copy(alloc)?)?;
    Ok(Span1 { lower, upper })
}

/// Whether the symbol is shown to be at most 2^39 from 0.
fn is_near<B: Bounds>(
    alloc: Global,
    bounds: &B,
    binders: &[Binder<'_>],
    symbol: Sym,
) -> Result<bool, AllocError>
    ensures { IfOk result (λ yes. yes ≡ is_near (B.rules bounds.now) (binders_of binders.now) symbol) }
{
    let form = Lin::symbol(alloc, symbol)?;
    let span = exactly(alloc, &form)?;
    let outer = from_to(alloc, -(1 << 39), 1 << 39)?;
    bounds.is_within(alloc, binders, &span, &outer)
}

/// Whether each symbol of the form is shown to be near.
fn is_near_form<B: Bounds>(
    alloc: Global,
    bounds: &B,
    binders: &[Binder<'_>],
    form: &Lin,
) -> Result<bool, AllocError>
    ensures { IfOk result (λ yes. yes ≡ is_near_form (B.rules bounds.now) (binders_of binders.now) form.now) }
{
    for term in form.terms() {
        if !is_near(alloc, bounds, binders, term.symbol)? {
            return Ok(false);
        }
    }
    Ok(true)
}

/// Whether each symbol of the forms is shown to be near.
pub(crate) fn are_near_forms<B: Bounds>(
    alloc: Global,
    bounds: &B,
    binders: &[Binder<'_>],
    forms: &[Lin],
) -> Result<bool, AllocError>
    ensures { IfOk result (λ yes. yes ≡ list_all (is_near_form (B.rules bounds.now) (binders_of binders.now)) forms.now) }
{
    for form in forms {
        if !is_near_form(alloc, bounds, binders, form)? {
            return Ok(false);
        }
    }
    Ok(true)
}

/// Whether each symbol of both forms of a guard is shown to be near.
pub(crate) fn is_near_guard<B: Bounds>(
    alloc: Global,
    bounds: &B,
    binders: &[Binder<'_>],
    low: &Lin,
    high: &Lin,
) -> Result<bool, AllocError>
    ensures { IfOk result (λ yes. yes ≡ (is_near_form (B.rules bounds.now) (binders_of binders.now) low.now && is_near_form (B.rules bounds.now) (binders_of binders.now) high.now)) }
{
    if is_near_form(alloc, bounds, binders, low)? {
        is_near_form(alloc, bounds, binders, high)
    } else {
        Ok(false)
    }
}

/// Whether each symbol of the span is shown to be near.
pub(crate) fn is_near_span<B: Bounds>(
    alloc: Global,
    bounds: &B,
    binders: &[Binder<'_>],
    span: &Span1,
) -> Result<bool, AllocError>
    ensures { IfOk result (λ yes. yes ≡ is_near_span (B.rules bounds.now) (binders_of binders.now) span.now) }
{
    if are_near_forms(alloc, bounds, binders, span.lower.as_slice())? {
        are_near_forms(alloc, bounds, binders, span.upper.as_slice())
    } else {
        Ok(false)
    }
}

/// Whether each symbol of the spans is shown to be near.
pub(crate) fn are_near_spans<B: Bounds>(
    alloc: Global,
    bounds: &B,
    binders: &[Binder<'_>],
    spans: &[Span1],
) -> Result<bool, AllocError>
    ensures { IfOk result (λ yes. yes ≡ list_all (is_near_span (B.rules bounds.now) (binders_of binders.now)) spans.now) }
{
    for span in spans {
        if !is_near_span(alloc, bounds, binders, span)? {
            return Ok(false);
        }
    }
    Ok(true)
}

/// Whether each symbol of the places of one coordinate is shown to be near.
fn is_near_place<B: Bounds>(
    alloc: Global,
    bounds: &B,
    binders: &[Binder<'_>],
    places: &Places,
) -> Result<bool, AllocError>
    ensures { IfOk result (λ yes. yes ≡ are_near_places (B.rules bounds.now) (binders_of binders.now) places.now) }
{
    match places {
        Places::From { origin, .. } => is_near_form(alloc, bounds, binders, origin),
        Places::Folded { .. } => Ok(true),
    }
}

/// Whether each symbol of the places is shown to be near.
pub(crate) fn are_near_places<B: Bounds>(
    alloc: Global,
    bounds: &B,
    binders: &[Binder<'_>],
    places: &[Places],
) -> Result<bool, AllocError>
    ensures { IfOk result (λ yes. yes ≡ list_all (are_near_places (B.rules bounds.now) (binders_of binders.now)) places.now) }
{
    for one in places {
        if !is_near_place(alloc, bounds, binders, one)? {
            return Ok(false);
        }
    }
    Ok(true)
}

/// Whether a coordinate that is a form is shown to be an i32.
fn is_i32<B: Bounds>(
    alloc: Global,
    bounds: &B,
    binders: &[Binder<'_>],
    index: &Index,
) -> Result<bool, AllocError>
    ensures { IfOk result (λ yes. yes ≡ is_i32 (B.rules bounds.now) (binders_of binders.now) (index_of index.now)) }
{
    match index {
        Index::Form(form) => {
            let span = exactly(alloc, form)?;
            let outer = from_to(alloc, i64::from(i32::MIN), i64::from(i32::MAX))?;
            bounds.is_within(alloc, binders, &span, &outer)
        }
        Index::Found(_) => Ok(true),
    }
}

/// Whether all coordinates that are forms are shown to be i32.
pub(crate) fn are_i32<B: Bounds>(
    alloc: Global,
    bounds: &B,
    binders: &[Binder<'_>],
    coordinates: &[Coordinate],
) -> Result<bool, AllocError>
    ensures { IfOk result (λ yes. yes ≡ list_all (λ c. is_i32 (B.rules bounds.now) (binders_of binders.now) (index_of c.index)) coordinates.now) }
{
    for coordinate in coordinates {
        if !is_i32(alloc, bounds, binders, &coordinate.index)? {
            return Ok(false);
        }
    }
    Ok(true)
}
