//! Whether what a nest stores and the region that a buffer holds lie together within the buffer's places.

ghost use Rattle.std.specs.Prelude.{◌≡◌, ◌||◌, not, map, IfOk};
ghost use Rattle.std.specs.List.{list_any};
ghost use Rattle.soundness.specs.Binders.View.{binders_of};
ghost use Rattle.tails.specs.SplitMaps.{steps_of};
ghost use Rattle.tails.specs.Windows.Arms.{axis_holds, hold, is_asked, is_here, lie_from, one_less};

use crate::maps::{SplitMap, exactly};
use crate::stored::inner_binders;
use lin::{Lin, Span1};
use plan::Places;
use soundness::binders::{Binder, Bounds};
use std::alloc::{AllocError, Global};

/// Whether the span, and the form at all turns of the map's steps, are shown to lie within so many numbers from the origin on, which
/// is the same at all turns.
fn lie_from<B: Bounds>(
    alloc: Global,
    bounds: &B,
    binders: &[Binder<'_>],
    points: &SplitMap<'_>,
    span: &Span1,
    form: &Lin,
    origin: &Lin,
    count: u64,
) -> Result<bool, AllocError>
    ensures { IfOk result (λ yes. yes ≡ lie_from (B.rules bounds.now) (binders_of binders.now) (steps_of points.now) span.now form.now count origin.now) }
{
    if !points.is_around(alloc, origin)? {
        return Ok(false);
    }
    let places = Places::From {
        origin: origin.copy(alloc)?,
        count,
    };
    if !bounds.is_seated(alloc, binders, span, &places)? {
        return Ok(false);
    }
    let inner = inner_binders(alloc, binders, &points.steps)?;
    let stored = exactly(alloc, form)?;
    bounds.is_seated(alloc, &inner, &stored, &places)
}

/// Whether they are shown to lie so from one of the origins on.
fn lie_from_one<B: Bounds>(
    alloc: Global,
    bounds: &B,
    binders: &[Binder<'_>],
    points: &SplitMap<'_>,
    span: &Span1,
    form: &Lin,
    origins: &[Lin],
    count: u64,
) -> Result<bool, AllocError>
    ensures { IfOk result (λ yes. yes ≡ list_any (lie_from (B.rules bounds.now) (binders_of binders.now) (steps_of points.now) span.now form.now count) origins.now) }
{
    match origins {
        [] => Ok(false),
        [first, rest @ ..] => {
            if lie_from(alloc, bounds, binders, points, span, form, first, count)? {
                Ok(true)
            } else {
                lie_from_one(alloc, bounds, binders, points, span, form, rest, count)
            }
        }
    }
}

/// Whether they are shown to lie together within the places of a folded coordinate.
fn axis_holds<B: Bounds>(
    alloc: Global,
    bounds: &B,
    binders: &[Binder<'_>],
    points: &SplitMap<'_>,
    span: &Span1,
    form: &Lin,
    places: &Places,
) -> Result<bool, AllocError>
    ensures { IfOk result (λ yes. yes ≡ axis_holds (B.rules bounds.now) (binders_of binders.now) (steps_of points.now) span.now form.now places.now) }
{
    match places {
        Places::From { .. } => Ok(true),
        Places::Folded { count } => lie_from_one(
            alloc,
            bounds,
            binders,
            points,
            span,
            form,
            span.lower.as_slice(),
            *count,
        ),
    }
}

/// Whether they are, if that is asked.
fn axis_holds_if<B: Bounds>(
    alloc: Global,
    bounds: &B,
    binders: &[Binder<'_>],
    points: &SplitMap<'_>,
    asked: bool,
    span: &Span1,
    form: &Lin,
    places: &Places,
) -> Result<bool, AllocError>
    ensures { IfOk result (λ yes. yes ≡ (not asked || axis_holds (B.rules bounds.now) (binders_of binders.now) (steps_of points.now) span.now form.now places.now)) }
{
    if asked {
        axis_holds(alloc, bounds, binders, points, span, form, places)
    } else {
        Ok(true)
    }
}

/// How many dimensions stand before one, of those behind the first; None where it is the first or none of them.
fn one_less(dimension: Option<u64>) -> Option<u64>
    ensures { result ≡ one_less dimension }
{
    match dimension {
        Some(count) => count.checked_sub(1),
        None => None,
    }
}

/// Whether the dimension stands first.
fn is_here(dimension: Option<u64>) -> bool
    ensures { result ≡ is_here dimension }
{
    match dimension {
        Some(count) => count == 0,
        None => false,
    }
}

/// Whether the first dimension is asked of: the one that so many stand before alone, or all others.
fn is_asked(alone: bool, dimension: Option<u64>) -> bool
    ensures { result ≡ is_asked alone dimension }
{
    if alone {
        is_here(dimension)
    } else {
        !is_here(dimension)
    }
}

/// Whether in the dimension that so many stand before, or in all others, the region's span and what is stored there lie together
/// within the places.
pub(crate) fn hold<B: Bounds>(
    alloc: Global,
    bounds: &B,
    binders: &[Binder<'_>],
    points: &SplitMap<'_>,
    alone: bool,
    dimension: Option<u64>,
    spans: &[Span1],
    forms: &[&Lin],
    places: &[Places],
) -> Result<bool, AllocError>
    ensures { IfOk result (λ yes. yes ≡ hold (B.rules bounds.now) (binders_of binders.now) alone dimension (steps_of points.now) spans.now (map (λ f. f.now) forms.now) places.now) }
{
    match (spans, forms, places) {
        ([], [], []) => Ok(true),
        ([], [], [_, ..]) => Ok(false),
        ([], [_, ..], _) => Ok(false),
        ([_, ..], [], _) => Ok(false),
        ([_, ..], [_, ..], []) => Ok(false),
        ([span, spans @ ..], [form, forms @ ..], [one, places @ ..]) => {
            let asked = is_asked(alone, dimension);
            if axis_holds_if(alloc, bounds, binders, points, asked, span, form, one)? {
                let less = one_less(dimension);
                hold(
                    alloc, bounds, binders, points, alone, less, spans, forms, places,
                )
            } else {
                Ok(false)
            }
        }
    }
}
