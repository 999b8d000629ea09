//! Folded buffers: as many places as numbers.

ghost use Rattle.std.specs.Prelude.{◌≡◌, ◌&&◌, IfOk};
ghost use Rattle.std.specs.List.{list_any};
ghost use Rattle.plan.specs.declared.stmt.Places.TheVariants.{From};
ghost use Rattle.soundness.specs.Shown.{is_seated};
ghost use Rattle.plan.specs.View.{coordinate_of};
ghost use Rattle.soundness.specs.Binders.View.{binders_of};
ghost use Rattle.soundness.specs.Nests.Nest.{is_symbol};
ghost use Rattle.soundness.specs.Nests.Tests.{fits_fold, fold_holds, is_short, loops_hold};
ghost use Rattle.rules.specs.Nests.View.{coordinates_of, loops_of};

use crate::nests::at::At;
use crate::nests::lines::PlainLoop;
use crate::nests::matching::is_symbol;
use lin::{Lin, Span1};
use plan::{Coordinate, Places};
use soundness::binders::Bounds;
use std::alloc::AllocError;

/// Whether from one of the forms on so many places are shown to hold the span.
fn is_short_from<B: Bounds>(
    at: &At<'_, B>,
    span: &Span1,
    count: u64,
    forms: &[Lin],
) -> Result<bool, AllocError>
    ensures { IfOk result (λ yes. yes ≡ list_any (λ l. is_seated (B.rules at.now.bounds.now) (binders_of at.now.binders.now) span.now (From l count)) forms.now) }
{
    match forms {
        [] => Ok(false),
        [first, rest @ ..] => {
            let origin = first.copy(at.alloc)?;
            if at.bounds.is_seated(at.alloc, at.binders, span, &Places::From { origin, count })? {
                Ok(true)
            } else {
                is_short_from(at, span, count, rest)
            }
        }
    }
}

/// Whether a span has at most as many numbers as places, where its coordinate is folded.
fn fits_fold<B: Bounds>(at: &At<'_, B>, span: &Span1, places: &Places) -> Result<bool, AllocError>
    ensures { IfOk result (λ yes. yes ≡ fits_fold (B.rules at.now.bounds.now) (binders_of at.now.binders.now) span.now places.now) }
{
    match places {
        Places::From { .. } => Ok(true),
        Places::Folded { count } => is_short_from(at, span, *count, span.lower.as_slice()),
    }
}

/// Whether each span has at most as many numbers as places, where its coordinate is folded.
pub(crate) fn fold_holds<B: Bounds>(
    at: &At<'_, B>,
    region: &[Span1],
    places: &[Places],
) -> Result<bool, AllocError>
    ensures { IfOk result (λ yes. yes ≡ fold_holds (B.rules at.now.bounds.now) (binders_of at.now.binders.now) region.now places.now) }
{
    match (region, places) {
        ([], _) => Ok(true),
        (_, []) => Ok(true),
        ([span, region @ ..], [one, places @ ..]) => {
            if fits_fold(at, span, one)? {
                fold_holds(at, region, places)
            } else {
                Ok(false)
            }
        }
    }
}

/// Whether a loop whose symbol the coordinate is has at most as many turns as places, where the coordinate is folded.
fn loop_holds<B: Bounds>(
    at: &At<'_, B>,
    loops: &[PlainLoop<'_>],
    coordinate: &Coordinate,
    places: &Places,
) -> Result<bool, AllocError>
    ensures { IfOk result (λ yes. yes ≡ list_any (λ l. is_symbol l.symbol (coordinate_of coordinate.now) && fits_fold (B.rules at.now.bounds.now) (binders_of at.now.binders.now) l.span places.now) (loops_of loops.now)) }
{
    match loops {
        [] => Ok(false),
        [first, rest @ ..] => {
            if is_symbol(first.symbol, coordinate) && fits_fold(at, first.span, places)? {
                Ok(true)
            } else {
                loop_holds(at, rest, coordinate, places)
            }
        }
    }
}

/// Whether for each coordinate a loop whose symbol it is has at most as many turns as places, where the coordinate is folded.
pub(crate) fn loops_hold<B: Bounds>(
    at: &At<'_, B>,
    loops: &[PlainLoop<'_>],
    coordinates: &[Coordinate],
    places: &[Places],
) -> Result<bool, AllocError>
    ensures { IfOk result (λ yes. yes ≡ loops_hold (B.rules at.now.bounds.now) (binders_of at.now.binders.now) (loops_of loops.now) (coordinates_of coordinates.now) places.now) }
{
    match (coordinates, places) {
        ([], _) => Ok(true),
        (_, []) => Ok(true),
        ([first, coordinates @ ..], [one, places @ ..]) => {
            if loop_holds(at, loops, first, one)? {
                loops_hold(at, loops, coordinates, places)
            } else {
                Ok(false)
            }
        }
    }
}
