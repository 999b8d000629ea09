//! Loops that run over a claim's region.

ghost use Rattle.std.specs.Prelude.{◌≡◌, ◌==◌, ◌&&◌, ◌||◌, length, IfOk, MatchOption, None, Some};
ghost use Rattle.std.specs.List.{list_all};
ghost use Rattle.soundness.specs.Shown.{are_within};
ghost use Rattle.soundness.specs.Binders.View.{binders_of};
ghost use Rattle.soundness.specs.Nests.Tests.{is_among, runs_over, span_at};
ghost use Rattle.rules.specs.Nests.View.{coordinates_of, loop_of, loops_of};

use crate::nests::at::At;
use crate::nests::lines::PlainLoop;
use crate::nests::matching::{is_among, is_symbol};
use lin::{Span1, Sym};
use plan::Coordinate;
use soundness::binders::Bounds;
use std::alloc::AllocError;

/// The region's span at the coordinate that is the symbol.
fn span_at<'a>(symbol: Sym, coordinates: &[Coordinate], region: &'a [Span1]) -> Option<&'a Span1>
    ensures { MatchOption result (span_at symbol (coordinates_of coordinates.now) region.now ≡ None) (λ x. span_at symbol (coordinates_of coordinates.now) region.now ≡ Some x.now) }
{
    match (coordinates, region) {
        ([], _) => None,
        (_, []) => None,
        ([first, coordinates @ ..], [span, region @ ..]) => {
            if is_symbol(symbol, first) {
                Some(span)
            } else {
                span_at(symbol, coordinates, region)
            }
        }
    }
}

/// Whether the region's span at the loop's coordinate is shown to lie in the loop's span.
fn runs_over<B: Bounds>(
    at: &At<'_, B>,
    left: &[Coordinate],
    region: &[Span1],
    turns: &PlainLoop<'_>,
) -> Result<bool, AllocError>
    ensures { IfOk result (λ yes. yes ≡ runs_over (B.rules at.now.bounds.now) (binders_of at.now.binders.now) (coordinates_of left.now) region.now (loop_of turns.now)) }
{
    match span_at(turns.symbol, left, region) {
        None => Ok(false),
        Some(span) => at.bounds.is_within(at.alloc, at.binders, span, turns.span),
    }
}

/// Whether each loop, but those whose symbols are among the coordinates `over`, is shown to run over the region's span at its
/// coordinate.
pub(crate) fn others_run_over<B: Bounds>(
    at: &At<'_, B>,
    left: &[Coordinate],
    region: &[Span1],
    over: &[Coordinate],
    loops: &[PlainLoop<'_>],
) -> Result<bool, AllocError>
    ensures { IfOk result (λ yes. yes ≡ list_all (λ l. is_among (coordinates_of over.now) l || runs_over (B.rules at.now.bounds.now) (binders_of at.now.binders.now) (coordinates_of left.now) region.now l) (loops_of loops.now)) }
{
    match loops {
        [] => Ok(true),
        [first, rest @ ..] => {
            if is_among(over, first) || runs_over(at, left, region, first)? {
                others_run_over(at, left, region, over, rest)
            } else {
                Ok(false)
            }
        }
    }
}

/// Whether each loop is shown to run over the region's span at its coordinate.
pub(crate) fn all_run_over<B: Bounds>(
    at: &At<'_, B>,
    left: &[Coordinate],
    region: &[Span1],
    loops: &[PlainLoop<'_>],
) -> Result<bool, AllocError>
    ensures { IfOk result (λ yes. yes ≡ list_all (runs_over (B.rules at.now.bounds.now) (binders_of at.now.binders.now) (coordinates_of left.now) region.now) (loops_of loops.now)) }
{
    match loops {
        [] => Ok(true),
        [first, rest @ ..] => {
            if runs_over(at, left, region, first)? {
                all_run_over(at, left, region, rest)
            } else {
                Ok(false)
            }
        }
    }
}

/// Whether each span is shown to lie in that of the same number, and there are as many of the one as of the other.
pub(crate) fn are_within<B: Bounds>(
    at: &At<'_, B>,
    inner: &[Span1],
    outer: &[Span1],
) -> Result<bool, AllocError>
    ensures { IfOk result (λ yes. yes ≡ are_within (B.rules at.now.bounds.now) (binders_of at.now.binders.now) inner.now outer.now) }
{
    match (inner, outer) {
        ([], []) => Ok(true),
        ([], [_, ..]) => Ok(false),
        ([_, ..], []) => Ok(false),
        ([first, inner @ ..], [second, outer @ ..]) => {
            if at.bounds.is_within(at.alloc, at.binders, first, second)? {
                are_within(at, inner, outer)
            } else {
                Ok(false)
            }
        }
    }
}
