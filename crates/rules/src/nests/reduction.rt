//! The loops of an update's reduction variables.

ghost use Rattle.std.specs.Prelude.{◌≡◌, [], ◌∷◌, filter, reverse, IfOk};
ghost use Rattle.lin.specs.Forms.{number};
ghost use Rattle.algo.specs.Parts.{range_of};
ghost use Rattle.soundness.specs.Binders.View.{binders_of};
ghost use Rattle.soundness.specs.Nests.Tests.{are_whole, is_among, is_reduced, is_whole, range_span};
ghost use Rattle.rules.specs.Nests.View.{coordinates_of, loops_of, ranges_held, ranges_of};

use crate::nests::at::At;
use crate::nests::lines::PlainLoop;
use crate::nests::matching::{is_among, is_symbol};
use algo::Range;
use lin::{Forms, Lin, Span1};
use plan::Coordinate;
use soundness::binders::Bounds;
use std::alloc::{AllocError, Global};

/// The list of one number.
fn number_alone(alloc: Global, value: i32) -> Result<Forms, AllocError>
    ensures { IfOk result (λ forms. forms ≡ number value ∷ []) }
{
    let mut forms = Forms::new(alloc);
    forms.push(Lin::number(alloc, i64::from(value)))?;
    Ok(forms)
}

/// From the first to the last number of the range.
fn range_span(alloc: Global, range: &Range) -> Result<Span1, AllocError>
    ensures { IfOk result (λ span. span ≡ range_span (range_of range.now)) }
{
    Ok(Span1 {
        lower: number_alone(alloc, range.low)?,
        upper: number_alone(alloc, range.high)?,
    })
}

/// Whether the span is shown to be that of the range.
fn is_whole<B: Bounds>(at: &At<'_, B>, span: &Span1, range: &Range) -> Result<bool, AllocError>
    ensures { IfOk result (λ yes. yes ≡ is_whole (B.rules at.now.bounds.now) (binders_of at.now.binders.now) span.now (range_of range.now)) }
{
    let whole = range_span(at.alloc, range)?;
    if at.bounds.is_within(at.alloc, at.binders, span, &whole)? {
        at.bounds.is_within(at.alloc, at.binders, &whole, span)
    } else {
        Ok(false)
    }
}

/// Whether the loops of a reduction, those whose symbols are among all its coordinates, are those of the coordinates `over`, the
/// last coordinate's first, and each is shown to run over its range.
fn are_whole<B: Bounds>(
    at: &At<'_, B>,
    all: &[Coordinate],
    loops: &[PlainLoop<'_>],
    over: &[Coordinate],
    ranges: &[Range],
) -> Result<bool, AllocError>
    ensures { IfOk result (λ yes. yes ≡ are_whole (B.rules at.now.bounds.now) (binders_of at.now.binders.now) (filter (is_among (coordinates_of all.now)) (loops_of loops.now)) (reverse (coordinates_of over.now)) (reverse (ranges_of ranges.now))) }
{
    let [first, loops @ ..] = loops else {
        return Ok(over.is_empty() && ranges.is_empty());
    };
    if !is_among(all, first) {
        return are_whole(at, all, loops, over, ranges);
    }
    let [over @ .., one] = over else {
        return Ok(false);
    };
    let [ranges @ .., range] = ranges else {
        return Ok(false);
    };
    if is_symbol(first.symbol, one) && is_whole(at, first.span, range)? {
        are_whole(at, all, loops, over, ranges)
    } else {
        Ok(false)
    }
}

/// Whether of the loops of a reduction that of the last variable is the outermost, and each is shown to run over its variable's
/// range. Without a domain there is no such nest.
pub(crate) fn is_reduced<B: Bounds>(
    at: &At<'_, B>,
    domain: Option<&[Range]>,
    over: &[Coordinate],
    loops: &[PlainLoop<'_>],
) -> Result<bool, AllocError>
    ensures { IfOk result (λ yes. yes ≡ is_reduced (B.rules at.now.bounds.now) (binders_of at.now.binders.now) (ranges_held domain.entry) (coordinates_of over.now) (loops_of loops.now)) }
{
    match domain {
        None => Ok(false),
        Some(ranges) => { are_whole(at, over, loops, over, ranges) }
    }
}
