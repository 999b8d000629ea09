//! Claims that are made along a window: all of the region in the first turn of a loop, the new rows in each later one.

ghost use Rattle.std.specs.Prelude.{◌≡◌, IfOk};
ghost use Rattle.std.specs.List.{list_all};
ghost use Rattle.plan.specs.View.{statement_of};
ghost use Rattle.plan.specs.Certificate.Certificate.{claim_of};
ghost use Rattle.soundness.specs.Binders.View.{binders_of};
ghost use Rattle.soundness.specs.Outline.View.{outline_in};
ghost use Rattle.tails.specs.SplitMaps.{stored_of};
ghost use Rattle.tails.specs.Windows.Arms.{arm, is_slid, makes_all, makes_new, others_stay, reaches_above, reaches_new};

use crate::maps::SplitMap;
use crate::stored::{has_places, stored_by};
use crate::windows::holding::hold;
use crate::windows::rows::{region_with, row_above, rows_from};
use lin::{Lin, Span1, Sym};
use plan::certificate::Claim;
use plan::{Places, Stmt, certificate};
use soundness::binders::{Binder, Bounds};
use soundness::outline::Outlined;
use std::alloc::{AllocError, Global};

/// Whether the points have places, and in all dimensions but one what is stored leaves those of the region alone.
fn others_stay<B: Bounds>(
    alloc: Global,
    bounds: &B,
    binders: &[Binder<'_>],
    region: &[Span1],
    places: &[Places],
    dimension: u64,
    points: &SplitMap<'_>,
) -> Result<bool, AllocError>
    ensures { IfOk result (λ yes. yes ≡ others_stay (B.rules bounds.now) (binders_of binders.now) region.now places.now dimension (stored_of points.now)) }
{
    if !has_places(alloc, true, bounds, binders, points, places)? {
        return Ok(false);
    }
    if !points.is_scoped(alloc)? {
        return Ok(false);
    }
    hold(
        alloc,
        bounds,
        binders,
        points,
        false,
        Some(dimension),
        region,
        &points.forms,
        places,
    )
}

/// Whether the statement makes the claim's region, and in all dimensions but one leaves its places alone.
pub(crate) fn makes_all<B: Bounds>(
    alloc: Global,
    bounds: &B,
    outlined: &Outlined<'_>,
    binders: &[Binder<'_>],
    claim: &Claim,
    places: &[Places],
    dimension: u64,
    by: &Stmt,
) -> Result<bool, AllocError>
    ensures { IfOk result (λ yes. yes ≡ makes_all (B.rules bounds.now) (binders_of binders.now) claim.now.region places.now dimension (arm (outline_in outlined.now).setting (claim_of claim.now) (statement_of by.now))) }
{
    match stored_by(alloc, outlined, claim, by)? {
        Some(points) => {
            let region = claim.region.as_slice();
            if others_stay(alloc, bounds, binders, region, places, dimension, &points)? {
                points.covers(alloc, bounds, binders, region)
            } else {
                Ok(false)
            }
        }
        None => Ok(false),
    }
}

/// Whether the map reaches the region's rows above where the form was in the turn before.
fn reaches_above<B: Bounds>(
    alloc: Global,
    bounds: &B,
    binders: &[Binder<'_>],
    region: &[Span1],
    symbol: Sym,
    dimension: u64,
    span: &Span1,
    points: &SplitMap<'_>,
    last: &Lin,
) -> Result<bool, AllocError>
    ensures { IfOk result (λ yes. yes ≡ reaches_above (B.rules bounds.now) (binders_of binders.now) region.now symbol dimension span.now (stored_of points.now) last.now) }
{
    match row_above(alloc, symbol, last)? {
        Some(from) => {
            let rows = rows_from(alloc, span, from)?;
            let new = region_with(alloc, dimension, region, rows)?;
            points.covers(alloc, bounds, binders, new.as_slice())
        }
        None => Ok(false),
    }
}

/// Whether it does so of each of the forms.
fn reaches_each<B: Bounds>(
    alloc: Global,
    bounds: &B,
    binders: &[Binder<'_>],
    region: &[Span1],
    symbol: Sym,
    dimension: u64,
    span: &Span1,
    points: &SplitMap<'_>,
    forms: &[Lin],
) -> Result<bool, AllocError>
    ensures { IfOk result (λ yes. yes ≡ list_all (reaches_above (B.rules bounds.now) (binders_of binders.now) region.now symbol dimension span.now (stored_of points.now)) forms.now) }
{
    match forms {
        [] => Ok(true),
        [first, rest @ ..] => {
            if reaches_above(
                alloc, bounds, binders, region, symbol, dimension, span, points, first,
            )? {
                reaches_each(
                    alloc, bounds, binders, region, symbol, dimension, span, points, rest,
                )
            } else {
                Ok(false)
            }
        }
    }
}

/// Whether the map reaches the region's rows above where each upper form of the dimension was in the turn before.
fn reaches_new<B: Bounds>(
    alloc: Global,
    bounds: &B,
    binders: &[Binder<'_>],
    region: &[Span1],
    symbol: Sym,
    dimension: u64,
    points: &SplitMap<'_>,
) -> Result<bool, AllocError>
    ensures { IfOk result (λ yes. yes ≡ reaches_new (B.rules bounds.now) (binders_of binders.now) region.now symbol dimension (stored_of points.now)) }
{
    match region.get(dimension as usize) {
        Some(span) => {
            let forms = span.upper.as_slice();
            reaches_each(
                alloc, bounds, binders, region, symbol, dimension, span, points, forms,
            )
        }
        None => Ok(false),
    }
}

/// Whether the statement makes the rows of the claim's region that are new in a turn, and in all dimensions but the window's leaves its
/// places alone.
fn makes_new<B: Bounds>(
    alloc: Global,
    bounds: &B,
    outlined: &Outlined<'_>,
    binders: &[Binder<'_>],
    claim: &Claim,
    places: &[Places],
    symbol: Sym,
    dimension: u64,
    by: &Stmt,
) -> Result<bool, AllocError>
    ensures { IfOk result (λ yes. yes ≡ makes_new (B.rules bounds.now) (binders_of binders.now) claim.now.region places.now symbol dimension (arm (outline_in outlined.now).setting (claim_of claim.now) (statement_of by.now))) }
{
    match stored_by(alloc, outlined, claim, by)? {
        Some(points) => {
            let region = claim.region.as_slice();
            if others_stay(alloc, bounds, binders, region, places, dimension, &points)? {
                reaches_new(alloc, bounds, binders, region, symbol, dimension, &points)
            } else {
                Ok(false)
            }
        }
        None => Ok(false),
    }
}

/// Whether the statement is shown to make the claim along the window: all of the region in the first turn of the window's loop, in each
/// later one what lies above some upper end of the turn before. In the other dimensions it leaves the region's places alone.
pub(crate) fn is_slid<B: Bounds>(
    alloc: Global,
    bounds: &B,
    outlined: &Outlined<'_>,
    binders: &[Binder<'_>],
    claim: &Claim,
    places: &[Places],
    window: &certificate::Window,
    by: &Stmt,
) -> Result<bool, AllocError>
    ensures { IfOk result (λ yes. yes ≡ is_slid (outline_in outlined.now).setting (B.rules bounds.now) (binders_of binders.now) (claim_of claim.now) places.now window.now (statement_of by.now)) }
{
    let Stmt::First {
        symbol,
        first,
        later,
    } = by
    else {
        return Ok(false);
    };
    if *symbol != window.symbol {
        return Ok(false);
    }
    let dimension = window.dimension;
    if makes_all(
        alloc, bounds, outlined, binders, claim, places, dimension, first,
    )? {
        makes_new(
            alloc, bounds, outlined, binders, claim, places, *symbol, dimension, later,
        )
    } else {
        Ok(false)
    }
}
