//! Windows whose rows a buffer holds at each turn of a loop.

ghost use Rattle.std.specs.Prelude.{◌≡◌, IfOk};
ghost use Rattle.std.specs.List.{list_all};
ghost use Rattle.plan.specs.View.{statement_of};
ghost use Rattle.plan.specs.Certificate.Certificate.{claim_of};
ghost use Rattle.soundness.specs.Binders.View.{binders_of};
ghost use Rattle.soundness.specs.Outline.View.{outline_in};
ghost use Rattle.tails.specs.Windows.Arms.{arm, arms_stay, is_along, is_axis, is_fold_of, is_held, is_still, moves_first, one_stays};
ghost use Rattle.tails.specs.Windows.Spans.{is_window};

use crate::stored::stored_by;
use crate::windows::holding::hold;
use crate::windows::inner::{are_outer, inside};
use crate::windows::window::Window;
use lin::{Span1, Sym};
use plan::certificate::Claim;
use plan::{Places, Stmt, certificate};
use soundness::binders::symbols::span_has;
use soundness::binders::{Binder, Bounds};
use soundness::outline::Outlined;
use std::alloc::{AllocError, Global};

/// Whether the fold is that of the places, 0 where they are not folded.
fn is_fold_of(fold: u64, places: &Places) -> bool
    ensures { result ≡ is_fold_of fold places.now }
{
    match places {
        Places::From { .. } => fold == 0,
        Places::Folded { count } => fold == *count,
    }
}

/// Whether no form of the span names the loop's symbol, or one that is bound inside the loop.
fn is_still(symbol: Sym, inner: &[Binder<'_>], span: &Span1) -> bool
    ensures { result ≡ is_still symbol (binders_of inner.now) span.now }
{
    !span_has(symbol, span)
        && (are_outer(inner, span.lower.as_slice()) && are_outer(inner, span.upper.as_slice()))
}

/// Whether that is so of each of the spans.
fn are_still(symbol: Sym, inner: &[Binder<'_>], spans: &[Span1]) -> bool
    ensures { result ≡ list_all (is_still symbol (binders_of inner.now)) spans.now }
{
    spans.iter().all(|span| is_still(symbol, inner, span))
}

/// Whether the span is shown to be one of the window: neither end falls along the window's loop, and there are at most as many rows as
/// the fold has places.
fn is_window<B: Bounds>(
    alloc: Global,
    bounds: &B,
    binders: &[Binder<'_>],
    window: &certificate::Window,
    span: &Span1,
) -> Result<bool, AllocError>
    ensures { IfOk result (λ yes. yes ≡ is_window (B.rules bounds.now) (binders_of binders.now) window.now.symbol window.now.fold span.now) }
{
    let rows = Window {
        symbol: window.symbol,
        fold: window.fold,
        span,
    };
    rows.sound(alloc, bounds, binders)
}

/// Whether the window's span is shown to be this one of the region, and its fold is that of the places.
fn is_axis<B: Bounds>(
    alloc: Global,
    bounds: &B,
    binders: &[Binder<'_>],
    window: &certificate::Window,
    span: &Span1,
    places: &Places,
) -> Result<bool, AllocError>
    ensures { IfOk result (λ yes. yes ≡ is_axis (B.rules bounds.now) (binders_of binders.now) window.now span.now places.now) }
{
    if !bounds.is_within(alloc, binders, span, &window.span)? {
        return Ok(false);
    }
    if !bounds.is_within(alloc, binders, &window.span, span)? {
        return Ok(false);
    }
    Ok(is_window(alloc, bounds, binders, window, span)? && is_fold_of(window.fold, places))
}

/// Whether the window's span is the region's first one, and the region moves along no dimension behind it.
fn moves_first<B: Bounds>(
    alloc: Global,
    bounds: &B,
    binders: &[Binder<'_>],
    window: &certificate::Window,
    span: &Span1,
    spans: &[Span1],
    places: &Places,
) -> Result<bool, AllocError>
    ensures { IfOk result (λ yes. yes ≡ moves_first (B.rules bounds.now) (binders_of binders.now) window.now span.now spans.now places.now) }
{
    if is_axis(alloc, bounds, binders, window, span, places)? {
        Ok(are_still(window.symbol, inside(window.symbol, binders), spans))
    } else {
        Ok(false)
    }
}

/// Whether the window's span is that of the region in the dimension that so many stand before, and the region moves along no other.
#[tactic(auto, using(crate::proofs::OfWindows::Parts::along_later))]
fn is_along<B: Bounds>(
    alloc: Global,
    bounds: &B,
    binders: &[Binder<'_>],
    window: &certificate::Window,
    dimension: u64,
    region: &[Span1],
    places: &[Places],
) -> Result<bool, AllocError>
    ensures { IfOk result (λ yes. yes ≡ is_along (B.rules bounds.now) (binders_of binders.now) window.now dimension region.now places.now) }
{
    match (region, places) {
        ([], _) => Ok(false),
        ([_, ..], []) => Ok(false),
        ([span, spans @ ..], [one, places @ ..]) => match dimension.checked_sub(1) {
            Some(less) => {
                if is_still(window.symbol, inside(window.symbol, binders), span) {
                    is_along(alloc, bounds, binders, window, less, spans, places)
                } else {
                    Ok(false)
                }
            }
            None => moves_first(alloc, bounds, binders, window, span, spans, one),
        },
    }
}

/// Whether what the statement stores leaves the places of the claim's region alone in one dimension.
pub(crate) fn one_stays<B: Bounds>(
    alloc: Global,
    bounds: &B,
    outlined: &Outlined<'_>,
    binders: &[Binder<'_>],
    claim: &Claim,
    places: &[Places],
    dimension: u64,
    by: &Stmt,
) -> Result<bool, AllocError>
    ensures { IfOk result (λ yes. yes ≡ one_stays (B.rules bounds.now) (binders_of binders.now) claim.now.region places.now dimension (arm (outline_in outlined.now).setting (claim_of claim.now) (statement_of by.now))) }
{
    match stored_by(alloc, outlined, claim, by)? {
        Some(points) => {
            let region = claim.region.as_slice();
            let dimension = Some(dimension);
            hold(
                alloc,
                bounds,
                binders,
                &points,
                true,
                dimension,
                region,
                &points.forms,
                places,
            )
        }
        None => Ok(false),
    }
}

/// Whether that is so of both arms of the statement.
fn arms_stay<B: Bounds>(
    alloc: Global,
    bounds: &B,
    outlined: &Outlined<'_>,
    binders: &[Binder<'_>],
    claim: &Claim,
    places: &[Places],
    dimension: u64,
    by: &Stmt,
) -> Result<bool, AllocError>
    ensures { IfOk result (λ yes. yes ≡ arms_stay (outline_in outlined.now).setting (B.rules bounds.now) (binders_of binders.now) (claim_of claim.now) places.now dimension (statement_of by.now)) }
{
    let Stmt::First { first, later, .. } = by else {
        return Ok(false);
    };
    if one_stays(
        alloc, bounds, outlined, binders, claim, places, dimension, first,
    )? {
        one_stays(
            alloc, bounds, outlined, binders, claim, places, dimension, later,
        )
    } else {
        Ok(false)
    }
}

/// Whether the buffer is shown to hold the window's rows at each turn of its loop, where the statement makes the claim along it.
pub(crate) fn is_held<B: Bounds>(
    alloc: Global,
    bounds: &B,
    outlined: &Outlined<'_>,
    binders: &[Binder<'_>],
    claim: &Claim,
    places: &[Places],
    window: &certificate::Window,
    by: &Stmt,
) -> Result<bool, AllocError>
    ensures { IfOk result (λ yes. yes ≡ is_held (outline_in outlined.now).setting (B.rules bounds.now) (binders_of binders.now) (claim_of claim.now) places.now window.now (statement_of by.now)) }
{
    if !is_window(alloc, bounds, binders, window, &window.span)? {
        return Ok(false);
    }
    let dimension = window.dimension;
    let region = claim.region.as_slice();
    if is_along(alloc, bounds, binders, window, dimension, region, places)? {
        arms_stay(
            alloc, bounds, outlined, binders, claim, places, dimension, by,
        )
    } else {
        Ok(false)
    }
}
