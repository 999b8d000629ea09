//! What is wrong with the lines of windows.

ghost use Rattle.std.specs.Prelude.{◌≡◌, ◌==◌, ℕ, IfOk, Some, map};
ghost use Rattle.std.specs.List.{list_any};
ghost use Rattle.plan.specs.Lines.{body_line, certificate_line};
ghost use Rattle.plan.specs.View.{plan_of};
ghost use Rattle.plan.specs.Certificate.Certificate.{certificate_of, claim_of};
ghost use Rattle.soundness.specs.Outline.Flaws.{first_of, told, line_told};
ghost use Rattle.soundness.specs.Outline.Kept.{keeps};
ghost use Rattle.soundness.specs.Outline.View.{group_in, number_in, outline_in, plan_in};
ghost use Rattle.validation.specs.Certificate.Lines.{window_line_flaws, each_line, told_at};
ghost use Rattle.validation.specs.Certificate.Certificate.{groups_keep, has_ends, is_along, is_used, is_window_of, span_is_within_limits};
ghost use Rattle.validation.specs.Certificate.Certificate.{window_flaws, window_is_known};
ghost use Rattle.validation.specs.Certificate.Placing.{place_at};
ghost use Rattle.validation.specs.Certificate.Counted.{group_counted};
ghost use Rattle.validation.specs.Certificate.View.{place_of};

use crate::among::is_bound;
use crate::certificate::claim_lines::both;
use crate::certificate::codes::window_code;
use crate::certificate::counted::CountedOutline;
use crate::certificate::placed::{Placed, outlines_of, placed_at};
use lin::Span1;
use plan::Plan;
use plan::certificate::{Cert, Claim, Window};
use soundness::outline::Outlined;
use soundness::outline::forms::{are_over, are_within_limits, is_listed};
use soundness::outline::kept::keeps;
use soundness::outline::refusals::{Flaw, K};
use std::alloc::{AllocError, Global};

/// Whether the window's symbol is that of a loop round a place, and the window's span is in symbols that are bound there.
fn is_window_at(placed: &Placed<'_, '_>, window: &Window) -> bool
    ensures { result ≡ is_along (Some (place_of placed.now)) window.now }
{
    is_bound(&placed.spot.loops, window.symbol)
        && are_over(&placed.spot.symbols, window.span.lower.as_slice())
        && are_over(&placed.spot.symbols, window.span.upper.as_slice())
}

/// Whether a statement ends at a line, the window's symbol is that of a loop round it, and the window's span is in symbols
/// that are bound there.
fn is_along(
    alloc: Global,
    outlines: &[CountedOutline<'_>],
    line: u64,
    window: &Window,
) -> Result<bool, AllocError>
    ensures { IfOk result (λ yes. yes ≡ is_along (place_at (map group_counted outlines.now) line) window.now) }
{
    match placed_at(alloc, outlines, line)? {
        None => Ok(false),
        Some(placed) => Ok(is_window_at(&placed, window)),
    }
}

/// Whether the claim has the window's dimension, and its statement is in a loop of the window's symbol.
fn is_window_of(
    alloc: Global,
    outlines: &[CountedOutline<'_>],
    claim: &Claim,
    window: &Window,
) -> Result<bool, AllocError>
    ensures { IfOk result (λ yes. yes ≡ is_window_of (map group_counted outlines.now) (Some (claim_of claim.now)) window.now) }
{
    let along = is_along(alloc, outlines, claim.line, window)?;
    let count = claim.region.as_slice().len() as u64;
    Ok(both(window.dimension < count, along))
}

/// Whether the window is of one of these claims.
fn is_known(
    alloc: Global,
    outlines: &[CountedOutline<'_>],
    claims: &[Claim],
    window: &Window,
) -> Result<bool, AllocError>
    ensures { IfOk result (λ yes. yes ≡ window_is_known (map group_counted outlines.now) (map claim_of claims.now) window.now) }
{
    match claims.get(window.claim as usize) {
        None => Ok(false),
        Some(claim) => is_window_of(alloc, outlines, claim, window),
    }
}

/// Whether the span's forms are within the limits of linear forms.
fn is_within_limits(span: &Span1) -> bool
    ensures { result ≡ span_is_within_limits span.now }
{
    are_within_limits(span.lower.as_slice()) && are_within_limits(span.upper.as_slice())
}

/// Whether the span has one to four forms at each end.
fn has_ends(span: &Span1) -> bool
    ensures { result ≡ has_ends span.now }
{
    is_listed(&span.lower) && is_listed(&span.upper)
}

/// Whether some loop of a group keeps the window.
fn is_kept_in(outlined: &Outlined<'_>, window: &Window) -> Result<bool, AllocError>
    ensures { IfOk result (λ yes. yes ≡ keeps (outline_in outlined.now) window.now
        (group_in outlined.now).body
        (body_line (plan_in outlined.now) (number_in outlined.now))) }
{
    let body = outlined.body();
    let line = outlined.body_line();
    if line == u32::MAX || line.saturating_add(body.line_count()) == u32::MAX {
        return Err(AllocError);
    }
    Ok(keeps(outlined, window, body, line))
}

/// Whether some loop of the plan keeps the window.
fn is_kept(alloc: Global, plan: &Plan, cert: &Cert, window: &Window) -> Result<bool, AllocError>
    ensures { IfOk result (λ yes. yes ≡ groups_keep (plan_of plan.now) (certificate_of cert.now) window.now 0 (plan_of plan.now).groups) }
{
    for number in 0..plan.groups.len() {
        let outlined = Outlined::new(alloc, plan, cert, number)?;
        if is_kept_in(&outlined, window)? {
            return Ok(true);
        }
    }
    Ok(false)
}

/// Whether one of these windows is of the claim.
fn is_of_some(windows: &[Window], claim: u64) -> bool
    ensures { result ≡ list_any (λ v. v.claim == claim) windows.now }
{
    windows.iter().any(|one| one.claim == claim)
}

/// Whether none of the earlier windows is of the window's claim, and some loop keeps the window.
fn is_used(
    alloc: Global,
    plan: &Plan,
    cert: &Cert,
    earlier: &[Window],
    window: &Window,
) -> Result<bool, AllocError>
    ensures { IfOk result (λ yes. yes ≡ is_used (plan_of plan.now) (certificate_of cert.now) earlier.now window.now) }
{
    if is_of_some(earlier, window.claim) {
        return Ok(false);
    }
    is_kept(alloc, plan, cert, window)
}

/// What is wrong with the line of a window, behind these earlier ones.
fn code_behind(
    alloc: Global,
    plan: &Plan,
    cert: &Cert,
    outlines: &[CountedOutline<'_>],
    earlier: &[Window],
    window: &Window,
) -> Result<Option<K>, AllocError>
    ensures { IfOk result (λ code. (line : ℕ) → told_at code line ≡ first_of (window_line_flaws
        (window_is_known (map group_counted outlines.now) (certificate_of cert.now).claims window.now)
        (span_is_within_limits window.now.span)
        (is_used (plan_of plan.now) (certificate_of cert.now) earlier.now window.now)
        (has_ends window.now.span)
        line)) }
{
    let known = is_known(alloc, outlines, &cert.claims, window)?;
    let used = is_used(alloc, plan, cert, earlier, window)?;
    let small = is_within_limits(&window.span);
    Ok(window_code(known, small, used, has_ends(&window.span)))
}

/// The first flaw of the lines of windows, where the line `cert` is given.
pub(crate) fn window_flaw(
    alloc: Global,
    plan: &Plan,
    cert: &Cert,
    line: u32,
) -> Result<Option<Flaw>, AllocError>
    requires { line ≡ line_told (certificate_line (plan_of plan.now)) }
    ensures { IfOk result (λ found. told found ≡ first_of (each_line (window_flaws (plan_of plan.now) (certificate_of cert.now)) 0 cert.now.windows.items)) }
{
    let outlines = outlines_of(alloc, plan, cert)?;
    for (index, window) in cert.windows.iter().enumerate() {
        let earlier = &cert.windows[..index];
        if let Some(code) = code_behind(alloc, plan, cert, &outlines, earlier, window)? {
            let line = cert.window_line(line, index);
            return Ok(Some(Flaw { code, line }));
        }
    }
    Ok(None)
}
