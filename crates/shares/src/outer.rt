//! Need lines that name no more than another at grid points between two.

ghost use Rattle.std.specs.Prelude.{◌≡◌, ℕ, List, ◌≤ℤ◌, ◌++◌, ◌∷◌, [], IsTrue, IfSome, OnOk, MatchOption, map, slice_get};
ghost use Rattle.std.specs.List.{AllZip};
ghost use Rattle.lin.specs.Forms.{is_within_limits};
ghost use Rattle.plan.specs.Symbols.{form_value, largest, smallest};
ghost use Rattle.plan.specs.Certificate.Cells.{grid_symbols};
ghost use Rattle.shares.specs.Blocks.{LinesAreLimited};
ghost use Rattle.shares.specs.Boxes.{AreLimited, IsLimited, IsSmall};
ghost use Rattle.shares.specs.Corners.{IsBetween};
ghost use Rattle.shares.specs.Outer.{AreOuterBetween, LiesAt, LiesAtOne, SpanLiesAt};

use crate::gaps::gap;
use crate::repeated::is_between_same;
use lin::{Lin, Span1};
use plan::certificate::Need;
use std::alloc::AllocError;

/// Whether a form is at most one of some others at each grid point between two. A yes is sure.
fn is_reached(form: &Lin, others: &[Lin], low: &[u64], high: &[u64]) -> bool
    requires form { IsTrue (is_within_limits form.now) }
    requires others { AreLimited others.now }
    requires low { IsSmall low.now }
    requires high { IsSmall high.now }
    ensures { IsTrue result → (at : List ℕ) → IsBetween low.now high.now at → form_value form.now (grid_symbols at) ≤ℤ largest (grid_symbols at) others.now }
{
    for other in others {
        let most = gap(form, other, low, high);
        if most <= 0 {
            return true;
        }
    }
    false
}

/// Whether one of some forms is at most another at each grid point between two. A yes is sure.
fn is_kept_below(form: &Lin, others: &[Lin], low: &[u64], high: &[u64]) -> bool
    requires form { IsTrue (is_within_limits form.now) }
    requires others { AreLimited others.now }
    requires low { IsSmall low.now }
    requires high { IsSmall high.now }
    ensures { IsTrue result → (at : List ℕ) → IsBetween low.now high.now at → smallest (grid_symbols at) others.now ≤ℤ form_value form.now (grid_symbols at) }
{
    for other in others {
        let most = gap(other, form, low, high);
        if most <= 0 {
            return true;
        }
    }
    false
}

/// Whether the largest of some forms is at most that of some others at each grid point between two. A yes is sure.
fn starts_in(inner: &[Lin], outer: &[Lin], low: &[u64], high: &[u64]) -> bool
    requires inner { AreLimited inner.now }
    requires outer { AreLimited outer.now }
    requires low { IsSmall low.now }
    requires high { IsSmall high.now }
    ensures { IsTrue result → (at : List ℕ) → IsBetween low.now high.now at → largest (grid_symbols at) outer.now ≤ℤ largest (grid_symbols at) inner.now }
{
    if outer.is_empty() {
        return inner.is_empty();
    }
    for form in outer {
        if !is_reached(form, inner, low, high) {
            return false;
        }
    }
    true
}

/// Whether the smallest of some forms is at most that of some others at each grid point between two. A yes is sure.
fn ends_in(inner: &[Lin], outer: &[Lin], low: &[u64], high: &[u64]) -> bool
    requires inner { AreLimited inner.now }
    requires outer { AreLimited outer.now }
    requires low { IsSmall low.now }
    requires high { IsSmall high.now }
    ensures { IsTrue result → (at : List ℕ) → IsBetween low.now high.now at → smallest (grid_symbols at) inner.now ≤ℤ smallest (grid_symbols at) outer.now }
{
    if outer.is_empty() {
        return inner.is_empty();
    }
    for form in outer {
        if !is_kept_below(form, inner, low, high) {
            return false;
        }
    }
    true
}

/// Whether the ends of a span lie within those of another at each grid point between two. A yes is sure.
fn span_lies_in(inner: &Span1, outer: &Span1, low: &[u64], high: &[u64]) -> bool
    requires inner { AreLimited inner.now.lower × AreLimited inner.now.upper }
    requires outer { AreLimited outer.now.lower × AreLimited outer.now.upper }
    requires low { IsSmall low.now }
    requires high { IsSmall high.now }
    ensures { IsTrue result → (at : List ℕ) → IsBetween low.now high.now at → SpanLiesAt (grid_symbols at) inner.now outer.now }
{
    starts_in(inner.lower.as_slice(), outer.lower.as_slice(), low, high)
        && ends_in(inner.upper.as_slice(), outer.upper.as_slice(), low, high)
}

/// Whether two regions have as many spans, each of which lies in the other's of its place at each grid point between two. A yes is
/// sure.
fn spans_lie_in(inner: &[Span1], outer: &[Span1], low: &[u64], high: &[u64]) -> bool
    requires inner { IsLimited inner.now }
    requires outer { IsLimited outer.now }
    requires low { IsSmall low.now }
    requires high { IsSmall high.now }
    ensures { IsTrue result → (at : List ℕ) → IsBetween low.now high.now at → AllZip (SpanLiesAt (grid_symbols at)) inner.now outer.now }
{
    if inner.len() != outer.len() {
        return false;
    }
    for (place, span) in inner.iter().enumerate() {
        if !span_lies_in(span, &outer[place], low, high) {
            return false;
        }
    }
    true
}

/// Whether a need line names no more than another of the same groups at each grid point between two. A yes is sure.
fn lies_in(inner: &Need, outer: &Need, low: &[u64], high: &[u64]) -> bool
    requires inner { IsLimited inner.now.region }
    requires outer { IsLimited outer.now.region }
    requires low { IsSmall low.now }
    requires high { IsSmall high.now }
    ensures { IsTrue result → (at : List ℕ) → IsBetween low.now high.now at → LiesAt at inner.now outer.now }
{
    if !is_between_same(inner, outer) {
        return false;
    }
    spans_lie_in(inner.region.as_slice(), outer.region.as_slice(), low, high)
}

/// Whether a need line names no more than one of these at each grid point between two. A yes is sure.
fn lies_in_one(need: &Need, lines: &[&Need], low: &[u64], high: &[u64]) -> bool
    requires need { IsLimited need.now.region }
    requires lines { LinesAreLimited (map (λ n. n.now) lines.now) }
    requires low { IsSmall low.now }
    requires high { IsSmall high.now }
    ensures { IsTrue result → (at : List ℕ) → IsBetween low.now high.now at → LiesAtOne at need.now (map (λ n. n.now) lines.now) }
{
    for line in lines {
        if lies_in(need, line, low, high) {
            return true;
        }
    }
    false
}

/// The place of one of these need lines from `start` on that names no more than another at each grid point between two, if there
/// is one.
fn place_within(
    need: &Need,
    lines: &[&Need],
    start: usize,
    low: &[u64],
    high: &[u64],
) -> Option<usize>
    requires need { IsLimited need.now.region }
    requires lines { LinesAreLimited (map (λ n. n.now) lines.now) }
    requires low { IsSmall low.now }
    requires high { IsSmall high.now }
    ensures { IfSome result (λ place. MatchOption (slice_get lines.now place) ⊥ (λ n. (at : List ℕ) → IsBetween low.now high.now at → LiesAt at n.now need.now)) }
{
    for place in start..lines.len() {
        if lies_in(lines[place], need, low, high) {
            return Some(place);
        }
    }
    None
}

/// Adds a need line to those kept, if it names more than each of so many of the last of them at some grid point between two: in the
/// place of one that names no more than it, or behind.
pub(crate) fn keep_outer<'a>(
    kept: &mut Vec<&'a Need>,
    need: &'a Need,
    low: &[u64],
    high: &[u64],
    lately: usize,
) -> Result<(), AllocError>
    requires kept { LinesAreLimited (map (λ n. n.now) kept.old.items) }
    requires need { IsLimited need.now.region }
    requires low { IsSmall low.now }
    requires high { IsSmall high.now }
    ensures outer { OnOk result (AreOuterBetween low.now high.now (map (λ n. n.now) kept.new.items) (map (λ n. n.now) kept.old.items ++ need.now ∷ [])) }
    ensures limits { OnOk result (LinesAreLimited (map (λ n. n.now) kept.new.items)) }
{
    let start = kept.len().saturating_sub(lately);
    if lies_in_one(need, &kept[start..], low, high) {
        return Ok(());
    }
    match place_within(need, kept.as_slice(), start, low, high) {
        Some(place) => kept[place] = need,
        None => kept.push(need)?,
    }
    Ok(())
}
