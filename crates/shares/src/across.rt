//! Whether two dimensions of a region exclude one another: the sum of an upper form of each stays below that of a lower form of each.

ghost use Rattle.std.specs.Prelude.{◌≡◌, ◌+ℤ◌, ◌⊎◌, ℕ, List, [], IfOk, IfSome, IsTrue, false};
ghost use Rattle.lin.specs.Forms.{is_within_limits};
ghost use Rattle.plan.specs.Symbols.{form_value, largest, points, smallest, turns};
ghost use Rattle.plan.specs.Certificate.Cells.{grid_symbols};
ghost use Rattle.shares.specs.Across.{IsSumOf, StaysBelow};
ghost use Rattle.shares.specs.Boxes.{IsSmall};
ghost use Rattle.shares.specs.Corners.{IsBetween};

use crate::gaps::gap;
use lin::{Lin, LinError, Span1};
use std::alloc::{AllocError, Global};

/// How many forms of each end of a span are added to those of another.
const ADDED: usize = 2;

/// The sum of two forms, where it is within the limits.
fn sum_of_two(alloc: Global, first: &Lin, second: &Lin) -> Result<Option<Lin>, AllocError>
    ensures limits { IfOk result (λ found. IfSome found (λ sum. IsTrue (is_within_limits sum))) }
    ensures value { IfOk result (λ found. IfSome found (λ sum. IsSumOf sum first.now second.now)) }
{
    match first.add(alloc, second) {
        Ok(sum) => Ok(Some(sum)),
        Err(LinError::Limit) => Ok(None),
        Err(LinError::Memory) => Err(AllocError),
    }
}

/// Whether a form stays below the sum of two others at the grid points between two. A yes is sure.
fn is_below_sum(
    alloc: Global,
    upper: &Lin,
    lower: &Lin,
    other: &Lin,
    low: &[u64],
    high: &[u64],
) -> Result<bool, AllocError>
    requires upper { IsTrue (is_within_limits upper.now) }
    requires low { IsSmall low.now }
    requires high { IsSmall high.now }
    ensures { IfOk result (λ below. IsTrue below → StaysBelow low.now high.now (form_value upper.now) (λ s. form_value lower.now s +ℤ form_value other.now s)) }
{
    let Some(sum) = sum_of_two(alloc, lower, other)? else {
        return Ok(false);
    };
    let most = gap(upper, &sum, low, high);
    if most < 0 {
        return Ok(true);
    }
    Ok(false)
}

/// Whether a form may reach the sum of another and of each of some others at a grid point between two. A no is sure.
fn may_reach_sums(
    alloc: Global,
    upper: &Lin,
    lowers: &[Lin],
    other: &Lin,
    low: &[u64],
    high: &[u64],
) -> Result<bool, AllocError>
    requires upper { IsTrue (is_within_limits upper.now) }
    requires low { IsSmall low.now }
    requires high { IsSmall high.now }
    ensures { IfOk result (λ may. may ≡ false → StaysBelow low.now high.now (form_value upper.now) (λ s. largest s lowers.now +ℤ form_value other.now s)) }
{
    for (place, lower) in lowers.iter().enumerate() {
        if place >= ADDED {
            return Ok(true);
        }
        let below = is_below_sum(alloc, upper, lower, other, low, high)?;
        if below {
            return Ok(false);
        }
    }
    Ok(true)
}

/// Whether a form may reach each sum of a form of two lists at a grid point between two. A no is sure.
fn may_reach_pairs(
    alloc: Global,
    upper: &Lin,
    lowers: &[Lin],
    others: &[Lin],
    low: &[u64],
    high: &[u64],
) -> Result<bool, AllocError>
    requires upper { IsTrue (is_within_limits upper.now) }
    requires low { IsSmall low.now }
    requires high { IsSmall high.now }
    ensures { IfOk result (λ may. may ≡ false → StaysBelow low.now high.now (form_value upper.now) (λ s. largest s lowers.now +ℤ largest s others.now)) }
{
    for (place, other) in others.iter().enumerate() {
        if place >= ADDED {
            return Ok(true);
        }
        let may = may_reach_sums(alloc, upper, lowers, other, low, high)?;
        if !may {
            return Ok(false);
        }
    }
    Ok(true)
}

/// Whether the sum of two forms may reach each sum of a form of two lists at a grid point between two. A no is sure.
fn sum_may_reach(
    alloc: Global,
    upper: &Lin,
    other: &Lin,
    lowers: &[Lin],
    others: &[Lin],
    low: &[u64],
    high: &[u64],
) -> Result<bool, AllocError>
    requires low { IsSmall low.now }
    requires high { IsSmall high.now }
    ensures { IfOk result (λ may. may ≡ false → StaysBelow low.now high.now (λ s. form_value upper.now s +ℤ form_value other.now s) (λ s. largest s lowers.now +ℤ largest s others.now)) }
{
    match sum_of_two(alloc, upper, other)? {
        Some(sum) => may_reach_pairs(alloc, &sum, lowers, others, low, high),
        None => Ok(true),
    }
}

/// Whether the upper end of a span and a form may together reach the lower ends of two spans at a grid point between two. A no is
/// sure.
fn may_meet_by(
    alloc: Global,
    span: &Span1,
    upper: &Lin,
    others: &[Lin],
    low: &[u64],
    high: &[u64],
) -> Result<bool, AllocError>
    requires low { IsSmall low.now }
    requires high { IsSmall high.now }
    ensures { IfOk result (λ may. may ≡ false → StaysBelow low.now high.now (λ s. smallest s span.now.upper +ℤ form_value upper.now s) (λ s. largest s span.now.lower +ℤ largest s others.now)) }
{
    let uppers = span.upper.as_slice();
    let lowers = span.lower.as_slice();
    for (place, form) in uppers.iter().enumerate() {
        if place >= ADDED {
            return Ok(true);
        }
        let may = sum_may_reach(alloc, form, upper, lowers, others, low, high)?;
        if !may {
            return Ok(false);
        }
    }
    Ok(true)
}

/// Whether two spans may both have a number at one grid point between two. A no is sure.
fn may_both_meet(
    alloc: Global,
    span: &Span1,
    other: &Span1,
    low: &[u64],
    high: &[u64],
) -> Result<bool, AllocError>
    requires low { IsSmall low.now }
    requires high { IsSmall high.now }
    ensures { IfOk result (λ may. may ≡ false → (at : List ℕ) → IsBetween low.now high.now at → (turns (grid_symbols at) span.now ≡ []) ⊎ (turns (grid_symbols at) other.now ≡ [])) }
{
    let uppers = other.upper.as_slice();
    let lowers = other.lower.as_slice();
    for (place, upper) in uppers.iter().enumerate() {
        if place >= ADDED {
            return Ok(true);
        }
        let may = may_meet_by(alloc, span, upper, lowers, low, high)?;
        if !may {
            return Ok(false);
        }
    }
    Ok(true)
}

/// Whether a span and each of some others may both have a number at one grid point between two. A no is sure.
fn may_meet_each(
    alloc: Global,
    span: &Span1,
    others: &[Span1],
    low: &[u64],
    high: &[u64],
) -> Result<bool, AllocError>
    requires low { IsSmall low.now }
    requires high { IsSmall high.now }
    ensures { IfOk result (λ may. may ≡ false → (at : List ℕ) → IsBetween low.now high.now at → (turns (grid_symbols at) span.now ≡ []) ⊎ (points (grid_symbols at) others.now ≡ [])) }
{
    for other in others {
        let may = may_both_meet(alloc, span, other, low, high)?;
        if !may {
            return Ok(false);
        }
    }
    Ok(true)
}

/// Whether of each two dimensions of a region both may have a number at one grid point between two. Where not, the region has no
/// point at any of these.
pub(crate) fn dimensions_may_meet(
    alloc: Global,
    region: &[Span1],
    low: &[u64],
    high: &[u64],
) -> Result<bool, AllocError>
    requires low { IsSmall low.now }
    requires high { IsSmall high.now }
    ensures { IfOk result (λ may. may ≡ false → (at : List ℕ) → IsBetween low.now high.now at → points (grid_symbols at) region.now ≡ []) }
{
    for (place, span) in region.iter().enumerate() {
        let may = may_meet_each(alloc, span, &region[place + 1..], low, high)?;
        if !may {
            return Ok(false);
        }
    }
    Ok(true)
}
