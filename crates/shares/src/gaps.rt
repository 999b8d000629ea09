//! Whether the upper ends of a region may reach its lower ends at one of the grid points between two.

ghost use Rattle.std.specs.Prelude.{◌≡◌, ◌≤◌, ◌+◌, ◌*◌, ◌^◌, ◌∷◌, ◌<ℤ◌, ℕ, List, [], false, length, IsTrue};
ghost use Rattle.lin.specs.declared.form.Multiple.{Multiple as Term};
ghost use Rattle.lin.specs.Forms.{AreWithin, IsWithin, is_within_limits};
ghost use Rattle.plan.specs.Symbols.{form_value, largest, points, turns};
ghost use Rattle.plan.specs.Certificate.Cells.{grid_symbols};
ghost use Rattle.shares.specs.Boxes.{AreLimited, IsLimited, IsSmall};
ghost use Rattle.shares.specs.Corners.{IsBetween};
ghost use Rattle.shares.specs.Gaps.{AreBelow, IsGapBelow, Leads};

use crate::corners::end_value;
use lin::{Lin, Multiple, Span1};

/// With how many lower forms of a span each upper form of it is compared.
const COMPARED: usize = 8;

/// What the multiples that come first in two lists come to, where the second is taken away, and how many of each these are.
#[derive(Drop)]
pub struct Lead {
    pub term: Multiple,
    pub upper: usize,
    pub lower: usize,
}

/// The multiple that comes first in two lists that begin with these, where the second is taken away.
fn leading_of(first: &Multiple, second: &Multiple) -> Lead
    requires first { IsWithin (2 ^ 20) first.now.factor }
    requires second { IsWithin (2 ^ 20) second.now.factor }
    ensures { (us ls : List Term) → Leads (first.now ∷ us) (second.now ∷ ls) result }
{
    let symbol = second.symbol;
    if first.symbol < symbol {
        return Lead {
            term: *first,
            upper: 1,
            lower: 0,
        };
    }
    if symbol < first.symbol {
        let factor = -second.factor;
        return Lead {
            term: Multiple { symbol, factor },
            upper: 0,
            lower: 1,
        };
    }
    let factor = first.factor - second.factor;
    Lead {
        term: Multiple { symbol, factor },
        upper: 1,
        lower: 1,
    }
}

/// The multiple that comes first in two lists, where the second is taken away.
fn leading(upper: &[Multiple], lower: &[Multiple]) -> Lead
    requires some { 1 ≤ length upper.now + length lower.now }
    requires upper { AreWithin (2 ^ 20) upper.now }
    requires lower { AreWithin (2 ^ 20) lower.now }
    ensures { Leads upper.now lower.now result }
{
    if lower.is_empty() {
        return Lead {
            term: upper[0],
            upper: 1,
            lower: 0,
        };
    }
    if upper.is_empty() {
        let factor = -lower[0].factor;
        return Lead {
            term: Multiple {
                symbol: lower[0].symbol,
                factor,
            },
            upper: 0,
            lower: 1,
        };
    }
    leading_of(&upper[0], &lower[0])
}

/// A number that some multiples less others pass at no grid point between two.
fn gap_sum(upper: &[Multiple], lower: &[Multiple], low: &[u64], high: &[u64]) -> i64
    requires few { length upper.now + length lower.now ≤ 16 }
    requires upper { AreWithin (2 ^ 20) upper.now }
    requires lower { AreWithin (2 ^ 20) lower.now }
    requires low { IsSmall low.now }
    requires high { IsSmall high.now }
    ensures below { AreBelow low.now high.now upper.now lower.now result }
    ensures small { IsWithin ((length upper.now + length lower.now) * 2 ^ 41) result }
{
    if upper.is_empty() && lower.is_empty() {
        return 0;
    }
    let first = leading(upper, lower);
    let most = first.term.factor * end_value(&first.term, high, low);
    let rest = gap_sum(&upper[first.upper..], &lower[first.lower..], low, high);
    most + rest
}

/// A number that a form less another passes at no grid point between two.
pub(crate) fn gap(upper: &Lin, lower: &Lin, low: &[u64], high: &[u64]) -> i64
    requires upper { IsTrue (is_within_limits upper.now) }
    requires lower { IsTrue (is_within_limits lower.now) }
    requires low { IsSmall low.now }
    requires high { IsSmall high.now }
    ensures { IsGapBelow low.now high.now upper.now lower.now result }
{
    let more = gap_sum(upper.terms(), lower.terms(), low, high);
    let apart = upper.constant() - lower.constant();
    apart + more
}

/// Whether a form may reach each of some others at a grid point between two. A no is sure.
fn may_reach(upper: &Lin, lowers: &[Lin], low: &[u64], high: &[u64]) -> bool
    requires upper { IsTrue (is_within_limits upper.now) }
    requires lowers { AreLimited lowers.now }
    requires low { IsSmall low.now }
    requires high { IsSmall high.now }
    ensures { result ≡ false → (at : List ℕ) → IsBetween low.now high.now at → form_value upper.now (grid_symbols at) <ℤ largest (grid_symbols at) lowers.now }
{
    for (place, lower) in lowers.iter().enumerate() {
        if place >= COMPARED {
            return true;
        }
        let most = gap(upper, lower, low, high);
        if most < 0 {
            return false;
        }
    }
    true
}

/// Whether the upper end of a span may reach its lower end at a grid point between two. A no is sure.
fn may_meet(span: &Span1, low: &[u64], high: &[u64]) -> bool
    requires limits { AreLimited span.now.lower × AreLimited span.now.upper }
    requires low { IsSmall low.now }
    requires high { IsSmall high.now }
    ensures { result ≡ false → (at : List ℕ) → IsBetween low.now high.now at → turns (grid_symbols at) span.now ≡ [] }
{
    let uppers = span.upper.as_slice();
    let lowers = span.lower.as_slice();
    for upper in uppers {
        if !may_reach(upper, lowers, low, high) {
            return false;
        }
    }
    true
}

/// Whether in each of a region's dimensions the upper end may reach the lower end at a grid point between two. Where not, the
/// region has no point at any of these.
pub(crate) fn ends_may_meet(region: &[Span1], low: &[u64], high: &[u64]) -> bool
    requires limits { IsLimited region.now }
    requires low { IsSmall low.now }
    requires high { IsSmall high.now }
    ensures { result ≡ false → (at : List ℕ) → IsBetween low.now high.now at → points (grid_symbols at) region.now ≡ [] }
{
    for span in region {
        if !may_meet(span, low, high) {
            return false;
        }
    }
    true
}
