//! Between which numbers forms lie over a box of grid points, and whether a region may have a point at one of these.

ghost use Rattle.std.specs.Prelude.{◌≡◌, ◌^◌, ◌≤ℤ◌, ℕ, List, IsTrue, [], false};
ghost use Rattle.std.specs.Int.{int_wrap, w64};
ghost use Rattle.lin.specs.Forms.{is_within_limits, IsWithin};
ghost use Rattle.plan.specs.Symbols.{largest, points, smallest, turns};
ghost use Rattle.plan.specs.Certificate.Cells.{grid_symbols};
ghost use Rattle.shares.specs.Boxes.{AreLimited, IsLimited, IsSmall};
ghost use Rattle.shares.specs.Corners.{IsBetween, corner_sum, corner_value, end_value};

use crate::forms::grid_value;
use lin::{Lin, Multiple, Span1};

/// What a multiple's symbol is at the one corner where its factor is not negative, else at the other.
pub(crate) fn end_value(term: &Multiple, up: &[u64], down: &[u64]) -> i64
    requires up { IsSmall up.now }
    requires down { IsSmall down.now }
    ensures value { result ≡ end_value up.now down.now term.now }
    ensures small { IsWithin (2 ^ 20) result }
{
    if 0 <= term.factor {
        return grid_value(up, term.symbol);
    }
    grid_value(down, term.symbol)
}

/// What multiples come to at most between two corners, modulo 2^64.
fn corner_sum(terms: &[Multiple], up: &[u64], down: &[u64]) -> i64
    requires up { IsSmall up.now }
    requires down { IsSmall down.now }
    ensures { result ≡ int_wrap w64 (corner_sum up.now down.now terms.now) }
{
    match terms {
        [] => 0,
        [term, rest @ ..] => term
            .factor
            .wrapping_mul(end_value(term, up, down))
            .wrapping_add(corner_sum(rest, up, down)),
    }
}

/// What a form is at most between two corners, and at least where they change places.
fn corner_value(form: &Lin, up: &[u64], down: &[u64]) -> i64
    requires limits { IsTrue (is_within_limits form.now) }
    requires up { IsSmall up.now }
    requires down { IsSmall down.now }
    ensures { result ≡ corner_value up.now down.now form.now }
{
    form.constant()
        .wrapping_add(corner_sum(form.terms(), up, down))
}

/// A number that the largest of some forms reaches at each grid point between two.
fn low_over(forms: &[Lin], low: &[u64], high: &[u64]) -> i64
    requires limits { AreLimited forms.now }
    requires low { IsSmall low.now }
    requires high { IsSmall high.now }
    ensures { (at : List ℕ) → IsBetween low.now high.now at → result ≤ℤ largest (grid_symbols at) forms.now }
{
    if forms.is_empty() {
        return 0;
    }
    let mut found = corner_value(&forms[0], low, high);
    for form in forms {
        found = found.max(corner_value(form, low, high));
    }
    found
}

/// A number that the smallest of some forms passes at no grid point between two.
fn high_over(forms: &[Lin], low: &[u64], high: &[u64]) -> i64
    requires limits { AreLimited forms.now }
    requires low { IsSmall low.now }
    requires high { IsSmall high.now }
    ensures { (at : List ℕ) → IsBetween low.now high.now at → smallest (grid_symbols at) forms.now ≤ℤ result }
{
    if forms.is_empty() {
        return 0;
    }
    let mut found = corner_value(&forms[0], high, low);
    for form in forms {
        found = found.min(corner_value(form, high, low));
    }
    found
}

/// Whether a span may have a number at a grid point between two. A no is sure.
fn may_have_number(span: &Span1, low: &[u64], high: &[u64]) -> bool
    requires limits { AreLimited span.now.lower × AreLimited span.now.upper }
    requires low { IsSmall low.now }
    requires high { IsSmall high.now }
    ensures { result ≡ false → (at : List ℕ) → IsBetween low.now high.now at → turns (grid_symbols at) span.now ≡ [] }
{
    low_over(span.lower.as_slice(), low, high) <= high_over(span.upper.as_slice(), low, high)
}

/// Whether a region may have a point at a grid point between two. A no is sure.
pub(crate) fn may_have_point(region: &[Span1], low: &[u64], high: &[u64]) -> bool
    requires limits { IsLimited region.now }
    requires low { IsSmall low.now }
    requires high { IsSmall high.now }
    ensures { result ≡ false → (at : List ℕ) → IsBetween low.now high.now at → points (grid_symbols at) region.now ≡ [] }
{
    for span in region {
        if !may_have_number(span, low, high) {
            return false;
        }
    }
    true
}
