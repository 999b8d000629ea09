//! Need lines that name no more than one shortly before or behind them.

ghost use Rattle.std.specs.Prelude.{◌≡◌, ◌<◌, ◌++◌, ◌∷◌, [], IsTrue, IfOk, IfSome, OnOk, Contains, MatchOption, length, map, slice_get};
ghost use Rattle.std.specs.List.{AllZip};
ghost use Rattle.lin.specs.Forms.{same_terms};
ghost use Rattle.shares.specs.Repeated.{AreOuterOf, IsUnder, LiesIn, LiesInOne, SpanLiesIn};

use lin::{Lin, Multiple, Span1};
use plan::certificate::Need;
use std::alloc::{AllocError, Global};

/// With how many of the lines kept last a line is compared.
const LATELY: usize = 16;

/// Whether two lists of multiples are the same.
fn have_same_terms(first: &[Multiple], second: &[Multiple]) -> bool
    ensures { result ≡ same_terms first.now second.now }
{
    first == second
}

/// Whether two forms differ in their constants alone, of which the first is not the larger. A yes is sure.
fn is_under(low: &Lin, high: &Lin) -> bool
    ensures { IsTrue result → IsUnder low.now high.now }
{
    low.constant() <= high.constant() && have_same_terms(low.terms(), high.terms())
}

/// Whether two lists have as many forms, each under the other's of its place. A yes is sure.
fn are_under(low: &[Lin], high: &[Lin]) -> bool
    ensures { IsTrue result → AllZip IsUnder low.now high.now }
{
    if low.len() != high.len() {
        return false;
    }
    for (place, form) in low.iter().enumerate() {
        if !is_under(form, &high[place]) {
            return false;
        }
    }
    true
}

/// Whether the ends of a span are shown to lie within those of another. A yes is sure.
fn span_lies_in(inner: &Span1, outer: &Span1) -> bool
    ensures { IsTrue result → SpanLiesIn inner.now outer.now }
{
    are_under(outer.lower.as_slice(), inner.lower.as_slice())
        && are_under(inner.upper.as_slice(), outer.upper.as_slice())
}

/// Whether two regions have as many spans, each of which is shown to lie in the other's of its place. A yes is sure.
fn spans_lie_in(inner: &[Span1], outer: &[Span1]) -> bool
    ensures { IsTrue result → AllZip SpanLiesIn inner.now outer.now }
{
    if inner.len() != outer.len() {
        return false;
    }
    for (place, span) in inner.iter().enumerate() {
        if !span_lies_in(span, &outer[place]) {
            return false;
        }
    }
    true
}

/// Whether two need lines are of the same groups.
pub(crate) fn is_between_same(first: &Need, second: &Need) -> bool
    ensures { IsTrue result → (first.now.group ≡ second.now.group) × (first.now.needed ≡ second.now.needed) }
{
    first.group == second.group && first.needed == second.needed
}

/// Whether a need line is shown to lie in another: their forms have the same multiples, and the constants of the one lie
/// within those of the other. A yes is sure.
fn lies_in(inner: &Need, outer: &Need) -> bool
    ensures { IsTrue result → LiesIn inner.now outer.now }
{
    if !is_between_same(inner, outer) {
        return false;
    }
    spans_lie_in(inner.region.as_slice(), outer.region.as_slice())
}

/// Whether a need line is shown to lie in one of these. A yes is sure.
fn lies_in_one(need: &Need, lines: &[&Need]) -> bool
    ensures { IsTrue result → LiesInOne need.now (map (λ n. n.now) lines.now) }
{
    for line in lines {
        if lies_in(need, line) {
            return true;
        }
    }
    false
}

/// The place of one of these need lines from `start` on that is shown to lie in another, if there is one.
fn place_within(need: &Need, lines: &[&Need], start: usize) -> Option<usize>
    ensures { IfSome result (λ place. MatchOption (slice_get lines.now place) ⊥ (λ n. LiesIn n.now need.now)) }
{
    for place in start..lines.len() {
        if lies_in(lines[place], need) {
            return Some(place);
        }
    }
    None
}

/// Adds a need line to those kept, if it lies in none of the last of them: in the place of one that lies in it, or behind.
fn keep_outer<'a>(kept: &mut Vec<&'a Need>, need: &'a Need) -> Result<(), AllocError>
    ensures { OnOk result (AreOuterOf (map (λ n. n.now) kept.new.items) (map (λ n. n.now) kept.old.items ++ need.now ∷ [])) }
{
    let start = kept.len().saturating_sub(LATELY);
    if lies_in_one(need, &kept[start..]) {
        return Ok(());
    }
    match place_within(need, kept.as_slice(), start) {
        Some(place) => kept[place] = need,
        None => kept.push(need)?,
    }
    Ok(())
}

/// These need lines, of which one that lies in one of the last 16 kept before it is left out, and takes the place of one of
/// them that lies in it.
pub(crate) fn outer_lines<'a>(
    alloc: Global,
    lines: &[&'a Need],
) -> Result<Vec<&'a Need>, AllocError>
    ensures { IfOk result (λ kept. AreOuterOf (map (λ n. n.now) kept.items) (map (λ n. n.now) lines.now)) }
{
    let mut kept = Vec::new(alloc);
    for need in lines {
        keep_outer(&mut kept, need)?;
    }
    Ok(kept)
}
