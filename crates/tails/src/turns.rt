//! Loops that are taken: from the first block's beginning to the last block's end.

ghost use Rattle.std.specs.Prelude.{◌≡◌, ◌≤ℤ◌, ◌+ℤ◌, ◌-ℤ◌, int_le, false, pos, IfOk, Some};
ghost use Rattle.std.specs.List.{list_all, list_any};
ghost use Rattle.std.specs.Ordering.{int_eq};
ghost use Rattle.lin.specs.Forms.{combined, number, same_terms};
ghost use Rattle.tails.specs.Moves.{are_blocks, each_replaced, is_block, is_gapless, joined, naming, not_naming, over_loop, over_turns, span_from, taken};
ghost use Rattle.tails.specs.Held.{span_of};

use crate::forms::{combined, only_with, push_replaced, push_without};
use crate::spans::{Spans, before, copied};
use lin::{Forms, Lin, Multiple, Span1, Sym};
use soundness::binders::symbols::{form_has, span_has, spans_have};
use std::alloc::{AllocError, Global};

/// A loop that may be taken next.
#[derive(Clone, Copy, Drop)]
pub(crate) struct Ready<'a> {
    /// The step's number.
    pub place: usize,
    pub symbol: Sym,
    pub lower: &'a [Lin],
    pub upper: &'a [Lin],
    /// How far its turns are apart.
    pub factor: i64,
    /// Whether it has one turn.
    pub is_single: bool,
}

/// Whether two lists of terms are the same.
pub(crate) fn have_same_terms(first: &[Multiple], second: &[Multiple]) -> bool
    ensures { result ≡ same_terms first.now second.now }
{
    first == second
}

/// Whether the last of so many numbers is at most this one.
fn ends_by(first: i64, count: i64, last: i64) -> bool
    ensures { result ≡ int_le (first +ℤ (count -ℤ pos 1)) last }
{
    i128::from(first) + (i128::from(count) - 1) <= i128::from(last)
}

/// Whether the last of so many numbers is this one.
fn ends_at(first: i64, count: i64, last: i64) -> bool
    ensures { result ≡ int_eq (first +ℤ (count -ℤ pos 1)) last }
{
    i128::from(first) + (i128::from(count) - 1) == i128::from(last)
}

/// Whether the upper form is so many less one above the lower one, or more.
fn is_gapless(lower: &Lin, count: i64, upper: &Lin) -> bool
    ensures { result ≡ is_gapless lower.now count upper.now }
{
    have_same_terms(upper.terms(), lower.terms())
        && ends_by(lower.constant(), count, upper.constant())
}

/// Whether the upper form is just so many less one above the lower one.
fn is_block(lower: &Lin, count: i64, upper: &Lin) -> bool
    ensures { result ≡ is_block lower.now count upper.now }
{
    have_same_terms(upper.terms(), lower.terms())
        && ends_at(lower.constant(), count, upper.constant())
}

/// Whether no upper form with the symbol leaves a gap behind a block of so many numbers.
fn are_gapless(symbol: Sym, lower: &Lin, count: i64, upper: &[Lin]) -> bool
    ensures { result ≡ list_all (is_gapless lower.now count) (naming symbol upper.now) }
{
    match upper {
        [] => true,
        [first, rest @ ..] => {
            (!form_has(symbol, first) || is_gapless(lower, count, first))
                && are_gapless(symbol, lower, count, rest)
        }
    }
}

/// Whether some upper form with the symbol ends a block of so many numbers.
fn some_is_block(symbol: Sym, lower: &Lin, count: i64, upper: &[Lin]) -> bool
    ensures { result ≡ list_any (is_block lower.now count) (naming symbol upper.now) }
{
    match upper {
        [] => false,
        [first, rest @ ..] => {
            (form_has(symbol, first) && is_block(lower, count, first))
                || some_is_block(symbol, lower, count, rest)
        }
    }
}

/// Whether blocks of so many numbers lie one beside another: no gap, and where no number may be met twice just so many.
fn are_blocks(exact: bool, symbol: Sym, lower: &Lin, count: i64, upper: &[Lin]) -> bool
    ensures { result ≡ are_blocks exact (λ a b. false) lower.now count (naming symbol upper.now) }
{
    count >= 1
        && (are_gapless(symbol, lower, count, upper)
            && (!exact || some_is_block(symbol, lower, count, upper)))
}

/// The form moved on to the last of so many numbers; None where that leaves the limits.
fn end_of(alloc: Global, form: &Lin, count: i64) -> Result<Option<Lin>, AllocError>
    requires { pos 1 ≤ℤ count }
    ensures { IfOk result (λ made. made ≡ combined form.now (pos 1) (number (count -ℤ pos 1))) }
{
    combined(alloc, form, 1, &Lin::number(alloc, count - 1))
}

/// The form with each end of the loop in the symbol's place, and those of the forms that have not the symbol.
fn ends(
    alloc: Global,
    symbol: Sym,
    form: &Lin,
    factor: i64,
    ends: &[Lin],
    forms: &[Lin],
) -> Result<Option<Forms>, AllocError>
    ensures { IfOk result (λ made. made ≡ joined (each_replaced form.now symbol factor ends.now) (Some (not_naming symbol forms.now))) }
{
    let mut made = Forms::new(alloc);
    if !push_replaced(alloc, &mut made, form, symbol, factor, ends)? {
        return Ok(None);
    }
    push_without(alloc, &mut made, symbol, forms)?;
    Ok(Some(made))
}

/// From the first block's beginning to the last block's end.
fn between(
    alloc: Global,
    turns: &Ready<'_>,
    span: &Span1,
    first: &Lin,
    last: &Lin,
    factor: i64,
) -> Result<Option<Span1>, AllocError>
    ensures { IfOk result (λ made. made ≡ span_from (joined (each_replaced first.now turns.now.symbol factor turns.now.lower.now) (Some (not_naming turns.now.symbol span.now.lower))) (joined (each_replaced last.now turns.now.symbol factor turns.now.upper.now) (Some (not_naming turns.now.symbol span.now.upper)))) }
{
    let below = span.lower.as_slice();
    let Some(lower) = ends(alloc, turns.symbol, first, factor, turns.lower, below)? else {
        return Ok(None);
    };
    let above = span.upper.as_slice();
    match ends(alloc, turns.symbol, last, factor, turns.upper, above)? {
        Some(upper) => Ok(Some(Span1 { lower, upper })),
        None => Ok(None),
    }
}

/// The span over all turns of a loop whose blocks begin at a form.
#[tactic(auto, using(crate::proofs::Factors::blocks_count))]
fn over_turns(
    alloc: Global,
    exact: bool,
    turns: &Ready<'_>,
    span: &Span1,
    first: &Lin,
    factor: i64,
) -> Result<Option<Span1>, AllocError>
    ensures { IfOk result (λ made. made ≡ over_turns exact (λ a b. false) turns.now.symbol (span_of turns.now.lower.now turns.now.upper.now) span.now first.now factor) }
{
    if !are_blocks(exact, turns.symbol, first, factor, span.upper.as_slice()) {
        return Ok(None);
    }
    match end_of(alloc, first, factor)? {
        Some(last) => between(alloc, turns, span, first, &last, factor),
        None => Ok(None),
    }
}

/// The span over all turns of a loop.
fn over_loop(
    alloc: Global,
    exact: bool,
    turns: &Ready<'_>,
    span: &Span1,
) -> Result<Option<Span1>, AllocError>
    ensures { IfOk result (λ made. made ≡ over_loop exact (λ a b. false) turns.now.symbol (span_of turns.now.lower.now turns.now.upper.now) span.now) }
{
    match only_with(turns.symbol, span.lower.as_slice()) {
        Some(first) => over_turns(alloc, exact, turns, span, first, first.factor(turns.symbol)),
        None => Ok(None),
    }
}

/// The one span that has the loop's symbol, taken over the loop's turns.
pub(crate) fn taken(
    alloc: Global,
    exact: bool,
    turns: &Ready<'_>,
    spans: &[Span1],
) -> Result<Option<Spans>, AllocError>
    ensures { IfOk result (λ made. made ≡ taken exact (λ a b. false) turns.now.symbol (span_of turns.now.lower.now turns.now.upper.now) spans.now) }
{
    match spans {
        [] => Ok(None),
        [first, rest @ ..] => {
            if !span_has(turns.symbol, first) {
                return before(alloc, first, taken(alloc, exact, turns, rest)?);
            }
            if spans_have(turns.symbol, rest) {
                return Ok(None);
            }
            match over_loop(alloc, exact, turns, first)? {
                Some(span) => Ok(Some(copied(alloc, rest)?.behind(span)?)),
                None => Ok(None),
            }
        }
    }
}
