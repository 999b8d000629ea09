//! Where a symbol stands: in forms, spans, binders and places.

ghost use Rattle.std.specs.Prelude.{◌≡◌, ◌==◌, ◌&&◌, not};
ghost use Rattle.std.specs.List.{list_all, list_any};
ghost use Rattle.soundness.specs.Obligations.{binder_has, places_have, span_has};
ghost use Rattle.soundness.specs.Binders.View.{binders_of};
ghost use Rattle.soundness.specs.Nests.Tests.{are_apart, is_new, is_outside, has_ends};
ghost use Rattle.rules.specs.Nests.View.{loop_of, loops_of};

use crate::nests::lines::PlainLoop;
use lin::{Span1, Sym};
use plan::Places;
use soundness::binders::Binder;
use soundness::binders::symbols::{binder_has, places_have, span_has};

/// Whether the symbol is bound by one of the binders or stands in one.
#[tactic(auto, using(crate::proofs::Chains::any_of_last))]
fn binders_have(symbol: Sym, binders: &[Binder<'_>]) -> bool
    ensures { result ≡ list_any (binder_has symbol) (binders_of binders.now) }
{
    match binders {
        [] => false,
        [first, rest @ ..] => binder_has(symbol, first) || binders_have(symbol, rest),
    }
}

/// Whether the symbol stands in one of the places.
fn some_places_have(symbol: Sym, places: &[Places]) -> bool
    ensures { result ≡ list_any (places_have symbol) places.now }
{
    places.iter().any(|one| places_have(symbol, one))
}

/// Whether the loop's symbol stands in no binder and in no place.
fn is_new(binders: &[Binder<'_>], places: &[Places], turns: &PlainLoop<'_>) -> bool
    ensures { result ≡ is_new (binders_of binders.now) places.now (loop_of turns.now) }
{
    !binders_have(turns.symbol, binders) && !some_places_have(turns.symbol, places)
}

/// Whether each loop's symbol stands in no binder and in no place.
pub(crate) fn are_new(binders: &[Binder<'_>], places: &[Places], loops: &[PlainLoop<'_>]) -> bool
    ensures { result ≡ list_all (is_new (binders_of binders.now) places.now) (loops_of loops.now) }
{
    match loops {
        [] => true,
        [first, rest @ ..] => is_new(binders, places, first) && are_new(binders, places, rest),
    }
}

/// Whether the span has both ends.
pub(crate) fn has_ends(span: &Span1) -> bool
    ensures { result ≡ has_ends span.now }
{
    !span.lower.as_slice().is_empty() && !span.upper.as_slice().is_empty()
}

/// Whether the span has none of the loops' symbols.
fn has_none(loops: &[PlainLoop<'_>], span: &Span1) -> bool
    ensures { result ≡ list_all (λ l. not (span_has l.symbol span.now)) (loops_of loops.now) }
{
    match loops {
        [] => true,
        [first, rest @ ..] => !span_has(first.symbol, span) && has_none(rest, span),
    }
}

/// Whether the loop's span has both ends, and none of the loops' symbols.
fn is_outside(loops: &[PlainLoop<'_>], turns: &PlainLoop<'_>) -> bool
    ensures { result ≡ is_outside (loops_of loops.now) (loop_of turns.now) }
{
    has_ends(turns.span) && has_none(loops, turns.span)
}

/// Whether the span of each loop of `some` has both ends, and none of the symbols of all loops.
pub(crate) fn are_outside<'a>(loops: &[PlainLoop<'a>], some: &[PlainLoop<'a>]) -> bool
    ensures { result ≡ list_all (is_outside (loops_of loops.now)) (loops_of some.now) }
{
    match some {
        [] => true,
        [first, rest @ ..] => is_outside(loops, first) && are_outside(loops, rest),
    }
}

/// Whether the symbol is that of one of the loops.
fn is_bound(symbol: Sym, loops: &[PlainLoop<'_>]) -> bool
    ensures { result ≡ list_any (λ m. symbol == m.symbol) (loops_of loops.now) }
{
    match loops {
        [] => false,
        [first, rest @ ..] => symbol == first.symbol || is_bound(symbol, rest),
    }
}

/// Whether no two loops have one symbol.
pub(crate) fn are_apart(loops: &[PlainLoop<'_>]) -> bool
    ensures { result ≡ are_apart (loops_of loops.now) }
{
    match loops {
        [] => true,
        [first, rest @ ..] => !is_bound(first.symbol, rest) && are_apart(rest),
    }
}
