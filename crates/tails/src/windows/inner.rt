//! What is bound inside a loop.

ghost use Rattle.std.specs.Prelude.{◌≡◌};
ghost use Rattle.std.specs.List.{list_all, list_any};
ghost use Rattle.soundness.specs.Around.{binds, inside, is_loop};
ghost use Rattle.soundness.specs.Binders.View.{binder_of, binders_of};
ghost use Rattle.tails.specs.Moves.{is_outer};
ghost use Rattle.tails.specs.Windows.Spans.{inside_or};

use lin::{Lin, Sym};
use soundness::binders::Binder;

/// Whether it is the loop of the symbol, or the grid's symbol.
fn is_loop(symbol: Sym, binder: &Binder<'_>) -> bool
    ensures { result ≡ is_loop symbol (binder_of binder.now) }
{
    match binder {
        Binder::Grid { symbol: bound, .. } | Binder::Ranged { symbol: bound, .. } => {
            *bound == symbol
        }
        Binder::Picked { .. } | Binder::Passed { .. } => false,
    }
}

/// What is bound inside the last loop of the symbol in the rest, or the inner ones where the rest has none.
fn inside_from<'b, 'a>(
    symbol: Sym,
    rest: &'b [Binder<'a>],
    inner: &'b [Binder<'a>],
) -> &'b [Binder<'a>]
    ensures { binders_of result.now ≡ inside_or symbol (binders_of rest.now) (binders_of inner.now) }
{
    match rest {
        [] => inner,
        [first, more @ ..] => {
            if is_loop(symbol, first) {
                inside_from(symbol, more, more)
            } else {
                inside_from(symbol, more, inner)
            }
        }
    }
}

/// What is bound inside the loop of the symbol: all, where it has no loop.
#[tactic(auto, using(crate::proofs::OfWindows::Loops::inside_all))]
pub(crate) fn inside<'b, 'a>(symbol: Sym, binders: &'b [Binder<'a>]) -> &'b [Binder<'a>]
    ensures { binders_of result.now ≡ inside symbol (binders_of binders.now) }
{
    inside_from(symbol, binders, binders)
}

/// Whether it binds the symbol.
fn binds(symbol: Sym, binder: &Binder<'_>) -> bool
    ensures { result ≡ binds symbol (binder_of binder.now) }
{
    match binder {
        Binder::Grid { symbol: bound, .. }
        | Binder::Ranged { symbol: bound, .. }
        | Binder::Picked { symbol: bound, .. } => symbol == *bound,
        Binder::Passed { .. } => false,
    }
}

/// Whether one of them binds the symbol.
#[tactic(auto, using(crate::proofs::OfWindows::Loops::any_of_last))]
fn is_bound(symbol: Sym, binders: &[Binder<'_>]) -> bool
    ensures { result ≡ list_any (binds symbol) (binders_of binders.now) }
{
    match binders {
        [] => false,
        [first, rest @ ..] => binds(symbol, first) || is_bound(symbol, rest),
    }
}

/// Whether no symbol of the form is bound by them.
pub(crate) fn is_outer(binders: &[Binder<'_>], form: &Lin) -> bool
    ensures { result ≡ is_outer (binders_of binders.now) form.now }
{
    form.terms()
        .iter()
        .all(|term| !is_bound(term.symbol, binders))
}

/// Whether no symbol of the forms is bound by them.
pub(crate) fn are_outer(binders: &[Binder<'_>], forms: &[Lin]) -> bool
    ensures { result ≡ list_all (is_outer (binders_of binders.now)) forms.now }
{
    forms.iter().all(|form| is_outer(binders, form))
}
