//! Windows, and the test that a span is one.

ghost use Rattle.std.specs.Prelude.{◌≡◌, true, IfOk, OnOk};
ghost use Rattle.std.specs.List.{list_all, list_any};
ghost use Rattle.plan.specs.declared.stmt.Places.TheVariants.{From};
ghost use Rattle.plan.specs.Symbols.{Symbols};
ghost use Rattle.soundness.specs.Origins.{Given};
ghost use Rattle.soundness.specs.Obligations.{Respects, Suited};
ghost use Rattle.soundness.specs.Shown.{is_seated};
ghost use Rattle.soundness.specs.Nests.Tests.{is_short};
ghost use Rattle.soundness.specs.Binders.View.{binders_of};
ghost use Rattle.tails.specs.Windows.Spans.{IsWindow, is_rising, is_rising_form, is_window};

use crate::windows::inner::{inside, is_outer};
use lin::{Lin, Span1, Sym};
use plan::Places;
use soundness::binders::{Binder, Bounds};
use std::alloc::{AllocError, Global};

/// The rows from the lower to the upper end of a span at each turn of a loop, and how many of them the
/// places of a buffer hold.
#[derive(Clone, Copy, Drop)]
pub struct Window<'a> {
    /// The symbol of the loop.
    pub symbol: Sym,
    /// How many places there are, 0 where any number of rows has places.
    pub fold: u64,
    pub span: &'a Span1,
}

/// Whether the form never falls along the loop, and names no symbol that is bound inside the loop.
fn is_rising_form(symbol: Sym, inner: &[Binder<'_>], form: &Lin) -> bool
    ensures { result ≡ is_rising_form symbol (binders_of inner.now) form.now }
{
    form.factor(symbol) >= 0 && is_outer(inner, form)
}

/// Whether none of the forms falls along the loop.
fn are_rising(symbol: Sym, inner: &[Binder<'_>], forms: &[Lin]) -> bool
    ensures { result ≡ list_all (is_rising_form symbol (binders_of inner.now)) forms.now }
{
    forms.iter().all(|form| is_rising_form(symbol, inner, form))
}

/// Whether the span has both ends, and neither falls along the loop.
fn is_rising(symbol: Sym, inner: &[Binder<'_>], span: &Span1) -> bool
    ensures { result ≡ is_rising symbol (binders_of inner.now) span.now }
{
    !span.lower.as_slice().is_empty()
        && !span.upper.as_slice().is_empty()
        && are_rising(symbol, inner, span.lower.as_slice())
        && are_rising(symbol, inner, span.upper.as_slice())
}

/// Whether from one of the forms on so many places are shown to hold the span.
fn is_short_from<B: Bounds>(
    alloc: Global,
    bounds: &B,
    binders: &[Binder<'_>],
    span: &Span1,
    count: u64,
    forms: &[Lin],
) -> Result<bool, AllocError>
    ensures { IfOk result (λ yes. yes ≡ list_any (λ l. is_seated (B.rules bounds.now) (binders_of binders.now) span.now (From l count)) forms.now) }
{
    match forms {
        [] => Ok(false),
        [first, rest @ ..] => {
            let origin = first.copy(alloc)?;
            if bounds.is_seated(alloc, binders, span, &Places::From { origin, count })? {
                Ok(true)
            } else {
                is_short_from(alloc, bounds, binders, span, count, rest)
            }
        }
    }
}

impl Window<'_> {
    /// Whether the span is shown to be a window: neither end falls as the loop's turns go on, and there
    /// are at most as many rows as places. The binders are those round the line at which the rows are
    /// held, from the outermost on.
    pub fn sound<B: Bounds>(
        &self,
        alloc: Global,
        bounds: &B,
        binders: &[Binder<'_>],
    ) -> Result<bool, AllocError>
        ensures exact { IfOk result (λ yes. yes ≡ is_window (B.rules bounds.now) (binders_of binders.now) self.now.symbol self.now.fold self.now.span.now) }
    {
        if !is_rising(self.symbol, inside(self.symbol, binders), self.span) {
            return Ok(false);
        }
        if self.fold == 0 {
            return Ok(true);
        }
        is_short_from(
            alloc,
            bounds,
            binders,
            self.span,
            self.fold,
            self.span.lower.as_slice(),
        )
    }
}
