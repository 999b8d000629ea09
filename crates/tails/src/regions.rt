//! Regions that lie in what is reached.

ghost use Rattle.std.specs.Prelude.{◌≡◌, Some, map, false, IfOk};
ghost use Rattle.soundness.specs.Shown.{are_within};
ghost use Rattle.soundness.specs.Binders.View.{binder_of, binders_of};
ghost use Rattle.tails.specs.Moves.{expanded};
ghost use Rattle.tails.specs.Maps.{lies_within, or_these, spelled, spelled_by, spelled_out};

use crate::forms::expanded;
use crate::spans::Spans;
use lin::{Forms, Lin, Span1, Sym};
use plan::Pick;
use soundness::binders::{Binder, Bounds};
use std::alloc::{AllocError, Global};

/// The forms with the members in the place of the name, or where that fails the forms.
fn members_or_same(
    alloc: Global,
    symbol: Sym,
    members: &[Lin],
    forms: Forms,
) -> Result<Forms, AllocError>
    ensures { IfOk result (λ made. made ≡ or_these forms (expanded false (λ a b. false) symbol members.now forms)) }
{
    match expanded(alloc, symbol, members, forms.as_slice())? {
        Some(made) => Ok(made),
        None => Ok(forms),
    }
}

/// The span with the members in the name's place, where all of them count.
fn spelled_by(
    alloc: Global,
    symbol: Sym,
    pick: Pick,
    members: &[Lin],
    span: Span1,
) -> Result<Span1, AllocError>
    ensures { IfOk result (λ made. made ≡ spelled_by symbol pick members.now span) }
{
    let Span1 { lower, upper } = span;
    match pick {
        Pick::Min => Ok(Span1 {
            lower,
            upper: members_or_same(alloc, symbol, members, upper)?,
        }),
        Pick::Max => Ok(Span1 {
            lower: members_or_same(alloc, symbol, members, lower)?,
            upper,
        }),
    }
}

/// The span with the binder's name spelled out, if it gives one.
fn spelled(alloc: Global, binder: &Binder<'_>, span: Span1) -> Result<Span1, AllocError>
    ensures { IfOk result (λ made. made ≡ spelled (binder_of binder.now) span) }
{
    match binder {
        Binder::Picked {
            symbol,
            pick,
            forms,
        } => {
            let members = forms.as_slice();
            if members.is_empty() {
                Ok(span)
            } else {
                spelled_by(alloc, *symbol, *pick, members, span)
            }
        }
        Binder::Grid { .. } | Binder::Ranged { .. } | Binder::Passed { .. } => Ok(span),
    }
}

/// The span with the names around spelled out, the innermost first.
fn spelled_out(alloc: Global, binders: &[Binder<'_>], span: &Span1) -> Result<Span1, AllocError>
    ensures { IfOk result (λ made. made ≡ spelled_out (binders_of binders.now) span.now) }
{
    match binders {
        [] => span.copy(alloc),
        [first, rest @ ..] => spelled(alloc, first, spelled_out(alloc, rest, span)?),
    }
}

/// The spans with the names around spelled out.
fn all_spelled_out(
    alloc: Global,
    binders: &[Binder<'_>],
    spans: &[Span1],
) -> Result<Spans, AllocError>
    ensures { IfOk result (λ made. made ≡ map (spelled_out (binders_of binders.now)) spans.now) }
{
    match spans {
        [] => Ok(Spans::new(alloc)),
        [first, rest @ ..] => {
            let span = spelled_out(alloc, binders, first)?;
            all_spelled_out(alloc, binders, rest)?.behind(span)
        }
    }
}

/// Whether each span is shown to lie in that of the same number, and there are as many of the one as of the other.
fn are_within<B: Bounds>(
    alloc: Global,
    bounds: &B,
    binders: &[Binder<'_>],
    inner: &[Span1],
    outer: &[Span1],
) -> Result<bool, AllocError>
    ensures { IfOk result (λ yes. yes ≡ are_within (B.rules bounds.now) (binders_of binders.now) inner.now outer.now) }
{
    match (inner, outer) {
        ([], []) => Ok(true),
        ([], [_, ..]) => Ok(false),
        ([_, ..], []) => Ok(false),
        ([first, inner @ ..], [second, outer @ ..]) => {
            if bounds.is_within(alloc, binders, first, second)? {
                are_within(alloc, bounds, binders, inner, outer)
            } else {
                Ok(false)
            }
        }
    }
}

/// Whether the region is shown to lie in what is reached.
pub(crate) fn lies_within<B: Bounds>(
    alloc: Global,
    bounds: &B,
    binders: &[Binder<'_>],
    region: &[Span1],
    spans: &[Span1],
) -> Result<bool, AllocError>
    ensures { IfOk result (λ yes. yes ≡ lies_within (B.rules bounds.now) (binders_of binders.now) region.now (Some spans.now)) }
{
    let spelled = all_spelled_out(alloc, binders, spans)?;
    are_within(alloc, bounds, binders, region, spelled.as_slice())
}
