//! Whether marked loops are shown to have few turns.

ghost use Rattle.std.specs.Prelude.{◌≡◌, IfOk};
ghost use Rattle.soundness.specs.Binders.View.{binders_of};
ghost use Rattle.soundness.specs.Nests.Tests.{is_short};
ghost use Rattle.rules.specs.Widths.Widths.{has_few_turns, is_marked};

use lin::Span1;
use plan::{Kind, Places};
use soundness::binders::{Binder, Bounds};
use std::alloc::{AllocError, Global};

/// The most turns of a marked loop.
const MOST_TURNS: u64 = 64;

/// Whether the loop is marked: its turns are written out, or are lanes.
fn is_marked(kind: Kind) -> bool
    ensures { result ≡ is_marked kind }
{
    match kind {
        Kind::Unroll | Kind::Vector => true,
        Kind::Serial => false,
    }
}

/// Whether a span is shown to have at most so many numbers.
fn is_short<B: Bounds>(
    alloc: Global,
    bounds: &B,
    binders: &[Binder<'_>],
    span: &Span1,
    count: u64,
) -> Result<bool, AllocError>
    ensures { IfOk result (λ yes. yes ≡ is_short (B.rules bounds.now) (binders_of binders.now) span.now count) }
{
    for form in span.lower.as_slice() {
        let origin = form.copy(alloc)?;
        if bounds.is_seated(alloc, binders, span, &Places::From { origin, count })? {
            return Ok(true);
        }
    }
    Ok(false)
}

/// Whether a loop is shown to have few turns, if it is marked.
pub(crate) fn has_few_turns<B: Bounds>(
    alloc: Global,
    bounds: &B,
    binders: &[Binder<'_>],
    span: &Span1,
    kind: Kind,
) -> Result<bool, AllocError>
    ensures { IfOk result (λ yes. yes ≡ has_few_turns (B.rules bounds.now) (binders_of binders.now) span.now kind) }
{
    if is_marked(kind) {
        is_short(alloc, bounds, binders, span, MOST_TURNS)
    } else {
        Ok(true)
    }
}
