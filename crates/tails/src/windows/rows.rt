//! The rows that a turn of a loop needs beyond those of the turn before.

ghost use Rattle.std.specs.Prelude.{◌≡◌, pos, IfOk};
ghost use Rattle.lin.specs.Forms.{combined, number};
ghost use Rattle.tails.specs.Windows.Arms.{region_with, row_above, rows_from};

use crate::spans::{Spans, copied};
use lin::{Lin, LinError, Span1, Sym};
use std::alloc::{AllocError, Global};

/// The form and so much more; None where that leaves the limits.
fn plus(alloc: Global, form: &Lin, amount: i64) -> Result<Option<Lin>, AllocError>
    ensures { IfOk result (λ made. made ≡ combined form.now (pos 1) (number amount)) }
{
    let amount = Lin::number(alloc, amount);
    match form.plus_multiple(alloc, 1, &amount) {
        Ok(made) => Ok(Some(made)),
        Err(LinError::Limit) => Ok(None),
        Err(LinError::Memory) => Err(AllocError),
    }
}

/// The row above where the form was in the turn before; None where that leaves the limits.
#[tactic(auto, using(crate::proofs::OfWindows::Parts::past_limits))]
pub(crate) fn row_above(alloc: Global, symbol: Sym, last: &Lin) -> Result<Option<Lin>, AllocError>
    ensures { IfOk result (λ made. made ≡ row_above symbol last.now) }
{
    if last.is_within_limits() {
        plus(alloc, last, 1 - last.factor(symbol))
    } else {
        Ok(None)
    }
}

/// The span's rows from a form on.
pub(crate) fn rows_from(alloc: Global, span: &Span1, from: Lin) -> Result<Span1, AllocError>
    ensures { IfOk result (λ rows. rows ≡ rows_from span.now from) }
{
    let mut lower = span.lower.copy(alloc)?;
    lower.push(from)?;
    Ok(Span1 {
        lower,
        upper: span.upper.copy(alloc)?,
    })
}

/// The region with a span in the place of a dimension's.
#[tactic(auto, using(crate::proofs::OfWindows::Parts::span_alone, crate::proofs::OfWindows::Parts::span_here, crate::proofs::OfWindows::Parts::span_later))]
pub(crate) fn region_with(
    alloc: Global,
    dimension: u64,
    region: &[Span1],
    span: Span1,
) -> Result<Spans, AllocError>
    ensures { IfOk result (λ made. made ≡ region_with dimension region.now span) }
{
    match region {
        [] => Spans::new(alloc).behind(span),
        [first, rest @ ..] => match dimension.checked_sub(1) {
            Some(less) => {
                let first = first.copy(alloc)?;
                region_with(alloc, less, rest, span)?.behind(first)
            }
            None => copied(alloc, rest)?.behind(span),
        },
    }
}
