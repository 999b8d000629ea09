//! How many numbers a window has, and which folds have places for them.

ghost use Rattle.std.specs.Prelude.{◌≡◌, IfOk};
ghost use Rattle.regions.specs.Windows as spec;

use lin::{Lin, Scope, Span1};
use sched::Fold;
use sched::windows::{fewer, size_below};
use std::alloc::{AllocError, Global};
use tree::token::Name;

fn size_within(
    alloc: Global,
    scope: &Scope,
    lows: &[Lin],
    highs: &[Lin],
) -> Result<Option<i64>, AllocError>
    ensures { IfOk result (λ size. size ≡ spec.size_within scope.now lows.now highs.now) }
{
    match lows {
        [] => Ok(None),
        [low, rest @ ..] => {
            let first = size_below(alloc, scope, low, highs)?;
            let others = size_within(alloc, scope, rest, highs)?;
            Ok(fewer(first, others))
        }
    }
}

/// How many numbers the window of a span has: the smallest over all pairs of a lower and an upper form.
pub fn window_size(alloc: Global, scope: &Scope, span: &Span1) -> Result<Option<i64>, AllocError>
    ensures { IfOk result (λ size. size ≡ spec.window_size scope.now span.now) }
{
    size_within(alloc, scope, span.lower.as_slice(), span.upper.as_slice())
}

// Whether so many places hold a window.
fn holds_window(size: Option<i64>, places: u32) -> bool
    ensures { result ≡ spec.holds_window size places }
{
    match size {
        Some(size) => size <= i64::from(places),
        None => false,
    }
}

// Whether a fold is one of the variable along which a function slides, with places for the window.
fn fits(variable: &Name, size: Option<i64>, fold: &Fold) -> bool
    ensures { result ≡ spec.fits variable.now size fold.now }
{
    fold.dimension.as_str() == variable.as_str() && holds_window(size, fold.factor)
}

/// Whether each fold is one of the variable along which a function slides, with places for a window of this size.
pub(crate) fn all_fit(variable: &Name, size: Option<i64>, folds: &[Fold]) -> bool
    ensures { result ≡ spec.all_fit variable.now size folds.now }
{
    folds.iter().all(|fold| fits(variable, size, fold))
}
