//! What bounds show of the ends of spans.

ghost use Rattle.std.specs.Prelude.{◌≡◌, IfOk};
ghost use Rattle.std.specs.Option.{option_copied};
ghost use Rattle.sched.specs.Limited.{Gives};
ghost use Rattle.blocks.specs.Parted as parted;

use lin::{Forms, Lin, Scope, Span1};
use plan::Pick;
use sched::forms::{is_telling, raised, told_forms};
use sched::stop::Stop;
use std::alloc::{AllocError, Global};

/// The span by one form on each side where on that one is shown to be its end, as of two numbers one is.
pub(crate) fn told_span(alloc: Global, scope: &Scope, span: &Span1) -> Result<Span1, AllocError>
    ensures { IfOk result (λ told. told ≡ parted.told_span scope.now span.now) }
{
    let lower = told_forms(alloc, scope, &span.lower, Pick::Max)?;
    let upper = told_forms(alloc, scope, &span.upper, Pick::Min)?;
    Ok(Span1 { lower, upper })
}

// Whether so many numbers behind the form none of the others is passed.
fn has_further_from(
    alloc: Global,
    scope: &Scope,
    low: &Lin,
    upper: &[Lin],
    by: i64,
) -> Result<bool, Stop>
    ensures { Gives result (λ yes. yes) (parted.has_further_from scope.now upper.now by low.now) }
{
    let form = raised(alloc, low, by)?;
    Ok(is_telling(alloc, scope, &form, upper, Pick::Min)?)
}

// The same of each of these forms.
fn have_further(
    alloc: Global,
    scope: &Scope,
    lower: &[Lin],
    upper: &[Lin],
    by: i64,
) -> Result<bool, Stop>
    ensures { Gives result (λ yes. yes) (parted.have_further scope.now upper.now by lower.now) }
{
    match lower {
        [] => Ok(true),
        [low, rest @ ..] => {
            if has_further_from(alloc, scope, low, upper, by)? {
                have_further(alloc, scope, rest, upper, by)
            } else {
                Ok(false)
            }
        }
    }
}

/// Whether so many numbers behind each lower form no upper form of the span is passed.
pub(crate) fn has_further(alloc: Global, scope: &Scope, span: &Span1, by: i64) -> Result<bool, Stop>
    ensures { Gives result (λ yes. yes) (parted.has_further scope.now span.now by) }
{
    have_further(
        alloc,
        scope,
        span.lower.as_slice(),
        span.upper.as_slice(),
        by,
    )
}

// Whether each of these forms is shown to be at most each of the others.
fn are_below(alloc: Global, scope: &Scope, lower: &[Lin], forms: &[Lin]) -> Result<bool, AllocError>
    ensures { IfOk result (λ yes. yes ≡ parted.are_below scope.now lower.now forms.now) }
{
    match lower {
        [] => Ok(true),
        [form, rest @ ..] => {
            if is_telling(alloc, scope, form, forms, Pick::Min)? {
                are_below(alloc, scope, rest, forms)
            } else {
                Ok(false)
            }
        }
    }
}

/// Whether each of the forms is shown to be at least the first number that is kept. Of an update it is not asked.
pub(crate) fn is_behind(
    alloc: Global,
    scope: &Scope,
    kept: Option<&Span1>,
    forms: &Forms,
) -> Result<bool, AllocError>
    ensures { IfOk result (λ yes. yes ≡ parted.is_behind scope.now (option_copied kept.entry) forms.now) }
{
    match kept {
        Some(kept) => are_below(alloc, scope, kept.lower.as_slice(), forms.as_slice()),
        None => Ok(true),
    }
}
