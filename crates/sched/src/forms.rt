//! Spans and regions of numbers and forms, and which of several forms bounds show to be the end of a side.

ghost use Rattle.std.specs.Prelude.{◌≡◌, [], ◌∷◌, ◌+◌, ◌-◌, ◌+ℤ◌, ◌-ℤ◌, pos, IfOk};
ghost use Rattle.lin.specs.Regions.{span_inside};
ghost use Rattle.bounds.specs.Spans.{numbers};
ghost use Rattle.sched.specs.Around as spec;
ghost use Rattle.sched.specs.Bounded as limits;
ghost use Rattle.sched.specs.Limited.{Gives};
ghost use Rattle.lin.specs.Forms.{combined, number};
ghost use Rattle.sched.specs.Parted as parted;

use crate::Extent;
use crate::stop::Stop;
use lin::{Forms, Lin, Region, Scope, Span1};
use plan::Pick;
use std::alloc::{AllocError, Global};

/// The list of one form.
pub fn one_form(alloc: Global, form: Lin) -> Result<Forms, AllocError>
    ensures { IfOk result (λ forms. forms ≡ form ∷ []) }
{
    let mut forms = Forms::new(alloc);
    forms.push(form)?;
    Ok(forms)
}

/// The list of two forms.
pub fn two_forms(alloc: Global, first: Lin, second: Lin) -> Result<Forms, AllocError>
    ensures { IfOk result (λ forms. forms ≡ first ∷ second ∷ []) }
{
    let mut forms = one_form(alloc, first)?;
    forms.push(second)?;
    Ok(forms)
}

/// The span of a form alone.
pub(crate) fn exactly(alloc: Global, form: &Lin) -> Result<Span1, AllocError>
    ensures { IfOk result (λ span. span ≡ spec.exactly form.now) }
{
    let lower = one_form(alloc, form.copy(alloc)?)?;
    let upper = one_form(alloc, form.copy(alloc)?)?;
    Ok(Span1 { lower, upper })
}

/// The span of these numbers and those between them.
pub fn between(alloc: Global, low: i64, high: i64) -> Result<Span1, AllocError>
    ensures { IfOk result (λ span. span ≡ numbers low high) }
{
    let lower = one_form(alloc, Lin::number(alloc, low))?;
    let upper = one_form(alloc, Lin::number(alloc, high))?;
    Ok(Span1 { lower, upper })
}

/// The span without forms, which holds every number.
pub(crate) fn anything(alloc: Global) -> Span1
    ensures { result ≡ spec.anything }
{
    Span1 {
        lower: Forms::new(alloc),
        upper: Forms::new(alloc),
    }
}

/// The last number of an extent; one below the first where it has none.
pub fn last_of(extent: &Extent) -> i64
    ensures { result ≡ extent.now.low +ℤ pos extent.now.count -ℤ pos 1 }
{
    i64::from(extent.low) + i64::from(extent.count) - 1
}

/// All numbers of the extent.
pub fn whole(alloc: Global, extent: &Extent) -> Result<Span1, AllocError>
    ensures { IfOk result (λ span. span ≡ limits.whole extent.now) }
{
    between(alloc, i64::from(extent.low), last_of(extent))
}

/// A number and a multiple of a form.
#[tactic(auto, using(crate::proofs::Stops::form_gives))]
pub fn multiple_from(alloc: Global, low: i64, factor: i64, form: &Lin) -> Result<Lin, Stop>
    ensures { Gives result (λ made. made) (combined (number low) factor form.now) }
{
    match Lin::number(alloc, low).plus_multiple(alloc, factor, form) {
        Ok(made) => Ok(made),
        Err(error) => Err(Stop::from(error)),
    }
}

/// The form and a number more.
pub fn raised(alloc: Global, form: &Lin, by: i64) -> Result<Lin, Stop>
    ensures { Gives result (λ made. made) (combined (number by) (pos 1) form.now) }
{
    multiple_from(alloc, by, 1, form)
}

// The region of one span.
fn alone(alloc: Global, span: &Span1) -> Result<Region, AllocError>
    ensures { IfOk result (λ region. region ≡ span.now ∷ []) }
{
    let mut region = Region::new(alloc);
    region.push(span.copy(alloc)?)?;
    Ok(region)
}

/// Whether each number of a span is shown to be one of another.
pub fn is_inside(
    alloc: Global,
    scope: &Scope,
    inner: &Span1,
    outer: &Span1,
) -> Result<bool, AllocError>
    ensures { IfOk result (λ yes. yes ≡ span_inside scope.now inner.now outer.now) }
{
    let inner = alone(alloc, inner)?;
    let outer = alone(alloc, outer)?;
    scope.inside(alloc, &inner, &outer)
}

/// So many numbers of 32 bits as ones of 64.
pub fn widened(alloc: Global, numbers: &[u32]) -> Result<Vec<u64>, AllocError>
    ensures { IfOk result (λ wide. wide.items ≡ numbers.now) }
{
    let mut wide = Vec::new(alloc);
    for number in numbers {
        wide.push(u64::from(*number))?;
    }
    Ok(wide)
}

// Whether the form is shown to be at most the other, or at least.
fn is_told_by(
    alloc: Global,
    scope: &Scope,
    form: &Lin,
    other: &Lin,
    pick: Pick,
) -> Result<bool, AllocError>
    ensures { IfOk result (λ yes. yes ≡ parted.is_told_by scope.now pick form.now other.now) }
{
    match pick {
        Pick::Min => scope.at_most(alloc, form, other),
        Pick::Max => scope.at_most(alloc, other, form),
    }
}

/// The same of each of the others.
pub fn is_telling(
    alloc: Global,
    scope: &Scope,
    form: &Lin,
    others: &[Lin],
    pick: Pick,
) -> Result<bool, AllocError>
    ensures { IfOk result (λ yes. yes ≡ parted.is_telling scope.now pick form.now others.now) }
{
    match others {
        [] => Ok(true),
        [other, rest @ ..] => {
            if is_told_by(alloc, scope, form, other, pick)? {
                is_telling(alloc, scope, form, rest, pick)
            } else {
                Ok(false)
            }
        }
    }
}

// The first of some forms alone that is shown to be the smallest or largest of all; all of them where none is.
fn told_among(
    alloc: Global,
    scope: &Scope,
    all: &Forms,
    forms: &[Lin],
    pick: Pick,
) -> Result<Forms, AllocError>
    ensures { IfOk result (λ told. told ≡ parted.told_among scope.now pick all.now forms.now) }
{
    match forms {
        [] => all.copy(alloc),
        [form, rest @ ..] => {
            if is_telling(alloc, scope, form, all.as_slice(), pick)? {
                one_form(alloc, form.copy(alloc)?)
            } else {
                told_among(alloc, scope, all, rest, pick)
            }
        }
    }
}

/// The same; of one form it is that.
pub fn told_forms(
    alloc: Global,
    scope: &Scope,
    forms: &Forms,
    pick: Pick,
) -> Result<Forms, AllocError>
    ensures { IfOk result (λ told. told ≡ parted.told_forms scope.now pick forms.now) }
{
    match forms.as_slice() {
        [] => forms.copy(alloc),
        [only] => one_form(alloc, only.copy(alloc)?),
        [_first, _second, ..] => told_among(alloc, scope, forms, forms.as_slice(), pick),
    }
}
