//! How many places hold a span, and spans that are freed of the symbols of loops.

ghost use Rattle.std.specs.Prelude.{◌≡◌, ◌-◌, IfOk, [], Some};
ghost use Rattle.bounds.specs.Projection.Projection.{projected_span};
ghost use Rattle.sched.specs.Limited.{Gives};
ghost use Rattle.sched.specs.Regions as spec;
ghost use Rattle.sched.specs.Windows as windows;
ghost use Rattle.plan.specs.declared.stmt.Places.TheVariants.{From};
ghost use Rattle.sched.specs.Taken as taken;
ghost use Rattle.sched.specs.Windows.{size_below as size_below_of};

use crate::forms::{one_form, raised};
use crate::stop::Stop;
use bounds::projection::project_span;
use lin::{Lin, Scope, Span1, Sym};
use plan::Places;
use std::alloc::{AllocError, Global};

/// So many symbols, from one of them on.
#[tactic(auto, using(crate::proofs::Places::symbols_next, crate::proofs::Places::symbols_none))]
pub fn symbols_from(alloc: Global, first: Sym, count: usize) -> Result<Vec<Sym>, AllocError>
    ensures { IfOk result (λ v. v.items ≡ spec.symbols_from first (count - first)) }
{
    let mut symbols = Vec::new(alloc);
    for symbol in first..count {
        symbols.push(symbol)?;
    }
    Ok(symbols)
}

/// The span freed of symbols.
#[tactic(auto, using(crate::proofs::Stops::form_gives))]
pub fn projected(alloc: Global, scope: &Scope, symbols: &[Sym], span: &Span1) -> Result<Span1, Stop>
    ensures { Gives result (λ found. found) (projected_span scope.now symbols.now span.now) }
{
    match project_span(alloc, scope, symbols, span) {
        Ok(found) => Ok(found),
        Err(error) => Err(Stop::from(error)),
    }
}

/// The smaller of two numbers, where there are two.
pub fn fewer(one: Option<i64>, other: Option<i64>) -> Option<i64>
    ensures { result ≡ windows.fewer one other }
{
    match (one, other) {
        (Some(first), Some(second)) => {
            if first <= second {
                Some(first)
            } else {
                Some(second)
            }
        }
        (Some(first), None) => Some(first),
        (None, second) => second,
    }
}

// The most numbers from a lower form to an upper one.
fn size_between(
    alloc: Global,
    scope: &Scope,
    low: &Lin,
    high: &Lin,
) -> Result<Option<i64>, AllocError>
    ensures { IfOk result (λ size. size ≡ windows.size_between scope.now low.now high.now) }
{
    match scope.sup_of_difference(alloc, high, low)? {
        Some(most) => Ok(Some(most + 1)),
        None => Ok(None),
    }
}

/// The fewest of the numbers from a lower form to each of some upper ones.
pub fn size_below(
    alloc: Global,
    scope: &Scope,
    low: &Lin,
    highs: &[Lin],
) -> Result<Option<i64>, AllocError>
    ensures { IfOk result (λ size. size ≡ windows.size_below scope.now low.now highs.now) }
{
    match highs {
        [] => Ok(None),
        [high, rest @ ..] => {
            let first = size_between(alloc, scope, low, high)?;
            let others = size_below(alloc, scope, low, rest)?;
            Ok(fewer(first, others))
        }
    }
}

/// The span without the inner symbols; where there are none it stays as it is.
pub fn freed(alloc: Global, scope: &Scope, inner: &[Sym], span: &Span1) -> Result<Span1, Stop>
    ensures { Gives result (λ free. free) (taken.freed scope.now inner.now span.now) }
{
    match inner {
        [] => Ok(span.copy(alloc)?),
        [_first, ..] => projected(alloc, scope, inner, span),
    }
}

// ---- its places

fn at_least_one(size: Option<i64>) -> Option<i64>
    ensures { result ≡ taken.at_least_one size }
{
    match size {
        Some(size) => Some(if size <= 1 { 1 } else { size }),
        None => None,
    }
}

/// How many numbers there are at most from the form on.
pub fn count_from(
    alloc: Global,
    grid: &Scope,
    origin: &Lin,
    upper: &[Lin],
) -> Result<Option<i64>, AllocError>
    ensures { IfOk result (λ count. count ≡ taken.at_least_one (size_below_of grid.now origin.now upper.now)) }
{
    Ok(at_least_one(size_below(alloc, grid, origin, upper)?))
}

// A place and a count, where that is less than the least so far.
fn shorter(place: usize, count: Option<i64>, best: Option<(usize, i64)>) -> Option<(usize, i64)>
    ensures { result ≡ taken.shorter place count best }
{
    match (count, best) {
        (None, best) => best,
        (Some(count), None) => Some((place, count)),
        (Some(count), Some(known)) => {
            if count < known.1 {
                Some((place, count))
            } else {
                Some(known)
            }
        }
    }
}

/// The lower form from which on there are the fewest numbers, and how many.
pub fn shortest(
    alloc: Global,
    grid: &Scope,
    span: &Span1,
) -> Result<Option<(usize, i64)>, AllocError>
    ensures { IfOk result (λ best. best ≡ taken.shortest grid.now span.now) }
{
    let mut best: Option<(usize, i64)> = None;
    for (place, origin) in span.lower.as_slice().iter().enumerate() {
        let count = count_from(alloc, grid, origin, span.upper.as_slice())?;
        best = shorter(place, count, best);
    }
    Ok(best)
}

/// From a form on so many numbers.
pub fn run_of(alloc: Global, origin: &Lin, count: i64) -> Result<Span1, Stop>
    ensures { Gives result (λ span. span) (taken.run_of origin.now count) }
{
    let last = raised(alloc, origin, count.saturating_sub(1))?;
    let lower = one_form(alloc, origin.copy(alloc)?)?;
    let upper = one_form(alloc, last)?;
    Ok(Span1 { lower, upper })
}

/// So many places from a form on.
pub fn places_of(alloc: Global, origin: &Lin, count: i64) -> Result<Places, AllocError>
    ensures { IfOk result (λ places. places ≡ From origin.now (taken.places_count count)) }
{
    Ok(Places::From {
        origin: origin.copy(alloc)?,
        count: u64::try_from(count).unwrap_or(1),
    })
}
