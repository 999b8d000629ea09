//! Upper bounds of forms that name no inner symbol, found by a search over the bounds of the inner symbols.

ghost use Rattle.std.specs.Prelude.{◌≡◌, ◌+◌, ◌<◌, ◌≤◌, length, IfOk, IsTrue, MatchOption, IfSome, map};
ghost use Rattle.lin.specs.Forms.{is_within_limits, combined};
ghost use Rattle.lin.specs.Search.{total};
ghost use Rattle.bounds.specs.Projection.Elimination.{is_inner, names_inner, bounds_itself, is_eliminated, both, that_count, bounds_below, replacements_below, branch_bounds, branch_cost, eliminated};

use crate::{joined, union};
use lin::{Forms, Lin, LinError, Scope, Sym};
use std::alloc::{AllocError, Global};

/// The most replacements that a search makes.
const MOST_REPLACEMENTS: usize = 4096;

/// Whether a symbol is one of the inner ones.
fn is_inner(inner: &[Sym], symbol: Sym) -> bool
    ensures { result ≡ is_inner inner.now symbol }
{
    inner.iter().any(|known| *known == symbol)
}

/// Whether a form names an inner symbol.
pub(crate) fn names_inner(inner: &[Sym], form: &Lin) -> bool
    ensures { result ≡ names_inner inner.now form.now }
{
    form.terms().iter().any(|term| is_inner(inner, term.symbol))
}

/// Whether a symbol is to be eliminated from a form that has it with this factor.
fn is_eliminated(inner: &[Sym], symbol: Sym, factor: i64) -> bool
    ensures { result ≡ is_eliminated inner.now symbol factor }
{
    factor != 0 && is_inner(inner, symbol)
}

/// The bounds that a form is: itself, or none where it still names an inner symbol.
fn bounds_itself(alloc: Global, inner: &[Sym], form: &Lin) -> Result<Forms, AllocError>
    ensures { IfOk result (λ bounds. bounds ≡ bounds_itself inner.now form.now) }
{
    let mut bounds = Forms::new(alloc);
    if !names_inner(inner, form) {
        bounds.push(form.copy(alloc)?)?;
    }
    Ok(bounds)
}

/// The bounds of two results: of both where the smaller counts, their union where the larger does. None where one of
/// the two left the limits.
pub(crate) fn both(
    alloc: Global,
    scope: &Scope,
    largest: bool,
    first: Option<Forms>,
    second: Option<Forms>,
) -> Result<Option<Forms>, AllocError>
    ensures { IfOk result (λ found. found ≡ both scope.now largest first second) }
{
    match (first, second) {
        (Some(first), Some(second)) => {
            if largest {
                union(alloc, scope, true, first.as_slice(), second.as_slice())
            } else {
                joined(alloc, first.as_slice(), second.as_slice())
            }
        }
        _ => Ok(None),
    }
}

/// What a search found: the bounds, none where a form left the limits, and how many replacements are left.
#[derive(Drop)]
struct Found {
    bounds: Option<Forms>,
    left: usize,
}

/// Eliminates the inner symbols below `earlier`, the latest first, by at most `budget` replacements; None where that
/// takes more.
#[cycle(search)]
fn search(
    alloc: Global,
    scope: &Scope,
    inner: &[Sym],
    earlier: usize,
    form: &Lin,
    budget: usize,
) -> Result<Option<Found>, AllocError>
    requires form { IsTrue (is_within_limits form.now) }
    requires earlier { earlier ≤ length scope.now }
    ensures left { IfOk result (λ found. MatchOption found (budget < replacements_below scope.now inner.now earlier form.now) (λ f. replacements_below scope.now inner.now earlier form.now + f.left ≡ budget)) }
    ensures bounds { IfOk result (λ found. IfSome found (λ f. f.bounds ≡ bounds_below scope.now inner.now earlier form.now)) }
{
    if earlier == 0 {
        return Ok(Some(Found {
            bounds: Some(bounds_itself(alloc, inner, form)?),
            left: budget,
        }));
    }
    let symbol = earlier - 1;
    let factor = form.factor(symbol);
    if !is_eliminated(inner, symbol, factor) {
        return search(alloc, scope, inner, symbol, form, budget);
    }
    let rest = form.without(alloc, symbol)?;
    let binding = &scope.as_slice()[symbol];
    branches(
        alloc,
        scope,
        inner,
        symbol,
        &rest,
        factor,
        binding.candidates(factor),
        binding.any_may_be(factor),
        budget,
    )
}

/// Puts each of some forms in the place of a symbol.
#[cycle(search)]
fn branches(
    alloc: Global,
    scope: &Scope,
    inner: &[Sym],
    symbol: Sym,
    rest: &Lin,
    factor: i64,
    candidates: &[Lin],
    largest: bool,
    budget: usize,
) -> Result<Option<Found>, AllocError>
    requires symbol { symbol < length scope.now }
    ensures left { let cost = total (λ other. branch_cost scope.now inner.now symbol (combined rest.now factor other)) candidates.now in IfOk result (λ found. MatchOption found (budget < cost) (λ f. cost + f.left ≡ budget)) }
    ensures bounds { let results = map (λ other. branch_bounds scope.now inner.now symbol (combined rest.now factor other)) candidates.now in IfOk result (λ found. IfSome found (λ f. f.bounds ≡ that_count scope.now largest results)) }
{
    let mut left = budget;
    let mut counted = Some(Forms::new(alloc));
    for (place, candidate) in candidates.iter().enumerate() {
        let Some(found) = branch(alloc, scope, inner, symbol, rest, factor, candidate, left)? else {
            return Ok(None);
        };
        left = found.left;
        counted = if place == 0 {
            found.bounds
        } else {
            both(alloc, scope, largest, counted, found.bounds)?
        };
    }
    Ok(Some(Found {
        bounds: counted,
        left,
    }))
}

/// Puts a form in the place of a symbol, by one replacement, and goes on with the symbols before it.
#[cycle(search)]
fn branch(
    alloc: Global,
    scope: &Scope,
    inner: &[Sym],
    symbol: Sym,
    rest: &Lin,
    factor: i64,
    candidate: &Lin,
    budget: usize,
) -> Result<Option<Found>, AllocError>
    requires symbol { symbol < length scope.now }
    ensures left { let made = combined rest.now factor candidate.now in IfOk result (λ found. MatchOption found (budget < branch_cost scope.now inner.now symbol made) (λ f. branch_cost scope.now inner.now symbol made + f.left ≡ budget)) }
    ensures bounds { let made = combined rest.now factor candidate.now in IfOk result (λ found. IfSome found (λ f. f.bounds ≡ branch_bounds scope.now inner.now symbol made)) }
{
    if budget == 0 {
        return Ok(None);
    }
    match rest.plus_multiple(alloc, factor, candidate) {
        Ok(next) => search(alloc, scope, inner, symbol, &next, budget - 1),
        Err(LinError::Limit) => Ok(Some(Found {
            bounds: None,
            left: budget - 1,
        })),
        Err(LinError::Memory) => Err(AllocError),
    }
}

/// Upper bounds of a form that name no inner symbol: its inner symbols are replaced by their bounds, the latest first. A
/// search of more than 4096 replacements finds none. None stands for a form outside the limits.
pub(crate) fn eliminated(
    alloc: Global,
    scope: &Scope,
    inner: &[Sym],
    form: &Lin,
) -> Result<Option<Forms>, AllocError>
    ensures { IfOk result (λ found. found ≡ eliminated scope.now inner.now form.now) }
{
    if !form.is_within_limits() {
        return Ok(None);
    }
    match search(alloc, scope, inner, scope.len(), form, MOST_REPLACEMENTS)? {
        Some(found) => Ok(found.bounds),
        None => Ok(Some(Forms::new(alloc))),
    }
}
