//! The regions of the calls in one expression.

ghost use Rattle.std.specs.Prelude.{◌≡◌, IfOk, map, fold, [], ◌∷◌, ◌++◌};
ghost use Rattle.tree.specs.Term.{term_of, test_of, list_terms, indices};
ghost use Rattle.algo.specs.Scoping.Standing.{calls_of, calls_of_test, calls_of_all, written};
ghost use Rattle.bounds.specs.Projection.Unions.{with_region};
ghost use Rattle.crop.specs.Inference.Regions.{spans_at, freed, regions_of};

use algo::scoping::same_name;
use bounds::projection::{project, with_region};
use bounds::{BoundsError, interval};
use lin::{Region, Scope, Sym};
use std::alloc::{AllocError, Global};
use tree::{Cond, Expr, Names};

/// The calls that are looked for: those of a name, each one's region freed of the inner symbols of a scope.
#[derive(Clone, Copy, Drop)]
pub(crate) struct Sought<'a> {
    pub scope: &'a Scope,
    pub inner: &'a [Sym],
    pub callee: &'a str,
}

/// The interval of each index of a call; none where a form leaves the limits.
fn spans_at<N: Names>(
    alloc: Global,
    scope: &Scope,
    names: &N,
    vars: &[&str],
    region: &Region,
    at: &[Expr],
) -> Result<Option<Region>, AllocError>
    ensures { IfOk result (λ found. found ≡ spans_at scope.now (N.functions names.now) (map (λ x. x.now) vars.now) region.now (indices (list_terms at.now))) }
{
    let mut made = Region::new(alloc);
    for index in at {
        match interval(alloc, scope, index, names, vars, region) {
            Ok(span) => made.push(span)?,
            Err(BoundsError::Limit) => return Ok(None),
            Err(BoundsError::Memory) => return Err(AllocError),
        }
    }
    Ok(Some(made))
}

/// A region without some symbols; where there are none it stays as it is. None where a form leaves the limits.
fn freed(
    alloc: Global,
    scope: &Scope,
    inner: &[Sym],
    region: Option<Region>,
) -> Result<Option<Region>, AllocError>
    ensures { IfOk result (λ found. found ≡ freed scope.now inner.now region) }
{
    if inner.is_empty() {
        return Ok(region);
    }
    let Some(region) = region else {
        return Ok(None);
    };
    match project(alloc, scope, inner, &region) {
        Ok(found) => Ok(Some(found)),
        Err(BoundsError::Limit) => Ok(None),
        Err(BoundsError::Memory) => Err(AllocError),
    }
}

/// A region and that of a call, freed of the inner symbols, if it is a call of the name.
fn with_call<N: Names>(
    alloc: Global,
    sought: &Sought<'_>,
    names: &N,
    vars: &[&str],
    region: &Region,
    known: Option<Region>,
    name: &str,
    at: &[Expr],
) -> Result<Option<Region>, AllocError>
    ensures { IfOk result (λ found. found ≡ fold (with_region sought.now.scope.now) known (regions_of sought.now.scope.now (N.functions names.now) (map (λ x. x.now) vars.now) region.now sought.now.inner.now sought.now.callee.now (written name.now (indices (list_terms at.now)) ∷ []))) }
{
    if !same_name(name, sought.callee) {
        return Ok(known);
    }
    let spans = spans_at(alloc, sought.scope, names, vars, region, at)?;
    let spans = freed(alloc, sought.scope, sought.inner, spans)?;
    with_region(alloc, sought.scope, known, spans)
}

/// A region and those of the calls of the name in an expression, in the order of the text.
#[cycle(calls)]
#[tactic(auto, using(crate::proofs::OfInference::Unions::fold_of_two, crate::proofs::OfInference::Unions::fold_of_three))]
pub(crate) fn with_calls<N: Names>(
    alloc: Global,
    sought: &Sought<'_>,
    names: &N,
    vars: &[&str],
    region: &Region,
    known: Option<Region>,
    expr: &Expr,
) -> Result<Option<Region>, AllocError>
    ensures { IfOk result (λ found. found ≡ fold (with_region sought.now.scope.now) known (regions_of sought.now.scope.now (N.functions names.now) (map (λ x. x.now) vars.now) region.now sought.now.inner.now sought.now.callee.now (calls_of (term_of expr.now)))) }
{
    match expr {
        Expr::Literal { .. } | Expr::Variable { .. } => Ok(known),
        Expr::Call { name, at, .. } => {
            let here = with_call(alloc, sought, names, vars, region, known, name.as_str(), at)?;
            with_calls_of_all(alloc, sought, names, vars, region, here, at)
        }
        Expr::Negate { value, .. } | Expr::Cast { value, .. } => {
            with_calls(alloc, sought, names, vars, region, known, value)
        }
        Expr::Binary { left, right, .. } => {
            let known = with_calls(alloc, sought, names, vars, region, known, left)?;
            with_calls(alloc, sought, names, vars, region, known, right)
        }
        Expr::Clamp {
            value,
            low,
            high,
            ..
        } => {
            let known = with_calls(alloc, sought, names, vars, region, known, value)?;
            let known = with_calls(alloc, sought, names, vars, region, known, low)?;
            with_calls(alloc, sought, names, vars, region, known, high)
        }
        Expr::Select { cond, yes, no, .. } => {
            let known = with_calls_of_test(alloc, sought, names, vars, region, known, cond)?;
            let known = with_calls(alloc, sought, names, vars, region, known, yes)?;
            with_calls(alloc, sought, names, vars, region, known, no)
        }
    }
}

/// The same of a condition.
#[cycle(calls)]
#[tactic(auto, using(crate::proofs::OfInference::Unions::fold_of_two))]
fn with_calls_of_test<N: Names>(
    alloc: Global,
    sought: &Sought<'_>,
    names: &N,
    vars: &[&str],
    region: &Region,
    known: Option<Region>,
    cond: &Cond,
) -> Result<Option<Region>, AllocError>
    ensures { IfOk result (λ found. found ≡ fold (with_region sought.now.scope.now) known (regions_of sought.now.scope.now (N.functions names.now) (map (λ x. x.now) vars.now) region.now sought.now.inner.now sought.now.callee.now (calls_of_test (test_of cond.now)))) }
{
    match cond {
        Cond::Compare { left, right, .. } => {
            let known = with_calls(alloc, sought, names, vars, region, known, left)?;
            with_calls(alloc, sought, names, vars, region, known, right)
        }
        Cond::Not { cond, .. } => {
            with_calls_of_test(alloc, sought, names, vars, region, known, cond)
        }
        Cond::All { first, second, .. } | Cond::Any { first, second, .. } => {
            let known = with_calls_of_test(alloc, sought, names, vars, region, known, first)?;
            with_calls_of_test(alloc, sought, names, vars, region, known, second)
        }
    }
}

/// The same of several expressions.
#[cycle(calls)]
#[tactic(auto, using(crate::proofs::OfInference::Unions::fold_of_two))]
fn with_calls_of_all<N: Names>(
    alloc: Global,
    sought: &Sought<'_>,
    names: &N,
    vars: &[&str],
    region: &Region,
    known: Option<Region>,
    at: &[Expr],
) -> Result<Option<Region>, AllocError>
    ensures { IfOk result (λ found. found ≡ fold (with_region sought.now.scope.now) known (regions_of sought.now.scope.now (N.functions names.now) (map (λ x. x.now) vars.now) region.now sought.now.inner.now sought.now.callee.now (calls_of_all (indices (list_terms at.now))))) }
{
    let mut found = known;
    for index in at {
        found = with_calls(alloc, sought, names, vars, region, found, index)?;
    }
    Ok(found)
}
