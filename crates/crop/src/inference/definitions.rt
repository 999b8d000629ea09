//! The regions of the calls in a function's definitions.

ghost use Rattle.std.specs.Prelude.{◌≡◌, ◌<◌, IfOk, map, fold, flat_map, length, take, Some, None};
ghost use Rattle.lin.specs.declared.form.LinError.{LinError as LimitError};
ghost use Rattle.tree.specs.Term.{term_of, list_terms};
ghost use Rattle.algo.specs.Scoping.Standing.{calls_of};
ghost use Rattle.meaning.specs.Conditions.{callable};
ghost use Rattle.algo.specs.Parts.{names_of, change_of};
ghost use Rattle.algo.specs.View.{algorithm_of};
ghost use Rattle.bounds.specs.Projection.Unions.{with_region, united};
ghost use Rattle.bounds.specs.Projection.Sound.{IsOuter};
ghost use Rattle.crop.specs.Inference.Regions.{regions_of};
ghost use Rattle.crop.specs.Inference.Needed.{pure_regions, update_regions, needed, needed_outside};
ghost use Rattle.crop.specs.Inference.Sound.{ContainsNeeded, ContainsOutside};

use crate::callees::{Callees, function_at};
use crate::inference::calls::{Sought, with_calls};
use crate::regions::{update_names, variable_names, with_domain};
use algo::{Algo, Function, Update};
use bounds::BoundsError;
use lin::{Region, Scope, Sym};
use std::alloc::{AllocError, Global};
use tree::Expr;

/// The region of the points at which the definitions of a function call another function, the function itself or the
/// input, where the function's points lie in a region: the pure definition, and each update over its reduction domain.
/// The function goes by its number, what is called by its name. Calls in conditions, in both arms of a `select` and in
/// the indices of calls count. The regions of the calls are united in the order of the text; the region without
/// coordinates is that of no call.
///
/// # Errors
/// `Limit` where a form that the rules make is outside the limits, `Memory` where memory runs out.
pub fn needed(
    alloc: Global,
    scope: &Scope,
    algo: &Algo,
    function: usize,
    callee: &str,
    region: &Region,
) -> Result<Region, BoundsError>
    requires { function < length (algorithm_of algo.now).functions }
    ensures ok { IfOk result (λ found. needed scope.now (algorithm_of algo.now) function callee.now region.now ≡ Some found) }
    ensures limit { result ≡ Err LimitError.Limit → needed scope.now (algorithm_of algo.now) function callee.now region.now ≡ None }
    ensures sound { IfOk result (λ found. ContainsNeeded scope.now (algorithm_of algo.now) function callee.now region.now found) }
{
    needed_outside(alloc, scope, &[], algo, function, callee, region)
}

/// The region that a function needs of another, found as by `needed`, but each call's region is freed of the inner
/// symbols by `bounds::projection::project` before the regions are united: what has to be there when the inner loops begin.
/// `inner` has the numbers of the symbols of these loops and of the lets over them, as `bounds::projection::with_lets` finds
/// them; no form of the result names one of them. At any values of the inner symbols the points of the calls lie in the
/// region: the calls at `x` and at `1 - x`, where `x` is a loop from 0 to 1, need 0 to 1. Without inner symbols it is
/// what `needed` finds.
///
/// # Errors
/// `Limit` where a form that the rules make is outside the limits, in a projection too, `Memory` where memory runs out.
pub fn needed_outside(
    alloc: Global,
    scope: &Scope,
    inner: &[Sym],
    algo: &Algo,
    function: usize,
    callee: &str,
    region: &Region,
) -> Result<Region, BoundsError>
    requires { function < length (algorithm_of algo.now).functions }
    ensures ok { IfOk result (λ found. needed_outside scope.now inner.now (algorithm_of algo.now) function callee.now region.now ≡ Some found) }
    ensures limit { result ≡ Err LimitError.Limit → needed_outside scope.now inner.now (algorithm_of algo.now) function callee.now region.now ≡ None }
    ensures outer { IfOk result (λ found. IsOuter inner.now found) }
    ensures sound { IfOk result (λ found. ContainsOutside scope.now inner.now (algorithm_of algo.now) function callee.now region.now found) }
{
    let sought = Sought {
        scope,
        inner,
        callee,
    };
    match with_function(alloc, &sought, algo, function, region)? {
        Some(found) => Ok(found),
        None => Err(BoundsError::Limit),
    }
}

/// The region that is needed; none where a form leaves the limits.
fn with_function(
    alloc: Global,
    sought: &Sought<'_>,
    algo: &Algo,
    function: usize,
    region: &Region,
) -> Result<Option<Region>, AllocError>
    requires { function < length (algorithm_of algo.now).functions }
    ensures { IfOk result (λ found. found ≡ needed_outside sought.now.scope.now sought.now.inner.now (algorithm_of algo.now) function sought.now.callee.now region.now) }
{
    let (_, defined) = function_at(algo, function);
    let mut found = with_pure(alloc, sought, algo, function, region, defined)?;
    for update in &defined.updates {
        found = with_update(
            alloc, sought, algo, function, region, defined, found, update,
        )?;
    }
    Ok(found)
}

/// The region of the calls in the pure definition.
fn with_pure(
    alloc: Global,
    sought: &Sought<'_>,
    algo: &Algo,
    function: usize,
    region: &Region,
    defined: &Function,
) -> Result<Option<Region>, AllocError>
    requires { function < length (algorithm_of algo.now).functions }
    ensures { IfOk result (λ found. found ≡ united sought.now.scope.now (pure_regions sought.now.scope.now sought.now.inner.now (algorithm_of algo.now) function sought.now.callee.now region.now (names_of defined.now.variables.items) (term_of defined.now.value))) }
{
    let vars = variable_names(alloc, &defined.variables)?;
    let names = Callees {
        algo,
        count: function,
        variables: &vars,
    };
    let none = Some(Region::new(alloc));
    with_calls(alloc, sought, &names, &vars, region, none, &defined.value)
}

/// A region and those of the calls in an update's left side.
fn with_places(
    alloc: Global,
    sought: &Sought<'_>,
    names: &Callees<'_>,
    vars: &[&str],
    spans: &Region,
    known: Option<Region>,
    at: &[Expr],
) -> Result<Option<Region>, AllocError>
    ensures { IfOk result (λ found. found ≡ fold (with_region sought.now.scope.now) known (flat_map (λ e. regions_of sought.now.scope.now (callable (algorithm_of names.now.algo.now) (take names.now.count (algorithm_of names.now.algo.now).functions)) (map (λ x. x.now) vars.now) spans.now sought.now.inner.now sought.now.callee.now (calls_of e)) (list_terms at.now))) }
{
    let mut found = known;
    for place in at {
        found = with_calls(alloc, sought, names, vars, spans, found, place)?;
    }
    Ok(found)
}

/// A region and those of the calls in an update.
fn with_update(
    alloc: Global,
    sought: &Sought<'_>,
    algo: &Algo,
    function: usize,
    region: &Region,
    defined: &Function,
    known: Option<Region>,
    update: &Update,
) -> Result<Option<Region>, AllocError>
    requires { function < length (algorithm_of algo.now).functions }
    ensures { IfOk result (λ found. found ≡ fold (with_region sought.now.scope.now) known (update_regions sought.now.scope.now sought.now.inner.now (algorithm_of algo.now) function sought.now.callee.now region.now (names_of defined.now.variables.items) (change_of update.now))) }
{
    let vars = update_names(alloc, &defined.variables, &update.ranges)?;
    let spans = with_domain(alloc, region, &update.ranges)?;
    let left = Callees {
        algo,
        count: function,
        variables: &vars,
    };
    let found = with_places(alloc, sought, &left, &vars, &spans, known, &update.at)?;
    let right = Callees {
        algo,
        count: function + 1,
        variables: &vars,
    };
    with_calls(alloc, sought, &right, &vars, &spans, found, &update.value)
}
