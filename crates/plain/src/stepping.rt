//! What follows in an evaluation.

ghost use Rattle.std.specs.Prelude.{◌≡◌, ◌<◌, ◌≤◌, ◌^◌, map, length, Some, IfOk, slice_get};
ghost use Rattle.tree.specs.Term.{indices, list_terms};
ghost use Rattle.tree.specs.Meaning.{numbers_of};
ghost use Rattle.meaning.specs.Names.{same_point};
ghost use Rattle.algo.specs.View.{algorithm_of, samples_of, IsFor};
ghost use Rattle.plain.specs.Goals.{IsFrame, Follows, IsGoalOf};
ghost use Rattle.plain.specs.Scopes.{function_at};
ghost use Rattle.plain.specs.Seen.{IsScopeOf, CanEvaluateAll, scope_variables, scope_answers, turned};
ghost use Rattle.plain.specs.Sites.{site_of};
ghost use Rattle.plain.specs.Stages.{size_before, finished_level, callees_at, IsStage};

use crate::callee::{function_at, number_of, update_at};
use crate::frame::{Frame, Goal, Stage, Step};
use crate::reduction::size;
use crate::scope::Scope;
use crate::sites::Site;
use algo::{Algo, Inputs};
use std::alloc::{AllocError, Global};
use tree::{Expr, eval};

/// What follows in an evaluation under way.
pub(crate) fn next(
    alloc: Global,
    algo: &Algo,
    inputs: &Inputs,
    frame: &Frame<'_>,
) -> Result<Step, AllocError>
    requires input { IsFor algo.now inputs.now }
    requires frame { IsFrame (algorithm_of algo.now) (samples_of inputs.now) frame.now }
    ensures { IfOk result (Follows (algorithm_of algo.now) (samples_of inputs.now) frame.now) }
{
    let scope = scope_of(algo, inputs, frame);
    match frame.calls.get(frame.answers.len()) {
        Some(site) => ask(alloc, &scope, frame, site),
        None => finish(alloc, &scope, frame),
    }
}

// What a frame's expressions are evaluated over.
fn scope_of<'a>(algo: &'a Algo, inputs: &'a Inputs, frame: &'a Frame<'a>) -> Scope<'a>
    requires input { IsFor algo.now inputs.now }
    requires frame { IsFrame (algorithm_of algo.now) (samples_of inputs.now) frame.now }
    ensures { IsScopeOf algo.now inputs.now frame.now result }
{
    algo.is_well_formed();
    Scope {
        algo,
        inputs,
        callees: callees_at(frame.stage, frame.function),
        bindings: &frame.bindings,
        answers: &frame.answers,
    }
}

// How many functions a stage of a function may call: on the right side of an update the function itself too.
fn callees_at(stage: Stage, function: usize) -> usize
    requires { function < 2 ^ 32 }
    ensures { result ≡ callees_at stage function }
{
    match stage {
        Stage::Right { .. } => function + 1,
        Stage::Pure | Stage::Before { .. } | Stage::Left { .. } => function,
    }
}

// The value that the call asks for.
fn ask(
    alloc: Global,
    scope: &Scope<'_>,
    frame: &Frame<'_>,
    site: &Site<'_>,
) -> Result<Step, AllocError>
    requires input { IsFor scope.now.algo.now scope.now.inputs.now }
    requires scope { IsScopeOf scope.now.algo.now scope.now.inputs.now frame.now scope.now }
    requires frame { IsFrame (algorithm_of scope.now.algo.now) (samples_of scope.now.inputs.now) frame.now }
    requires site { slice_get (map site_of frame.now.calls.items) (length frame.now.answers.items) ≡ Some (site_of site.now) }
    ensures { IfOk result (Follows (algorithm_of scope.now.algo.now) (samples_of scope.now.inputs.now) frame.now) }
{
    scope.algo.is_well_formed();
    let at = numbers(alloc, scope, site.at)?;
    match number_of(scope.algo, scope.callees, site.name) {
        Some(function) => Ok(Step::Asks(goal_of(scope.algo, frame, function, at))),
        None => unreachable!(),
    }
}

// The value that a frame asks for by a call of this function: its own value so far, or the finished value of another function.
fn goal_of(algo: &Algo, frame: &Frame<'_>, function: usize, at: Vec<i64>) -> Goal
    requires function { function < length (algorithm_of algo.now).functions }
    requires below { frame.now.function < length (algorithm_of algo.now).functions }
    requires stage { IsStage (function_at (algorithm_of algo.now) frame.now.function) frame.now.stage }
    ensures { IsGoalOf (algorithm_of algo.now) frame.now function at.items result }
{
    algo.is_well_formed();
    match frame.stage {
        Stage::Right { update, point } if function == frame.function => Goal {
            function,
            updates: update + 1,
            points: point,
            at,
        },
        _ => goal_of_function(algo, function, at),
    }
}

/// The value of a function with all its updates.
pub(crate) fn goal_of_function(algo: &Algo, function: usize, at: Vec<i64>) -> Goal
    requires { function < length (algorithm_of algo.now).functions }
    ensures function { result.function ≡ function }
    ensures at { result.at ≡ at }
    ensures level { (result.updates, result.points) ≡ finished_level (function_at (algorithm_of algo.now) function) }
{
    let (_, defined) = function_at(algo, function);
    let updates = defined.updates.len();
    Goal {
        function,
        updates,
        points: points_before(algo, function, updates),
        at,
    }
}

// How many points the update has that comes before this one, and 0 before the first.
fn points_before(algo: &Algo, function: usize, update: usize) -> u64
    requires function { function < length (algorithm_of algo.now).functions }
    requires update { update ≤ length (function_at (algorithm_of algo.now) function).changes }
    ensures { result ≡ size_before (function_at (algorithm_of algo.now) function) update }
{
    algo.is_well_formed();
    match update.checked_sub(1) {
        Some(before) => size(&update_at(algo, function, before).ranges),
        None => 0,
    }
}

// What follows where all calls are answered.
fn finish(alloc: Global, scope: &Scope<'_>, frame: &Frame<'_>) -> Result<Step, AllocError>
    requires input { IsFor scope.now.algo.now scope.now.inputs.now }
    requires scope { IsScopeOf scope.now.algo.now scope.now.inputs.now frame.now scope.now }
    requires frame { IsFrame (algorithm_of scope.now.algo.now) (samples_of scope.now.inputs.now) frame.now }
    requires all { length frame.now.calls.items ≤ length frame.now.answers.items }
    ensures { IfOk result (Follows (algorithm_of scope.now.algo.now) (samples_of scope.now.inputs.now) frame.now) }
{
    let algo = scope.algo;
    algo.is_well_formed();
    match frame.stage {
        Stage::Pure => Ok(Step::Gives(eval(&function_at(algo, frame.function).1.value, scope))),
        Stage::Before { update } => Ok(Step::Falls {
            updates: update,
            points: points_before(algo, frame.function, update),
        }),
        Stage::Left { update, point } => {
            let place = numbers(alloc, scope, &update_at(algo, frame.function, update).at)?;
            Ok(compared(&place, &frame.at, update, point))
        }
        Stage::Right { update, .. } => Ok(Step::Gives(eval(
            &update_at(algo, frame.function, update).value,
            scope,
        ))),
    }
}

// The right side where the left side is the point, and else the value before the reduction point.
fn compared(place: &[i64], at: &[i64], update: usize, point: u64) -> Step
    requires { update < 2 ^ 32 }
    ensures { result ≡ turned (same_point place.now at.now) update point }
{
    if place == at {
        Step::Turns(Stage::Right { update, point })
    } else {
        Step::Falls {
            updates: update + 1,
            points: point,
        }
    }
}

// The numbers of indices.
fn numbers(alloc: Global, scope: &Scope<'_>, at: &[Expr]) -> Result<Vec<i64>, AllocError>
    requires { CanEvaluateAll scope.now (indices (list_terms at.now)) }
    ensures { IfOk result (λ v. v.items ≡ numbers_of (scope_variables scope.now) (scope_answers scope.now) (indices (list_terms at.now))) }
{
    let mut numbers = Vec::new(alloc);
    for index in at {
        numbers.push(eval(index, scope))?;
    }
    Ok(numbers)
}
