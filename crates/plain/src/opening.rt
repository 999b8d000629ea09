//! The start of an evaluation.

ghost use Rattle.std.specs.Prelude.{◌≡◌, ◌<◌, map, length, string_bytes, IfOk};
ghost use Rattle.algo.specs.View.{algorithm_of};
ghost use Rattle.plain.specs.Goals.{IsGoal, IsPlace, Opens};
ghost use Rattle.plain.specs.Scopes.{function_at};
ghost use Rattle.plain.specs.Sites.{site_of, sites_of_all};
ghost use Rattle.plain.specs.Stages.{IsStage, names_at, numbers_at, terms_at, stage_of};
ghost use Rattle.plain.specs.Works.{bound_name, bound_number};

use crate::callee::{function_at, update_at};
use crate::frame::{Frame, Goal, Stage};
use crate::reduction::bind_point;
use crate::scope::Binding;
use crate::sites::{Site, add_all, add_sites};
use algo::Algo;
use std::alloc::{AllocError, Global};

/// The evaluation of a value, from its start.
pub(crate) fn start<'a>(alloc: Global, algo: &'a Algo, goal: Goal) -> Result<Frame<'a>, AllocError>
    requires { IsGoal (algorithm_of algo.now) goal.function goal.updates goal.at.items }
    ensures { IfOk result (Opens (algorithm_of algo.now) goal.function (stage_of goal.updates goal.points) goal.at.items) }
{
    let stage = first_stage(goal.updates, goal.points);
    open(alloc, algo, goal.function, stage, goal.at)
}

// The stage at which a value starts.
fn first_stage(updates: usize, points: u64) -> Stage
    ensures { result ≡ stage_of updates points }
{
    match (updates.checked_sub(1), points.checked_sub(1)) {
        (None, _) => Stage::Pure,
        (Some(update), None) => Stage::Before { update },
        (Some(update), Some(point)) => Stage::Left { update, point },
    }
}

/// An evaluation at a stage of which no call is answered yet.
pub(crate) fn open<'a>(
    alloc: Global,
    algo: &'a Algo,
    function: usize,
    stage: Stage,
    at: Vec<i64>,
) -> Result<Frame<'a>, AllocError>
    requires place { IsPlace (algorithm_of algo.now) function at.items }
    requires stage { IsStage (function_at (algorithm_of algo.now) function) stage }
    ensures { IfOk result (Opens (algorithm_of algo.now) function stage at.items) }
{
    let bindings = bindings(alloc, algo, function, stage, &at)?;
    let calls = calls(alloc, algo, function, stage)?;
    Ok(Frame {
        function,
        stage,
        at,
        bindings,
        calls,
        answers: Vec::new(alloc),
    })
}

// What the names of a stage stand for.
fn bindings<'a>(
    alloc: Global,
    algo: &'a Algo,
    function: usize,
    stage: Stage,
    at: &[i64],
) -> Result<Vec<Binding<'a>>, AllocError>
    requires place { IsPlace (algorithm_of algo.now) function at.now }
    requires stage { IsStage (function_at (algorithm_of algo.now) function) stage }
    ensures names { IfOk result (λ v. map bound_name v.items ≡ names_at (function_at (algorithm_of algo.now) function) stage) }
    ensures numbers { IfOk result (λ v. map bound_number v.items ≡ numbers_at (function_at (algorithm_of algo.now) function) stage at.now) }
{
    let (_, defined) = function_at(algo, function);
    let mut bindings = bind_variables(alloc, &defined.variables, at)?;
    match stage {
        Stage::Pure => Ok(bindings),
        Stage::Before { .. } => Ok(bindings),
        Stage::Left { update, point } => {
            bind_point(
                &update_at(algo, function, update).ranges,
                point,
                &mut bindings,
            )?;
            Ok(bindings)
        }
        Stage::Right { update, point } => {
            bind_point(
                &update_at(algo, function, update).ranges,
                point,
                &mut bindings,
            )?;
            Ok(bindings)
        }
    }
}

// Each variable bound to its coordinate.
fn bind_variables<'a>(
    alloc: Global,
    variables: &'a [String],
    at: &[i64],
) -> Result<Vec<Binding<'a>>, AllocError>
    requires { length at.now ≡ length variables.now }
    ensures names { IfOk result (λ v. map bound_name v.items ≡ map string_bytes variables.now) }
    ensures numbers { IfOk result (λ v. map bound_number v.items ≡ at.now) }
{
    let mut bindings = Vec::new(alloc);
    for i in 0..at.len() {
        bindings.push(Binding {
            name: variables[i].as_str(),
            number: at[i],
        })?;
    }
    Ok(bindings)
}

// The calls of a stage.
fn calls<'a>(
    alloc: Global,
    algo: &'a Algo,
    function: usize,
    stage: Stage,
) -> Result<Vec<Site<'a>>, AllocError>
    requires function { function < length (algorithm_of algo.now).functions }
    requires stage { IsStage (function_at (algorithm_of algo.now) function) stage }
    ensures { IfOk result (λ v. map site_of v.items ≡ sites_of_all (algorithm_of algo.now).input (terms_at (function_at (algorithm_of algo.now) function) stage)) }
{
    let input = algo.input().name.as_str();
    let mut found = Vec::new(alloc);
    match stage {
        Stage::Pure => add_sites(input, &function_at(algo, function).1.value, &mut found)?,
        Stage::Before { .. } => {}
        Stage::Left { update, .. } => {
            add_all(input, &update_at(algo, function, update).at, &mut found)?
        }
        Stage::Right { update, .. } => {
            add_sites(input, &update_at(algo, function, update).value, &mut found)?
        }
    }
    Ok(found)
}
