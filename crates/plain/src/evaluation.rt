//! The value of a function at a point.

ghost use Rattle.std.specs.Prelude.{◌≡◌, ◌<◌, ◌≤◌, ◌+◌, length, IfOk, IfErr, IfSome, MatchResult, slice_get};
ghost use Rattle.meaning.specs.Functions.{IsPoint};
ghost use Rattle.meaning.specs.Value.{value_of_function};
ghost use Rattle.algo.specs.View.{algorithm_of, samples_of, IsFor};
ghost use Rattle.plain.specs.declared.error.PlainError.TheVariants.{Budget};
ghost use Rattle.plain.specs.Count.{count_of_function};
ghost use Rattle.plain.specs.Goals.{IsGoal, Opens, Resumes};
ghost use Rattle.plain.specs.Stages.{level, stage_of};

use crate::error::PlainError;
use crate::frame::{Frame, Goal, Step};
use crate::opening::{open, start};
use crate::scope::Answer;
use crate::stepping::{goal_of_function, next};
use algo::{Algo, Inputs};
use std::alloc::{AllocError, Global};

/// The value of a function at a point, within a budget of evaluations.
///
/// An evaluation is one value of one definition at one reduction count and point, and nothing is remembered: what a value needs
/// is evaluated as often as it is needed. Reads of the input are no evaluations. Evaluations that wait stand in a list and not
/// on the thread's stack; each takes some 150 bytes, and for each variable, each call of a function and each answer so far
/// some 50 more.
///
/// # Errors
/// `Budget` where the value takes more evaluations than the budget, `Memory` where memory runs out.
pub fn value(
    alloc: Global,
    algo: &Algo,
    inputs: &Inputs,
    function: usize,
    at: &[i32],
    budget: u64,
) -> Result<i64, PlainError>
    requires input { IsFor algo.now inputs.now }
    requires function { function < length (algorithm_of algo.now).functions }
    requires at { IfSome (slice_get (algorithm_of algo.now).functions function) (λ f. length at.now ≡ length f.variables) }
    ensures value { IfOk result (λ v. (v ≡ value_of_function (algorithm_of algo.now) (samples_of inputs.now) function at.now) × (count_of_function (algorithm_of algo.now) (samples_of inputs.now) function at.now ≤ budget)) }
    ensures spent { IfErr result (λ e. e ≡ Budget → budget < count_of_function (algorithm_of algo.now) (samples_of inputs.now) function at.now) }
{
    algo.is_well_formed();
    let at = coordinates(alloc, at)?;
    let goal = goal_of_function(algo, function, at);
    evaluate(alloc, algo, inputs, goal, budget)
}

// The coordinates of a point.
fn coordinates(alloc: Global, at: &[i32]) -> Result<Vec<i64>, AllocError>
    ensures point { IfOk result (λ v. v.items ≡ at.now) }
    ensures indices { IfOk result (λ v. IsPoint v.items) }
{
    let mut coordinates = Vec::new(alloc);
    for coordinate in at {
        coordinates.push(i64::from(*coordinate))?;
    }
    Ok(coordinates)
}

// The value that is asked for, within the budget.
fn evaluate(
    alloc: Global,
    algo: &Algo,
    inputs: &Inputs,
    goal: Goal,
    budget: u64,
) -> Result<i64, PlainError>
    requires input { IsFor algo.now inputs.now }
    requires goal { IsGoal (algorithm_of algo.now) goal.function goal.updates goal.at.items }
    ensures value { IfOk result (λ v. (v ≡ (level (algorithm_of algo.now) (samples_of inputs.now) goal.function goal.updates goal.points).values goal.at.items)
        × ((level (algorithm_of algo.now) (samples_of inputs.now) goal.function goal.updates goal.points).counts goal.at.items ≤ budget)) }
    ensures spent { IfErr result (λ e. e ≡ Budget → budget < (level (algorithm_of algo.now) (samples_of inputs.now) goal.function goal.updates goal.points).counts goal.at.items) }
{
    algo.is_well_formed();
    let mut left = spend(budget)?;
    let mut frame = start(alloc, algo, goal)?;
    let mut waiting = Vec::new(alloc);
    loop {
        match next(alloc, algo, inputs, &frame)? {
            Step::Gives(number) => match waiting.pop() {
                None => return Ok(number),
                Some(below) => frame = resumed(below, frame.at, number)?,
            },
            Step::Asks(goal) => {
                left = spend(left)?;
                let asked = start(alloc, algo, goal)?;
                waiting.push(frame)?;
                frame = asked;
            }
            Step::Falls { updates, points } => {
                left = spend(left)?;
                frame = fallen(alloc, algo, frame, updates, points)?;
            }
            Step::Turns(stage) => frame = open(alloc, algo, frame.function, stage, frame.at)?,
        }
    }
}

// One evaluation taken from the budget.
fn spend(budget: u64) -> Result<u64, PlainError>
    ensures { MatchResult result (λ left. budget ≡ left + 1) (λ e. (e ≡ Budget) × (budget ≡ 0)) }
{
    budget.checked_sub(1).ok_or(PlainError::Budget)
}

// The evaluation of the value of the frame's function that counts so many updates, at the frame's point.
fn fallen<'a>(
    alloc: Global,
    algo: &'a Algo,
    frame: Frame<'a>,
    updates: usize,
    points: u64,
) -> Result<Frame<'a>, AllocError>
    requires { IsGoal (algorithm_of algo.now) frame.function updates frame.at.items }
    ensures { IfOk result (Opens (algorithm_of algo.now) frame.entry.function (stage_of updates points) frame.entry.at.items) }
{
    let goal = Goal {
        function: frame.function,
        updates,
        points,
        at: frame.at,
    };
    start(alloc, algo, goal)
}

// The evaluation with the answer to the call that it waits for.
fn resumed<'a>(frame: Frame<'a>, at: Vec<i64>, number: i64) -> Result<Frame<'a>, AllocError>
    requires { length frame.answers.items < length frame.calls.items }
    ensures { IfOk result (Resumes frame.entry at.items number) }
{
    let mut frame = frame;
    let name = frame.calls[frame.answers.len()].name;
    frame.answers.push(Answer { name, at, number })?;
    Ok(frame)
}
