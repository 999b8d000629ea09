//! The groups of a plan, looked at side by side.

ghost use Rattle.std.specs.Prelude.{◌≡◌, ◌*◌, ◌<◌, MatchOption, IfOk, length};
ghost use Rattle.std.specs.List.{AllZip};
ghost use Rattle.algo.specs.View.{algorithm_of};
ghost use Rattle.plan.specs.View.{plan_of};
ghost use Rattle.plan.specs.Certificate.Certificate.{certificate_of};
ghost use Rattle.rayon.specs.Numbers.{nat_range};
ghost use Rattle.claims.specs.First.{AllMet, IsFirstUnmet, TaskSays, group_at, part_at};

use crate::group::{Asked, first_with};
use crate::least::least_of;
use algo::Algo;
use obligations::Part;
use obligations::laws::{later_is_silent, nothing_told_is_shown, shown_is_nothing_told};
use plan::Plan;
use plan::certificate::Cert;
use rayon::prelude::*;
use soundness::outline::refusals::Flaw;
use std::alloc::{AllocError, Global};
use std::thread::Threads;

/// The first of all flaws of a task's group, if the task's part of the obligations has one. The first tasks ask each group
/// for its lines, as many others for its claims.
fn flaw_of_task(asked: Asked<'_>, task: usize) -> Result<Option<Flaw>, AllocError>
    requires { task < 2 * length asked.plan.now.groups.items }
    ensures { TaskSays (algorithm_of asked.entry.algo.now) (plan_of asked.entry.plan.now) (certificate_of asked.entry.cert.now) task result }
{
    let count = asked.plan.groups.len();
    if task < count {
        first_with(asked, task, Part::Lines)
    } else {
        first_with(asked, task - count, Part::Claims)
    }
}

/// With fewer lines than these a plan is asked in the caller's thread alone: a thread more would take longer to start than these
/// lines take.
const FEW_LINES: u32 = 256;

/// How many tasks a thread is given at least, of so many of a plan whose certificate begins at a line: all of them where the lines
/// are few.
fn least_tasks(line: u32, tasks: usize) -> usize {
    if line < FEW_LINES {
        return tasks;
    }
    1
}

/// What so many tasks tell: in the caller's thread where the plan has few lines, else in as many threads as there are processors.
fn told_by_tasks<R: Threads + Sync>(
    rt: &R,
    asked: Asked<'_>,
    tasks: usize,
) -> Result<Vec<Result<Option<Flaw>, AllocError>>, AllocError>
    requires { tasks ≡ 2 * length asked.plan.now.groups.items }
    ensures { IfOk result (λ told. AllZip (TaskSays (algorithm_of asked.entry.algo.now) (plan_of asked.entry.plan.now) (certificate_of asked.entry.cert.now)) (nat_range 0 tasks) told.items) }
{
    (0..tasks)
        .into_par_iter()
        .with_min_len(least_tasks(asked.line, tasks))
        .map(
            |task: usize| -> Result<Option<Flaw>, AllocError>
                requires { task < 2 * length asked.plan.now.groups.items }
                ensures { TaskSays (algorithm_of asked.entry.algo.now) (plan_of asked.entry.plan.now) (certificate_of asked.entry.cert.now) task result }
            { flaw_of_task(asked, task) },
        )
        .collect(rt, asked.alloc)
}

/// The first obligation of the lines of a plan's groups that is not shown, by its code and line, if there is one: it is the
/// first in the order of the lines, and of those at one line that of the lowest code. The codes are `K2` for a symbol that
/// stands twice or a buffer that is allocated twice, `K4`, `K5`, `K6`, `K7` and `K8`, and `K12` for a call that an update makes of
/// its own function at a point that its step does not meet.
///
/// The lines and the claims of each group are asked for side by side, in as many threads as there are processors, but for plans of
/// fewer than 256 lines, which the caller's thread asks alone. Where a group has a flaw, it is asked again, about as often as its
/// line's number has binary digits.
///
/// # Errors
/// Want of memory. A plan in which a group's body reaches line 2^32 - 1 counts as that.
pub fn first_fault<R: Threads + Sync>(
    rt: &R,
    alloc: Global,
    algo: &Algo,
    plan: &Plan,
    cert: &Cert,
) -> Result<Option<Flaw>, AllocError>
    ensures { IfOk result (λ found. MatchOption found (AllMet (algorithm_of algo.now) (plan_of plan.now) (certificate_of cert.now))
        (IsFirstUnmet (algorithm_of algo.now) (plan_of plan.now) (certificate_of cert.now))) }
{
    nothing_told_is_shown();
    shown_is_nothing_told();
    later_is_silent();
    let asked = Asked {
        alloc,
        algo,
        plan,
        cert,
        line: plan.certificate_line(),
    };
    let Some(tasks) = plan.groups.len().checked_mul(2) else {
        return Err(AllocError);
    };
    let told = told_by_tasks(rt, asked, tasks)?;
    least_of(&told)
}
