//! What made a schedule break a rule, by the rule.

ghost use Rattle.std.specs.Prelude.{◌≡◌, length};
ghost use Rattle.algo.specs.View.{algorithm_of};

use crate::error::LowerError;
use crate::lowering::laid_all;
use crate::parties::{Party, parties_of};
use crate::reasons::causes::{Cause, Reason};
use crate::reasons::folds::{fold_reason, form_reason};
use crate::reasons::reach::bound_reason;
use crate::reasons::sizes::size_reason;
use crate::reasons::stores::with_store;
use algo::Algo;
use blocks::definitions::stored_functions;
use sched::definitions::Stored;
use sched::roots::Laid;
use sched::stop::Stop;
use sched::{Placement, RegionRule, Rule, Sched, SchedError, followed};
use std::alloc::{AllocError, Global};
use tree::token::Name;

// Without memory there is no reason; where bounds end while it is looked for, none is told.
fn if_found(found: Result<Option<Reason>, Stop>) -> Result<Option<Reason>, AllocError> {
    match found {
        Ok(reason) => Ok(reason),
        Err(Stop::Limit) => Ok(None),
        Err(Stop::Memory) => Err(AllocError),
    }
}

/// What a function of a placement broke.
#[derive(Clone, Copy, Drop)]
enum Broken {
    /// A rule that asks for its region.
    Region(RegionRule),
    /// That a window is asked for each of its folds.
    Unwindowed,
}

fn laid_reason<'a>(
    alloc: Global,
    algo: &Algo,
    placement: &Placement,
    stored: &'a [Stored<'a>],
    laid: &'a [Option<Laid>],
    parties: &[Party<'a>],
    broken: Broken,
    name: &Name,
) -> Result<Option<Reason>, AllocError> {
    match broken {
        Broken::Unwindowed => if_found(form_reason(alloc, algo, stored, parties, name)),
        Broken::Region(rule) => match rule {
            RegionRule::OutsideUse | RegionRule::ShortShift => Ok(None),
            RegionRule::SmallFold => if_found(fold_reason(alloc, algo, parties, name)),
            RegionRule::TooLarge | RegionRule::TooMuch => {
                size_reason(alloc, algo, placement, stored, laid, name)
            }
            RegionRule::Unbounded => {
                if_found(bound_reason(alloc, algo, stored, laid, parties, name))
            }
        },
    }
}

fn placed_reason(
    alloc: Global,
    algo: &Algo,
    placement: &Placement,
    broken: Broken,
    name: &Name,
) -> Result<Option<Reason>, AllocError>
    requires { length placement.now.subjects.items ≡ length (algorithm_of algo.now).functions }
{
    let stored = stored_functions(alloc, algo, placement)?;
    let laid = laid_all(alloc, algo, &stored)?;
    let parties = parties_of(alloc, algo, &stored, &laid)?;
    laid_reason(
        alloc, algo, placement, &stored, &laid, &parties, broken, name,
    )
}

// What made a schedule break a rule that asks for no region.
fn ruled_reason(
    alloc: Global,
    algo: &Algo,
    sched: &Sched,
    rule: Rule,
    name: &Name,
) -> Result<Option<Reason>, AllocError> {
    match rule {
        Rule::InlineUpdates => Ok(Some(Cause::Updates(*name).alone(alloc))),
        Rule::BadFold => match followed(alloc, algo, sched) {
            Ok(placement) => placed_reason(alloc, algo, &placement, Broken::Unwindowed, name),
            Err(SchedError::Memory) => Err(AllocError),
            Err(_) => Ok(None),
        },
        _ => Ok(None),
    }
}

// What made the regions of a placement break a rule, and what is to be stored.
fn region_reason(
    alloc: Global,
    algo: &Algo,
    sched: &Sched,
    placement: &Placement,
    rule: RegionRule,
    name: &Name,
) -> Result<Option<Reason>, AllocError>
    requires { length placement.now.subjects.items ≡ length (algorithm_of algo.now).functions }
{
    match placed_reason(alloc, algo, placement, Broken::Region(rule), name)? {
        Some(found) => {
            let mut reason = found;
            reason.cause = with_store(alloc, algo, sched, placement, reason.cause)?;
            Ok(Some(reason))
        }
        None => Ok(None),
    }
}

/// What made a schedule break the rule that `lower` told: of L9, L10, L11 and L12, where it is found. It is found anew, by what
/// refused the schedule.
pub fn reason(
    alloc: Global,
    algo: &Algo,
    sched: &Sched,
    error: &LowerError,
) -> Result<Option<Reason>, AllocError> {
    match error {
        LowerError::Schedule(SchedError::Broken(rule, name)) => {
            ruled_reason(alloc, algo, sched, *rule, name)
        }
        LowerError::Broken(rule, name) => match followed(alloc, algo, sched) {
            Ok(placement) => region_reason(alloc, algo, sched, &placement, *rule, name),
            Err(SchedError::Memory) => Err(AllocError),
            Err(_) => Ok(None),
        },
        LowerError::Memory | LowerError::Schedule(_) => Ok(None),
    }
}
