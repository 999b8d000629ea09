//! Schedules in which one function more is stored, and what comes of them.

use crate::error::LowerError;
use crate::lowering::{Lowered, lower};
use crate::reasons::causes::{BoundCause, Cause};
use crate::reasons::sizes::inlined_below;
use algo::Algo;
use sched::{Directive, Placement, Sched, Scheduled};
use std::alloc::{AllocError, Global};
use tree::token::Name;

fn copied(alloc: Global, one: &Directive) -> Result<Directive, AllocError> {
    match one {
        Directive::ComputeRoot => Ok(Directive::ComputeRoot),
        Directive::ComputeAt(home) => Ok(Directive::ComputeAt(*home)),
        Directive::StoreAt(home) => Ok(Directive::StoreAt(*home)),
        Directive::Fold(fold) => Ok(Directive::Fold(*fold)),
        Directive::Split(split) => Ok(Directive::Split(*split)),
        Directive::Tile(tile) => Ok(Directive::Tile(*tile)),
        Directive::Reorder(names) => Ok(Directive::Reorder(Vec::from_slice(alloc, names)?)),
        Directive::Unroll(name) => Ok(Directive::Unroll(*name)),
        Directive::Vectorize(name) => Ok(Directive::Vectorize(*name)),
        Directive::Parallel(name) => Ok(Directive::Parallel(*name)),
    }
}

fn copied_all(alloc: Global, known: &[Directive]) -> Result<Vec<Directive>, AllocError> {
    let mut directives = Vec::new(alloc);
    for one in known {
        directives.push(copied(alloc, one)?)?;
    }
    Ok(directives)
}

// The schedule, by which the function of this name is computed wholly before those that use it.
fn with_root(alloc: Global, sched: &Sched, name: &Name) -> Result<Sched, AllocError> {
    let mut functions = Vec::new(alloc);
    for one in &sched.functions {
        functions.push(Scheduled {
            function: one.function,
            directives: copied_all(alloc, &one.directives)?,
        })?;
    }
    let mut directives = Vec::new(alloc);
    directives.push(Directive::ComputeRoot)?;
    functions.push(Scheduled {
        function: *name,
        directives,
    })?;
    Ok(Sched { functions })
}

// ---- trials

/// What comes of it where one function more is stored.
#[derive(Clone, Copy, Drop)]
enum Trial {
    /// That function, or the one that broke a rule, breaks one.
    Broken,
    /// The one that broke a rule breaks one, and that function none.
    Begun,
    /// Neither of them breaks one.
    Enough,
}

// What is lowered where this function, too, is computed wholly before those that use it.
fn lowered_with(
    alloc: Global,
    algo: &Algo,
    sched: &Sched,
    store: &Name,
) -> Result<Lowered, LowerError> {
    let altered = with_root(alloc, sched, store)?;
    lower(alloc, algo, &altered)
}

// What an error tells of the function that broke a rule, and of the one that is stored.
fn trial_by(error: &LowerError, caller: &Name, store: &Name) -> Result<Trial, AllocError> {
    match error {
        LowerError::Memory => Err(AllocError),
        LowerError::Schedule(_) => Ok(Trial::Broken),
        LowerError::Broken(_, name) => {
            if name.as_str() == store.as_str() {
                Ok(Trial::Broken)
            } else if name.as_str() == caller.as_str() {
                Ok(Trial::Begun)
            } else {
                Ok(Trial::Enough)
            }
        }
    }
}

fn trial_of(
    alloc: Global,
    algo: &Algo,
    sched: &Sched,
    caller: &Name,
    store: &Name,
) -> Result<Trial, AllocError> {
    let outcome = lowered_with(alloc, algo, sched, store);
    match &outcome {
        Ok(_) => Ok(Trial::Enough),
        Err(error) => trial_by(error, caller, store),
    }
}

// The last function on the way down from one that breaks a rule which, stored, is enough; or else the last that breaks none itself.
fn store_below(
    alloc: Global,
    algo: &Algo,
    sched: &Sched,
    placement: &Placement,
    caller: &Name,
) -> Result<Option<(Name, bool)>, AllocError> {
    let mut begun = None;
    let names = inlined_below(alloc, algo, placement, caller)?;
    for name in &names {
        match trial_of(alloc, algo, sched, caller, name)? {
            Trial::Enough => return Ok(Some((*name, true))),
            Trial::Begun if begun.is_none() => begun = Some((*name, false)),
            _ => {}
        }
    }
    Ok(begun)
}

/// What is to be stored where an index is clamped already.
pub(crate) fn with_store(
    alloc: Global,
    algo: &Algo,
    sched: &Sched,
    placement: &Placement,
    cause: Cause,
) -> Result<Cause, AllocError> {
    match cause {
        Cause::Bound(
            BoundCause::Clamped {
                function,
                caller,
                has,
                ..
            },
        ) => {
            let (store, is_enough) = match store_below(alloc, algo, sched, placement, &caller)? {
                Some((name, is_enough)) => (Some(name), is_enough),
                None => (None, false),
            };
            Ok(Cause::Bound(BoundCause::Clamped {
                function,
                caller,
                has,
                store,
                is_enough,
            }))
        }
        other => Ok(other),
    }
}
