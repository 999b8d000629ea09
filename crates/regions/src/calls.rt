//! The calls of the definitions of a function.

ghost use Rattle.std.specs.Prelude.{◌≡◌, ◌++◌, IfOk, map};
ghost use Rattle.std.specs.List.{flat_map};
ghost use Rattle.tree.specs.Term.{term_of};
ghost use Rattle.algo.specs.Parts.{change_of};
ghost use Rattle.algo.specs.Scoping.Standing.{calls_of};
ghost use Rattle.sched.specs.Calls.{call_of};
ghost use Rattle.regions.specs.Lacking as lacking;

use algo::{Function, Update};
use sched::calls::{Call, calls_of, with_calls, with_calls_of_all};
use std::alloc::{AllocError, Global};

// The calls so far and those of these updates: of each those of its left indices, and then those of its value.
#[tactic(auto, using(crate::proofs::Calling::behind_change, crate::proofs::Calling::behind_none))]
fn with_updates<'a>(
    known: Vec<Call<'a>>,
    updates: &'a [Update],
) -> Result<Vec<Call<'a>>, AllocError>
    ensures { IfOk result (λ v. map call_of v.items ≡ map call_of known.entry.items ++ flat_map lacking.change_calls (map change_of updates.now)) }
{
    match updates {
        [] => Ok(known),
        [update, rest @ ..] => {
            let known = with_calls_of_all(known, &update.at)?;
            let known = with_calls(known, &update.value)?;
            with_updates(known, rest)
        }
    }
}

/// The calls of a function as its text has them: those of its pure definition, and then those of its updates.
pub fn function_calls<'a>(
    alloc: Global,
    function: &'a Function,
) -> Result<Vec<Call<'a>>, AllocError>
    ensures { IfOk result (λ v. map call_of v.items ≡ calls_of (term_of function.now.value)
        ++ flat_map lacking.change_calls (map change_of function.now.updates.items)) }
{
    let calls = with_calls(Vec::new(alloc), &function.value)?;
    with_updates(calls, &function.updates)
}
