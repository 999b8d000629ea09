//! Which functions may lack a region because of what other ones break.

ghost use Rattle.std.specs.Prelude.{◌≡◌, ◌||◌, IfOk, map, drop};
ghost use Rattle.std.specs.List.{flat_map};
ghost use Rattle.algo.specs.View.{algorithm_of};
ghost use Rattle.meaning.specs.Names.{same_name};
ghost use Rattle.regions.specs.Broken as broken;
ghost use Rattle.sched.specs.Calls.{call_of};
ghost use Rattle.regions.specs.Lacking as spec;
ghost use Rattle.sched.specs.Stored.{are_calls_of as are_called, calls_in, formula_of, stored_of};
ghost use Rattle.regions.specs.Stored.{is_large};

use crate::calls::function_calls;
use crate::uses::{are_whole, has_outside_use};
use algo::Algo;
use algo::scoping::same_name;
use sched::calls::{Call, calls_of};
use sched::definitions::{Formula, Stored, are_calls_of};
use sched::{RegionRule, Rule};
use std::alloc::{AllocError, Global};
use tree::token::Name;

// ---- what functions call

// Whether a function is the one of this name, or one of the calls behind it calls it.
fn is_named_or_called(own: &str, name: &str, behind: &[Call<'_>]) -> bool
    ensures { result ≡ same_name own.now name.now || are_called own.now (map call_of behind.now) }
{
    same_name(own, name) || are_calls_of(own, behind)
}

// The calls of the function of this name, and of what it comes to by them, among the functions from this number on. A function is
// called by those behind it alone.
fn calls_by_text<'b>(
    alloc: Global,
    algo: &'b Algo,
    name: &str,
    number: usize,
) -> Result<Vec<Call<'b>>, AllocError>
    ensures { IfOk result (λ v. map call_of v.items ≡ spec.calls_by_text (drop number (algorithm_of algo.now).functions) name.now) }
{
    let Some((own, function)) = algo.funcs().get_index(number) else {
        return Ok(Vec::new(alloc));
    };
    let Some(next) = number.checked_add(1) else {
        return Err(AllocError);
    };
    let mut behind = calls_by_text(alloc, algo, name, next)?;
    if is_named_or_called(own.as_str(), name, &behind) {
        let mut calls = function_calls(alloc, function)?;
        calls.append(&mut behind)?;
        return Ok(calls);
    }
    Ok(behind)
}

// The calls of these definitions.
fn calls_of_all<'b>(alloc: Global, formulas: &'b [Formula]) -> Result<Vec<Call<'b>>, AllocError>
    ensures { IfOk result (λ v. map call_of v.items ≡ flat_map calls_in (map formula_of formulas.now)) }
{
    match formulas {
        [] => Ok(Vec::new(alloc)),
        [formula, rest @ ..] => {
            let mut calls = calls_of(alloc, formula)?;
            let mut others = calls_of_all(alloc, rest)?;
            calls.append(&mut others)?;
            Ok(calls)
        }
    }
}

// The calls of all definitions of a function; where one of these passes the limits, by the text.
fn stored_calls<'b>(
    alloc: Global,
    algo: &'b Algo,
    one: &'b Stored<'_>,
) -> Result<Vec<Call<'b>>, AllocError>
    ensures { IfOk result (λ v. map call_of v.items ≡ spec.stored_calls (algorithm_of algo.now) (stored_of one.now)) }
{
    match &one.formulas {
        Some(formulas) => calls_of_all(alloc, formulas),
        None => calls_by_text(alloc, algo, one.subject.name.as_str(), 0),
    }
}

// ---- which functions leave others without regions

// Whether a definition of it passes the limits.
#[tactic(auto, using(crate::proofs::Sizes::small_at, crate::proofs::Sizes::large_at))]
fn is_large(one: &Stored<'_>) -> bool
    ensures { result ≡ is_large (stored_of one.now) }
{
    match &one.formulas {
        Some(_) => false,
        None => true,
    }
}

// Whether the rule is that this function is computed at no loop that is there.
fn is_home_rule(fault: &Option<(Rule, Name)>, one: &Stored<'_>) -> bool
    ensures { result ≡ broken.is_home_rule fault.now (stored_of one.now) }
{
    match fault {
        Some((rule, name)) => {
            rule.number() == RegionRule::OutsideUse.number()
                && same_name(name.as_str(), one.subject.name.as_str())
        }
        None => false,
    }
}

// Whether a function leaves others without regions: it is computed at no loop that is there, too large, or used outside of the loop
// at which it is computed.
fn leaves_some(
    alloc: Global,
    all: &[Stored<'_>],
    fault: &Option<(Rule, Name)>,
    one: &Stored<'_>,
) -> Result<bool, AllocError>
    ensures { IfOk result (λ yes. yes ≡ broken.leaves_some (map stored_of all.now) fault.now (stored_of one.now)) }
{
    if is_large(one) || is_home_rule(fault, one) {
        return Ok(true);
    }
    has_outside_use(alloc, all, one)
}

// The same, where of whole functions only one that is too large does.
fn leaves_others(
    alloc: Global,
    all: &[Stored<'_>],
    fault: &Option<(Rule, Name)>,
    one: &Stored<'_>,
) -> Result<bool, AllocError>
    ensures { IfOk result (λ yes. yes ≡ broken.leaves_others (map stored_of all.now) fault.now (stored_of one.now)) }
{
    if are_whole(all) {
        return Ok(is_large(one));
    }
    leaves_some(alloc, all, fault, one)
}

// ---- what these call

/// The calls of those among these functions that leave others without regions, and of what these call: a function that is called
/// there may lack a region without a fault of its own.
pub fn calls_left<'b, 'a>(
    alloc: Global,
    algo: &'b Algo,
    all: &[Stored<'a>],
    fault: &Option<(Rule, Name)>,
    stored: &'b [Stored<'a>],
) -> Result<Vec<Call<'b>>, AllocError>
    ensures { IfOk result (λ v. map call_of v.items ≡ spec.lacking (algorithm_of algo.now) (broken.leaves_others (map stored_of all.now) fault.now)
        (map stored_of stored.now)) }
{
    match stored {
        [] => Ok(Vec::new(alloc)),
        [one, rest @ ..] => {
            let mut behind = calls_left(alloc, algo, all, fault, rest)?;
            if leaves_others(alloc, all, fault, one)?
                || are_calls_of(one.subject.name.as_str(), &behind)
            {
                let mut calls = stored_calls(alloc, algo, one)?;
                calls.append(&mut behind)?;
                return Ok(calls);
            }
            Ok(behind)
        }
    }
}
