//! Where functions that are computed inside loops are used.

ghost use Rattle.std.specs.Prelude.{◌≡◌, ◌&&◌, [], ◌∷◌, Decides, IfOk, true, false, map, not};
ghost use Rattle.std.specs.List.{list_any};
ghost use Rattle.std.specs.Option.{option_map};
ghost use Rattle.sched.specs.Calls.{call_of};
ghost use Rattle.meaning.specs.Names.{same_name};
ghost use Rattle.sched.specs.Stored.{are_calls_of as calls_of_name, formula_of, stored_of};
ghost use Rattle.regions.specs.Stored.{some_calls};
ghost use Rattle.regions.specs.Faults as spec;
ghost use Rattle.regions.specs.Uses as uses;

use crate::regions::formulas_call;
use algo::scoping::same_name;
use sched::calls::{Call, calls_of};
use sched::definitions::{Formula, Stored, are_calls_of, counts};
use sched::{Home, Loop};
use std::alloc::{AllocError, Global};
use tree::token::Name;

// ---- loops

// The first stored function of this name.
fn stored_named<'b, 'a>(stored: &'b [Stored<'a>], name: &Name) -> Option<&'b Stored<'a>>
    ensures { option_map (λ s. stored_of s.now) result ≡ uses.stored_named (map stored_of stored.now) name.now }
{
    match stored {
        [] => None,
        [one, rest @ ..] => {
            if same_name(one.subject.name.as_str(), name.as_str()) {
                Some(one)
            } else {
                stored_named(rest, name)
            }
        }
    }
}

/// The first of these, which are in the order of the text.
pub(crate) fn first_home(homes: &[Home]) -> Option<Home>
    ensures { result ≡ uses.first_home homes.now }
{
    match homes {
        [] => None,
        [home, _rest @ ..] => Some(*home),
    }
}

// The loop at which a function is computed; a root function is computed at none.
fn home_of(one: &Stored<'_>) -> Option<Home>
    ensures { result ≡ uses.home_of (stored_of one.now) }
{
    if one.subject.is_root {
        None
    } else {
        first_home(&one.placed.homes)
    }
}

// Whether a loop has this name and the definition leaves the index of its dimension the variable alone.
fn is_loop_of(formula: &Formula, name: &Name, one: &Loop) -> bool
    ensures { result ≡ uses.is_loop_of (formula_of formula.now) name.now one.now }
{
    same_name(one.name.as_str(), name.as_str()) && !counts(Some(formula), one.dimension)
}

// Whether the definition has the loop of this name.
fn has_loop(loops: &[Loop], formula: &Formula, name: &Name) -> bool
    ensures { result ≡ uses.has_loop_of loops.now (formula_of formula.now) name.now }
{
    match loops {
        [] => false,
        [one, rest @ ..] => is_loop_of(formula, name, one) || has_loop(rest, formula, name),
    }
}

// Whether of these loops the first one of this name is the other one or stands inside it.
fn is_within(inner: &Name, outer: &Name, loops: &[Loop]) -> bool
    ensures { result ≡ uses.is_within inner.now outer.now loops.now }
{
    match loops {
        [] => false,
        [one, rest @ ..] => {
            if same_name(one.name.as_str(), inner.as_str()) {
                return true;
            }
            if same_name(one.name.as_str(), outer.as_str()) {
                return false;
            }
            is_within(inner, outer, rest)
        }
    }
}

// ---- nests

// Whether the definitions call one of these functions.
fn are_called(alloc: Global, names: &[Name], formulas: &[Formula]) -> Result<bool, AllocError>
    ensures { IfOk result (λ yes. yes ≡ list_any (λ y. some_calls y (map formula_of formulas.now)) names.now) }
{
    match names {
        [] => Ok(false),
        [name, rest @ ..] => {
            if formulas_call(alloc, formulas, name.as_str())? {
                return Ok(true);
            }
            are_called(alloc, rest, formulas)
        }
    }
}

// Whether the function is computed in loops and calls one of these.
#[tactic(auto, using(crate::proofs::Insides::user_found, crate::proofs::Insides::user_large))]
fn is_user(alloc: Global, names: &[Name], one: &Stored<'_>) -> Result<bool, AllocError>
    ensures { IfOk result (λ yes. yes ≡ uses.is_user names.now (stored_of one.now)) }
{
    if one.subject.is_root {
        return Ok(false);
    }
    match &one.formulas {
        None => Ok(false),
        Some(formulas) => are_called(alloc, names, formulas),
    }
}

// With this function, if it leads to one of these.
fn with_user(alloc: Global, names: Vec<Name>, one: &Stored<'_>) -> Result<Vec<Name>, AllocError>
    ensures { IfOk result (λ v. v.items ≡ uses.with_user names.items (stored_of one.now)) }
{
    let mut names = names;
    if is_user(alloc, &names, one)? {
        names.push(one.subject.name)?;
    }
    Ok(names)
}

// These, and the functions among the others that lead to one of them: those that are computed in loops and call one that does.
fn leading(alloc: Global, stored: &[Stored<'_>], names: Vec<Name>) -> Result<Vec<Name>, AllocError>
    ensures { IfOk result (λ v. v.items ≡ uses.leading (map stored_of stored.now) names.items) }
{
    match stored {
        [] => Ok(names),
        [one, rest @ ..] => {
            let next = with_user(alloc, names, one)?;
            leading(alloc, rest, next)
        }
    }
}

// This function, and those that lead to it.
fn leading_to(alloc: Global, stored: &[Stored<'_>], name: &Name) -> Result<Vec<Name>, AllocError>
    ensures { IfOk result (λ v. v.items ≡ uses.leading (map stored_of stored.now) (name.now ∷ [])) }
{
    let mut names = Vec::new(alloc);
    names.push(*name)?;
    leading(alloc, stored, names)
}

// Whether one of these is called, but for this one.
fn is_called(own: &Name, names: &[Name], calls: &[Call<'_>]) -> bool
    ensures { result ≡ list_any (λ y. not (same_name y own.now) && calls_of_name y (map call_of calls.now)) names.now }
{
    match names {
        [] => false,
        [name, rest @ ..] => {
            if !same_name(name.as_str(), own.as_str()) && are_calls_of(name.as_str(), calls) {
                return true;
            }
            is_called(own, rest, calls)
        }
    }
}

// Whether a function is computed in the nest of a definition of this other one, and the nest lacks the loop. That a definition calls
// its own function is no use of what is computed there.
fn misses_loop(
    alloc: Global,
    stored: &[Stored<'_>],
    own: &Name,
    name: &Name,
    turn: &Name,
    loops: &[Loop],
    formula: &Formula,
) -> Result<bool, AllocError>
    ensures { IfOk result (λ yes. yes ≡ uses.misses_loop (map stored_of stored.now) own.now name.now turn.now loops.now (formula_of formula.now)) }
{
    if has_loop(loops, formula, turn) {
        return Ok(false);
    }
    let names = leading_to(alloc, stored, name)?;
    let calls = calls_of(alloc, formula)?;
    Ok(is_called(own, &names, &calls))
}

// The same of one of these definitions.
fn one_misses(
    alloc: Global,
    stored: &[Stored<'_>],
    own: &Name,
    name: &Name,
    turn: &Name,
    loops: &[Loop],
    formulas: &[Formula],
) -> Result<bool, AllocError>
    ensures { IfOk result (λ yes. yes ≡ list_any (uses.misses_loop (map stored_of stored.now) own.now name.now turn.now loops.now)
        (map formula_of formulas.now)) }
{
    match formulas {
        [] => Ok(false),
        [formula, rest @ ..] => {
            if misses_loop(alloc, stored, own, name, turn, loops, formula)? {
                return Ok(true);
            }
            one_misses(alloc, stored, own, name, turn, loops, rest)
        }
    }
}

// The same of one of a function's definitions.
#[tactic(auto, using(crate::proofs::Insides::misses_found, crate::proofs::Insides::misses_large))]
fn some_misses(
    alloc: Global,
    stored: &[Stored<'_>],
    name: &Name,
    turn: &Name,
    host: &Stored<'_>,
) -> Result<bool, AllocError>
    ensures { IfOk result (λ yes. yes ≡ uses.some_misses (map stored_of stored.now) name.now turn.now (stored_of host.now)) }
{
    match &host.formulas {
        None => Ok(false),
        Some(formulas) => one_misses(
            alloc,
            stored,
            &host.subject.name,
            name,
            turn,
            &host.placed.loops,
            formulas,
        ),
    }
}

// Whether a function that is computed at a loop of this one is computed inside of the other loop, in each nest in which it is computed.
fn is_inside(
    alloc: Global,
    stored: &[Stored<'_>],
    name: &Name,
    inner: &Name,
    outer: &Name,
    host: &Stored<'_>,
) -> Result<bool, AllocError>
    ensures { IfOk result (λ yes. yes ≡ (uses.is_within inner.now outer.now (stored_of host.now).placed.loops
        && not (uses.some_misses (map stored_of stored.now) name.now outer.now (stored_of host.now)))) }
{
    if !is_within(inner, outer, &host.placed.loops) {
        return Ok(false);
    }
    Ok(!some_misses(alloc, stored, name, outer, host)?)
}

// Whether what is computed at the first loop, which is the function of this name, is computed at the other one or inside it, by at
// most one home for each of `steps`.
fn leads_inside<'a>(
    alloc: Global,
    stored: &[Stored<'a>],
    steps: &[Stored<'a>],
    name: &Name,
    home: &Home,
    outer: &Home,
) -> Result<bool, AllocError>
    ensures { IfOk result (λ yes. yes ≡ uses.leads_inside (map stored_of stored.now) (map stored_of steps.now) name.now home.now outer.now) }
{
    match steps {
        [] => Ok(false),
        [_step, rest @ ..] => match stored_named(stored, &home.function) {
            None => Ok(false),
            Some(host) => {
                if same_name(home.function.as_str(), outer.function.as_str()) {
                    is_inside(alloc, stored, name, &home.turn, &outer.turn, host)
                } else {
                    match home_of(host) {
                        None => Ok(false),
                        Some(next) => {
                            leads_inside(alloc, stored, rest, &host.subject.name, &next, outer)
                        }
                    }
                }
            }
        },
    }
}

// ---- uses

// Whether this definition of a function stands inside the loop.
fn stands_inside(
    alloc: Global,
    stored: &[Stored<'_>],
    outer: &Home,
    user: &Stored<'_>,
    formula: &Formula,
) -> Result<bool, AllocError>
    ensures { IfOk result (λ yes. yes ≡ uses.stands_inside (map stored_of stored.now) outer.now (stored_of user.now) (formula_of formula.now)) }
{
    if same_name(user.subject.name.as_str(), outer.function.as_str()) {
        return Ok(has_loop(&user.placed.loops, formula, &outer.turn));
    }
    match home_of(user) {
        None => Ok(false),
        Some(home) => leads_inside(alloc, stored, stored, &user.subject.name, &home, outer),
    }
}

// Whether this definition of a function calls another one and does not stand inside its loop.
fn is_outside(
    alloc: Global,
    stored: &[Stored<'_>],
    name: &str,
    outer: &Home,
    user: &Stored<'_>,
    formula: &Formula,
) -> Result<bool, AllocError>
    ensures { IfOk result (λ yes. yes ≡ uses.is_outside (map stored_of stored.now) name.now outer.now (stored_of user.now) (formula_of formula.now)) }
{
    let calls = calls_of(alloc, formula)?;
    if !are_calls_of(name, &calls) {
        return Ok(false);
    }
    Ok(!stands_inside(alloc, stored, outer, user, formula)?)
}

// The same of one of these definitions.
fn some_outside(
    alloc: Global,
    stored: &[Stored<'_>],
    name: &str,
    outer: &Home,
    user: &Stored<'_>,
    formulas: &[Formula],
) -> Result<bool, AllocError>
    ensures { IfOk result (λ yes. yes ≡ list_any (uses.is_outside (map stored_of stored.now) name.now outer.now (stored_of user.now))
        (map formula_of formulas.now)) }
{
    match formulas {
        [] => Ok(false),
        [formula, rest @ ..] => {
            if is_outside(alloc, stored, name, outer, user, formula)? {
                return Ok(true);
            }
            some_outside(alloc, stored, name, outer, user, rest)
        }
    }
}

// Whether another function than that of this name uses it outside of its loop.
#[tactic(auto, using(crate::proofs::Insides::outside_found, crate::proofs::Insides::outside_large))]
fn uses_it_outside(
    alloc: Global,
    stored: &[Stored<'_>],
    name: &str,
    outer: &Home,
    user: &Stored<'_>,
) -> Result<bool, AllocError>
    ensures { IfOk result (λ yes. yes ≡ uses.uses_outside (map stored_of stored.now) name.now outer.now (stored_of user.now)) }
{
    if same_name(user.subject.name.as_str(), name) {
        return Ok(false);
    }
    match &user.formulas {
        None => Ok(false),
        Some(formulas) => some_outside(alloc, stored, name, outer, user, formulas),
    }
}

// Whether one of these does.
fn some_use_outside<'a>(
    alloc: Global,
    stored: &[Stored<'a>],
    name: &str,
    outer: &Home,
    users: &[Stored<'a>],
) -> Result<bool, AllocError>
    ensures { IfOk result (λ yes. yes ≡ list_any (uses.uses_outside (map stored_of stored.now) name.now outer.now) (map stored_of users.now)) }
{
    match users {
        [] => Ok(false),
        [user, rest @ ..] => {
            if uses_it_outside(alloc, stored, name, outer, user)? {
                return Ok(true);
            }
            some_use_outside(alloc, stored, name, outer, rest)
        }
    }
}

// Whether a function is used outside of the loop at which it is computed, or in a definition that lacks it.
fn is_used_outside(
    alloc: Global,
    stored: &[Stored<'_>],
    one: &Stored<'_>,
) -> Result<bool, AllocError>
    ensures { IfOk result (λ yes. yes ≡ uses.is_used_outside (map stored_of stored.now) (stored_of one.now)) }
{
    match first_home(&one.placed.homes) {
        None => Ok(false),
        Some(outer) => some_use_outside(alloc, stored, one.subject.name.as_str(), &outer, stored),
    }
}

/// Whether a function that is computed at a loop is used outside of it, or in a definition that lacks it.
#[tactic(auto, using(crate::proofs::Outsides::homeless_told))]
pub fn has_outside_use(
    alloc: Global,
    stored: &[Stored<'_>],
    one: &Stored<'_>,
) -> Result<bool, AllocError>
    ensures told { IfOk result (λ yes. yes ≡ uses.is_used_outside (map stored_of stored.now) (stored_of one.now)) }
    ensures homeless { IfOk result (λ yes. spec.is_homeless one.now.placed.now.homes.items ≡ true → yes ≡ false) }
    ensures decides { IfOk result (λ yes. Decides yes (uses.IsUsedOutside (map stored_of stored.now) (stored_of one.now))) }
{
    is_used_outside(alloc, stored, one)
}

// ---- whole functions

fn is_homeless(homes: &[Home]) -> bool
    ensures { result ≡ spec.is_homeless homes.now }
{
    match homes {
        [] => true,
        [_first, _rest @ ..] => false,
    }
}

// Whether a root function is computed at no loop.
fn is_whole(one: &Stored<'_>) -> bool
    ensures { result ≡ spec.is_whole (stored_of one.now) }
{
    one.subject.is_root && is_homeless(&one.placed.homes)
}

/// Whether each is a root function that is computed at no loop.
pub fn are_whole(stored: &[Stored<'_>]) -> bool
    ensures { result ≡ spec.are_whole (map stored_of stored.now) }
{
    match stored {
        [] => true,
        [one, rest @ ..] => is_whole(one) && are_whole(rest),
    }
}
