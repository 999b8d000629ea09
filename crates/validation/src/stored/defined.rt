//! Functions and definitions that the lines of a plan name.

ghost use Rattle.std.specs.Prelude.{◌≡◌, ◌||◌, IfOk, MatchOption, None, Some, length, map, slice_get};
ghost use Rattle.std.specs.List.{list_any};
ghost use Rattle.std.specs.Option.{option_map};
ghost use Rattle.meaning.specs.Conditions.{function_named};
ghost use Rattle.algo.specs.Parts.{functions_of};
ghost use Rattle.algo.specs.View.{algorithm_of};
ghost use Rattle.plan.specs.Lists.{list_groups, list_statements};
ghost use Rattle.plan.specs.Plan.{block};
ghost use Rattle.plan.specs.View.{group_of, plan_of, statement_of};
ghost use Rattle.validation.specs.Stored.Definitions.{parts_of, parts_named, parts_held, definition_in, definition_held, function_in, has_variables, allots, block_allots, group_stores, is_stored, stored_in};

use algo::scoping::same_name;
use algo::{Algo, Function, Update};
use indexmap::IndexMap;
use plan::{Group, Plan, Stmt};
use std::alloc::{AllocError, Global};

/// A definition: the pure one of a function, or one of its updates.
#[derive(Clone, Copy, Drop)]
pub enum Defined<'a> {
    Pure(&'a Function),
    Update(&'a Function, &'a Update),
}

/// How many variables the function of the definition has.
pub fn variable_count(defined: Defined<'_>) -> usize
    ensures { result ≡ length (function_in (definition_held defined.entry)).variables }
{
    match defined {
        Defined::Pure(function) | Defined::Update(function, _) => function.variables.len(),
    }
}

/// The function of this name among these.
fn named_among<'a>(functions: &'a IndexMap<String, Function>, name: &str) -> Option<&'a Function>
    ensures { option_map (λ f. parts_held f.now) result ≡ option_map parts_of (function_named (functions_of functions.now.entries) name.now) }
{
    for k in 0..functions.len() {
        match functions.get_index(k) {
            Some((known, function)) => {
                if same_name(known.as_str(), name) {
                    return Some(function);
                }
            }
            None => unreachable!(),
        }
    }
    None
}

/// The function of this name.
fn function_named<'a>(algo: &'a Algo, name: &str) -> Option<&'a Function>
    ensures { option_map (λ f. parts_held f.now) result ≡ parts_named (algorithm_of algo.now) name.now }
{
    named_among(algo.funcs(), name)
}

/// Whether there is a function of this name, with so many variables.
pub fn has_variables(algo: &Algo, name: &str, count: usize) -> bool
    ensures { result ≡ has_variables (parts_named (algorithm_of algo.now) name.now) count }
{
    match function_named(algo, name) {
        Some(function) => function.variables.len() == count,
        None => false,
    }
}

/// The update of this number, counted from 0.
fn update_at(updates: &[Update], number: usize) -> Option<&Update>
    ensures { MatchOption result (slice_get updates.now number ≡ None) (λ u. slice_get updates.now number ≡ Some u.now) }
{
    updates.get(number)
}

/// A definition of a function: number 0 is the pure one, and the updates follow from 1 on.
fn definition_in(function: &Function, number: u64) -> Option<Defined<'_>>
    ensures { option_map definition_held result ≡ definition_in (Some (parts_held function.now)) number }
{
    match number.checked_sub(1) {
        None => Some(Defined::Pure(function)),
        Some(update) => match update_at(&function.updates, update as usize) {
            Some(update) => Some(Defined::Update(function, update)),
            None => None,
        },
    }
}

/// A definition of the function of this name.
pub fn definition_of<'a>(algo: &'a Algo, name: &str, number: u64) -> Option<Defined<'a>>
    ensures { option_map definition_held result ≡ definition_in (parts_named (algorithm_of algo.now) name.now) number }
{
    match function_named(algo, name) {
        Some(function) => definition_in(function, number),
        None => None,
    }
}

/// Whether a line of the statement allocates a buffer of the function of this name.
#[cycle(allots)]
fn allots(stmt: &Stmt, name: &str) -> bool
    ensures { result ≡ allots name.now (statement_of stmt.now) }
{
    match stmt {
        Stmt::Seq(all) => any_allots(all, name),
        Stmt::For { body, .. } | Stmt::Guard { body, .. } => allots(body, name),
        Stmt::First { first, later, .. } => allots(first, name) || allots(later, name),
        Stmt::Alloc { function, .. } => same_name(function.as_str(), name),
        Stmt::Let { .. } | Stmt::Fetch { .. } | Stmt::Store { .. } | Stmt::Publish { .. } => false,
    }
}

/// The same of a block's statements.
#[cycle(allots)]
fn any_allots(all: &[Stmt], name: &str) -> bool
    ensures { result ≡ block_allots name.now (block (list_statements all.now)) }
{
    for stmt in all {
        if allots(stmt, name) {
            return true;
        }
    }
    false
}

/// Whether the group is of the function of this name, or allocates a buffer of it.
fn group_stores(group: &Group, name: &str) -> bool
    ensures { result ≡ group_stores name.now (group_of group.now) }
{
    same_name(group.function.as_str(), name) || allots(&group.body, name)
}

/// Whether one of the groups is of the function of this name, or allocates a buffer of it.
fn is_stored_among(groups: &[Group], name: &str) -> bool
    ensures { result ≡ list_any (group_stores name.now) (list_groups groups.now) }
{
    for group in groups {
        if group_stores(group, name) {
            return true;
        }
    }
    false
}

/// Which of these functions are stored by the groups.
fn marks_of(
    alloc: Global,
    functions: &IndexMap<String, Function>,
    groups: &[Group],
) -> Result<Vec<bool>, AllocError>
    ensures { IfOk result (λ marks. marks.items ≡ map (λ f. list_any (group_stores f.name) (list_groups groups.now)) (functions_of functions.now.entries)) }
{
    let mut marks = Vec::new(alloc);
    for k in 0..functions.len() {
        match functions.get_index(k) {
            Some((known, _)) => marks.push(is_stored_among(groups, known.as_str()))?,
            None => unreachable!(),
        }
    }
    Ok(marks)
}

/// Which functions of the algorithm are stored, one mark a function.
pub fn stored_in(alloc: Global, algo: &Algo, plan: &Plan) -> Result<Vec<bool>, AllocError>
    ensures { IfOk result (λ marks. marks.items ≡ stored_in (algorithm_of algo.now) (plan_of plan.now)) }
{
    marks_of(alloc, algo.funcs(), &plan.groups)
}
