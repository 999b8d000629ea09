//! The stored functions, and their definitions with the calls of other functions put in.

ghost use Rattle.std.specs.Prelude.{◌≡◌, IfOk, length, map, drop};
ghost use Rattle.std.specs.Option.{option_map};
ghost use Rattle.tree.specs.Term.{term_of, list_terms};
ghost use Rattle.algo.specs.View.{algorithm_of};
ghost use Rattle.algo.specs.Parts.{change_of, names_of};
ghost use Rattle.sched.specs.Placing.{subject_of, placed_of};
ghost use Rattle.blocks.specs.Stored as spec;
ghost use Rattle.sched.specs.Stored as sched;

use algo::scoping::is_variable;
use algo::{Algo, Function, Update};
use sched::definitions::{Formula, Stored};
use sched::{Placed, Placement, Subject};
use std::alloc::{AllocError, Global};
use subst::{SubstError, put_in};
use tree::Expr;

// Whether each function is stored, in the order of declaration.
fn stored_flags(alloc: Global, subjects: &[Subject]) -> Result<Vec<bool>, AllocError>
    ensures { IfOk result (λ v. v.items ≡ spec.flags (map subject_of subjects.now)) }
{
    let mut stored = Vec::new(alloc);
    for subject in subjects {
        stored.push(subject.is_stored)?;
    }
    Ok(stored)
}

// An expression with the calls of functions that are not stored put in.
fn filled(alloc: Global, algo: &Algo, stored: &[bool], expr: &Expr) -> Result<Expr, SubstError>
    requires { length stored.now ≡ length (algorithm_of algo.now).functions }
    ensures { spec.Puts result term_of (spec.put (algorithm_of algo.now) stored.now (term_of expr.now)) }
{
    put_in(alloc, algo, expr, stored)
}

// The left index of a variable, with the calls put in; none where it is the variable alone.
fn left_index(
    alloc: Global,
    algo: &Algo,
    stored: &[bool],
    variable: &str,
    index: &Expr,
) -> Result<Option<Expr>, SubstError>
    requires { length stored.now ≡ length (algorithm_of algo.now).functions }
    ensures { spec.Puts result (option_map term_of) (spec.left_put (algorithm_of algo.now) stored.now variable.now (term_of index.now)) }
{
    if is_variable(variable, index) {
        return Ok(None);
    }
    let made = filled(alloc, algo, stored, index)?;
    Ok(Some(made))
}

fn left_indices(
    alloc: Global,
    algo: &Algo,
    stored: &[bool],
    variables: &[String],
    at: &[Expr],
) -> Result<Vec<Option<Expr>>, SubstError>
    requires { length stored.now ≡ length (algorithm_of algo.now).functions }
    ensures { spec.Puts result (λ v. map (option_map term_of) v.items)
        (spec.lefts_put (algorithm_of algo.now) stored.now (names_of variables.now) (list_terms at.now)) }
{
    match variables {
        [] => Ok(Vec::new(alloc)),
        [variable, others @ ..] => match at {
            [] => Ok(Vec::new(alloc)),
            [index, rest @ ..] => {
                let first = left_index(alloc, algo, stored, variable.as_str(), index)?;
                let mut all = left_indices(alloc, algo, stored, others, rest)?;
                all.insert(0, first)?;
                Ok(all)
            }
        },
    }
}

// No left index of so many variables.
fn no_indices(alloc: Global, variables: &[String]) -> Result<Vec<Option<Expr>>, AllocError>
    ensures { IfOk result (λ v. map (option_map term_of) v.items ≡ map (λ x. None) (names_of variables.now)) }
{
    match variables {
        [] => Ok(Vec::new(alloc)),
        [_, rest @ ..] => {
            let mut at = no_indices(alloc, rest)?;
            at.insert(0, None)?;
            Ok(at)
        }
    }
}

fn pure_formula(
    alloc: Global,
    algo: &Algo,
    stored: &[bool],
    function: &Function,
) -> Result<Formula, SubstError>
    requires { length stored.now ≡ length (algorithm_of algo.now).functions }
    ensures { spec.Puts result sched.formula_of
        (spec.pure_put (algorithm_of algo.now) stored.now (names_of function.now.variables.items) (term_of function.now.value)) }
{
    let value = filled(alloc, algo, stored, &function.value)?;
    let at = no_indices(alloc, &function.variables)?;
    Ok(Formula { at, value })
}

fn update_formula(
    alloc: Global,
    algo: &Algo,
    stored: &[bool],
    variables: &[String],
    update: &Update,
) -> Result<Formula, SubstError>
    requires { length stored.now ≡ length (algorithm_of algo.now).functions }
    ensures { spec.Puts result sched.formula_of (spec.change_put (algorithm_of algo.now) stored.now (names_of variables.now) (change_of update.now)) }
{
    let at = left_indices(alloc, algo, stored, variables, &update.at)?;
    let value = filled(alloc, algo, stored, &update.value)?;
    Ok(Formula { at, value })
}

fn update_formulas(
    alloc: Global,
    algo: &Algo,
    stored: &[bool],
    variables: &[String],
    updates: &[Update],
) -> Result<Vec<Formula>, SubstError>
    requires { length stored.now ≡ length (algorithm_of algo.now).functions }
    ensures { spec.Puts result (λ v. map sched.formula_of v.items)
        (spec.changes_put (algorithm_of algo.now) stored.now (names_of variables.now) (map change_of updates.now)) }
{
    match updates {
        [] => Ok(Vec::new(alloc)),
        [update, rest @ ..] => {
            let first = update_formula(alloc, algo, stored, variables, update)?;
            let mut all = update_formulas(alloc, algo, stored, variables, rest)?;
            all.insert(0, first)?;
            Ok(all)
        }
    }
}

// All definitions of the function, the pure one first.
fn formulas_of(
    alloc: Global,
    algo: &Algo,
    stored: &[bool],
    function: &Function,
) -> Result<Vec<Formula>, SubstError>
    requires { length stored.now ≡ length (algorithm_of algo.now).functions }
    ensures { spec.Puts result (λ v. map sched.formula_of v.items)
        (spec.formulas_put (algorithm_of algo.now) stored.now (names_of function.now.variables.items)
        (term_of function.now.value) (map change_of function.now.updates.items)) }
{
    let pure = pure_formula(alloc, algo, stored, function)?;
    let mut all = update_formulas(alloc, algo, stored, &function.variables, &function.updates)?;
    all.insert(0, pure)?;
    Ok(all)
}

/// The definitions of a function with the calls of functions that are not stored put in, the pure one first; none where one of them
/// then passes the limits of an expression.
pub fn small_formulas(
    alloc: Global,
    algo: &Algo,
    stored: &[bool],
    function: &Function,
) -> Result<Option<Vec<Formula>>, AllocError>
    requires { length stored.now ≡ length (algorithm_of algo.now).functions }
    ensures { IfOk result (λ o. option_map (λ v. map sched.formula_of v.items) o ≡ spec.formulas_put (algorithm_of algo.now) stored.now
        (names_of function.now.variables.items) (term_of function.now.value) (map change_of function.now.updates.items)) }
{
    match formulas_of(alloc, algo, stored, function) {
        Ok(formulas) => Ok(Some(formulas)),
        Err(SubstError::Memory) => Err(AllocError),
        Err(SubstError::Updates | SubstError::TooLarge) => Ok(None),
    }
}

fn stored_of<'a>(
    alloc: Global,
    algo: &'a Algo,
    stored: &[bool],
    function: &'a Function,
    subject: &'a Subject,
    placed: &'a Placed,
) -> Result<Stored<'a>, AllocError>
    requires { length stored.now ≡ length (algorithm_of algo.now).functions }
    ensures { IfOk result (λ one. sched.stored_of one ≡ spec.stored_by (algorithm_of algo.now) stored.now
        (names_of function.now.variables.items) (term_of function.now.value) (map change_of function.now.updates.items)
        (subject_of subject.now) (placed_of placed.now)) }
{
    let formulas = small_formulas(alloc, algo, stored, function)?;
    Ok(Stored {
        subject,
        function,
        placed,
        formulas,
    })
}

// A function before others, where it is stored.
fn with_stored<'a>(
    alloc: Global,
    algo: &'a Algo,
    stored: &[bool],
    function: &'a Function,
    subject: &'a Subject,
    placed: &'a Placed,
    found: Vec<Stored<'a>>,
) -> Result<Vec<Stored<'a>>, AllocError>
    requires { length stored.now ≡ length (algorithm_of algo.now).functions }
    ensures { IfOk result (λ v. map sched.stored_of v.items ≡ spec.before_stored (algorithm_of algo.now) stored.now
        (names_of function.now.variables.items) (term_of function.now.value) (map change_of function.now.updates.items)
        (subject_of subject.now) (placed_of placed.now) (map sched.stored_of found.entry.items)) }
{
    let mut found = found;
    if subject.is_stored {
        let one = stored_of(alloc, algo, stored, function, subject, placed)?;
        found.insert(0, one)?;
    }
    Ok(found)
}

// The stored ones of the functions from this number on.
#[tactic(auto, using(sched::proofs::Entries::function_here, crate::proofs::Entries::function_nowhere))]
fn stored_from<'a>(
    alloc: Global,
    algo: &'a Algo,
    stored: &[bool],
    number: usize,
    subjects: &'a [Subject],
    placed: &'a [Placed],
) -> Result<Vec<Stored<'a>>, AllocError>
    requires { length stored.now ≡ length (algorithm_of algo.now).functions }
    ensures { IfOk result (λ v. map sched.stored_of v.items ≡ spec.stored_among (algorithm_of algo.now) stored.now
        (drop number (algorithm_of algo.now).functions) (map subject_of subjects.now) (map placed_of placed.now)) }
{
    let Some((_, function)) = algo.funcs().get_index(number) else {
        return Ok(Vec::new(alloc));
    };
    match subjects {
        [] => Ok(Vec::new(alloc)),
        [subject, subjects @ ..] => match placed {
            [] => Ok(Vec::new(alloc)),
            [first, placed @ ..] => {
                let Some(next) = number.checked_add(1) else {
                    return Err(AllocError);
                };
                let found = stored_from(alloc, algo, stored, next, subjects, placed)?;
                with_stored(alloc, algo, stored, function, subject, first, found)
            }
        },
    }
}

/// The stored functions, in the order of declaration.
pub fn stored_functions<'a>(
    alloc: Global,
    algo: &'a Algo,
    placement: &'a Placement,
) -> Result<Vec<Stored<'a>>, AllocError>
    requires { length placement.now.subjects.items ≡ length (algorithm_of algo.now).functions }
    ensures { IfOk result (λ v. map sched.stored_of v.items ≡ spec.stored_of_all (algorithm_of algo.now)
        (map subject_of placement.now.subjects.items) (map placed_of placement.now.functions.items)) }
{
    let stored = stored_flags(alloc, &placement.subjects)?;
    stored_from(
        alloc,
        algo,
        &stored,
        0,
        &placement.subjects,
        &placement.functions,
    )
}
