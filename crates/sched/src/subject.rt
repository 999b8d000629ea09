//! What an algorithm says of its functions, and what a schedule makes of them.

ghost use Rattle.std.specs.Prelude.{◌≡◌, ◌++◌, ◌&&◌, IfOk, IfErr, map, string_bytes, true};
ghost use Rattle.std.specs.List.{list_any, list_all};
ghost use Rattle.meaning.specs.Names.{same_name};
ghost use Rattle.algo.specs.Parts.{change_of, function_of, range_of};
ghost use Rattle.algo.specs.View.{algorithm_of};
ghost use Rattle.sched.specs.View.{directive_of, schedule_of};
ghost use Rattle.sched.specs.Placing.{subject_of, placed_of};
ghost use Rattle.sched.specs.Legal.{IsFault, IsLegal, IsRefused, IsUnfollowed, loops_of};
ghost use Rattle.sched.specs.Subjects as spec;

use crate::error::{Rule, SchedError};
use crate::placing::{Placed, Subject, first_fault, follow, has_root};
use crate::schedule::{Directive, Sched, Scheduled};
use algo::scoping::is_variable;
use algo::{Algo, Function, Range, Update};
use std::alloc::{AllocError, Global};
use tree::token::{MAX_NAME, Name};

/// What a schedule makes of an algorithm: one entry a function, in the order of declaration.
#[derive(Drop)]
pub struct Placement {
    /// What the schedule has to know of each function.
    pub subjects: Vec<Subject>,
    pub functions: Vec<Placed>,
    /// The first function, in the order of declaration, of which the whole breaks a rule that asks for no region, and the
    /// lowest such rule.
    pub fault: Option<(Rule, Name)>,
}

// At most 16 bytes of ASCII.
fn is_name(text: &str) -> bool
    ensures { result ≡ spec.is_name text.now }
{
    text.len() <= MAX_NAME && text.as_bytes().iter().all(|byte| *byte < 128)
}

fn are_names(texts: &[String]) -> bool
    ensures { result ≡ list_all spec.is_name (map string_bytes texts.now) }
{
    texts.iter().all(|text| is_name(text.as_str()))
}

fn has_range_names(update: &Update) -> bool
    ensures { result ≡ spec.has_range_names (change_of update.now) }
{
    update
        .ranges
        .iter()
        .all(|range| is_name(range.variable.as_str()))
}

fn have_range_names(updates: &[Update]) -> bool
    ensures { result ≡ list_all spec.has_range_names (map change_of updates.now) }
{
    updates.iter().all(|update| has_range_names(update))
}

fn has_own_names(name: &String, function: &Function) -> bool
    ensures { result ≡ spec.has_own_names (function_of (name.now, function.now)) }
{
    is_name(name.as_str()) && are_names(&function.variables) && have_range_names(&function.updates)
}

/// Whether the functions, their variables and their reduction variables have names that a schedule's text could give. Those of
/// an algorithm that was read from a text do.
pub fn has_names(algo: &Algo) -> bool
    ensures { result ≡ spec.has_names (algorithm_of algo.now) }
{
    let functions = algo.funcs();
    for k in 0..functions.len() {
        match functions.get_index(k) {
            Some((name, function)) => {
                if !has_own_names(name, function) {
                    return false;
                }
            }
            None => unreachable!(),
        }
    }
    true
}

#[tactic(auto, using(crate::proofs::Functions::name_is_ascii, crate::proofs::Functions::name_is_short))]
pub(crate) fn name_of(text: &str) -> Name
    requires { spec.is_name text.now ≡ true }
    ensures { result ≡ text.now }
{
    match Name::new(text.as_bytes()) {
        Some(name) => name,
        None => unreachable!(),
    }
}

#[tactic(auto, using(crate::proofs::Functions::named_here, crate::proofs::Functions::named_later))]
fn names_of(alloc: Global, texts: &[String]) -> Result<Vec<Name>, AllocError>
    requires { list_all spec.is_name (map string_bytes texts.now) ≡ true }
    ensures { IfOk result (λ v. v.items ≡ map string_bytes texts.now) }
{
    let mut names = Vec::new(alloc);
    for text in texts {
        names.push(name_of(text.as_str()))?;
    }
    Ok(names)
}

fn function_names(alloc: Global, algo: &Algo) -> Result<Vec<Name>, AllocError>
    requires { spec.has_names (algorithm_of algo.now) ≡ true }
    ensures { IfOk result (λ v. v.items ≡ map (λ f. f.name) (algorithm_of algo.now).functions) }
{
    let functions = algo.funcs();
    let mut names = Vec::new(alloc);
    for k in 0..functions.len() {
        match functions.get_index(k) {
            Some((name, _)) => {
                let own = name_of(name.as_str());
                names.push(own)?;
            }
            None => unreachable!(),
        }
    }
    Ok(names)
}

// Adds the reduction variables of an update.
#[tactic(auto, using(crate::proofs::Functions::range_here, crate::proofs::Functions::range_later))]
fn add_ranges(ranges: &[Range], names: &mut Vec<Name>) -> Result<(), AllocError>
    requires { list_all spec.is_name (spec.range_names (map range_of ranges.now)) ≡ true }
    ensures { IfOk result (λ _. names.new.items ≡ names.old.items ++ spec.range_names (map range_of ranges.now)) }
{
    for range in ranges {
        names.push(name_of(range.variable.as_str()))?;
    }
    Ok(())
}

#[tactic(auto, using(crate::proofs::Functions::update_here, crate::proofs::Functions::update_later))]
fn reductions(alloc: Global, updates: &[Update]) -> Result<Vec<Name>, AllocError>
    requires { list_all spec.has_range_names (map change_of updates.now) ≡ true }
    ensures { IfOk result (λ v. v.items ≡ spec.reductions_of (map change_of updates.now)) }
{
    let mut names = Vec::new(alloc);
    for update in updates {
        add_ranges(&update.ranges, &mut names)?;
    }
    Ok(names)
}

// Whether the update's left index for this dimension is not the variable alone.
#[tactic(auto, using(crate::proofs::Functions::index_found, crate::proofs::Functions::index_missing))]
pub(crate) fn lacks(update: &Update, dimension: usize, variable: &str) -> bool
    ensures { result ≡ spec.lacks variable.now dimension (change_of update.now) }
{
    match update.at.get(dimension) {
        Some(index) => !is_variable(variable, index),
        None => true,
    }
}

fn some_lacks(updates: &[Update], dimension: usize, variable: &str) -> bool
    ensures { result ≡ list_any (spec.lacks variable.now dimension) (map change_of updates.now) }
{
    updates
        .iter()
        .any(|update| lacks(update, dimension, variable))
}

// The dimensions for which some update has no pure variable.
#[tactic(auto, using(crate::proofs::Functions::scattered_next, crate::proofs::Functions::scattered_not))]
fn scattered(
    alloc: Global,
    updates: &[Update],
    variables: &[String],
) -> Result<Vec<usize>, AllocError>
    ensures { IfOk result (λ v. v.items ≡ spec.scattered_from (map change_of updates.now) 0 (map string_bytes variables.now)) }
{
    let mut found = Vec::new(alloc);
    for (dimension, variable) in variables.iter().enumerate() {
        if some_lacks(updates, dimension, variable.as_str()) {
            found.push(dimension)?;
        }
    }
    Ok(found)
}

/// Whether the text has a `compute_at` of the function of this name.
pub fn has_home(sched: &Sched, name: &str) -> bool
    ensures { result ≡ spec.has_home (schedule_of sched.now) name.now }
{
    any_home(&sched.functions, name)
}

fn any_home(functions: &[Scheduled], name: &str) -> bool
    ensures { result ≡ list_any (λ s. same_name s.function name.now && list_any (λ d. spec.is_home_directive (directive_of d)) s.directives.items) functions.now }
{
    functions.iter().any(|scheduled| scheduled.function.as_str() == name
        && has_home_directive(&scheduled.directives))
}

fn has_home_directive(directives: &[Directive]) -> bool
    ensures { result ≡ list_any (λ d. spec.is_home_directive (directive_of d)) directives.now }
{
    directives
        .iter()
        .any(|directive| is_home_directive(directive))
}

// Whether it says that each turn of a loop computes what it needs of the function.
fn is_home_directive(directive: &Directive) -> bool
    ensures { result ≡ spec.is_home_directive (directive_of directive.now) }
{
    matches!(directive, Directive::ComputeAt(_))
}

fn is_output(algo: &Algo, name: &str) -> bool
    ensures { result ≡ spec.is_output (algorithm_of algo.now) name.now }
{
    algo.output().name.as_str() == name
}

// What a schedule has to know of the function of this name.
#[tactic(auto, using(crate::proofs::Functions::own_name, crate::proofs::Functions::own_variables, crate::proofs::Functions::own_ranges))]
fn subject(
    alloc: Global,
    algo: &Algo,
    sched: &Sched,
    name: &String,
    function: &Function,
) -> Result<Subject, AllocError>
    requires all { spec.has_names (algorithm_of algo.now) ≡ true }
    requires own { spec.has_own_names (function_of (name.now, function.now)) ≡ true }
    ensures { IfOk result (λ s. subject_of s ≡ spec.subject_said (algorithm_of algo.now) (schedule_of sched.now) (function_of (name.now, function.now))) }
{
    let own = name_of(name.as_str());
    let is_output = is_output(algo, name.as_str());
    let is_root = is_output || has_root(sched, &own);
    let is_stored = is_root || has_home(sched, name.as_str());
    let functions = function_names(alloc, algo)?;
    let variables = names_of(alloc, &function.variables)?;
    let reductions = reductions(alloc, &function.updates)?;
    let scattered = scattered(alloc, &function.updates, &function.variables)?;
    Ok(Subject {
        functions,
        name: own,
        variables,
        reductions,
        scattered,
        updates: function.updates.len(),
        is_output,
        is_root,
        is_stored,
    })
}

// What a schedule has to know of each function of an algorithm, in the order of declaration.
fn subjects(alloc: Global, algo: &Algo, sched: &Sched) -> Result<Vec<Subject>, AllocError>
    requires { spec.has_names (algorithm_of algo.now) ≡ true }
    ensures { IfOk result (λ v. map subject_of v.items ≡ map (spec.subject_said (algorithm_of algo.now) (schedule_of sched.now)) (algorithm_of algo.now).functions) }
{
    let functions = algo.funcs();
    let mut found = Vec::new(alloc);
    for k in 0..functions.len() {
        match functions.get_index(k) {
            Some((name, function)) => {
                let one = subject(alloc, algo, sched, name, function)?;
                found.push(one)?;
            }
            None => unreachable!(),
        }
    }
    Ok(found)
}

// What a schedule makes of an algorithm's functions, whose names could stand in its text.
fn arranged(alloc: Global, algo: &Algo, sched: &Sched) -> Result<Placement, SchedError>
    requires { spec.has_names (algorithm_of algo.now) ≡ true }
    ensures { spec.Follows (algorithm_of algo.now) (schedule_of sched.now) result }
{
    let subjects = subjects(alloc, algo, sched)?;
    let functions = follow(alloc, &subjects, sched)?;
    let fault = first_fault(&subjects, &functions);
    Ok(Placement {
        subjects,
        functions,
        fault,
    })
}

/// What a schedule's directives make of an algorithm's functions, where none of them breaks one of L1 to L5; and the first
/// function that breaks a rule behind the last directive: L4 (innermost), L5 (outermost), L8 (`shift` in spite of updates)
/// and L10, which ask for no region.
///
/// # Errors
/// `Broken` with the function's name: the first directive of the text that breaks one of L1 to L5 (of several the lowest; a
/// name of no function is L1 with that name). `UnfitNames` and `Memory`.
pub fn followed(alloc: Global, algo: &Algo, sched: &Sched) -> Result<Placement, SchedError>
    ensures fault { IfOk result (λ p. IsFault (algorithm_of algo.now) (schedule_of sched.now) p.fault) }
    ensures subjects { IfOk result (λ p. map subject_of p.subjects.items ≡ map (spec.subject_said (algorithm_of algo.now) (schedule_of sched.now)) (algorithm_of algo.now).functions) }
    ensures loops { IfOk result (λ p. map placed_of p.functions.items ≡ loops_of (algorithm_of algo.now) (schedule_of sched.now)) }
    ensures unfollowed { IfErr result (IsUnfollowed (algorithm_of algo.now) (schedule_of sched.now)) }
    ensures refused { IfErr result (IsRefused (algorithm_of algo.now) (schedule_of sched.now)) }
{
    if !has_names(algo) {
        return Err(SchedError::UnfitNames);
    }
    algo.is_well_formed();
    arranged(alloc, algo, sched)
}

/// The same where no function breaks such a rule.
///
/// # Errors
/// `Broken` with the function's name: first as `followed` answers, and then, function by function in the order of
/// declaration, the rule of the lowest number that the whole breaks. `UnfitNames` and `Memory`.
pub fn placed(alloc: Global, algo: &Algo, sched: &Sched) -> Result<Placement, SchedError>
    ensures legal { IfOk result (λ p. IsLegal (algorithm_of algo.now) (schedule_of sched.now)) }
    ensures loops { IfOk result (λ p. map placed_of p.functions.items ≡ loops_of (algorithm_of algo.now) (schedule_of sched.now)) }
    ensures refused { IfErr result (IsRefused (algorithm_of algo.now) (schedule_of sched.now)) }
{
    let placement = followed(alloc, algo, sched)?;
    match placement.fault {
        Some((rule, function)) => Err(SchedError::Broken(rule, function)),
        None => Ok(placement),
    }
}
