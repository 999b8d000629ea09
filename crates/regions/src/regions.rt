//! The region that is needed of each stored function, from the output backwards.

ghost use Rattle.std.specs.Prelude.{◌≡◌, ◌-◌, IfOk, OnOk, map};
ghost use Rattle.std.specs.Option.{option_map};
ghost use Rattle.tree.specs.Term.{term_of, list_terms, indices};
ghost use Rattle.algo.specs.View.{algorithm_of};
ghost use Rattle.sched.specs.Skeleton.{nest_seen};
ghost use Rattle.sched.specs.Limited.{Tells, Gives};
ghost use Rattle.sched.specs.Stored.{formula_of, stored_of, are_calls_of};
ghost use Rattle.regions.specs.Stored.{some_calls};
ghost use Rattle.sched.specs.Calls.{call_of};
ghost use Rattle.sched.specs.Around.{around_of};
ghost use Rattle.sched.specs.Bounded as limits;
ghost use Rattle.regions.specs.Regions as spec;
ghost use Rattle.sched.specs.Regions as sched;

use crate::nests::skeleton_of;
use algo::Algo;
use algo::scoping::same_name;
use lin::{Lin, Region, Scope, Span1};
use sched::calls::{Call, calls_of};
use sched::definitions::{Formula, Stored, are_calls_of, counts};
use sched::forms::whole;
use sched::roots::Laid;
use sched::scopes::{Around, around_in, head_scope, interval};
use sched::stop::Stop;
use sched::windows::{projected, symbols_from};
use sched::{Extent, Nest};
use std::alloc::{AllocError, Global};
use tree::Expr;

/// The greatest distance between the ends of what all turns together need of a function.
const MOST_DISTANCE: i64 = 2147483647;

/// The most numbers that a stored function has in a dimension: all of a root function, one turn of another.
pub(crate) const MOST_NUMBERS: u32 = 8192;

/// How often the region of a function with updates is asked again for what its own calls need.
const MOST_ROUNDS: usize = 4;

/// The lowest and the highest number of a coordinate.
#[derive(Clone, Copy, Drop)]
pub struct Ends {
    pub low: i64,
    pub high: i64,
}

// ---- the ends of a span

// The number that a form is.
fn number_of(form: &Lin) -> Option<i64>
    ensures { result ≡ spec.number_of form.now }
{
    match form.terms() {
        [] => Some(form.constant()),
        [_, ..] => None,
    }
}

fn greater(one: Option<i64>, other: Option<i64>) -> Option<i64>
    ensures { result ≡ spec.greater one other }
{
    match (one, other) {
        (Some(first), Some(second)) => {
            if second <= first {
                Some(first)
            } else {
                Some(second)
            }
        }
        (Some(first), None) => Some(first),
        (None, second) => second,
    }
}

fn less(one: Option<i64>, other: Option<i64>) -> Option<i64>
    ensures { result ≡ spec.less one other }
{
    match (one, other) {
        (Some(first), Some(second)) => {
            if first <= second {
                Some(first)
            } else {
                Some(second)
            }
        }
        (Some(first), None) => Some(first),
        (None, second) => second,
    }
}

fn greatest_number(forms: &[Lin]) -> Option<i64>
    ensures { result ≡ spec.greatest_number forms.now }
{
    match forms {
        [] => None,
        [form, rest @ ..] => greater(number_of(form), greatest_number(rest)),
    }
}

fn least_number(forms: &[Lin]) -> Option<i64>
    ensures { result ≡ spec.least_number forms.now }
{
    match forms {
        [] => None,
        [form, rest @ ..] => less(number_of(form), least_number(rest)),
    }
}

fn ends_between(low: Option<i64>, high: Option<i64>) -> Result<Ends, Stop>
    ensures { Gives result (λ ends. ends) (spec.ends_between low high) }
{
    match (low, high) {
        (Some(low), Some(high)) => Ok(Ends { low, high }),
        _ => Err(Stop::Limit),
    }
}

/// The ends of a span over all values of the symbols.
pub fn ends_of(alloc: Global, scope: &Scope, span: &Span1) -> Result<Ends, Stop>
    ensures { Gives result (λ ends. ends) (spec.ends_of scope.now span.now) }
{
    let symbols = symbols_from(alloc, 0, scope.len())?;
    let found = projected(alloc, scope, &symbols, span)?;
    ends_between(
        greatest_number(found.lower.as_slice()),
        least_number(found.upper.as_slice()),
    )
}

// ---- the hull

fn lower_end(one: i64, other: i64) -> i64
    ensures { result ≡ spec.lower_end one other }
{
    if one <= other { one } else { other }
}

fn upper_end(one: i64, other: i64) -> i64
    ensures { result ≡ spec.upper_end one other }
{
    if other <= one { one } else { other }
}

fn hull(known: Option<Ends>, next: Ends) -> Ends
    ensures { result ≡ spec.hull known next }
{
    match known {
        Some(known) => Ends {
            low: lower_end(known.low, next.low),
            high: upper_end(known.high, next.high),
        },
        None => next,
    }
}

/// Widens the ends of a place.
pub fn widen(reach: &mut Vec<Option<Ends>>, place: usize, next: Ends)
    ensures { reach.new.items ≡ spec.widen reach.old.items place next }
{
    if place < reach.len() {
        reach[place] = Some(hull(reach[place], next));
    }
}

// ---- what definitions call

fn add_index(
    alloc: Global,
    algo: &Algo,
    around: &Around<'_>,
    place: usize,
    index: &Expr,
    reach: &mut Vec<Option<Ends>>,
) -> Result<(), Stop>
    ensures { Tells result reach.new.items (spec.add_index (algorithm_of algo.now) (around_of around.now) place (term_of index.now) reach.old.items) }
{
    let span = interval(alloc, algo, around, index)?;
    let ends = ends_of(alloc, &around.scope, &span)?;
    widen(reach, place, ends);
    Ok(())
}

fn add_counted(
    alloc: Global,
    algo: &Algo,
    around: &Around<'_>,
    own: Option<&Formula>,
    place: usize,
    index: &Expr,
    reach: &mut Vec<Option<Ends>>,
) -> Result<(), Stop>
    ensures { Tells result reach.new.items (spec.add_counted (algorithm_of algo.now) (around_of around.now)
        (option_map (λ f. formula_of f.now) own.entry) place (term_of index.now) reach.old.items) }
{
    if counts(own, place) {
        add_index(alloc, algo, around, place, index, reach)
    } else {
        Ok(())
    }
}

// The indices of a call, from a place on.
fn add_call(
    alloc: Global,
    algo: &Algo,
    around: &Around<'_>,
    own: Option<&Formula>,
    place: usize,
    at: &[Expr],
    reach: &mut Vec<Option<Ends>>,
) -> Result<(), Stop>
    ensures { Tells result reach.new.items (spec.add_call (algorithm_of algo.now) (around_of around.now) (option_map (λ f. formula_of f.now) own.entry) place
        (indices (list_terms at.now)) reach.old.items) }
{
    match at {
        [] => Ok(()),
        [index, rest @ ..] => {
            let Some(next) = place.checked_add(1) else {
                return Err(Stop::Memory);
            };
            add_counted(alloc, algo, around, own, place, index, reach)?;
            add_call(alloc, algo, around, own, next, rest, reach)
        }
    }
}

// Those of the calls that are of one function.
fn add_calls(
    alloc: Global,
    algo: &Algo,
    around: &Around<'_>,
    own: Option<&Formula>,
    callee: &str,
    calls: &[Call<'_>],
    reach: &mut Vec<Option<Ends>>,
) -> Result<(), Stop>
    ensures { Tells result reach.new.items (spec.add_calls (algorithm_of algo.now) (around_of around.now)
        (option_map (λ f. formula_of f.now) own.entry) callee.now (map call_of calls.now) reach.old.items) }
{
    match calls {
        [] => Ok(()),
        [call, rest @ ..] => {
            if same_name(call.name, callee) {
                add_call(alloc, algo, around, own, 0, call.at, reach)?;
            }
            add_calls(alloc, algo, around, own, callee, rest, reach)
        }
    }
}

/// Whether one of the definitions calls the function of this name.
pub fn formulas_call(alloc: Global, formulas: &[Formula], callee: &str) -> Result<bool, AllocError>
    ensures { IfOk result (λ yes. yes ≡ some_calls callee.now (map formula_of formulas.now)) }
{
    match formulas {
        [] => Ok(false),
        [formula, rest @ ..] => {
            let calls = calls_of(alloc, formula)?;
            if are_calls_of(callee, &calls) {
                return Ok(true);
            }
            formulas_call(alloc, rest, callee)
        }
    }
}

// What the definition of this number calls of a function.
fn add_definition(
    alloc: Global,
    algo: &Algo,
    user: &Stored<'_>,
    outer: &Scope,
    callee: &str,
    definition: usize,
    formula: &Formula,
    nest: &Nest,
    reach: &mut Vec<Option<Ends>>,
) -> Result<(), Stop>
    ensures { Tells result reach.new.items (spec.add_definition (algorithm_of algo.now) (stored_of user.now) outer.now callee.now definition
        (formula_of formula.now) (nest_seen nest.now) reach.old.items) }
{
    let calls = calls_of(alloc, formula)?;
    if !are_calls_of(callee, &calls) {
        return Ok(());
    }
    let around = around_in(alloc, algo, user, outer, nest, formula, definition)?;
    add_calls(alloc, algo, &around, None, callee, &calls, reach)
}

// Those from this number on.
fn add_definitions(
    alloc: Global,
    algo: &Algo,
    user: &Stored<'_>,
    outer: &Scope,
    callee: &str,
    definition: usize,
    formulas: &[Formula],
    nests: &[Nest],
    reach: &mut Vec<Option<Ends>>,
) -> Result<(), Stop>
    ensures { Tells result reach.new.items (spec.add_definitions (algorithm_of algo.now) (stored_of user.now) outer.now callee.now definition
        (map formula_of formulas.now) (map nest_seen nests.now) reach.old.items) }
{
    match formulas {
        [] => Ok(()),
        [formula, others @ ..] => match nests {
            [] => Err(Stop::Limit),
            [nest, rest @ ..] => {
                let Some(next) = definition.checked_add(1) else {
                    return Err(Stop::Memory);
                };
                add_definition(
                    alloc, algo, user, outer, callee, definition, formula, nest, reach,
                )?;
                add_definitions(alloc, algo, user, outer, callee, next, others, rest, reach)
            }
        },
    }
}

// The left indices of an update, from a place on.
fn add_left(
    alloc: Global,
    algo: &Algo,
    around: &Around<'_>,
    place: usize,
    at: &[Option<Expr>],
    reach: &mut Vec<Option<Ends>>,
) -> Result<(), Stop>
    ensures { Tells result reach.new.items (spec.add_left (algorithm_of algo.now) (around_of around.now) place
        (map (option_map term_of) at.now) reach.old.items) }
{
    match at {
        [] => Ok(()),
        [index, rest @ ..] => {
            let Some(next) = place.checked_add(1) else {
                return Err(Stop::Memory);
            };
            if let Some(index) = index {
                add_index(alloc, algo, around, place, index, reach)?;
            }
            add_left(alloc, algo, around, next, rest, reach)
        }
    }
}

// What a definition sets by left indices, and calls of its own function.
fn add_own(
    alloc: Global,
    algo: &Algo,
    stored: &Stored<'_>,
    outer: &Scope,
    definition: usize,
    formula: &Formula,
    nest: &Nest,
    reach: &mut Vec<Option<Ends>>,
) -> Result<(), Stop>
    ensures { Tells result reach.new.items (spec.add_own (algorithm_of algo.now) (stored_of stored.now) outer.now definition (formula_of formula.now)
        (nest_seen nest.now) reach.old.items) }
{
    let around = around_in(alloc, algo, stored, outer, nest, formula, definition)?;
    let calls = calls_of(alloc, formula)?;
    add_left(alloc, algo, &around, 0, &formula.at, reach)?;
    let name = stored.subject.name.as_str();
    add_calls(alloc, algo, &around, Some(formula), name, &calls, reach)
}

// Those from this number on.
fn add_all_own(
    alloc: Global,
    algo: &Algo,
    stored: &Stored<'_>,
    outer: &Scope,
    definition: usize,
    formulas: &[Formula],
    nests: &[Nest],
    reach: &mut Vec<Option<Ends>>,
) -> Result<(), Stop>
    ensures { Tells result reach.new.items (spec.add_all_own (algorithm_of algo.now) (stored_of stored.now) outer.now definition
        (map formula_of formulas.now) (map nest_seen nests.now) reach.old.items) }
{
    match formulas {
        [] => Ok(()),
        [formula, others @ ..] => match nests {
            [] => Err(Stop::Limit),
            [nest, rest @ ..] => {
                let Some(next) = definition.checked_add(1) else {
                    return Err(Stop::Memory);
                };
                add_own(alloc, algo, stored, outer, definition, formula, nest, reach)?;
                add_all_own(alloc, algo, stored, outer, next, others, rest, reach)
            }
        },
    }
}

// ---- regions

fn is_i32(number: i64) -> bool
    ensures { result ≡ spec.is_i32 number }
{
    i64::from(i32::MIN) <= number && number <= i64::from(i32::MAX)
}

// Whether the ends are i32, in their order and no farther apart than any may be.
#[tactic(auto, using(crate::proofs::Within::i32_bounds))]
fn are_within(ends: Ends) -> bool
    ensures { result ≡ spec.are_within ends }
{
    is_i32(ends.low)
        && is_i32(ends.high)
        && ends.low <= ends.high
        && ends.high - ends.low <= MOST_DISTANCE
}

// The extent between these ends, where it is within the limits of all.
#[tactic(auto, using(crate::proofs::Within::low_fits, crate::proofs::Within::high_fits, crate::proofs::Within::distance_fits, crate::proofs::Within::counted))]
fn extent_between(ends: Ends) -> Option<Extent>
    ensures { result ≡ spec.extent_between ends }
{
    if !are_within(ends) {
        return None;
    }
    Some(Extent {
        low: ends.low as i32,
        count: (ends.high - ends.low) as u32 + 1,
    })
}

// Whether so many numbers may be needed of a root function, or of one that is computed inside a loop.
fn may_have(is_root: bool, count: u32) -> bool
    ensures { result ≡ spec.may_have is_root count }
{
    if is_root { count <= MOST_NUMBERS } else { true }
}

/// The extent between these ends, where it is within the limits of a root function, or of one that is computed inside a loop.
pub fn extent_of(is_root: bool, ends: Option<Ends>) -> Option<Extent>
    ensures { result ≡ spec.extent_of is_root ends }
{
    let extent = extent_between(ends?)?;
    if may_have(is_root, extent.count) {
        Some(extent)
    } else {
        None
    }
}

// The region of these ends.
fn region_of(alloc: Global, is_root: bool, reach: &[Option<Ends>]) -> Result<Vec<Extent>, Stop>
    ensures { Gives result (λ v. v.items) (spec.region_of is_root reach.now) }
{
    match reach {
        [] => Ok(Vec::new(alloc)),
        [ends, rest @ ..] => match extent_of(is_root, *ends) {
            Some(extent) => {
                let mut region = region_of(alloc, is_root, rest)?;
                region.insert(0, extent)?;
                Ok(region)
            }
            None => Err(Stop::Limit),
        },
    }
}

fn same_extent(one: &Extent, other: &Extent) -> bool
    ensures { result ≡ spec.same_extent one.now other.now }
{
    one.low == other.low && one.count == other.count
}

/// Whether two regions are the same.
pub fn is_same(first: &[Extent], second: &[Extent]) -> bool
    ensures { result ≡ spec.same_region first.now second.now }
{
    match first {
        [] => true,
        [one, ones @ ..] => match second {
            [] => true,
            [other, others @ ..] => same_extent(one, other) && is_same(ones, others),
        },
    }
}

// The loops over a region.
fn over(
    alloc: Global,
    stored: &Stored<'_>,
    formulas: &[Formula],
    region: Vec<Extent>,
) -> Result<Laid, Stop>
    ensures { Gives result sched.laid_of (spec.over (stored_of stored.now) (map formula_of formulas.now) region.items) }
{
    let skeleton = skeleton_of(alloc, stored, formulas, &region)?;
    Ok(Laid { region, skeleton })
}

// With what the function's own updates need, asked again for so many rounds while it grows.
#[tactic(auto, using(crate::proofs::Rounds::no_round, crate::proofs::Rounds::not_called, crate::proofs::Rounds::not_bounded, crate::proofs::Rounds::same, crate::proofs::Rounds::not_laid, crate::proofs::Rounds::wider))]
fn closed_within(
    alloc: Global,
    algo: &Algo,
    stored: &Stored<'_>,
    formulas: &[Formula],
    rounds: usize,
    reach: Vec<Option<Ends>>,
    laid: Laid,
) -> Result<Laid, Stop>
    ensures { Gives result sched.laid_of (spec.closed (algorithm_of algo.now) (stored_of stored.now) (map formula_of formulas.now) rounds reach.items
        (sched.laid_of laid)) }
{
    let Some(left) = rounds.checked_sub(1) else {
        return Ok(laid);
    };
    let mut reach = reach;
    let outer = head_scope(alloc, &laid.skeleton)?;
    let nests = &laid.skeleton.nests;
    add_all_own(alloc, algo, stored, &outer, 0, formulas, nests, &mut reach)?;
    let region = region_of(alloc, stored.subject.is_root, &reach)?;
    if is_same(&laid.region, &region) {
        return Ok(laid);
    }
    let wider = over(alloc, stored, formulas, region)?;
    closed_within(alloc, algo, stored, formulas, left, reach, wider)
}

/// The region with what the function's own updates need, and the loops over it.
pub fn closed(
    alloc: Global,
    algo: &Algo,
    stored: &Stored<'_>,
    formulas: &[Formula],
    reach: Vec<Option<Ends>>,
) -> Result<Laid, Stop>
    ensures { Gives result sched.laid_of (spec.laid_over (algorithm_of algo.now) (stored_of stored.now) (map formula_of formulas.now) reach.items) }
{
    let region = region_of(alloc, stored.subject.is_root, &reach)?;
    let laid = over(alloc, stored, formulas, region)?;
    closed_within(alloc, algo, stored, formulas, MOST_ROUNDS, reach, laid)
}

// ---- what the others need

// From 0 to each extent less 1, from a place on.
fn add_all_extents(
    place: usize,
    extents: &[u32],
    reach: &mut Vec<Option<Ends>>,
) -> Result<(), AllocError>
    ensures { OnOk result (reach.new.items ≡ spec.add_extents place extents.now reach.old.items) }
{
    match extents {
        [] => Ok(()),
        [extent, rest @ ..] => {
            let Some(next) = place.checked_add(1) else {
                return Err(AllocError);
            };
            let ends = Ends {
                low: 0,
                high: i64::from(*extent) - 1,
            };
            widen(reach, place, ends);
            add_all_extents(next, rest, reach)
        }
    }
}

/// Adds the extents of the output.
pub fn add_extents(algo: &Algo, reach: &mut Vec<Option<Ends>>) -> Result<(), AllocError>
    ensures { OnOk result (reach.new.items ≡ spec.add_extents 0 (algorithm_of algo.now).output_extents reach.old.items) }
{
    add_all_extents(0, &algo.output().shape.extents, reach)
}

/// No ends of so many places.
pub fn unreached(alloc: Global, count: usize) -> Result<Vec<Option<Ends>>, AllocError>
    ensures { IfOk result (λ v. v.items ≡ spec.unreached count) }
{
    let mut reach = Vec::new(alloc);
    for place in 0..count {
        reach.push(None)?;
    }
    Ok(reach)
}

// What a function that is declared later calls of one; no region is found where it calls it and has none.
fn add_user(
    alloc: Global,
    algo: &Algo,
    callee: &str,
    user: &Stored<'_>,
    found: &Option<Laid>,
    reach: &mut Vec<Option<Ends>>,
) -> Result<(), Stop>
    ensures { Tells result reach.new.items (spec.add_user (algorithm_of algo.now) callee.now (stored_of user.now)
        (option_map sched.laid_of found.now) reach.old.items) }
{
    let Some(formulas) = &user.formulas else {
        return Ok(());
    };
    if !formulas_call(alloc, formulas, callee)? {
        return Ok(());
    }
    let Some(laid) = found else {
        return Err(Stop::Limit);
    };
    let outer = head_scope(alloc, &laid.skeleton)?;
    let nests = &laid.skeleton.nests;
    add_definitions(alloc, algo, user, &outer, callee, 0, formulas, nests, reach)
}

// What those that are declared later call of it.
fn add_users(
    alloc: Global,
    algo: &Algo,
    callee: &str,
    later: &[Stored<'_>],
    found: &[Option<Laid>],
    reach: &mut Vec<Option<Ends>>,
) -> Result<(), Stop>
    ensures { Tells result reach.new.items (spec.add_users (algorithm_of algo.now) callee.now (map stored_of later.now)
        (map (option_map sched.laid_of) found.now) reach.old.items) }
{
    match later {
        [] => Ok(()),
        [user, others @ ..] => match found {
            [] => Ok(()),
            [laid, rest @ ..] => {
                add_user(alloc, algo, callee, user, laid, reach)?;
                add_users(alloc, algo, callee, others, rest, reach)
            }
        },
    }
}

// The points of a function that the later ones call, and those of the output.
fn reach_of(
    alloc: Global,
    algo: &Algo,
    stored: &Stored<'_>,
    later: &[Stored<'_>],
    found: &[Option<Laid>],
) -> Result<Vec<Option<Ends>>, Stop>
    ensures { Gives result (λ v. v.items) (spec.reach_of (algorithm_of algo.now) (stored_of stored.now) (map stored_of later.now)
        (map (option_map sched.laid_of) found.now)) }
{
    let mut reach = unreached(alloc, stored.subject.variables.len())?;
    let name = stored.subject.name.as_str();
    add_users(alloc, algo, name, later, found, &mut reach)?;
    if stored.subject.is_output {
        add_extents(algo, &mut reach)?;
    }
    Ok(reach)
}

fn laid_within(
    alloc: Global,
    algo: &Algo,
    stored: &Stored<'_>,
    later: &[Stored<'_>],
    found: &[Option<Laid>],
) -> Result<Laid, Stop>
    ensures { Gives result sched.laid_of (spec.laid_within (algorithm_of algo.now) (stored_of stored.now) (map stored_of later.now)
        (map (option_map sched.laid_of) found.now)) }
{
    let Some(formulas) = &stored.formulas else {
        return Err(Stop::Limit);
    };
    let reach = reach_of(alloc, algo, stored, later, found)?;
    closed(alloc, algo, stored, formulas, reach)
}

// None where there is no region within the limits.
fn laid_or_none(
    alloc: Global,
    algo: &Algo,
    stored: &Stored<'_>,
    later: &[Stored<'_>],
    found: &[Option<Laid>],
) -> Result<Option<Laid>, AllocError>
    ensures { IfOk result (λ laid. option_map sched.laid_of laid ≡ spec.laid_within (algorithm_of algo.now) (stored_of stored.now) (map stored_of later.now)
        (map (option_map sched.laid_of) found.now)) }
{
    match laid_within(alloc, algo, stored, later, found) {
        Ok(laid) => Ok(Some(laid)),
        Err(Stop::Limit) => Ok(None),
        Err(Stop::Memory) => Err(AllocError),
    }
}

/// The region of a function, as spans of numbers.
pub fn whole_region(alloc: Global, laid: &Laid) -> Result<Region, AllocError>
    ensures { IfOk result (λ region. region ≡ map limits.whole laid.now.region.items) }
{
    let mut region = Region::new(alloc);
    for extent in &laid.region {
        region.push(whole(alloc, extent)?)?;
    }
    Ok(region)
}

/// The region of each stored function with the loops over it, in the order of declaration; none where no region within the
/// limits is found.
pub fn laid_functions(
    alloc: Global,
    algo: &Algo,
    stored: &[Stored<'_>],
) -> Result<Vec<Option<Laid>>, AllocError>
    ensures { IfOk result (λ v. map (option_map sched.laid_of) v.items ≡ spec.laid_functions (algorithm_of algo.now) (map stored_of stored.now)) }
{
    match stored {
        [] => Ok(Vec::new(alloc)),
        [one, later @ ..] => {
            let mut found = laid_functions(alloc, algo, later)?;
            let laid = laid_or_none(alloc, algo, one, later, &found)?;
            found.insert(0, laid)?;
            Ok(found)
        }
    }
}
