//! The rules of schedules that ask what a root function's loops run over.

ghost use Rattle.std.specs.Prelude.{◌≡◌, ◌++◌, IfOk, OnOk, true, false, map};
ghost use Rattle.std.specs.Option.{option_map};
ghost use Rattle.tree.specs.Term.{term_of, list_terms, indices};
ghost use Rattle.algo.specs.View.{algorithm_of};
ghost use Rattle.sched.specs.Skeleton.{nest_seen};
ghost use Rattle.sched.specs.Limited.{Gives};
ghost use Rattle.sched.specs.Stored.{formula_of, stored_of};
ghost use Rattle.blocks.specs.Large.{IsByRegion};
ghost use Rattle.sched.specs.Calls.{call_of};
ghost use Rattle.sched.specs.Around.{around_of};
ghost use Rattle.sched.specs.Regions.{laid_of};
ghost use Rattle.blocks.specs.Bounded as spec;
ghost use Rattle.sched.specs.Bounded as sched;
ghost use Rattle.blocks.specs.Broken as broken;
ghost use Rattle.blocks.specs.Faults as faults;

use algo::Algo;
use algo::scoping::same_name;
use lin::{Region, Scope, Span1};
use sched::calls::{Call, calls_of};
use sched::definitions::{Formula, Stored, are_calls_of, counts};
use sched::forms::{between, is_inside, whole};
use sched::roots::{Laid, Root};
use sched::scopes::{Around, around_in, head_scope, interval};
use sched::stop::Stop;
use sched::{Extent, Nest, RegionRule, has_short_shift, loop_numbers};
use std::alloc::{AllocError, Global};
use tree::Expr;

/// The most shared cells of all root functions.
pub const MOST_CELLS: u64 = 1 << 24;

/// The most pieces of all root functions.
pub const MOST_PIECES: u64 = 1 << 20;

/// What the root functions so far have together.
#[derive(Clone, Copy, Drop)]
pub struct Totals {
    pub cells: u64,
    pub pieces: u64,
}

/// How many pieces a grid of these counts has; the greatest number of 64 bits where there are more.
pub fn product(counts: &[u32]) -> u64
    ensures { result ≡ faults.product counts.now }
{
    match counts {
        [] => 1,
        [count, rest @ ..] => product(rest).saturating_mul(u64::from(*count)),
    }
}

/// How many cells a region has; the greatest number of 64 bits where there are more.
pub fn cells_of(region: &[Extent]) -> u64
    ensures { result ≡ faults.cells_of region.now }
{
    match region {
        [] => 1,
        [extent, rest @ ..] => cells_of(rest).saturating_mul(u64::from(extent.count)),
    }
}

impl Totals {
    /// With the cells and pieces of one function more.
    pub fn joined(self, laid: &Laid) -> Totals
        ensures { result ≡ faults.with_laid self (laid_of laid.now) }
    {
        Totals {
            cells: self.cells.saturating_add(cells_of(&laid.region)),
            pieces: self.pieces.saturating_add(product(&laid.skeleton.grid)),
        }
    }

    fn pass_limits(&self) -> bool
        ensures { result ≡ faults.pass_limits self.now }
    {
        self.cells > MOST_CELLS || self.pieces > MOST_PIECES
    }
}

fn has_shifted_little(alloc: Global, stored: &Stored<'_>, laid: &Laid) -> Result<bool, AllocError>
    ensures { IfOk result (λ yes. yes ≡ faults.is_shifted_little (stored_of stored.now) (laid_of laid.now)) }
{
    let cuts = &stored.placed.cuts;
    let numbers = loop_numbers(alloc, &stored.subject.variables, cuts, &laid.region)?;
    Ok(has_short_shift(&numbers, cuts))
}

// Whether each index of a call of the input is shown to lie on its extents.
fn is_on_input(
    alloc: Global,
    algo: &Algo,
    around: &Around<'_>,
    at: &[Expr],
    extents: &[u32],
) -> Result<bool, Stop>
    ensures { Gives result (λ yes. yes) (spec.is_on_input (algorithm_of algo.now) (around_of around.now) (indices (list_terms at.now)) extents.now) }
{
    match at {
        [] => Ok(true),
        [index, indices @ ..] => match extents {
            [] => Ok(true),
            [extent, rest @ ..] => {
                let span = interval(alloc, algo, around, index)?;
                let numbers = between(alloc, 0, i64::from(*extent) - 1)?;
                if is_inside(alloc, &around.scope, &span, &numbers)? {
                    is_on_input(alloc, algo, around, indices, rest)
                } else {
                    Ok(false)
                }
            }
        },
    }
}

// Whether an index is shown to lie in a span, where the definition's left index is not the variable.
fn is_place_bounded(
    alloc: Global,
    algo: &Algo,
    around: &Around<'_>,
    formula: &Formula,
    place: usize,
    index: &Expr,
    extents: &Span1,
) -> Result<bool, Stop>
    ensures { Gives result (λ yes. yes) (spec.is_place_bounded (algorithm_of algo.now) (around_of around.now) (formula_of formula.now) place
        (term_of index.now) extents.now) }
{
    if !counts(Some(formula), place) {
        return Ok(true);
    }
    let span = interval(alloc, algo, around, index)?;
    Ok(is_inside(alloc, &around.scope, &span, extents)?)
}

// Whether an update's call of its own function is shown to lie in the region, from a place on.
fn is_in_region(
    alloc: Global,
    algo: &Algo,
    around: &Around<'_>,
    formula: &Formula,
    place: usize,
    at: &[Expr],
    region: &[Span1],
) -> Result<bool, Stop>
    ensures { Gives result (λ yes. yes) (spec.is_in_region (algorithm_of algo.now) (around_of around.now) (formula_of formula.now) place
        (indices (list_terms at.now)) region.now) }
{
    match at {
        [] => Ok(true),
        [index, indices @ ..] => match region {
            [] => Ok(true),
            [extents, rest @ ..] => {
                let Some(next) = place.checked_add(1) else {
                    return Err(Stop::Memory);
                };
                if is_place_bounded(alloc, algo, around, formula, place, index, extents)? {
                    is_in_region(alloc, algo, around, formula, next, indices, rest)
                } else {
                    Ok(false)
                }
            }
        },
    }
}

fn is_call_bounded(
    alloc: Global,
    algo: &Algo,
    around: &Around<'_>,
    formula: &Formula,
    region: &[Span1],
    own: &str,
    call: &Call<'_>,
) -> Result<bool, Stop>
    ensures { Gives result (λ yes. yes) (spec.is_call_bounded (algorithm_of algo.now) (around_of around.now) (formula_of formula.now) region.now own.now
        (call_of call.now)) }
{
    let input = algo.input();
    if same_name(call.name, input.name.as_str()) {
        return is_on_input(alloc, algo, around, call.at, &input.shape.extents);
    }
    if same_name(call.name, own) {
        return is_in_region(alloc, algo, around, formula, 0, call.at, region);
    }
    Ok(true)
}

fn are_bounded(
    alloc: Global,
    algo: &Algo,
    around: &Around<'_>,
    formula: &Formula,
    region: &[Span1],
    own: &str,
    calls: &[Call<'_>],
) -> Result<bool, Stop>
    ensures { Gives result (λ yes. yes) (spec.are_bounded (algorithm_of algo.now) (around_of around.now) (formula_of formula.now) region.now own.now
        (map call_of calls.now)) }
{
    match calls {
        [] => Ok(true),
        [call, rest @ ..] => {
            if !is_call_bounded(alloc, algo, around, formula, region, own, call)? {
                return Ok(false);
            }
            are_bounded(alloc, algo, around, formula, region, own, rest)
        }
    }
}

// Whether the indices of the definition of this number are.
fn is_definition_bounded(
    alloc: Global,
    algo: &Algo,
    stored: &Stored<'_>,
    outer: &Scope,
    region: &[Span1],
    definition: usize,
    formula: &Formula,
    nest: &Nest,
) -> Result<bool, Stop>
    ensures { Gives result (λ yes. yes) (spec.is_definition_bounded (algorithm_of algo.now) (stored_of stored.now) outer.now region.now definition
        (formula_of formula.now) (nest_seen nest.now)) }
{
    let around = around_in(alloc, algo, stored, outer, nest, formula, definition)?;
    let calls = calls_of(alloc, formula)?;
    let own = stored.subject.name.as_str();
    are_bounded(alloc, algo, &around, formula, region, own, &calls)
}

// Those of the definitions from this number on.
fn are_definitions_bounded(
    alloc: Global,
    algo: &Algo,
    stored: &Stored<'_>,
    outer: &Scope,
    region: &[Span1],
    definition: usize,
    formulas: &[Formula],
    nests: &[Nest],
) -> Result<bool, Stop>
    ensures { Gives result (λ yes. yes) (spec.is_bounded (algorithm_of algo.now) (stored_of stored.now) outer.now region.now definition
        (map formula_of formulas.now) (map nest_seen nests.now)) }
{
    match formulas {
        [] => Ok(true),
        [formula, others @ ..] => match nests {
            [] => Ok(false),
            [nest, rest @ ..] => {
                let Some(next) = definition.checked_add(1) else {
                    return Err(Stop::Memory);
                };
                if is_definition_bounded(
                    alloc, algo, stored, outer, region, definition, formula, nest,
                )? {
                    are_definitions_bounded(alloc, algo, stored, outer, region, next, others, rest)
                } else {
                    Ok(false)
                }
            }
        },
    }
}

/// Whether each index of the input and of the function itself is shown to lie where it may, in these nests over a region.
pub fn is_bounded(
    alloc: Global,
    algo: &Algo,
    root: &Root<'_>,
    outer: &Scope,
    nests: &[Nest],
    region: &Region,
) -> Result<bool, Stop>
    ensures { Gives result (λ yes. yes) (spec.is_bounded (algorithm_of algo.now) (stored_of root.now.stored.now) outer.now region.now 0
        (map formula_of root.now.formulas.now) (map nest_seen nests.now)) }
{
    let region = region.as_slice();
    are_definitions_bounded(
        alloc,
        algo,
        root.stored,
        outer,
        region,
        0,
        root.formulas,
        nests,
    )
}

/// Adds all numbers of each dimension of a region.
pub(crate) fn add_whole(
    alloc: Global,
    extents: &[Extent],
    region: &mut Region,
) -> Result<(), AllocError>
    ensures { OnOk result (region.new ≡ region.old ++ map sched.whole extents.now) }
{
    match extents {
        [] => Ok(()),
        [extent, rest @ ..] => {
            region.push(whole(alloc, extent)?)?;
            add_whole(alloc, rest, region)
        }
    }
}

// The same of a root function.
fn is_root_bounded(alloc: Global, algo: &Algo, root: &Root<'_>) -> Result<bool, Stop>
    ensures { Gives result (λ yes. yes) (spec.is_root_bounded (algorithm_of algo.now) (stored_of root.now.stored.now) (map formula_of root.now.formulas.now)
        (laid_of root.now.laid.now)) }
{
    let mut region = Region::new(alloc);
    add_whole(alloc, &root.laid.region, &mut region)?;
    let skeleton = &root.laid.skeleton;
    let outer = head_scope(alloc, skeleton)?;
    is_bounded(alloc, algo, root, &outer, &skeleton.nests, &region)
}

/// The rule of the lowest number that a root function of this region breaks.
pub fn fault_within(
    alloc: Global,
    algo: &Algo,
    root: &Root<'_>,
    totals: Totals,
) -> Result<Option<RegionRule>, AllocError>
    ensures kind { IfOk result IsByRegion }
    ensures rule { IfOk result (λ rule. rule ≡ faults.fault_within (algorithm_of algo.now)
        (stored_of root.now.stored.now) (map formula_of root.now.formulas.now) totals (laid_of root.now.laid.now)) }
{
    if has_shifted_little(alloc, root.stored, root.laid)? {
        return Ok(Some(RegionRule::ShortShift));
    }
    if totals.pass_limits() {
        return Ok(Some(RegionRule::TooMuch));
    }
    match is_root_bounded(alloc, algo, root) {
        Ok(true) => Ok(None),
        Ok(false) | Err(Stop::Limit) => Ok(Some(RegionRule::Unbounded)),
        Err(Stop::Memory) => Err(AllocError),
    }
}

/// L12, but of a function that one of these calls leaves without a region.
pub fn unless_left(stored: &Stored<'_>, left: &[Call<'_>]) -> Option<RegionRule>
    ensures kind { IsByRegion result }
    ensures rule { result ≡ faults.unless_left (stored_of stored.now) (map call_of left.now) }
{
    if are_calls_of(stored.subject.name.as_str(), left) {
        None
    } else {
        Some(RegionRule::Unbounded)
    }
}

/// What the root functions have together with one more, where that has definitions and a region.
#[tactic(auto, using(crate::proofs::Breaking::of_other, crate::proofs::Breaking::of_large, crate::proofs::Breaking::of_found))]
pub fn totals_with(totals: Totals, stored: &Stored<'_>, laid: Option<&Laid>) -> Totals
    ensures { result ≡ broken.totals_of totals (stored_of stored.now) (option_map (λ l. laid_of l.now) laid.entry) }
{
    if !stored.subject.is_root {
        return totals;
    }
    match &stored.formulas {
        None => totals,
        Some(_) => match laid {
            Some(laid) => totals.joined(laid),
            None => totals,
        },
    }
}

/// The region of the next function.
pub fn first_laid(laid: &[Option<Laid>]) -> Option<&Laid>
    ensures { option_map (λ l. laid_of l.now) result ≡ faults.first_laid (map (option_map laid_of) laid.now) }
{
    match laid {
        [] => None,
        [first, _others @ ..] => match first {
            Some(found) => Some(found),
            None => None,
        },
    }
}

/// Those of the others.
pub fn other_laid(laid: &[Option<Laid>]) -> &[Option<Laid>]
    ensures { map (option_map laid_of) result.now ≡ faults.other_laid (map (option_map laid_of) laid.now) }
{
    match laid {
        [] => laid,
        [_first, others @ ..] => others,
    }
}
