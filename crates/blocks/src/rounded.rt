//! Functions with updates in blocks that run past the end of what is needed: what is named before their nests, and of what their claims speak.

ghost use Rattle.std.specs.Prelude.{◌≡◌, ◌&&◌, not, IfOk, OnOk, Some, map};
ghost use Rattle.std.specs.List.{list_any};
ghost use Rattle.std.specs.Option.{option_copied, option_map};
ghost use Rattle.algo.specs.View.{algorithm_of};
ghost use Rattle.sched.specs.Around.{bind_steps as bound_by};
ghost use Rattle.sched.specs.Calls.{call_of};
ghost use Rattle.sched.specs.Demanded as demanded;
ghost use Rattle.sched.specs.Limited.{Gives, Tells};
ghost use Rattle.blocks.specs.Rounded as spec;
ghost use Rattle.sched.specs.Stored.{calls_in, formula_of, stored_of};
ghost use Rattle.meaning.specs.Names.{same_name};
ghost use Rattle.sched.specs.Skeleton.{nest_seen};

use crate::counting::{Blocks, Names, counted_at};
use crate::ends::rounding;
use crate::legality::is_bounded;
use crate::storage::stored_from;
use crate::telling::{has_further, told_span};
use algo::Algo;
use lin::{Lin, Region, Scope, Span1};
use sched::calls::{Call, calls_of};
use sched::definitions::{Formula, is_single};
use sched::ends::{has_split_half, is_alone};
use sched::forms::one_form;
use sched::roots::Root;
use sched::scopes::bind_steps;
use sched::stop::Stop;
use sched::windows::{count_from, run_of, shortest};
use sched::{Nest, Split, Step, Tail};
use std::alloc::{AllocError, Global};
use tree::token::Name;

/// How many blocks behind the first one are counted at most, where one turn needs more of them than another.
const MOST_FURTHER: i64 = 3;

/// What is named before the nests of a function.
#[derive(Drop)]
pub struct Begun {
    pub lets: Vec<Step>,
    /// Over what the nests go.
    pub region: Region,
    /// Whether blocks begin before what is needed.
    pub is_moved: bool,
    /// In each dimension its blocks, where they are counted.
    pub blocks: Vec<Option<Blocks>>,
}

// The factor by which the dimension's loop is split with `roundup`, where it is.
fn rounding_of(root: &Root<'_>, dimension: usize) -> Option<u32>
    ensures { result ≡ spec.rounding_of (stored_of root.now.stored.now) dimension }
{
    match root.stored.subject.variables.get(dimension) {
        Some(variable) => rounding(&root.stored.placed.cuts, variable),
        None => None,
    }
}

// ---- dimensions

// Whether a split of the variable makes loops that are split again.
fn has_split_again(cuts: &[Split], variable: &Name) -> bool
    ensures { result ≡ spec.has_split_again cuts.now (Some variable.now) }
{
    cuts.iter().any(|cut| cut.whole.as_str() == variable.as_str() && has_split_half(cuts, cut))
}

// Whether the loops that the variable's split makes are split again.
fn is_split_again(root: &Root<'_>, dimension: usize) -> bool
    ensures { result ≡ spec.is_split_again (stored_of root.now.stored.now) dimension }
{
    match root.stored.subject.variables.get(dimension) {
        Some(variable) => has_split_again(&root.stored.placed.cuts, variable),
        None => false,
    }
}

/// Over what the nests go in one dimension.
#[derive(Drop)]
pub(crate) struct Run {
    pub span: Span1,
    /// Whether it begins before what is needed.
    pub is_moved: bool,
    pub blocks: Option<Blocks>,
}

fn run_over(alloc: Global, span: &Span1) -> Result<Run, AllocError>
    ensures { IfOk result (λ run. run ≡ spec.run_over span.now) }
{
    Ok(Run {
        span: span.copy(alloc)?,
        is_moved: false,
        blocks: None,
    })
}

// The blocks of a dimension from one of its lower forms on.
fn moved_run(alloc: Global, span: &Span1, low: &Lin) -> Result<Run, AllocError>
    ensures { IfOk result (λ run. run ≡ spec.moved_run span.now low.now) }
{
    let lower = one_form(alloc, low.copy(alloc)?)?;
    let upper = span.upper.copy(alloc)?;
    let span = Span1 { lower, upper };
    Ok(Run {
        span,
        is_moved: true,
        blocks: None,
    })
}

/// How many blocks a dimension has.
#[derive(Clone, Copy, Drop)]
pub(crate) struct Tally {
    /// The lower form from which on there are the fewest.
    pub place: usize,
    /// How many stand behind the first one at most.
    pub further: i64,
    /// Whether as many do in each turn.
    pub is_even: bool,
}

// How many blocks of so many numbers stand behind the first one at most, where there are so many numbers.
fn further_of(most: i64, factor: i64) -> i64
    ensures { result ≡ spec.further_of most factor }
{
    let last = most.saturating_sub(1);
    if factor > 0 { last / factor } else { 0 }
}

fn tally_of(alloc: Global, scope: &Scope, told: &Span1, factor: i64) -> Result<Option<Tally>, Stop>
    ensures { Gives result (λ tally. tally) (spec.tally_of scope.now told.now factor) }
{
    let Some((place, most)) = shortest(alloc, scope, told)? else {
        return Ok(None);
    };
    let further = further_of(most, factor);
    let is_even = has_further(alloc, scope, told, further.saturating_mul(factor))?;
    Ok(Some(Tally {
        place,
        further,
        is_even,
    }))
}

// How many blocks are counted.
fn count_of(further: i64) -> u32
    ensures { result ≡ spec.count_of further }
{
    u32::try_from(further).unwrap_or(0)
}

// The blocks of a dimension from its one lower form on, counted.
fn counted_run(
    alloc: Global,
    names: &mut Names,
    span: &Span1,
    low: &Lin,
    upper: &[Lin],
    factor: i64,
    count: u32,
) -> Result<Run, Stop>
    ensures { Gives result (λ run. (run, spec.names_seen names.new)) (spec.counted_by (spec.counted low.now factor count upper.now
        (spec.names_seen names.old)) span.now) }
{
    let blocks = names.counted(alloc, low, upper, factor, count)?;
    let span = span.copy(alloc)?;
    Ok(Run {
        span,
        is_moved: false,
        blocks: Some(blocks),
    })
}

// The blocks of a dimension of one lower form: where not each turn needs as many of them, they are counted.
fn alone_run(
    alloc: Global,
    names: &mut Names,
    is_counted: bool,
    factor: i64,
    span: &Span1,
    low: &Lin,
    upper: &[Lin],
    tally: Tally,
) -> Result<Run, Stop>
    ensures { Gives result (λ run. (run, spec.names_seen names.new)) (spec.alone_run is_counted factor span.now low.now upper.now tally
        (spec.names_seen names.old)) }
{
    if tally.is_even || !is_counted {
        return Ok(run_over(alloc, span)?);
    }
    let count = count_of(tally.further);
    counted_run(alloc, names, span, low, upper, factor, count)
}

// The blocks of a dimension from this lower form on, where each turn needs as many of them.
fn moved_if(
    alloc: Global,
    is_even: bool,
    span: &Span1,
    low: Option<&Lin>,
) -> Result<Run, AllocError>
    ensures { IfOk result (λ run. run ≡ spec.moved_if is_even span.now (option_copied low.entry)) }
{
    match low {
        Some(low) => if is_even {
            moved_run(alloc, span, low)
        } else {
            run_over(alloc, span)
        },
        None => run_over(alloc, span),
    }
}

// The blocks of a dimension: where each turn needs as many of them, from one of its lower forms on; where it has one, they are
// counted.
fn told_run(
    alloc: Global,
    names: &mut Names,
    is_counted: bool,
    factor: i64,
    span: &Span1,
    told: &Span1,
    tally: Tally,
) -> Result<Run, Stop>
    ensures { Gives result (λ run. (run, spec.names_seen names.new)) (spec.told_run is_counted factor span.now told.now.lower told.now.upper tally
        (spec.names_seen names.old)) }
{
    let lower = told.lower.as_slice();
    match lower {
        [] => Ok(moved_if(alloc, tally.is_even, span, lower.get(tally.place))?),
        [low] => alone_run(
            alloc,
            names,
            is_counted,
            factor,
            span,
            low,
            told.upper.as_slice(),
            tally,
        ),
        [_first, _second, ..] => Ok(moved_if(alloc, tally.is_even, span, lower.get(tally.place))?),
    }
}

fn run_in(
    alloc: Global,
    root: &Root<'_>,
    names: &mut Names,
    dimension: usize,
    factor: i64,
    span: &Span1,
) -> Result<Run, Stop>
    ensures { Gives result (λ run. (run, spec.names_seen names.new)) (spec.run_in (stored_of root.now.stored.now) dimension factor span.now
        (spec.names_seen names.old)) }
{
    let told = told_span(alloc, &names.scope, span)?;
    let Some(tally) = tally_of(alloc, &names.scope, &told, factor)? else {
        return Ok(run_over(alloc, span)?);
    };
    let is_counted = tally.further <= MOST_FURTHER && !is_split_again(root, dimension);
    told_run(alloc, names, is_counted, factor, span, &told, tally)
}

/// The nests begin over the region itself: nothing is named before them.
pub fn unnamed(alloc: Global, region: &Region) -> Result<Begun, AllocError>
    ensures { IfOk result (λ begun. spec.begun_seen begun ≡ spec.unnamed region.now) }
{
    Ok(Begun {
        lets: Vec::new(alloc),
        region: region.copy(alloc)?,
        is_moved: false,
        blocks: Vec::new(alloc),
    })
}

// What a dimension runs over, and its blocks.
fn run_at(
    alloc: Global,
    root: &Root<'_>,
    names: &mut Names,
    dimension: usize,
    span: &Span1,
) -> Result<Run, Stop>
    ensures { Gives result (λ run. (run, spec.names_seen names.new)) (spec.run_at (stored_of root.now.stored.now) dimension span.now
        (spec.names_seen names.old)) }
{
    match rounding_of(root, dimension) {
        Some(factor) => run_in(alloc, root, names, dimension, i64::from(factor), span),
        None => Ok(run_over(alloc, span)?),
    }
}

// What is named, and behind it what is of one more dimension.
fn add_run(run: Run, begun: &mut Begun) -> Result<(), AllocError>
    ensures { OnOk result (spec.begun_seen begun.new ≡ spec.with_run run (spec.begun_seen begun.old)) }
{
    let Run {
        span,
        is_moved,
        blocks,
    } = run;
    begun.region.push(span)?;
    begun.is_moved = begun.is_moved || is_moved;
    begun.blocks.push(blocks)?;
    Ok(())
}

// The same of these dimensions.
fn add_runs(
    alloc: Global,
    root: &Root<'_>,
    names: &mut Names,
    dimension: usize,
    spans: &[Span1],
    begun: &mut Begun,
) -> Result<(), Stop>
    ensures { Tells result (spec.names_seen names.new, spec.begun_seen begun.new) (spec.runs_from (stored_of root.now.stored.now) dimension spans.now
        (spec.names_seen names.old) (spec.begun_seen begun.old)) }
{
    match spans {
        [] => Ok(()),
        [span, rest @ ..] => {
            let Some(next) = dimension.checked_add(1) else {
                return Err(Stop::Memory);
            };
            let run = run_at(alloc, root, names, dimension, span)?;
            add_run(run, begun)?;
            add_runs(alloc, root, names, next, rest, begun)
        }
    }
}

// Whether one of the calls is of the function of this name.
fn has_call(calls: &[Call<'_>], name: &Name) -> bool
    ensures { result ≡ list_any (λ c. same_name c.name name.now) (map call_of calls.now) }
{
    match calls {
        [] => false,
        [call, rest @ ..] => {
            if call.name == name.as_str() {
                return true;
            }
            has_call(rest, name)
        }
    }
}

// Whether one of these definitions calls the function of this name.
fn are_calling(alloc: Global, formulas: &[Formula], name: &Name) -> Result<bool, AllocError>
    ensures { IfOk result (λ yes. yes ≡ list_any (λ f. list_any (λ c. same_name c.name name.now) (calls_in f)) (map formula_of formulas.now)) }
{
    match formulas {
        [] => Ok(false),
        [formula, rest @ ..] => {
            let calls = calls_of(alloc, formula)?;
            if has_call(&calls, name) {
                return Ok(true);
            }
            are_calling(alloc, rest, name)
        }
    }
}

/// Whether an update of the function calls it.
pub fn calls_itself(alloc: Global, root: &Root<'_>) -> Result<bool, AllocError>
    ensures { IfOk result (λ yes. yes ≡ spec.calls_itself (stored_of root.now.stored.now) (map formula_of root.now.formulas.now)) }
{
    are_calling(alloc, root.formulas, &root.stored.subject.name)
}

// What is named before the nests of a function over a region.
fn begun_over(alloc: Global, root: &Root<'_>, scope: &Scope, region: &Region) -> Result<Begun, Stop>
    ensures { Gives result spec.begun_seen (spec.named_over (stored_of root.now.stored.now) scope.now region.now) }
{
    let mut names = Names {
        scope: scope.copy(alloc)?,
        lets: Vec::new(alloc),
    };
    let mut begun = unnamed(alloc, &Region::new(alloc))?;
    add_runs(alloc, root, &mut names, 0, region.as_slice(), &mut begun)?;
    let Names { lets, .. } = names;
    begun.lets = lets;
    Ok(begun)
}

/// The same; none where a form leaves the limits of forms.
pub fn named_over(
    alloc: Global,
    root: &Root<'_>,
    scope: &Scope,
    region: &Region,
) -> Result<Option<Begun>, AllocError>
    ensures { IfOk result (λ found. option_map spec.begun_seen found ≡ spec.named_over (stored_of root.now.stored.now) scope.now region.now) }
{
    match begun_over(alloc, root, scope, region) {
        Ok(begun) => Ok(Some(begun)),
        Err(Stop::Limit) => Ok(None),
        Err(Stop::Memory) => Err(AllocError),
    }
}

/// A function's nests over a region, with what stands around them.
#[derive(Drop)]
pub struct Lain {
    pub scope: Scope,
    pub begun: Begun,
    pub nests: Vec<Nest>,
}

/// What stands around, and behind it these lets.
pub fn scope_behind(alloc: Global, outer: &Scope, lets: &[Step]) -> Result<Scope, AllocError>
    ensures { IfOk result (λ scope. scope ≡ bound_by outer.now lets.now) }
{
    let mut scope = outer.copy(alloc)?;
    bind_steps(alloc, &mut scope, lets)?;
    Ok(scope)
}

/// Whether each index of these nests is shown to stay where it may, if their blocks begin before what is needed.
pub fn is_allowed(
    alloc: Global,
    algo: &Algo,
    root: &Root<'_>,
    scope: &Scope,
    begun: &Begun,
    nests: &[Nest],
    region: &Region,
) -> Result<bool, Stop>
    ensures { Gives result (λ yes. yes) (spec.is_allowed (algorithm_of algo.now) (stored_of root.now.stored.now) (map formula_of root.now.formulas.now)
        scope.now region.now (spec.begun_seen begun.now) (map nest_seen nests.now)) }
{
    if begun.is_moved {
        is_bounded(alloc, algo, root, scope, nests, region)
    } else {
        Ok(true)
    }
}

fn is_roundup(tail: Tail) -> bool
    ensures { result ≡ spec.is_roundup tail }
{
    match tail {
        Tail::Roundup => true,
        Tail::Guard | Tail::Shift => false,
    }
}

fn has_roundup(cuts: &[Split]) -> bool
    ensures { result ≡ list_any (λ c. spec.is_roundup c.tail && not (demanded.is_alone cuts.now c)) cuts.now }
{
    cuts.iter()
        .any(|cut| is_roundup(cut.tail) && !is_alone(cuts, cut))
}

/// Whether no update of the function may read what its nests make past what is needed.
pub fn is_plain(root: &Root<'_>) -> bool
    ensures { result ≡ spec.is_plain (stored_of root.now.stored.now) (map formula_of root.now.formulas.now) }
{
    is_single(root.formulas) || !has_roundup(&root.stored.placed.cuts)
}

// ---- claims

// Whether so many numbers, or so many, behind each lower form no upper form of the span is passed.
fn has_either(
    alloc: Global,
    scope: &Scope,
    span: &Span1,
    begun: i64,
    last: i64,
) -> Result<bool, Stop>
    ensures { Gives result (λ yes. yes) (spec.has_either scope.now span.now begun last) }
{
    if has_further(alloc, scope, span, begun)? {
        return Ok(true);
    }
    has_further(alloc, scope, span, last)
}

// So many numbers from the first one on, where that is the same in each turn.
fn run_counted(
    alloc: Global,
    scope: &Scope,
    factor: u32,
    told: &Span1,
    low: &Lin,
    most: i64,
    count: i64,
) -> Result<Option<Span1>, Stop>
    ensures { Gives result (λ run. run) (spec.run_counted scope.now factor told.now low.now most (Some count)) }
{
    let begun = count.saturating_sub(i64::from(factor));
    if has_either(alloc, scope, told, begun, most.saturating_sub(1))? {
        Ok(Some(run_of(alloc, low, count)?))
    } else {
        Ok(None)
    }
}

// From the first number of a span to the last that the nests store in blocks of so many numbers, where that is the same in each
// turn; the span's forms are told.
fn run_told(
    alloc: Global,
    scope: &Scope,
    nests: &[Nest],
    dimension: usize,
    factor: u32,
    told: &Span1,
) -> Result<Option<Span1>, Stop>
    ensures { Gives result (λ run. run) (spec.run_told scope.now (map nest_seen nests.now) dimension factor told.now told.now.lower) }
{
    let [low] = told.lower.as_slice() else {
        return Ok(None);
    };
    let Some(most) = count_from(alloc, scope, low, told.upper.as_slice())? else {
        return Ok(None);
    };
    let Some(count) = stored_from(alloc, scope, nests, dimension, low, most)? else {
        return Ok(None);
    };
    run_counted(alloc, scope, factor, told, low, most, count)
}

// The same of any span.
fn same_run(
    alloc: Global,
    scope: &Scope,
    nests: &[Nest],
    dimension: usize,
    factor: u32,
    span: &Span1,
) -> Result<Option<Span1>, Stop>
    ensures { Gives result (λ run. run) (spec.same_run scope.now (map nest_seen nests.now) dimension factor span.now) }
{
    let told = told_span(alloc, scope, span)?;
    run_told(alloc, scope, nests, dimension, factor, &told)
}

// What the blocks of a dimension make; none where no form tells it.
fn made_by(
    alloc: Global,
    scope: &Scope,
    nests: &[Nest],
    dimension: usize,
    factor: u32,
    span: &Span1,
    blocks: Option<&Blocks>,
) -> Result<Option<Span1>, Stop>
    ensures { Gives result (λ made. made) (spec.made_by scope.now (map nest_seen nests.now) dimension factor span.now (option_copied blocks.entry)) }
{
    match blocks {
        Some(blocks) => Ok(Some(Span1 {
            lower: told_span(alloc, scope, span)?.lower,
            upper: blocks.ends.copy(alloc)?,
        })),
        None => same_run(alloc, scope, nests, dimension, factor, span),
    }
}

// Whether the function of these nests has no updates.
fn are_few(nests: &[Nest]) -> bool
    ensures { result ≡ spec.are_few (map nest_seen nests.now) }
{
    match nests {
        [] => true,
        [_only] => true,
        [_first, _second, ..] => false,
    }
}

// The same where the dimension is split with `roundup`, and the function has updates.
fn wide_at(
    alloc: Global,
    root: &Root<'_>,
    scope: &Scope,
    dimension: usize,
    begun: &Begun,
    nests: &[Nest],
) -> Result<Option<Span1>, Stop>
    ensures { Gives result (λ wide. wide) (spec.wide_at (stored_of root.now.stored.now) scope.now (spec.begun_seen begun.now)
        (map nest_seen nests.now) dimension) }
{
    let Some(factor) = rounding_of(root, dimension) else {
        return Ok(None);
    };
    let Some(over) = begun.region.as_slice().get(dimension) else {
        return Ok(None);
    };
    if are_few(nests) {
        return Ok(None);
    }
    let blocks = counted_at(&begun.blocks, dimension);
    made_by(alloc, scope, nests, dimension, factor, over, blocks)
}

// The wide span, or this one where there is none.
fn or_span(alloc: Global, span: &Span1, wide: Option<Span1>) -> Result<Span1, AllocError>
    ensures { IfOk result (λ made. made ≡ spec.or_span span.now wide) }
{
    match wide {
        Some(wide) => Ok(wide),
        None => span.copy(alloc),
    }
}

// Of what claims speak in these dimensions, behind others.
fn add_claims(
    alloc: Global,
    root: &Root<'_>,
    scope: &Scope,
    begun: &Begun,
    nests: &[Nest],
    dimension: usize,
    spans: &[Span1],
    claimed: &mut Region,
) -> Result<(), Stop>
    ensures { Tells result claimed.new (spec.add_claims (stored_of root.now.stored.now) scope.now (spec.begun_seen begun.now) (map nest_seen nests.now)
        dimension spans.now claimed.old) }
{
    match spans {
        [] => Ok(()),
        [span, rest @ ..] => {
            let Some(next) = dimension.checked_add(1) else {
                return Err(Stop::Memory);
            };
            let wide = wide_at(alloc, root, scope, dimension, begun, nests)?;
            claimed.push(or_span(alloc, span, wide)?)?;
            add_claims(alloc, root, scope, begun, nests, next, rest, claimed)
        }
    }
}

/// Of what the claims of a function speak: what is needed, and where blocks run past the end what its updates set there.
pub fn claim_of(
    alloc: Global,
    root: &Root<'_>,
    scope: &Scope,
    region: &Region,
    begun: &Begun,
    nests: &[Nest],
) -> Result<Region, Stop>
    ensures { Gives result (λ claimed. claimed) (spec.claim_of (stored_of root.now.stored.now) scope.now (spec.begun_seen begun.now)
        (map nest_seen nests.now) region.now) }
{
    let mut claimed = Region::new(alloc);
    add_claims(
        alloc,
        root,
        scope,
        begun,
        nests,
        0,
        region.as_slice(),
        &mut claimed,
    )?;
    Ok(claimed)
}
