//! What splits run over in one turn, and how many blocks that takes.

ghost use Rattle.std.specs.Prelude.{◌≡◌, ◌++◌, [], IfOk, OnOk, find, slice_get};
ghost use Rattle.std.specs.Option.{is_some, option_copied};
ghost use Rattle.sched.specs.Demanded as demanded;
ghost use Rattle.sched.specs.Limited.{Gives};
ghost use Rattle.blocks.specs.Parted as parted;
ghost use Rattle.sched.specs.Parted as sched;
ghost use Rattle.sched.specs.Stored.{stored_of};

use crate::counting::{Blocks, counted_at};
use crate::telling::{has_further, is_behind, told_span};
use lin::{Forms, Lin, Region, Scope, Span1, Sym};
use plan::Pick;
use sched::ends::{Counted, Frame, Reach, extents_of, is_rounding, most_of, number_named};
use sched::forms::raised;
use sched::roots::Root;
use sched::stop::Stop;
use sched::{Known, Numbers, Split, Step, loop_numbers};
use std::alloc::{AllocError, Global};
use tree::token::Name;

/// What a turn needs of a function.
#[derive(Clone, Copy, Drop)]
pub struct Needed<'b> {
    /// What stands around its nests.
    pub scope: &'b Scope,
    pub region: &'b Region,
    /// What is kept of it where its buffer stands.
    pub kept: &'b Region,
}

fn is_whole(cuts: &[Split], name: &Name) -> bool
    ensures { result ≡ parted.is_cut cuts.now name.now }
{
    cuts.iter().any(|cut| cut.whole.as_str() == name.as_str())
}

// The symbol of a let for the smallest or largest of some forms, behind others.
fn let_of(
    alloc: Global,
    forms: &Forms,
    pick: Pick,
    first: Sym,
    lets: &mut Vec<Step>,
) -> Result<Lin, AllocError>
    ensures { IfOk result (λ form. (form, lets.new.items) ≡ parted.let_of first pick forms.now lets.old.items) }
{
    let Some(symbol) = first.checked_add(lets.len()) else {
        return Err(AllocError);
    };
    let forms = forms.copy(alloc)?;
    lets.push(Step::Named {
        symbol,
        pick,
        forms,
    })?;
    Lin::symbol(alloc, symbol)
}

// A form for the smallest or largest of some: the only one, or a let.
fn one_of(
    alloc: Global,
    forms: &Forms,
    pick: Pick,
    first: Sym,
    lets: &mut Vec<Step>,
) -> Result<Lin, AllocError>
    ensures { IfOk result (λ form. (form, lets.new.items) ≡ parted.one_of first pick forms.now lets.old.items) }
{
    match forms.as_slice() {
        [] => let_of(alloc, forms, pick, first, lets),
        [only] => only.copy(alloc),
        [_first, _second, ..] => let_of(alloc, forms, pick, first, lets),
    }
}

// Whether so many numbers from the first one on are not shown to end at the last one.
fn varies_from(alloc: Global, scope: &Scope, low: &Lin, high: &Lin, most: i64) -> Result<bool, Stop>
    ensures { Gives result (λ yes. yes) (parted.varies_from scope.now low.now high.now most) }
{
    let last = raised(alloc, low, most.saturating_sub(1))?;
    Ok(!scope.at_most(alloc, &last, high)?)
}

// Whether a dimension is not shown to have in each turn as many numbers as the most.
fn varies(
    alloc: Global,
    scope: &Scope,
    lower: &[Lin],
    upper: &[Lin],
    most: i64,
) -> Result<bool, Stop>
    ensures { Gives result (λ yes. yes) (parted.varies_in scope.now lower.now upper.now most) }
{
    match lower {
        [] => Ok(true),
        [low] => match upper {
            [] => Ok(true),
            [high] => varies_from(alloc, scope, low, high, most),
            [_first, _second, ..] => Ok(true),
        },
        [_first, _second, ..] => Ok(true),
    }
}

// The first of these splits that is one of the variable's loop with `roundup`.
fn rounded_among<'a>(all: &[Split], cuts: &'a [Split], variable: &Name) -> Option<&'a Split>
    ensures { option_copied result ≡ find (demanded.is_rounding all.now variable.now) cuts.now }
{
    match cuts {
        [] => None,
        [cut, rest @ ..] => {
            if is_rounding(all, cut, variable) {
                return Some(cut);
            }
            rounded_among(all, rest, variable)
        }
    }
}

// The variable's first split with `roundup`, where it has one.
fn rounded_cut<'a>(cuts: &'a [Split], variable: &Name) -> Option<&'a Split>
    ensures { option_copied result ≡ parted.rounded_cut cuts.now variable.now }
{
    rounded_among(&*cuts, &*cuts, variable)
}

/// The factor of the variable's split with `roundup`, where it has one.
pub(crate) fn rounding(cuts: &[Split], variable: &Name) -> Option<u32>
    ensures { result ≡ parted.rounding cuts.now variable.now }
{
    match rounded_cut(cuts, variable) {
        Some(cut) => Some(cut.factor),
        None => None,
    }
}

// What is left of a number behind full blocks of so many.
fn rest_of(count: i64, factor: u32) -> i64
    ensures { result ≡ parted.rest_of count factor }
{
    if factor == 0 {
        0
    } else {
        count % i64::from(factor)
    }
}

// Whether blocks of so many numbers are as many in each turn as there are at most.
fn are_even(
    alloc: Global,
    scope: &Scope,
    span: &Span1,
    factor: Option<u32>,
    most: i64,
) -> Result<bool, Stop>
    ensures { Gives result (λ yes. yes) (parted.are_even scope.now span.now factor most) }
{
    let Some(factor) = factor else {
        return Ok(false);
    };
    let last = most.saturating_sub(1);
    let rest = rest_of(last, factor);
    has_further(alloc, scope, span, last.saturating_sub(rest))
}

// The forms that tell the first number: one alone, where that is shown to be at least what is kept; else all of them.
fn lower_of(
    alloc: Global,
    scope: &Scope,
    span: &Span1,
    told: &Span1,
    kept: Option<&Span1>,
) -> Result<Forms, AllocError>
    ensures { IfOk result (λ forms. forms ≡ parted.lower_of scope.now span.now told.now (option_copied kept.entry)) }
{
    if is_behind(alloc, scope, kept, &told.lower)? {
        told.lower.copy(alloc)
    } else {
        span.lower.copy(alloc)
    }
}

// Several forms, the last one first, behind others.
fn add_last_first(alloc: Global, forms: &[Lin], turned: &mut Forms) -> Result<(), AllocError>
    ensures { OnOk result (turned.new ≡ turned.old ++ parted.last_first forms.now) }
{
    match forms {
        [] => Ok(()),
        [form, rest @ ..] => {
            add_last_first(alloc, rest, turned)?;
            turned.push(form.copy(alloc)?)?;
            Ok(())
        }
    }
}

// The same forms, the last one first.
fn last_first(alloc: Global, forms: &Forms) -> Result<Forms, AllocError>
    ensures { IfOk result (λ turned. turned ≡ parted.last_first forms.now) }
{
    let mut turned = Forms::new(alloc);
    add_last_first(alloc, forms.as_slice(), &mut turned)?;
    Ok(turned)
}

// The first number that loops run over.
fn low_of(
    alloc: Global,
    scope: &Scope,
    span: &Span1,
    told: &Span1,
    kept: Option<&Span1>,
    lets: &mut Vec<Step>,
) -> Result<Lin, AllocError>
    ensures { IfOk result (λ low. (low, lets.new.items) ≡ parted.low_of scope.now span.now told.now (option_copied kept.entry) lets.old.items) }
{
    let lower = lower_of(alloc, scope, span, told, kept)?;
    one_of(alloc, &lower, Pick::Max, scope.len(), lets)
}

// The last number that loops run over. The upper ends stand last first in the let for the smallest of them: the first of two may be
// what a guard in front says to be at most the second, and the checker takes such a let as that guard's own.
fn last_of(
    alloc: Global,
    scope: &Scope,
    told: &Span1,
    lets: &mut Vec<Step>,
) -> Result<Lin, AllocError>
    ensures { IfOk result (λ last. (last, lets.new.items) ≡ parted.last_of scope.now told.now lets.old.items) }
{
    let turned = last_first(alloc, &told.upper)?;
    one_of(alloc, &turned, Pick::Min, scope.len(), lets)
}

/// What is known of the numbers that loops run over.
#[derive(Clone, Copy, Drop)]
pub(crate) struct Facts {
    pub varies: bool,
    pub is_even: bool,
    pub is_told: bool,
}

fn facts_of(
    alloc: Global,
    scope: &Scope,
    told: &Span1,
    rounding: Option<u32>,
    kept: Option<&Span1>,
    most: i64,
) -> Result<Facts, Stop>
    ensures { Gives result (λ facts. facts) (parted.facts_of scope.now told.now rounding (option_copied kept.entry) most) }
{
    let varies = varies(
        alloc,
        scope,
        told.lower.as_slice(),
        told.upper.as_slice(),
        most,
    )?;
    let is_even = are_even(alloc, scope, told, rounding, most)?;
    let is_told = is_behind(alloc, scope, kept, &told.upper)?;
    Ok(Facts {
        varies,
        is_even,
        is_told,
    })
}

fn reach_by(name: Name, low: Lin, last: Lin, facts: Facts) -> Reach
    ensures { result ≡ parted.reach_by name low last facts }
{
    Reach {
        name,
        low,
        last,
        varies: facts.varies,
        is_even: facts.is_even,
        is_told: facts.is_told,
    }
}

// What the loops that a split makes run over, at most so many numbers.
fn reach_told(
    alloc: Global,
    scope: &Scope,
    name: Name,
    rounding: Option<u32>,
    span: &Span1,
    told: &Span1,
    kept: Option<&Span1>,
    most: i64,
    lets: &mut Vec<Step>,
) -> Result<Reach, Stop>
    ensures { Gives result (λ reach. (reach, lets.new.items))
        (parted.reach_told scope.now name rounding span.now told.now (option_copied kept.entry) most lets.old.items) }
{
    let low = low_of(alloc, scope, span, told, kept, lets)?;
    let last = last_of(alloc, scope, told, lets)?;
    let facts = facts_of(alloc, scope, told, rounding, kept, most)?;
    Ok(reach_by(name, low, last, facts))
}

// What the loops that a split makes run over.
fn reach_of(
    alloc: Global,
    scope: &Scope,
    name: Name,
    rounding: Option<u32>,
    span: &Span1,
    kept: Option<&Span1>,
    lets: &mut Vec<Step>,
) -> Result<Reach, Stop>
    ensures { Gives result (λ reach. (reach, lets.new.items))
        (parted.reach_of scope.now name rounding span.now (option_copied kept.entry) lets.old.items) }
{
    let most = most_of(alloc, scope, span)?;
    let told = told_span(alloc, scope, span)?;
    reach_told(alloc, scope, name, rounding, span, &told, kept, most, lets)
}

// A loop that a split makes has as many numbers in each turn.
fn half_reach(alloc: Global, numbers: &[Numbers], name: Name) -> Reach
    ensures { result ≡ parted.half_reach numbers.now name }
{
    let count = number_named(numbers, &name);
    Reach {
        name,
        low: Lin::number(alloc, 0),
        last: Lin::number(alloc, i64::from(count) - 1),
        varies: false,
        is_even: false,
        is_told: true,
    }
}

// What the loop of a split variable runs over, if it is split, before others.
fn with_reach(first: Option<Reach>, others: Vec<Reach>) -> Result<Vec<Reach>, AllocError>
    ensures { IfOk result (λ v. v.items ≡ parted.with_reach first others.items) }
{
    let mut reaches = others;
    if let Some(first) = first {
        reaches.insert(0, first)?;
    }
    Ok(reaches)
}

// The same; where its blocks are counted, each turn has as many.
fn with_even(reach: Reach, is_counted: bool) -> Reach
    ensures { result ≡ parted.with_even is_counted reach }
{
    let Reach {
        name,
        low,
        last,
        varies,
        is_even,
        is_told,
    } = reach;
    Reach {
        name,
        low,
        last,
        varies,
        is_even: is_even || is_counted,
        is_told,
    }
}

// What the loop of a variable runs over, if it is split, behind its lets; where its blocks are counted, each turn has as many.
fn reach_at(
    alloc: Global,
    cuts: &[Split],
    scope: &Scope,
    is_counted: bool,
    variable: &Name,
    span: &Span1,
    kept: Option<&Span1>,
    lets: &mut Vec<Step>,
) -> Result<Option<Reach>, Stop>
    ensures { Gives result (λ reach. (reach, lets.new.items))
        (parted.reach_at scope.now cuts.now is_counted variable.now span.now (option_copied kept.entry) lets.old.items) }
{
    if !is_whole(cuts, variable) {
        return Ok(None);
    }
    let rounding = rounding(cuts, variable);
    let reach = reach_of(alloc, scope, *variable, rounding, span, kept, lets)?;
    Ok(Some(with_even(reach, is_counted)))
}

// The same of the variable of this dimension.
#[tactic(auto, using(crate::proofs::Naming::reach_in))]
fn reach_in(
    alloc: Global,
    cuts: &[Split],
    scope: &Scope,
    blocks: &[Option<Blocks>],
    kept: &[Span1],
    dimension: usize,
    variable: &Name,
    span: &Span1,
    lets: &mut Vec<Step>,
) -> Result<Option<Reach>, Stop>
    ensures { Gives result (λ reach. (reach, lets.new.items)) (parted.reach_at scope.now cuts.now (is_some (parted.counted_at blocks.now dimension))
        variable.now span.now (slice_get kept.now dimension) lets.old.items) }
{
    let is_counted = has_count(blocks, dimension);
    let own = kept.get(dimension);
    reach_at(alloc, cuts, scope, is_counted, variable, span, own, lets)
}

// What the loops of these variables that are split run over, behind their lets.
fn variable_reaches(
    alloc: Global,
    cuts: &[Split],
    scope: &Scope,
    blocks: &[Option<Blocks>],
    kept: &[Span1],
    dimension: usize,
    variables: &[Name],
    spans: &[Span1],
    lets: &mut Vec<Step>,
) -> Result<Vec<Reach>, Stop>
    ensures { Gives result (λ v. (v.items, lets.new.items))
        (parted.reaches_from scope.now cuts.now blocks.now kept.now dimension variables.now spans.now lets.old.items) }
{
    let [variable, others @ ..] = variables else {
        return Ok(Vec::new(alloc));
    };
    let [span, rest @ ..] = spans else {
        return Ok(Vec::new(alloc));
    };
    let Some(next) = dimension.checked_add(1) else {
        return Err(Stop::Memory);
    };
    let first = reach_in(
        alloc, cuts, scope, blocks, kept, dimension, variable, span, lets,
    )?;
    let behind = variable_reaches(alloc, cuts, scope, blocks, kept, next, others, rest, lets)?;
    Ok(with_reach(first, behind)?)
}

// Whether the blocks of the dimension are counted.
fn has_count(blocks: &[Option<Blocks>], dimension: usize) -> bool
    ensures { result ≡ is_some (parted.counted_at blocks.now dimension) }
{
    match counted_at(blocks, dimension) {
        Some(_blocks) => true,
        None => false,
    }
}

// The loop over blocks that are counted, behind others.
fn add_counted(
    alloc: Global,
    cut: Option<&Split>,
    blocks: Option<&Blocks>,
    found: &mut Vec<Counted>,
) -> Result<(), AllocError>
    ensures { OnOk result (found.new.items ≡ found.old.items ++ parted.counted_one (option_copied cut.entry) (option_copied blocks.entry)) }
{
    let Some(cut) = cut else {
        return Ok(());
    };
    let Some(blocks) = blocks else {
        return Ok(());
    };
    found.push(Counted {
        name: cut.outer,
        further: blocks.further.copy(alloc)?,
    })?;
    Ok(())
}

// The loops of these variables over blocks that are counted, behind others.
fn add_all_counted(
    alloc: Global,
    cuts: &[Split],
    blocks: &[Option<Blocks>],
    dimension: usize,
    variables: &[Name],
    found: &mut Vec<Counted>,
) -> Result<(), AllocError>
    ensures { OnOk result (found.new.items ≡ found.old.items ++ parted.counted_from cuts.now blocks.now dimension variables.now) }
{
    match variables {
        [] => Ok(()),
        [variable, rest @ ..] => {
            let Some(next) = dimension.checked_add(1) else {
                return Err(AllocError);
            };
            let cut = rounded_cut(cuts, variable);
            add_counted(alloc, cut, counted_at(blocks, dimension), found)?;
            add_all_counted(alloc, cuts, blocks, next, rest, found)
        }
    }
}

// The loops over blocks that are counted.
fn counted_loops(
    alloc: Global,
    cuts: &[Split],
    blocks: &[Option<Blocks>],
    variables: &[Name],
) -> Result<Vec<Counted>, AllocError>
    ensures { IfOk result (λ v. v.items ≡ parted.counted_from cuts.now blocks.now 0 variables.now) }
{
    let mut found = Vec::new(alloc);
    add_all_counted(alloc, cuts, blocks, 0, variables, &mut found)?;
    Ok(found)
}

// Those of the loops that splits make, behind others.
fn add_half_reaches(
    alloc: Global,
    numbers: &[Numbers],
    cuts: &[Split],
    reaches: &mut Vec<Reach>,
) -> Result<(), AllocError>
    ensures { OnOk result (reaches.new.items ≡ reaches.old.items ++ parted.half_reaches numbers.now cuts.now) }
{
    match cuts {
        [] => Ok(()),
        [cut, rest @ ..] => {
            reaches.push(half_reach(alloc, numbers, cut.outer))?;
            reaches.push(half_reach(alloc, numbers, cut.inner))?;
            add_half_reaches(alloc, numbers, rest, reaches)
        }
    }
}

// What is kept of the pure definition; of an update it is not asked.
fn kept_of<'b>(kept: &'b Region, definition: usize) -> &'b [Span1]
    ensures { result.now ≡ parted.kept_of kept.now definition }
{
    if definition == 0 {
        kept.as_slice()
    } else {
        &[]
    }
}

// What is said of the loops that are split, and the lets around the nest, where loops have so many numbers.
fn frame_by(
    alloc: Global,
    root: &Root<'_>,
    needed: Needed<'_>,
    blocks: &[Option<Blocks>],
    definition: usize,
    numbers: Vec<Numbers>,
) -> Result<(Frame, Vec<Step>), Stop>
    ensures { Gives result (λ made. (sched.frame_seen made.0, made.1.items)) (parted.frame_by (stored_of root.now.stored.now) needed.entry.scope.now
        needed.entry.region.now needed.entry.kept.now blocks.now definition numbers.items) }
{
    let cuts = &root.stored.placed.cuts;
    let variables = &root.stored.subject.variables;
    let kept = kept_of(needed.kept, definition);
    let spans = needed.region.as_slice();
    let mut lets = Vec::new(alloc);
    let mut reaches = variable_reaches(
        alloc,
        cuts,
        needed.scope,
        blocks,
        kept,
        0,
        variables,
        spans,
        &mut lets,
    )?;
    add_half_reaches(alloc, &numbers, cuts, &mut reaches)?;
    let counted = counted_loops(alloc, cuts, blocks, variables)?;
    let frame = Frame {
        numbers,
        reaches,
        counted,
    };
    Ok((frame, lets))
}

/// What is said of the loops of a definition that are split, and the lets around its nest.
pub fn frame_of(
    alloc: Global,
    root: &Root<'_>,
    needed: Needed<'_>,
    blocks: &[Option<Blocks>],
    definition: usize,
) -> Result<(Frame, Vec<Step>), Stop>
    ensures { Gives result (λ made. (sched.frame_seen made.0, made.1.items)) (parted.frame_of (stored_of root.now.stored.now) needed.entry.scope.now
        needed.entry.region.now needed.entry.kept.now blocks.now definition) }
{
    let cuts = &root.stored.placed.cuts;
    let variables = &root.stored.subject.variables;
    let extents = extents_of(alloc, needed.scope, needed.region)?;
    let numbers = loop_numbers(alloc, variables, cuts, &extents)?;
    frame_by(alloc, root, needed, blocks, definition, numbers)
}
