//! Which pieces of another function own what is fetched of it.

ghost use Rattle.std.specs.Prelude.{◌≡◌, ◌++◌, IfOk, OnOk, slice_get};
ghost use Rattle.std.specs.Option.{option_copied};
ghost use Rattle.sched.specs.Blocks as blocks;
ghost use Rattle.regions.specs.Needs as needs;
ghost use Rattle.sched.specs.Stored.{stored_of};

use crate::forms::{divided, raised_within};
use lin::{Forms, Lin, Region, Span1};
use sched::forms::between;
use sched::roots::Root;
use sched::{Loop, Split};
use std::alloc::{AllocError, Global};
use tree::token::Name;

fn factor_of(cut: &Split) -> i64
    ensures { result ≡ blocks.factor_of cut.now }
{
    i64::from(cut.factor)
}

// How many numbers of the variable a turn of the loop has, where that is the outer loop of a split of the variable.
fn split_length(variable: &Name, name: &Name, cuts: &[Split]) -> Option<i64>
    ensures { result ≡ needs.split_length variable.now name.now cuts.now }
{
    match cuts {
        [] => None,
        [cut, rest @ ..] => {
            if cut.outer.as_str() == name.as_str() && cut.whole.as_str() == variable.as_str() {
                Some(factor_of(cut))
            } else {
                split_length(variable, name, rest)
            }
        }
    }
}

// How many numbers of the variable a turn of a parallel loop has, where they are a block.
fn length_of(variable: &Name, name: &Name, cuts: &[Split]) -> Option<i64>
    ensures { result ≡ needs.length_of variable.now name.now cuts.now }
{
    if name.as_str() == variable.as_str() {
        return Some(1);
    }
    split_length(variable, name, cuts)
}

// The block that a form's number falls in; none where the form does not fall on the blocks' ends, or outside the limits of forms.
fn block_at(alloc: Global, form: &Lin, low: i64, length: i64) -> Result<Option<Lin>, AllocError>
    ensures { IfOk result (λ block. block ≡ needs.block_at low length form.now) }
{
    match raised_within(alloc, form, 0_i64.saturating_sub(low))? {
        Some(moved) => divided(alloc, &moved, length),
        None => Ok(None),
    }
}

// The blocks of these forms' numbers, behind others.
fn add_blocks(
    alloc: Global,
    made: Forms,
    forms: &[Lin],
    low: i64,
    length: i64,
) -> Result<Option<Forms>, AllocError>
    ensures { IfOk result (λ blocks. blocks ≡ needs.add_blocks low length made forms.now) }
{
    match forms {
        [] => Ok(Some(made)),
        [form, rest @ ..] => {
            let Some(block) = block_at(alloc, form, low, length)? else {
                return Ok(None);
            };
            let mut next = made;
            next.push(block)?;
            add_blocks(alloc, next, rest, low, length)
        }
    }
}

fn blocks_over(
    alloc: Global,
    span: &Span1,
    low: i64,
    length: i64,
) -> Result<Option<Span1>, AllocError>
    ensures { IfOk result (λ blocks. blocks ≡ needs.blocks_over low length span.now) }
{
    let none = Forms::new(alloc);
    let Some(lower) = add_blocks(alloc, none, span.lower.as_slice(), low, length)? else {
        return Ok(None);
    };
    let none = Forms::new(alloc);
    let Some(upper) = add_blocks(alloc, none, span.upper.as_slice(), low, length)? else {
        return Ok(None);
    };
    Ok(Some(Span1 { lower, upper }))
}

// How many numbers of its dimension a turn of a parallel loop has, where they are a block.
fn length_at(callee: &Root<'_>, one: &Loop) -> Option<i64>
    ensures { result ≡ needs.length_at (stored_of callee.now.stored.now) one.now }
{
    match callee.stored.subject.variables.get(one.dimension) {
        Some(variable) => length_of(variable, &one.name, &callee.stored.placed.cuts),
        None => None,
    }
}

// The first number of its dimension.
fn low_at(callee: &Root<'_>, one: &Loop) -> Option<i64>
    ensures { result ≡ needs.low_at callee.now.laid.now.region.items one.now }
{
    match callee.laid.region.get(one.dimension) {
        Some(extent) => Some(i64::from(extent.low)),
        None => None,
    }
}

fn span_at(region: &Region, dimension: usize) -> Option<&Span1>
    ensures { option_copied result ≡ slice_get region.now dimension }
{
    region.as_slice().get(dimension)
}

// The blocks of the region's numbers in a dimension.
fn turns_over(
    alloc: Global,
    region: &Region,
    dimension: usize,
    low: i64,
    length: i64,
) -> Result<Option<Span1>, AllocError>
    ensures { IfOk result (λ turns. turns ≡ needs.turns_over region.now dimension low length) }
{
    match span_at(region, dimension) {
        Some(span) => blocks_over(alloc, span, low, length),
        None => Ok(None),
    }
}

// The turns of a parallel loop whose blocks have a number of the region, where forms tell them.
fn turns_found(
    alloc: Global,
    callee: &Root<'_>,
    one: &Loop,
    region: &Region,
) -> Result<Option<Span1>, AllocError>
    ensures { IfOk result (λ turns. turns ≡ needs.turns_found (stored_of callee.now.stored.now) callee.now.laid.now.region.items region.now one.now) }
{
    let Some(length) = length_at(callee, one) else {
        return Ok(None);
    };
    let Some(low) = low_at(callee, one) else {
        return Ok(None);
    };
    turns_over(alloc, region, one.dimension, low, length)
}

fn all_turns(alloc: Global, count: u32) -> Result<Span1, AllocError>
    ensures { IfOk result (λ span. span ≡ needs.all_turns count) }
{
    between(alloc, 0, i64::from(count) - 1)
}

// The turns of a parallel loop that own a region: those of the blocks that hold it, or all.
fn turns_needed(
    alloc: Global,
    callee: &Root<'_>,
    one: &Loop,
    count: u32,
    region: &Region,
) -> Result<Span1, AllocError>
    ensures { IfOk result (λ span. span ≡ needs.turns_needed (stored_of callee.now.stored.now) callee.now.laid.now.region.items region.now one.now count) }
{
    match turns_found(alloc, callee, one, region)? {
        Some(found) => Ok(found),
        None => all_turns(alloc, count),
    }
}

fn first_count(counts: &[u32]) -> u32
    ensures { result ≡ needs.first_count counts.now }
{
    match counts {
        [] => 1,
        [count, ..] => *count,
    }
}

fn other_counts(counts: &[u32]) -> &[u32]
    ensures { result.now ≡ needs.other_counts counts.now }
{
    match counts {
        [] => counts,
        [_first, rest @ ..] => rest,
    }
}

// Those of each parallel loop among these.
fn add_loops(
    alloc: Global,
    callee: &Root<'_>,
    loops: &[Loop],
    counts: &[u32],
    region: &Region,
    needed: &mut Region,
) -> Result<(), AllocError>
    ensures { OnOk result (needed.new ≡ needed.old ++ needs.loops_needed (stored_of callee.now.stored.now) callee.now.laid.now.region.items region.now
        loops.now counts.now) }
{
    match loops {
        [] => Ok(()),
        [one, rest @ ..] => {
            if one.is_parallel() {
                let span = turns_needed(alloc, callee, one, first_count(counts), region)?;
                needed.push(span)?;
                add_loops(alloc, callee, rest, other_counts(counts), region, needed)
            } else {
                add_loops(alloc, callee, rest, counts, region, needed)
            }
        }
    }
}

// The one piece, where no loop is parallel.
fn or_one_piece(alloc: Global, needed: Region) -> Result<Region, AllocError>
    ensures { IfOk result (λ pieces. pieces ≡ needs.or_one_piece needed) }
{
    let mut needed = needed;
    if needed.as_slice().is_empty() {
        needed.push(between(alloc, 0, 0)?)?;
    }
    Ok(needed)
}

/// The pieces of a function that own a region of it, as far as forms tell them; else more.
pub(crate) fn pieces_of(
    alloc: Global,
    callee: &Root<'_>,
    region: &Region,
) -> Result<Region, AllocError>
    ensures { IfOk result (λ pieces. pieces ≡ needs.pieces_needed (stored_of callee.now.stored.now) callee.now.laid.now.region.items
        callee.now.laid.now.skeleton.grid.items region.now) }
{
    let mut needed = Region::new(alloc);
    let loops = &callee.stored.placed.loops;
    let counts = &callee.laid.skeleton.grid;
    add_loops(alloc, callee, loops, counts, region, &mut needed)?;
    or_one_piece(alloc, needed)
}
