//! The numbers of a function's loops over its region, and how many pieces its parallel loops make.

ghost use Rattle.std.specs.Prelude.{◌≡◌, IfOk};
ghost use Rattle.sched.specs.Numbers as spec;

use crate::placing::{Loop, is_shifted};
use crate::schedule::Split;
use std::alloc::{AllocError, Global};
use tree::token::Name;

/// One dimension of a region: so many numbers from the lowest on.
#[derive(Clone, Copy, Drop)]
pub struct Extent {
    pub low: i32,
    pub count: u32,
}

/// The numbers of a loop: so many from the lowest on.
#[derive(Clone, Copy, Drop)]
pub struct Numbers {
    pub name: Name,
    pub low: i32,
    pub count: u32,
}

// How many blocks of so many numbers hold them.
#[tactic(auto, using(crate::proofs::Counts::few_blocks))]
fn blocks(count: u32, factor: u32) -> u32
    ensures { result ≡ spec.blocks count factor }
{
    if count == 0 || factor == 0 {
        0
    } else {
        (count - 1) / factor + 1
    }
}

fn numbers_found(numbers: &[Numbers], name: &Name) -> Option<Numbers>
    ensures { result ≡ spec.numbers_found numbers.now name.now }
{
    numbers
        .iter()
        .copied()
        .find(|one| one.name.as_str() == name.as_str())
}

pub(crate) fn numbers_named(numbers: &[Numbers], name: &Name) -> Numbers
    ensures { result ≡ spec.numbers_named numbers.now name.now }
{
    match numbers_found(numbers, name) {
        Some(one) => one,
        None => Numbers {
            name: *name,
            low: 0,
            count: 0,
        },
    }
}

// The variables run over the region.
#[tactic(auto, using(crate::proofs::Counts::whole_next, crate::proofs::Counts::whole_ends))]
fn whole_numbers(
    alloc: Global,
    variables: &[Name],
    region: &[Extent],
) -> Result<Vec<Numbers>, AllocError>
    ensures { IfOk result (λ v. v.items ≡ spec.whole_numbers variables.now region.now) }
{
    let mut numbers = Vec::new(alloc);
    let mut next = region;
    for name in variables {
        match next {
            [extent, others @ ..] => {
                numbers.push(Numbers {
                    name: *name,
                    low: extent.low,
                    count: extent.count,
                })?;
                next = others;
            }
            [] => return Ok(numbers),
        }
    }
    Ok(numbers)
}

// With those of the loops that the splits make.
#[tactic(auto, using(crate::proofs::Counts::cut_next))]
fn cut_numbers(cuts: &[Split], whole: Vec<Numbers>) -> Result<Vec<Numbers>, AllocError>
    ensures { IfOk result (λ v. v.items ≡ spec.cut_numbers cuts.now whole.items) }
{
    let mut numbers = whole;
    for cut in cuts {
        let count = numbers_named(&numbers, &cut.whole).count;
        numbers.push(Numbers {
            name: cut.outer,
            low: 0,
            count: blocks(count, cut.factor),
        })?;
        numbers.push(Numbers {
            name: cut.inner,
            low: 0,
            count: cut.factor,
        })?;
    }
    Ok(numbers)
}

/// What the loops of a function, also those that were split, run over in its region: the variables over its dimensions, the
/// outer loop of a split from 0 over as many blocks as hold all numbers, the inner one from 0 over the numbers of a block.
pub fn loop_numbers(
    alloc: Global,
    variables: &[Name],
    cuts: &[Split],
    region: &[Extent],
) -> Result<Vec<Numbers>, AllocError>
    ensures { IfOk result (λ v. v.items ≡ spec.loop_numbers variables.now cuts.now region.now) }
{
    let whole = whole_numbers(alloc, variables, region)?;
    cut_numbers(cuts, whole)
}

// How many turns each parallel loop has.
#[tactic(auto, using(crate::proofs::Counts::parallel_next, crate::proofs::Counts::parallel_not))]
fn grid_counts(alloc: Global, numbers: &[Numbers], loops: &[Loop]) -> Result<Vec<u32>, AllocError>
    ensures { IfOk result (λ v. v.items ≡ spec.grid_counts numbers.now (spec.parallel_loops loops.now)) }
{
    let mut counts = Vec::new(alloc);
    for one in loops {
        if one.is_parallel() {
            counts.push(numbers_named(numbers, &one.name).count)?;
        }
    }
    Ok(counts)
}

/// The grid of a root function's pieces: how many turns each parallel loop has, the innermost first, and 1 where none is.
pub fn piece_counts(
    alloc: Global,
    numbers: &[Numbers],
    loops: &[Loop],
) -> Result<Vec<u32>, AllocError>
    ensures { IfOk result (λ v. v.items ≡ spec.piece_counts numbers.now loops.now) }
{
    let mut counts = grid_counts(alloc, numbers, loops)?;
    if counts.is_empty() {
        counts.push(1)?;
    }
    Ok(counts)
}

fn is_too_short(numbers: &[Numbers], split: &Split) -> bool
    ensures { result ≡ spec.is_too_short numbers.now split.now }
{
    is_shifted(split) && numbers_named(numbers, &split.whole).count < split.factor
}

/// Whether some loop that was split with `shift` has fewer numbers than a block: L8 over this region.
pub fn has_short_shift(numbers: &[Numbers], cuts: &[Split]) -> bool
    ensures { result ≡ spec.has_short_shift numbers.now cuts.now }
{
    cuts.iter().any(|split| is_too_short(numbers, split))
}
