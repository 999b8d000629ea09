//! The points that are asked for of each function and of the input, from the output backwards. Nothing is promised of them:
//! whether they are closed is tested when all are found.

ghost use Rattle.std.specs.Prelude.{◌<◌, length};
ghost use Rattle.algo.specs.View.{algorithm_of};

use crate::callees::{Callees, function_at};
use crate::cut::Stretch;
use crate::inference::needed;
use crate::numbers::small;
use crate::regions::{region_of, region_with, update_names};
use algo::{Algo, Function, Update};
use bounds::{BoundsError, constant_ends, interval};
use lin::{Region, Scope, Span1};
use std::alloc::{AllocError, Global};
use tree::Expr;

/// How often what a function's own calls ask for is added, before it is taken to be everything.
const MOST_ROUNDS: usize = 8;

/// All numbers of i32.
const ALL: Stretch = Stretch {
    low: i32::MIN,
    high: i32::MAX,
};

/// The points that are asked for of each function, none of one that is not called, and of the input.
#[derive(Drop)]
pub(crate) struct Asked {
    pub functions: Vec<Option<Vec<Stretch>>>,
    pub input: Option<Vec<Stretch>>,
}

// The constant ends of a span; all numbers where there are none of i32.
fn stretch_of(alloc: Global, span: &Span1) -> Result<Stretch, AllocError> {
    let Some(ends) = constant_ends(alloc, &Scope::new(alloc), span)? else {
        return Ok(ALL);
    };
    Ok(match (small(ends.low), small(ends.high)) {
        (Some(low), Some(high)) => Stretch { low, high },
        _ => ALL,
    })
}

fn boxed(alloc: Global, region: &Region) -> Result<Vec<Stretch>, AllocError> {
    let mut found = Vec::new(alloc);
    for span in region.as_slice() {
        found.push(stretch_of(alloc, span)?)?;
    }
    Ok(found)
}

fn everything(alloc: Global, count: usize) -> Result<Vec<Stretch>, AllocError> {
    let mut found = Vec::new(alloc);
    for _ in 0..count {
        found.push(ALL)?;
    }
    Ok(found)
}

// Both stretches and what lies between them.
fn hull(first: Stretch, second: Stretch) -> Stretch {
    Stretch {
        low: first.low.min(second.low),
        high: first.high.max(second.high),
    }
}

fn hulls(alloc: Global, first: &[Stretch], second: &[Stretch]) -> Result<Vec<Stretch>, AllocError> {
    let mut wide = Vec::new(alloc);
    for (one, other) in first.iter().zip(second.iter()) {
        wide.push(hull(*one, *other))?;
    }
    Ok(wide)
}

// Adds what is needed to what is asked for; a region without coordinates is that of no call.
fn widened(
    alloc: Global,
    known: Option<Vec<Stretch>>,
    found: Vec<Stretch>,
) -> Result<Option<Vec<Stretch>>, AllocError> {
    if found.is_empty() {
        return Ok(known);
    }
    match known {
        None => Ok(Some(found)),
        Some(known) => Ok(Some(hulls(alloc, &known, &found)?)),
    }
}

// What the k-th function needs of what has the name; everything where no region is found.
fn needed_box(
    alloc: Global,
    algo: &Algo,
    number: usize,
    name: &str,
    count: usize,
    region: &[Stretch],
) -> Result<Vec<Stretch>, AllocError>
    requires { number < length (algorithm_of algo.now).functions }
{
    let region = region_of(alloc, region)?;
    match needed(alloc, &Scope::new(alloc), algo, number, name, &region) {
        Ok(found) => boxed(alloc, &found),
        Err(BoundsError::Limit) => everything(alloc, count),
        Err(BoundsError::Memory) => Err(AllocError),
    }
}

// The numbers that an index takes.
fn index_stretch(
    alloc: Global,
    names: &Callees<'_>,
    region: &Region,
    index: &Expr,
) -> Result<Stretch, AllocError> {
    match interval(
        alloc,
        &Scope::new(alloc),
        index,
        names,
        names.variables,
        region,
    ) {
        Ok(span) => stretch_of(alloc, &span),
        Err(BoundsError::Limit) => Ok(ALL),
        Err(BoundsError::Memory) => Err(AllocError),
    }
}

// The places that an update sets.
fn left_box(
    alloc: Global,
    algo: &Algo,
    number: usize,
    function: &Function,
    update: &Update,
    region: &[Stretch],
) -> Result<Vec<Stretch>, AllocError>
    requires { number < length (algorithm_of algo.now).functions }
{
    let variables = update_names(alloc, &function.variables, &update.ranges)?;
    let around = region_with(alloc, region, &update.ranges)?;
    let names = Callees {
        algo,
        count: number,
        variables: &variables,
    };
    let mut found = Vec::new(alloc);
    for index in &update.at {
        found.push(index_stretch(alloc, &names, &around, index)?)?;
    }
    Ok(found)
}

// A function's region with the places that its updates set, and with what its own calls need.
fn with_own(
    alloc: Global,
    algo: &Algo,
    number: usize,
    region: Vec<Stretch>,
) -> Result<Vec<Stretch>, AllocError>
    requires { number < length (algorithm_of algo.now).functions }
{
    let (name, function) = function_at(algo, number);
    let count = region.len();
    let own = needed_box(alloc, algo, number, name.as_str(), count, &region)?;
    let mut wide = if own.is_empty() {
        region
    } else {
        hulls(alloc, &region, &own)?
    };
    for update in &function.updates {
        let left = left_box(alloc, algo, number, function, update, &wide)?;
        wide = hulls(alloc, &wide, &left)?;
    }
    Ok(wide)
}

fn is_same(first: &[Stretch], second: &[Stretch]) -> bool {
    first.len() == second.len()
        && first
            .iter()
            .zip(second.iter())
            .all(|(one, other)| one == other)
}

// The region closed over the function's own calls.
fn closed(
    alloc: Global,
    algo: &Algo,
    number: usize,
    region: Vec<Stretch>,
) -> Result<Vec<Stretch>, AllocError>
    requires { number < length (algorithm_of algo.now).functions }
{
    let mut known = region;
    for _round in 0..MOST_ROUNDS {
        let mut before = Vec::new(alloc);
        for stretch in &known {
            before.push(*stretch)?;
        }
        known = with_own(alloc, algo, number, known)?;
        if is_same(&before, &known) {
            return Ok(known);
        }
    }
    everything(alloc, known.len())
}

// The number of the output's function.
fn output_number(algo: &Algo) -> Option<usize> {
    algo.funcs().get_index_of(&algo.output().name)
}

// What the k-th function needs of those before it.
fn add_needed(
    alloc: Global,
    algo: &Algo,
    number: usize,
    region: &[Stretch],
    asked: &mut Asked,
) -> Result<(), AllocError>
    requires { number < length (algorithm_of algo.now).functions }
{
    for callee in 0..number {
        let (name, function) = function_at(algo, callee);
        let count = function.variables.len();
        let found = needed_box(alloc, algo, number, name.as_str(), count, region)?;
        if let Some(slot) = asked.functions.get_mut(callee) {
            let known = slot.take();
            *slot = widened(alloc, known, found)?;
        }
    }
    let input = algo.input();
    let count = input.shape.extents.len();
    let found = needed_box(alloc, algo, number, input.name.as_str(), count, region)?;
    let known = asked.input.take();
    asked.input = widened(alloc, known, found)?;
    Ok(())
}

fn copied(alloc: Global, stretches: &[Stretch]) -> Result<Vec<Stretch>, AllocError> {
    let mut copy = Vec::new(alloc);
    for stretch in stretches {
        copy.push(*stretch)?;
    }
    Ok(copy)
}

// What the k-th function needs, if any of its points is asked for.
fn add_asked(alloc: Global, algo: &Algo, number: usize, asked: &mut Asked) -> Result<(), AllocError>
    requires { number < length (algorithm_of algo.now).functions }
{
    let region = match asked.functions.get_mut(number) {
        Some(slot) => slot.take(),
        None => None,
    };
    let Some(region) = region else {
        return Ok(());
    };
    let region = closed(alloc, algo, number, region)?;
    add_needed(alloc, algo, number, &region, asked)?;
    if let Some(slot) = asked.functions.get_mut(number) {
        *slot = Some(region);
    }
    Ok(())
}

// No points of any function, but those of the tile of the output.
fn tile_asked(alloc: Global, algo: &Algo, tile: &[Stretch]) -> Result<Asked, AllocError> {
    let mut functions = Vec::new(alloc);
    for _number in 0..algo.funcs().len() {
        functions.push(None)?;
    }
    if let Some(output) = output_number(algo) {
        if let Some(slot) = functions.get_mut(output) {
            *slot = Some(copied(alloc, tile)?);
        }
    }
    Ok(Asked {
        functions,
        input: None,
    })
}

/// The points that are asked for, where those of the tile are asked for of the output.
pub(crate) fn all_asked(alloc: Global, algo: &Algo, tile: &[Stretch]) -> Result<Asked, AllocError> {
    let mut asked = tile_asked(alloc, algo, tile)?;
    let count = algo.funcs().len();
    for place in 0..count {
        add_asked(alloc, algo, count - 1 - place, &mut asked)?;
    }
    Ok(asked)
}
