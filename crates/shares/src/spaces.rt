//! Points that are numbered.

ghost use Rattle.std.specs.Prelude.{◌≡◌, ◌≤◌, ◌<◌, ◌+◌, ◌^◌, ◌↔◌, IsTrue, IfOk, [], All, length, map, filter};
ghost use Rattle.plan.specs.Symbols.{points};
ghost use Rattle.plan.specs.Certificate.Cells.{grid_symbols};
ghost use Rattle.shares.specs.Lets.{ValuesAreSmall, symbols_at};
ghost use Rattle.shares.specs.Boxes.{IsLimited, IsSmall, is_in_box, point_count};
ghost use Rattle.shares.specs.Walked.{IsExtent};
ghost use Rattle.shares.specs.Spaces.{IsSpace, HasAll, numbers_in};

use crate::boxes::{Side, box_by, most_points};
use crate::forms::Value;
use crate::walked::{shared_cells, shared_runs};
use lin::Span1;
use orders::CellRuns;
use std::alloc::{AllocError, Global};

/// The points of a box, numbered from `first` on, the first coordinate fastest.
#[derive(Drop)]
pub struct Space {
    pub first: u32,
    pub sides: Vec<Side>,
}

/// The numbers of those points of a region that a space has, and whether it has all.
#[derive(Drop)]
pub struct Found {
    pub numbers: Vec<u32>,
    pub whole: bool,
}

/// Raises each number by `first`.
fn raise(numbers: &mut [u32], first: u32)
    requires { All (λ n. first + n < 2 ^ 32) numbers.old }
    ensures { numbers.new ≡ map (λ n. first + n) numbers.old }
{
    for place in 0..numbers.len() {
        numbers[place] = first + numbers[place];
    }
}

/// The numbers, each raised by `first`.
fn raised(first: u32, numbers: Vec<u32>) -> Vec<u32>
    requires { All (λ n. first + n < 2 ^ 32) numbers.items }
    ensures { result.items ≡ map (λ n. first + n) numbers.items }
{
    let mut made = numbers;
    raise(made.as_mut_slice(), first);
    made
}

/// What is found of a region in a space that has no point.
fn none_found(
    alloc: Global,
    region: &[Span1],
    at: &[u64],
    lets: &[Value],
) -> Result<Found, AllocError>
    requires limits { IsLimited region.now }
    requires at { IsSmall at.now }
    requires lets { ValuesAreSmall lets.now }
    ensures numbers { IfOk result (λ found. found.numbers.items ≡ []) }
    ensures whole { IfOk result (λ found. IsTrue found.whole ↔ (length (points (symbols_at at.now lets.now) region.now) ≡ 0)) }
{
    let own = box_by(alloc, region, at, lets)?;
    let whole = most_points(&own) == 0;
    Ok(Found {
        numbers: Vec::new(alloc),
        whole,
    })
}

/// What is found of a region in a space whose sides are small.
fn some_found(
    alloc: Global,
    space: &Space,
    region: &[Span1],
    at: &[u64],
    lets: &[Value],
) -> Result<Found, AllocError>
    requires space { IsSpace space.now }
    requires sides { All IsExtent space.now.sides.items }
    requires limits { IsLimited region.now }
    requires at { IsSmall at.now }
    requires lets { ValuesAreSmall lets.now }
    requires dimensions { length region.now ≡ length space.now.sides.items }
    ensures numbers { IfOk result (λ found. found.numbers.items ≡ numbers_in space.now (filter (is_in_box space.now.sides.items) (points (symbols_at at.now lets.now) region.now))) }
    ensures within { IfOk result (λ found. All (λ n. n < space.now.first + point_count space.now.sides.items) found.numbers.items) }
    ensures whole { IfOk result (λ found. IsTrue found.whole ↔ HasAll space.now (points (symbols_at at.now lets.now) region.now)) }
{
    let own = box_by(alloc, region, at, lets)?;
    let shared = shared_cells(alloc, &own, &space.sides)?;
    let whole = shared.as_slice().len() as u64 == most_points(&own);
    let numbers = raised(space.first, shared);
    Ok(Found { numbers, whole })
}

/// The numbers of those points of a region that a space has, at a grid point and where further symbols have these values, in
/// the region's order, the first coordinate fastest.
///
/// The time is linear in these points.
pub(crate) fn found_by(
    alloc: Global,
    space: &Space,
    region: &[Span1],
    at: &[u64],
    lets: &[Value],
) -> Result<Found, AllocError>
    requires space { IsSpace space.now }
    requires limits { IsLimited region.now }
    requires at { IsSmall at.now }
    requires lets { ValuesAreSmall lets.now }
    requires dimensions { length region.now ≡ length space.now.sides.items }
    ensures numbers { IfOk result (λ found. found.numbers.items ≡ numbers_in space.now (filter (is_in_box space.now.sides.items) (points (symbols_at at.now lets.now) region.now))) }
    ensures within { IfOk result (λ found. All (λ n. n < space.now.first + point_count space.now.sides.items) found.numbers.items) }
    ensures whole { IfOk result (λ found. IsTrue found.whole ↔ HasAll space.now (points (symbols_at at.now lets.now) region.now)) }
{
    let count = most_points(&space.sides);
    if count == 0 {
        return none_found(alloc, region, at, lets);
    }
    some_found(alloc, space, region, at, lets)
}

/// The numbers of those points of a region at a grid point that a space has, in the region's order, the first
/// coordinate fastest.
///
/// The time is linear in these points.
pub(crate) fn found_in(
    alloc: Global,
    space: &Space,
    region: &[Span1],
    at: &[u64],
) -> Result<Found, AllocError>
    requires space { IsSpace space.now }
    requires limits { IsLimited region.now }
    requires at { IsSmall at.now }
    requires dimensions { length region.now ≡ length space.now.sides.items }
    ensures numbers { IfOk result (λ found. found.numbers.items ≡ numbers_in space.now (filter (is_in_box space.now.sides.items) (points (grid_symbols at.now) region.now))) }
    ensures within { IfOk result (λ found. All (λ n. n < space.now.first + point_count space.now.sides.items) found.numbers.items) }
    ensures whole { IfOk result (λ found. IsTrue found.whole ↔ HasAll space.now (points (grid_symbols at.now) region.now)) }
{
    let found = found_by(alloc, space, region, at, &[])?;
    Ok(found)
}

/// Those cells of a region that a space has, by runs, and whether it has all.
#[derive(Drop)]
pub struct FoundRuns {
    pub cells: CellRuns,
    pub whole: bool,
}

/// What is found by runs of a region in a space whose sides are small.
fn some_runs(
    alloc: Global,
    space: &Space,
    region: &[Span1],
    at: &[u64],
) -> Result<FoundRuns, AllocError>
    requires space { IsSpace space.now }
    requires sides { All IsExtent space.now.sides.items }
    requires limits { IsLimited region.now }
    requires at { IsSmall at.now }
    requires dimensions { length region.now ≡ length space.now.sides.items }
    ensures numbers { IfOk result (λ found. found.cells ≡ numbers_in space.now (filter (is_in_box space.now.sides.items) (points (grid_symbols at.now) region.now))) }
    ensures within { IfOk result (λ found. All (λ n. n < space.now.first + point_count space.now.sides.items) found.cells) }
    ensures whole { IfOk result (λ found. IsTrue found.whole ↔ HasAll space.now (points (grid_symbols at.now) region.now)) }
{
    let own = box_by(alloc, region, at, &[])?;
    let cells = shared_runs(alloc, &own, &space.sides, space.first)?;
    let whole = cells.len() as u64 == most_points(&own);
    Ok(FoundRuns { cells, whole })
}

/// The numbers of those points of a region at a grid point that a space has, by runs, in the region's order, the first coordinate
/// fastest.
///
/// The time is linear in the rows of these points.
pub(crate) fn runs_in(
    alloc: Global,
    space: &Space,
    region: &[Span1],
    at: &[u64],
) -> Result<FoundRuns, AllocError>
    requires space { IsSpace space.now }
    requires limits { IsLimited region.now }
    requires at { IsSmall at.now }
    requires dimensions { length region.now ≡ length space.now.sides.items }
    ensures numbers { IfOk result (λ found. found.cells ≡ numbers_in space.now (filter (is_in_box space.now.sides.items) (points (grid_symbols at.now) region.now))) }
    ensures within { IfOk result (λ found. All (λ n. n < space.now.first + point_count space.now.sides.items) found.cells) }
    ensures whole { IfOk result (λ found. IsTrue found.whole ↔ HasAll space.now (points (grid_symbols at.now) region.now)) }
{
    if most_points(&space.sides) == 0 {
        let none = none_found(alloc, region, at, &[])?;
        return Ok(FoundRuns {
            cells: CellRuns::new(alloc),
            whole: none.whole,
        });
    }
    some_runs(alloc, space, region, at)
}
