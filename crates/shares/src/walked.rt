//! The cells of a piece by their numbers.

ghost use Rattle.std.specs.Prelude.{◌≡◌, ◌≤◌, ◌<◌, ◌*◌, ◌+◌, ◌^◌, ◌++◌, IfOk, OnOk, ◌-◌, All, flat_map, map, length, take, drop, pos, ◌+ℤ◌, ◌-ℤ◌, ◌≤ℤ◌};
ghost use Rattle.std.specs.List.{range_with_len};
ghost use Rattle.plan.specs.Symbols.{clipped};
ghost use Rattle.shares.specs.Boxes.{point_count};
ghost use Rattle.shares.specs.Walked.{common, IsNear, IsExtent, shared_cells};

use crate::boxes::Side;
use orders::CellRuns;
use std::alloc::{AllocError, Global};

/// The numbers that two sides share.
fn common(own: Side, extent: Side) -> Side
    requires own { IsNear own }
    requires extent { IsExtent extent }
    ensures { result ≡ common own extent }
{
    let low = own.low.max(extent.low);
    let own_end = own.low + own.count as i64;
    let end = own_end.min(extent.low + extent.count as i64);
    let count = if low < end { (end - low) as u64 } else { 0 };
    Side { low, count }
}

/// Numbers the cells from this place on one after another, from `first` on.
fn number_cells(cells: &mut [u32], begun: usize, first: u32)
    requires begun { begun ≤ length cells.old }
    requires last { first + (length cells.old - begun) < 2 ^ 32 }
    ensures { cells.new ≡ take begun cells.old ++ range_with_len first (length cells.old - begun) }
{
    for place in begun..cells.len() {
        cells[place] = first + (place - begun) as u32;
    }
}

/// Adds so many numbers from `first` on.
pub(crate) fn push_row(cells: &mut Vec<u32>, first: u32, count: u32) -> Result<(), AllocError>
    requires { first + count < 2 ^ 32 }
    ensures { OnOk result (cells.new.items ≡ cells.old.items ++ range_with_len first count) }
{
    let begun = cells.len();
    cells.resize(begun + count as usize, 0)?;
    number_cells(cells.as_mut_slice(), begun, first);
    Ok(())
}

/// For each of some numbers the row of so many numbers that begins at `offset` and so many times the extent.
fn rows_of(
    alloc: Global,
    rows: &[u32],
    offset: u32,
    count: u32,
    extent: u32,
) -> Result<Vec<u32>, AllocError>
    requires { All (λ m. offset + count + extent * m < 2 ^ 32) rows.now }
    ensures { IfOk result (λ cells. cells.items ≡ flat_map (λ m. range_with_len (offset + extent * m) count) rows.now) }
{
    let mut cells = Vec::with_capacity(alloc, rows.len().saturating_mul(count as usize))?;
    for row in rows {
        push_row(&mut cells, offset + extent * *row, count)?;
    }
    Ok(cells)
}

/// The numbers of a box that part of its first side and some numbers of its other coordinates make.
fn rows_within(
    alloc: Global,
    rows: &[u32],
    part: Side,
    extent: Side,
) -> Result<Vec<u32>, AllocError>
    requires extent { IsExtent extent }
    requires low { extent.low ≤ℤ part.low }
    requires high { (part.low +ℤ pos part.count) ≤ℤ (extent.low +ℤ pos extent.count) }
    requires rows { All (λ m. extent.count * (m + 1) ≤ 2 ^ 24) rows.now }
    ensures { IfOk result (λ cells. cells.items ≡ flat_map (λ m. range_with_len (clipped (part.low -ℤ extent.low) + extent.count * m) part.count) rows.now) }
{
    let offset = (part.low - extent.low) as u32;
    rows_of(alloc, rows, offset, part.count as u32, extent.count as u32)
}

/// The numbers in a box of the points that another box shares with it, over the coordinates from this one on.
fn shared_from(
    alloc: Global,
    own: &[Side],
    extents: &[Side],
    place: usize,
) -> Result<Vec<u32>, AllocError>
    requires own { All IsNear own.now }
    requires extents { All IsExtent extents.now }
    requires dimensions { length own.now ≡ length extents.now }
    requires place { place ≤ length own.now }
    requires count { point_count (drop place extents.now) ≤ 2 ^ 24 }
    ensures cells { IfOk result (λ cells. cells.items ≡ shared_cells (drop place own.now) (drop place extents.now)) }
    ensures within { IfOk result (λ cells. All (λ n. n < point_count (drop place extents.now)) cells.items) }
{
    if place == own.len() {
        return Ok(vec![in alloc; 0]?);
    }
    let extent = extents[place];
    let both = common(own[place], extent);
    if both.count == 0 {
        return Ok(Vec::new(alloc));
    }
    let rows = shared_from(alloc, own, extents, place + 1)?;
    rows_within(alloc, &rows, both, extent)
}

/// The numbers in a box of the points that another box shares with it, the first coordinate fastest.
///
/// The time is linear in these points.
pub(crate) fn shared_cells(
    alloc: Global,
    own: &[Side],
    extents: &[Side],
) -> Result<Vec<u32>, AllocError>
    requires own { All IsNear own.now }
    requires extents { All IsExtent extents.now }
    requires dimensions { length own.now ≡ length extents.now }
    requires count { point_count extents.now ≤ 2 ^ 24 }
    ensures cells { IfOk result (λ cells. cells.items ≡ shared_cells own.now extents.now) }
    ensures within { IfOk result (λ cells. All (λ n. n < point_count extents.now) cells.items) }
{
    shared_from(alloc, own, extents, 0)
}

/// For each of some numbers the row of so many numbers that begins at `offset` and so many times the extent.
fn runs_of(
    alloc: Global,
    rows: &[u32],
    offset: u32,
    count: u32,
    extent: u32,
) -> Result<CellRuns, AllocError>
    requires rows { All (λ m. offset + count + extent * m < 2 ^ 32) rows.now }
    requires few { length rows.now * count < 2 ^ 32 }
    ensures { IfOk result (λ cells. cells ≡ flat_map (λ m. range_with_len (offset + extent * m) count) rows.now) }
{
    let mut cells = CellRuns::with_capacity(alloc, rows.len())?;
    for row in rows {
        cells.push(offset + extent * *row, count)?;
    }
    Ok(cells)
}

/// The numbers, raised by `first`, of a box that part of its first side and some numbers of its other coordinates make.
fn runs_within(
    alloc: Global,
    rows: &[u32],
    part: Side,
    extent: Side,
    first: u32,
) -> Result<CellRuns, AllocError>
    requires extent { IsExtent extent }
    requires low { extent.low ≤ℤ part.low }
    requires high { (part.low +ℤ pos part.count) ≤ℤ (extent.low +ℤ pos extent.count) }
    requires rows { All (λ m. extent.count * (m + 1) ≤ 2 ^ 24) rows.now }
    requires few { length rows.now * part.count ≤ 2 ^ 24 }
    requires first { first ≤ 2 ^ 24 }
    ensures { IfOk result (λ cells. cells ≡ flat_map (λ m. range_with_len (first + clipped (part.low -ℤ extent.low) + extent.count * m) part.count) rows.now) }
{
    let offset = (part.low - extent.low) as u32;
    runs_of(
        alloc,
        rows,
        first + offset,
        part.count as u32,
        extent.count as u32,
    )
}

/// The numbers, raised by `first`, in a box of the points that another box shares with it, the first coordinate fastest.
///
/// The time is linear in the rows of these points, and so is the memory.
pub(crate) fn shared_runs(
    alloc: Global,
    own: &[Side],
    extents: &[Side],
    first: u32,
) -> Result<CellRuns, AllocError>
    requires own { All IsNear own.now }
    requires extents { All IsExtent extents.now }
    requires dimensions { length own.now ≡ length extents.now }
    requires few { first + point_count extents.now ≤ 2 ^ 24 }
    ensures { IfOk result (λ cells. cells ≡ map (λ n. first + n) (shared_cells own.now extents.now)) }
{
    if own.is_empty() {
        let mut cells = CellRuns::new(alloc);
        cells.push(first, 1)?;
        return Ok(cells);
    }
    let both = common(own[0], extents[0]);
    if both.count == 0 {
        return Ok(CellRuns::new(alloc));
    }
    let rows = shared_from(alloc, own, extents, 1)?;
    runs_within(alloc, &rows, both, extents[0], first)
}
