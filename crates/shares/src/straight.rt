//! Regions whose points follow one another in a space: all coordinates but the first have one number.

ghost use Rattle.std.specs.Prelude.{◌≡◌, ◌≤◌, ◌<◌, ◌+◌, ◌*◌, ◌^◌, ◌≤ℤ◌, ◌-ℤ◌, ◌+ℤ◌, pos, IsTrue, IfSome, All, length, drop};
ghost use Rattle.std.specs.List.{range_with_len};
ghost use Rattle.plan.specs.Symbols.{clipped, points};
ghost use Rattle.plan.specs.Certificate.Cells.{grid_symbols};
ghost use Rattle.shares.specs.Boxes.{IsLimited, IsSmall, point_count, sides};
ghost use Rattle.shares.specs.Spaces.{HasAll, IsSpace, numbers_in};
ghost use Rattle.shares.specs.Walked.{IsExtent, IsNear, shared_cells};

use crate::boxes::{Side, most_points, side_at};
use crate::spaces::Space;
use lin::Span1;

/// So many numbers from `first` on.
#[derive(Clone, Copy, Drop)]
pub struct Row {
    pub first: u32,
    pub count: u32,
}

/// Whether the numbers of a side are numbers of an extent. A yes is sure.
fn is_within(part: Side, extent: Side) -> bool
    requires part { IsNear part }
    requires extent { IsExtent extent }
    ensures low { IsTrue result → extent.low ≤ℤ part.low }
    ensures high { IsTrue result → (part.low +ℤ pos part.count) ≤ℤ (extent.low +ℤ pos extent.count) }
{
    if part.low < extent.low {
        return false;
    }
    part.low + part.count as i64 <= extent.low + extent.count as i64
}

/// The row that part of the first side of a box makes, at one number of its other coordinates.
fn row_at(part: Side, extent: Side, rest: u32) -> Row
    requires extent { IsExtent extent }
    requires low { extent.low ≤ℤ part.low }
    requires high { (part.low +ℤ pos part.count) ≤ℤ (extent.low +ℤ pos extent.count) }
    requires rest { extent.count * (rest + 1) ≤ 2 ^ 24 }
    ensures { result ≡ record { first = clipped (part.low -ℤ extent.low) + extent.count * rest; count = part.count } }
{
    let offset = (part.low - extent.low) as u32;
    Row {
        first: offset + extent.count as u32 * rest,
        count: part.count as u32,
    }
}

/// The row that part of the first side of a box makes at a row of its other coordinates, where that is one number.
fn row_behind(part: Side, extent: Side, rest: Row) -> Option<Row>
    requires extent { IsExtent extent }
    requires low { extent.low ≤ℤ part.low }
    requires high { (part.low +ℤ pos part.count) ≤ℤ (extent.low +ℤ pos extent.count) }
    requires rest { extent.count * (rest.first + rest.count) ≤ 2 ^ 24 }
    ensures one { IfSome result (λ _. rest.count ≡ 1) }
    ensures row { IfSome result (λ row. row ≡ record { first = clipped (part.low -ℤ extent.low) + extent.count * rest.first; count = part.count }) }
{
    if rest.count != 1 {
        return None;
    }
    Some(row_at(part, extent, rest.first))
}

/// The numbers in a box of the points that a region has over the coordinates from this one on, where the box has them all and they
/// follow one another.
fn row_from(region: &[Span1], at: &[u64], extents: &[Side], place: usize) -> Option<Row>
    requires limits { IsLimited region.now }
    requires at { IsSmall at.now }
    requires extents { All IsExtent extents.now }
    requires some { All (λ s. 1 ≤ s.count) extents.now }
    requires dimensions { length region.now ≡ length extents.now }
    requires place { place ≤ length region.now }
    requires few { point_count (drop place extents.now) ≤ 2 ^ 24 }
    ensures cells { IfSome result (λ row. shared_cells (drop place (sides (grid_symbols at.now) region.now)) (drop place extents.now) ≡ range_with_len row.first row.count) }
    ensures count { IfSome result (λ row. point_count (drop place (sides (grid_symbols at.now) region.now)) ≡ row.count) }
    ensures within { IfSome result (λ row. row.first + row.count ≤ point_count (drop place extents.now)) }
{
    if place == region.len() {
        return Some(Row { first: 0, count: 1 });
    }
    let extent = extents[place];
    let part = side_at(&region[place], at, &[]);
    if !is_within(part, extent) {
        return None;
    }
    match row_from(region, at, extents, place + 1) {
        Some(rest) => row_behind(part, extent, rest),
        None => None,
    }
}

/// The numbers of the points of a region at a grid point, where a space has them all and they follow one another. It takes no
/// memory.
pub(crate) fn row_in(space: &Space, region: &[Span1], at: &[u64]) -> Option<Row>
    requires space { IsSpace space.now }
    requires limits { IsLimited region.now }
    requires at { IsSmall at.now }
    requires dimensions { length region.now ≡ length space.now.sides.items }
    ensures numbers { IfSome result (λ row. range_with_len row.first row.count ≡ numbers_in space.now (points (grid_symbols at.now) region.now)) }
    ensures whole { IfSome result (λ _. HasAll space.now (points (grid_symbols at.now) region.now)) }
    ensures small { IfSome result (λ row. row.first + row.count < 2 ^ 32) }
{
    if most_points(&space.sides) == 0 {
        return None;
    }
    let row = row_from(region, at, &space.sides, 0)?;
    Some(Row {
        first: space.first + row.first,
        count: row.count,
    })
}
