//! Boxes: the points of a region whose ends are numbers.

ghost use Rattle.std.specs.Prelude.{◌≡◌, ◌≤◌, ◌<◌, ◌*◌, ◌+◌, ◌-◌, ◌^◌, ◌↔◌, IsTrue, IfOk, [], All, length, min};
ghost use Rattle.lin.specs.Forms.{IsWithin};
ghost use Rattle.plan.specs.Certificate.Cells.{grid_symbols};
ghost use Rattle.shares.specs.Walked.{IsNear};
ghost use Rattle.shares.specs.Lets.{ValuesAreSmall, symbols_at};
ghost use Rattle.shares.specs.Boxes.{AreLimited, IsLimited, IsSmall, side, sides, point_count};

use crate::forms::{Value, largest, smallest};
use lin::Span1;
use std::alloc::{AllocError, Global};

/// So many whole numbers from `low` on.
#[derive(Clone, Copy, Drop)]
pub struct Side {
    pub low: i64,
    pub count: u64,
}

/// The numbers of a span at a grid point.
pub(crate) fn side_at(span: &Span1, at: &[u64], lets: &[Value]) -> Side
    requires limits { AreLimited span.now.lower × AreLimited span.now.upper }
    requires at { IsSmall at.now }
    requires lets { ValuesAreSmall lets.now }
    ensures value { result ≡ side (symbols_at at.now lets.now) span.now }
    ensures near { IsNear result }
{
    let low = largest(&span.lower, at, lets);
    let high = smallest(&span.upper, at, lets);
    let count = if low <= high {
        (high - low + 1) as u64
    } else {
        0
    };
    Side { low, count }
}

/// The box of a region at a grid point, where further symbols have these values.
pub(crate) fn box_by(
    alloc: Global,
    region: &[Span1],
    at: &[u64],
    lets: &[Value],
) -> Result<Vec<Side>, AllocError>
    requires limits { IsLimited region.now }
    requires at { IsSmall at.now }
    requires lets { ValuesAreSmall lets.now }
    ensures sides { IfOk result (λ found. found.items ≡ sides (symbols_at at.now lets.now) region.now) }
    ensures near { IfOk result (λ found. All IsNear found.items) }
{
    let mut found = Vec::new(alloc);
    for span in region {
        found.push(side_at(span, at, lets))?;
    }
    Ok(found)
}

/// The box of a region at a grid point.
pub(crate) fn box_at(alloc: Global, region: &[Span1], at: &[u64]) -> Result<Vec<Side>, AllocError>
    requires limits { IsLimited region.now }
    requires at { IsSmall at.now }
    ensures sides { IfOk result (λ found. found.items ≡ sides (grid_symbols at.now) region.now) }
    ensures near { IfOk result (λ found. All IsNear found.items) }
{
    let sides = box_by(alloc, region, at, &[])?;
    Ok(sides)
}

/// How many points a box has, or the greatest number of the machine where it has more.
pub(crate) fn most_points(sides: &[Side]) -> u64
    ensures { result ≡ min (point_count sides.now) (2 ^ 64 - 1) }
{
    let mut count: u64 = 1;
    for side in sides {
        count = count.saturating_mul(side.count);
    }
    count
}
