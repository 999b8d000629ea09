//! Unions of regions.

ghost use Rattle.std.specs.Prelude.{◌≡◌, IfOk, Some, None, map};
ghost use Rattle.lin.specs.declared.form.LinError.{LinError as LimitError};
ghost use Rattle.bounds.specs.Projection.Unions.{union_of, with_region, united};
ghost use Rattle.bounds.specs.Projection.Sound.{HoldsAll};

use crate::{BoundsError, choice};
use lin::{Region, Scope, Span1};
use numeric::Ty;
use std::alloc::{AllocError, Global};

/// The union of two regions, coordinate by coordinate; none where a form leaves the limits.
fn union(
    alloc: Global,
    scope: &Scope,
    first: &[Span1],
    second: &[Span1],
) -> Result<Option<Region>, AllocError>
    ensures { IfOk result (λ found. found ≡ union_of scope.now first.now second.now) }
{
    let mut made = Region::new(alloc);
    for (place, span) in first.iter().enumerate() {
        let Some(other) = second.get(place) else {
            return Ok(Some(made));
        };
        let Some(both) = choice(alloc, scope, Ty::I32, span, other)? else {
            return Ok(None);
        };
        made.push(both)?;
    }
    Ok(Some(made))
}

/// The union of a region with the next, coordinate by coordinate; one without coordinates is that of no call yet. None
/// stands for a region with a form outside the limits, and is the answer where a form of the union leaves them.
pub fn with_region(
    alloc: Global,
    scope: &Scope,
    known: Option<Region>,
    next: Option<Region>,
) -> Result<Option<Region>, AllocError>
    ensures { IfOk result (λ found. found ≡ with_region scope.now known next) }
{
    let Some(known) = known else {
        return Ok(None);
    };
    if known.as_slice().is_empty() {
        return Ok(next);
    }
    match next {
        Some(next) => union(alloc, scope, known.as_slice(), next.as_slice()),
        None => Ok(None),
    }
}

/// The union of some regions; none where a form leaves the limits.
fn union_of_all(
    alloc: Global,
    scope: &Scope,
    regions: &[Region],
) -> Result<Option<Region>, AllocError>
    ensures { IfOk result (λ found. found ≡ united scope.now (map (λ r. Some r) regions.now)) }
{
    let mut found = Some(Region::new(alloc));
    for region in regions {
        found = with_region(alloc, scope, found, Some(region.copy(alloc)?))?;
    }
    Ok(found)
}

/// The union of the regions of several calls, in their order, coordinate by coordinate; the region without coordinates is
/// that of no call. A region is to be projected before and not after, since two spans of one loop are joined as if they
/// knew nothing of each other: calls at `x` and at `1 - x` with `x` from 0 to 1 are from 0 to 1, and their union from
/// `x - 1` or `-x` to `x + 1` or `2 - x`.
///
/// # Errors
/// `Limit` where a form that a union makes is outside the limits, `Memory` where memory runs out.
pub fn united(alloc: Global, scope: &Scope, regions: &[Region]) -> Result<Region, BoundsError>
    ensures ok { IfOk result (λ found. united scope.now (map (λ r. Some r) regions.now) ≡ Some found) }
    ensures limit { result ≡ Err LimitError.Limit → united scope.now (map (λ r. Some r) regions.now) ≡ None }
    ensures sound { IfOk result (λ found. HoldsAll scope.now regions.now found) }
{
    match union_of_all(alloc, scope, regions)? {
        Some(found) => Ok(found),
        None => Err(BoundsError::Limit),
    }
}
