//! Whether a span lies in another.

ghost use Rattle.std.specs.Prelude.{◌≡◌, [], ◌∷◌, IfOk};
ghost use Rattle.lin.specs.Regions.{span_inside};

use lin::{Region, Scope, Span1};
use std::alloc::{AllocError, Global};

/// The region of one span.
fn alone(alloc: Global, span: &Span1) -> Result<Region, AllocError>
    ensures { IfOk result (λ region. region ≡ span.now ∷ []) }
{
    let mut region = Region::new(alloc);
    region.push(span.copy(alloc)?)?;
    Ok(region)
}

/// Whether each number of a span is shown to be one of another.
pub(crate) fn is_inside(
    alloc: Global,
    scope: &Scope,
    inner: &Span1,
    outer: &Span1,
) -> Result<bool, AllocError>
    ensures { IfOk result (λ yes. yes ≡ span_inside scope.now inner.now outer.now) }
{
    scope.inside(alloc, &alone(alloc, inner)?, &alone(alloc, outer)?)
}
