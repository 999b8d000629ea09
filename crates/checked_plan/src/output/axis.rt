//! The coordinates of a region.

ghost use Rattle.std.specs.Prelude.{◌≡◌, ◌≤◌, ◌^◌, All, IfOk, IsTrue};
ghost use Rattle.std.specs.List.{AllByRecursion};
ghost use Rattle.checked_plan.specs.Output.Axes.{IsNear, IsOn, axes_of, axis_of, from_zero, is_on, point_count, rank_of};
ghost use Rattle.checked_plan.specs.Ready.Ready.{IsSmallSpan};

use crate::output::ends::{high_end, low_end};
use lin::Span1;
use std::alloc::{AllocError, Global};

/// A coordinate of a region: its low end and how many whole numbers it has from there on.
#[derive(Clone, Copy, PartialEq, Eq, Drop)]
pub struct Axis {
    pub low: i64,
    pub count: u32,
}

/// The coordinate that a span with constant ends is.
fn axis_of(span: &Span1) -> Axis
    requires { IsSmallSpan span.now }
    ensures { result ≡ axis_of span.now }
{
    let low = low_end(span);
    let high = high_end(span);
    let count = (high - low + 1) as u32;
    Axis { low, count }
}

/// The coordinates of a region.
pub(crate) fn axes_of(alloc: Global, region: &[Span1]) -> Result<Vec<Axis>, AllocError>
    requires { All IsSmallSpan region.now }
    ensures { IfOk result (λ axes. axes.items ≡ axes_of region.now) }
{
    let mut axes = Vec::new(alloc);
    for span in region {
        axes.push(axis_of(span))?;
    }
    Ok(axes)
}

/// How many points of a region come before a point of it, the first coordinate fastest.
pub(crate) fn rank_of(axes: &[Axis], at: &[i64]) -> u32
    requires on { ∥ IsOn axes.now at.now ∥₁ }
    requires few { point_count axes.now ≤ 2 ^ 24 }
    ensures { result ≡ rank_of axes.now at.now }
{
    let mut rank = 0;
    for place in (0..axes.len()).rev() {
        let axis = axes[place];
        rank = (at[place] - axis.low) as u32 + axis.count * rank;
    }
    rank
}

/// Whether the numbers are of these coordinates, one of each.
pub(crate) fn is_on(axes: &[Axis], at: &[i64]) -> bool
    requires { AllByRecursion IsNear axes.now }
    ensures { result ≡ is_on axes.now at.now }
{
    match axes {
        [] => at.is_empty(),
        [axis, axes @ ..] => match at {
            [] => false,
            [z, at @ ..] => {
                axis.low <= *z && *z < axis.low + i64::from(axis.count) && is_on(axes, at)
            }
        },
    }
}

/// Whether the numbers of each coordinate are those from 0 on, as many as its extent has.
pub(crate) fn are_from_zero(axes: &[Axis], extents: &[u32]) -> bool
    ensures { IsTrue result → axes.now ≡ from_zero extents.now }
{
    match axes {
        [] => extents.is_empty(),
        [axis, axes @ ..] => match extents {
            [] => false,
            [extent, extents @ ..] => {
                axis.low == 0 && axis.count == *extent && are_from_zero(axes, extents)
            }
        },
    }
}
