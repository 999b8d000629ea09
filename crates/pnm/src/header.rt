//! The numbers of a header.

ghost use Rattle.std.specs.Prelude.{◌≡◌};
ghost use Rattle.meaning.specs.Image.View.{shape_of, IsShape, max_sample};
ghost use Rattle.pnm.specs.Reading.{has_colours, height_of, wanted_of, width_of};

use crate::state::Wanted;
use meaning::image::{Shape, Ty};

pub(crate) fn width_of(extents: &[u32]) -> u32
    ensures { result ≡ width_of extents.now }
{
    match extents {
        [width, ..] => *width,
        [] => 1,
    }
}

/// One row is an image of height 1.
pub(crate) fn height_of(extents: &[u32]) -> u32
    ensures { result ≡ height_of extents.now }
{
    match extents {
        [_, height, ..] => *height,
        _ => 1,
    }
}

pub(crate) fn has_colours(extents: &[u32]) -> bool
    ensures { result ≡ has_colours extents.now }
{
    matches!(extents, [_, _, _, ..])
}

pub(crate) fn max_sample(ty: Ty) -> u32
    ensures { result ≡ max_sample ty }
{
    match ty {
        Ty::U8 => 255,
        _ => 65535,
    }
}

/// What the file of an image of the shape has to say.
pub(crate) fn wanted(shape: &Shape) -> Wanted
    requires { IsShape (shape_of shape.now) }
    ensures { result ≡ wanted_of (shape_of shape.now) }
{
    let extents = shape.extents.as_slice();
    Wanted {
        has_colours: has_colours(extents),
        width: width_of(extents),
        height: height_of(extents),
        max_sample: max_sample(shape.ty),
        count: shape.sample_count(),
    }
}
