//! What an image is to be like.

ghost use Rattle.std.specs.Prelude.{◌≡◌, ◌↔◌, IsTrue, IfOk};

use crate::image::extents::are_extents;
use numeric::Ty;
use std::alloc::{AllocError, Global};

/// The type of an image's samples, and how many samples it has along each dimension:
/// the width, then the height, then the number of colours.
#[derive(Debug, PartialEq, Eq, Drop)]
pub struct Shape {
    pub ty: Ty,
    pub extents: Vec<u32>,
}

impl Shape {
    ghost use Rattle.meaning.specs.Image.Raster.{sample_count};
    ghost use Rattle.meaning.specs.Image.View.{shape_of, IsShape};

    /// Whether an image can have the shape: samples of type `u8` or `u16`; one or two extents from 1 to 8192,
    /// or such a width and height and three colours.
    pub fn is_valid(&self) -> bool
        ensures { IsTrue result ↔ IsShape (shape_of self.now) }
    {
        let ty = matches!(self.ty, Ty::U8 | Ty::U16);
        ty && are_extents(self.extents.as_slice())
    }

    /// How many samples an image of the shape has.
    pub fn sample_count(&self) -> usize
        requires { IsShape (shape_of self.now) }
        ensures { result ≡ sample_count self.now.extents.items }
    {
        match self.extents.as_slice() {
            [width] => *width as usize,
            [width, height] => *width as usize * *height as usize,
            [width, height, colours] => *width as usize * *height as usize * *colours as usize,
            _ => unreachable!(),
        }
    }

    /// The same shape again.
    pub fn copy(&self, alloc: Global) -> Result<Shape, AllocError>
        ensures { IfOk result (λ copy. shape_of copy ≡ shape_of self.now) }
    {
        let extents = self.extents.as_slice().to_vec(alloc)?;
        Ok(Shape {
            ty: self.ty,
            extents,
        })
    }
}
