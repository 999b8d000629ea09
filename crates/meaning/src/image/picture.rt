//! An image.

ghost use Rattle.std.specs.Prelude.{◌≡◌, ◌↔◌, IsTrue};

use crate::image::extents::place_of;
use crate::image::samples::Samples;
use crate::image::shape::Shape;
use numeric::Ty;

/// An image with the type of its samples, its extents (width, height and colours, as many as it has), and its samples.
#[derive(Drop)]
pub struct Image {
    pub ty: Ty,
    pub extents: Vec<u32>,
    pub samples: Samples,
}

impl Image {
    ghost use Rattle.meaning.specs.Image.Raster.{sample};
    ghost use Rattle.meaning.specs.Image.View.{image_of, numbers, shape_of, AreExtents, HasShape, IsShape};

    /// Whether the image has the shape: its type, its extents, and as many samples as they make, each in the type's range.
    pub fn has_shape(&self, shape: &Shape) -> bool
        requires { IsShape (shape_of shape.now) }
        ensures { IsTrue result ↔ HasShape (shape_of shape.now) (image_of self.now) }
    {
        self.ty == shape.ty
            && self.extents == shape.extents
            && self.samples.len() == shape.sample_count()
            && self.samples.are_of(self.ty)
    }

    /// The sample at a point, and 0 where the point does not lie on the extents.
    pub fn sample(&self, at: &[i64]) -> i64
        requires { AreExtents self.now.extents.items }
        ensures { result ≡ sample self.now.extents.items (numbers self.now.samples) at.now }
    {
        match place_of(self.extents.as_slice(), at) {
            Some(place) => i64::from(self.samples.at(place)),
            None => 0,
        }
    }
}
