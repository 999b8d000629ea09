//! Images: samples of 8 or 16 bits over one, two or three dimensions, in raster order.

mod extents;
pub mod laws;
pub mod picture;
pub mod samples;
pub mod shape;

pub use numeric::Ty;
pub use picture::Image;
pub use samples::Samples;
pub use shape::Shape;
