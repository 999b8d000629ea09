//! Laws of raster order, each the contract of a function that does nothing.

ghost use Rattle.meaning.specs.Image.Laws.{RasterIsOrder, SampleIsAtPlace};

/// The points of the extents and the places of the raster are one to one.
pub fn raster_is_order()
    ensures { RasterIsOrder }
{}

/// A sample is the one at its point's place, and 0 off the extents.
pub fn sample_is_at_place()
    ensures { SampleIsAtPlace }
{}
