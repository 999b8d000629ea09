//! Laws of the crop, each the contract of a function that does nothing.

ghost use Rattle.crop.specs.Worked.{ReadsMove, ClampsMove, QuotientsMove, ComparisonsMove};
ghost use Rattle.crop.specs.Laws.{ExpressionsMove};
ghost use Rattle.crop.specs.Crop.{CropLaw};
ghost use Rattle.crop.specs.Mosaic.{MosaicLaw, TileLaw};
ghost use Rattle.crop.specs.Counts.{CountLaw, TileCountLaw};

/// Worked examples of the definitions.
pub fn worked_examples()
    ensures reads { ReadsMove }
    ensures clamps { ClampsMove }
    ensures quotients { QuotientsMove }
    ensures comparisons { ComparisonsMove }
{}

/// An expression that is moved to an origin has the value that it had.
pub fn expressions_move()
    ensures { ExpressionsMove }
{}

/// The picture of a cut algorithm on the part of the input is the tile of the picture, and each value that the tile
/// needs is the algorithm's.
pub fn crop_law()
    ensures { CropLaw }
{}

/// Each value that the tile needs, and each sample of the tile, takes in the cut algorithm as many evaluations as in the
/// algorithm, where nothing is remembered.
pub fn count_law()
    ensures { CountLaw }
{}

/// The picture of a tile's algorithm on its part of the input is the picture of the whole, cut to the tile's rectangle.
pub fn tile_law()
    ensures { TileLaw }
{}

/// Each sample of a tile takes in the tile's algorithm, on its part of the input, as many evaluations as in the whole,
/// where nothing is remembered.
pub fn tile_count_law()
    ensures { TileCountLaw }
{}

/// The pictures of the tiles, put together, are the picture: the rectangles are a partition of the output, and each sample
/// of a tile's picture is the picture's at its place.
pub fn tiles_are_mosaic()
    ensures { MosaicLaw }
{}
