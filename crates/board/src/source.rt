//! What a board is opened for.

ghost use Rattle.std.specs.Prelude.{◌≡◌, ◌<◌, true, IfSome};
ghost use Rattle.meaning.specs.Image.Raster.{is_within};
ghost use Rattle.meaning.specs.Image.View.{shape_of};
ghost use Rattle.board.specs.Layout.{Layout, pieces_of, own_of, IsSound};
ghost use Rattle.board.specs.Shown.{StandInPlanes};

use meaning::image::Shape;
use orders::CellRuns;

/// Where the cells of the picture's samples stand, where the cells of each colour follow each other in the order of the pixels,
/// and those of one colour the ones of the colour before.
#[derive(Clone, Copy, Drop)]
pub struct Planes {
    /// The cell of the first pixel's first colour.
    pub first: u32,
    /// How many colours a pixel has: 1 where the picture is grey.
    pub colours: usize,
    /// How many pixels there are, and so how many cells a colour has.
    pub pixels: usize,
}

/// Work that was accepted, as a board reads it. A board borrows the lists of own cells and outlives the source itself.
pub trait Source<'a> {
    ghost layout: { Self → Layout };

    /// The number of pieces. The layout of accepted work is sound.
    fn pieces(&self) -> usize
        ensures count { result ≡ pieces_of (layout self.now) }
        ensures sound { IsSound (layout self.now) };

    /// The number of cells.
    fn cells(&self) -> usize
        ensures { result ≡ (layout self.now).cells };

    /// The own cells of a piece, in the order in which they are put.
    fn own(&self, piece: usize) -> &'a CellRuns
        requires { piece < pieces_of (layout self.now) }
        ensures { result.now ≡ own_of (layout self.now) piece };

    /// The type and the extents of the picture.
    fn shape(&self) -> &Shape
        ensures { shape_of result.now ≡ (layout self.now).frame };

    /// Where the cells of the picture's samples stand, if they stand in planes. `None` says nothing: a board then asks `cell_of`
    /// of each sample and keeps the answers.
    fn planes(&self) -> Option<Planes>
        ensures { IfSome result (StandInPlanes (layout self.now)) };

    /// The cell that has a point of the picture.
    fn cell_of(&self, point: &[i64]) -> u32
        requires { is_within (layout self.now).frame.extents point.now ≡ true }
        ensures { result ≡ (layout self.now).cell_of point.now };
}
