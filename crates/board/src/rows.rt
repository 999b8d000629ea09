//! Lists of cells that a board keeps.

ghost use Rattle.std.specs.Prelude.{◌≡◌, ◌<◌, [], IfOk, length, slice_index_or};
ghost use Rattle.meaning.specs.Image.Raster.{raster_point, sample_count};
ghost use Rattle.meaning.specs.Image.View.{AreExtents};
ghost use Rattle.board.specs.Shown.{AreShown};

use crate::source::Source;
use meaning::image::laws::raster_is_order;
use orders::CellRuns;
use std::alloc::{AllocError, Global};
use std::marker::Model;

/// The own cells of each piece, where the source has them.
#[derive(Drop)]
pub(crate) struct Rows<'a> {
    rows: Vec<&'a CellRuns>,
}

impl<'a> Model for Rows<'a> {
    ghost use Rattle.std.specs.Prelude.{ℕ, List, map};

    ghost Value = { List (List ℕ) };

    ghost view = { λ r. map (λ v. v.now) r.rows.items };
}

impl<'a> Rows<'a> {
    /// The own cells of the source's pieces.
    pub(crate) fn of<S: Source<'a>>(alloc: Global, source: &S) -> Result<Rows<'a>, AllocError>
        ensures { IfOk result (λ rows. rows ≡ (S.layout source.now).own) }
    {
        let pieces = source.pieces();
        let mut rows = Vec::with_capacity(alloc, pieces)?;
        for piece in 0..pieces {
            rows.push(source.own(piece))?;
        }
        Ok(Rows { rows })
    }

    /// How many pieces there are.
    pub(crate) fn len(&self) -> usize
        ensures { result ≡ length self.now }
    {
        self.rows.len()
    }

    /// The own cells of a piece.
    pub(crate) fn get(&self, piece: usize) -> &'a CellRuns
        requires { piece < length self.now }
        ensures { result.now ≡ slice_index_or self.now piece [] }
    {
        self.rows[piece]
    }
}

/// The cell of the sample at a place of the raster.
fn cell_at<'a, S: Source<'a>>(source: &S, extents: &[u32], place: usize) -> u32
    requires extents { AreExtents extents.now × (extents.now ≡ (S.layout source.now).frame.extents) }
    requires place { place < sample_count extents.now }
    ensures { result ≡ (S.layout source.now).cell_of (raster_point extents.now place) }
{
    raster_is_order();
    match extents {
        [_] => source.cell_of(&[place as i64]),
        [width, _] => {
            let width = *width as usize;
            source.cell_of(&[(place % width) as i64, (place / width) as i64])
        }
        [width, _, colours] => {
            let width = *width as usize;
            let colours = *colours as usize;
            let pixel = place / colours;
            source.cell_of(&[
                (pixel % width) as i64,
                (pixel / width) as i64,
                (place % colours) as i64,
            ])
        }
        _ => unreachable!(),
    }
}

/// The cell of each sample of the picture, in raster order.
pub(crate) fn shown_cells<'a, S: Source<'a>>(
    alloc: Global,
    source: &S,
) -> Result<Vec<u32>, AllocError>
    ensures { IfOk result (λ v. AreShown (S.layout source.now) v.items) }
{
    source.pieces();
    let shape = source.shape();
    let count = shape.sample_count();
    let mut cells = Vec::with_capacity(alloc, count)?;
    for place in 0..count {
        cells.push(cell_at(source, shape.extents.as_slice(), place))?;
    }
    Ok(cells)
}
