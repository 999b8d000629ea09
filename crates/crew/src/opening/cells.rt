//! A checked plan as a board reads it.

ghost use Rattle.std.specs.Prelude.{◌≡◌, IfOk};
ghost use Rattle.crew.specs.Opening.Layouts.{layout_of};
ghost use Rattle.crew.specs.Opening.Planes.{planes_from};
ghost use Rattle.meaning.specs.Image.View.{AreExtents};

use crate::opening::laws::layouts_are_sound;
use board::{Planes, Source};
use checked_plan::Checked;
use checked_plan::output::OutputCells;
use meaning::image::Shape;
use orders::CellRuns;
use std::alloc::{AllocError, Global};

/// A checked plan, with the cell of each point of its picture.
#[derive(Drop)]
pub(crate) struct CheckedCells<'a> {
    checked: &'a Checked<'a>,
    cells: OutputCells<'a>,
    ghost same: { ∥ cells.checked.now ≡ checked.now ∥₁ },
}

impl<'a> CheckedCells<'a> {
    /// The cells of a checked plan.
    pub(crate) fn of(
        alloc: Global,
        checked: &'a Checked<'a>,
    ) -> Result<CheckedCells<'a>, AllocError>
        ensures { IfOk result (λ cells. cells.checked.now ≡ checked.now) }
    {
        let cells = OutputCells::of(alloc, checked)?;
        Ok(CheckedCells { checked, cells })
    }
}

/// The planes of a picture of these extents, whose cells follow each other from this number on.
fn planes_from(first: u32, extents: &[u32]) -> Planes
    requires { AreExtents extents.now }
    ensures { result ≡ planes_from first extents.now }
{
    let (colours, pixels) = match extents {
        [width] => (1, *width as usize),
        [width, height] => (1, *width as usize * *height as usize),
        [width, height, colours] => (*colours as usize, *width as usize * *height as usize),
        _ => unreachable!(),
    };
    Planes {
        first,
        colours,
        pixels,
    }
}

impl<'a> Source<'a> for CheckedCells<'a> {
    ghost layout = { λ cells. layout_of cells.checked.now };

    fn pieces(&self) -> usize {
        layouts_are_sound();
        self.checked.pieces()
    }

    fn cells(&self) -> usize {
        self.checked.cells() as usize
    }

    fn own(&self, piece: usize) -> &'a CellRuns {
        self.checked.own(piece)
    }

    fn shape(&self) -> &Shape {
        &self.checked.algo().output().shape
    }

    fn planes(&self) -> Option<Planes> {
        let Some(first) = self.cells.first() else {
            return None;
        };
        let output = self.checked.algo().output();
        Some(planes_from(first, output.shape.extents.as_slice()))
    }

    fn cell_of(&self, point: &[i64]) -> u32 {
        self.cells.cell_of(point)
    }
}
