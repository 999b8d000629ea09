//! Which piece owns each pixel of the output, in colours.

ghost use Rattle.std.specs.Prelude.{◌≡◌, ◌+◌, ◌*◌, ◌≤◌, All, IfOk, OnOk, length};
ghost use Rattle.checked_plan.specs.View.{algorithm_checked};
ghost use Rattle.meaning.specs.Image.View.{image_of};
ghost use Rattle.report.specs.Drawing.{IsDrawing};

mod canvas;
mod colours;

use crate::drawing::canvas::Canvas;
use crate::drawing::colours::{Colour, GREY, colour_of, colours_of};
use checked_plan::Checked;
use meaning::image::{Image, Samples};
use numeric::Ty;
use std::alloc::{AllocError, Global};

/// The values that a crew has put on its cells, by their numbers; none on a cell that is not set.
pub type Cells<'a> = &'a [Option<i64>];

/// Whether a crew has set the cell of a pixel; where there is no crew, all are.
fn is_reached(crew: Option<Cells<'_>>, cell: Option<u32>) -> bool {
    match (crew, cell) {
        (Some(cells), Some(cell)) => matches!(cells.get(cell as usize), Some(Some(_))),
        (Some(_), None) => false,
        (None, _) => true,
    }
}

/// The colour of a pixel: its piece's, and grey where the crew has not set its cell.
fn colour_at(
    canvas: &Canvas<'_>,
    colours: &[Option<usize>],
    crew: Option<Cells<'_>>,
    x: u32,
    y: u32,
) -> Colour {
    if is_reached(crew, canvas.cell(x, y)) {
        colour_of(colours, canvas.piece(x, y))
    } else {
        GREY
    }
}

/// Adds a pixel: its red, green and blue.
fn put_colour(samples: &mut Vec<u8>, colour: Colour) -> Result<(), AllocError>
    ensures count { OnOk result (length samples.new.items ≡ length samples.old.items + 3) }
    ensures range { OnOk result (All (λ n. n ≤ 255) samples.old.items → All (λ n. n ≤ 255) samples.new.items) }
{
    samples.push(colour.red)?;
    samples.push(colour.green)?;
    samples.push(colour.blue)?;
    Ok(())
}

/// Adds the pixels of a row.
fn put_row(
    samples: &mut Vec<u8>,
    canvas: &Canvas<'_>,
    colours: &[Option<usize>],
    crew: Option<Cells<'_>>,
    y: u32,
) -> Result<(), AllocError>
    ensures count { OnOk result (length samples.new.items ≡ length samples.old.items + canvas.now.width * 3) }
    ensures range { OnOk result (All (λ n. n ≤ 255) samples.old.items → All (λ n. n ≤ 255) samples.new.items) }
{
    for x in 0..canvas.width {
        put_colour(samples, colour_at(canvas, colours, crew, x, y))?;
    }
    Ok(())
}

/// A picture of the output in which each pixel has the colour of the piece that owns it. Pieces that touch have different
/// colours; of several channels the first one counts, and an output of one dimension is one row. Where a crew's cells
/// are given, a pixel whose cell is not set is grey.
///
/// # Errors
/// `AllocError` where memory runs out.
pub fn draw(
    alloc: Global,
    checked: &Checked<'_>,
    crew: Option<Cells<'_>>,
) -> Result<Image, AllocError>
    ensures { IfOk result (λ image. IsDrawing (algorithm_checked checked.now) (image_of image)) }
{
    let canvas = Canvas::of(alloc, checked)?;
    let colours = colours_of(alloc, &canvas, checked.pieces())?;
    let mut samples = Vec::new(alloc);
    for y in 0..canvas.height {
        put_row(&mut samples, &canvas, colours.as_slice(), crew, y)?;
    }
    Ok(Image {
        ty: Ty::U8,
        extents: vec![in alloc; canvas.width, canvas.height, 3]?,
        samples: Samples::Bytes(samples),
    })
}
