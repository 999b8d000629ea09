//! The pixels of a checked plan's output, and the piece that owns each of them.

ghost use Rattle.std.specs.Prelude.{◌≡◌, IfOk};
ghost use Rattle.checked_plan.specs.View.{algorithm_checked};
ghost use Rattle.report.specs.Drawing.{height_of, width_of};

use checked_plan::Checked;
use checked_plan::output::PlanCells;
use orders::CellRun;
use std::alloc::{AllocError, Global};

/// Columns and rows of pixels, each with a cell of the output.
#[derive(Drop)]
pub(crate) struct Canvas<'a> {
    /// How many columns there are.
    pub width: u32,
    /// How many rows there are.
    pub height: u32,
    dimensions: usize,
    cells: PlanCells<'a>,
    group: usize,
    owners: Vec<usize>,
}

/// How many columns an image of these extents has.
fn width_of(extents: &[u32]) -> u32
    ensures { result ≡ width_of extents.now }
{
    match extents {
        [width, ..] => *width,
        [] => 1,
    }
}

/// How many rows an image of these extents has.
fn height_of(extents: &[u32]) -> u32
    ensures { result ≡ height_of extents.now }
{
    match extents {
        [_, height, ..] => *height,
        _ => 1,
    }
}

/// Makes a piece the owner of cells that follow one another.
fn give(owners: &mut [usize], run: &CellRun, piece: usize) {
    for more in 0..run.count as usize {
        if let Some(owner) = owners.get_mut(run.first as usize + more) {
            *owner = piece;
        }
    }
}

/// The piece that owns each cell.
fn owners_of(alloc: Global, checked: &Checked<'_>) -> Result<Vec<usize>, AllocError> {
    let mut owners: Vec<usize> = vec![in alloc; 0; checked.cells() as usize]?;
    for piece in 0..checked.pieces() {
        for run in checked.own(piece).runs() {
            give(owners.as_mut_slice(), run, piece);
        }
    }
    Ok(owners)
}

impl<'a> Canvas<'a> {
    /// The pixels of a checked plan's output.
    pub(crate) fn of(alloc: Global, checked: &'a Checked<'a>) -> Result<Canvas<'a>, AllocError>
        ensures width { IfOk result (λ canvas. canvas.width ≡ width_of (algorithm_checked checked.now).output_extents) }
        ensures height { IfOk result (λ canvas. canvas.height ≡ height_of (algorithm_checked checked.now).output_extents) }
    {
        let output = checked.algo().output();
        let extents = output.shape.extents.as_slice();
        let cells = PlanCells::of(alloc, checked)?;
        let group = cells.place(output.name.as_str());
        Ok(Canvas {
            width: width_of(extents),
            height: height_of(extents),
            dimensions: extents.len(),
            cells,
            group,
            owners: owners_of(alloc, checked)?,
        })
    }

    /// The cell of a pixel; of several channels the first one's.
    pub(crate) fn cell(&self, x: u32, y: u32) -> Option<u32> {
        let (x, y) = (i64::from(x), i64::from(y));
        match self.dimensions {
            1 => self.cells.number(self.group, &[x]),
            2 => self.cells.number(self.group, &[x, y]),
            _ => self.cells.number(self.group, &[x, y, 0]),
        }
    }

    /// The piece that owns a pixel.
    pub(crate) fn piece(&self, x: u32, y: u32) -> Option<usize> {
        let cell = self.cell(x, y)?;
        self.owners.get(cell as usize).copied()
    }
}
