//! Opening a board.

ghost use Rattle.std.specs.Prelude.{◌≡◌, IfOk};
ghost use Rattle.algo.specs.View.{IsFor};
ghost use Rattle.board.specs.Seats.{place};
ghost use Rattle.board.specs.Views.{first_view};
ghost use Rattle.crew.specs.Opening.Layouts.{layout_of, values_of};

use crate::opening::cells::CheckedCells;
use crate::opening::laws::values_are_samples;
use algo::Inputs;
use board::{Board, BoardSeat, Run, Sheet};
use checked_plan::Checked;
use std::alloc::{AllocError, Global};

/// A board for the pieces of a checked plan on an input of its algorithm, with nothing drawn, and its first seat, which
/// may split off 63 more.
///
/// It takes 8 bytes for each piece and each cell (twice as much while it opens), 8 more for each piece, whose own cells stand in
/// the checked plan, and 2 for each sample of the picture. Where the region of the output's group is larger than the picture it
/// also keeps the cell of each sample, 4 bytes each. The picture that `close` gives is made here.
///
/// # Errors
/// `AllocError` where memory runs out.
pub fn open<'a, J: Run>(
    alloc: Global,
    checked: &'a Checked<'a>,
    inputs: &Inputs,
) -> Result<(Board<'a, J>, BoardSeat), AllocError>
    requires layout { J.layout ≡ layout_of checked.now }
    requires values { J.values ≡ values_of checked.now inputs.now }
    requires input { IsFor checked.now.algo.now inputs.now }
    ensures { IfOk result (λ b. b.1 ≡ place b.0 first_view) }
{
    values_are_samples();
    let cells = CheckedCells::of(alloc, checked)?;
    Board::open(alloc, &cells)
}

/// The cells of a checked plan on an input of its algorithm, for one worker alone. Nothing is put.
///
/// It takes one byte for each cell that is kept as a sample of the picture, 4 for each other cell, and 8 for each piece. Where no
/// cell is kept as a sample it takes for the picture what a board takes for it.
///
/// # Errors
/// `AllocError` where memory runs out.
pub(crate) fn open_alone<'a, J: Run>(
    alloc: Global,
    checked: &'a Checked<'a>,
    inputs: &Inputs,
) -> Result<Sheet<'a, J>, AllocError>
    requires layout { J.layout ≡ layout_of checked.now }
    requires values { J.values ≡ values_of checked.now inputs.now }
    requires input { IsFor checked.now.algo.now inputs.now }
{
    values_are_samples();
    let cells = CheckedCells::of(alloc, checked)?;
    Sheet::open(alloc, &cells)
}
