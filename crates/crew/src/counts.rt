//! How many cells a piece of a plan owns and fetches at most.

ghost use Rattle.std.specs.Prelude.{◌≤◌, ℕ};
ghost use Rattle.crew.specs.Opening.Layouts.{layout_of};
ghost use Rattle.board.specs.Layout.{pieces_of};
ghost use Rattle.crew.specs.Private.{IsMostFetched, IsMostOwn};

use crate::opening::laws::own_is_of_work;
use checked_plan::Checked;

/// The larger of two numbers.
fn at_least(most: usize, cells: usize) -> usize
    ensures most { most ≤ result }
    ensures cells { cells ≤ result }
    ensures least { (n : ℕ) → most ≤ n → cells ≤ n → result ≤ n }
{
    if most < cells { cells } else { most }
}

/// How many cells a piece owns at most.
pub(crate) fn most_own(checked: &Checked<'_>) -> usize
    ensures { IsMostOwn (layout_of checked.now) result }
{
    own_is_of_work();
    let mut most = 0;
    for piece in 0..checked.pieces() {
        most = at_least(most, checked.own(piece).len());
    }
    most
}

/// How many cells a piece fetches at most.
pub(crate) fn most_fetched(checked: &Checked<'_>) -> usize
    ensures most { IsMostFetched checked.now (pieces_of (layout_of checked.now)) result }
    ensures least { (n : ℕ) → IsMostFetched checked.now (pieces_of (layout_of checked.now)) n → result ≤ n }
{
    own_is_of_work();
    let mut most = 0;
    for piece in 0..checked.pieces() {
        most = at_least(most, checked.fetched(piece).len());
    }
    most
}
