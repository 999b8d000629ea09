//! What is proved of the pieces of checked plans, each told by its group and grid point.

ghost use Rattle.piece.specs.Laws.{PiecesAreNarrow, RunsAreTheWork};

use headline::laws::pieces_are_numbered;

/// The forms of each piece of a checked plan are small.
pub fn pieces_are_narrow()
    ensures { PiecesAreNarrow }
{}

/// What a piece gives over the values that it has looked at is its private run.
pub fn runs_are_the_work()
    ensures { RunsAreTheWork }
{
    pieces_are_numbered();
}
