//! What a board's calls mean to the algorithm.

ghost use Rattle.crew.specs.Opening.Laws.{LayoutsAreSound, OwnIsOfWork, PicturesAreSaid, RunsGiveValues, ValuesAreSamples, ValuesAreTargets, WorksAreSound};

/// The work of a checked plan is sound: its pieces part the cells among them, and each private run gives the algorithm's
/// values.
pub fn works_are_sound()
    ensures { WorksAreSound }
{}

/// The layout of a checked plan is sound: each cell is some piece's, once, and each sample of the picture is a cell's.
pub fn layouts_are_sound()
    ensures { LayoutsAreSound }
{
    works_are_sound();
}

/// The layout has the work's pieces, cells and own cells.
pub fn own_is_of_work()
    ensures { OwnIsOfWork }
{}

/// The value of each cell is the algorithm's. What `look` answers are this value's bits.
pub fn values_are_targets()
    ensures { ValuesAreTargets }
{}

/// The values of the cells that the picture shows are samples of the picture's type.
pub fn values_are_samples()
    ensures { ValuesAreSamples }
{}

/// The picture that `close` gives is the one that the algorithm, read without any schedule, says of the input.
pub fn pictures_are_said()
    ensures { PicturesAreSaid }
{}

/// What a piece's private run gives are the values that `put` takes, one for each own cell, in their order.
pub fn runs_give_values()
    ensures { RunsGiveValues }
{
    works_are_sound();
}
