//! What is proved of the pieces of a plan, and a plan whose work is computed from the definitions.

ghost use Rattle.headline.specs.Headline.{InputsAreSamples};
ghost use Rattle.headline.specs.Numbers.{CellsAreNumbered, PiecesAreNumbered};
ghost use Rattle.headline.specs.Parts.{CellsAreApart, LooksAreByNumber, NeedsAreOneList, NothingIsFetched, PartsAreTheWork, PointsAreCounted};
ghost use Rattle.headline.specs.Theorem.{OutputIsThere, PicturesComeOut, PiecesRunRight, PlansAreRight};
ghost use Rattle.headline.specs.Worked.{IncIsWork, SumsAreWork};

use orders::every_order_is_right;

/// A right plan with sound lists is right in every order, and one worker finishes it.
pub fn plans_are_right()
    ensures { PlansAreRight }
{
    every_order_is_right();
}

/// Of a right plan with sound lists, after any order that finishes all pieces, the cells of the output's
/// points hold the algorithm's picture.
pub fn pictures_come_out()
    ensures { PicturesComeOut }
{
    plans_are_right();
    output_is_there();
}

/// A cell's number is its place among the plan's cells.
pub fn cells_are_numbered()
    ensures { CellsAreNumbered }
{}

/// A piece's number is its place among the plan's pieces.
pub fn pieces_are_numbered()
    ensures { PiecesAreNumbered }
{}

/// The lists of the work, told by group and grid point.
pub fn parts_are_the_work()
    ensures { PartsAreTheWork }
{}

/// The needed pieces are the one rising list of their numbers.
pub fn needs_are_one_list()
    ensures { NeedsAreOneList }
{}

/// A cell is told by its number, and by its function and point.
pub fn cells_are_apart()
    ensures { CellsAreApart }
{}

/// What is known of a cell by the values of fetched cells is told by the cells' numbers.
pub fn looks_are_by_number()
    ensures { LooksAreByNumber }
{}

/// A statement without a fetch line fetches nothing.
pub fn nothing_is_fetched()
    ensures { NothingIsFetched }
{}

/// A region has as many points as the product of its spans' numbers.
pub fn points_are_counted()
    ensures { PointsAreCounted }
{}

/// The private run of each piece of a right plan gives the algorithm's values.
pub fn pieces_run_right()
    ensures { PiecesRunRight }
{}

/// Each point of the output's extents has a cell, whose right value is the output's value there.
pub fn output_is_there()
    ensures { OutputIsThere }
{}

/// A picture of the input's shape has samples of the input's type, as `Headline` asks.
pub fn inputs_are_samples()
    ensures { InputsAreSamples }
{}

/// The work of small plans: one group of two pieces; and two groups, the second of which fetches from the first.
pub fn worked_examples()
    ensures increment { IncIsWork }
    ensures sums { SumsAreWork }
{}
