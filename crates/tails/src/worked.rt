//! Split loops written out: what they visit, and what they do not.

ghost use Rattle.tails.specs.Worked.{ClaimsAreMade, CutsAreNested, TenIsCut, TilesAreCut};
ghost use Rattle.tails.specs.WorkedOrder.{PointsRise};
ghost use Rattle.tails.specs.WorkedUpdates.{UpdatesAreInTurn};

/// Ten numbers split by four, with each tail and in each order of the loops: the tests say yes where each number is visited, and
/// where none is met twice; a gap, a block too few, a tail that ends too early, a block moved too far and a guard that is too
/// small are told.
pub fn ten_is_cut()
    ensures { TenIsCut }
{}

/// Blocks of one number, and blocks that are cut again.
pub fn cuts_are_nested()
    ensures { CutsAreNested }
{}

/// Tiles, a piece each, with each tail.
pub fn tiles_are_cut()
    ensures { TilesAreCut }
{}

/// Claims of nests of split loops, plan by plan and with one number altered: those that are made are taken.
pub fn claims_are_made()
    ensures { ClaimsAreMade }
{}

/// Updates over split loops, nest by nest and with one number altered: those whose steps are in turn are taken, with the loops of the
/// reduction inside, between and outside of the others.
pub fn updates_are_in_turn()
    ensures { UpdatesAreInTurn }
{}

/// Split loops whose points rise, in one coordinate and in two, with a guard, to a whole multiple, cut again and with a gap; and the
/// loops in another order, blocks that overlap or are moved back, tiles, a loop that no coordinate names and a coordinate that falls
/// are told.
pub fn points_rise()
    ensures { PointsRise }
{}
