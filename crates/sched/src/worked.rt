//! Schedules written out: the loops of the functions that they place.

ghost use Rattle.sched.specs.Worked.{BlocksStand, LanesStand, OutsideStands, RowsStand, TilesStand, UpdatesStand};

/// Two by ten points: row by row, a piece each row, and column by column.
pub fn rows_stand()
    ensures { RowsStand }
{}

/// Tiles of four by two over six by five points with each tail, a piece each and in one piece.
pub fn tiles_stand()
    ensures { TilesStand }
{}

/// Ten points split by four with the inner loop outside: a guard and a let behind it, or a block that is moved back.
pub fn outside_stands()
    ensures { OutsideStands }
{}

/// Ten points split by four with the inner loop vectorised, with each tail; and where a vectorised loop turns over blocks, a guard
/// without a let in it.
pub fn lanes_stand()
    ensures { LanesStand }
{}

/// An update's reduction loop stands inside its pure loops, and the loops of a dimension that it has no pure variable for are left
/// out. A vectorised loop stands inside the reduction loop.
pub fn updates_stand()
    ensures { UpdatesStand }
{}

/// Blocks that are split again.
pub fn blocks_stand()
    ensures { BlocksStand }
{}
