//! Laws of plans in which functions may be computed inside loops.

ghost use Rattle.completeness.specs.Looped.{CellsAreParted, FetchesAndLimitsAreTold, GroupLinesAreWithin, NestLinesAreWithin};

/// Of whatever schedule a plan is made, also where functions are computed inside loops, stored there and folded: what its pieces own are points of their groups'
/// regions, each cell is one piece's own, and stands once in what that owns. It is asked that no split of a root function makes an inner loop that is parallel or
/// split again.
pub fn cells_are_parted()
    ensures { CellsAreParted }
{}

/// Where that is so of a plan, what is told of the pieces' shares is of what they fetch (K11) or a limit (K14), and neither K9 nor K10.
pub fn fetches_and_limits_are_told()
    ensures { FetchesAndLimitsAreTold }
{}

/// Of the same plans: no form of a line `group` is out of the limits of forms (no K3).
pub fn group_lines_are_within()
    ensures { GroupLinesAreWithin }
{}

/// Nor is a form of a line `for`, `let`, `first`, `guard` or `store` inside a group (no K3), be it of the group's own function or of one that is computed inside
/// its loops, in each turn or as far as it is new, with or without updates.
pub fn nest_lines_are_within()
    ensures { NestLinesAreWithin }
{}
