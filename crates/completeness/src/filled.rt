//! Laws of what the lines of groups owe the checker, in plans that `lower` makes of functions whose loops are split.

ghost use Rattle.completeness.specs.Filled.{BlockedGroupsOweShown, NearBlockedGroupsOweShown, StoreLinesOweShown};

/// Of a schedule under which each stored function is a root function that is computed at no loop, the group of each function whose loops are split once, with
/// whatever tails and in whatever order they stand, whichever loops are parallel but the inner ones; where what is fetched holds the calls, blocks that run
/// past the end reach numbers of 32 bits alone, and each left index that is no variable, and each index of a call of the function itself at its place, is shown
/// to lie in its dimension, also where this has more numbers behind it: all that its lines owe is shown, where the tests of nests say yes to plain nests and to
/// split ones, as the checker's do. Neither K2, K4, K5, K6 nor K7 is told of them. Each other coordinate is a number of 32 bits: the first number of a block,
/// which the grid or an outer loop tells, and an inner loop's symbol, or a let behind the guard that keeps them. Reduction variables are loops over their
/// ranges; an update's calls of its own function are of the point where it stores, at each place where that sets the variable. A dimension that a left index
/// sets has no parallel loop, so each piece has it whole, with what its blocks reach behind it. Left indices may call, too.
pub fn blocked_groups_owe_shown()
    ensures { BlockedGroupsOweShown }
{}

/// So it is, whatever such a function fetches, where the region that is needed of it begins within 2^15 of 0 in each dimension, and its reduction ranges end
/// within 49,152 of 0; or it begins within 2^16 of 0, none of its loops is split with `shift`, no `guard` keeps numbers by a line of its own, and where a left
/// index is no variable, and an index at its place of a call of the function itself names more than reduction variables, asking for the function's region came
/// to an end; or, wherever it begins, each index of its definitions is a literal or a variable, plus or minus literals and clamped to literals or not: the
/// forms of what its indices stay within then have no multiples that go farther than 2^39 + 2^37 together, so that the checker's search, which adds a number to
/// each, stays within the limits of forms wherever `lower` did, and finds of each index no more than the ends by which `lower` told the regions of the
/// functions it calls. A left index that is no variable is told by reduction variables alone, so that what it stays within is the same over any region: what
/// its updates set over the first region that was asked for lies in the last one, which grew from it. An index at its place of a call of the function itself is
/// shown to lie in the region by `lower`, and so, by the same search, in more numbers behind it. Where blocks run past the numbers of 32 bits under `roundup`,
/// what is not shown is owed at the lines of stores with a coordinate that is not shown to be such a number, of which a limit (K14) is told first, and no store
/// of the group is one that is told to leave its buffer before that.
pub fn near_blocked_groups_owe_shown()
    ensures { NearBlockedGroupsOweShown }
{}

/// Of a schedule as above, each function whose loops are split once, with whatever tails and in whatever order they stand, no inner loop of a split being
/// parallel: all that the lines `store` of its group owe is shown, whatever the tests of nests say (no K4, no K5 of them), where each index of its definitions
/// is simple, as above, and no block that nothing keeps within its loop reaches a number past 32 bits. A guard that keeps a rest, and
/// whose outer loop stands inside of the inner one, is a let: the lesser of the position and the loop's last number; the first number of a block that `shift`
/// moves is one, too: the lesser of where the block began and of where the last one has room. Both numbers that a let has the lesser of are at least the loop's
/// first number, and one of them has no symbol: so the checker's search, which takes the one or the other, finds what a let is at least, as what it is at most.
pub fn store_lines_owe_shown()
    ensures { StoreLinesOweShown }
{}
