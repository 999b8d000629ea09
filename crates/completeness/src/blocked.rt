//! Laws of what the claims of nests owe the checker, in plans that `lower` makes of functions whose loops are split.

ghost use Rattle.completeness.specs.Blocked.{BlockedClaimsOweShown};

/// Of a schedule under which each stored function is a root function that is computed at no loop, each function whose loops are split once, with any tail and
/// in whatever order they stand, whichever others are parallel: all that the claims of its nests owe is shown, of its pure definition and of its updates, where
/// the tests of nests say yes to nests of split loops (no K6, no K7). No loop that a split makes is split again, and no inner one is parallel. A coordinate is
/// the first number of a block, which the grid, an outer loop or a shifted block's let tells, and an inner loop's symbol, or it is the symbol of a let behind a
/// guard; it comes to all numbers of the claim. Where the outer loop stands outside of the inner one, what `guard` keeps is a further upper form of the inner
/// loop over the outer one's symbol: the outer one is so taken away after it, and the coordinate keeps the loop's last number. Else it is a guard and a let
/// behind it, which come to a loop of one turn, taken away before both loops. A shifted block's let is taken away behind the inner loop and before the outer
/// one; where the outer loop is parallel it stands over the grid, and is opened in the bounds of what the coordinate comes to. In an update's nest the loops of
/// its reduction variables stand among these, with vectorised loops inside them: each runs over its range, in order, and the others meet no point twice.
pub fn blocked_claims_owe_shown()
    ensures { BlockedClaimsOweShown }
{}
