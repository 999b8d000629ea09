//! The law of what the checker tells of plans that `lower` makes.

ghost use Rattle.completeness.specs.Told.{CoreSplitsPlainly, FaultsAreLimits, LimitsAloneAreTold};

/// Of a schedule under which each stored function is a root function that is computed at no loop, whose loops are split once at most, with whatever tails and
/// in whatever order they stand, whichever are parallel (but inner ones of splits), vectorised or unrolled; of which each index of a call or left side, with
/// the unstored functions put in, is a literal or a variable, plus or minus literals and clamped to literals or not, or which has a region that begins within
/// 2^15 of 0 and reduction ranges that end within 49,152 of 0, or a region that begins within 2^16 of 0, no split with `shift`, with `guard` only where the
/// factor divides the loop's numbers, the inner loop stands inside of the outer one, or a piece tells the block, and, where a left index is no variable, and an
/// index at its place of a call of the function itself names more than reduction variables, asking for the function's region came to an end; whose updates may
/// set any points, by calls as well: whatever the checker tells of the plan that `lower` makes is a limit (K14). Its head is the algorithm's (no K1), its lines
/// name and store what they should, by forms within their limits (no K2, K3, K12, K13), all that they owe is shown by the checker's own rules and tests of
/// nests (no K4 to K8), but where `roundup` runs past the numbers of 32 bits: at such a line K14 is told before what it owes; its pieces have their shares (no
/// K9, K10, K11), and the output's group has each point of the output. It is asked that what is named in the algorithm has the name of a text, as in each
/// algorithm that was read. (That all lines can be told, that no grid and no group has more symbols than the checker takes, and that the numbers of claims'
/// regions are near, is so of such plans.)
pub fn limits_alone_are_told()
    ensures { LimitsAloneAreTold }
{}

/// So, in the checker's own words, each refusal of such a plan that is right is told as a limit: its code is K14.
pub fn faults_are_limits()
    ensures { FaultsAreLimits }
{}

/// Each core schedule is such a one: no function is computed inside a loop of another, each dimension is split once at most, no inner loop of a split is
/// parallel, and each index of a call or a left side, with the unstored functions put in, is a literal or a variable, plus or minus literals and clamped to
/// literals or not. So of each core schedule that breaks no rule, whatever the checker tells of its plan is a limit.
pub fn core_schedules_split_plainly()
    ensures { CoreSplitsPlainly }
{}
