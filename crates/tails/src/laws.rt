//! What is proved of the tests of split loops.

ghost use Rattle.tails.specs.Laws.{AssignmentsAreWritten, CoversIsVisited, EachIsOnce, OnceIsDistinct, ReachedIsVisited};
ghost use Rattle.tails.specs.Nests.{PlainNestsAreTaken, SplitNestsAreRight};
ghost use Rattle.tails.specs.Order.{OrderedIsRising};

use soundness::nests::laws::plain_nests_are_right;

/// Each point of which every coordinate lies in the span that is reached is met: at some turns of the loops, with each let's number
/// and with each guard in order.
pub fn reached_is_visited()
    ensures { ReachedIsVisited }
{}

/// A statement writes the point of the line that stores a claim's pure definition at each assignment that the steps down to it
/// allow: with each loop in one of its turns, each let's number, and each guard in order.
pub fn assignments_are_written()
    ensures { AssignmentsAreWritten }
{}

/// No point is met by different turns.
pub fn each_is_once()
    ensures { EachIsOnce }
{}

/// Where a region is shown to be covered each of its points is among those that the turns visit, whatever the symbols around them
/// stand for.
pub fn covers_is_visited()
    ensures { CoversIsVisited }
{}

/// No point stands twice in the list of those that the turns visit.
pub fn once_is_distinct()
    ensures { OnceIsDistinct }
{}

/// Where it is shown that points rise, none in the list of those that the turns visit is before an earlier one, whatever the symbols
/// around stand for.
pub fn ordered_is_rising()
    ensures { OrderedIsRising }
{}

/// A nest that the tests of plain and of split nests say yes to makes its claim, or does the steps of its update in their order,
/// whatever the symbols around it stand for.
pub fn split_nests_are_right()
    ensures { SplitNestsAreRight }
{
    plain_nests_are_right();
}

/// They say yes to each nest that the tests of plain nests take.
pub fn plain_nests_are_taken()
    ensures { PlainNestsAreTaken }
{}
