//! What is proved of windows.

ghost use Rattle.tails.specs.Windows.Laws.{SlidIsMeant, WindowsAreRight};
ghost use Rattle.tails.specs.Windows.Nests.{SlidNestsAreRight};

use crate::laws::split_nests_are_right;

/// A span that the test says yes to is a window, whatever the symbols stand for: neither end falls along
/// the loop, and there are at most as many rows as the fold has places.
pub fn windows_are_right()
    ensures { WindowsAreRight }
{}

/// A statement that slides along a window that holds makes all of the claim's region in the loop's first
/// turn, and in later ones all that the turn before did not need, and writes nothing where a point of the
/// region lies, whatever the symbols stand for.
pub fn slid_is_meant()
    ensures { SlidIsMeant }
{}

/// A nest that the tests of plain nests, of split ones and of windows say yes to makes its claim, does the
/// steps of its update in their order, or makes its claim along the window, whatever the symbols around it
/// stand for.
pub fn slid_nests_are_right()
    ensures { SlidNestsAreRight }
{
    split_nests_are_right();
}
