//! Windows written out.

ghost use Rattle.tails.specs.Windows.Worked.{SpansAreWindows, SplitRowsSlide, ThreeRowsSlide};

/// A window of three rows over a buffer of three and of seven places: the claim is made and the window
/// holds. With two places, with another fold than the buffer's, with a row left out of the new ones or of
/// the first turn's, and of another loop or dimension, one of the two fails.
pub fn three_rows_slide()
    ensures { ThreeRowsSlide }
{}

/// Rows that are made by nests of split loops with each tail, along either loop of a split, and with other
/// functions that slide inside, are shown; a window of rows that are told by a let over the loop is not.
pub fn split_rows_slide()
    ensures { SplitRowsSlide }
{}

/// Ends that fall along the loop, more rows than places, and ends that name a let over the loop's turns
/// are told.
pub fn spans_are_windows()
    ensures { SpansAreWindows }
{}
