//! Plans written out whose pieces are sound, or are not.

ghost use Rattle.soundness.specs.Windowed.{ClaimsAreAsked};
ghost use Rattle.soundness.specs.Worked.{HistIsSound, ScanIsMeant, ScanIsSound, SlideIsSound, SlideRunsRight};

/// The piece of a running sum is sound: each step of the update reads what the step before left.
pub fn scan_is_sound()
    ensures { ScanIsSound }
{}

/// All obligations of the running sum hold, so it is sound; with a reduction point left out one does
/// not hold.
pub fn scan_is_meant()
    ensures { ScanIsMeant }
{}

/// Each piece of a sliding window over three rows or more is sound. Over two rows no piece is: a
/// row is written where another that is still needed lies.
pub fn slide_is_sound()
    ensures { SlideIsSound }
{}

/// What a piece of the sliding window over three rows or more gives is the output's value at each of
/// its cells.
pub fn slide_runs_right()
    ensures { SlideRunsRight }
{}

/// The piece of a histogram of two rows, whose updates find their places by the samples, is sound
/// where the samples are places.
pub fn hist_is_sound()
    ensures { HistIsSound }
{}

/// A claim that a window names is to be made along it, and the window to hold, each asked for at its own
/// line. Without a window, with one of another loop, where two statements of the loop's body store in the
/// buffer, and of an update, the claim is to be made by its statement alone.
pub fn claims_are_asked()
    ensures { ClaimsAreAsked }
{}
