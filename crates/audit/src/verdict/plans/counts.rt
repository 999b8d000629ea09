//! A histogram over any number of rows.

ghost use Rattle.audit.specs.Verdict.Plans.Counts.{ClaimsAreNotWider, ColumnsComeFirst, FirstRowIsNeeded, HistIsSound, HistRunsRight, LastRowIsNeeded, SamplesArePlaces};

use soundness::laws::{
    definitions_are_right, given_is_of_algorithm, meant_is_sound, private_runs_are_right,
};
use soundness::nests::laws::plain_nests_are_right;

/// The piece of a histogram is sound for every number of rows, where the samples are places.
pub fn hist_is_sound()
    ensures { HistIsSound }
{
    meant_is_sound();
    plain_nests_are_right();
}

/// What the piece of a well-formed histogram gives is how often each place is met.
pub fn hist_runs_right()
    ensures { HistRunsRight }
{
    hist_is_sound();
    private_runs_are_right();
    given_is_of_algorithm();
    definitions_are_right();
}

/// With the first row left out of its update no piece is sound: a step comes before those that it
/// goes on from.
pub fn first_row_is_needed()
    ensures { FirstRowIsNeeded }
{}

/// With the last row left out no piece is sound: the update's claim is not made.
pub fn last_row_is_needed()
    ensures { LastRowIsNeeded }
{}

/// Where the update runs over the rows of a column before it comes to the next column, no piece of
/// two rows or more is sound.
pub fn columns_come_first()
    ensures { ColumnsComeFirst }
{}

/// A piece whose update claims a place more than there are is not sound.
pub fn claims_are_not_wider()
    ensures { ClaimsAreNotWider }
{}

/// Where the first sample is no place, the piece is not sound.
pub fn samples_are_places()
    ensures { SamplesArePlaces }
{}
