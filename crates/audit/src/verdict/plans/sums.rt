//! A running sum whose update leaves a point out.

ghost use Rattle.audit.specs.Verdict.Plans.Sums.{AllPointsAreEnough, FirstPointIsNeeded, LastPointIsNeeded};

use soundness::worked::scan_is_sound;

/// The piece of a running sum over all points is sound.
pub fn all_points_are_enough()
    ensures { AllPointsAreEnough }
{
    scan_is_sound();
}

/// With the first point left out it is not: the sum before is not there yet.
pub fn first_point_is_needed()
    ensures { FirstPointIsNeeded }
{}

/// With the last point left out it is not: the update's claim is not made.
pub fn last_point_is_needed()
    ensures { LastPointIsNeeded }
{}
