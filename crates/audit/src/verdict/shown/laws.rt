//! What is proved of plans of several groups that the checker accepts.

ghost use Rattle.audit.specs.Verdict.Shown.Plain.{PlainIsAccepted, PlainIsShown};
ghost use Rattle.audit.specs.Verdict.Shown.Wide.{AcceptedBodiesAreSound, AcceptedIsRight, AcceptedIsSound, PartsAreAll};
ghost use Rattle.audit.specs.Verdict.Shown.Worked.{ScanIsAccepted, TwoIsAccepted};

use headline::laws::{output_is_there, pieces_are_numbered, pieces_run_right, plans_are_right};
use meaning::image::laws::raster_is_order;
use meaning::inlining::laws::{definitions_stay, put_in_keeps_the_value};
use soundness::laws::shown_is_sound;
use soundness::nests::laws::{
    domains_are_counted, forms_are_at_most_themselves, plain_nests_are_accepted,
};
use tails::laws::plain_nests_are_taken;
use tails::windows::laws::slid_nests_are_right;

/// A plan that is accepted by rules that hold is right: on every input, in every order of steps. So is
/// its work: each piece's private run gives right values, and its body keeps inside its buffers.
pub fn accepted_is_right()
    ensures right { AcceptedIsRight }
    ensures sound { AcceptedIsSound }
    ensures bodies { AcceptedBodiesAreSound }
{
    plans_are_right();
    pieces_run_right();
    output_is_there();
    pieces_are_numbered();
    shown_is_sound();
    slid_nests_are_right();
    domains_are_counted();
    definitions_stay();
    put_in_keeps_the_value();
    raster_is_order();
}

/// Obligations that are shown in two parts are all shown.
pub fn parts_are_all()
    ensures { PartsAreAll }
{}

/// Of lines in plain form all obligations are shown where there are no windows, and each plain plan is
/// accepted, by rules that show each form within the limits to be at most itself.
pub fn plain_plans_are_accepted()
    ensures lines { PlainIsShown }
    ensures plans { PlainIsAccepted }
{
    plain_nests_are_accepted();
    plain_nests_are_taken();
}

/// A plan of two groups, of which the second fetches what the first computes, is in plain form and
/// accepted; with a turn of its loop left out or a turn too many it is not.
pub fn two_is_accepted()
    ensures { TwoIsAccepted }
{
    plain_nests_are_accepted();
    plain_nests_are_taken();
    forms_are_at_most_themselves();
}

/// The lines of a running sum, whose update's place is found by its reduction variable, are in plain
/// form, and all that they ask for is shown.
pub fn scan_is_accepted()
    ensures { ScanIsAccepted }
{}
