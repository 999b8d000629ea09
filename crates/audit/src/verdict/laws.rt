//! What is proved of plans that are accepted, and of those that are refused.

ghost use Rattle.audit.specs.Verdict.Laws.{AcceptedIsReady, AcceptedIsRight, FaultsAreRefusals, PlainIsAccepted};
ghost use Rattle.audit.specs.Verdict.Worked.{WorkedPlansAreAccepted};

use crate::verdict::bounded::near_is_narrow;
use crate::verdict::clear::{
    groups_are_apart, groups_are_free, groups_are_near, plans_are_small, regions_are_small,
};
use crate::verdict::indices::{given_are_indices, set_are_indices};
use crate::verdict::shown::laws::plain_plans_are_accepted;
use headline::laws::{
    cells_are_apart, cells_are_numbered, parts_are_the_work, pieces_are_numbered,
};
use obligations::laws::shown_is_nothing_told;
use rules::bounding::laws::{rules_are_suited, rules_say_same};
use shares::laws::faults_have_no_shares;
use validation::certificate::laws::no_flaw_is_clear;
use validation::groups::laws::{bodies_are_covered, groups_are_published, stores_are_definitions};

/// A plan that is accepted may be run: on every input its pieces are sound work, its pieces and cells are few, and its
/// forms come to 64-bit numbers; and the coordinates of its cells are `i32` values.
pub fn accepted_is_ready()
    ensures { AcceptedIsReady }
{
    groups_are_published();
    bodies_are_covered();
    stores_are_definitions();
    groups_are_free();
    groups_are_near();
    regions_are_small();
    plans_are_small();
    groups_are_apart();
    no_flaw_is_clear();
    rules_are_suited();
    near_is_narrow();
    set_are_indices();
    given_are_indices();
    cells_are_numbered();
    pieces_are_numbered();
    parts_are_the_work();
    cells_are_apart();
    crate::verdict::shown::laws::accepted_is_right();
}

/// A plan that is accepted is right: on every input, in every order of steps.
pub fn accepted_is_right()
    ensures { AcceptedIsRight }
{
    accepted_is_ready();
}

/// A plan of which each group's lines are in plain form is accepted, where all else that is asked holds.
pub fn plain_is_accepted()
    ensures { PlainIsAccepted }
{
    plain_plans_are_accepted();
    rules_say_same();
}

/// A plan of which a code and a line tell a fault is not accepted.
pub fn faults_are_refusals()
    ensures { FaultsAreRefusals }
{
    groups_are_apart();
    shown_is_nothing_told();
    faults_have_no_shares();
}

/// A plan of two groups is accepted by the checker's own rules; where a line of it is altered it has the fault that the
/// alteration makes.
pub fn worked_plans_are_accepted()
    ensures { WorkedPlansAreAccepted }
{}
