//! What follows where no line of a plan, and none of its certificate, has a flaw.

ghost use Rattle.audit.specs.Verdict.Clear.{FetchesAreRead, GridsAreSmall, GroupsAreApart, GroupsAreFree, GroupsAreNear, PlansAreDrawn, PlansAreShared, PlansAreSmall, RegionsAreSmall};

use validation::groups::laws::{limits_are_told, wide_forms_are_told};

/// No definition that a line of a group stores comes to a function that has updates and is not stored.
pub fn groups_are_free()
    ensures { GroupsAreFree }
{}

/// What the shares of the pieces rest on holds, so that they can be told.
pub fn plans_are_shared()
    ensures { PlansAreShared }
{}

/// What the shares of the pieces rest on in the lines of groups holds, whatever the certificate.
pub fn plans_are_drawn()
    ensures { PlansAreDrawn }
{}

/// Of the fetch lines before the first broken line of a group it can be told what they read.
pub fn fetches_are_read()
    ensures { FetchesAreRead }
{
    wide_forms_are_told();
    limits_are_told();
}

/// The forms of each group stand, where its loops' symbols and its stores' coordinates are shown to be narrow.
pub fn groups_are_near()
    ensures { GroupsAreNear }
{}

/// Each group's region has one constant at each end, and from 1 to 8192 numbers between them.
pub fn regions_are_small()
    ensures { RegionsAreSmall }
{}

/// A plan has at most 2^24 cells and at most 2^20 pieces.
pub fn plans_are_small()
    ensures { PlansAreSmall }
{}

/// Each group's region has ends, and no two groups have one function.
pub fn groups_are_apart()
    ensures { GroupsAreApart }
{}

/// The counts of a grid are at most 2^20, where none of them is 0.
pub fn grids_are_small()
    ensures { GridsAreSmall }
{}
