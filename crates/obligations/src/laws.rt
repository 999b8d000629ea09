//! What is proved of what is told.

ghost use Rattle.obligations.specs.Laws.{LaterIsSilent, NothingToldIsShown, PartIsShown, ShownIsNothingTold, ToldIsAsked};

/// Where nothing is told of either part of the obligations, all are shown.
#[tactic(auto, using(crate::proofs::Silent::nothing_told_is_shown))]
pub fn nothing_told_is_shown()
    ensures { NothingToldIsShown }
{}

/// Where all obligations are shown, nothing is told of either part.
#[tactic(auto, using(crate::proofs::Silent::shown_is_nothing_told))]
pub fn shown_is_nothing_told()
    ensures { ShownIsNothingTold }
{}

/// Nothing is told of some of the obligations exactly where these are all shown: of those that are told before a flaw, too.
#[tactic(auto, using(crate::proofs::Earlier::part_is_shown))]
pub fn part_is_shown()
    ensures { PartIsShown }
{}

/// Where nothing is told before a flaw, nothing is told before one that does not stand after it.
#[tactic(auto, using(crate::proofs::Earlier::later_is_silent))]
pub fn later_is_silent()
    ensures { LaterIsSilent }
{}

/// What is told is one of those that are asked after: what is told before a flaw stands before it.
#[tactic(auto, using(crate::proofs::Earlier::told_is_asked))]
pub fn told_is_asked()
    ensures { ToldIsAsked }
{}
