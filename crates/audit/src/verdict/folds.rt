//! Greater folds: a plan whose folded buffers have more places, and whose windows say so.

ghost use Rattle.audit.specs.Verdict.Folds.{RaisedHaveTheSame};
ghost use Rattle.audit.specs.Verdict.Raised.{RaisedAreAccepted, RaisedStayShown, SlideStaysAccepted, SmallFormsRise};

/// Two plans that differ in nothing but that folds of the second are greater, in lines `alloc` of some buffers and in the windows
/// over these, have the same cells, pieces and lines.
pub fn raised_have_the_same()
    ensures { RaisedHaveTheSame }
{}

/// All that a group's lines owe (that accesses stay in buffers, that claims are made, that windows hold) is shown with greater
/// folds where it is shown with the lesser ones, by any rules which, of the group's forms and under its binders, show a form to be
/// at most the last of more numbers where they show it to be at most the last of fewer.
pub fn raised_stay_shown()
    ensures { RaisedStayShown }
{}

/// The checker's rules are such rules of forms whose constants are at most 2^20 on either side of 0, under loops and names of which
/// the greatest constants of all symbols, up to 256, come to at most 2^20 - 8 together, for up to 2^22 places.
pub fn small_forms_rise()
    ensures { SmallFormsRise }
{}

/// An accepted plan stays accepted with greater folds, if its forms have such constants and no line of its groups gets a flaw by
/// names or limits, as one of too many places in its buffers. So, by `laws::accepted_is_right`, both give what the algorithm says.
pub fn raised_are_accepted()
    ensures { RaisedAreAccepted }
{}

/// The plan of a mean of three rows, whose buffer slides along the loop over the rows, is accepted with any number of places for
/// rows from three on, up to 2^19 more.
pub fn slide_stays_accepted()
    ensures { SlideStaysAccepted }
{}
