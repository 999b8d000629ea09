//! Laws of plans' texts, each the contract of a function that does nothing.

ghost use Rattle.spelling.specs.Lines.Texts.{OneValue, NeverBad};
ghost use Rattle.nest.specs.Notation.{LinesAreCounted, plan_notation};

/// A text is of one plan at most, and no line of a plan's text is a bad one.
pub fn texts_are_one()
    ensures one { OneValue plan_notation }
    ensures never_bad { NeverBad plan_notation }
{}

/// A plan's text has one line less than the number of the line `cert` behind it.
pub fn lines_are_counted()
    ensures { LinesAreCounted }
{}
