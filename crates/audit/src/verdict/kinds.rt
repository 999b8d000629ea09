//! Whether a loop is written out changes nothing of what a plan does.

ghost use Rattle.audit.specs.Verdict.Alike.{AlikeAreAccepted};
ghost use Rattle.audit.specs.Verdict.Kinds.{ActionsStay, AlikeDoTheSame};
ghost use Rattle.audit.specs.Verdict.Owed.{ShownStays};
ghost use Rattle.audit.specs.Verdict.Tests.{TestsStay};

/// A statement does the same, cell by cell and in order, where none of its loops is written out.
pub fn actions_stay()
    ensures { ActionsStay }
{}

/// Two plans that differ in nothing but in which of their loops are written out and which run one turn after another have the
/// same cells, pieces and lines, and in both each piece gives the same, or makes a fault.
pub fn alike_do_the_same()
    ensures { AlikeDoTheSame }
{}

/// The tests of plain nests, of split ones and of windows say the same of a statement where none of its loops is written out.
pub fn tests_stay()
    ensures { TestsStay }
{}

/// What the lines of a statement owe is shown where and only where it is shown of the same statement with none of its loops written
/// out.
pub fn shown_stays()
    ensures { ShownStays }
{}

/// An accepted plan stays accepted where other loops of it are written out, if each of these is shown to have few turns.
pub fn alike_are_accepted()
    ensures { AlikeAreAccepted }
{}
