//! Laws, each the contract of a function that does nothing.

ghost use Rattle.algo.specs.Laws.{ToldBreaks, WellFormedBreaksNothing, RefusedIsNoAlgorithm, LaterCallsAreNamed, NamesAreWords, ExpressionsAreWritten};

/// A fault that is told at its place breaks the condition of its code.
pub fn told_faults_break_conditions()
    ensures { ToldBreaks }
{}

/// A file that is refused for a condition on its statements is not well formed.
pub fn refused_is_ill_formed()
    ensures { WellFormedBreaksNothing }
{}

/// A text that is refused is no algorithm, where memory did not run out.
pub fn refused_is_no_algorithm()
    ensures { RefusedIsNoAlgorithm }
{}

/// The bytes of the text where a later call is refused are its name.
pub fn later_calls_are_named()
    ensures { LaterCallsAreNamed }
{}

/// The names of an algorithm text are words: 1 to 16 letters, digits and `_`, the first of them no digit, that are no type
/// and no word of the grammar.
pub fn names_are_words()
    ensures { NamesAreWords }
{}

/// The expressions of an algorithm text have literals from 0 on that are in their types, such names, and an index at least
/// in each call.
pub fn expressions_are_written()
    ensures { ExpressionsAreWritten }
{}
