//! Laws of putting calls in, each the contract of a function that does nothing.

ghost use Rattle.meaning.specs.Inlining.Laws.{
  PutInKeepsTheValue,
  UpdatesKeepTheirSides,
  PutInKeepsTheType,
  CallsThatStay,
  PureDefinitions,
  CallsOfUpdates,
  PutInWherePossible,
};

/// An expression keeps its value where calls are put in, under every input; so do the sides of an update, whatever its
/// function's values so far are.
pub fn put_in_keeps_the_value()
    ensures value { PutInKeepsTheValue }
    ensures updates { UpdatesKeepTheirSides }
{}

/// An expression keeps its type where calls are put in.
pub fn put_in_keeps_the_type()
    ensures { PutInKeepsTheType }
{}

/// Calls of the input and of stored functions stay, and no others are left.
pub fn put_in_leaves_stored_calls()
    ensures { CallsThatStay }
{}

/// A pure definition with the calls put in has its function's values and its type.
pub fn definitions_stay()
    ensures pure { PureDefinitions }
    ensures where_possible { PutInWherePossible }
{}

/// A call comes to updates by its own function or by that function's definition.
pub fn calls_come_to_updates()
    ensures { CallsOfUpdates }
{}
