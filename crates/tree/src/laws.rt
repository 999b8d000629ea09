//! Laws of expressions, each the contract of a function that does nothing.

ghost use Rattle.tree.specs.Laws.{ValueFollowsCalls, ValueFollowsVariables, CallsAreThoseThatStand, SubstitutionIsUpdate, ReplacedCallsKeepTheValue, CrossedClampIsLow, TypesHold, TypedCallsHaveFewIndices, SubstitutionKeepsTheType, ReplacedCallsKeepTheType};
ghost use Rattle.tree.specs.Worked.{MeanOfThree, BothArmsAsk, Clamps, NoTypes};

/// The value depends on answers only through the answers to the calls that the expression makes.
pub fn value_follows_calls()
    ensures { ValueFollowsCalls }
{}

/// The value depends on variables only through those that occur in the expression.
pub fn value_follows_variables()
    ensures { ValueFollowsVariables }
{}

/// The calls that an expression makes are those that stand in it, at the values of their indices.
pub fn calls_are_those_that_stand()
    ensures { CallsAreThoseThatStand }
{}

/// Putting expressions in for variables is giving the variables their numbers.
pub fn substitution_is_update()
    ensures { SubstitutionIsUpdate }
{}

/// Replacing calls by expressions of the same value keeps the value.
pub fn replaced_calls_keep_the_value()
    ensures { ReplacedCallsKeepTheValue }
{}

/// A clamp whose ends are crossed gives the lower one.
pub fn crossed_clamp_is_low()
    ensures { CrossedClampIsLow }
{}

/// The value of an expression is one of its type, and it makes only calls that can be made.
pub fn types_hold()
    ensures { TypesHold }
{}

/// Where nothing takes more than four indices, no call of a typed expression has more.
pub fn typed_calls_have_few_indices()
    ensures { TypedCallsHaveFewIndices }
{}

/// Putting expressions in for variables keeps the type.
pub fn substitution_keeps_the_type()
    ensures { SubstitutionKeepsTheType }
{}

/// Replacing calls by expressions of the same type keeps the type.
pub fn replaced_calls_keep_the_type()
    ensures { ReplacedCallsKeepTheType }
{}

/// Worked examples of the definitions.
pub fn worked_examples()
    ensures mean_of_three { MeanOfThree }
    ensures both_arms_ask { BothArmsAsk }
    ensures clamps { Clamps }
    ensures no_types { NoTypes }
{}
