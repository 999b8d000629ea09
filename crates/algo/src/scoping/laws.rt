//! Laws, each the contract of a function that does nothing.

ghost use Rattle.algo.specs.Scoping.Laws.{PlacesAreOfVariables, PlacesAreOfCalls, EachCallIsListed, TypedIsExpression, SizeNeedsNoNames};

/// Without their places the variables and the calls at places are those of the expression.
pub fn places_are_of_the_expression()
    ensures variables { PlacesAreOfVariables }
    ensures calls { PlacesAreOfCalls }
    ensures each { EachCallIsListed }
{}

/// A small expression that has a type keeps all conditions on expressions.
pub fn typed_is_expression()
    ensures { TypedIsExpression }
{}

/// The number of a domain's points is that of its ranges' ends.
pub fn size_needs_no_names()
    ensures { SizeNeedsNoNames }
{}
