//! Laws of wrapping, division, order and comparison, each the contract of a function that does nothing.

ghost use Rattle.numeric.specs.Laws.{DivisionIsEuclids, WrapIsTheValue, ExtremesAreOfNumbers, ExtremesAreExact, ComparisonsAreOfNumbers, ProductsFollowOrder};
ghost use Rattle.numeric.specs.Worked.{Quotients, Wraps, Ends};

/// A number wraps to a value that is congruent to it, and no other value is.
pub fn wrap_is_the_value()
    ensures { WrapIsTheValue }
{}

/// Quotient and remainder are what the law of division says, and nothing else is.
pub fn division_is_euclids()
    ensures { DivisionIsEuclids }
{}

/// The lesser and the greater are those of whole numbers, and of two values they are values as they are.
pub fn extremes_are_of_numbers()
    ensures numbers { ExtremesAreOfNumbers }
    ensures exact { ExtremesAreExact }
{}

/// Each comparison is that of whole numbers.
pub fn comparisons_are_of_numbers()
    ensures { ComparisonsAreOfNumbers }
{}

/// Products distribute over sums and follow the order of whole numbers.
pub fn products_follow_order()
    ensures { ProductsFollowOrder }
{}

/// Worked examples.
pub fn worked_examples()
    ensures quotients { Quotients }
    ensures wraps { Wraps }
    ensures ends { Ends }
{}
