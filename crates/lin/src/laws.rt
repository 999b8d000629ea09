//! Laws of forms and scopes, each the contract of a function that does nothing.

ghost use Rattle.lin.specs.Laws.{SumLaw, ValueIsOfTerms, NextSymbol};

/// The value of a form and a multiple of another is the sum of the one's value and the multiple of the other's.
pub fn value_of_sum()
    ensures { SumLaw }
{}

/// Assignments that agree on the symbols of a form give it one value.
pub fn value_is_of_terms()
    ensures { ValueIsOfTerms }
{}

/// An assignment fits a scope with one symbol more just where it fits the scope and the symbol's binding.
pub fn next_symbol()
    ensures { NextSymbol }
{}
