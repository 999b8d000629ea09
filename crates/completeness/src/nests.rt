//! Laws of what the claims of nests owe the checker, in plans that `lower` makes.

ghost use Rattle.completeness.specs.Nested.{NestTestsAreLeft, PlacesAndNestsAreLeft};

/// Of a schedule under which each stored function is a root function that is computed at no loop, whatever the loops: all that the claim of a nest owes is
/// shown where the tests of nests say yes to the nest. What it stores is of the claim's function, in the claim's buffer, and the claim of the definition
/// before is in force before it and has its region. It is asked that the forms of claims' regions are within the limits of forms, and their numbers within
/// half of theirs.
pub fn nest_tests_are_left()
    ensures { NestTestsAreLeft }
{}

/// So all that the lines of a group owe is shown where this is: of stores, that the points where they store have places and lie in the regions of their
/// claims, and that those that they load do (K4, K5); and of nests, that the tests of nests say yes to them, that they make their claims, and the steps of
/// updates in their order (K6, K7). It is asked what is of lines `fetch` and `publish`, and of the names that lines `store` owe.
pub fn places_and_nests_are_left()
    ensures { PlacesAndNestsAreLeft }
{}
