//! Plans written out whose nests the tests take, or do not.

ghost use Rattle.soundness.specs.Nests.Worked.{NestsAreTested};

/// A running sum, a histogram and pieces of rows: their nests pass. A region wider than what is
/// stored, a reduction point left out, a step done twice, the last variable fastest, a fold of fewer
/// places than rows and a buffer stored in two lines do not.
pub fn nests_are_tested()
    ensures { NestsAreTested }
{}
