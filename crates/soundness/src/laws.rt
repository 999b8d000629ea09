//! What is proved of plans that are sound.

ghost use Rattle.soundness.specs.Handed.{SlidingIsMade, TurnsHandOn};
ghost use Rattle.soundness.specs.Right.{PrivateRunsAreRight};
ghost use Rattle.soundness.specs.Shown.{MeantIsSound, ShownIsSound};
ghost use Rattle.soundness.specs.Stored.{DefinitionsAreRight, GivenIsOfAlgorithm};

/// The private run of a sound piece makes no fault, and each cell that it gives has the value of its
/// function.
pub fn private_runs_are_right()
    ensures { PrivateRunsAreRight }
{}

/// A store whose expression, with each load read as a call of its claim's function, is the function's
/// definition with the calls of unstored functions put in, does what the definition says: a pure one
/// gives the algorithm's value, and an update's gives the place of its left side the right side's
/// value and leaves every other.
pub fn definitions_are_right()
    ensures { DefinitionsAreRight }
{}

/// A piece whose obligations all hold, whatever the symbols stand for, is sound at every point of the
/// grid. Updates' left sides may be found by expressions, those of pure definitions are forms.
pub fn meant_is_sound()
    ensures { MeantIsSound }
{}

/// A piece whose obligations are all shown is sound at every point of the grid.
pub fn shown_is_sound()
    ensures { ShownIsSound }
{}

/// What a well-formed algorithm gives to a plan is the algorithm's: a call of a function answers its
/// value after all steps of its updates, and steps are those of the updates' reduction points.
pub fn given_is_of_algorithm()
    ensures { GivenIsOfAlgorithm }
{}

/// What a turn leaves of a claim, whose statement stands in the loop's body and along whose region a
/// window moves, is known where that statement begins in the next turn.
pub fn turns_hand_on()
    ensures { TurnsHandOn }
{}

/// What a statement does that slides makes its claim, where it finds what the turn before left.
pub fn sliding_is_made()
    ensures { SlidingIsMade }
{}
