//! Laws of the definitions, each the contract of a function that does nothing.

ghost use Rattle.meaning.specs.Cases.{FollowsCases};
ghost use Rattle.meaning.specs.Count.{CountFollowsCases, CountsStandBesideValues};
ghost use Rattle.meaning.specs.Functions.{CallsGoBack, ValuesStandOnThoseBefore, ValuesAreOfTheirTypes};
ghost use Rattle.meaning.specs.Points.{PointsAreTheDomain, PointsAreCounted};
ghost use Rattle.meaning.specs.Props.{FormHasOneProof};
ghost use Rattle.meaning.specs.Steps.{StepsAgree, StepsFollowCases};

/// The value after some points of an update is given by three cases.
pub fn value_follows_cases()
    ensures { FollowsCases }
{}

/// The list of a reduction domain's points has each point of the domain once, in order.
pub fn points_are_the_domain()
    ensures domain { PointsAreTheDomain }
    ensures counted { PointsAreCounted }
{}

/// The value by steps counted through all updates is the value by update and reduction point, and each step follows the cases.
pub fn steps_are_the_value()
    ensures agree { StepsAgree }
    ensures cases { StepsFollowCases }
{}

/// In a well-formed algorithm calls go to the input and to earlier functions, and in updates to the function itself.
pub fn calls_go_back()
    ensures { CallsGoBack }
{}

/// The value of a function stands on the input and the functions before it alone, and a call of the function gives it.
pub fn values_stand_on_those_before()
    ensures { ValuesStandOnThoseBefore }
{}

/// In a well-formed algorithm each value of a function is a value of its type.
pub fn values_are_of_their_types()
    ensures { ValuesAreOfTheirTypes }
{}

/// The evaluation count is given by three cases too, and the values beside it are the functions' values.
pub fn counts_stand_beside_values()
    ensures cases { CountFollowsCases }
    ensures beside { CountsStandBesideValues }
{}

/// That an algorithm is well formed is one fact: a type's invariant may hold it.
pub fn form_has_one_proof()
    ensures { FormHasOneProof }
{}
