//! Laws of the definitions that the contracts are written with.

ghost use Rattle.std.specs.Prelude.{◌≡◌, List, Ok};
ghost use Rattle.tree.specs.declared.token.token.Token.{Token as AnyToken};
ghost use Rattle.sched.specs.Schedule.{Schedule};
ghost use Rattle.sched.specs.Reading.{file};
ghost use Rattle.sched.specs.Grammar.{schedule_then, IsWhole, StandsFor};
ghost use Rattle.sched.specs.Order.{SkeletonsBindInOrder};
ghost use Rattle.sched.specs.Runs.{ArrivalsAreRuns};
ghost use Rattle.sched.specs.Stays.{SchedulesStayInsideRegions};
ghost use Rattle.sched.specs.Visits.{SchedulesVisitTheirRegions, SkeletonsVisitTheirRegion};

/// What the grammar allows is read as what it stands for.
pub fn grammar_is_read()
    ensures { (schedule : Schedule) → IsWhole schedule → file (schedule_then schedule) ≡ Ok schedule }
{}

/// What is read is what the grammar allows.
pub fn read_is_grammar()
    ensures { (tokens : List AnyToken) (schedule : Schedule) → file tokens ≡ Ok schedule → StandsFor tokens schedule }
{}

/// Whatever directives were applied to a root function, the loops of its skeleton visit its region whole: for each of its definitions,
/// each point of the region and each value of the definition's reduction variables there are a piece of the grid and turns of the
/// loops, as a plan runs them past the guards, at which the store's coordinates come to that point. A coordinate that an expression
/// of an update finds is left open.
pub fn skeletons_visit_their_region()
    ensures { SkeletonsVisitTheirRegion }
{}

/// The same of each function of an algorithm, with the loops that a whole schedule makes of it where no directive breaks a rule.
pub fn schedules_visit_their_regions()
    ensures { SchedulesVisitTheirRegions }
{}

/// Where no loop that is split with `shift` has fewer numbers than a block, the loops that a schedule makes of a function come to
/// numbers of its region alone, in each dimension of which no split is rounded up, or only inside a loop whose split has a guard:
/// whenever a piece comes to the store of a definition, the coordinate of such a dimension, if it is a form, is a number of the
/// region. A split with `roundup` whose factor divides the numbers of its loop rounds nothing up.
pub fn schedules_stay_inside_regions()
    ensures { SchedulesStayInsideRegions }
{}

/// What a plan does with lines that stand inside the steps of a skeleton, each loop or guard around what follows it and each let in
/// front of it, is what it does with them at each arrival of the steps, in their order: once each, and nothing else.
pub fn arrivals_are_runs()
    ensures { ArrivalsAreRuns }
{}

/// The symbols that the steps of a skeleton bind rise by one, the lets over the grid behind the grid's symbols and each nest behind
/// those lets, and the forms of each step are of the symbols before it.
pub fn skeletons_bind_in_order()
    ensures { SkeletonsBindInOrder }
{}
