//! Laws of the command line, each the contract of a function that does nothing.

ghost use Rattle.commands.specs.Worked.{CheckWithNames, CompareWithNames, CompileWithNames, CostWithNames, DrawWithNames, DrawWithOrder, ExplainWithCode, ExplainedWords, FormatWithNames};
ghost use Rattle.commands.specs.Worked.{CompareByFirst, CropWithNames, MisusedSides, TilesWithNames};
ghost use Rattle.commands.specs.Worked.{HelpWords, MisusedLimits, MisusedWords, MisusedWorkers, PlainWithLimit, PlainWithNames, ReplayWithNames, RunWithLimit, RunWithNames, RunWithWorkers, ShowWithNames, VersionWords};

/// What words that are written out ask for.
pub fn words_are_read()
    ensures plain { PlainWithNames }
    ensures format { FormatWithNames }
    ensures explain { ExplainWithCode }
    ensures run { RunWithNames }
    ensures workers { RunWithWorkers }
    ensures compile { CompileWithNames }
    ensures compare { CompareWithNames }
    ensures by_first { CompareByFirst }
    ensures check { CheckWithNames }
    ensures cost { CostWithNames }
    ensures show { ShowWithNames }
    ensures draw { DrawWithNames }
    ensures drawn_after { DrawWithOrder }
    ensures crop { CropWithNames }
    ensures tiles { TilesWithNames }
    ensures evaluations { PlainWithLimit }
    ensures stores { RunWithLimit }
    ensures replay { ReplayWithNames }
    ensures explained { ExplainedWords }
    ensures help { HelpWords }
    ensures version { VersionWords }
    ensures misuse { MisusedWords }
    ensures crews { MisusedWorkers }
    ensures limits { MisusedLimits }
    ensures sides { MisusedSides }
{}
