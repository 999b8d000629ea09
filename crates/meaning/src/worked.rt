//! Worked examples of the definitions, each a clause of a function that does nothing.

ghost use Rattle.meaning.specs.Worked.{MeansOfThree, MeanOfOnePixel, SumsWrap, SumsRun, SumsAreCounted, Histogram, FirstRunsFastest, OtherPointsSoFar, StepsOfTheMirror, ChainIsCounted, ChainGives};

/// The examples of the documents.
pub fn worked_examples()
    ensures means { MeansOfThree }
    ensures one_pixel { MeanOfOnePixel }
    ensures sums_wrap { SumsWrap }
    ensures sums_run { SumsRun }
    ensures sums_are_counted { SumsAreCounted }
    ensures histogram { Histogram }
    ensures first_runs_fastest { FirstRunsFastest }
    ensures other_points_so_far { OtherPointsSoFar }
    ensures steps_of_the_mirror { StepsOfTheMirror }
    ensures chain_is_counted { ChainIsCounted }
    ensures chain_gives { ChainGives }
{}
