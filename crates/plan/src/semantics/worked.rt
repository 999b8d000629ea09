//! Plans whose private runs are computed from the definitions.

ghost use Rattle.plan.specs.Semantics.Worked.{Box2Gives, CellsAre, FaultsAre, IncPiecesGive, LinesAre, ScanGives, SlideGives};

/// What the pieces of small plans give: one more than each pixel; the mean of a pixel and the next,
/// and a fault where a place is missing; a running sum; a sliding window over three, four and seven
/// rows, and over two, which are too few; each kind of fault. The lines of their texts, and their cells and pieces.
pub fn worked_examples()
    ensures increment { IncPiecesGive }
    ensures mean { Box2Gives }
    ensures sum { ScanGives }
    ensures window { SlideGives }
    ensures faults { FaultsAre }
    ensures lines { LinesAre }
    ensures cells { CellsAre }
{}
