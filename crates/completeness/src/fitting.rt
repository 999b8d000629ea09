//! The law of how plans that `lower` makes fit their texts.

ghost use Rattle.completeness.specs.Fitting.{ShapesFit};

/// Of a schedule under which each stored function is a root function that is computed at no loop, whose loops are split once at most, no inner one parallel,
/// by whatever tails and in whatever order: in the plan that `lower` makes each body is a block, each group has the form of groups (buffers, lets and
/// fetches, then nests, then the one `publish`), and groups, symbols, buffers and blocks are numbered in order and within their limits, as `nest` asks of a
/// plan's text. What its lines say by themselves is not told here.
pub fn shapes_fit()
    ensures { ShapesFit }
{}
