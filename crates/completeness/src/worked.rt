//! An algorithm and a schedule written out.

ghost use Rattle.completeness.specs.Worked.{SplitsFill, SplitsOnceFill};

/// A function over 8 by 5 points that reads the input and is updated at a left index that is no variable, in blocks of two rows, whose loop stands outside of
/// that over the blocks, so that a guard keeps them within the picture, and by four numbers, whose loop is vectorised; and an output that calls it, a piece
/// for each shifted block of two rows, in shifted blocks of three numbers: the law of all that the checker tells speaks of such a schedule. It makes a let
/// over the grid; each nest of the one has a guard and a let behind it, that of the other the let of a shifted block. By computation.
pub fn splits_are_plain()
    ensures { SplitsFill }
{}

/// The same functions in shifted blocks of two rows, one to a piece, and in blocks whose loop stands outside of that over the blocks, which a guard keeps
/// within the picture: the law of texts speaks of such a schedule, and its definitions are small; it makes a let over the grid, and in each nest a guard and
/// a let behind it. By computation.
pub fn splits_are_once()
    ensures { SplitsOnceFill }
{}
