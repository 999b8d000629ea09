//! What a piece is told of other pieces' cells.

ghost use Rattle.std.specs.Prelude.{◌≡◌, ◌<◌, ℕ, ℤ, length, List, IfSome};
ghost use Rattle.tree.specs.declared.value.Value.{Value as ValueFetched};
ghost use Rattle.interpreter.specs.CellRows.{IsRow};

use numeric::Ty;
use tree::Value;

/// What the numbers of a row of cells tell of the values.
#[derive(Clone, Copy, PartialEq, Eq, Drop)]
pub enum NumberKind {
    /// Each is a value's number.
    Exact,
    /// Each has a value's bits: the value is the number wrapped to the type.
    Bits,
}

/// The values of a function's cells at points side by side along the first coordinate.
#[derive(Clone, Copy, Drop)]
pub struct CellRow<'a> {
    pub ty: Ty,
    pub numbers: &'a [i64],
    pub kind: NumberKind,
}

/// The values of the cells that a piece fetches.
pub trait Cells {
    ghost cell: { Self → List ℕ → List ℤ → ValueFetched };

    /// The value of a function's cell at a point.
    fn cell(&self, function: &str, at: &[i64]) -> Value
        ensures { result ≡ cell self.now function.now at.now };

    /// The values of a function's cells at so many points, from one on along its first coordinate, where they are at hand side by
    /// side. `None` tells nothing of the cells: each can be asked for by itself.
    fn row(&self, function: &str, at: &[i64], count: usize) -> Option<CellRow<'_>>
        ensures { IfSome result (IsRow (cell self.now) function.now at.now count) };
}
