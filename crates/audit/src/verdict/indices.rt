//! The points of cells have coordinates that are `i32` values.

ghost use Rattle.audit.specs.Verdict.Indices.{GivenAreIndices, SetAreIndices};

/// A piece of a group whose stores' coordinates are shown to be `i32` values sets such points alone, where the
/// cells that it fetches have such points.
pub fn set_are_indices()
    ensures { SetAreIndices }
{}

/// A sound piece gives no cell whose point it does not set, by a fetch or by a store of a pure definition: where it sets
/// points of `i32` coordinates alone it gives no others.
pub fn given_are_indices()
    ensures { GivenAreIndices }
{}
