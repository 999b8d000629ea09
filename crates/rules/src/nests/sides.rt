//! The left side of a store, and its reduction variables.

ghost use Rattle.std.specs.Prelude.{◌≡◌, drop, take};
ghost use Rattle.rules.specs.Nests.View.{coordinates_of};

use plan::Coordinate;

/// The coordinates of the left side: so many, from the first on.
#[tactic(auto, using(crate::proofs::Stores::mapped_left, crate::proofs::Stores::mapped_all))]
pub(crate) fn left_of(coordinates: &[Coordinate], count: usize) -> &[Coordinate]
    ensures { coordinates_of result.now ≡ take count (coordinates_of coordinates.now) }
{
    if count < coordinates.len() {
        &coordinates[..count]
    } else {
        coordinates
    }
}

/// The coordinates behind those of the left side.
#[tactic(auto, using(crate::proofs::Stores::mapped_over, crate::proofs::Stores::mapped_none))]
pub(crate) fn over_of(coordinates: &[Coordinate], count: usize) -> &[Coordinate]
    ensures { coordinates_of result.now ≡ drop count (coordinates_of coordinates.now) }
{
    if count < coordinates.len() {
        &coordinates[count..]
    } else {
        &[]
    }
}
