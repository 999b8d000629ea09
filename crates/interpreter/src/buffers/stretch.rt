//! Places of a buffer that lie side by side.

ghost use Rattle.std.specs.Prelude.{◌≡◌, ◌∷◌, ◌<◌, ◌+◌, ◌*◌, ◌^◌, ◌+ℤ◌, ℕ, pos, IfSome, map};
ghost use Rattle.plan.specs.Rooms.{Straight};
ghost use Rattle.interpreter.specs.Buffers.Rooms.{room_of};
ghost use Rattle.interpreter.specs.Buffers.Raster.{place_count, room_count, LiesAt};

use crate::buffers::raster::place_number;
use crate::buffers::room::Room;

/// Places side by side of a buffer: those of points that differ in the first coordinate alone. The first coordinate that has a
/// place, how many have one, and the number of the first place.
#[derive(Clone, Copy, Drop)]
pub(crate) struct Stretch {
    pub origin: i64,
    pub count: usize,
    pub start: usize,
}

/// The product, where it is a `usize`.
fn product(left: usize, right: usize) -> Option<usize>
    ensures { IfSome result (λ n. n ≡ left * right) }
{
    left.checked_mul(right)
}

/// The places of the points with these coordinates behind the first one, where that has so many from `origin` on.
fn straight(origin: i64, count: u64, later: &[Room], others: &[i64]) -> Option<Stretch>
    requires { place_count (map room_of later.now) * count < 2 ^ 64 }
    ensures { IfSome result (λ s. (k : ℕ) → k < s.count → LiesAt (Straight origin count ∷ map room_of later.now) ((s.origin +ℤ pos k) ∷ others.now) (s.start + k)) }
{
    if count == 0 {
        return None;
    }
    let row = place_number(later, others)?;
    let start = product(row, count as usize)?;
    Some(Stretch {
        origin,
        count: count as usize,
        start,
    })
}

/// The places of the points with these coordinates behind the first one, which has these places.
fn behind(first: Room, later: &[Room], others: &[i64]) -> Option<Stretch>
    requires { place_count (map room_of later.now) * room_count (room_of first) < 2 ^ 64 }
    ensures { IfSome result (λ s. (k : ℕ) → k < s.count → LiesAt (room_of first ∷ map room_of later.now) ((s.origin +ℤ pos k) ∷ others.now) (s.start + k)) }
{
    match first {
        Room::Straight { origin, count } => straight(origin, count, later, others),
        Room::Wrapped { .. } => None,
    }
}

/// The places of the points with these coordinates behind the first one. Nothing where there are none, or they are used
/// again and again.
pub(crate) fn stretch_of(rooms: &[Room], others: &[i64]) -> Option<Stretch>
    requires { place_count (map room_of rooms.now) < 2 ^ 64 }
    ensures { IfSome result (λ s. (k : ℕ) → k < s.count → LiesAt (map room_of rooms.now) ((s.origin +ℤ pos k) ∷ others.now) (s.start + k)) }
{
    match rooms {
        [first, later @ ..] => behind(*first, later, others),
        [] => None,
    }
}
