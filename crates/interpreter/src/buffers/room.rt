//! The places of one coordinate.

ghost use Rattle.std.specs.Prelude.{◌≡◌};
ghost use Rattle.plan.specs.Rooms.{below, seat, Straight, Wrapped as WrappedRoom};
ghost use Rattle.interpreter.specs.declared.buffers.room.Room.TheVariants.{Wrapped};

use smallvec::SmallVec;

/// The places of all coordinates. Up to four take no memory of the heap.
pub type Rooms = SmallVec<Room, 4>;

/// The places that a buffer has for one coordinate.
#[derive(Clone, Copy, PartialEq, Eq, Drop)]
pub enum Room {
    /// So many places, the first for the coordinate `origin`.
    Straight { origin: i64, count: u64 },
    /// So many places, where a coordinate has the place of its remainder by `count`.
    Wrapped { count: u64 },
}

/// No place.
impl Default for Room {
    ghost is_default = { λ r. r ≡ Wrapped 0 };

    fn default() -> Room {
        Room::Wrapped { count: 0 }
    }
}

// The number, where it is one below the count.
fn below(count: u64, number: i128) -> Option<usize>
    ensures { result ≡ below count number }
{
    if 0 <= number && number < i128::from(count) {
        Some(number as usize)
    } else {
        None
    }
}

// The number, if it is one below the count.
fn below_count(count: u64, number: i64) -> Option<usize>
    ensures { result ≡ below count number }
{
    if 0 <= number && (number as u64) < count {
        Some(number as usize)
    } else {
        None
    }
}

// The place of a coordinate among so many from the origin on. Numbers of 128 bits are taken only where 64 bits are too few.
fn straight_seat(origin: i64, count: u64, coordinate: i64) -> Option<usize>
    ensures { result ≡ seat (Straight origin count) coordinate }
{
    match coordinate.checked_sub(origin) {
        Some(distance) => below_count(count, distance),
        None => below(count, i128::from(coordinate) - i128::from(origin)),
    }
}

// The place of a coordinate among so many that are used again and again.
fn wrapped_seat(count: u64, coordinate: i64) -> Option<usize>
    ensures { result ≡ seat (WrappedRoom count) coordinate }
{
    match i64::try_from(count) {
        Ok(0) => None,
        Ok(divisor) => below_count(count, coordinate.rem_euclid(divisor)),
        Err(_) => below(count, i128::from(coordinate).rem_euclid(i128::from(count))),
    }
}

impl Room {
    ghost use Rattle.interpreter.specs.Buffers.Rooms.{room_of};
    ghost use Rattle.interpreter.specs.Buffers.Raster.{room_count};

    /// How many places there are.
    pub(crate) fn count(&self) -> u64
        ensures { result ≡ room_count (room_of self.now) }
    {
        match self {
            Room::Straight { count, .. } => *count,
            Room::Wrapped { count } => *count,
        }
    }

    /// The place of a coordinate, counted from 0; nothing where it has none.
    pub(crate) fn seat(&self, coordinate: i64) -> Option<usize>
        ensures { result ≡ seat (room_of self.now) coordinate }
    {
        match self {
            Room::Straight { origin, count } => straight_seat(*origin, *count, coordinate),
            Room::Wrapped { count } => wrapped_seat(*count, coordinate),
        }
    }
}
