//! Where the places of a buffer stand in its vector.

ghost use Rattle.std.specs.Prelude.{◌≡◌, ◌∷◌, [], ◌<◌, ◌≤◌, ◌^◌, ◌+ℤ◌, ◌≤ℤ◌, ◌<ℤ◌, ℕ, length, pos, IfSome, SomeIff, MatchOption, map, None};
ghost use Rattle.std.specs.Bool.{OnTrue};
ghost use Rattle.plan.specs.Rooms.{place, Straight};
ghost use Rattle.interpreter.specs.Buffers.Rooms.{room_of};
ghost use Rattle.interpreter.specs.Buffers.Raster.{place_count, LiesAt};
ghost use Rattle.interpreter.specs.Evaluation.Lanes.{number_at};
ghost use Rattle.interpreter.specs.PlaceNumbers.{place_at, IsOneMore};
ghost use Rattle.interpreter.specs.Updates.{columns_at};

use crate::buffers::room::Room;
use crate::columns::number_of;
use crate::evaluation::Number;
use crate::run_reading::registers_behind;

/// How many places the rooms make, where that is a `usize`.
pub(crate) fn place_count(rooms: &[Room]) -> Option<usize>
    ensures { SomeIff result (place_count (map room_of rooms.now) < 2 ^ 64) (place_count (map room_of rooms.now)) }
{
    match rooms {
        [] => Some(1),
        [room, rooms @ ..] => match room.count() {
            0 => Some(0),
            count => place_count(rooms)?.checked_mul(count as usize),
        },
    }
}

/// The number of a place of one coordinate.
#[inline(always)]
fn place_of_one(room: &Room, coordinate: i64) -> Option<usize>
    ensures { MatchOption result (place (room_of room.now ∷ []) (coordinate ∷ []) ≡ None) (λ n. LiesAt (room_of room.now ∷ []) (coordinate ∷ []) n) }
{
    let seat = room.seat(coordinate)?;
    Some(seat)
}

/// The number of a place of two coordinates.
#[inline(always)]
fn place_of_two(first: &Room, second: &Room, x: i64, y: i64) -> Option<usize>
    requires { place_count (room_of first.now ∷ room_of second.now ∷ []) < 2 ^ 64 }
    ensures { MatchOption result (place (room_of first.now ∷ room_of second.now ∷ []) (x ∷ y ∷ []) ≡ None) (λ n. LiesAt (room_of first.now ∷ room_of second.now ∷ []) (x ∷ y ∷ []) n) }
{
    let seat = first.seat(x)?;
    let later = place_of_one(second, y)?;
    Some(later * first.count() as usize + seat)
}

/// The number of a place of three coordinates.
#[inline(always)]
fn place_of_three(
    first: &Room,
    second: &Room,
    third: &Room,
    x: i64,
    y: i64,
    z: i64,
) -> Option<usize>
    requires { place_count (room_of first.now ∷ room_of second.now ∷ room_of third.now ∷ []) < 2 ^ 64 }
    ensures { MatchOption result (place (room_of first.now ∷ room_of second.now ∷ room_of third.now ∷ []) (x ∷ y ∷ z ∷ []) ≡ None) (λ n. LiesAt (room_of first.now ∷ room_of second.now ∷ room_of third.now ∷ []) (x ∷ y ∷ z ∷ []) n) }
{
    let seat = first.seat(x)?;
    let later = place_of_two(second, third, y, z)?;
    Some(later * first.count() as usize + seat)
}

/// The number of a point's place in raster order, by one coordinate after another; nothing where the point has no place.
fn place_by_each(rooms: &[Room], at: &[i64]) -> Option<usize>
    requires { place_count (map room_of rooms.now) < 2 ^ 64 }
    ensures { MatchOption result (place (map room_of rooms.now) at.now ≡ None) (λ n. LiesAt (map room_of rooms.now) at.now n) }
{
    match (rooms, at) {
        ([], []) => Some(0),
        ([room, rooms @ ..], [coordinate, at @ ..]) => {
            let seat = room.seat(*coordinate)?;
            let later = place_by_each(rooms, at)?;
            Some(later * room.count() as usize + seat)
        }
        _ => None,
    }
}

/// The number of a point's place in raster order; nothing where the point has no place. One coordinate is taken by itself, and two
/// or three at once.
pub(crate) fn place_number(rooms: &[Room], at: &[i64]) -> Option<usize>
    requires { place_count (map room_of rooms.now) < 2 ^ 64 }
    ensures { MatchOption result (place (map room_of rooms.now) at.now ≡ None) (λ n. LiesAt (map room_of rooms.now) at.now n) }
{
    match (rooms, at) {
        ([room], [coordinate]) => place_of_one(room, *coordinate),
        ([first, second], [x, y]) => place_of_two(first, second, *x, *y),
        ([first, second, third], [x, y, z]) => place_of_three(first, second, third, *x, *y, *z),
        _ => place_by_each(rooms, at),
    }
}

/// The number of a place with one coordinate more, which is this number in the room, where the place of the later ones has a
/// number.
#[inline(always)]
fn place_more(room: Room, number: i64, place: usize) -> Option<usize>
    ensures { IfSome result (IsOneMore (room_of room) number place) }
{
    let seat = room.seat(number)?;
    let before = place.checked_mul(room.count() as usize)?;
    before.checked_add(seat)
}

/// The first so many places are the first one.
fn begin_places(count: usize, places: &mut [usize])
    requires { count ≤ length places.old }
    ensures { (k : ℕ) → k < count → place_at places.new k ≡ 0 }
{
    for turn in 0..count {
        places[turn] = 0;
    }
}

/// Whether a number lies from the origin on and before the end.
#[inline(always)]
fn lies_before(origin: i64, end: i64, number: Number) -> bool
    ensures { OnTrue result ((origin ≤ℤ number.value) × (number.value <ℤ end)) }
{
    origin <= number.value && number.value < end
}

/// Whether the first so many numbers do. All are looked at, so that several are at once.
fn all_lie_before(origin: i64, end: i64, count: usize, numbers: &[Number]) -> bool
    requires { count ≤ length numbers.now }
    ensures { OnTrue result ((k : ℕ) → k < count → (origin ≤ℤ number_at numbers.now k) × (number_at numbers.now k <ℤ end)) }
{
    let mut all = true;
    for turn in 0..count {
        let one = lies_before(origin, end, numbers[turn]);
        all = all & one;
    }
    all
}

/// Whether none of the first so many places has a large number.
fn are_small(count: usize, places: &[usize]) -> bool
    requires { count ≤ length places.now }
    ensures { OnTrue result ((k : ℕ) → k < count → place_at places.now k ≤ 2 ^ 31) }
{
    let mut all = true;
    for turn in 0..count {
        let one = places[turn] <= 1 << 31;
        all = all & one;
    }
    all
}

/// The number of a place with one coordinate more, where the place of the later ones has a small number, in a room of so many
/// places from the origin on, of which `end` is the first that has none.
#[inline(always)]
fn straight_more(origin: i64, end: i64, width: u32, number: Number, place: usize) -> usize
    requires end { end ≡ origin +ℤ pos width }
    requires from { origin ≤ℤ number.value }
    requires to { number.value <ℤ end }
    requires small { place ≤ 2 ^ 31 }
    ensures { IsOneMore (Straight origin width) number.value place result }
{
    place * width as usize + (number.value - origin) as usize
}

/// Puts in the numbers of the first so many places of one coordinate, which has so many places from the origin on. Its own numbers
/// are a register's.
fn first_column(
    origin: i64,
    end: i64,
    width: u32,
    count: usize,
    numbers: &[Number],
    places: &mut [usize],
)
    requires end { end ≡ origin +ℤ pos width }
    requires numbers { count ≤ length numbers.now }
    requires inside { (k : ℕ) → k < count → (origin ≤ℤ number_at numbers.now k) × (number_at numbers.now k <ℤ end) }
    requires count { count ≤ length places.old }
    ensures { (k : ℕ) → k < count → IsOneMore (Straight origin width) (number_at numbers.now k) 0 (place_at places.new k) }
{
    for turn in 0..count {
        places[turn] = straight_more(origin, end, width, numbers[turn], 0);
    }
}

/// Takes one coordinate more, of so many places from the origin on, into the numbers of the first so many places. Its own numbers
/// are a register's.
fn straight_column(
    origin: i64,
    end: i64,
    width: u32,
    count: usize,
    numbers: &[Number],
    places: &mut [usize],
)
    requires end { end ≡ origin +ℤ pos width }
    requires numbers { count ≤ length numbers.now }
    requires inside { (k : ℕ) → k < count → (origin ≤ℤ number_at numbers.now k) × (number_at numbers.now k <ℤ end) }
    requires count { count ≤ length places.old }
    requires small { (k : ℕ) → k < count → place_at places.old k ≤ 2 ^ 31 }
    ensures { (k : ℕ) → k < count → IsOneMore (Straight origin width) (number_at numbers.now k) (place_at places.old k) (place_at places.new k) }
{
    for turn in 0..count {
        places[turn] = straight_more(origin, end, width, numbers[turn], places[turn]);
    }
}

/// The end of so many places from the origin on, where it is of 64 bits, there are as many numbers, and each of these has a place.
fn end_of(origin: i64, width: u32, count: usize, numbers: &[Number]) -> Option<i64>
    ensures end { IfSome result (λ z. z ≡ origin +ℤ pos width) }
    ensures numbers { IfSome result (λ _. count ≤ length numbers.now) }
    ensures inside { IfSome result (λ z. (k : ℕ) → k < count → (origin ≤ℤ number_at numbers.now k) × (number_at numbers.now k <ℤ z)) }
{
    let end = origin.checked_add(i64::from(width))?;
    if numbers.len() < count {
        return None;
    }
    if !all_lie_before(origin, end, count, numbers) {
        return None;
    }
    Some(end)
}

/// How far a number lies behind the origin, modulo 2^64. In a room of more places from the origin on, that is the number's place.
#[inline(always)]
fn distance(origin: i64, number: Number) -> usize
    ensures { (width : ℕ) → (origin +ℤ pos width) ≤ℤ pos (2 ^ 63) → result < width → IsOneMore (Straight origin width) number.value 0 result }
{
    let from = origin.cast_unsigned();
    number.value.cast_unsigned().wrapping_sub(from) as usize
}

/// Puts in how far the first so many numbers lie behind the origin: all bits that one of these has, which together are no less than
/// each. In a room of more places from the origin on, they are the numbers' places.
fn put_distances(origin: i64, count: usize, numbers: &[Number], places: &mut [usize]) -> usize
    requires numbers { count ≤ length numbers.now }
    requires count { count ≤ length places.old }
    ensures { (width k : ℕ) → (origin +ℤ pos width) ≤ℤ pos (2 ^ 63) → result < width → k < count → IsOneMore (Straight origin width) (number_at numbers.now k) 0 (place_at places.new k) }
{
    let mut bits = 0;
    for turn in 0..count {
        let one = distance(origin, numbers[turn]);
        places[turn] = one;
        bits = bits | one;
    }
    bits
}

/// Puts in the numbers of the first so many places of one coordinate, where it has so many places from the origin on: a power of two,
/// or a number that has a place may be taken for one that has none.
fn first_distances(
    origin: i64,
    width: u32,
    count: usize,
    numbers: &[Number],
    places: &mut [usize],
) -> Option<()>
    requires { count ≤ length places.old }
    ensures { IfSome result (λ _. (k : ℕ) → k < count → IsOneMore (Straight origin width) (number_at numbers.now k) 0 (place_at places.new k)) }
{
    if numbers.len() < count || origin > i64::MAX - i64::from(width) {
        return None;
    }
    let bits = put_distances(origin, count, numbers, places);
    if bits < width as usize {
        Some(())
    } else {
        None
    }
}

/// Puts in the numbers of the first so many places of one coordinate, where it has so many places from the origin on.
fn first_from_origin(
    origin: i64,
    width: u64,
    count: usize,
    numbers: &[Number],
    places: &mut [usize],
) -> Option<()>
    requires { count ≤ length places.old }
    ensures { IfSome result (λ _. (k : ℕ) → k < count → IsOneMore (Straight origin width) (number_at numbers.now k) 0 (place_at places.new k)) }
{
    let width = u32::try_from(width).ok()?;
    if width.is_power_of_two() {
        return first_distances(origin, width, count, numbers, places);
    }
    let end = end_of(origin, width, count, numbers)?;
    first_column(origin, end, width, count, numbers, places);
    Some(())
}

/// Takes one coordinate more into the numbers of the first so many places, where it has so many places from the origin on. Nothing
/// also where the later ones' place has a large number.
fn from_origin(
    origin: i64,
    width: u64,
    count: usize,
    numbers: &[Number],
    places: &mut [usize],
) -> Option<()>
    requires { count ≤ length places.old }
    ensures { IfSome result (λ _. (k : ℕ) → k < count → IsOneMore (Straight origin width) (number_at numbers.now k) (place_at places.old k) (place_at places.new k)) }
{
    let width = u32::try_from(width).ok()?;
    let end = end_of(origin, width, count, numbers)?;
    if !are_small(count, places) {
        return None;
    }
    straight_column(origin, end, width, count, numbers, places);
    Some(())
}

/// Takes one coordinate more into the numbers of the first so many places. Its own numbers are a register's.
fn place_column(room: Room, count: usize, numbers: &[Number], places: &mut [usize]) -> Option<()>
    requires { count ≤ length places.old }
    ensures { IfSome result (λ _. (k : ℕ) → k < count → IsOneMore (room_of room) (number_at numbers.now k) (place_at places.old k) (place_at places.new k)) }
{
    if let Room::Straight {
        origin,
        count: width,
    } = room
    {
        return from_origin(origin, width, count, numbers, places);
    }
    for turn in 0..count {
        places[turn] = place_more(room, number_of(numbers, turn), places[turn])?;
    }
    Some(())
}

/// Puts in the numbers of the first so many places of one coordinate. Its own numbers are a register's.
fn begin_column(room: Room, count: usize, numbers: &[Number], places: &mut [usize]) -> Option<()>
    requires { count ≤ length places.old }
    ensures { IfSome result (λ _. (k : ℕ) → k < count → IsOneMore (room_of room) (number_at numbers.now k) 0 (place_at places.new k)) }
{
    match room {
        Room::Straight {
            origin,
            count: width,
        } => first_from_origin(origin, width, count, numbers, places),
        Room::Wrapped { .. } => {
            begin_places(count, places);
            place_column(room, count, numbers, places)
        }
    }
}

/// Puts in the numbers of the places of points at so many turns; nothing where one has no place. Each coordinate has a
/// register of so many numbers, one behind the other.
pub(crate) fn place_columns(
    rooms: &[Room],
    count: usize,
    registers: &[Number],
    places: &mut [usize],
) -> Option<()>
    requires { count ≤ length places.old }
    ensures { IfSome result (λ _. (k : ℕ) → k < count → LiesAt (map room_of rooms.now) (columns_at count (length rooms.now) registers.now k) (place_at places.new k)) }
{
    match rooms {
        [] => {
            begin_places(count, places);
            Some(())
        }
        [room] => begin_column(*room, count, registers, places),
        [room, later @ ..] => {
            place_columns(later, count, registers_behind(registers, count), places)?;
            place_column(*room, count, registers, places)
        }
    }
}
