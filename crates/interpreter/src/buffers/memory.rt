//! Buffers by number.

ghost use Rattle.std.specs.Prelude.{◌≡◌, ◌∷◌, ◌+ℤ◌, ◌-ℤ◌, ◌+◌, ◌<◌, ℕ, ℤ, pos, List, ◌==◌, ◌≤◌, ◌&&◌, All, length, IfOk, IfSome, OnOk, Some, None, map, option_map, position, IsFalse};
ghost use Rattle.tree.specs.declared.value.Value.{Value as ValueHeld};
ghost use Rattle.std.specs.Bool.{OnTrue};
ghost use Rattle.std.specs.List.{list_any};
ghost use Rattle.plan.specs.Semantics.Memory.{allot, nothing, read, write};
ghost use Rattle.interpreter.specs.Buffers.Raster.{place_count};
ghost use Rattle.interpreter.specs.Buffers.Rooms.{room_of};
ghost use Rattle.interpreter.specs.Scanlines.{along};
ghost use Rattle.interpreter.specs.Buffers.Marks.{places_held, word_values};
ghost use Rattle.interpreter.specs.CellRows.{row_value};
ghost use Rattle.interpreter.specs.Buffers.Spots.{set_all, HasPlace, IsSpot};
ghost use Rattle.interpreter.specs.declared.buffers.spot.Spot.{Spot as SpotHeld};
ghost use Rattle.interpreter.specs.Buffers.Blocks.{limits_of, memory_of, HasMemoryFor, IsMadeFor, IsNumbered};
ghost use Rattle.interpreter.specs.HeldTurns.{updated};
ghost use Rattle.interpreter.specs.PlaceNumbers.{place_at, StandsAt, UpdateStands};
ghost use Rattle.interpreter.specs.Updates.{columns_at};

use crate::buffers::buffer::Buffer;
use crate::buffers::limit::Limit;
use crate::buffers::room::Rooms;
use crate::buffers::spot::Spot;
use crate::cells::CellRow;
use crate::evaluation::Number;
use crate::placing::{Places, Target};
use crate::run_reading::registers_behind;
use crate::scanlines::Scanline;
use crate::updates::Update;
use numeric::Ty;
use std::alloc::{AllocError, Global};
use std::marker::Model;
use tree::Value;

/// The private memory of a piece: a few buffers, found by their numbers one after another.
///
/// All memory is taken by `new`.
#[derive(Drop)]
pub struct Buffers {
    buffers: Vec<Buffer>,
}

impl Model for Buffers {
    ghost use Rattle.std.specs.Prelude.{List};
    ghost use Rattle.interpreter.specs.Buffers.Blocks.{Block};

    ghost Value = { List Block };

    ghost view = { λ b. b.buffers.items };
}

/// The place of the first buffer of this number that is in use.
fn used_position(buffers: &[Buffer], number: u64) -> Option<usize>
    ensures { result ≡ position (λ block. block.used && (number == block.number)) buffers.now }
{
    buffers.iter().position(|buffer| buffer.is_used_as(number))
}

/// The place of the first buffer of this number.
fn position(buffers: &[Buffer], number: u64) -> Option<usize>
    ensures { result ≡ position (λ block. number == block.number) buffers.now }
{
    buffers.iter().position(|buffer| buffer.is_numbered(number))
}

/// Whether there is a buffer of this number.
fn is_there(buffers: &[Buffer], number: u64) -> bool
    ensures { result ≡ list_any (λ block. number == block.number) buffers.now }
{
    buffers.iter().any(|buffer| buffer.is_numbered(number))
}

/// The places that a limit asks for a buffer, 0 where it is another's.
fn places_for(limit: Limit, buffer: u64) -> usize
    ensures { limit.buffer ≡ buffer → limit.places ≤ result }
{
    if limit.buffer == buffer {
        limit.places
    } else {
        0
    }
}

/// The larger of two numbers.
pub fn larger(left: usize, right: usize) -> usize
    ensures left { left ≤ result }
    ensures right { right ≤ result }
{
    if left < right { right } else { left }
}

/// The greatest number of places that the limits ask for a buffer.
fn most_places(limits: &[Limit], buffer: u64) -> usize
    ensures { All (λ limit. limit.buffer ≡ buffer → limit.places ≤ result) limits.now }
{
    let mut most = 0;
    for limit in limits {
        most = larger(most, places_for(*limit, buffer));
    }
    most
}

/// One more buffer, of this number, where there is none, with the most places that a limit of the number asks for.
fn add_buffer(
    alloc: Global,
    buffers: &mut Vec<Buffer>,
    limits: &[Limit],
    number: u64,
) -> Result<(), AllocError>
    ensures there { OnOk result (IsNumbered buffers.new.items number) }
    ensures kept { OnOk result ((b : ℕ) → IsNumbered buffers.old.items b → IsNumbered buffers.new.items b) }
    ensures made { OnOk result (IsMadeFor limits.now buffers.old.items → IsMadeFor limits.now buffers.new.items) }
{
    if is_there(buffers, number) {
        return Ok(());
    }
    let places = most_places(limits, number);
    buffers.push(Buffer::new(
        alloc,
        Limit {
            buffer: number,
            places,
        },
    )?)?;
    Ok(())
}

impl Buffers {
    /// Memory for buffers, of which none is in use: one of each number that a limit names, with the most places that a limit of
    /// the number asks for.
    ///
    /// It takes 2 bytes a place of a buffer as long as that has held values of `u8` alone, then 6, and room of 8 bytes a place that is
    /// not touched as long as all numbers fit their types.
    pub fn new(alloc: Global, limits: &[Limit]) -> Result<Buffers, AllocError>
        ensures nothing { IfOk result (λ buffers. memory_of buffers ≡ nothing) }
        ensures limits { IfOk result (λ buffers. All (λ x. HasMemoryFor (limits_of buffers) x.buffer x.places) limits.now) }
    {
        let mut buffers = Vec::new(alloc);
        for limit in limits {
            add_buffer(alloc, &mut buffers, limits, limit.buffer)?;
        }
        Ok(Buffers { buffers })
    }

    /// Takes all buffers out of use.
    pub fn clear(&mut self)
        ensures nothing { memory_of self.new ≡ nothing }
        ensures limits { limits_of self.new ≡ limits_of self.old }
    {
        for index in 0..self.buffers.len() {
            self.buffers[index].end();
        }
    }

    /// Makes a buffer of unset places, in place of one of this number if there is one.
    pub fn allot(&mut self, buffer: u64, rooms: Rooms)
        requires { HasMemoryFor (limits_of self.old) buffer (place_count (map room_of rooms.items)) }
        ensures memory { memory_of self.new ≡ allot (memory_of self.old) buffer (map room_of rooms.items) }
        ensures limits { limits_of self.new ≡ limits_of self.old }
    {
        match used_position(&self.buffers, buffer) {
            Some(found) => self.buffers[found].begin(rooms),
            None => {
                let Some(found) = position(&self.buffers, buffer) else {
                    unreachable!()
                };
                self.buffers[found].begin(rooms);
            }
        }
    }

    /// What is held at a point; nothing where there is no such buffer, the point is outside it, or its place is unset.
    pub fn read(&self, buffer: u64, at: &[i64]) -> Option<Value>
        ensures { result ≡ read (memory_of self.now) buffer at.now }
    {
        let found = used_position(&self.buffers, buffer)?;
        self.buffers[found].read(at)
    }

    /// What is held at the points with these coordinates behind the first one. Nothing where there is no such buffer, or the
    /// points have no places, or places that are used again and again.
    #[inline(always)]
    pub(crate) fn scanline(&self, buffer: u64, others: &[i64]) -> Option<Scanline<'_>>
        ensures { IfSome result (λ l. (z : ℤ) (v : ValueHeld) → along (places_held l.held) (z -ℤ l.origin) ≡ Some (Some v) → read (memory_of self.now) buffer (z ∷ others.now) ≡ Some v) }
    {
        let found = used_position(&self.buffers, buffer)?;
        self.buffers[found].scanline(others)
    }

    /// Sets the place of a point; `false` where there is no such buffer or the point is outside it.
    pub fn write(&mut self, buffer: u64, at: &[i64], value: Value) -> bool
        ensures set { OnTrue result (write (memory_of self.old) buffer at.now value ≡ Some (memory_of self.new)) }
        ensures outside { IsFalse result → (write (memory_of self.old) buffer at.now value ≡ None) × (self.new ≡ self.old) }
        ensures limits { limits_of self.new ≡ limits_of self.old }
    {
        match used_position(&self.buffers, buffer) {
            Some(found) => self.buffers[found].write(at, value),
            None => false,
        }
    }

    /// Where the first of so many points lies, of which each has a first coordinate that is one more than that of the one before,
    /// where the places of the others follow it one by one.
    pub(crate) fn spot(&self, buffer: u64, first: i64, others: &[i64], count: usize) -> Option<Spot>
        ensures lies { IfSome result (λ s. (k : ℕ) → k < count → IsSpot self.now buffer ((first +ℤ pos k) ∷ others.now) s k) }
        ensures inside { IfSome result (λ s. (k : ℕ) → k < count → HasPlace self.now s.buffer (s.place + k)) }
    {
        let found = used_position(&self.buffers, buffer)?;
        let place = self.buffers[found].places_from(first, others, count)?;
        Some(Spot {
            buffer: found,
            place,
        })
    }

    /// The position among all of the buffer of a number that is in use.
    pub(crate) fn position_of(&self, buffer: u64) -> Option<usize>
        ensures { result ≡ position (λ block. block.used && (buffer == block.number)) self.now }
    {
        used_position(&self.buffers, buffer)
    }

    /// Puts in the numbers of the places that points at so many turns have in the buffer at a position; nothing where one has no
    /// place. Each of so many coordinates has a register of so many numbers, one behind the other.
    pub(crate) fn place_columns(
        &self,
        found: usize,
        width: usize,
        count: usize,
        registers: &[Number],
        places: &mut [usize],
    ) -> Option<()>
        requires { count ≤ length places.old }
        ensures { IfSome result (λ _. (b : ℕ) → position (λ block. block.used && (b == block.number)) self.now ≡ Some found → (k : ℕ) → k < count → StandsAt self.now b (columns_at count width registers.now k) found (place_at places.new k)) }
    {
        let buffer = self.buffers.get(found)?;
        buffer.place_columns(width, count, registers, places)
    }

    /// Does an update at all turns, one after another, by the numbers of its places. Nothing where one of its own places is unset
    /// at its turn.
    pub(crate) fn turn_all(
        &mut self,
        target: Target,
        update: Update,
        registers: &[Number],
        places: &Places<'_>,
    ) -> Option<()>
        requires { (k : ℕ) → k < target.count → UpdateStands self.old target.buffer target.size target.count target.position update registers.now places.now.point.now places.now.left.now places.now.right.now k }
        ensures run { option_map (λ _. memory_of self.new) result ≡ updated target.count target.size target.buffer update registers.now (memory_of self.old) target.count }
        ensures limits { IfSome result (λ _. limits_of self.new ≡ limits_of self.old) }
    {
        if target.count == 0 {
            return Some(());
        }
        let numbers = registers_behind(registers, update.start);
        let behind = registers_behind(numbers, update.operation.width);
        self.buffers[target.position].turn_all(
            update.operation,
            numbers,
            behind,
            places,
            target.count,
        )
    }

    /// Sets the place that so many come behind a spot.
    #[inline(always)]
    pub(crate) fn put(&mut self, spot: Spot, behind: usize, value: Value)
        requires { HasPlace self.old spot.buffer (spot.place + behind) }
        ensures set { (b : ℕ) (p : List ℤ) → IsSpot self.old b p spot behind → write (memory_of self.old) b p value ≡ Some (memory_of self.new) }
        ensures places { (i n : ℕ) → HasPlace self.old i n → HasPlace self.new i n }
        ensures spots { (b : ℕ) (p : List ℤ) (s : SpotHeld) (k : ℕ) → IsSpot self.old b p s k → IsSpot self.new b p s k }
        ensures limits { limits_of self.new ≡ limits_of self.old }
    {
        self.buffers[spot.buffer].put(spot.place, behind, value);
    }

    /// Sets the places from a spot on, one after another, each to the value of the type whose low bits a word has.
    pub(crate) fn put_words(&mut self, spot: Spot, ty: Ty, from: &[u32])
        requires { (k : ℕ) → k < length from.now → HasPlace self.old spot.buffer (spot.place + k) }
        ensures set { (b : ℕ) (points : ℕ → List ℤ) → ((k : ℕ) → k < length from.now → IsSpot self.old b (points k) spot k) → set_all (memory_of self.old) b points (word_values ty from.now) (length from.now) ≡ Some (memory_of self.new) }
        ensures limits { limits_of self.new ≡ limits_of self.old }
    {
        // A spot of no words need not lie in a buffer.
        let count = from.len();
        if count == 0 {
            return;
        }
        self.buffers[spot.buffer].put_words(spot.place, ty, from);
    }

    /// Sets the places from a spot on to the values of a row of cells, one after another.
    pub(crate) fn put_cells(&mut self, spot: Spot, row: &CellRow<'_>)
        requires { (k : ℕ) → k < length row.now.numbers.now → HasPlace self.old spot.buffer (spot.place + k) }
        ensures set { let n = length row.now.numbers.now in (b : ℕ) (points : ℕ → List ℤ) → ((k : ℕ) → k < n → IsSpot self.old b (points k) spot k) → set_all (memory_of self.old) b points (row_value row.now) n ≡ Some (memory_of self.new) }
        ensures limits { limits_of self.new ≡ limits_of self.old }
    {
        // A spot of no cells need not lie in a buffer.
        let count = row.numbers.len();
        if count == 0 {
            return;
        }
        self.buffers[spot.buffer].put_cells(spot.place, row);
    }
}
