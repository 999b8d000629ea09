//! One buffer.

ghost use Rattle.std.specs.Prelude.{◌≡◌, ◌∷◌, ◌+◌, ◌+ℤ◌, ◌-ℤ◌, ℕ, ℤ, List, pos, length, ◌<◌, ◌≤◌, ◌^◌, ◌==◌, ◌&&◌, false, true, IfOk, IfSome, IsFalse, None, Some, map, option_map, replicate};
ghost use Rattle.std.specs.Bool.{OnTrue};
ghost use Rattle.tree.specs.declared.value.Value.{Value as ValueHeld};
ghost use Rattle.plan.specs.Rooms.{place};
ghost use Rattle.plan.specs.Semantics.Memory.{held_at};
ghost use Rattle.interpreter.specs.Buffers.Rooms.{room_of};
ghost use Rattle.interpreter.specs.Scanlines.{along};
ghost use Rattle.interpreter.specs.Buffers.Raster.{place_count, LiesAt};
ghost use Rattle.interpreter.specs.Buffers.Blocks.{held_in, unused, IsSetAt};
ghost use Rattle.interpreter.specs.Buffers.Marks.{places_held, row_held, word_values};
ghost use Rattle.interpreter.specs.CellRows.{row_value};
ghost use Rattle.interpreter.specs.Buffers.Spots.{with_place};
ghost use Rattle.interpreter.specs.HeldTurns.{turned, with_places};
ghost use Rattle.interpreter.specs.PlaceNumbers.{place_at};
ghost use Rattle.interpreter.specs.Updates.{columns_at};

use crate::buffers::held::{Held, held_window, place_behind, place_held, unset_all};
use crate::buffers::limit::Limit;
use crate::buffers::marks::Mark;
use crate::buffers::place_bits::{PlaceBits, lent, make_as_many, one_number, widen};
use crate::buffers::raster::{place_columns, place_count, place_number};
use crate::buffers::rising::{rise_from, rising, standing};
use crate::buffers::room::Rooms;
use crate::buffers::setting::{put_cell_row, put_row, set_place};
use crate::buffers::stretch::stretch_of;
use crate::buffers::turning::turn_all;
use crate::cells::CellRow;
use crate::evaluation::Number;
use crate::placing::Places;
use crate::run_reading::registers_behind;
use crate::scanlines::{Scanline, distance};
use crate::updates::Operation;
use numeric::Ty;
use smallvec::SmallVec;
use std::alloc::{AllocError, Global};
use std::marker::Model;
use tree::Value;

/// A buffer: its number, for how many places there is memory, whether it is in use, the places of each coordinate, and
/// what all places hold in raster order: a mark and the low bits of a number each, and the numbers that do not fit their types, as far
/// as there are such.
#[derive(Drop)]
pub struct Buffer {
    number: u64,
    limit: usize,
    is_used: bool,
    rooms: Rooms,
    marks: Vec<Mark>,
    bits: PlaceBits,
    wides: Vec<Number>,
}

impl Model for Buffer {
    ghost use Rattle.std.specs.Prelude.{◌≡◌, ◌<◌, ◌≤◌, ◌^◌, map, length, vec_capacity};
    ghost use Rattle.interpreter.specs.Buffers.Blocks.{Block};
    ghost use Rattle.interpreter.specs.Buffers.Marks.{held_places};
    ghost use Rattle.interpreter.specs.Buffers.PlaceBits.{bits_of};
    ghost use Rattle.interpreter.specs.Buffers.Rooms.{room_of};
    ghost use Rattle.interpreter.specs.Buffers.Raster.{place_count};

    ghost Value = { Block };

    ghost view = { λ b. record { number = b.number; limit = b.limit; used = b.is_used; rooms = map room_of b.rooms.items; places = held_places b.marks.items (bits_of b.bits) b.wides.items } };

    ghost invariant = { λ b. (length b.marks.items ≡ place_count (map room_of b.rooms.items)) × (place_count (map room_of b.rooms.items) < 2 ^ 64) × (b.limit ≤ vec_capacity b.marks) × (b.limit < 2 ^ 64) × (length (bits_of b.bits) ≡ length b.marks.items) × (b.limit ≤ vec_capacity b.bits.bytes) × (b.limit ≤ vec_capacity b.bits.words) × (length b.marks.items ≤ vec_capacity b.bits.words) × (length b.marks.items ≤ vec_capacity b.wides) × (b.limit ≤ vec_capacity b.wides) };
}

/// Whether there are so many behind those that are skipped.
fn have_room(all: usize, skipped: usize, count: usize) -> bool
    ensures { OnTrue result (skipped + count ≤ all) }
{
    if skipped <= all {
        count <= all - skipped
    } else {
        false
    }
}

/// The sum, where it is a `usize`.
fn sum(left: usize, right: usize) -> Option<usize>
    ensures { IfSome result (λ n. n ≡ left + right) }
{
    left.checked_add(right)
}

impl Buffer {
    /// A buffer that is not in use. It takes memory for its places: 2 bytes each as long as all values are of `u8`, then 6, and room of
    /// 8 bytes each that is not touched as long as all numbers fit their types.
    pub(crate) fn new(alloc: Global, limit: Limit) -> Result<Buffer, AllocError>
        ensures number { IfOk result (λ b. b.number ≡ limit.buffer) }
        ensures limit { IfOk result (λ b. b.limit ≡ limit.places) }
        ensures unused { IfOk result (λ b. b.used ≡ false) }
    {
        let mut marks = Vec::with_capacity(alloc, limit.places)?;
        let bits = one_number(alloc, limit.places)?;
        let mut wides = Vec::with_capacity(alloc, limit.places)?;
        // Without coordinates there is one place.
        marks.push(Mark::Unset)?;
        wides.push(Number { value: 0 })?;
        Ok(Buffer {
            number: limit.buffer,
            limit: limit.places,
            is_used: false,
            rooms: SmallVec::new(alloc),
            marks,
            bits,
            wides,
        })
    }

    /// Whether the buffer has this number.
    pub(crate) fn is_numbered(&self, number: u64) -> bool
        ensures { result ≡ (number == self.now.number) }
    {
        number == self.number
    }

    /// Whether the buffer has this number and is in use.
    pub(crate) fn is_used_as(&self, number: u64) -> bool
        ensures { result ≡ (self.now.used && (number == self.now.number)) }
    {
        self.is_used && number == self.number
    }

    /// Takes the buffer into use, with unset places.
    #[tactic(auto, using(crate::proofs::HeldPlaces::held_unset, crate::proofs::HeldPlaces::held_length))]
    pub(crate) fn begin(&mut self, rooms: Rooms)
        requires { place_count (map room_of rooms.items) ≤ self.old.limit }
        ensures { self.new ≡ record { number = self.old.number; limit = self.old.limit; used = true; rooms = map room_of rooms.items; places = replicate (place_count (map room_of rooms.items)) None } }
    {
        self.is_used = true;
        let Some(count) = place_count(&rooms) else {
            unreachable!()
        };
        unset_all(&mut self.marks, count);
        // What an unset place has as its low bits is no matter.
        make_as_many(&mut self.bits, count);
        self.rooms = rooms;
    }

    /// Takes the buffer out of use.
    pub(crate) fn end(&mut self)
        ensures { self.new ≡ unused self.old }
    {
        self.is_used = false;
    }

    /// What is held at a point.
    pub(crate) fn read(&self, at: &[i64]) -> Option<Value>
        ensures { result ≡ held_at (held_in self.now) (place self.now.rooms at.now) }
    {
        let number = place_number(&self.rooms, at)?;
        place_held(self.held(), number)
    }

    /// What all places hold.
    fn held(&self) -> Held<'_>
        ensures { places_held result ≡ self.now.places }
    {
        Held {
            marks: self.marks.as_slice(),
            numbers: lent(&self.bits),
            wides: self.wides.as_slice(),
        }
    }

    /// What is held at the points with these coordinates behind the first one. Nothing where they have no places, or places
    /// that are used again and again.
    #[inline(always)]
    pub(crate) fn scanline(&self, others: &[i64]) -> Option<Scanline<'_>>
        ensures { IfSome result (λ l. (z : ℤ) (v : ValueHeld) → along (places_held l.held) (z -ℤ l.origin) ≡ Some (Some v) → held_at (held_in self.now) (place self.now.rooms (z ∷ others.now)) ≡ Some v) }
    {
        let stretch = stretch_of(&self.rooms, others)?;
        let held = held_window(self.held(), stretch.start, stretch.count)?;
        Some(Scanline {
            origin: stretch.origin,
            held,
        })
    }

    /// The number of the place of the first of so many points, of which each has a first coordinate that is one more than that of
    /// the one before, where the places of the others follow it one by one.
    #[tactic(auto, using(crate::proofs::HeldPlaces::held_length))]
    pub(crate) fn places_from(&self, first: i64, others: &[i64], count: usize) -> Option<usize>
        ensures lies { IfSome result (λ n. (k : ℕ) → k < count → LiesAt self.now.rooms ((first +ℤ pos k) ∷ others.now) (n + k)) }
        ensures inside { IfSome result (λ n. (k : ℕ) → k < count → n + k < length self.now.places) }
    {
        let stretch = stretch_of(&self.rooms, others)?;
        let skipped = distance(stretch.origin, first)?;
        if !have_room(stretch.count, skipped, count) {
            return None;
        }
        let place = sum(stretch.start, skipped)?;
        Some(place)
    }

    /// The number of the place of the first of so many points, where the first coordinate rises by one with each turn, the others
    /// stay, and the places of the others follow it one by one. Each of so many coordinates has a register of so many numbers, one
    /// behind the other.
    #[tactic(auto, using(crate::proofs::HeldPlaces::held_length))]
    fn row_place(&self, width: usize, count: usize, registers: &[Number]) -> Option<usize>
        ensures lies { IfSome result (λ n. (k : ℕ) → k < count → LiesAt self.now.rooms (columns_at count width registers.now k) (n + k)) }
        ensures inside { IfSome result (λ n. (k : ℕ) → k < count → n + k < length self.now.places) }
    {
        let first = rising(registers, count)?;
        let seconds = registers_behind(registers, count);
        let thirds = registers_behind(seconds, count);
        match width {
            1 => self.places_from(first, &[], count),
            2 => self.places_from(first, &[standing(seconds, count)?], count),
            3 => {
                let second = standing(seconds, count)?;
                let third = standing(thirds, count)?;
                self.places_from(first, &[second, third], count)
            }
            _ => None,
        }
    }

    /// Puts in the numbers of the places of points at so many turns, where these follow one another.
    #[tactic(auto, using(crate::proofs::HeldPlaces::held_length))]
    fn place_row(
        &self,
        width: usize,
        count: usize,
        registers: &[Number],
        places: &mut [usize],
    ) -> Option<()>
        requires { count ≤ length places.old }
        ensures lies { IfSome result (λ _. (k : ℕ) → k < count → LiesAt self.now.rooms (columns_at count width registers.now k) (place_at places.new k)) }
        ensures inside { IfSome result (λ _. (k : ℕ) → k < count → place_at places.new k < length self.now.places) }
    {
        let start = self.row_place(width, count, registers)?;
        rise_from(self.marks.len(), start, count, places);
        Some(())
    }

    /// Puts in the numbers of the places of points at so many turns; nothing where one has no place. Each of so many
    /// coordinates has a register of so many numbers, one behind the other.
    #[tactic(auto, using(crate::proofs::HeldPlaces::held_length))]
    pub(crate) fn place_columns(
        &self,
        width: usize,
        count: usize,
        registers: &[Number],
        places: &mut [usize],
    ) -> Option<()>
        requires { count ≤ length places.old }
        ensures lies { IfSome result (λ _. (k : ℕ) → k < count → LiesAt self.now.rooms (columns_at count width registers.now k) (place_at places.new k)) }
        ensures inside { IfSome result (λ _. (k : ℕ) → k < count → place_at places.new k < length self.now.places) }
    {
        if self.rooms.len() != width {
            return None;
        }
        match self.place_row(width, count, registers, places) {
            Some(()) => Some(()),
            None => place_columns(&self.rooms, count, registers, places),
        }
    }

    /// Sets the places of so many turns of an operation, by their numbers, one after another. Nothing where one of the own places
    /// is unset at its turn.
    #[tactic(auto, using(crate::proofs::HeldPlaces::held_length))]
    pub(crate) fn turn_all(
        &mut self,
        operation: Operation,
        numbers: &[Number],
        behind: &[Number],
        places: &Places<'_>,
        count: usize,
    ) -> Option<()>
        requires { (k : ℕ) → k < count → place_at places.now.point.now k < length self.old.places }
        ensures turned { option_map (λ _. self.new) result ≡ option_map (with_places self.old) (turned operation numbers.now behind.now places.now.point.now places.now.left.now places.now.right.now self.old.places count) }
        ensures counted { length self.old.places ≡ place_count self.old.rooms }
    {
        widen(&mut self.bits);
        let marks = self.marks.as_mut_slice();
        let words = self.bits.words.as_mut_slice();
        let wides = &mut self.wides;
        turn_all(
            operation, numbers, behind, places, count, marks, words, wides,
        )
    }

    /// Sets the place that so many come behind another.
    #[inline(always)]
    #[tactic(auto, using(crate::proofs::HeldPlaces::held_length))]
    pub(crate) fn put(&mut self, place: usize, behind: usize, value: Value)
        requires { place + behind < length self.old.places }
        ensures is { self.new ≡ with_place self.old (place + behind) value }
        ensures set { (p : List ℤ) → LiesAt self.old.rooms p (place + behind) → IsSetAt self.old self.new p value }
    {
        let target = place_behind(self.marks.len(), place, behind);
        let marks = self.marks.as_mut_slice();
        set_place(marks, &mut self.bits, &mut self.wides, target, value);
    }

    /// Sets the places from one on, one after another, each to the value of the type whose low bits a word has.
    #[tactic(auto, using(crate::proofs::HeldPlaces::held_length))]
    pub(crate) fn put_words(&mut self, place: usize, ty: Ty, from: &[u32])
        requires { place + length from.now ≤ length self.old.places }
        ensures set { self.new ≡ with_places self.old (row_held (word_values ty from.now) place self.old.places (length from.now)) }
        ensures counted { length self.old.places ≡ place_count self.old.rooms }
    {
        let marks = self.marks.as_mut_slice();
        put_row(marks, &mut self.bits, place, ty, from);
    }

    /// Sets the places from one on, one after another, each to the value of a row of cells.
    #[tactic(auto, using(crate::proofs::HeldPlaces::held_length))]
    pub(crate) fn put_cells(&mut self, place: usize, row: &CellRow<'_>)
        requires { place + length row.now.numbers.now ≤ length self.old.places }
        ensures set { self.new ≡ with_places self.old (row_held (row_value row.now) place self.old.places (length row.now.numbers.now)) }
        ensures counted { length self.old.places ≡ place_count self.old.rooms }
    {
        let marks = self.marks.as_mut_slice();
        put_cell_row(marks, &mut self.bits, &mut self.wides, place, row);
    }

    /// Sets the place of a point; `false` where the point has none.
    pub(crate) fn write(&mut self, at: &[i64], value: Value) -> bool
        ensures set { OnTrue result (IsSetAt self.old self.new at.now value) }
        ensures outside { IsFalse result → (place self.old.rooms at.now ≡ None) × (self.new ≡ self.old) }
    {
        match place_number(&self.rooms, at) {
            Some(number) => {
                let marks = self.marks.as_mut_slice();
                set_place(marks, &mut self.bits, &mut self.wides, number, value);
                true
            }
            None => false,
        }
    }
}
