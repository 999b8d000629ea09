//! The values of the cells that a piece fetches, by function and point.

ghost use Rattle.std.specs.Prelude.{◌≡◌, ◌<◌, ◌≤◌, ◌+◌, ◌+ℤ◌, [], ◌∷◌, ◌++◌, ℕ, false, true, if◌then◌else◌, length, map, nat_eq, None, pos, slice_get, vec_capacity, IfOk, IfSome, Some};
ghost use Rattle.std.specs.List.Sorted.{IsStrictlyIncreasing};
ghost use Rattle.checked_plan.specs.View.{algorithm_checked, plan_checked};
ghost use Rattle.indexmap.specs.IndexMap.{get, index_map_len, spare};
ghost use Rattle.piece.specs.Found.{first_found, number_or_zero};
ghost use Rattle.piece.specs.Looked.{cells_of_piece, numbers_of_piece};
ghost use Rattle.headline.specs.Work.{looked_value};
ghost use Rattle.checked_plan.specs.Output.Cells.{number_in};
ghost use Rattle.interpreter.specs.CellRows.{along};
ghost use Rattle.piece.specs.Looked.{IsLookedRow};

use crate::index::{forget, note, value_in};
use crate::rising::{is_rising, value_among, values_between};
use crate::types::type_named;
use checked_plan::Checked;
use checked_plan::output::PlanCells;
use headline::laws::looks_are_by_number;
use indexmap::IndexMap;
use interpreter::{CellRow, Cells, NumberKind};
use std::alloc::{AllocError, Global};
use std::mem::replace;
use tree::Value;

/// The numbers of the cells that a piece fetches, none where there is no such piece.
fn fetched_of<'a>(checked: &'a Checked<'_>, piece: u32) -> &'a [u32]
    ensures { result.now ≡ numbers_of_piece (plan_checked checked.now) piece }
{
    let piece = piece as usize;
    if piece < checked.pieces() {
        checked.fetched(piece)
    } else {
        &[]
    }
}

/// The number of the cell that is looked at next, none where all are looked at.
fn next_number(numbers: &[u32], looked: &[i64]) -> Option<u32>
    ensures { result ≡ slice_get numbers.now (length looked.now) }
{
    numbers.get(looked.len()).copied()
}

/// The coordinate that is so much more.
fn further(coordinate: i64, more: usize) -> Option<i64>
    ensures { IfSome result (λ z. z ≡ coordinate +ℤ pos more) }
{
    i64::try_from(i128::from(coordinate) + more as i128).ok()
}

/// The number of a group's cell so many steps further along the first coordinate. None where a group has no such cell, or the
/// point more than three coordinates.
fn number_along(cells: &PlanCells<'_>, group: usize, at: &[i64], more: usize) -> Option<u32>
    ensures { IfSome result (λ number. number_in (plan_checked cells.now.checked.now) group (along at.now more) ≡ Some number) }
{
    match at {
        [x] => cells.number(group, &[further(*x, more)?]),
        [x, y] => cells.number(group, &[further(*x, more)?, *y]),
        [x, y, z] => cells.number(group, &[further(*x, more)?, *y, *z]),
        _ => None,
    }
}

/// The list with numbers added, which has room for them. It takes no memory. The list is handed over, so that its length is known
/// to be nobody else's while they are added.
#[inline(never)]
fn with_numbers(mut list: Vec<i64>, numbers: &[u32]) -> Vec<i64>
    requires { length list.items + length numbers.now ≤ vec_capacity list }
    ensures items { result.items ≡ list.items ++ map pos numbers.now }
    ensures room { vec_capacity result ≡ vec_capacity list }
{
    for number in numbers {
        list.push_reserved(i64::from(*number));
    }
    list
}

/// The values that a piece has looked at so far, in the order of the cells that it fetches.
///
/// The cell of a function at a point has the value of the first place of the list at which it stands. One that has not been
/// looked at is 0, and values beyond the list tell nothing. Each value takes 8 bytes, and 16 or more in an index of the
/// cells by their numbers. The index stays empty where the numbers of the piece's list rise, as they mostly do: a cell is
/// found there by searching the list.
#[derive(Drop)]
pub struct LookedCells<'a> {
    cells: &'a PlanCells<'a>,
    piece: u32,
    looked: Vec<i64>,
    index: IndexMap<u32, i64>,
    rising: bool,
    ghost rise: { rising ≡ true → IsStrictlyIncreasing (numbers_of_piece (plan_checked cells.now.checked.now) piece) },
    ghost found: { rising ≡ false → (n : ℕ) → get nat_eq index n ≡ first_found n (numbers_of_piece (plan_checked cells.now.checked.now) piece) looked.items },
    ghost few: { index_map_len index ≤ length looked.items },
    ghost room: { vec_capacity looked ≤ index_map_len index + spare index },
}

impl<'a> LookedCells<'a> {
    /// No values yet, of the plan's first piece, and room for so many.
    ///
    /// # Errors
    /// `AllocError` where memory runs out.
    pub fn new(
        alloc: Global,
        cells: &'a PlanCells<'a>,
        most: usize,
    ) -> Result<LookedCells<'a>, AllocError>
        ensures none { IfOk result (λ x. (x.cells.now ≡ cells.now) × (x.piece ≡ 0) × (x.looked.items ≡ [])) }
        ensures room { IfOk result (λ x. most ≤ vec_capacity x.looked) }
    {
        Ok(LookedCells {
            cells,
            piece: 0,
            looked: Vec::with_capacity(alloc, most)?,
            index: IndexMap::with_capacity(alloc, most)?,
            rising: is_rising(fetched_of(cells.checked(), 0)),
        })
    }

    /// Forgets all values, to take those of a piece. The room stays.
    pub fn begin(&mut self, piece: u32)
        ensures none { (self.new.cells.now ≡ self.old.cells.now) × (self.new.piece ≡ piece) × (self.new.looked.items ≡ []) }
        ensures room { vec_capacity self.new.looked ≡ vec_capacity self.old.looked }
    {
        self.piece = piece;
        self.looked.clear();
        forget(&mut self.index);
        self.rising = is_rising(fetched_of(self.cells.checked(), piece));
    }

    /// The number that the next value is noted by in the index: none where the numbers rise.
    fn number_to_note(&self) -> Option<u32>
        ensures { result ≡ (if self.now.rising then None else slice_get (numbers_of_piece (plan_checked self.now.cells.now.checked.now) self.now.piece) (length self.now.looked.items)) }
    {
        if self.rising {
            return None;
        }
        let numbers = fetched_of(self.cells.checked(), self.piece);
        next_number(numbers, self.looked.as_slice())
    }

    /// The value of the first place of a number, 0 where none of its places was looked at.
    fn value_of(&self, number: u32) -> i64
        ensures { result ≡ number_or_zero (first_found number (numbers_of_piece (plan_checked self.now.cells.now.checked.now) self.now.piece) self.now.looked.items) }
    {
        if self.rising {
            let numbers = fetched_of(self.cells.checked(), self.piece);
            value_among(numbers, self.looked.as_slice(), number)
        } else {
            value_in(&self.index, number)
        }
    }

    /// The values of a group's cells at so many points, from one on along the first coordinate, where these stand side by side.
    fn values_along(&self, group: usize, at: &[i64], count: usize) -> Option<&[i64]>
        ensures { IfSome result (λ values. IsLookedRow (plan_checked self.now.cells.now.checked.now) self.now.piece self.now.looked.items group at.now count values.now) }
    {
        if !self.rising {
            return None;
        }
        let more = count.checked_sub(1)?;
        let first = self.cells.number(group, at)?;
        let last = number_along(self.cells, group, at, more)?;
        let numbers = fetched_of(self.cells.checked(), self.piece);
        let values = values_between(numbers, self.looked.as_slice(), first, last)?;
        if values.len() == count {
            Some(values)
        } else {
            None
        }
    }

    /// Takes the value of the next cell that the piece fetches, and notes it in the index where the numbers do not rise.
    fn push_noted(&mut self, value: i64)
        requires { length self.old.looked.items < vec_capacity self.old.looked }
        ensures looked { self.new.looked.items ≡ self.old.looked.items ++ value ∷ [] }
        ensures same { (self.new.cells.now ≡ self.old.cells.now) × (self.new.piece ≡ self.old.piece) }
        ensures room { vec_capacity self.new.looked ≡ vec_capacity self.old.looked }
    {
        let next = self.number_to_note();
        note(&mut self.index, next, value);
        self.looked.push_reserved(value);
    }

    /// Takes the value of the next cell that the piece fetches. It takes no memory.
    #[inline(always)]
    pub fn push(&mut self, value: i64)
        requires { length self.old.looked.items < vec_capacity self.old.looked }
        ensures looked { self.new.looked.items ≡ self.old.looked.items ++ value ∷ [] }
        ensures same { (self.new.cells.now ≡ self.old.cells.now) × (self.new.piece ≡ self.old.piece) }
        ensures room { vec_capacity self.new.looked ≡ vec_capacity self.old.looked }
    {
        if self.rising {
            self.looked.push_reserved(value);
        } else {
            self.push_noted(value);
        }
    }

    /// Takes the next cells' values one by one, and notes them in the index where the numbers do not rise.
    #[inline(never)]
    fn push_each(&mut self, values: &[u32])
        requires { length self.old.looked.items + length values.now ≤ vec_capacity self.old.looked }
        ensures looked { self.new.looked.items ≡ self.old.looked.items ++ map pos values.now }
        ensures same { (self.new.cells.now ≡ self.old.cells.now) × (self.new.piece ≡ self.old.piece) }
        ensures room { vec_capacity self.new.looked ≡ vec_capacity self.old.looked }
    {
        for value in values {
            self.push_noted(i64::from(*value));
        }
    }

    /// Takes the values of the next cells that the piece fetches. It takes no memory.
    pub fn push_all(&mut self, values: &[u32])
        requires { length self.old.looked.items + length values.now ≤ vec_capacity self.old.looked }
        ensures looked { self.new.looked.items ≡ self.old.looked.items ++ map pos values.now }
        ensures same { (self.new.cells.now ≡ self.old.cells.now) × (self.new.piece ≡ self.old.piece) }
        ensures room { vec_capacity self.new.looked ≡ vec_capacity self.old.looked }
    {
        if self.rising {
            let alloc = *self.looked.allocator();
            let looked = replace(&mut self.looked, Vec::new(alloc));
            self.looked = with_numbers(looked, values);
        } else {
            self.push_each(values);
        }
    }

    /// The values of a piece, in the order of the cells that it fetches.
    ///
    /// # Errors
    /// `AllocError` where memory runs out.
    pub fn of(
        alloc: Global,
        cells: &'a PlanCells<'a>,
        piece: u32,
        looked: &[i64],
    ) -> Result<LookedCells<'a>, AllocError>
        ensures { IfOk result (λ x. (x.cells.now ≡ cells.now) × (x.piece ≡ piece) × (x.looked.items ≡ looked.now)) }
    {
        let mut all = LookedCells::new(alloc, cells, looked.len())?;
        all.begin(piece);
        for value in looked {
            all.push(*value);
        }
        Ok(all)
    }
}

impl Cells for LookedCells<'_> {
    ghost cell = { λ x name at. let k = x.cells.now.checked.now in looked_value (algorithm_checked k) (plan_checked k) (cells_of_piece (plan_checked k) x.piece) x.looked.items name at };

    fn cell(&self, function: &str, at: &[i64]) -> Value {
        looks_are_by_number();
        let ty = type_named(self.cells.checked().algo(), function);
        match self.cells.number(self.cells.place(function), at) {
            Some(number) => Value {
                ty,
                number: self.value_of(number),
            },
            None => Value { ty, number: 0 },
        }
    }

    fn row(&self, function: &str, at: &[i64], count: usize) -> Option<CellRow<'_>> {
        looks_are_by_number();
        let numbers = self.values_along(self.cells.place(function), at, count)?;
        Some(CellRow {
            ty: type_named(self.cells.checked().algo(), function),
            numbers,
            kind: NumberKind::Exact,
        })
    }
}
