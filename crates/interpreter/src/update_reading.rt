//! What an update's expression is evaluated over at the turns of a run, where its coordinates' numbers are in registers.

ghost use Rattle.std.specs.Bool.{OnTrue};
ghost use Rattle.std.specs.Prelude.{◌≡◌, ◌<◌, ◌≤◌, ◌+ℤ◌, ◌-ℤ◌, ◌*ℤ◌, ◌≤ℤ◌, ◌^◌, ℕ, pos, IfSome, length, map, string_bytes};
ghost use Rattle.numeric.specs.declared.ty.Ty.TheVariants.{I32};
ghost use Rattle.plan.specs.Semantics.Run.{look};
ghost use Rattle.meaning.specs.Names.{bound};
ghost use Rattle.tree.specs.Meaning.{typed};
ghost use Rattle.interpreter.specs.Buffers.Blocks.{memory_of};
ghost use Rattle.interpreter.specs.Evaluation.Lanes.{lane, number_at, IsNarrowFor, IsShortRamp};
ghost use Rattle.interpreter.specs.Pieces.{around, no_cells};
ghost use Rattle.interpreter.specs.Runs.{numbers_at, IsBut};
ghost use Rattle.interpreter.specs.Updates.{bound_number, columns_at, update_number, update_numbers, variables_at};
ghost use Rattle.plan.specs.View.{coordinate_of};

use crate::evaluation::{Lanes, LentRow, Number, RunReader, narrow_words};
use crate::loads::is_named;
use crate::run_reading::{RunReading, lanes_of, rising_of, standing_of};
use numeric::Ty;
use plan::{Coordinate, Index};

/// Registers of so many numbers, which hold the numbers of all coordinates of a store at the turns of a run. The first so many
/// coordinates are those of the point.
#[derive(Clone, Copy, Drop)]
pub(crate) struct UpdateReading<'a, 'm> {
    pub reading: RunReading<'a, 'm>,
    pub size: usize,
    pub columns: &'m [Number],
    pub count: usize,
}

/// What a variable stands for at the turns of a run.
#[derive(Clone, Copy, Drop)]
pub(crate) enum Bound<'m> {
    /// This number at the first turn, that one at the second, and as much more at each later one.
    Steps(i64, i64),
    /// The numbers of a register.
    Column(&'m [Number]),
}

/// What a coordinate is at the turns of a run. Only one of a point is found by an expression.
fn bound_by<'m>(
    coordinate: &Coordinate,
    first: i64,
    second: i64,
    places: usize,
    column: &'m [Number],
) -> Bound<'m>
    ensures { (k : ℕ) → bound_number result k ≡ update_number places (coordinate_of coordinate.now).index (first +ℤ (second -ℤ first) *ℤ pos k) (number_at column.now k) }
{
    match &coordinate.index {
        Index::Found(_) if places > 0 => Bound::Column(column),
        _ => Bound::Steps(first, second),
    }
}

/// What the first coordinate of a variable's name is at the turns of a run. The first so many coordinates are those of the point.
fn bound_in<'m>(
    coordinates: &[Coordinate],
    first: &[i64],
    second: &[i64],
    places: usize,
    columns: &'m [Number],
    count: usize,
    name: &str,
) -> Option<Bound<'m>>
    ensures { IfSome result (λ b. (k : ℕ) → k < count → bound_number b k ≡ bound (map (λ c. string_bytes c.variable) coordinates.now) (update_numbers places coordinates.now (numbers_at first.now second.now k) (columns_at count (length coordinates.now) columns.now k)) name.now) }
{
    match (coordinates, first, second) {
        ([coordinate, later @ ..], [number, first @ ..], [next, second @ ..]) => {
            if columns.len() < count {
                return None;
            }
            let (column, behind) = columns.split_at(count);
            if is_named(coordinate.variable.as_str(), name) {
                Some(bound_by(coordinate, *number, *next, places, column))
            } else {
                let places = places.saturating_sub(1);
                bound_in(later, first, second, places, behind, count, name)
            }
        }
        _ => None,
    }
}

/// Whether a register has one number at all turns. All are looked at, so that several are at once.
pub(crate) fn stays(column: &[Number], first: i64) -> bool
    ensures { OnTrue result ((k : ℕ) → k < length column.now → number_at column.now k ≡ first) }
{
    let mut all = true;
    for turn in 0..column.len() {
        let one = column[turn].value == first;
        all = all & one;
    }
    all
}

/// Whether a register's numbers rise by one from this one on. All are looked at, so that several are at once.
pub(crate) fn rises(column: &[Number], first: i64) -> bool
    requires { IsShortRamp (length column.now) first }
    ensures { OnTrue result ((k : ℕ) → k < length column.now → number_at column.now k ≡ first +ℤ pos k) }
{
    let mut all = true;
    for turn in 0..column.len() {
        let one = column[turn].value == first + turn as i64;
        all = all & one;
    }
    all
}

/// Whether so many numbers from this one on are of 64 bits, and there are not too many.
pub(crate) fn are_few(count: usize, first: i64) -> bool
    ensures { OnTrue result (IsShortRamp count first) }
{
    count < 1 << 60 && first < 1 << 60
}

/// A register's numbers, put into another where they neither stay nor rise by one.
fn lanes_in(column: &[Number], out: &mut [u32]) -> Option<Lanes>
    requires { length column.now ≡ length out.old }
    ensures narrow { IfSome result (IsNarrowFor (length out.new)) }
    ensures lanes { IfSome result (λ x. (k : ℕ) → k < length out.new → typed I32 (number_at column.now k) ≡ lane x out.new k) }
{
    let first = column.first()?.value;
    let number = Number { value: first };
    // Nothing rests on the last number: where it is another, they need not all be looked at.
    let last = column.last()?.value;
    if last == first && stays(column, first) {
        return Some(Lanes::Broadcast(Ty::I32, number));
    }
    if are_few(column.len(), first) && rises(column, first) {
        return Some(Lanes::Ramp(Ty::I32, number));
    }
    narrow_words(Ty::I32, column, out)?;
    Some(Lanes::Vector(Ty::I32))
}

impl UpdateReading<'_, '_> {
    /// What a variable stands for at the turns of a run.
    fn bound_named(&self, name: &str) -> Option<Bound<'_>>
        ensures { IfSome result (λ b. (k : ℕ) → k < self.now.count → bound_number b k ≡ variables_at self.now k name.now) }
    {
        bound_in(
            self.reading.coordinates,
            self.reading.first,
            self.reading.second,
            self.size,
            self.columns,
            self.count,
            name,
        )
    }
}

impl RunReader for UpdateReading<'_, '_> {
    ghost variables = { variables_at };

    ghost look = { λ r m. look (around r.reading.piece.now no_cells) m };

    ghost agrees = { λ r m. IsBut r.reading.buffer (memory_of r.reading.memory.now) m };

    fn variable(&self, name: &str, out: &mut [u32]) -> Option<Lanes> {
        if out.len() != self.count {
            return None;
        }
        let bound = self.bound_named(name)?;
        match bound {
            Bound::Steps(first, second) => lanes_of(first, second, out),
            Bound::Column(column) if column.len() == out.len() => lanes_in(column, out),
            Bound::Column(_) => None,
        }
    }

    fn standing(&self, name: &str, count: usize) -> Option<i64> {
        if count > self.count {
            return None;
        }
        let bound = self.bound_named(name)?;
        match bound {
            Bound::Steps(first, second) => standing_of(first, second),
            Bound::Column(_) => None,
        }
    }

    fn rising(&self, name: &str, count: usize) -> Option<i64> {
        if count > self.count {
            return None;
        }
        let bound = self.bound_named(name)?;
        match bound {
            Bound::Steps(first, second) => rising_of(first, second),
            Bound::Column(_) => None,
        }
    }

    fn look_each(&self, name: &str, others: &[i64], out: &mut [Number]) -> Option<Ty> {
        self.reading.look_each(name, others, out)
    }

    fn look_row(
        &self,
        name: &str,
        first: i64,
        others: &[i64],
        cast: Option<Ty>,
        out: &mut [u32],
    ) -> Option<Ty> {
        self.reading.look_row(name, first, others, cast, out)
    }

    fn lend_row(
        &self,
        name: &str,
        first: i64,
        others: &[i64],
        cast: Option<Ty>,
        count: usize,
    ) -> Option<LentRow<'_>> {
        self.reading.lend_row(name, first, others, cast, count)
    }

    fn look_points(
        &self,
        name: &str,
        indices: &[Lanes],
        registers: &[u32],
        out: &mut [Number],
    ) -> Option<Ty> {
        self.reading.look_points(name, indices, registers, out)
    }
}
