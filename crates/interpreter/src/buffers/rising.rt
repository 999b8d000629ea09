//! Registers of points that lie along a row: the first coordinate rises by one with each turn, and the others stay.

ghost use Rattle.std.specs.Prelude.{◌≡◌, ◌<◌, ◌≤◌, ◌+◌, ◌+ℤ◌, ℕ, length, pos, IfSome};
ghost use Rattle.interpreter.specs.Evaluation.Lanes.{number_at};
ghost use Rattle.interpreter.specs.PlaceNumbers.{place_at};

use crate::buffers::held::place_behind;
use crate::evaluation::Number;
use crate::scanlines::distance;
use crate::update_reading::{are_few, rises, stays};

/// The number that a register has at each of so many turns, if it is one.
pub(crate) fn standing(registers: &[Number], count: usize) -> Option<i64>
    ensures { IfSome result (λ z. (k : ℕ) → k < count → number_at registers.now k ≡ z) }
{
    if registers.len() < count {
        return None;
    }
    let (column, _) = registers.split_at(count);
    let first = column.first()?.value;
    if stays(column, first) {
        Some(first)
    } else {
        None
    }
}

/// Whether the last of so many numbers is as far from the first as it has to be where they rise by one.
fn ends_risen(first: i64, last: i64, count: usize) -> bool {
    match distance(first, last) {
        Some(risen) => risen == count.saturating_sub(1),
        None => false,
    }
}

/// The number that a register has at the first of so many turns, if it has one more at each turn than at the one before.
pub(crate) fn rising(registers: &[Number], count: usize) -> Option<i64>
    ensures { IfSome result (λ z. (k : ℕ) → k < count → number_at registers.now k ≡ z +ℤ pos k) }
{
    if registers.len() < count {
        return None;
    }
    let (column, _) = registers.split_at(count);
    let first = column.first()?.value;
    // Nothing rests on the last number: where it is another, they need not all be looked at.
    let last = column.last()?.value;
    if ends_risen(first, last, count) && are_few(column.len(), first) && rises(column, first) {
        Some(first)
    } else {
        None
    }
}

/// Puts in the numbers of so many places that lie side by side from one on, where there are so many in all.
pub(crate) fn rise_from(all: usize, start: usize, count: usize, places: &mut [usize])
    requires count { count ≤ length places.old }
    requires inside { (k : ℕ) → k < count → start + k < all }
    ensures { (k : ℕ) → k < count → place_at places.new k ≡ start + k }
{
    for turn in 0..count {
        places[turn] = place_behind(all, start, turn);
    }
}
