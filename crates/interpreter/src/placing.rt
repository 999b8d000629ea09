//! The own places of an update at the turns of a run: found for all turns, and then read and written by their numbers.

ghost use Rattle.std.specs.Bool.{OnTrue};
ghost use Rattle.std.specs.Prelude.{◌≡◌, ◌<◌, ◌≤◌, ◌==◌, ◌&&◌, ℕ, length, position, drop, IfSome, Some};
ghost use Rattle.interpreter.specs.Evaluation.Lanes.{number_at};
ghost use Rattle.interpreter.specs.PlaceNumbers.{place_at, OperandStands, OperationStands, StandsAt, UpdateStands};
ghost use Rattle.interpreter.specs.Updates.{columns_at};

use crate::buffers::Buffers;
use crate::columns::number_of;
use crate::evaluation::Number;
use crate::run_reading::registers_behind;
use crate::updates::{Operand, Operation, Update};

/// What a run stores to: a buffer of this number, its position among all, the coordinates of a point, and the turns.
#[derive(Clone, Copy, Drop)]
pub(crate) struct Target {
    pub buffer: u64,
    pub position: usize,
    pub size: usize,
    pub count: usize,
}

/// The position of the buffer that an update stores to, and the numbers of its places at the turns of a run: of those that are
/// stored to, and of the own points of both operands.
#[derive(Clone, Copy, Drop)]
pub(crate) struct Places<'a> {
    pub position: usize,
    pub point: &'a [usize],
    pub left: &'a [usize],
    pub right: &'a [usize],
}

/// How many lists of places there are: of the points that are stored to, and of the own points of both operands.
pub(crate) const LISTS: usize = 3;

/// The number of the place at a turn.
#[inline(always)]
pub(crate) fn place_of(places: &[usize], turn: usize) -> usize
    ensures { result ≡ place_at places.now turn }
{
    match places.get(turn) {
        Some(place) => *place,
        None => 0,
    }
}

/// Points whose places are known: their registers, and the numbers of their places.
#[derive(Clone, Copy, Drop)]
struct Placed<'a> {
    registers: &'a [Number],
    places: &'a [usize],
}

/// Whether two registers have the same numbers at so many turns. All are looked at, so that several are at once.
fn is_same_register(left: &[Number], right: &[Number], count: usize) -> bool
    ensures { OnTrue result ((k : ℕ) → k < count → number_at left.now k ≡ number_at right.now k) }
{
    if left.len() < count || right.len() < count {
        return false;
    }
    let mut all = true;
    for turn in 0..count {
        let one = left[turn].value == right[turn].value;
        all = all & one;
    }
    all
}

/// Whether two registers begin with the same number. Nothing rests on it: where they don't, they need not all be looked at.
fn begin_alike(left: &[Number], right: &[Number]) -> bool {
    number_of(left, 0) == number_of(right, 0)
}

/// Whether so many registers, one behind the other, have the same numbers as others at so many turns.
fn are_same_registers(left: &[Number], right: &[Number], width: usize, count: usize) -> bool
    ensures { OnTrue result ((k : ℕ) → k < count → columns_at count width left.now k ≡ columns_at count width right.now k) }
{
    if width == 0 {
        return true;
    }
    if !begin_alike(left, right) || !is_same_register(left, right, count) {
        return false;
    }
    let left = registers_behind(left, count);
    let right = registers_behind(right, count);
    are_same_registers(left, right, width - 1, count)
}

/// Puts in so many numbers of places.
fn copy_places(from: &[usize], count: usize, places: &mut [usize])
    requires from { count ≤ length from.now }
    requires count { count ≤ length places.old }
    ensures { (k : ℕ) → k < count → place_at places.new k ≡ place_at from.now k }
{
    let (first, _) = from.split_at(count);
    let (to, _) = places.split_at_mut(count);
    to.copy_from_slice(first);
}

/// Puts in the numbers of the places of points of so many coordinates, which are those of the point that is stored to where they are
/// the same points; nothing where one has no place.
fn place_own(
    memory: &Buffers,
    target: Target,
    width: usize,
    registers: &[Number],
    placed: Placed<'_>,
    places: &mut [usize],
) -> Option<()>
    requires first { position (λ block. block.used && (target.buffer == block.number)) memory.now ≡ Some target.position }
    requires count { target.count ≤ length places.old }
    requires listed { target.count ≤ length placed.places.now }
    requires placed { (k : ℕ) → k < target.count → StandsAt memory.now target.buffer (columns_at target.count target.size placed.registers.now k) target.position (place_at placed.places.now k) }
    ensures { IfSome result (λ _. (k : ℕ) → k < target.count → StandsAt memory.now target.buffer (columns_at target.count width registers.now k) target.position (place_at places.new k)) }
{
    if width == target.size
        && are_same_registers(registers, placed.registers, width, target.count)
    {
        copy_places(placed.places, target.count, places);
        return Some(());
    }
    memory.place_columns(target.position, width, target.count, registers, places)
}

/// Puts in the numbers of the places of an operand's own points; nothing where one has no place.
fn place_operand(
    memory: &Buffers,
    target: Target,
    operand: Operand,
    registers: &[Number],
    placed: Placed<'_>,
    places: &mut [usize],
) -> Option<()>
    requires first { position (λ block. block.used && (target.buffer == block.number)) memory.now ≡ Some target.position }
    requires count { target.count ≤ length places.old }
    requires listed { target.count ≤ length placed.places.now }
    requires placed { (k : ℕ) → k < target.count → StandsAt memory.now target.buffer (columns_at target.count target.size placed.registers.now k) target.position (place_at placed.places.now k) }
    ensures { IfSome result (λ _. (k : ℕ) → k < target.count → OperandStands memory.now target.buffer target.count target.position operand registers.now places.new k) }
{
    match operand {
        Operand::Known(_) => Some(()),
        Operand::Own(width) => place_own(memory, target, width, registers, placed, places),
    }
}

/// Puts in the numbers of the places of an operation's own points; nothing where one has no place.
fn place_operation(
    memory: &Buffers,
    target: Target,
    operation: Operation,
    registers: &[Number],
    placed: Placed<'_>,
    left: &mut [usize],
    right: &mut [usize],
) -> Option<()>
    requires first { position (λ block. block.used && (target.buffer == block.number)) memory.now ≡ Some target.position }
    requires left { target.count ≤ length left.old }
    requires right { target.count ≤ length right.old }
    requires listed { target.count ≤ length placed.places.now }
    requires placed { (k : ℕ) → k < target.count → StandsAt memory.now target.buffer (columns_at target.count target.size placed.registers.now k) target.position (place_at placed.places.now k) }
    ensures { IfSome result (λ _. (k : ℕ) → k < target.count → OperationStands memory.now target.buffer target.count target.position operation registers.now left.new right.new k) }
{
    let behind = registers_behind(registers, operation.width);
    place_operand(memory, target, operation.left, registers, placed, left)?;
    place_operand(memory, target, operation.right, behind, placed, right)
}

/// Puts in the numbers of the places of an update: of the points that are stored to, and of the own points of both operands.
/// Nothing where one has no place.
pub(crate) fn place_update(
    memory: &Buffers,
    target: Target,
    update: Update,
    registers: &[Number],
    point: &mut [usize],
    left: &mut [usize],
    right: &mut [usize],
) -> Option<()>
    requires first { position (λ block. block.used && (target.buffer == block.number)) memory.now ≡ Some target.position }
    requires point { target.count ≤ length point.old }
    requires left { target.count ≤ length left.old }
    requires right { target.count ≤ length right.old }
    ensures { IfSome result (λ _. (k : ℕ) → k < target.count → UpdateStands memory.now target.buffer target.size target.count target.position update registers.now point.new left.new right.new k) }
{
    let values = registers_behind(registers, update.start);
    memory.place_columns(target.position, target.size, target.count, registers, point)?;
    let placed = Placed {
        registers,
        places: point,
    };
    place_operation(
        memory,
        target,
        update.operation,
        values,
        placed,
        left,
        right,
    )
}
