//! An update's turns over the places of one buffer, by the numbers of its places.

ghost use Rattle.std.specs.Prelude.{◌≡◌, ◌<◌, ◌≤◌, ℕ, List, length, option_map, slice_index_or, slice_set, vec_capacity, Some, None};
ghost use Rattle.plan.specs.Semantics.Found.{with};
ghost use Rattle.tree.specs.Meaning.{applied, typed};
ghost use Rattle.interpreter.specs.Buffers.Marks.{held_places};
ghost use Rattle.interpreter.specs.HeldTurns.{held_operand, held_operation, on_known, on_own, turned};
ghost use Rattle.interpreter.specs.PlaceNumbers.{place_at};
ghost use Rattle.interpreter.specs.declared.evaluation.lanes.Number.{Number as NumberHeld};

use crate::buffers::held::{held_at, number_in, numbers_in, put_wrapped, set_held};
use crate::buffers::marks::Mark;
use crate::columns::number_of;
use crate::evaluation::{
    Difference, Larger, Number, Operator, Product, Quotient, Remainder, Signed8, Signed16,
    Signed32, Smaller, Sum, Unsigned8, Unsigned16, Unsigned32, Width, applied, applied_number,
};
use crate::placing::{Places, place_of};
use crate::updates::{Operand, Operation};
use numeric::{Op, Ty};
use tree::Value;

/// What an operand has at a turn. Its own point has the place of a number.
#[inline(always)]
fn operand_held(
    operand: Operand,
    numbers: &[Number],
    places: &[usize],
    marks: &[Mark],
    words: &[u32],
    wides: &[Number],
    turn: usize,
) -> Option<Value>
    ensures { result ≡ held_operand operand numbers.now places.now (held_places marks.now words.now wides.now) turn }
{
    match operand {
        Operand::Known(ty) => Some(Value {
            ty,
            number: number_of(numbers, turn),
        }),
        Operand::Own(_) => held_at(marks, words, wides, place_of(places, turn)),
    }
}

/// The operator on two values. Of one type it is code of its own.
#[inline(always)]
fn applied_value<O: Operator, W: Width>(op: Op, left: Value, right: Value) -> Value
    requires { op ≡ O.op }
    ensures { result ≡ applied op left right }
{
    if left.ty != W::kind() {
        return applied(op, left, right);
    }
    let first = Number { value: left.number };
    let second = Number {
        value: right.number,
    };
    Value {
        ty: W::kind(),
        number: applied_number::<O, W>(first, second).value,
    }
}

/// Sets the place of a turn to what an operation has there. Nothing where one of its own places is unset.
#[inline(always)]
fn turn_held<O: Operator, W: Width>(
    operation: Operation,
    numbers: &[Number],
    behind: &[Number],
    places: &Places<'_>,
    marks: &mut [Mark],
    words: &mut [u32],
    wides: &mut Vec<Number>,
    turn: usize,
) -> Option<()>
    requires op { operation.op ≡ O.op }
    requires words { length words.old ≡ length marks.old }
    requires room { length marks.old ≤ vec_capacity wides.old }
    requires point { place_at places.now.point.now turn < length marks.old }
    ensures turned { option_map (λ _. held_places marks.new words.new wides.new.items) result ≡ with (held_operation operation numbers.now behind.now places.now.left.now places.now.right.now (held_places marks.old words.old wides.old.items) turn) (λ v. Some (slice_set (held_places marks.old words.old wides.old.items) (place_at places.now.point.now turn) (Some v))) }
    ensures capacity { vec_capacity wides.old ≤ vec_capacity wides.new }
{
    let left = operand_held(
        operation.left,
        numbers,
        places.left,
        marks,
        words,
        wides,
        turn,
    )?;
    let right = operand_held(
        operation.right,
        behind,
        places.right,
        marks,
        words,
        wides,
        turn,
    )?;
    let value = applied_value::<O, W>(operation.op, left, right);
    set_held(marks, words, wides, place_of(places.point, turn), value);
    Some(())
}

/// Sets the places of so many turns, one after another, each to what an operation has at its turn. Nothing where one of its own
/// places is unset then.
#[inline(always)]
fn turn_each<O: Operator, W: Width>(
    operation: Operation,
    numbers: &[Number],
    behind: &[Number],
    places: &Places<'_>,
    count: usize,
    marks: &mut [Mark],
    words: &mut [u32],
    wides: &mut Vec<Number>,
) -> Option<()>
    requires op { operation.op ≡ O.op }
    requires words { length words.old ≡ length marks.old }
    requires room { length marks.old ≤ vec_capacity wides.old }
    requires point { (k : ℕ) → k < count → place_at places.now.point.now k < length marks.old }
    ensures turned { option_map (λ _. held_places marks.new words.new wides.new.items) result ≡ turned operation numbers.now behind.now places.now.point.now places.now.left.now places.now.right.now (held_places marks.old words.old wides.old.items) count }
    ensures capacity { vec_capacity wides.old ≤ vec_capacity wides.new }
{
    for turn in 0..count {
        turn_held::<O, W>(
            operation, numbers, behind, places, marks, words, wides, turn,
        )?;
    }
    Some(())
}

/// Sets a place to what an operator has on the value of an own place and a number of this type. Nothing where the own place is
/// unset.
#[inline(always)]
fn set_by_known<O: Operator, W: Width>(
    op: Op,
    point: usize,
    own: usize,
    ty: Ty,
    number: Number,
    marks: &mut [Mark],
    words: &mut [u32],
    wides: &mut Vec<Number>,
) -> Option<()>
    requires op { op ≡ O.op }
    requires words { length words.old ≡ length marks.old }
    requires room { length marks.old ≤ vec_capacity wides.old }
    requires point { point < length marks.old }
    ensures turned { option_map (λ _. held_places marks.new words.new wides.new.items) result ≡ with (with (slice_index_or (held_places marks.old words.old wides.old.items) own None) (λ x. Some (applied op x (typed ty number.value)))) (λ v. Some (slice_set (held_places marks.old words.old wides.old.items) point (Some v))) }
    ensures capacity { vec_capacity wides.old ≤ vec_capacity wides.new }
{
    if let Some(first) = number_in::<W>(marks, words, own) {
        let bits = O::low_bits(first.value, number.value);
        put_wrapped::<W>(marks, words, point, bits);
        return Some(());
    }
    let value = held_at(marks, words, wides, own)?;
    let known = Value {
        ty,
        number: number.value,
    };
    set_held(marks, words, wides, point, applied(op, value, known));
    Some(())
}

/// Sets the places of so many turns, one after another, each to what an operator has on the value of an own place and a number of
/// this type. Nothing where an own place is unset then.
#[inline(always)]
fn turn_by_known<O: Operator, W: Width>(
    op: Op,
    ty: Ty,
    behind: &[Number],
    point: &[usize],
    own: &[usize],
    count: usize,
    marks: &mut [Mark],
    words: &mut [u32],
    wides: &mut Vec<Number>,
) -> Option<()>
    requires op { op ≡ O.op }
    requires words { length words.old ≡ length marks.old }
    requires room { length marks.old ≤ vec_capacity wides.old }
    requires known { count ≤ length behind.now }
    requires own { count ≤ length own.now }
    requires listed { count ≤ length point.now }
    requires point { (k : ℕ) → k < count → place_at point.now k < length marks.old }
    ensures turned { (w n : ℕ) (zs : List NumberHeld) (rights : List ℕ) → option_map (λ _. held_places marks.new words.new wides.new.items) result ≡ turned (on_known op w ty n) zs behind.now point.now own.now rights (held_places marks.old words.old wides.old.items) count }
    ensures capacity { vec_capacity wides.old ≤ vec_capacity wides.new }
{
    for turn in 0..count {
        set_by_known::<O, W>(
            op,
            point[turn],
            own[turn],
            ty,
            behind[turn],
            marks,
            words,
            wides,
        )?;
    }
    Some(())
}

/// Sets a place to what an operator has on the values of two own places. Nothing where one of these is unset.
#[inline(always)]
fn set_by_own<O: Operator, W: Width>(
    op: Op,
    point: usize,
    first: usize,
    second: usize,
    marks: &mut [Mark],
    words: &mut [u32],
    wides: &mut Vec<Number>,
) -> Option<()>
    requires op { op ≡ O.op }
    requires words { length words.old ≡ length marks.old }
    requires room { length marks.old ≤ vec_capacity wides.old }
    requires point { point < length marks.old }
    ensures turned { option_map (λ _. held_places marks.new words.new wides.new.items) result ≡ with (with (slice_index_or (held_places marks.old words.old wides.old.items) first None) (λ x. with (slice_index_or (held_places marks.old words.old wides.old.items) second None) (λ y. Some (applied op x y)))) (λ v. Some (slice_set (held_places marks.old words.old wides.old.items) point (Some v))) }
    ensures capacity { vec_capacity wides.old ≤ vec_capacity wides.new }
{
    if let Some((left, right)) = numbers_in::<W>(marks, words, first, second) {
        let bits = O::low_bits(left.value, right.value);
        put_wrapped::<W>(marks, words, point, bits);
        return Some(());
    }
    let other = held_at(marks, words, wides, second)?;
    let value = held_at(marks, words, wides, first)?;
    set_held(marks, words, wides, point, applied(op, value, other));
    Some(())
}

/// Sets the places of so many turns, one after another, each to what an operator has on the values of two own places. Nothing where
/// one of these is unset then.
#[inline(always)]
fn turn_by_own<O: Operator, W: Width>(
    op: Op,
    point: &[usize],
    first: &[usize],
    second: &[usize],
    count: usize,
    marks: &mut [Mark],
    words: &mut [u32],
    wides: &mut Vec<Number>,
) -> Option<()>
    requires op { op ≡ O.op }
    requires words { length words.old ≡ length marks.old }
    requires room { length marks.old ≤ vec_capacity wides.old }
    requires first { count ≤ length first.now }
    requires second { count ≤ length second.now }
    requires listed { count ≤ length point.now }
    requires point { (k : ℕ) → k < count → place_at point.now k < length marks.old }
    ensures turned { (v w n : ℕ) (zs behind : List NumberHeld) → option_map (λ _. held_places marks.new words.new wides.new.items) result ≡ turned (on_own op v w n) zs behind point.now first.now second.now (held_places marks.old words.old wides.old.items) count }
    ensures capacity { vec_capacity wides.old ≤ vec_capacity wides.new }
{
    for turn in 0..count {
        set_by_own::<O, W>(
            op,
            point[turn],
            first[turn],
            second[turn],
            marks,
            words,
            wides,
        )?;
    }
    Some(())
}

/// The same by a loop of the operands' kinds, where each list has a number for each turn: such a loop tests neither in a turn.
#[inline(always)]
fn turn_by<O: Operator, W: Width>(
    operation: Operation,
    numbers: &[Number],
    behind: &[Number],
    places: &Places<'_>,
    count: usize,
    marks: &mut [Mark],
    words: &mut [u32],
    wides: &mut Vec<Number>,
) -> Option<()>
    requires op { operation.op ≡ O.op }
    requires words { length words.old ≡ length marks.old }
    requires room { length marks.old ≤ vec_capacity wides.old }
    requires point { (k : ℕ) → k < count → place_at places.now.point.now k < length marks.old }
    ensures turned { option_map (λ _. held_places marks.new words.new wides.new.items) result ≡ turned operation numbers.now behind.now places.now.point.now places.now.left.now places.now.right.now (held_places marks.old words.old wides.old.items) count }
    ensures capacity { vec_capacity wides.old ≤ vec_capacity wides.new }
{
    let op = operation.op;
    let (point, first, second) = (places.point, places.left, places.right);
    if point.len() < count || first.len() < count {
        return turn_each::<O, W>(
            operation, numbers, behind, places, count, marks, words, wides,
        );
    }
    match (operation.left, operation.right) {
        (Operand::Own(_), Operand::Known(ty)) if count <= behind.len() => {
            turn_by_known::<O, W>(op, ty, behind, point, first, count, marks, words, wides)
        }
        (Operand::Own(_), Operand::Own(_)) if count <= second.len() => {
            turn_by_own::<O, W>(op, point, first, second, count, marks, words, wides)
        }
        _ => turn_each::<O, W>(
            operation, numbers, behind, places, count, marks, words, wides,
        ),
    }
}

/// The type that an operand has at the first turn. A loop is chosen by it, and nothing rests on it.
fn first_type(
    operand: Operand,
    numbers: &[Number],
    places: &[usize],
    marks: &[Mark],
    words: &[u32],
    wides: &[Number],
) -> Ty {
    match operand_held(operand, numbers, places, marks, words, wides, 0) {
        Some(value) => value.ty,
        None => Ty::I32,
    }
}

/// The same by a loop of the type's own, which the first turn's left operand has.
fn turn_in<O: Operator>(
    operation: Operation,
    numbers: &[Number],
    behind: &[Number],
    places: &Places<'_>,
    count: usize,
    marks: &mut [Mark],
    words: &mut [u32],
    wides: &mut Vec<Number>,
) -> Option<()>
    requires op { operation.op ≡ O.op }
    requires words { length words.old ≡ length marks.old }
    requires room { length marks.old ≤ vec_capacity wides.old }
    requires point { (k : ℕ) → k < count → place_at places.now.point.now k < length marks.old }
    ensures turned { option_map (λ _. held_places marks.new words.new wides.new.items) result ≡ turned operation numbers.now behind.now places.now.point.now places.now.left.now places.now.right.now (held_places marks.old words.old wides.old.items) count }
    ensures capacity { vec_capacity wides.old ≤ vec_capacity wides.new }
{
    match first_type(operation.left, numbers, places.left, marks, words, wides) {
        Ty::U8 => turn_by::<O, Unsigned8>(
            operation, numbers, behind, places, count, marks, words, wides,
        ),
        Ty::U16 => turn_by::<O, Unsigned16>(
            operation, numbers, behind, places, count, marks, words, wides,
        ),
        Ty::U32 => turn_by::<O, Unsigned32>(
            operation, numbers, behind, places, count, marks, words, wides,
        ),
        Ty::I8 => turn_by::<O, Signed8>(
            operation, numbers, behind, places, count, marks, words, wides,
        ),
        Ty::I16 => turn_by::<O, Signed16>(
            operation, numbers, behind, places, count, marks, words, wides,
        ),
        Ty::I32 => turn_by::<O, Signed32>(
            operation, numbers, behind, places, count, marks, words, wides,
        ),
    }
}

/// Sets the places of so many turns, one after another, each to what an operation has at its turn, by a loop of the operator's and
/// the type's own. Nothing where one of its own places is unset then.
pub(crate) fn turn_all(
    operation: Operation,
    numbers: &[Number],
    behind: &[Number],
    places: &Places<'_>,
    count: usize,
    marks: &mut [Mark],
    words: &mut [u32],
    wides: &mut Vec<Number>,
) -> Option<()>
    requires words { length words.old ≡ length marks.old }
    requires room { length marks.old ≤ vec_capacity wides.old }
    requires point { (k : ℕ) → k < count → place_at places.now.point.now k < length marks.old }
    ensures turned { option_map (λ _. held_places marks.new words.new wides.new.items) result ≡ turned operation numbers.now behind.now places.now.point.now places.now.left.now places.now.right.now (held_places marks.old words.old wides.old.items) count }
    ensures capacity { vec_capacity wides.old ≤ vec_capacity wides.new }
{
    match operation.op {
        Op::Add => turn_in::<Sum>(
            operation, numbers, behind, places, count, marks, words, wides,
        ),
        Op::Sub => turn_in::<Difference>(
            operation, numbers, behind, places, count, marks, words, wides,
        ),
        Op::Mul => turn_in::<Product>(
            operation, numbers, behind, places, count, marks, words, wides,
        ),
        Op::Div => turn_in::<Quotient>(
            operation, numbers, behind, places, count, marks, words, wides,
        ),
        Op::Rem => turn_in::<Remainder>(
            operation, numbers, behind, places, count, marks, words, wides,
        ),
        Op::Min => turn_in::<Smaller>(
            operation, numbers, behind, places, count, marks, words, wides,
        ),
        Op::Max => turn_in::<Larger>(
            operation, numbers, behind, places, count, marks, words, wides,
        ),
    }
}
