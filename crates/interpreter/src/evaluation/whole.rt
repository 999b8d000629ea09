//! The operators over the turns of a run.

ghost use Rattle.std.specs.Prelude.{◌≡◌, ◌<◌, ◌^◌, ℕ, ℤ, List, pos, ◌+ℤ◌, ◌≤ℤ◌, length, if◌then◌else◌, IfSome, IsTrue};
ghost use Rattle.numeric.specs.declared.op.Op.TheVariants.{Sub};
ghost use Rattle.numeric.specs.Apply.{apply, compare, exact};
ghost use Rattle.std.specs.Bool.{OnTrue};
ghost use Rattle.std.specs.Int.{int_max, int_min};
ghost use Rattle.numeric.specs.Wrap.{wrap, IsOf};
ghost use Rattle.tree.specs.Meaning.{applied, clamped, negated, typed};
ghost use Rattle.interpreter.specs.Evaluation.Lanes.{clamped_number, lane, lane_number, number_at, taken_as, type_of, IsNarrowFor, IsRamp, IsShortRamp};
ghost use Rattle.interpreter.specs.Evaluation.Repeats.{repeated_value};
ghost use Rattle.interpreter.specs.Evaluation.Words.{bits_at, mask_at, word_at};

use crate::evaluation::kernels::{
    apply_all, apply_by, apply_to, choose_each, clamp_all, clamp_between, clamp_by, compare_all,
    compare_by, copy_each, extend_all, fill, fill_rising, fill_words, negate_all, rise_words,
    widen_all,
};
use crate::evaluation::lanes::{ClampedRamp, Lanes, Number};
use crate::evaluation::operations::{Difference, Larger, Product, Sum};
use crate::evaluation::operators::{applied, clamped, negated, wrapped};
use crate::evaluation::quotients::{divide_all, reduce_all};
use crate::evaluation::repeats::Repeat;
use crate::evaluation::residue_kernels::{apply_complements, apply_residues_from, square_each};
use crate::evaluation::small_orders::extreme_opposites;
use crate::evaluation::widths::{Signed16, Signed32};
use crate::evaluation::words::exact_word;
use numeric::{Comparison, Op, Ty};
use tree::Value;

/// The type of the values.
pub(crate) fn type_of(lanes: Lanes) -> Ty
    ensures { result ≡ type_of lanes }
{
    match lanes {
        Lanes::Broadcast(ty, _) | Lanes::Ramp(ty, _) => ty,
        Lanes::Clamped(ty, _) => ty,
        Lanes::Vector(ty) => ty,
    }
}

/// The number of a value.
#[inline(always)]
pub(crate) fn number_of(value: Value) -> Number
    ensures { result.value ≡ value.number }
{
    Number {
        value: value.number,
    }
}

/// The value of a number of a type.
#[inline(always)]
fn value_of(ty: Ty, number: Number) -> Value
    ensures { result ≡ typed ty number.value }
{
    Value {
        ty,
        number: number.value,
    }
}

/// One value at all turns.
#[inline(always)]
pub(crate) fn broadcast(value: Value) -> Lanes
    ensures narrow { (n : ℕ) → IsNarrowFor n result }
    ensures lanes { (ws : List ℕ) (k : ℕ) → lane result ws k ≡ value }
{
    Lanes::Broadcast(value.ty, number_of(value))
}

/// This value at the first turn, and one more at each turn after it.
#[inline(always)]
fn ramp(value: Value) -> Lanes
    ensures narrow { (n : ℕ) → IsShortRamp n value.number → IsNarrowFor n result }
    ensures lanes { (ws : List ℕ) (k : ℕ) → lane result ws k ≡ typed value.ty (value.number +ℤ pos k) }
{
    Lanes::Ramp(value.ty, number_of(value))
}

/// Puts the words of one number in, if it is of the type.
fn spread_number(ty: Ty, number: Number, out: &mut [u32]) -> Option<()>
    ensures { IfSome result (λ _. (k : ℕ) → k < length out.new → word_at ty out.new k ≡ number.value) }
{
    let word = exact_word(ty, number)?;
    fill_words(word, out);
    Some(())
}

/// Puts the words of numbers in that rise by one, if they are of the type.
fn spread_ramp(ty: Ty, first: Number, out: &mut [u32]) -> Option<()>
    ensures { IfSome result (λ _. (k : ℕ) → k < length out.new → word_at ty out.new k ≡ first.value +ℤ pos k) }
{
    if !is_ramp(value_of(ty, first), out.len()) {
        return None;
    }
    rise_words(first, out);
    Some(())
}

/// Each word of the type, not above one number and then not below another, if these are of the type.
fn clamp_numbers(ty: Ty, low: Number, high: Number, out: &mut [u32]) -> Option<()>
    ensures { IfSome result (λ _. (k : ℕ) → k < length out.new → word_at ty out.new k ≡ int_max (int_min (word_at ty out.old k) high.value) low.value) }
{
    if !is_of(ty, low) || !is_of(ty, high) {
        return None;
    }
    clamp_by(ty, out, low, high);
    Some(())
}

/// Puts the words of a clamped ramp in, if its numbers are of the type.
fn spread_clamped(ty: Ty, ramp: ClampedRamp, out: &mut [u32]) -> Option<()>
    ensures { IfSome result (λ _. (k : ℕ) → k < length out.new → word_at ty out.new k ≡ clamped_number ramp k) }
{
    spread_ramp(ty, ramp.first, out)?;
    clamp_numbers(ty, ramp.low, ramp.high, out)
}

/// Puts the words of the lanes into the register, if their numbers are of their type.
pub(crate) fn spread(lanes: Lanes, out: &mut [u32]) -> Option<()>
    ensures { IfSome result (λ _. (k : ℕ) → k < length out.new → word_at (type_of lanes) out.new k ≡ lane_number lanes out.old k) }
{
    match lanes {
        Lanes::Broadcast(ty, number) => spread_number(ty, number, out),
        Lanes::Ramp(ty, first) => spread_ramp(ty, first, out),
        Lanes::Clamped(ty, ramp) => spread_clamped(ty, ramp, out),
        Lanes::Vector(_) => Some(()),
    }
}

/// Puts the words of the lanes into the register, if their numbers are of their type, which is the answer.
pub(crate) fn put_lanes(lanes: Lanes, out: &mut [u32]) -> Option<Ty>
    ensures { IfSome result (λ t. (k : ℕ) → k < length out.new → typed t (word_at t out.new k) ≡ lane lanes out.old k) }
{
    spread(lanes, out)?;
    Some(type_of(lanes))
}

/// Puts the numbers of a clamped ramp in.
fn widen_clamped(ramp: ClampedRamp, out: &mut [Number])
    requires { IsShortRamp (length out.old) ramp.first.value }
    ensures { (k : ℕ) → k < length out.new → number_at out.new k ≡ clamped_number ramp k }
{
    fill_rising(ramp.first, out);
    clamp_between(out, ramp.low, ramp.high);
}

/// Puts the numbers of lanes over a register in.
pub(crate) fn widen(lanes: Lanes, words: &[u32], out: &mut [Number])
    requires words { length words.now ≡ length out.old }
    requires lanes { IsNarrowFor (length out.old) lanes }
    ensures { (k : ℕ) → k < length out.new → number_at out.new k ≡ lane_number lanes words.now k }
{
    match lanes {
        Lanes::Broadcast(_, number) => fill(number, out),
        Lanes::Ramp(_, first) => fill_rising(first, out),
        Lanes::Clamped(_, ramp) => widen_clamped(ramp, out),
        Lanes::Vector(ty) => widen_all(ty, words, out),
    }
}

/// The sum or the difference, where a left number that is more by any amount gives as much more.
fn exact_sum(op: Op, left: Value, right: Value) -> Option<Value>
    ensures ty { IfSome result (λ v. v.ty ≡ left.ty) }
    ensures number { IfSome result (λ v. (more : ℤ) → exact op (left.number +ℤ more) right.number ≡ v.number +ℤ more) }
{
    let number = match op {
        Op::Add => left.number.checked_add(right.number)?,
        Op::Sub => left.number.checked_sub(right.number)?,
        _ => return None,
    };
    Some(Value {
        ty: left.ty,
        number,
    })
}

/// Whether numbers of the value's type rise from it on, so many times by one.
fn is_ramp(first: Value, count: usize) -> bool
    ensures { OnTrue result (IsRamp count first) }
{
    if count > 1 << 60 || first.number > 1 << 60 {
        return false;
    }
    if first.number < first.ty.least() {
        return false;
    }
    if first.number + count as i64 > first.ty.greatest() {
        return false;
    }
    true
}

/// Whether a number is of a type.
fn is_of(ty: Ty, number: Number) -> bool
    ensures { OnTrue result (IsOf ty number.value) }
{
    if number.value < ty.least() {
        return false;
    }
    number.value <= ty.greatest()
}

/// A ramp with the same number added at all turns, or taken away, where that is a ramp of its type.
pub(crate) fn move_ramp(op: Op, left: Value, right: Value, count: usize) -> Option<Value>
    ensures narrow { IfSome result (λ v. IsShortRamp count v.number) }
    ensures lanes { IfSome result (λ v. (k : ℕ) → k < count → typed v.ty (v.number +ℤ pos k) ≡ applied op (typed left.ty (left.number +ℤ pos k)) right) }
{
    let moved = exact_sum(op, left, right)?;
    if is_ramp(moved, count) {
        Some(moved)
    } else {
        None
    }
}

/// The operator where no register is needed.
pub(crate) fn apply_whole(op: Op, left: Lanes, right: Lanes, count: usize) -> Option<Lanes>
    ensures narrow { IfSome result (IsNarrowFor count) }
    ensures lanes { IfSome result (λ x. (us vs ws : List ℕ) (k : ℕ) → k < count → lane x us k ≡ applied op (lane left vs k) (lane right ws k)) }
{
    let Lanes::Broadcast(ty, number) = right else {
        return None;
    };
    let right = value_of(ty, number);
    match left {
        Lanes::Broadcast(ty, number) => Some(broadcast(applied(op, value_of(ty, number), right))),
        Lanes::Ramp(ty, number) => {
            Some(ramp(move_ramp(op, value_of(ty, number), right, count)?))
        }
        Lanes::Clamped(_, _) | Lanes::Vector(_) => None,
    }
}

/// The operator on each word of a register and one number. A divisor of 32 bits spares them their divisions.
fn apply_one(op: Op, ty: Ty, out: &mut [u32], right: Number)
    ensures { (k : ℕ) → k < length out.new → word_at ty out.new k ≡ apply op ty (word_at ty out.old k) right.value }
{
    match (op, u32::try_from(right.value)) {
        (Op::Div, Ok(divisor)) => divide_all(ty, out, divisor),
        (Op::Rem, Ok(divisor)) => reduce_all(ty, out, divisor),
        _ => apply_by(op, ty, out, right),
    }
}

/// Puts the words of lanes into a register, if these are of the type and their numbers too.
pub(crate) fn spread_as(ty: Ty, lanes: Lanes, out: &mut [u32]) -> Option<()>
    ensures ty { IfSome result (λ _. type_of lanes ≡ ty) }
    ensures numbers { IfSome result (λ _. (k : ℕ) → k < length out.new → word_at ty out.new k ≡ lane_number lanes out.old k) }
{
    if type_of(lanes) != ty {
        return None;
    }
    spread(lanes, out)
}

/// The operator on each word of a register and lanes over another.
fn apply_right(op: Op, ty: Ty, right: Lanes, out: &mut [u32], other: &mut [u32]) -> Option<()>
    requires { length other.old ≡ length out.old }
    ensures { IfSome result (λ _. (k : ℕ) → k < length out.new → word_at ty out.new k ≡ apply op ty (word_at ty out.old k) (lane_number right other.old k)) }
{
    match right {
        Lanes::Broadcast(_, number) => {
            apply_one(op, ty, out, number);
            Some(())
        }
        _ => {
            spread_as(ty, right, other)?;
            apply_all(op, ty, out, other);
            Some(())
        }
    }
}

/// The operator on one number and lanes over another register, put into this one.
fn apply_left(
    op: Op,
    ty: Ty,
    left: Number,
    right: Lanes,
    out: &mut [u32],
    other: &mut [u32],
) -> Option<()>
    requires { length other.old ≡ length out.old }
    ensures { IfSome result (λ _. (k : ℕ) → k < length out.new → word_at ty out.new k ≡ apply op ty left.value (lane_number right other.old k)) }
{
    spread_as(ty, right, other)?;
    apply_to(op, ty, left, other, out);
    Some(())
}

/// The operator on lanes where a register is needed: the words of the left ones' type.
fn apply_words(op: Op, left: Lanes, right: Lanes, out: &mut [u32], other: &mut [u32]) -> Option<()>
    requires { length other.old ≡ length out.old }
    ensures { IfSome result (λ _. (k : ℕ) → k < length out.new → word_at (type_of left) out.new k ≡ apply op (type_of left) (lane_number left out.old k) (lane_number right other.old k)) }
{
    match left {
        Lanes::Broadcast(ty, number) => apply_left(op, ty, number, right, out, other),
        _ => {
            spread(left, out)?;
            apply_right(op, type_of(left), right, out, other)
        }
    }
}

/// The operator on lanes, the left ones over this register, into which the values are put, and the right ones over another: their type.
pub(crate) fn apply_lanes(
    op: Op,
    left: Lanes,
    right: Lanes,
    out: &mut [u32],
    other: &mut [u32],
) -> Option<Ty>
    requires { length other.old ≡ length out.old }
    ensures { IfSome result (λ t. (k : ℕ) → k < length out.new → typed t (word_at t out.new k) ≡ applied op (lane left out.old k) (lane right other.old k)) }
{
    match apply_whole(op, left, right, out.len()) {
        Some(lanes) => put_lanes(lanes, out),
        None => {
            apply_words(op, left, right, out, other)?;
            Some(type_of(left))
        }
    }
}

/// A value less lanes over this register, into which the values are put, if these are of its type: their type.
fn subtract_lanes(value: Value, lanes: Lanes, out: &mut [u32]) -> Option<Ty>
    ensures { IfSome result (λ t. (k : ℕ) → k < length out.new → typed t (word_at t out.new k) ≡ applied Sub value (lane lanes out.old k)) }
{
    spread_as(value.ty, lanes, out)?;
    apply_residues_from::<Difference>(number_of(value), out);
    Some(value.ty)
}

/// The values of an operand that repeats another, put into a register of its own: their type. The other's lie over this register.
fn repeat_lanes(repeat: Repeat, lanes: Lanes, register: &[u32], out: &mut [u32]) -> Option<Ty>
    requires { length register.now ≡ length out.old }
    ensures { IfSome result (λ t. (k : ℕ) → k < length out.new → typed t (word_at t out.new k) ≡ repeated_value repeat (lane lanes register.now k)) }
{
    copy_each(register, out);
    match repeat {
        Repeat::Same => put_lanes(lanes, out),
        Repeat::Opposite => negate_lanes(lanes, out),
        Repeat::Complement(value) => subtract_lanes(value, lanes, out),
    }
}

/// The operator on lanes over this register, into which the values are put, and on those of an operand that repeats them, which take
/// another register: their type.
fn apply_repeat(
    op: Op,
    repeat: Repeat,
    lanes: Lanes,
    out: &mut [u32],
    other: &mut [u32],
) -> Option<Ty>
    requires { length other.old ≡ length out.old }
    ensures { IfSome result (λ t. (k : ℕ) → k < length out.new → typed t (word_at t out.new k) ≡ applied op (lane lanes out.old k) (repeated_value repeat (lane lanes out.old k))) }
{
    let ty = repeat_lanes(repeat, lanes, out, other)?;
    apply_lanes(op, lanes, Lanes::Vector(ty), out, other)
}

/// The operator on lanes over this register, into which the values are put, and on a value less them, which is put over another register
/// but where sums, differences and products of words of the value's type are made: their type.
fn apply_complement(
    op: Op,
    value: Value,
    lanes: Lanes,
    out: &mut [u32],
    other: &mut [u32],
) -> Option<Ty>
    requires { length other.old ≡ length out.old }
    ensures { IfSome result (λ t. (k : ℕ) → k < length out.new → typed t (word_at t out.new k) ≡ applied op (lane lanes out.old k) (applied Sub value (lane lanes out.old k))) }
{
    match (op, lanes) {
        (Op::Add, Lanes::Vector(ty)) if ty == value.ty => {
            apply_complements::<Sum>(number_of(value), out);
            Some(ty)
        }
        (Op::Sub, Lanes::Vector(ty)) if ty == value.ty => {
            apply_complements::<Difference>(number_of(value), out);
            Some(ty)
        }
        (Op::Mul, Lanes::Vector(ty)) if ty == value.ty => {
            apply_complements::<Product>(number_of(value), out);
            Some(ty)
        }
        _ => apply_repeat(op, Repeat::Complement(value), lanes, out, other),
    }
}

/// The operator on lanes over this register, into which the values are put, and on the same again, which are put over another register
/// but where words are multiplied: their type.
fn apply_same(op: Op, lanes: Lanes, out: &mut [u32], other: &mut [u32]) -> Option<Ty>
    requires { length other.old ≡ length out.old }
    ensures { IfSome result (λ t. (k : ℕ) → k < length out.new → typed t (word_at t out.new k) ≡ applied op (lane lanes out.old k) (lane lanes out.old k)) }
{
    match (op, lanes) {
        (Op::Mul, Lanes::Vector(ty)) => {
            square_each(out);
            Some(ty)
        }
        _ => apply_repeat(op, Repeat::Same, lanes, out, other),
    }
}

/// The operator on lanes over this register, into which the values are put, and on their negations, which are put over another register
/// but where words with a sign and their negations are compared: their type.
fn apply_opposite(op: Op, lanes: Lanes, out: &mut [u32], other: &mut [u32]) -> Option<Ty>
    requires { length other.old ≡ length out.old }
    ensures { IfSome result (λ t. (k : ℕ) → k < length out.new → typed t (word_at t out.new k) ≡ applied op (lane lanes out.old k) (negated (lane lanes out.old k))) }
{
    match (op, lanes) {
        (Op::Max, Lanes::Vector(Ty::I16)) => {
            extreme_opposites::<Larger, Signed16>(out);
            Some(Ty::I16)
        }
        (Op::Max, Lanes::Vector(Ty::I32)) => {
            extreme_opposites::<Larger, Signed32>(out);
            Some(Ty::I32)
        }
        _ => apply_repeat(op, Repeat::Opposite, lanes, out, other),
    }
}

/// The operator on lanes over this register, into which the values are put, and on those of an operand that repeats them, for which
/// another register may be taken: their type.
pub(crate) fn apply_repeated(
    op: Op,
    repeat: Repeat,
    lanes: Lanes,
    out: &mut [u32],
    other: &mut [u32],
) -> Option<Ty>
    requires { length other.old ≡ length out.old }
    ensures { IfSome result (λ t. (k : ℕ) → k < length out.new → typed t (word_at t out.new k) ≡ applied op (lane lanes out.old k) (repeated_value repeat (lane lanes out.old k))) }
{
    match repeat {
        Repeat::Same => apply_same(op, lanes, out, other),
        Repeat::Opposite => apply_opposite(op, lanes, out, other),
        Repeat::Complement(value) => apply_complement(op, value, lanes, out, other),
    }
}

/// The negation of lanes over this register, into which the values are put: their type.
pub(crate) fn negate_lanes(lanes: Lanes, out: &mut [u32]) -> Option<Ty>
    ensures { IfSome result (λ t. (k : ℕ) → k < length out.new → typed t (word_at t out.new k) ≡ negated (lane lanes out.old k)) }
{
    match lanes {
        Lanes::Broadcast(ty, number) => put_lanes(broadcast(negated(value_of(ty, number))), out),
        _ => {
            spread(lanes, out)?;
            negate_all(type_of(lanes), out);
            Some(type_of(lanes))
        }
    }
}

/// Whether this type makes of each number what it makes of the one that the number wraps to of its own type: it has no more bits.
pub(crate) fn wraps_alike(own: Ty, ty: Ty) -> bool
    ensures { OnTrue result ((z : ℤ) → wrap ty z ≡ wrap ty (wrap own z)) }
{
    ty.bits() <= own.bits()
}

/// The type of which words of this type are, cast to a type, if there is one: nothing where they are words of another number then.
pub(crate) fn type_lent(own: Ty, cast: Option<Ty>) -> Option<Ty>
    ensures { IfSome result (λ t. (z : ℤ) → typed t (wrap t z) ≡ taken_as cast (typed own (wrap own z))) }
{
    match cast {
        None => Some(own),
        Some(ty) if wraps_alike(own, ty) => Some(ty),
        Some(_) => None,
    }
}

/// The words of a type, so that this type makes of each what its number wraps to. A type of no more bits makes that of them as they are.
fn recast_words(own: Ty, ty: Ty, out: &mut [u32])
    ensures { (k : ℕ) → k < length out.new → word_at ty out.new k ≡ wrap ty (word_at own out.old k) }
{
    if wraps_alike(own, ty) {
        return;
    }
    extend_all(own, out);
}

/// Lanes over this register, wrapped to the type and put into it.
pub(crate) fn wrap_lanes(ty: Ty, lanes: Lanes, out: &mut [u32]) -> Option<()>
    ensures { IfSome result (λ _. (k : ℕ) → k < length out.new → word_at ty out.new k ≡ wrap ty (lane_number lanes out.old k)) }
{
    match lanes {
        Lanes::Broadcast(_, number) => spread_number(ty, number_of(wrapped(ty, number.value)), out),
        _ => {
            spread(lanes, out)?;
            recast_words(type_of(lanes), ty, out);
            Some(())
        }
    }
}

/// The words of a type, so that they are those of the type to which they are cast, if there is one: their type then.
pub(crate) fn cast_words(ty: Ty, cast: Option<Ty>, out: &mut [u32]) -> Ty
    ensures { (k : ℕ) → k < length out.new → typed result (word_at result out.new k) ≡ taken_as cast (typed ty (word_at ty out.old k)) }
{
    match cast {
        None => ty,
        Some(cast) => {
            recast_words(ty, cast, out);
            cast
        }
    }
}

/// Whether a ramp of so many numbers lies between two numbers.
fn is_between(first: i64, low: i64, high: i64, count: usize) -> bool
    ensures low { IsTrue result → low ≤ℤ first }
    ensures high { IsTrue result → (first +ℤ pos count) ≤ℤ high }
{
    low <= first && count < 1 << 60 && first < 1 << 60 && first + count as i64 <= high
}

/// A ramp between two values.
fn clamped_ramp(ty: Ty, first: Number, low: Value, high: Value) -> Lanes
    ensures narrow { (n : ℕ) → IsShortRamp n first.value → IsNarrowFor n result }
    ensures lanes { (ws : List ℕ) (k : ℕ) → lane result ws k ≡ clamped (typed ty (first.value +ℤ pos k)) low high }
{
    let ramp = ClampedRamp {
        first,
        low: number_of(low),
        high: number_of(high),
    };
    Lanes::Clamped(ty, ramp)
}

/// Lanes between others, where no register is needed.
pub(crate) fn clamp_whole(value: Lanes, low: Lanes, high: Lanes, count: usize) -> Option<Lanes>
    requires { IsNarrowFor count value }
    ensures narrow { IfSome result (IsNarrowFor count) }
    ensures lanes { IfSome result (λ x. (ts us vs ws : List ℕ) (k : ℕ) → k < count → lane x ts k ≡ clamped (lane value us k) (lane low vs k) (lane high ws k)) }
{
    let Lanes::Broadcast(ty, number) = low else {
        return None;
    };
    let low = value_of(ty, number);
    let Lanes::Broadcast(ty, number) = high else {
        return None;
    };
    let high = value_of(ty, number);
    match value {
        Lanes::Broadcast(ty, number) => Some(broadcast(clamped(value_of(ty, number), low, high))),
        Lanes::Ramp(_, first) if is_between(first.value, low.number, high.number, count) => {
            Some(value)
        }
        Lanes::Ramp(ty, first) => Some(clamped_ramp(ty, first, low, high)),
        _ => None,
    }
}

/// Each word of a register between lanes over others.
fn clamp_register(
    ty: Ty,
    low: Lanes,
    high: Lanes,
    out: &mut [u32],
    lows: &mut [u32],
    highs: &mut [u32],
) -> Option<()>
    requires lows { length lows.old ≡ length out.old }
    requires highs { length highs.old ≡ length out.old }
    ensures { IfSome result (λ _. (k : ℕ) → k < length out.new → word_at ty out.new k ≡ int_max (int_min (word_at ty out.old k) (lane_number high highs.old k)) (lane_number low lows.old k)) }
{
    match (low, high) {
        (Lanes::Broadcast(_, low), Lanes::Broadcast(_, high)) => clamp_numbers(ty, low, high, out),
        _ => {
            spread_as(ty, low, lows)?;
            spread_as(ty, high, highs)?;
            clamp_all(ty, out, lows, highs);
            Some(())
        }
    }
}

/// Lanes over this register, into which the values are put, between others: their type.
pub(crate) fn clamp_lanes(
    value: Lanes,
    low: Lanes,
    high: Lanes,
    out: &mut [u32],
    lows: &mut [u32],
    highs: &mut [u32],
) -> Option<Ty>
    requires lows { length lows.old ≡ length out.old }
    requires highs { length highs.old ≡ length out.old }
    requires value { IsNarrowFor (length out.old) value }
    ensures { IfSome result (λ t. (k : ℕ) → k < length out.new → typed t (word_at t out.new k) ≡ clamped (lane value out.old k) (lane low lows.old k) (lane high highs.old k)) }
{
    match clamp_whole(value, low, high, out.len()) {
        Some(lanes) => put_lanes(lanes, out),
        None => {
            spread(value, out)?;
            clamp_register(type_of(value), low, high, out, lows, highs)?;
            Some(type_of(value))
        }
    }
}

/// The comparison of the words of a register, which become a mask, with lanes over another.
fn compare_right(
    by: Comparison,
    ty: Ty,
    right: Lanes,
    out: &mut [u32],
    other: &mut [u32],
) -> Option<()>
    requires { length other.old ≡ length out.old }
    ensures { IfSome result (λ _. (k : ℕ) → k < length out.new → mask_at out.new k ≡ compare by (word_at ty out.old k) (lane_number right other.old k)) }
{
    match right {
        Lanes::Broadcast(_, number) => {
            compare_by(by, ty, out, number);
            Some(())
        }
        _ => {
            spread_as(ty, right, other)?;
            compare_all(by, ty, out, other);
            Some(())
        }
    }
}

/// The comparison of lanes, the left ones over this register, which becomes a mask, and the right ones over another.
pub(crate) fn compare_lanes(
    by: Comparison,
    left: Lanes,
    right: Lanes,
    out: &mut [u32],
    other: &mut [u32],
) -> Option<()>
    requires { length other.old ≡ length out.old }
    ensures { IfSome result (λ _. (k : ℕ) → k < length out.new → mask_at out.new k ≡ compare by (lane_number left out.old k) (lane_number right other.old k)) }
{
    spread(left, out)?;
    compare_right(by, type_of(left), right, out, other)
}

/// The lanes over one register where the mask says yes, and those over another where it does not: their type. Nothing where
/// they are of different types.
pub(crate) fn choose_lanes(
    yes: Lanes,
    no: Lanes,
    mask: &mut [u32],
    yeses: &mut [u32],
    noes: &mut [u32],
) -> Option<Ty>
    requires yeses { length yeses.old ≡ length mask.old }
    requires noes { length noes.old ≡ length mask.old }
    ensures { IfSome result (λ t. (k : ℕ) → k < length mask.new → typed t (word_at t mask.new k) ≡ (if mask_at mask.old k then lane yes yeses.old k else lane no noes.old k)) }
{
    let ty = type_of(yes);
    spread(yes, yeses)?;
    spread_as(ty, no, noes)?;
    choose_each(mask, yeses, noes);
    Some(ty)
}
