//! The operators over registers, which hold a word for each turn of a run.

ghost use Rattle.std.specs.Bool.{OnTrue};
ghost use Rattle.std.specs.Prelude.{◌≡◌, ◌<◌, ◌≤◌, ◌≤ℤ◌, ◌&&◌, ◌||◌, ℕ, IfSome, if◌then◌else◌, not, pos, neg_ℤ, ◌+ℤ◌, ◌*ℤ◌, length};
ghost use Rattle.std.specs.Int.{int_max, int_min};
ghost use Rattle.numeric.specs.declared.op.Op.TheVariants.{Min, Max};
ghost use Rattle.numeric.specs.declared.ty.Ty.{Ty as TyFound};
ghost use Rattle.numeric.specs.Apply.{apply, compare};
ghost use Rattle.numeric.specs.Wrap.{wrap, IsOf};
ghost use Rattle.interpreter.specs.Evaluation.Lanes.{number_at, IsShortRamp};
ghost use Rattle.interpreter.specs.Evaluation.Words.{bits_at, mask_at, word_at};

use crate::evaluation::lanes::Number;
use crate::evaluation::operations::{
    Comparing, Difference, IsAtLeast, IsAtMost, IsDifferent, IsEqual, IsGreater, IsLess, Larger,
    Operator, Product, Quotient, Remainder, Smaller, Sum,
};
use crate::evaluation::residue_kernels::{apply_residues, apply_residues_by, apply_residues_to};
use crate::evaluation::small_kernels::{clamp_small_by, widen_each_small};
use crate::evaluation::small_orders::{
    compare_each_small, compare_each_small_by, extreme_each, extreme_each_by,
};
use crate::evaluation::widths::{
    Signed8, Signed16, Signed32, Unsigned8, Unsigned16, Unsigned32, Width,
};
use crate::evaluation::words::{
    applied_to_word, applied_word, both_word, chosen_word, clamped_word, compared_word,
    either_word, exact_word, extended_word, low_word, negated_word, not_word, word_number,
};
use numeric::{Comparison, Op, Ty};

/// The number so many turns after the first.
#[inline(always)]
pub(crate) fn risen(first: Number, turn: usize) -> Number
    requires { IsShortRamp turn first.value }
    ensures { result.value ≡ first.value +ℤ pos turn }
{
    Number {
        value: first.value + turn as i64,
    }
}

/// The operator on two numbers, wrapped to the type.
#[inline(always)]
pub(crate) fn applied_number<O: Operator, W: Width>(left: Number, right: Number) -> Number
    ensures { result.value ≡ apply O.op W.ty left.value right.value }
{
    // What is lost of the exact result is a multiple of 2 to the 64, and so of every modulus.
    Number {
        value: W::wrapped(O::low_bits(left.value, right.value)),
    }
}

/// The wrapped negation of a number.
#[inline(always)]
pub(crate) fn negated_number<W: Width>(number: Number) -> Number
    ensures { result.value ≡ wrap W.ty (neg_ℤ number.value) }
{
    // As above, what is lost where the negation does not fit is a multiple of every modulus.
    Number {
        value: W::wrapped(number.value.wrapping_neg()),
    }
}

/// A number, not above another and then not below a third.
pub(crate) fn clamped_number(number: Number, low: Number, high: Number) -> Number
    ensures { result.value ≡ int_max (int_min number.value high.value) low.value }
{
    Number {
        value: number.value.min(high.value).max(low.value),
    }
}

/// Puts one number in for each turn.
pub(crate) fn fill(number: Number, out: &mut [Number])
    ensures { (k : ℕ) → k < length out.new → number_at out.new k ≡ number.value }
{
    for turn in 0..out.len() {
        out[turn] = number;
    }
}

/// Puts numbers in that rise by one.
pub(crate) fn fill_rising(first: Number, out: &mut [Number])
    requires { IsShortRamp (length out.old) first.value }
    ensures { (k : ℕ) → k < length out.new → number_at out.new k ≡ first.value +ℤ pos k }
{
    for turn in 0..out.len() {
        out[turn] = risen(first, turn);
    }
}

/// Each number, not above one number and then not below another.
pub(crate) fn clamp_between(out: &mut [Number], low: Number, high: Number)
    ensures { (k : ℕ) → k < length out.new → number_at out.new k ≡ int_max (int_min (number_at out.old k) high.value) low.value }
{
    for turn in 0..out.len() {
        out[turn] = clamped_number(out[turn], low, high);
    }
}

/// The number so many turns after the first, where each turn adds a step, if it is of 64 bits.
fn stepped(first: i64, step: i64, turn: usize) -> Option<Number>
    ensures { IfSome result (λ n. n.value ≡ first +ℤ step *ℤ pos turn) }
{
    let turn = i64::try_from(turn).ok()?;
    let value = step.checked_mul(turn)?.checked_add(first)?;
    Some(Number { value })
}

/// Puts numbers in to each of which the next one adds a step; nothing where they are not of 64 bits.
pub(crate) fn fill_steps(first: i64, step: i64, out: &mut [Number]) -> Option<()>
    ensures { IfSome result (λ _. (k : ℕ) → k < length out.new → number_at out.new k ≡ first +ℤ step *ℤ pos k) }
{
    for turn in 0..out.len() {
        out[turn] = stepped(first, step, turn)?;
    }
    Some(())
}

/// The operator on each word and the one of another register.
#[inline(always)]
fn apply_each<O: Operator, W: Width>(out: &mut [u32], right: &[u32])
    requires { length right.now ≡ length out.old }
    ensures { (k : ℕ) → k < length out.new → word_at W.ty out.new k ≡ apply O.op W.ty (word_at W.ty out.old k) (word_at W.ty right.now k) }
{
    for turn in 0..out.len() {
        out[turn] = applied_word::<O, W>(out[turn], word_number::<W>(right[turn]));
    }
}

/// The operator on each word and the one of another register, by a loop of the type's own.
fn apply_in<O: Operator>(ty: Ty, out: &mut [u32], right: &[u32])
    requires { length right.now ≡ length out.old }
    ensures { (k : ℕ) → k < length out.new → word_at ty out.new k ≡ apply O.op ty (word_at ty out.old k) (word_at ty right.now k) }
{
    match ty {
        Ty::U8 => apply_each::<O, Unsigned8>(out, right),
        Ty::U16 => apply_each::<O, Unsigned16>(out, right),
        Ty::U32 => apply_each::<O, Unsigned32>(out, right),
        Ty::I8 => apply_each::<O, Signed8>(out, right),
        Ty::I16 => apply_each::<O, Signed16>(out, right),
        Ty::I32 => apply_each::<O, Signed32>(out, right),
    }
}

/// Each word or the one of another register, whichever is smaller, by a loop of the type's own.
fn smaller_of_both(ty: Ty, out: &mut [u32], right: &[u32])
    requires { length right.now ≡ length out.old }
    ensures { (k : ℕ) → k < length out.new → word_at ty out.new k ≡ apply Min ty (word_at ty out.old k) (word_at ty right.now k) }
{
    match ty {
        Ty::I8 => extreme_each::<Smaller, Signed8>(out, right),
        Ty::I16 => extreme_each::<Smaller, Signed16>(out, right),
        Ty::I32 => extreme_each::<Smaller, Signed32>(out, right),
        _ => apply_in::<Smaller>(ty, out, right),
    }
}

/// Each word or the one of another register, whichever is larger, by a loop of the type's own.
fn larger_of_both(ty: Ty, out: &mut [u32], right: &[u32])
    requires { length right.now ≡ length out.old }
    ensures { (k : ℕ) → k < length out.new → word_at ty out.new k ≡ apply Max ty (word_at ty out.old k) (word_at ty right.now k) }
{
    match ty {
        Ty::I8 => extreme_each::<Larger, Signed8>(out, right),
        Ty::I16 => extreme_each::<Larger, Signed16>(out, right),
        Ty::I32 => extreme_each::<Larger, Signed32>(out, right),
        _ => apply_in::<Larger>(ty, out, right),
    }
}

/// The operator on each word and the one of another register, by a loop of the operator's own, and of the type's where the type matters.
pub(crate) fn apply_all(op: Op, ty: Ty, out: &mut [u32], right: &[u32])
    requires { length right.now ≡ length out.old }
    ensures { (k : ℕ) → k < length out.new → word_at ty out.new k ≡ apply op ty (word_at ty out.old k) (word_at ty right.now k) }
{
    match op {
        Op::Add => apply_residues::<Sum>(out, right),
        Op::Sub => apply_residues::<Difference>(out, right),
        Op::Mul => apply_residues::<Product>(out, right),
        Op::Div => apply_in::<Quotient>(ty, out, right),
        Op::Rem => apply_in::<Remainder>(ty, out, right),
        Op::Min => smaller_of_both(ty, out, right),
        Op::Max => larger_of_both(ty, out, right),
    }
}

/// The operator on each word and one number.
#[inline(always)]
fn apply_each_by<O: Operator, W: Width>(out: &mut [u32], right: Number)
    ensures { (k : ℕ) → k < length out.new → word_at W.ty out.new k ≡ apply O.op W.ty (word_at W.ty out.old k) right.value }
{
    for turn in 0..out.len() {
        out[turn] = applied_word::<O, W>(out[turn], right);
    }
}

/// The operator on each word and one number, by a loop of the type's own.
fn apply_by_in<O: Operator>(ty: Ty, out: &mut [u32], right: Number)
    ensures { (k : ℕ) → k < length out.new → word_at ty out.new k ≡ apply O.op ty (word_at ty out.old k) right.value }
{
    match ty {
        Ty::U8 => apply_each_by::<O, Unsigned8>(out, right),
        Ty::U16 => apply_each_by::<O, Unsigned16>(out, right),
        Ty::U32 => apply_each_by::<O, Unsigned32>(out, right),
        Ty::I8 => apply_each_by::<O, Signed8>(out, right),
        Ty::I16 => apply_each_by::<O, Signed16>(out, right),
        Ty::I32 => apply_each_by::<O, Signed32>(out, right),
    }
}

/// Each word and one number, whichever is smaller, by a loop of the type's own.
fn smaller_by(ty: Ty, out: &mut [u32], right: Number)
    ensures { (k : ℕ) → k < length out.new → word_at ty out.new k ≡ apply Min ty (word_at ty out.old k) right.value }
{
    match (ty, i32::try_from(right.value)) {
        (Ty::U8, Ok(number)) => extreme_each_by::<Smaller, Unsigned8>(out, number),
        (Ty::U16, Ok(number)) => extreme_each_by::<Smaller, Unsigned16>(out, number),
        (Ty::I8, Ok(number)) => extreme_each_by::<Smaller, Signed8>(out, number),
        (Ty::I16, Ok(number)) => extreme_each_by::<Smaller, Signed16>(out, number),
        (Ty::I32, Ok(number)) => extreme_each_by::<Smaller, Signed32>(out, number),
        _ => apply_by_in::<Smaller>(ty, out, right),
    }
}

/// Each word and one number, whichever is larger, by a loop of the type's own.
fn larger_by(ty: Ty, out: &mut [u32], right: Number)
    ensures { (k : ℕ) → k < length out.new → word_at ty out.new k ≡ apply Max ty (word_at ty out.old k) right.value }
{
    match (ty, i32::try_from(right.value)) {
        (Ty::U8, Ok(number)) => extreme_each_by::<Larger, Unsigned8>(out, number),
        (Ty::U16, Ok(number)) => extreme_each_by::<Larger, Unsigned16>(out, number),
        (Ty::I8, Ok(number)) => extreme_each_by::<Larger, Signed8>(out, number),
        (Ty::I16, Ok(number)) => extreme_each_by::<Larger, Signed16>(out, number),
        (Ty::I32, Ok(number)) => extreme_each_by::<Larger, Signed32>(out, number),
        _ => apply_by_in::<Larger>(ty, out, right),
    }
}

/// The operator on each word and one number, by a loop of the operator's own, and of the type's where the type matters.
pub(crate) fn apply_by(op: Op, ty: Ty, out: &mut [u32], right: Number)
    ensures { (k : ℕ) → k < length out.new → word_at ty out.new k ≡ apply op ty (word_at ty out.old k) right.value }
{
    match op {
        Op::Add => apply_residues_by::<Sum>(out, right),
        Op::Sub => apply_residues_by::<Difference>(out, right),
        Op::Mul => apply_residues_by::<Product>(out, right),
        Op::Div => apply_by_in::<Quotient>(ty, out, right),
        Op::Rem => apply_by_in::<Remainder>(ty, out, right),
        Op::Min => smaller_by(ty, out, right),
        Op::Max => larger_by(ty, out, right),
    }
}

/// The operator on one number and each word of a register, put into another.
#[inline(always)]
fn apply_each_to<O: Operator, W: Width>(left: Number, right: &[u32], out: &mut [u32])
    requires { length right.now ≡ length out.old }
    ensures { (k : ℕ) → k < length out.new → word_at W.ty out.new k ≡ apply O.op W.ty left.value (word_at W.ty right.now k) }
{
    for turn in 0..out.len() {
        out[turn] = applied_to_word::<O, W>(left, right[turn]);
    }
}

/// The operator on one number and each word of a register, put into another, by a loop of the type's own.
fn apply_to_in<O: Operator>(ty: Ty, left: Number, right: &[u32], out: &mut [u32])
    requires { length right.now ≡ length out.old }
    ensures { (k : ℕ) → k < length out.new → word_at ty out.new k ≡ apply O.op ty left.value (word_at ty right.now k) }
{
    match ty {
        Ty::U8 => apply_each_to::<O, Unsigned8>(left, right, out),
        Ty::U16 => apply_each_to::<O, Unsigned16>(left, right, out),
        Ty::U32 => apply_each_to::<O, Unsigned32>(left, right, out),
        Ty::I8 => apply_each_to::<O, Signed8>(left, right, out),
        Ty::I16 => apply_each_to::<O, Signed16>(left, right, out),
        Ty::I32 => apply_each_to::<O, Signed32>(left, right, out),
    }
}

/// The operator on one number and each word of a register, put into another, by a loop of the operator's own, and of the type's where
/// the type matters.
pub(crate) fn apply_to(op: Op, ty: Ty, left: Number, right: &[u32], out: &mut [u32])
    requires { length right.now ≡ length out.old }
    ensures { (k : ℕ) → k < length out.new → word_at ty out.new k ≡ apply op ty left.value (word_at ty right.now k) }
{
    match op {
        Op::Add => apply_residues_to::<Sum>(left, right, out),
        Op::Sub => apply_residues_to::<Difference>(left, right, out),
        Op::Mul => apply_residues_to::<Product>(left, right, out),
        Op::Div => apply_to_in::<Quotient>(ty, left, right, out),
        Op::Rem => apply_to_in::<Remainder>(ty, left, right, out),
        Op::Min => apply_to_in::<Smaller>(ty, left, right, out),
        Op::Max => apply_to_in::<Larger>(ty, left, right, out),
    }
}

/// The wrapped negation of each word.
#[inline(always)]
fn negate_each<W: Width>(out: &mut [u32])
    ensures { (k : ℕ) → k < length out.new → word_at W.ty out.new k ≡ wrap W.ty (neg_ℤ (word_at W.ty out.old k)) }
{
    for turn in 0..out.len() {
        out[turn] = negated_word::<W>(out[turn]);
    }
}

/// The wrapped negation of each word, by a loop of the type's own.
pub(crate) fn negate_all(ty: Ty, out: &mut [u32])
    ensures { (k : ℕ) → k < length out.new → word_at ty out.new k ≡ wrap ty (neg_ℤ (word_at ty out.old k)) }
{
    match ty {
        Ty::U8 => negate_each::<Unsigned8>(out),
        Ty::U16 => negate_each::<Unsigned16>(out),
        Ty::U32 => negate_each::<Unsigned32>(out),
        Ty::I8 => negate_each::<Signed8>(out),
        Ty::I16 => negate_each::<Signed16>(out),
        Ty::I32 => negate_each::<Signed32>(out),
    }
}

/// Each word of a type, so that every type makes of it what its number wraps to.
#[inline(always)]
fn extend_each<W: Width>(out: &mut [u32])
    ensures { (t : TyFound) (k : ℕ) → k < length out.new → word_at t out.new k ≡ wrap t (word_at W.ty out.old k) }
{
    for turn in 0..out.len() {
        out[turn] = extended_word::<W>(out[turn]);
    }
}

/// Each word of a type, so that every type makes of it what its number wraps to, by a loop of the type's own.
pub(crate) fn extend_all(ty: Ty, out: &mut [u32])
    ensures { (t : TyFound) (k : ℕ) → k < length out.new → word_at t out.new k ≡ wrap t (word_at ty out.old k) }
{
    match ty {
        Ty::U8 => extend_each::<Unsigned8>(out),
        Ty::U16 => extend_each::<Unsigned16>(out),
        Ty::U32 => extend_each::<Unsigned32>(out),
        Ty::I8 => extend_each::<Signed8>(out),
        Ty::I16 => extend_each::<Signed16>(out),
        Ty::I32 => extend_each::<Signed32>(out),
    }
}

/// Each word, not above the one of a register and then not below the one of another.
#[inline(always)]
fn clamp_each<W: Width>(out: &mut [u32], low: &[u32], high: &[u32])
    requires low { length low.now ≡ length out.old }
    requires high { length high.now ≡ length out.old }
    ensures { (k : ℕ) → k < length out.new → word_at W.ty out.new k ≡ int_max (int_min (word_at W.ty out.old k) (word_at W.ty high.now k)) (word_at W.ty low.now k) }
{
    for turn in 0..out.len() {
        out[turn] = clamped_word::<W>(
            out[turn],
            word_number::<W>(low[turn]),
            word_number::<W>(high[turn]),
        );
    }
}

/// Each word, not above the one of a register and then not below the one of another, by a loop of the type's own.
pub(crate) fn clamp_all(ty: Ty, out: &mut [u32], low: &[u32], high: &[u32])
    requires low { length low.now ≡ length out.old }
    requires high { length high.now ≡ length out.old }
    ensures { (k : ℕ) → k < length out.new → word_at ty out.new k ≡ int_max (int_min (word_at ty out.old k) (word_at ty high.now k)) (word_at ty low.now k) }
{
    match ty {
        Ty::U8 => clamp_each::<Unsigned8>(out, low, high),
        Ty::U16 => clamp_each::<Unsigned16>(out, low, high),
        Ty::U32 => clamp_each::<Unsigned32>(out, low, high),
        Ty::I8 => clamp_each::<Signed8>(out, low, high),
        Ty::I16 => clamp_each::<Signed16>(out, low, high),
        Ty::I32 => clamp_each::<Signed32>(out, low, high),
    }
}

/// Each word, not above one number and then not below another.
#[inline(always)]
fn clamp_each_by<W: Width>(out: &mut [u32], low: Number, high: Number)
    requires low { IsOf W.ty low.value }
    requires high { IsOf W.ty high.value }
    ensures { (k : ℕ) → k < length out.new → word_at W.ty out.new k ≡ int_max (int_min (word_at W.ty out.old k) high.value) low.value }
{
    for turn in 0..out.len() {
        out[turn] = clamped_word::<W>(out[turn], low, high);
    }
}

/// Each word, not above one number and then not below another, by a loop of the type's own.
pub(crate) fn clamp_by(ty: Ty, out: &mut [u32], low: Number, high: Number)
    requires low { IsOf ty low.value }
    requires high { IsOf ty high.value }
    ensures { (k : ℕ) → k < length out.new → word_at ty out.new k ≡ int_max (int_min (word_at ty out.old k) high.value) low.value }
{
    match ty {
        Ty::U8 => clamp_small_by::<Unsigned8>(out, low, high),
        Ty::U16 => clamp_small_by::<Unsigned16>(out, low, high),
        Ty::U32 => clamp_each_by::<Unsigned32>(out, low, high),
        Ty::I8 => clamp_small_by::<Signed8>(out, low, high),
        Ty::I16 => clamp_small_by::<Signed16>(out, low, high),
        Ty::I32 => clamp_small_by::<Signed32>(out, low, high),
    }
}

/// A mask that says where the comparison with the words of another register holds.
#[inline(always)]
fn compare_each<C: Comparing, W: Width>(out: &mut [u32], right: &[u32])
    requires { length right.now ≡ length out.old }
    ensures { (k : ℕ) → k < length out.new → mask_at out.new k ≡ compare C.by (word_at W.ty out.old k) (word_at W.ty right.now k) }
{
    for turn in 0..out.len() {
        out[turn] = compared_word::<C, W>(out[turn], word_number::<W>(right[turn]));
    }
}

/// A mask that says where the comparison with the words of another register holds, by a loop of the type's own.
fn compare_in<C: Comparing>(ty: Ty, out: &mut [u32], right: &[u32])
    requires { length right.now ≡ length out.old }
    ensures { (k : ℕ) → k < length out.new → mask_at out.new k ≡ compare C.by (word_at ty out.old k) (word_at ty right.now k) }
{
    match ty {
        Ty::U8 => compare_each::<C, Unsigned8>(out, right),
        Ty::U16 => compare_each::<C, Unsigned16>(out, right),
        Ty::U32 => compare_each::<C, Unsigned32>(out, right),
        Ty::I8 => compare_each_small::<C, Signed8>(out, right),
        Ty::I16 => compare_each_small::<C, Signed16>(out, right),
        Ty::I32 => compare_each_small::<C, Signed32>(out, right),
    }
}

/// A mask that says where the comparison with the words of another register holds, by a loop of the comparison's and the type's own.
pub(crate) fn compare_all(by: Comparison, ty: Ty, out: &mut [u32], right: &[u32])
    requires { length right.now ≡ length out.old }
    ensures { (k : ℕ) → k < length out.new → mask_at out.new k ≡ compare by (word_at ty out.old k) (word_at ty right.now k) }
{
    match by {
        Comparison::Less => compare_in::<IsLess>(ty, out, right),
        Comparison::AtMost => compare_in::<IsAtMost>(ty, out, right),
        Comparison::Greater => compare_in::<IsGreater>(ty, out, right),
        Comparison::AtLeast => compare_in::<IsAtLeast>(ty, out, right),
        Comparison::Equal => compare_in::<IsEqual>(ty, out, right),
        Comparison::Different => compare_in::<IsDifferent>(ty, out, right),
    }
}

/// A mask that says where the comparison with one number holds.
#[inline(always)]
fn compare_each_by<C: Comparing, W: Width>(out: &mut [u32], right: Number)
    ensures { (k : ℕ) → k < length out.new → mask_at out.new k ≡ compare C.by (word_at W.ty out.old k) right.value }
{
    for turn in 0..out.len() {
        out[turn] = compared_word::<C, W>(out[turn], right);
    }
}

/// A mask that says where the comparison with one number holds, by a loop of the type's own.
fn compare_by_in<C: Comparing>(ty: Ty, out: &mut [u32], right: Number)
    ensures { (k : ℕ) → k < length out.new → mask_at out.new k ≡ compare C.by (word_at ty out.old k) right.value }
{
    match ty {
        Ty::U8 => compare_each_by::<C, Unsigned8>(out, right),
        Ty::U16 => compare_each_by::<C, Unsigned16>(out, right),
        Ty::U32 => compare_each_by::<C, Unsigned32>(out, right),
        Ty::I8 => compare_each_by::<C, Signed8>(out, right),
        Ty::I16 => compare_each_by::<C, Signed16>(out, right),
        Ty::I32 => compare_each_by::<C, Signed32>(out, right),
    }
}

/// A mask that says where the comparison with one number holds, by a loop of the type's own, in 32 bits where type and number allow it.
fn compare_usual_by<C: Comparing>(ty: Ty, out: &mut [u32], right: Number)
    ensures { (k : ℕ) → k < length out.new → mask_at out.new k ≡ compare C.by (word_at ty out.old k) right.value }
{
    match (ty, i32::try_from(right.value)) {
        (Ty::U8, Ok(number)) => compare_each_small_by::<C, Unsigned8>(out, number),
        (Ty::U16, Ok(number)) => compare_each_small_by::<C, Unsigned16>(out, number),
        (Ty::I8, Ok(number)) => compare_each_small_by::<C, Signed8>(out, number),
        (Ty::I16, Ok(number)) => compare_each_small_by::<C, Signed16>(out, number),
        (Ty::I32, Ok(number)) => compare_each_small_by::<C, Signed32>(out, number),
        _ => compare_by_in::<C>(ty, out, right),
    }
}

/// A mask that says where the comparison with one number holds, by a loop of the comparison's and the type's own.
pub(crate) fn compare_by(by: Comparison, ty: Ty, out: &mut [u32], right: Number)
    ensures { (k : ℕ) → k < length out.new → mask_at out.new k ≡ compare by (word_at ty out.old k) right.value }
{
    match by {
        Comparison::Less => compare_usual_by::<IsLess>(ty, out, right),
        Comparison::AtMost => compare_usual_by::<IsAtMost>(ty, out, right),
        Comparison::Greater => compare_usual_by::<IsGreater>(ty, out, right),
        Comparison::AtLeast => compare_usual_by::<IsAtLeast>(ty, out, right),
        Comparison::Equal => compare_usual_by::<IsEqual>(ty, out, right),
        Comparison::Different => compare_usual_by::<IsDifferent>(ty, out, right),
    }
}

/// The mask that says yes where this one does not.
pub(crate) fn not_each(out: &mut [u32])
    ensures { (k : ℕ) → k < length out.new → mask_at out.new k ≡ not (mask_at out.old k) }
{
    for turn in 0..out.len() {
        out[turn] = not_word(out[turn]);
    }
}

/// The mask that says yes where this one and another do.
pub(crate) fn both_each(out: &mut [u32], right: &[u32])
    requires { length right.now ≡ length out.old }
    ensures { (k : ℕ) → k < length out.new → mask_at out.new k ≡ (mask_at out.old k && mask_at right.now k) }
{
    for turn in 0..out.len() {
        out[turn] = both_word(out[turn], right[turn]);
    }
}

/// The mask that says yes where this one or another does.
pub(crate) fn either_each(out: &mut [u32], right: &[u32])
    requires { length right.now ≡ length out.old }
    ensures { (k : ℕ) → k < length out.new → mask_at out.new k ≡ (mask_at out.old k || mask_at right.now k) }
{
    for turn in 0..out.len() {
        out[turn] = either_word(out[turn], right[turn]);
    }
}

/// The words of one register where the mask says yes, and those of another where it does not.
pub(crate) fn choose_each(out: &mut [u32], yes: &[u32], no: &[u32])
    requires yes { length yes.now ≡ length out.old }
    requires no { length no.now ≡ length out.old }
    ensures { (k : ℕ) → k < length out.new → bits_at out.new k ≡ (if mask_at out.old k then bits_at yes.now k else bits_at no.now k) }
{
    for turn in 0..out.len() {
        out[turn] = chosen_word(out[turn], yes[turn], no[turn]);
    }
}

/// Puts the first words of another register in.
pub(crate) fn copy_each(from: &[u32], out: &mut [u32])
    requires { length out.old ≤ length from.now }
    ensures { (k : ℕ) → k < length out.new → bits_at out.new k ≡ bits_at from.now k }
{
    let (first, _) = from.split_at(out.len());
    out.copy_from_slice(first);
}

/// Puts one word in for each turn.
pub(crate) fn fill_words(word: u32, out: &mut [u32])
    ensures { (k : ℕ) → k < length out.new → bits_at out.new k ≡ word }
{
    for turn in 0..out.len() {
        out[turn] = word;
    }
}

/// Puts words of numbers in that rise by one.
pub(crate) fn rise_words(first: Number, out: &mut [u32])
    requires { IsShortRamp (length out.old) first.value }
    ensures { (t : TyFound) (k : ℕ) → k < length out.new → word_at t out.new k ≡ wrap t (first.value +ℤ pos k) }
{
    for turn in 0..out.len() {
        out[turn] = low_word(risen(first, turn));
    }
}

/// Puts the words of as many numbers in.
fn low_words(numbers: &[Number], out: &mut [u32])
    requires { length out.old ≤ length numbers.now }
    ensures { (t : TyFound) (k : ℕ) → k < length out.new → word_at t out.new k ≡ wrap t (number_at numbers.now k) }
{
    for turn in 0..out.len() {
        out[turn] = low_word(numbers[turn]);
    }
}

/// Puts the numbers of as many words in.
#[inline(always)]
fn widen_each<W: Width>(words: &[u32], out: &mut [Number])
    requires { length out.old ≤ length words.now }
    ensures { (k : ℕ) → k < length out.new → number_at out.new k ≡ word_at W.ty words.now k }
{
    for turn in 0..out.len() {
        out[turn] = word_number::<W>(words[turn]);
    }
}

/// Puts the numbers of as many words in, by a loop of the type's own.
pub(crate) fn widen_all(ty: Ty, words: &[u32], out: &mut [Number])
    requires { length out.old ≤ length words.now }
    ensures { (k : ℕ) → k < length out.new → number_at out.new k ≡ word_at ty words.now k }
{
    match ty {
        Ty::U8 => widen_each::<Unsigned8>(words, out),
        Ty::U16 => widen_each::<Unsigned16>(words, out),
        Ty::U32 => widen_each::<Unsigned32>(words, out),
        Ty::I8 => widen_each::<Signed8>(words, out),
        Ty::I16 => widen_each::<Signed16>(words, out),
        Ty::I32 => widen_each_small::<Signed32>(words, out),
    }
}

/// Whether a number lies between two others.
#[inline(always)]
fn is_between(number: Number, low: i64, high: i64) -> bool
    ensures { OnTrue result ((low ≤ℤ number.value) × (number.value ≤ℤ high)) }
{
    let from = low <= number.value;
    let to = number.value <= high;
    from & to
}

/// Whether all numbers lie between two others. All are looked at, so that several are at once.
fn are_between(numbers: &[Number], low: i64, high: i64) -> bool
    ensures { OnTrue result ((k : ℕ) → k < length numbers.now → (low ≤ℤ number_at numbers.now k) × (number_at numbers.now k ≤ℤ high)) }
{
    let mut all = true;
    for turn in 0..numbers.len() {
        let one = is_between(numbers[turn], low, high);
        all = all & one;
    }
    all
}

/// Puts the words of as many numbers in, where all of these are of the type.
pub(crate) fn narrow_words(ty: Ty, numbers: &[Number], out: &mut [u32]) -> Option<()>
    requires { length numbers.now ≡ length out.old }
    ensures { IfSome result (λ _. (k : ℕ) → k < length out.new → word_at ty out.new k ≡ number_at numbers.now k) }
{
    if !are_between(numbers, ty.least(), ty.greatest()) {
        return None;
    }
    low_words(numbers, out);
    Some(())
}

/// The word of the number so many turns after the first, where each turn adds a step, if the number is of the type.
fn stepped_word(ty: Ty, first: Number, step: Number, turn: usize) -> Option<u32>
    ensures { IfSome result (λ w. wrap ty (pos w) ≡ first.value +ℤ step.value *ℤ pos turn) }
{
    exact_word(ty, stepped(first.value, step.value, turn)?)
}

/// Puts words of numbers in to each of which the next one adds a step; nothing where they are not of the type.
pub(crate) fn step_words(ty: Ty, first: Number, step: Number, out: &mut [u32]) -> Option<()>
    ensures { IfSome result (λ _. (k : ℕ) → k < length out.new → word_at ty out.new k ≡ first.value +ℤ step.value *ℤ pos k) }
{
    for turn in 0..out.len() {
        out[turn] = stepped_word(ty, first, step, turn)?;
    }
    Some(())
}
