//! Operators over registers for which the type is no matter: the lowest bits of the operands make those of the result.

ghost use Rattle.std.specs.Prelude.{◌≡◌, ◌<◌, ℕ, ℤ, pos, length};
ghost use Rattle.numeric.specs.declared.op.Op.{Op as Operation};
ghost use Rattle.numeric.specs.declared.op.Op.TheVariants.{Add, Sub, Mul};
ghost use Rattle.numeric.specs.declared.ty.Ty.{Ty as TyFound};
ghost use Rattle.numeric.specs.Apply.{apply};
ghost use Rattle.numeric.specs.Wrap.{wrap};
ghost use Rattle.interpreter.specs.Evaluation.Words.{word_at};

use crate::evaluation::lanes::Number;
use crate::evaluation::operations::{Difference, Operator, Product, Sum};
use crate::evaluation::words::low_word;

/// An operator of which the lowest bits of the operands make those of the result.
pub(crate) trait ResidueOperator {
    ghost op: { Operation };

    /// The lowest 32 bits of the result, in two's complement. Of each type they are the result for all operands that these wrap to.
    fn residue(left: i64, right: i64) -> u32
        ensures { (t : TyFound) (x y : ℤ) → wrap t left ≡ wrap t x → wrap t right ≡ wrap t y → wrap t (pos result) ≡ apply op t x y };
}

/// The lowest 32 bits of what an operator gives, in two's complement.
#[inline(always)]
fn result_word<O: Operator>(left: i64, right: i64) -> u32
    ensures { (t : TyFound) → wrap t (pos result) ≡ apply O.op t left right }
{
    low_word(Number {
        value: O::low_bits(left, right),
    })
}

impl ResidueOperator for Sum {
    ghost op = { Add };

    fn residue(left: i64, right: i64) -> u32 {
        result_word::<Sum>(left, right)
    }
}

impl ResidueOperator for Difference {
    ghost op = { Sub };

    fn residue(left: i64, right: i64) -> u32 {
        result_word::<Difference>(left, right)
    }
}

impl ResidueOperator for Product {
    ghost op = { Mul };

    fn residue(left: i64, right: i64) -> u32 {
        result_word::<Product>(left, right)
    }
}

/// The operator on each word and the one of another register.
pub(crate) fn apply_residues<O: ResidueOperator>(out: &mut [u32], right: &[u32])
    requires { length right.now ≡ length out.old }
    ensures { (t : TyFound) (k : ℕ) → k < length out.new → word_at t out.new k ≡ apply O.op t (word_at t out.old k) (word_at t right.now k) }
{
    for turn in 0..out.len() {
        out[turn] = O::residue(i64::from(out[turn]), i64::from(right[turn]));
    }
}

/// The operator on each word and one number.
pub(crate) fn apply_residues_by<O: ResidueOperator>(out: &mut [u32], right: Number)
    ensures { (t : TyFound) (k : ℕ) → k < length out.new → word_at t out.new k ≡ apply O.op t (word_at t out.old k) right.value }
{
    for turn in 0..out.len() {
        out[turn] = O::residue(i64::from(out[turn]), right.value);
    }
}

/// The operator on each word and one word.
pub(crate) fn apply_word<O: ResidueOperator>(out: &mut [u32], right: u32)
    ensures { (t : TyFound) (k : ℕ) → k < length out.new → word_at t out.new k ≡ apply O.op t (word_at t out.old k) (wrap t (pos right)) }
{
    for turn in 0..out.len() {
        out[turn] = O::residue(i64::from(out[turn]), i64::from(right));
    }
}

/// The operator on one number and each word.
pub(crate) fn apply_residues_from<O: ResidueOperator>(left: Number, out: &mut [u32])
    ensures { (t : TyFound) (k : ℕ) → k < length out.new → word_at t out.new k ≡ apply O.op t left.value (word_at t out.old k) }
{
    for turn in 0..out.len() {
        out[turn] = O::residue(left.value, i64::from(out[turn]));
    }
}

/// The operator on one number and each word of a register, put into another.
pub(crate) fn apply_residues_to<O: ResidueOperator>(left: Number, right: &[u32], out: &mut [u32])
    requires { length right.now ≡ length out.old }
    ensures { (t : TyFound) (k : ℕ) → k < length out.new → word_at t out.new k ≡ apply O.op t left.value (word_at t right.now k) }
{
    for turn in 0..out.len() {
        out[turn] = O::residue(left.value, i64::from(right[turn]));
    }
}

/// The operator on a word and a number less it.
#[inline(always)]
fn complemented_word<O: ResidueOperator>(value: Number, word: u32) -> u32
    ensures { (t : TyFound) → wrap t (pos result) ≡ apply O.op t (wrap t (pos word)) (apply Sub t value.value (wrap t (pos word))) }
{
    let rest = Difference::residue(value.value, i64::from(word));
    O::residue(i64::from(word), i64::from(rest))
}

/// The operator on each word and a number less it.
pub(crate) fn apply_complements<O: ResidueOperator>(value: Number, out: &mut [u32])
    ensures { (t : TyFound) (k : ℕ) → k < length out.new → word_at t out.new k ≡ apply O.op t (word_at t out.old k) (apply Sub t value.value (word_at t out.old k)) }
{
    for turn in 0..out.len() {
        out[turn] = complemented_word::<O>(value, out[turn]);
    }
}

/// The product of a word and itself.
#[inline(always)]
fn squared_word(word: u32) -> u32
    ensures { (t : TyFound) → wrap t (pos result) ≡ apply Mul t (wrap t (pos word)) (wrap t (pos word)) }
{
    Product::residue(i64::from(word), i64::from(word))
}

/// The product of each word and itself.
pub(crate) fn square_each(out: &mut [u32])
    ensures { (t : TyFound) (k : ℕ) → k < length out.new → word_at t out.new k ≡ apply Mul t (word_at t out.old k) (word_at t out.old k) }
{
    for turn in 0..out.len() {
        out[turn] = squared_word(out[turn]);
    }
}

/// The operator on each word of one row and the one of another, put into a register.
pub(crate) fn apply_word_rows<O: ResidueOperator>(left: &[u32], right: &[u32], out: &mut [u32])
    requires left { length left.now ≡ length out.old }
    requires right { length right.now ≡ length out.old }
    ensures { (t : TyFound) (k : ℕ) → k < length out.new → word_at t out.new k ≡ apply O.op t (word_at t left.now k) (word_at t right.now k) }
{
    for turn in 0..out.len() {
        out[turn] = O::residue(i64::from(left[turn]), i64::from(right[turn]));
    }
}

/// The operator on each word of a row and one number, put into a register.
pub(crate) fn apply_row_by<O: ResidueOperator>(left: &[u32], right: Number, out: &mut [u32])
    requires { length left.now ≡ length out.old }
    ensures { (t : TyFound) (k : ℕ) → k < length out.new → word_at t out.new k ≡ apply O.op t (word_at t left.now k) right.value }
{
    for turn in 0..out.len() {
        out[turn] = O::residue(i64::from(left[turn]), right.value);
    }
}

/// The lowest 32 bits of a word, as many times as the factor says.
#[inline(always)]
pub(crate) fn word_times(factor: Number, word: u32) -> u32
    ensures { (t : TyFound) → wrap t (pos result) ≡ apply Mul t factor.value (wrap t (pos word)) }
{
    Product::residue(factor.value, i64::from(word))
}

/// The operator on each word and the one of another register, as many times as the factor says.
pub(crate) fn apply_scaled<O: ResidueOperator>(out: &mut [u32], factor: Number, right: &[u32])
    requires { length right.now ≡ length out.old }
    ensures { (t : TyFound) (k : ℕ) → k < length out.new → word_at t out.new k ≡ apply O.op t (word_at t out.old k) (apply Mul t factor.value (word_at t right.now k)) }
{
    for turn in 0..out.len() {
        let product = word_times(factor, right[turn]);
        out[turn] = O::residue(i64::from(out[turn]), i64::from(product));
    }
}

/// The operator on each word of one row and the one of another, as many times as the factor says, put into a register.
pub(crate) fn apply_scaled_rows<O: ResidueOperator>(
    left: &[u32],
    factor: Number,
    right: &[u32],
    out: &mut [u32],
)
    requires left { length left.now ≡ length out.old }
    requires right { length right.now ≡ length out.old }
    ensures { (t : TyFound) (k : ℕ) → k < length out.new → word_at t out.new k ≡ apply O.op t (word_at t left.now k) (apply Mul t factor.value (word_at t right.now k)) }
{
    for turn in 0..out.len() {
        let product = word_times(factor, right[turn]);
        out[turn] = O::residue(i64::from(left[turn]), i64::from(product));
    }
}
