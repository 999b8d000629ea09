//! The same operators, for which the type is no matter, over bytes.

ghost use Rattle.std.specs.Prelude.{◌≡◌, ◌<◌, ℕ, length};
ghost use Rattle.numeric.specs.declared.op.Op.TheVariants.{Mul};
ghost use Rattle.numeric.specs.declared.ty.Ty.{Ty as TyFound};
ghost use Rattle.numeric.specs.Apply.{apply};
ghost use Rattle.interpreter.specs.Evaluation.Words.{word_at};

use crate::evaluation::lanes::Number;
use crate::evaluation::residue_kernels::{ResidueOperator, word_times};

/// The operator on each word and a byte.
pub(crate) fn apply_bytes<O: ResidueOperator>(out: &mut [u32], right: &[u8])
    requires { length right.now ≡ length out.old }
    ensures { (t : TyFound) (k : ℕ) → k < length out.new → word_at t out.new k ≡ apply O.op t (word_at t out.old k) (word_at t right.now k) }
{
    for turn in 0..out.len() {
        out[turn] = O::residue(i64::from(out[turn]), i64::from(right[turn]));
    }
}

/// The operator on one number and each byte, put into a register.
pub(crate) fn apply_bytes_to<O: ResidueOperator>(left: Number, right: &[u8], out: &mut [u32])
    requires { length right.now ≡ length out.old }
    ensures { (t : TyFound) (k : ℕ) → k < length out.new → word_at t out.new k ≡ apply O.op t left.value (word_at t right.now k) }
{
    for turn in 0..out.len() {
        out[turn] = O::residue(left.value, i64::from(right[turn]));
    }
}

/// The operator on each byte of one row and the one of another, put into a register.
pub(crate) fn apply_byte_rows<O: ResidueOperator>(left: &[u8], right: &[u8], out: &mut [u32])
    requires left { length left.now ≡ length out.old }
    requires right { length right.now ≡ length out.old }
    ensures { (t : TyFound) (k : ℕ) → k < length out.new → word_at t out.new k ≡ apply O.op t (word_at t left.now k) (word_at t right.now k) }
{
    for turn in 0..out.len() {
        out[turn] = O::residue(i64::from(left[turn]), i64::from(right[turn]));
    }
}

/// The operator on each byte of a row and one number, put into a register.
pub(crate) fn apply_byte_row_by<O: ResidueOperator>(left: &[u8], right: Number, out: &mut [u32])
    requires { length left.now ≡ length out.old }
    ensures { (t : TyFound) (k : ℕ) → k < length out.new → word_at t out.new k ≡ apply O.op t (word_at t left.now k) right.value }
{
    for turn in 0..out.len() {
        out[turn] = O::residue(i64::from(left[turn]), right.value);
    }
}

/// The operator on each word and a byte, as many times as the factor says.
pub(crate) fn apply_scaled_bytes<O: ResidueOperator>(out: &mut [u32], factor: Number, right: &[u8])
    requires { length right.now ≡ length out.old }
    ensures { (t : TyFound) (k : ℕ) → k < length out.new → word_at t out.new k ≡ apply O.op t (word_at t out.old k) (apply Mul t factor.value (word_at t right.now k)) }
{
    for turn in 0..out.len() {
        let product = word_times(factor, u32::from(right[turn]));
        out[turn] = O::residue(i64::from(out[turn]), i64::from(product));
    }
}

/// The operator on each byte of one row and the one of another, as many times as the factor says, put into a register.
pub(crate) fn apply_scaled_byte_rows<O: ResidueOperator>(
    left: &[u8],
    factor: Number,
    right: &[u8],
    out: &mut [u32],
)
    requires left { length left.now ≡ length out.old }
    requires right { length right.now ≡ length out.old }
    ensures { (t : TyFound) (k : ℕ) → k < length out.new → word_at t out.new k ≡ apply O.op t (word_at t left.now k) (apply Mul t factor.value (word_at t right.now k)) }
{
    for turn in 0..out.len() {
        let product = word_times(factor, u32::from(right[turn]));
        out[turn] = O::residue(i64::from(left[turn]), i64::from(product));
    }
}
