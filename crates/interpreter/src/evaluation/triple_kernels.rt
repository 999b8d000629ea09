//! Two operators for which the type is no matter, one behind the other, over three rows.

ghost use Rattle.std.specs.Prelude.{◌≡◌, ◌<◌, ℕ, pos, length};
ghost use Rattle.numeric.specs.declared.op.Op.TheVariants.{Mul};
ghost use Rattle.numeric.specs.declared.ty.Ty.{Ty as TyFound};
ghost use Rattle.numeric.specs.Apply.{apply};
ghost use Rattle.numeric.specs.Wrap.{wrap};
ghost use Rattle.interpreter.specs.Evaluation.Words.{word_at};

use crate::evaluation::lanes::Number;
use crate::evaluation::residue_kernels::{ResidueOperator, word_times};

/// One operator on two words, and another on what it gives and a third word.
#[inline(always)]
pub(crate) fn combined_word<O: ResidueOperator, P: ResidueOperator>(
    left: u32,
    right: u32,
    last: u32,
) -> u32
    ensures { (t : TyFound) → wrap t (pos result) ≡ apply P.op t (apply O.op t (wrap t (pos left)) (wrap t (pos right))) (wrap t (pos last)) }
{
    let first = O::residue(i64::from(left), i64::from(right));
    P::residue(i64::from(first), i64::from(last))
}

/// One operator on each word of a row and the one of another, and another operator on that and the word of a third row, put into a
/// register.
pub(crate) fn apply_three_rows<O: ResidueOperator, P: ResidueOperator>(
    left: &[u32],
    right: &[u32],
    last: &[u32],
    out: &mut [u32],
)
    requires left { length left.now ≡ length out.old }
    requires right { length right.now ≡ length out.old }
    requires last { length last.now ≡ length out.old }
    ensures { (t : TyFound) (k : ℕ) → k < length out.new → word_at t out.new k ≡ apply P.op t (apply O.op t (word_at t left.now k) (word_at t right.now k)) (word_at t last.now k) }
{
    for turn in 0..out.len() {
        out[turn] = combined_word::<O, P>(left[turn], right[turn], last[turn]);
    }
}

/// The same where the words of the second row count as many times as the factor says.
pub(crate) fn apply_three_scaled_rows<O: ResidueOperator, P: ResidueOperator>(
    left: &[u32],
    factor: Number,
    right: &[u32],
    last: &[u32],
    out: &mut [u32],
)
    requires left { length left.now ≡ length out.old }
    requires right { length right.now ≡ length out.old }
    requires last { length last.now ≡ length out.old }
    ensures { (t : TyFound) (k : ℕ) → k < length out.new → word_at t out.new k ≡ apply P.op t (apply O.op t (word_at t left.now k) (apply Mul t factor.value (word_at t right.now k))) (word_at t last.now k) }
{
    for turn in 0..out.len() {
        let product = word_times(factor, right[turn]);
        out[turn] = combined_word::<O, P>(left[turn], product, last[turn]);
    }
}

/// One operator on each byte of a row and the one of another, and another operator on that and the byte of a third row, put into a
/// register.
pub(crate) fn apply_three_byte_rows<O: ResidueOperator, P: ResidueOperator>(
    left: &[u8],
    right: &[u8],
    last: &[u8],
    out: &mut [u32],
)
    requires left { length left.now ≡ length out.old }
    requires right { length right.now ≡ length out.old }
    requires last { length last.now ≡ length out.old }
    ensures { (t : TyFound) (k : ℕ) → k < length out.new → word_at t out.new k ≡ apply P.op t (apply O.op t (word_at t left.now k) (word_at t right.now k)) (word_at t last.now k) }
{
    for turn in 0..out.len() {
        out[turn] = combined_word::<O, P>(
            u32::from(left[turn]),
            u32::from(right[turn]),
            u32::from(last[turn]),
        );
    }
}

/// The same where the bytes of the second row count as many times as the factor says.
pub(crate) fn apply_three_scaled_byte_rows<O: ResidueOperator, P: ResidueOperator>(
    left: &[u8],
    factor: Number,
    right: &[u8],
    last: &[u8],
    out: &mut [u32],
)
    requires left { length left.now ≡ length out.old }
    requires right { length right.now ≡ length out.old }
    requires last { length last.now ≡ length out.old }
    ensures { (t : TyFound) (k : ℕ) → k < length out.new → word_at t out.new k ≡ apply P.op t (apply O.op t (word_at t left.now k) (apply Mul t factor.value (word_at t right.now k))) (word_at t last.now k) }
{
    for turn in 0..out.len() {
        let product = word_times(factor, u32::from(right[turn]));
        out[turn] = combined_word::<O, P>(u32::from(left[turn]), product, u32::from(last[turn]));
    }
}
