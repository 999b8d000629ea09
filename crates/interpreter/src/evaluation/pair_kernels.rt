//! An operator on words and, as many times as a factor says, what another one gives of two rows, in one pass. The type is no matter for
//! either.

ghost use Rattle.std.specs.Prelude.{◌≡◌, ◌<◌, ℕ, pos, length};
ghost use Rattle.numeric.specs.declared.op.Op.TheVariants.{Mul};
ghost use Rattle.numeric.specs.declared.ty.Ty.{Ty as TyFound};
ghost use Rattle.numeric.specs.Apply.{apply};
ghost use Rattle.numeric.specs.Wrap.{wrap};
ghost use Rattle.interpreter.specs.Evaluation.Words.{word_at};

use crate::evaluation::lanes::Number;
use crate::evaluation::residue_kernels::{ResidueOperator, word_times};

/// One operator on a word and, as many times as the factor says, what another one gives of two words.
#[inline(always)]
pub(crate) fn multiple_word<O: ResidueOperator, P: ResidueOperator>(
    word: u32,
    factor: Number,
    left: u32,
    right: u32,
) -> u32
    ensures { (t : TyFound) → wrap t (pos result) ≡ apply O.op t (wrap t (pos word)) (apply Mul t factor.value (apply P.op t (wrap t (pos left)) (wrap t (pos right)))) }
{
    let sum = P::residue(i64::from(left), i64::from(right));
    let product = word_times(factor, sum);
    O::residue(i64::from(word), i64::from(product))
}

/// One operator on each word and, as many times as the factor says, what another one gives of the words of two rows.
pub(crate) fn apply_multiples<O: ResidueOperator, P: ResidueOperator>(
    out: &mut [u32],
    factor: Number,
    left: &[u32],
    right: &[u32],
)
    requires left { length left.now ≡ length out.old }
    requires right { length right.now ≡ length out.old }
    ensures { (t : TyFound) (k : ℕ) → k < length out.new → word_at t out.new k ≡ apply O.op t (word_at t out.old k) (apply Mul t factor.value (apply P.op t (word_at t left.now k) (word_at t right.now k))) }
{
    for turn in 0..out.len() {
        out[turn] = multiple_word::<O, P>(out[turn], factor, left[turn], right[turn]);
    }
}

/// The same where the rows are of bytes.
pub(crate) fn apply_byte_multiples<O: ResidueOperator, P: ResidueOperator>(
    out: &mut [u32],
    factor: Number,
    left: &[u8],
    right: &[u8],
)
    requires left { length left.now ≡ length out.old }
    requires right { length right.now ≡ length out.old }
    ensures { (t : TyFound) (k : ℕ) → k < length out.new → word_at t out.new k ≡ apply O.op t (word_at t out.old k) (apply Mul t factor.value (apply P.op t (word_at t left.now k) (word_at t right.now k))) }
{
    for turn in 0..out.len() {
        let first = u32::from(left[turn]);
        let second = u32::from(right[turn]);
        out[turn] = multiple_word::<O, P>(out[turn], factor, first, second);
    }
}
