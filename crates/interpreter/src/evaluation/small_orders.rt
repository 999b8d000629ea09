//! Smaller and larger numbers and comparisons, over registers of types whose numbers are of 32 bits with a sign: they are done in as
//! many bits, four at once.

ghost use Rattle.std.specs.Prelude.{◌≡◌, ◌<◌, ℕ, neg_ℤ, pos, length};
ghost use Rattle.numeric.specs.declared.op.Op.{Op as Operation};
ghost use Rattle.numeric.specs.declared.op.Op.TheVariants.{Min, Max};
ghost use Rattle.numeric.specs.declared.ty.Ty.{Ty as TyFound};
ghost use Rattle.numeric.specs.Apply.{apply, compare, exact};
ghost use Rattle.numeric.specs.Wrap.{wrap};
ghost use Rattle.interpreter.specs.Evaluation.Words.{mask_at, says_yes, word_at};

use crate::evaluation::lanes::Number;
use crate::evaluation::operations::{Comparing, Difference, Larger, Smaller};
use crate::evaluation::residue_kernels::ResidueOperator;
use crate::evaluation::small_widths::SmallWidth;
use crate::evaluation::words::low_word;

/// An operator that gives one of two numbers.
pub(crate) trait Extreme {
    ghost op: { Operation };

    /// The one that it gives.
    fn one_of(left: i32, right: i32) -> i32
        ensures { result ≡ exact op left right };
}

impl Extreme for Smaller {
    ghost op = { Min };

    fn one_of(left: i32, right: i32) -> i32 {
        left.min(right)
    }
}

impl Extreme for Larger {
    ghost op = { Max };

    fn one_of(left: i32, right: i32) -> i32 {
        left.max(right)
    }
}

/// A word of such a type or one number, whichever the operator gives, wrapped to the type.
#[inline(always)]
fn extreme_word<O: Extreme, W: SmallWidth>(word: u32, right: i32) -> u32
    ensures { wrap W.ty (pos result) ≡ apply O.op W.ty (wrap W.ty (pos word)) right }
{
    let number = O::one_of(W::small(word), right);
    low_word(Number {
        value: i64::from(number),
    })
}

/// Each word of such a type or one number, whichever the operator gives, wrapped to the type.
#[inline(always)]
pub(crate) fn extreme_each_by<O: Extreme, W: SmallWidth>(out: &mut [u32], right: i32)
    ensures { (k : ℕ) → k < length out.new → word_at W.ty out.new k ≡ apply O.op W.ty (word_at W.ty out.old k) right }
{
    for turn in 0..out.len() {
        out[turn] = extreme_word::<O, W>(out[turn], right);
    }
}

/// One of two words of such a type, whichever the operator gives.
#[inline(always)]
fn extreme_of_words<O: Extreme, W: SmallWidth>(left: u32, right: u32) -> u32
    ensures { wrap W.ty (pos result) ≡ apply O.op W.ty (wrap W.ty (pos left)) (wrap W.ty (pos right)) }
{
    extreme_word::<O, W>(left, W::small(right))
}

/// Each word of such a type or the one of another register, whichever the operator gives.
#[inline(always)]
pub(crate) fn extreme_each<O: Extreme, W: SmallWidth>(out: &mut [u32], right: &[u32])
    requires { length right.now ≡ length out.old }
    ensures { (k : ℕ) → k < length out.new → word_at W.ty out.new k ≡ apply O.op W.ty (word_at W.ty out.old k) (word_at W.ty right.now k) }
{
    for turn in 0..out.len() {
        out[turn] = extreme_of_words::<O, W>(out[turn], right[turn]);
    }
}

/// The negation of a word, whatever type it is of.
#[inline(always)]
fn opposite_word(word: u32) -> u32
    ensures { (t : TyFound) → wrap t (pos result) ≡ wrap t (neg_ℤ (wrap t (pos word))) }
{
    Difference::residue(0, i64::from(word))
}

/// A word of such a type or its negation, whichever the operator gives.
#[inline(always)]
fn extreme_opposite<O: Extreme, W: SmallWidth>(word: u32) -> u32
    ensures { wrap W.ty (pos result) ≡ apply O.op W.ty (wrap W.ty (pos word)) (wrap W.ty (neg_ℤ (wrap W.ty (pos word)))) }
{
    extreme_of_words::<O, W>(word, opposite_word(word))
}

/// Each word of such a type or its negation, whichever the operator gives.
#[inline(always)]
pub(crate) fn extreme_opposites<O: Extreme, W: SmallWidth>(out: &mut [u32])
    ensures { (k : ℕ) → k < length out.new → word_at W.ty out.new k ≡ apply O.op W.ty (word_at W.ty out.old k) (wrap W.ty (neg_ℤ (word_at W.ty out.old k))) }
{
    for turn in 0..out.len() {
        out[turn] = extreme_opposite::<O, W>(out[turn]);
    }
}

/// A word of a mask that says whether the comparison of a word of such a type with a number holds.
#[inline(always)]
fn compared_small_word<C: Comparing, W: SmallWidth>(word: u32, right: i32) -> u32
    ensures { says_yes result ≡ compare C.by (wrap W.ty (pos word)) right }
{
    if C::holds_small(W::small(word), right) {
        1
    } else {
        0
    }
}

/// A mask that says where the comparison of words of such a type with one number holds.
#[inline(always)]
pub(crate) fn compare_each_small_by<C: Comparing, W: SmallWidth>(out: &mut [u32], right: i32)
    ensures { (k : ℕ) → k < length out.new → mask_at out.new k ≡ compare C.by (word_at W.ty out.old k) right }
{
    for turn in 0..out.len() {
        out[turn] = compared_small_word::<C, W>(out[turn], right);
    }
}

/// A word of a mask that says whether the comparison of two words of such a type holds.
#[inline(always)]
fn compared_small_words<C: Comparing, W: SmallWidth>(left: u32, right: u32) -> u32
    ensures { says_yes result ≡ compare C.by (wrap W.ty (pos left)) (wrap W.ty (pos right)) }
{
    compared_small_word::<C, W>(left, W::small(right))
}

/// A mask that says where the comparison of words of such a type with those of another register holds.
#[inline(always)]
pub(crate) fn compare_each_small<C: Comparing, W: SmallWidth>(out: &mut [u32], right: &[u32])
    requires { length right.now ≡ length out.old }
    ensures { (k : ℕ) → k < length out.new → mask_at out.new k ≡ compare C.by (word_at W.ty out.old k) (word_at W.ty right.now k) }
{
    for turn in 0..out.len() {
        out[turn] = compared_small_words::<C, W>(out[turn], right[turn]);
    }
}
