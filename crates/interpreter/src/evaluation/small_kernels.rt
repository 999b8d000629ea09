//! Operators over registers of types whose numbers are of 32 bits with a sign: they are done in as many bits, four or more at once.

ghost use Rattle.std.specs.Prelude.{◌≡◌, ◌<◌, ◌≤◌, ◌≤ℤ◌, ℕ, pos, length};
ghost use Rattle.std.specs.Int.{int_max, int_min};
ghost use Rattle.numeric.specs.Wrap.{greatest, wrap, IsOf};
ghost use Rattle.interpreter.specs.Evaluation.Lanes.{number_at};
ghost use Rattle.interpreter.specs.Evaluation.Words.{word_at};

use crate::evaluation::lanes::Number;
use crate::evaluation::widths::Width;
use crate::evaluation::words::{low_word, word_number};

/// A number of such a type in 32 bits.
#[inline(always)]
fn in_32_bits<W: Width>(number: Number) -> i32
    requires small { greatest W.ty ≤ℤ pos 2147483647 }
    requires number { IsOf W.ty number.value }
    ensures { result ≡ number.value }
{
    number.value as i32
}

/// A word of such a type, not above one number of it and then not below another.
#[inline(always)]
fn clamped_small_word<W: Width>(word: u32, low: i32, high: i32) -> u32
    requires small { greatest W.ty ≤ℤ pos 2147483647 }
    requires low { IsOf W.ty low }
    requires high { IsOf W.ty high }
    ensures { wrap W.ty (pos result) ≡ int_max (int_min (wrap W.ty (pos word)) high) low }
{
    let number = in_32_bits::<W>(word_number::<W>(word)).min(high).max(low);
    low_word(Number {
        value: i64::from(number),
    })
}

/// Each word of such a type, not above one number of it and then not below another.
#[inline(always)]
fn clamp_each_small<W: Width>(out: &mut [u32], low: i32, high: i32)
    requires small { greatest W.ty ≤ℤ pos 2147483647 }
    requires low { IsOf W.ty low }
    requires high { IsOf W.ty high }
    ensures { (k : ℕ) → k < length out.new → word_at W.ty out.new k ≡ int_max (int_min (word_at W.ty out.old k) high) low }
{
    for turn in 0..out.len() {
        out[turn] = clamped_small_word::<W>(out[turn], low, high);
    }
}

/// The same.
#[inline(always)]
pub(crate) fn clamp_small_by<W: Width>(out: &mut [u32], low: Number, high: Number)
    requires small { greatest W.ty ≤ℤ pos 2147483647 }
    requires low { IsOf W.ty low.value }
    requires high { IsOf W.ty high.value }
    ensures { (k : ℕ) → k < length out.new → word_at W.ty out.new k ≡ int_max (int_min (word_at W.ty out.old k) high.value) low.value }
{
    clamp_each_small::<W>(out, in_32_bits::<W>(low), in_32_bits::<W>(high));
}

/// The number of such a type that a word is.
#[inline(always)]
fn small_number<W: Width>(word: u32) -> Number
    requires { greatest W.ty ≤ℤ pos 2147483647 }
    ensures { result.value ≡ wrap W.ty (pos word) }
{
    Number {
        value: i64::from(in_32_bits::<W>(word_number::<W>(word))),
    }
}

/// Puts the numbers of as many words of such a type in.
#[inline(always)]
pub(crate) fn widen_each_small<W: Width>(words: &[u32], out: &mut [Number])
    requires small { greatest W.ty ≤ℤ pos 2147483647 }
    requires count { length out.old ≤ length words.now }
    ensures { (k : ℕ) → k < length out.new → number_at out.new k ≡ word_at W.ty words.now k }
{
    for turn in 0..out.len() {
        out[turn] = small_number::<W>(words[turn]);
    }
}
