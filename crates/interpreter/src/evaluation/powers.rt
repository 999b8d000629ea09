//! Quotients and remainders by a power of two at all turns of a run: the bits above the power's exponent, and those below it.

ghost use Rattle.std.specs.Prelude.{◌≡◌, ◌<◌, ◌≤◌, ◌^◌, ℕ, IfSome, pos, length};
ghost use Rattle.numeric.specs.declared.op.Op.TheVariants.{Div, Rem};
ghost use Rattle.numeric.specs.declared.ty.Ty.{Ty as TyFound};
ghost use Rattle.numeric.specs.declared.ty.Ty.TheVariants.{U32};
ghost use Rattle.numeric.specs.Apply.{apply};
ghost use Rattle.numeric.specs.Wrap.{bits, wrap};
ghost use Rattle.interpreter.specs.Evaluation.Words.{word_at};

use crate::evaluation::lanes::Number;
use crate::evaluation::small_widths::SmallWidth;
use crate::evaluation::widths::{Signed8, Signed16, Signed32, Unsigned8, Unsigned16};
use crate::evaluation::words::low_word;
use numeric::Ty;

/// The exponent of a number that is a power of two.
pub(crate) fn exponent_of(number: u32) -> Option<u32>
    ensures power { IfSome result (λ e. number ≡ 2 ^ e) }
    ensures few { IfSome result (λ e. e < 32) }
{
    let exponent = number.trailing_zeros();
    if exponent < 32 && 1 << exponent == number {
        Some(exponent)
    } else {
        None
    }
}

/// The quotient of a word of such a type by a power of two, rounded down, wrapped to the type.
#[inline(always)]
fn shifted_small_word<W: SmallWidth>(word: u32, exponent: u32) -> u32
    requires { exponent < 32 }
    ensures { wrap W.ty (pos result) ≡ apply Div W.ty (wrap W.ty (pos word)) (pos (2 ^ exponent)) }
{
    let number = W::small(word) >> exponent;
    low_word(Number {
        value: i64::from(number),
    })
}

/// Each word of such a type divided by a power of two.
#[inline(always)]
fn shift_each<W: SmallWidth>(out: &mut [u32], exponent: u32)
    requires { exponent < 32 }
    ensures { (k : ℕ) → k < length out.new → word_at W.ty out.new k ≡ apply Div W.ty (word_at W.ty out.old k) (pos (2 ^ exponent)) }
{
    for turn in 0..out.len() {
        out[turn] = shifted_small_word::<W>(out[turn], exponent);
    }
}

/// The quotient of a word, a number of 32 bits without a sign, by a power of two.
#[inline(always)]
fn shifted_word(word: u32, exponent: u32) -> u32
    requires { exponent < 32 }
    ensures { wrap U32 (pos result) ≡ apply Div U32 (wrap U32 (pos word)) (pos (2 ^ exponent)) }
{
    word >> exponent
}

/// Each word, a number of 32 bits without a sign, divided by a power of two.
#[inline(always)]
fn shift_words(out: &mut [u32], exponent: u32)
    requires { exponent < 32 }
    ensures { (k : ℕ) → k < length out.new → word_at U32 out.new k ≡ apply Div U32 (word_at U32 out.old k) (pos (2 ^ exponent)) }
{
    for turn in 0..out.len() {
        out[turn] = shifted_word(out[turn], exponent);
    }
}

/// Each word divided by a power of two, wrapped to the type, by a loop of the type's own.
pub(crate) fn shift_all(ty: Ty, out: &mut [u32], exponent: u32)
    requires { exponent < 32 }
    ensures { (k : ℕ) → k < length out.new → word_at ty out.new k ≡ apply Div ty (word_at ty out.old k) (pos (2 ^ exponent)) }
{
    match ty {
        Ty::U8 => shift_each::<Unsigned8>(out, exponent),
        Ty::U16 => shift_each::<Unsigned16>(out, exponent),
        Ty::U32 => shift_words(out, exponent),
        Ty::I8 => shift_each::<Signed8>(out, exponent),
        Ty::I16 => shift_each::<Signed16>(out, exponent),
        Ty::I32 => shift_each::<Signed32>(out, exponent),
    }
}

/// The lowest so many bits of a word: of each type of no fewer bits, the remainder by a power of two.
#[inline(always)]
fn low_bits_of(word: u32, exponent: u32) -> u32
    requires { exponent < 32 }
    ensures { (t : TyFound) → exponent ≤ bits t → wrap t (pos result) ≡ apply Rem t (wrap t (pos word)) (pos (2 ^ exponent)) }
{
    word & ((1 << exponent) - 1)
}

/// The lowest so many bits of each word: of each type of no fewer bits, the remainders by a power of two.
pub(crate) fn mask_each(out: &mut [u32], exponent: u32)
    requires { exponent < 32 }
    ensures { (t : TyFound) (k : ℕ) → exponent ≤ bits t → k < length out.new → word_at t out.new k ≡ apply Rem t (word_at t out.old k) (pos (2 ^ exponent)) }
{
    for turn in 0..out.len() {
        out[turn] = low_bits_of(out[turn], exponent);
    }
}
