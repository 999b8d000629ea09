//! Words: numbers of registers, in 32 bits each. The type says which number a word is.

ghost use Rattle.std.specs.Prelude.{◌≡◌, ◌&&◌, ◌||◌, IfSome, if◌then◌else◌, neg_ℤ, not, pos, ◌^◌};
ghost use Rattle.std.specs.Int.{int_max, int_min, int_rem_euclid};
ghost use Rattle.numeric.specs.declared.ty.Ty.{Ty as TyFound};
ghost use Rattle.numeric.specs.Apply.{apply, compare};
ghost use Rattle.numeric.specs.Wrap.{wrap, IsOf};
ghost use Rattle.interpreter.specs.Evaluation.Words.{says_yes};

use crate::evaluation::kernels::{applied_number, clamped_number, negated_number};
use crate::evaluation::lanes::Number;
use crate::evaluation::operations::{Comparing, Operator};
use crate::evaluation::operators::wrapped;
use crate::evaluation::widths::Width;
use numeric::Ty;

/// The lowest 32 bits of a number, in two's complement. Of each type, they are the number that this one wraps to.
#[inline(always)]
pub(crate) fn low_word(number: Number) -> u32
    ensures bits { pos result ≡ int_rem_euclid number.value (pos (2 ^ 32)) }
    ensures wraps { (t : TyFound) → wrap t (pos result) ≡ wrap t number.value }
{
    (number.value.cast_unsigned() & 0xffff_ffff) as u32
}

/// The number of the type that a word is.
#[inline(always)]
pub(crate) fn word_number<W: Width>(word: u32) -> Number
    ensures is { result.value ≡ wrap W.ty (pos word) }
    ensures fits { IsOf W.ty result.value }
{
    Number {
        value: W::wrapped(i64::from(word)),
    }
}

/// The number of a type that a word is.
pub(crate) fn typed_number(ty: Ty, word: u32) -> i64
    ensures { result ≡ wrap ty (pos word) }
{
    wrapped(ty, i64::from(word)).number
}

/// A number of the type as a word.
#[inline(always)]
pub(crate) fn exact_word(ty: Ty, number: Number) -> Option<u32>
    ensures { IfSome result (λ w. wrap ty (pos w) ≡ number.value) }
{
    if number.value < ty.least() || ty.greatest() < number.value {
        return None;
    }
    Some(low_word(number))
}

/// The operator on a word and a number, wrapped to the word's type.
#[inline(always)]
pub(crate) fn applied_word<O: Operator, W: Width>(left: u32, right: Number) -> u32
    ensures { wrap W.ty (pos result) ≡ apply O.op W.ty (wrap W.ty (pos left)) right.value }
{
    low_word(applied_number::<O, W>(word_number::<W>(left), right))
}

/// The operator on a number and a word, wrapped to the word's type.
#[inline(always)]
pub(crate) fn applied_to_word<O: Operator, W: Width>(left: Number, right: u32) -> u32
    ensures { wrap W.ty (pos result) ≡ apply O.op W.ty left.value (wrap W.ty (pos right)) }
{
    low_word(applied_number::<O, W>(left, word_number::<W>(right)))
}

/// The wrapped negation of a word.
#[inline(always)]
pub(crate) fn negated_word<W: Width>(word: u32) -> u32
    ensures { wrap W.ty (pos result) ≡ wrap W.ty (neg_ℤ (wrap W.ty (pos word))) }
{
    low_word(negated_number::<W>(word_number::<W>(word)))
}

/// A word of which each type makes what the word's own number wraps to.
#[inline(always)]
pub(crate) fn extended_word<W: Width>(word: u32) -> u32
    ensures { (t : TyFound) → wrap t (pos result) ≡ wrap t (wrap W.ty (pos word)) }
{
    low_word(word_number::<W>(word))
}

/// A word, not above one number and then not below another, where these are of its type.
#[inline(always)]
pub(crate) fn clamped_word<W: Width>(word: u32, low: Number, high: Number) -> u32
    requires low { IsOf W.ty low.value }
    requires high { IsOf W.ty high.value }
    ensures { wrap W.ty (pos result) ≡ int_max (int_min (wrap W.ty (pos word)) high.value) low.value }
{
    low_word(clamped_number(word_number::<W>(word), low, high))
}

/// A word of a mask that says whether the comparison of a word with a number holds.
#[inline(always)]
pub(crate) fn compared_word<C: Comparing, W: Width>(left: u32, right: Number) -> u32
    ensures { says_yes result ≡ compare C.by (wrap W.ty (pos left)) right.value }
{
    let left = word_number::<W>(left);
    if C::holds(left.value, right.value) {
        1
    } else {
        0
    }
}

/// A word that says yes where this one does not.
#[inline(always)]
pub(crate) fn not_word(word: u32) -> u32
    ensures { says_yes result ≡ not (says_yes word) }
{
    if word == 0 { 1 } else { 0 }
}

/// A word that says yes where both do.
#[inline(always)]
pub(crate) fn both_word(left: u32, right: u32) -> u32
    ensures { says_yes result ≡ (says_yes left && says_yes right) }
{
    if left == 0 { left } else { right }
}

/// A word that says yes where one of them does.
#[inline(always)]
pub(crate) fn either_word(left: u32, right: u32) -> u32
    ensures { says_yes result ≡ (says_yes left || says_yes right) }
{
    if left == 0 { right } else { left }
}

/// The first of two words where a mask's word says yes, else the second.
#[inline(always)]
pub(crate) fn chosen_word(mask: u32, yes: u32, no: u32) -> u32
    ensures { result ≡ (if says_yes mask then yes else no) }
{
    if mask == 0 { no } else { yes }
}
