//! Quotients and remainders by one number at all turns of a run, without a division at each.

ghost use Rattle.std.specs.Bool.{OnTrue};
ghost use Rattle.std.specs.Prelude.{◌≡◌, ◌<◌, ◌≤◌, ◌≤ℤ◌, ◌<ℤ◌, ◌*◌, ◌/◌, ◌%◌, ◌^◌, ℕ, IfSome, pos, negsuc, length};
ghost use Rattle.numeric.specs.Apply.{apply, quotient, remainder};
ghost use Rattle.numeric.specs.declared.op.Op.TheVariants.{Div, Rem};
ghost use Rattle.numeric.specs.Wrap.{wrap};
ghost use Rattle.interpreter.specs.Evaluation.Quotients.{IsReciprocal, IsShortReciprocal, IsSmall};
ghost use Rattle.interpreter.specs.Evaluation.Words.{word_at};

use crate::evaluation::kernels::applied_number;
use crate::evaluation::lanes::Number;
use crate::evaluation::operations::{Operator, Quotient, Remainder};
use crate::evaluation::powers::{exponent_of, mask_each, shift_all};
use crate::evaluation::widths::{
    Signed8, Signed16, Signed32, Unsigned8, Unsigned16, Unsigned32, Width,
};
use crate::evaluation::words::{low_word, word_number};
use numeric::Ty;

/// A quotient and its remainder.
#[derive(Clone, Copy, Drop)]
struct Division {
    quotient: u32,
    rest: u32,
}

/// What numbers of 32 bits are multiplied by, so that the upper 64 bits of the product are the quotient. Whether they are is
/// tested at each quotient, so nothing rests on it.
fn reciprocal(divisor: u32) -> u64 {
    match divisor {
        0 | 1 => u64::MAX,
        _ => u64::MAX / u64::from(divisor) + 1,
    }
}

/// The division of a number, where the upper bits of the product with the reciprocal are its quotient.
#[inline(always)]
fn divided(number: u64, divisor: u32, reciprocal: u64) -> Option<Division>
    ensures quotient { IfSome result (λ d. d.quotient ≡ number / divisor) }
    ensures rest { IfSome result (λ d. d.rest ≡ number % divisor) }
    ensures below { IfSome result (λ d. d.rest < divisor) }
{
    let (_, guess) = number.carrying_mul(reciprocal, 0);
    let quotient = (guess & 0xffff_ffff) as u32;
    let product = u64::from(quotient) * u64::from(divisor);
    if number < product {
        return None;
    }
    let rest = number - product;
    if rest >= u64::from(divisor) {
        return None;
    }
    Some(Division {
        quotient,
        rest: rest as u32,
    })
}

/// How far a negative number lies below -1.
#[inline(always)]
fn below_minus_one(number: i64) -> u64
    requires { number <ℤ pos 0 }
    ensures { number ≡ negsuc result }
{
    (-1 - number) as u64
}

/// The number that lies so far below -1.
#[inline(always)]
fn under_minus_one(distance: u32) -> i64
    ensures { result ≡ negsuc distance }
{
    -1 - i64::from(distance)
}

/// The quotient whose remainder is not negative, where the reciprocal gives it.
#[inline(always)]
fn quotient_by(number: i64, divisor: u32, reciprocal: u64) -> Option<i64>
    ensures { IfSome result (λ q. q ≡ quotient number (pos divisor)) }
{
    if number < 0 {
        let division = divided(below_minus_one(number), divisor, reciprocal)?;
        return Some(under_minus_one(division.quotient));
    }
    let division = divided(number as u64, divisor, reciprocal)?;
    Some(i64::from(division.quotient))
}

/// The remainder that is not negative, where the reciprocal gives it.
#[inline(always)]
fn remainder_by(number: i64, divisor: u32, reciprocal: u64) -> Option<i64>
    ensures { IfSome result (λ r. r ≡ remainder number (pos divisor)) }
{
    if number < 0 {
        let division = divided(below_minus_one(number), divisor, reciprocal)?;
        return Some(i64::from(divisor - 1 - division.rest));
    }
    let division = divided(number as u64, divisor, reciprocal)?;
    Some(i64::from(division.rest))
}

/// The operator on a number and another, by a division.
#[inline(never)]
fn applied_slowly<O: Operator, W: Width>(number: Number, divisor: u32) -> Number
    ensures { result.value ≡ apply O.op W.ty number.value (pos divisor) }
{
    let right = Number {
        value: i64::from(divisor),
    };
    applied_number::<O, W>(number, right)
}

/// The quotient by a number, wrapped to the type.
#[inline(always)]
fn quotient_number<W: Width>(number: Number, divisor: u32, reciprocal: u64) -> Number
    ensures { result.value ≡ apply Div W.ty number.value (pos divisor) }
{
    match quotient_by(number.value, divisor, reciprocal) {
        Some(quotient) => Number {
            value: W::wrapped(quotient),
        },
        None => applied_slowly::<Quotient, W>(number, divisor),
    }
}

/// The remainder by a number, wrapped to the type.
#[inline(always)]
fn remainder_number<W: Width>(number: Number, divisor: u32, reciprocal: u64) -> Number
    ensures { result.value ≡ apply Rem W.ty number.value (pos divisor) }
{
    match remainder_by(number.value, divisor, reciprocal) {
        Some(remainder) => Number {
            value: W::wrapped(remainder),
        },
        None => applied_slowly::<Remainder, W>(number, divisor),
    }
}

/// The quotient of a word by a number, wrapped to the word's type.
#[inline(always)]
fn quotient_word<W: Width>(word: u32, divisor: u32, reciprocal: u64) -> u32
    ensures { wrap W.ty (pos result) ≡ apply Div W.ty (wrap W.ty (pos word)) (pos divisor) }
{
    low_word(quotient_number::<W>(word_number::<W>(word), divisor, reciprocal))
}

/// The remainder of a word by a number, wrapped to the word's type.
#[inline(always)]
fn remainder_word<W: Width>(word: u32, divisor: u32, reciprocal: u64) -> u32
    ensures { wrap W.ty (pos result) ≡ apply Rem W.ty (wrap W.ty (pos word)) (pos divisor) }
{
    low_word(remainder_number::<W>(word_number::<W>(word), divisor, reciprocal))
}

/// Each word divided by one number, wrapped to the type.
#[inline(always)]
fn divide_each<W: Width>(out: &mut [u32], divisor: u32)
    ensures { (k : ℕ) → k < length out.new → word_at W.ty out.new k ≡ apply Div W.ty (word_at W.ty out.old k) (pos divisor) }
{
    let reciprocal = reciprocal(divisor);
    for turn in 0..out.len() {
        out[turn] = quotient_word::<W>(out[turn], divisor, reciprocal);
    }
}

/// Whether a number is of 16 bits without a sign.
#[inline(always)]
fn is_small(number: Number) -> bool
    ensures { OnTrue result (IsSmall number.value) }
{
    let from = number.value >= 0;
    let below = number.value < 1 << 16;
    from & below
}

/// Whether all numbers are of 16 bits without a sign. All are looked at, so that several are at once.
#[inline(always)]
fn are_small<W: Width>(words: &[u32]) -> bool
    ensures { OnTrue result ((k : ℕ) → k < length words.now → IsSmall (word_at W.ty words.now k)) }
{
    let mut all = true;
    for turn in 0..words.len() {
        let one = is_small(word_number::<W>(words[turn]));
        all = all & one;
    }
    all
}

/// What numbers of 16 bits are multiplied by, so that the bits of the product above the first 32 are the quotient.
#[tactic(auto, using(crate::proofs::Reciprocals::reciprocal_is))]
fn small_reciprocal(divisor: u32) -> Option<u32>
    ensures { IfSome result (λ m. IsReciprocal m divisor) }
{
    if divisor < 2 || divisor > 1 << 16 {
        return None;
    }
    let reciprocal = (u32::MAX / divisor).checked_add(1)?;
    Some(reciprocal)
}

/// The bits above the first 32 of a product of two numbers of 32 bits.
#[inline(always)]
fn upper_half(left: u32, right: u32) -> i64
    ensures { result ≡ pos ((left * right) / (2 ^ 32)) }
{
    ((u64::from(left) * u64::from(right)) >> 32) as i64
}

/// A number of 16 bits without a sign.
#[inline(always)]
fn small_number(number: Number) -> u32
    requires { IsSmall number.value }
    ensures is { number.value ≡ pos result }
    ensures below { result < 2 ^ 16 }
{
    number.value as u32
}

/// The quotient of a number of 16 bits, wrapped to the type, by the divisor's reciprocal.
#[inline(always)]
fn small_quotient<W: Width>(number: Number, divisor: u32, reciprocal: u32) -> Number
    requires small { IsSmall number.value }
    requires reciprocal { IsReciprocal reciprocal divisor }
    ensures { result.value ≡ apply Div W.ty number.value (pos divisor) }
{
    let quotient = upper_half(small_number(number), reciprocal);
    Number {
        value: W::wrapped(quotient),
    }
}

/// The quotient of a word that is a number of 16 bits without a sign, wrapped to the word's type, by the divisor's reciprocal.
#[inline(always)]
fn small_word<W: Width>(word: u32, divisor: u32, reciprocal: u32) -> u32
    requires small { IsSmall (wrap W.ty (pos word)) }
    requires reciprocal { IsReciprocal reciprocal divisor }
    ensures { wrap W.ty (pos result) ≡ apply Div W.ty (wrap W.ty (pos word)) (pos divisor) }
{
    low_word(small_quotient::<W>(word_number::<W>(word), divisor, reciprocal))
}

/// Each word that is a number of 16 bits divided by one number, wrapped to the type, by the divisor's reciprocal.
#[inline(always)]
fn divide_small<W: Width>(out: &mut [u32], divisor: u32, reciprocal: u32)
    requires small { (k : ℕ) → k < length out.old → IsSmall (word_at W.ty out.old k) }
    requires reciprocal { IsReciprocal reciprocal divisor }
    ensures { (k : ℕ) → k < length out.new → word_at W.ty out.new k ≡ apply Div W.ty (word_at W.ty out.old k) (pos divisor) }
{
    for turn in 0..out.len() {
        out[turn] = small_word::<W>(out[turn], divisor, reciprocal);
    }
}

/// What numbers of 16 bits are multiplied by, and how many of the product's bits lie below the quotient.
#[derive(Clone, Copy, Drop)]
struct ShortReciprocal {
    factor: u32,
    shift: u32,
}

/// Whether the product of each number of 16 bits with a factor is of 32 bits, and its bits above the first so many are the quotient.
fn is_short(factor: u32, shift: u32, divisor: u32) -> bool
    ensures { OnTrue result (IsShortReciprocal factor shift divisor) }
{
    if divisor < 1 || factor > 1 << 16 || shift > 31 {
        return false;
    }
    let power = u64::from(1u32 << shift);
    let product = u64::from(factor) * u64::from(divisor);
    let Some(most) = product.checked_mul(1 << 16) else {
        return false;
    };
    power <= product && most < power * (1 << 16) + power
}

/// The factor of 16 bits for a divisor, if one is found.
fn short_reciprocal(divisor: u32) -> Option<ShortReciprocal>
    ensures { IfSome result (λ r. IsShortReciprocal r.factor r.shift divisor) }
{
    if divisor < 2 || divisor > 1 << 15 {
        return None;
    }
    let shift = 47u32.saturating_sub(divisor.leading_zeros()).min(31);
    let factor = ((1u32 << shift).saturating_sub(1) / divisor).saturating_add(1);
    if is_short(factor, shift, divisor) {
        Some(ShortReciprocal { factor, shift })
    } else {
        None
    }
}

/// The bits above the first so many of a product of two numbers of 16 bits.
#[inline(always)]
fn upper_bits(number: u32, factor: u32, shift: u32) -> u32
    requires number { number < 2 ^ 16 }
    requires factor { factor ≤ 2 ^ 16 }
    requires shift { shift < 32 }
    ensures { result ≡ (number * factor) / (2 ^ shift) }
{
    (number * factor) >> shift
}

/// The quotient of a word that is a number of 16 bits without a sign, by a product of 32 bits.
#[inline(always)]
fn short_word<W: Width>(word: u32, divisor: u32, by: ShortReciprocal) -> u32
    requires small { IsSmall (wrap W.ty (pos word)) }
    requires reciprocal { IsShortReciprocal by.factor by.shift divisor }
    ensures { wrap W.ty (pos result) ≡ apply Div W.ty (wrap W.ty (pos word)) (pos divisor) }
{
    let number = small_number(word_number::<W>(word));
    upper_bits(number, by.factor, by.shift)
}

/// Each word that is a number of 16 bits divided by one number, wrapped to the type, by a product of 32 bits.
#[inline(always)]
fn divide_short<W: Width>(out: &mut [u32], divisor: u32, by: ShortReciprocal)
    requires small { (k : ℕ) → k < length out.old → IsSmall (word_at W.ty out.old k) }
    requires reciprocal { IsShortReciprocal by.factor by.shift divisor }
    ensures { (k : ℕ) → k < length out.new → word_at W.ty out.new k ≡ apply Div W.ty (word_at W.ty out.old k) (pos divisor) }
{
    for turn in 0..out.len() {
        out[turn] = short_word::<W>(out[turn], divisor, by);
    }
}

/// Each word that is a number of 16 bits divided by one number, wrapped to the type: by a product alone where there is a factor.
#[inline(always)]
fn divide_small_in<W: Width>(out: &mut [u32], divisor: u32)
    requires { (k : ℕ) → k < length out.old → IsSmall (word_at W.ty out.old k) }
    ensures { (k : ℕ) → k < length out.new → word_at W.ty out.new k ≡ apply Div W.ty (word_at W.ty out.old k) (pos divisor) }
{
    match short_reciprocal(divisor) {
        Some(by) => divide_short::<W>(out, divisor, by),
        None => match small_reciprocal(divisor) {
            Some(reciprocal) => divide_small::<W>(out, divisor, reciprocal),
            None => divide_each::<W>(out, divisor),
        },
    }
}

/// Each word divided by one number, wrapped to the type: by a product alone where all are of 16 bits.
#[inline(always)]
fn divide_in<W: Width>(out: &mut [u32], divisor: u32)
    ensures { (k : ℕ) → k < length out.new → word_at W.ty out.new k ≡ apply Div W.ty (word_at W.ty out.old k) (pos divisor) }
{
    if are_small::<W>(out) {
        divide_small_in::<W>(out, divisor);
    } else {
        divide_each::<W>(out, divisor);
    }
}

/// Each word divided by one number, wrapped to the type, by a loop of the type's own.
fn divide_any(ty: Ty, out: &mut [u32], divisor: u32)
    ensures { (k : ℕ) → k < length out.new → word_at ty out.new k ≡ apply Div ty (word_at ty out.old k) (pos divisor) }
{
    match ty {
        Ty::U8 => divide_in::<Unsigned8>(out, divisor),
        Ty::U16 => divide_in::<Unsigned16>(out, divisor),
        Ty::U32 => divide_in::<Unsigned32>(out, divisor),
        Ty::I8 => divide_in::<Signed8>(out, divisor),
        Ty::I16 => divide_in::<Signed16>(out, divisor),
        Ty::I32 => divide_in::<Signed32>(out, divisor),
    }
}

/// Each word divided by one number, wrapped to the type: by a shift alone where the number is a power of two.
pub(crate) fn divide_all(ty: Ty, out: &mut [u32], divisor: u32)
    ensures { (k : ℕ) → k < length out.new → word_at ty out.new k ≡ apply Div ty (word_at ty out.old k) (pos divisor) }
{
    match exponent_of(divisor) {
        Some(exponent) => shift_all(ty, out, exponent),
        None => divide_any(ty, out, divisor),
    }
}

/// The remainder of each word by one number, wrapped to the type.
#[inline(always)]
fn reduce_each<W: Width>(out: &mut [u32], divisor: u32)
    ensures { (k : ℕ) → k < length out.new → word_at W.ty out.new k ≡ apply Rem W.ty (word_at W.ty out.old k) (pos divisor) }
{
    let reciprocal = reciprocal(divisor);
    for turn in 0..out.len() {
        out[turn] = remainder_word::<W>(out[turn], divisor, reciprocal);
    }
}

/// The remainder of each word by one number, wrapped to the type, by a loop of the type's own.
fn reduce_any(ty: Ty, out: &mut [u32], divisor: u32)
    ensures { (k : ℕ) → k < length out.new → word_at ty out.new k ≡ apply Rem ty (word_at ty out.old k) (pos divisor) }
{
    match ty {
        Ty::U8 => reduce_each::<Unsigned8>(out, divisor),
        Ty::U16 => reduce_each::<Unsigned16>(out, divisor),
        Ty::U32 => reduce_each::<Unsigned32>(out, divisor),
        Ty::I8 => reduce_each::<Signed8>(out, divisor),
        Ty::I16 => reduce_each::<Signed16>(out, divisor),
        Ty::I32 => reduce_each::<Signed32>(out, divisor),
    }
}

/// The remainder of each word by one number, wrapped to the type: its lowest bits where the number is a power of two.
pub(crate) fn reduce_all(ty: Ty, out: &mut [u32], divisor: u32)
    ensures { (k : ℕ) → k < length out.new → word_at ty out.new k ≡ apply Rem ty (word_at ty out.old k) (pos divisor) }
{
    match exponent_of(divisor) {
        Some(exponent) if exponent <= ty.bits() => mask_each(out, exponent),
        _ => reduce_any(ty, out, divisor),
    }
}
