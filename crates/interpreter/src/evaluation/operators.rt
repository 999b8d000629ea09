//! The operators on values whose numbers may lie outside their types.

ghost use Rattle.std.specs.Prelude.{◌≡◌};
ghost use Rattle.numeric.specs.Wrap.{wrap};
ghost use Rattle.numeric.specs.Apply.{exact, quotient, remainder};
ghost use Rattle.std.specs.Int.{int_wrap, w64};
ghost use Rattle.tree.specs.Meaning.{applied, clamped, negated, typed};

use numeric::{Op, Ty, wrap};
use tree::Value;

/// A number wrapped to the type. Most numbers are of their type: they are spared a division.
#[inline(always)]
pub(crate) fn wrapped_number(ty: Ty, number: i64) -> i64
    ensures { result ≡ wrap ty number }
{
    if ty.least() <= number && number <= ty.greatest() {
        number
    } else {
        wrap(ty, number)
    }
}

/// The value of a number, wrapped to the type.
#[inline(always)]
pub(crate) fn wrapped(ty: Ty, number: i64) -> Value
    ensures { result ≡ typed ty (wrap ty number) }
{
    let number = wrapped_number(ty, number);
    Value { ty, number }
}

/// The operator on two values: the exact result, wrapped to the first one's type.
#[inline(always)]
pub(crate) fn applied(op: Op, left: Value, right: Value) -> Value
    ensures { result ≡ applied op left right }
{
    // What is lost of the exact result is a multiple of 2 to the 64, and so of every modulus.
    wrapped(
        op.result_type(left.ty),
        low_bits(op, left.number, right.number),
    )
}

/// The negation, wrapped to the value's type.
pub(crate) fn negated(value: Value) -> Value
    ensures { result ≡ negated value }
{
    wrapped(value.ty, value.number.wrapping_neg())
}

/// The first, not above the third and then not below the second, in the first one's type and not wrapped.
pub(crate) fn clamped(value: Value, low: Value, high: Value) -> Value
    ensures { result ≡ clamped value low high }
{
    Value {
        ty: value.ty,
        number: value.number.min(high.number).max(low.number),
    }
}

/// The exact result, less the multiple of 2 to the 64 that does not fit.
#[inline(always)]
pub(crate) fn low_bits(op: Op, left: i64, right: i64) -> i64
    ensures { result ≡ int_wrap w64 (exact op left right) }
{
    match op {
        Op::Add => left.wrapping_add(right),
        Op::Sub => left.wrapping_sub(right),
        Op::Mul => left.wrapping_mul(right),
        Op::Div => quotient(left, right),
        Op::Rem => remainder(left, right),
        Op::Min => left.min(right),
        Op::Max => left.max(right),
    }
}

/// The low bits of the quotient whose remainder is not negative, and 0 for a divisor of 0.
#[inline(never)]
pub(crate) fn quotient(left: i64, right: i64) -> i64
    ensures { result ≡ int_wrap w64 (quotient left right) }
{
    match right {
        0 => 0,
        // The quotient of the least number does not fit.
        -1 => left.wrapping_neg(),
        _ => left.div_euclid(right),
    }
}

/// The remainder of that division, and 0 for a divisor of 0.
#[inline(never)]
pub(crate) fn remainder(left: i64, right: i64) -> i64
    ensures { result ≡ remainder left right }
{
    match right {
        0 | -1 => 0,
        _ => left.rem_euclid(right),
    }
}
