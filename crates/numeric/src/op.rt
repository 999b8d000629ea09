//! The operators and the comparisons.

ghost use Rattle.std.specs.Prelude.{◌≡◌, ◌^◌, neg_ℤ, pos, ◌≤ℤ◌};
ghost use Rattle.numeric.specs.Wrap.{IsOf, wrap as wrap_of};
ghost use Rattle.numeric.specs.Apply.{apply as value_of, result_type, quotient, remainder, compare as holds};

use crate::ty::{Ty, wrap};

/// An operator on two values of one type.
#[derive(Clone, Copy, PartialEq, Eq, Drop)]
pub enum Op {
    Add,
    Sub,
    Mul,
    /// The quotient whose remainder is not negative (Halide's division), and 0 where the divisor is 0.
    Div,
    /// The remainder of that division, and 0 where the divisor is 0.
    Rem,
    Min,
    Max,
}

impl Op {
    /// The type of the result, where both operands have the type.
    pub fn result_type(self, operands: Ty) -> Ty
        ensures { result ≡ result_type self operands }
    {
        operands
    }
}

/// A comparison of two values of one type.
#[derive(Clone, Copy, PartialEq, Eq, Drop)]
pub enum Comparison {
    Less,
    AtMost,
    Greater,
    AtLeast,
    Equal,
    Different,
}

/// The operator on two values of the type: the exact result, wrapped to the result's type.
pub fn apply(op: Op, ty: Ty, left: i64, right: i64) -> i64
    requires left { IsOf ty left }
    requires right { IsOf ty right }
    ensures value { result ≡ value_of op ty left right }
    ensures within { IsOf (result_type op ty) result }
{
    match op {
        Op::Add => wrap(ty, left + right),
        Op::Sub => wrap(ty, left - right),
        // The product of two u32 may not fit, but what is lost is a multiple of 2 to the 64.
        Op::Mul => wrap(ty, left.wrapping_mul(right)),
        Op::Div => wrap(ty, quotient(left, right)),
        Op::Rem => wrap(ty, remainder(left, right)),
        Op::Min => wrap(ty, left.min(right)),
        Op::Max => wrap(ty, left.max(right)),
    }
}

/// The negation of a value of the type, wrapped.
pub fn negate(ty: Ty, value: i64) -> i64
    requires { IsOf ty value }
    ensures value { result ≡ wrap_of ty (neg_ℤ value) }
    ensures within { IsOf ty result }
{
    wrap(ty, -value)
}

// The quotient whose remainder is not negative, and 0 for a divisor of 0.
fn quotient(left: i64, right: i64) -> i64
    requires { neg_ℤ (pos (2 ^ 32)) ≤ℤ left }
    ensures { result ≡ quotient left right }
{
    if right == 0 {
        0
    } else {
        left.div_euclid(right)
    }
}

// The remainder of that division, and 0 for a divisor of 0.
fn remainder(left: i64, right: i64) -> i64
    requires { neg_ℤ (pos (2 ^ 32)) ≤ℤ left }
    ensures { result ≡ remainder left right }
{
    if right != 0 {
        left.rem_euclid(right)
    } else {
        0
    }
}

/// Whether the comparison holds.
pub fn compare(comparison: Comparison, left: i64, right: i64) -> bool
    ensures { result ≡ holds comparison left right }
{
    match comparison {
        Comparison::Less => left < right,
        Comparison::AtMost => left <= right,
        Comparison::Greater => left > right,
        Comparison::AtLeast => left >= right,
        Comparison::Equal => left == right,
        Comparison::Different => left != right,
    }
}
