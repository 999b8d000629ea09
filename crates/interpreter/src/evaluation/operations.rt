//! Operators and comparisons as types. Generic code is compiled once a type, so each of them has loops of its own.

ghost use Rattle.std.specs.Prelude.{◌≡◌};
ghost use Rattle.std.specs.Int.{int_wrap, w64};
ghost use Rattle.numeric.specs.declared.op.Op.{Op as Operation};
ghost use Rattle.numeric.specs.declared.op.Op.TheVariants.{Add, Sub, Mul, Div, Rem, Min, Max};
ghost use Rattle.numeric.specs.declared.op.Comparison.{Comparison};
ghost use Rattle.numeric.specs.declared.op.Comparison.TheVariants.{Less, AtMost, Greater, AtLeast, Equal, Different};
ghost use Rattle.numeric.specs.Apply.{compare, exact};

use crate::evaluation::operators::{quotient, remainder};

/// An operator on two numbers.
pub(crate) trait Operator {
    ghost op: { Operation };

    /// The exact result, less the multiple of 2 to the 64 that does not fit.
    fn low_bits(left: i64, right: i64) -> i64
        ensures { result ≡ int_wrap w64 (exact op left right) };
}

/// The sum.
pub(crate) struct Sum;

/// What is left of the first number when the second is taken away.
pub(crate) struct Difference;

/// The product.
pub(crate) struct Product;

/// The quotient whose remainder is not negative, and 0 for a divisor of 0.
pub(crate) struct Quotient;

/// The remainder of that division, and 0 for a divisor of 0.
pub(crate) struct Remainder;

/// The smaller number.
pub(crate) struct Smaller;

/// The larger number.
pub(crate) struct Larger;

impl Operator for Sum {
    ghost op = { Add };

    fn low_bits(left: i64, right: i64) -> i64 {
        left.wrapping_add(right)
    }
}

impl Operator for Difference {
    ghost op = { Sub };

    fn low_bits(left: i64, right: i64) -> i64 {
        left.wrapping_sub(right)
    }
}

impl Operator for Product {
    ghost op = { Mul };

    fn low_bits(left: i64, right: i64) -> i64 {
        left.wrapping_mul(right)
    }
}

impl Operator for Quotient {
    ghost op = { Div };

    fn low_bits(left: i64, right: i64) -> i64 {
        quotient(left, right)
    }
}

impl Operator for Remainder {
    ghost op = { Rem };

    fn low_bits(left: i64, right: i64) -> i64 {
        remainder(left, right)
    }
}

impl Operator for Smaller {
    ghost op = { Min };

    fn low_bits(left: i64, right: i64) -> i64 {
        left.min(right)
    }
}

impl Operator for Larger {
    ghost op = { Max };

    fn low_bits(left: i64, right: i64) -> i64 {
        left.max(right)
    }
}

/// A comparison of two numbers.
pub(crate) trait Comparing {
    ghost by: { Comparison };

    /// Whether it holds.
    fn holds(left: i64, right: i64) -> bool
        ensures { result ≡ compare by left right };

    /// The same of numbers of 32 bits.
    fn holds_small(left: i32, right: i32) -> bool
        ensures { result ≡ compare by left right };
}

/// Whether the first number is less.
pub(crate) struct IsLess;

/// Whether the first number is at most the second.
pub(crate) struct IsAtMost;

/// Whether the first number is greater.
pub(crate) struct IsGreater;

/// Whether the first number is at least the second.
pub(crate) struct IsAtLeast;

/// Whether the numbers are the same.
pub(crate) struct IsEqual;

/// Whether the numbers differ.
pub(crate) struct IsDifferent;

impl Comparing for IsLess {
    ghost by = { Less };

    fn holds(left: i64, right: i64) -> bool {
        left < right
    }

    fn holds_small(left: i32, right: i32) -> bool {
        left < right
    }
}

impl Comparing for IsAtMost {
    ghost by = { AtMost };

    fn holds(left: i64, right: i64) -> bool {
        left <= right
    }

    fn holds_small(left: i32, right: i32) -> bool {
        left <= right
    }
}

impl Comparing for IsGreater {
    ghost by = { Greater };

    fn holds(left: i64, right: i64) -> bool {
        left > right
    }

    fn holds_small(left: i32, right: i32) -> bool {
        left > right
    }
}

impl Comparing for IsAtLeast {
    ghost by = { AtLeast };

    fn holds(left: i64, right: i64) -> bool {
        left >= right
    }

    fn holds_small(left: i32, right: i32) -> bool {
        left >= right
    }
}

impl Comparing for IsEqual {
    ghost by = { Equal };

    fn holds(left: i64, right: i64) -> bool {
        left == right
    }

    fn holds_small(left: i32, right: i32) -> bool {
        left == right
    }
}

impl Comparing for IsDifferent {
    ghost by = { Different };

    fn holds(left: i64, right: i64) -> bool {
        left != right
    }

    fn holds_small(left: i32, right: i32) -> bool {
        left != right
    }
}
