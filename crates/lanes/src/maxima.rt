//! The greater of two values.

ghost use Rattle.std.specs.Prelude.{◌≡◌, length, pos};
ghost use Rattle.numeric.specs.declared.op.Op.TheVariants.{Max};
ghost use Rattle.numeric.specs.declared.ty.Ty.TheVariants.{U8, U16, U32, I8, I16, I32};
ghost use Rattle.numeric.specs.Apply.{apply};
ghost use Rattle.lanes.specs.Applied.{Applies, itself};

use crate::operator::{Operator, one_by_one};

// The greater value.
struct Greater;

impl Operator<u8> for Greater {
    ghost value = { pos };

    ghost op = { apply Max U8 };

    fn one(left: u8, right: u8) -> u8 {
        left.max(right)
    }
}

impl Operator<u16> for Greater {
    ghost value = { pos };

    ghost op = { apply Max U16 };

    fn one(left: u16, right: u16) -> u16 {
        left.max(right)
    }
}

impl Operator<u32> for Greater {
    ghost value = { pos };

    ghost op = { apply Max U32 };

    fn one(left: u32, right: u32) -> u32 {
        left.max(right)
    }
}

impl Operator<i8> for Greater {
    ghost value = { itself };

    ghost op = { apply Max I8 };

    fn one(left: i8, right: i8) -> i8 {
        left.max(right)
    }
}

impl Operator<i16> for Greater {
    ghost value = { itself };

    ghost op = { apply Max I16 };

    fn one(left: i16, right: i16) -> i16 {
        left.max(right)
    }
}

impl Operator<i32> for Greater {
    ghost value = { itself };

    ghost op = { apply Max I32 };

    fn one(left: i32, right: i32) -> i32 {
        left.max(right)
    }
}

/// Puts the greater of `a[i]` and `b[i]` at each place `i` of `out`.
pub fn max_u8(a: &[u8], b: &[u8], out: &mut [u8])
    requires left { length a.now ≡ length out.old }
    requires right { length b.now ≡ length out.old }
    ensures { Applies pos (apply Max U8) a.now b.now out.new }
{
    one_by_one::<u8, Greater>(a, b, out)
}

/// Puts the greater of `a[i]` and `b[i]` at each place `i` of `out`.
pub fn max_u16(a: &[u16], b: &[u16], out: &mut [u16])
    requires left { length a.now ≡ length out.old }
    requires right { length b.now ≡ length out.old }
    ensures { Applies pos (apply Max U16) a.now b.now out.new }
{
    one_by_one::<u16, Greater>(a, b, out)
}

/// Puts the greater of `a[i]` and `b[i]` at each place `i` of `out`.
pub fn max_u32(a: &[u32], b: &[u32], out: &mut [u32])
    requires left { length a.now ≡ length out.old }
    requires right { length b.now ≡ length out.old }
    ensures { Applies pos (apply Max U32) a.now b.now out.new }
{
    one_by_one::<u32, Greater>(a, b, out)
}

/// Puts the greater of `a[i]` and `b[i]` at each place `i` of `out`.
pub fn max_i8(a: &[i8], b: &[i8], out: &mut [i8])
    requires left { length a.now ≡ length out.old }
    requires right { length b.now ≡ length out.old }
    ensures { Applies itself (apply Max I8) a.now b.now out.new }
{
    one_by_one::<i8, Greater>(a, b, out)
}

/// Puts the greater of `a[i]` and `b[i]` at each place `i` of `out`.
pub fn max_i16(a: &[i16], b: &[i16], out: &mut [i16])
    requires left { length a.now ≡ length out.old }
    requires right { length b.now ≡ length out.old }
    ensures { Applies itself (apply Max I16) a.now b.now out.new }
{
    one_by_one::<i16, Greater>(a, b, out)
}

/// Puts the greater of `a[i]` and `b[i]` at each place `i` of `out`.
pub fn max_i32(a: &[i32], b: &[i32], out: &mut [i32])
    requires left { length a.now ≡ length out.old }
    requires right { length b.now ≡ length out.old }
    ensures { Applies itself (apply Max I32) a.now b.now out.new }
{
    one_by_one::<i32, Greater>(a, b, out)
}
