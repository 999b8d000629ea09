//! Remainders, from 0 up to the divisor's size; by 0 a remainder is 0.

ghost use Rattle.std.specs.Prelude.{◌≡◌, length, pos};
ghost use Rattle.numeric.specs.declared.op.Op.TheVariants.{Rem};
ghost use Rattle.numeric.specs.declared.ty.Ty.TheVariants.{U8, U16, U32, I8, I16, I32};
ghost use Rattle.numeric.specs.Apply.{apply};
ghost use Rattle.lanes.specs.Applied.{Applies, itself};

use crate::operator::{Operator, one_by_one};

// The remainder, from 0 up to the divisor's size, by 0 a 0.
struct Remainder;

impl Operator<u8> for Remainder {
    ghost value = { pos };

    ghost op = { apply Rem U8 };

    fn one(left: u8, right: u8) -> u8 {
        if right == 0 { 0 } else { left % right }
    }
}

impl Operator<u16> for Remainder {
    ghost value = { pos };

    ghost op = { apply Rem U16 };

    fn one(left: u16, right: u16) -> u16 {
        if right == 0 { 0 } else { left % right }
    }
}

impl Operator<u32> for Remainder {
    ghost value = { pos };

    ghost op = { apply Rem U32 };

    fn one(left: u32, right: u32) -> u32 {
        if right == 0 { 0 } else { left % right }
    }
}

impl Operator<i8> for Remainder {
    ghost value = { itself };

    ghost op = { apply Rem I8 };

    fn one(left: i8, right: i8) -> i8 {
        if right == 0 {
            0
        } else {
            left.wrapping_rem_euclid(right)
        }
    }
}

impl Operator<i16> for Remainder {
    ghost value = { itself };

    ghost op = { apply Rem I16 };

    fn one(left: i16, right: i16) -> i16 {
        if right == 0 {
            0
        } else {
            left.wrapping_rem_euclid(right)
        }
    }
}

impl Operator<i32> for Remainder {
    ghost value = { itself };

    ghost op = { apply Rem I32 };

    fn one(left: i32, right: i32) -> i32 {
        if right == 0 {
            0
        } else {
            left.wrapping_rem_euclid(right)
        }
    }
}

/// Puts Euclid's remainder of `a[i]` by `b[i]`, by 0 a 0, at each place `i` of `out`.
pub fn rem_u8(a: &[u8], b: &[u8], out: &mut [u8])
    requires left { length a.now ≡ length out.old }
    requires right { length b.now ≡ length out.old }
    ensures { Applies pos (apply Rem U8) a.now b.now out.new }
{
    one_by_one::<u8, Remainder>(a, b, out)
}

/// Puts Euclid's remainder of `a[i]` by `b[i]`, by 0 a 0, at each place `i` of `out`.
pub fn rem_u16(a: &[u16], b: &[u16], out: &mut [u16])
    requires left { length a.now ≡ length out.old }
    requires right { length b.now ≡ length out.old }
    ensures { Applies pos (apply Rem U16) a.now b.now out.new }
{
    one_by_one::<u16, Remainder>(a, b, out)
}

/// Puts Euclid's remainder of `a[i]` by `b[i]`, by 0 a 0, at each place `i` of `out`.
pub fn rem_u32(a: &[u32], b: &[u32], out: &mut [u32])
    requires left { length a.now ≡ length out.old }
    requires right { length b.now ≡ length out.old }
    ensures { Applies pos (apply Rem U32) a.now b.now out.new }
{
    one_by_one::<u32, Remainder>(a, b, out)
}

/// Puts Euclid's remainder of `a[i]` by `b[i]`, by 0 a 0, at each place `i` of `out`.
pub fn rem_i8(a: &[i8], b: &[i8], out: &mut [i8])
    requires left { length a.now ≡ length out.old }
    requires right { length b.now ≡ length out.old }
    ensures { Applies itself (apply Rem I8) a.now b.now out.new }
{
    one_by_one::<i8, Remainder>(a, b, out)
}

/// Puts Euclid's remainder of `a[i]` by `b[i]`, by 0 a 0, at each place `i` of `out`.
pub fn rem_i16(a: &[i16], b: &[i16], out: &mut [i16])
    requires left { length a.now ≡ length out.old }
    requires right { length b.now ≡ length out.old }
    ensures { Applies itself (apply Rem I16) a.now b.now out.new }
{
    one_by_one::<i16, Remainder>(a, b, out)
}

/// Puts Euclid's remainder of `a[i]` by `b[i]`, by 0 a 0, at each place `i` of `out`.
pub fn rem_i32(a: &[i32], b: &[i32], out: &mut [i32])
    requires left { length a.now ≡ length out.old }
    requires right { length b.now ≡ length out.old }
    ensures { Applies itself (apply Rem I32) a.now b.now out.new }
{
    one_by_one::<i32, Remainder>(a, b, out)
}
