//! Differences, which wrap in two's complement.

ghost use Rattle.std.specs.Prelude.{◌≡◌, length, pos};
ghost use Rattle.numeric.specs.declared.op.Op.TheVariants.{Sub};
ghost use Rattle.numeric.specs.declared.ty.Ty.TheVariants.{U8, U16, U32, I8, I16, I32};
ghost use Rattle.numeric.specs.Apply.{apply};
ghost use Rattle.lanes.specs.Applied.{Applies, itself};

use crate::operator::{Operator, one_by_one};
use crate::vectors::{Vectors, by_vectors};
use std::simd::prelude::*;

// The difference, wrapped.
struct Difference;

impl Operator<u8> for Difference {
    ghost value = { pos };

    ghost op = { apply Sub U8 };

    fn one(left: u8, right: u8) -> u8 {
        left.wrapping_sub(right)
    }
}

impl Operator<u16> for Difference {
    ghost value = { pos };

    ghost op = { apply Sub U16 };

    fn one(left: u16, right: u16) -> u16 {
        left.wrapping_sub(right)
    }
}

impl Operator<u32> for Difference {
    ghost value = { pos };

    ghost op = { apply Sub U32 };

    fn one(left: u32, right: u32) -> u32 {
        left.wrapping_sub(right)
    }
}

impl Operator<i8> for Difference {
    ghost value = { itself };

    ghost op = { apply Sub I8 };

    fn one(left: i8, right: i8) -> i8 {
        left.wrapping_sub(right)
    }
}

impl Operator<i16> for Difference {
    ghost value = { itself };

    ghost op = { apply Sub I16 };

    fn one(left: i16, right: i16) -> i16 {
        left.wrapping_sub(right)
    }
}

impl Operator<i32> for Difference {
    ghost value = { itself };

    ghost op = { apply Sub I32 };

    fn one(left: i32, right: i32) -> i32 {
        left.wrapping_sub(right)
    }
}

impl Vectors<u8, 32> for Difference {
    fn whole(a: &[u8], b: &[u8], out: &mut [u8], at: usize) {
        let left = u8x32::from_slice(&a[at..]);
        let right = u8x32::from_slice(&b[at..]);
        (left - right).copy_to_slice(&mut out[at..]);
    }
}

impl Vectors<u16, 16> for Difference {
    fn whole(a: &[u16], b: &[u16], out: &mut [u16], at: usize) {
        let left = u16x16::from_slice(&a[at..]);
        let right = u16x16::from_slice(&b[at..]);
        (left - right).copy_to_slice(&mut out[at..]);
    }
}

impl Vectors<u32, 8> for Difference {
    fn whole(a: &[u32], b: &[u32], out: &mut [u32], at: usize) {
        let left = u32x8::from_slice(&a[at..]);
        let right = u32x8::from_slice(&b[at..]);
        (left - right).copy_to_slice(&mut out[at..]);
    }
}

/// Puts `a[i] - b[i]`, wrapped, at each place `i` of `out`.
pub fn sub_u8(a: &[u8], b: &[u8], out: &mut [u8])
    requires left { length a.now ≡ length out.old }
    requires right { length b.now ≡ length out.old }
    ensures { Applies pos (apply Sub U8) a.now b.now out.new }
{
    by_vectors::<u8, Difference, 32>(a, b, out)
}

/// Puts `a[i] - b[i]`, wrapped, at each place `i` of `out`.
pub fn sub_u16(a: &[u16], b: &[u16], out: &mut [u16])
    requires left { length a.now ≡ length out.old }
    requires right { length b.now ≡ length out.old }
    ensures { Applies pos (apply Sub U16) a.now b.now out.new }
{
    by_vectors::<u16, Difference, 16>(a, b, out)
}

/// Puts `a[i] - b[i]`, wrapped, at each place `i` of `out`.
pub fn sub_u32(a: &[u32], b: &[u32], out: &mut [u32])
    requires left { length a.now ≡ length out.old }
    requires right { length b.now ≡ length out.old }
    ensures { Applies pos (apply Sub U32) a.now b.now out.new }
{
    by_vectors::<u32, Difference, 8>(a, b, out)
}

/// Puts `a[i] - b[i]`, wrapped, at each place `i` of `out`.
pub fn sub_i8(a: &[i8], b: &[i8], out: &mut [i8])
    requires left { length a.now ≡ length out.old }
    requires right { length b.now ≡ length out.old }
    ensures { Applies itself (apply Sub I8) a.now b.now out.new }
{
    one_by_one::<i8, Difference>(a, b, out)
}

/// Puts `a[i] - b[i]`, wrapped, at each place `i` of `out`.
pub fn sub_i16(a: &[i16], b: &[i16], out: &mut [i16])
    requires left { length a.now ≡ length out.old }
    requires right { length b.now ≡ length out.old }
    ensures { Applies itself (apply Sub I16) a.now b.now out.new }
{
    one_by_one::<i16, Difference>(a, b, out)
}

/// Puts `a[i] - b[i]`, wrapped, at each place `i` of `out`.
pub fn sub_i32(a: &[i32], b: &[i32], out: &mut [i32])
    requires left { length a.now ≡ length out.old }
    requires right { length b.now ≡ length out.old }
    ensures { Applies itself (apply Sub I32) a.now b.now out.new }
{
    one_by_one::<i32, Difference>(a, b, out)
}
