//! Sums, which wrap in two's complement.

ghost use Rattle.std.specs.Prelude.{◌≡◌, length, pos};
ghost use Rattle.numeric.specs.declared.op.Op.TheVariants.{Add};
ghost use Rattle.numeric.specs.declared.ty.Ty.TheVariants.{U8, U16, U32, I8, I16, I32};
ghost use Rattle.numeric.specs.Apply.{apply};
ghost use Rattle.lanes.specs.Applied.{Applies, itself};

use crate::operator::{Operator, one_by_one};
use crate::vectors::{Vectors, by_vectors};
use std::simd::prelude::*;

// The sum, wrapped.
struct Sum;

impl Operator<u8> for Sum {
    ghost value = { pos };

    ghost op = { apply Add U8 };

    fn one(left: u8, right: u8) -> u8 {
        left.wrapping_add(right)
    }
}

impl Operator<u16> for Sum {
    ghost value = { pos };

    ghost op = { apply Add U16 };

    fn one(left: u16, right: u16) -> u16 {
        left.wrapping_add(right)
    }
}

impl Operator<u32> for Sum {
    ghost value = { pos };

    ghost op = { apply Add U32 };

    fn one(left: u32, right: u32) -> u32 {
        left.wrapping_add(right)
    }
}

impl Operator<i8> for Sum {
    ghost value = { itself };

    ghost op = { apply Add I8 };

    fn one(left: i8, right: i8) -> i8 {
        left.wrapping_add(right)
    }
}

impl Operator<i16> for Sum {
    ghost value = { itself };

    ghost op = { apply Add I16 };

    fn one(left: i16, right: i16) -> i16 {
        left.wrapping_add(right)
    }
}

impl Operator<i32> for Sum {
    ghost value = { itself };

    ghost op = { apply Add I32 };

    fn one(left: i32, right: i32) -> i32 {
        left.wrapping_add(right)
    }
}

impl Vectors<u8, 32> for Sum {
    fn whole(a: &[u8], b: &[u8], out: &mut [u8], at: usize) {
        let left = u8x32::from_slice(&a[at..]);
        let right = u8x32::from_slice(&b[at..]);
        (left + right).copy_to_slice(&mut out[at..]);
    }
}

impl Vectors<u16, 16> for Sum {
    fn whole(a: &[u16], b: &[u16], out: &mut [u16], at: usize) {
        let left = u16x16::from_slice(&a[at..]);
        let right = u16x16::from_slice(&b[at..]);
        (left + right).copy_to_slice(&mut out[at..]);
    }
}

impl Vectors<u32, 8> for Sum {
    fn whole(a: &[u32], b: &[u32], out: &mut [u32], at: usize) {
        let left = u32x8::from_slice(&a[at..]);
        let right = u32x8::from_slice(&b[at..]);
        (left + right).copy_to_slice(&mut out[at..]);
    }
}

/// Puts `a[i] + b[i]`, wrapped, at each place `i` of `out`.
pub fn add_u8(a: &[u8], b: &[u8], out: &mut [u8])
    requires left { length a.now ≡ length out.old }
    requires right { length b.now ≡ length out.old }
    ensures { Applies pos (apply Add U8) a.now b.now out.new }
{
    by_vectors::<u8, Sum, 32>(a, b, out)
}

/// Puts `a[i] + b[i]`, wrapped, at each place `i` of `out`.
pub fn add_u16(a: &[u16], b: &[u16], out: &mut [u16])
    requires left { length a.now ≡ length out.old }
    requires right { length b.now ≡ length out.old }
    ensures { Applies pos (apply Add U16) a.now b.now out.new }
{
    by_vectors::<u16, Sum, 16>(a, b, out)
}

/// Puts `a[i] + b[i]`, wrapped, at each place `i` of `out`.
pub fn add_u32(a: &[u32], b: &[u32], out: &mut [u32])
    requires left { length a.now ≡ length out.old }
    requires right { length b.now ≡ length out.old }
    ensures { Applies pos (apply Add U32) a.now b.now out.new }
{
    by_vectors::<u32, Sum, 8>(a, b, out)
}

/// Puts `a[i] + b[i]`, wrapped, at each place `i` of `out`.
pub fn add_i8(a: &[i8], b: &[i8], out: &mut [i8])
    requires left { length a.now ≡ length out.old }
    requires right { length b.now ≡ length out.old }
    ensures { Applies itself (apply Add I8) a.now b.now out.new }
{
    one_by_one::<i8, Sum>(a, b, out)
}

/// Puts `a[i] + b[i]`, wrapped, at each place `i` of `out`.
pub fn add_i16(a: &[i16], b: &[i16], out: &mut [i16])
    requires left { length a.now ≡ length out.old }
    requires right { length b.now ≡ length out.old }
    ensures { Applies itself (apply Add I16) a.now b.now out.new }
{
    one_by_one::<i16, Sum>(a, b, out)
}

/// Puts `a[i] + b[i]`, wrapped, at each place `i` of `out`.
pub fn add_i32(a: &[i32], b: &[i32], out: &mut [i32])
    requires left { length a.now ≡ length out.old }
    requires right { length b.now ≡ length out.old }
    ensures { Applies itself (apply Add I32) a.now b.now out.new }
{
    one_by_one::<i32, Sum>(a, b, out)
}
