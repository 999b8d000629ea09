//! Products, which wrap in two's complement.

ghost use Rattle.std.specs.Prelude.{◌≡◌, length, pos};
ghost use Rattle.numeric.specs.declared.op.Op.TheVariants.{Mul};
ghost use Rattle.numeric.specs.declared.ty.Ty.TheVariants.{U8, U16, U32, I8, I16, I32};
ghost use Rattle.numeric.specs.Apply.{apply};
ghost use Rattle.lanes.specs.Applied.{Applies, itself};

use crate::operator::{Operator, one_by_one};
use crate::vectors::{Vectors, by_vectors};
use std::simd::prelude::*;

// The product, wrapped.
struct Product;

impl Operator<u8> for Product {
    ghost value = { pos };

    ghost op = { apply Mul U8 };

    fn one(left: u8, right: u8) -> u8 {
        left.wrapping_mul(right)
    }
}

impl Operator<u16> for Product {
    ghost value = { pos };

    ghost op = { apply Mul U16 };

    fn one(left: u16, right: u16) -> u16 {
        left.wrapping_mul(right)
    }
}

impl Operator<u32> for Product {
    ghost value = { pos };

    ghost op = { apply Mul U32 };

    fn one(left: u32, right: u32) -> u32 {
        left.wrapping_mul(right)
    }
}

impl Operator<i8> for Product {
    ghost value = { itself };

    ghost op = { apply Mul I8 };

    fn one(left: i8, right: i8) -> i8 {
        left.wrapping_mul(right)
    }
}

impl Operator<i16> for Product {
    ghost value = { itself };

    ghost op = { apply Mul I16 };

    fn one(left: i16, right: i16) -> i16 {
        left.wrapping_mul(right)
    }
}

impl Operator<i32> for Product {
    ghost value = { itself };

    ghost op = { apply Mul I32 };

    fn one(left: i32, right: i32) -> i32 {
        left.wrapping_mul(right)
    }
}

impl Vectors<u8, 32> for Product {
    fn whole(a: &[u8], b: &[u8], out: &mut [u8], at: usize) {
        let left = u8x32::from_slice(&a[at..]);
        let right = u8x32::from_slice(&b[at..]);
        (left * right).copy_to_slice(&mut out[at..]);
    }
}

impl Vectors<u16, 16> for Product {
    fn whole(a: &[u16], b: &[u16], out: &mut [u16], at: usize) {
        let left = u16x16::from_slice(&a[at..]);
        let right = u16x16::from_slice(&b[at..]);
        (left * right).copy_to_slice(&mut out[at..]);
    }
}

impl Vectors<u32, 8> for Product {
    fn whole(a: &[u32], b: &[u32], out: &mut [u32], at: usize) {
        let left = u32x8::from_slice(&a[at..]);
        let right = u32x8::from_slice(&b[at..]);
        (left * right).copy_to_slice(&mut out[at..]);
    }
}

/// Puts `a[i] * b[i]`, wrapped, at each place `i` of `out`.
pub fn mul_u8(a: &[u8], b: &[u8], out: &mut [u8])
    requires left { length a.now ≡ length out.old }
    requires right { length b.now ≡ length out.old }
    ensures { Applies pos (apply Mul U8) a.now b.now out.new }
{
    by_vectors::<u8, Product, 32>(a, b, out)
}

/// Puts `a[i] * b[i]`, wrapped, at each place `i` of `out`.
pub fn mul_u16(a: &[u16], b: &[u16], out: &mut [u16])
    requires left { length a.now ≡ length out.old }
    requires right { length b.now ≡ length out.old }
    ensures { Applies pos (apply Mul U16) a.now b.now out.new }
{
    by_vectors::<u16, Product, 16>(a, b, out)
}

/// Puts `a[i] * b[i]`, wrapped, at each place `i` of `out`.
pub fn mul_u32(a: &[u32], b: &[u32], out: &mut [u32])
    requires left { length a.now ≡ length out.old }
    requires right { length b.now ≡ length out.old }
    ensures { Applies pos (apply Mul U32) a.now b.now out.new }
{
    by_vectors::<u32, Product, 8>(a, b, out)
}

/// Puts `a[i] * b[i]`, wrapped, at each place `i` of `out`.
pub fn mul_i8(a: &[i8], b: &[i8], out: &mut [i8])
    requires left { length a.now ≡ length out.old }
    requires right { length b.now ≡ length out.old }
    ensures { Applies itself (apply Mul I8) a.now b.now out.new }
{
    one_by_one::<i8, Product>(a, b, out)
}

/// Puts `a[i] * b[i]`, wrapped, at each place `i` of `out`.
pub fn mul_i16(a: &[i16], b: &[i16], out: &mut [i16])
    requires left { length a.now ≡ length out.old }
    requires right { length b.now ≡ length out.old }
    ensures { Applies itself (apply Mul I16) a.now b.now out.new }
{
    one_by_one::<i16, Product>(a, b, out)
}

/// Puts `a[i] * b[i]`, wrapped, at each place `i` of `out`.
pub fn mul_i32(a: &[i32], b: &[i32], out: &mut [i32])
    requires left { length a.now ≡ length out.old }
    requires right { length b.now ≡ length out.old }
    ensures { Applies itself (apply Mul I32) a.now b.now out.new }
{
    one_by_one::<i32, Product>(a, b, out)
}
