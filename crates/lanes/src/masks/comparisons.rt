//! Comparisons, of which the answers are written as a mask.

ghost use Rattle.std.specs.Prelude.{◌≡◌, ℤ, Bool, length, pos};
ghost use Rattle.numeric.specs.declared.op.Comparison.TheVariants.{Less, AtMost, Greater, AtLeast, Equal, Different};
ghost use Rattle.numeric.specs.Apply.{compare};
ghost use Rattle.lanes.specs.Masks.Places.{Compares, itself};

use crate::masks::lane::Lane;

// A comparison of two numbers.
trait Comparing {
    ghost by: { ℤ → ℤ → Bool };

    fn holds(left: i64, right: i64) -> bool
        ensures { result ≡ by left right };
}

struct IsLess;

struct IsAtMost;

struct IsGreater;

struct IsAtLeast;

struct IsEqual;

struct IsDifferent;

impl Comparing for IsLess {
    ghost by = { compare Less };

    fn holds(left: i64, right: i64) -> bool {
        left < right
    }
}

impl Comparing for IsAtMost {
    ghost by = { compare AtMost };

    fn holds(left: i64, right: i64) -> bool {
        left <= right
    }
}

impl Comparing for IsGreater {
    ghost by = { compare Greater };

    fn holds(left: i64, right: i64) -> bool {
        left > right
    }
}

impl Comparing for IsAtLeast {
    ghost by = { compare AtLeast };

    fn holds(left: i64, right: i64) -> bool {
        left >= right
    }
}

impl Comparing for IsEqual {
    ghost by = { compare Equal };

    fn holds(left: i64, right: i64) -> bool {
        left == right
    }
}

impl Comparing for IsDifferent {
    ghost by = { compare Different };

    fn holds(left: i64, right: i64) -> bool {
        left != right
    }
}

// Compares at each place.
fn compared<T: Lane, C: Comparing>(a: &[T], b: &[T], out: &mut [bool])
    requires left { length a.now ≡ length out.old }
    requires right { length b.now ≡ length out.old }
    ensures { Compares T.value C.by a.now b.now out.new }
{
    for i in 0..out.len() {
        out[i] = C::holds(a[i].number(), b[i].number());
    }
}

/// Puts whether `a[i]` is less than `b[i]` at each place `i` of `out`.
pub fn lt_u8(a: &[u8], b: &[u8], out: &mut [bool])
    requires left { length a.now ≡ length out.old }
    requires right { length b.now ≡ length out.old }
    ensures { Compares pos (compare Less) a.now b.now out.new }
{
    compared::<u8, IsLess>(a, b, out)
}

/// Puts whether `a[i]` is less than `b[i]` at each place `i` of `out`.
pub fn lt_u16(a: &[u16], b: &[u16], out: &mut [bool])
    requires left { length a.now ≡ length out.old }
    requires right { length b.now ≡ length out.old }
    ensures { Compares pos (compare Less) a.now b.now out.new }
{
    compared::<u16, IsLess>(a, b, out)
}

/// Puts whether `a[i]` is less than `b[i]` at each place `i` of `out`.
pub fn lt_u32(a: &[u32], b: &[u32], out: &mut [bool])
    requires left { length a.now ≡ length out.old }
    requires right { length b.now ≡ length out.old }
    ensures { Compares pos (compare Less) a.now b.now out.new }
{
    compared::<u32, IsLess>(a, b, out)
}

/// Puts whether `a[i]` is less than `b[i]` at each place `i` of `out`.
pub fn lt_i8(a: &[i8], b: &[i8], out: &mut [bool])
    requires left { length a.now ≡ length out.old }
    requires right { length b.now ≡ length out.old }
    ensures { Compares itself (compare Less) a.now b.now out.new }
{
    compared::<i8, IsLess>(a, b, out)
}

/// Puts whether `a[i]` is less than `b[i]` at each place `i` of `out`.
pub fn lt_i16(a: &[i16], b: &[i16], out: &mut [bool])
    requires left { length a.now ≡ length out.old }
    requires right { length b.now ≡ length out.old }
    ensures { Compares itself (compare Less) a.now b.now out.new }
{
    compared::<i16, IsLess>(a, b, out)
}

/// Puts whether `a[i]` is less than `b[i]` at each place `i` of `out`.
pub fn lt_i32(a: &[i32], b: &[i32], out: &mut [bool])
    requires left { length a.now ≡ length out.old }
    requires right { length b.now ≡ length out.old }
    ensures { Compares itself (compare Less) a.now b.now out.new }
{
    compared::<i32, IsLess>(a, b, out)
}

/// Puts whether `a[i]` is at most `b[i]` at each place `i` of `out`.
pub fn le_u8(a: &[u8], b: &[u8], out: &mut [bool])
    requires left { length a.now ≡ length out.old }
    requires right { length b.now ≡ length out.old }
    ensures { Compares pos (compare AtMost) a.now b.now out.new }
{
    compared::<u8, IsAtMost>(a, b, out)
}

/// Puts whether `a[i]` is at most `b[i]` at each place `i` of `out`.
pub fn le_u16(a: &[u16], b: &[u16], out: &mut [bool])
    requires left { length a.now ≡ length out.old }
    requires right { length b.now ≡ length out.old }
    ensures { Compares pos (compare AtMost) a.now b.now out.new }
{
    compared::<u16, IsAtMost>(a, b, out)
}

/// Puts whether `a[i]` is at most `b[i]` at each place `i` of `out`.
pub fn le_u32(a: &[u32], b: &[u32], out: &mut [bool])
    requires left { length a.now ≡ length out.old }
    requires right { length b.now ≡ length out.old }
    ensures { Compares pos (compare AtMost) a.now b.now out.new }
{
    compared::<u32, IsAtMost>(a, b, out)
}

/// Puts whether `a[i]` is at most `b[i]` at each place `i` of `out`.
pub fn le_i8(a: &[i8], b: &[i8], out: &mut [bool])
    requires left { length a.now ≡ length out.old }
    requires right { length b.now ≡ length out.old }
    ensures { Compares itself (compare AtMost) a.now b.now out.new }
{
    compared::<i8, IsAtMost>(a, b, out)
}

/// Puts whether `a[i]` is at most `b[i]` at each place `i` of `out`.
pub fn le_i16(a: &[i16], b: &[i16], out: &mut [bool])
    requires left { length a.now ≡ length out.old }
    requires right { length b.now ≡ length out.old }
    ensures { Compares itself (compare AtMost) a.now b.now out.new }
{
    compared::<i16, IsAtMost>(a, b, out)
}

/// Puts whether `a[i]` is at most `b[i]` at each place `i` of `out`.
pub fn le_i32(a: &[i32], b: &[i32], out: &mut [bool])
    requires left { length a.now ≡ length out.old }
    requires right { length b.now ≡ length out.old }
    ensures { Compares itself (compare AtMost) a.now b.now out.new }
{
    compared::<i32, IsAtMost>(a, b, out)
}

/// Puts whether `a[i]` is greater than `b[i]` at each place `i` of `out`.
pub fn gt_u8(a: &[u8], b: &[u8], out: &mut [bool])
    requires left { length a.now ≡ length out.old }
    requires right { length b.now ≡ length out.old }
    ensures { Compares pos (compare Greater) a.now b.now out.new }
{
    compared::<u8, IsGreater>(a, b, out)
}

/// Puts whether `a[i]` is greater than `b[i]` at each place `i` of `out`.
pub fn gt_u16(a: &[u16], b: &[u16], out: &mut [bool])
    requires left { length a.now ≡ length out.old }
    requires right { length b.now ≡ length out.old }
    ensures { Compares pos (compare Greater) a.now b.now out.new }
{
    compared::<u16, IsGreater>(a, b, out)
}

/// Puts whether `a[i]` is greater than `b[i]` at each place `i` of `out`.
pub fn gt_u32(a: &[u32], b: &[u32], out: &mut [bool])
    requires left { length a.now ≡ length out.old }
    requires right { length b.now ≡ length out.old }
    ensures { Compares pos (compare Greater) a.now b.now out.new }
{
    compared::<u32, IsGreater>(a, b, out)
}

/// Puts whether `a[i]` is greater than `b[i]` at each place `i` of `out`.
pub fn gt_i8(a: &[i8], b: &[i8], out: &mut [bool])
    requires left { length a.now ≡ length out.old }
    requires right { length b.now ≡ length out.old }
    ensures { Compares itself (compare Greater) a.now b.now out.new }
{
    compared::<i8, IsGreater>(a, b, out)
}

/// Puts whether `a[i]` is greater than `b[i]` at each place `i` of `out`.
pub fn gt_i16(a: &[i16], b: &[i16], out: &mut [bool])
    requires left { length a.now ≡ length out.old }
    requires right { length b.now ≡ length out.old }
    ensures { Compares itself (compare Greater) a.now b.now out.new }
{
    compared::<i16, IsGreater>(a, b, out)
}

/// Puts whether `a[i]` is greater than `b[i]` at each place `i` of `out`.
pub fn gt_i32(a: &[i32], b: &[i32], out: &mut [bool])
    requires left { length a.now ≡ length out.old }
    requires right { length b.now ≡ length out.old }
    ensures { Compares itself (compare Greater) a.now b.now out.new }
{
    compared::<i32, IsGreater>(a, b, out)
}

/// Puts whether `a[i]` is at least `b[i]` at each place `i` of `out`.
pub fn ge_u8(a: &[u8], b: &[u8], out: &mut [bool])
    requires left { length a.now ≡ length out.old }
    requires right { length b.now ≡ length out.old }
    ensures { Compares pos (compare AtLeast) a.now b.now out.new }
{
    compared::<u8, IsAtLeast>(a, b, out)
}

/// Puts whether `a[i]` is at least `b[i]` at each place `i` of `out`.
pub fn ge_u16(a: &[u16], b: &[u16], out: &mut [bool])
    requires left { length a.now ≡ length out.old }
    requires right { length b.now ≡ length out.old }
    ensures { Compares pos (compare AtLeast) a.now b.now out.new }
{
    compared::<u16, IsAtLeast>(a, b, out)
}

/// Puts whether `a[i]` is at least `b[i]` at each place `i` of `out`.
pub fn ge_u32(a: &[u32], b: &[u32], out: &mut [bool])
    requires left { length a.now ≡ length out.old }
    requires right { length b.now ≡ length out.old }
    ensures { Compares pos (compare AtLeast) a.now b.now out.new }
{
    compared::<u32, IsAtLeast>(a, b, out)
}

/// Puts whether `a[i]` is at least `b[i]` at each place `i` of `out`.
pub fn ge_i8(a: &[i8], b: &[i8], out: &mut [bool])
    requires left { length a.now ≡ length out.old }
    requires right { length b.now ≡ length out.old }
    ensures { Compares itself (compare AtLeast) a.now b.now out.new }
{
    compared::<i8, IsAtLeast>(a, b, out)
}

/// Puts whether `a[i]` is at least `b[i]` at each place `i` of `out`.
pub fn ge_i16(a: &[i16], b: &[i16], out: &mut [bool])
    requires left { length a.now ≡ length out.old }
    requires right { length b.now ≡ length out.old }
    ensures { Compares itself (compare AtLeast) a.now b.now out.new }
{
    compared::<i16, IsAtLeast>(a, b, out)
}

/// Puts whether `a[i]` is at least `b[i]` at each place `i` of `out`.
pub fn ge_i32(a: &[i32], b: &[i32], out: &mut [bool])
    requires left { length a.now ≡ length out.old }
    requires right { length b.now ≡ length out.old }
    ensures { Compares itself (compare AtLeast) a.now b.now out.new }
{
    compared::<i32, IsAtLeast>(a, b, out)
}

/// Puts whether `a[i]` is equal to `b[i]` at each place `i` of `out`.
pub fn eq_u8(a: &[u8], b: &[u8], out: &mut [bool])
    requires left { length a.now ≡ length out.old }
    requires right { length b.now ≡ length out.old }
    ensures { Compares pos (compare Equal) a.now b.now out.new }
{
    compared::<u8, IsEqual>(a, b, out)
}

/// Puts whether `a[i]` is equal to `b[i]` at each place `i` of `out`.
pub fn eq_u16(a: &[u16], b: &[u16], out: &mut [bool])
    requires left { length a.now ≡ length out.old }
    requires right { length b.now ≡ length out.old }
    ensures { Compares pos (compare Equal) a.now b.now out.new }
{
    compared::<u16, IsEqual>(a, b, out)
}

/// Puts whether `a[i]` is equal to `b[i]` at each place `i` of `out`.
pub fn eq_u32(a: &[u32], b: &[u32], out: &mut [bool])
    requires left { length a.now ≡ length out.old }
    requires right { length b.now ≡ length out.old }
    ensures { Compares pos (compare Equal) a.now b.now out.new }
{
    compared::<u32, IsEqual>(a, b, out)
}

/// Puts whether `a[i]` is equal to `b[i]` at each place `i` of `out`.
pub fn eq_i8(a: &[i8], b: &[i8], out: &mut [bool])
    requires left { length a.now ≡ length out.old }
    requires right { length b.now ≡ length out.old }
    ensures { Compares itself (compare Equal) a.now b.now out.new }
{
    compared::<i8, IsEqual>(a, b, out)
}

/// Puts whether `a[i]` is equal to `b[i]` at each place `i` of `out`.
pub fn eq_i16(a: &[i16], b: &[i16], out: &mut [bool])
    requires left { length a.now ≡ length out.old }
    requires right { length b.now ≡ length out.old }
    ensures { Compares itself (compare Equal) a.now b.now out.new }
{
    compared::<i16, IsEqual>(a, b, out)
}

/// Puts whether `a[i]` is equal to `b[i]` at each place `i` of `out`.
pub fn eq_i32(a: &[i32], b: &[i32], out: &mut [bool])
    requires left { length a.now ≡ length out.old }
    requires right { length b.now ≡ length out.old }
    ensures { Compares itself (compare Equal) a.now b.now out.new }
{
    compared::<i32, IsEqual>(a, b, out)
}

/// Puts whether `a[i]` is different from `b[i]` at each place `i` of `out`.
pub fn ne_u8(a: &[u8], b: &[u8], out: &mut [bool])
    requires left { length a.now ≡ length out.old }
    requires right { length b.now ≡ length out.old }
    ensures { Compares pos (compare Different) a.now b.now out.new }
{
    compared::<u8, IsDifferent>(a, b, out)
}

/// Puts whether `a[i]` is different from `b[i]` at each place `i` of `out`.
pub fn ne_u16(a: &[u16], b: &[u16], out: &mut [bool])
    requires left { length a.now ≡ length out.old }
    requires right { length b.now ≡ length out.old }
    ensures { Compares pos (compare Different) a.now b.now out.new }
{
    compared::<u16, IsDifferent>(a, b, out)
}

/// Puts whether `a[i]` is different from `b[i]` at each place `i` of `out`.
pub fn ne_u32(a: &[u32], b: &[u32], out: &mut [bool])
    requires left { length a.now ≡ length out.old }
    requires right { length b.now ≡ length out.old }
    ensures { Compares pos (compare Different) a.now b.now out.new }
{
    compared::<u32, IsDifferent>(a, b, out)
}

/// Puts whether `a[i]` is different from `b[i]` at each place `i` of `out`.
pub fn ne_i8(a: &[i8], b: &[i8], out: &mut [bool])
    requires left { length a.now ≡ length out.old }
    requires right { length b.now ≡ length out.old }
    ensures { Compares itself (compare Different) a.now b.now out.new }
{
    compared::<i8, IsDifferent>(a, b, out)
}

/// Puts whether `a[i]` is different from `b[i]` at each place `i` of `out`.
pub fn ne_i16(a: &[i16], b: &[i16], out: &mut [bool])
    requires left { length a.now ≡ length out.old }
    requires right { length b.now ≡ length out.old }
    ensures { Compares itself (compare Different) a.now b.now out.new }
{
    compared::<i16, IsDifferent>(a, b, out)
}

/// Puts whether `a[i]` is different from `b[i]` at each place `i` of `out`.
pub fn ne_i32(a: &[i32], b: &[i32], out: &mut [bool])
    requires left { length a.now ≡ length out.old }
    requires right { length b.now ≡ length out.old }
    ensures { Compares itself (compare Different) a.now b.now out.new }
{
    compared::<i32, IsDifferent>(a, b, out)
}
