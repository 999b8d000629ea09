//! The kernels of each type behind one trait, and the numbers that they are tried on.

ghost use Rattle.std.specs.Prelude.{◌≡◌, length};
ghost use Rattle.lanes.specs.Masks.Places.{AreWithin};

use lanes::masks;
use numeric::{Comparison, Op, Ty};

// A type with its kernels.
pub(crate) trait Kernels: Copy {
    const TYPE: Ty;

    // The number of a turn: one of eleven at both ends of the type, the least first, around 0 and where a narrower type ends.
    fn nth(turn: usize) -> Self;

    fn number(self) -> i64;

    fn operate(op: Op, a: &[Self], b: &[Self], out: &mut [Self])
        requires left { length a.now ≡ length out.old }
        requires right { length b.now ≡ length out.old };

    fn negate(a: &[Self], out: &mut [Self])
        requires { length a.now ≡ length out.old };

    fn compare(comparison: Comparison, a: &[Self], b: &[Self], out: &mut [bool])
        requires left { length a.now ≡ length out.old }
        requires right { length b.now ≡ length out.old };

    fn choose(mask: &[bool], yes: &[Self], no: &[Self], out: &mut [Self])
        requires tests { length mask.now ≡ length out.old }
        requires left { length yes.now ≡ length out.old }
        requires right { length no.now ≡ length out.old };

    fn gather(source: &[Self], at: &[u32], out: &mut [Self])
        requires long { length at.now ≡ length out.old }
        requires inside { AreWithin at.now (length source.now) };
}

impl Kernels for u8 {
    const TYPE: Ty = Ty::U8;

    fn nth(turn: usize) -> u8 {
        let numbers = [u8::MIN, u8::MAX, 1, 2, 3, 7, 100, 127, 128, 200, 254];
        numbers[turn % 11]
    }

    fn number(self) -> i64 {
        i64::from(self)
    }

    fn operate(op: Op, a: &[u8], b: &[u8], out: &mut [u8]) {
        match op {
            Op::Add => lanes::add_u8(a, b, out),
            Op::Sub => lanes::sub_u8(a, b, out),
            Op::Mul => lanes::mul_u8(a, b, out),
            Op::Div => lanes::div_u8(a, b, out),
            Op::Rem => lanes::rem_u8(a, b, out),
            Op::Min => lanes::min_u8(a, b, out),
            Op::Max => lanes::max_u8(a, b, out),
        }
    }

    fn negate(a: &[u8], out: &mut [u8]) {
        lanes::neg_u8(a, out)
    }

    fn compare(comparison: Comparison, a: &[u8], b: &[u8], out: &mut [bool]) {
        match comparison {
            Comparison::Less => masks::lt_u8(a, b, out),
            Comparison::AtMost => masks::le_u8(a, b, out),
            Comparison::Greater => masks::gt_u8(a, b, out),
            Comparison::AtLeast => masks::ge_u8(a, b, out),
            Comparison::Equal => masks::eq_u8(a, b, out),
            Comparison::Different => masks::ne_u8(a, b, out),
        }
    }

    fn choose(mask: &[bool], yes: &[u8], no: &[u8], out: &mut [u8]) {
        masks::select_u8(mask, yes, no, out)
    }

    fn gather(source: &[u8], at: &[u32], out: &mut [u8]) {
        masks::gather_u8(source, at, out)
    }
}

impl Kernels for u16 {
    const TYPE: Ty = Ty::U16;

    fn nth(turn: usize) -> u16 {
        let numbers = [
            u16::MIN,
            u16::MAX,
            1,
            2,
            7,
            255,
            256,
            257,
            32_767,
            32_768,
            65_534,
        ];
        numbers[turn % 11]
    }

    fn number(self) -> i64 {
        i64::from(self)
    }

    fn operate(op: Op, a: &[u16], b: &[u16], out: &mut [u16]) {
        match op {
            Op::Add => lanes::add_u16(a, b, out),
            Op::Sub => lanes::sub_u16(a, b, out),
            Op::Mul => lanes::mul_u16(a, b, out),
            Op::Div => lanes::div_u16(a, b, out),
            Op::Rem => lanes::rem_u16(a, b, out),
            Op::Min => lanes::min_u16(a, b, out),
            Op::Max => lanes::max_u16(a, b, out),
        }
    }

    fn negate(a: &[u16], out: &mut [u16]) {
        lanes::neg_u16(a, out)
    }

    fn compare(comparison: Comparison, a: &[u16], b: &[u16], out: &mut [bool]) {
        match comparison {
            Comparison::Less => masks::lt_u16(a, b, out),
            Comparison::AtMost => masks::le_u16(a, b, out),
            Comparison::Greater => masks::gt_u16(a, b, out),
            Comparison::AtLeast => masks::ge_u16(a, b, out),
            Comparison::Equal => masks::eq_u16(a, b, out),
            Comparison::Different => masks::ne_u16(a, b, out),
        }
    }

    fn choose(mask: &[bool], yes: &[u16], no: &[u16], out: &mut [u16]) {
        masks::select_u16(mask, yes, no, out)
    }

    fn gather(source: &[u16], at: &[u32], out: &mut [u16]) {
        masks::gather_u16(source, at, out)
    }
}

impl Kernels for u32 {
    const TYPE: Ty = Ty::U32;

    fn nth(turn: usize) -> u32 {
        let numbers = [
            u32::MIN,
            u32::MAX,
            1,
            2,
            7,
            65_535,
            65_536,
            65_537,
            2_147_483_647,
            2_147_483_648,
            4_294_967_294,
        ];
        numbers[turn % 11]
    }

    fn number(self) -> i64 {
        i64::from(self)
    }

    fn operate(op: Op, a: &[u32], b: &[u32], out: &mut [u32]) {
        match op {
            Op::Add => lanes::add_u32(a, b, out),
            Op::Sub => lanes::sub_u32(a, b, out),
            Op::Mul => lanes::mul_u32(a, b, out),
            Op::Div => lanes::div_u32(a, b, out),
            Op::Rem => lanes::rem_u32(a, b, out),
            Op::Min => lanes::min_u32(a, b, out),
            Op::Max => lanes::max_u32(a, b, out),
        }
    }

    fn negate(a: &[u32], out: &mut [u32]) {
        lanes::neg_u32(a, out)
    }

    fn compare(comparison: Comparison, a: &[u32], b: &[u32], out: &mut [bool]) {
        match comparison {
            Comparison::Less => masks::lt_u32(a, b, out),
            Comparison::AtMost => masks::le_u32(a, b, out),
            Comparison::Greater => masks::gt_u32(a, b, out),
            Comparison::AtLeast => masks::ge_u32(a, b, out),
            Comparison::Equal => masks::eq_u32(a, b, out),
            Comparison::Different => masks::ne_u32(a, b, out),
        }
    }

    fn choose(mask: &[bool], yes: &[u32], no: &[u32], out: &mut [u32]) {
        masks::select_u32(mask, yes, no, out)
    }

    fn gather(source: &[u32], at: &[u32], out: &mut [u32]) {
        masks::gather_u32(source, at, out)
    }
}

impl Kernels for i8 {
    const TYPE: Ty = Ty::I8;

    fn nth(turn: usize) -> i8 {
        let numbers = [i8::MIN, i8::MAX, 0, 1, -1, 2, -2, 7, -7, 100, -127];
        numbers[turn % 11]
    }

    fn number(self) -> i64 {
        i64::from(self)
    }

    fn operate(op: Op, a: &[i8], b: &[i8], out: &mut [i8]) {
        match op {
            Op::Add => lanes::add_i8(a, b, out),
            Op::Sub => lanes::sub_i8(a, b, out),
            Op::Mul => lanes::mul_i8(a, b, out),
            Op::Div => lanes::div_i8(a, b, out),
            Op::Rem => lanes::rem_i8(a, b, out),
            Op::Min => lanes::min_i8(a, b, out),
            Op::Max => lanes::max_i8(a, b, out),
        }
    }

    fn negate(a: &[i8], out: &mut [i8]) {
        lanes::neg_i8(a, out)
    }

    fn compare(comparison: Comparison, a: &[i8], b: &[i8], out: &mut [bool]) {
        match comparison {
            Comparison::Less => masks::lt_i8(a, b, out),
            Comparison::AtMost => masks::le_i8(a, b, out),
            Comparison::Greater => masks::gt_i8(a, b, out),
            Comparison::AtLeast => masks::ge_i8(a, b, out),
            Comparison::Equal => masks::eq_i8(a, b, out),
            Comparison::Different => masks::ne_i8(a, b, out),
        }
    }

    fn choose(mask: &[bool], yes: &[i8], no: &[i8], out: &mut [i8]) {
        masks::select_i8(mask, yes, no, out)
    }

    fn gather(source: &[i8], at: &[u32], out: &mut [i8]) {
        masks::gather_i8(source, at, out)
    }
}

impl Kernels for i16 {
    const TYPE: Ty = Ty::I16;

    fn nth(turn: usize) -> i16 {
        let numbers = [i16::MIN, i16::MAX, 0, 1, -1, 2, -2, 7, -7, 256, -32_767];
        numbers[turn % 11]
    }

    fn number(self) -> i64 {
        i64::from(self)
    }

    fn operate(op: Op, a: &[i16], b: &[i16], out: &mut [i16]) {
        match op {
            Op::Add => lanes::add_i16(a, b, out),
            Op::Sub => lanes::sub_i16(a, b, out),
            Op::Mul => lanes::mul_i16(a, b, out),
            Op::Div => lanes::div_i16(a, b, out),
            Op::Rem => lanes::rem_i16(a, b, out),
            Op::Min => lanes::min_i16(a, b, out),
            Op::Max => lanes::max_i16(a, b, out),
        }
    }

    fn negate(a: &[i16], out: &mut [i16]) {
        lanes::neg_i16(a, out)
    }

    fn compare(comparison: Comparison, a: &[i16], b: &[i16], out: &mut [bool]) {
        match comparison {
            Comparison::Less => masks::lt_i16(a, b, out),
            Comparison::AtMost => masks::le_i16(a, b, out),
            Comparison::Greater => masks::gt_i16(a, b, out),
            Comparison::AtLeast => masks::ge_i16(a, b, out),
            Comparison::Equal => masks::eq_i16(a, b, out),
            Comparison::Different => masks::ne_i16(a, b, out),
        }
    }

    fn choose(mask: &[bool], yes: &[i16], no: &[i16], out: &mut [i16]) {
        masks::select_i16(mask, yes, no, out)
    }

    fn gather(source: &[i16], at: &[u32], out: &mut [i16]) {
        masks::gather_i16(source, at, out)
    }
}

impl Kernels for i32 {
    const TYPE: Ty = Ty::I32;

    fn nth(turn: usize) -> i32 {
        let numbers = [
            i32::MIN,
            i32::MAX,
            0,
            1,
            -1,
            2,
            -2,
            7,
            -7,
            65_536,
            -2_147_483_647,
        ];
        numbers[turn % 11]
    }

    fn number(self) -> i64 {
        i64::from(self)
    }

    fn operate(op: Op, a: &[i32], b: &[i32], out: &mut [i32]) {
        match op {
            Op::Add => lanes::add_i32(a, b, out),
            Op::Sub => lanes::sub_i32(a, b, out),
            Op::Mul => lanes::mul_i32(a, b, out),
            Op::Div => lanes::div_i32(a, b, out),
            Op::Rem => lanes::rem_i32(a, b, out),
            Op::Min => lanes::min_i32(a, b, out),
            Op::Max => lanes::max_i32(a, b, out),
        }
    }

    fn negate(a: &[i32], out: &mut [i32]) {
        lanes::neg_i32(a, out)
    }

    fn compare(comparison: Comparison, a: &[i32], b: &[i32], out: &mut [bool]) {
        match comparison {
            Comparison::Less => masks::lt_i32(a, b, out),
            Comparison::AtMost => masks::le_i32(a, b, out),
            Comparison::Greater => masks::gt_i32(a, b, out),
            Comparison::AtLeast => masks::ge_i32(a, b, out),
            Comparison::Equal => masks::eq_i32(a, b, out),
            Comparison::Different => masks::ne_i32(a, b, out),
        }
    }

    fn choose(mask: &[bool], yes: &[i32], no: &[i32], out: &mut [i32]) {
        masks::select_i32(mask, yes, no, out)
    }

    fn gather(source: &[i32], at: &[u32], out: &mut [i32]) {
        masks::gather_i32(source, at, out)
    }
}
