//! The casts from each type to each other behind one trait.

ghost use Rattle.std.specs.Prelude.{◌≡◌, length};

use crate::kernels::Kernels;
use lanes::masks;

// A type that is cast to another.
pub(crate) trait Casts<U: Kernels>: Kernels {
    fn cast(from: &[Self], out: &mut [U])
        requires { length from.now ≡ length out.old };
}

impl Casts<u16> for u8 {
    fn cast(from: &[u8], out: &mut [u16]) {
        masks::cast_u8_u16(from, out)
    }
}

impl Casts<u32> for u8 {
    fn cast(from: &[u8], out: &mut [u32]) {
        masks::cast_u8_u32(from, out)
    }
}

impl Casts<i8> for u8 {
    fn cast(from: &[u8], out: &mut [i8]) {
        masks::cast_u8_i8(from, out)
    }
}

impl Casts<i16> for u8 {
    fn cast(from: &[u8], out: &mut [i16]) {
        masks::cast_u8_i16(from, out)
    }
}

impl Casts<i32> for u8 {
    fn cast(from: &[u8], out: &mut [i32]) {
        masks::cast_u8_i32(from, out)
    }
}

impl Casts<u8> for u16 {
    fn cast(from: &[u16], out: &mut [u8]) {
        masks::cast_u16_u8(from, out)
    }
}

impl Casts<u32> for u16 {
    fn cast(from: &[u16], out: &mut [u32]) {
        masks::cast_u16_u32(from, out)
    }
}

impl Casts<i8> for u16 {
    fn cast(from: &[u16], out: &mut [i8]) {
        masks::cast_u16_i8(from, out)
    }
}

impl Casts<i16> for u16 {
    fn cast(from: &[u16], out: &mut [i16]) {
        masks::cast_u16_i16(from, out)
    }
}

impl Casts<i32> for u16 {
    fn cast(from: &[u16], out: &mut [i32]) {
        masks::cast_u16_i32(from, out)
    }
}

impl Casts<u8> for u32 {
    fn cast(from: &[u32], out: &mut [u8]) {
        masks::cast_u32_u8(from, out)
    }
}

impl Casts<u16> for u32 {
    fn cast(from: &[u32], out: &mut [u16]) {
        masks::cast_u32_u16(from, out)
    }
}

impl Casts<i8> for u32 {
    fn cast(from: &[u32], out: &mut [i8]) {
        masks::cast_u32_i8(from, out)
    }
}

impl Casts<i16> for u32 {
    fn cast(from: &[u32], out: &mut [i16]) {
        masks::cast_u32_i16(from, out)
    }
}

impl Casts<i32> for u32 {
    fn cast(from: &[u32], out: &mut [i32]) {
        masks::cast_u32_i32(from, out)
    }
}

impl Casts<u8> for i8 {
    fn cast(from: &[i8], out: &mut [u8]) {
        masks::cast_i8_u8(from, out)
    }
}

impl Casts<u16> for i8 {
    fn cast(from: &[i8], out: &mut [u16]) {
        masks::cast_i8_u16(from, out)
    }
}

impl Casts<u32> for i8 {
    fn cast(from: &[i8], out: &mut [u32]) {
        masks::cast_i8_u32(from, out)
    }
}

impl Casts<i16> for i8 {
    fn cast(from: &[i8], out: &mut [i16]) {
        masks::cast_i8_i16(from, out)
    }
}

impl Casts<i32> for i8 {
    fn cast(from: &[i8], out: &mut [i32]) {
        masks::cast_i8_i32(from, out)
    }
}

impl Casts<u8> for i16 {
    fn cast(from: &[i16], out: &mut [u8]) {
        masks::cast_i16_u8(from, out)
    }
}

impl Casts<u16> for i16 {
    fn cast(from: &[i16], out: &mut [u16]) {
        masks::cast_i16_u16(from, out)
    }
}

impl Casts<u32> for i16 {
    fn cast(from: &[i16], out: &mut [u32]) {
        masks::cast_i16_u32(from, out)
    }
}

impl Casts<i8> for i16 {
    fn cast(from: &[i16], out: &mut [i8]) {
        masks::cast_i16_i8(from, out)
    }
}

impl Casts<i32> for i16 {
    fn cast(from: &[i16], out: &mut [i32]) {
        masks::cast_i16_i32(from, out)
    }
}

impl Casts<u8> for i32 {
    fn cast(from: &[i32], out: &mut [u8]) {
        masks::cast_i32_u8(from, out)
    }
}

impl Casts<u16> for i32 {
    fn cast(from: &[i32], out: &mut [u16]) {
        masks::cast_i32_u16(from, out)
    }
}

impl Casts<u32> for i32 {
    fn cast(from: &[i32], out: &mut [u32]) {
        masks::cast_i32_u32(from, out)
    }
}

impl Casts<i8> for i32 {
    fn cast(from: &[i32], out: &mut [i8]) {
        masks::cast_i32_i8(from, out)
    }
}

impl Casts<i16> for i32 {
    fn cast(from: &[i32], out: &mut [i16]) {
        masks::cast_i32_i16(from, out)
    }
}
