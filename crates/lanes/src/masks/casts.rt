//! Casts, which wrap a value to another type: its low bits, read with that type's sign.

ghost use Rattle.std.specs.Prelude.{◌≡◌, length, pos};
ghost use Rattle.numeric.specs.declared.ty.Ty.TheVariants.{U8, U16, U32, I8, I16, I32};
ghost use Rattle.numeric.specs.Wrap.{wrap};
ghost use Rattle.lanes.specs.Masks.Places.{Casts, itself};

use crate::masks::lane::Lane;

// Casts at each place.
fn recast<T: Lane, U: Lane>(from: &[T], out: &mut [U])
    requires { length from.now ≡ length out.old }
    ensures { Casts T.value U.value U.wrapping from.now out.new }
{
    for i in 0..out.len() {
        out[i] = U::wrapped(from[i].number());
    }
}

/// Puts `from[i]`, wrapped to u16, at each place `i` of `out`.
pub fn cast_u8_u16(from: &[u8], out: &mut [u16])
    requires { length from.now ≡ length out.old }
    ensures { Casts pos pos (wrap U16) from.now out.new }
{
    recast(from, out)
}

/// Puts `from[i]`, wrapped to u32, at each place `i` of `out`.
pub fn cast_u8_u32(from: &[u8], out: &mut [u32])
    requires { length from.now ≡ length out.old }
    ensures { Casts pos pos (wrap U32) from.now out.new }
{
    recast(from, out)
}

/// Puts `from[i]`, wrapped to i8, at each place `i` of `out`.
pub fn cast_u8_i8(from: &[u8], out: &mut [i8])
    requires { length from.now ≡ length out.old }
    ensures { Casts pos itself (wrap I8) from.now out.new }
{
    recast(from, out)
}

/// Puts `from[i]`, wrapped to i16, at each place `i` of `out`.
pub fn cast_u8_i16(from: &[u8], out: &mut [i16])
    requires { length from.now ≡ length out.old }
    ensures { Casts pos itself (wrap I16) from.now out.new }
{
    recast(from, out)
}

/// Puts `from[i]`, wrapped to i32, at each place `i` of `out`.
pub fn cast_u8_i32(from: &[u8], out: &mut [i32])
    requires { length from.now ≡ length out.old }
    ensures { Casts pos itself (wrap I32) from.now out.new }
{
    recast(from, out)
}

/// Puts `from[i]`, wrapped to u8, at each place `i` of `out`.
pub fn cast_u16_u8(from: &[u16], out: &mut [u8])
    requires { length from.now ≡ length out.old }
    ensures { Casts pos pos (wrap U8) from.now out.new }
{
    recast(from, out)
}

/// Puts `from[i]`, wrapped to u32, at each place `i` of `out`.
pub fn cast_u16_u32(from: &[u16], out: &mut [u32])
    requires { length from.now ≡ length out.old }
    ensures { Casts pos pos (wrap U32) from.now out.new }
{
    recast(from, out)
}

/// Puts `from[i]`, wrapped to i8, at each place `i` of `out`.
pub fn cast_u16_i8(from: &[u16], out: &mut [i8])
    requires { length from.now ≡ length out.old }
    ensures { Casts pos itself (wrap I8) from.now out.new }
{
    recast(from, out)
}

/// Puts `from[i]`, wrapped to i16, at each place `i` of `out`.
pub fn cast_u16_i16(from: &[u16], out: &mut [i16])
    requires { length from.now ≡ length out.old }
    ensures { Casts pos itself (wrap I16) from.now out.new }
{
    recast(from, out)
}

/// Puts `from[i]`, wrapped to i32, at each place `i` of `out`.
pub fn cast_u16_i32(from: &[u16], out: &mut [i32])
    requires { length from.now ≡ length out.old }
    ensures { Casts pos itself (wrap I32) from.now out.new }
{
    recast(from, out)
}

/// Puts `from[i]`, wrapped to u8, at each place `i` of `out`.
pub fn cast_u32_u8(from: &[u32], out: &mut [u8])
    requires { length from.now ≡ length out.old }
    ensures { Casts pos pos (wrap U8) from.now out.new }
{
    recast(from, out)
}

/// Puts `from[i]`, wrapped to u16, at each place `i` of `out`.
pub fn cast_u32_u16(from: &[u32], out: &mut [u16])
    requires { length from.now ≡ length out.old }
    ensures { Casts pos pos (wrap U16) from.now out.new }
{
    recast(from, out)
}

/// Puts `from[i]`, wrapped to i8, at each place `i` of `out`.
pub fn cast_u32_i8(from: &[u32], out: &mut [i8])
    requires { length from.now ≡ length out.old }
    ensures { Casts pos itself (wrap I8) from.now out.new }
{
    recast(from, out)
}

/// Puts `from[i]`, wrapped to i16, at each place `i` of `out`.
pub fn cast_u32_i16(from: &[u32], out: &mut [i16])
    requires { length from.now ≡ length out.old }
    ensures { Casts pos itself (wrap I16) from.now out.new }
{
    recast(from, out)
}

/// Puts `from[i]`, wrapped to i32, at each place `i` of `out`.
pub fn cast_u32_i32(from: &[u32], out: &mut [i32])
    requires { length from.now ≡ length out.old }
    ensures { Casts pos itself (wrap I32) from.now out.new }
{
    recast(from, out)
}

/// Puts `from[i]`, wrapped to u8, at each place `i` of `out`.
pub fn cast_i8_u8(from: &[i8], out: &mut [u8])
    requires { length from.now ≡ length out.old }
    ensures { Casts itself pos (wrap U8) from.now out.new }
{
    recast(from, out)
}

/// Puts `from[i]`, wrapped to u16, at each place `i` of `out`.
pub fn cast_i8_u16(from: &[i8], out: &mut [u16])
    requires { length from.now ≡ length out.old }
    ensures { Casts itself pos (wrap U16) from.now out.new }
{
    recast(from, out)
}

/// Puts `from[i]`, wrapped to u32, at each place `i` of `out`.
pub fn cast_i8_u32(from: &[i8], out: &mut [u32])
    requires { length from.now ≡ length out.old }
    ensures { Casts itself pos (wrap U32) from.now out.new }
{
    recast(from, out)
}

/// Puts `from[i]`, wrapped to i16, at each place `i` of `out`.
pub fn cast_i8_i16(from: &[i8], out: &mut [i16])
    requires { length from.now ≡ length out.old }
    ensures { Casts itself itself (wrap I16) from.now out.new }
{
    recast(from, out)
}

/// Puts `from[i]`, wrapped to i32, at each place `i` of `out`.
pub fn cast_i8_i32(from: &[i8], out: &mut [i32])
    requires { length from.now ≡ length out.old }
    ensures { Casts itself itself (wrap I32) from.now out.new }
{
    recast(from, out)
}

/// Puts `from[i]`, wrapped to u8, at each place `i` of `out`.
pub fn cast_i16_u8(from: &[i16], out: &mut [u8])
    requires { length from.now ≡ length out.old }
    ensures { Casts itself pos (wrap U8) from.now out.new }
{
    recast(from, out)
}

/// Puts `from[i]`, wrapped to u16, at each place `i` of `out`.
pub fn cast_i16_u16(from: &[i16], out: &mut [u16])
    requires { length from.now ≡ length out.old }
    ensures { Casts itself pos (wrap U16) from.now out.new }
{
    recast(from, out)
}

/// Puts `from[i]`, wrapped to u32, at each place `i` of `out`.
pub fn cast_i16_u32(from: &[i16], out: &mut [u32])
    requires { length from.now ≡ length out.old }
    ensures { Casts itself pos (wrap U32) from.now out.new }
{
    recast(from, out)
}

/// Puts `from[i]`, wrapped to i8, at each place `i` of `out`.
pub fn cast_i16_i8(from: &[i16], out: &mut [i8])
    requires { length from.now ≡ length out.old }
    ensures { Casts itself itself (wrap I8) from.now out.new }
{
    recast(from, out)
}

/// Puts `from[i]`, wrapped to i32, at each place `i` of `out`.
pub fn cast_i16_i32(from: &[i16], out: &mut [i32])
    requires { length from.now ≡ length out.old }
    ensures { Casts itself itself (wrap I32) from.now out.new }
{
    recast(from, out)
}

/// Puts `from[i]`, wrapped to u8, at each place `i` of `out`.
pub fn cast_i32_u8(from: &[i32], out: &mut [u8])
    requires { length from.now ≡ length out.old }
    ensures { Casts itself pos (wrap U8) from.now out.new }
{
    recast(from, out)
}

/// Puts `from[i]`, wrapped to u16, at each place `i` of `out`.
pub fn cast_i32_u16(from: &[i32], out: &mut [u16])
    requires { length from.now ≡ length out.old }
    ensures { Casts itself pos (wrap U16) from.now out.new }
{
    recast(from, out)
}

/// Puts `from[i]`, wrapped to u32, at each place `i` of `out`.
pub fn cast_i32_u32(from: &[i32], out: &mut [u32])
    requires { length from.now ≡ length out.old }
    ensures { Casts itself pos (wrap U32) from.now out.new }
{
    recast(from, out)
}

/// Puts `from[i]`, wrapped to i8, at each place `i` of `out`.
pub fn cast_i32_i8(from: &[i32], out: &mut [i8])
    requires { length from.now ≡ length out.old }
    ensures { Casts itself itself (wrap I8) from.now out.new }
{
    recast(from, out)
}

/// Puts `from[i]`, wrapped to i16, at each place `i` of `out`.
pub fn cast_i32_i16(from: &[i32], out: &mut [i16])
    requires { length from.now ≡ length out.old }
    ensures { Casts itself itself (wrap I16) from.now out.new }
{
    recast(from, out)
}
