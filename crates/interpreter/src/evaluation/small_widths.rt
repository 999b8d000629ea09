//! The types of values whose numbers are of 32 bits with a sign, as types of the code.

ghost use Rattle.std.specs.Prelude.{◌≡◌, ◌^◌, pos};
ghost use Rattle.std.specs.Int.{int_rem_euclid};
ghost use Rattle.numeric.specs.declared.ty.Ty.{Ty as TyFound};
ghost use Rattle.numeric.specs.declared.ty.Ty.TheVariants.{U8, U16, I8, I16, I32};
ghost use Rattle.numeric.specs.Wrap.{wrap};

use crate::evaluation::widths::{Signed8, Signed16, Signed32, Unsigned8, Unsigned16};

/// A type of values whose numbers are of 32 bits with a sign.
pub(crate) trait SmallWidth {
    ghost ty: { TyFound };

    /// The number of the type that a word is. It is found in 32 bits alone, so that several are at once.
    fn small(word: u32) -> i32
        ensures { result ≡ wrap ty (pos word) };
}

/// The lowest 8 bits of a word.
#[inline(always)]
fn low_8(word: u32) -> u32
    ensures { pos result ≡ int_rem_euclid (pos word) (pos (2 ^ 8)) }
{
    word & 0xff
}

/// The lowest 16 bits of a word.
#[inline(always)]
fn low_16(word: u32) -> u32
    ensures { pos result ≡ int_rem_euclid (pos word) (pos (2 ^ 16)) }
{
    word & 0xffff
}

impl SmallWidth for Unsigned8 {
    ghost ty = { U8 };

    fn small(word: u32) -> i32 {
        low_8(word) as i32
    }
}

impl SmallWidth for Unsigned16 {
    ghost ty = { U16 };

    fn small(word: u32) -> i32 {
        low_16(word) as i32
    }
}

impl SmallWidth for Signed8 {
    ghost ty = { I8 };

    fn small(word: u32) -> i32 {
        low_8(low_8(word) + 128) as i32 - 128
    }
}

impl SmallWidth for Signed16 {
    ghost ty = { I16 };

    fn small(word: u32) -> i32 {
        low_16(low_16(word) + 32_768) as i32 - 32_768
    }
}

impl SmallWidth for Signed32 {
    ghost ty = { I32 };

    fn small(word: u32) -> i32 {
        word.cast_signed()
    }
}
