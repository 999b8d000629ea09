//! The types of values as types of the code. Generic code is compiled once a type, so each of them has loops of its own.

ghost use Rattle.std.specs.Prelude.{◌≡◌, ◌^◌, pos};
ghost use Rattle.std.specs.Int.{int_rem_euclid};
ghost use Rattle.numeric.specs.declared.ty.Ty.{Ty as TyFound};
ghost use Rattle.numeric.specs.declared.ty.Ty.TheVariants.{U8, U16, U32, I8, I16, I32};
ghost use Rattle.numeric.specs.Wrap.{wrap};

use numeric::Ty;

/// A type of values.
pub(crate) trait Width {
    ghost ty: { TyFound };

    /// The type itself.
    fn kind() -> Ty
        ensures { result ≡ ty };

    /// A number wrapped to the type.
    fn wrapped(number: i64) -> i64
        ensures { result ≡ wrap ty number };
}

/// Numbers of 8 bits without a sign.
pub(crate) struct Unsigned8;

/// Numbers of 16 bits without a sign.
pub(crate) struct Unsigned16;

/// Numbers of 32 bits without a sign.
pub(crate) struct Unsigned32;

/// Numbers of 8 bits with a sign.
pub(crate) struct Signed8;

/// Numbers of 16 bits with a sign.
pub(crate) struct Signed16;

/// Numbers of 32 bits with a sign.
pub(crate) struct Signed32;

/// The lowest 8 bits of a number, in two's complement.
fn residue_8(number: i64) -> i64
    ensures { result ≡ int_rem_euclid number (pos (2 ^ 8)) }
{
    (number.cast_unsigned() & 0xff) as i64
}

/// The lowest 16 bits of a number, in two's complement.
fn residue_16(number: i64) -> i64
    ensures { result ≡ int_rem_euclid number (pos (2 ^ 16)) }
{
    (number.cast_unsigned() & 0xffff) as i64
}

/// The lowest 32 bits of a number, in two's complement.
fn residue_32(number: i64) -> i64
    ensures { result ≡ int_rem_euclid number (pos (2 ^ 32)) }
{
    (number.cast_unsigned() & 0xffff_ffff) as i64
}

impl Width for Unsigned8 {
    ghost ty = { U8 };

    fn kind() -> Ty {
        Ty::U8
    }

    fn wrapped(number: i64) -> i64 {
        residue_8(number)
    }
}

impl Width for Unsigned16 {
    ghost ty = { U16 };

    fn kind() -> Ty {
        Ty::U16
    }

    fn wrapped(number: i64) -> i64 {
        residue_16(number)
    }
}

impl Width for Unsigned32 {
    ghost ty = { U32 };

    fn kind() -> Ty {
        Ty::U32
    }

    fn wrapped(number: i64) -> i64 {
        residue_32(number)
    }
}

impl Width for Signed8 {
    ghost ty = { I8 };

    fn kind() -> Ty {
        Ty::I8
    }

    fn wrapped(number: i64) -> i64 {
        residue_8(residue_8(number) + 128) - 128
    }
}

impl Width for Signed16 {
    ghost ty = { I16 };

    fn kind() -> Ty {
        Ty::I16
    }

    fn wrapped(number: i64) -> i64 {
        residue_16(residue_16(number) + 32_768) - 32_768
    }
}

impl Width for Signed32 {
    ghost ty = { I32 };

    fn kind() -> Ty {
        Ty::I32
    }

    fn wrapped(number: i64) -> i64 {
        residue_32(residue_32(number) + 2_147_483_648) - 2_147_483_648
    }
}
