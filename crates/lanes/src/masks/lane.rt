//! The values of a type as numbers.

ghost use Rattle.std.specs.Prelude.{◌≡◌, ℤ, pos};
ghost use Rattle.numeric.specs.declared.ty.Ty.TheVariants.{U8, U16, U32, I8, I16, I32};
ghost use Rattle.numeric.specs.Wrap.{wrap};
ghost use Rattle.lanes.specs.Masks.Places.{itself};

// A value of one of the six types.
pub(crate) trait Lane: Copy {
    // the number that it is
    ghost value: { Self → ℤ };

    // what a number wraps to
    ghost wrapping: { ℤ → ℤ };

    fn number(self) -> i64
        ensures { result ≡ value self };

    // The value that a number wraps to: its low bits.
    fn wrapped(number: i64) -> Self
        ensures { value result ≡ wrapping number };
}

impl Lane for u8 {
    ghost value = { pos };

    ghost wrapping = { wrap U8 };

    fn number(self) -> i64 {
        i64::from(self)
    }

    fn wrapped(number: i64) -> u8 {
        (number.cast_unsigned() & 0xff) as u8
    }
}

impl Lane for u16 {
    ghost value = { pos };

    ghost wrapping = { wrap U16 };

    fn number(self) -> i64 {
        i64::from(self)
    }

    fn wrapped(number: i64) -> u16 {
        (number.cast_unsigned() & 0xffff) as u16
    }
}

impl Lane for u32 {
    ghost value = { pos };

    ghost wrapping = { wrap U32 };

    fn number(self) -> i64 {
        i64::from(self)
    }

    fn wrapped(number: i64) -> u32 {
        (number.cast_unsigned() & 0xffff_ffff) as u32
    }
}

impl Lane for i8 {
    ghost value = { itself };

    ghost wrapping = { wrap I8 };

    fn number(self) -> i64 {
        i64::from(self)
    }

    fn wrapped(number: i64) -> i8 {
        ((number.cast_unsigned() & 0xff) as u8).cast_signed()
    }
}

impl Lane for i16 {
    ghost value = { itself };

    ghost wrapping = { wrap I16 };

    fn number(self) -> i64 {
        i64::from(self)
    }

    fn wrapped(number: i64) -> i16 {
        ((number.cast_unsigned() & 0xffff) as u16).cast_signed()
    }
}

impl Lane for i32 {
    ghost value = { itself };

    ghost wrapping = { wrap I32 };

    fn number(self) -> i64 {
        i64::from(self)
    }

    fn wrapped(number: i64) -> i32 {
        ((number.cast_unsigned() & 0xffff_ffff) as u32).cast_signed()
    }
}
