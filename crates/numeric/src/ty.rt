//! The six types of values, and how a whole number becomes a value of one.

ghost use Rattle.std.specs.Prelude.{◌≡◌};
ghost use Rattle.numeric.specs.Wrap.{bits, modulus, greatest, least, IsOf, wrap as wrap_of};

/// A type of values. Its name says whether it has a sign, and how many bits it takes.
#[derive(Clone, Copy, Debug, PartialEq, Eq, Drop)]
pub enum Ty {
    U8,
    U16,
    U32,
    I8,
    I16,
    I32,
}

impl Ty {
    /// How many bits a value takes.
    pub fn bits(self) -> u32
        ensures { result ≡ bits self }
    {
        match self {
            Ty::U8 | Ty::I8 => 8,
            Ty::U16 | Ty::I16 => 16,
            Ty::U32 | Ty::I32 => 32,
        }
    }

    /// How many values the type has.
    pub fn modulus(self) -> i64
        ensures { result ≡ modulus self }
    {
        match self {
            Ty::U8 | Ty::I8 => 1 << 8,
            Ty::U16 | Ty::I16 => 1 << 16,
            Ty::U32 | Ty::I32 => 1 << 32,
        }
    }

    /// The least value.
    pub fn least(self) -> i64
        ensures { result ≡ least self }
    {
        match self {
            Ty::U8 | Ty::U16 | Ty::U32 => 0,
            Ty::I8 => -128,
            Ty::I16 => -32_768,
            Ty::I32 => -2_147_483_648,
        }
    }

    /// The greatest value.
    pub fn greatest(self) -> i64
        ensures { result ≡ greatest self }
    {
        match self {
            Ty::U8 => 255,
            Ty::U16 => 65_535,
            Ty::U32 => 4_294_967_295,
            Ty::I8 => 127,
            Ty::I16 => 32_767,
            Ty::I32 => 2_147_483_647,
        }
    }
}

/// The one value of the type that differs from the number by a multiple of 2 to the type's bits.
pub fn wrap(ty: Ty, number: i64) -> i64
    ensures value { result ≡ wrap_of ty number }
    ensures within { IsOf ty result }
{
    let modulus = ty.modulus();
    let residue = number.rem_euclid(modulus);
    if residue > ty.greatest() {
        residue - modulus
    } else {
        residue
    }
}

/// The value of another type as one of this type, wrapped.
pub fn cast(ty: Ty, value: i64) -> i64
    ensures value { result ≡ wrap_of ty value }
    ensures within { IsOf ty result }
{
    wrap(ty, value)
}
