//! Negations, which wrap in two's complement: the least value of a type with a sign is its own.

ghost use Rattle.std.specs.Prelude.{◌≡◌, ℤ, length, pos, neg_ℤ};
ghost use Rattle.numeric.specs.declared.ty.Ty.TheVariants.{U8, U16, U32, I8, I16, I32};
ghost use Rattle.numeric.specs.Wrap.{wrap};
ghost use Rattle.lanes.specs.Applied.{Changes, negation, itself};

// A value with its negation.
trait Negated: Copy {
    // the number that a value is
    ghost value: { Self → ℤ };

    // what is done to the number
    ghost negated: { ℤ → ℤ };

    fn negated(self) -> Self
        ensures { value result ≡ negated (value self) };
}

impl Negated for u8 {
    ghost value = { pos };

    ghost negated = { negation U8 };

    fn negated(self) -> u8 {
        self.wrapping_neg()
    }
}

impl Negated for u16 {
    ghost value = { pos };

    ghost negated = { negation U16 };

    fn negated(self) -> u16 {
        self.wrapping_neg()
    }
}

impl Negated for u32 {
    ghost value = { pos };

    ghost negated = { negation U32 };

    fn negated(self) -> u32 {
        self.wrapping_neg()
    }
}

impl Negated for i8 {
    ghost value = { itself };

    ghost negated = { negation I8 };

    fn negated(self) -> i8 {
        self.wrapping_neg()
    }
}

impl Negated for i16 {
    ghost value = { itself };

    ghost negated = { negation I16 };

    fn negated(self) -> i16 {
        self.wrapping_neg()
    }
}

impl Negated for i32 {
    ghost value = { itself };

    ghost negated = { negation I32 };

    fn negated(self) -> i32 {
        self.wrapping_neg()
    }
}

fn map1<T: Negated>(a: &[T], out: &mut [T])
    requires { length a.now ≡ length out.old }
    ensures { Changes T.value T.negated a.now out.new }
{
    for i in 0..out.len() {
        out[i] = a[i].negated();
    }
}

/// Puts `-a[i]`, wrapped, at each place `i` of `out`.
pub fn neg_u8(a: &[u8], out: &mut [u8])
    requires { length a.now ≡ length out.old }
    ensures { Changes pos (negation U8) a.now out.new }
{
    map1(a, out)
}

/// Puts `-a[i]`, wrapped, at each place `i` of `out`.
pub fn neg_u16(a: &[u16], out: &mut [u16])
    requires { length a.now ≡ length out.old }
    ensures { Changes pos (negation U16) a.now out.new }
{
    map1(a, out)
}

/// Puts `-a[i]`, wrapped, at each place `i` of `out`.
pub fn neg_u32(a: &[u32], out: &mut [u32])
    requires { length a.now ≡ length out.old }
    ensures { Changes pos (negation U32) a.now out.new }
{
    map1(a, out)
}

/// Puts `-a[i]`, wrapped, at each place `i` of `out`.
pub fn neg_i8(a: &[i8], out: &mut [i8])
    requires { length a.now ≡ length out.old }
    ensures { Changes itself (negation I8) a.now out.new }
{
    map1(a, out)
}

/// Puts `-a[i]`, wrapped, at each place `i` of `out`.
pub fn neg_i16(a: &[i16], out: &mut [i16])
    requires { length a.now ≡ length out.old }
    ensures { Changes itself (negation I16) a.now out.new }
{
    map1(a, out)
}

/// Puts `-a[i]`, wrapped, at each place `i` of `out`.
pub fn neg_i32(a: &[i32], out: &mut [i32])
    requires { length a.now ≡ length out.old }
    ensures { Changes itself (negation I32) a.now out.new }
{
    map1(a, out)
}
