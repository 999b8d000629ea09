//! Reads at many indices at once.

ghost use Rattle.std.specs.Prelude.{◌≡◌, length};
ghost use Rattle.lanes.specs.Masks.Places.{AreWithin, Gathers};

// Reads at each place.
fn gathered<T: Copy>(source: &[T], at: &[u32], out: &mut [T])
    requires long { length at.now ≡ length out.old }
    requires inside { AreWithin at.now (length source.now) }
    ensures { Gathers source.now at.now out.new }
{
    for i in 0..out.len() {
        out[i] = source[at[i] as usize];
    }
}

/// Puts `source[at[i]]` at each place `i` of `out`. Each index lies inside the source.
pub fn gather_u8(source: &[u8], at: &[u32], out: &mut [u8])
    requires long { length at.now ≡ length out.old }
    requires inside { AreWithin at.now (length source.now) }
    ensures { Gathers source.now at.now out.new }
{
    gathered(source, at, out)
}

/// Puts `source[at[i]]` at each place `i` of `out`. Each index lies inside the source.
pub fn gather_u16(source: &[u16], at: &[u32], out: &mut [u16])
    requires long { length at.now ≡ length out.old }
    requires inside { AreWithin at.now (length source.now) }
    ensures { Gathers source.now at.now out.new }
{
    gathered(source, at, out)
}

/// Puts `source[at[i]]` at each place `i` of `out`. Each index lies inside the source.
pub fn gather_u32(source: &[u32], at: &[u32], out: &mut [u32])
    requires long { length at.now ≡ length out.old }
    requires inside { AreWithin at.now (length source.now) }
    ensures { Gathers source.now at.now out.new }
{
    gathered(source, at, out)
}

/// Puts `source[at[i]]` at each place `i` of `out`. Each index lies inside the source.
pub fn gather_i8(source: &[i8], at: &[u32], out: &mut [i8])
    requires long { length at.now ≡ length out.old }
    requires inside { AreWithin at.now (length source.now) }
    ensures { Gathers source.now at.now out.new }
{
    gathered(source, at, out)
}

/// Puts `source[at[i]]` at each place `i` of `out`. Each index lies inside the source.
pub fn gather_i16(source: &[i16], at: &[u32], out: &mut [i16])
    requires long { length at.now ≡ length out.old }
    requires inside { AreWithin at.now (length source.now) }
    ensures { Gathers source.now at.now out.new }
{
    gathered(source, at, out)
}

/// Puts `source[at[i]]` at each place `i` of `out`. Each index lies inside the source.
pub fn gather_i32(source: &[i32], at: &[u32], out: &mut [i32])
    requires long { length at.now ≡ length out.old }
    requires inside { AreWithin at.now (length source.now) }
    ensures { Gathers source.now at.now out.new }
{
    gathered(source, at, out)
}
