//! Choices by a mask.

ghost use Rattle.std.specs.Prelude.{◌≡◌, length};
ghost use Rattle.lanes.specs.Masks.Places.{Selects};

// Chooses at each place.
fn chosen<T: Copy>(mask: &[bool], yes: &[T], no: &[T], out: &mut [T])
    requires tests { length mask.now ≡ length out.old }
    requires left { length yes.now ≡ length out.old }
    requires right { length no.now ≡ length out.old }
    ensures { Selects mask.now yes.now no.now out.new }
{
    for i in 0..out.len() {
        out[i] = if mask[i] { yes[i] } else { no[i] };
    }
}

/// Puts `yes[i]` where `mask[i]` holds, else `no[i]`, at each place `i` of `out`.
pub fn select_u8(mask: &[bool], yes: &[u8], no: &[u8], out: &mut [u8])
    requires tests { length mask.now ≡ length out.old }
    requires left { length yes.now ≡ length out.old }
    requires right { length no.now ≡ length out.old }
    ensures { Selects mask.now yes.now no.now out.new }
{
    chosen(mask, yes, no, out)
}

/// Puts `yes[i]` where `mask[i]` holds, else `no[i]`, at each place `i` of `out`.
pub fn select_u16(mask: &[bool], yes: &[u16], no: &[u16], out: &mut [u16])
    requires tests { length mask.now ≡ length out.old }
    requires left { length yes.now ≡ length out.old }
    requires right { length no.now ≡ length out.old }
    ensures { Selects mask.now yes.now no.now out.new }
{
    chosen(mask, yes, no, out)
}

/// Puts `yes[i]` where `mask[i]` holds, else `no[i]`, at each place `i` of `out`.
pub fn select_u32(mask: &[bool], yes: &[u32], no: &[u32], out: &mut [u32])
    requires tests { length mask.now ≡ length out.old }
    requires left { length yes.now ≡ length out.old }
    requires right { length no.now ≡ length out.old }
    ensures { Selects mask.now yes.now no.now out.new }
{
    chosen(mask, yes, no, out)
}

/// Puts `yes[i]` where `mask[i]` holds, else `no[i]`, at each place `i` of `out`.
pub fn select_i8(mask: &[bool], yes: &[i8], no: &[i8], out: &mut [i8])
    requires tests { length mask.now ≡ length out.old }
    requires left { length yes.now ≡ length out.old }
    requires right { length no.now ≡ length out.old }
    ensures { Selects mask.now yes.now no.now out.new }
{
    chosen(mask, yes, no, out)
}

/// Puts `yes[i]` where `mask[i]` holds, else `no[i]`, at each place `i` of `out`.
pub fn select_i16(mask: &[bool], yes: &[i16], no: &[i16], out: &mut [i16])
    requires tests { length mask.now ≡ length out.old }
    requires left { length yes.now ≡ length out.old }
    requires right { length no.now ≡ length out.old }
    ensures { Selects mask.now yes.now no.now out.new }
{
    chosen(mask, yes, no, out)
}

/// Puts `yes[i]` where `mask[i]` holds, else `no[i]`, at each place `i` of `out`.
pub fn select_i32(mask: &[bool], yes: &[i32], no: &[i32], out: &mut [i32])
    requires tests { length mask.now ≡ length out.old }
    requires left { length yes.now ≡ length out.old }
    requires right { length no.now ≡ length out.old }
    ensures { Selects mask.now yes.now no.now out.new }
{
    chosen(mask, yes, no, out)
}
