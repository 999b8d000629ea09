//! Marks of places: whether a place is set, of which type its value is, and where the value's number stands.

ghost use Rattle.std.specs.Prelude.{◌≡◌};
ghost use Rattle.interpreter.specs.Buffers.Marks.{narrow_mark, wide_mark};

use numeric::Ty;

/// Whether a place is set, the type of its value, and whether the value's number stands in the place's word or, where it does not
/// fit the type, apart. It takes a byte.
#[derive(Clone, Copy, PartialEq, Eq, Drop)]
pub enum Mark {
    Unset,
    U8,
    U16,
    U32,
    I8,
    I16,
    I32,
    WideU8,
    WideU16,
    WideU32,
    WideI8,
    WideI16,
    WideI32,
}

/// The mark of a place that is set to a number that fits its type.
#[inline(always)]
pub(crate) fn narrow_mark(ty: Ty) -> Mark
    ensures { result ≡ narrow_mark ty }
{
    match ty {
        Ty::U8 => Mark::U8,
        Ty::U16 => Mark::U16,
        Ty::U32 => Mark::U32,
        Ty::I8 => Mark::I8,
        Ty::I16 => Mark::I16,
        Ty::I32 => Mark::I32,
    }
}

/// The mark of a place that is set to a number that does not fit its type.
pub(crate) fn wide_mark(ty: Ty) -> Mark
    ensures { result ≡ wide_mark ty }
{
    match ty {
        Ty::U8 => Mark::WideU8,
        Ty::U16 => Mark::WideU16,
        Ty::U32 => Mark::WideU32,
        Ty::I8 => Mark::WideI8,
        Ty::I16 => Mark::WideI16,
        Ty::I32 => Mark::WideI32,
    }
}

/// The type of the value of a place of the mark, if that is set and its number stands in the place's word.
pub(crate) fn narrow_type(mark: Mark) -> Option<Ty> {
    match mark {
        Mark::U8 => Some(Ty::U8),
        Mark::U16 => Some(Ty::U16),
        Mark::U32 => Some(Ty::U32),
        Mark::I8 => Some(Ty::I8),
        Mark::I16 => Some(Ty::I16),
        Mark::I32 => Some(Ty::I32),
        _ => None,
    }
}
