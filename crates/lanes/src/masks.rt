//! Kernels over slices for conditions, choices, casts and reads by index, of the six whole-number
//! types.
//!
//! A mask is a slice of `bool`. What each kernel leaves is said place by place, by `numeric`'s
//! comparisons and wrapping on the numbers that the values are. Lengths must agree. Nothing here
//! takes memory, and no call refuses.

mod casts;
mod choices;
mod comparisons;
mod connectives;
mod gathering;
mod lane;

pub use casts::{
    cast_i8_i16, cast_i8_i32, cast_i8_u8, cast_i8_u16, cast_i8_u32, cast_i16_i8, cast_i16_i32,
    cast_i16_u8, cast_i16_u16, cast_i16_u32, cast_i32_i8, cast_i32_i16, cast_i32_u8, cast_i32_u16,
    cast_i32_u32, cast_u8_i8, cast_u8_i16, cast_u8_i32, cast_u8_u16, cast_u8_u32, cast_u16_i8,
    cast_u16_i16, cast_u16_i32, cast_u16_u8, cast_u16_u32, cast_u32_i8, cast_u32_i16, cast_u32_i32,
    cast_u32_u8, cast_u32_u16,
};
pub use choices::{select_i8, select_i16, select_i32, select_u8, select_u16, select_u32};
pub use comparisons::{
    eq_i8, eq_i16, eq_i32, eq_u8, eq_u16, eq_u32, ge_i8, ge_i16, ge_i32, ge_u8, ge_u16, ge_u32,
    gt_i8, gt_i16, gt_i32, gt_u8, gt_u16, gt_u32, le_i8, le_i16, le_i32, le_u8, le_u16, le_u32,
    lt_i8, lt_i16, lt_i32, lt_u8, lt_u16, lt_u32, ne_i8, ne_i16, ne_i32, ne_u8, ne_u16, ne_u32,
};
pub use connectives::{and, not, or};
pub use gathering::{gather_i8, gather_i16, gather_i32, gather_u8, gather_u16, gather_u32};
