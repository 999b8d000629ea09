//! Kernels that apply an operator at each place of slices of one of the six whole-number types.
//!
//! What each leaves is the operator's definition in `numeric` on the numbers that the values are,
//! so a pipeline may compute many points at once and still mean what it says. Lengths must agree.
//! Nothing here takes memory, and no call refuses.
#![tactic(auto)]

mod differences;
pub mod masks;
mod maxima;
mod minima;
mod negation;
mod operator;
mod products;
mod quotients;
mod remainders;
mod sums;
mod vectors;

pub use differences::{sub_i8, sub_i16, sub_i32, sub_u8, sub_u16, sub_u32};
pub use maxima::{max_i8, max_i16, max_i32, max_u8, max_u16, max_u32};
pub use minima::{min_i8, min_i16, min_i32, min_u8, min_u16, min_u32};
pub use negation::{neg_i8, neg_i16, neg_i32, neg_u8, neg_u16, neg_u32};
pub use products::{mul_i8, mul_i16, mul_i32, mul_u8, mul_u16, mul_u32};
pub use quotients::{div_i8, div_i16, div_i32, div_u8, div_u16, div_u32};
pub use remainders::{rem_i8, rem_i16, rem_i32, rem_u8, rem_u16, rem_u32};
pub use sums::{add_i8, add_i16, add_i32, add_u8, add_u16, add_u32};
