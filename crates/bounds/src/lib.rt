//! Bounds of the values of expressions, as lists of linear forms.
#![tactic(auto)]

mod ends;
mod expression;
mod lists;
pub mod projection;
mod spans;

pub use ends::{Ends, constant_ends};
pub use expression::interval;
pub use lin::LinError as BoundsError;
pub use lists::{joined, sums, union};
pub use spans::{
    binary, choice, difference, exactly, fitted, kept_span, maximum, minimum, multiple, numbers,
    product, quotient, range, remainder, sum,
};
