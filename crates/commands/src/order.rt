//! Texts of orders: which worker makes each step.

mod number;
mod order;

pub use order::{OrderError, read};
