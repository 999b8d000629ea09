//! What is around a line of a plan, and the tests by bounds that are asked there.

mod binder;
mod bounds;
pub mod symbols;

pub use binder::Binder;
pub use bounds::{Bounds, NestTests};
