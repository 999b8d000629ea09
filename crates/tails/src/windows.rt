//! Windows: rows that a buffer holds along a loop, and claims that are made along them.

mod folded;
mod held;
mod holding;
mod inner;
pub mod laws;
pub mod nests;
mod rows;
mod slid;
mod window;
pub mod worked;

pub use window::Window;
