//! The plain picture of an algorithm: each value by recursion over definitions, nothing remembered.
#![tactic(auto)]

mod callee;
mod error;
mod evaluation;
mod frame;
mod opening;
mod output;
mod picture;
mod reduction;
mod scope;
mod sites;
mod stepping;

pub use error::PlainError;
pub use evaluation::value;
pub use picture::image;
