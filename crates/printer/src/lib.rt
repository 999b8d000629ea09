//! Algorithms as text: the canonical text of an algorithm, which is read as that algorithm and no other.
#![tactic(auto)]

pub mod error;
mod expressions;
pub mod laws;
mod statements;
mod text;
mod writing;

pub use error::WriteError;
pub use writing::write;
