//! Algorithms: what an algorithm text is read to, and the images that an algorithm takes.
#![tactic(auto)]

pub mod algorithm;
mod checks;
pub mod error;
mod file;
pub mod function;
pub mod inputs;
pub mod laws;
pub mod scoping;
mod statement;
mod update;

pub use algorithm::Algo;
pub use error::{AlgoError, Code};
pub use function::{Definition, Function, Port, Range, Update};
pub use inputs::{Inputs, InputsError};
