//! The codes by which a checker of plans refuses, and where, and which of two flaws is told.

mod code;

pub use code::{Flaw, K, least, lesser};
