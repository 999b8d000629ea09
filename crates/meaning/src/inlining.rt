//! Expressions with the calls of functions that are not stored put in.

pub mod laws;
