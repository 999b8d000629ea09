//! What a piece does, and its private run.

pub mod worked;
