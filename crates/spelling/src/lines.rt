//! Texts of lines, and why a text of lines is none.

pub mod error;
pub mod lines;

pub use error::TextError;
pub use lines::{is_within, split_line};
