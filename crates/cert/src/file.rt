//! Plan files: a plan's text, and behind it the text of its certificate.

mod cut;
mod file;

pub use file::read;
