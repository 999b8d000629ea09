//! Whether stores' coordinates, and the symbols that other forms name, are shown to be small numbers, and marked loops short.

mod near;
mod short;
mod storing;
mod widths;

pub use widths::first_wide_line;
