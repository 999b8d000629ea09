//! Numbers of a plan's text that may pass 32 bits: extents, counts of places, and numbers of lines, groups and definitions.
//!
//! A size is spelled as a count is. A reader takes some size from any text and never refuses; whether the text is the
//! size's own spelling is found by writing the size again.

mod fitting;
pub mod laws;
mod reading;
mod writing;

pub use fitting::{fits_size, fits_sizes};
pub use reading::{size_from, sizes_from};
pub use writing::{put_size, put_sizes};
