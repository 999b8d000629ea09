//! Stored expressions as text: the word of a plan's line that says what a place gets.
//!
//! Each expression has one spelling. The reader takes some expression from any text and never refuses; whether the text
//! is the expression's own spelling is found by writing the expression again.

mod fitting;
pub mod laws;
mod reading;
mod writing;

pub use fitting::{MAX_BRACKETS, fits_term, has_deep_brackets};
pub use reading::term_from;
pub use writing::put_term;
