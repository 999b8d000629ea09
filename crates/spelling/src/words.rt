//! The words of plans and certificates as text: numbers, forms, spans, regions, names and types.
//!
//! Each value has one spelling. A reader takes some value from any text and never refuses; whether the text is the
//! value's own spelling is found by writing the value again.

mod bytes;
mod fitting;
pub mod laws;
mod numbers;
mod reading;
mod writing;

pub use bytes::{begins, skip};
pub use fitting::{fits_form, fits_forms, fits_region, fits_span, fits_symbol, is_name};
pub use numbers::{count_from, has_large_number, number_from, symbol_from};
pub use reading::{form_from, forms_from, name_from, region_from, span_from, type_from};
pub use writing::{
    put_count, put_form, put_forms, put_name, put_number, put_region, put_separator, put_span,
    put_symbol, put_type,
};
