//! The value of an expression where a call may find nothing.

mod byte_kernels;
mod evaluation;
mod indices;
mod kernels;
mod lanes;
mod lent_calls;
mod lent_firsts;
mod lent_operands;
mod lent_pairs;
mod lent_row;
mod lent_seconds;
mod lent_triples;
mod looking;
mod multiples;
mod operations;
mod operators;
mod pair_kernels;
mod powers;
mod quotients;
mod reader;
mod repeats;
mod residue_kernels;
mod run;
mod run_reader;
mod small_kernels;
mod small_orders;
mod small_widths;
mod stop;
mod triple_kernels;
mod usual_calls;
mod usual_indices;
mod whole;
mod widths;
mod words;

pub use evaluation::evaluate;
pub use indices::indices_after;
pub(crate) use kernels::{
    applied_number, clamped_number, copy_each, fill, fill_rising, fill_steps, narrow_words,
    step_words,
};
pub use lanes::{ClampedRamp, Lanes, Number};
pub use lent_row::{LentNumbers, LentRow};
pub(crate) use looking::number_after;
pub(crate) use operations::{
    Difference, Larger, Operator, Product, Quotient, Remainder, Smaller, Sum,
};
pub(crate) use operators::{applied, low_bits, wrapped_number};
pub use reader::Reader;
pub use run::{evaluate_numbers, evaluate_run};
pub use run_reader::RunReader;
pub use stop::Stop;
pub(crate) use whole::{cast_words, type_lent};
pub(crate) use widths::{Signed8, Signed16, Signed32, Unsigned8, Unsigned16, Unsigned32, Width};
pub(crate) use words::{low_word, typed_number, word_number};
