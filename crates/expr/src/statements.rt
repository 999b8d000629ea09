//! Algorithm texts as statements: their form alone, no conditions.

pub mod error;
pub mod laws;
pub mod parser;
pub mod reader;
pub mod statement;

pub use error::{FormError, Refusal, Stop};
pub use reader::read;
pub use statement::{
    Bound, Domain, Extent, File, FunctionStatement, InputStatement, Named, OutputStatement,
    Statement, UpdateStatement,
};
