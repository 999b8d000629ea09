//! Image files after Netpbm: PGM and PPM, raw (P5, P6) and plain (P2, P3).
#![tactic(auto)]

pub mod error;
mod header;
pub mod laws;
pub mod reader;
pub mod state;
mod stepping;
pub mod watched;
pub mod whole;
pub mod writer;

pub use error::PnmError;
pub use reader::{read, read_from};
pub use watched::{Sink, Source, Watched};
pub use whole::read_whole;
pub use writer::{write, write_to};
