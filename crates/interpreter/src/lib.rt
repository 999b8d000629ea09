//! The private run of a piece: its statements done one after another, on buffers of its own.
#![tactic(auto)]

pub mod buffers;
mod cells;
mod code;
mod coding;
mod columns;
pub mod evaluation;
mod forms;
mod given;
mod joining;
mod line_codes;
mod loads;
mod needs;
mod piece;
mod placing;
mod reading;
mod registers;
mod row;
mod row_visits;
mod run;
mod run_reading;
mod runs;
mod samples;
mod scanlines;
mod scratch;
mod shifting;
mod sizes;
mod state;
mod store;
mod symbols;
mod turns;
mod update_reading;
mod updates;
mod visits;

pub use cells::{CellRow, Cells, NumberKind};
pub use given::GivenBits;
pub use row::Row;
pub use run::run_piece_in;
pub use scratch::Scratch;
