//! Cells that the workers of one run share: which pieces are drawn, which are finished, and the value of each cell.
//!
//! The words of one table are a draw counter, a flag a piece and a word a cell. A worker has a seat, which carries what
//! the worker knows. No call waits, and none but `open` takes memory. A sheet has the cells of a run by one worker alone, who
//! shares them with nobody.
#![tactic(auto)]

mod board;
mod bytes;
mod cell_bits;
mod cells;
mod kept;
mod law;
mod putting;
mod read_off;
mod rows;
mod seat;
mod sheet;
mod showing;
mod shown;
mod source;
mod view;

pub use board::{Board, SeatError, Unfinished};
pub use cell_bits::CellBits;
pub use cells::SheetCells;
pub use law::{Law, Run};
pub use seat::{BoardSeat, Ticket};
pub use sheet::{ApartSheet, Sheet, keep_bits};
pub use source::{Planes, Source};
pub use view::View;
