//! Workers that compute a checked plan on an input of its algorithm, in threads that share one board, or one sheet stage by stage.
#![tactic(auto)]

mod alone;
mod counts;
mod gate;
pub mod opening;
mod prepared;
mod running;
mod stages;
mod values;
mod worker;
mod workers;

/// Which board a run is at, and the values of its cells.
pub use alone::{PreparedAlone, picture};
pub use board::Run;
pub use gate::{Gate, Unwatched};
pub use prepared::Prepared;
pub use running::{RunError, run};
pub use values::{Desk, Pieces};
pub use worker::{try_piece, work};
