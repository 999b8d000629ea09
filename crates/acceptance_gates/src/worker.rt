//! A worker whose thread is the caller's own.

use board::BoardSeat;
use crew::Desk;

/// A worker: its seat at the board, and its desk.
#[derive(Drop)]
pub(crate) struct Worker<'a> {
    /// The seat that it draws from.
    pub(crate) seat: BoardSeat,
    /// Where it runs the pieces that it draws.
    pub(crate) desk: Desk<'a>,
}
