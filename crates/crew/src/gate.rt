//! What watches the workers.

/// What the workers of a crew tell of their pieces, each from its own thread. It hears which pieces, and nothing of their
/// values.
pub trait Gate: Sync {
    /// A worker has come to this piece, and goes on with it once this returns.
    fn enter(&self, piece: u32);

    /// A worker has computed this piece, and goes on to its next once this returns.
    fn leave(&self, piece: u32);
}

/// A gate that lets all workers pass.
#[derive(Clone, Copy, Drop)]
pub struct Unwatched;

impl Gate for Unwatched {
    fn enter(&self, _piece: u32) {}

    fn leave(&self, _piece: u32) {}
}
