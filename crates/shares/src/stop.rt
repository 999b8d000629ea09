//! Why the lists of a piece were not made.

ghost use Rattle.std.specs.Prelude.{◌≡◌};

use std::alloc::AllocError;

/// Why the lists of a piece were not made.
#[derive(Drop)]
pub(crate) enum Stop {
    /// A fetched point is no cell, or a needed grid point is no piece.
    Unserved,
    /// More cells are fetched or pieces needed than there is room for.
    Large,
    /// Want of memory.
    Memory,
}

impl From<AllocError> for Stop {
    ghost use Rattle.shares.specs.declared.stop.Stop.{Stop};

    ghost from_gives = { λ _ e. e ≡ Stop.Memory };

    fn from(_: AllocError) -> Self {
        Stop::Memory
    }
}
