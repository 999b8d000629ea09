//! Why a run stops.

/// Why a run stops.
#[derive(Clone, Copy, PartialEq, Eq, Drop)]
pub enum Stop {
    /// Something was read that is not there, or a place was written that a buffer does not have.
    Fault,
    /// More numbers were given than there is room for.
    Full,
}
