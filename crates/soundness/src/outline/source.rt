//! What a name in a stored expression means.

/// What a name in a stored expression means.
#[derive(Clone, Copy, Drop)]
pub enum Source {
    /// The input.
    Input,
    /// What is loaded by the claim of this number.
    ByClaim(u64),
    /// Nothing.
    Unknown,
}
