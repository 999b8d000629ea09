//! How many places a buffer may come to have.

/// The number of a buffer, and for how many places there is memory.
#[derive(Clone, Copy, PartialEq, Eq, Drop)]
pub struct Limit {
    pub buffer: u64,
    pub places: usize,
}
