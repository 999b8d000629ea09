//! Where places stand.

/// Where a place stands: the position of its buffer among all, and its number in the buffer.
#[derive(Clone, Copy, Drop)]
pub(crate) struct Spot {
    pub buffer: usize,
    pub place: usize,
}
