//! Places in a text.

/// A range of bytes of a text: from `start` on, before `end`.
#[derive(Clone, Copy, Debug, PartialEq, Eq, Drop)]
pub struct Span {
    pub start: usize,
    pub end: usize,
}
