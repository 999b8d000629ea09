//! What is cut of an algorithm.

/// The numbers from one to another, both included.
#[derive(Clone, Copy, PartialEq, Eq, Drop)]
pub struct Stretch {
    pub low: i32,
    pub high: i32,
}

/// What is kept of a function: the points that are asked for, a stretch a dimension, and the origin to which it is moved.
#[derive(Drop)]
pub(crate) struct Kept {
    pub region: Vec<Stretch>,
    pub origin: Vec<i32>,
}

/// What is kept of each function, in their order; the points of the input that are asked for, the part of it that is read,
/// and the rectangle of the output.
#[derive(Drop)]
pub(crate) struct Cut {
    pub kept: Vec<Option<Kept>>,
    pub asked: Vec<Stretch>,
    pub part: Vec<Stretch>,
    pub tile: Vec<Stretch>,
}
