//! Schedules as data: the directives of Halide's schedules that this language has.

use tree::token::Name;

/// How the last block of a split loop is treated where the factor does not divide the loop's extent.
#[derive(Clone, Copy, PartialEq, Eq, Drop)]
pub enum Tail {
    /// Each point is tested.
    Guard,
    /// Points past the end are computed too, up to a whole multiple of the factor.
    Roundup,
    /// The last block is moved back so that it ends at the end.
    Shift,
}

/// A loop of a function, at which another function is computed or stored.
#[derive(Clone, Copy, Drop)]
pub struct Home {
    pub function: Name,
    pub turn: Name,
}

/// The dimension of a buffer that is folded, and to how many places.
#[derive(Clone, Copy, Drop)]
pub struct Fold {
    pub dimension: Name,
    pub factor: u32,
}

/// The loop `whole` becomes the loop `outer` outside the loop `inner`, which has `factor` turns.
#[derive(Clone, Copy, Drop)]
pub struct Split {
    pub whole: Name,
    pub outer: Name,
    pub inner: Name,
    pub factor: u32,
    pub tail: Tail,
}

/// The loops `x` and `y` are split, and both inner loops stand inside both outer ones.
#[derive(Clone, Copy, Drop)]
pub struct Tile {
    pub x: Name,
    pub y: Name,
    pub x_outer: Name,
    pub y_outer: Name,
    pub x_inner: Name,
    pub y_inner: Name,
    pub x_factor: u32,
    pub y_factor: u32,
    pub tail: Tail,
}

/// What is said of one function.
#[derive(Drop)]
pub enum Directive {
    /// It is computed wholly before the functions that use it.
    ComputeRoot,
    /// Each turn of the loop computes what it needs of it.
    ComputeAt(Home),
    /// Each turn of the loop has its own storage of it.
    StoreAt(Home),
    Fold(Fold),
    Split(Split),
    Tile(Tile),
    /// The loops, the innermost first, in the places that they now have.
    Reorder(Vec<Name>),
    Unroll(Name),
    Vectorize(Name),
    Parallel(Name),
}

/// A function's name and what is said of it, in the order of the text.
#[derive(Drop)]
pub struct Scheduled {
    pub function: Name,
    pub directives: Vec<Directive>,
}

/// A schedule: what its text says, in the order of the text.
#[derive(Drop)]
pub struct Sched {
    pub functions: Vec<Scheduled>,
}
