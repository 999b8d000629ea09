//! One evaluation under way: a definition of a function at a point, and the answers to its calls so far.

use crate::scope::{Answer, Binding};
use crate::sites::Site;

/// What of a definition is under way. Updates and reduction points are counted from 0.
#[derive(Clone, Copy, Drop)]
pub(crate) enum Stage {
    /// The pure definition.
    Pure,
    /// An update before its first point: the definition before it follows.
    Before { update: usize },
    /// The left side of an update at a reduction point.
    Left { update: usize, point: u64 },
    /// The right side, where the left side is the frame's point.
    Right { update: usize, point: u64 },
}

/// A value that is asked for: of a function at a point, after the first `points` points of the last of its first `updates` updates.
#[derive(Drop)]
pub(crate) struct Goal {
    pub function: usize,
    pub updates: usize,
    pub points: u64,
    pub at: Vec<i64>,
}

/// An evaluation under way.
#[derive(Drop)]
pub(crate) struct Frame<'a> {
    pub function: usize,
    pub stage: Stage,
    /// The point at which the function's value is wanted.
    pub at: Vec<i64>,
    /// What the variables stand for, reduction variables last.
    pub bindings: Vec<Binding<'a>>,
    /// The calls of functions that stand in the stage's expressions.
    pub calls: Vec<Site<'a>>,
    /// The answers to the first of these calls.
    pub answers: Vec<Answer<'a>>,
}

/// What follows in an evaluation.
#[derive(Drop)]
pub(crate) enum Step {
    /// It has come to its value.
    Gives(i64),
    /// It waits for another value.
    Asks(Goal),
    /// It goes on as the same function's value after so many updates and points.
    Falls { updates: usize, points: u64 },
    /// It goes on with another stage of the same definition.
    Turns(Stage),
}
