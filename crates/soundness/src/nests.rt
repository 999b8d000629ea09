//! Nests of plain loops: whether one makes its claim, and whether an update's nest does its steps in turn.

pub mod laws;
pub mod worked;
