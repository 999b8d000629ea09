//! The tests of nests: whether a statement makes its claim, and whether an update's nest does its steps in turn.

mod advancing;
mod at;
mod covering;
mod fetching;
mod filling;
mod folds;
mod lines;
mod matching;
mod plain;
mod ranges;
mod reduction;
mod seats;
mod sides;
mod symbols;
mod unknown;

pub use plain::PlainNests;
