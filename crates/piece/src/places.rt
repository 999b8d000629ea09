//! Where the pieces of a plan stand: the group that a piece's number tells, and how many of its pieces come before it.

mod standing;

pub use standing::{Place, place_of};
