//! What is known around a line of a group's lines: what decides obligations there, the binders, buffers, claims and nests that are
//! in force, what statements change of them, and where symbols stand.

mod changes;
mod facts;
mod judge;
mod known;
mod symbols;

pub use changes::{is_same, only_updates, only_writes};
pub use facts::Facts;
pub use judge::{Judge, Part, Said, are_within, have_room, said_by};
pub use known::{Buffer, Known, Nest, follows, is_member, nests_within, onwards};
pub use symbols::around_has;
