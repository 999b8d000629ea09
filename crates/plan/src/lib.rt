//! Plans: how an algorithm is to be computed, piece by piece.
#![tactic(auto)]

pub mod certificate;
pub mod copying;
pub mod lines;
pub mod plan;
pub mod semantics;
pub mod stmt;

pub use copying::copy;
pub use plan::{Declaration, Group, Plan};
pub use stmt::{Coordinate, Index, Kind, Pick, Places, Stmt};
