//! Regions projected onto the symbols of outer loops: those of inner loops are eliminated by their bounds.

mod lets;
mod search;
mod spans;
mod unions;

pub use crate::BoundsError;
pub use lets::with_lets;
pub use spans::{project, project_span};
pub use unions::{united, with_region};
