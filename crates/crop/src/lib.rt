//! The algorithm of a tile: an algorithm cut to a rectangle of its output, whose picture is that rectangle of the picture.
#![tactic(auto)]

mod asking;
mod boxes;
mod callees;
mod closing;
mod compare;
pub mod cropping;
mod cut;
mod cutting;
pub mod error;
pub mod inference;
pub mod laws;
mod lookup;
mod moving;
mod narrow;
mod numbers;
mod piece;
mod plans;
mod rebuilding;
mod regions;
pub mod scene;
pub mod scene_error;
mod text;
pub mod tiling;

pub use cropping::{Rect, crop};
pub use cut::Stretch;
pub use error::CropError;
pub use scene::Scene;
pub use scene_error::SceneError;
