//! The lines of a plan's text, and the blocks that they open and close.

mod blocks;
mod count;
mod draft;
pub mod line;
pub mod stage;

pub use count::Count;
pub use draft::Draft;
pub use line::Line;
pub use stage::Stage;
