//! From an algorithm's text and an image file to the picture, by a plan file or without any plan: what the program's commands
//! are made of.

mod by_plan;
mod fault;
mod image_file;
mod laws;
mod reading;
mod rule;
mod without_plan;

pub use crate::file::file_in;
pub use by_plan::{check_plan, plan_picture, run_between, run_over};
pub use fault::Fault;
pub use image_file::plan_file;
pub use reading::{read_algorithm, read_image};
pub use rule::BrokenRule;
pub use without_plan::{BUDGET, plain_picture};
/// What replays the steps of a checked plan.
pub use steps::{State, replay};
