//! What is wrong with the lines of a plan's certificate: names that are unknown, limits that are passed, groups without an
//! own region.

mod claim_lines;
mod codes;
mod counted;
mod flaws;
mod groups;
pub mod laws;
mod need_lines;
mod own_lines;
mod placed;
mod placing;
mod spot;
mod window_lines;

pub use flaws::{first_flaw, first_region_flaw};
