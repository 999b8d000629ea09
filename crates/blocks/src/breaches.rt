//! Which directive of a schedule's text breaks a rule, what is wrong with it, and the shortest change that mends it.

mod breach;
mod ends;
mod homes;
mod lists;
mod loops;
mod marks;
mod regions;
mod slips;
mod spots;
mod stores;
mod unknown;
mod uses;
mod words;

pub use breach::{Breach, find_breach, find_region_breach};
pub use words::unknown_word;
