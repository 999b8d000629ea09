//! Shares: which cells each piece of a plan owns and fetches, and which pieces it needs.
//!
//! `shares_of` lists them for any plan of several groups, where the pieces part the cells among them and look only at
//! what they need, or tells what is wrong and at which line.
#![tactic(auto)]

mod across;
mod answer;
mod before;
mod blocks;
mod boxes;
mod corners;
mod counts;
mod early;
mod far;
mod fetched;
mod filed;
mod forms;
mod found;
mod gaps;
mod gathered;
mod grounds;
pub mod laws;
mod layout;
mod lets;
mod limits;
mod lists;
mod needed;
mod outer;
mod own;
mod owners;
mod repeated;
mod seats;
mod served;
mod spaces;
mod stands;
mod stop;
mod straight;
mod taken;
mod walked;

pub use answer::{Shares, SharesError, shares_of};
pub use before::flaw_before;
pub use early::fetch_flaw_before;
