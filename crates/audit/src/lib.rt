//! The checker of plans of any number of groups.
//!
//! `check` reads a plan and its certificate against an algorithm. Its yes is the promise that every order of steps of any
//! workers gives, on every input, the picture that the algorithm says.
#![tactic(auto)]

mod answer;
mod checking;
mod groups;
mod head;
mod leaving;
mod names;
mod output;
mod refusal;
mod shared;
pub mod verdict;

pub use checked_plan::Checked;
pub use checking::check;
pub use lin::{Forms, Lin, Region, Span1, Sym};
pub use plan::certificate::{Cert, Claim, Need, Own, Window};
pub use plan::{Coordinate, Declaration, Group, Index, Kind, Pick, Places, Plan, Stmt};
pub use refusal::CheckError;
pub use soundness::outline::refusals::K;
