//! The names in the expressions of an algorithm: variables and calls at their places, and the
//! conditions on them.

pub mod calls;
pub mod keeping;
pub mod laws;
pub mod names;
pub mod ranges;
pub mod variables;

pub use calls::{CallPlace, CallTest, first_call};
pub use keeping::{HoldsPlace, first_misplaced, keeps_place};
pub use names::{Among, NotAmong, first_double, has_variable, is_among, is_variable, same_name};
pub use ranges::size_within;
pub use variables::{VariableTest, first_variable};
