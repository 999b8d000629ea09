//! What is asked of a `store` line's names and expression.

mod alike;
mod defined;
mod ground;
mod known;
mod lines;
mod small;
mod stored;

pub use defined::{Defined, definition_of, has_variables, stored_in, variable_count};
pub use ground::Ground;
pub(crate) use known::rest_of;
pub use known::{has_names, indices_are_known, is_known};
pub use lines::GroupLines;
pub use small::is_small;
pub use stored::{indices_are_small, is_defined};
