//! Linear forms over symbols, what is known of the symbols, and what follows from it for all their values.
#![tactic(auto)]

mod form;
mod forms;
pub mod laws;
mod regions;
mod scope;
mod search;
mod span;
mod terms;

pub use form::{Lin, LinError, Multiple, Sym};
pub use forms::Forms;
pub use scope::{Binding, Scope};
pub use span::{Region, Span1};
