//! Expressions over whole numbers: the tree, its type, its value, its copy.
#![tactic(auto)]

pub mod copying;
pub mod evaluation;
pub mod expr;
pub mod laws;
pub mod names;
pub mod token;
pub mod typing;
pub mod value;

pub use copying::copy;
pub use evaluation::eval;
pub use expr::{Cond, Expr};
pub use names::{Env, Names};
pub use typing::{TypeError, ty_of};
pub use value::Value;
