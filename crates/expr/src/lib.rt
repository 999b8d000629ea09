//! Expressions: from a text or its tokens to a tree.
#![tactic(auto)]

pub mod error;
pub mod laws;
mod measured;
pub mod parser;
pub mod reader;
pub mod statements;

pub use error::{ExprError, Refusal, Stop};
pub use measured::MAX_NODES;
pub use parser::{MAX_LEVELS, expression, whole};
pub use reader::read_expr;
pub use tree::token::{
    self, Lexeme, Literal, MAX_NAME, Name, Span, Symbol, Token, TokenError, Word, tokens,
};
pub use tree::{self, Cond, Env, Expr, Names, TypeError, Value, copy, eval, ty_of};
