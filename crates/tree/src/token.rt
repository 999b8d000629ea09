//! The tokens of algorithm and schedule texts, with their places.

pub mod cursor;
pub mod error;
pub mod lexer;
pub mod name;
pub mod span;
pub mod spelling;
pub mod token;

pub use cursor::{after, after_word, place};
pub use error::TokenError;
pub use lexer::{MAX_TEXT, tokens};
pub use name::{MAX_NAME, Name};
pub use span::Span;
pub use spelling::type_text;
pub use token::{Lexeme, Literal, Symbol, Token, Word};
