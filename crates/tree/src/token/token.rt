//! The tokens that algorithm and schedule texts are made of.

use crate::token::name::Name;
use crate::token::span::Span;
use numeric::Ty;

/// A word of the grammar, which is no name.
#[derive(Clone, Copy, PartialEq, Eq, Drop)]
pub enum Word {
    Pipeline,
    Input,
    Func,
    Update,
    Over,
    Output,
    Min,
    Max,
    Clamp,
    Select,
    Not,
    All,
    Any,
}

/// A sign of the grammar.
#[derive(Clone, Copy, PartialEq, Eq, Drop)]
pub enum Symbol {
    Plus,
    Minus,
    Star,
    Slash,
    Percent,
    LeftParen,
    RightParen,
    LeftBracket,
    RightBracket,
    Comma,
    Semicolon,
    Dot,
    DotDot,
    Equals,
    EqualsEquals,
    NotEquals,
    Less,
    LessEquals,
    Greater,
    GreaterEquals,
}

/// A number as it is written, with its type if that stands behind it. It is in its type, or in `i32` if it has none.
#[derive(Clone, Copy, Drop)]
pub struct Literal {
    pub value: u32,
    pub ty: Option<Ty>,
}

/// What a piece of a text is.
#[derive(Clone, Copy, Drop)]
pub enum Token {
    /// A word that is no type and no word of the grammar.
    Name(Name),
    /// Such a word, of more than 16 bytes.
    LongName,
    Number(Literal),
    Type(Ty),
    Word(Word),
    Symbol(Symbol),
}

/// A token, and where it stands in the text.
#[derive(Clone, Copy, Drop)]
pub struct Lexeme {
    pub token: Token,
    pub span: Span,
}
