//! How types, words and symbols are spelled.

ghost use Rattle.std.specs.Prelude.{◌≡◌, ◌≤◌, length, IfSome};
ghost use Rattle.tree.specs.Token.Spelling as spec;
ghost use Rattle.tree.specs.Token.Lexical as lexical;

use crate::token::token::{Symbol, Word};
use numeric::Ty;

const TYPES: [Ty; 6] = [Ty::U8, Ty::U16, Ty::U32, Ty::I8, Ty::I16, Ty::I32];

/// The name of a type.
pub fn type_text(ty: Ty) -> &'static str
    ensures { result.now ≡ spec.type_text ty }
{
    match ty {
        Ty::U8 => "u8",
        Ty::U16 => "u16",
        Ty::U32 => "u32",
        Ty::I8 => "i8",
        Ty::I16 => "i16",
        Ty::I32 => "i32",
    }
}

#[tactic(auto, unfolding(crate::specs::Token::Lexical::type_named))]
pub(crate) fn type_named(text: &[u8]) -> Option<Ty>
    ensures { result ≡ lexical.type_named text.now }
{
    TYPES
        .iter()
        .copied()
        .find(|ty| type_text(*ty).as_bytes() == text)
}

impl Word {
    const ALL: [Word; 13] = [
        Word::Pipeline,
        Word::Input,
        Word::Func,
        Word::Update,
        Word::Over,
        Word::Output,
        Word::Min,
        Word::Max,
        Word::Clamp,
        Word::Select,
        Word::Not,
        Word::All,
        Word::Any,
    ];

    /// How the word is written.
    pub fn text(self) -> &'static str
        ensures { result.now ≡ spec.word_text self }
    {
        match self {
            Word::Pipeline => "pipeline",
            Word::Input => "input",
            Word::Func => "func",
            Word::Update => "update",
            Word::Over => "over",
            Word::Output => "output",
            Word::Min => "min",
            Word::Max => "max",
            Word::Clamp => "clamp",
            Word::Select => "select",
            Word::Not => "not",
            Word::All => "all",
            Word::Any => "any",
        }
    }

    #[tactic(auto, unfolding(crate::specs::Token::Lexical::word_named))]
    pub(crate) fn named(text: &[u8]) -> Option<Word>
        ensures { result ≡ lexical.word_named text.now }
    {
        Word::ALL
            .iter()
            .copied()
            .find(|word| word.text().as_bytes() == text)
    }
}

impl Symbol {
    // The longer ones first.
    const ALL: [Symbol; 20] = [
        Symbol::DotDot,
        Symbol::EqualsEquals,
        Symbol::NotEquals,
        Symbol::LessEquals,
        Symbol::GreaterEquals,
        Symbol::Plus,
        Symbol::Minus,
        Symbol::Star,
        Symbol::Slash,
        Symbol::Percent,
        Symbol::LeftParen,
        Symbol::RightParen,
        Symbol::LeftBracket,
        Symbol::RightBracket,
        Symbol::Comma,
        Symbol::Semicolon,
        Symbol::Dot,
        Symbol::Equals,
        Symbol::Less,
        Symbol::Greater,
    ];

    /// How the symbol is written.
    pub fn text(self) -> &'static str
        ensures { result.now ≡ spec.symbol_text self }
    {
        match self {
            Symbol::DotDot => "..",
            Symbol::EqualsEquals => "==",
            Symbol::NotEquals => "!=",
            Symbol::LessEquals => "<=",
            Symbol::GreaterEquals => ">=",
            Symbol::Plus => "+",
            Symbol::Minus => "-",
            Symbol::Star => "*",
            Symbol::Slash => "/",
            Symbol::Percent => "%",
            Symbol::LeftParen => "(",
            Symbol::RightParen => ")",
            Symbol::LeftBracket => "[",
            Symbol::RightBracket => "]",
            Symbol::Comma => ",",
            Symbol::Semicolon => ";",
            Symbol::Dot => ".",
            Symbol::Equals => "=",
            Symbol::Less => "<",
            Symbol::Greater => ">",
        }
    }

    // The longest symbol at the front.
    #[tactic(auto, using(crate::proofs::Fronts::symbol_fits), unfolding(crate::specs::Token::Lexical::symbol_at))]
    pub(crate) fn at(bytes: &[u8]) -> Option<Symbol>
        ensures longest { result ≡ lexical.symbol_at bytes.now }
        ensures within { IfSome result (λ symbol. length (spec.symbol_text symbol) ≤ length bytes.now) }
    {
        Symbol::ALL
            .iter()
            .copied()
            .find(|symbol| bytes.starts_with(symbol.text().as_bytes()))
    }
}
