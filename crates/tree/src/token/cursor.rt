//! Reading a list of tokens from its front. Whoever reads a text holds the tokens that are left as a slice.

ghost use Rattle.std.specs.Prelude.{◌≡◌, Some, None, MatchOption, IfSome, drop};
ghost use Rattle.tree.specs.Token.Cursor as spec;
ghost use Rattle.tree.specs.Token.Cursor.{kinds};

use crate::token::span::Span;
use crate::token::token::{Lexeme, Symbol, Token, Word};

/// The tokens after the symbol, if it comes first.
pub fn after(symbol: Symbol, tokens: &[Lexeme]) -> Option<&[Lexeme]>
    ensures kinds { MatchOption result (spec.after symbol (kinds tokens.now) ≡ None) (λ rest. spec.after symbol (kinds tokens.now) ≡ Some (kinds rest.now)) }
    ensures rest { IfSome result (λ rest. rest.now ≡ drop 1 tokens.now) }
{
    match tokens {
        [
            Lexeme {
                token: Token::Symbol(first),
                ..
            },
            rest @ ..,
        ] => { if *first == symbol { Some(rest) } else { None } }
        _ => None,
    }
}

/// The tokens after the word, if it comes first.
pub fn after_word(word: Word, tokens: &[Lexeme]) -> Option<&[Lexeme]>
    ensures kinds { MatchOption result (spec.after_word word (kinds tokens.now) ≡ None) (λ rest. spec.after_word word (kinds tokens.now) ≡ Some (kinds rest.now)) }
    ensures rest { IfSome result (λ rest. rest.now ≡ drop 1 tokens.now) }
{
    match tokens {
        [
            Lexeme {
                token: Token::Word(first),
                ..
            },
            rest @ ..,
        ] => { if *first == word { Some(rest) } else { None } }
        _ => None,
    }
}

/// Where the first of the tokens that are left stands, or the end of the text.
pub fn place(tokens: &[Lexeme], end: usize) -> Span
    ensures { result ≡ spec.place tokens.now end }
{
    match tokens {
        [first, ..] => first.span,
        [] => Span { start: end, end },
    }
}
