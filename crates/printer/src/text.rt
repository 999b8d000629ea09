//! From tokens to their text.

ghost use Rattle.std.specs.Prelude.{◌≡◌, ◌++◌, false, OnOk, IfOk, string_bytes};
ghost use Rattle.tree.specs.Token.Spelling as spelled;
ghost use Rattle.printer.specs.Spacing as spec;

use numeric::Ty;
use spelling::words::{put_count, put_name, put_type};
use std::alloc::{AllocError, Global};
use tree::token::{Symbol, Token, Word};

fn put_suffix(text: &mut String, ty: Option<Ty>) -> Result<(), AllocError>
    ensures { OnOk result (string_bytes text.new ≡ string_bytes text.old ++ spelled.suffix_text ty) }
{
    match ty {
        None => Ok(()),
        Some(ty) => put_type(text, ty),
    }
}

fn put_token(text: &mut String, token: Token) -> Result<(), AllocError>
    ensures { OnOk result (string_bytes text.new ≡ string_bytes text.old ++ spec.token_text token) }
{
    match token {
        Token::Name(name) => put_name(text, name.as_str()),
        Token::LongName => Ok(()),
        Token::Number(number) => {
            put_count(text, number.value)?;
            put_suffix(text, number.ty)
        }
        Token::Type(ty) => put_type(text, ty),
        Token::Word(word) => text.push_str(word.text()),
        Token::Symbol(symbol) => text.push_str(symbol.text()),
    }
}

/// Whether an operand can end with the token.
fn ends_operand(token: Token) -> bool
    ensures { result ≡ spec.ends_operand token }
{
    match token {
        Token::Name(_) | Token::Number(_) => true,
        Token::Symbol(symbol) => matches!(symbol, Symbol::RightParen | Symbol::RightBracket),
        _ => false,
    }
}

/// What stands before a token behind a word or a bracket that closes.
fn gap_before(next: Token) -> &'static str
    ensures { result.now ≡ spec.gap_before next }
{
    match next {
        Token::Symbol(
            Symbol::LeftParen
            | Symbol::RightParen
            | Symbol::LeftBracket
            | Symbol::RightBracket
            | Symbol::Comma
            | Symbol::Semicolon
            | Symbol::DotDot,
        ) => "",
        _ => " ",
    }
}

/// The same behind a round bracket that closes.
fn gap_closed(next: Token) -> &'static str
    ensures { result.now ≡ spec.gap_closed next }
{
    match next {
        Token::Symbol(Symbol::LeftBracket) => " ",
        _ => gap_before(next),
    }
}

/// The same behind a type; where a name stands before it, it is that of a function.
fn gap_typed(operand: bool, next: Token) -> &'static str
    ensures { result.now ≡ spec.gap_typed operand next }
{
    match next {
        Token::Symbol(Symbol::LeftBracket) => " ",
        Token::Symbol(Symbol::LeftParen) => { if operand { " " } else { "" } }
        _ => gap_before(next),
    }
}

/// The same behind a word.
fn gap_worded(word: Word, next: Token) -> &'static str
    ensures { result.now ≡ spec.gap_worded word next }
{
    match word {
        Word::Over => " ",
        _ => gap_before(next),
    }
}

/// What stands behind a statement.
fn gap_stated(next: Token) -> &'static str
    ensures { result.now ≡ spec.gap_stated next }
{
    match next {
        Token::Word(Word::Update) => "\n    ",
        _ => "\n",
    }
}

/// What stands behind a symbol; a minus behind an operand is an operator.
fn gap_behind(operand: bool, symbol: Symbol, next: Token) -> &'static str
    ensures { result.now ≡ spec.gap_behind operand symbol next }
{
    match symbol {
        Symbol::LeftParen | Symbol::LeftBracket | Symbol::DotDot => "",
        Symbol::RightParen => gap_closed(next),
        Symbol::RightBracket => gap_before(next),
        Symbol::Minus => { if operand { " " } else { "" } }
        Symbol::Semicolon => gap_stated(next),
        _ => " ",
    }
}

/// What stands between a token and the next.
fn gap_between(operand: bool, token: Token, next: Token) -> &'static str
    ensures { result.now ≡ spec.gap_between operand token next }
{
    match token {
        Token::Symbol(symbol) => gap_behind(operand, symbol, next),
        Token::Type(_) => gap_typed(operand, next),
        Token::Word(word) => gap_worded(word, next),
        _ => gap_before(next),
    }
}

/// Whether the token is a range's dots.
fn is_dots(token: Token) -> bool
    ensures { result ≡ spec.is_dots token }
{
    match token {
        Token::Symbol(symbol) => matches!(symbol, Symbol::DotDot),
        _ => false,
    }
}

/// Whether an operand ended before a minus that is an operator, where these tokens stand behind the next one: a range's dots
/// follow its lower end, and before that a minus is its sign.
fn operand_before(operand: bool, rest: &[Token]) -> bool
    ensures { result ≡ spec.operand_before operand rest.now }
{
    match rest {
        [] => operand,
        [token, ..] => { if is_dots(*token) { false } else { operand } }
    }
}

/// What stands behind a token before these.
fn gap_after(operand: bool, token: Token, rest: &[Token]) -> &'static str
    ensures { result.now ≡ spec.gap_after operand token rest.now }
{
    match rest {
        [] => "\n",
        [next, after @ ..] => gap_between(operand_before(operand, after), token, *next),
    }
}

/// The text of tokens.
pub(crate) fn text_of(alloc: Global, tokens: &[Token]) -> Result<String, AllocError>
    ensures { IfOk result (λ text. string_bytes text ≡ spec.text_of false tokens.now) }
{
    let mut text = String::new(alloc);
    let mut operand = false;
    let mut rest = tokens;
    while let [token, after @ ..] = rest {
        put_token(&mut text, *token)?;
        text.push_str(gap_after(operand, *token, after))?;
        operand = ends_operand(*token);
        rest = after;
    }
    Ok(text)
}
