//! Texts with 1 in place of each extent past the limit of an algorithm's.

ghost use Rattle.std.specs.Prelude.{◌≡◌, IfOk, fold, string_bytes, take, drop};
ghost use Rattle.crop.specs.Narrow as spec;
ghost use Rattle.crop.specs.Texts.{IsNarrow};

use std::alloc::{AllocError, Global};
use tree::token::{Lexeme, Span, Symbol, Token, Word, tokens};

/// The greatest extent of an algorithm's input and output.
const MAX_EXTENT: u32 = 8192;
/// The greatest extent of a scene's.
const MAX_WIDE: u32 = 16_777_216;

/// Whether an extent is past the limit of an algorithm's, but not of a scene's.
fn is_wide(number: u32) -> bool
    ensures { result ≡ spec.is_wide number }
{
    MAX_EXTENT < number && number <= MAX_WIDE
}

/// How many of the numbers behind a token are a width or a height, if so many are from the token on.
fn sides_left(left: u32, token: Token) -> u32
    ensures { result ≡ spec.sides_left left token }
{
    match token {
        Token::Word(Word::Input | Word::Output) => 2,
        Token::Symbol(Symbol::Semicolon) => 0,
        Token::Number(_) => left.saturating_sub(1),
        _ => left,
    }
}

/// Whether a token is a wide extent, where so many numbers from it on are a width or a height.
fn is_wide_token(left: u32, token: Token) -> bool
    ensures { result ≡ spec.is_wide_token left token }
{
    match token {
        Token::Number(number) => left > 0 && number.ty.is_none() && is_wide(number.value),
        _ => false,
    }
}

/// The places of the wide extents of a text.
fn wide_places(alloc: Global, lexemes: &[Lexeme]) -> Result<Vec<Span>, AllocError>
    ensures { IfOk result (λ places. places.items ≡ spec.wide_places 0 lexemes.now) }
{
    let mut places = Vec::new(alloc);
    let mut left = 0;
    for lexeme in lexemes {
        if is_wide_token(left, lexeme.token) {
            places.push(lexeme.span)?;
        }
        left = sides_left(left, lexeme.token);
    }
    Ok(places)
}

/// The bytes before a place, or all where there are fewer.
fn front(text: &[u8], end: usize) -> &[u8]
    ensures { result.now ≡ take end text.now }
{
    if end < text.len() {
        let (front, _) = text.split_at(end);
        front
    } else {
        text
    }
}

/// The bytes from a place on, or none where there are fewer.
fn behind(text: &[u8], start: usize) -> &[u8]
    ensures { result.now ≡ drop start text.now }
{
    let (_, behind) = text.split_at(start.min(text.len()));
    behind
}

/// The text with a 1 in place of the bytes there, and blanks.
fn with_one(alloc: Global, text: &[u8], at: Span) -> Result<Vec<u8>, AllocError>
    ensures { IfOk result (λ made. made.items ≡ spec.with_one text.now at) }
{
    let mut made = Vec::new(alloc);
    made.extend_from_slice(front(text, at.start))?;
    made.push(b'1')?;
    let blanks = vec![in alloc; b' '; at.end.saturating_sub(at.start).saturating_sub(1)]?;
    made.extend_from_slice(&blanks)?;
    made.extend_from_slice(behind(text, at.end))?;
    Ok(made)
}

/// The text with a 1 in place of the bytes at each of these places.
fn with_ones(alloc: Global, text: &[u8], places: &[Span]) -> Result<Vec<u8>, AllocError>
    ensures { IfOk result (λ made. made.items ≡ fold spec.with_one text.now places.now) }
{
    let mut made = Vec::new(alloc);
    made.extend_from_slice(text)?;
    for place in places {
        made = with_one(alloc, &made, *place)?;
    }
    Ok(made)
}

/// The text with 1 for each wide extent, all other bytes where they were.
pub(crate) fn narrow(alloc: Global, text: &str) -> Result<String, AllocError>
    ensures { IfOk result (λ made. IsNarrow text.now (string_bytes made)) }
{
    let Ok(lexemes) = tokens(alloc, text) else {
        return Err(AllocError);
    };
    let places = wide_places(alloc, &lexemes)?;
    let made = with_ones(alloc, text.as_bytes(), &places)?;
    String::from_utf8_lossy(alloc, &made)
}
