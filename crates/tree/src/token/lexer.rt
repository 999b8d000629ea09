//! From the bytes of a text to its tokens.

ghost use Rattle.std.specs.Prelude.{◌≡◌, ◌<◌, ◌≤◌, ◌+◌, ◌^◌, ℕ, length, drop, slice_index, Ok, Err, IfSome, IfOk, IfErr, OnOk, if◌then◌else◌, nat_lt, Some, None, List, ◌∷◌, []};
ghost use Rattle.tree.specs.declared.token.token.Lexeme.{Lexeme as AnyLexeme};
ghost use Rattle.tree.specs.declared.token.error.TokenError.TheVariants as errors;
ghost use Rattle.std.specs.List.{prefix_len, AllPass};
ghost use Rattle.std.specs.Str.Parse.{digits_value};
ghost use Rattle.tree.specs.Token.Spelling as spelling;
ghost use Rattle.tree.specs.Token.Lexical as spec;

use crate::token::error::TokenError;
use crate::token::name::Name;
use crate::token::span::Span;
use crate::token::spelling::type_named;
use crate::token::token::{Lexeme, Literal, Symbol, Token, Word};
use numeric::Ty;
use std::alloc::Global;

/// How many bytes a text has at most.
pub const MAX_TEXT: usize = 65_536;

fn is_blank(byte: u8) -> bool
    ensures { result ≡ spec.is_blank byte }
{
    matches!(byte, b' ' | b'\t' | b'\r' | b'\n')
}

fn is_word_byte(byte: u8) -> bool
    ensures { result ≡ spelling.is_word_byte byte }
{
    byte.is_ascii_alphanumeric() || byte == b'_'
}

// Whether the next byte is in a comment, if this one belongs to white space or to a comment.
fn gap_goes_on(in_comment: bool, byte: u8) -> Option<bool>
    ensures { result ≡ spec.gap_goes_on in_comment byte }
{
    if in_comment {
        if byte == b'\n' {
            Some(false)
        } else {
            byte.is_ascii().then_some(true)
        }
    } else if byte == b'#' {
        Some(true)
    } else {
        is_blank(byte).then_some(false)
    }
}

// How many bytes of white space and comments stand at the front.
fn gap(bytes: &[u8]) -> usize
    ensures length { result ≡ spec.gap bytes.now }
    ensures within { result ≤ length bytes.now }
{
    let mut in_comment = false;
    for (i, byte) in bytes.iter().enumerate() {
        match gap_goes_on(in_comment, *byte) {
            Some(next) => in_comment = next,
            None => return i,
        }
    }
    bytes.len()
}

fn digits_len(bytes: &[u8]) -> usize
    ensures length { result ≡ prefix_len spelling.is_digit bytes.now }
    ensures within { result ≤ length bytes.now }
{
    for (i, byte) in bytes.iter().enumerate() {
        if !byte.is_ascii_digit() {
            return i;
        }
    }
    bytes.len()
}

fn word_len(bytes: &[u8]) -> usize
    ensures length { result ≡ prefix_len spelling.is_word_byte bytes.now }
    ensures within { result ≤ length bytes.now }
{
    for (i, byte) in bytes.iter().enumerate() {
        if !is_word_byte(*byte) {
            return i;
        }
    }
    bytes.len()
}

// The value of decimal digits, if it fits.
fn decimal(digits: &[u8]) -> Option<u32>
    requires { prefix_len spelling.is_digit digits.now ≡ length digits.now }
    ensures { result ≡ (if nat_lt (digits_value 10 digits.now) (2 ^ 32) then Some (digits_value 10 digits.now) else None) }
{
    let mut value: u64 = 0;
    for digit in digits {
        value = 10 * value + u64::from(*digit - b'0');
        if value > u64::from(u32::MAX) {
            return None;
        }
    }
    Some(value as u32)
}

// The largest number of a type. A number with no type is an `i32`.
fn largest(ty: Option<Ty>) -> u32
    ensures { result ≡ spec.largest ty }
{
    match ty {
        Some(Ty::U8) => u8::MAX as u32,
        Some(Ty::U16) => u16::MAX as u32,
        Some(Ty::U32) => u32::MAX,
        Some(Ty::I8) => i8::MAX as u32,
        Some(Ty::I16) => i16::MAX as u32,
        Some(Ty::I32) | None => i32::MAX as u32,
    }
}

// The type behind a number, which may be left out.
fn suffix_type(suffix: &[u8]) -> Option<Option<Ty>>
    ensures { result ≡ spec.suffix_type suffix.now }
{
    if suffix.is_empty() {
        return Some(None);
    }
    let ty = type_named(suffix)?;
    Some(Some(ty))
}

fn literal(digits: &[u8], ty: Option<Ty>) -> Option<Literal>
    requires { prefix_len spelling.is_digit digits.now ≡ length digits.now }
    ensures { result ≡ spec.literal digits.now ty }
{
    if digits.first() == Some(&b'0') && digits.len() != 1 {
        return None;
    }
    let value = decimal(digits)?;
    if value > largest(ty) {
        return None;
    }
    Some(Literal { value, ty })
}

#[tactic(auto, using(crate::proofs::Fronts::whole_front), unfolding(crate::specs::Token::Lexical::number_of))]
fn number_of(text: &[u8]) -> Option<Literal>
    ensures { result ≡ spec.number_of text.now }
{
    let (digits, suffix) = text.split_at(digits_len(text));
    let ty = suffix_type(suffix)?;
    literal(digits, ty)
}

// A word that is no type and no word of the grammar.
#[tactic(auto, using(crate::proofs::Fronts::word_is_ascii))]
fn name_token(text: &[u8]) -> Token
    requires { AllPass spelling.is_word_byte text.now }
    ensures { result ≡ spec.name_token text.now }
{
    match Name::new(text) {
        Some(name) => Token::Name(name),
        None => Token::LongName,
    }
}

// What a longest run of letters, digits and `_` is.
#[tactic(auto, unfolding(crate::specs::Token::Lexical::word_token))]
fn word_token(text: &[u8]) -> Option<Token>
    requires some { 0 < length text.now }
    requires bytes { AllPass spelling.is_word_byte text.now }
    ensures { result ≡ spec.word_token text.now }
{
    if text[0].is_ascii_digit() {
        let number = number_of(text)?;
        return Some(Token::Number(number));
    }
    if let Some(ty) = type_named(text) {
        return Some(Token::Type(ty));
    }
    if let Some(word) = Word::named(text) {
        return Some(Token::Word(word));
    }
    Some(name_token(text))
}

// The token at the front, and how many bytes it takes.
#[tactic(auto, using(crate::proofs::Fronts::some_text, crate::proofs::Fronts::front_passes), unfolding(crate::specs::Token::Lexical::token_at))]
fn token_at(bytes: &[u8]) -> Option<(Token, usize)>
    requires { 0 < length bytes.now }
    ensures value { result ≡ spec.token_at bytes.now }
    ensures within { IfSome result (λ found. found.1 ≤ length bytes.now) }
    ensures some { IfSome result (λ found. 0 < found.1) }
{
    if is_word_byte(bytes[0]) {
        let len = word_len(bytes);
        let (word, _) = bytes.split_at(len);
        let token = word_token(word)?;
        return Some((token, len));
    }
    let symbol = Symbol::at(bytes)?;
    Some((Token::Symbol(symbol), symbol.text().len()))
}

// How many bytes a character has whose first byte this is.
fn char_len(first: u8) -> usize
    ensures { result ≡ spec.char_len first }
{
    match first {
        0..128 => 1,
        128..224 => 2,
        224..240 => 3,
        240.. => 4,
    }
}

// How many bytes a bad token at the front has.
#[tactic(auto, unfolding(crate::specs::Token::Lexical::bad_len))]
fn bad_len(bytes: &[u8]) -> usize
    requires { 0 < length bytes.now }
    ensures length { result ≡ spec.bad_len bytes.now }
    ensures within { result ≤ length bytes.now }
{
    if is_word_byte(bytes[0]) {
        word_len(bytes)
    } else {
        char_len(bytes[0]).min(bytes.len())
    }
}

// The tokens of bytes, in order.
fn scan(alloc: Global, text: &[u8]) -> Result<Vec<Lexeme>, TokenError>
    requires { length text.now ≤ spec.max_text }
    ensures found { IfOk result (λ lexemes. spec.AreLexemes text.now lexemes.items) }
    ensures only { IfOk result (λ lexemes. (others : List AnyLexeme) → spec.AreLexemes text.now others → others ≡ lexemes.items) }
    ensures rise { IfOk result (λ lexemes. spec.SpansRise 0 lexemes.items (length text.now)) }
    ensures slices { IfOk result (λ lexemes. spec.AreSlices text.now lexemes.items) }
    ensures refused { IfErr result (λ error. spec.IsRefused text.now error) }
{
    let mut found = Vec::new(alloc);
    let mut at = gap(text);
    while at < text.len() {
        let (_, rest) = text.split_at(at);
        let Some((token, len)) = token_at(rest) else {
            let end = at + bad_len(rest);
            return Err(TokenError::BadToken(Span { start: at, end }));
        };
        let end = at + len;
        let span = Span { start: at, end };
        found.push(Lexeme { token, span })?;
        let (_, after) = text.split_at(end);
        at = end + gap(after);
    }
    Ok(found)
}

/// The tokens of a text, in order. A text of more than 65,536 bytes is `TooLong` whatever it holds.
pub fn tokens(alloc: Global, text: &str) -> Result<Vec<Lexeme>, TokenError>
    ensures long { OnOk result (length text.now ≤ spec.max_text) }
    ensures found { IfOk result (λ lexemes. spec.AreLexemes text.now lexemes.items) }
    // No other tokens are the text's.
    ensures only { IfOk result (λ lexemes. (others : List AnyLexeme) → spec.AreLexemes text.now others → others ≡ lexemes.items) }
    ensures rise { IfOk result (λ lexemes. spec.SpansRise 0 lexemes.items (length text.now)) }
    ensures slices { IfOk result (λ lexemes. spec.AreSlices text.now lexemes.items) }
    ensures refused { IfErr result (λ error. spec.IsRefused text.now error) }
{
    let bytes = text.as_bytes();
    if bytes.len() > MAX_TEXT {
        return Err(TokenError::TooLong(Span {
            start: MAX_TEXT,
            end: bytes.len(),
        }));
    }
    scan(alloc, bytes)
}
