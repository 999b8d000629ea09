//! From a text to its statements.

ghost use Rattle.std.specs.Prelude.{◌≡◌, ◌≤◌, ◌<◌, ◌+◌, ◌^◌, length, IfOk, IfErr, IfSome};
ghost use Rattle.tree.specs.Term.{Term as AnyTerm};
ghost use Rattle.expr.specs.Statements.Text.{FileText};
ghost use Rattle.expr.specs.Statements.View as view;
ghost use Rattle.expr.specs.Statements.Grammar.{IsTextOf, IsSmall};
ghost use Rattle.expr.specs.Statements.Places as spec;
ghost use Rattle.expr.specs.Statements.Standing.{NamesStand};
ghost use Rattle.expr.specs.Statements.Marks.{PartsStand};

use crate::statements::error::{FormError, Refusal, Stop};
use crate::statements::parser::file;
use crate::statements::statement::File;
use std::alloc::Global;
use tree::token::{Lexeme, Span, Symbol, Token, place, tokens};

// The tokens of which so many are left.
fn left_of(lexemes: &[Lexeme], left: usize) -> &[Lexeme]
    ensures { result.now ≡ spec.left_of lexemes.now left }
{
    let (_, rest) = lexemes.split_at(lexemes.len().saturating_sub(left));
    rest
}

// How many brackets of an expression stand open after the token, if it belongs to the expression.
fn open_after(depth: usize, token: Token) -> Option<usize>
    requires { depth < 2 ^ 63 }
    ensures value { result ≡ spec.open_after depth token }
    ensures within { IfSome result (λ n. n ≤ depth + 1) }
{
    match token {
        Token::Symbol(Symbol::LeftParen | Symbol::LeftBracket) => Some(depth + 1),
        Token::Symbol(Symbol::RightParen | Symbol::RightBracket) => {
            if depth == 0 { None } else { Some(depth - 1) }
        }
        Token::Symbol(Symbol::Comma) => { if depth == 0 { None } else { Some(depth) } }
        Token::Symbol(Symbol::Semicolon) => None,
        _ => Some(depth),
    }
}

// Where the last token of the expression at the front ends.
#[tactic(auto, using(crate::proofs::Ends::goes_on, crate::proofs::Ends::stops))]
fn end_of(tokens: &[Lexeme], end: usize) -> usize
    ensures { result ≡ spec.end_from 0 tokens.now end }
{
    let mut depth = 0;
    let mut last = end;
    for lexeme in tokens {
        match open_after(depth, lexeme.token) {
            Some(next) => depth = next,
            None => return last,
        }
        last = lexeme.span.end;
    }
    last
}

// The place of the expression at the front.
fn extent(tokens: &[Lexeme], end: usize) -> Span
    ensures { result ≡ spec.extent tokens.now end }
{
    let first = place(tokens, end);
    Span {
        start: first.start,
        end: end_of(tokens, first.end),
    }
}

// What a refusal of the tokens says of the text, which ends there.
fn fault(refusal: Refusal, lexemes: &[Lexeme], end: usize) -> FormError
    ensures { result ≡ spec.fault refusal lexemes.now end }
{
    match refusal {
        Refusal::BadForm(left) => FormError::BadForm(place(left_of(lexemes, left), end)),
        Refusal::LongName(left) => FormError::TooLarge(place(left_of(lexemes, left), end)),
        Refusal::TooLarge(left) => FormError::TooLarge(extent(left_of(lexemes, left), end)),
    }
}

/// Reads the statements of an algorithm text: its form alone.
///
/// # Errors
/// In this order: `TooLarge` for a text of more than 65,536 bytes, at those from there on; `BadToken` at the first
/// bytes that are no token; then what is met first while the tokens are read: `BadForm` where they do not go on as the
/// grammar says, `TooLarge` at a name of more than 16 bytes or at an expression of more than 512 nodes or 64 levels.
/// `Memory` where memory runs out.
pub fn read(alloc: Global, text: &str) -> Result<File, FormError>
    ensures found { IfOk result (λ f. IsTextOf text.now (view.file_text f)) }
    // It stands for nothing else.
    ensures only { IfOk result (λ f. (other : FileText AnyTerm) → IsTextOf text.now other → other ≡ view.file_text f) }
    ensures small { IfOk result (λ f. IsSmall (view.file_text f)) }
    // Each name outside of the expressions is what the text has at the name's span.
    ensures stands { IfOk result (λ f. NamesStand text.now f) }
    // Each name, number and type outside of the expressions, and each word `update`, is a token at its span; each
    // expression is tokens, and each of its parts has the span of its own; and these come in the file's order.
    ensures placed { IfOk result (λ f. PartsStand text.now f) }
    ensures refused { IfErr result (λ e. spec.IsRefused text.now e) }
{
    let lexemes = tokens(alloc, text)?;
    match file(alloc, &lexemes) {
        Ok(found) => Ok(found),
        Err(Stop::Memory) => Err(FormError::Memory),
        Err(Stop::Refused(refusal)) => Err(fault(refusal, &lexemes, text.len())),
    }
}
