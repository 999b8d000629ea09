//! From a text to its expression.

ghost use Rattle.std.specs.Prelude.{◌≡◌, ◌≤◌, ◌<◌, IfOk, IfErr, length};
ghost use Rattle.tree.specs.Term.{term_of};
ghost use Rattle.expr.specs.Text as spec;
ghost use Rattle.expr.specs.Places.{StandsIn};

use crate::error::{ExprError, Refusal, Stop};
use crate::parser::whole;
use std::alloc::Global;
use tree::Expr;
use tree::token::{Lexeme, Span, place, tokens};

// Where so many tokens are left.
fn place_left(lexemes: &[Lexeme], left: usize, end: usize) -> Span
    ensures { result ≡ spec.place_left lexemes.now left end }
{
    let (_, rest) = lexemes.split_at(lexemes.len().saturating_sub(left));
    place(rest, end)
}

// Where the last token ends.
fn last_end(lexemes: &[Lexeme], end: usize) -> usize
    ensures { result ≡ spec.last_end lexemes.now end }
{
    let mut last = end;
    for lexeme in lexemes {
        last = lexeme.span.end;
    }
    last
}

// All tokens, from the first to the last.
fn extent(lexemes: &[Lexeme], end: usize) -> Span
    ensures { result ≡ spec.extent lexemes.now end }
{
    Span {
        start: place(lexemes, end).start,
        end: last_end(lexemes, end),
    }
}

/// The expression that a text stands for.
///
/// # Errors
/// `BadToken` (E1) at the first piece of the text that is no token; `BadForm` (E2) at the first token that does not
/// go on with the expression, or at the end of the text; `TooLarge` (E4) where the text has more than 65,536 bytes,
/// at a name of more than 16 bytes, and over the whole expression where that has more than 512 nodes or 64 levels;
/// of E2 and E4 the one that is met first; `Memory`.
pub fn read_expr(alloc: Global, text: &str) -> Result<Expr, ExprError>
    ensures found { IfOk result (λ e. spec.IsTextOf text.now (term_of e)) }
    ensures small { IfOk result (λ e. spec.IsSmall (term_of e)) }
    // Each part of the expression has the place of its tokens.
    ensures placed { IfOk result (λ e. StandsIn text.now e) }
    ensures refused { IfErr result (λ error. spec.IsRefused text.now error) }
{
    let lexemes = tokens(alloc, text)?;
    let end = text.len();
    match whole(alloc, &lexemes) {
        Ok(expr) => Ok(expr),
        Err(Stop::Memory) => Err(ExprError::Memory),
        Err(Stop::Refused(Refusal::BadForm(left))) => {
            Err(ExprError::BadForm(place_left(&lexemes, left, end)))
        }
        Err(Stop::Refused(Refusal::LongName(left))) => {
            Err(ExprError::TooLarge(place_left(&lexemes, left, end)))
        }
        Err(Stop::Refused(Refusal::TooLarge)) => Err(ExprError::TooLarge(extent(&lexemes, end))),
    }
}
