//! The codes of the lines of a group.

ghost use Rattle.std.specs.Bool.{OnTrue};
ghost use Rattle.std.specs.Prelude.{◌≡◌, IfOk, MatchOption, None, Some, map, string_bytes};
ghost use Rattle.plan.specs.Lists.{list_statements};
ghost use Rattle.plan.specs.Plan.{block};
ghost use Rattle.plan.specs.View.{statement_of};
ghost use Rattle.interpreter.specs.LineCodes.{code_in, codes_at, BlockIsCoded, IsCoded, StatementIsCoded};
ghost use Rattle.tree.specs.Term.{term_of};

use crate::code::Code;
use crate::coding::{code_of, is_code_of};
use plan::{Coordinate, Stmt};
use std::alloc::{AllocError, Global};
use tree::Expr;

/// The code of the value of the lines that store a definition in a buffer.
#[derive(Drop)]
pub(crate) struct LineCode {
    pub buffer: u64,
    pub definition: u64,
    pub code: Code,
}

/// The code of the lines that store a definition in a buffer, if there is one.
pub(crate) fn code_at(codes: &[LineCode], buffer: u64, definition: u64) -> Option<&Code>
    ensures { MatchOption result (code_in codes.now buffer definition ≡ None) (λ x. code_in codes.now buffer definition ≡ Some x.now) }
{
    match codes {
        [] => None,
        [line, rest @ ..] => {
            if line.buffer == buffer && line.definition == definition {
                Some(&line.code)
            } else {
                code_at(rest, buffer, definition)
            }
        }
    }
}

/// How many codes of a group are noted at most: they are looked for one after another, at each store too. Lines without a code are
/// evaluated by their expressions.
const MOST_CODES: usize = 64;

/// Notes the code of a line, where there is none yet of its buffer and definition, and there are not too many.
fn note_line(
    alloc: Global,
    buffer: u64,
    definition: u64,
    coordinates: &[Coordinate],
    value: &Expr,
    codes: &mut Vec<LineCode>,
) -> Result<(), AllocError> {
    if codes.len() >= MOST_CODES || code_at(codes, buffer, definition).is_some() {
        return Ok(());
    }
    let code = code_of(alloc, coordinates, value)?;
    codes.push(LineCode {
        buffer,
        definition,
        code,
    })?;
    Ok(())
}

/// Notes the codes of a statement's lines.
#[cycle(coding)]
fn note_codes(alloc: Global, stmt: &Stmt, codes: &mut Vec<LineCode>) -> Result<(), AllocError> {
    match stmt {
        Stmt::Seq(all) => note_all_codes(alloc, all, codes),
        Stmt::For { body, .. } | Stmt::Guard { body, .. } => note_codes(alloc, body, codes),
        Stmt::First { first, later, .. } => {
            note_codes(alloc, first, codes)?;
            note_codes(alloc, later, codes)
        }
        Stmt::Store {
            buffer,
            definition,
            coordinates,
            value,
        } => note_line(alloc, *buffer, *definition, coordinates, value, codes),
        Stmt::Let { .. } | Stmt::Alloc { .. } | Stmt::Fetch { .. } | Stmt::Publish { .. } => Ok(()),
    }
}

/// Notes the codes of the lines of a block's statements.
#[cycle(coding)]
fn note_all_codes(
    alloc: Global,
    all: &[Stmt],
    codes: &mut Vec<LineCode>,
) -> Result<(), AllocError> {
    for stmt in all {
        note_codes(alloc, stmt, codes)?;
    }
    Ok(())
}

/// Whether the code of a line's buffer and definition, if there is one, is the line's.
fn is_coded(
    codes: &[LineCode],
    buffer: u64,
    definition: u64,
    coordinates: &[Coordinate],
    value: &Expr,
) -> bool
    ensures { OnTrue result (IsCoded codes.now buffer definition (map (λ c. string_bytes c.variable) coordinates.now) (term_of value.now)) }
{
    match code_at(codes, buffer, definition) {
        Some(code) => is_code_of(code, coordinates, value),
        None => true,
    }
}

/// Whether the codes are those of a statement's lines.
#[cycle(checking)]
fn are_coded(codes: &[LineCode], stmt: &Stmt) -> bool
    ensures { OnTrue result (StatementIsCoded codes.now (statement_of stmt.now)) }
{
    match stmt {
        Stmt::Seq(all) => are_all_coded(codes, all),
        Stmt::For { body, .. } | Stmt::Guard { body, .. } => are_coded(codes, body),
        Stmt::First { first, later, .. } => are_coded(codes, first) && are_coded(codes, later),
        Stmt::Store {
            buffer,
            definition,
            coordinates,
            value,
        } => is_coded(codes, *buffer, *definition, coordinates, value),
        Stmt::Let { .. } | Stmt::Alloc { .. } | Stmt::Fetch { .. } | Stmt::Publish { .. } => true,
    }
}

/// Whether the codes are those of the lines of a block's statements.
#[cycle(checking)]
fn are_all_coded(codes: &[LineCode], all: &[Stmt]) -> bool
    ensures { OnTrue result (BlockIsCoded codes.now (block (list_statements all.now))) }
{
    for stmt in all {
        if !are_coded(codes, stmt) {
            return false;
        }
    }
    true
}

/// These codes, where they are those of a statement's lines, and else none.
fn those_right(codes: Vec<LineCode>, stmt: &Stmt) -> Vec<LineCode>
    ensures { StatementIsCoded result.items (statement_of stmt.now) }
{
    let mut codes = codes;
    if !are_coded(&codes, stmt) {
        codes.clear();
    }
    codes
}

/// The codes of the lines of a group's body. There are none where two lines store one definition in one buffer by other expressions.
pub(crate) fn line_codes(alloc: Global, body: &Stmt) -> Result<Vec<LineCode>, AllocError>
    ensures { IfOk result (λ codes. StatementIsCoded codes.items (statement_of body.now)) }
{
    let mut codes = Vec::new(alloc);
    note_codes(alloc, body, &mut codes)?;
    Ok(those_right(codes, body))
}

/// The codes of the group of a number; none where there is no such group.
pub(crate) fn codes_at(lines: &[Vec<LineCode>], number: usize) -> &[LineCode]
    ensures { result.now ≡ codes_at lines.now number }
{
    match lines.get(number) {
        Some(found) => found.as_slice(),
        None => &[],
    }
}
