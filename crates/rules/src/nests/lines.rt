//! The loops round the one line of a statement that changes a buffer.

ghost use Rattle.std.specs.Prelude.{◌≡◌, IfOk, Some};
ghost use Rattle.std.specs.Option.{option_map};
ghost use Rattle.plan.specs.Lists.{list_statements};
ghost use Rattle.plan.specs.Plan.{block};
ghost use Rattle.plan.specs.View.{statement_of};
ghost use Rattle.soundness.specs.Nests.Nest.{alone, block_nest, inside, is_let, nest_of};
ghost use Rattle.rules.specs.Nests.View.{nest_held};

use lin::{Span1, Sym};
use plan::Stmt;
use soundness::outline::kept::{changes, some_change};
use std::alloc::{AllocError, Global};

/// A loop.
#[derive(Clone, Copy, Drop)]
pub(crate) struct PlainLoop<'a> {
    pub symbol: Sym,
    pub span: &'a Span1,
}

/// A line and the loops round it, the outermost first.
#[derive(Drop)]
pub(crate) struct Nested<'a> {
    pub loops: Vec<PlainLoop<'a>>,
    pub line: &'a Stmt,
}

/// Whether the statement gives a symbol its number.
fn is_let(stmt: &Stmt) -> bool
    ensures { result ≡ is_let (statement_of stmt.now) }
{
    match stmt {
        Stmt::Let { .. } => true,
        _ => false,
    }
}

/// The line with no loop round it.
fn alone(alloc: Global, line: &Stmt) -> Nested<'_>
    ensures { nest_held result ≡ alone (statement_of line.now) }
{
    Nested {
        loops: Vec::new(alloc),
        line,
    }
}

/// The line with one more loop round it, if there is one.
fn inside<'a>(
    symbol: Sym,
    span: &'a Span1,
    found: Option<Nested<'a>>,
) -> Result<Option<Nested<'a>>, AllocError>
    ensures { IfOk result (λ all. option_map nest_held all ≡ inside symbol span.now (option_map nest_held found.entry)) }
{
    match found {
        None => Ok(None),
        Some(mut line) => {
            line.loops.insert(0, PlainLoop { symbol, span })?;
            Ok(Some(line))
        }
    }
}

/// The only line of the statement that changes the buffer, with the loops round it: a fetch or a store that has but loops and
/// blocks round it, and no `let` before it in them.
#[cycle(nesting)]
pub(crate) fn line_in<'a>(
    alloc: Global,
    stmt: &'a Stmt,
    buffer: u64,
) -> Result<Option<Nested<'a>>, AllocError>
    ensures { IfOk result (λ found. option_map nest_held found ≡ nest_of (statement_of stmt.now) buffer) }
{
    match stmt {
        Stmt::Seq(all) => line_in_block(alloc, all, buffer),
        Stmt::For {
            symbol,
            span,
            body,
            ..
        } => {
            let found = line_in(alloc, body, buffer)?;
            inside(*symbol, span, found)
        }
        Stmt::Fetch {
            buffer: changed,
            ..
        }
        | Stmt::Store {
            buffer: changed,
            ..
        } => {
            if *changed == buffer {
                Ok(Some(alone(alloc, stmt)))
            } else {
                Ok(None)
            }
        }
        Stmt::Let { .. }
        | Stmt::First { .. }
        | Stmt::Guard { .. }
        | Stmt::Alloc { .. }
        | Stmt::Publish { .. } => Ok(None),
    }
}

/// The only line of a block's statements that changes the buffer, with the loops round it.
#[tactic(auto, using(crate::proofs::Blocks::nest_from))]
#[cycle(nesting)]
fn line_in_block<'a>(
    alloc: Global,
    all: &'a [Stmt],
    buffer: u64,
) -> Result<Option<Nested<'a>>, AllocError>
    ensures { IfOk result (λ found. option_map nest_held found ≡ block_nest (block (list_statements all.now)) buffer) }
{
    for k in 0..all.len() {
        let stmt = &all[k];
        if changes(stmt, buffer) {
            if some_change(&all[k + 1..], buffer) {
                return Ok(None);
            }
            return line_in(alloc, stmt, buffer);
        }
        if is_let(stmt) {
            return Ok(None);
        }
    }
    Ok(None)
}
