//! The way down from a statement to the one line in it that changes a buffer.

ghost use Rattle.std.specs.Prelude.{◌≡◌, [], IfOk, Some};
ghost use Rattle.std.specs.Option.{option_map};
ghost use Rattle.plan.specs.Lists.{list_statements};
ghost use Rattle.plan.specs.Plan.{block};
ghost use Rattle.plan.specs.View.{statement_of};
ghost use Rattle.tails.specs.Steps.{beyond, block_spine, past, spine_of, Named, Tested, Turns};
ghost use Rattle.tails.specs.View.{past_all, spine_held};

use lin::{Forms, Lin, Span1, Sym};
use plan::{Kind, Pick, Stmt};
use soundness::outline::kept::{changes, some_change};
use std::alloc::{AllocError, Global};

/// A step down to a line: a loop, a name for the smallest or largest of some forms, or a guard.
#[derive(Clone, Copy, Drop)]
pub enum Step<'a> {
    /// The turns of a loop over a span.
    Turns {
        symbol: Sym,
        span: &'a Span1,
        kind: Kind,
    },
    /// A symbol for the smallest or largest of some forms.
    Named {
        symbol: Sym,
        pick: Pick,
        forms: &'a Forms,
    },
    /// A guard: the one form is at most the other.
    Tested {
        low: &'a Lin,
        high: &'a Lin,
    },
}

/// A line and the steps down to it, the outermost first.
#[derive(Drop)]
pub struct Spine<'a> {
    pub steps: Vec<Step<'a>>,
    pub line: &'a Stmt,
}

/// The line with no step to it.
fn alone(alloc: Global, line: &Stmt) -> Spine<'_>
    ensures { spine_held result ≡ record { steps = []; line = statement_of line.now } }
{
    Spine {
        steps: Vec::new(alloc),
        line,
    }
}

/// The way with a loop round it, if there is one.
fn in_loop<'a>(
    symbol: Sym,
    span: &'a Span1,
    kind: Kind,
    found: Option<Spine<'a>>,
) -> Result<Option<Spine<'a>>, AllocError>
    ensures { IfOk result (λ all. option_map spine_held all ≡ beyond (Turns symbol span.now kind) (option_map spine_held found.entry)) }
{
    match found {
        None => Ok(None),
        Some(mut way) => {
            way.steps.insert(0, Step::Turns { symbol, span, kind })?;
            Ok(Some(way))
        }
    }
}

/// The way behind a name, if there is one.
fn behind_let<'a>(
    symbol: Sym,
    pick: Pick,
    forms: &'a Forms,
    found: Option<Spine<'a>>,
) -> Result<Option<Spine<'a>>, AllocError>
    ensures { IfOk result (λ all. option_map spine_held all ≡ beyond (Named symbol pick forms.now) (option_map spine_held found.entry)) }
{
    match found {
        None => Ok(None),
        Some(mut way) => {
            way.steps.insert(
                0,
                Step::Named {
                    symbol,
                    pick,
                    forms,
                },
            )?;
            Ok(Some(way))
        }
    }
}

/// The way with a guard round it, if there is one.
fn in_guard<'a>(
    low: &'a Lin,
    high: &'a Lin,
    found: Option<Spine<'a>>,
) -> Result<Option<Spine<'a>>, AllocError>
    ensures { IfOk result (λ all. option_map spine_held all ≡ beyond (Tested low.now high.now) (option_map spine_held found.entry)) }
{
    match found {
        None => Ok(None),
        Some(mut way) => {
            way.steps.insert(0, Step::Tested { low, high })?;
            Ok(Some(way))
        }
    }
}

/// The way behind a statement of a block.
fn past<'a>(stmt: &'a Stmt, found: Option<Spine<'a>>) -> Result<Option<Spine<'a>>, AllocError>
    ensures { IfOk result (λ all. option_map spine_held all ≡ past (statement_of stmt.now) (option_map spine_held found.entry)) }
{
    match stmt {
        Stmt::Let {
            symbol,
            pick,
            forms,
        } => behind_let(*symbol, *pick, forms, found),
        _ => Ok(found),
    }
}

/// The way behind the statements of a block before it.
#[tactic(auto, using(crate::proofs::Blocks::past_step, crate::proofs::Blocks::past_whole, crate::proofs::Blocks::past_end))]
fn past_all<'a>(
    before: &'a [Stmt],
    found: Option<Spine<'a>>,
) -> Result<Option<Spine<'a>>, AllocError>
    ensures { IfOk result (λ all. option_map spine_held all ≡ past_all (list_statements before.now) (option_map spine_held found.entry)) }
{
    let mut way = found;
    for k in 0..before.len() {
        way = past(&before[before.len() - 1 - k], way)?;
    }
    Ok(way)
}

/// The only line of the statement that changes the buffer, where it is a fetch or a store, with the loops, guards and earlier lets
/// round it.
#[cycle(descending)]
pub fn spine_of<'a>(
    alloc: Global,
    stmt: &'a Stmt,
    buffer: u64,
) -> Result<Option<Spine<'a>>, AllocError>
    ensures { IfOk result (λ found. option_map spine_held found ≡ spine_of (statement_of stmt.now) buffer) }
{
    match stmt {
        Stmt::Seq(all) => spine_in_block(alloc, all, buffer),
        Stmt::For {
            symbol,
            span,
            kind,
            body,
        } => {
            let found = spine_of(alloc, body, buffer)?;
            in_loop(*symbol, span, *kind, found)
        }
        Stmt::Guard { low, high, body } => {
            let found = spine_of(alloc, body, buffer)?;
            in_guard(low, high, found)
        }
        Stmt::Fetch {
            buffer: changed,
            ..
        }
        | Stmt::Store {
            buffer: changed,
            ..
        } => {
            if *changed == buffer {
                Ok(Some(alone(alloc, stmt)))
            } else {
                Ok(None)
            }
        }
        Stmt::Let { .. } | Stmt::First { .. } | Stmt::Alloc { .. } | Stmt::Publish { .. } => {
            Ok(None)
        }
    }
}

/// The only line of a block's statements that changes the buffer, with the steps to it.
#[tactic(auto, using(crate::proofs::Blocks::way_on, crate::proofs::Blocks::way_here, crate::proofs::Blocks::way_none, crate::proofs::Blocks::way_end))]
#[cycle(descending)]
fn spine_in_block<'a>(
    alloc: Global,
    all: &'a [Stmt],
    buffer: u64,
) -> Result<Option<Spine<'a>>, AllocError>
    ensures { IfOk result (λ found. option_map spine_held found ≡ block_spine (block (list_statements all.now)) buffer) }
{
    for k in 0..all.len() {
        let stmt = &all[k];
        if changes(stmt, buffer) {
            if some_change(&all[k + 1..], buffer) {
                return Ok(None);
            }
            let found = spine_of(alloc, stmt, buffer)?;
            return past_all(&all[..k], found);
        }
    }
    Ok(None)
}
