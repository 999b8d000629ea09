//! The first line with a coordinate or a symbol that may be too large, or with a marked loop that may be too long.

ghost use Rattle.std.specs.Prelude.{◌≡◌, ◌+◌, ◌∷◌, ◌++◌, ℕ, IfOk, OnOk, Some};
ghost use Rattle.plan.specs.Lists.{list_statements};
ghost use Rattle.plan.specs.Plan.{block, For, Guard};
ghost use Rattle.plan.specs.View.{statement_of};
ghost use Rattle.soundness.specs.Binders.View.{binder_of, binders_of};
ghost use Rattle.rules.specs.Widths.Widths.{binders_after, block_wide_lines, first_told, line_unless, or_line, store_lines, told, wide_lines};

use crate::widths::near::{
    are_i32, are_near_forms, are_near_places, are_near_spans, is_near_guard, is_near_span,
};
use crate::widths::short::has_few_turns;
use crate::widths::storing::first_store;
use lin::{Lin, Span1, Sym};
use plan::{Kind, Stmt};
use soundness::binders::{Binder, Bounds};
use std::alloc::{AllocError, Global};

/// The binders with one more inside of them.
#[tactic(auto, using(crate::proofs::Lists::more_binders))]
fn with<'a>(
    alloc: Global,
    binders: &[Binder<'a>],
    binder: Binder<'a>,
) -> Result<Vec<Binder<'a>>, AllocError>
    ensures { IfOk result (λ all. binders_of all.items ≡ binder_of binder.entry ∷ binders_of binders.now) }
{
    let mut all = Vec::from_slice(alloc, binders)?;
    all.push(binder)?;
    Ok(all)
}

/// Adds what a statement binds for those behind it in its block.
#[tactic(auto, using(crate::proofs::Lists::more_binders))]
fn bind<'a>(binders: &mut Vec<Binder<'a>>, stmt: &'a Stmt) -> Result<(), AllocError>
    ensures { OnOk result (binders_of binders.new.items ≡ binders_after (statement_of stmt.now) (binders_of binders.old.items)) }
{
    match stmt {
        Stmt::Let {
            symbol,
            pick,
            forms,
        } => binders.push(Binder::Picked {
            symbol: *symbol,
            pick: *pick,
            forms,
        })?,
        _ => (),
    }
    Ok(())
}

/// The line, unless what is asked of it holds.
fn unless(shown: bool, line: u32) -> Option<u32>
    ensures { (n : ℕ) → line ≡ told n → result ≡ first_told (line_unless shown n) }
{
    if shown { None } else { Some(line) }
}

/// The first store in the body of a loop or a guard, or its own line.
#[tactic(auto, using(crate::proofs::Lists::later_told))]
fn stored_or(line: u32, body: &Stmt) -> u32
    ensures { (n : ℕ) → line ≡ told n → Some result ≡ first_told (or_line n (store_lines (n + 1) (statement_of body.now))) }
{
    first_store(line.saturating_add(1), body).unwrap_or(line)
}

/// The first line, in the order of the text, of a statement that begins at a line, with a number that is not shown to be small:
/// a store of which a coordinate is not shown to be an i32, or a line with a symbol that is not shown to be at most 2^39 from 0.
/// A loop whose ends have such a symbol, or a guard, is told at the first store inside it, or by itself where it has none. A loop
/// that is marked is told where it is not shown to have at most 64 turns. Lines are told up to the greatest `u32`.
///
/// # Errors
/// `AllocError` where memory runs out.
#[cycle(widths)]
#[tactic(auto, using(crate::proofs::Lists::later_told))]
pub fn first_wide_line<B: Bounds>(
    alloc: Global,
    bounds: &B,
    binders: &[Binder<'_>],
    line: u32,
    stmt: &Stmt,
) -> Result<Option<u32>, AllocError>
    ensures { (n : ℕ) → line ≡ told n → IfOk result (λ found. found ≡ first_told (wide_lines (B.rules bounds.now) (binders_of binders.now) n (statement_of stmt.now))) }
{
    match stmt {
        Stmt::Seq(all) => first_of_all(alloc, bounds, &*binders, line, all),
        Stmt::For {
            symbol,
            span,
            kind,
            body,
        } => first_of_loop(alloc, bounds, binders, line, *symbol, span, *kind, body),
        Stmt::Let { forms, .. } => {
            let near = are_near_forms(alloc, bounds, binders, forms.as_slice())?;
            Ok(unless(near, line))
        }
        Stmt::First { first, later, .. } => {
            let found = first_wide_line(alloc, bounds, binders, line.saturating_add(1), first)?;
            if found.is_some() {
                return Ok(found);
            }
            let line = line.saturating_add(first.line_count()).saturating_add(2);
            first_wide_line(alloc, bounds, binders, line, later)
        }
        Stmt::Guard { low, high, body } => {
            first_of_guard(alloc, bounds, binders, line, low, high, body)
        }
        Stmt::Alloc { places, .. } => {
            let near = are_near_places(alloc, bounds, binders, places)?;
            Ok(unless(near, line))
        }
        Stmt::Fetch { region, .. } => {
            let near = are_near_spans(alloc, bounds, binders, region.as_slice())?;
            Ok(unless(near, line))
        }
        Stmt::Store { coordinates, .. } => {
            let small = are_i32(alloc, bounds, binders, coordinates)?;
            Ok(unless(small, line))
        }
        Stmt::Publish { .. } => Ok(None),
    }
}

/// The first such line of a body inside a line that binds.
#[cycle(widths)]
#[tactic(auto, using(crate::proofs::Lists::later_told))]
fn first_inside<'a, B: Bounds>(
    alloc: Global,
    bounds: &B,
    binders: &[Binder<'a>],
    line: u32,
    binder: Binder<'a>,
    body: &Stmt,
) -> Result<Option<u32>, AllocError>
    ensures { (n : ℕ) → line ≡ told n → IfOk result (λ found. found ≡ first_told (wide_lines (B.rules bounds.now) (binder_of binder.entry ∷ binders_of binders.now) (n + 1) (statement_of body.now))) }
{
    let inside = with(alloc, binders, binder)?;
    first_wide_line(alloc, bounds, &inside, line.saturating_add(1), body)
}

/// The first such line of a loop.
#[cycle(widths)]
#[tactic(auto, using(crate::proofs::Lists::later_told))]
fn first_of_loop<B: Bounds>(
    alloc: Global,
    bounds: &B,
    binders: &[Binder<'_>],
    line: u32,
    symbol: Sym,
    span: &Span1,
    kind: Kind,
    body: &Stmt,
) -> Result<Option<u32>, AllocError>
    ensures { (n : ℕ) → line ≡ told n → IfOk result (λ found. found ≡ first_told (wide_lines (B.rules bounds.now) (binders_of binders.now) n (For symbol span.now kind (statement_of body.now)))) }
{
    if !is_near_span(alloc, bounds, binders, span)? {
        return Ok(Some(stored_or(line, body)));
    }
    if !has_few_turns(alloc, bounds, binders, span, kind)? {
        return Ok(Some(line));
    }
    let binder = Binder::Ranged {
        symbol,
        span: &*span,
    };
    first_inside(alloc, bounds, &*binders, line, binder, body)
}

/// The first such line of a guard.
#[cycle(widths)]
#[tactic(auto, using(crate::proofs::Lists::later_told))]
fn first_of_guard<B: Bounds>(
    alloc: Global,
    bounds: &B,
    binders: &[Binder<'_>],
    line: u32,
    low: &Lin,
    high: &Lin,
    body: &Stmt,
) -> Result<Option<u32>, AllocError>
    ensures { (n : ℕ) → line ≡ told n → IfOk result (λ found. found ≡ first_told (wide_lines (B.rules bounds.now) (binders_of binders.now) n (Guard low.now high.now (statement_of body.now)))) }
{
    if is_near_guard(alloc, bounds, binders, low, high)? {
        let binder = Binder::Passed {
            low: &*low,
            high: &*high,
        };
        first_inside(alloc, bounds, &*binders, line, binder, body)
    } else {
        Ok(Some(stored_or(line, body)))
    }
}

/// The first such line of a block's statements.
#[cycle(widths)]
#[tactic(auto, using(crate::proofs::Lists::later_told))]
fn first_of_all<'a, B: Bounds>(
    alloc: Global,
    bounds: &B,
    binders: &[Binder<'a>],
    line: u32,
    all: &'a [Stmt],
) -> Result<Option<u32>, AllocError>
    ensures { (n : ℕ) → line ≡ told n → IfOk result (λ found. found ≡ first_told (block_wide_lines (B.rules bounds.now) (binders_of binders.now) n (block (list_statements all.now)))) }
{
    let mut inside = Vec::from_slice(alloc, binders)?;
    let mut next = line;
    for stmt in all {
        let found = first_wide_line(alloc, bounds, &inside, next, stmt)?;
        if found.is_some() {
            return Ok(found);
        }
        bind(&mut inside, stmt)?;
        next = next.saturating_add(stmt.line_count());
    }
    Ok(None)
}
