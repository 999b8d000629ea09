//! Windows that a loop keeps from turn to turn: of claims of pure definitions that stand alone in its body.

ghost use Rattle.std.specs.Prelude.{◌≡◌, ◌+◌, ◌<◌, ◌^◌, not};
ghost use Rattle.plan.specs.Lines.{lines, block_lines};
ghost use Rattle.plan.specs.Lists.{list_statements};
ghost use Rattle.plan.specs.Plan.{block};
ghost use Rattle.plan.specs.View.{statement_of};
ghost use Rattle.soundness.specs.Claims.{changes, block_changes, is_update};
ghost use Rattle.soundness.specs.Obligations.{gives, stands_alone};
ghost use Rattle.soundness.specs.Outline.View.{outline_in};
ghost use Rattle.soundness.specs.Outline.Kept.{is_alone_in, keeps, some_keep};

use crate::outline::Outlined;
use lin::Sym;
use plan::Stmt;
use plan::certificate::Window;

/// Whether some line of the statement changes the buffer.
#[cycle(changing)]
pub fn changes(stmt: &Stmt, buffer: u64) -> bool
    ensures { result ≡ changes (statement_of stmt.now) buffer }
{
    match stmt {
        Stmt::Seq(all) => some_change(all, buffer),
        Stmt::For { body, .. } | Stmt::Guard { body, .. } => changes(body, buffer),
        Stmt::First { first, later, .. } => changes(first, buffer) || changes(later, buffer),
        Stmt::Alloc {
            buffer: changed,
            ..
        }
        | Stmt::Fetch {
            buffer: changed,
            ..
        }
        | Stmt::Store {
            buffer: changed,
            ..
        } => *changed == buffer,
        Stmt::Let { .. } | Stmt::Publish { .. } => false,
    }
}

/// Whether some line of a block's statements changes the buffer.
#[tactic(auto, using(crate::proofs::OfOutline::Blocks::changes_from))]
#[cycle(changing)]
pub fn some_change(all: &[Stmt], buffer: u64) -> bool
    ensures { result ≡ block_changes (block (list_statements all.now)) buffer }
{
    for stmt in all {
        if changes(stmt, buffer) {
            return true;
        }
    }
    false
}

/// Whether the statement gives the symbol a number.
fn gives(symbol: Sym, stmt: &Stmt) -> bool
    ensures { result ≡ gives symbol (statement_of stmt.now) }
{
    match stmt {
        Stmt::Let { symbol: given, .. } => symbol == *given,
        _ => false,
    }
}

/// The buffer of a claim, 0 where there is no such claim.
fn buffer_of(outlined: &Outlined<'_>, claim: u64) -> u64
    ensures { result ≡ ((outline_in outlined.now).claim claim).buffer }
{
    match outlined.claim(claim) {
        None => 0,
        Some(claim) => claim.buffer,
    }
}

/// Whether a claim is of a pure definition, or there is no such claim.
fn is_pure(outlined: &Outlined<'_>, claim: u64) -> bool
    ensures { result ≡ not (is_update ((outline_in outlined.now).claim claim).definition) }
{
    match outlined.claim(claim) {
        None => true,
        Some(claim) => claim.definition == 0,
    }
}

/// Whether the window's claim is of one of a loop's statements, of which the first begins at the line: no other changes the
/// claim's buffer, and none before it gives the loop's symbol a number.
#[tactic(auto, using(crate::proofs::OfOutline::Blocks::alone_more, crate::proofs::OfOutline::Blocks::lines_more))]
fn stands_alone(outlined: &Outlined<'_>, window: &Window, row: &[Stmt], line: u32) -> bool
    requires { line + block_lines (block (list_statements row.now)) < 2 ^ 32 }
    ensures { result ≡ stands_alone (outline_in outlined.now) window.now.symbol window.now.claim (block (list_statements row.now)) line }
{
    let buffer = buffer_of(outlined, window.claim);
    let mut begin = line;
    for k in 0..row.len() {
        let stmt = &row[k];
        let end = begin + stmt.line_count();
        if outlined.is_named(window.claim, u64::from(end.saturating_sub(1))) {
            return !some_change(&row[k + 1..], buffer);
        }
        if changes(stmt, buffer) || gives(window.symbol, stmt) {
            return false;
        }
        begin = end;
    }
    false
}

/// Whether the window's claim is of a pure definition and stands alone in the body of a loop over the window's symbol, which
/// begins at the line: no other statement of that block changes the claim's buffer.
pub fn is_alone_in(outlined: &Outlined<'_>, window: &Window, body: &Stmt, line: u32) -> bool
    requires { line + lines (statement_of body.now) < 2 ^ 32 }
    ensures { result ≡ is_alone_in (outline_in outlined.now) window.now (statement_of body.now) line }
{
    match body {
        Stmt::Seq(row) => {
            is_pure(outlined, window.claim) && stands_alone(outlined, window, row, line)
        }
        _ => false,
    }
}

/// Whether some loop of the window's symbol keeps the window, in a statement that begins at the line.
#[tactic(auto, using(crate::proofs::OfOutline::Blocks::keep_more, crate::proofs::OfOutline::Blocks::lines_more))]
#[cycle(keeping)]
pub fn keeps(outlined: &Outlined<'_>, window: &Window, stmt: &Stmt, line: u32) -> bool
    requires { line + lines (statement_of stmt.now) < 2 ^ 32 }
    ensures { result ≡ keeps (outline_in outlined.now) window.now (statement_of stmt.now) line }
{
    match stmt {
        Stmt::Seq(all) => some_keep(outlined, window, all, line),
        Stmt::For { symbol, body, .. } => {
            *symbol == window.symbol && is_alone_in(outlined, window, body, line + 1)
                || keeps(outlined, window, body, line + 1)
        }
        Stmt::First { first, later, .. } => {
            keeps(outlined, window, first, line + 1)
                || keeps(outlined, window, later, line + 2 + first.line_count())
        }
        Stmt::Guard { body, .. } => keeps(outlined, window, body, line + 1),
        Stmt::Let { .. }
        | Stmt::Alloc { .. }
        | Stmt::Fetch { .. }
        | Stmt::Store { .. }
        | Stmt::Publish { .. } => false,
    }
}

/// Whether some loop keeps the window, in a block's statements of which the first begins at the line.
#[tactic(auto, using(crate::proofs::OfOutline::Blocks::keep_more, crate::proofs::OfOutline::Blocks::lines_more))]
#[cycle(keeping)]
fn some_keep(outlined: &Outlined<'_>, window: &Window, all: &[Stmt], line: u32) -> bool
    requires { line + block_lines (block (list_statements all.now)) < 2 ^ 32 }
    ensures { result ≡ some_keep (outline_in outlined.now) window.now (block (list_statements all.now)) line }
{
    let mut begin = line;
    for stmt in all {
        if keeps(outlined, window, stmt, begin) {
            return true;
        }
        begin += stmt.line_count();
    }
    false
}
