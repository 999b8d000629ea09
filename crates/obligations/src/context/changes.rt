//! What statements change.

ghost use Rattle.std.specs.Prelude.{◌≡◌, ◌||◌, ◌&&◌, ◌==◌, if◌then◌else◌, true, ℕ, IfOk, OnOk};
ghost use Rattle.plan.specs.Lists.{list_statements};
ghost use Rattle.plan.specs.Plan.{block};
ghost use Rattle.plan.specs.View.{statement_of};
ghost use Rattle.meaning.specs.Names.{same_name};
ghost use Rattle.soundness.specs.Claims.{changes, block_changes, is_update, updates, block_updates, writes, block_writes};
ghost use Rattle.soundness.specs.Obligations.{is_member};
ghost use Rattle.soundness.specs.Outline.View.{outline_in};

use crate::context::known::is_member;
use plan::Stmt;
use soundness::outline::Outlined;
use std::alloc::{AllocError, Global};

/// Notes a buffer, if it is not noted.
fn note(buffer: u64, changed: &mut Vec<u64>) -> Result<(), AllocError>
    ensures { OnOk result ((b : ℕ) → is_member b changed.new.items ≡ (is_member b changed.old.items || (buffer == b))) }
{
    if !is_member(buffer, changed) {
        changed.push(buffer)?;
    }
    Ok(())
}

/// Notes the buffers that a statement's lines change.
#[cycle(changing)]
fn note_changes(stmt: &Stmt, changed: &mut Vec<u64>) -> Result<(), AllocError>
    ensures { OnOk result ((b : ℕ) → is_member b changed.new.items ≡ (is_member b changed.old.items || changes (statement_of stmt.now) b)) }
{
    match stmt {
        Stmt::Seq(all) => note_all_changes(all, changed),
        Stmt::For { body, .. } | Stmt::Guard { body, .. } => note_changes(body, changed),
        Stmt::First { first, later, .. } => {
            note_changes(first, changed)?;
            note_changes(later, changed)
        }
        Stmt::Alloc { buffer, .. } | Stmt::Fetch { buffer, .. } | Stmt::Store { buffer, .. } => {
            note(*buffer, changed)
        }
        Stmt::Let { .. } | Stmt::Publish { .. } => Ok(()),
    }
}

/// Notes the buffers that the lines of a block's statements change.
#[cycle(changing)]
fn note_all_changes(all: &[Stmt], changed: &mut Vec<u64>) -> Result<(), AllocError>
    ensures { OnOk result ((b : ℕ) → is_member b changed.new.items ≡ (is_member b changed.old.items || block_changes (block (list_statements all.now)) b)) }
{
    for stmt in all {
        note_changes(stmt, changed)?;
    }
    Ok(())
}

/// The buffers that a statement's lines change, each once.
pub(crate) fn changed(alloc: Global, stmt: &Stmt) -> Result<Vec<u64>, AllocError>
    ensures { IfOk result (λ buffers. (b : ℕ) → is_member b buffers.items ≡ changes (statement_of stmt.now) b) }
{
    let mut changed = Vec::new(alloc);
    note_changes(stmt, &mut changed)?;
    Ok(changed)
}

/// Whether all that a statement's lines change in a buffer are updates of the function.
#[cycle(updating)]
pub fn only_updates(outlined: &Outlined<'_>, stmt: &Stmt, buffer: u64, function: &str) -> bool
    ensures { result ≡ updates (outline_in outlined.now).setting (statement_of stmt.now) buffer function.now }
{
    match stmt {
        Stmt::Seq(all) => all_only_update(outlined, all, buffer, function),
        Stmt::For { body, .. } | Stmt::Guard { body, .. } => {
            only_updates(outlined, body, buffer, function)
        }
        Stmt::First { first, later, .. } => {
            only_updates(outlined, first, buffer, function)
                && only_updates(outlined, later, buffer, function)
        }
        Stmt::Alloc { buffer: other, .. } | Stmt::Fetch { buffer: other, .. } => *other != buffer,
        Stmt::Store {
            buffer: other,
            definition,
            ..
        } => is_update_of(outlined, *other, *definition, buffer, function),
        Stmt::Let { .. } | Stmt::Publish { .. } => true,
    }
}

/// The same of a block's statements.
#[cycle(updating)]
fn all_only_update(outlined: &Outlined<'_>, all: &[Stmt], buffer: u64, function: &str) -> bool
    ensures { result ≡ block_updates (outline_in outlined.now).setting (block (list_statements all.now)) buffer function.now }
{
    for stmt in all {
        if !only_updates(outlined, stmt, buffer, function) {
            return false;
        }
    }
    true
}

/// Whether a store of a definition in one buffer is of another, or an update of the function.
fn is_update_of(
    outlined: &Outlined<'_>,
    stored: u64,
    definition: u64,
    buffer: u64,
    function: &str,
) -> bool
    ensures { result ≡ (if stored == buffer then same_name ((outline_in outlined.now).setting.buffer_function stored) function.now && is_update definition else true) }
{
    stored != buffer || outlined.buffer_function(stored) == function && definition > 0
}

/// Whether all that a statement's lines change in a buffer is of the function, and the buffer stays.
#[cycle(writing)]
pub fn only_writes(outlined: &Outlined<'_>, stmt: &Stmt, buffer: u64, function: &str) -> bool
    ensures { result ≡ writes (outline_in outlined.now).setting (statement_of stmt.now) buffer function.now }
{
    match stmt {
        Stmt::Seq(all) => all_only_write(outlined, all, buffer, function),
        Stmt::For { body, .. } | Stmt::Guard { body, .. } => {
            only_writes(outlined, body, buffer, function)
        }
        Stmt::First { first, later, .. } => {
            only_writes(outlined, first, buffer, function)
                && only_writes(outlined, later, buffer, function)
        }
        Stmt::Alloc { buffer: other, .. } => *other != buffer,
        Stmt::Fetch {
            buffer: other,
            group,
            ..
        } => *other != buffer || is_same(outlined.group_function(*group), function),
        Stmt::Store { buffer: other, .. } => {
            *other != buffer || is_same(outlined.buffer_function(*other), function)
        }
        Stmt::Let { .. } | Stmt::Publish { .. } => true,
    }
}

/// The same of a block's statements.
#[cycle(writing)]
fn all_only_write(outlined: &Outlined<'_>, all: &[Stmt], buffer: u64, function: &str) -> bool
    ensures { result ≡ block_writes (outline_in outlined.now).setting (block (list_statements all.now)) buffer function.now }
{
    for stmt in all {
        if !only_writes(outlined, stmt, buffer, function) {
            return false;
        }
    }
    true
}

/// Whether the names are the same.
pub fn is_same(left: &str, right: &str) -> bool
    ensures { result ≡ same_name left.now right.now }
{
    left == right
}
