//! How many coordinates the buffers of a group have.

ghost use Rattle.std.specs.Prelude.{◌≡◌, ℕ, IfOk, OnOk};
ghost use Rattle.plan.specs.Lists.{list_statements};
ghost use Rattle.plan.specs.Plan.{block};
ghost use Rattle.plan.specs.View.{statement_of};
ghost use Rattle.plan.specs.Semantics.Setting.{allocated, block_allocated, dimensions_in, or_else};
ghost use Rattle.interpreter.specs.Sizes.{first_size, size_in, size_of, sizes_at};

use plan::Stmt;
use std::alloc::{AllocError, Global};

/// A buffer and how many coordinates it has.
#[derive(Clone, Copy, Drop)]
pub(crate) struct Size {
    pub buffer: u64,
    pub dimensions: usize,
}

/// Notes the sizes of the buffers that a statement allocates, behind those of earlier ones.
#[cycle(noting)]
fn note_sizes(stmt: &Stmt, sizes: &mut Vec<Size>) -> Result<(), AllocError>
    ensures { OnOk result ((b : ℕ) → first_size sizes.new.items b ≡ or_else (first_size sizes.old.items b) (size_of (allocated (statement_of stmt.now) b))) }
{
    match stmt {
        Stmt::Seq(all) => note_all_sizes(all, sizes),
        Stmt::For { body, .. } | Stmt::Guard { body, .. } => note_sizes(body, sizes),
        Stmt::First { first, later, .. } => {
            note_sizes(first, sizes)?;
            note_sizes(later, sizes)
        }
        Stmt::Alloc { buffer, places, .. } => {
            sizes.push(Size {
                buffer: *buffer,
                dimensions: places.len(),
            })?;
            Ok(())
        }
        Stmt::Let { .. } | Stmt::Fetch { .. } | Stmt::Store { .. } | Stmt::Publish { .. } => Ok(()),
    }
}

/// Notes the sizes of the buffers that a block's statements allocate.
#[cycle(noting)]
fn note_all_sizes(all: &[Stmt], sizes: &mut Vec<Size>) -> Result<(), AllocError>
    ensures { OnOk result ((b : ℕ) → first_size sizes.new.items b ≡ or_else (first_size sizes.old.items b) (size_of (block_allocated (block (list_statements all.now)) b))) }
{
    for stmt in all {
        note_sizes(stmt, sizes)?;
    }
    Ok(())
}

/// The sizes of the buffers that a group's body allocates.
pub(crate) fn sizes_of(alloc: Global, body: &Stmt) -> Result<Vec<Size>, AllocError>
    ensures { IfOk result (λ sizes. (b : ℕ) → size_in sizes.items b ≡ dimensions_in (allocated (statement_of body.now) b)) }
{
    let mut sizes = Vec::new(alloc);
    note_sizes(body, &mut sizes)?;
    Ok(sizes)
}

/// How many coordinates a buffer has, 0 where there is no such buffer.
pub(crate) fn size_in(sizes: &[Size], buffer: u64) -> usize
    ensures { result ≡ size_in sizes.now buffer }
{
    for size in sizes {
        if size.buffer == buffer {
            return size.dimensions;
        }
    }
    0
}

/// The sizes of the buffers of the group of a number; none where there is no such group.
pub(crate) fn sizes_at(sizes: &[Vec<Size>], number: usize) -> &[Size]
    ensures { result.now ≡ sizes_at sizes.now number }
{
    match sizes.get(number) {
        Some(found) => found.as_slice(),
        None => &[],
    }
}
