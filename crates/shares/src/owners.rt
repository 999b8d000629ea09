//! Whose own each cell is.

ghost use Rattle.std.specs.Prelude.{◌≡◌, ℕ, ◌<◌, ◌+◌, ◌++◌, ◌∷◌, [], List, IsTrue, IsFalse, IfOk, OnOk, IfErr, length};
ghost use Rattle.plan.specs.View.{plan_of};
ghost use Rattle.plan.specs.Certificate.Certificate.{certificate_of};
ghost use Rattle.plan.specs.Certificate.Cells.{cells};
ghost use Rattle.orders.specs.Claimed.{IsClaimed};
ghost use Rattle.orders.specs.Work.{OwnIsParted};
ghost use Rattle.orders.specs.declared.lists.Piece.{Piece};
ghost use Rattle.shares.specs.Layout.{IsLayout};
ghost use Rattle.shares.specs.Faults.{IsApart};
ghost use Rattle.shares.specs.Owned.{AreOwners};

use crate::layout::{Layout, own_of};
use crate::taken::TakenCells;
use orders::{CellRuns, Piece, claim_cell};
use std::alloc::{AllocError, Global};

/// The own cells of the pieces of a plan, of which no two own a cell.
#[derive(Drop)]
pub(crate) struct Owned {
    /// The pieces with their own cells, and nothing fetched or needed.
    pub pieces: Vec<Piece>,
    /// Whether each cell is some piece's own.
    pub whole: bool,
    /// Whether all own regions stay inside.
    pub inside: bool,
}

/// Makes a piece the owner of these cells, where all are in the table and without an owner.
///
/// The time is linear in the cells, but for a logarithm of their runs.
pub(crate) fn claim_cells(owners: &mut [Option<u32>], cells: &CellRuns, piece: u32) -> bool
    ensures claimed { (own : ℕ → List ℕ) → own piece ≡ cells.now → IsClaimed own owners.old piece 0 → IsTrue result → IsClaimed own owners.new (piece + 1) 0 }
    ensures fault { (own : ℕ → List ℕ) → own piece ≡ cells.now → IsClaimed own owners.old piece 0 → IsFalse result → OwnIsParted (piece + 1) (length owners.old) own → ⊥ }
{
    for place in 0..cells.len() {
        if !claim_cell(owners, cells.cell(place), piece) {
            return false;
        }
    }
    true
}

/// Adds a piece with its own cells, and nothing fetched or needed.
fn push_own(alloc: Global, pieces: &mut Vec<Piece>, own: CellRuns) -> Result<(), AllocError>
    ensures { OnOk result ((made : Piece) × (pieces.new.items ≡ pieces.old.items ++ made ∷ []) × (made.own ≡ own)) }
{
    pieces.push(Piece {
        own,
        fetched: Vec::new(alloc),
        needs: Vec::new(alloc),
    })?;
    Ok(())
}

/// The own cells of each piece, whether each cell is one, and whether all own regions stay inside, or the first piece with an own
/// cell that an earlier one owns.
///
/// The time is linear in the cells and the pieces. Beside the lists, whose memory is that of their runs, a cell takes a bit.
pub(crate) fn owners_of(
    alloc: Global,
    layout: &Layout<'_>,
    count: u32,
) -> Result<Result<Owned, u32>, AllocError>
    requires layout { IsLayout layout.now }
    requires count { count ≡ length (cells (plan_of layout.now.plan.now)) }
    ensures owned { IfOk result (λ answer. IfOk answer (AreOwners (plan_of layout.now.plan.now) (certificate_of layout.now.cert.now))) }
    ensures overlap { IfOk result (λ answer. IfErr answer (λ piece. (piece < length layout.now.seats.items) × ¬ IsApart (plan_of layout.now.plan.now) (certificate_of layout.now.cert.now) piece)) }
{
    let mut taken = TakenCells::new(alloc, count)?;
    let mut pieces = Vec::with_capacity(alloc, layout.seats.len())?;
    let mut free = count;
    let mut inside = true;
    for piece in 0..layout.seats.len() as u32 {
        let own = own_of(alloc, layout, piece)?;
        if !taken.take_cells(&own.cells) {
            return Ok(Err(piece));
        }
        free -= own.cells.len() as u32;
        inside = inside & own.whole;
        push_own(alloc, &mut pieces, own.cells)?;
    }
    let whole = free == 0;
    Ok(Ok(Owned {
        pieces,
        whole,
        inside,
    }))
}
