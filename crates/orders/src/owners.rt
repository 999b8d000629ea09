//! Whose own each cell is.

ghost use Rattle.std.specs.Prelude.{◌≡◌, ℕ, ◌<◌, ◌≤◌, ◌+◌, ◌^◌, ◌↔◌, Some, None, IsTrue, IsFalse, IfOk, IfErr, MatchOption, IsSome, All, length, replicate, slice_get, slice_index_or, slice_set};
ghost use Rattle.std.specs.Bool.{OnTrue};
ghost use Rattle.orders.specs.Lists.{own_lists};
ghost use Rattle.orders.specs.Claimed.{IsClaimed, IsClaimedBy};
ghost use Rattle.orders.specs.Faults.{IsFirstUnparted};
ghost use Rattle.orders.specs.Work.{OwnIsParted};

use crate::cell_runs::CellRuns;
use crate::lists::Piece;
use std::alloc::{AllocError, Global};

/// Makes the piece the owner of the cell where the cell is in the table and has none.
pub fn claim_cell(owners: &mut [Option<u32>], cell: u32, piece: u32) -> bool
    ensures free { IsTrue result ↔ (slice_get owners.old cell ≡ Some None) }
    ensures claimed { OnTrue result (owners.new ≡ slice_set owners.old cell (Some piece)) }
    ensures kept { IsFalse result → owners.new ≡ owners.old }
{
    match owners.get(cell as usize) {
        Some(None) => {
            owners[cell as usize] = Some(piece);
            true
        }
        _ => false,
    }
}

/// The own cells of a piece.
fn own_of(pieces: &[Piece], piece: u32) -> &CellRuns
    requires { piece < length pieces.now }
    ensures { result.now ≡ own_lists pieces.now piece }
{
    &pieces[piece as usize].own
}

/// Makes the piece the owner of its own cells, where all are in the table and without an owner.
fn claim_piece(owners: &mut [Option<u32>], pieces: &[Piece], piece: u32) -> bool
    requires piece { piece < length pieces.now }
    requires before { IsClaimed (own_lists pieces.now) owners.old piece 0 }
    ensures claimed { IsTrue result → IsClaimed (own_lists pieces.now) owners.new (piece + 1) 0 }
    ensures fault { IsFalse result → OwnIsParted (piece + 1) (length owners.old) (own_lists pieces.now) → ⊥ }
{
    let own = own_of(pieces, piece);
    for place in 0..own.len() {
        if !claim_cell(owners, own.cell(place), piece) {
            return false;
        }
    }
    true
}

/// The owner of each cell, or the first piece with an own cell that is not in the table or stands before.
///
/// `cells` is the size of the table. The time is linear in the cells and the own lists, but for a logarithm of their runs, and a
/// cell takes 8 bytes.
pub fn owners_of(
    alloc: Global,
    cells: u32,
    pieces: &[Piece],
) -> Result<Result<Vec<Option<u32>>, u32>, AllocError>
    requires { length pieces.now < 2 ^ 32 }
    ensures claimed { IfOk result (λ answer. IfOk answer (λ owners. IsClaimedBy (own_lists pieces.now) owners.items (length pieces.now))) }
    ensures cells { IfOk result (λ answer. IfOk answer (λ owners. length owners.items ≡ cells)) }
    ensures parted { IfOk result (λ answer. IfOk answer (λ _. OwnIsParted (length pieces.now) cells (own_lists pieces.now))) }
    ensures fault { IfOk result (λ answer. IfErr answer (λ piece. IsFirstUnparted (length pieces.now) cells (own_lists pieces.now) piece)) }
{
    let mut owners: Vec<Option<u32>> = vec![in alloc; None; cells as usize]?;
    for piece in 0..pieces.len() as u32 {
        if !claim_piece(owners.as_mut_slice(), pieces, piece) {
            return Ok(Err(piece));
        }
    }
    Ok(Ok(owners))
}

/// The first cell without an owner.
pub fn first_gap(owners: &[Option<u32>]) -> Option<usize>
    ensures { MatchOption result (All (λ owner. IsSome owner) owners.now) (λ cell. (slice_get owners.now cell ≡ Some None)
        × ((c : ℕ) → c < cell → IsSome (slice_index_or owners.now c None))) }
{
    owners.iter().position(|owner| owner.is_none())
}
