//! Whether pieces look only at what they need.

ghost use Rattle.std.specs.Prelude.{◌≡◌, ◌<◌, ◌≤◌, ◌+◌, ◌^◌, ◌↔◌, Some, None, IsTrue, IfOk, All, length, slice_get};
ghost use Rattle.orders.specs.Lists.{own_lists, fetched_lists, needs_lists};
ghost use Rattle.orders.specs.Claimed.{IsClaimedBy, HasMarkedOwner, IsMarkedBefore, AreMarked};
ghost use Rattle.orders.specs.Faults.{IsFirstUnserved};
ghost use Rattle.orders.specs.Work.{NeedsServe};

use crate::lists::Piece;
use std::alloc::{AllocError, Global};

/// The pieces that a piece needs.
fn needs_of(pieces: &[Piece], piece: u32) -> &[u32]
    requires { piece < length pieces.now }
    ensures { result.now ≡ needs_lists pieces.now piece }
{
    pieces[piece as usize].needs.as_slice()
}

/// The cells that a piece looks at.
fn fetched_of(pieces: &[Piece], piece: u32) -> &[u32]
    requires { piece < length pieces.now }
    ensures { result.now ≡ fetched_lists pieces.now piece }
{
    pieces[piece as usize].fetched.as_slice()
}

/// Whether a piece needs only earlier ones.
fn is_earlier(needs: &[u32], piece: u32) -> bool
    ensures { IsTrue result ↔ All (λ needed. needed < piece) needs.now }
{
    needs.iter().all(|needed| *needed < piece)
}

/// Marks the needed pieces of a piece.
fn mark(marks: &mut [Option<u32>], needs: &[u32], piece: u32)
    requires within { All (λ needed. needed < length marks.old) needs.now }
    requires before { IsMarkedBefore marks.old piece }
    ensures before { IsMarkedBefore marks.new (piece + 1) }
    ensures marked { AreMarked marks.new needs.now piece }
{
    for needed in needs {
        marks[*needed as usize] = Some(piece);
    }
}

/// Whether the owner of a cell has the mark of a piece.
fn is_marked(owners: &[Option<u32>], marks: &[Option<u32>], cell: u32, piece: u32) -> bool
    ensures { IsTrue result ↔ HasMarkedOwner owners.now marks.now piece cell }
{
    match owners.get(cell as usize) {
        Some(Some(owner)) => match marks.get(*owner as usize) {
            Some(Some(by)) => *by == piece,
            _ => false,
        },
        _ => false,
    }
}

/// Whether the owners of these cells have the mark of a piece.
fn are_marked(owners: &[Option<u32>], marks: &[Option<u32>], cells: &[u32], piece: u32) -> bool
    ensures { IsTrue result ↔ All (λ cell. HasMarkedOwner owners.now marks.now piece cell) cells.now }
{
    for cell in cells {
        if !is_marked(owners, marks, *cell, piece) {
            return false;
        }
    }
    true
}

/// Whether a piece needs only earlier pieces, and looks only at own cells of those.
fn is_served(
    owners: &[Option<u32>],
    marks: &mut [Option<u32>],
    pieces: &[Piece],
    piece: u32,
) -> bool
    requires piece { piece < length pieces.now }
    requires claimed { IsClaimedBy (own_lists pieces.now) owners.now (length pieces.now) }
    requires marks { length marks.old ≡ length pieces.now }
    requires before { IsMarkedBefore marks.old piece }
    requires served { NeedsServe piece (own_lists pieces.now) (fetched_lists pieces.now) (needs_lists pieces.now) }
    ensures answer { IsTrue result ↔ NeedsServe (piece + 1) (own_lists pieces.now) (fetched_lists pieces.now) (needs_lists pieces.now) }
    ensures before { IsMarkedBefore marks.new (piece + 1) }
{
    let needs = needs_of(pieces, piece);
    if !is_earlier(needs, piece) {
        return false;
    }
    mark(marks, needs, piece);
    are_marked(owners, marks, fetched_of(pieces, piece), piece)
}

/// The first piece that its needed pieces do not serve, found by marks that nobody has set yet.
fn first_unmarked(
    owners: &[Option<u32>],
    marks: &mut [Option<u32>],
    pieces: &[Piece],
) -> Option<u32>
    requires pieces { length pieces.now < 2 ^ 32 }
    requires claimed { IsClaimedBy (own_lists pieces.now) owners.now (length pieces.now) }
    requires marks { length marks.old ≡ length pieces.now }
    requires before { IsMarkedBefore marks.old 0 }
    ensures { IsFirstUnserved (length pieces.now) (own_lists pieces.now) (fetched_lists pieces.now) (needs_lists pieces.now) result }
{
    for piece in 0..pieces.len() as u32 {
        if !is_served(owners, marks, pieces, piece) {
            return Some(piece);
        }
    }
    None
}

/// The first piece that needs a piece that is not earlier, or looks at a cell that no piece that it needs owns.
///
/// `owners` has the owner of each cell. The time is linear in the pieces, the needed pieces and the fetched cells,
/// and a piece takes 8 bytes.
pub fn first_unserved(
    alloc: Global,
    owners: &[Option<u32>],
    pieces: &[Piece],
) -> Result<Option<u32>, AllocError>
    requires pieces { length pieces.now < 2 ^ 32 }
    requires claimed { IsClaimedBy (own_lists pieces.now) owners.now (length pieces.now) }
    ensures { IfOk result (λ found. IsFirstUnserved (length pieces.now) (own_lists pieces.now) (fetched_lists pieces.now) (needs_lists pieces.now) found) }
{
    let mut marks: Vec<Option<u32>> = vec![in alloc; None; pieces.len()]?;
    Ok(first_unmarked(owners, marks.as_mut_slice(), pieces))
}
