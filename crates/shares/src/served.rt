//! Whether pieces look only at what they need.

ghost use Rattle.std.specs.Prelude.{◌≡◌, ℕ, ◌<◌, ◌^◌, IsTrue, IfOk, length};
ghost use Rattle.orders.specs.Faults.{IsFirstUnserved};
ghost use Rattle.orders.specs.Lists.{own_lists, fetched_lists, needs_lists};
ghost use Rattle.orders.specs.Work.{NeedsServe, OwnIsParted};

use crate::found::all_found;
use orders::{Piece, owners_of};
use std::alloc::{AllocError, Global};

/// The first of pieces that part so many cells that needs a piece that is not earlier, or fetches a cell that no piece that it needs
/// owns.
///
/// The time is linear in the cells, the pieces and the entries of the lists. What is fetched is mostly found run by run where it is
/// owned. A table of the cells' owners, of 8 bytes a cell, is made only where looks at needed pieces, as many as there are cells, don't
/// find all of it.
pub(crate) fn first_unserved(
    alloc: Global,
    cells: u32,
    pieces: &[Piece],
) -> Result<Option<u32>, AllocError>
    requires pieces { length pieces.now < 2 ^ 32 }
    requires parted { OwnIsParted (length pieces.now) cells (own_lists pieces.now) }
    ensures { IfOk result (λ found. IsFirstUnserved (length pieces.now) (own_lists pieces.now) (fetched_lists pieces.now) (needs_lists pieces.now) found) }
{
    if all_found(pieces, cells as usize) {
        return Ok(None);
    }
    match owners_of(alloc, cells, pieces)? {
        Ok(owners) => orders::first_unserved(alloc, &owners, pieces),
        Err(piece) => Ok(Some(piece)),
    }
}
