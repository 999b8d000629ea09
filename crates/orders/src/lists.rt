//! Whether pieces part the cells among them, and look only at what they need.

ghost use Rattle.std.specs.Prelude.{◌≡◌, ◌<◌, ◌^◌, ◌↔◌, IfOk, IsNone, length};
ghost use Rattle.orders.specs.Lists.{AreSound};
ghost use Rattle.orders.specs.Faults.{IsFirstFault};

use crate::cell_runs::CellRuns;
use crate::needs::first_unserved;
use crate::owners::{first_gap, owners_of};
use std::alloc::{AllocError, Global};

/// The cells that a piece puts, those that it looks at, and the pieces that must be finished before.
#[derive(Drop)]
pub struct Piece {
    pub own: CellRuns,
    pub fetched: Vec<u32>,
    pub needs: Vec<u32>,
}

/// What is wrong with the lists of pieces.
#[derive(Clone, Copy, Debug, PartialEq, Eq, Drop)]
pub enum ListFault {
    /// An own cell of this piece is not in the table, or stands before: in this piece's own list or an earlier one's.
    Own(u32),
    /// No piece owns this cell.
    Gap(u32),
    /// This piece needs a piece that is not earlier, or looks at a cell that none of its needed pieces owns.
    Needs(u32),
}

/// What is wrong with the lists of pieces: the first piece with an own cell too many, or else the first cell that no
/// piece owns, or else the first piece whose needed pieces do not serve it. `None` where the lists are sound.
///
/// `cells` is the size of the table. The time is linear in the cells, the pieces and the entries of the lists.
pub fn first_fault(
    alloc: Global,
    cells: u32,
    pieces: &[Piece],
) -> Result<Option<ListFault>, AllocError>
    requires { length pieces.now < 2 ^ 32 }
    ensures sound { IfOk result (λ fault. IsNone fault ↔ AreSound cells pieces.now) }
    ensures first { IfOk result (λ fault. IsFirstFault cells pieces.now fault) }
{
    let owners = match owners_of(alloc, cells, pieces)? {
        Ok(owners) => owners,
        Err(piece) => return Ok(Some(ListFault::Own(piece))),
    };
    if let Some(cell) = first_gap(&owners) {
        return Ok(Some(ListFault::Gap(cell as u32)));
    }
    match first_unserved(alloc, &owners, pieces)? {
        Some(piece) => Ok(Some(ListFault::Needs(piece))),
        None => Ok(None),
    }
}
