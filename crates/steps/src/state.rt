//! The crew after some steps.

ghost use Rattle.std.specs.Prelude.{◌≡◌, is_some, count_by};
ghost use Rattle.orders.specs.Crew.{cell_at};
ghost use Rattle.orders.specs.Seen.{Snapshot};
ghost use Rattle.steps.specs.Seats.{snapshot_of};

use crate::crew::Crew;
use std::marker::Model;

/// The crew after some steps: its table, and what each worker is at.
#[derive(Drop)]
pub struct State {
    pub(crate) crew: Crew,
}

impl Model for State {
    ghost Value = { Snapshot };

    ghost view = { λ s. snapshot_of s.crew };
}

impl State {
    /// How many pieces were drawn.
    pub fn drawn(&self) -> u32
        ensures { result ≡ self.now.table.drawn }
    {
        self.crew.table.drawn()
    }

    /// How many pieces are finished.
    pub fn finished(&self) -> usize
        ensures { result ≡ count_by (λ done. done) self.now.table.finished }
    {
        self.crew.table.finished()
    }

    /// How many cells are set.
    pub fn set(&self) -> usize
        ensures { result ≡ count_by is_some self.now.table.cells }
    {
        self.crew.table.set()
    }

    /// The value of each cell that is set.
    pub fn cells(&self) -> &[Option<i64>]
        ensures { result.now ≡ self.now.table.cells }
    {
        self.crew.table.cells()
    }

    /// The value of a cell, if it is set.
    pub fn cell(&self, cell: u32) -> Option<i64>
        ensures { result ≡ cell_at self.now.table cell }
    {
        self.crew.table.cell(cell)
    }
}
