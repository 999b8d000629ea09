//! The table that all workers share.

ghost use Rattle.std.specs.Prelude.{◌≡◌, ℕ, ◌+◌, ◌^◌, ◌<◌, IfOk, Option, None, false, true, is_some, count_by, length, replicate, slice_set};
ghost use Rattle.orders.specs.Crew.{cell_at, is_finished, Table as MachineTable};

use std::alloc::{AllocError, Global};
use std::marker::Model;

/// The cells, the pieces drawn and the pieces finished.
#[derive(Drop)]
pub struct Table {
    cells: Vec<Option<i64>>,
    drawn: u32,
    finished: Vec<bool>,
}

impl Model for Table {
    ghost Value = { MachineTable };

    ghost view = { λ t. record { cells = t.cells.items; drawn = t.drawn; finished = t.finished.items } };
}

impl Table {
    /// Nothing is drawn, and all cells are unset.
    pub fn new(alloc: Global, cells: u32, pieces: u32) -> Result<Table, AllocError>
        ensures cells { IfOk result (λ t. t.cells ≡ replicate cells None) }
        ensures drawn { IfOk result (λ t. t.drawn ≡ 0) }
        ensures finished { IfOk result (λ t. t.finished ≡ replicate pieces false) }
    {
        Ok(Table {
            cells: vec![in alloc; None; cells as usize]?,
            drawn: 0,
            finished: vec![in alloc; false; pieces as usize]?,
        })
    }

    /// How many pieces were drawn.
    pub fn drawn(&self) -> u32
        ensures { result ≡ self.now.drawn }
    {
        self.drawn
    }

    /// How many pieces are finished.
    pub fn finished(&self) -> usize
        ensures { result ≡ count_by (λ b. b) self.now.finished }
    {
        self.finished.iter().filter(|done| **done).count()
    }

    /// How many cells are set.
    pub fn set(&self) -> usize
        ensures { result ≡ count_by is_some self.now.cells }
    {
        self.cells.iter().filter(|cell| cell.is_some()).count()
    }

    /// The value of each cell that is set.
    pub fn cells(&self) -> &[Option<i64>]
        ensures { result.now ≡ self.now.cells }
    {
        self.cells.as_slice()
    }

    /// The value of a cell, if it is set.
    pub fn cell(&self, cell: u32) -> Option<i64>
        ensures { result ≡ cell_at self.now cell }
    {
        match self.cells.get(cell as usize) {
            Some(value) => *value,
            None => None,
        }
    }

    /// Whether a piece is finished.
    pub fn is_finished(&self, piece: u32) -> bool
        ensures { result ≡ is_finished self.now piece }
    {
        match self.finished.get(piece as usize) {
            Some(done) => *done,
            None => false,
        }
    }

    /// Draws the next piece.
    pub fn draw(&mut self)
        requires { self.old.drawn + 1 < 2 ^ 32 }
        ensures { self.new ≡ record self.old { drawn = self.old.drawn + 1 } }
    {
        self.drawn += 1;
    }

    /// Puts a value on a cell.
    pub fn put(&mut self, cell: u32, value: Option<i64>)
        ensures { self.new ≡ record self.old { cells = slice_set self.old.cells cell value } }
    {
        if let Some(place) = self.cells.get_mut(cell as usize) {
            *place = value;
        }
    }

    /// Sets the flag of a piece.
    pub fn finish(&mut self, piece: u32)
        ensures { self.new ≡ record self.old { finished = slice_set self.old.finished piece true } }
    {
        if let Some(flag) = self.finished.get_mut(piece as usize) {
            *flag = true;
        }
    }
}
