//! Values of symbols.

ghost use Rattle.std.specs.Prelude.{◌≡◌, ◌≤◌, ◌<◌, ◌%◌, ◌/◌, [], take, length, slice_get, vec_capacity, IfOk};
ghost use Rattle.plan.specs.Certificate.Cells.{grid_point, grid_value, piece_count};
ghost use Rattle.interpreter.specs.Bindings.{symbols_of, also};

use lin::Sym;
use std::alloc::{AllocError, Global};
use std::marker::Model;

/// A symbol's value, and whether it is the first turn of the symbol's loop.
#[derive(Clone, Copy, Drop)]
pub(crate) struct Binding {
    pub symbol: Sym,
    pub value: i64,
    pub first: bool,
}

/// The values of symbols: those of a grid point, and what was bound since, with room for so many of each. A symbol that
/// has none is 0.
#[derive(Drop)]
pub(crate) struct Symbols {
    grid: Vec<u32>,
    grid_room: usize,
    bound: Vec<Binding>,
    room: usize,
}

impl Model for Symbols {
    ghost use Rattle.std.specs.Prelude.{◌≤◌, vec_capacity};
    ghost use Rattle.interpreter.specs.Bindings.{Bindings};

    ghost Value = { Bindings };

    ghost view = { λ s. record { grid = s.grid.items; bound = s.bound.items; grid_room = s.grid_room; room = s.room } };

    ghost invariant = { λ s. (s.grid_room ≤ vec_capacity s.grid) × (s.room ≤ vec_capacity s.bound) };
}

/// A coordinate of a grid point, if it has so many.
fn coordinate(at: &[u32], symbol: Sym) -> Option<u32>
    ensures { result ≡ slice_get at.now symbol }
{
    at.get(symbol).copied()
}

/// The value of one of the grid's symbols, 0 where the grid has not so many.
fn grid_value(at: &[u32], symbol: Sym) -> i64
    ensures { result ≡ grid_value at.now symbol }
{
    match coordinate(at, symbol) {
        Some(number) => i64::from(number),
        None => 0,
    }
}

/// The remainder and the quotient of a number by another.
#[tactic(auto, using(crate::proofs::GridPoints::remainder_small, crate::proofs::GridPoints::quotient_small))]
fn divided(number: u32, by: u64) -> (u32, u32)
    requires { 0 < by }
    ensures remainder { result.0 ≡ number % by }
    ensures quotient { result.1 ≡ number / by }
{
    let number = u64::from(number);
    ((number % by) as u32, (number / by) as u32)
}

/// Finds the point of a grid that so many come before. The first symbol runs fastest.
fn find_point(grid: &[u64], rank: u32, at: &mut Vec<u32>)
    requires inside { rank < piece_count grid.now }
    requires room { length grid.now ≤ vec_capacity at.old }
    ensures point { at.new.items ≡ grid_point grid.now rank }
    ensures room { vec_capacity at.new ≡ vec_capacity at.old }
{
    at.clear();
    let mut rest = rank;
    for extent in grid {
        let (coordinate, quotient) = divided(rest, *extent);
        at.push_reserved(coordinate);
        rest = quotient;
    }
}

impl Symbols {
    /// No symbol at all, and room for grid points of so many coordinates and to bind so many symbols.
    pub(crate) fn new(alloc: Global, grid_room: usize, room: usize) -> Result<Symbols, AllocError>
        ensures none { IfOk result (λ s. (s.grid ≡ []) × (s.bound ≡ [])) }
        ensures room { IfOk result (λ s. (s.grid_room ≡ grid_room) × (s.room ≡ room)) }
    {
        Ok(Symbols {
            grid: Vec::with_capacity(alloc, grid_room)?,
            grid_room,
            bound: Vec::with_capacity(alloc, room)?,
            room,
        })
    }

    /// Takes the symbols of the point of a grid that so many come before, those of the grid alone.
    pub(crate) fn begin(&mut self, grid: &[u64], rank: u32)
        requires inside { rank < piece_count grid.now }
        requires room { length grid.now ≤ self.old.grid_room }
        ensures { self.new ≡ record { grid = grid_point grid.now rank; bound = []; grid_room = self.old.grid_room; room = self.old.room } }
    {
        find_point(grid, rank, &mut self.grid);
        self.bound.clear();
    }

    /// A symbol's value, 0 where it has none.
    pub(crate) fn value(&self, symbol: Sym) -> i64
        ensures { result ≡ (symbols_of self.now).value symbol }
    {
        let mut value = grid_value(&self.grid, symbol);
        for binding in &self.bound {
            if symbol == binding.symbol {
                value = binding.value;
            }
        }
        value
    }

    /// Whether it is the first turn of the symbol's loop.
    pub(crate) fn is_first(&self, symbol: Sym) -> bool
        ensures { result ≡ (symbols_of self.now).first symbol }
    {
        let mut first = false;
        for binding in &self.bound {
            if symbol == binding.symbol {
                first = binding.first;
            }
        }
        first
    }

    /// Binds a symbol, whatever it was before.
    pub(crate) fn bind(&mut self, binding: Binding)
        requires { length self.old.bound < self.old.room }
        ensures { self.new ≡ also self.old binding }
    {
        let Ok(()) = self.bound.push(binding) else {
            unreachable!()
        };
    }

    /// How many symbols were bound since the grid's.
    pub(crate) fn bound_count(&self) -> usize
        ensures { result ≡ length self.now.bound }
    {
        self.bound.len()
    }

    /// Forgets all but the first so many bound symbols.
    pub(crate) fn forget(&mut self, kept: usize)
        ensures { self.new ≡ record { grid = self.old.grid; bound = take kept self.old.bound; grid_room = self.old.grid_room; room = self.old.room } }
    {
        self.bound.truncate(kept);
    }
}
