//! Where a statement stands in its group.

ghost use Rattle.std.specs.Prelude.{◌≡◌, IfOk, OnOk};
ghost use Rattle.plan.specs.View.{group_of, statement_of};
ghost use Rattle.validation.specs.Certificate.Placing.{group_spot, in_loop, past};
ghost use Rattle.validation.specs.Certificate.Ways.{spot_of};

use lin::Sym;
use plan::{Group, Stmt};
use soundness::outline::forms::grid_symbols;
use std::alloc::{AllocError, Global};

/// Where a statement stands: the symbols of the grid, of the loops round it and of lines `let` before it, the innermost last, those
/// of the loops alone, and the buffers in scope.
#[derive(Drop)]
pub(crate) struct Spot {
    pub symbols: Vec<Sym>,
    pub loops: Vec<Sym>,
    pub buffers: Vec<u64>,
}

impl Spot {
    /// Where a group's body begins.
    pub(crate) fn of_group(alloc: Global, group: &Group) -> Result<Spot, AllocError>
        ensures { IfOk result (λ spot. spot_of spot ≡ group_spot (group_of group.now)) }
    {
        Ok(Spot {
            symbols: grid_symbols(alloc, group.grid.len())?,
            loops: Vec::new(alloc),
            buffers: Vec::new(alloc),
        })
    }

    /// Goes into a loop over the symbol.
    pub(crate) fn enter(&mut self, symbol: Sym) -> Result<(), AllocError>
        ensures { OnOk result (spot_of self.new ≡ in_loop symbol (spot_of self.old)) }
    {
        self.symbols.push(symbol)?;
        self.loops.push(symbol)?;
        Ok(())
    }

    /// Goes on behind a statement that stands here.
    pub(crate) fn pass(&mut self, stmt: &Stmt) -> Result<(), AllocError>
        ensures { OnOk result (spot_of self.new ≡ past (statement_of stmt.now) (spot_of self.old)) }
    {
        match stmt {
            Stmt::Alloc { buffer, .. } => self.buffers.push(*buffer)?,
            Stmt::Let { symbol, .. } => self.symbols.push(*symbol)?,
            _ => {}
        }
        Ok(())
    }
}
