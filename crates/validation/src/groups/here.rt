//! Where a statement of a group stands.

ghost use Rattle.std.specs.Prelude.{◌≡◌, Bool, false, IfOk, OnOk};
ghost use Rattle.plan.specs.View.{statement_of};
ghost use Rattle.plan.specs.Lists.{list_statements};
ghost use Rattle.plan.specs.Plan.{block};
ghost use Rattle.validation.specs.Groups.Here.{here_of};
ghost use Rattle.validation.specs.declared.stored.lines.GroupLines.{GroupLines};
ghost use Rattle.validation.specs.Groups.Lines.{after, in_later, in_loop, inside, may_precede, may_all_precede};

use crate::groups::sizes::{allotted, bound_in, held_in};
use lin::Sym;
use plan::Stmt;
use std::alloc::AllocError;

/// Where a statement stands: its line, the symbols in scope, those of them that loops around it have, the buffers in scope, the
/// places of buffers of earlier lines, how many symbols the grid and earlier lines bind and how many buffers those allocate, and
/// whether lines `fetch` may still come.
#[derive(Drop)]
pub(crate) struct Here {
    pub line: u32,
    pub symbols: Vec<Sym>,
    pub loops: Vec<Sym>,
    pub buffers: Vec<u64>,
    pub used: u64,
    pub bound: u64,
    pub held: u64,
    pub fetching: bool,
}

/// Whether lines `fetch` may come behind the statement.
#[cycle(precede)]
fn may_precede(stmt: &Stmt) -> bool
    ensures { result ≡ may_precede (statement_of stmt.now) }
{
    match stmt {
        Stmt::Seq(all) => may_all_precede(all),
        Stmt::Let { .. } | Stmt::Alloc { .. } | Stmt::Fetch { .. } | Stmt::Publish { .. } => true,
        Stmt::For { .. } | Stmt::First { .. } | Stmt::Guard { .. } | Stmt::Store { .. } => false,
    }
}

/// The same of a block's statements.
#[cycle(precede)]
fn may_all_precede(all: &[Stmt]) -> bool
    ensures { result ≡ may_all_precede (block (list_statements all.now)) }
{
    for stmt in all {
        if !may_precede(stmt) {
            return false;
        }
    }
    true
}

impl Here {
    /// The same place, in memory of its own.
    pub(crate) fn copy(&self) -> Result<Here, AllocError>
        ensures { IfOk result (λ copy. (group : GroupLines) (last : Bool) → here_of group copy last ≡ here_of group self.now last) }
    {
        Ok(Here {
            line: self.line,
            symbols: self.symbols.clone()?,
            loops: self.loops.clone()?,
            buffers: self.buffers.clone()?,
            used: self.used,
            bound: self.bound,
            held: self.held,
            fetching: self.fetching,
        })
    }

    /// Inside a guard that stands here, or the part for a first turn.
    pub(crate) fn inside(&self) -> Result<Here, AllocError>
        ensures { IfOk result (λ inner. (group : GroupLines) (last : Bool) → here_of group inner false ≡ inside (here_of group self.now last)) }
    {
        Ok(Here {
            line: self.line.saturating_add(1),
            symbols: self.symbols.clone()?,
            loops: self.loops.clone()?,
            buffers: self.buffers.clone()?,
            used: self.used,
            bound: self.bound,
            held: self.held,
            fetching: false,
        })
    }

    /// Inside a loop over the symbol that stands here.
    pub(crate) fn in_loop(&self, symbol: Sym) -> Result<Here, AllocError>
        ensures { IfOk result (λ inner. (group : GroupLines) (last : Bool) → here_of group inner false ≡ in_loop symbol (here_of group self.now last)) }
    {
        let mut inner = self.inside()?;
        inner.symbols.push(symbol)?;
        inner.loops.push(symbol)?;
        inner.bound = inner.bound.saturating_add(1);
        Ok(inner)
    }

    /// Inside the part for other turns, behind that for a first turn that stands here.
    pub(crate) fn in_later(&self, first: &Stmt) -> Result<Here, AllocError>
        ensures { IfOk result (λ inner. (group : GroupLines) (last : Bool) → here_of group inner false ≡ in_later (statement_of first.now) (here_of group self.now last)) }
    {
        let mut inner = self.inside()?;
        inner.line = inner
            .line
            .saturating_add(first.line_count())
            .saturating_add(1);
        inner.used = inner.used.saturating_add(allotted(first));
        inner.bound = inner.bound.saturating_add(bound_in(first));
        inner.held = inner.held.saturating_add(held_in(first));
        Ok(inner)
    }

    /// Goes on behind a statement that stands here.
    pub(crate) fn pass(&mut self, stmt: &Stmt) -> Result<(), AllocError>
        ensures { OnOk result ((group : GroupLines) (last : Bool) → here_of group self.new last ≡ after (statement_of stmt.now) (here_of group self.old last)) }
    {
        match stmt {
            Stmt::Alloc { buffer, .. } => self.buffers.push(*buffer)?,
            Stmt::Let { symbol, .. } => self.symbols.push(*symbol)?,
            _ => {}
        }
        self.line = self.line.saturating_add(stmt.line_count());
        self.used = self.used.saturating_add(allotted(stmt));
        self.bound = self.bound.saturating_add(bound_in(stmt));
        self.held = self.held.saturating_add(held_in(stmt));
        self.fetching = self.fetching && may_precede(stmt);
        Ok(())
    }
}
