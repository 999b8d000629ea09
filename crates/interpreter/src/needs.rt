//! What the statements of a group need.

ghost use Rattle.std.specs.Prelude.{◌≡◌, ◌∷◌, ◌+◌, ◌≤◌, [], length, IfSome, IsTrue, OnOk};
ghost use Rattle.plan.specs.Lists.{list_statements};
ghost use Rattle.plan.specs.Plan.{block};
ghost use Rattle.plan.specs.View.{statement_of};
ghost use Rattle.tree.specs.Term.{term_of};
ghost use Rattle.interpreter.specs.Evaluation.Indices.{indices_in};
ghost use Rattle.interpreter.specs.Needs.{allotments, block_allotments, block_call_indices, block_coordinate_count, block_symbol_count, call_indices, coordinate_count, count_in, places_in, symbol_count, BlockIsShort, StatementIsShort};
ghost use Rattle.interpreter.specs.Scratches.{IsNoted};
ghost use Rattle.interpreter.specs.Targets.{indices_of, indices_of_all};

use crate::buffers::Limit;
use crate::evaluation::indices_after;
use plan::{Coordinate, Index, Places, Stmt};
use std::alloc::AllocError;
use tree::Expr;

/// What some statements need: the buffers that they allocate, with their places; how many lines bind a symbol; how many
/// coordinates all points have at which they fetch and store; and how many indices all calls have.
#[derive(Drop)]
pub(crate) struct Needs {
    pub limits: Vec<Limit>,
    pub symbols: usize,
    pub coordinates: usize,
    pub indices: usize,
}

/// How many places one coordinate has.
fn count_in(places: &Places) -> u64
    ensures { result ≡ count_in places.now }
{
    match places {
        Places::From { count, .. } | Places::Folded { count } => *count,
    }
}

/// How many places all coordinates make, if that is a `usize`.
fn places_in(places: &[Places]) -> Option<usize>
    ensures { IfSome result (λ n. n ≡ places_in places.now) }
{
    match places {
        [] => Some(1),
        [first, rest @ ..] => places_in(rest)?.checked_mul(count_in(first) as usize),
    }
}

/// A number, and one more for each index of the calls that find a coordinate, and of those that find some.
fn indices_after_coordinate(coordinate: &Coordinate, before: usize) -> Option<usize>
    ensures { IfSome result (λ n. n ≡ before + indices_of coordinate.now) }
{
    match &coordinate.index {
        Index::Form(_) => Some(before),
        Index::Found(expr) => indices_after(expr, before),
    }
}

/// The same of all coordinates.
fn indices_after_coordinates(coordinates: &[Coordinate], before: usize) -> Option<usize>
    ensures { IfSome result (λ n. n ≡ before + indices_of_all coordinates.now) }
{
    match coordinates {
        [] => Some(before),
        [first, rest @ ..] => {
            indices_after_coordinates(rest, indices_after_coordinate(first, before)?)
        }
    }
}

/// There is no room for buffers of more coordinates.
fn only_if(short: bool) -> Result<(), AllocError>
    ensures { OnOk result (IsTrue short) }
{
    if short { Ok(()) } else { Err(AllocError) }
}

impl Needs {
    /// One more line that binds a symbol.
    fn bind(&mut self) -> Result<(), AllocError>
        ensures { OnOk result (IsNoted self.old self.new [] 1 0 0 (Unit {0})) }
    {
        self.symbols = self.symbols.checked_add(1).ok_or(AllocError)?;
        Ok(())
    }

    /// One more buffer.
    fn allot(&mut self, buffer: u64, places: &[Places]) -> Result<(), AllocError>
        ensures { OnOk result (IsNoted self.old self.new (record { buffer = buffer; places = places_in places.now } ∷ []) 0 0 0 (length places.now ≤ 4)) }
    {
        only_if(places.len() <= 4)?;
        let places = places_in(places).ok_or(AllocError)?;
        self.limits.push(Limit { buffer, places })?;
        Ok(())
    }

    /// One more point of so many coordinates.
    pub(crate) fn reach(&mut self, coordinates: usize) -> Result<(), AllocError>
        ensures { OnOk result (IsNoted self.old self.new [] 0 coordinates 0 (Unit {0})) }
    {
        self.coordinates = self.coordinates.checked_add(coordinates).ok_or(AllocError)?;
        Ok(())
    }

    /// One more store.
    fn store(&mut self, coordinates: &[Coordinate], value: &Expr) -> Result<(), AllocError>
        ensures { OnOk result (IsNoted self.old self.new [] 0 (length coordinates.now) (indices_of_all coordinates.now + indices_in (term_of value.now)) (Unit {0})) }
    {
        self.reach(coordinates.len())?;
        let found = indices_after_coordinates(coordinates, self.indices).ok_or(AllocError)?;
        self.indices = indices_after(value, found).ok_or(AllocError)?;
        Ok(())
    }
}

/// Notes what a statement needs.
#[cycle(needing)]
pub(crate) fn note_needs(stmt: &Stmt, needs: &mut Needs) -> Result<(), AllocError>
    ensures { OnOk result (IsNoted needs.old needs.new (allotments (statement_of stmt.now)) (symbol_count (statement_of stmt.now)) (coordinate_count (statement_of stmt.now)) (call_indices (statement_of stmt.now)) (StatementIsShort (statement_of stmt.now))) }
{
    match stmt {
        Stmt::Seq(all) => note_all_needs(all, needs),
        Stmt::For { body, .. } => {
            note_needs(body, needs)?;
            needs.bind()
        }
        Stmt::Guard { body, .. } => note_needs(body, needs),
        Stmt::First { first, later, .. } => {
            note_needs(first, needs)?;
            note_needs(later, needs)
        }
        Stmt::Let { .. } => needs.bind(),
        Stmt::Alloc { buffer, places, .. } => needs.allot(*buffer, places),
        Stmt::Fetch { region, .. } => needs.reach(region.as_slice().len()),
        Stmt::Store {
            coordinates,
            value,
            ..
        } => needs.store(coordinates, value),
        Stmt::Publish { .. } => Ok(()),
    }
}

/// Notes what a block's statements need.
#[cycle(needing)]
fn note_all_needs(all: &[Stmt], needs: &mut Needs) -> Result<(), AllocError>
    ensures { OnOk result (IsNoted needs.old needs.new (block_allotments (block (list_statements all.now))) (block_symbol_count (block (list_statements all.now))) (block_coordinate_count (block (list_statements all.now))) (block_call_indices (block (list_statements all.now))) (BlockIsShort (block (list_statements all.now)))) }
{
    for stmt in all {
        note_needs(stmt, needs)?;
    }
    Ok(())
}
