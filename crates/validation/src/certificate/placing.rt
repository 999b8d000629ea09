//! Where a line lies, seen from a statement or from a group.

ghost use Rattle.std.specs.Prelude.{◌≡◌, IfOk};
ghost use Rattle.lin.specs.Forms.{Form};
ghost use Rattle.lin.specs.declared.span.Span1.{Span1};
ghost use Rattle.plan.specs.declared.stmt.Kind.{Kind};
ghost use Rattle.plan.specs.Lists.{list_statements};
ghost use Rattle.plan.specs.Plan.{For, Guard, block};
ghost use Rattle.plan.specs.View.{group_of, statement_of};
ghost use Rattle.validation.specs.Certificate.Placing.{Spot as SpotSaid, ends_at, past};
ghost use Rattle.validation.specs.Certificate.Ways.{IsWay, IsWayIn, IsWayInFirst, IsWayInLater, IsWayInBlock, IsSeen, spot_of};

use crate::certificate::spot::Spot;
use lin::Sym;
use plan::{Group, Stmt};
use std::alloc::{AllocError, Global};

/// Where a line lies, seen from a statement.
#[derive(Clone, Copy, PartialEq, Eq, Drop)]
pub(crate) enum Way {
    /// A statement inside this one, or this one, ends at it.
    Ends,
    /// It is one of the statement's lines, and no statement ends at it.
    Within,
    /// It lies so many lines behind the line that follows the statement.
    Past(u64),
}

/// Where a line lies, seen from a group.
#[derive(Drop)]
pub(crate) enum Seen {
    /// It is one of the group's lines: where the statement stands that ends there, seen behind it.
    Here(Spot),
    /// It is one of the group's lines, and no statement ends there.
    Inside,
    /// It lies so many lines behind the line that follows the group.
    Behind(u64),
}

/// Where a line so many lines on lies, seen from a single line.
fn way_from_line(left: u64) -> Way
    ensures { (x : SpotSaid) → IsWay 1 (ends_at x 0 left) left x x result }
{
    match left.checked_sub(1) {
        None => Way::Ends,
        Some(left) => Way::Past(left),
    }
}

/// Where a line lies, so many lines behind the first one of a statement that stands here. Where a statement ends there, it is
/// noted where that one stands, seen behind it.
#[cycle(ways)]
fn way_in(stmt: &Stmt, left: u64, spot: &mut Spot) -> Result<Way, AllocError>
    ensures { IfOk result (λ way. IsWayIn (statement_of stmt.now) left (spot_of spot.old) (spot_of spot.new) way) }
{
    match stmt {
        Stmt::Seq(all) => way_in_block(all, left, spot),
        Stmt::For { symbol, body, .. } => way_in_loop(*symbol, body, left, spot),
        Stmt::First { first, later, .. } => match way_in_first(first, left, spot)? {
            Way::Past(left) => way_in_later(later, left, spot),
            way => Ok(way),
        },
        Stmt::Guard { body, .. } => way_in_guard(body, left, spot),
        Stmt::Alloc { .. } | Stmt::Let { .. } => way_past(stmt, left, spot),
        Stmt::Fetch { .. } | Stmt::Store { .. } | Stmt::Publish { .. } => Ok(way_from_line(left)),
    }
}

/// The same for a line behind which more is in scope.
fn way_past(stmt: &Stmt, left: u64, spot: &mut Spot) -> Result<Way, AllocError>
    ensures { IfOk result (λ way. IsWay 1 (ends_at (past (statement_of stmt.now) (spot_of spot.old)) 0 left) left (spot_of spot.old) (spot_of spot.new) way) }
{
    match left.checked_sub(1) {
        None => {
            spot.pass(stmt)?;
            Ok(Way::Ends)
        }
        Some(left) => Ok(Way::Past(left)),
    }
}

/// The same for the line of a loop, so many lines behind its first one.
#[cycle(ways)]
fn way_in_loop(symbol: Sym, body: &Stmt, left: u64, spot: &mut Spot) -> Result<Way, AllocError>
    ensures { (x : Span1) (kind : Kind) → IfOk result (λ way. IsWayIn (For symbol x kind (statement_of body.now)) left (spot_of spot.old) (spot_of spot.new) way) }
{
    let Some(left) = left.checked_sub(1) else {
        return Ok(Way::Within);
    };
    let outer = spot.symbols.len();
    let loops = spot.loops.len();
    spot.enter(symbol)?;
    match way_in(body, left, spot)? {
        Way::Past(left) => {
            spot.symbols.truncate(outer);
            spot.loops.truncate(loops);
            Ok(way_from_line(left))
        }
        way => Ok(way),
    }
}

/// The same for the line of a guard.
#[cycle(ways)]
fn way_in_guard(body: &Stmt, left: u64, spot: &mut Spot) -> Result<Way, AllocError>
    ensures { (low high : Form) → IfOk result (λ way. IsWayIn (Guard low high (statement_of body.now)) left (spot_of spot.old) (spot_of spot.new) way) }
{
    let Some(left) = left.checked_sub(1) else {
        return Ok(Way::Within);
    };
    match way_in(body, left, spot)? {
        Way::Past(left) => Ok(way_from_line(left)),
        way => Ok(way),
    }
}

/// The same for the part for the first turn, with the line before it.
#[cycle(ways)]
fn way_in_first(first: &Stmt, left: u64, spot: &mut Spot) -> Result<Way, AllocError>
    ensures { IfOk result (λ way. IsWayInFirst (statement_of first.now) left (spot_of spot.old) (spot_of spot.new) way) }
{
    let Some(left) = left.checked_sub(1) else {
        return Ok(Way::Within);
    };
    way_in(first, left, spot)
}

/// The same for the part for later turns, with the lines before and behind it.
#[cycle(ways)]
fn way_in_later(later: &Stmt, left: u64, spot: &mut Spot) -> Result<Way, AllocError>
    ensures { IfOk result (λ way. IsWayInLater (statement_of later.now) left (spot_of spot.old) (spot_of spot.new) way) }
{
    let Some(left) = left.checked_sub(1) else {
        return Ok(Way::Within);
    };
    match way_in(later, left, spot)? {
        Way::Past(left) => Ok(way_from_line(left)),
        way => Ok(way),
    }
}

/// The same for the statements of a block.
#[cycle(ways)]
fn way_in_block(all: &[Stmt], left: u64, spot: &mut Spot) -> Result<Way, AllocError>
    ensures { IfOk result (λ way. IsWayInBlock (block (list_statements all.now)) left (spot_of spot.old) (spot_of spot.new) way) }
{
    let symbols = spot.symbols.len();
    let buffers = spot.buffers.len();
    let mut left = left;
    for stmt in all {
        match way_in(stmt, left, spot)? {
            Way::Past(rest) => left = rest,
            way => return Ok(way),
        }
        spot.pass(stmt)?;
    }
    spot.symbols.truncate(symbols);
    spot.buffers.truncate(buffers);
    Ok(Way::Past(left))
}

/// Where a line lies, so many lines behind the line `group` of a group.
pub(crate) fn seen_from(alloc: Global, group: &Group, left: u64) -> Result<Seen, AllocError>
    ensures { IfOk result (λ seen. IsSeen (group_of group.now) left seen) }
{
    let Some(left) = left.checked_sub(1) else {
        return Ok(Seen::Inside);
    };
    let mut spot = Spot::of_group(alloc, group)?;
    match way_in(&group.body, left, &mut spot)? {
        Way::Ends => Ok(Seen::Here(spot)),
        Way::Within => Ok(Seen::Inside),
        Way::Past(left) => Ok(Seen::Behind(left)),
    }
}
