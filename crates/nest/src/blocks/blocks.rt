//! The groups and blocks of a plan while its lines are read.

ghost use Rattle.std.specs.Prelude.{◌≡◌, IfOk, IfSome, IsSome, MatchOption, Some, None};
ghost use Rattle.plan.specs.View.{statement_of};
ghost use Rattle.plan.specs.Lists.{list_statements, list_groups};
ghost use Rattle.nest.specs.Blocks.View.{line_of};
ghost use Rattle.nest.specs.Blocks.Nesting as spec;
ghost use Rattle.nest.specs.Blocks.Drafts.{open_of, level_of, levels_of, blocks_of};

use crate::blocks::line::Line;
use lin::{Lin, Region, Span1, Sym};
use plan::{Group, Kind, Stmt};
use std::alloc::{AllocError, Global};

/// A block that is open, by its first line.
#[derive(Drop)]
pub enum Open {
    Group {
        function: String,
        region: Region,
        grid: Vec<u64>,
    },
    For {
        symbol: Sym,
        span: Span1,
        kind: Kind,
    },
    First {
        symbol: Sym,
    },
    /// The second arm of a `first`, whose first arm is whole.
    Else {
        symbol: Sym,
        first: Vec<Stmt>,
    },
    Guard {
        low: Lin,
        high: Lin,
    },
}

/// An open block and the statements that stand in it so far.
#[derive(Drop)]
pub struct Level {
    pub open: Open,
    pub inside: Vec<Stmt>,
}

/// The groups that are whole, and the open blocks of the last one, the innermost last.
#[derive(Drop)]
pub struct Blocks {
    pub groups: Vec<Group>,
    pub levels: Vec<Level>,
}

/// One statement more in the innermost block. None where no block is open.
#[tactic(auto, using(crate::proofs::Levels::levels_push, crate::proofs::Levels::statements_push, crate::proofs::Levels::levels_none))]
fn put(mut levels: Vec<Level>, stmt: Stmt) -> Result<Option<Vec<Level>>, AllocError>
    ensures { IfOk result (λ r. MatchOption r (spec.put (statement_of stmt) (levels_of levels.items) ≡ None) (λ v. spec.put (statement_of stmt) (levels_of levels.items) ≡ Some (levels_of v.items))) }
{
    let Some(mut level) = levels.pop() else {
        return Ok(None);
    };
    level.inside.push(stmt)?;
    levels.push(level)?;
    Ok(Some(levels))
}

/// A block more, inside the innermost.
#[tactic(auto, using(crate::proofs::Levels::levels_push, crate::proofs::Levels::statements_push, crate::proofs::Levels::levels_none))]
fn opened(
    alloc: Global,
    mut levels: Vec<Level>,
    block: Open,
) -> Result<Option<Vec<Level>>, AllocError>
    ensures { IfOk result (λ r. MatchOption r (spec.opened (open_of block) (levels_of levels.items) ≡ None) (λ v. spec.opened (open_of block) (levels_of levels.items) ≡ Some (levels_of v.items))) }
{
    if levels.is_empty() {
        return Ok(None);
    }
    let inside = Vec::new(alloc);
    levels.push(Level {
        open: block,
        inside,
    })?;
    Ok(Some(levels))
}

/// The second arm in place of the first. None where the innermost block is no first arm.
#[tactic(auto, using(crate::proofs::Levels::levels_push, crate::proofs::Levels::statements_push, crate::proofs::Levels::levels_none))]
fn second_arm(alloc: Global, mut levels: Vec<Level>) -> Result<Option<Vec<Level>>, AllocError>
    ensures { IfOk result (λ r. MatchOption r (spec.second_arm (levels_of levels.items) ≡ None) (λ v. spec.second_arm (levels_of levels.items) ≡ Some (levels_of v.items))) }
{
    let Some(level) = levels.pop() else {
        return Ok(None);
    };
    let Open::First { symbol } = level.open else {
        return Ok(None);
    };
    let open = Open::Else {
        symbol,
        first: level.inside,
    };
    let inside = Vec::new(alloc);
    levels.push(Level { open, inside })?;
    Ok(Some(levels))
}

/// Statements as a block.
fn block(inside: Vec<Stmt>) -> Stmt
    ensures { statement_of result ≡ spec.body (list_statements inside.items) }
{
    Stmt::Seq(inside)
}

/// Statements as a body.
fn body(alloc: Global, inside: Vec<Stmt>) -> Result<Box<Stmt>, AllocError>
    ensures { IfOk result (λ made. statement_of made.value ≡ spec.body (list_statements inside.items)) }
{
    Ok(Box::new(alloc, block(inside))?)
}

/// The statement that a block is when it ends. None where `end` cannot end it.
fn ended(alloc: Global, open: Open, inside: Vec<Stmt>) -> Result<Option<Stmt>, AllocError>
    ensures { IfOk result (λ r. MatchOption r (spec.ended (open_of «open») (list_statements inside.items) ≡ None) (λ s. spec.ended (open_of «open») (list_statements inside.items) ≡ Some (statement_of s))) }
{
    match open {
        Open::For { symbol, span, kind } => {
            let body = body(alloc, inside)?;
            Ok(Some(Stmt::For {
                symbol,
                span,
                kind,
                body,
            }))
        }
        Open::Else { symbol, first } => {
            let first = body(alloc, first)?;
            let later = body(alloc, inside)?;
            Ok(Some(Stmt::First {
                symbol,
                first,
                later,
            }))
        }
        Open::Guard { low, high } => {
            let body = body(alloc, inside)?;
            Ok(Some(Stmt::Guard { low, high, body }))
        }
        _unfinished => Ok(None),
    }
}

/// The blocks after the line `end`.
#[tactic(auto, using(crate::proofs::Levels::levels_push, crate::proofs::Levels::statements_push, crate::proofs::Levels::levels_none))]
fn closed(alloc: Global, mut levels: Vec<Level>) -> Result<Option<Vec<Level>>, AllocError>
    ensures { IfOk result (λ r. MatchOption r (spec.closed (levels_of levels.items) ≡ None) (λ v. spec.closed (levels_of levels.items) ≡ Some (levels_of v.items))) }
{
    let Some(level) = levels.pop() else {
        return Ok(None);
    };
    let Some(stmt) = ended(alloc, level.open, level.inside)? else {
        return Ok(None);
    };
    put(levels, stmt)
}

/// The groups, the last one with them. None where a block inside it is open.
#[tactic(auto, using(crate::proofs::Levels::levels_push, crate::proofs::Levels::statements_push, crate::proofs::Levels::levels_none))]
pub(crate) fn whole_groups(
    groups: Vec<Group>,
    mut levels: Vec<Level>,
) -> Result<Option<Vec<Group>>, AllocError>
    ensures { IfOk result (λ r. MatchOption r (spec.whole_groups (list_groups groups.items) (levels_of levels.items) ≡ None) (λ v. spec.whole_groups (list_groups groups.items) (levels_of levels.items) ≡ Some (list_groups v.items))) }
{
    let Some(level) = levels.pop() else {
        return Ok(Some(groups));
    };
    if !levels.is_empty() {
        return Ok(None);
    }
    with_group(groups, level.open, level.inside)
}

/// Groups and the one that ends. None where the block is no group.
#[tactic(auto, using(crate::proofs::Levels::groups_push))]
fn with_group(
    mut groups: Vec<Group>,
    last: Open,
    inside: Vec<Stmt>,
) -> Result<Option<Vec<Group>>, AllocError>
    ensures { IfOk result (λ r. MatchOption r (spec.with_group (list_groups groups.items) (open_of last) (list_statements inside.items) ≡ None) (λ v. spec.with_group (list_groups groups.items) (open_of last) (list_statements inside.items) ≡ Some (list_groups v.items))) }
{
    match last {
        Open::Group {
            function,
            region,
            grid,
        } => {
            let body = block(inside);
            groups.push(Group {
                function,
                region,
                grid,
                body,
            })?;
            Ok(Some(groups))
        }
        _other => Ok(None),
    }
}

/// The blocks after the first line of a group. None where a block is open or the number is not the next.
#[tactic(auto, using(crate::proofs::Levels::groups_count))]
fn next_group(
    alloc: Global,
    groups: Vec<Group>,
    levels: Vec<Level>,
    number: u32,
    first: Open,
) -> Result<Option<Blocks>, AllocError>
    ensures { IfOk result (λ r. MatchOption r (spec.next_group number (open_of first) (list_groups groups.items) (levels_of levels.items) ≡ None) (λ b. spec.next_group number (open_of first) (list_groups groups.items) (levels_of levels.items) ≡ Some (blocks_of b))) }
{
    let Some(groups) = whole_groups(groups, levels)? else {
        return Ok(None);
    };
    if number as usize != groups.len() {
        return Ok(None);
    }
    let inside = Vec::new(alloc);
    let mut levels = Vec::new(alloc);
    levels.push(Level {
        open: first,
        inside,
    })?;
    Ok(Some(Blocks { groups, levels }))
}

/// Groups with the open blocks of the last one.
fn with_levels(groups: Vec<Group>, levels: Option<Vec<Level>>) -> Option<Blocks>
    ensures { MatchOption levels (result ≡ None) (λ v. IfSome result (λ b. blocks_of b ≡ record { groups = list_groups groups.items; levels = levels_of v.items }) × IsSome result) }
{
    match levels {
        None => None,
        Some(levels) => Some(Blocks { groups, levels }),
    }
}

/// The statement that a line about a buffer is. None for other lines.
fn buffer_statement(line: Line) -> Option<Stmt>
    ensures { MatchOption result (spec.buffer_statement (line_of line) ≡ None) (λ s. spec.buffer_statement (line_of line) ≡ Some (statement_of s)) }
{
    match line {
        Line::Alloc {
            buffer,
            function,
            places,
        } => Some(Stmt::Alloc {
            buffer,
            function,
            places,
        }),
        Line::Fetch {
            buffer,
            group,
            region,
        } => Some(Stmt::Fetch {
            buffer,
            group,
            region,
        }),
        Line::Store {
            buffer,
            definition,
            coordinates,
            value,
        } => Some(Stmt::Store {
            buffer,
            definition,
            coordinates,
            value,
        }),
        _other => None,
    }
}

/// The open blocks after a line about a buffer. None where it is none, or no block is open.
fn with_buffer_statement(levels: Vec<Level>, line: Line) -> Result<Option<Vec<Level>>, AllocError>
    ensures { IfOk result (λ r. MatchOption r (spec.with_buffer_statement (line_of line) (levels_of levels.items) ≡ None) (λ v. spec.with_buffer_statement (line_of line) (levels_of levels.items) ≡ Some (levels_of v.items))) }
{
    let Some(stmt) = buffer_statement(line) else {
        return Ok(None);
    };
    put(levels, stmt)
}

/// The open blocks after a line that is none of the head's and begins no group. None where it cannot stand there.
fn next_levels(
    alloc: Global,
    levels: Vec<Level>,
    line: Line,
) -> Result<Option<Vec<Level>>, AllocError>
    ensures { IfOk result (λ r. MatchOption r (spec.next_levels (line_of line) (levels_of levels.items) ≡ None) (λ v. spec.next_levels (line_of line) (levels_of levels.items) ≡ Some (levels_of v.items))) }
{
    match line {
        Line::For { symbol, span, kind } => {
            opened(alloc, levels, Open::For { symbol, span, kind })
        }
        Line::First { symbol } => opened(alloc, levels, Open::First { symbol }),
        Line::Guard { low, high } => opened(alloc, levels, Open::Guard { low, high }),
        Line::Else => second_arm(alloc, levels),
        Line::End => closed(alloc, levels),
        Line::Let {
            symbol,
            pick,
            forms,
        } => {
            let stmt = Stmt::Let {
                symbol,
                pick,
                forms,
            };
            put(levels, stmt)
        }
        Line::Publish { claim } => put(levels, Stmt::Publish { claim }),
        other => with_buffer_statement(levels, other),
    }
}

/// The blocks after a line that is none of the head's. None where it cannot stand there.
pub(crate) fn next_blocks(
    alloc: Global,
    blocks: Blocks,
    line: Line,
) -> Result<Option<Blocks>, AllocError>
    ensures { IfOk result (λ r. MatchOption r (spec.next_blocks (line_of line) (blocks_of blocks) ≡ None) (λ b. spec.next_blocks (line_of line) (blocks_of blocks) ≡ Some (blocks_of b))) }
{
    let Blocks { groups, levels } = blocks;
    match line {
        Line::Group {
            number,
            function,
            region,
            grid,
        } => {
            let first = Open::Group {
                function,
                region,
                grid,
            };
            next_group(alloc, groups, levels, number, first)
        }
        inner => {
            let levels = next_levels(alloc, levels, inner)?;
            Ok(with_levels(groups, levels))
        }
    }
}
