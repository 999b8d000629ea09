//! The first flaw of the lines of a plan's groups.

ghost use Rattle.std.specs.Prelude.{◌≡◌, ◌++◌, ◌<◌, ◌&&◌, ◌^◌, [], Some, slice_get, not, nat_le, length, true, IfOk};
ghost use Rattle.std.specs.List.{list_all, list_any};
ghost use Rattle.algo.specs.View.{algorithm_of};
ghost use Rattle.plan.specs.Certificate.Certificate.{certificate_of};
ghost use Rattle.meaning.specs.Names.{same_name};
ghost use Rattle.plan.specs.Lists.{list_groups, list_statements};
ghost use Rattle.plan.specs.Lines.{group_line};
ghost use Rattle.plan.specs.Plan.{Group as GroupSaid, block};
ghost use Rattle.plan.specs.View.{group_of, plan_of, statement_of};
ghost use Rattle.headline.specs.Sound.{publishes, block_publishes};
ghost use Rattle.plan.specs.Certificate.Cells.{piece_count};
ghost use Rattle.soundness.specs.Outline.Flaws.{first_of, line_told, told};
ghost use Rattle.soundness.specs.Outline.View.{certificate_in, group_in, outline_in, plan_in};
ghost use Rattle.soundness.specs.Outline.Forms.{spans_are_over};
ghost use Rattle.validation.specs.Stored.Definitions.{has_variables as known_with, parts_named, stored_in};
ghost use Rattle.validation.specs.Groups.Sizes.{cell_count, is_extent, more};
ghost use Rattle.validation.specs.Stored.Sizes.{counted};
ghost use Rattle.validation.specs.Groups.Here.{here_of};
ghost use Rattle.validation.specs.Groups.Lines.{flaws, flaws_of_groups, group_flaws, group_line_flaws, groups_flaws, lines_from, on, start};
ghost use Rattle.validation.specs.declared.stored.lines.GroupLines.{GroupLines};

use crate::groups::here::Here;
use crate::groups::lines::{line_flaw, stmt_flaw};
use crate::groups::sizes::{are_extents, cell_count, piece_count};
use crate::stored::{Ground, GroupLines, has_variables, stored_in};
use algo::Algo;
use algo::scoping::same_name;
use lin::Sym;
use plan::certificate::Cert;
use plan::{Group, Plan, Stmt};
use soundness::outline::Outlined;
use soundness::outline::forms::{grid_symbols, spans_are_over, spans_are_within_limits};
use soundness::outline::refusals::Flaw;
use std::alloc::{AllocError, Global};

/// The most cells of all groups together.
const MOST_CELLS: u64 = 1 << 24;
/// The most pieces of all groups together.
const MOST_PIECES: u64 = 1 << 20;
/// The most symbols of a grid, as of a group.
const MOST_SYMBOLS: usize = 256;
/// The line `group` of a plan's first group.
const FIRST_LINE: u32 = 4;

/// Whether some line of the statement publishes.
#[cycle(publishes)]
fn publishes(stmt: &Stmt) -> bool
    ensures { result ≡ publishes (statement_of stmt.now) }
{
    match stmt {
        Stmt::Seq(all) => any_publishes(all),
        Stmt::For { body, .. } | Stmt::Guard { body, .. } => publishes(body),
        Stmt::First { first, later, .. } => publishes(first) || publishes(later),
        Stmt::Publish { .. } => true,
        Stmt::Let { .. } | Stmt::Alloc { .. } | Stmt::Fetch { .. } | Stmt::Store { .. } => false,
    }
}

/// The same of a block's statements.
#[cycle(publishes)]
fn any_publishes(all: &[Stmt]) -> bool
    ensures { result ≡ block_publishes (block (list_statements all.now)) }
{
    for stmt in all {
        if publishes(stmt) {
            return true;
        }
    }
    false
}

/// Whether one of the groups is of this function.
fn is_of_some(groups: &[Group], name: &str) -> bool
    ensures { result ≡ list_any (λ h. same_name h.function name.now) (list_groups groups.now) }
{
    for group in groups {
        if same_name(group.function.as_str(), name) {
            return true;
        }
    }
    false
}

/// The flaw of the line `group` behind these groups, where groups up to this one have so many cells and pieces.
fn group_line_flaw(
    algo: &Algo,
    line: u32,
    earlier: &[Group],
    group: &Group,
    cells: u64,
    pieces: u64,
) -> Option<Flaw>
    ensures { told result ≡ first_of (group_line_flaws (algorithm_of algo.now) line (list_groups earlier.now) (group_of group.now) cells pieces) }
{
    let named = group_is_named(algo, earlier, group);
    let within = spans_are_within_limits(group.region.as_slice());
    line_flaw(
        line,
        named,
        within,
        true,
        group_is_limited(group, cells, pieces),
    )
}

/// Whether the group's function is known and no earlier group's, and its region has a span of constants for each variable.
fn group_is_named(algo: &Algo, earlier: &[Group], group: &Group) -> bool
    ensures { result ≡ (not (list_any (λ h. same_name h.function (group_of group.now).function) (list_groups earlier.now))
        && (known_with (parts_named (algorithm_of algo.now) (group_of group.now).function) (length (group_of group.now).region) && spans_are_over [] (group_of group.now).region)) }
{
    let name = group.function.as_str();
    let region = group.region.as_slice();
    !is_of_some(earlier, name)
        && has_variables(algo, name, region.len())
        && spans_are_over(&[], region)
}

/// Whether the group's extents, the cells and pieces up to it, the line that publishes and the grid's symbols are as they may be.
fn group_is_limited(group: &Group, cells: u64, pieces: u64) -> bool
    ensures { result ≡ (list_all is_extent (group_of group.now).region && (nat_le cells (2 ^ 24) && (nat_le pieces (2 ^ 20) && (publishes (group_of group.now).body && nat_le (length (group_of group.now).grid) 256)))) }
{
    are_extents(group.region.as_slice())
        && cells <= MOST_CELLS
        && pieces <= MOST_PIECES
        && publishes(&group.body)
        && group.grid.len() <= MOST_SYMBOLS
}

/// The lines of a group whose line `group` is this one.
fn lines_from(line: u32, group: &Group) -> GroupLines
    ensures { result ≡ lines_from line (group_of group.now) }
{
    GroupLines {
        first: line,
        behind: line
            .saturating_add(group.body.line_count())
            .saturating_add(1),
    }
}

/// Where the body of a group begins, behind its line.
fn start(line: u32, grid: Vec<Sym>, alloc: Global) -> Here
    ensures { (group : GroupLines) → here_of group result true ≡ record { group = group; line = on line 1; symbols = grid.items; loops = []; buffers = []; used = 0; bound = length grid.items; held = 0; fetching = true; last = true } }
{
    let bound = grid.len() as u64;
    Here {
        line: line.saturating_add(1),
        symbols: grid,
        loops: Vec::new(alloc),
        buffers: Vec::new(alloc),
        used: 0,
        bound,
        held: 0,
        fetching: true,
    }
}

/// The first flaw of the lines of a group's body, where the line `group` is this one.
fn body_flaw(
    alloc: Global,
    algo: &Algo,
    outlined: &Outlined<'_>,
    stored: &[bool],
    line: u32,
) -> Result<Option<Flaw>, AllocError>
    requires { stored.now ≡ stored_in (algorithm_of algo.now) (plan_in outlined.now) }
    ensures { IfOk result (λ flaw. told flaw ≡ first_of (flaws (algorithm_of algo.now) (plan_in outlined.now) (certificate_in outlined.now) (group_in outlined.now) (outline_in outlined.now) (group_in outlined.now).body (start line (group_in outlined.now)))) }
{
    let count = outlined.group().grid.len();
    let grid = grid_symbols(alloc, count)?;
    let here = start(line, grid_symbols(alloc, count)?, alloc);
    let ground = Ground {
        algo,
        outlined,
        lines: lines_from(line, outlined.group()),
        stored,
        grid: &grid,
    };
    stmt_flaw(alloc, ground, outlined.body(), &here, true)
}

/// The first flaw of the lines of a group, behind these groups.
fn group_flaw(
    alloc: Global,
    algo: &Algo,
    outlined: &Outlined<'_>,
    stored: &[bool],
    line: u32,
    earlier: &[Group],
    cells: u64,
    pieces: u64,
) -> Result<Option<Flaw>, AllocError>
    requires { stored.now ≡ stored_in (algorithm_of algo.now) (plan_in outlined.now) }
    ensures { IfOk result (λ flaw. told flaw ≡ first_of (group_line_flaws (algorithm_of algo.now) line (list_groups earlier.now) (group_in outlined.now) cells pieces
        ++ flaws (algorithm_of algo.now) (plan_in outlined.now) (certificate_in outlined.now) (group_in outlined.now) (outline_in outlined.now) (group_in outlined.now).body (start line (group_in outlined.now)))) }
{
    let flaw = group_line_flaw(algo, line, earlier, outlined.group(), cells, pieces);
    if flaw.is_some() {
        return Ok(flaw);
    }
    body_flaw(alloc, algo, outlined, stored, line)
}

/// The first flaw of the lines of the group of this number, whose line `group` is this one, where groups up to it have so many cells
/// and pieces.
fn numbered_flaw(
    alloc: Global,
    algo: &Algo,
    plan: &Plan,
    cert: &Cert,
    stored: &[bool],
    number: usize,
    line: u32,
    cells: u64,
    pieces: u64,
) -> Result<Option<Flaw>, AllocError>
    requires marked { stored.now ≡ stored_in (algorithm_of algo.now) (plan_of plan.now) }
    requires number { number < length plan.now.groups.items }
    requires line { line ≡ line_told (group_line (plan_of plan.now) number) }
    ensures { (g : GroupSaid) → slice_get (plan_of plan.now).groups number ≡ Some g → IfOk result (λ flaw. told flaw ≡ first_of (group_flaws (algorithm_of algo.now) (plan_of plan.now) (certificate_of cert.now) (line_told (group_line (plan_of plan.now) number)) number g cells pieces)) }
{
    let outlined = Outlined::new(alloc, plan, cert, number)?;
    group_flaw(
        alloc,
        algo,
        &outlined,
        stored,
        line,
        &plan.groups[..number],
        cells,
        pieces,
    )
}

/// The cells of earlier groups and of this one. More than a `u64` holds count as the greatest `u64`.
fn cells_with(cells: u64, group: &Group) -> u64
    ensures { result ≡ more cells (cell_count (group_of group.now).region) }
{
    cells.saturating_add(cell_count(group.region.as_slice()))
}

/// The pieces of earlier groups and of this one. More than a `u64` holds count as the greatest `u64`.
fn pieces_with(pieces: u64, group: &Group) -> u64
    ensures { result ≡ more pieces (counted (piece_count (group_of group.now).grid)) }
{
    pieces.saturating_add(piece_count(&group.grid))
}

/// The first flaw of the lines of these groups, which are the plan's.
fn groups_flaw(
    alloc: Global,
    algo: &Algo,
    plan: &Plan,
    cert: &Cert,
    stored: &[bool],
    groups: &[Group],
) -> Result<Option<Flaw>, AllocError>
    requires marked { stored.now ≡ stored_in (algorithm_of algo.now) (plan_of plan.now) }
    requires groups { groups.now ≡ plan.now.groups.items }
    ensures { IfOk result (λ flaw. told flaw ≡ first_of (groups_flaws (algorithm_of algo.now) (plan_of plan.now) (certificate_of cert.now) (list_groups groups.now) 0 0 0)) }
{
    let mut cells: u64 = 0;
    let mut pieces: u64 = 0;
    let mut line = FIRST_LINE;
    for n in 0..groups.len() {
        let group = &groups[n];
        cells = cells_with(cells, group);
        pieces = pieces_with(pieces, group);
        let flaw = numbered_flaw(alloc, algo, plan, cert, stored, n, line, cells, pieces)?;
        if flaw.is_some() {
            return Ok(flaw);
        }
        line = lines_from(line, group).behind;
    }
    Ok(None)
}

/// The first flaw of the lines of a plan's groups by names, limits and stored expressions: its code and its line. None where
/// there is none.
///
/// # Errors
/// Want of memory.
pub fn first_flaw(
    alloc: Global,
    algo: &Algo,
    plan: &Plan,
    cert: &Cert,
) -> Result<Option<Flaw>, AllocError>
    ensures { IfOk result (λ flaw. told flaw ≡ first_of (flaws_of_groups (algorithm_of algo.now) (plan_of plan.now) (certificate_of cert.now))) }
{
    let stored = stored_in(alloc, algo, plan)?;
    groups_flaw(alloc, algo, plan, cert, &stored, &plan.groups)
}
