//! How many cells the fetch lines of a plan read, line after line.

ghost use Rattle.std.specs.Prelude.{◌≡◌, ℕ, ◌≤◌, ◌<◌, ◌+◌, ◌-◌, ◌^◌, ◌++◌, ◌∷◌, [], IfOk, OnOk, MatchOption, All, map, length, min, Some, slice_get};
ghost use Rattle.plan.specs.Lists.{list_statements};
ghost use Rattle.plan.specs.Lines.{body_line, group_line};
ghost use Rattle.plan.specs.Plan.{block, Group as NestGroup};
ghost use Rattle.plan.specs.View.{plan_of, statement_of};
ghost use Rattle.plan.specs.Certificate.Cells.{grid_symbols, pieces};
ghost use Rattle.plan.specs.Certificate.Certificate.{certificate_of};
ghost use Rattle.soundness.specs.Outline.Flaws.{line_told};
ghost use Rattle.soundness.specs.declared.outline.refusals.code.K.TheVariants.{K14};
ghost use Rattle.shares.specs.Boxes.{IsLimited, IsSmall, sides};
ghost use Rattle.shares.specs.Counts.{FetchPasses};
ghost use Rattle.shares.specs.FetchLines.{IsFirstPast, LineIsLimited, LineIsNear, block_fetch_lines, fetch_lines, fetched_by, fetched_by_lines, plan_fetch_lines};
ghost use Rattle.shares.specs.Lets.{AreNear, NamingsAreLimited, named, namings_of};
ghost use Rattle.shares.specs.Noted.{AreNotedBy, line_of, lines_noted, told_line};
ghost use Rattle.shares.specs.Has.{fetched_before};
ghost use Rattle.shares.specs.Layout.{IsLayout};
ghost use Rattle.shares.specs.Seats.{AreRising, AreSmall, pieces_of};

use crate::boxes::{Side, box_by, most_points};
use crate::layout::Layout;
use crate::lets::{Naming, copy_lets, note_let, values_at};
use crate::seats::{Seat, seats_of_group};
use lin::Span1;
use plan::{Plan, Stmt};
use soundness::outline::refusals::{Flaw, K};
use std::alloc::{AllocError, Global};

/// The most cells that the pieces of a plan fetch.
const MOST_FETCHED: u64 = 1 << 26;

/// The line `group` of a plan's first group.
const FIRST_LINE: u32 = 4;

/// A line that fetches: its number, the group whose pieces fetch, the lines `let` before it, the group that it fetches from,
/// and the region.
#[derive(Drop)]
pub(crate) struct FetchLine<'a> {
    pub line: u32,
    pub group: usize,
    pub lets: Vec<Naming<'a>>,
    pub fetched: u64,
    pub region: &'a [Span1],
}

/// Notes a line.
fn note<'a>(line: FetchLine<'a>, noted: &mut Vec<FetchLine<'a>>) -> Result<(), AllocError>
    ensures { OnOk result (lines_noted noted.new.items ≡ lines_noted noted.old.items ++ lines_noted (line.entry ∷ [])) }
{
    noted.push(line)?;
    Ok(())
}

/// Notes the lines that fetch of a statement of a group, which stands behind these lines `let` and begins at a line.
#[cycle(noting)]
fn note_fetches<'a>(
    alloc: Global,
    stmt: &'a Stmt,
    group: usize,
    line: u32,
    lets: &[Naming<'a>],
    noted: &mut Vec<FetchLine<'a>>,
) -> Result<(), AllocError>
    ensures { OnOk result ((at : ℕ) → line ≡ line_told at → lines_noted noted.new.items ≡ lines_noted noted.old.items ++ map told_line (fetch_lines group (namings_of lets.now) (statement_of stmt.now) at)) }
{
    match stmt {
        Stmt::Seq(all) => note_block_fetches(alloc, all, group, line, lets, noted),
        Stmt::Fetch {
            group: fetched,
            region,
            ..
        } => {
            let region = region.as_slice();
            let lets = copy_lets(alloc, lets)?;
            note(
                FetchLine {
                    line,
                    group,
                    lets,
                    fetched: *fetched,
                    region,
                },
                noted,
            )
        }
        Stmt::For { .. } => Ok(()),
        Stmt::First { .. } => Ok(()),
        Stmt::Guard { .. } => Ok(()),
        Stmt::Let { .. } | Stmt::Alloc { .. } | Stmt::Store { .. } | Stmt::Publish { .. } => Ok(()),
    }
}

/// Notes the lines that fetch of a block of a group, which stands behind these lines `let` and begins at a line.
#[cycle(noting)]
fn note_block_fetches<'a>(
    alloc: Global,
    all: &'a [Stmt],
    group: usize,
    line: u32,
    lets: &[Naming<'a>],
    noted: &mut Vec<FetchLine<'a>>,
) -> Result<(), AllocError>
    ensures { OnOk result ((at : ℕ) → line ≡ line_told at → lines_noted noted.new.items ≡ lines_noted noted.old.items ++ map told_line (block_fetch_lines group (namings_of lets.now) (block (list_statements all.now)) at)) }
{
    let mut begun = line;
    let mut known = copy_lets(alloc, lets)?;
    for stmt in all {
        note_fetches(alloc, stmt, group, begun, &known, noted)?;
        note_let(stmt, &mut known)?;
        begun = begun.saturating_add(stmt.line_count());
    }
    Ok(())
}

/// Notes the lines that fetch of the group of this number, whose line `group` is this one, and gives the line behind the group.
/// Lines past the greatest `u32` count as that.
fn note_group<'a>(
    alloc: Global,
    plan: &'a Plan,
    number: usize,
    line: u32,
    noted: &mut Vec<FetchLine<'a>>,
) -> Result<u32, AllocError>
    requires number { number < length plan.now.groups.items }
    requires line { line ≡ line_told (group_line (plan_of plan.now) number) }
    ensures noted { OnOk result ((g : NestGroup) → slice_get (plan_of plan.now).groups number ≡ Some g → lines_noted noted.new.items ≡ lines_noted noted.old.items ++ map told_line (fetch_lines number [] g.body (body_line (plan_of plan.now) number))) }
    ensures behind { IfOk result (λ behind. behind ≡ line_told (group_line (plan_of plan.now) (number + 1))) }
{
    let body = &plan.groups[number].body;
    let begun = line.saturating_add(1);
    note_fetches(alloc, body, number, begun, &[], noted)?;
    Ok(begun.saturating_add(body.line_count()))
}

/// The fetch lines of each group of a plan.
///
/// The time is linear in the lines of the plan and, for each fetch line, in the lines `let` before it.
pub(crate) fn noted_groups<'a>(
    alloc: Global,
    plan: &'a Plan,
) -> Result<Vec<Vec<FetchLine<'a>>>, AllocError>
    ensures { IfOk result (λ made. AreNotedBy (plan_of plan.now) (length plan.now.groups.items) (map (λ v. v.items) made.items)) }
{
    let mut made = Vec::new(alloc);
    let mut line = FIRST_LINE;
    for number in 0..plan.groups.len() {
        let mut noted = Vec::new(alloc);
        line = note_group(alloc, plan, number, line, &mut noted)?;
        made.push(noted)?;
    }
    Ok(made)
}

/// The fetch lines of a plan, in the order of its text.
pub(crate) fn fetch_lines<'a>(
    alloc: Global,
    plan: &'a Plan,
) -> Result<Vec<FetchLine<'a>>, AllocError>
    ensures { IfOk result (λ noted. lines_noted noted.items ≡ map told_line (plan_fetch_lines (plan_of plan.now))) }
{
    let mut noted = Vec::new(alloc);
    let mut line = FIRST_LINE;
    for number in 0..plan.groups.len() {
        line = note_group(alloc, plan, number, line, &mut noted)?;
    }
    Ok(noted)
}

/// The box of the cells that a line fetches at a grid point.
fn box_of(alloc: Global, line: &FetchLine<'_>, at: &[u64]) -> Result<Vec<Side>, AllocError>
    requires region { IsLimited line.now.region.now }
    requires lets { NamingsAreLimited (namings_of line.now.lets.items) }
    requires at { IsSmall at.now }
    requires near { AreNear (namings_of line.now.lets.items) (grid_symbols at.now) }
    ensures { IfOk result (λ found. found.items ≡ sides (named (namings_of line.now.lets.items) (grid_symbols at.now)) line.now.region.now) }
{
    let values = values_at(alloc, &line.lets, at)?;
    let sides = box_by(alloc, line.region, at, &values)?;
    Ok(sides)
}

/// How many cells these pieces fetch by a line, or the greatest number of the machine where it is more.
///
/// The time is linear in the pieces.
fn cells_by(alloc: Global, seats: &[Seat], line: &FetchLine<'_>) -> Result<u64, AllocError>
    requires small { AreSmall seats.now }
    requires region { IsLimited line.now.region.now }
    requires lets { NamingsAreLimited (namings_of line.now.lets.items) }
    requires near { LineIsNear (pieces_of seats.now) (line_of line.now) }
    ensures { IfOk result (λ count. count ≡ min (fetched_by (pieces_of seats.now) (line_of line.now)) (2 ^ 64 - 1)) }
{
    let mut count: u64 = 0;
    for seat in seats {
        if seat.group == line.group {
            let sides = box_of(alloc, line, &seat.at)?;
            count = count.saturating_add(most_points(&sides));
        }
    }
    Ok(count)
}

/// How many cells pieces that stand by rising groups fetch by a line, or the greatest number of the machine where it is more.
///
/// The time is linear in the pieces of the line's group, and logarithmic in all.
fn cells_of_group(alloc: Global, seats: &[Seat], line: &FetchLine<'_>) -> Result<u64, AllocError>
    requires rising { AreRising seats.now }
    requires small { AreSmall seats.now }
    requires region { IsLimited line.now.region.now }
    requires lets { NamingsAreLimited (namings_of line.now.lets.items) }
    requires near { LineIsNear (pieces_of seats.now) (line_of line.now) }
    ensures { IfOk result (λ count. count ≡ min (fetched_by (pieces_of seats.now) (line_of line.now)) (2 ^ 64 - 1)) }
{
    let these = seats_of_group(seats, line.group);
    cells_by(alloc, these, line)
}

/// The place of the line with which pieces that stand by rising groups fetch more than 2^26 cells, if there is one.
///
/// The time is that of the pieces of each line's group, in which cells are counted by the boxes that they are.
pub(crate) fn passing_place(
    alloc: Global,
    lines: &[FetchLine<'_>],
    seats: &[Seat],
) -> Result<Option<usize>, AllocError>
    requires rising { AreRising seats.now }
    requires limits { All LineIsLimited (lines_noted lines.now) }
    requires near { All (LineIsNear (pieces_of seats.now)) (lines_noted lines.now) }
    requires small { AreSmall seats.now }
    ensures { IfOk result (λ found. MatchOption found (fetched_by_lines (pieces_of seats.now) (lines_noted lines.now) ≤ 2 ^ 26)
        (IsFirstPast (pieces_of seats.now) (lines_noted lines.now))) }
{
    let mut room = MOST_FETCHED;
    for (place, line) in lines.iter().enumerate() {
        let count = cells_of_group(alloc, seats, line)?;
        if count > room {
            return Ok(Some(place));
        }
        room -= count;
    }
    Ok(None)
}

/// The flaw of the fetch line with which more than 2^26 cells are fetched, if there is one.
pub(crate) fn fetch_flaw(alloc: Global, layout: &Layout<'_>) -> Result<Option<Flaw>, AllocError>
    requires { IsLayout layout.now }
    ensures { IfOk result (λ found. MatchOption found (fetched_before (plan_of layout.now.plan.now) (length (pieces (plan_of layout.now.plan.now))) ≤ 2 ^ 26)
        (λ f. (f.code ≡ K14) × FetchPasses (plan_of layout.now.plan.now) (certificate_of layout.now.cert.now) f.line)) }
{
    let lines = fetch_lines(alloc, layout.plan)?;
    match passing_place(alloc, &lines, &layout.seats)? {
        Some(place) => Ok(Some(Flaw {
            code: K::K14,
            line: lines[place].line,
        })),
        None => Ok(None),
    }
}
