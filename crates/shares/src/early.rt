//! What is wrong at fetch lines before a line of a group that is broken.

ghost use Rattle.std.specs.Prelude.{◌≡◌, ◌<◌, ◌≤◌, ◌^◌, IfOk, All, MatchOption, length};
ghost use Rattle.plan.specs.View.{plan_of};
ghost use Rattle.plan.specs.Certificate.Cells.{first_piece};
ghost use Rattle.shares.specs.Early.{AreRead, AreReadBefore, FetchIsWrong, FetchLinesStand, IsFirstWrong, IsGroupCount, StandAhead, until};
ghost use Rattle.shares.specs.FetchLines.{LineIsLimited};
ghost use Rattle.shares.specs.Noted.{lines_noted};
ghost use Rattle.shares.specs.Seats.{AreRising, AreSmall, pieces_of};

use crate::counts::{FetchLine, fetch_lines, passing_place};
use crate::far::far_place;
use crate::seats::{Seat, first_seats};
use plan::Plan;
use std::alloc::{AllocError, Global};

/// How many of some fetch lines, in the order of their text, stand before a line.
fn count_ahead(lines: &[FetchLine<'_>], line: u32) -> usize
    ensures { StandAhead (lines_noted lines.now) line result }
{
    for (place, noted) in lines.iter().enumerate() {
        if noted.line >= line {
            return place;
        }
    }
    lines.len()
}

/// How many groups there are up to the last one of which some of these lines are, where they are of so many groups.
fn group_count(lines: &[FetchLine<'_>], groups: usize) -> usize
    requires { All (λ x. x.group < groups) (lines_noted lines.now) }
    ensures count { IsGroupCount (lines_noted lines.now) result }
    ensures most { result ≤ groups }
{
    let mut count: usize = 0;
    for line in lines {
        count = count.max(line.group + 1);
    }
    count
}

/// A place, or this one where there is none.
fn until(place: Option<usize>, end: usize) -> usize
    ensures { result ≡ until place end }
{
    match place {
        Some(place) => place,
        None => end,
    }
}

/// The place of the first of some fetch lines at which something is wrong in these pieces, if there is one: some line `let` before
/// it comes to no near number in a piece of its group, or with it more than 2^26 cells are fetched. The pieces stand by rising groups.
///
/// The time is linear in the lines, and for each of them in the pieces of its group and the forms of the lines `let` before it.
fn wrong_place(
    alloc: Global,
    lines: &[FetchLine<'_>],
    seats: &[Seat],
) -> Result<Option<usize>, AllocError>
    requires rising { AreRising seats.now }
    requires limits { All LineIsLimited (lines_noted lines.now) }
    requires small { AreSmall seats.now }
    ensures { IfOk result (λ found. MatchOption found (AreRead (pieces_of seats.now) (lines_noted lines.now))
        (IsFirstWrong (pieces_of seats.now) (lines_noted lines.now))) }
{
    let far = far_place(alloc, lines, seats)?;
    let end = until(far, lines.len());
    match passing_place(alloc, &lines[..end], seats)? {
        Some(past) => Ok(Some(past)),
        None => Ok(far),
    }
}

/// The first fetch line before a line of a plan's text at which something is wrong, if there is one, where the fetch lines before it
/// are within the limits: some line `let` before it comes to a number that is farther than 2^20 from 0 in a piece of its group, or
/// with it more than 2^26 cells are fetched. Nothing is asked of the lines from this one on, as of those of which the first is broken.
///
/// The time is about linear in the lines of the plan, in the pieces of the groups up to the last that has a fetch line before this
/// line, and for each such line in the pieces of its group and the forms of the lines `let` before it.
pub fn fetch_flaw_before(alloc: Global, plan: &Plan, line: u32) -> Result<Option<u32>, AllocError>
    requires { AreReadBefore (plan_of plan.now) line }
    ensures { IfOk result (λ found. MatchOption found (FetchLinesStand (plan_of plan.now) line) (λ k. FetchIsWrong (plan_of plan.now) k × (k < line))) }
{
    let lines = fetch_lines(alloc, plan)?;
    let count = count_ahead(&lines, line);
    let groups = group_count(&lines[..count], plan.groups.len());
    let seats = first_seats(alloc, plan, groups)?;
    match wrong_place(alloc, &lines[..count], &seats)? {
        Some(place) => Ok(Some(lines[place].line)),
        None => Ok(None),
    }
}
