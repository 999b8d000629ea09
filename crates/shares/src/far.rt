//! The first fetch line at which something is wrong, where of some of them it can't be told what they read.

ghost use Rattle.std.specs.Prelude.{◌≡◌, IfOk, IsTrue, IsFalse, All, MatchOption};
ghost use Rattle.plan.specs.View.{plan_of};
ghost use Rattle.plan.specs.Certificate.Certificate.{Certificate};
ghost use Rattle.plan.specs.Certificate.Cells.{grid_symbols, pieces};
ghost use Rattle.shares.specs.Boxes.{IsSmall};
ghost use Rattle.shares.specs.Counts.{FetchIsRefused};
ghost use Rattle.shares.specs.FetchLines.{IsFirstFar, LetsAreNear, LineIsLimited, LineIsNear, plan_fetch_lines};
ghost use Rattle.shares.specs.Lets.{AreNear, NamingsAreLimited, namings_of};
ghost use Rattle.shares.specs.Noted.{line_of, lines_noted};
ghost use Rattle.shares.specs.Read.{IsOpen};
ghost use Rattle.shares.specs.Seats.{AreRising, AreSmall, pieces_of};
ghost use Rattle.shares.specs.Shared.{AreShared};

use crate::counts::{FetchLine, fetch_lines, passing_place};
use crate::lets::near_values;
use crate::seats::{Seat, seats_of_group};
use plan::Plan;
use std::alloc::{AllocError, Global};

/// Whether some line `let` before a fetch line comes to no near number in a piece that is of the line's group.
fn is_far_at(alloc: Global, line: &FetchLine<'_>, seat: &Seat) -> Result<bool, AllocError>
    requires lets { NamingsAreLimited (namings_of line.now.lets.items) }
    requires at { IsSmall seat.now.at.items }
    ensures near { IfOk result (λ far. IsFalse far → seat.now.group ≡ line.now.group → AreNear (namings_of line.now.lets.items) (grid_symbols seat.now.at.items)) }
    ensures far { IfOk result (λ far. IsTrue far → (seat.now.group ≡ line.now.group) × ¬ AreNear (namings_of line.now.lets.items) (grid_symbols seat.now.at.items)) }
{
    if seat.group != line.group {
        return Ok(false);
    }
    match near_values(alloc, &line.lets, &seat.at)? {
        Some(_) => Ok(false),
        None => Ok(true),
    }
}

/// Whether some line `let` before a fetch line comes to no near number in some piece of the line's group.
fn is_far(alloc: Global, line: &FetchLine<'_>, seats: &[Seat]) -> Result<bool, AllocError>
    requires lets { NamingsAreLimited (namings_of line.now.lets.items) }
    requires small { AreSmall seats.now }
    ensures near { IfOk result (λ far. IsFalse far → LineIsNear (pieces_of seats.now) (line_of line.now)) }
    ensures far { IfOk result (λ far. IsTrue far → ¬ LineIsNear (pieces_of seats.now) (line_of line.now)) }
{
    if line.lets.is_empty() {
        return Ok(false);
    }
    for seat in seats {
        if is_far_at(alloc, line, seat)? {
            return Ok(true);
        }
    }
    Ok(false)
}

/// Whether some line `let` before a fetch line comes to no near number in some piece of the line's group, among pieces that stand by
/// rising groups.
///
/// The time is linear in the pieces of this group, for each of them in the forms of the lines `let` before the line, and logarithmic
/// in all.
fn is_far_in_group(alloc: Global, line: &FetchLine<'_>, seats: &[Seat]) -> Result<bool, AllocError>
    requires rising { AreRising seats.now }
    requires lets { NamingsAreLimited (namings_of line.now.lets.items) }
    requires small { AreSmall seats.now }
    ensures near { IfOk result (λ far. IsFalse far → LineIsNear (pieces_of seats.now) (line_of line.now)) }
    ensures far { IfOk result (λ far. IsTrue far → ¬ LineIsNear (pieces_of seats.now) (line_of line.now)) }
{
    let these = seats_of_group(seats, line.group);
    let far = is_far(alloc, line, these)?;
    Ok(far)
}

/// The place of the first of some fetch lines before which some line `let` comes to no near number in some piece of its group,
/// if there is one, where the pieces stand by rising groups.
///
/// The time is that of the pieces of each line's group, for each of them in the forms of the lines `let` before the line.
pub(crate) fn far_place(
    alloc: Global,
    lines: &[FetchLine<'_>],
    seats: &[Seat],
) -> Result<Option<usize>, AllocError>
    requires rising { AreRising seats.now }
    requires limits { All LineIsLimited (lines_noted lines.now) }
    requires small { AreSmall seats.now }
    ensures { IfOk result (λ found. MatchOption found (All (LineIsNear (pieces_of seats.now)) (lines_noted lines.now))
        (IsFirstFar (pieces_of seats.now) (lines_noted lines.now))) }
{
    for (place, line) in lines.iter().enumerate() {
        if is_far_in_group(alloc, line, seats)? {
            return Ok(Some(place));
        }
    }
    Ok(None)
}

/// The first fetch line at which something is wrong, if before some fetch line a line `let` comes to no near number in some piece
/// of its group: that line, or an earlier one with which more than 2^26 cells are fetched.
///
/// The time is linear in the fetch lines, and for each of them in the pieces of its group and the forms of the lines `let` before it.
/// Cells are counted only where there is such a line.
pub(crate) fn refused_line(
    alloc: Global,
    plan: &Plan,
    seats: &[Seat],
) -> Result<Option<u32>, AllocError>
    requires lines { All (IsOpen (plan_of plan.now)) (plan_fetch_lines (plan_of plan.now)) }
    requires seats { pieces_of seats.now ≡ pieces (plan_of plan.now) }
    requires small { AreSmall seats.now }
    ensures { (c : Certificate) → AreShared (plan_of plan.now) c →
        IfOk result (λ found. MatchOption found (LetsAreNear (plan_of plan.now)) (FetchIsRefused (plan_of plan.now) c)) }
{
    let lines = fetch_lines(alloc, plan)?;
    let Some(far) = far_place(alloc, &lines, seats)? else {
        return Ok(None);
    };
    match passing_place(alloc, &lines[..far], seats)? {
        Some(past) => Ok(Some(lines[past].line)),
        None => Ok(Some(lines[far].line)),
    }
}
