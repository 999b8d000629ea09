//! The need line with which the limit of needed pieces is passed.

ghost use Rattle.std.specs.Prelude.{◌≡◌, ◌<◌, ◌≤◌, ◌+◌, ◌^◌, IfOk, IfErr, MatchOption, length};
ghost use Rattle.plan.specs.View.{plan_of};
ghost use Rattle.plan.specs.Certificate.Certificate.{certificate_of};
ghost use Rattle.plan.specs.Certificate.Cells.{pieces};
ghost use Rattle.shares.specs.Counts.{PassesNeeded, with_needs};
ghost use Rattle.shares.specs.Has.{IsServed, needed_before};
ghost use Rattle.shares.specs.Layout.{IsLayout};

use crate::blocks::{new_walk, step_to};
use crate::filed::filed_needs;
use crate::gathered::gathered_needs;
use crate::layout::Layout;
use crate::needed::needs_by;
use crate::stop::Stop;
use std::alloc::{AllocError, Global};

/// The most pieces that the pieces of a plan need.
pub(crate) const MOST_NEEDED: u64 = 1 << 24;

/// How many pieces are needed in all where only the first need lines stand, so many, if these are at most 2^24; or a piece that
/// needs a grid point that is no piece.
fn needed_by_first(
    alloc: Global,
    layout: &Layout<'_>,
    count: usize,
) -> Result<Result<Option<u64>, u32>, AllocError>
    requires layout { IsLayout layout.now }
    requires count { count ≤ length layout.now.cert.now.needs.items }
    ensures needed { IfOk result (λ answer. IfOk answer (λ found. MatchOption found
        (2 ^ 24 < needed_before (plan_of layout.now.plan.now) (with_needs (certificate_of layout.now.cert.now) count) (length (pieces (plan_of layout.now.plan.now))))
        (λ needed. (needed_before (plan_of layout.now.plan.now) (with_needs (certificate_of layout.now.cert.now) count) (length (pieces (plan_of layout.now.plan.now))) ≡ needed) × (needed ≤ 2 ^ 24)))) }
    ensures unserved { IfOk result (λ answer. IfErr answer (λ piece. (piece < length layout.now.seats.items) × ¬ IsServed (plan_of layout.now.plan.now) (certificate_of layout.now.cert.now) piece)) }
{
    let lines = &layout.cert.needs[..count];
    let filed = filed_needs(alloc, layout.plan.groups.len(), lines)?;
    let gathered = gathered_needs(alloc, layout, lines, &filed)?;
    let mut walk = new_walk(alloc);
    let mut room = MOST_NEEDED;
    for piece in 0..layout.seats.len() as u32 {
        step_to(alloc, layout, &gathered, &mut walk, piece)?;
        match needs_by(
            alloc,
            layout,
            lines,
            &gathered,
            &walk.small.moving,
            piece,
            room,
        ) {
            Ok(needs) => room -= needs.as_slice().len() as u64,
            Err(Stop::Large) => return Ok(Ok(None)),
            Err(Stop::Unserved) => return Ok(Err(piece)),
            Err(Stop::Memory) => return Err(AllocError),
        }
    }
    Ok(Ok(Some(MOST_NEEDED - room)))
}

/// How many lines are tried next, where so many need these pieces, which fit, and `high` lines need too many: as many times as these
/// pieces go into 2^24, or twice as many, or half of what lies between, the least of them; where they go into it once, by turns one
/// more.
fn next_count(low: usize, high: usize, needed: u64) -> usize
    requires { low + 1 < high }
    ensures above { low < result }
    ensures below { result < high }
{
    let apart = high - low;
    let times = (MOST_NEEDED / needed.max(1)) as usize;
    if times < 2 && apart % 2 == 0 {
        return low + 1;
    }
    let more = low.saturating_mul(times.max(2) - 1).max(1);
    low + more.min(apart / 2)
}

/// The place of the need line with which more than 2^24 pieces are needed in all, where they are; or a piece that needs a grid
/// point that is no piece.
///
/// It multiplies the lines by what the pieces that they need leave room for, until they are too many, and halves what lies between
/// then. The time is that of the lists of all pieces for each number of lines that is tried, at most four times as many as it has
/// digits in base 2.
pub(crate) fn need_past(
    alloc: Global,
    layout: &Layout<'_>,
) -> Result<Result<usize, u32>, AllocError>
    requires layout { IsLayout layout.now }
    requires many { ¬ (needed_before (plan_of layout.now.plan.now) (certificate_of layout.now.cert.now) (length (pieces (plan_of layout.now.plan.now))) ≤ 2 ^ 24) }
    ensures place { IfOk result (λ answer. IfOk answer (PassesNeeded (plan_of layout.now.plan.now) (certificate_of layout.now.cert.now))) }
    ensures unserved { IfOk result (λ answer. IfErr answer (λ piece. (piece < length layout.now.seats.items) × ¬ IsServed (plan_of layout.now.plan.now) (certificate_of layout.now.cert.now) piece)) }
{
    let mut low: usize = 0;
    let mut high = layout.cert.needs.len();
    let mut needed: u64 = 0;
    while low + 1 < high {
        let middle = next_count(low, high, needed);
        match needed_by_first(alloc, layout, middle)? {
            Ok(Some(found)) => {
                low = middle;
                needed = found;
            }
            Ok(None) => high = middle,
            Err(piece) => return Ok(Err(piece)),
        }
    }
    Ok(Ok(low))
}
