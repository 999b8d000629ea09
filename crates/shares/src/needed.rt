//! The pieces that pieces need.

ghost use Rattle.std.specs.Prelude.{◌≡◌, ℕ, ◌<◌, ◌≤◌, ◌++◌, ◌↔◌, IsTrue, IsFalse, IfOk, IfErr, OnOk, All, Contains, Err, length, map};
ghost use Rattle.std.specs.List.Sorted.{IsStrictlyIncreasing};
ghost use Rattle.plan.specs.View.{plan_of};
ghost use Rattle.plan.specs.Certificate.Certificate.{certificate_of};
ghost use Rattle.shares.specs.declared.stop.Stop.TheVariants.{Unserved, Large};
ghost use Rattle.shares.specs.Boxes.{IsSmall};
ghost use Rattle.shares.specs.Seats.{piece_of};
ghost use Rattle.shares.specs.Shared.{NeedIsShared};
ghost use Rattle.shares.specs.Layout.{IsLayout, needs_list};
ghost use Rattle.shares.specs.Needed.{NeedIsInside, NeedsAreInside, need_numbers, all_numbers};
ghost use Rattle.shares.specs.Counts.{with_lines};
ghost use Rattle.shares.specs.Filed.{AreLinesOf};
ghost use Rattle.shares.specs.Gathered.{EachIsGathered};
ghost use Rattle.shares.specs.Blocks.{StandFor};
ghost use Rattle.shares.specs.Has.{NeedsPieces};
ghost use Rattle.shares.specs.Stops.{NeedStops};

use crate::corners::may_have_point;
use crate::fetched::push_all;
use crate::gathered::GroupNeeds;
use crate::layout::Layout;
use crate::seats::Seat;
use crate::spaces::found_in;
use crate::stop::Stop;
use crate::straight::row_in;
use crate::walked::push_row;
use plan::certificate::Need;
use std::alloc::{AllocError, Global};

/// Leaves numbers rising and each once.
pub(crate) fn settle(numbers: &mut Vec<u32>) -> Result<(), AllocError>
    ensures rises { OnOk result (IsStrictlyIncreasing numbers.new.items) }
    ensures members { OnOk result ((i : ℕ) → Contains numbers.new.items i ↔ Contains numbers.old.items i) }
{
    numbers.sort()?;
    numbers.dedup();
    Ok(())
}

/// Leaves each number once where there are more than twice as many as when this was done last, and says how many there
/// were when it was.
pub(crate) fn settle_doubled(numbers: &mut Vec<u32>, settled: usize) -> Result<usize, AllocError>
    ensures { OnOk result ((i : ℕ) → Contains numbers.new.items i ↔ Contains numbers.old.items i) }
{
    if numbers.as_slice().len() / 2 <= settled {
        return Ok(settled);
    }
    settle(numbers)?;
    Ok(numbers.as_slice().len())
}

/// Adds the pieces that a need line names at a piece of its group, where all are pieces, by the points that it has.
fn found_line(
    alloc: Global,
    layout: &Layout<'_>,
    seat: &Seat,
    need: &Need,
    needed: &mut Vec<u32>,
) -> Result<(), Stop>
    requires layout { IsLayout layout.now }
    requires need { NeedIsShared (plan_of layout.now.plan.now) need.now }
    requires group { need.now.group ≡ seat.now.group }
    requires at { IsSmall seat.now.at.items }
    ensures numbers { OnOk result (needed.new.items ≡ needed.old.items ++ need_numbers (plan_of layout.now.plan.now) (piece_of seat.now) need.now) }
    ensures known { OnOk result (NeedIsInside (plan_of layout.now.plan.now) (piece_of seat.now) need.now) }
    ensures unserved { result ≡ Err Unserved → ¬ NeedIsInside (plan_of layout.now.plan.now) (piece_of seat.now) need.now }
    ensures room { ¬ (result ≡ Err Large) }
    ensures kept { result ≡ Err Unserved → needed.new.items ≡ needed.old.items }
{
    let ground = &layout.grounds[need.needed as usize];
    let found = found_in(alloc, &ground.pieces, need.region.as_slice(), &seat.at)?;
    if !found.whole {
        return Err(Stop::Unserved);
    }
    push_all(needed, &found.numbers)?;
    Ok(())
}

/// Adds the pieces that a need line names at a piece of its group, where all are pieces and follow one another, and says whether
/// they do.
fn row_line(
    layout: &Layout<'_>,
    seat: &Seat,
    need: &Need,
    needed: &mut Vec<u32>,
) -> Result<bool, AllocError>
    requires layout { IsLayout layout.now }
    requires need { NeedIsShared (plan_of layout.now.plan.now) need.now }
    requires group { need.now.group ≡ seat.now.group }
    requires at { IsSmall seat.now.at.items }
    ensures numbers { IfOk result (λ done. IsTrue done → needed.new.items ≡ needed.old.items ++ need_numbers (plan_of layout.now.plan.now) (piece_of seat.now) need.now) }
    ensures known { IfOk result (λ done. IsTrue done → NeedIsInside (plan_of layout.now.plan.now) (piece_of seat.now) need.now) }
    ensures kept { IfOk result (λ done. IsFalse done → needed.new.items ≡ needed.old.items) }
{
    let ground = &layout.grounds[need.needed as usize];
    match row_in(&ground.pieces, need.region.as_slice(), &seat.at) {
        Some(row) => {
            push_row(needed, row.first, row.count)?;
            Ok(true)
        }
        None => Ok(false),
    }
}

/// Adds the pieces that a need line names at a piece of its group, where all are pieces.
pub(crate) fn need_line(
    alloc: Global,
    layout: &Layout<'_>,
    seat: &Seat,
    need: &Need,
    needed: &mut Vec<u32>,
) -> Result<(), Stop>
    requires layout { IsLayout layout.now }
    requires need { NeedIsShared (plan_of layout.now.plan.now) need.now }
    requires group { need.now.group ≡ seat.now.group }
    requires at { IsSmall seat.now.at.items }
    ensures numbers { OnOk result (needed.new.items ≡ needed.old.items ++ need_numbers (plan_of layout.now.plan.now) (piece_of seat.now) need.now) }
    ensures known { OnOk result (NeedIsInside (plan_of layout.now.plan.now) (piece_of seat.now) need.now) }
    ensures unserved { result ≡ Err Unserved → ¬ NeedIsInside (plan_of layout.now.plan.now) (piece_of seat.now) need.now }
    ensures room { ¬ (result ≡ Err Large) }
    ensures kept { result ≡ Err Unserved → needed.new.items ≡ needed.old.items }
{
    if row_line(layout, seat, need, needed)? {
        return Ok(());
    }
    let at = seat.at.as_slice();
    if !may_have_point(need.region.as_slice(), at, at) {
        return Ok(());
    }
    found_line(alloc, layout, seat, need, needed)
}

/// The numbers of the pieces that the need lines of a piece's group name, where all are pieces; a number that several lines
/// name may stand there several times.
fn named_by(
    alloc: Global,
    layout: &Layout<'_>,
    seat: &Seat,
    lines: &[&Need],
) -> Result<Vec<u32>, Stop>
    requires layout { IsLayout layout.now }
    requires lines { AreLinesOf (plan_of layout.now.plan.now) seat.now.group (map (λ n. n.now) lines.now) }
    requires at { IsSmall seat.now.at.items }
    ensures members { IfOk result (λ needed. (i : ℕ) → Contains needed.items i ↔ Contains (all_numbers (plan_of layout.now.plan.now) (piece_of seat.now) (map (λ n. n.now) lines.now)) i) }
    ensures known { IfOk result (λ _. NeedsAreInside (plan_of layout.now.plan.now) (piece_of seat.now) (map (λ n. n.now) lines.now)) }
    ensures unserved { result ≡ Err Unserved → ¬ NeedsAreInside (plan_of layout.now.plan.now) (piece_of seat.now) (map (λ n. n.now) lines.now) }
    ensures room { ¬ (result ≡ Err Large) }
{
    let mut needed = Vec::new(alloc);
    let mut settled = 0;
    for need in lines {
        need_line(alloc, layout, seat, need, &mut needed)?;
        settled = settle_doubled(&mut needed, settled)?;
    }
    Ok(needed)
}

/// The pieces that a piece needs by these need lines, which are gathered by their groups and of which `moving` are looked at for
/// the piece, rising and each once, where they name only pieces and there is room for them.
///
/// The time is about linear in the pieces needed, the lines that are looked at for the piece, and the points that these name.
pub(crate) fn needs_by(
    alloc: Global,
    layout: &Layout<'_>,
    lines: &[Need],
    gathered: &Vec<GroupNeeds<'_>>,
    moving: &[&Need],
    piece: u32,
    room: u64,
) -> Result<Vec<u32>, Stop>
    requires layout { IsLayout layout.now }
    requires lines { All (NeedIsShared (plan_of layout.now.plan.now)) lines.now }
    requires gathered { EachIsGathered (plan_of layout.now.plan.now) lines.now (length layout.now.plan.now.groups.items) gathered.now.items }
    requires moving { StandFor layout.now.seats.items gathered.now.items piece (map (λ n. n.now) moving.now) }
    requires piece { piece < length layout.now.seats.items }
    ensures list { IfOk result (λ needed. needed.items ≡ needs_list (plan_of layout.now.plan.now) (with_lines (certificate_of layout.now.cert.now) lines.now) piece) }
    ensures known { IfOk result (λ _. NeedsPieces (plan_of layout.now.plan.now) (with_lines (certificate_of layout.now.cert.now) lines.now) piece) }
    ensures few { IfOk result (λ needed. length needed.items ≤ room) }
    ensures stop { IfErr result (NeedStops (plan_of layout.now.plan.now) (with_lines (certificate_of layout.now.cert.now) lines.now) piece room) }
{
    let seat = &layout.seats[piece as usize];
    let own_lines = &gathered[seat.group];
    let mut needed = match named_by(alloc, layout, seat, moving) {
        Ok(needed) => needed,
        Err(stop) => return Err(stop),
    };
    push_all(&mut needed, &own_lines.numbers)?;
    settle(&mut needed)?;
    if needed.as_slice().len() as u64 > room {
        return Err(Stop::Large);
    }
    Ok(needed)
}

/// The pieces that a piece needs, by the need lines that are looked at for it and what was gathered of its group, rising and each
/// once, where its need lines name only pieces and there is room for them.
pub(crate) fn needs_of(
    alloc: Global,
    layout: &Layout<'_>,
    gathered: &Vec<GroupNeeds<'_>>,
    moving: &[&Need],
    piece: u32,
    room: u64,
) -> Result<Vec<u32>, Stop>
    requires layout { IsLayout layout.now }
    requires gathered { EachIsGathered (plan_of layout.now.plan.now) layout.now.cert.now.needs.items (length layout.now.plan.now.groups.items) gathered.now.items }
    requires moving { StandFor layout.now.seats.items gathered.now.items piece (map (λ n. n.now) moving.now) }
    requires piece { piece < length layout.now.seats.items }
    ensures list { IfOk result (λ needed. needed.items ≡ needs_list (plan_of layout.now.plan.now) (certificate_of layout.now.cert.now) piece) }
    ensures known { IfOk result (λ _. NeedsPieces (plan_of layout.now.plan.now) (certificate_of layout.now.cert.now) piece) }
    ensures few { IfOk result (λ needed. length needed.items ≤ room) }
    ensures stop { IfErr result (NeedStops (plan_of layout.now.plan.now) (certificate_of layout.now.cert.now) piece room) }
{
    needs_by(
        alloc,
        layout,
        &layout.cert.needs,
        gathered,
        moving,
        piece,
        room,
    )
}
