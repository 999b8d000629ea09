//! The need lines that are looked at for pieces that stand one after another: those that may name a point at one of them, and more
//! than another.

ghost use Rattle.std.specs.Prelude.{◌≡◌, false, ℕ, List, ◌≤◌, ◌<◌, ◌+◌, ◌++◌, ◌∷◌, ◌^◌, ◌↔◌, [], IsTrue, IfOk, OnOk, All, Some, length, map, slice_get, slice_index_or, take};
ghost use Rattle.plan.specs.Symbols.{points};
ghost use Rattle.plan.specs.View.{plan_of};
ghost use Rattle.plan.specs.Certificate.Cells.{grid_symbols};
ghost use Rattle.plan.specs.declared.certificate.cert.Need.{Need as CertNeed};
ghost use Rattle.shares.specs.declared.gathered.GroupNeeds.{GroupNeeds as Gathered};
ghost use Rattle.shares.specs.declared.seats.Seat.{Seat as CodeSeat};
ghost use Rattle.shares.specs.Boxes.{IsLimited, IsSmall};
ghost use Rattle.shares.specs.Corners.{IsBetween};
ghost use Rattle.shares.specs.Seats.{AreSmall};
ghost use Rattle.shares.specs.Layout.{IsLayout};
ghost use Rattle.shares.specs.Blocks.{AreHighs, AreLows, AreOf, AreThoseAt, AreThoseBetween, HaveLinesOf, IsBlockFrom, IsBlockOf, IsWalkFrom, LinesAreLimited, StandFor};

use crate::across::dimensions_may_meet;
use crate::corners::may_have_point;
use crate::gaps::ends_may_meet;
use crate::gathered::GroupNeeds;
use crate::layout::Layout;
use crate::outer::keep_outer;
use crate::seats::Seat;
use lin::Span1;
use plan::certificate::Need;
use std::alloc::{AllocError, Global};

/// The most pieces of a large block.
const LARGE: usize = 1 << 14;

/// The most pieces of a middle block, of which a large one has 16.
const MIDDLE: usize = 1 << 10;

/// The most pieces of a lesser block, of which a middle one has 8.
const LESSER: usize = 1 << 7;

/// The most pieces of a small block, of which a lesser one has 8.
const SMALL: usize = 1 << 4;

/// With how many of the lines kept last a line is compared, but in the small blocks, of which there are many.
const LATELY: usize = 16;

/// The need lines that are looked at for the pieces up to the one behind a block.
#[derive(Drop)]
pub struct Block<'a> {
    pub end: usize,
    pub moving: Vec<&'a Need>,
}

/// The blocks in which a piece stands: the need lines of each are looked at once for each of the next that lies in it.
#[derive(Drop)]
pub struct Walk<'a> {
    pub large: Block<'a>,
    pub middle: Block<'a>,
    pub lesser: Block<'a>,
    pub small: Block<'a>,
}

/// A coordinate of a grid point, 0 where it has not so many.
fn number_at(at: &[u64], place: usize) -> u64
    ensures { result ≡ slice_index_or at.now place 0 }
{
    match at.get(place) {
        Some(number) => *number,
        None => 0,
    }
}

/// The least of the coordinates of some pieces at a place, or a smaller number.
fn least_at(seats: &[Seat], place: usize) -> u64
    ensures least { All (λ x. result ≤ slice_index_or x.at.items place 0) seats.now }
    ensures small { result ≤ 2 ^ 20 }
{
    let mut found: u64 = 1 << 20;
    for seat in seats {
        found = found.min(number_at(&seat.at, place));
    }
    found
}

/// The greatest of the coordinates of some pieces at a place.
fn greatest_at(seats: &[Seat], place: usize) -> u64
    requires { AreSmall seats.now }
    ensures greatest { All (λ x. slice_index_or x.at.items place 0 ≤ result) seats.now }
    ensures small { result ≤ 2 ^ 20 }
{
    let mut found: u64 = 0;
    for seat in seats {
        found = found.max(number_at(&seat.at, place));
    }
    found
}

/// The least coordinates of some pieces, so many.
fn lows(alloc: Global, seats: &[Seat], count: usize) -> Result<Vec<u64>, AllocError>
    ensures lows { IfOk result (λ low. AreLows seats.now low.items) }
    ensures small { IfOk result (λ low. IsSmall low.items) }
{
    let mut low = Vec::new(alloc);
    for place in 0..count {
        low.push(least_at(seats, place))?;
    }
    Ok(low)
}

/// The greatest coordinates of some pieces, so many.
fn highs(alloc: Global, seats: &[Seat], count: usize) -> Result<Vec<u64>, AllocError>
    requires { AreSmall seats.now }
    ensures highs { IfOk result (λ high. AreHighs seats.now high.items) }
    ensures small { IfOk result (λ high. IsSmall high.items) }
    ensures long { IfOk result (λ high. length high.items ≡ count) }
{
    let mut high = Vec::new(alloc);
    for place in 0..count {
        high.push(greatest_at(seats, place))?;
    }
    Ok(high)
}

/// Whether a piece is a group's and has at most so many coordinates.
fn is_of(seat: &Seat, group: usize, count: usize) -> bool
    ensures { IsTrue result ↔ ((seat.now.group ≡ group) × (length seat.now.at.items ≤ count)) }
{
    seat.group == group && seat.at.len() <= count
}

/// How many of these pieces, from the first on, are a group's and have at most so many coordinates.
fn shared_front(seats: &[Seat], group: usize, count: usize) -> usize
    ensures within { result ≤ length seats.now }
    ensures all { AreOf group count (take result seats.now) }
    ensures some { (s : CodeSeat) → slice_get seats.now 0 ≡ Some s → s.group ≡ group → length s.at.items ≤ count → 1 ≤ result }
{
    for (place, seat) in seats.iter().enumerate() {
        if !is_of(seat, group, count) {
            return place;
        }
    }
    seats.len()
}

/// Whether of each two dimensions of a region both may have a number at one grid point between two, looked at where a line is
/// compared with the last of those kept. Where not, the region has no point at any of these.
fn spans_may_meet(
    alloc: Global,
    region: &[Span1],
    low: &[u64],
    high: &[u64],
    lately: usize,
) -> Result<bool, AllocError>
    requires low { IsSmall low.now }
    requires high { IsSmall high.now }
    ensures { IfOk result (λ may. may ≡ false → (at : List ℕ) → IsBetween low.now high.now at → points (grid_symbols at) region.now ≡ []) }
{
    if lately == 0 {
        return Ok(true);
    }
    dimensions_may_meet(alloc, region, low, high)
}

/// Adds a need line to those kept, if it may name a point at a grid point between two and is not seen to name no more than one of
/// the last of them, so many.
fn keep_between<'a>(
    alloc: Global,
    kept: &mut Vec<&'a Need>,
    need: &'a Need,
    low: &[u64],
    high: &[u64],
    lately: usize,
) -> Result<(), AllocError>
    requires limits { IsLimited need.now.region }
    requires low { IsSmall low.now }
    requires high { IsSmall high.now }
    requires kept { LinesAreLimited (map (λ n. n.now) kept.old.items) }
    ensures those { OnOk result ((ns : List CertNeed) → AreThoseBetween low.now high.now (map (λ n. n.now) kept.old.items) ns → AreThoseBetween low.now high.now (map (λ n. n.now) kept.new.items) (ns ++ need.now ∷ [])) }
    ensures limits { OnOk result (LinesAreLimited (map (λ n. n.now) kept.new.items)) }
{
    if !ends_may_meet(need.region.as_slice(), low, high) {
        return Ok(());
    }
    if !may_have_point(need.region.as_slice(), low, high) {
        return Ok(());
    }
    let may = spans_may_meet(alloc, need.region.as_slice(), low, high, lately)?;
    if may {
        keep_outer(kept, need, low, high, lately)?;
    }
    Ok(())
}

/// Those of some need lines that may name a point at a grid point between two, but for some that name no more than another.
fn lines_between<'a>(
    alloc: Global,
    lines: &[&'a Need],
    low: &[u64],
    high: &[u64],
    lately: usize,
) -> Result<Vec<&'a Need>, AllocError>
    requires limits { LinesAreLimited (map (λ n. n.now) lines.now) }
    requires low { IsSmall low.now }
    requires high { IsSmall high.now }
    ensures { IfOk result (λ kept. AreThoseBetween low.now high.now (map (λ n. n.now) kept.items) (map (λ n. n.now) lines.now)) }
{
    let mut kept = Vec::new(alloc);
    for need in lines {
        keep_between(alloc, &mut kept, need, low, high, lately)?;
    }
    Ok(kept)
}

/// Those of some need lines that may name a point at the grid point of one of these pieces, which have at most so many
/// coordinates.
fn lines_of<'a>(
    alloc: Global,
    seats: &[Seat],
    lines: &[&'a Need],
    count: usize,
) -> Result<Vec<&'a Need>, AllocError>
    requires small { AreSmall seats.now }
    requires long { All (λ x. length x.at.items ≤ count) seats.now }
    requires limits { LinesAreLimited (map (λ n. n.now) lines.now) }
    ensures { IfOk result (λ kept. All (λ x. AreThoseAt x.at.items (map (λ n. n.now) kept.items) (map (λ n. n.now) lines.now)) seats.now) }
{
    let low = lows(alloc, seats, count)?;
    let high = highs(alloc, seats, count)?;
    let lately = if seats.len() <= SMALL { 0 } else { LATELY };
    let kept = lines_between(alloc, lines, &low, &high, lately)?;
    Ok(kept)
}

/// The block of a piece and those behind it, at most so many, that are of its group, with those of some need lines that may
/// name a point at one of them.
fn block_of<'a>(
    alloc: Global,
    seats: &[Seat],
    lines: &[&'a Need],
    first: usize,
    most: usize,
) -> Result<Block<'a>, AllocError>
    requires small { AreSmall seats.now }
    requires first { first < length seats.now }
    requires most { 1 ≤ most }
    requires limits { LinesAreLimited (map (λ n. n.now) lines.now) }
    ensures block { IfOk result (λ b. IsBlockOf seats.now first (map (λ n. n.now) lines.now) b) }
    ensures some { IfOk result (λ b. first < b.end) }
    ensures most { IfOk result (λ b. b.end ≤ first + most) }
{
    let group = seats[first].group;
    let count = seats[first].at.len();
    let window = &seats[first..first + most.min(seats.len() - first)];
    let long = shared_front(window, group, count);
    let moving = lines_of(alloc, &window[..long], lines, count)?;
    Ok(Block {
        end: first + long,
        moving,
    })
}

/// Takes a large block that begins with a piece, if the piece stands behind the one before.
fn renew_large<'a>(
    alloc: Global,
    seats: &[Seat],
    gathered: &Vec<GroupNeeds<'a>>,
    block: &mut Block<'a>,
    piece: usize,
) -> Result<(), AllocError>
    requires small { AreSmall seats.now }
    requires piece { piece < length seats.now }
    requires group { (s : CodeSeat) → slice_get seats.now piece ≡ Some s → s.group < length gathered.now.items }
    requires limits { (g : ℕ) (y : Gathered) → slice_get gathered.now.items g ≡ Some y → LinesAreLimited (map (λ n. n.now) y.moving.items) }
    requires block { IsBlockFrom seats.now gathered.now.items piece block.old }
    ensures block { OnOk result (IsBlockFrom seats.now gathered.now.items piece block.new) }
    ensures some { OnOk result (piece < block.new.end) }
{
    if piece < block.end {
        return Ok(());
    }
    let group = seats[piece].group;
    *block = block_of(alloc, seats, &gathered[group].moving, piece, LARGE)?;
    Ok(())
}

/// Takes a block of a larger one, of at most so many pieces, that begins with a piece, if the piece stands behind the one before.
fn renew_within<'a>(
    alloc: Global,
    seats: &[Seat],
    large: &Block<'a>,
    block: &mut Block<'a>,
    piece: usize,
    size: usize,
) -> Result<(), AllocError>
    requires small { AreSmall seats.now }
    requires piece { piece < length seats.now }
    requires large { piece < large.now.end }
    requires size { 1 ≤ size }
    requires limits { LinesAreLimited (map (λ n. n.now) large.now.moving.items) }
    ensures block { OnOk result ((gathered : List Gathered) → IsBlockFrom seats.now gathered piece large.now → IsBlockFrom seats.now gathered piece block.old → IsBlockFrom seats.now gathered piece block.new) }
    ensures some { OnOk result (piece < block.new.end) }
{
    if piece < block.end {
        return Ok(());
    }
    let most = size.min(large.end - piece);
    *block = block_of(alloc, seats, &large.moving, piece, most)?;
    Ok(())
}

/// A block without a piece.
fn no_block<'a>(alloc: Global) -> Block<'a>
    ensures { result.end ≡ 0 }
{
    Block {
        end: 0,
        moving: Vec::new(alloc),
    }
}

/// A walk that has not begun.
pub(crate) fn new_walk<'a>(alloc: Global) -> Walk<'a>
    ensures { (seats : List CodeSeat) (gathered : List Gathered) (first : ℕ) → IsWalkFrom seats gathered first result }
{
    Walk {
        large: no_block(alloc),
        middle: no_block(alloc),
        lesser: no_block(alloc),
        small: no_block(alloc),
    }
}

/// Goes to a piece, of those that are behind the ones before.
///
/// The time of a walk over all pieces is about that of the need lines of each group for each of its large blocks, and of those
/// that may name a point in a block for each of the next smaller blocks of it.
pub(crate) fn step_to<'a>(
    alloc: Global,
    layout: &Layout<'_>,
    gathered: &Vec<GroupNeeds<'a>>,
    walk: &mut Walk<'a>,
    piece: u32,
) -> Result<(), AllocError>
    requires layout { IsLayout layout.now }
    requires piece { piece < length layout.now.seats.items }
    requires gathered { HaveLinesOf (plan_of layout.now.plan.now) (length layout.now.plan.now.groups.items) gathered.now.items }
    requires walk { IsWalkFrom layout.now.seats.items gathered.now.items piece walk.old }
    ensures walk { OnOk result (IsWalkFrom layout.now.seats.items gathered.now.items piece walk.new) }
    ensures moving { OnOk result (StandFor layout.now.seats.items gathered.now.items piece (map (λ n. n.now) walk.new.small.moving.items)) }
{
    let seats = layout.seats.as_slice();
    let first = piece as usize;
    renew_large(alloc, seats, gathered, &mut walk.large, first)?;
    renew_within(alloc, seats, &walk.large, &mut walk.middle, first, MIDDLE)?;
    renew_within(alloc, seats, &walk.middle, &mut walk.lesser, first, LESSER)?;
    renew_within(alloc, seats, &walk.lesser, &mut walk.small, first, SMALL)?;
    Ok(())
}
