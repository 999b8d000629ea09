//! The pieces of a plan: a group and a grid point each.

ghost use Rattle.std.specs.Prelude.{◌≡◌, ◌≤◌, ◌<◌, ◌+◌, ◌++◌, ◌^◌, IfOk, OnOk, All, length, take};
ghost use Rattle.plan.specs.View.{plan_of};
ghost use Rattle.plan.specs.Certificate.Cells.{first_piece, grid_point, piece_count, pieces, pieces_from};
ghost use Rattle.shares.specs.Seats.{AreRising, AreSmall, grid_pieces, of_group, pieces_of};
ghost use Rattle.shares.specs.Grounds.{HaveGrids};

use crate::boxes::most_points;
use crate::grounds::{Ground, grid_box};
use plan::Plan;
use std::alloc::{AllocError, Global};

/// A piece: the number of its group, and its grid point.
#[derive(Drop)]
pub struct Seat {
    pub group: usize,
    pub at: Vec<u64>,
}

/// The grid point of this number, the first symbol fastest.
fn grid_point(alloc: Global, grid: &[u64], number: u64) -> Result<Vec<u64>, AllocError>
    requires { number < piece_count grid.now }
    ensures point { IfOk result (λ at. at.items ≡ grid_point grid.now number) }
    ensures small { IfOk result (λ at. All (λ x. x ≤ number) at.items) }
{
    let mut at = Vec::new(alloc);
    let mut rest = number;
    for count in grid {
        at.push(rest % *count)?;
        rest /= *count;
    }
    Ok(at)
}

/// Adds the pieces of a group.
fn push_seats(
    alloc: Global,
    seats: &mut Vec<Seat>,
    group: usize,
    grid: &[u64],
    count: u32,
) -> Result<(), AllocError>
    requires count { count ≡ piece_count grid.now }
    requires few { count ≤ 2 ^ 20 }
    requires small { AreSmall seats.old.items }
    ensures pieces { OnOk result (pieces_of seats.new.items ≡ pieces_of seats.old.items ++ grid_pieces group grid.now count) }
    ensures small { OnOk result (AreSmall seats.new.items) }
{
    for number in 0..count {
        let at = grid_point(alloc, grid, u64::from(number))?;
        seats.push(Seat { group, at })?;
    }
    Ok(())
}

/// The pieces of a plan, in the order of their numbers.
pub(crate) fn seats_of(
    alloc: Global,
    plan: &Plan,
    grounds: &[Ground<'_>],
) -> Result<Vec<Seat>, AllocError>
    requires few { length (pieces (plan_of plan.now)) ≤ 2 ^ 20 }
    requires grounds { length grounds.now ≡ length plan.now.groups.items }
    requires grids { HaveGrids (plan_of plan.now) grounds.now }
    ensures pieces { IfOk result (λ seats. pieces_of seats.items ≡ pieces (plan_of plan.now)) }
    ensures small { IfOk result (λ seats. AreSmall seats.items) }
{
    let mut seats = Vec::new(alloc);
    for (group, ground) in grounds.iter().enumerate() {
        let grid = plan.groups[group].grid.as_slice();
        let count = most_points(&ground.pieces.sides) as u32;
        push_seats(alloc, &mut seats, group, grid, count)?;
    }
    Ok(seats)
}

/// The pieces of the first groups of a plan, so many, in the order of their numbers.
pub(crate) fn first_seats(
    alloc: Global,
    plan: &Plan,
    groups: usize,
) -> Result<Vec<Seat>, AllocError>
    requires groups { groups ≤ length plan.now.groups.items }
    requires few { first_piece (plan_of plan.now).groups groups ≤ 2 ^ 20 }
    ensures pieces { IfOk result (λ seats. pieces_of seats.items ≡ pieces_from 0 (take groups (plan_of plan.now).groups)) }
    ensures small { IfOk result (λ seats. AreSmall seats.items) }
{
    let mut seats = Vec::new(alloc);
    for group in 0..groups {
        let grid = plan.groups[group].grid.as_slice();
        let sides = grid_box(alloc, grid)?;
        let count = most_points(&sides) as u32;
        push_seats(alloc, &mut seats, group, grid, count)?;
    }
    Ok(seats)
}

/// The pieces of a group among pieces that stand by rising groups.
///
/// The time is logarithmic in the pieces.
pub(crate) fn seats_of_group(seats: &[Seat], group: usize) -> &[Seat]
    requires { AreRising seats.now }
    ensures { result.now ≡ of_group group seats.now }
{
    let first = seats.partition_point(|seat| seat.group < group);
    let end = seats.partition_point(|seat| seat.group <= group);
    &seats[first..end]
}
