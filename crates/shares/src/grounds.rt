//! What is known of the groups of a plan for their pieces' shares.

ghost use Rattle.std.specs.Prelude.{◌≡◌, ◌≤◌, ◌<◌, ◌+◌, ◌^◌, IfOk, All, None, Some, MatchOption, length, slice_get, List};
ghost use Rattle.lin.specs.declared.span.Span1.{Span1 as Span};
ghost use Rattle.plan.specs.Plan.{Group as NestGroup};
ghost use Rattle.plan.specs.View.{plan_of};
ghost use Rattle.plan.specs.Certificate.Certificate.{certificate_of};
ghost use Rattle.plan.specs.Certificate.Cells.{first_cell as cells_before, first_piece as pieces_before, own_region};
ghost use Rattle.shares.specs.Boxes.{grid_sides};
ghost use Rattle.shares.specs.Walked.{IsExtent};
ghost use Rattle.shares.specs.Shared.{AreShared};
ghost use Rattle.shares.specs.Grounds.{IsGroundOf, AreGrounds};

use crate::boxes::{Side, box_at, most_points};
use crate::spaces::Space;
use lin::{Region, Span1};
use plan::Plan;
use plan::certificate::{Cert, Own};
use std::alloc::{AllocError, Global};

/// The cells and pieces of a group by their numbers, and its own region.
#[derive(Drop)]
pub struct Ground<'a> {
    pub cells: Space,
    pub pieces: Space,
    pub own: &'a [Span1],
}

/// The box of a grid's points.
pub(crate) fn grid_box(alloc: Global, grid: &[u64]) -> Result<Vec<Side>, AllocError>
    ensures { IfOk result (λ found. found.items ≡ grid_sides grid.now) }
{
    let mut found = Vec::new(alloc);
    for count in grid {
        found.push(Side {
            low: 0,
            count: *count,
        })?;
    }
    Ok(found)
}

/// The region that the pieces of a group own, if the certificate says it.
fn own_region(all: &[Own], group: u64) -> Option<&Region>
    ensures { MatchOption result (own_region all.now group ≡ None) (λ r. own_region all.now group ≡ Some r.now) }
{
    for own in all {
        if own.group == group {
            return Some(&own.region);
        }
    }
    None
}

/// The spans of the region that the pieces of a group own.
fn own_spans(cert: &Cert, group: u64) -> &[Span1]
    ensures { (xs : List Span) → own_region (certificate_of cert.now).own group ≡ Some xs → result.now ≡ xs }
{
    match own_region(&cert.own, group) {
        Some(region) => region.as_slice(),
        None => &[],
    }
}

/// What is known of a group whose first cell and piece have these numbers.
fn ground_of<'a>(
    alloc: Global,
    plan: &'a Plan,
    cert: &'a Cert,
    number: usize,
    first_cell: u32,
    first_piece: u32,
) -> Result<Ground<'a>, AllocError>
    requires shared { AreShared (plan_of plan.now) (certificate_of cert.now) }
    requires number { number < length plan.now.groups.items }
    requires cell { first_cell ≡ cells_before (plan_of plan.now).groups number }
    requires piece { first_piece ≡ pieces_before (plan_of plan.now).groups number }
    ensures { IfOk result (λ x. (g : NestGroup) → slice_get (plan_of plan.now).groups number ≡ Some g → IsGroundOf (plan_of plan.now) (certificate_of cert.now) number g x) }
{
    let group = &plan.groups[number];
    let cells = Space {
        first: first_cell,
        sides: box_at(alloc, group.region.as_slice(), &[])?,
    };
    let pieces = Space {
        first: first_piece,
        sides: grid_box(alloc, &group.grid)?,
    };
    Ok(Ground {
        cells,
        pieces,
        own: own_spans(cert, number as u64),
    })
}

/// What is known of the groups of a plan, in their order.
pub(crate) fn grounds_of<'a>(
    alloc: Global,
    plan: &'a Plan,
    cert: &'a Cert,
) -> Result<Vec<Ground<'a>>, AllocError>
    requires { AreShared (plan_of plan.now) (certificate_of cert.now) }
    ensures { IfOk result (λ xs. AreGrounds (plan_of plan.now) (certificate_of cert.now) (length plan.now.groups.items) xs.items) }
{
    let mut grounds = Vec::new(alloc);
    let mut first_cell: u32 = 0;
    let mut first_piece: u32 = 0;
    for number in 0..plan.groups.len() {
        let ground = ground_of(alloc, plan, cert, number, first_cell, first_piece)?;
        first_cell += most_points(&ground.cells.sides) as u32;
        first_piece += most_points(&ground.pieces.sides) as u32;
        grounds.push(ground)?;
    }
    Ok(grounds)
}
