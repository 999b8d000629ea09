//! The cells of a plan's groups.

ghost use Rattle.std.specs.Prelude.{◌≡◌, ◌-◌, ◌^◌, map, length, min, IfOk, IfSome, All};
ghost use Rattle.std.specs.List.{AllByRecursion, range_with_len};
ghost use Rattle.checked_plan.specs.View.{plan_checked};
ghost use Rattle.plan.specs.View.{group_of};
ghost use Rattle.checked_plan.specs.Output.Axes.{point_count};
ghost use Rattle.checked_plan.specs.Output.Cells.{cells_of_group, counted, number_in, FollowFrom};
ghost use Rattle.checked_plan.specs.Ready.Ready.{IsSmallSpan, place_of_group};

use crate::Checked;
use crate::output::axis::{Axis, are_from_zero, axes_of, is_on, rank_of};
use algo::scoping::same_name;
use plan::Group;
use std::alloc::{AllocError, Global};

/// The cells of one group: how many cells of the plan come before them, and the coordinates of the group's region.
#[derive(Drop)]
pub struct GroupCells {
    pub first: u32,
    pub axes: Vec<Axis>,
}

/// How many points there are. More than a `u32` holds count as the greatest `u32`.
fn point_count(axes: &[Axis]) -> u32
    ensures { result ≡ min (point_count axes.now) (2 ^ 32 - 1) }
{
    match axes {
        [] => 1,
        [axis, rest @ ..] => axis.count.saturating_mul(point_count(rest)),
    }
}

/// The cells of all groups.
fn cells_of(alloc: Global, groups: &[Group]) -> Result<Vec<GroupCells>, AllocError>
    requires { AllByRecursion (λ g. AllByRecursion IsSmallSpan g.region) (map group_of groups.now) }
    ensures { IfOk result (λ cells. map counted cells.items ≡ map (cells_of_group (map group_of groups.now)) (range_with_len 0 (length groups.now))) }
{
    let mut cells = Vec::new(alloc);
    let mut first: u32 = 0;
    for group in groups {
        let axes = axes_of(alloc, group.region.as_slice())?;
        let count = point_count(&axes);
        cells.push(GroupCells { first, axes })?;
        first = first.saturating_add(count);
    }
    Ok(cells)
}

/// The place of the first group of a function, the number of groups where none is.
fn place_in(groups: &[Group], function: &str) -> usize
    ensures { result ≡ place_of_group (map group_of groups.now) function.now }
{
    for (place, group) in groups.iter().enumerate() {
        if same_name(group.function.as_str(), function) {
            return place;
        }
    }
    groups.len()
}

/// Which cell of a checked plan each group has at each point of its region.
///
/// It holds for each group how many cells come before its own, and a low end and a count for each coordinate, so that
/// a cell's number is told by a short sum.
#[derive(Drop)]
pub struct PlanCells<'a> {
    checked: &'a Checked<'a>,
    groups: Vec<GroupCells>,
    ghost groups_are: { let gs = (plan_checked checked.now).groups in map counted groups.items ≡ map (cells_of_group gs) (range_with_len 0 (length gs)) },
}

impl<'a> PlanCells<'a> {
    /// The cells of a checked plan's groups.
    ///
    /// # Errors
    /// `AllocError` where memory runs out.
    pub fn of(alloc: Global, checked: &'a Checked<'a>) -> Result<PlanCells<'a>, AllocError>
        ensures { IfOk result (λ cells. cells.checked.now ≡ checked.now) }
    {
        let groups = cells_of(alloc, checked.plan().groups.as_slice())?;
        Ok(PlanCells { checked, groups })
    }

    /// The plan whose cells these are.
    pub fn checked(&self) -> &'a Checked<'a>
        ensures { result.now ≡ self.now.checked.now }
    {
        self.checked
    }

    /// The place of the first group of a function, the number of groups where none is. The time is linear in the groups.
    pub fn place(&self, function: &str) -> usize
        ensures { result ≡ place_of_group (plan_checked self.now.checked.now).groups function.now }
    {
        place_in(self.checked.plan().groups.as_slice(), function)
    }

    /// The number of a group's cell at a point, `None` where there is no such group or its region has not the point.
    ///
    /// It allocates nothing, and the time is linear in the coordinates.
    pub fn number(&self, group: usize, at: &[i64]) -> Option<u32>
        ensures { result ≡ number_in (plan_checked self.now.checked.now) group at.now }
    {
        match self.groups.as_slice().get(group) {
            Some(cells) => {
                if is_on(&cells.axes, at) {
                    Some(cells.first + rank_of(&cells.axes, at))
                } else {
                    None
                }
            }
            None => None,
        }
    }

    /// The number of a group's first cell, where its region is just the points of these extents, so that its cells follow each
    /// other from there on, the first coordinate fastest. `None` where the region has another form.
    ///
    /// It allocates nothing, and the time is linear in the coordinates.
    pub fn first(&self, group: usize, extents: &[u32]) -> Option<u32>
        ensures { IfSome result (FollowFrom (plan_checked self.now.checked.now) group extents.now) }
    {
        let Some(cells) = self.groups.as_slice().get(group) else {
            return None;
        };
        if are_from_zero(&cells.axes, extents) {
            Some(cells.first)
        } else {
            None
        }
    }
}
