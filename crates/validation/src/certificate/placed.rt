//! Where lines lie among the groups of a plan.

ghost use Rattle.std.specs.Prelude.{◌≡◌, IfOk, map};
ghost use Rattle.plan.specs.View.{plan_of};
ghost use Rattle.validation.specs.Certificate.Placing.{place_at, place_in};
ghost use Rattle.validation.specs.Certificate.Counted.{group_counted};
ghost use Rattle.validation.specs.Certificate.View.{place_held};
ghost use Rattle.validation.specs.Certificate.Ways.{IsSeen};

use crate::certificate::counted::CountedOutline;
use crate::certificate::placing::{Seen, seen_from};
use crate::certificate::spot::Spot;
use plan::Plan;
use plan::certificate::Cert;
use soundness::outline::Outlined;
use std::alloc::{AllocError, Global};

/// Where a statement ends: the group that has the line, and where in it the statement stands, seen behind it.
#[derive(Drop)]
pub(crate) struct Placed<'p, 'a> {
    pub outlined: &'p Outlined<'a>,
    pub spot: Spot,
}

/// The groups of a plan, in their order, with the lines of each counted.
pub(crate) fn outlines_of<'a>(
    alloc: Global,
    plan: &'a Plan,
    cert: &'a Cert,
) -> Result<Vec<CountedOutline<'a>>, AllocError>
    ensures { IfOk result (λ all. map group_counted all.items ≡ (plan_of plan.now).groups) }
{
    let mut all = Vec::new(alloc);
    for number in 0..plan.groups.len() {
        let outlined = Outlined::new(alloc, plan, cert, number)?;
        let counted = CountedOutline::of(outlined);
        all.push(counted)?;
    }
    Ok(all)
}

/// Where a line lies, so many lines behind the line `group` of a group. A group before the line is passed over by its count.
fn seen_in(alloc: Global, counted: &CountedOutline<'_>, left: u64) -> Result<Seen, AllocError>
    ensures { IfOk result (λ seen. IsSeen (group_counted counted.now) left seen) }
{
    let count = u64::from(counted.count);
    if counted.count < u32::MAX && left > count {
        return Ok(Seen::Behind(left - count - 1));
    }
    seen_from(alloc, counted.outlined.group(), left)
}

/// Where a statement ends at a line, so many lines behind the first group's line, if one does.
fn place_behind<'p, 'a>(
    alloc: Global,
    outlines: &'p [CountedOutline<'a>],
    left: u64,
) -> Result<Option<Placed<'p, 'a>>, AllocError>
    ensures { IfOk result (λ found. place_held found ≡ place_in (map group_counted outlines.now) left) }
{
    let mut left = left;
    for counted in outlines {
        match seen_in(alloc, counted, left)? {
            Seen::Here(spot) => {
                let outlined = &counted.outlined;
                return Ok(Some(Placed { outlined, spot }));
            }
            Seen::Inside => return Ok(None),
            Seen::Behind(rest) => left = rest,
        }
    }
    Ok(None)
}

/// Where a statement ends at a line of the plan's text, if one does.
pub(crate) fn placed_at<'p, 'a>(
    alloc: Global,
    outlines: &'p [CountedOutline<'a>],
    line: u64,
) -> Result<Option<Placed<'p, 'a>>, AllocError>
    ensures { IfOk result (λ found. place_held found ≡ place_at (map group_counted outlines.now) line) }
{
    match line.checked_sub(4) {
        None => Ok(None),
        Some(left) => place_behind(alloc, outlines, left),
    }
}
