//! What a function breaks by where it is needed or by how many points it has: L6 and L8.

use crate::breaches::lists::put;
use crate::breaches::loops::{placed_named, subject_named};
use crate::breaches::spots::{Spot, shift_of, shifts_of};
use crate::breaches::uses::tell_use;
use algo::Algo;
use sched::{Placement, RegionRule, Sched, Subject};
use std::alloc::{AllocError, Global};
use tree::token::Name;

fn tell_few(said: &mut String, subject: &Subject) -> Result<(), AllocError> {
    let name = subject.name.as_str();
    if subject.is_root {
        put(
            said,
            &["`", name, "` has fewer points there than a block.\n"],
        )
    } else {
        put(
            said,
            &[
                "In some turn `",
                name,
                "` has fewer points there, or fewer new ones, than a block.\n",
            ],
        )
    }
}

// Of several such splits it is not told which one it is.
fn tell_short(
    said: &mut String,
    sched: &Sched,
    subject: &Subject,
) -> Result<Option<Spot>, AllocError> {
    if shifts_of(sched, &subject.name) != 1 {
        return Ok(None);
    }
    tell_few(said, subject)?;
    said.push_str("Take a smaller factor, or `guard`.\n")?;
    Ok(shift_of(sched, &subject.name))
}

/// Tells what makes this function break a rule of regions: L6, or L8 of one split.
pub(crate) fn tell_region(
    alloc: Global,
    algo: &Algo,
    sched: &Sched,
    placement: &Placement,
    rule: RegionRule,
    function: &Name,
    said: &mut String,
) -> Result<Option<Spot>, AllocError> {
    let Some(subject) = subject_named(placement, function) else {
        return Ok(None);
    };
    let Some(placed) = placed_named(placement, function) else {
        return Ok(None);
    };
    match rule {
        RegionRule::OutsideUse => {
            tell_use(alloc, said, algo, sched, placement, function, placed)
        }
        RegionRule::ShortShift => tell_short(said, sched, subject),
        _ => Ok(None),
    }
}
