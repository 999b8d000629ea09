//! In which dimension a function slides, or why in none, and the indices at which it is called.

use crate::reasons::causes::Standstill;
use crate::reasons::readings::{Reading, add_readings};
use algo::Algo;
use blocks::parts::is_same_spot;
use lin::Region;
use regions::demand::is_scattered;
use regions::sliding::{Track, moves, sliding_dimension, track_of};
use regions::spots::{is_inside_spot, nests_at, root_at, scope_over, steps_at};
use sched::hosts::{Inner, Spot};
use sched::roots::Root;
use sched::stop::Stop;
use std::alloc::{AllocError, Global};

/// Whether a function slides in the turns of the loop at which it is computed.
#[derive(Clone, Copy, Drop)]
pub(crate) enum Slide {
    /// In this dimension.
    Along(usize),
    Nowhere(Standstill),
}

// Why a region slides in no dimension along the loop.
fn standstill(region: &Region, track: &Track) -> Standstill {
    let mut moving: usize = 0;
    for span in region.as_slice() {
        if moves(span, track) {
            moving = moving.saturating_add(1);
        }
    }
    match moving {
        0 => Standstill::Still,
        1 => Standstill::Falls,
        _ => Standstill::Several,
    }
}

// In which dimension a function slides along a loop, or why in none.
fn slide_along(inner: &Inner<'_>, track: &Track) -> Result<Slide, AllocError> {
    match sliding_dimension(&inner.region, track)? {
        Some(dimension) if is_scattered(&inner.root, dimension) => {
            Ok(Slide::Nowhere(Standstill::Scattered))
        }
        Some(dimension) => Ok(Slide::Along(dimension)),
        None => Ok(Slide::Nowhere(standstill(&inner.region, track))),
    }
}

/// In which dimension a function slides that is computed inside a group, or why in none.
pub(crate) fn slide_of<'a>(
    alloc: Global,
    group: &Root<'a>,
    inners: &[Inner<'a>],
    inner: &Inner<'_>,
) -> Result<Slide, AllocError> {
    if is_same_spot(inner.home, inner.store) {
        return Ok(Slide::Nowhere(Standstill::OneTurn));
    }
    slide_outside(alloc, group, inners, inner)
}

/// The same where it is stored outside of the loop at which it is computed.
pub(crate) fn slide_outside<'a>(
    alloc: Global,
    group: &Root<'a>,
    inners: &[Inner<'a>],
    inner: &Inner<'_>,
) -> Result<Slide, AllocError> {
    let Some(steps) = steps_at(group, inners, inner.home) else {
        return Ok(Slide::Nowhere(Standstill::OneTurn));
    };
    match track_of(alloc, steps)? {
        Some(track) => slide_along(inner, &track),
        None => Ok(Slide::Nowhere(Standstill::OneTurn)),
    }
}

// Adds the indices at which a function is called in the nests in which a place is.
fn add_host_readings<'a>(
    alloc: Global,
    algo: &Algo,
    group: &Root<'a>,
    inners: &[Inner<'a>],
    spot: Spot,
    callee: &str,
    found: &mut Vec<Reading<'a>>,
) -> Result<(), Stop> {
    let host = root_at(group, inners, spot.host);
    let nests = nests_at(group, inners, spot.host);
    let number = spot.host.number();
    let only = spot.definition;
    let scope = scope_over(alloc, group, inners, spot.host)?;
    add_readings(
        alloc, algo, &host, number, &scope, nests, only, callee, found,
    )
}

/// The indices at which a function is called at a place and inside of it.
pub(crate) fn readings_at<'a>(
    alloc: Global,
    algo: &Algo,
    group: &Root<'a>,
    inners: &[Inner<'a>],
    spot: Spot,
    callee: &str,
) -> Result<Vec<Reading<'a>>, Stop> {
    let mut found = Vec::new(alloc);
    add_host_readings(alloc, algo, group, inners, spot, callee, &mut found)?;
    for (number, inner) in inners.iter().enumerate() {
        if is_inside_spot(inners, number, spot) {
            add_readings(
                alloc,
                algo,
                &inner.root,
                Some(number),
                &inner.scope,
                &inner.nests,
                None,
                callee,
                &mut found,
            )?;
        }
    }
    Ok(found)
}
