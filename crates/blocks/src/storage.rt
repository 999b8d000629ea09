//! The places of a buffer: how many hold what is needed and what is stored.

ghost use Rattle.std.specs.Prelude.{◌≡◌, [], IfOk, length, map};
ghost use Rattle.std.specs.Option.{option_map};
ghost use Rattle.sched.specs.Limited.{Gives, Tells};
ghost use Rattle.blocks.specs.Parted as parted;
ghost use Rattle.sched.specs.Placed.{later_seen};
ghost use Rattle.blocks.specs.Rounded as rounded;
ghost use Rattle.blocks.specs.Seats as seats;
ghost use Rattle.sched.specs.Taken.{site_of};
ghost use Rattle.sched.specs.Skeleton.{nest_seen};

use lin::{Lin, Region, Scope, Span1, Sym};
use plan::Places;
use sched::hosts::Later;
use sched::roots::Site;
use sched::scopes::bind_steps;
use sched::stop::Stop;
use sched::windows::{count_from, freed, places_of, symbols_from};
use sched::{Nest, Step};
use std::alloc::{AllocError, Global};

/// What a function stores in all turns.
#[derive(Clone, Copy, Drop)]
pub struct Arms<'b> {
    pub scope: &'b Scope,
    pub nests: &'b [Nest],
    pub later: Option<&'b Later>,
}

/// The fewest places so far, and how many they are.
#[derive(Drop)]
pub(crate) struct Best {
    places: Option<Places>,
    least: i64,
}

fn larger(first: i64, second: i64) -> i64
    ensures { result ≡ rounded.larger first second }
{
    if first < second { second } else { first }
}

// How many places there are from a form on, at least so many, where bounds tell how far behind it the last number is.
fn stored_by(most: Option<i64>, least: i64) -> Option<i64>
    ensures { result ≡ rounded.stored_by most least }
{
    match most {
        Some(most) => Some(larger(least, most.saturating_add(1))),
        None => None,
    }
}

// The same where a nest stores this number of a dimension, inside of its steps.
fn stored_in(
    alloc: Global,
    scope: &Scope,
    origin: &Lin,
    steps: &[Step],
    form: &Option<Lin>,
    least: i64,
) -> Result<Option<i64>, AllocError>
    ensures { IfOk result (λ count. count ≡ rounded.stored_in scope.now origin.now steps.now form.now least) }
{
    let Some(form) = form else {
        return Ok(Some(least));
    };
    let mut inner = scope.copy(alloc)?;
    bind_steps(alloc, &mut inner, steps)?;
    let most = inner.sup_of_difference(alloc, form, origin)?;
    Ok(stored_by(most, least))
}

// The same of a nest.
fn stored_at(
    alloc: Global,
    scope: &Scope,
    nest: &Nest,
    dimension: usize,
    origin: &Lin,
    least: i64,
) -> Result<Option<i64>, AllocError>
    ensures { IfOk result (λ count. count ≡ rounded.stored_at scope.now dimension origin.now (nest_seen nest.now) least) }
{
    match nest.at.get(dimension) {
        Some(form) => stored_in(alloc, scope, origin, &nest.steps, form, least),
        None => Ok(Some(least)),
    }
}

/// How many places there are from a form on, at least so many, up to the last number that the nests store; none where bounds do
/// not tell it.
pub(crate) fn stored_from(
    alloc: Global,
    scope: &Scope,
    nests: &[Nest],
    dimension: usize,
    origin: &Lin,
    least: i64,
) -> Result<Option<i64>, AllocError>
    ensures { IfOk result (λ count. count ≡ rounded.stored_from scope.now dimension origin.now (map nest_seen nests.now) least) }
{
    match nests {
        [] => Ok(Some(least)),
        [nest, rest @ ..] => match stored_at(alloc, scope, nest, dimension, origin, least)? {
            Some(most) => stored_from(alloc, scope, rest, dimension, origin, most),
            None => Ok(None),
        },
    }
}

// The same up to the last number that the later turns store, where there are some.
fn later_from(
    alloc: Global,
    later: Option<&Later>,
    dimension: usize,
    origin: &Lin,
    least: i64,
) -> Result<Option<i64>, AllocError>
    ensures { IfOk result (λ count. count ≡ seats.later_from (option_map (λ l. later_seen l.now) later.entry) dimension origin.now least) }
{
    match later {
        Some(later) => stored_from(alloc, &later.scope, &later.nests, dimension, origin, least),
        None => Ok(Some(least)),
    }
}

// How many places from a form on hold what is needed and what is stored.
fn seats_from(
    alloc: Global,
    outer: &Scope,
    arms: Arms<'_>,
    dimension: usize,
    origin: &Lin,
    upper: &[Lin],
) -> Result<Option<i64>, AllocError>
    ensures { IfOk result (λ count. count ≡ seats.seats_from outer.now (seats.arms_seen arms.entry) dimension origin.now upper.now) }
{
    let Some(needed) = count_from(alloc, outer, origin, upper)? else {
        return Ok(None);
    };
    match stored_from(alloc, arms.scope, arms.nests, dimension, origin, needed)? {
        Some(count) => later_from(alloc, arms.later, dimension, origin, count),
        None => Ok(None),
    }
}

// How many places there are from a form on up to what a call needs of a dimension, where that begins at one of these lower forms;
// none where the form is not shown to be at most that, or bounds do not tell it.
fn called_from(
    alloc: Global,
    scope: &Scope,
    origin: &Lin,
    lower: &[Lin],
    upper: &[Lin],
) -> Result<Option<i64>, AllocError>
    ensures { IfOk result (λ count. count ≡ seats.called_from scope.now origin.now upper.now lower.now) }
{
    match lower {
        [] => Ok(None),
        [low, rest @ ..] => {
            if scope.at_most(alloc, origin, low)? {
                count_from(alloc, scope, origin, upper)
            } else {
                called_from(alloc, scope, origin, rest, upper)
            }
        }
    }
}

// The same of a call that has the dimension, at least so many.
fn call_from(
    alloc: Global,
    scope: &Scope,
    call: &Region,
    dimension: usize,
    origin: &Lin,
    least: i64,
) -> Result<Option<i64>, AllocError>
    ensures { IfOk result (λ count. count ≡ seats.call_from scope.now dimension origin.now call.now least) }
{
    let Some(span) = call.as_slice().get(dimension) else {
        return Ok(Some(least));
    };
    let lower = span.lower.as_slice();
    match called_from(alloc, scope, origin, lower, span.upper.as_slice())? {
        Some(most) => Ok(Some(larger(least, most))),
        None => Ok(None),
    }
}

// The same of all calls at a site.
fn calls_from(
    alloc: Global,
    scope: &Scope,
    calls: &[Region],
    dimension: usize,
    origin: &Lin,
    least: i64,
) -> Result<Option<i64>, AllocError>
    ensures { IfOk result (λ count. count ≡ seats.calls_from scope.now dimension origin.now calls.now least) }
{
    match calls {
        [] => Ok(Some(least)),
        [call, rest @ ..] => match call_from(alloc, scope, call, dimension, origin, least)? {
            Some(count) => calls_from(alloc, scope, rest, dimension, origin, count),
            None => Ok(None),
        },
    }
}

// The same of all sites.
fn sites_from(
    alloc: Global,
    sites: &[Site],
    dimension: usize,
    origin: &Lin,
    least: i64,
) -> Result<Option<i64>, AllocError>
    ensures { IfOk result (λ count. count ≡ seats.sites_from dimension origin.now (map site_of sites.now) least) }
{
    match sites {
        [] => Ok(Some(least)),
        [site, rest @ ..] => {
            match calls_from(alloc, &site.scope, &site.calls, dimension, origin, least)? {
                Some(count) => sites_from(alloc, rest, dimension, origin, count),
                None => Ok(None),
            }
        }
    }
}

// How many places from a form on hold what is needed, what is stored and what these sites call.
fn held_from(
    alloc: Global,
    outer: &Scope,
    arms: Arms<'_>,
    sites: &[Site],
    dimension: usize,
    origin: &Lin,
    upper: &[Lin],
) -> Result<Option<i64>, AllocError>
    ensures { IfOk result (λ count. count ≡ seats.held_from outer.now (seats.arms_seen arms.entry) (map site_of sites.now) dimension origin.now upper.now) }
{
    match seats_from(alloc, outer, arms, dimension, origin, upper)? {
        Some(held) => sites_from(alloc, sites, dimension, origin, held),
        None => Ok(None),
    }
}

// So many places from a form on, where they are fewer than those so far.
fn with_count(
    alloc: Global,
    origin: &Lin,
    count: Option<i64>,
    best: Best,
) -> Result<Best, AllocError>
    ensures { IfOk result (λ made. made ≡ seats.with_count origin.now count best) }
{
    let Some(count) = count else {
        return Ok(best);
    };
    if count < best.least {
        Ok(Best {
            places: Some(places_of(alloc, origin, count)?),
            least: count,
        })
    } else {
        Ok(best)
    }
}

// The places from the one of these lower forms on that asks for the fewest.
fn places_from(
    alloc: Global,
    outer: &Scope,
    arms: Arms<'_>,
    sites: &[Site],
    dimension: usize,
    lower: &[Lin],
    upper: &[Lin],
    best: Best,
) -> Result<Option<Places>, AllocError>
    ensures { IfOk result (λ places. places ≡ seats.places_from outer.now (seats.arms_seen arms.entry) (map site_of sites.now) dimension upper.now
        lower.now best) }
{
    match lower {
        [] => Ok(best.places),
        [origin, rest @ ..] => {
            let count = held_from(alloc, outer, arms, sites, dimension, origin, upper)?;
            let next = with_count(alloc, origin, count, best)?;
            places_from(alloc, outer, arms, sites, dimension, rest, upper, next)
        }
    }
}

// The places of a dimension: from the lower form on that asks for the fewest and is shown to hold what these sites call, where
// there is one.
fn places_over(
    alloc: Global,
    outer: &Scope,
    arms: Arms<'_>,
    sites: &[Site],
    dimension: usize,
    span: &Span1,
) -> Result<Option<Places>, AllocError>
    ensures { IfOk result (λ places. places ≡ seats.places_over outer.now (seats.arms_seen arms.entry) (map site_of sites.now) dimension span.now) }
{
    let none = Best {
        places: None,
        least: i64::MAX,
    };
    let lower = span.lower.as_slice();
    let upper = span.upper.as_slice();
    places_from(alloc, outer, arms, sites, dimension, lower, upper, none)
}

// The places of a dimension, shown to hold what is called where bounds tell such places.
fn places_for(
    alloc: Global,
    outer: &Scope,
    arms: Arms<'_>,
    sites: &[Site],
    dimension: usize,
    span: &Span1,
) -> Result<Places, Stop>
    ensures { Gives result (λ places. places) (seats.places_for outer.now (seats.arms_seen arms.entry) (map site_of sites.now) dimension span.now) }
{
    if let Some(places) = places_over(alloc, outer, arms, sites, dimension, span)? {
        return Ok(places);
    }
    match places_over(alloc, outer, arms, &[], dimension, span)? {
        Some(places) => Ok(places),
        None => Err(Stop::Limit),
    }
}

// Spans freed of these symbols, behind others.
fn add_freed(
    alloc: Global,
    scope: &Scope,
    inside: &[Sym],
    spans: &[Span1],
    kept: &mut Region,
) -> Result<(), Stop>
    ensures { Tells result kept.new (parted.add_freed scope.now inside.now spans.now kept.old) }
{
    match spans {
        [] => Ok(()),
        [span, rest @ ..] => {
            kept.push(freed(alloc, scope, inside, span)?)?;
            add_freed(alloc, scope, inside, rest, kept)
        }
    }
}

/// What is needed of a function in all turns inside of where its buffer stands.
pub fn kept_region(
    alloc: Global,
    outer: &Scope,
    scope: &Scope,
    region: &Region,
) -> Result<Region, Stop>
    ensures { Gives result (λ kept. kept) (parted.kept_region (length outer.now) scope.now region.now) }
{
    let inside = symbols_from(alloc, outer.len(), scope.len())?;
    let mut kept = Region::new(alloc);
    add_freed(alloc, scope, &inside, region.as_slice(), &mut kept)?;
    Ok(kept)
}

// The places of these dimensions, from one of them on, behind others.
fn add_places(
    alloc: Global,
    outer: &Scope,
    arms: Arms<'_>,
    sites: &[Site],
    dimension: usize,
    spans: &[Span1],
    places: &mut Vec<Places>,
) -> Result<(), Stop>
    ensures { Tells result places.new.items (seats.add_places outer.now (seats.arms_seen arms.entry) (map site_of sites.now) dimension spans.now
        places.old.items) }
{
    match spans {
        [] => Ok(()),
        [span, rest @ ..] => {
            let Some(next) = dimension.checked_add(1) else {
                return Err(Stop::Memory);
            };
            places.push(places_for(alloc, outer, arms, sites, dimension, span)?)?;
            add_places(alloc, outer, arms, sites, next, rest, places)
        }
    }
}

/// The places of a region where its buffer stands.
pub fn storage_of(
    alloc: Global,
    outer: &Scope,
    arms: Arms<'_>,
    sites: &[Site],
    kept: &Region,
) -> Result<Vec<Places>, Stop>
    ensures { Gives result (λ v. v.items) (seats.add_places outer.now (seats.arms_seen arms.entry) (map site_of sites.now) 0 kept.now []) }
{
    let mut places = Vec::new(alloc);
    let spans = kept.as_slice();
    add_places(alloc, outer, arms, sites, 0, spans, &mut places)?;
    Ok(places)
}
