//! Why no bounds are found of what the turns of loops need.

use crate::inner::inners_of;
use crate::nesting::nests_over;
use crate::parties::{Party, laid_by_turns, parties_of, roots_of};
use crate::reasons::asked::{is_whole, read_reason, unbounded_at};
use crate::reasons::causes::{BoundCause, Cause, Reason, TurnCause};
use crate::reasons::flaws::passes_limits;
use crate::reasons::reach::number_named;
use crate::reasons::readings::{Reading, add_readings};
use crate::reasons::slides::readings_at;
use algo::Algo;
use blocks::ends::Needed;
use lin::{Region, Scope};
use regions::demand::{region_at, sites_at};
use regions::regions::laid_functions;
use regions::spots::{root_at, scope_at, spots_of};
use sched::Nest;
use sched::definitions::Stored;
use sched::hosts::{Host, Inner, Spot};
use sched::roots::{Laid, Root, Site};
use sched::scopes::head_scope;
use sched::stop::Stop;
use sched::windows::shortest;
use std::alloc::{AllocError, Global};
use tree::token::Name;

// ---- one place

// The function in which an index stands.
fn caller_of<'a>(group: &Root<'a>, inners: &[Inner<'a>], reading: &Reading<'_>) -> Root<'a> {
    match reading.number {
        Some(number) => root_at(group, inners, Host::Inner(number)),
        None => *group,
    }
}

// The first index with a form past the limits.
fn flawed_reason<'a>(
    alloc: Global,
    algo: &Algo,
    group: &Root<'a>,
    inners: &[Inner<'a>],
    function: Name,
    readings: &[Reading<'_>],
) -> Result<Option<Reason>, AllocError> {
    for reading in readings {
        if reading.span.is_none() {
            let caller = caller_of(group, inners, reading);
            let reason = unbounded_at(alloc, algo, Some(&caller), function, reading)?;
            return Ok(Some(reason));
        }
    }
    Ok(None)
}

// The first dimension of which bounds do not tell how many numbers there are.
fn uncounted(alloc: Global, scope: &Scope, region: &Region) -> Result<Option<usize>, AllocError> {
    for (dimension, span) in region.as_slice().iter().enumerate() {
        if shortest(alloc, scope, span)?.is_none() {
            return Ok(Some(dimension));
        }
    }
    Ok(None)
}

// The first index of a dimension.
fn first_of<'b, 'a>(readings: &'b [Reading<'a>], dimension: usize) -> Option<&'b Reading<'a>> {
    for one in readings {
        if one.dimension == dimension {
            return Some(one);
        }
    }
    None
}

// The cause, with the place of the first index of a dimension.
fn at_first(
    alloc: Global,
    readings: &[Reading<'_>],
    dimension: usize,
    cause: BoundCause,
) -> Result<Option<Reason>, Stop> {
    match first_of(readings, dimension) {
        Some(reading) => {
            let reason = Cause::Bound(cause).at(alloc, reading.index.span())?;
            Ok(Some(reason))
        }
        None => Ok(Some(Cause::Bound(cause).alone(alloc))),
    }
}

// The first dimension whose loop is split.
fn first_cut(root: &Root<'_>) -> usize {
    let cuts = &root.stored.placed.cuts;
    for (dimension, variable) in root.stored.subject.variables.iter().enumerate() {
        if is_whole(cuts, variable) {
            return dimension;
        }
    }
    0
}

// Why no loops are made over what is needed of a function at a place.
fn loops_reason(
    alloc: Global,
    root: &Root<'_>,
    scope: &Scope,
    region: &Region,
    readings: &[Reading<'_>],
    turn: Name,
) -> Result<Option<Reason>, Stop> {
    let function = root.stored.subject.name;
    if let Some(dimension) = uncounted(alloc, scope, region)? {
        let Some(variable) = root.stored.subject.variables.get(dimension) else {
            return Ok(None);
        };
        let cause = BoundCause::Turn(TurnCause::NoCount {
            function,
            variable: *variable,
            turn,
        });
        return at_first(alloc, readings, dimension, cause);
    }
    let needed = Needed {
        scope,
        region,
        kept: region,
    };
    if passes_limits(nests_over(alloc, root, needed))? {
        let cause = BoundCause::Turn(TurnCause::Forms { function, turn });
        return at_first(alloc, readings, first_cut(root), cause);
    }
    Ok(None)
}

// Why bounds of what these sites need of a function at a place are missing.
fn sites_reason<'a>(
    alloc: Global,
    group: &Root<'a>,
    inners: &[Inner<'a>],
    root: &Root<'a>,
    spot: Spot,
    turn: Name,
    readings: &[Reading<'a>],
    sites: &[Site],
) -> Result<Option<Reason>, Stop> {
    let scope = scope_at(alloc, group, inners, spot)?;
    let region = region_at(alloc, root, &scope, sites)?;
    loops_reason(alloc, root, &scope, &region, readings, turn)
}

// The same of all sites at the place, where there are some.
fn needed_reason<'a>(
    alloc: Global,
    algo: &Algo,
    group: &Root<'a>,
    inners: &[Inner<'a>],
    root: &Root<'a>,
    spot: Spot,
    turn: Name,
    readings: &[Reading<'a>],
) -> Result<Option<Reason>, Stop> {
    let callee = root.stored.subject.name.as_str();
    let sites = sites_at(alloc, algo, group, inners, spot, callee)?;
    if sites.is_empty() {
        return Ok(None);
    }
    sites_reason(
        alloc,
        group,
        inners,
        root,
        spot,
        turn,
        readings,
        sites.as_slice(),
    )
}

// Why bounds of what is needed of a function at a place are missing.
fn spot_reason<'a>(
    alloc: Global,
    algo: &Algo,
    group: &Root<'a>,
    inners: &[Inner<'a>],
    root: &Root<'a>,
    spot: Spot,
) -> Result<Option<Reason>, Stop> {
    let function = root.stored.subject.name;
    let Some(home) = root.stored.placed.homes.first() else {
        return Ok(None);
    };
    let callee = function.as_str();
    let readings = readings_at(alloc, algo, group, inners, spot, callee)?;
    match flawed_reason(alloc, algo, group, inners, function, &readings)? {
        Some(flawed) => Ok(Some(flawed)),
        None => needed_reason(
            alloc,
            algo,
            group,
            inners,
            root,
            spot,
            home.turn,
            readings.as_slice(),
        ),
    }
}

// The first place at which bounds are missing.
fn place_reason<'a>(
    alloc: Global,
    algo: &Algo,
    group: &Root<'a>,
    inners: &[Inner<'a>],
    root: &Root<'a>,
) -> Result<Option<Reason>, Stop> {
    let spots = spots_of(alloc, group, inners, root)?;
    for spot in &spots {
        if let Some(reason) = spot_reason(alloc, algo, group, inners, root, *spot)? {
            return Ok(Some(reason));
        }
    }
    Ok(None)
}

// Why bounds of a function are missing that is computed inside of a group, where those that are declared later have them.
fn inner_reason<'a>(
    alloc: Global,
    algo: &Algo,
    group: &Root<'a>,
    rest: &[Root<'a>],
    root: &Root<'a>,
) -> Result<Option<Reason>, AllocError> {
    let cause = Cause::Bound(BoundCause::Turn(TurnCause::Unknown(root.stored.subject.name)));
    let found = match inners_of(alloc, algo, group, rest)? {
        Ok(inners) => place_reason(alloc, algo, group, &inners, root),
        Err(_) => Err(Stop::Limit),
    };
    match found {
        Ok(Some(reason)) => Ok(Some(reason)),
        Ok(None) | Err(Stop::Limit) => Ok(Some(cause.alone(alloc))),
        Err(Stop::Memory) => Err(AllocError),
    }
}

// The place of a function among others; none where it is none of them.
fn place_named(functions: &[Root<'_>], name: &Name) -> Option<usize> {
    for (place, one) in functions.iter().enumerate() {
        if one.stored.subject.name.as_str() == name.as_str() {
            return Some(place);
        }
    }
    None
}

// The first function of which bounds are missing in the loops of this group.
fn missing_in<'a>(
    alloc: Global,
    algo: &Algo,
    group: &Root<'a>,
    functions: &[Root<'a>],
) -> Result<Option<Name>, AllocError> {
    match inners_of(alloc, algo, group, functions)? {
        Ok(_) => Ok(None),
        Err(missing) => Ok(Some(missing)),
    }
}

// Why bounds of a function are missing, if they are missing of it in the loops of this group.
fn missing_turn<'a>(
    alloc: Global,
    algo: &Algo,
    group: &Root<'a>,
    functions: &[Root<'a>],
    name: &Name,
) -> Result<Option<Reason>, AllocError> {
    match missing_in(alloc, algo, group, functions)? {
        Some(missing) if missing.as_str() == name.as_str() => {
            let Some(place) = place_named(functions, name) else {
                return Ok(None);
            };
            let Some([one, rest @ ..]) = functions.get(place..) else {
                return Ok(None);
            };
            inner_reason(alloc, algo, group, rest, one)
        }
        _ => Ok(None),
    }
}

// The same of the first of these groups in whose loops they are missing.
fn first_turn<'a>(
    alloc: Global,
    algo: &Algo,
    groups: &[Root<'a>],
    functions: &[Root<'a>],
    name: &Name,
) -> Result<Option<Reason>, Stop> {
    for group in groups {
        if let Some(reason) = missing_turn(alloc, algo, group, functions, name)? {
            return Ok(Some(reason));
        }
    }
    Ok(None)
}

/// Why bounds of a function are missing that is computed inside the loops of a root function.
pub(crate) fn turn_reason<'a>(
    alloc: Global,
    algo: &Algo,
    stored: &'a [Stored<'a>],
    laid: &'a [Option<Laid>],
    one: &Stored<'_>,
) -> Result<Option<Reason>, Stop> {
    let functions = roots_of(alloc, stored, laid, false)?;
    let groups = roots_of(alloc, stored, laid, true)?;
    first_turn(alloc, algo, &groups, &functions, &one.subject.name)
}

// ---- all turns

// The indices at which the nests of another function call the one of this name.
fn add_nests<'a>(
    alloc: Global,
    algo: &Algo,
    stored: &[Stored<'_>],
    root: &Root<'a>,
    outer: &Scope,
    nests: &[Nest],
    callee: &str,
    found: &mut Vec<Reading<'a>>,
) -> Result<(), Stop> {
    let name = root.stored.subject.name;
    if name.as_str() == callee {
        return Ok(());
    }
    let number = number_named(stored, &name);
    add_readings(alloc, algo, root, number, outer, nests, None, callee, found)
}

// Those at which the nests of a root function do.
fn add_root_nests<'a>(
    alloc: Global,
    algo: &Algo,
    stored: &[Stored<'_>],
    root: &Root<'a>,
    callee: &str,
    found: &mut Vec<Reading<'a>>,
) -> Result<(), Stop> {
    let skeleton = &root.laid.skeleton;
    let outer = head_scope(alloc, skeleton)?;
    let nests = &skeleton.nests;
    add_nests(alloc, algo, stored, root, &outer, nests, callee, found)
}

// The indices at which the nests of a party call a function, but for its own.
fn add_party<'a>(
    alloc: Global,
    algo: &Algo,
    stored: &[Stored<'_>],
    party: &Party<'a>,
    callee: &str,
    found: &mut Vec<Reading<'a>>,
) -> Result<(), Stop> {
    add_root_nests(alloc, algo, stored, &party.root, callee, found)?;
    let Ok(inners) = &party.inners else {
        return Ok(());
    };
    for inner in inners {
        let nests = &inner.nests;
        add_nests(
            alloc,
            algo,
            stored,
            &inner.root,
            &inner.scope,
            nests,
            callee,
            found,
        )?;
    }
    Ok(())
}

// The indices at which the turns of all loops call a function, but for its own.
fn turned_readings<'a>(
    alloc: Global,
    algo: &Algo,
    stored: &[Stored<'_>],
    parties: &[Party<'a>],
    callee: &str,
) -> Result<Vec<Reading<'a>>, Stop> {
    let mut found = Vec::new(alloc);
    for party in parties {
        add_party(alloc, algo, stored, party, callee, &mut found)?;
    }
    Ok(found)
}

// The last function that had a region and has none now, from one of them on.
fn last_missing(known: &[Option<Laid>], made: &[Option<Laid>], number: usize) -> Option<usize> {
    let mut found = None;
    for (place, one) in known.iter().enumerate() {
        if place >= number && one.is_some() && matches!(made.get(place), Some(None)) {
            found = Some(place);
        }
    }
    found
}

// Why the turns of loops ask for no region of a function, where the functions have these regions.
fn asked_by_turns<'a>(
    alloc: Global,
    algo: &Algo,
    stored: &'a [Stored<'a>],
    laid: &'a [Option<Laid>],
    number: usize,
) -> Result<Option<Reason>, Stop> {
    let parties = parties_of(alloc, algo, stored, laid)?;
    let Some(one) = stored.get(number) else {
        return Ok(None);
    };
    let name = one.subject.name;
    let readings = turned_readings(alloc, algo, stored, &parties, name.as_str())?;
    read_reason(alloc, algo, stored, laid, number, &readings)
}

/// Why a function has a region by the loops over whole functions, and none by their turns.
pub(crate) fn turned_region(
    alloc: Global,
    algo: &Algo,
    stored: &[Stored<'_>],
    number: usize,
) -> Result<Option<Reason>, Stop> {
    let mut laid = laid_functions(alloc, algo, stored)?;
    for _round in 0..stored.len() {
        let Some(made) = laid_by_turns(alloc, algo, stored, &laid)? else {
            return Ok(None);
        };
        if let Some(last) = last_missing(&laid, &made, number) {
            return asked_by_turns(alloc, algo, stored, &laid, last);
        }
        laid = made;
    }
    Ok(None)
}
