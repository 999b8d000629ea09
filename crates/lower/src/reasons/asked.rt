//! Why a function has no region.

use crate::reasons::causes::{BoundCause, Cause, LargestSplit, Link, Reason};
use crate::reasons::flaws::{Flaw, split_flaw};
use crate::reasons::reach::{chain_of, ends_or_none, later_readings, read_ends, root_numbered};
use crate::reasons::readings::{Reading, own_readings};
use crate::reasons::turned::turned_region;
use algo::Algo;
use lin::Scope;
use regions::nests::skeleton_of;
use regions::regions::{
    Ends, add_extents, extent_of, formulas_call, laid_functions, unreached, whole_region, widen,
};
use sched::definitions::{Formula, Stored};
use sched::roots::{Laid, Root};
use sched::scopes::{Around, head_scope, interval, variables_of};
use sched::stop::Stop;
use sched::{Extent, Split};
use std::alloc::{AllocError, Global};
use tree::Expr;
use tree::token::{Name, Span};

/// How often it is asked again what a function's own updates need, and once more.
const MOST_ROUNDS: usize = 5;

/// The largest factor of a form.
const LARGEST_FACTOR: u64 = 1 << 20;

// Whether a function has no region, and calls the one of this name.
fn is_missing_reader(
    alloc: Global,
    user: &Stored<'_>,
    found: &Option<Laid>,
    callee: &str,
) -> Result<bool, AllocError> {
    if found.is_some() {
        return Ok(false);
    }
    match &user.formulas {
        Some(formulas) => formulas_call(alloc, formulas, callee),
        None => Ok(false),
    }
}

// The next function without a region that calls the one of this number.
fn missing_reader(
    alloc: Global,
    stored: &[Stored<'_>],
    laid: &[Option<Laid>],
    number: usize,
) -> Result<Option<usize>, AllocError> {
    let Some(one) = stored.get(number) else {
        return Ok(None);
    };
    let callee = one.subject.name.as_str();
    for other in number.saturating_add(1)..stored.len() {
        let Some(user) = stored.get(other) else {
            return Ok(None);
        };
        let Some(found) = laid.get(other) else {
            return Ok(None);
        };
        if is_missing_reader(alloc, user, found, callee)? {
            return Ok(Some(other));
        }
    }
    Ok(None)
}

// The function by which this one has no region: the last one without a region of a chain of readers.
fn first_missing(
    alloc: Global,
    stored: &[Stored<'_>],
    laid: &[Option<Laid>],
    number: usize,
) -> Result<usize, AllocError> {
    let mut at = number;
    for _step in 0..stored.len() {
        match missing_reader(alloc, stored, laid, at)? {
            Some(next) => at = next,
            None => return Ok(at),
        }
    }
    Ok(at)
}

// Whether the ends are those of an extent within the limits.
fn is_extent(ends: Option<Ends>) -> bool {
    extent_of(true, ends).is_some()
}

// Whether bounds show an index to stay within an extent.
fn is_few_around(
    alloc: Global,
    algo: &Algo,
    around: &Around<'_>,
    index: &Expr,
) -> Result<bool, AllocError> {
    match interval(alloc, algo, around, index) {
        Ok(span) => Ok(is_extent(ends_or_none(alloc, &around.scope, &span)?)),
        Err(Stop::Limit) => Ok(false),
        Err(Stop::Memory) => Err(AllocError),
    }
}

// What stands around the pure definition of a function, over its whole region.
fn around_whole<'a>(alloc: Global, caller: &Root<'a>) -> Result<Around<'a>, AllocError> {
    let coordinates = whole_region(alloc, caller.laid)?;
    let variables = variables_of(alloc, caller.stored.function, 0)?;
    Ok(Around {
        scope: Scope::new(alloc),
        variables,
        coordinates,
    })
}

// Whether an index of the pure definition has few enough numbers over the whole region of its caller.
fn is_few_over_region(
    alloc: Global,
    algo: &Algo,
    caller: &Root<'_>,
    index: &Expr,
) -> Result<bool, AllocError> {
    let around = around_whole(alloc, caller)?;
    is_few_around(alloc, algo, &around, index)
}

// Whether only in the loops of its caller's splits the index has a form past the limits.
fn is_split_form(
    alloc: Global,
    algo: &Algo,
    caller: &Root<'_>,
    reading: &Reading<'_>,
) -> Result<bool, AllocError> {
    if reading.definition > 0 || caller.stored.placed.cuts.is_empty() {
        return Ok(false);
    }
    is_few_over_region(alloc, algo, caller, reading.index)
}

/// Whether a variable is split.
pub(crate) fn is_whole(cuts: &[Split], variable: &Name) -> bool {
    for cut in cuts {
        if cut.whole.as_str() == variable.as_str() {
            return true;
        }
    }
    false
}

// By how much the variable of an index that is multiplied can be split; none where it is not split, or by nothing.
fn largest_split(caller: &Root<'_>, reading: &Reading<'_>, flaw: &Flaw) -> Option<LargestSplit> {
    let variable = caller.stored.subject.variables.get(reading.along?)?;
    let most = LARGEST_FACTOR.checked_div(flaw.multiplier?)?;
    if !is_whole(&caller.stored.placed.cuts, variable) || most < 2 {
        return None;
    }
    Some(LargestSplit {
        variable: *variable,
        most,
    })
}

/// That a part of an index has a form past the limits.
pub(crate) fn form_cause(
    alloc: Global,
    algo: &Algo,
    caller: Option<&Root<'_>>,
    function: Option<Name>,
    reading: &Reading<'_>,
    flaw: &Flaw,
) -> Result<BoundCause, AllocError> {
    let mut is_split = false;
    let mut largest = None;
    if let Some(caller) = caller {
        is_split = is_split_form(alloc, algo, caller, reading)?;
        largest = largest_split(caller, reading, flaw);
    }
    Ok(BoundCause::Form {
        function,
        caller: reading.caller,
        excess: flaw.excess,
        is_split,
        largest,
    })
}

/// That an index of a function has no bounds.
pub(crate) fn unbounded_at(
    alloc: Global,
    algo: &Algo,
    caller: Option<&Root<'_>>,
    function: Name,
    reading: &Reading<'_>,
) -> Result<Reason, AllocError> {
    match &reading.flaw {
        Some(flaw) => {
            let cause = form_cause(alloc, algo, caller, Some(function), reading, flaw)?;
            Cause::Bound(cause).at(alloc, flaw.place)
        }
        None => {
            let cause = BoundCause::NoBounds {
                function,
                caller: reading.caller,
                is_set: reading.is_set,
            };
            Cause::Bound(cause).at(alloc, reading.index.span())
        }
    }
}

// The first index of which no bounds are found.
fn first_unbounded(alloc: Global, readings: &[Reading<'_>]) -> Result<Option<usize>, AllocError> {
    for (place, reading) in readings.iter().enumerate() {
        if read_ends(alloc, reading)?.is_none() {
            return Ok(Some(place));
        }
    }
    Ok(None)
}

// The chain of the readers of a function that reads at an index.
fn chain_behind<'a>(
    alloc: Global,
    algo: &Algo,
    stored: &'a [Stored<'a>],
    laid: &'a [Option<Laid>],
    reading: &Reading<'_>,
) -> Result<Vec<Link>, Stop> {
    let Some(caller) = reading.number else {
        return Ok(Vec::new(alloc));
    };
    match reading.along {
        Some(along) => chain_of(alloc, algo, stored, laid, caller, along),
        None => Ok(Vec::new(alloc)),
    }
}

// That the first index without bounds has none, where there is one.
fn unbounded<'a>(
    alloc: Global,
    algo: &Algo,
    stored: &'a [Stored<'a>],
    laid: &'a [Option<Laid>],
    function: Name,
    readings: &[Reading<'_>],
) -> Result<Option<Reason>, Stop> {
    let Some(place) = first_unbounded(alloc, readings)? else {
        return Ok(None);
    };
    let Some(reading) = readings.get(place) else {
        return Ok(None);
    };
    let caller = match reading.number {
        Some(number) => root_numbered(stored, laid, number),
        None => None,
    };
    let chain = chain_behind(alloc, algo, stored, laid, reading)?;
    let mut reason = unbounded_at(alloc, algo, caller.as_ref(), function, reading)?;
    reason.chain = chain;
    Ok(Some(reason))
}

// The place of the first index of a dimension that goes down to the first of these ends, or up to the last of them.
fn place_at(
    alloc: Global,
    readings: &[Reading<'_>],
    dimension: usize,
    ends: Ends,
    is_last: bool,
) -> Result<Option<usize>, AllocError> {
    for (place, reading) in readings.iter().enumerate() {
        if reading.dimension == dimension {
            if let Some(own) = read_ends(alloc, reading)? {
                if (is_last && own.high == ends.high) || (!is_last && own.low == ends.low) {
                    return Ok(Some(place));
                }
            }
        }
    }
    Ok(None)
}

// Adds the place in the text of an index.
fn add_place(
    readings: &[Reading<'_>],
    place: Option<usize>,
    places: &mut Vec<Span>,
) -> Result<(), AllocError> {
    if let Some(place) = place {
        if let Some(reading) = readings.get(place) {
            places.push(reading.index.span())?;
        }
    }
    Ok(())
}

// The places in the text of the first and the last of these indices; one where they are the same.
fn places_of(
    alloc: Global,
    readings: &[Reading<'_>],
    first: Option<usize>,
    last: Option<usize>,
) -> Result<Vec<Span>, AllocError> {
    let mut places = Vec::new(alloc);
    add_place(readings, first, &mut places)?;
    if first != last {
        add_place(readings, last, &mut places)?;
    }
    Ok(places)
}

// That too many numbers of a function are asked for, by which indices.
fn wide_reason<'a>(
    alloc: Global,
    algo: &Algo,
    stored: &'a [Stored<'a>],
    laid: &'a [Option<Laid>],
    one: &Stored<'_>,
    readings: &[Reading<'_>],
    dimension: usize,
    ends: Ends,
) -> Result<Option<Reason>, Stop> {
    let first = place_at(alloc, readings, dimension, ends, false)?;
    let last = place_at(alloc, readings, dimension, ends, true)?;
    let Some(variable) = one.subject.variables.get(dimension) else {
        return Ok(None);
    };
    let Some(place) = last.or(first) else {
        return Ok(None);
    };
    let Some(reading) = readings.get(place) else {
        return Ok(None);
    };
    let cause = BoundCause::Wide {
        function: one.subject.name,
        variable: *variable,
        low: ends.low,
        high: ends.high,
        is_set: reading.is_set,
    };
    let places = places_of(alloc, readings, first, last)?;
    let chain = chain_behind(alloc, algo, stored, laid, reading)?;
    Ok(Some(Reason {
        cause: Cause::Bound(cause),
        places,
        chain,
    }))
}

// Adds what the indices ask for.
fn add_reach(
    alloc: Global,
    readings: &[Reading<'_>],
    reach: &mut Vec<Option<Ends>>,
) -> Result<(), AllocError> {
    for reading in readings {
        if let Some(ends) = read_ends(alloc, reading)? {
            widen(reach, reading.dimension, ends);
        }
    }
    Ok(())
}

// Whether the numbers between the ends may be needed of the function by all that reads it.
fn may_be_needed(stored: &Stored<'_>, ends: Ends) -> bool {
    extent_of(stored.subject.is_root, Some(ends)).is_some()
}

// The first dimension of a function of which too many numbers are asked for.
fn first_wide(one: &Stored<'_>, reach: &[Option<Ends>]) -> Option<(usize, Ends)> {
    for (dimension, ends) in reach.iter().enumerate() {
        if let Some(ends) = ends {
            if !may_be_needed(one, *ends) {
                return Some((dimension, *ends));
            }
        }
    }
    None
}

// Why no region comes of what these indices ask for, and of what was known before, which they widen.
fn asked_reason<'a>(
    alloc: Global,
    algo: &Algo,
    stored: &'a [Stored<'a>],
    laid: &'a [Option<Laid>],
    one: &Stored<'_>,
    readings: &[Reading<'_>],
    reach: &mut Vec<Option<Ends>>,
) -> Result<Option<Reason>, Stop> {
    let function = one.subject.name;
    if let Some(reason) = unbounded(alloc, algo, stored, laid, function, readings)? {
        return Ok(Some(reason));
    }
    add_reach(alloc, readings, reach)?;
    match first_wide(one, reach) {
        Some((dimension, ends)) => {
            wide_reason(alloc, algo, stored, laid, one, readings, dimension, ends)
        }
        None => Ok(None),
    }
}

// The extents of these ends; none where one is missing.
fn extents_of(alloc: Global, reach: &[Option<Ends>]) -> Result<Option<Vec<Extent>>, AllocError> {
    let mut extents = Vec::new(alloc);
    for ends in reach {
        match ends {
            Some(ends) => extents.push(extent_between(*ends))?,
            None => return Ok(None),
        }
    }
    Ok(Some(extents))
}

fn extent_between(ends: Ends) -> Extent {
    let count = ends.high.saturating_sub(ends.low).saturating_add(1);
    Extent {
        low: i32::try_from(ends.low).unwrap_or(0),
        count: u32::try_from(count).unwrap_or(1),
    }
}

// That the splits of a function alone have a form past the limits.
fn split_reason(alloc: Global, one: &Stored<'_>) -> Result<Option<Reason>, Stop> {
    match split_flaw(alloc, one)? {
        Some((variable, excess)) => {
            let cause = BoundCause::Splits {
                function: one.subject.name,
                variable,
                excess,
            };
            Ok(Some(Cause::Bound(cause).alone(alloc)))
        }
        None => Ok(None),
    }
}

// The loops of a function over what is asked for of it; none where there are none within the limits.
fn laid_over(
    alloc: Global,
    one: &Stored<'_>,
    formulas: &[Formula],
    reach: &[Option<Ends>],
) -> Result<Option<Laid>, AllocError> {
    let Some(region) = extents_of(alloc, reach)? else {
        return Ok(None);
    };
    match skeleton_of(alloc, one, formulas, &region) {
        Ok(skeleton) => Ok(Some(Laid { region, skeleton })),
        Err(Stop::Limit) => Ok(None),
        Err(Stop::Memory) => Err(AllocError),
    }
}

// Why no region comes of what a function's own updates ask for over the region that it has so far.
fn round_reason<'a>(
    alloc: Global,
    algo: &Algo,
    stored: &'a [Stored<'a>],
    laid: &'a [Option<Laid>],
    number: usize,
    own: &Root<'_>,
    reach: &mut Vec<Option<Ends>>,
) -> Result<Option<Reason>, Stop> {
    let skeleton = &own.laid.skeleton;
    let outer = head_scope(alloc, skeleton)?;
    let nests = &skeleton.nests;
    let readings = own_readings(alloc, algo, own, Some(number), &outer, nests)?;
    asked_reason(alloc, algo, stored, laid, own.stored, &readings, reach)
}

// What the updates of a function over this region ask for that there is not.
fn reason_over<'a>(
    alloc: Global,
    algo: &Algo,
    stored: &'a [Stored<'a>],
    laid: &'a [Option<Laid>],
    number: usize,
    one: &Stored<'_>,
    formulas: &[Formula],
    over: Laid,
    reach: &mut Vec<Option<Ends>>,
) -> Result<Option<Reason>, Stop> {
    let own = Root {
        stored: one,
        formulas,
        laid: &over,
    };
    round_reason(alloc, algo, stored, laid, number, &own, reach)
}

// Why a function with these ends has no region: by its splits, or by what its own updates ask for.
fn own_reason<'a>(
    alloc: Global,
    algo: &Algo,
    stored: &'a [Stored<'a>],
    laid: &'a [Option<Laid>],
    number: usize,
    reach: &mut Vec<Option<Ends>>,
) -> Result<Option<Reason>, Stop> {
    let Some(one) = stored.get(number) else {
        return Ok(None);
    };
    let Some(formulas) = &one.formulas else {
        return Ok(None);
    };
    for _round in 0..MOST_ROUNDS {
        let Some(over) = laid_over(alloc, one, formulas, reach)? else {
            return split_reason(alloc, one);
        };
        let found = reason_over(
            alloc, algo, stored, laid, number, one, formulas, over, reach,
        )?;
        if let Some(reason) = found {
            return Ok(Some(reason));
        }
    }
    Ok(None)
}

// What is asked for of a function that no other reads: of the output its extents.
fn unread(alloc: Global, algo: &Algo, one: &Stored<'_>) -> Result<Vec<Option<Ends>>, AllocError> {
    let mut reach = unreached(alloc, one.subject.variables.len())?;
    if one.subject.is_output {
        add_extents(algo, &mut reach)?;
    }
    Ok(reach)
}

// Why no region comes of what these indices ask for, or of what the function's own updates then do.
fn asked_or_own<'a>(
    alloc: Global,
    algo: &Algo,
    stored: &'a [Stored<'a>],
    laid: &'a [Option<Laid>],
    number: usize,
    one: &Stored<'_>,
    readings: &[Reading<'_>],
    reach: &mut Vec<Option<Ends>>,
) -> Result<Option<Reason>, Stop> {
    match asked_reason(alloc, algo, stored, laid, one, readings, reach)? {
        Some(reason) => Ok(Some(reason)),
        None => own_reason(alloc, algo, stored, laid, number, reach),
    }
}

// Why a function which is called at these indices has no region.
pub(crate) fn read_reason<'a>(
    alloc: Global,
    algo: &Algo,
    stored: &'a [Stored<'a>],
    laid: &'a [Option<Laid>],
    number: usize,
    readings: &[Reading<'_>],
) -> Result<Option<Reason>, Stop> {
    let Some(one) = stored.get(number) else {
        return Ok(None);
    };
    let mut reach = unread(alloc, algo, one)?;
    asked_or_own(alloc, algo, stored, laid, number, one, readings, &mut reach)
}

// Why a function of which all readers have regions has none.
fn region_reason<'a>(
    alloc: Global,
    algo: &Algo,
    stored: &'a [Stored<'a>],
    laid: &'a [Option<Laid>],
    number: usize,
) -> Result<Option<Reason>, Stop> {
    let Some(one) = stored.get(number) else {
        return Ok(None);
    };
    let readings = later_readings(alloc, algo, stored, laid, number)?;
    if readings.is_empty() && !one.subject.is_output {
        let cause = BoundCause::Unused(one.subject.name);
        return Ok(Some(Cause::Bound(cause).alone(alloc)));
    }
    read_reason(alloc, algo, stored, laid, number, &readings)
}

/// Why a function has no region.
pub(crate) fn missing_region(
    alloc: Global,
    algo: &Algo,
    stored: &[Stored<'_>],
    number: usize,
) -> Result<Option<Reason>, Stop> {
    let laid = laid_functions(alloc, algo, stored)?;
    if matches!(laid.get(number), Some(Some(_))) {
        return turned_region(alloc, algo, stored, number);
    }
    let first = first_missing(alloc, stored, &laid, number)?;
    region_reason(alloc, algo, stored, &laid, first)
}
