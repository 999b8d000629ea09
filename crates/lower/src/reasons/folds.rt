//! Why a fold is refused.

use crate::parties::Party;
use crate::reasons::causes::{Amount, Cause, FoldCause, Link, Reason, Standstill, Storage};
use crate::reasons::flaws::{Counted, counted_of, factor_named};
use crate::reasons::reach::number_named;
use crate::reasons::readings::Reading;
use crate::reasons::slides::{Slide, readings_at, slide_of, slide_outside};
use algo::Algo;
use lin::{Forms, Scope, Span1};
use regions::spots::root_at;
use regions::windows::window_size;
use sched::definitions::Stored;
use sched::hosts::Inner;
use sched::roots::Root;
use sched::stop::Stop;
use sched::windows::{freed, symbols_from};
use sched::{Fold, Loop, Split, Tail};
use std::alloc::{AllocError, Global};
use tree::token::{Name, Span};

/// The most functions of a chain.
const MOST_LINKS: usize = 6;

/// An end of a span.
#[derive(Clone, Copy, Drop)]
enum End {
    First,
    Last,
}

fn is_named(inner: &Inner<'_>, name: &Name) -> bool {
    inner.root.stored.subject.name.as_str() == name.as_str()
}

// ---- windows

// Where a function slides, where it is stored as the schedule says or anywhere outside of the loop at which it is computed.
fn slide_at(
    alloc: Global,
    group: &Root<'_>,
    inners: &[Inner<'_>],
    inner: &Inner<'_>,
) -> Result<Slide, AllocError> {
    if inner.root.stored.placed.stores.is_empty() {
        slide_outside(alloc, group, inners, inner)
    } else {
        slide_of(alloc, group, inners, inner)
    }
}

// How many numbers of a dimension its last blocks may have past the end, by the splits that let them run past it.
fn past_end(alloc: Global, cuts: &[Split], along: &Name) -> Result<i64, AllocError> {
    let counted = counted_of(alloc, cuts, along)?;
    Ok(past_by(cuts, &counted))
}

fn past_by(cuts: &[Split], counted: &[Counted]) -> i64 {
    let mut past: i64 = 0;
    for cut in cuts {
        if cut.tail == Tail::Roundup {
            if let Some(factor) = factor_named(counted, &cut.whole) {
                let step = i64::try_from(factor).unwrap_or(i64::MAX);
                let most = i64::from(cut.factor).saturating_sub(1);
                past = past.saturating_add(step.saturating_mul(most));
            }
        }
    }
    past
}

// How many places more than its window has numbers a function needs: what is computed past the end, and one more where bounds take
// the first new number for one past the end.
fn surplus(
    alloc: Global,
    inner: &Inner<'_>,
    along: usize,
    span: &Span1,
) -> Result<i64, AllocError> {
    let Some(variable) = inner.root.stored.subject.variables.get(along) else {
        return Ok(0);
    };
    let past = past_end(alloc, &inner.root.stored.placed.cuts, variable)?;
    if past > 0 && span.upper.as_slice().len() > 1 {
        return Ok(past.saturating_add(1));
    }
    Ok(past)
}

// How many places the window of a function asks for where it slides in this dimension.
fn window_along(
    alloc: Global,
    group: &Root<'_>,
    inners: &[Inner<'_>],
    inner: &Inner<'_>,
    along: usize,
) -> Result<Option<i64>, AllocError> {
    match slide_at(alloc, group, inners, inner)? {
        Slide::Along(dimension) if dimension == along => {}
        _ => return Ok(None),
    }
    let Some(span) = inner.region.as_slice().get(along) else {
        return Ok(None);
    };
    match window_size(alloc, &inner.scope, span)? {
        Some(window) => Ok(Some(window.saturating_add(surplus(alloc, inner, along, span)?))),
        None => Ok(None),
    }
}

// The longest window of the function in a group; none where it does not slide in this dimension everywhere.
fn longest_window(
    alloc: Global,
    group: &Root<'_>,
    inners: &[Inner<'_>],
    name: &Name,
    along: usize,
) -> Result<Option<i64>, AllocError> {
    let mut longest: i64 = 1;
    for inner in inners {
        if is_named(inner, name) {
            match window_along(alloc, group, inners, inner, along)? {
                Some(window) => longest = longest.max(window),
                None => return Ok(None),
            }
        }
    }
    Ok(Some(longest))
}

// As many places as each window of the function asks for.
fn enough_places(
    alloc: Global,
    parties: &[Party<'_>],
    name: &Name,
    along: usize,
) -> Result<Option<i64>, AllocError> {
    let mut enough: i64 = 1;
    for party in parties {
        if let Ok(inners) = &party.inners {
            match longest_window(alloc, &party.root, inners, name, along)? {
                Some(window) => enough = enough.max(window),
                None => return Ok(None),
            }
        }
    }
    Ok(Some(enough))
}

// ---- readings

// What an index or a coordinate stays within in a turn.
fn in_turn(alloc: Global, turn: &Scope, scope: &Scope, span: &Span1) -> Result<Span1, Stop> {
    let inside = symbols_from(alloc, turn.len(), scope.len())?;
    freed(alloc, scope, &inside, span)
}

fn span_from(alloc: Global, lower: &Forms, upper: &Forms) -> Result<Span1, AllocError> {
    Ok(Span1 {
        lower: lower.copy(alloc)?,
        upper: upper.copy(alloc)?,
    })
}

fn size_from(
    alloc: Global,
    turn: &Scope,
    lower: &Forms,
    upper: &Forms,
) -> Result<Option<i64>, AllocError> {
    let span = span_from(alloc, lower, upper)?;
    window_size(alloc, turn, &span)
}

// How many numbers there are from the first of all to the last of a span, or from its first on.
fn size_to(
    alloc: Global,
    turn: &Scope,
    all: &Span1,
    own: &Span1,
    end: End,
) -> Result<Option<i64>, AllocError> {
    match end {
        End::First => size_from(alloc, turn, &own.lower, &all.upper),
        End::Last => size_from(alloc, turn, &all.lower, &own.upper),
    }
}

// How many numbers there are from the first of all to the last that the index reads, or from the first that it reads on.
fn reached(
    alloc: Global,
    turn: &Scope,
    all: &Span1,
    reading: &Reading<'_>,
    end: End,
) -> Result<Option<i64>, Stop> {
    let Some(span) = &reading.span else {
        return Ok(None);
    };
    let own = in_turn(alloc, turn, &reading.scope, span)?;
    Ok(size_to(alloc, turn, all, &own, end)?)
}

// The place of the index that reads farthest in a dimension.
fn farthest(
    alloc: Global,
    inner: &Inner<'_>,
    dimension: usize,
    readings: &[Reading<'_>],
    end: End,
) -> Result<Option<usize>, Stop> {
    let Some(all) = inner.region.as_slice().get(dimension) else {
        return Ok(None);
    };
    let mut best: Option<(usize, i64)> = None;
    for (place, reading) in readings.iter().enumerate() {
        if reading.dimension == dimension {
            if let Some(count) = reached(alloc, &inner.scope, all, reading, end)? {
                let is_better = match best {
                    Some((_, known)) => count > known,
                    None => true,
                };
                if is_better {
                    best = Some((place, count));
                }
            }
        }
    }
    match best {
        Some((place, _)) => Ok(Some(place)),
        None => Ok(None),
    }
}

// Where the function of this name is computed first.
fn first_named(inners: &[Inner<'_>], name: &Name) -> Option<usize> {
    for (number, inner) in inners.iter().enumerate() {
        if is_named(inner, name) {
            return Some(number);
        }
    }
    None
}

// The indices at which those that are declared later call a function where it is computed.
fn readings_of<'a>(
    alloc: Global,
    algo: &Algo,
    group: &Root<'a>,
    inners: &[Inner<'a>],
    inner: &Inner<'a>,
) -> Result<Vec<Reading<'a>>, Stop> {
    let name = inner.root.stored.subject.name;
    let before = first_named(inners, &name).unwrap_or(inners.len());
    let Some(callers) = inners.get(..before) else {
        return Ok(Vec::new(alloc));
    };
    readings_at(alloc, algo, group, callers, inner.home, name.as_str())
}

// ---- chains

fn link(root: &Root<'_>, dimension: usize, count: i64) -> Option<Link> {
    let variable = root.stored.subject.variables.get(dimension)?;
    Some(Link {
        function: root.stored.subject.name,
        variable: *variable,
        amount: Amount::Numbers(count),
    })
}

// How many numbers a span has in a turn.
fn size_in_turn(
    alloc: Global,
    turn: &Scope,
    scope: &Scope,
    span: &Span1,
) -> Result<Option<i64>, Stop> {
    let own = in_turn(alloc, turn, scope, span)?;
    Ok(window_size(alloc, turn, &own)?)
}

// How much of itself a group's own function computes in a turn.
fn group_link(
    alloc: Global,
    turn: &Scope,
    group: &Root<'_>,
    reading: &Reading<'_>,
) -> Result<Option<Link>, Stop> {
    let Some(dimension) = reading.along else {
        return Ok(None);
    };
    let Some(own) = &reading.own else {
        return Ok(None);
    };
    let Some(count) = size_in_turn(alloc, turn, &reading.scope, own)? else {
        return Ok(None);
    };
    Ok(link(group, dimension, count))
}

fn inner_link(
    alloc: Global,
    inner: &Inner<'_>,
    dimension: usize,
) -> Result<Option<Link>, AllocError> {
    let Some(span) = inner.region.as_slice().get(dimension) else {
        return Ok(None);
    };
    match window_size(alloc, &inner.scope, span)? {
        Some(count) => Ok(link(&inner.root, dimension, count)),
        None => Ok(None),
    }
}

// The reader that needs most of a function with its dimension; where that is the group's own function, what that computes is added.
fn next_reader(
    alloc: Global,
    group: &Root<'_>,
    inner: &Inner<'_>,
    dimension: usize,
    readings: &[Reading<'_>],
    chain: &mut Vec<Link>,
) -> Result<Option<(usize, usize)>, Stop> {
    let Some(place) = farthest(alloc, inner, dimension, readings, End::Last)? else {
        return Ok(None);
    };
    let Some(reading) = readings.get(place) else {
        return Ok(None);
    };
    if let (Some(number), Some(along)) = (reading.number, reading.along) {
        return Ok(Some((number, along)));
    }
    if let Some(last) = group_link(alloc, &inner.scope, group, reading)? {
        chain.push(last)?;
    }
    Ok(None)
}

// Adds what is needed of a function in a turn, and tells the reader that needs most of it with its dimension.
fn add_link<'a>(
    alloc: Global,
    algo: &Algo,
    group: &Root<'a>,
    inners: &[Inner<'a>],
    inner: &Inner<'a>,
    dimension: usize,
    chain: &mut Vec<Link>,
) -> Result<Option<(usize, usize)>, Stop> {
    let Some(own) = inner_link(alloc, inner, dimension)? else {
        return Ok(None);
    };
    chain.push(own)?;
    let readings = readings_of(alloc, algo, group, inners, inner)?;
    next_reader(alloc, group, inner, dimension, &readings, chain)
}

// What a turn needs of a function, and of its readers.
fn chain_of<'a>(
    alloc: Global,
    algo: &Algo,
    group: &Root<'a>,
    inners: &[Inner<'a>],
    number: usize,
    dimension: usize,
) -> Result<Vec<Link>, Stop> {
    let mut chain = Vec::new(alloc);
    let mut at = (number, dimension);
    for _link in 0..MOST_LINKS {
        let Some(inner) = inners.get(at.0) else {
            return Ok(chain);
        };
        match add_link(alloc, algo, group, inners, inner, at.1, &mut chain)? {
            Some(next) => at = next,
            None => return Ok(chain),
        }
    }
    Ok(chain)
}

// ---- reasons

// Adds the place in the algorithm's text of the index that reads farthest.
fn add_place(
    alloc: Global,
    inner: &Inner<'_>,
    dimension: usize,
    readings: &[Reading<'_>],
    end: End,
    places: &mut Vec<Span>,
) -> Result<(), Stop> {
    if let Some(place) = farthest(alloc, inner, dimension, readings, end)? {
        if let Some(reading) = readings.get(place) {
            places.push(reading.index.span())?;
        }
    }
    Ok(())
}

// Adds those of the indices that read farthest down and up.
fn add_places<'a>(
    alloc: Global,
    algo: &Algo,
    group: &Root<'a>,
    inners: &[Inner<'a>],
    inner: &Inner<'a>,
    dimension: usize,
    places: &mut Vec<Span>,
) -> Result<(), Stop> {
    let readings = readings_of(alloc, algo, group, inners, inner)?;
    add_place(alloc, inner, dimension, &readings, End::First, places)?;
    add_place(alloc, inner, dimension, &readings, End::Last, places)
}

fn small<'a>(
    alloc: Global,
    algo: &Algo,
    group: &Root<'a>,
    inners: &[Inner<'a>],
    number: usize,
    dimension: usize,
    cause: FoldCause,
) -> Result<Option<Reason>, Stop> {
    let Some(inner) = inners.get(number) else {
        return Ok(Some(Cause::Fold(cause).alone(alloc)));
    };
    let mut places = Vec::new(alloc);
    add_places(alloc, algo, group, inners, inner, dimension, &mut places)?;
    let chain = chain_of(alloc, algo, group, inners, number, dimension)?;
    Ok(Some(Reason {
        cause: Cause::Fold(cause),
        places,
        chain,
    }))
}

// The first fold of another variable.
fn other_fold(folds: &[Fold], along: Name) -> Option<FoldCause> {
    for fold in folds {
        if fold.dimension.as_str() != along.as_str() {
            return Some(FoldCause::OtherFold {
                along,
                fold: fold.dimension,
            });
        }
    }
    None
}

// That a fold has fewer places than the window of this span has numbers.
fn small_fold(
    alloc: Global,
    parties: &[Party<'_>],
    inner: &Inner<'_>,
    dimension: usize,
    along: Name,
    turn: Name,
    span: &Span1,
) -> Result<Option<FoldCause>, AllocError> {
    let function = inner.root.stored.subject.name;
    let Some(fold) = inner.root.stored.placed.folds.first() else {
        return Ok(None);
    };
    let Some(window) = window_size(alloc, &inner.scope, span)? else {
        return Ok(None);
    };
    Ok(Some(FoldCause::SmallFold {
        function,
        along,
        turn,
        places: fold.factor,
        window,
        enough: enough_places(alloc, parties, &function, dimension)?,
    }))
}

// What is wrong with the folds of a function that slides.
fn misfit(
    alloc: Global,
    parties: &[Party<'_>],
    inner: &Inner<'_>,
    dimension: usize,
) -> Result<Option<FoldCause>, AllocError> {
    let placed = inner.root.stored.placed;
    let Some(along) = inner.root.stored.subject.variables.get(dimension) else {
        return Ok(None);
    };
    let Some(span) = inner.region.as_slice().get(dimension) else {
        return Ok(None);
    };
    let Some(home) = placed.homes.first() else {
        return Ok(None);
    };
    match other_fold(&placed.folds, *along) {
        Some(cause) => Ok(Some(cause)),
        None => small_fold(alloc, parties, inner, dimension, *along, home.turn, span),
    }
}

// The place in the algorithm's text of the first of these indices of the dimension that is folded.
fn folded_index(inner: &Inner<'_>, readings: &[Reading<'_>]) -> Option<Span> {
    let fold = inner.root.stored.placed.folds.first()?;
    for reading in readings {
        if let Some(variable) = inner.root.stored.subject.variables.get(reading.dimension) {
            if variable.as_str() == fold.dimension.as_str() {
                return Some(reading.index.span());
            }
        }
    }
    None
}

// The same of all indices at which a function is called.
fn folded_place<'a>(
    alloc: Global,
    algo: &Algo,
    group: &Root<'a>,
    inners: &[Inner<'a>],
    inner: &Inner<'a>,
) -> Result<Option<Span>, Stop> {
    let readings = readings_of(alloc, algo, group, inners, inner)?;
    Ok(folded_index(inner, &readings))
}

// The reason, at the first index of the dimension that is folded.
fn at_folded<'a>(
    alloc: Global,
    algo: &Algo,
    group: &Root<'a>,
    inners: &[Inner<'a>],
    inner: &Inner<'a>,
    cause: FoldCause,
) -> Result<Option<Reason>, Stop> {
    match folded_place(alloc, algo, group, inners, inner)? {
        Some(place) => Ok(Some(Cause::Fold(cause).at(alloc, place)?)),
        None => Ok(Some(Cause::Fold(cause).alone(alloc))),
    }
}

fn unslid<'a>(
    alloc: Global,
    algo: &Algo,
    group: &Root<'a>,
    inners: &[Inner<'a>],
    inner: &Inner<'a>,
    why: Standstill,
) -> Result<Option<Reason>, Stop> {
    let Some(home) = inner.root.stored.placed.homes.first() else {
        return Ok(None);
    };
    let cause = FoldCause::NotSliding {
        function: inner.root.stored.subject.name,
        turn: home.turn,
        why,
    };
    at_folded(alloc, algo, group, inners, inner, cause)
}

fn reason_at<'a>(
    alloc: Global,
    algo: &Algo,
    parties: &[Party<'_>],
    group: &Root<'a>,
    inners: &[Inner<'a>],
    number: usize,
) -> Result<Option<Reason>, Stop> {
    let Some(inner) = inners.get(number) else {
        return Ok(None);
    };
    match slide_of(alloc, group, inners, inner)? {
        Slide::Nowhere(why) => unslid(alloc, algo, group, inners, inner, why),
        Slide::Along(dimension) => match misfit(alloc, parties, inner, dimension)? {
            Some(cause) => small(alloc, algo, group, inners, number, dimension, cause),
            None => Ok(None),
        },
    }
}

fn unfit_number(inners: &[Inner<'_>], name: &Name) -> Option<usize> {
    for (number, inner) in inners.iter().enumerate() {
        if is_named(inner, name) && !inner.fits {
            return Some(number);
        }
    }
    None
}

/// Why the folds of a function do not fit in some place where it is computed.
pub(crate) fn fold_reason(
    alloc: Global,
    algo: &Algo,
    parties: &[Party<'_>],
    name: &Name,
) -> Result<Option<Reason>, Stop> {
    for party in parties {
        if let Ok(inners) = &party.inners {
            if let Some(number) = unfit_number(inners, name) {
                return reason_at(alloc, algo, parties, &party.root, inners, number);
            }
        }
    }
    Ok(None)
}

// ---- folds that no window is asked for

// The loop directly outside of another one, where that is not parallel.
fn next_outer(loops: &[Loop], turn: &Name) -> Option<Name> {
    let mut is_next = false;
    for one in loops {
        if is_next {
            return Some(one.name);
        }
        is_next = one.name.as_str() == turn.as_str() && !one.is_parallel();
    }
    None
}

// As many places as the fold has, where it is of this variable, and at least so many.
fn places_for(folds: &[Fold], along: &Name, enough: i64) -> i64 {
    let mut places = enough;
    for fold in folds {
        if fold.dimension.as_str() == along.as_str() {
            places = places.max(i64::from(fold.factor));
        }
    }
    places
}

// The `store_at` and the fold by which a function slides in a dimension.
fn storage_along(
    alloc: Global,
    parties: &[Party<'_>],
    group: &Root<'_>,
    inners: &[Inner<'_>],
    inner: &Inner<'_>,
    dimension: usize,
) -> Result<Option<Storage>, AllocError> {
    let placed = inner.root.stored.placed;
    let function = inner.root.stored.subject.name;
    let host = root_at(group, inners, inner.home.host);
    let Some(along) = inner.root.stored.subject.variables.get(dimension) else {
        return Ok(None);
    };
    let Some(home) = placed.homes.first() else {
        return Ok(None);
    };
    let Some(turn) = next_outer(&host.stored.placed.loops, &home.turn) else {
        return Ok(None);
    };
    let Some(enough) = enough_places(alloc, parties, &function, dimension)? else {
        return Ok(None);
    };
    Ok(Some(Storage {
        host: host.stored.subject.name,
        turn,
        along: *along,
        places: places_for(&placed.folds, along, enough),
    }))
}

// Why a function that is computed at a loop and stored at none has no fold.
fn unstored_reason<'a>(
    alloc: Global,
    algo: &Algo,
    parties: &[Party<'_>],
    group: &Root<'a>,
    inners: &[Inner<'a>],
    number: usize,
) -> Result<Option<Reason>, Stop> {
    let Some(inner) = inners.get(number) else {
        return Ok(None);
    };
    let function = inner.root.stored.subject.name;
    let turn = match inner.root.stored.placed.homes.first() {
        Some(home) => Some(home.turn),
        None => None,
    };
    match slide_outside(alloc, group, inners, inner)? {
        Slide::Along(dimension) => {
            let mend = storage_along(alloc, parties, group, inners, inner, dimension)?;
            let cause = FoldCause::NotStored {
                function,
                turn,
                mend,
            };
            small(alloc, algo, group, inners, number, dimension, cause)
        }
        Slide::Nowhere(_) => {
            let cause = FoldCause::NotStored {
                function,
                turn,
                mend: None,
            };
            at_folded(alloc, algo, group, inners, inner, cause)
        }
    }
}

// As many places as each window of the function asks for along this variable.
fn enough_along(
    alloc: Global,
    parties: &[Party<'_>],
    stored: &Stored<'_>,
    along: &Name,
) -> Result<Option<i64>, AllocError> {
    for (dimension, variable) in stored.subject.variables.iter().enumerate() {
        if variable.as_str() == along.as_str() {
            return enough_places(alloc, parties, &stored.subject.name, dimension);
        }
    }
    Ok(None)
}

// The variable of a fold without places, with as many places as are enough.
fn empty_cause(
    alloc: Global,
    parties: &[Party<'_>],
    stored: &Stored<'_>,
) -> Result<Option<FoldCause>, AllocError> {
    let function = stored.subject.name;
    for fold in &stored.placed.folds {
        if fold.factor == 0 {
            let enough = enough_along(alloc, parties, stored, &fold.dimension)?;
            return Ok(Some(FoldCause::NoPlaces {
                function,
                along: fold.dimension,
                enough,
            }));
        }
    }
    Ok(None)
}

fn stored_named<'b, 'a>(stored: &'b [Stored<'a>], name: &Name) -> Option<&'b Stored<'a>> {
    stored.get(number_named(stored, name)?)
}

/// Why a function has a fold for which no window is asked: it is stored at no loop, or to no places.
pub(crate) fn form_reason(
    alloc: Global,
    algo: &Algo,
    stored: &[Stored<'_>],
    parties: &[Party<'_>],
    name: &Name,
) -> Result<Option<Reason>, Stop> {
    if let Some(own) = stored_named(stored, name) {
        if !own.placed.stores.is_empty() {
            return match empty_cause(alloc, parties, own)? {
                Some(cause) => Ok(Some(Cause::Fold(cause).alone(alloc))),
                None => Ok(None),
            };
        }
    }
    for party in parties {
        if let Ok(inners) = &party.inners {
            if let Some(number) = first_named(inners, name) {
                return unstored_reason(alloc, algo, parties, &party.root, inners, number);
            }
        }
    }
    let cause = FoldCause::NotStored {
        function: *name,
        turn: None,
        mend: None,
    };
    Ok(Some(Cause::Fold(cause).alone(alloc)))
}
