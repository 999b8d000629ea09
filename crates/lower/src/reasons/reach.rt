//! Why no bounds are found, or those that are leave what there is.

use crate::parties::Party;
use crate::reasons::asked::{form_cause, missing_region};
use crate::reasons::causes::{Amount, BoundCause, Cause, Link, Reason};
use crate::reasons::readings::{Reading, add_readings};
use crate::reasons::turned::turn_reason;
use algo::Algo;
use lin::{Region, Scope, Span1};
use numeric::Op;
use regions::regions::{Ends, ends_of, whole_region};
use sched::definitions::{Stored, counts};
use sched::forms::{between, is_inside, last_of};
use sched::hosts::Inner;
use sched::roots::{Laid, Root};
use sched::scopes::head_scope;
use sched::stop::Stop;
use sched::{Nest, Tail};
use std::alloc::{AllocError, Global};
use tree::Expr;
use tree::token::{Name, Span};

/// The most functions of a chain.
const MOST_LINKS: usize = 6;

/// The number of the stored function of this name.
pub(crate) fn number_named(stored: &[Stored<'_>], name: &Name) -> Option<usize> {
    for (number, one) in stored.iter().enumerate() {
        if one.subject.name.as_str() == name.as_str() {
            return Some(number);
        }
    }
    None
}

/// The stored function of this number, where it has a region and definitions.
pub(crate) fn root_numbered<'a>(
    stored: &'a [Stored<'a>],
    laid: &'a [Option<Laid>],
    number: usize,
) -> Option<Root<'a>> {
    let stored = stored.get(number)?;
    let Some(formulas) = &stored.formulas else {
        return None;
    };
    let Some(Some(laid)) = laid.get(number) else {
        return None;
    };
    Some(Root {
        stored,
        formulas,
        laid,
    })
}

/// None where bounds are missing.
pub(crate) fn ends_or_none(
    alloc: Global,
    scope: &Scope,
    span: &Span1,
) -> Result<Option<Ends>, AllocError> {
    match ends_of(alloc, scope, span) {
        Ok(ends) => Ok(Some(ends)),
        Err(Stop::Limit) => Ok(None),
        Err(Stop::Memory) => Err(AllocError),
    }
}

/// The ends of what an index stays within, over all turns.
pub(crate) fn read_ends(alloc: Global, reading: &Reading<'_>) -> Result<Option<Ends>, AllocError> {
    match &reading.span {
        Some(span) => ends_or_none(alloc, &reading.scope, span),
        None => Ok(None),
    }
}

/// Adds the indices at which a function calls another one, in the loops over its region.
pub(crate) fn add_root<'a>(
    alloc: Global,
    algo: &Algo,
    root: &Root<'a>,
    number: Option<usize>,
    callee: &str,
    found: &mut Vec<Reading<'a>>,
) -> Result<(), Stop> {
    let skeleton = &root.laid.skeleton;
    let outer = head_scope(alloc, skeleton)?;
    let nests = &skeleton.nests;
    add_readings(
        alloc, algo, root, number, &outer, nests, None, callee, found,
    )
}

/// The indices at which those that are declared later call a function, in the loops over their regions.
pub(crate) fn later_readings<'a>(
    alloc: Global,
    algo: &Algo,
    stored: &'a [Stored<'a>],
    laid: &'a [Option<Laid>],
    number: usize,
) -> Result<Vec<Reading<'a>>, Stop> {
    let mut found = Vec::new(alloc);
    let Some(one) = stored.get(number) else {
        return Ok(found);
    };
    let callee = one.subject.name.as_str();
    for user in number.saturating_add(1)..stored.len() {
        if let Some(root) = root_numbered(stored, laid, user) {
            add_root(alloc, algo, &root, Some(user), callee, &mut found)?;
        }
    }
    Ok(found)
}

// ---- chains

// The reading of a dimension that goes over the most numbers.
fn widest(
    alloc: Global,
    readings: &[Reading<'_>],
    dimension: usize,
) -> Result<Option<usize>, AllocError> {
    let mut best: Option<(usize, i64)> = None;
    for (place, reading) in readings.iter().enumerate() {
        if reading.dimension == dimension {
            if let Some(ends) = read_ends(alloc, reading)? {
                let count = ends.high.saturating_sub(ends.low);
                let is_better = match best {
                    Some((_, known)) => count > known,
                    None => true,
                };
                if is_better {
                    best = Some((place, count));
                }
            }
        }
    }
    match best {
        Some((place, _)) => Ok(Some(place)),
        None => Ok(None),
    }
}

fn link(root: &Root<'_>, dimension: usize) -> Option<Link> {
    let variable = root.stored.subject.variables.get(dimension)?;
    let extent = root.laid.region.get(dimension)?;
    Some(Link {
        function: root.stored.subject.name,
        variable: *variable,
        amount: Amount::Ends(i64::from(extent.low), last_of(extent)),
    })
}

// The reader of that reading, with its dimension.
fn widest_reader(
    alloc: Global,
    readings: &[Reading<'_>],
    dimension: usize,
) -> Result<Option<(usize, usize)>, Stop> {
    let Some(place) = widest(alloc, readings, dimension)? else {
        return Ok(None);
    };
    match readings.get(place) {
        Some(reading) => match (reading.number, reading.along) {
            (Some(next), Some(along)) => Ok(Some((next, along))),
            _ => Ok(None),
        },
        None => Ok(None),
    }
}

// Adds the region of a function, and tells its widest reader with that one's dimension.
fn add_link<'a>(
    alloc: Global,
    algo: &Algo,
    stored: &'a [Stored<'a>],
    laid: &'a [Option<Laid>],
    number: usize,
    dimension: usize,
    chain: &mut Vec<Link>,
) -> Result<Option<(usize, usize)>, Stop> {
    let Some(root) = root_numbered(stored, laid, number) else {
        return Ok(None);
    };
    let Some(own) = link(&root, dimension) else {
        return Ok(None);
    };
    chain.push(own)?;
    let readings = later_readings(alloc, algo, stored, laid, number)?;
    widest_reader(alloc, &readings, dimension)
}

/// The region of a function along one of its variables, and those of its readers.
pub(crate) fn chain_of<'a>(
    alloc: Global,
    algo: &Algo,
    stored: &'a [Stored<'a>],
    laid: &'a [Option<Laid>],
    number: usize,
    dimension: usize,
) -> Result<Vec<Link>, Stop> {
    let mut chain = Vec::new(alloc);
    let mut at = (number, dimension);
    for _link in 0..MOST_LINKS {
        match add_link(alloc, algo, stored, laid, at.0, at.1, &mut chain)? {
            Some(next) => at = next,
            None => return Ok(chain),
        }
    }
    Ok(chain)
}

// ---- indices that leave what there is

/// An index that is not shown to stay where it has to.
#[derive(Clone, Copy, Drop)]
struct Stray {
    place: Span,
    along: Option<usize>,
    cause: BoundCause,
}

fn is_read_inside(
    alloc: Global,
    reading: &Reading<'_>,
    extents: &Span1,
) -> Result<bool, AllocError> {
    match &reading.span {
        Some(span) => is_inside(alloc, &reading.scope, span, extents),
        None => Ok(false),
    }
}

fn is_rounded(stored: &Stored<'_>) -> bool {
    for cut in &stored.placed.cuts {
        if cut.tail == Tail::Roundup {
            return true;
        }
    }
    false
}

// Whether an expression is never below this number, by the literals of its clamps, minima and maxima.
fn is_from(low: i64, expr: &Expr) -> bool {
    match expr {
        Expr::Literal { number, .. } => *number >= low,
        Expr::Clamp { low: least, .. } => is_from(low, least),
        Expr::Binary {
            op,
            left,
            right,
            ..
        } => match op {
            Op::Max => is_from(low, left) || is_from(low, right),
            Op::Min => is_from(low, left) && is_from(low, right),
            _ => false,
        },
        _ => false,
    }
}

// Whether it is never above it.
fn is_up_to(high: i64, expr: &Expr) -> bool {
    match expr {
        Expr::Literal { number, .. } => *number <= high,
        Expr::Clamp {
            low,
            high: most,
            ..
        } => is_up_to(high, low) && is_up_to(high, most),
        Expr::Binary {
            op,
            left,
            right,
            ..
        } => match op {
            Op::Max => is_up_to(high, left) && is_up_to(high, right),
            Op::Min => is_up_to(high, left) || is_up_to(high, right),
            _ => false,
        },
        _ => false,
    }
}

// What is wrong with an index that is not shown to stay where it has to.
fn stray_cause(
    alloc: Global,
    algo: &Algo,
    caller: &Root<'_>,
    function: Option<Name>,
    reading: &Reading<'_>,
    has: (i64, i64),
) -> Result<BoundCause, AllocError> {
    if let Some(flaw) = &reading.flaw {
        return form_cause(alloc, algo, Some(caller), function, reading, flaw);
    }
    if is_from(has.0, reading.index) && is_up_to(has.1, reading.index) {
        return Ok(BoundCause::Clamped {
            function,
            caller: reading.caller,
            has,
            store: None,
            is_enough: false,
        });
    }
    let found = match read_ends(alloc, reading)? {
        Some(ends) => {
            if ends.low < has.0 || ends.high > has.1 {
                Some((ends.low, ends.high))
            } else {
                None
            }
        }
        None => None,
    };
    Ok(BoundCause::Outside {
        function,
        caller: reading.caller,
        found,
        has,
        is_rounded: is_rounded(caller.stored),
    })
}

fn strayed(
    alloc: Global,
    algo: &Algo,
    caller: &Root<'_>,
    function: Option<Name>,
    reading: &Reading<'_>,
    has: (i64, i64),
) -> Result<Option<Stray>, Stop> {
    let cause = stray_cause(alloc, algo, caller, function, reading, has)?;
    let place = match &reading.flaw {
        Some(flaw) => flaw.place,
        None => reading.index.span(),
    };
    Ok(Some(Stray {
        place,
        along: reading.along,
        cause,
    }))
}

// Whether a reading is shown to lie from 0 to the last number.
fn is_read_up_to(alloc: Global, reading: &Reading<'_>, last: i64) -> Result<bool, AllocError> {
    let extents = between(alloc, 0, last)?;
    is_read_inside(alloc, reading, &extents)
}

// The first of these indices that is not shown to stay in the input's extents.
fn input_stray_among(
    alloc: Global,
    algo: &Algo,
    root: &Root<'_>,
    readings: &[Reading<'_>],
) -> Result<Option<Stray>, Stop> {
    for reading in readings {
        if let Some(extent) = algo.input().shape.extents.get(reading.dimension) {
            let last = i64::from(*extent) - 1;
            if !is_read_up_to(alloc, reading, last)? {
                return strayed(alloc, algo, root, None, reading, (0, last));
            }
        }
    }
    Ok(None)
}

// The first index of the input that is not shown to stay in its extents.
fn input_stray(
    alloc: Global,
    algo: &Algo,
    root: &Root<'_>,
    outer: &Scope,
    nests: &[Nest],
) -> Result<Option<Stray>, Stop> {
    let name = algo.input().name.as_str();
    let mut readings = Vec::new(alloc);
    add_readings(
        alloc,
        algo,
        root,
        None,
        outer,
        nests,
        None,
        name,
        &mut readings,
    )?;
    input_stray_among(alloc, algo, root, readings.as_slice())
}

// The first of these indices of the function itself that is not shown to stay in its region.
fn own_stray_among(
    alloc: Global,
    algo: &Algo,
    root: &Root<'_>,
    outer: &Scope,
    region: &Region,
    readings: &[Reading<'_>],
) -> Result<Option<Stray>, Stop> {
    for reading in readings {
        if let Some(extents) = region.as_slice().get(reading.dimension) {
            let formula = root.formulas.get(reading.definition);
            if counts(formula, reading.dimension) && !is_read_inside(alloc, reading, extents)? {
                let ends = ends_of(alloc, outer, extents)?;
                let has = (ends.low, ends.high);
                let name = root.stored.subject.name;
                return strayed(alloc, algo, root, Some(name), reading, has);
            }
        }
    }
    Ok(None)
}

// The same of the function's own calls and its region.
fn own_stray(
    alloc: Global,
    algo: &Algo,
    root: &Root<'_>,
    outer: &Scope,
    nests: &[Nest],
    region: &Region,
) -> Result<Option<Stray>, Stop> {
    let name = root.stored.subject.name;
    let callee = name.as_str();
    let mut readings = Vec::new(alloc);
    add_readings(
        alloc,
        algo,
        root,
        None,
        outer,
        nests,
        None,
        callee,
        &mut readings,
    )?;
    own_stray_among(alloc, algo, root, outer, region, readings.as_slice())
}

fn first_stray(
    alloc: Global,
    algo: &Algo,
    root: &Root<'_>,
    outer: &Scope,
    nests: &[Nest],
    region: &Region,
) -> Result<Option<Stray>, Stop> {
    match input_stray(alloc, algo, root, outer, nests)? {
        Some(stray) => Ok(Some(stray)),
        None => own_stray(alloc, algo, root, outer, nests, region),
    }
}

fn root_stray(alloc: Global, algo: &Algo, root: &Root<'_>) -> Result<Option<Stray>, Stop> {
    let region = whole_region(alloc, root.laid)?;
    let skeleton = &root.laid.skeleton;
    let outer = head_scope(alloc, skeleton)?;
    first_stray(alloc, algo, root, &outer, &skeleton.nests, &region)
}

fn inner_stray(alloc: Global, algo: &Algo, inner: &Inner<'_>) -> Result<Option<Stray>, Stop> {
    let root = &inner.root;
    let region = &inner.region;
    if let Some(stray) = first_stray(alloc, algo, root, &inner.scope, &inner.nests, region)? {
        return Ok(Some(stray));
    }
    match &inner.later {
        Some(later) => first_stray(alloc, algo, root, &later.scope, &later.nests, region),
        None => Ok(None),
    }
}

fn stray_among(
    alloc: Global,
    algo: &Algo,
    inners: &[Inner<'_>],
    name: &Name,
) -> Result<Option<Stray>, Stop> {
    for inner in inners {
        if inner.root.stored.subject.name.as_str() == name.as_str() {
            if let Some(stray) = inner_stray(alloc, algo, inner)? {
                return Ok(Some(stray));
            }
        }
    }
    Ok(None)
}

fn stray_inside(
    alloc: Global,
    algo: &Algo,
    parties: &[Party<'_>],
    name: &Name,
) -> Result<Option<Stray>, Stop> {
    for party in parties {
        if let Ok(inners) = &party.inners {
            if let Some(stray) = stray_among(alloc, algo, inners, name)? {
                return Ok(Some(stray));
            }
        }
    }
    Ok(None)
}

fn stray_reason<'a>(
    alloc: Global,
    algo: &Algo,
    stored: &'a [Stored<'a>],
    laid: &'a [Option<Laid>],
    number: usize,
    stray: &Stray,
) -> Result<Option<Reason>, Stop> {
    let mut reason = Cause::Bound(stray.cause).at(alloc, stray.place)?;
    if let Some(dimension) = stray.along {
        reason.chain = chain_of(alloc, algo, stored, laid, number, dimension)?;
    }
    Ok(Some(reason))
}

// The first index by which a function with a region breaks the rule.
fn stray_of(
    alloc: Global,
    algo: &Algo,
    parties: &[Party<'_>],
    root: &Root<'_>,
) -> Result<Option<Stray>, Stop> {
    if root.stored.subject.is_root {
        root_stray(alloc, algo, root)
    } else {
        stray_inside(alloc, algo, parties, &root.stored.subject.name)
    }
}

// Why a function with a region breaks the rule.
fn laid_reason<'a>(
    alloc: Global,
    algo: &Algo,
    stored: &'a [Stored<'a>],
    laid: &'a [Option<Laid>],
    parties: &[Party<'a>],
    root: &Root<'a>,
    number: usize,
) -> Result<Option<Reason>, Stop> {
    match stray_of(alloc, algo, parties, root)? {
        Some(stray) => stray_reason(alloc, algo, stored, laid, number, &stray),
        None => turn_reason(alloc, algo, stored, laid, root.stored),
    }
}

/// Why no bounds are found of a function, or those that are leave what the input or the function has.
pub(crate) fn bound_reason<'a>(
    alloc: Global,
    algo: &Algo,
    stored: &'a [Stored<'a>],
    laid: &'a [Option<Laid>],
    parties: &[Party<'a>],
    name: &Name,
) -> Result<Option<Reason>, Stop> {
    let Some(number) = number_named(stored, name) else {
        return Ok(None);
    };
    match root_numbered(stored, laid, number) {
        Some(root) => laid_reason(alloc, algo, stored, laid, parties, &root, number),
        None => missing_region(alloc, algo, stored, number),
    }
}
