//! What is needed of a function at a place: the calls there and inside of it, and their region.

ghost use Rattle.std.specs.Prelude.{◌≡◌, [], IfOk, OnOk, Some, map, slice_get};
ghost use Rattle.algo.specs.View.{algorithm_of};
ghost use Rattle.sched.specs.Skeleton.{nest_seen};
ghost use Rattle.regions.specs.Broken as broken;
ghost use Rattle.regions.specs.Demanded as spec;
ghost use Rattle.sched.specs.Groups.{root_of};
ghost use Rattle.regions.specs.Guarded as guarded;
ghost use Rattle.regions.specs.Homes.{host_seen};
ghost use Rattle.sched.specs.Limited.{Gives, Tells};
ghost use Rattle.sched.specs.Placed.{inner_seen, later_seen};
ghost use Rattle.sched.specs.Stored.{formula_of, stored_of};
ghost use Rattle.sched.specs.Taken.{site_of};
ghost use Rattle.regions.specs.Taken.{add_sites as add_sites_of};

use crate::fetching::{add_inner_sites, add_sites, needed_span};
use crate::guarded::{Over, told_nests};
use crate::regions::{MOST_NUMBERS, whole_region};
use crate::spots::{Hosted, host_at, is_inside_spot, scope_over};
use algo::Algo;
use lin::{Region, Scope, Span1, Sym};
use sched::ends::is_rounded;
use sched::forms::{is_inside, whole};
use sched::hosts::{Host, Inner, Later, Spot};
use sched::roots::{Root, Site};
use sched::stop::Stop;
use sched::windows::shortest;
use sched::{Extent, Nest};
use std::alloc::{AllocError, Global};

// Adds the calls of a function in the nests of this one, if it is computed at the place or inside of it.
fn add_if_inside(
    alloc: Global,
    algo: &Algo,
    is_inside: bool,
    inner: &Inner<'_>,
    callee: &str,
    sites: &mut Vec<Site>,
) -> Result<(), Stop>
    ensures { Tells result (map site_of sites.new.items) (spec.add_if (algorithm_of algo.now) callee.now is_inside (inner_seen inner.now)
        (map site_of sites.old.items)) }
{
    if !is_inside {
        return Ok(());
    }
    add_inner_sites(alloc, algo, inner, callee, sites)
}

// Those of the functions from this number on.
fn add_inside<'a>(
    alloc: Global,
    algo: &Algo,
    inners: &[Inner<'a>],
    spot: Spot,
    callee: &str,
    number: usize,
    rest: &[Inner<'a>],
    sites: &mut Vec<Site>,
) -> Result<(), Stop>
    ensures { Tells result (map site_of sites.new.items) (spec.add_inside (algorithm_of algo.now) callee.now (map inner_seen inners.now) spot number
        (map inner_seen rest.now) (map site_of sites.old.items)) }
{
    match rest {
        [] => Ok(()),
        [inner, others @ ..] => {
            let Some(next) = number.checked_add(1) else {
                return Err(Stop::Memory);
            };
            let is_inside = is_inside_spot(inners, number, spot);
            add_if_inside(alloc, algo, is_inside, inner, callee, sites)?;
            add_inside(alloc, algo, inners, spot, callee, next, others, sites)
        }
    }
}

// The calls of a function in the nests of a host, or in that of one definition.
fn host_sites(
    alloc: Global,
    algo: &Algo,
    hosted: &Hosted<'_, '_>,
    scope: &Scope,
    only: Option<usize>,
    callee: &str,
) -> Result<Vec<Site>, Stop>
    ensures { Gives result (λ v. map site_of v.items) (add_sites_of (algorithm_of algo.now) (host_seen hosted.now).function scope.now only callee.now
        0 (host_seen hosted.now).formulas (host_seen hosted.now).nests []) }
{
    let mut sites = Vec::new(alloc);
    let root = &hosted.root;
    add_sites(
        alloc,
        algo,
        root,
        scope,
        hosted.nests,
        only,
        callee,
        &mut sites,
    )?;
    Ok(sites)
}

/// The calls of a function at the place and inside of it.
pub fn sites_at<'b, 'a>(
    alloc: Global,
    algo: &Algo,
    group: &'b Root<'a>,
    inners: &'b [Inner<'a>],
    spot: Spot,
    callee: &str,
) -> Result<Vec<Site>, Stop>
    ensures { Gives result (λ v. map site_of v.items) (spec.sites_at (algorithm_of algo.now) (root_of group.now) (map inner_seen inners.now) spot callee.now) }
{
    let Some(hosted) = host_at(group, inners, spot.host) else {
        return Err(Stop::Limit);
    };
    let scope = scope_over(alloc, group, inners, spot.host)?;
    let mut sites = host_sites(alloc, algo, &hosted, &scope, spot.definition, callee)?;
    add_inside(alloc, algo, inners, spot, callee, 0, inners, &mut sites)?;
    Ok(sites)
}

// What is held of the function of this number.
#[tactic(auto, using(crate::proofs::Demands::region_found, crate::proofs::Demands::no_region))]
fn region_in(alloc: Global, inners: &[Inner<'_>], number: usize) -> Result<Region, AllocError>
    ensures { IfOk result (λ region. region ≡ guarded.region_in (slice_get (map inner_seen inners.now) number)) }
{
    match inners.get(number) {
        Some(inner) => inner.region.copy(alloc),
        None => Ok(Region::new(alloc)),
    }
}

fn region_by(
    alloc: Global,
    group: &Root<'_>,
    inners: &[Inner<'_>],
    number: Option<usize>,
) -> Result<Region, AllocError>
    ensures { IfOk result (λ region. region ≡ guarded.region_by (root_of group.now) (map inner_seen inners.now) number) }
{
    match number {
        None => whole_region(alloc, group.laid),
        Some(number) => region_in(alloc, inners, number),
    }
}

// Over what the nests of a host go. What is new ends as all of it does.
fn region_over(
    alloc: Global,
    group: &Root<'_>,
    inners: &[Inner<'_>],
    host: Host,
) -> Result<Region, AllocError>
    ensures { IfOk result (λ region. region ≡ guarded.region_over (root_of group.now) (map inner_seen inners.now) host) }
{
    region_by(alloc, group, inners, host.number())
}

// Adds the calls of a function in nests as guarded splits tell them.
fn add_told_sites(
    alloc: Global,
    algo: &Algo,
    user: &Root<'_>,
    over: Over<'_>,
    nests: &[Nest],
    only: Option<usize>,
    callee: &str,
    sites: &mut Vec<Site>,
) -> Result<(), Stop>
    ensures { Tells result (map site_of sites.new.items) (guarded.add_told_sites (algorithm_of algo.now) callee.now over.entry.from
        (stored_of user.now.stored.now) (map formula_of user.now.formulas.now) over.entry.scope.now over.entry.region.now only
        (map nest_seen nests.now) (map site_of sites.old.items)) }
{
    let told = told_nests(alloc, user, over, nests)?;
    add_sites(alloc, algo, user, over.scope, &told, only, callee, sites)
}

// Of a function that is computed inside loops those in the nests over what is new, where their last block runs past the end of
// what is needed.
fn add_told_later(
    alloc: Global,
    algo: &Algo,
    inner: &Inner<'_>,
    later: &Later,
    from: Sym,
    callee: &str,
    sites: &mut Vec<Site>,
) -> Result<(), Stop>
    ensures { Tells result (map site_of sites.new.items) (guarded.add_told_later (algorithm_of algo.now) callee.now from (inner_seen inner.now)
        (Some (later_seen later.now)) (map site_of sites.old.items)) }
{
    if !is_rounded(&inner.root, later.dimension) {
        return Ok(());
    }
    let over = Over {
        scope: &later.scope,
        region: &inner.region,
        from,
    };
    let nests = &later.nests;
    add_told_sites(alloc, algo, &inner.root, over, nests, None, callee, sites)
}

// The same of a function that is computed inside loops.
fn add_told_inner(
    alloc: Global,
    algo: &Algo,
    inner: &Inner<'_>,
    from: Sym,
    callee: &str,
    sites: &mut Vec<Site>,
) -> Result<(), Stop>
    ensures { Tells result (map site_of sites.new.items) (guarded.add_told_inner (algorithm_of algo.now) callee.now from (inner_seen inner.now)
        (map site_of sites.old.items)) }
{
    let over = Over {
        scope: &inner.scope,
        region: &inner.region,
        from,
    };
    let nests = &inner.nests;
    add_told_sites(alloc, algo, &inner.root, over, nests, None, callee, sites)?;
    match &inner.later {
        Some(later) => add_told_later(alloc, algo, inner, later, from, callee, sites),
        None => Ok(()),
    }
}

// The same, if it is computed at the place or inside of it.
fn add_told_if(
    alloc: Global,
    algo: &Algo,
    is_inside: bool,
    inner: &Inner<'_>,
    from: Sym,
    callee: &str,
    sites: &mut Vec<Site>,
) -> Result<(), Stop>
    ensures { Tells result (map site_of sites.new.items) (guarded.add_told_if (algorithm_of algo.now) callee.now from is_inside (inner_seen inner.now)
        (map site_of sites.old.items)) }
{
    if !is_inside {
        return Ok(());
    }
    add_told_inner(alloc, algo, inner, from, callee, sites)
}

// Those of the functions from this number on.
fn add_told_inside<'a>(
    alloc: Global,
    algo: &Algo,
    inners: &[Inner<'a>],
    spot: Spot,
    from: Sym,
    callee: &str,
    number: usize,
    rest: &[Inner<'a>],
    sites: &mut Vec<Site>,
) -> Result<(), Stop>
    ensures { Tells result (map site_of sites.new.items) (guarded.add_told_inside (algorithm_of algo.now) callee.now from (map inner_seen inners.now)
        spot number (map inner_seen rest.now) (map site_of sites.old.items)) }
{
    match rest {
        [] => Ok(()),
        [inner, others @ ..] => {
            let Some(next) = number.checked_add(1) else {
                return Err(Stop::Memory);
            };
            let is_here = is_inside_spot(inners, number, spot);
            add_told_if(alloc, algo, is_here, inner, from, callee, sites)?;
            add_told_inside(alloc, algo, inners, spot, from, callee, next, others, sites)
        }
    }
}

// The calls of a function in the nests of a host, or in that of one definition, as guarded splits tell them.
fn told_host_sites(
    alloc: Global,
    algo: &Algo,
    hosted: &Hosted<'_, '_>,
    over: Over<'_>,
    only: Option<usize>,
    callee: &str,
) -> Result<Vec<Site>, Stop>
    ensures { Gives result (λ v. map site_of v.items) (guarded.add_told_sites (algorithm_of algo.now) callee.now over.entry.from
        (host_seen hosted.now).function (host_seen hosted.now).formulas over.entry.scope.now over.entry.region.now only (host_seen hosted.now).nests []) }
{
    let mut sites = Vec::new(alloc);
    let Hosted { root, nests } = hosted;
    add_told_sites(alloc, algo, root, over, nests, only, callee, &mut sites)?;
    Ok(sites)
}

/// The calls of a function at the place and inside of it, as guarded splits tell them; the symbols inside begin with `from`.
pub fn told_sites_at<'a>(
    alloc: Global,
    algo: &Algo,
    group: &Root<'a>,
    inners: &[Inner<'a>],
    spot: Spot,
    from: Sym,
    callee: &str,
) -> Result<Vec<Site>, Stop>
    ensures { Gives result (λ v. map site_of v.items) (guarded.told_sites_at (algorithm_of algo.now) callee.now from (root_of group.now)
        (map inner_seen inners.now) spot) }
{
    let Some(hosted) = host_at(group, inners, spot.host) else {
        return Err(Stop::Limit);
    };
    let scope = scope_over(alloc, group, inners, spot.host)?;
    let region = region_over(alloc, group, inners, spot.host)?;
    let over = Over {
        scope: &scope,
        region: &region,
        from,
    };
    let mut sites = told_host_sites(alloc, algo, &hosted, over, spot.definition, callee)?;
    add_told_inside(
        alloc, algo, inners, spot, from, callee, 0, inners, &mut sites,
    )?;
    Ok(sites)
}

/// Whether an update sets points elsewhere in a dimension than at its variable, so that all of it is needed.
pub fn is_scattered(root: &Root<'_>, dimension: usize) -> bool
    ensures { result ≡ spec.is_scattered (stored_of root.now.stored.now) dimension }
{
    root.stored
        .subject
        .scattered
        .iter()
        .any(|one| *one == dimension)
}

// What is needed of a dimension: where an update scatters it all of it.
fn span_needed(
    alloc: Global,
    root: &Root<'_>,
    scope: &Scope,
    sites: &[Site],
    dimension: usize,
    extent: &Extent,
) -> Result<Span1, Stop>
    ensures { Gives result (λ span. span) (spec.needed_dimension scope.now (map site_of sites.now) (stored_of root.now.stored.now) dimension extent.now) }
{
    if is_scattered(root, dimension) {
        return Ok(whole(alloc, extent)?);
    }
    needed_span(alloc, scope, sites, dimension)
}

// Those from this dimension on.
fn add_needed(
    alloc: Global,
    root: &Root<'_>,
    scope: &Scope,
    sites: &[Site],
    dimension: usize,
    extents: &[Extent],
    region: &mut Region,
) -> Result<(), Stop>
    ensures { Tells result region.new (spec.add_needed scope.now (map site_of sites.now) (stored_of root.now.stored.now) dimension extents.now region.old) }
{
    match extents {
        [] => Ok(()),
        [extent, rest @ ..] => {
            let Some(next) = dimension.checked_add(1) else {
                return Err(Stop::Memory);
            };
            let span = span_needed(alloc, root, scope, sites, dimension, extent)?;
            region.push(span)?;
            add_needed(alloc, root, scope, sites, next, rest, region)
        }
    }
}

/// What is needed of a function: in a dimension that an update scatters all of it.
pub fn region_at(
    alloc: Global,
    root: &Root<'_>,
    scope: &Scope,
    sites: &[Site],
) -> Result<Region, Stop>
    ensures { Gives result (λ region. region) (spec.needed_region scope.now (map site_of sites.now) (stored_of root.now.stored.now)
        root.now.laid.now.region.items) }
{
    let mut region = Region::new(alloc);
    add_needed(alloc, root, scope, sites, 0, &root.laid.region, &mut region)?;
    Ok(region)
}

/// Whether each span is shown to lie in another one.
pub fn are_inside(
    alloc: Global,
    scope: &Scope,
    spans: &[Span1],
    wholes: &[Span1],
) -> Result<bool, AllocError>
    ensures { IfOk result (λ yes. yes ≡ spec.are_inside scope.now spans.now wholes.now) }
{
    match spans {
        [] => Ok(true),
        [span, rest @ ..] => match wholes {
            [] => Ok(true),
            [whole, others @ ..] => {
                if is_inside(alloc, scope, span, whole)? {
                    are_inside(alloc, scope, rest, others)
                } else {
                    Ok(false)
                }
            }
        },
    }
}

// A span, or another one where that alone is shown to lie in what there is.
fn better_span(
    alloc: Global,
    scope: &Scope,
    span: &Span1,
    told: &Span1,
    whole: &Span1,
) -> Result<Span1, AllocError>
    ensures { IfOk result (λ one. one ≡ spec.better scope.now span.now told.now whole.now) }
{
    let stays = is_inside(alloc, scope, span, whole)?;
    if stays {
        return Ok(span.copy(alloc)?);
    }
    if is_inside(alloc, scope, told, whole)? {
        return Ok(told.copy(alloc)?);
    }
    Ok(span.copy(alloc)?)
}

// Those of some spans.
fn add_better(
    alloc: Global,
    scope: &Scope,
    spans: &[Span1],
    told: &[Span1],
    wholes: &[Span1],
    made: &mut Region,
) -> Result<(), AllocError>
    ensures { OnOk result (made.new ≡ spec.add_better scope.now spans.now told.now wholes.now made.old) }
{
    match spans {
        [] => Ok(()),
        [span, rest @ ..] => match told {
            [] => Ok(()),
            [one, others @ ..] => match wholes {
                [] => Ok(()),
                [whole, further @ ..] => {
                    let better = better_span(alloc, scope, span, one, whole)?;
                    made.push(better)?;
                    add_better(alloc, scope, rest, others, further, made)
                }
            },
        },
    }
}

// The region, with the spans of another one where these alone are shown to lie in what there is.
fn chosen(
    alloc: Global,
    scope: &Scope,
    region: &Region,
    told: &Region,
    whole: &Region,
) -> Result<Region, AllocError>
    ensures { IfOk result (λ made. made ≡ spec.add_better scope.now region.now told.now whole.now []) }
{
    let mut made = Region::new(alloc);
    let spans = region.as_slice();
    let others = told.as_slice();
    add_better(alloc, scope, spans, others, whole.as_slice(), &mut made)?;
    Ok(made)
}

/// The region, or what is told in its place.
pub fn with_told(
    alloc: Global,
    scope: &Scope,
    region: Region,
    told: &Option<Region>,
    whole: &Region,
) -> Result<Region, AllocError>
    ensures { IfOk result (λ made. made ≡ guarded.with_told scope.now region told.now whole.now) }
{
    match told {
        Some(told) => chosen(alloc, scope, &region, told, whole),
        None => Ok(region),
    }
}

// Whether a dimension has no more numbers than a function may have.
fn is_small_span(alloc: Global, scope: &Scope, span: &Span1) -> Result<bool, AllocError>
    ensures { IfOk result (λ yes. yes ≡ broken.is_small_span scope.now span.now) }
{
    match shortest(alloc, scope, span)? {
        Some((_, count)) => Ok(count <= i64::from(MOST_NUMBERS)),
        None => Ok(false),
    }
}

fn are_small_spans(alloc: Global, scope: &Scope, spans: &[Span1]) -> Result<bool, AllocError>
    ensures { IfOk result (λ yes. yes ≡ broken.is_small scope.now spans.now) }
{
    match spans {
        [] => Ok(true),
        [span, rest @ ..] => {
            if is_small_span(alloc, scope, span)? {
                are_small_spans(alloc, scope, rest)
            } else {
                Ok(false)
            }
        }
    }
}

/// Whether a region has no more numbers in a dimension than a function may have.
pub fn is_small(alloc: Global, scope: &Scope, region: &Region) -> Result<bool, AllocError>
    ensures { IfOk result (λ yes. yes ≡ broken.is_small scope.now region.now) }
{
    are_small_spans(alloc, scope, region.as_slice())
}
