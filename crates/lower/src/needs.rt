//! What is needed of a function at a place, as guards tell it, or as bounds do.

ghost use Rattle.std.specs.Prelude.{◌≡◌, IfOk, Some, map};
ghost use Rattle.algo.specs.View.{algorithm_of};
ghost use Rattle.sched.specs.Bounded.{whole as whole_of};
ghost use Rattle.sched.specs.Groups.{root_of};
ghost use Rattle.lower.specs.Guarded as guarded;
ghost use Rattle.sched.specs.Limited.{Gives};
ghost use Rattle.sched.specs.Placed.{inner_seen};
ghost use Rattle.sched.specs.Stored.{stored_of};
ghost use Rattle.sched.specs.Taken.{site_of};

use algo::Algo;
use lin::{Region, Scope};
use regions::demand::{are_inside, region_at, told_sites_at, with_told};
use regions::regions::whole_region;
use sched::hosts::{Inner, Spot};
use sched::roots::{Root, Site};
use sched::stop::Stop;
use std::alloc::{AllocError, Global};

// What is needed of a function at a place, as guarded splits tell it.
fn told_region<'a>(
    alloc: Global,
    algo: &Algo,
    group: &Root<'a>,
    inners: &[Inner<'a>],
    root: &Root<'_>,
    spot: Spot,
    scope: &Scope,
) -> Result<Region, Stop>
    ensures { Gives result (λ region. region) (guarded.told_region (algorithm_of algo.now) (root_of group.now) (map inner_seen inners.now) spot
        scope.now (stored_of root.now.stored.now) root.now.laid.now.region.items) }
{
    let name = root.stored.subject.name;
    let sites = told_sites_at(alloc, algo, group, inners, spot, scope.len(), name.as_str())?;
    region_at(alloc, root, scope, &sites)
}

// The same; none where that is not told.
fn told_or_none<'a>(
    alloc: Global,
    algo: &Algo,
    group: &Root<'a>,
    inners: &[Inner<'a>],
    root: &Root<'_>,
    spot: Spot,
    scope: &Scope,
) -> Result<Option<Region>, AllocError>
    ensures { IfOk result (λ told. told ≡ guarded.told_region (algorithm_of algo.now) (root_of group.now) (map inner_seen inners.now) spot
        scope.now (stored_of root.now.stored.now) root.now.laid.now.region.items) }
{
    match told_region(alloc, algo, group, inners, root, spot, scope) {
        Ok(told) => Ok(Some(told)),
        Err(Stop::Limit) => Ok(None),
        Err(Stop::Memory) => Err(AllocError),
    }
}

// A region, or, where it is not shown to lie in the function's, what guarded splits tell in its place.
fn kept_or_told<'a>(
    alloc: Global,
    algo: &Algo,
    group: &Root<'a>,
    inners: &[Inner<'a>],
    root: &Root<'_>,
    spot: Spot,
    scope: &Scope,
    region: Region,
) -> Result<Region, AllocError>
    ensures { IfOk result (λ one. one ≡ guarded.kept scope.now (map whole_of root.now.laid.now.region.items) region (guarded.told_region
        (algorithm_of algo.now) (root_of group.now) (map inner_seen inners.now) spot scope.now (stored_of root.now.stored.now)
        root.now.laid.now.region.items)) }
{
    let whole = whole_region(alloc, root.laid)?;
    if are_inside(alloc, scope, region.as_slice(), whole.as_slice())? {
        return Ok(region);
    }
    let told = told_or_none(alloc, algo, group, inners, root, spot, scope)?;
    with_told(alloc, scope, region, &told, &whole)
}

/// What is needed of a function at a place. Where that is not shown to lie in the function's region, it is asked what guarded
/// splits say of their numbers too.
pub(crate) fn needed_at<'a>(
    alloc: Global,
    algo: &Algo,
    group: &Root<'a>,
    inners: &[Inner<'a>],
    root: &Root<'_>,
    spot: Spot,
    scope: &Scope,
    sites: &[Site],
) -> Result<Region, Stop>
    ensures { Gives result (λ region. region) (guarded.needed_at (algorithm_of algo.now) (root_of group.now) (map inner_seen inners.now) spot
        scope.now (map site_of sites.now) (stored_of root.now.stored.now) root.now.laid.now.region.items) }
{
    match region_at(alloc, root, scope, sites) {
        Ok(region) => Ok(kept_or_told(alloc, algo, group, inners, root, spot, scope, region)?),
        Err(Stop::Limit) => told_region(alloc, algo, group, inners, root, spot, scope),
        Err(Stop::Memory) => Err(Stop::Memory),
    }
}
