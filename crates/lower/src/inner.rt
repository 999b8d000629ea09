//! Functions that are computed inside the loops of a group: their buffers, and their loops over what is needed of them.

ghost use Rattle.std.specs.Prelude.{◌≡◌, [], IfOk, IfSome, Some, length, map, slice_get};
ghost use Rattle.std.specs.Option.{option_map};
ghost use Rattle.algo.specs.View.{algorithm_of};
ghost use Rattle.sched.specs.Skeleton.{nest_seen};
ghost use Rattle.sched.specs.Around.{bind_steps as bound_by};
ghost use Rattle.lower.specs.Computed as computed;
ghost use Rattle.regions.specs.Demanded as demanded;
ghost use Rattle.lower.specs.Groups.{inners_of as placed_inners};
ghost use Rattle.sched.specs.Groups.{root_of};
ghost use Rattle.lower.specs.Homes as spec;
ghost use Rattle.regions.specs.Homes as regions;
ghost use Rattle.sched.specs.Limited.{Gives};
ghost use Rattle.blocks.specs.Parted.{kept_region as kept_region_of};
ghost use Rattle.sched.specs.Placed.{inner_seen, later_seen};
ghost use Rattle.lower.specs.Rounded.{lain_kept, lain_seen};
ghost use Rattle.lower.specs.Slid as slid;
ghost use Rattle.regions.specs.Slid as regions_slid;
ghost use Rattle.sched.specs.Stored.{formula_of, stored_of};
ghost use Rattle.sched.specs.Taken.{site_of};
ghost use Rattle.regions.specs.Uses.{first_home};

use crate::later::later_of;
use crate::needs::needed_at;
use crate::rounding::lain_over;
use algo::Algo;
use algo::scoping::same_name;
use blocks::ends::Needed;
use blocks::parts::{fold_of, is_same_spot};
use blocks::rounded::{Lain, claim_of};
use blocks::storage::{Arms, kept_region, storage_of};
use lin::{Region, Scope};
use plan::Places;
use regions::demand::{is_scattered, is_small, sites_at};
use regions::sliding::{Sliding, folded, folds_fit, held_region, sliding_dimension, track_of};
use regions::spots::{
    Hosted, home_of, host_at, hosts_named, is_over_grid, scope_at, spot_in, steps_at, store_spot,
};
use sched::hosts::{Host, Inner, Later, Spot};
use sched::roots::{Root, Site};
use sched::stop::Stop;
use sched::{Home, Nest, Step};
use std::alloc::{AllocError, Global};
use tree::token::Name;

// ---- functions

fn dimension_of(sliding: &Option<Sliding>) -> Option<usize>
    ensures { result ≡ slid.dimension_along (option_map regions_slid.sliding_seen sliding.now) }
{
    match sliding {
        Some(sliding) => Some(sliding.dimension),
        None => None,
    }
}

// The places of a function's buffer, folded in the dimension in which it slides.
fn seated_at(
    alloc: Global,
    root: &Root<'_>,
    outer: &Scope,
    lain: &Lain,
    later: &Option<Later>,
    sites: &[Site],
    along: Option<usize>,
) -> Result<Vec<Places>, Stop>
    ensures { Gives result (λ v. v.items) (computed.seated (stored_of root.now.stored.now) outer.now lain.now.scope (lain_seen lain.now)
        (option_map later_seen later.now) (map site_of sites.now) along) }
{
    let arms = Arms {
        scope: &lain.scope,
        nests: &lain.nests,
        later: later.as_ref(),
    };
    let seats = kept_region(alloc, outer, &lain.scope, &lain.begun.region)?;
    let places = storage_of(alloc, outer, arms, sites, &seats)?;
    Ok(folded(places, along, fold_of(&root.stored.placed.folds)))
}

// The dimension in which a region slides along the innermost loop of the steps. What an update scatters does not slide.
fn sliding_in(
    alloc: Global,
    root: &Root<'_>,
    region: &Region,
    steps: &[Step],
) -> Result<Option<Sliding>, AllocError>
    ensures { IfOk result (λ found. option_map regions_slid.sliding_seen found ≡ slid.sliding_in (stored_of root.now.stored.now) region.now steps.now) }
{
    let Some(track) = track_of(alloc, steps)? else {
        return Ok(None);
    };
    let Some(dimension) = sliding_dimension(region, &track)? else {
        return Ok(None);
    };
    if is_scattered(root, dimension) {
        return Ok(None);
    }
    Ok(Some(Sliding { track, dimension }))
}

// The dimension in which what is needed of a function slides along the loop where it is computed, where its buffer stands
// outside of that.
fn sliding_of<'a>(
    alloc: Global,
    group: &Root<'a>,
    inners: &[Inner<'a>],
    root: &Root<'_>,
    spots: (Spot, Spot),
    region: &Region,
) -> Result<Option<Sliding>, AllocError>
    ensures { IfOk result (λ found. option_map regions_slid.sliding_seen found ≡ slid.sliding_at (root_of group.now) (map inner_seen inners.now)
        (stored_of root.now.stored.now) spots.0 spots.1 region.now) }
{
    let (home, store) = spots;
    if is_same_spot(home, store) {
        return Ok(None);
    }
    match steps_at(group, inners, home) {
        Some(steps) => Ok(sliding_in(alloc, root, region, steps)?),
        None => Ok(None),
    }
}

// Whether none of the functions that are declared before the one of this name, and so may be called by it, is folded: what it holds
// behind lets is longer than what is needed, and theirs would be too.
fn are_unfolded_before(functions: &[Root<'_>], name: &Name) -> bool
    ensures { result ≡ slid.are_unfolded_before name.now (map root_of functions.now) }
{
    match functions {
        [] => true,
        [one, rest @ ..] => {
            if same_name(one.stored.subject.name.as_str(), name.as_str()) {
                return true;
            }
            if !one.stored.placed.folds.is_empty() {
                return false;
            }
            are_unfolded_before(rest, name)
        }
    }
}

// Whether a function may hold such a region in the turns along which it slides: behind lets only where its own fold has places for
// it, and none that it may call is folded.
fn may_hold(
    alloc: Global,
    functions: &[Root<'_>],
    root: &Root<'_>,
    scope: &Scope,
    held: &Region,
    sliding: &Sliding,
) -> Result<bool, AllocError>
    ensures { IfOk result (λ yes. yes ≡ slid.may_hold (map root_of functions.now) (stored_of root.now.stored.now) scope.now held.now
        (regions_slid.sliding_seen sliding.now).0 (regions_slid.sliding_seen sliding.now).1) }
{
    if sliding.is_bare() {
        return Ok(true);
    }
    let fits = folds_fit(alloc, root, scope, held, Some(sliding.dimension))?;
    Ok(fits && are_unfolded_before(functions, &root.stored.subject.name))
}

// What a function holds in each turn of the loop along which it slides; none where each turn makes all.
fn held_along(
    alloc: Global,
    functions: &[Root<'_>],
    root: &Root<'_>,
    scope: &Scope,
    region: &Region,
    sliding: &Sliding,
) -> Result<Option<Region>, AllocError>
    ensures { IfOk result (λ found. found ≡ slid.held_along (map root_of functions.now) (stored_of root.now.stored.now) (map formula_of root.now.formulas.now)
        scope.now region.now (regions_slid.sliding_seen sliding.now)) }
{
    if !sliding.is_repeated(alloc, scope)? {
        return Ok(None);
    }
    let Some(held) = held_region(alloc, root, scope, region, sliding)? else {
        return Ok(None);
    };
    if may_hold(alloc, functions, root, scope, &held, sliding)? {
        Ok(Some(held))
    } else {
        Ok(None)
    }
}

// What a function holds in each turn of a loop along which it may slide, and the turns after the first one where these make what
// is new alone.
#[tactic(auto, using(crate::proofs::Along::holds_each, crate::proofs::Along::holds_some, crate::proofs::Along::held_none, crate::proofs::Along::held_unkept, crate::proofs::Along::held_unmade, crate::proofs::Along::held_made))]
fn turns_along(
    alloc: Global,
    functions: &[Root<'_>],
    root: &Root<'_>,
    outer: &Scope,
    scope: &Scope,
    region: &Region,
    sliding: &Sliding,
) -> Result<(Region, Option<Later>), Stop>
    ensures holds { IfOk result (λ turns. slid.HoldsBy (stored_of root.now.stored.now) (map formula_of root.now.formulas.now) (length outer.now)
        (regions_slid.sliding_seen sliding.now) scope.now region.now (slid.held_along (map root_of functions.now) (stored_of root.now.stored.now)
        (map formula_of root.now.formulas.now) scope.now region.now (regions_slid.sliding_seen sliding.now)) turns.0 (option_map later_seen turns.1)) }
    ensures told { Gives result (λ turns. (turns.0, option_map later_seen turns.1)) (slid.turns_held (stored_of root.now.stored.now)
        (map formula_of root.now.formulas.now) (length outer.now) scope.now region.now (regions_slid.sliding_seen sliding.now)
        (slid.held_along (map root_of functions.now) (stored_of root.now.stored.now) (map formula_of root.now.formulas.now) scope.now region.now
        (regions_slid.sliding_seen sliding.now))) }
{
    let Some(held) = held_along(alloc, functions, root, scope, region, sliding)? else {
        return Ok((region.copy(alloc)?, None));
    };
    let kept = kept_region(alloc, outer, scope, &held)?;
    let later = later_of(alloc, root, scope, &held, &kept, sliding)?;
    Ok((held, later))
}

// The same where it may slide along none.
#[tactic(auto, using(crate::proofs::Along::holds_all, crate::proofs::Along::holds_along, crate::proofs::Along::told_all, crate::proofs::Along::told_along))]
fn turns_of(
    alloc: Global,
    functions: &[Root<'_>],
    root: &Root<'_>,
    outer: &Scope,
    scope: &Scope,
    region: &Region,
    sliding: &Option<Sliding>,
) -> Result<(Region, Option<Later>), Stop>
    ensures holds { IfOk result (λ turns. slid.Holds (map root_of functions.now) (stored_of root.now.stored.now) (map formula_of root.now.formulas.now)
        (length outer.now) scope.now region.now (option_map regions_slid.sliding_seen sliding.now) turns.0 (option_map later_seen turns.1)) }
    ensures told { Gives result (λ turns. (turns.0, option_map later_seen turns.1)) (slid.turns_of (stored_of root.now.stored.now)
        (map formula_of root.now.formulas.now) (length outer.now) scope.now region.now (map root_of functions.now)
        (option_map regions_slid.sliding_seen sliding.now)) }
{
    let Some(sliding) = sliding else {
        return Ok((region.copy(alloc)?, None));
    };
    turns_along(alloc, functions, root, outer, scope, region, sliding)
}

// Whether one turn needs no more numbers of a dimension than a function may have, nor do all for which its buffer stands.
fn are_small(
    alloc: Global,
    scope: &Scope,
    region: &Region,
    outer: &Scope,
    kept: &Region,
) -> Result<bool, AllocError>
    ensures { IfOk result (λ yes. yes ≡ computed.are_small scope.now region.now outer.now (Some kept.now)) }
{
    Ok(is_small(alloc, scope, region)? && is_small(alloc, outer, kept)?)
}

// The function at these places, over what is needed of it where these sites call it.
#[tactic(auto, using(crate::proofs::Along::is_lain))]
fn inner_of<'a>(
    alloc: Global,
    algo: &Algo,
    functions: &[Root<'a>],
    root: &Root<'a>,
    spots: (Spot, Spot),
    outer: &Scope,
    around: &Scope,
    needed: &Region,
    sliding: &Option<Sliding>,
    sites: &[Site],
) -> Result<Inner<'a>, Stop>
    ensures root { IfOk result (λ one. one.root ≡ root.now) }
    ensures home { IfOk result (λ one. one.home ≡ spots.0) }
    ensures store { IfOk result (λ one. one.store ≡ spots.1) }
    ensures scope { IfOk result (λ one. one.scope ≡ bound_by around.now one.lets.items) }
    ensures holds { IfOk result (λ one. slid.Holds (map root_of functions.now) (stored_of root.now.stored.now) (map formula_of root.now.formulas.now)
        (length outer.now) around.now needed.now (option_map regions_slid.sliding_seen sliding.now) one.region (option_map later_seen one.later)) }
    ensures lain { IfOk result (λ one. computed.IsLain (lain_kept (algorithm_of algo.now) (stored_of root.now.stored.now) (map formula_of root.now.formulas.now)
        around.now one.region (kept_region_of (length outer.now) around.now one.region)) (inner_seen one)) }
    ensures judged { IfOk result (λ one. computed.IsJudged (stored_of root.now.stored.now) outer.now around.now needed.now
        (option_map regions_slid.sliding_seen sliding.now) (inner_seen one)) }
    ensures seated { IfOk result (λ one. computed.IsSeated (stored_of root.now.stored.now) outer.now (map site_of sites.now)
        (option_map regions_slid.sliding_seen sliding.now) (lain_kept (algorithm_of algo.now) (stored_of root.now.stored.now) (map formula_of root.now.formulas.now)
        around.now one.region (kept_region_of (length outer.now) around.now one.region)) (inner_seen one)) }
    ensures told { Gives result inner_seen (computed.inner_over (algorithm_of algo.now) (map root_of functions.now) (root_of root.now) spots.0 spots.1
        outer.now around.now needed.now (option_map regions_slid.sliding_seen sliding.now) (map site_of sites.now)) }
{
    let (home, store) = spots;
    let (region, later) = turns_of(alloc, functions, root, outer, around, needed, sliding)?;
    let kept = kept_region(alloc, outer, around, &region)?;
    let need = Needed {
        scope: around,
        region: &region,
        kept: &kept,
    };
    let lain = lain_over(alloc, algo, root, need)?;
    let along = dimension_of(sliding);
    let places = seated_at(alloc, root, outer, &lain, &later, sites, along)?;
    let fits = folds_fit(alloc, root, &lain.scope, needed, along)?;
    let is_small = are_small(alloc, &lain.scope, needed, outer, &kept)?;
    let claimed = claim_of(alloc, root, &lain.scope, &region, &lain.begun, &lain.nests)?;
    let Lain {
        scope,
        begun,
        nests,
    } = lain;
    Ok(Inner {
        root: *root,
        home,
        store,
        claimed,
        scope,
        region,
        lets: begun.lets,
        nests,
        places,
        later,
        fits,
        is_small,
    })
}

// The function at a place where these sites call it.
#[tactic(auto, using(crate::proofs::Along::is_computed))]
fn made_at<'a>(
    alloc: Global,
    algo: &Algo,
    group: &Root<'a>,
    functions: &[Root<'a>],
    inners: &[Inner<'a>],
    root: &Root<'a>,
    hosted: &Hosted<'_, 'a>,
    home: Spot,
    sites: &[Site],
) -> Result<Inner<'a>, Stop>
    requires { demanded.sites_at (algorithm_of algo.now) (root_of group.now) (map inner_seen inners.now) home (stored_of root.now.stored.now).subject.name
        ≡ Some (map site_of sites.now) }
    ensures root { IfOk result (λ one. one.root ≡ root.now) }
    ensures home { IfOk result (λ one. one.home ≡ home) }
    ensures store { IfOk result (λ one. one.store ≡ regions.store_spot (regions.host_seen hosted.now) (root_of root.now).0.placed.stores home) }
    ensures computed { IfOk result (λ one. computed.IsComputed (algorithm_of algo.now) (root_of group.now) (map root_of functions.now)
        (map inner_seen inners.now) (root_of root.now) (inner_seen one)) }
    ensures told { Gives result inner_seen (computed.inner_called (algorithm_of algo.now) (root_of group.now) (map root_of functions.now)
        (map inner_seen inners.now) (root_of root.now) (regions.host_seen hosted.now) home (map site_of sites.now)) }
{
    let around = scope_at(alloc, group, inners, home)?;
    let needed = needed_at(alloc, algo, group, inners, root, home, &around, sites)?;
    let store = store_spot(hosted, root, home)?;
    let outer = scope_at(alloc, group, inners, store)?;
    let spots = (home, store);
    let sliding = sliding_of(alloc, group, inners, root, spots, &needed)?;
    let inner = inner_of(
        alloc, algo, functions, root, spots, &outer, &around, &needed, &sliding, sites,
    )?;
    Ok(inner)
}

// The function at a place; none where nothing calls it there.
#[tactic(auto, using(crate::proofs::Along::nothing_calls, crate::proofs::Along::told_uncalled, crate::proofs::Along::told_unknown))]
fn inner_at<'a>(
    alloc: Global,
    algo: &Algo,
    group: &Root<'a>,
    functions: &[Root<'a>],
    inners: &[Inner<'a>],
    root: &Root<'a>,
    hosted: &Hosted<'_, 'a>,
    home: Spot,
) -> Result<Option<Inner<'a>>, Stop>
    ensures root { IfOk result (λ found. IfSome found (λ one. one.root ≡ root.now)) }
    ensures home { IfOk result (λ found. IfSome found (λ one. one.home ≡ home)) }
    ensures store { IfOk result (λ found. IfSome found
        (λ one. one.store ≡ regions.store_spot (regions.host_seen hosted.now) (root_of root.now).0.placed.stores home)) }
    ensures computed { IfOk result (λ found. computed.IsComputedAt (algorithm_of algo.now) (root_of group.now) (map root_of functions.now)
        (map inner_seen inners.now) (root_of root.now) home (option_map inner_seen found)) }
    ensures told { Gives result (option_map inner_seen) (computed.inner_at (algorithm_of algo.now) (root_of group.now) (map root_of functions.now)
        (map inner_seen inners.now) (root_of root.now) (regions.host_seen hosted.now) home) }
{
    let name = root.stored.subject.name;
    let sites = sites_at(alloc, algo, group, inners, home, name.as_str())?;
    if sites.is_empty() {
        return Ok(None);
    }
    let inner = made_at(
        alloc, algo, group, functions, inners, root, hosted, home, &sites,
    )?;
    Ok(Some(inner))
}

// The function before others, if it is computed there.
fn put_before<'a>(
    first: Option<Inner<'a>>,
    others: Vec<Inner<'a>>,
) -> Result<Vec<Inner<'a>>, AllocError>
    ensures { IfOk result (λ v. v.items ≡ spec.put_before first.entry others.entry.items) }
{
    let mut inners = others;
    if let Some(first) = first {
        inners.insert(0, first)?;
    }
    Ok(inners)
}

// The function at its loop in the nest of this definition, where that has it.
#[tactic(auto, using(crate::proofs::Along::computed_where, crate::proofs::Along::computed_none, crate::proofs::Along::told_nowhere, crate::proofs::Along::told_where))]
fn inner_in<'a>(
    alloc: Global,
    algo: &Algo,
    group: &Root<'a>,
    functions: &[Root<'a>],
    inners: &[Inner<'a>],
    number: usize,
    root: &Root<'a>,
    home: &Home,
    host: Host,
    hosted: &Hosted<'_, 'a>,
    definition: usize,
) -> Result<Option<Inner<'a>>, Stop>
    requires among { slice_get functions.now number ≡ Some root.now }
    requires homes { first_home (root_of root.now).0.placed.homes ≡ Some home.now }
    requires hosted { regions.host_at (root_of group.now) (map inner_seen inners.now) host ≡ Some (regions.host_seen hosted.now) }
    requires named { (regions.host_seen hosted.now).function.subject.name ≡ home.now.function }
    ensures at { IfOk result (λ found. IfSome found (λ one. spec.IsAtHome (root_of group.now) (map root_of functions.now) (map inner_seen inners.now)
        (inner_seen one))) }
    ensures computed { IfOk result (λ found. computed.IsComputedBy (algorithm_of algo.now) (root_of group.now) (map root_of functions.now)
        (map inner_seen inners.now) (root_of root.now) (regions.spot_in host (regions.host_seen hosted.now) definition home.now.turn)
        (option_map inner_seen found)) }
    ensures told { Gives result (option_map inner_seen) (computed.inner_by (algorithm_of algo.now) (root_of group.now) (map root_of functions.now)
        (map inner_seen inners.now) (root_of root.now) (regions.host_seen hosted.now)
        (regions.spot_in host (regions.host_seen hosted.now) definition home.now.turn)) }
{
    match spot_in(host, hosted, definition, &home.turn)? {
        Some(spot) => inner_at(alloc, algo, group, functions, inners, root, hosted, spot),
        None => Ok(None),
    }
}

// The function in the nests of a host from this definition on; over the grid once.
#[tactic(auto, using(crate::proofs::Hosts::put_at, crate::proofs::Along::computed_nowhere, crate::proofs::Along::computed_over_grid, crate::proofs::Along::computed_in_nests, crate::proofs::Along::told_first_missing, crate::proofs::Along::told_over_grid, crate::proofs::Along::told_others_missing))]
fn inners_in<'a>(
    alloc: Global,
    algo: &Algo,
    group: &Root<'a>,
    functions: &[Root<'a>],
    inners: &[Inner<'a>],
    number: usize,
    root: &Root<'a>,
    home: &Home,
    host: Host,
    hosted: &Hosted<'_, 'a>,
    definition: usize,
    nests: &[Nest],
) -> Result<Vec<Inner<'a>>, Stop>
    requires among { slice_get functions.now number ≡ Some root.now }
    requires homes { first_home (root_of root.now).0.placed.homes ≡ Some home.now }
    requires hosted { regions.host_at (root_of group.now) (map inner_seen inners.now) host ≡ Some (regions.host_seen hosted.now) }
    requires named { (regions.host_seen hosted.now).function.subject.name ≡ home.now.function }
    ensures at { IfOk result (λ v. spec.AreAt (root_of group.now) (map root_of functions.now) (map inner_seen inners.now) (map inner_seen v.items)) }
    ensures computed { IfOk result (λ v. computed.AreComputedAt (algorithm_of algo.now) (root_of group.now) (map root_of functions.now)
        (map inner_seen inners.now) (root_of root.now)
        (computed.spots_in host (regions.host_seen hosted.now) home.now.turn definition (map nest_seen nests.now))
        (map inner_seen v.items)) }
    ensures told { Gives result (λ v. map inner_seen v.items) (computed.inners_in (algorithm_of algo.now) (root_of group.now) (map root_of functions.now)
        (map inner_seen inners.now) (root_of root.now) host (regions.host_seen hosted.now) home.now.turn definition (map nest_seen nests.now)) }
{
    match nests {
        [] => Ok(Vec::new(alloc)),
        [_nest, rest @ ..] => {
            let Some(next) = definition.checked_add(1) else {
                return Err(Stop::Memory);
            };
            let first = inner_in(
                alloc, algo, group, functions, inners, number, root, home, host, hosted, definition,
            )?;
            if is_over_grid(&hosted.root.stored.placed.loops, &home.turn) {
                return Ok(put_before(first, Vec::new(alloc))?);
            }
            let others = inners_in(
                alloc, algo, group, functions, inners, number, root, home, host, hosted, next, rest,
            )?;
            Ok(put_before(first, others)?)
        }
    }
}

// The function in the nests of this host.
#[tactic(auto, using(crate::proofs::Hosts::named_so, crate::proofs::Along::computed_no_host, crate::proofs::Along::computed_other, crate::proofs::Along::computed_by_host, crate::proofs::Along::told_no_host, crate::proofs::Along::told_other, crate::proofs::Along::told_by_host))]
fn inners_at<'b, 'a>(
    alloc: Global,
    algo: &Algo,
    group: &'b Root<'a>,
    functions: &[Root<'a>],
    inners: &'b [Inner<'a>],
    number: usize,
    root: &Root<'a>,
    home: &Home,
    host: Host,
) -> Result<Vec<Inner<'a>>, Stop>
    requires among { slice_get functions.now number ≡ Some root.now }
    requires homes { first_home (root_of root.now).0.placed.homes ≡ Some home.now }
    ensures at { IfOk result (λ v. spec.AreAt (root_of group.now) (map root_of functions.now) (map inner_seen inners.now) (map inner_seen v.items)) }
    ensures computed { IfOk result (λ v. computed.AreComputedAt (algorithm_of algo.now) (root_of group.now) (map root_of functions.now)
        (map inner_seen inners.now) (root_of root.now)
        (computed.spots_by home.now host (regions.host_at (root_of group.now) (map inner_seen inners.now) host))
        (map inner_seen v.items)) }
    ensures told { Gives result (λ v. map inner_seen v.items) (computed.inners_by (algorithm_of algo.now) (root_of group.now) (map root_of functions.now)
        (map inner_seen inners.now) (root_of root.now) home.now host (regions.host_at (root_of group.now) (map inner_seen inners.now) host)) }
{
    let Some(hosted) = host_at(group, inners, host) else {
        return Ok(Vec::new(alloc));
    };
    let name = hosted.root.stored.subject.name.as_str();
    if !same_name(name, home.function.as_str()) {
        return Ok(Vec::new(alloc));
    }
    let nests = hosted.nests;
    let found = inners_in(
        alloc, algo, group, functions, inners, number, root, home, host, &hosted, 0, nests,
    )?;
    Ok(found)
}

// The function in the nests of these hosts.
#[tactic(auto, using(crate::proofs::Hosts::appended, crate::proofs::Along::computed_nowhere, crate::proofs::Along::computed_hosts, crate::proofs::Along::told_host_missing, crate::proofs::Along::told_hosts_missing))]
fn inners_of_hosts<'a>(
    alloc: Global,
    algo: &Algo,
    group: &Root<'a>,
    functions: &[Root<'a>],
    inners: &[Inner<'a>],
    number: usize,
    root: &Root<'a>,
    home: &Home,
    hosts: &[Host],
) -> Result<Vec<Inner<'a>>, Stop>
    requires among { slice_get functions.now number ≡ Some root.now }
    requires homes { first_home (root_of root.now).0.placed.homes ≡ Some home.now }
    ensures at { IfOk result (λ v. spec.AreAt (root_of group.now) (map root_of functions.now) (map inner_seen inners.now) (map inner_seen v.items)) }
    ensures computed { IfOk result (λ v. computed.AreComputedAt (algorithm_of algo.now) (root_of group.now) (map root_of functions.now)
        (map inner_seen inners.now) (root_of root.now)
        (computed.spots_of_hosts (root_of group.now) (map inner_seen inners.now) home.now hosts.now)
        (map inner_seen v.items)) }
    ensures told { Gives result (λ v. map inner_seen v.items) (computed.inners_of_hosts (algorithm_of algo.now) (root_of group.now)
        (map root_of functions.now) (map inner_seen inners.now) (root_of root.now) home.now hosts.now) }
{
    match hosts {
        [] => Ok(Vec::new(alloc)),
        [host, rest @ ..] => {
            let mut first = inners_at(
                alloc, algo, &*group, functions, &*inners, number, root, home, *host,
            )?;
            let mut others = inners_of_hosts(
                alloc, algo, group, functions, inners, number, root, home, rest,
            )?;
            first.append(&mut others)?;
            Ok(first)
        }
    }
}

// The function of this number wherever it is computed in the group.
#[tactic(auto, using(crate::proofs::Along::found_nowhere, crate::proofs::Along::found_everywhere, crate::proofs::Along::told_homeless, crate::proofs::Along::told_home))]
fn found_inside<'a>(
    alloc: Global,
    algo: &Algo,
    group: &Root<'a>,
    functions: &[Root<'a>],
    inners: &[Inner<'a>],
    number: usize,
    root: &Root<'a>,
) -> Result<Vec<Inner<'a>>, Stop>
    requires { slice_get functions.now number ≡ Some root.now }
    ensures at { IfOk result (λ v. spec.AreAt (root_of group.now) (map root_of functions.now) (map inner_seen inners.now) (map inner_seen v.items)) }
    ensures computed { IfOk result (λ v. computed.AreComputed (algorithm_of algo.now) (root_of group.now) (map root_of functions.now)
        (map inner_seen inners.now) (root_of root.now) (map inner_seen v.items)) }
    ensures told { Gives result (λ v. map inner_seen v.items) (computed.inners_of (algorithm_of algo.now) (root_of group.now) (map root_of functions.now)
        (map inner_seen inners.now) (root_of root.now)) }
{
    let Some(home) = home_of(root) else {
        return Ok(Vec::new(alloc));
    };
    let hosts = hosts_named(alloc, group, inners, &home.function)?;
    let found = inners_of_hosts(
        alloc, algo, group, functions, inners, number, root, &home, &hosts,
    )?;
    Ok(found)
}

// These, and behind them the functions before this number that are computed inside the loops, the last declared first.
#[tactic(auto, using(crate::proofs::Hosts::more_at_home, crate::proofs::Along::found_last, crate::proofs::Along::none_more, crate::proofs::Along::found_more, crate::proofs::Along::found_missing))]
fn inners_before<'a>(
    alloc: Global,
    algo: &Algo,
    group: &Root<'a>,
    functions: &[Root<'a>],
    count: usize,
    inners: Vec<Inner<'a>>,
) -> Result<Result<Vec<Inner<'a>>, Name>, AllocError>
    requires { spec.AreAtHome (root_of group.now) (map root_of functions.now) (map inner_seen inners.items) }
    ensures home { IfOk result (λ found. spec.AreAtHome (root_of group.now) (map root_of functions.now) (placed_inners found)) }
    ensures found { IfOk result (computed.AreFoundIf (algorithm_of algo.now) (root_of group.now) (map root_of functions.now) count (map inner_seen inners.entry.items)) }
{
    let Some(last) = count.checked_sub(1) else {
        return Ok(Ok(inners));
    };
    let Some(root) = functions.get(last) else {
        return Ok(inners_before(alloc, algo, group, functions, last, inners)?);
    };
    match found_inside(alloc, algo, group, functions, &inners, last, root) {
        Ok(found) => {
            let mut all = inners;
            let mut found = found;
            all.append(&mut found)?;
            Ok(inners_before(alloc, algo, group, functions, last, all)?)
        }
        Err(Stop::Limit) => Ok(Err(root.stored.subject.name)),
        Err(Stop::Memory) => Err(AllocError),
    }
}

/// The functions that are computed inside the loops of a group, the last declared first, of these in the order of
/// declaration; or the name of the first that is looked for of which a bound is missing there.
pub fn inners_of<'a>(
    alloc: Global,
    algo: &Algo,
    group: &Root<'a>,
    functions: &[Root<'a>],
) -> Result<Result<Vec<Inner<'a>>, Name>, AllocError>
    ensures home { IfOk result (λ found. spec.AreAtHome (root_of group.now) (map root_of functions.now) (placed_inners found)) }
    ensures found { IfOk result (computed.AreFoundIf (algorithm_of algo.now) (root_of group.now) (map root_of functions.now) (length functions.now) []) }
{
    inners_before(
        alloc,
        algo,
        group,
        functions,
        functions.len(),
        Vec::new(alloc),
    )
}
