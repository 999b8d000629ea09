//! Places in the nests of a group: whose nests they are, and what stands around them.

ghost use Rattle.std.specs.Prelude.{◌≡◌, ◌+◌, IfOk, length, map, slice_get};
ghost use Rattle.std.specs.Option.{option_map};
ghost use Rattle.sched.specs.Skeleton.{nest_seen};
ghost use Rattle.sched.specs.Around as around;
ghost use Rattle.regions.specs.Demanded as demanded;
ghost use Rattle.sched.specs.Groups.{root_of};
ghost use Rattle.regions.specs.Homes as spec;
ghost use Rattle.sched.specs.Placed.{inner_seen};
ghost use Rattle.sched.specs.Stored.{formula_of};
ghost use Rattle.regions.specs.Uses.{first_home as first_home_of};

use crate::uses::first_home;
use algo::scoping::same_name;
use lin::Scope;
use sched::definitions::{Formula, counts};
use sched::hosts::{Host, Inner, Later, Spot, is_same_host, is_same_number};
use sched::roots::Root;
use sched::scopes::{bind_steps, head_scope};
use sched::{Home, Loop, Nest, Step};
use std::alloc::{AllocError, Global};
use tree::token::Name;

/// A function with nests of it that stand in a group.
#[derive(Clone, Copy, Drop)]
pub struct Hosted<'b, 'a> {
    pub root: Root<'a>,
    pub nests: &'b [Nest],
}

fn one_more(count: usize) -> Result<usize, AllocError>
    ensures { IfOk result (λ more. more ≡ count + 1) }
{
    match count.checked_add(1) {
        Some(more) => Ok(more),
        None => Err(AllocError),
    }
}

// Whether the loop stands in the nest of this definition, as one that is neither of the grid nor vectorised.
fn is_turned(formula: &Formula, one: &Loop) -> bool
    ensures { result ≡ spec.is_turned (formula_of formula.now) one.now }
{
    !one.is_parallel() && !one.is_vectorized() && !counts(Some(formula), one.dimension)
}

// How many of these loops do.
fn turned_count(formula: &Formula, loops: &[Loop]) -> Result<usize, AllocError>
    ensures { IfOk result (λ count. count ≡ spec.turned_count (formula_of formula.now) loops.now) }
{
    match loops {
        [] => Ok(0),
        [one, rest @ ..] => {
            let others = turned_count(formula, rest)?;
            if is_turned(formula, one) {
                one_more(others)
            } else {
                Ok(others)
            }
        }
    }
}

// How many loops of the nest stand outside the one of this name; none where it is not one of them.
fn turn_number(loops: &[Loop], formula: &Formula, name: &Name) -> Result<Option<usize>, AllocError>
    ensures { IfOk result (λ number. number ≡ spec.turn_number (formula_of formula.now) name.now loops.now) }
{
    match loops {
        [] => Ok(None),
        [one, rest @ ..] => {
            if is_turned(formula, one) && same_name(one.name.as_str(), name.as_str()) {
                Ok(Some(turned_count(formula, rest)?))
            } else {
                turn_number(rest, formula, name)
            }
        }
    }
}

fn is_turns(step: &Step) -> bool
    ensures { result ≡ spec.is_turns step.now }
{
    matches!(step, Step::Turns { .. })
}

// How many steps stand around what stands inside so many loops, behind the lets and guards of the last.
#[tactic(auto, using(crate::proofs::Hosts::inside_loop, crate::proofs::Hosts::before_loop))]
fn depth_inside(steps: &[Step], loops: usize) -> Result<usize, AllocError>
    ensures { IfOk result (λ depth. depth ≡ spec.depth_inside loops steps.now) }
{
    match steps {
        [] => Ok(0),
        [step, rest @ ..] => {
            if is_turns(step) {
                let Some(left) = loops.checked_sub(1) else {
                    return Ok(0);
                };
                return one_more(depth_inside(rest, left)?);
            }
            one_more(depth_inside(rest, loops)?)
        }
    }
}

/// Whether the loop of this name is one of the grid.
pub fn is_over_grid(loops: &[Loop], name: &Name) -> bool
    ensures { result ≡ spec.is_over_grid loops.now name.now }
{
    match loops {
        [] => false,
        [one, rest @ ..] => {
            (one.is_parallel() && same_name(one.name.as_str(), name.as_str()))
                || is_over_grid(rest, name)
        }
    }
}

/// The turns after the first one of the function of this number.
pub(crate) fn later_at<'b>(inners: &'b [Inner<'_>], number: usize) -> Option<&'b Later> {
    match inners.get(number) {
        Some(inner) => inner.later.as_ref(),
        None => None,
    }
}

/// The nests of a function among those computed inside, or of the group's own.
pub fn nests_at<'b>(group: &'b Root<'_>, inners: &'b [Inner<'_>], host: Host) -> &'b [Nest] {
    match host {
        Host::Own => &group.laid.skeleton.nests,
        Host::Inner(number) => match inners.get(number) {
            Some(inner) => &inner.nests,
            None => &[],
        },
        Host::Later(number) => match later_at(inners, number) {
            Some(later) => &later.nests,
            None => &[],
        },
    }
}

/// A function among those computed inside, or the group's own.
pub fn root_at<'a>(group: &Root<'a>, inners: &[Inner<'a>], host: Host) -> Root<'a> {
    match host.number() {
        None => *group,
        Some(number) => match inners.get(number) {
            Some(inner) => inner.root,
            None => *group,
        },
    }
}

// What stands around the nests of the function of this number.
#[tactic(auto, using(crate::proofs::Demands::scope_found, crate::proofs::Demands::no_scope))]
fn inner_scope(alloc: Global, inners: &[Inner<'_>], number: usize) -> Result<Scope, AllocError>
    ensures { IfOk result (λ scope. scope ≡ demanded.scope_of (slice_get (map inner_seen inners.now) number)) }
{
    match inners.get(number) {
        Some(inner) => Ok(inner.scope.copy(alloc)?),
        None => Ok(Scope::new(alloc)),
    }
}

// The same of its nests over what is new.
#[tactic(auto, using(crate::proofs::Demands::later_found, crate::proofs::Demands::none_later, crate::proofs::Demands::no_later))]
fn later_scope(alloc: Global, inners: &[Inner<'_>], number: usize) -> Result<Scope, AllocError>
    ensures { IfOk result (λ scope. scope ≡ demanded.later_scope_at (slice_get (map inner_seen inners.now) number)) }
{
    match inners.get(number) {
        Some(inner) => match &inner.later {
            Some(later) => Ok(later.scope.copy(alloc)?),
            None => Ok(Scope::new(alloc)),
        },
        None => Ok(Scope::new(alloc)),
    }
}

/// What stands around all nests of the function.
pub fn scope_over(
    alloc: Global,
    group: &Root<'_>,
    inners: &[Inner<'_>],
    host: Host,
) -> Result<Scope, AllocError>
    ensures { IfOk result (λ scope. scope ≡ demanded.scope_over (root_of group.now) (map inner_seen inners.now) host) }
{
    match host {
        Host::Own => Ok(head_scope(alloc, &group.laid.skeleton)?),
        Host::Inner(number) => Ok(inner_scope(alloc, inners, number)?),
        Host::Later(number) => Ok(later_scope(alloc, inners, number)?),
    }
}

// The nest in which a place is; none over the grid.
#[tactic(auto, using(crate::proofs::Demands::nest_found, crate::proofs::Demands::no_nest, crate::proofs::Demands::no_host, crate::proofs::Demands::no_definition))]
fn nest_at<'b, 'a>(group: &'b Root<'a>, inners: &'b [Inner<'a>], spot: Spot) -> Option<&'b Nest>
    ensures { option_map (λ nest. nest_seen nest.now) result ≡ demanded.nest_at (root_of group.now) (map inner_seen inners.now) spot }
{
    let Some(definition) = spot.definition else {
        return None;
    };
    let Some(hosted) = host_at(group, inners, spot.host) else {
        return None;
    };
    let Some(nest) = hosted.nests.get(definition) else {
        return None;
    };
    Some(nest)
}

// The first so many steps, if there are as many.
fn first_steps(steps: &[Step], count: usize) -> Option<&[Step]>
    ensures { option_map (λ first. first.now) result ≡ demanded.first_steps count steps.now }
{
    if count <= steps.len() {
        Some(&steps[..count])
    } else {
        None
    }
}

/// The steps around a place in a nest; none over the grid.
#[tactic(auto, using(crate::proofs::Demands::steps_found, crate::proofs::Demands::no_steps))]
pub fn steps_at<'b, 'a>(
    group: &'b Root<'a>,
    inners: &'b [Inner<'a>],
    spot: Spot,
) -> Option<&'b [Step]>
    ensures { option_map (λ steps. steps.now) result ≡ demanded.steps_at (root_of group.now) (map inner_seen inners.now) spot }
{
    match nest_at(group, inners, spot) {
        Some(nest) => first_steps(&nest.steps, spot.depth),
        None => None,
    }
}

// The symbols, and behind them those of steps.
fn with_steps(alloc: Global, scope: Scope, steps: &[Step]) -> Result<Scope, AllocError>
    ensures { IfOk result (λ all. all ≡ around.bind_steps scope steps.now) }
{
    let mut scope = scope;
    bind_steps(alloc, &mut scope, steps)?;
    Ok(scope)
}

/// What stands around a place.
#[tactic(auto, using(crate::proofs::Demands::scope_with, crate::proofs::Demands::scope_without))]
pub fn scope_at<'b, 'a>(
    alloc: Global,
    group: &'b Root<'a>,
    inners: &'b [Inner<'a>],
    spot: Spot,
) -> Result<Scope, AllocError>
    ensures { IfOk result (λ scope. scope ≡ demanded.scope_at (root_of group.now) (map inner_seen inners.now) spot) }
{
    let scope = scope_over(alloc, group, inners, spot.host)?;
    match steps_at(group, inners, spot) {
        Some(steps) => Ok(with_steps(alloc, scope, steps)?),
        None => Ok(scope),
    }
}

#[tactic(auto, using(crate::proofs::Hosts::inner_found, crate::proofs::Hosts::no_inner))]
fn inner_host<'b, 'a>(inners: &'b [Inner<'a>], number: usize) -> Option<Hosted<'b, 'a>>
    ensures { option_map spec.host_seen result ≡ spec.inner_host (map inner_seen inners.now) number }
{
    match inners.get(number) {
        Some(inner) => Some(Hosted {
            root: inner.root,
            nests: &inner.nests,
        }),
        None => None,
    }
}

#[tactic(auto, using(crate::proofs::Hosts::later_found, crate::proofs::Hosts::no_later, crate::proofs::Hosts::none_later))]
fn later_host<'b, 'a>(inners: &'b [Inner<'a>], number: usize) -> Option<Hosted<'b, 'a>>
    ensures { option_map spec.host_seen result ≡ spec.later_host (map inner_seen inners.now) number }
{
    match inners.get(number) {
        Some(inner) => match &inner.later {
            Some(later) => Some(Hosted {
                root: inner.root,
                nests: &later.nests,
            }),
            None => None,
        },
        None => None,
    }
}

/// The group's own function, or one among those computed inside, with the nests of this host; none where it has no such.
pub fn host_at<'b, 'a>(
    group: &'b Root<'a>,
    inners: &'b [Inner<'a>],
    host: Host,
) -> Option<Hosted<'b, 'a>>
    ensures { option_map spec.host_seen result ≡ spec.host_at (root_of group.now) (map inner_seen inners.now) host }
{
    match host {
        Host::Own => Some(Hosted {
            root: *group,
            nests: &group.laid.skeleton.nests,
        }),
        Host::Inner(number) => inner_host(inners, number),
        Host::Later(number) => later_host(inners, number),
    }
}

// The place inside the loop of this name in the nest of a definition, where that has it.
#[tactic(auto, using(crate::proofs::Hosts::inside_made, crate::proofs::Hosts::no_turn, crate::proofs::Hosts::no_nest, crate::proofs::Hosts::no_formula))]
fn spot_inside(
    host: Host,
    hosted: &Hosted<'_, '_>,
    definition: usize,
    name: &Name,
) -> Result<Option<Spot>, AllocError>
    ensures { IfOk result (λ spot. spot ≡ spec.spot_inside host (spec.host_seen hosted.now) definition name.now) }
{
    let Some(formula) = hosted.root.formulas.get(definition) else {
        return Ok(None);
    };
    let Some(nest) = hosted.nests.get(definition) else {
        return Ok(None);
    };
    let Some(number) = turn_number(&hosted.root.stored.placed.loops, formula, name)? else {
        return Ok(None);
    };
    Ok(Some(Spot {
        host,
        definition: Some(definition),
        depth: depth_inside(&nest.steps, one_more(number)?)?,
    }))
}

/// The place of a loop in the nest of a definition: before all nests where the loop is of the grid; none where there is no such loop.
pub fn spot_in(
    host: Host,
    hosted: &Hosted<'_, '_>,
    definition: usize,
    name: &Name,
) -> Result<Option<Spot>, AllocError>
    ensures { IfOk result (λ spot. spot ≡ spec.spot_in host (spec.host_seen hosted.now) definition name.now) }
{
    if is_over_grid(&hosted.root.stored.placed.loops, name) {
        return Ok(Some(Spot {
            host,
            definition: None,
            depth: 0,
        }));
    }
    spot_inside(host, hosted, definition, name)
}

// Whether a place in the nests of the same host is no further outside.
fn is_behind(home: Spot, spot: Spot) -> bool
    ensures { result ≡ demanded.is_behind home spot }
{
    if spot.definition.is_none() {
        return true;
    }
    is_same_number(home.definition, spot.definition) && spot.depth <= home.depth
}

// Whether the function of this number is computed at the place, or in the nests of one that is; they stand inside one another at most
// so deep.
#[tactic(auto, using(crate::proofs::Demands::at_place, crate::proofs::Demands::in_nests, crate::proofs::Demands::in_group, crate::proofs::Demands::no_function, crate::proofs::Demands::too_deep))]
fn stands_inside(inners: &[Inner<'_>], spot: Spot, deep: usize, number: usize) -> bool
    ensures { result ≡ demanded.stands_inside (map inner_seen inners.now) spot deep number }
{
    let Some(below) = deep.checked_sub(1) else {
        return false;
    };
    let Some(inner) = inners.get(number) else {
        return false;
    };
    let home = inner.home;
    if is_same_host(home.host, spot.host) {
        return is_behind(home, spot);
    }
    match home.host.number() {
        Some(host) => stands_inside(inners, spot, below, host),
        None => false,
    }
}

/// Whether the function of this number is computed at the place, or inside of it.
#[tactic(auto, using(crate::proofs::Demands::same_length))]
pub fn is_inside_spot(inners: &[Inner<'_>], number: usize, spot: Spot) -> bool
    ensures { result ≡ demanded.stands_inside (map inner_seen inners.now) spot (length (map inner_seen inners.now)) number }
{
    stands_inside(inners, spot, inners.len(), number)
}

/// The first loop at which a function is computed.
pub fn home_of(root: &Root<'_>) -> Option<Home>
    ensures { result ≡ first_home_of (root_of root.now).0.placed.homes }
{
    first_home(&root.stored.placed.homes)
}

fn or_home(home: Spot, spot: Option<Spot>) -> Spot
    ensures { result ≡ spec.or_home home spot }
{
    match spot {
        Some(spot) => spot,
        None => home,
    }
}

/// Where the function's buffer stands: at its first `store_at`, in the nest in which it is computed, or else where it is computed.
pub fn store_spot(hosted: &Hosted<'_, '_>, root: &Root<'_>, home: Spot) -> Result<Spot, AllocError>
    ensures { IfOk result (λ store. store ≡ spec.store_spot (spec.host_seen hosted.now) (root_of root.now).0.placed.stores home) }
{
    let Some(store) = first_home(&root.stored.placed.stores) else {
        return Ok(home);
    };
    let Some(definition) = home.definition else {
        return Ok(home);
    };
    Ok(or_home(home, spot_in(home.host, hosted, definition, &store.turn)?))
}

// The hosts of a function that is computed inside, by its number: where it slides, what is new too.
fn inner_hosts(alloc: Global, number: usize, inner: &Inner<'_>) -> Result<Vec<Host>, AllocError>
    ensures { IfOk result (λ v. v.items ≡ spec.inner_hosts number (inner_seen inner.now)) }
{
    let mut hosts = Vec::new(alloc);
    hosts.push(Host::Inner(number))?;
    if inner.later.is_some() {
        hosts.push(Host::Later(number))?;
    }
    Ok(hosts)
}

// The hosts of this name among those computed inside, from this number on.
fn hosts_from(
    alloc: Global,
    inners: &[Inner<'_>],
    number: usize,
    name: &Name,
) -> Result<Vec<Host>, AllocError>
    ensures { IfOk result (λ v. v.items ≡ spec.hosts_from number name.now (map inner_seen inners.now)) }
{
    match inners {
        [] => Ok(Vec::new(alloc)),
        [inner, rest @ ..] => {
            let Some(next) = number.checked_add(1) else {
                return Err(AllocError);
            };
            let mut others = hosts_from(alloc, rest, next, name)?;
            if !same_name(inner.root.stored.subject.name.as_str(), name.as_str()) {
                return Ok(others);
            }
            let mut hosts = inner_hosts(alloc, number, inner)?;
            hosts.append(&mut others)?;
            Ok(hosts)
        }
    }
}

/// The hosts of this name: the group's own function first.
pub fn hosts_named(
    alloc: Global,
    group: &Root<'_>,
    inners: &[Inner<'_>],
    name: &Name,
) -> Result<Vec<Host>, AllocError>
    ensures { IfOk result (λ v. v.items ≡ spec.hosts_named (root_of group.now) (map inner_seen inners.now) name.now) }
{
    let mut hosts = hosts_from(alloc, inners, 0, name)?;
    if same_name(group.stored.subject.name.as_str(), name.as_str()) {
        hosts.insert(0, Host::Own)?;
    }
    Ok(hosts)
}

// The places in the nests of a host at which a function is computed.
fn add_spots<'b, 'a>(
    host: Host,
    hosted: &Hosted<'b, 'a>,
    turn: &Name,
    found: &mut Vec<Spot>,
) -> Result<(), AllocError> {
    for definition in 0..hosted.nests.len() {
        if let Some(spot) = spot_in(host, hosted, definition, turn)? {
            found.push(spot)?;
        }
    }
    Ok(())
}

/// The places at which a function is computed in a group.
pub fn spots_of<'b, 'a>(
    alloc: Global,
    group: &'b Root<'a>,
    inners: &'b [Inner<'a>],
    root: &Root<'_>,
) -> Result<Vec<Spot>, AllocError> {
    let mut found = Vec::new(alloc);
    let Some(home) = home_of(root) else {
        return Ok(found);
    };
    for host in hosts_named(alloc, group, inners, &home.function)? {
        if let Some(hosted) = host_at(group, inners, host) {
            add_spots(host, &hosted, &home.turn, &mut found)?;
        }
    }
    Ok(found)
}
