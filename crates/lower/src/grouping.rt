//! The group of a root function: what it fetches, what its pieces do, and what a certificate says of them.

ghost use Rattle.std.specs.Prelude.{◌≡◌, [], IfOk, IfSome, Some, map, ◌+◌, ◌-◌, OnOk, length};
ghost use Rattle.std.specs.Option.{is_some, option_map};
ghost use Rattle.algo.specs.View.{algorithm_of};
ghost use Rattle.sched.specs.Skeleton.{skeleton_seen};
ghost use Rattle.regions.specs.Asked as asked;
ghost use Rattle.regions.specs.Needs as needs;
ghost use Rattle.sched.specs.Around.{grid_scope as grid_scope_of};
ghost use Rattle.lower.specs.Fetches.{IsTaken, fetched_groups, is_fetched};
ghost use Rattle.sched.specs.Groups.{root_of};
ghost use Rattle.sched.specs.Limited.{TellsIf};
ghost use Rattle.sched.specs.Placed.{inner_seen};
ghost use Rattle.sched.specs.Stored.{formula_of, stored_of};
ghost use Rattle.regions.specs.Stored.{some_calls};
ghost use Rattle.regions.specs.Taken as spec;
ghost use Rattle.plan.specs.Lists.{list_statements};
ghost use Rattle.regions.specs.Taken.{sites_of};
ghost use Rattle.blocks.specs.Blocks as blocks;
ghost use Rattle.blocks.specs.Bodies.{body, first_lines};
ghost use Rattle.blocks.specs.Fetches.{fetch_seen};
ghost use Rattle.regions.specs.Needs.{pieces_needed};
ghost use Rattle.lower.specs.Placed as placed;
ghost use Rattle.blocks.specs.Placed as blocks_placed;
ghost use Rattle.sched.specs.Placed as sched;
ghost use Rattle.lower.specs.Planned as planned;
ghost use Rattle.lower.specs.Making.{BodyMade, FetchMade, FetchesMade, GroupMade, IsBegun, MayMake};
ghost use Rattle.lower.specs.Groups.{GroupBy, IsOwnOver, MixedMade};
ghost use Rattle.blocks.specs.Groups.{IsOver};

use algo::Algo;
use blocks::blocks::{Dimension, claimed_region, dimensions, own_places};
use blocks::group::{
    Beginning, Body, Cast, FETCH_LINES, Made, group_with, last_definition, own_region, put_before,
};
use blocks::loading::Load;
use blocks::parts::symbols_over;
use blocks::whole::{Fetch, body_with, line_behind, line_count};
use plan::certificate::{Cert, Need, Own};
use regions::fetching::{Fetched, fetched_by, is_called, sites_of};
use sched::hosts::Inner;
use sched::roots::Root;
use sched::stop::Stop;
use std::alloc::{AllocError, Global};

/// What a piece of one function fetches of another one, for itself and for what is computed inside its loops; none where
/// that one is called nowhere.
pub(crate) fn fetch_of(
    alloc: Global,
    algo: &Algo,
    user: &Root<'_>,
    inners: &[Inner<'_>],
    callee: &Root<'_>,
) -> Result<Option<Fetched>, Stop>
    ensures taken { IfOk result (λ found. inners.now ≡ [] → IfSome found (λ one. IsTaken (spec.sites_of (algorithm_of algo.now) (stored_of user.now.stored.now)
        (map formula_of user.now.formulas.now) (skeleton_seen user.now.laid.now.skeleton)) (grid_scope_of user.now.laid.now.skeleton.grid.items)
        (stored_of callee.now.stored.now).subject.name callee.now.laid.now.region.items one.region one.places.items)) }
    ensures called { IfOk result (λ found. inners.now ≡ [] → is_some found ≡
        some_calls (stored_of callee.now.stored.now).subject.name (map formula_of user.now.formulas.now)) }
    ensures pieces { IfOk result (λ found. IfSome found (λ one. one.needed ≡ needs.pieces_needed (stored_of callee.now.stored.now)
        callee.now.laid.now.region.items callee.now.laid.now.skeleton.grid.items one.region)) }
    ensures told { TellsIf result (is_some (asked.sites_in (algorithm_of algo.now) (stored_of callee.now.stored.now).subject.name (root_of user.now)
        (map inner_seen inners.now))) }
{
    let name = callee.stored.subject.name.as_str();
    let sites = sites_of(alloc, algo, user, inners, name)?;
    if !is_called(alloc, user, inners, &sites, name)? {
        return Ok(None);
    }
    Ok(Some(fetched_by(alloc, user, callee, &sites)?))
}

// Fetches what the piece needs of another function, which is loaded by the claim of that.
fn fetch_into<'a>(
    alloc: Global,
    body: &mut Body<'a>,
    callee: &Root<'a>,
    number: usize,
    group: usize,
    found: Fetched,
) -> Result<Fetch<'a>, AllocError>
    requires { found.needed ≡ pieces_needed (stored_of callee.now.stored.now) callee.now.laid.now.region.items
        callee.now.laid.now.skeleton.grid.items found.region }
    ensures region { IfOk result (λ fetch. fetch.region ≡ found.region) }
    ensures places { IfOk result (λ fetch. fetch.places.items ≡ found.places.items) }
    ensures made { IfOk result (λ fetch. FetchMade number group (root_of callee.now) (fetch_seen fetch) body.old body.new) }
    ensures symbols { OnOk result (body.new.next_symbol ≡ body.old.next_symbol) }
    ensures seats { OnOk result (body.new.seats.items ≡ body.old.seats.items) }
{
    let name = callee.stored.subject.name.as_str();
    let buffer = body.next_buffer;
    let Some(next) = buffer.checked_add(1) else {
        return Err(AllocError);
    };
    let line = line_behind(body.line, FETCH_LINES)?;
    body.line = line;
    body.needs.push(Need {
        group: number as u64,
        needed: group as u64,
        region: found.needed,
    })?;
    let region = found.region.copy(alloc)?;
    let claim = body.claim(alloc, buffer, name, last_definition(callee), region)?;
    body.loads.push(Load {
        function: name,
        claim,
    })?;
    body.next_buffer = next;
    Ok(Fetch {
        buffer,
        function: name,
        places: found.places,
        group: group as u64,
        region: found.region,
    })
}

// What the piece fetches of this function, if it is another one that is called.
fn fetch_at<'a>(
    alloc: Global,
    algo: &Algo,
    body: &mut Body<'a>,
    callee: &Root<'a>,
    user: &Root<'a>,
    inners: &[Inner<'a>],
    number: usize,
    group: usize,
) -> Result<Option<Fetch<'a>>, Stop>
    ensures made { IfOk result (λ fetch. inners.now ≡ [] → MayMake (sites_of (algorithm_of algo.now) (stored_of user.now.stored.now)
        (map formula_of user.now.formulas.now)
        (skeleton_seen user.now.laid.now.skeleton)) (grid_scope_of user.now.laid.now.skeleton.grid.items) number
        (is_fetched (map formula_of user.now.formulas.now) number group (root_of callee.now))
        group (root_of callee.now) (option_map fetch_seen fetch) body.old body.new) }
    ensures told { TellsIf result (planned.is_found (algorithm_of algo.now) (root_of user.now) (map sched.inner_seen inners.now) number group
        (root_of callee.now)) }
    ensures may { IfOk result (λ fetch. placed.MayFetch number group (root_of callee.now) (option_map fetch_seen fetch) body.old body.new) }
{
    if group == number {
        return Ok(None);
    }
    match fetch_of(alloc, algo, user, inners, callee)? {
        Some(found) => Ok(Some(fetch_into(alloc, body, callee, number, group, found)?)),
        None => Ok(None),
    }
}

// What the piece fetches of each other function, where these are those from this group on, in the order of declaration.
fn fetches_from<'a>(
    alloc: Global,
    algo: &Algo,
    body: &mut Body<'a>,
    roots: &[Root<'a>],
    user: &Root<'a>,
    inners: &[Inner<'a>],
    number: usize,
    group: usize,
) -> Result<Vec<Fetch<'a>>, Stop>
    ensures made { IfOk result (λ v. inners.now ≡ [] → FetchesMade (sites_of (algorithm_of algo.now) (stored_of user.now.stored.now)
        (map formula_of user.now.formulas.now)
        (skeleton_seen user.now.laid.now.skeleton)) (grid_scope_of user.now.laid.now.skeleton.grid.items) number
        (fetched_groups (map formula_of user.now.formulas.now) number group (map root_of roots.now)) (map fetch_seen v.items) body.old body.new) }
    ensures told { TellsIf result (planned.are_found (algorithm_of algo.now) (root_of user.now) (map sched.inner_seen inners.now) number group
        (map root_of roots.now)) }
    ensures fetched { IfOk result (λ v. placed.FetchesBy number (placed.numbered group (map root_of roots.now)) (map fetch_seen v.items) body.old body.new) }
{
    match roots {
        [] => Ok(Vec::new(alloc)),
        [callee, rest @ ..] => {
            let Some(next) = group.checked_add(1) else {
                return Err(Stop::Memory);
            };
            let first = fetch_at(alloc, algo, body, callee, user, inners, number, group)?;
            let others = fetches_from(alloc, algo, body, rest, user, inners, number, next)?;
            Ok(put_before(first, others)?)
        }
    }
}

// Before the nests of a root function: behind the lets over the grid and its buffer.
fn begun<'a>(alloc: Global, beginning: Beginning, root: &Root<'_>) -> Result<Body<'a>, AllocError>
    ensures begun { IfOk result (IsBegun beginning.claim (beginning.line + first_lines (skeleton_seen root.now.laid.now.skeleton))) }
    ensures symbols { IfOk result (λ v. v.next_symbol ≡ length root.now.laid.now.skeleton.grid.items + length root.now.laid.now.skeleton.head.items) }
    ensures seats { IfOk result (λ v. v.seats.items ≡ []) }
{
    let skeleton = &root.laid.skeleton;
    let count = line_behind(line_count(&skeleton.head)?, 2)?;
    Ok(Body {
        statements: Vec::new(alloc),
        line: line_behind(beginning.line, count)?,
        needs: Vec::new(alloc),
        claims: Vec::new(alloc),
        windows: Vec::new(alloc),
        loads: Vec::new(alloc),
        next_claim: beginning.claim,
        next_buffer: 1,
        next_symbol: symbols_over(root)?,
        seats: Vec::new(alloc),
    })
}

// What a piece of the group does; what the certificate says of it is added.
fn body_of<'a>(
    alloc: Global,
    algo: &Algo,
    roots: &[Root<'a>],
    root: &Root<'a>,
    inners: &[Inner<'a>],
    dimensions: &[Dimension],
    beginning: Beginning,
    certificate: &mut Cert,
) -> Result<Body<'a>, Stop>
    requires { dimensions.now ≡ blocks.dimensions_of (stored_of root.now.stored.now) root.now.laid.now.region.items (skeleton_seen root.now.laid.now.skeleton) }
    ensures windows { IfOk result (λ v. inners.now ≡ [] → certificate.new.windows.items ≡ certificate.old.windows.items) }
    ensures made { IfOk result (λ v. inners.now ≡ [] → BodyMade (algorithm_of algo.now) (map root_of roots.now) beginning.number beginning.claim beginning.line
        v.line (root_of root.now) certificate.old.claims.items certificate.new.claims.items certificate.old.needs.items certificate.new.needs.items
        (body (list_statements v.statements.items))) }
    ensures told { TellsIf result (planned.is_written (algorithm_of algo.now) (map root_of roots.now) beginning.number
        (map sched.inner_seen inners.now) (root_of root.now)) }
    ensures mixed { IfOk result (λ v. blocks_placed.HasSome (map sched.inner_seen inners.now) → MixedMade (map root_of roots.now) beginning.number beginning.claim
        beginning.line (v.line + 1) (map sched.inner_seen inners.now) (root_of root.now)
        certificate.old certificate.new (body (list_statements v.statements.items))) }
{
    let claimed = claimed_region(alloc, dimensions)?;
    let mut body = begun(alloc, beginning, root)?;
    let number = beginning.number;
    let fetches = fetches_from(alloc, algo, &mut body, roots, root, inners, number, 0)?;
    let cast = Cast {
        root,
        inners,
        claimed: &claimed,
    };
    let nests = body.nests_of(alloc, cast)?;
    let claim = body.next_claim.saturating_sub(1);
    let places = own_places(alloc, dimensions)?;
    let statements = body_with(alloc, root, places, fetches, nests, claim)?;
    body.certify(certificate)?;
    body.finish(statements);
    Ok(body)
}

/// The group of a root function, with those that are computed inside its loops. What needs, claims and windows a certificate has of
/// it is added.
#[tactic(auto, using(crate::proofs::Claimed::done))]
pub(crate) fn group_of<'a>(
    alloc: Global,
    algo: &Algo,
    roots: &[Root<'a>],
    root: &Root<'a>,
    inners: &[Inner<'a>],
    beginning: Beginning,
    certificate: &mut Cert,
) -> Result<Made, Stop>
    ensures over { IfOk result (λ made. IsOver (root_of root.now) made.group) }
    ensures own { IfOk result (λ made. IsOwnOver (root_of root.now) beginning.number made.own) }
    ensures does { IfOk result (λ made. inners.now ≡ [] → GroupMade (algorithm_of algo.now) (map root_of roots.now) beginning.number
        beginning.claim beginning.line
        made.line (root_of root.now) certificate.old.claims.items certificate.new.claims.items certificate.old.needs.items
        certificate.new.needs.items made.group) }
    ensures windows { IfOk result (λ made. inners.now ≡ [] → certificate.new.windows.items ≡ certificate.old.windows.items) }
    ensures told { TellsIf result (planned.is_planned (algorithm_of algo.now) (map root_of roots.now) beginning.number
        (map sched.inner_seen inners.now) (root_of root.now)) }
    ensures by { IfOk result (λ made. GroupBy (algorithm_of algo.now) (map root_of roots.now) beginning.number beginning.claim beginning.line made.line
        (map sched.inner_seen inners.now) (root_of root.now) made.group certificate.old certificate.new) }
{
    let dimensions = dimensions(alloc, root.stored, root.laid)?;
    let own = own_region(alloc, root, &dimensions)?;
    let body = body_of(
        alloc,
        algo,
        roots,
        root,
        inners,
        &dimensions,
        beginning,
        certificate,
    )?;
    Ok(Made {
        group: group_with(alloc, root, body.statements)?,
        own: Own {
            group: beginning.number as u64,
            region: own,
        },
        line: line_behind(body.line, 1)?,
    })
}
