//! The nests of a group in whose loops functions are computed: at each place of a nest the buffers of those that are stored there,
//! then the nests of those that are computed there, and then what the nest itself does.

ghost use Rattle.std.specs.Prelude.{◌+◌, map};
ghost use Rattle.plan.specs.Lists.{list_statements};
ghost use Rattle.sched.specs.Skeleton.{nest_seen, skeleton_seen};
ghost use Rattle.sched.specs.Groups.{root_of};
ghost use Rattle.sched.specs.Limited.{Gives};
ghost use Rattle.blocks.specs.Renamed.{pair_of};
ghost use Rattle.blocks.specs.Placed as spec;
ghost use Rattle.sched.specs.Placed as sched;

use crate::group::Body;
use crate::parts::{
    Owner, add_lines, begun, buffers_at, claim, ended, first_let, first_lets, hold, is_same_spot,
    last_seat, let_count, lets, own_buffer, stored, symbols_over,
};
use crate::renaming::{Renaming, name_in, own_names};
use crate::whole::{alone, block_of};
use lin::{Region, Sym};
use plan::Stmt;
use sched::hosts::{Host, Inner, Later, Spot};
use sched::roots::Root;
use sched::stop::Stop;
use sched::{Nest, Step};
use std::alloc::Global;

/// How deep what stands at places of nests may stand inside one another, each step and each function counted: deeper ones count as
/// want of memory.
const MOST_DEPTH: usize = 1 << 16;

/// The place before all nests of a group.
const OVER_GRID: Spot = Spot {
    host: Host::Own,
    definition: None,
    depth: 0,
};

// ---- places

// The function of this number, with its buffer where that stands here too, if it is computed at a place.
#[cycle(mixed)]
#[tactic(auto, using(crate::proofs::Nested::function_here, crate::proofs::Nested::function_stops, crate::proofs::Nested::function_stops_later))]
fn function_at<'a>(
    alloc: Global,
    body: &mut Body<'a>,
    inners: &[Inner<'a>],
    deep: usize,
    left: usize,
    spot: Spot,
    number: usize,
    inner: &Inner<'a>,
    names: &[Renaming],
) -> Result<Vec<Stmt>, Stop>
    ensures { Gives result (λ v. (list_statements v.items, spec.so_far body.new))
        (spec.function_at (spec.computed deep (map sched.inner_seen inners.now)) spot (map pair_of names.now) number
        (sched.inner_seen inner.now) (spec.so_far body.old)) }
{
    let Some(left) = left.checked_sub(1) else {
        return Err(Stop::Memory);
    };
    if is_same_spot(inner.home, spot) {
        let mut first = own_buffer(alloc, body, spot, number, inner, names)?;
        let mut others = computed(alloc, body, inners, deep, left, number, inner, names)?;
        first.append(&mut others)?;
        Ok(first)
    } else {
        Ok(Vec::new(alloc))
    }
}

// Those functions before this number, the last first, that are computed at a place.
#[cycle(mixed)]
#[tactic(auto, using(crate::proofs::Nested::functions_first, crate::proofs::Nested::functions_none, crate::proofs::Nested::functions_missing, crate::proofs::Nested::functions_stop, crate::proofs::Nested::functions_stop_later))]
fn functions_at<'a>(
    alloc: Global,
    body: &mut Body<'a>,
    inners: &[Inner<'a>],
    deep: usize,
    left: usize,
    spot: Spot,
    count: usize,
    names: &[Renaming],
) -> Result<Vec<Stmt>, Stop>
    ensures { Gives result (λ v. (list_statements v.items, spec.so_far body.new))
        (spec.functions_at (spec.computed deep (map sched.inner_seen inners.now)) (map sched.inner_seen inners.now) spot
        (map pair_of names.now) (spec.numbers_down count) (spec.so_far body.old)) }
{
    let Some(left) = left.checked_sub(1) else {
        return Err(Stop::Memory);
    };
    let Some(last) = count.checked_sub(1) else {
        return Ok(Vec::new(alloc));
    };
    let Some(inner) = inners.get(last) else {
        return Err(Stop::Limit);
    };
    let mut first = function_at(alloc, body, inners, deep, left, spot, last, inner, names)?;
    let mut others = functions_at(alloc, body, inners, deep, left, spot, last, names)?;
    first.append(&mut others)?;
    Ok(first)
}

// What stands at a place: the buffers of what is computed further inside, and then the functions that are computed there.
#[cycle(mixed)]
#[tactic(auto, using(crate::proofs::Nested::all_there, crate::proofs::Nested::all_stop, crate::proofs::Nested::all_stop_later))]
fn all_at<'a>(
    alloc: Global,
    body: &mut Body<'a>,
    inners: &[Inner<'a>],
    deep: usize,
    left: usize,
    spot: Spot,
    names: &[Renaming],
) -> Result<Vec<Stmt>, Stop>
    ensures { Gives result (λ v. (list_statements v.items, spec.so_far body.new))
        (spec.all_at (spec.computed deep (map sched.inner_seen inners.now)) (map sched.inner_seen inners.now) spot
        (map pair_of names.now) (spec.so_far body.old)) }
{
    let Some(left) = left.checked_sub(1) else {
        return Err(Stop::Memory);
    };
    let count = inners.len();
    let mut first = buffers_at(alloc, body, inners, spot, count, names)?;
    let mut others = functions_at(alloc, body, inners, deep, left, spot, count, names)?;
    first.append(&mut others)?;
    Ok(first)
}

// ---- nests

// The next step of a nest around what follows.
#[cycle(mixed)]
#[tactic(auto, using(crate::proofs::Nested::step_next, crate::proofs::Nested::step_stops))]
fn step_in<'a>(
    alloc: Global,
    body: &mut Body<'a>,
    inners: &[Inner<'a>],
    deep: usize,
    left: usize,
    owner: &Owner<'_, 'a>,
    definition: usize,
    nest: &Nest,
    depth: usize,
    step: &Step,
    steps: &[Step],
    names: &[Renaming],
) -> Result<Vec<Stmt>, Stop>
    ensures { Gives result (λ v. (list_statements v.items, spec.so_far body.new))
        (spec.step_in (spec.walk (spec.computed deep (map sched.inner_seen inners.now)) (map sched.inner_seen inners.now)
        (spec.owner_seen owner.now)
        definition (nest_seen nest.now) (depth + 1) steps.now) step.now (map pair_of names.now) (spec.so_far body.old)) }
{
    let Some(left) = left.checked_sub(1) else {
        return Err(Stop::Memory);
    };
    let Some(behind) = depth.checked_add(1) else {
        return Err(Stop::Memory);
    };
    let (names, told) = begun(alloc, body, step, names)?;
    let inside = walk(
        alloc, body, inners, deep, left, owner, definition, nest, behind, steps, &names,
    )?;
    Ok(ended(alloc, body, &told, inside)?)
}

// From behind so many steps of a nest on: what stands there, and then the next step around what follows, or the store.
#[cycle(mixed)]
#[tactic(auto, using(crate::proofs::Nested::walk_on, crate::proofs::Nested::walk_end, crate::proofs::Nested::walk_stops, crate::proofs::Nested::walk_on_stops, crate::proofs::Nested::walk_end_stops))]
fn walk<'a>(
    alloc: Global,
    body: &mut Body<'a>,
    inners: &[Inner<'a>],
    deep: usize,
    left: usize,
    owner: &Owner<'_, 'a>,
    definition: usize,
    nest: &Nest,
    depth: usize,
    steps: &[Step],
    names: &[Renaming],
) -> Result<Vec<Stmt>, Stop>
    ensures { Gives result (λ v. (list_statements v.items, spec.so_far body.new))
        (spec.walk (spec.computed deep (map sched.inner_seen inners.now)) (map sched.inner_seen inners.now) (spec.owner_seen owner.now)
        definition (nest_seen nest.now) depth steps.now (map pair_of names.now) (spec.so_far body.old)) }
{
    let Some(left) = left.checked_sub(1) else {
        return Err(Stop::Memory);
    };
    let spot = Spot {
        host: owner.host,
        definition: Some(definition),
        depth,
    };
    let mut first = all_at(alloc, body, inners, deep, left, spot, names)?;
    let mut others = match steps {
        [] => stored(alloc, body, owner, definition, nest, names)?,
        [step, rest @ ..] => step_in(
            alloc, body, inners, deep, left, owner, definition, nest, depth, step, rest, names,
        )?,
    };
    first.append(&mut others)?;
    Ok(first)
}

// The same; what is computed inside is loaded inside alone.
#[cycle(mixed)]
#[tactic(auto, using(crate::proofs::Nested::apart_made, crate::proofs::Nested::apart_stops))]
fn walk_apart<'a>(
    alloc: Global,
    body: &mut Body<'a>,
    inners: &[Inner<'a>],
    deep: usize,
    left: usize,
    owner: &Owner<'_, 'a>,
    definition: usize,
    nest: &Nest,
    depth: usize,
    steps: &[Step],
    names: &[Renaming],
) -> Result<Vec<Stmt>, Stop>
    ensures { Gives result (λ v. (list_statements v.items, spec.so_far body.new))
        (spec.walk_apart (spec.computed deep (map sched.inner_seen inners.now)) (map sched.inner_seen inners.now)
        (spec.owner_seen owner.now)
        definition (nest_seen nest.now) depth steps.now (map pair_of names.now) (spec.so_far body.old)) }
{
    let Some(left) = left.checked_sub(1) else {
        return Err(Stop::Memory);
    };
    let loads = Vec::from_slice(alloc, &body.loads)?;
    let made = walk(
        alloc, body, inners, deep, left, owner, definition, nest, depth, steps, names,
    )?;
    body.loads = loads;
    Ok(made)
}

// The nests of the definitions from this one on, each with its claim.
#[cycle(mixed)]
#[tactic(auto, using(crate::proofs::Nested::nests_first, crate::proofs::Nested::nests_stop, crate::proofs::Nested::nests_unclaimed, crate::proofs::Nested::nests_stop_later))]
fn nests_from<'a>(
    alloc: Global,
    body: &mut Body<'a>,
    inners: &[Inner<'a>],
    deep: usize,
    left: usize,
    owner: &Owner<'_, 'a>,
    definition: usize,
    nests: &[Nest],
    names: &[Renaming],
) -> Result<Vec<Stmt>, Stop>
    ensures { Gives result (λ v. (list_statements v.items, spec.so_far body.new))
        (spec.nests_from (spec.computed deep (map sched.inner_seen inners.now)) (map sched.inner_seen inners.now)
        (spec.owner_seen owner.now)
        definition (map nest_seen nests.now) (map pair_of names.now) (spec.so_far body.old)) }
{
    let Some(left) = left.checked_sub(1) else {
        return Err(Stop::Memory);
    };
    match nests {
        [] => Ok(Vec::new(alloc)),
        [nest, rest @ ..] => {
            let Some(next) = definition.checked_add(1) else {
                return Err(Stop::Memory);
            };
            let mut first = walk_apart(
                alloc,
                body,
                inners,
                deep,
                left,
                owner,
                definition,
                nest,
                0,
                &nest.steps,
                names,
            )?;
            claim(alloc, body, owner, definition, names)?;
            let mut others = nests_from(alloc, body, inners, deep, left, owner, next, rest, names)?;
            first.append(&mut others)?;
            Ok(first)
        }
    }
}

// ---- functions inside

// Each turn makes all.
#[cycle(mixed)]
#[tactic(auto, using(crate::proofs::Nested::all_made, crate::proofs::Nested::all_stops, crate::proofs::Nested::all_stops_later))]
fn all_turns<'a>(
    alloc: Global,
    body: &mut Body<'a>,
    inners: &[Inner<'a>],
    deep: usize,
    left: usize,
    buffer: u64,
    number: usize,
    inner: &Inner<'a>,
    names: &[Renaming],
) -> Result<Vec<Stmt>, Stop>
    ensures { Gives result (λ v. (list_statements v.items, spec.so_far body.new))
        (spec.all_turns (spec.computed deep (map sched.inner_seen inners.now)) (map sched.inner_seen inners.now) buffer number
        (sched.inner_seen inner.now) (map pair_of names.now) (spec.so_far body.old)) }
{
    let Some(left) = left.checked_sub(1) else {
        return Err(Stop::Memory);
    };
    let (mut first, names) = lets(alloc, body, &inner.lets, names)?;
    let owner = Owner {
        host: Host::Inner(number),
        root: &inner.root,
        claimed: &inner.claimed,
        buffer,
    };
    let mut others = nests_from(
        alloc,
        body,
        inners,
        deep,
        left,
        &owner,
        0,
        &inner.nests,
        &names,
    )?;
    first.append(&mut others)?;
    Ok(first)
}

// Behind the lets before its loops, the nest of a function that slides: of all, or of what is new.
#[cycle(mixed)]
#[tactic(auto)]
fn arm<'a>(
    alloc: Global,
    body: &mut Body<'a>,
    inners: &[Inner<'a>],
    deep: usize,
    left: usize,
    owner: &Owner<'_, 'a>,
    nest: &Nest,
    names: &[Renaming],
) -> Result<Vec<Stmt>, Stop>
    ensures { Gives result (λ v. (list_statements v.items, spec.so_far body.new))
        (spec.arm (spec.computed deep (map sched.inner_seen inners.now)) (map sched.inner_seen inners.now) (spec.owner_seen owner.now)
        (nest_seen nest.now) (map pair_of names.now) (spec.so_far body.old)) }
{
    let Some(left) = left.checked_sub(1) else {
        return Err(Stop::Memory);
    };
    add_lines(body, 1)?;
    let count = let_count(&nest.steps)?;
    let Some(steps) = nest.steps.get(count..) else {
        return Err(Stop::Limit);
    };
    walk_apart(
        alloc, body, inners, deep, left, owner, 0, nest, count, steps, names,
    )
}

// The nest of the first turn, which makes all, and that of the others, which makes what is new.
#[cycle(mixed)]
#[tactic(auto, using(crate::proofs::Nested::arms_made, crate::proofs::Nested::arms_stop, crate::proofs::Nested::arms_stop_later))]
fn arms<'a>(
    alloc: Global,
    body: &mut Body<'a>,
    inners: &[Inner<'a>],
    deep: usize,
    left: usize,
    owners: (&Owner<'_, 'a>, &Owner<'_, 'a>),
    nests: (&Nest, &Nest),
    symbol: Sym,
    whole: &[Renaming],
    anew: &[Renaming],
) -> Result<Vec<Stmt>, Stop>
    ensures { Gives result (λ v. (list_statements v.items, spec.so_far body.new))
        (spec.arms (spec.computed deep (map sched.inner_seen inners.now)) (map sched.inner_seen inners.now)
        (spec.owner_seen owners.entry.0.now) (spec.owner_seen owners.entry.1.now) (nest_seen nests.entry.0.now) (nest_seen nests.entry.1.now) symbol
        (map pair_of whole.now) (map pair_of anew.now) (spec.so_far body.old)) }
{
    let Some(left) = left.checked_sub(1) else {
        return Err(Stop::Memory);
    };
    let inside = arm(alloc, body, inners, deep, left, owners.0, nests.0, whole)?;
    let first = Box::new(alloc, block_of(inside))?;
    let inside = arm(alloc, body, inners, deep, left, owners.1, nests.1, anew)?;
    let later = Box::new(alloc, block_of(inside))?;
    add_lines(body, 1)?;
    Ok(alone(
        alloc,
        Stmt::First {
            symbol,
            first,
            later,
        },
    )?)
}

// Both nests, behind the lets of both.
#[cycle(mixed)]
#[tactic(auto, using(crate::proofs::Nested::first_and_later_made, crate::proofs::Stopped::unnamed_stops, crate::proofs::Stopped::let_missing, crate::proofs::Stopped::first_lets_missing, crate::proofs::Stopped::new_lets_missing, crate::proofs::Stopped::arms_missing))]
fn first_and_later<'a>(
    alloc: Global,
    body: &mut Body<'a>,
    inners: &[Inner<'a>],
    deep: usize,
    left: usize,
    owners: (&Owner<'_, 'a>, &Owner<'_, 'a>),
    later: &Later,
    nests: (&Nest, &Nest),
    names: &[Renaming],
) -> Result<Vec<Stmt>, Stop>
    ensures { Gives result (λ v. (list_statements v.items, spec.so_far body.new))
        (spec.first_and_later (spec.computed deep (map sched.inner_seen inners.now)) (map sched.inner_seen inners.now)
        (spec.owner_seen owners.entry.0.now) (spec.owner_seen owners.entry.1.now) (sched.later_seen later.now)
        (nest_seen nests.entry.0.now) (nest_seen nests.entry.1.now)
        (map pair_of names.now) (spec.so_far body.old)) }
{
    let Some(left) = left.checked_sub(1) else {
        return Err(Stop::Memory);
    };
    let symbol = name_in(names, later.symbol)?;
    let (mut all, anew) = first_let(alloc, body, later, names)?;
    let (mut own, whole) = first_lets(alloc, body, nests.0, names)?;
    let (mut new, anew) = first_lets(alloc, body, nests.1, &anew)?;
    let mut both = arms(
        alloc, body, inners, deep, left, owners, nests, symbol, &whole, &anew,
    )?;
    new.append(&mut both)?;
    own.append(&mut new)?;
    all.append(&mut own)?;
    Ok(all)
}

// Then one claim, and one window.
#[cycle(mixed)]
#[tactic(auto, using(crate::proofs::Nested::sliding_made, crate::proofs::Stopped::turns_missing, crate::proofs::Stopped::claim_missing, crate::proofs::Stopped::window_missing))]
fn sliding_turns<'a>(
    alloc: Global,
    body: &mut Body<'a>,
    inners: &[Inner<'a>],
    deep: usize,
    left: usize,
    buffer: u64,
    number: usize,
    inner: &Inner<'a>,
    later: &Later,
    names: &[Renaming],
) -> Result<Vec<Stmt>, Stop>
    ensures { Gives result (λ v. (list_statements v.items, spec.so_far body.new))
        (spec.sliding_turns (spec.computed deep (map sched.inner_seen inners.now)) (map sched.inner_seen inners.now) buffer number
        (sched.inner_seen inner.now) (sched.later_seen later.now) (map pair_of names.now) (spec.so_far body.old)) }
{
    let Some(left) = left.checked_sub(1) else {
        return Err(Stop::Memory);
    };
    let Some(all) = inner.nests.get(0) else {
        return Err(Stop::Limit);
    };
    let Some(new) = later.nests.get(0) else {
        return Err(Stop::Limit);
    };
    let owner = Owner {
        host: Host::Inner(number),
        root: &inner.root,
        claimed: &inner.claimed,
        buffer,
    };
    let anew = Owner {
        host: Host::Later(number),
        root: &inner.root,
        claimed: &inner.claimed,
        buffer,
    };
    let made = first_and_later(
        alloc,
        body,
        inners,
        deep,
        left,
        (&owner, &anew),
        later,
        (all, new),
        names,
    )?;
    claim(alloc, body, &owner, 0, names)?;
    hold(alloc, body, inner, later, names)?;
    Ok(made)
}

// The nests of the function of this number, inside these names.
#[cycle(mixed)]
#[tactic(auto, using(crate::proofs::Nested::computed_all, crate::proofs::Nested::computed_sliding, crate::proofs::Nested::computed_too_deep, crate::proofs::Nested::computed_unseated))]
fn computed<'a>(
    alloc: Global,
    body: &mut Body<'a>,
    inners: &[Inner<'a>],
    deep: usize,
    left: usize,
    number: usize,
    inner: &Inner<'a>,
    names: &[Renaming],
) -> Result<Vec<Stmt>, Stop>
    ensures { Gives result (λ v. (list_statements v.items, spec.so_far body.new))
        (spec.computed deep (map sched.inner_seen inners.now) number (sched.inner_seen inner.now) (map pair_of names.now)
        (spec.so_far body.old)) }
{
    let Some(left) = left.checked_sub(1) else {
        return Err(Stop::Memory);
    };
    let Some(below) = deep.checked_sub(1) else {
        return Err(Stop::Limit);
    };
    let Some(buffer) = last_seat(None, &body.seats, number) else {
        return Err(Stop::Limit);
    };
    match &inner.later {
        None => all_turns(
            alloc, body, inners, below, left, buffer, number, inner, names,
        ),
        Some(later) => sliding_turns(
            alloc, body, inners, below, left, buffer, number, inner, later, names,
        ),
    }
}

// ---- the group's own function

/// The nests of a group's own function, in which others are computed, and what is computed before them.
#[tactic(auto, using(crate::proofs::Nested::group_made, crate::proofs::Nested::group_stops, crate::proofs::Nested::group_stops_later))]
pub(crate) fn mixed_nests<'a>(
    alloc: Global,
    body: &mut Body<'a>,
    inners: &[Inner<'a>],
    root: &Root<'a>,
    claimed: &Region,
) -> Result<Vec<Stmt>, Stop>
    ensures { Gives result (λ v. (list_statements v.items, spec.so_far body.new))
        (spec.nests_over_grid (map sched.inner_seen inners.now) (spec.group_owner (root_of root.now) claimed.now)
        (skeleton_seen root.now.laid.now.skeleton) (spec.so_far body.old)) }
{
    let names = own_names(alloc, symbols_over(root)?)?;
    let owner = Owner {
        host: Host::Own,
        root,
        claimed,
        buffer: 0,
    };
    let deep = inners.len();
    let left = MOST_DEPTH;
    let mut first = all_at(alloc, body, inners, deep, left, OVER_GRID, &names)?;
    let mut others = nests_from(
        alloc,
        body,
        inners,
        deep,
        left,
        &owner,
        0,
        &root.laid.skeleton.nests,
        &names,
    )?;
    first.append(&mut others)?;
    Ok(first)
}
