//! What nests are made of in a group in whose loops functions are computed: stores, claims, buffers, lets and windows, numbered as they come.

ghost use Rattle.std.specs.Prelude.{◌≡◌, ◌+◌, ◌-◌, ◌∷◌, [], IfOk, OnOk, Some, None, length, map};
ghost use Rattle.plan.specs.Lists.{list_statements};
ghost use Rattle.plan.specs.View.{statement_of};
ghost use Rattle.plan.specs.declared.stmt.Pick.TheVariants.{Min};
ghost use Rattle.sched.specs.declared.skeleton.Step.TheVariants.{Named};
ghost use Rattle.sched.specs.Skeleton.{nest_seen};
ghost use Rattle.blocks.specs.Loading.{load_of};
ghost use Rattle.blocks.specs.Bodies.{own_lines};
ghost use Rattle.sched.specs.Limited.{Gives};
ghost use Rattle.sched.specs.Renamed.{last_value, step_renamed};
ghost use Rattle.blocks.specs.Renamed.{pair_of};
ghost use Rattle.blocks.specs.Placed as spec;
ghost use Rattle.sched.specs.Placed as sched;

use crate::group::Body;
use crate::loading::{Load, loaded};
use crate::renaming::{
    Renaming, name_in, renamed_coordinates, renamed_places, renamed_region, renamed_span,
    renamed_step,
};
use crate::whole::{alone, coordinates_of, line_behind, own_lines, with_step};
use lin::{Lin, Region, Sym};
use plan::certificate::{Claim, Window};
use plan::{Pick, Stmt};
use sched::hosts::{Host, Inner, Later, Spot, is_same_host, is_same_number};
use sched::roots::Root;
use sched::scopes::variables_of;
use sched::stop::Stop;
use sched::{Fold, Nest, Step};
use std::alloc::{AllocError, Global};
use std::slice;

/// The buffer of the function of this number among those that are computed inside.
#[derive(Clone, Copy, Drop)]
pub struct Seat {
    pub number: usize,
    pub buffer: u64,
}

/// The function whose nests are made: which of the nests they are, of what its claims speak, and its buffer.
#[derive(Clone, Copy, Drop)]
pub(crate) struct Owner<'b, 'a> {
    pub host: Host,
    pub root: &'b Root<'a>,
    pub claimed: &'b Region,
    pub buffer: u64,
}

// ---- numbers

pub(crate) fn add_lines(body: &mut Body<'_>, count: u64) -> Result<(), AllocError>
    ensures { OnOk result (spec.so_far body.new ≡ sched.with_lines count (spec.so_far body.old)) }
{
    let line = line_behind(body.line, count)?;
    body.line = line;
    Ok(())
}

/// The next symbol of the plan is the name of one that a step binds.
pub(crate) fn add_symbol(body: &mut Body<'_>, bound: Option<Sym>) -> Result<(), AllocError>
    ensures { OnOk result (spec.so_far body.new ≡ sched.with_symbol bound (spec.so_far body.old)) }
{
    match bound {
        Some(_symbol) => {
            let Some(next) = body.next_symbol.checked_add(1) else {
                return Err(AllocError);
            };
            body.next_symbol = next;
            Ok(())
        }
        None => Ok(()),
    }
}

/// How many symbols stand over the grid: one for each parallel loop, and one for each let behind these.
pub fn symbols_over(root: &Root<'_>) -> Result<Sym, AllocError>
    ensures { IfOk result (λ count. count ≡ length root.now.laid.now.skeleton.grid.items + length root.now.laid.now.skeleton.head.items) }
{
    let skeleton = &root.laid.skeleton;
    match skeleton.grid.len().checked_add(skeleton.head.len()) {
        Some(count) => Ok(count),
        None => Err(AllocError),
    }
}

/// The names, and behind them that of a symbol that is bound.
#[tactic(auto, using(crate::proofs::Nested::name_behind))]
pub(crate) fn with_name(
    alloc: Global,
    names: &[Renaming],
    bound: Option<Sym>,
    name: Sym,
) -> Result<Vec<Renaming>, AllocError>
    ensures { IfOk result (λ v. map pair_of v.items ≡ sched.with_name bound name (map pair_of names.now)) }
{
    let mut known = Vec::from_slice(alloc, names)?;
    match bound {
        Some(symbol) => {
            known.push(Renaming { symbol, name })?;
            Ok(known)
        }
        None => Ok(known),
    }
}

pub(crate) fn bound_by(step: &Step) -> Option<Sym>
    ensures { result ≡ sched.bound_by step.now }
{
    match step {
        Step::Turns { symbol, .. } | Step::Named { symbol, .. } => Some(*symbol),
        Step::Tested { .. } => None,
    }
}

/// The buffer of the function of this number by the last of these, or what was found before.
pub(crate) fn last_seat(found: Option<u64>, seats: &[Seat], number: usize) -> Option<u64>
    ensures { result ≡ last_value found (map spec.seat_of seats.now) number }
{
    match seats {
        [] => found,
        [one, rest @ ..] => {
            if one.number == number {
                last_seat(Some(one.buffer), rest, number)
            } else {
                last_seat(found, rest, number)
            }
        }
    }
}

// ---- statements

// The store of a definition at these coordinates, its calls as loads.
#[tactic(auto, using(crate::proofs::Nested::store_made, crate::proofs::Nested::store_unknown, crate::proofs::Nested::store_unindexed))]
fn store_in(
    alloc: Global,
    owner: &Owner<'_, '_>,
    loads: &[Load<'_>],
    definition: usize,
    at: &[Option<Lin>],
) -> Result<Stmt, Stop>
    ensures { Gives result statement_of (sched.store_in (spec.owner_seen owner.now) (map load_of loads.now) definition at.now) }
{
    let Some(formula) = owner.root.formulas.get(definition) else {
        return Err(Stop::Limit);
    };
    let variables = variables_of(alloc, owner.root.stored.function, definition)?;
    let coordinates = coordinates_of(alloc, &variables, at, &formula.at, loads)?;
    let value = loaded(alloc, &formula.value, loads)?;
    Ok(Stmt::Store {
        buffer: owner.buffer,
        definition: definition as u64,
        coordinates,
        value,
    })
}

/// The store of a definition at the coordinates of its nest.
#[tactic(auto, using(crate::proofs::Nested::stored_made))]
pub(crate) fn stored(
    alloc: Global,
    body: &mut Body<'_>,
    owner: &Owner<'_, '_>,
    definition: usize,
    nest: &Nest,
    names: &[Renaming],
) -> Result<Vec<Stmt>, Stop>
    ensures { Gives result (λ v. (list_statements v.items, spec.so_far body.new))
        (sched.stored (spec.owner_seen owner.now) definition (nest_seen nest.now) (map pair_of names.now) (spec.so_far body.old)) }
{
    let at = renamed_coordinates(alloc, names, &nest.at)?;
    let store = store_in(alloc, owner, &body.loads, definition, &at)?;
    add_lines(body, 1)?;
    Ok(alone(alloc, store)?)
}

/// Claims what the statements so far have made of a definition, by which the function is loaded from there on.
#[tactic(auto, using(crate::proofs::Nested::claim_made))]
pub(crate) fn claim<'a>(
    alloc: Global,
    body: &mut Body<'a>,
    owner: &Owner<'_, 'a>,
    definition: usize,
    names: &[Renaming],
) -> Result<(), Stop>
    ensures { Gives result (λ _. spec.so_far body.new) (sched.claimed (spec.owner_seen owner.now) definition (map pair_of names.now) (spec.so_far body.old)) }
{
    let region = renamed_region(alloc, names, owner.claimed)?;
    let number = body.next_claim;
    let Some(next) = number.checked_add(1) else {
        return Err(Stop::Memory);
    };
    let name = owner.root.stored.subject.name.as_str();
    let function = String::from_str(alloc, name)?;
    body.claims.push(Claim {
        line: body.line.saturating_sub(1),
        buffer: owner.buffer,
        function,
        definition: definition as u64,
        region,
    })?;
    body.loads.push(Load {
        function: name,
        claim: number,
    })?;
    body.next_claim = next;
    Ok(())
}

// The buffer of a function that is computed inside.
#[tactic(auto, using(crate::proofs::Nested::seated_made))]
fn seated(
    alloc: Global,
    body: &mut Body<'_>,
    number: usize,
    inner: &Inner<'_>,
    names: &[Renaming],
) -> Result<Vec<Stmt>, Stop>
    ensures { Gives result (λ v. (list_statements v.items, spec.so_far body.new))
        (spec.seated number (sched.inner_seen inner.now) (map pair_of names.now) (spec.so_far body.old)) }
{
    let places = renamed_places(alloc, names, &inner.places)?;
    let function = String::from_str(alloc, inner.root.stored.subject.name.as_str())?;
    let buffer = body.next_buffer;
    let Some(next) = buffer.checked_add(1) else {
        return Err(Stop::Memory);
    };
    let line = line_behind(body.line, 1)?;
    body.seats.push(Seat { number, buffer })?;
    body.line = line;
    body.next_buffer = next;
    Ok(alone(
        alloc,
        Stmt::Alloc {
            buffer,
            function,
            places,
        },
    )?)
}

/// Whether two places are the same.
pub fn is_same_spot(first: Spot, second: Spot) -> bool
    ensures { result ≡ spec.same_spot first second }
{
    is_same_host(first.host, second.host)
        && is_same_number(first.definition, second.definition)
        && first.depth == second.depth
}

// The buffer of a function that is stored at a place and computed further inside.
fn buffer_at(
    alloc: Global,
    body: &mut Body<'_>,
    spot: Spot,
    number: usize,
    inner: &Inner<'_>,
    names: &[Renaming],
) -> Result<Vec<Stmt>, Stop>
    ensures { Gives result (λ v. (list_statements v.items, spec.so_far body.new))
        (spec.buffer_at spot (map pair_of names.now) number (sched.inner_seen inner.now) (spec.so_far body.old)) }
{
    if is_same_spot(inner.store, spot) && !is_same_spot(inner.home, spot) {
        seated(alloc, body, number, inner, names)
    } else {
        Ok(Vec::new(alloc))
    }
}

/// The buffers of those functions before this number, the last first, that are stored at a place and computed further inside.
#[tactic(auto, using(crate::proofs::Nested::buffers_first, crate::proofs::Nested::buffers_none, crate::proofs::Nested::buffers_missing, crate::proofs::Nested::buffers_stop, crate::proofs::Nested::buffers_stop_later))]
pub(crate) fn buffers_at(
    alloc: Global,
    body: &mut Body<'_>,
    inners: &[Inner<'_>],
    spot: Spot,
    count: usize,
    names: &[Renaming],
) -> Result<Vec<Stmt>, Stop>
    ensures { Gives result (λ v. (list_statements v.items, spec.so_far body.new))
        (spec.buffers_at (map sched.inner_seen inners.now) spot (map pair_of names.now) (spec.numbers_down count) (spec.so_far body.old)) }
{
    let Some(last) = count.checked_sub(1) else {
        return Ok(Vec::new(alloc));
    };
    let Some(inner) = inners.get(last) else {
        return Err(Stop::Limit);
    };
    let mut first = buffer_at(alloc, body, spot, last, inner, names)?;
    let mut others = buffers_at(alloc, body, inners, spot, last, names)?;
    first.append(&mut others)?;
    Ok(first)
}

/// The buffer of a function that is computed at a place, where it is stored there too.
pub(crate) fn own_buffer(
    alloc: Global,
    body: &mut Body<'_>,
    spot: Spot,
    number: usize,
    inner: &Inner<'_>,
    names: &[Renaming],
) -> Result<Vec<Stmt>, Stop>
    ensures { Gives result (λ v. (list_statements v.items, spec.so_far body.new))
        (spec.own_buffer spot (map pair_of names.now) number (sched.inner_seen inner.now) (spec.so_far body.old)) }
{
    if is_same_spot(inner.store, spot) {
        seated(alloc, body, number, inner, names)
    } else {
        Ok(Vec::new(alloc))
    }
}

// ---- lets and windows

/// The names behind a step, and the step under them: its symbol has the next name, and its first line stands.
pub(crate) fn begun(
    alloc: Global,
    body: &mut Body<'_>,
    step: &Step,
    names: &[Renaming],
) -> Result<(Vec<Renaming>, Step), Stop>
    ensures names { IfOk result (λ v. map pair_of v.0.items ≡ sched.with_name (sched.bound_by step.now) (spec.so_far body.old).symbol (map pair_of names.now)) }
    ensures told { Gives result (λ v. v.1)
        (step_renamed (sched.with_name (sched.bound_by step.now) (spec.so_far body.old).symbol (map pair_of names.now)) step.now) }
    ensures counted { OnOk result (spec.so_far body.new ≡ sched.with_lines 1 (sched.with_symbol (sched.bound_by step.now) (spec.so_far body.old))) }
{
    let bound = bound_by(step);
    let names = with_name(alloc, names, bound, body.next_symbol)?;
    add_symbol(body, bound)?;
    add_lines(body, 1)?;
    let told = renamed_step(alloc, &names, step)?;
    Ok((names, told))
}

/// A step around what stands inside; where it takes a second line, that stands too.
pub(crate) fn ended(
    alloc: Global,
    body: &mut Body<'_>,
    told: &Step,
    inside: Vec<Stmt>,
) -> Result<Vec<Stmt>, AllocError>
    ensures made { IfOk result (λ v. list_statements v.items ≡ sched.around told.now (list_statements inside.items)) }
    ensures counted { OnOk result (spec.so_far body.new ≡ sched.with_lines (own_lines told.now - 1) (spec.so_far body.old)) }
{
    add_lines(body, own_lines(told).saturating_sub(1))?;
    with_step(alloc, told, inside)
}

/// Some lets, with the names behind them.
#[tactic(auto, using(crate::proofs::Nested::let_next, crate::proofs::Nested::let_stops))]
pub(crate) fn lets(
    alloc: Global,
    body: &mut Body<'_>,
    steps: &[Step],
    names: &[Renaming],
) -> Result<(Vec<Stmt>, Vec<Renaming>), Stop>
    ensures { Gives result (λ v. (list_statements v.0.items, (map pair_of v.1.items, spec.so_far body.new)))
        (sched.lets steps.now (map pair_of names.now) (spec.so_far body.old)) }
{
    match steps {
        [] => Ok((Vec::new(alloc), Vec::from_slice(alloc, names)?)),
        [step, rest @ ..] => {
            let (names, told) = begun(alloc, body, step, names)?;
            let (inside, behind) = lets(alloc, body, rest, &names)?;
            Ok((with_step(alloc, &told, inside)?, behind))
        }
    }
}

/// How many lets stand before the loops.
pub(crate) fn let_count(steps: &[Step]) -> Result<usize, AllocError>
    ensures { IfOk result (λ count. count ≡ spec.let_count steps.now) }
{
    match steps {
        [Step::Named { .. }, rest @ ..] => match let_count(rest)?.checked_add(1) {
            Some(count) => Ok(count),
            None => Err(AllocError),
        },
        _ => Ok(0),
    }
}

/// The lets before the loops of a nest, with the names behind them.
pub(crate) fn first_lets(
    alloc: Global,
    body: &mut Body<'_>,
    nest: &Nest,
    names: &[Renaming],
) -> Result<(Vec<Stmt>, Vec<Renaming>), Stop>
    ensures { Gives result (λ v. (list_statements v.0.items, (map pair_of v.1.items, spec.so_far body.new)))
        (spec.first_lets (nest_seen nest.now) (map pair_of names.now) (spec.so_far body.old)) }
{
    let Some(steps) = nest.steps.get(..let_count(&nest.steps)?) else {
        return Err(Stop::Limit);
    };
    lets(alloc, body, steps, names)
}

// The let for the first new number.
fn first_step(alloc: Global, later: &Later) -> Result<Step, AllocError>
    ensures { IfOk result (λ step. step ≡ Named (sched.later_seen later.now).new Min (sched.later_seen later.now).first_new) }
{
    Ok(Step::Named {
        symbol: later.scope.len().saturating_sub(1),
        pick: Pick::Min,
        forms: later.first_new.copy(alloc)?,
    })
}

pub(crate) fn first_let(
    alloc: Global,
    body: &mut Body<'_>,
    later: &Later,
    names: &[Renaming],
) -> Result<(Vec<Stmt>, Vec<Renaming>), Stop>
    ensures { Gives result (λ v. (list_statements v.0.items, (map pair_of v.1.items, spec.so_far body.new)))
        (sched.lets (Named (sched.later_seen later.now).new Min (sched.later_seen later.now).first_new ∷ []) (map pair_of names.now)
        (spec.so_far body.old)) }
{
    let step = first_step(alloc, later)?;
    lets(alloc, body, slice::from_ref(&step), names)
}

/// To how many places the last of these folds, 0 where there is none.
pub fn fold_of(folds: &[Fold]) -> u64
    ensures { result ≡ spec.fold_of folds.now }
{
    match folds {
        [] => 0,
        [fold] => u64::from(fold.factor),
        [_first, rest @ ..] => fold_of(rest),
    }
}

/// The window of the last claim.
#[tactic(auto, using(crate::proofs::Nested::held_made))]
pub(crate) fn hold(
    alloc: Global,
    body: &mut Body<'_>,
    inner: &Inner<'_>,
    later: &Later,
    names: &[Renaming],
) -> Result<(), Stop>
    ensures { Gives result (λ _. spec.so_far body.new)
        (spec.held (sched.inner_seen inner.now) (sched.later_seen later.now) (map pair_of names.now) (spec.so_far body.old)) }
{
    let Some(span) = inner.region.as_slice().get(later.dimension) else {
        return Err(Stop::Limit);
    };
    let span = renamed_span(alloc, names, span)?;
    let turn = name_in(names, later.symbol)?;
    body.windows.push(Window {
        claim: body.next_claim.saturating_sub(1),
        symbol: turn,
        dimension: later.dimension as u64,
        fold: fold_of(&inner.root.stored.placed.folds),
        span,
    })?;
    Ok(())
}
