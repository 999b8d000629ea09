//! The tests that a nest of split loops does an update's steps in turn, and makes its claim from the definition before.

ghost use Rattle.std.specs.Prelude.{◌≡◌, ◌<◌, ◌&&◌, ◌==◌, length, map, IfOk};
ghost use Rattle.std.specs.List.{list_all};
ghost use Rattle.tree.specs.Term.{term_of};
ghost use Rattle.algo.specs.View.{algorithm_of};
ghost use Rattle.plan.specs.Plan.{Store};
ghost use Rattle.plan.specs.View.{coordinate_of, statement_of};
ghost use Rattle.plan.specs.Certificate.Certificate.{claim_of};
ghost use Rattle.soundness.specs.Obligations.{is_next};
ghost use Rattle.soundness.specs.Binders.View.{binders_of};
ghost use Rattle.soundness.specs.Nests.Laws.{domains_of};
ghost use Rattle.soundness.specs.Outline.View.{outline_in};
ghost use Rattle.tails.specs.Steps.{binder, spine_of};
ghost use Rattle.tails.specs.Moves.{is_outer};
ghost use Rattle.tails.specs.Maps.{covers, is_beyond, is_once, is_scoped};
ghost use Rattle.tails.specs.Apart.{is_apart};
ghost use Rattle.tails.specs.Updates.{at_forms, forms_in, is_in_steps, is_parted, is_spread, is_stepped, makes_update, pure_steps};
ghost use Rattle.tails.specs.View.{step_of};
ghost use Rattle.tails.specs.Held.{pendings_of};

use crate::apart::{binder_of, is_apart};
use crate::descent::{Spine, Step, spine_of};
use crate::domains::domain_of;
use crate::guarded::in_order;
use crate::maps::SplitMap;
use crate::pending::{Pending, are_beyond, is_outer, is_scoped};
use crate::reduction::{is_reduced, pure_steps, reducing};
use crate::sides::{forms_in, left_of, over_of, spans_in};
use algo::Algo;
use algo::scoping::same_name;
use lin::{Lin, Span1};
use plan::certificate::Claim;
use plan::{Coordinate, Stmt};
use soundness::binders::{Binder, Bounds};
use soundness::outline::Outlined;
use std::alloc::{AllocError, Global};
use tree::Expr;

/// Whether the forms have no symbol that the steps bind.
fn forms_are_outer(steps: &[Pending<'_>], forms: &[&Lin]) -> bool
    ensures { result ≡ list_all (is_outer (pendings_of steps.now)) (map (λ f. f.now) forms.now) }
{
    match forms {
        [] => true,
        [first, rest @ ..] => is_outer(steps, first) && forms_are_outer(steps, rest),
    }
}

/// Whether these steps have nothing to do with the symbols of the loops.
fn are_apart(loops: &[Pending<'_>], steps: &[Step<'_>]) -> bool
    ensures { result ≡ list_all (is_apart (pendings_of loops.now)) (map binder (map step_of steps.now)) }
{
    match steps {
        [] => true,
        [first, rest @ ..] => is_apart(loops, &binder_of(first)) && are_apart(loops, rest),
    }
}

/// Whether the loops have ends over symbols around all steps, and none of the other steps and no form has their symbols.
fn are_parted(
    all: &[Pending<'_>],
    loops: &[Pending<'_>],
    others: &[Step<'_>],
    forms: &[&Lin],
) -> bool
    ensures { result ≡ (list_all (is_beyond (pendings_of all.now)) (pendings_of loops.now) && (list_all (is_apart (pendings_of loops.now)) (map binder (map step_of others.now)) && list_all (is_outer (pendings_of loops.now)) (map (λ f. f.now) forms.now))) }
{
    are_beyond(all, loops) && (are_apart(loops, others) && forms_are_outer(loops, forms))
}

/// Whether the loops of the reduction have ends over symbols around all steps, and no other step and no form has their symbols.
fn is_parted(
    alloc: Global,
    over: &[Coordinate],
    steps: &[Step<'_>],
    forms: &[&Lin],
) -> Result<bool, AllocError>
    ensures { IfOk result (λ yes. yes ≡ is_parted (map coordinate_of over.now) (map step_of steps.now) (map (λ f. f.now) forms.now)) }
{
    let all = in_order(alloc, steps)?;
    let loops = in_order(alloc, &reducing(alloc, over, steps)?)?;
    let others = pure_steps(alloc, over, steps)?;
    Ok(are_parted(&all, &loops, &others, forms))
}

/// Whether at each point of the reduction the other steps meet no point twice.
fn is_once<'a>(
    alloc: Global,
    over: &[Coordinate],
    steps: &[Step<'a>],
    left: &'a [Coordinate],
) -> Result<bool, AllocError>
    ensures { IfOk result (λ yes. yes ≡ is_once (pure_steps (map coordinate_of over.now) (map step_of steps.now)) (forms_in (map coordinate_of left.now))) }
{
    let map = SplitMap {
        steps: pure_steps(alloc, over, steps)?,
        forms: forms_in(alloc, left)?,
    };
    map.once(alloc)
}

/// Whether the steps are those of a reduction in its order, with others that meet no point twice.
fn is_turned<'a>(
    alloc: Global,
    over: &[Coordinate],
    steps: &[Step<'a>],
    left: &'a [Coordinate],
) -> Result<bool, AllocError>
    ensures { IfOk result (λ yes. yes ≡ (is_scoped (map binder (map step_of steps.now)) && (is_parted (map coordinate_of over.now) (map step_of steps.now) (forms_in (map coordinate_of left.now)) && is_once (pure_steps (map coordinate_of over.now) (map step_of steps.now)) (forms_in (map coordinate_of left.now))))) }
{
    if !is_scoped(&in_order(alloc, steps)?) {
        return Ok(false);
    }
    if is_parted(alloc, over, steps, &forms_in(alloc, left)?)? {
        is_once(alloc, over, steps, left)
    } else {
        Ok(false)
    }
}

/// Whether a store of an update, with these steps round it, does each step of the claim's definition in its turn.
#[tactic(auto, using(crate::proofs::Stores::stepped_by))]
fn steps_on<'a, B: Bounds>(
    alloc: Global,
    bounds: &B,
    outlined: &Outlined<'_>,
    algo: &Algo,
    binders: &[Binder<'_>],
    claim: &Claim,
    steps: &[Step<'a>],
    buffer: u64,
    definition: u64,
    coordinates: &'a [Coordinate],
    value: &Expr,
) -> Result<bool, AllocError>
    requires { 0 < definition }
    ensures { IfOk result (λ yes. yes ≡ is_stepped (outline_in outlined.now).setting (B.rules bounds.now) (domains_of (algorithm_of algo.now)) (binders_of binders.now) (claim_of claim.now) (map step_of steps.now) (Store buffer definition (map coordinate_of coordinates.now) (term_of value.now))) }
{
    if claim.definition != definition {
        return Ok(false);
    }
    if !same_name(outlined.buffer_function(buffer), claim.function.as_str()) {
        return Ok(false);
    }
    let count = outlined.dimensions(buffer);
    let over = over_of(coordinates, count);
    let domain = domain_of(algo, claim.function.as_str(), definition);
    if is_reduced(alloc, bounds, binders, domain, over, steps)? {
        is_turned(alloc, over, steps, left_of(coordinates, count))
    } else {
        Ok(false)
    }
}

/// Whether the line, with these steps round it, is a store of an update that does each step of the claim's definition in its turn.
#[tactic(auto, using(crate::proofs::Stores::pure_unstepped))]
fn is_stepped<'a, B: Bounds>(
    alloc: Global,
    bounds: &B,
    outlined: &Outlined<'_>,
    algo: &Algo,
    binders: &[Binder<'_>],
    claim: &Claim,
    steps: &[Step<'a>],
    line: &'a Stmt,
) -> Result<bool, AllocError>
    ensures { IfOk result (λ yes. yes ≡ is_stepped (outline_in outlined.now).setting (B.rules bounds.now) (domains_of (algorithm_of algo.now)) (binders_of binders.now) (claim_of claim.now) (map step_of steps.now) (statement_of line.now)) }
{
    match line {
        Stmt::Store {
            buffer,
            definition,
            coordinates,
            value,
        } => {
            if *definition == 0 {
                Ok(false)
            } else {
                steps_on(
                    alloc,
                    bounds,
                    outlined,
                    algo,
                    binders,
                    claim,
                    steps,
                    *buffer,
                    *definition,
                    coordinates,
                    value,
                )
            }
        }
        _ => Ok(false),
    }
}

/// Whether the steps but those of the reduction meet each point of the region.
#[tactic(auto, using(crate::proofs::Stores::mapped_length))]
fn meets_all<'a, B: Bounds>(
    alloc: Global,
    bounds: &B,
    binders: &[Binder<'_>],
    region: &[Span1],
    steps: &[Step<'a>],
    left: &'a [Coordinate],
    over: &[Coordinate],
) -> Result<bool, AllocError>
    ensures { IfOk result (λ yes. yes ≡ ((length (map coordinate_of left.now) == length region.now) && covers (B.rules bounds.now) (binders_of binders.now) (pure_steps (map coordinate_of over.now) (map step_of steps.now)) (forms_in (map coordinate_of left.now)) (at_forms (map coordinate_of left.now) region.now))) }
{
    if left.len() != region.len() {
        return Ok(false);
    }
    let map = SplitMap {
        steps: pure_steps(alloc, over, steps)?,
        forms: forms_in(alloc, left)?,
    };
    let spans = spans_in(alloc, left, region)?;
    map.covers(alloc, bounds, binders, spans.as_slice())
}

/// Whether the line is a store, and the steps round it but those of the reduction meet each point of the claim's region.
fn is_spread<'a, B: Bounds>(
    alloc: Global,
    bounds: &B,
    outlined: &Outlined<'_>,
    binders: &[Binder<'_>],
    claim: &Claim,
    steps: &[Step<'a>],
    line: &'a Stmt,
) -> Result<bool, AllocError>
    ensures { IfOk result (λ yes. yes ≡ is_spread (outline_in outlined.now).setting (B.rules bounds.now) (binders_of binders.now) (claim_of claim.now) (map step_of steps.now) (statement_of line.now)) }
{
    match line {
        Stmt::Store {
            buffer,
            coordinates,
            ..
        } => {
            let count = outlined.dimensions(*buffer);
            let left = left_of(coordinates, count);
            let over = over_of(coordinates, count);
            let region = claim.region.as_slice();
            meets_all(alloc, bounds, binders, region, steps, left, over)
        }
        _ => Ok(false),
    }
}

/// Whether the definition is the one after another.
fn is_next(before: u64, definition: u64) -> bool
    ensures { result ≡ is_next before definition }
{
    match definition.checked_sub(1) {
        None => false,
        Some(last) => last == before,
    }
}

/// Whether the statement, by its one line that changes the claim's buffer, does each step of the claim's definition in its turn.
pub(crate) fn is_in_steps<B: Bounds>(
    alloc: Global,
    bounds: &B,
    outlined: &Outlined<'_>,
    algo: &Algo,
    binders: &[Binder<'_>],
    claim: &Claim,
    by: &Stmt,
) -> Result<bool, AllocError>
    ensures { IfOk result (λ yes. yes ≡ is_in_steps (outline_in outlined.now).setting (B.rules bounds.now) (domains_of (algorithm_of algo.now)) (binders_of binders.now) (claim_of claim.now) (spine_of (statement_of by.now) (claim_of claim.now).buffer)) }
{
    match spine_of(alloc, by, claim.buffer)? {
        Some(Spine { steps, line }) => {
            is_stepped(alloc, bounds, outlined, algo, binders, claim, &steps, line)
        }
        None => Ok(false),
    }
}

/// Whether the line, with these steps round it, does each step of the claim's definition in its turn at each point of its region.
fn is_advanced<'a, B: Bounds>(
    alloc: Global,
    bounds: &B,
    outlined: &Outlined<'_>,
    algo: &Algo,
    binders: &[Binder<'_>],
    claim: &Claim,
    steps: &[Step<'a>],
    line: &'a Stmt,
) -> Result<bool, AllocError>
    ensures { IfOk result (λ yes. yes ≡ (is_stepped (outline_in outlined.now).setting (B.rules bounds.now) (domains_of (algorithm_of algo.now)) (binders_of binders.now) (claim_of claim.now) (map step_of steps.now) (statement_of line.now) && is_spread (outline_in outlined.now).setting (B.rules bounds.now) (binders_of binders.now) (claim_of claim.now) (map step_of steps.now) (statement_of line.now))) }
{
    if is_stepped(alloc, bounds, outlined, algo, binders, claim, steps, line)? {
        is_spread(alloc, bounds, outlined, binders, claim, steps, line)
    } else {
        Ok(false)
    }
}

/// Whether the statement, by its one line that changes the claim's buffer, makes the claim from the definition `before`.
pub(crate) fn makes_update<B: Bounds>(
    alloc: Global,
    bounds: &B,
    outlined: &Outlined<'_>,
    algo: &Algo,
    binders: &[Binder<'_>],
    claim: &Claim,
    before: u64,
    by: &Stmt,
) -> Result<bool, AllocError>
    ensures { IfOk result (λ yes. yes ≡ makes_update (outline_in outlined.now).setting (B.rules bounds.now) (domains_of (algorithm_of algo.now)) (binders_of binders.now) (claim_of claim.now) before (spine_of (statement_of by.now) (claim_of claim.now).buffer)) }
{
    match spine_of(alloc, by, claim.buffer)? {
        Some(Spine { steps, line }) => {
            if is_next(before, claim.definition) {
                is_advanced(alloc, bounds, outlined, algo, binders, claim, &steps, line)
            } else {
                Ok(false)
            }
        }
        None => Ok(false),
    }
}
