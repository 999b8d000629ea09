//! Steps taken away one after another, till the spans are those of all turns.

ghost use Rattle.std.specs.Prelude.{◌≡◌, ◌<◌, length, false, IfOk, Some};
ghost use Rattle.std.specs.Option.{option_map};
ghost use Rattle.tails.specs.Moves.{by_guard, by_idle, by_let, by_loop, next, run};
ghost use Rattle.tails.specs.Held.{others_at, pendings_of};
ghost use Rattle.tails.specs.States.{state_of};

use crate::choosing::best;
use crate::guards::guard_spans;
use crate::naming::{is_idle, let_spans};
use crate::pending::{Pending, others_of};
use crate::shown::Shows;
use crate::spans::{self, Spans};
use crate::turns::taken;
use std::alloc::{AllocError, Global};

/// The steps that are still to be taken, the innermost first, and the span of each coordinate.
#[derive(Drop)]
pub(crate) struct State<'a> {
    pub steps: Vec<Pending<'a>>,
    pub spans: Spans,
}

/// The same steps.
pub(crate) fn copied<'a>(
    alloc: Global,
    steps: &[Pending<'a>],
) -> Result<Vec<Pending<'a>>, AllocError>
    ensures { IfOk result (λ all. all.items ≡ steps.now) }
{
    let mut all = Vec::new(alloc);
    for step in steps {
        all.push(*step)?;
    }
    Ok(all)
}

/// The steps but the one of this number.
#[tactic(auto, using(crate::proofs::Lists::others_are))]
fn others_at<'a>(
    alloc: Global,
    steps: &[Pending<'a>],
    place: usize,
) -> Result<Vec<Pending<'a>>, AllocError>
    requires { place < length steps.now }
    ensures { IfOk result (λ all. pendings_of all.items ≡ others_at steps.now place) }
{
    let mut all = copied(alloc, steps)?;
    let _ = all.remove(place);
    Ok(all)
}

/// The steps but the one of this number, with the spans that are left when that one is taken.
fn onward<'a>(
    alloc: Global,
    steps: &[Pending<'a>],
    place: usize,
    spans: Spans,
) -> Result<Option<State<'a>>, AllocError>
    requires { place < length steps.now }
    ensures { IfOk result (λ later. option_map state_of later ≡ Some (record { steps = others_at steps.now place; spans = spans })) }
{
    Ok(Some(State {
        steps: others_at(alloc, steps, place)?,
        spans,
    }))
}

/// The state when a guard is taken, the innermost that may be.
#[tactic(auto, using(crate::proofs::Lists::guards_all, crate::proofs::Lists::guards_more, crate::proofs::Lists::guards_here, crate::proofs::Lists::guards_end))]
fn by_guard<'a, S: Shows>(
    alloc: Global,
    exact: bool,
    shows: &S,
    state: &State<'a>,
) -> Result<Option<State<'a>>, AllocError>
    ensures { IfOk result (λ later. option_map state_of later ≡ by_guard exact (S.shows shows.now) (state_of state.now)) }
{
    let steps = state.steps.as_slice();
    for k in 0..steps.len() {
        let others = others_of(steps, k);
        let spans = state.spans.as_slice();
        if let Some(spans) = guard_spans(alloc, exact, shows, spans, &steps[k], &others)? {
            return onward(alloc, steps, k, spans);
        }
    }
    Ok(None)
}

/// The state when a loop is taken, the one of the smallest factor.
#[tactic(auto, using(crate::proofs::Picking::loop_here, crate::proofs::Picking::loop_stuck, crate::proofs::Picking::no_loop))]
fn by_loop<'a>(
    alloc: Global,
    exact: bool,
    state: &State<'a>,
) -> Result<Option<State<'a>>, AllocError>
    ensures { IfOk result (λ later. option_map state_of later ≡ by_loop exact (λ a b. false) (state_of state.now)) }
{
    let steps = state.steps.as_slice();
    let Some(turns) = best(state.spans.as_slice(), steps) else {
        return Ok(None);
    };
    match taken(alloc, exact, &turns, state.spans.as_slice())? {
        Some(spans) => onward(alloc, steps, turns.place, spans),
        None => Ok(None),
    }
}

/// The state when a name is gone that nothing has, the innermost of them.
#[tactic(auto, using(crate::proofs::Lists::idles_all, crate::proofs::Lists::idles_more, crate::proofs::Lists::idles_here, crate::proofs::Lists::idles_end))]
fn by_idle<'a>(alloc: Global, state: &State<'a>) -> Result<Option<State<'a>>, AllocError>
    ensures { IfOk result (λ later. option_map state_of later ≡ by_idle (state_of state.now)) }
{
    let steps = state.steps.as_slice();
    for k in 0..steps.len() {
        let others = others_of(steps, k);
        let spans = state.spans.as_slice();
        if is_idle(spans, &steps[k], &others) {
            return onward(alloc, steps, k, spans::copied(alloc, spans)?);
        }
    }
    Ok(None)
}

/// The state when a name is taken, the innermost that may be.
#[tactic(auto, using(crate::proofs::Lists::lets_all, crate::proofs::Lists::lets_more, crate::proofs::Lists::lets_here, crate::proofs::Lists::lets_end))]
fn by_let<'a>(
    alloc: Global,
    exact: bool,
    state: &State<'a>,
) -> Result<Option<State<'a>>, AllocError>
    ensures { IfOk result (λ later. option_map state_of later ≡ by_let exact (λ a b. false) (state_of state.now)) }
{
    let steps = state.steps.as_slice();
    for k in 0..steps.len() {
        let others = others_of(steps, k);
        let spans = state.spans.as_slice();
        if let Some(spans) = let_spans(alloc, exact, spans, &steps[k], &others)? {
            return onward(alloc, steps, k, spans);
        }
    }
    Ok(None)
}

/// The state when one more step is taken, if one may be.
#[tactic(auto, using(crate::proofs::Alike::loop_plain, crate::proofs::Alike::let_plain))]
fn next<'a, S: Shows>(
    alloc: Global,
    exact: bool,
    shows: &S,
    state: &State<'a>,
) -> Result<Option<State<'a>>, AllocError>
    ensures { IfOk result (λ later. option_map state_of later ≡ next exact (S.shows shows.now) (state_of state.now)) }
{
    if let Some(later) = by_guard(alloc, exact, shows, state)? {
        return Ok(Some(later));
    }
    if let Some(later) = by_idle(alloc, state)? {
        return Ok(Some(later));
    }
    if let Some(later) = by_loop(alloc, exact, state)? {
        return Ok(Some(later));
    }
    by_let(alloc, exact, state)
}

/// The spans when all steps are taken, of at most so many.
#[tactic(auto, using(crate::proofs::Lists::run_out, crate::proofs::Lists::run_done, crate::proofs::Lists::run_on, crate::proofs::Lists::run_stuck))]
pub(crate) fn run<S: Shows>(
    alloc: Global,
    exact: bool,
    shows: &S,
    most: usize,
    state: State<'_>,
) -> Result<Option<Spans>, AllocError>
    ensures { IfOk result (λ spans. spans ≡ run exact (S.shows shows.now) most (state_of state.entry)) }
{
    if state.steps.is_empty() {
        return Ok(Some(state.spans));
    }
    if most == 0 {
        return Ok(None);
    }
    match next(alloc, exact, shows, &state)? {
        Some(later) => run(alloc, exact, shows, most - 1, later),
        None => Ok(None),
    }
}
