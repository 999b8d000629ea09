//! Split maps: the points that the turns of split loops visit.

ghost use Rattle.std.specs.Prelude.{◌≡◌, map, IfOk};
ghost use Rattle.soundness.specs.Obligations.{exactly};
ghost use Rattle.soundness.specs.Binders.View.{binders_of};
ghost use Rattle.tails.specs.Steps.{along, binder};
ghost use Rattle.tails.specs.Moves.{is_outer, paired, reached, spans_over};
ghost use Rattle.tails.specs.Maps.{covers, is_once, is_scoped};
ghost use Rattle.tails.specs.Order.{is_ordered};
ghost use Rattle.tails.specs.View.{step_of};
ghost use Rattle.tails.specs.SplitMaps.{forms_of, steps_of};

use crate::descent::Step;
use crate::guarded::{along, in_order, paired};
use crate::moves::{State, run};
use crate::order::spans_rising;
use crate::pending::{is_outer, is_scoped};
use crate::regions::lies_within;
use crate::shown::{Nothing, Shows, Within};
use crate::spans::Spans;
use lin::{Forms, Lin, Span1};
use soundness::binders::{Binder, Bounds};
use std::alloc::{AllocError, Global};

/// The points that the turns of split loops visit: one for each turn, in the order of the turns.
#[derive(Drop)]
pub struct SplitMap<'a> {
    /// The loops, names and guards, the outermost first.
    pub steps: Vec<Step<'a>>,
    /// What the coordinates are at a turn.
    pub forms: Vec<&'a Lin>,
}

/// The span of one number.
pub fn exactly(alloc: Global, form: &Lin) -> Result<Span1, AllocError>
    ensures { IfOk result (λ span. span ≡ exactly form.now) }
{
    let mut lower = Forms::new(alloc);
    lower.push(form.copy(alloc)?)?;
    let upper = lower.copy(alloc)?;
    Ok(Span1 { lower, upper })
}

/// The spans of these numbers, each alone.
pub(crate) fn each_exactly(alloc: Global, forms: &[&Lin]) -> Result<Spans, AllocError>
    ensures { IfOk result (λ spans. spans ≡ map exactly (map (λ f. f.now) forms.now)) }
{
    match forms {
        [] => Ok(Spans::new(alloc)),
        [first, rest @ ..] => {
            let span = exactly(alloc, first)?;
            each_exactly(alloc, rest)?.behind(span)
        }
    }
}

/// The spans over all turns of the steps.
#[tactic(auto, using(crate::proofs::Lists::as_many))]
fn spans_over<S: Shows>(
    alloc: Global,
    exact: bool,
    shows: &S,
    steps: &[Step<'_>],
    forms: &[&Lin],
) -> Result<Option<Spans>, AllocError>
    ensures { IfOk result (λ spans. spans ≡ spans_over exact (S.shows shows.now) (paired (along (map step_of steps.now))) (map (λ f. f.now) forms.now)) }
{
    let all = along(alloc, steps)?;
    let steps = paired(alloc, &all)?;
    let spans = each_exactly(alloc, forms)?;
    run(alloc, exact, shows, steps.len(), State { steps, spans })
}

impl SplitMap<'_> {
    /// Whether each step names symbols of earlier ones and of what is around alone, and binds a new one.
    pub fn is_scoped(&self, alloc: Global) -> Result<bool, AllocError>
        ensures { IfOk result (λ yes. yes ≡ is_scoped (map binder (steps_of self.now))) }
    {
        Ok(is_scoped(&in_order(alloc, &self.steps)?))
    }

    /// Whether no step binds a symbol of the form.
    pub fn is_around(&self, alloc: Global, form: &Lin) -> Result<bool, AllocError>
        ensures { IfOk result (λ yes. yes ≡ is_outer (along (steps_of self.now)) form.now) }
    {
        Ok(is_outer(&along(alloc, &self.steps)?, form))
    }

    /// For each coordinate a span of which every number is reached: each point of which every coordinate lies in its span is met at
    /// some turn. None where that is not shown.
    pub fn reached<S: Shows>(&self, alloc: Global, shows: &S) -> Result<Option<Spans>, AllocError>
        ensures { IfOk result (λ spans. spans ≡ reached (S.shows shows.now) (steps_of self.now) (forms_of self.now)) }
    {
        spans_over(alloc, false, shows, &self.steps, &self.forms)
    }

    /// Whether each point of the region is shown to be visited, whatever the symbols of the binders around stand for.
    pub fn covers<B: Bounds>(
        &self,
        alloc: Global,
        bounds: &B,
        binders: &[Binder<'_>],
        region: &[Span1],
    ) -> Result<bool, AllocError>
        ensures { IfOk result (λ yes. yes ≡ covers (B.rules bounds.now) (binders_of binders.now) (steps_of self.now) (forms_of self.now) region.now) }
    {
        if !self.is_scoped(alloc)? {
            return Ok(false);
        }
        match self.reached(alloc, &Within { bounds, binders })? {
            Some(spans) => lies_within(alloc, bounds, binders, region, spans.as_slice()),
            None => Ok(false),
        }
    }

    /// Whether it is shown that no point is visited twice.
    pub fn once(&self, alloc: Global) -> Result<bool, AllocError>
        ensures { IfOk result (λ yes. yes ≡ is_once (steps_of self.now) (forms_of self.now)) }
    {
        if !self.is_scoped(alloc)? {
            return Ok(false);
        }
        match spans_over(alloc, true, &Nothing, &self.steps, &self.forms)? {
            Some(_) => Ok(true),
            None => Ok(false),
        }
    }

    /// Whether it is shown that the points rise: none is before one that was visited earlier, whatever the symbols around stand for.
    /// Of two points the last coordinate in which they differ tells which comes first, as a reduction's points are walked, the first
    /// coordinate fastest. A point that comes again is no fault.
    pub fn ordered(&self, alloc: Global) -> Result<bool, AllocError>
        ensures { IfOk result (λ yes. yes ≡ is_ordered (steps_of self.now) (forms_of self.now)) }
    {
        match spans_rising(alloc, &self.steps, &self.forms)? {
            Some(_) => Ok(true),
            None => Ok(false),
        }
    }
}
