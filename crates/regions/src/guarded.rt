//! What a guarded split says of its loop's numbers, also where no guard has to stand for it.

ghost use Rattle.std.specs.Prelude.{◌≡◌, ◌++◌, [], IfOk, OnOk, length, map};
ghost use Rattle.std.specs.List.{list_any};
ghost use Rattle.sched.specs.Skeleton.{nest_seen};
ghost use Rattle.sched.specs.Around.{bind_steps as bound_by};
ghost use Rattle.regions.specs.Guarded as spec;
ghost use Rattle.sched.specs.Limited.{Gives, Tells};
ghost use Rattle.sched.specs.Stored.{stored_of};

use crate::forms::MOST_FORMS;
use crate::standing::all_limited;
use lin::{Forms, Lin, Multiple, Region, Scope, Span1, Sym};
use plan::Pick;
use sched::ends::summed;
use sched::forms::{told_forms, two_forms};
use sched::roots::Root;
use sched::scopes::bind_steps;
use sched::stop::Stop;
use sched::{Nest, Split, Step, Tail};
use std::alloc::{AllocError, Global};
use tree::token::Name;

/// Over what the nests of a function go, and what stands around them.
#[derive(Clone, Copy, Drop)]
pub(crate) struct Over<'b> {
    pub scope: &'b Scope,
    pub region: &'b Region,
    /// The first symbol that stands inside of the place for which the nests are asked.
    pub from: Sym,
}

/// The steps of a nest, in which positions are told to be at most the last numbers of their loops.
#[derive(Drop)]
pub(crate) struct Told {
    pub steps: Vec<Step>,
    pub next: Sym,
}

// ---- the last number

// Whether the split is one of the variable's loop with `guard`.
fn is_guarding(cut: &Split, variable: &Name) -> bool
    ensures { result ≡ spec.is_guarding variable.now cut.now }
{
    match cut.tail {
        Tail::Guard => cut.whole.as_str() == variable.as_str(),
        Tail::Roundup | Tail::Shift => false,
    }
}

fn is_guarded(cuts: &[Split], variable: &Name) -> bool
    ensures { result ≡ list_any (spec.is_guarding variable.now) cuts.now }
{
    cuts.iter().any(|cut| is_guarding(cut, variable))
}

// The form where there is one alone.
fn only(alloc: Global, forms: &[Lin]) -> Result<Option<Lin>, AllocError>
    ensures { IfOk result (λ form. form ≡ spec.only forms.now) }
{
    match forms {
        [form] => Ok(Some(form.copy(alloc)?)),
        [] | [_, _, ..] => Ok(None),
    }
}

// The form that bounds show to be the last number of a span; none where it is not one.
fn last_of(alloc: Global, scope: &Scope, span: &Span1) -> Result<Option<Lin>, AllocError>
    ensures { IfOk result (λ form. form ≡ spec.last_of scope.now span.now) }
{
    let upper = told_forms(alloc, scope, &span.upper, Pick::Min)?;
    only(alloc, upper.as_slice())
}

fn last_if(
    alloc: Global,
    is_guarded: bool,
    scope: &Scope,
    span: &Span1,
) -> Result<Option<Lin>, AllocError>
    ensures { IfOk result (λ form. form ≡ spec.last_if is_guarded scope.now span.now) }
{
    if is_guarded {
        last_of(alloc, scope, span)
    } else {
        Ok(None)
    }
}

// The last number of a dimension whose loop is split with `guard`; none where that is not one form.
fn last_number(
    alloc: Global,
    root: &Root<'_>,
    over: Over<'_>,
    dimension: usize,
) -> Result<Option<Lin>, AllocError>
    ensures { IfOk result (λ form. form ≡ spec.last_number (stored_of root.now.stored.now) over.entry.scope.now over.entry.region.now dimension) }
{
    let Some(variable) = root.stored.subject.variables.get(dimension) else {
        return Ok(None);
    };
    let Some(span) = over.region.as_slice().get(dimension) else {
        return Ok(None);
    };
    let is_guarded = is_guarded(&root.stored.placed.cuts, variable);
    last_if(alloc, is_guarded, over.scope, span)
}

// ---- positions

// Whether the step is the loop of this symbol, and has room for one more upper form.
fn is_open_loop(step: &Step, of: Sym) -> bool
    ensures { result ≡ spec.is_open_loop of step.now }
{
    match step {
        Step::Turns { symbol, span, .. } => {
            *symbol == of && span.upper.as_slice().len() < MOST_FORMS
        }
        Step::Named { .. } | Step::Tested { .. } => false,
    }
}

fn has_open_loop(steps: &[Step], of: Sym) -> bool
    ensures { result ≡ list_any (spec.is_open_loop of) steps.now }
{
    steps.iter().any(|step| is_open_loop(step, of))
}

// The symbol of the term, where it is that of such a loop and counts once.
fn open_term(steps: &[Step], term: &Multiple) -> Option<Sym>
    ensures { result ≡ spec.open_term steps.now term.now }
{
    if term.factor == 1 && has_open_loop(steps, term.symbol) {
        Some(term.symbol)
    } else {
        None
    }
}

// The last symbol of the form, where it is that of such a loop and counts once.
fn innermost(steps: &[Step], form: &Lin) -> Option<Sym>
    ensures { result ≡ spec.innermost steps.now form.now }
{
    match form.terms().last() {
        Some(term) => open_term(steps, term),
        None => None,
    }
}

fn is_from(terms: &[Multiple], from: Sym) -> bool
    ensures { result ≡ list_any (spec.is_from from) terms.now }
{
    terms.iter().any(|term| term.symbol >= from)
}

// Whether the form has several symbols, and one that stands inside of the place.
fn is_joined(form: &Lin, from: Sym) -> bool
    ensures { result ≡ spec.is_joined from form.now }
{
    form.terms().len() > 1 && is_from(form.terms(), from)
}

impl Told {
    // A further upper form of the loop.
    pub(crate) fn keep_by_loop(
        &mut self,
        alloc: Global,
        of: Sym,
        form: &Lin,
        last: &Lin,
    ) -> Result<Lin, Stop>
        ensures { Gives result (λ at. (at, spec.told_seen self.new)) (spec.keep_by_loop of form.now last.now (spec.told_seen self.old)) }
    {
        let rest = form.without(alloc, of)?;
        let limit = summed(alloc, last, -1, &rest)?;
        let at = form.copy(alloc)?;
        self.steps = all_limited(alloc, &self.steps, of, &limit)?;
        Ok(at)
    }

    // A symbol for the smaller of the position and the last number.
    pub(crate) fn keep_by_let(
        &mut self,
        alloc: Global,
        form: &Lin,
        last: &Lin,
    ) -> Result<Lin, AllocError>
        ensures { IfOk result (λ at. (at, spec.told_seen self.new) ≡ spec.keep_by_let form.now last.now (spec.told_seen self.old)) }
    {
        let symbol = self.next;
        let Some(next) = symbol.checked_add(1) else {
            return Err(AllocError);
        };
        let forms = two_forms(alloc, form.copy(alloc)?, last.copy(alloc)?)?;
        self.next = next;
        self.steps.push(Step::Named {
            symbol,
            pick: Pick::Min,
            forms,
        })?;
        Lin::symbol(alloc, symbol)
    }

    // By a further upper form of the innermost loop, or by a let.
    fn keep_by(
        &mut self,
        alloc: Global,
        of: Option<Sym>,
        form: &Lin,
        last: &Lin,
    ) -> Result<Lin, Stop>
        ensures { Gives result (λ at. (at, spec.told_seen self.new)) (spec.keep_by of form.now last.now (spec.told_seen self.old)) }
    {
        match of {
            Some(symbol) => self.keep_by_loop(alloc, symbol, form, last),
            None => Ok(self.keep_by_let(alloc, form, last)?),
        }
    }

    // The position, at most the last number. What stands outside of the place, or is a symbol alone, stays as it is.
    pub(crate) fn keep(
        &mut self,
        alloc: Global,
        from: Sym,
        form: &Lin,
        last: &Lin,
    ) -> Result<Lin, Stop>
        ensures { Gives result (λ at. (at, spec.told_seen self.new)) (spec.keep from form.now last.now (spec.told_seen self.old)) }
    {
        if !is_joined(form, from) {
            return Ok(form.copy(alloc)?);
        }
        let of = innermost(&self.steps, form);
        self.keep_by(alloc, of, form, last)
    }

    fn keep_if(
        &mut self,
        alloc: Global,
        from: Sym,
        form: &Lin,
        last: &Option<Lin>,
    ) -> Result<Lin, Stop>
        ensures { Gives result (λ at. (at, spec.told_seen self.new)) (spec.keep_if from form.now last.now (spec.told_seen self.old)) }
    {
        match last {
            Some(last) => self.keep(alloc, from, form, last),
            None => Ok(form.copy(alloc)?),
        }
    }

    // An index of a nest, of which the last number is this.
    fn told_at(
        &mut self,
        alloc: Global,
        from: Sym,
        form: &Option<Lin>,
        last: &Option<Lin>,
    ) -> Result<Option<Lin>, Stop>
        ensures { Gives result (λ at. (at, spec.told_seen self.new)) (spec.told_at from form.now last.now (spec.told_seen self.old)) }
    {
        match form {
            Some(form) => Ok(Some(self.keep_if(alloc, from, form, last)?)),
            None => Ok(None),
        }
    }
}

// ---- nests

fn copied(alloc: Global, step: &Step) -> Result<Step, AllocError>
    ensures { IfOk result (λ made. made ≡ step.now) }
{
    match step {
        Step::Turns { symbol, span, kind } => Ok(Step::Turns {
            symbol: *symbol,
            span: span.copy(alloc)?,
            kind: *kind,
        }),
        Step::Named {
            symbol,
            pick,
            forms,
        } => Ok(Step::Named {
            symbol: *symbol,
            pick: *pick,
            forms: forms.copy(alloc)?,
        }),
        Step::Tested { low, high } => Ok(Step::Tested {
            low: low.copy(alloc)?,
            high: high.copy(alloc)?,
        }),
    }
}

// The steps behind others.
fn add_copied(alloc: Global, steps: &[Step], made: &mut Vec<Step>) -> Result<(), AllocError>
    ensures { OnOk result (made.new.items ≡ made.old.items ++ steps.now) }
{
    match steps {
        [] => Ok(()),
        [step, rest @ ..] => {
            made.push(copied(alloc, step)?)?;
            add_copied(alloc, rest, made)
        }
    }
}

// How many symbols there are up to those of a nest.
fn count_of(alloc: Global, outer: &Scope, steps: &[Step]) -> Result<Sym, AllocError>
    ensures { IfOk result (λ count. count ≡ length (bound_by outer.now steps.now)) }
{
    let mut scope = outer.copy(alloc)?;
    bind_steps(alloc, &mut scope, steps)?;
    Ok(scope.len())
}

// The steps, in which no position is told yet.
fn told_from(alloc: Global, outer: &Scope, nest: &[Step]) -> Result<Told, AllocError>
    ensures { IfOk result (λ told. spec.told_seen told ≡ spec.told_from outer.now nest.now) }
{
    let next = count_of(alloc, outer, nest)?;
    let mut steps = Vec::new(alloc);
    add_copied(alloc, nest, &mut steps)?;
    Ok(Told { steps, next })
}

// The indices of a nest from this dimension on, behind others.
fn add_told(
    alloc: Global,
    root: &Root<'_>,
    over: Over<'_>,
    dimension: usize,
    forms: &[Option<Lin>],
    at: &mut Vec<Option<Lin>>,
    told: &mut Told,
) -> Result<(), Stop>
    ensures { Tells result (at.new.items, spec.told_seen told.new) (spec.add_told (stored_of root.now.stored.now) over.entry.scope.now
        over.entry.region.now over.entry.from dimension forms.now at.old.items (spec.told_seen told.old)) }
{
    match forms {
        [] => Ok(()),
        [form, rest @ ..] => {
            let Some(next) = dimension.checked_add(1) else {
                return Err(Stop::Memory);
            };
            let last = last_number(alloc, root, over, dimension)?;
            let index = told.told_at(alloc, over.from, form, &last)?;
            at.push(index)?;
            add_told(alloc, root, over, next, rest, at, told)
        }
    }
}

fn told_nest(alloc: Global, root: &Root<'_>, over: Over<'_>, nest: &Nest) -> Result<Nest, Stop>
    ensures { Gives result nest_seen (spec.told_nest (stored_of root.now.stored.now) over.entry.scope.now over.entry.region.now over.entry.from
        (nest_seen nest.now)) }
{
    let mut told = told_from(alloc, over.scope, &nest.steps)?;
    let mut at = Vec::new(alloc);
    add_told(alloc, root, over, 0, &nest.at, &mut at, &mut told)?;
    let Told { steps, .. } = told;
    Ok(Nest { steps, at })
}

// Those of some nests, behind others.
#[tactic(auto, using(crate::proofs::Along::nest_pushed))]
fn add_nests(
    alloc: Global,
    root: &Root<'_>,
    over: Over<'_>,
    nests: &[Nest],
    made: &mut Vec<Nest>,
) -> Result<(), Stop>
    ensures { Tells result (map nest_seen made.new.items) (spec.add_nests (stored_of root.now.stored.now) over.entry.scope.now over.entry.region.now
        over.entry.from (map nest_seen nests.now) (map nest_seen made.old.items)) }
{
    match nests {
        [] => Ok(()),
        [nest, rest @ ..] => {
            let told = told_nest(alloc, root, over, nest)?;
            made.push(told)?;
            add_nests(alloc, root, over, rest, made)
        }
    }
}

/// The nests of a function, in which each number of a loop that is split with `guard` is told to be at most the last one, also
/// where the loop has so many numbers that each block is full. What stands outside of the place stays as it is.
pub(crate) fn told_nests(
    alloc: Global,
    root: &Root<'_>,
    over: Over<'_>,
    nests: &[Nest],
) -> Result<Vec<Nest>, Stop>
    ensures { Gives result (λ v. map nest_seen v.items) (spec.told_nests (stored_of root.now.stored.now) over.entry.scope.now over.entry.region.now
        over.entry.from (map nest_seen nests.now)) }
{
    let mut made = Vec::new(alloc);
    add_nests(alloc, root, over, nests, &mut made)?;
    Ok(made)
}
