//! What is known around the store of a definition.

ghost use Rattle.std.specs.Prelude.{◌≡◌, IfOk, OnOk, map};
ghost use Rattle.std.specs.Option.{option_map};
ghost use Rattle.tree.specs.Term.{term_of};
ghost use Rattle.algo.specs.View.{algorithm_of};
ghost use Rattle.algo.specs.Parts.{names_of, change_of, range_of};
ghost use Rattle.sched.specs.Skeleton.{nest_seen, skeleton_seen};
ghost use Rattle.sched.specs.Limited.{Tells, Gives};
ghost use Rattle.sched.specs.Stored.{formula_of, stored_of, left_at};
ghost use Rattle.sched.specs.Around as spec;

use crate::definitions::{Formula, Stored};
use crate::forms::{anything, between, exactly};
use crate::names::Named;
use crate::stop::Stop;
use crate::{Nest, Skeleton, Step};
use algo::{Algo, Function, Range};
use lin::{Binding, Lin, Region, Scope, Span1, Sym};
use numeric::Ty;
use plan::Pick;
use std::alloc::{AllocError, Global};
use tree::Expr;

/// What is known around the store of a definition: the symbols, and what its variables stand for.
#[derive(Drop)]
pub struct Around<'a> {
    pub scope: Scope,
    pub variables: Vec<&'a str>,
    pub coordinates: Region,
}

// Of symbols up to this one that no line binds nothing is known.
#[tactic(auto, using(crate::proofs::Bindings::missing_next, crate::proofs::Bindings::missing_none))]
fn skip_to(alloc: Global, scope: &mut Scope, symbol: Sym) -> Result<(), AllocError>
    ensures { OnOk result (scope.new ≡ spec.skip_to scope.old symbol) }
{
    for missing in scope.len()..symbol {
        scope.push(Binding::Loop(anything(alloc)))?;
    }
    Ok(())
}

// Binds a symbol.
fn bind(alloc: Global, scope: &mut Scope, symbol: Sym, binding: Binding) -> Result<(), AllocError>
    ensures { OnOk result (scope.new ≡ spec.bind scope.old symbol binding) }
{
    skip_to(alloc, scope, symbol)?;
    scope.push(binding)
}

fn bind_step(alloc: Global, scope: &mut Scope, step: &Step) -> Result<(), AllocError>
    ensures { OnOk result (scope.new ≡ spec.bind_step scope.old step.now) }
{
    match step {
        Step::Turns { symbol, span, .. } => {
            let span = span.copy(alloc)?;
            bind(alloc, scope, *symbol, Binding::Loop(span))
        }
        Step::Named {
            symbol,
            pick: Pick::Min,
            forms,
        } => {
            let forms = forms.copy(alloc)?;
            bind(alloc, scope, *symbol, Binding::LetMin(forms))
        }
        Step::Named {
            symbol,
            pick: Pick::Max,
            forms,
        } => {
            let forms = forms.copy(alloc)?;
            bind(alloc, scope, *symbol, Binding::LetMax(forms))
        }
        Step::Tested { .. } => Ok(()),
    }
}

/// Binds the symbols of steps.
pub fn bind_steps(alloc: Global, scope: &mut Scope, steps: &[Step]) -> Result<(), AllocError>
    ensures { OnOk result (scope.new ≡ spec.bind_steps scope.old steps.now) }
{
    match steps {
        [] => Ok(()),
        [step, rest @ ..] => {
            bind_step(alloc, scope, step)?;
            bind_steps(alloc, scope, rest)
        }
    }
}

/// The symbols of a grid.
pub fn grid_scope(alloc: Global, grid: &[u32]) -> Result<Scope, AllocError>
    ensures { IfOk result (λ scope. scope ≡ spec.grid_scope grid.now) }
{
    let mut scope = Scope::new(alloc);
    for count in grid {
        let span = between(alloc, 0, i64::from(*count) - 1)?;
        scope.push(Binding::Loop(span))?;
    }
    Ok(scope)
}

/// What stands around all nests of a root function: the symbols of its grid, and the lets over them.
pub fn head_scope(alloc: Global, skeleton: &Skeleton) -> Result<Scope, AllocError>
    ensures { IfOk result (λ scope. scope ≡ spec.head_scope (skeleton_seen skeleton.now)) }
{
    let mut scope = grid_scope(alloc, &skeleton.grid)?;
    bind_steps(alloc, &mut scope, &skeleton.head)?;
    Ok(scope)
}

/// The reduction variables of the definition of this number.
#[tactic(auto, using(crate::proofs::Places::ranges_pure, crate::proofs::Places::ranges_found, crate::proofs::Places::ranges_missing))]
pub fn ranges_of(function: &Function, definition: usize) -> &[Range]
    ensures { map range_of result.now ≡ spec.ranges_of (map change_of function.now.updates.items) definition }
{
    match definition.checked_sub(1) {
        Some(number) => match function.updates.get(number) {
            Some(update) => &update.ranges,
            None => &[],
        },
        None => &[],
    }
}

/// The variables of the function, and behind them the reduction variables of the definition of this number.
#[tactic(auto, using(crate::proofs::Places::pushed))]
pub fn variables_of<'a>(
    alloc: Global,
    function: &'a Function,
    definition: usize,
) -> Result<Vec<&'a str>, AllocError>
    ensures { IfOk result (λ names. map (λ x. x.now) names.items ≡ spec.names_with (names_of function.now.variables.items)
        (map change_of function.now.updates.items) definition) }
{
    let mut names = Vec::new(alloc);
    for variable in &function.variables {
        names.push(variable.as_str())?;
    }
    let ranges = ranges_of(function, definition);
    for range in ranges {
        names.push(range.variable.as_str())?;
    }
    Ok(names)
}

/// What the value of an expression stays within.
#[tactic(auto, using(crate::proofs::Stops::form_gives))]
pub fn interval(alloc: Global, algo: &Algo, around: &Around<'_>, expr: &Expr) -> Result<Span1, Stop>
    ensures { Gives result (λ span. span) (spec.interval_in (algorithm_of algo.now) (spec.around_of around.now) (term_of expr.now)) }
{
    let named = Named {
        algo,
        variables: &around.variables,
    };
    let span = bounds::interval(
        alloc,
        &around.scope,
        expr,
        &named,
        &around.variables,
        &around.coordinates,
    );
    match span {
        Ok(span) => Ok(span),
        Err(error) => Err(Stop::from(error)),
    }
}

// The span of a coordinate that is a form, and of any other number.
fn form_span(alloc: Global, form: &Option<Lin>) -> Result<Span1, AllocError>
    ensures { IfOk result (λ span. span ≡ spec.form_span form.now) }
{
    match form {
        Some(form) => exactly(alloc, form),
        None => bounds::range(alloc, Ty::I32),
    }
}

fn form_spans(alloc: Global, at: &[Option<Lin>]) -> Result<Region, AllocError>
    ensures { IfOk result (λ spans. spans ≡ map spec.form_span at.now) }
{
    let mut spans = Region::new(alloc);
    for form in at {
        let span = form_span(alloc, form)?;
        spans.push(span)?;
    }
    Ok(spans)
}

/// The left index of a variable, where that is not the variable alone.
#[tactic(auto, using(crate::proofs::Places::left_found, crate::proofs::Places::left_missing))]
pub(crate) fn left_index(formula: &Formula, place: usize) -> Option<&Expr>
    ensures { option_map (λ e. term_of e.now) result ≡ left_at (formula_of formula.now) place }
{
    match formula.at.get(place) {
        Some(Some(index)) => Some(index),
        Some(None) | None => None,
    }
}

// The span of a coordinate: of its form, or of what its left index comes to.
fn coordinate_span(
    alloc: Global,
    algo: &Algo,
    around: &Around<'_>,
    form: &Option<Lin>,
    index: Option<&Expr>,
) -> Result<Span1, Stop>
    ensures { Gives result (λ span. span) (spec.coordinate_span (algorithm_of algo.now) (spec.around_of around.now) form.now
        (option_map (λ e. term_of e.now) index.entry)) }
{
    match (form, index) {
        (None, Some(index)) => interval(alloc, algo, around, index),
        _ => Ok(form_span(alloc, form)?),
    }
}

// Adds those from a place on.
fn add_coordinates(
    alloc: Global,
    algo: &Algo,
    around: &Around<'_>,
    formula: &Formula,
    place: usize,
    at: &[Option<Lin>],
    spans: &mut Region,
) -> Result<(), Stop>
    ensures { Tells result spans.new (spec.coordinates_behind (algorithm_of algo.now) (spec.around_of around.now)
        (formula_of formula.now) spans.old place at.now) }
{
    match at {
        [] => Ok(()),
        [form, rest @ ..] => {
            let Some(next) = place.checked_add(1) else {
                return Err(Stop::Memory);
            };
            let span = coordinate_span(alloc, algo, around, form, left_index(formula, place))?;
            spans.push(span)?;
            add_coordinates(alloc, algo, around, formula, next, rest, spans)
        }
    }
}

/// What is known around the store of the definition of this number, where what left indices come to is not looked at.
pub fn around_left<'a>(
    alloc: Global,
    stored: &Stored<'a>,
    outer: &Scope,
    nest: &Nest,
    definition: usize,
) -> Result<Around<'a>, AllocError>
    ensures { IfOk result (λ around. spec.around_of around ≡ spec.left_around (stored_of stored.now) outer.now (nest_seen nest.now) definition) }
{
    let mut scope = outer.copy(alloc)?;
    bind_steps(alloc, &mut scope, &nest.steps)?;
    Ok(Around {
        scope,
        variables: variables_of(alloc, stored.function, definition)?,
        coordinates: form_spans(alloc, &nest.at)?,
    })
}

/// What is known around the store of the definition of this number, in a nest inside of other symbols.
pub fn around_in<'a>(
    alloc: Global,
    algo: &Algo,
    stored: &Stored<'a>,
    outer: &Scope,
    nest: &Nest,
    formula: &Formula,
    definition: usize,
) -> Result<Around<'a>, Stop>
    ensures { Gives result spec.around_of (spec.around (algorithm_of algo.now) (stored_of stored.now) outer.now (nest_seen nest.now)
        (formula_of formula.now) definition) }
{
    let left = around_left(alloc, stored, outer, nest, definition)?;
    let mut coordinates = Region::new(alloc);
    add_coordinates(alloc, algo, &left, formula, 0, &nest.at, &mut coordinates)?;
    Ok(Around {
        scope: left.scope,
        variables: left.variables,
        coordinates,
    })
}
