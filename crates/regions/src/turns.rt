//! The loops, lets and guards of a function that is computed inside loops, over what one turn of them needs of it.

ghost use Rattle.std.specs.Prelude.{◌≡◌, ◌∷◌, ◌++◌, [], None, Some, if◌then◌else◌, IfOk, OnOk, length, map, reverse};
ghost use Rattle.std.specs.List.{list_any};
ghost use Rattle.std.specs.Option.{option_copied};
ghost use Rattle.sched.specs.Standing.{form_named as form_named_of, cuts_by_variable, cuts_of as cuts_of_loops};
ghost use Rattle.sched.specs.Skeleton.{body_of, nest_seen, kept_from, is_missing as is_missing_of, ranges_at as ranges_at_of, variables_at as variables_at_of};
ghost use Rattle.regions.specs.Broken as broken;
ghost use Rattle.sched.specs.Limited.{Gives, Tells};
ghost use Rattle.sched.specs.Stored.{formula_of, stored_of};
ghost use Rattle.sched.specs.Parted as parted;
ghost use Rattle.regions.specs.Settled.{standing_seen};
ghost use Rattle.regions.specs.Turned as spec;
ghost use Rattle.sched.specs.Turned as sched;
ghost use Rattle.meaning.specs.Names.{is_among as is_among_of, same_name};
ghost use Rattle.sched.specs.Placing.{is_shifted};

use crate::nests::bodies;
use crate::standing::Standing;
use lin::{Forms, Lin, Region, Scope, Span1, Sym};
use plan::Kind;
use sched::ends::{Counted, Frame, Run, extents_of, form_named, is_alone, number_named};
use sched::forms::between;
use sched::roots::Root;
use sched::stop::Stop;
use sched::windows::{fewer, shortest};
use sched::{Body, Known, Loop, Mark, Nest, Numbers, Split, Step, Tail, Turning, loop_numbers};
use std::alloc::{AllocError, Global};
use tree::token::Name;

// ---- loops

fn is_missing(body: &Body, dimension: usize) -> bool
    ensures { result ≡ is_missing_of (body_of body.now) dimension }
{
    body.missing.iter().any(|one| *one == dimension)
}

// Forms behind others.
fn push_forms(alloc: Global, known: &mut Forms, others: &[Lin]) -> Result<(), AllocError>
    ensures { OnOk result (known.new ≡ known.old ++ others.now) }
{
    match others {
        [] => Ok(()),
        [form, rest @ ..] => {
            known.push(form.copy(alloc)?)?;
            push_forms(alloc, known, rest)
        }
    }
}

// Whether the loop is a variable's, which no split has taken.
fn is_variable(variables: &[Name], one: &Loop) -> bool
    ensures { result ≡ parted.is_variable variables.now one.now }
{
    match variables.get(one.dimension) {
        Some(variable) => variable.as_str() == one.name.as_str(),
        None => false,
    }
}

fn push_forms_if(
    alloc: Global,
    is_asked: bool,
    known: &mut Forms,
    others: &[Lin],
) -> Result<(), AllocError>
    ensures { OnOk result (known.new ≡ known.old ++ parted.forms_if is_asked others.now) }
{
    if is_asked {
        push_forms(alloc, known, others)?;
    }
    Ok(())
}

// The further upper forms of the loop of this name, behind others.
fn add_further(
    alloc: Global,
    counted: &[Counted],
    name: &Name,
    upper: &mut Forms,
) -> Result<(), AllocError>
    ensures { OnOk result (upper.new ≡ upper.old ++ parted.further_of counted.now name.now) }
{
    match counted {
        [] => Ok(()),
        [one, rest @ ..] => {
            let is_same = one.name.as_str() == name.as_str();
            push_forms_if(alloc, is_same, upper, one.further.as_slice())?;
            add_further(alloc, rest, name, upper)
        }
    }
}

// A loop that a split makes runs over its numbers.
fn half_span(alloc: Global, frame: &Frame, name: &Name) -> Result<Span1, AllocError>
    ensures { IfOk result (λ span. span ≡ parted.half_span (parted.frame_seen frame.now) name.now) }
{
    let count = number_named(&frame.numbers, name);
    let mut span = between(alloc, 0, i64::from(count) - 1)?;
    add_further(alloc, &frame.counted, name, &mut span.upper)?;
    Ok(span)
}

// What a loop runs over: a variable over what is needed, a loop that a split makes over its numbers.
fn span_of(
    alloc: Global,
    variables: &[Name],
    region: &Region,
    frame: &Frame,
    one: &Loop,
) -> Result<Span1, Stop>
    ensures { Gives result (λ span. span) (parted.span_of variables.now region.now (parted.frame_seen frame.now) one.now) }
{
    if !is_variable(variables, one) {
        return Ok(half_span(alloc, frame, &one.name)?);
    }
    match region.as_slice().get(one.dimension) {
        Some(span) => Ok(span.copy(alloc)?),
        None => Err(Stop::Limit),
    }
}

fn kind_of(mark: Option<Mark>) -> Kind
    ensures { result ≡ sched.kind_of mark }
{
    match mark {
        Some(Mark::Unrolled) => Kind::Unroll,
        Some(Mark::Vectorized) => Kind::Vector,
        Some(Mark::Parallel) | None => Kind::Serial,
    }
}

// A loop of a function whose loops are split.
fn split_run(
    alloc: Global,
    variables: &[Name],
    region: &Region,
    frame: &Frame,
    one: &Loop,
) -> Result<Run, Stop>
    ensures { Gives result (λ run. run) (parted.run_of variables.now region.now (parted.frame_seen frame.now) one.now) }
{
    let span = span_of(alloc, variables, region, frame, one)?;
    Ok(Run {
        name: one.name,
        span,
        kind: kind_of(one.mark),
    })
}

// A loop behind others, if it is one of those that are asked for.
fn add_split_run(
    alloc: Global,
    variables: &[Name],
    region: &Region,
    frame: &Frame,
    is_asked: bool,
    one: &Loop,
    runs: &mut Vec<Run>,
) -> Result<(), Stop>
    ensures { Tells result runs.new.items
        (parted.add_run variables.now region.now (parted.frame_seen frame.now) is_asked one.now runs.old.items) }
{
    if !is_asked {
        return Ok(());
    }
    let run = split_run(alloc, variables, region, frame, one)?;
    runs.push(run)?;
    Ok(())
}

// The loops of a definition that are vectorised, or that are not, the outermost first, behind others.
fn add_split_runs(
    alloc: Global,
    variables: &[Name],
    region: &Region,
    frame: &Frame,
    body: &Body,
    is_lane: bool,
    loops: &[Loop],
    runs: &mut Vec<Run>,
) -> Result<(), Stop>
    ensures { Tells result runs.new.items
        (parted.add_runs variables.now region.now (parted.frame_seen frame.now) (body_of body.now) is_lane loops.now runs.old.items) }
{
    match loops {
        [] => Ok(()),
        [one, rest @ ..] => {
            add_split_runs(alloc, variables, region, frame, body, is_lane, rest, runs)?;
            let is_asked = is_run(body, is_lane, one);
            add_split_run(alloc, variables, region, frame, is_asked, one, runs)
        }
    }
}

// All loops of a definition: those of a reduction inside, and a vectorised one inside these.
fn split_runs(
    alloc: Global,
    variables: &[Name],
    loops: &[Loop],
    region: &Region,
    frame: &Frame,
    body: &Body,
) -> Result<Vec<Run>, Stop>
    ensures { Gives result (λ runs. runs.items)
        (parted.all_runs variables.now region.now (parted.frame_seen frame.now) loops.now (body_of body.now)) }
{
    let mut runs = Vec::new(alloc);
    add_split_runs(
        alloc, variables, region, frame, body, false, loops, &mut runs,
    )?;
    add_range_runs(alloc, &body.ranges, &mut runs)?;
    add_split_runs(
        alloc, variables, region, frame, body, true, loops, &mut runs,
    )?;
    Ok(runs)
}

// ---- splits

fn kept_tail(is_alone: bool, tail: Tail) -> Tail
    ensures { result ≡ parted.kept_tail is_alone tail }
{
    match tail {
        Tail::Shift => { if is_alone { Tail::Guard } else { Tail::Shift } }
        Tail::Guard => Tail::Guard,
        Tail::Roundup => { if is_alone { Tail::Guard } else { Tail::Roundup } }
    }
}

// A block of one number begins at no smaller number where `shift` moves it back, and ends at no greater one under `roundup`: it is
// kept as with `guard`, unless its halves are split again.
fn as_kept(cuts: &[Split], cut: &Split) -> Split
    ensures { result ≡ parted.as_kept cuts.now cut.now }
{
    Split {
        whole: cut.whole,
        outer: cut.outer,
        inner: cut.inner,
        factor: cut.factor,
        tail: kept_tail(is_alone(cuts, cut), cut.tail),
    }
}

fn is_among(names: &[Name], name: &Name) -> bool
    ensures { result ≡ is_among_of names.now name.now }
{
    names.iter().any(|other| other.as_str() == name.as_str())
}

// The splits of these loops and of what these make, behind others.
fn add_cuts(cuts: &[Split], names: &mut Vec<Name>, found: &mut Vec<Split>) -> Result<(), AllocError>
    ensures { OnOk result (found.new.items ≡ found.old.items ++ cuts_of_loops cuts.now names.old.items) }
{
    match cuts {
        [] => Ok(()),
        [cut, rest @ ..] => {
            if is_among(&*names, &cut.whole) {
                found.push(*cut)?;
                names.push(cut.outer)?;
                names.push(cut.inner)?;
            }
            add_cuts(rest, names, found)
        }
    }
}

// The splits of the variable and of what these make, later ones first.
fn cuts_of(alloc: Global, cuts: &[Split], variable: &Name) -> Result<Vec<Split>, AllocError>
    ensures { IfOk result (λ found. found.items ≡ reverse (cuts_of_loops cuts.now (variable.now ∷ []))) }
{
    let mut names = Vec::new(alloc);
    names.push(*variable)?;
    let mut found = Vec::new(alloc);
    add_cuts(cuts, &mut names, &mut found)?;
    found.reverse();
    Ok(found)
}

// Those of the variables from this one on that the definition has, behind others.
fn add_body_cuts(
    alloc: Global,
    cuts: &[Split],
    body: &Body,
    dimension: usize,
    variables: &[Name],
    found: &mut Vec<Split>,
) -> Result<(), AllocError>
    ensures { OnOk result (found.new.items ≡ found.old.items
        ++ cuts_by_variable cuts.now (kept_from (body_of body.now) dimension variables.now)) }
{
    match variables {
        [] => Ok(()),
        [variable, rest @ ..] => {
            let Some(next) = dimension.checked_add(1) else {
                return Err(AllocError);
            };
            if !is_missing(body, dimension) {
                let mut own = cuts_of(alloc, cuts, variable)?;
                found.append(&mut own)?;
            }
            add_body_cuts(alloc, cuts, body, next, rest, found)
        }
    }
}

// The splits as they are kept, behind others.
fn add_kept(all: &[Split], cuts: &[Split], made: &mut Vec<Split>) -> Result<(), AllocError>
    ensures { OnOk result (made.new.items ≡ made.old.items ++ map (parted.as_kept all.now) cuts.now) }
{
    match cuts {
        [] => Ok(()),
        [cut, rest @ ..] => {
            made.push(as_kept(all, cut))?;
            add_kept(all, rest, made)
        }
    }
}

// Those of the variables that the definition has.
fn body_cuts(alloc: Global, root: &Root<'_>, body: &Body) -> Result<Vec<Split>, AllocError>
    ensures { IfOk result (λ v. v.items ≡ parted.body_cuts (stored_of root.now.stored.now) (body_of body.now)) }
{
    let cuts = &root.stored.placed.cuts;
    let mut found = Vec::new(alloc);
    let variables = &root.stored.subject.variables;
    add_body_cuts(alloc, cuts, body, 0, variables, &mut found)?;
    let mut made = Vec::new(alloc);
    add_kept(cuts, &found, &mut made)?;
    Ok(made)
}

// ---- nests

fn copied(alloc: Global, form: Option<&Lin>) -> Result<Option<Lin>, AllocError>
    ensures { IfOk result (λ copy. copy ≡ option_copied form.entry) }
{
    match form {
        Some(form) => Ok(Some(form.copy(alloc)?)),
        None => Ok(None),
    }
}

// The forms of the variables from this one on, behind others.
fn add_variables(
    alloc: Global,
    body: &Body,
    known: &[Known],
    dimension: usize,
    variables: &[Name],
    at: &mut Vec<Option<Lin>>,
) -> Result<(), AllocError>
    ensures { OnOk result (at.new.items ≡ at.old.items ++ variables_at_of (body_of body.now) dimension variables.now known.now) }
{
    match variables {
        [] => Ok(()),
        [variable, rest @ ..] => {
            let Some(next) = dimension.checked_add(1) else {
                return Err(AllocError);
            };
            at.push(variable_at(alloc, body, known, dimension, variable)?)?;
            add_variables(alloc, body, known, next, rest, at)
        }
    }
}

// The form of a variable; none where the definition lacks it.
fn variable_at(
    alloc: Global,
    body: &Body,
    known: &[Known],
    dimension: usize,
    variable: &Name,
) -> Result<Option<Lin>, AllocError>
    ensures { IfOk result (λ form. form ≡ (if is_missing_of (body_of body.now) dimension then None else form_named_of known.now variable.now)) }
{
    if is_missing(body, dimension) {
        return Ok(None);
    }
    Ok(copied(alloc, form_named(known, variable))?)
}

// Those of the variables of a reduction, behind others.
fn add_ranges(
    alloc: Global,
    known: &[Known],
    ranges: &[Turning],
    at: &mut Vec<Option<Lin>>,
) -> Result<(), AllocError>
    ensures { OnOk result (at.new.items ≡ at.old.items ++ ranges_at_of ranges.now known.now) }
{
    match ranges {
        [] => Ok(()),
        [range, rest @ ..] => {
            at.push(copied(alloc, form_named(known, &range.name))?)?;
            add_ranges(alloc, known, rest, at)
        }
    }
}

// The coordinates of a definition's store.
fn coordinates_at(
    alloc: Global,
    root: &Root<'_>,
    body: &Body,
    known: &[Known],
) -> Result<Vec<Option<Lin>>, AllocError>
    ensures { IfOk result (λ at. at.items ≡ variables_at_of (body_of body.now) 0 (stored_of root.now.stored.now).subject.variables known.now
        ++ ranges_at_of (body_of body.now).ranges known.now) }
{
    let mut at = Vec::new(alloc);
    let variables = &root.stored.subject.variables;
    add_variables(alloc, body, known, 0, variables, &mut at)?;
    add_ranges(alloc, known, &body.ranges, &mut at)?;
    Ok(at)
}

// What stands behind these steps, of which the first binds the symbol behind those of a scope.
fn behind(alloc: Global, scope: &Scope, steps: Vec<Step>) -> Result<Standing, AllocError>
    ensures { IfOk result (λ st. standing_seen st ≡ parted.begun (length scope.now) steps.items) }
{
    let Some(next) = scope.len().checked_add(steps.len()) else {
        return Err(AllocError);
    };
    Ok(Standing {
        known: Vec::new(alloc),
        starts: Vec::new(alloc),
        bound: Vec::new(alloc),
        next,
        steps,
    })
}

/// The nest of a definition, behind these lets.
pub fn nest_in(
    alloc: Global,
    root: &Root<'_>,
    scope: &Scope,
    region: &Region,
    frame: &Frame,
    lets: Vec<Step>,
    body: &Body,
) -> Result<Nest, Stop>
    ensures { Gives result nest_seen (parted.nest_in (stored_of root.now.stored.now) region.now (length scope.now)
        (parted.frame_seen frame.now) lets.items (body_of body.now)) }
{
    let variables = &root.stored.subject.variables;
    let loops = &root.stored.placed.loops;
    let runs = split_runs(alloc, variables, loops, region, frame, body)?;
    let cuts = body_cuts(alloc, root, body)?;
    let mut standing = behind(alloc, scope, lets)?;
    standing.turn_all(alloc, frame, &cuts, &runs)?;
    let at = coordinates_at(alloc, root, body, &standing.known)?;
    Ok(Nest {
        steps: standing.steps,
        at,
    })
}

/// The first nest before others.
pub fn with_first(first: Nest, others: Vec<Nest>) -> Result<Vec<Nest>, AllocError>
    ensures { IfOk result (λ v. map nest_seen v.items ≡ nest_seen first ∷ map nest_seen others.items) }
{
    let mut nests = others;
    nests.insert(0, first)?;
    Ok(nests)
}

// ---- where no loop is split

fn is_run(body: &Body, is_lane: bool, one: &Loop) -> bool
    ensures { result ≡ sched.is_run (body_of body.now) is_lane one.now }
{
    if is_missing(body, one.dimension) {
        return false;
    }
    if is_lane {
        one.is_vectorized()
    } else {
        !one.is_vectorized()
    }
}

// A loop over what is needed of its dimension.
fn run_of(alloc: Global, region: &Region, one: &Loop) -> Result<Run, Stop>
    ensures { Gives result (λ run. run) (spec.run_of region.now one.now) }
{
    let Some(span) = region.as_slice().get(one.dimension) else {
        return Err(Stop::Limit);
    };
    Ok(Run {
        name: one.name,
        span: span.copy(alloc)?,
        kind: kind_of(one.mark),
    })
}

// A loop behind others, if it is one of those that are asked for.
fn add_run(
    alloc: Global,
    region: &Region,
    is_asked: bool,
    one: &Loop,
    runs: &mut Vec<Run>,
) -> Result<(), Stop>
    ensures { Tells result runs.new.items (spec.add_run region.now is_asked one.now runs.old.items) }
{
    if !is_asked {
        return Ok(());
    }
    let run = run_of(alloc, region, one)?;
    runs.push(run)?;
    Ok(())
}

// The loops of a definition that are vectorised, or that are not, the outermost first, behind others.
fn add_runs(
    alloc: Global,
    region: &Region,
    body: &Body,
    is_lane: bool,
    loops: &[Loop],
    runs: &mut Vec<Run>,
) -> Result<(), Stop>
    ensures { Tells result runs.new.items (spec.add_runs region.now (body_of body.now) is_lane loops.now runs.old.items) }
{
    match loops {
        [] => Ok(()),
        [one, rest @ ..] => {
            add_runs(alloc, region, body, is_lane, rest, runs)?;
            let is_asked = is_run(body, is_lane, one);
            add_run(alloc, region, is_asked, one, runs)
        }
    }
}

// The loops of a reduction, the last variable outermost, behind others.
fn add_range_runs(alloc: Global, ranges: &[Turning], runs: &mut Vec<Run>) -> Result<(), AllocError>
    ensures { OnOk result (runs.new.items ≡ runs.old.items ++ sched.range_runs ranges.now) }
{
    match ranges {
        [] => Ok(()),
        [range, rest @ ..] => {
            add_range_runs(alloc, rest, runs)?;
            runs.push(Run {
                name: range.name,
                span: between(alloc, range.low, range.last)?,
                kind: range.kind,
            })?;
            Ok(())
        }
    }
}

// All loops of a definition.
fn all_runs(alloc: Global, root: &Root<'_>, region: &Region, body: &Body) -> Result<Vec<Run>, Stop>
    ensures { Gives result (λ runs. runs.items) (spec.all_runs region.now (stored_of root.now.stored.now).placed.loops (body_of body.now)) }
{
    let loops = &root.stored.placed.loops;
    let mut runs = Vec::new(alloc);
    add_runs(alloc, region, body, false, loops, &mut runs)?;
    add_range_runs(alloc, &body.ranges, &mut runs)?;
    add_runs(alloc, region, body, true, loops, &mut runs)?;
    Ok(runs)
}

// The loops, from this symbol on, and the symbols of their names, behind others.
fn add_turns(
    alloc: Global,
    runs: &[Run],
    symbol: Sym,
    steps: &mut Vec<Step>,
    known: &mut Vec<Known>,
) -> Result<(), AllocError>
    ensures steps { OnOk result (steps.new.items ≡ steps.old.items ++ spec.steps_of symbol runs.now) }
    ensures known { OnOk result (known.new.items ≡ known.old.items ++ spec.known_of symbol runs.now) }
{
    match runs {
        [] => Ok(()),
        [run, rest @ ..] => {
            let Some(next) = symbol.checked_add(1) else {
                return Err(AllocError);
            };
            steps.push(Step::Turns {
                symbol,
                span: run.span.copy(alloc)?,
                kind: run.kind,
            })?;
            known.push(Known {
                name: run.name,
                form: Lin::symbol(alloc, symbol)?,
            })?;
            add_turns(alloc, rest, next, steps, known)
        }
    }
}

// The nest of a definition by its loops, from this symbol on.
fn nest_by(
    alloc: Global,
    root: &Root<'_>,
    body: &Body,
    symbol: Sym,
    runs: &[Run],
) -> Result<Nest, AllocError>
    ensures { IfOk result (λ nest. nest_seen nest ≡ spec.nest_of (stored_of root.now.stored.now).subject.variables (body_of body.now) symbol runs.now) }
{
    let mut steps = Vec::new(alloc);
    let mut known = Vec::new(alloc);
    add_turns(alloc, runs, symbol, &mut steps, &mut known)?;
    let at = coordinates_at(alloc, root, body, &known)?;
    Ok(Nest { steps, at })
}

// Those of some definitions, behind others.
#[tactic(auto, using(crate::proofs::Along::nest_pushed))]
fn add_nests(
    alloc: Global,
    root: &Root<'_>,
    region: &Region,
    symbol: Sym,
    bodies: &[Body],
    nests: &mut Vec<Nest>,
) -> Result<(), Stop>
    ensures { Tells result (map nest_seen nests.new.items) (spec.add_nests (stored_of root.now.stored.now) region.now symbol (map body_of bodies.now)
        (map nest_seen nests.old.items)) }
{
    match bodies {
        [] => Ok(()),
        [body, rest @ ..] => {
            let runs = all_runs(alloc, root, region, body)?;
            let nest = nest_by(alloc, root, body, symbol, &runs)?;
            nests.push(nest)?;
            add_nests(alloc, root, region, symbol, rest, nests)
        }
    }
}

// Whether there is a bound for how many numbers each dimension has.
fn are_bounded(alloc: Global, scope: &Scope, spans: &[Span1]) -> Result<bool, AllocError>
    ensures { IfOk result (λ yes. yes ≡ spec.are_bounded scope.now spans.now) }
{
    match spans {
        [] => Ok(true),
        [span, rest @ ..] => match shortest(alloc, scope, span)? {
            Some(_best) => Ok(are_bounded(alloc, scope, rest)?),
            None => Ok(false),
        },
    }
}

/// The nests of a function's definitions over a region.
pub fn whole_nests(
    alloc: Global,
    root: &Root<'_>,
    scope: &Scope,
    region: &Region,
) -> Result<Vec<Nest>, Stop>
    ensures { Gives result (λ v. map nest_seen v.items) (spec.whole_nests (stored_of root.now.stored.now) (map formula_of root.now.formulas.now)
        scope.now region.now) }
{
    if !are_bounded(alloc, scope, region.as_slice())? {
        return Err(Stop::Limit);
    }
    let bodies = bodies(alloc, root.stored, root.formulas)?;
    let mut nests = Vec::new(alloc);
    add_nests(alloc, root, region, scope.len(), &bodies, &mut nests)?;
    Ok(nests)
}

// ---- short blocks

// The fewest numbers that there are in some turn from a lower form to one of these upper ones, or as many as before; none where
// bounds do not tell it of one of them.
fn least_from(
    alloc: Global,
    scope: &Scope,
    low: &Lin,
    upper: &[Lin],
    least: Option<i64>,
) -> Result<Option<i64>, AllocError>
    ensures { IfOk result (λ count. count ≡ broken.least_from scope.now low.now upper.now least) }
{
    match upper {
        [] => Ok(least),
        [high, rest @ ..] => match scope.sup_of_difference(alloc, low, high)? {
            Some(most) => {
                let count = fewer(least, Some(1_i64.saturating_sub(most)));
                least_from(alloc, scope, low, rest, count)
            }
            None => Ok(None),
        },
    }
}

// The same of each of these lower forms.
fn least_over(
    alloc: Global,
    scope: &Scope,
    lower: &[Lin],
    upper: &[Lin],
    least: Option<i64>,
) -> Result<Option<i64>, AllocError>
    ensures { IfOk result (λ count. count ≡ broken.least_over scope.now lower.now upper.now least) }
{
    match lower {
        [] => Ok(least),
        [low, rest @ ..] => match least_from(alloc, scope, low, upper, None)? {
            Some(count) => least_over(alloc, scope, rest, upper, fewer(least, Some(count))),
            None => Ok(None),
        },
    }
}

// The fewest numbers that a dimension has in one turn; none where bounds do not tell it.
fn least_of(alloc: Global, scope: &Scope, span: &Span1) -> Result<Option<i64>, AllocError>
    ensures { IfOk result (λ count. count ≡ broken.least_of scope.now span.now) }
{
    least_over(
        alloc,
        scope,
        span.lower.as_slice(),
        span.upper.as_slice(),
        None,
    )
}

fn is_shifted(cut: &Split) -> bool
    ensures { result ≡ is_shifted cut.now }
{
    match cut.tail {
        Tail::Shift => true,
        Tail::Guard | Tail::Roundup => false,
    }
}

fn is_fewer(least: Option<i64>, factor: u32) -> bool
    ensures { result ≡ broken.is_fewer least factor }
{
    match least {
        Some(count) => count < i64::from(factor),
        None => true,
    }
}

// Whether the split is one with `shift` of the variable's loop into blocks of more numbers than some turn has. A block of one
// number has none too many: it is kept as one of `guard` is.
fn is_short_of(cut: &Split, variable: &Name, least: Option<i64>) -> bool
    ensures { result ≡ broken.is_short_of variable.now least cut.now }
{
    is_shifted(cut)
        && 1 < cut.factor
        && cut.whole.as_str() == variable.as_str()
        && is_fewer(least, cut.factor)
}

fn is_short(cuts: &[Split], variable: &Name, least: Option<i64>) -> bool
    ensures { result ≡ list_any (broken.is_short_of variable.now least) cuts.now }
{
    match cuts {
        [] => false,
        [cut, rest @ ..] => is_short_of(cut, variable, least) || is_short(rest, variable, least),
    }
}

// The same of one of these variables, over these spans.
fn are_short(
    alloc: Global,
    scope: &Scope,
    cuts: &[Split],
    variables: &[Name],
    spans: &[Span1],
) -> Result<bool, AllocError>
    ensures { IfOk result (λ yes. yes ≡ broken.are_short cuts.now scope.now variables.now spans.now) }
{
    match variables {
        [] => Ok(false),
        [variable, others @ ..] => match spans {
            [] => Ok(false),
            [span, rest @ ..] => {
                let least = least_of(alloc, scope, span)?;
                if is_short(cuts, variable, least) {
                    return Ok(true);
                }
                are_short(alloc, scope, cuts, others, rest)
            }
        },
    }
}

fn is_named_among(variables: &[Name], name: &Name) -> bool
    ensures { result ≡ list_any (same_name name.now) variables.now }
{
    match variables {
        [] => false,
        [one, rest @ ..] => name.as_str() == one.as_str() || is_named_among(rest, name),
    }
}

// The same of a loop that a split makes.
fn is_short_half(numbers: &[Numbers], variables: &[Name], cut: &Split) -> bool
    ensures { result ≡ broken.is_short_half numbers.now variables.now cut.now }
{
    is_shifted(cut)
        && !is_named_among(variables, &cut.whole)
        && number_named(numbers, &cut.whole) < cut.factor
}

fn has_short_half(numbers: &[Numbers], variables: &[Name], cuts: &[Split]) -> bool
    ensures { result ≡ list_any (broken.is_short_half numbers.now variables.now) cuts.now }
{
    match cuts {
        [] => false,
        [cut, rest @ ..] => {
            is_short_half(numbers, variables, cut) || has_short_half(numbers, variables, rest)
        }
    }
}

/// Whether in some turn a loop that is split with `shift` has fewer numbers than a block.
pub fn has_short_turn(
    alloc: Global,
    root: &Root<'_>,
    scope: &Scope,
    region: &Region,
) -> Result<bool, Stop>
    ensures { Gives result (λ yes. yes) (broken.has_short_turn (stored_of root.now.stored.now) scope.now region.now) }
{
    let cuts = &root.stored.placed.cuts;
    let variables = &root.stored.subject.variables;
    if are_short(alloc, scope, cuts, variables, region.as_slice())? {
        return Ok(true);
    }
    let extents = extents_of(alloc, scope, region)?;
    let numbers = loop_numbers(alloc, variables, cuts, &extents)?;
    Ok(has_short_half(&numbers, variables, cuts))
}
