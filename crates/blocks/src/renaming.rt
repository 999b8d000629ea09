//! Forms, spans and steps under other names of their symbols.

ghost use Rattle.std.specs.Prelude.{◌≡◌, None, [], IfOk, map};
ghost use Rattle.lin.specs.Forms.{combined};
ghost use Rattle.sched.specs.Limited.{Gives};
ghost use Rattle.blocks.specs.Renamed as spec;
ghost use Rattle.sched.specs.Renamed as sched;

use lin::{Forms, Lin, Multiple, Region, Span1, Sym};
use plan::Places;
use sched::Step;
use sched::stop::Stop;
use std::alloc::{AllocError, Global};

/// The name of a symbol.
#[derive(Clone, Copy, Drop)]
pub(crate) struct Renaming {
    pub symbol: Sym,
    pub name: Sym,
}

// The last name of a symbol, or what was found before.
fn last_name(found: Option<Sym>, names: &[Renaming], symbol: Sym) -> Option<Sym>
    ensures { result ≡ sched.last_value found (map spec.pair_of names.now) symbol }
{
    match names {
        [] => found,
        [one, rest @ ..] => {
            if one.symbol == symbol {
                last_name(Some(one.name), rest, symbol)
            } else {
                last_name(found, rest, symbol)
            }
        }
    }
}

/// The last name of a symbol. A limit is passed where it has none.
pub(crate) fn name_in(names: &[Renaming], symbol: Sym) -> Result<Sym, Stop>
    ensures { Gives result (λ name. name) (sched.value_in (map spec.pair_of names.now) symbol) }
{
    match last_name(None, names, symbol) {
        Some(name) => Ok(name),
        None => Err(Stop::Limit),
    }
}

/// The symbols before this one, each under its own name.
#[tactic(auto, using(crate::proofs::Renames::own_last, crate::proofs::Renames::own_none))]
pub(crate) fn own_names(alloc: Global, count: Sym) -> Result<Vec<Renaming>, AllocError>
    ensures { IfOk result (λ v. map spec.pair_of v.items ≡ spec.own_pairs count) }
{
    let Some(last) = count.checked_sub(1) else {
        return Ok(Vec::new(alloc));
    };
    let mut names = own_names(alloc, last)?;
    names.push(Renaming {
        symbol: last,
        name: last,
    })?;
    Ok(names)
}

// The form and a multiple of a symbol more.
#[tactic(auto, using(sched::proofs::Stops::form_gives))]
fn with_multiple(alloc: Global, made: &Lin, factor: i64, name: Sym) -> Result<Lin, Stop>
    ensures { Gives result (λ all. all) (combined made.now factor (sched.symbol name)) }
{
    let symbol = Lin::symbol(alloc, name)?;
    match made.plus_multiple(alloc, factor, &symbol) {
        Ok(all) => Ok(all),
        Err(error) => Err(Stop::from(error)),
    }
}

// The form and these multiples, under the names of their symbols.
fn renamed_terms(
    alloc: Global,
    names: &[Renaming],
    terms: &[Multiple],
    made: Lin,
) -> Result<Lin, Stop>
    ensures { Gives result (λ form. form) (sched.terms_renamed (map spec.pair_of names.now) terms.now made) }
{
    match terms {
        [] => Ok(made),
        [term, rest @ ..] => {
            let name = name_in(names, term.symbol)?;
            let next = with_multiple(alloc, &made, term.factor, name)?;
            renamed_terms(alloc, names, rest, next)
        }
    }
}

/// The form under the names of its symbols.
pub(crate) fn renamed(alloc: Global, names: &[Renaming], form: &Lin) -> Result<Lin, Stop>
    ensures { Gives result (λ made. made) (sched.form_renamed (map spec.pair_of names.now) form.now) }
{
    renamed_terms(
        alloc,
        names,
        form.terms(),
        Lin::number(alloc, form.constant()),
    )
}

// Some forms, and these behind them.
fn renamed_behind(
    alloc: Global,
    names: &[Renaming],
    made: Forms,
    forms: &[Lin],
) -> Result<Forms, Stop>
    ensures { Gives result (λ all. all) (sched.behind (sched.form_renamed (map spec.pair_of names.now)) made forms.now) }
{
    match forms {
        [] => Ok(made),
        [form, rest @ ..] => {
            let mut made = made;
            made.push(renamed(alloc, names, form)?)?;
            renamed_behind(alloc, names, made, rest)
        }
    }
}

/// The same of forms.
pub(crate) fn renamed_forms(alloc: Global, names: &[Renaming], forms: &Forms) -> Result<Forms, Stop>
    ensures { Gives result (λ made. made) (sched.forms_renamed (map spec.pair_of names.now) forms.now) }
{
    renamed_behind(alloc, names, Forms::new(alloc), forms.as_slice())
}

/// The same of a span.
pub(crate) fn renamed_span(alloc: Global, names: &[Renaming], span: &Span1) -> Result<Span1, Stop>
    ensures { Gives result (λ made. made) (sched.span_renamed (map spec.pair_of names.now) span.now) }
{
    let lower = renamed_forms(alloc, names, &span.lower)?;
    let upper = renamed_forms(alloc, names, &span.upper)?;
    Ok(Span1 { lower, upper })
}

// Some spans, and these behind them.
fn spans_behind(
    alloc: Global,
    names: &[Renaming],
    made: Region,
    spans: &[Span1],
) -> Result<Region, Stop>
    ensures { Gives result (λ all. all) (sched.behind (sched.span_renamed (map spec.pair_of names.now)) made spans.now) }
{
    match spans {
        [] => Ok(made),
        [span, rest @ ..] => {
            let mut made = made;
            made.push(renamed_span(alloc, names, span)?)?;
            spans_behind(alloc, names, made, rest)
        }
    }
}

/// The same of a region.
pub(crate) fn renamed_region(
    alloc: Global,
    names: &[Renaming],
    region: &Region,
) -> Result<Region, Stop>
    ensures { Gives result (λ made. made) (sched.region_renamed (map spec.pair_of names.now) region.now) }
{
    spans_behind(alloc, names, Region::new(alloc), region.as_slice())
}

fn renamed_place(alloc: Global, names: &[Renaming], place: &Places) -> Result<Places, Stop>
    ensures { Gives result (λ made. made) (spec.place_renamed (map spec.pair_of names.now) place.now) }
{
    match place {
        Places::From { origin, count } => Ok(Places::From {
            origin: renamed(alloc, names, origin)?,
            count: *count,
        }),
        Places::Folded { count } => Ok(Places::Folded { count: *count }),
    }
}

// Some places, and these behind them.
fn places_behind(
    alloc: Global,
    names: &[Renaming],
    made: Vec<Places>,
    places: &[Places],
) -> Result<Vec<Places>, Stop>
    ensures { Gives result (λ all. all.items) (sched.behind (spec.place_renamed (map spec.pair_of names.now)) made.items places.now) }
{
    match places {
        [] => Ok(made),
        [place, rest @ ..] => {
            let mut made = made;
            made.push(renamed_place(alloc, names, place)?)?;
            places_behind(alloc, names, made, rest)
        }
    }
}

/// The same of places.
pub(crate) fn renamed_places(
    alloc: Global,
    names: &[Renaming],
    places: &[Places],
) -> Result<Vec<Places>, Stop>
    ensures { Gives result (λ made. made.items) (spec.places_renamed (map spec.pair_of names.now) places.now) }
{
    places_behind(alloc, names, Vec::new(alloc), places)
}

/// The same of a step.
pub(crate) fn renamed_step(alloc: Global, names: &[Renaming], step: &Step) -> Result<Step, Stop>
    ensures { Gives result (λ made. made) (sched.step_renamed (map spec.pair_of names.now) step.now) }
{
    match step {
        Step::Turns { symbol, span, kind } => {
            let symbol = name_in(names, *symbol)?;
            let span = renamed_span(alloc, names, span)?;
            Ok(Step::Turns {
                symbol,
                span,
                kind: *kind,
            })
        }
        Step::Named {
            symbol,
            pick,
            forms,
        } => {
            let symbol = name_in(names, *symbol)?;
            let forms = renamed_forms(alloc, names, forms)?;
            Ok(Step::Named {
                symbol,
                pick: *pick,
                forms,
            })
        }
        Step::Tested { low, high } => {
            let low = renamed(alloc, names, low)?;
            let high = renamed(alloc, names, high)?;
            Ok(Step::Tested { low, high })
        }
    }
}

fn renamed_at(alloc: Global, names: &[Renaming], form: &Option<Lin>) -> Result<Option<Lin>, Stop>
    ensures { Gives result (λ made. made) (sched.at_renamed (map spec.pair_of names.now) form.now) }
{
    match form {
        Some(form) => Ok(Some(renamed(alloc, names, form)?)),
        None => Ok(None),
    }
}

// Some coordinates, and these behind them.
fn coordinates_behind(
    alloc: Global,
    names: &[Renaming],
    made: Vec<Option<Lin>>,
    at: &[Option<Lin>],
) -> Result<Vec<Option<Lin>>, Stop>
    ensures { Gives result (λ all. all.items) (sched.behind (sched.at_renamed (map spec.pair_of names.now)) made.items at.now) }
{
    match at {
        [] => Ok(made),
        [form, rest @ ..] => {
            let mut made = made;
            made.push(renamed_at(alloc, names, form)?)?;
            coordinates_behind(alloc, names, made, rest)
        }
    }
}

/// The same of coordinates, of which some have no form.
pub(crate) fn renamed_coordinates(
    alloc: Global,
    names: &[Renaming],
    at: &[Option<Lin>],
) -> Result<Vec<Option<Lin>>, Stop>
    ensures { Gives result (λ made. made.items) (sched.coordinates_renamed (map spec.pair_of names.now) at.now) }
{
    coordinates_behind(alloc, names, Vec::new(alloc), at)
}
