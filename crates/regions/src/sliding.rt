//! How a function that is computed inside a loop keeps what the turns before have made.

ghost use Rattle.std.specs.Prelude.{◌≡◌, ◌++◌, [], true, false, if◌then◌else◌, ◌&&◌, ◌||◌, IfOk, OnOk, Some, map};
ghost use Rattle.std.specs.List.{list_all, list_any};
ghost use Rattle.std.specs.Option.{option_map};
ghost use Rattle.meaning.specs.Names.{same_name};
ghost use Rattle.sched.specs.Limited.{Gives, Tells};
ghost use Rattle.regions.specs.Seats as seats;
ghost use Rattle.regions.specs.Slid as spec;
ghost use Rattle.sched.specs.Stored.{formula_of, stored_of};

use crate::forms::MOST_FORMS;
use crate::windows::{all_fit, window_size};
use lin::{Forms, Lin, Region, Scope, Span1, Sym};
use plan::{Pick, Places};
use sched::definitions::is_single;
use sched::forms::raised;
use sched::roots::Root;
use sched::stop::Stop;
use sched::windows::{freed, shortest};
use sched::{Split, Step};
use std::alloc::{AllocError, Global};
use tree::token::Name;

/// The loop along which a function may slide, and what stands in it.
#[derive(Drop)]
pub struct Track {
    /// The symbol of the loop.
    pub symbol: Sym,
    /// What the loop runs over.
    pub span: Span1,
    /// The symbols of the lets behind the loop.
    pub lets: Vec<Sym>,
    /// Whether a guard stands behind the loop.
    pub is_guarded: bool,
}

/// The dimension in which a function slides, and along which loop.
#[derive(Drop)]
pub struct Sliding {
    pub track: Track,
    pub dimension: usize,
}

// ---- the loop

impl Sliding {
    /// Whether no let and no guard stands behind the loop.
    pub fn is_bare(&self) -> bool
        ensures { result ≡ spec.is_bare (spec.sliding_seen self.now).0 }
    {
        self.track.lets.is_empty() && !self.track.is_guarded
    }

    /// Whether the loop may have a second turn.
    pub fn is_repeated(&self, alloc: Global, scope: &Scope) -> Result<bool, AllocError>
        ensures { IfOk result (λ yes. yes ≡ spec.is_repeated scope.now (spec.sliding_seen self.now).0) }
    {
        match shortest(alloc, scope, &self.track.span)? {
            Some((_, count)) => Ok(count > 1),
            None => Ok(true),
        }
    }
}

// The lets of the steps, behind others.
fn add_lets(steps: &[Step], lets: &mut Vec<Sym>) -> Result<(), AllocError>
    ensures { OnOk result (lets.new.items ≡ lets.old.items ++ spec.lets_of steps.now) }
{
    match steps {
        [] => Ok(()),
        [step, rest @ ..] => match step {
            Step::Named { symbol, .. } => {
                lets.push(*symbol)?;
                add_lets(rest, lets)
            }
            Step::Turns { .. } => add_lets(rest, lets),
            Step::Tested { .. } => add_lets(rest, lets),
        },
    }
}

fn is_test(step: &Step) -> bool
    ensures { result ≡ spec.is_test step.now }
{
    matches!(step, Step::Tested { .. })
}

fn has_test(steps: &[Step]) -> bool
    ensures { result ≡ list_any spec.is_test steps.now }
{
    steps.iter().any(|step| is_test(step))
}

// The loop of a step, with what stands behind it.
fn track_here(alloc: Global, step: &Step, behind: &[Step]) -> Result<Option<Track>, AllocError>
    ensures { IfOk result (λ found. option_map spec.track_seen found ≡ spec.track_here step.now behind.now) }
{
    match step {
        Step::Turns { symbol, span, .. } => {
            let mut lets = Vec::new(alloc);
            add_lets(behind, &mut lets)?;
            Ok(Some(Track {
                symbol: *symbol,
                span: span.copy(alloc)?,
                lets,
                is_guarded: has_test(behind),
            }))
        }
        Step::Named { .. } | Step::Tested { .. } => Ok(None),
    }
}

/// The innermost loop of the steps, with what stands behind it.
pub fn track_of(alloc: Global, steps: &[Step]) -> Result<Option<Track>, AllocError>
    ensures { IfOk result (λ found. option_map spec.track_seen found ≡ spec.track_of steps.now) }
{
    match steps {
        [] => Ok(None),
        [step, rest @ ..] => match track_of(alloc, rest)? {
            Some(track) => Ok(Some(track)),
            None => Ok(track_here(alloc, step, rest)?),
        },
    }
}

fn has(form: &Lin, symbol: Sym) -> bool
    ensures { result ≡ spec.has form.now symbol }
{
    form.factor(symbol) != 0
}

fn is_low(form: &Lin, symbol: Sym) -> bool
    ensures { result ≡ spec.is_low form.now symbol }
{
    form.factor(symbol) >= 0
}

fn has_any(form: &Lin, symbols: &[Sym]) -> bool
    ensures { result ≡ list_any (spec.has form.now) symbols.now }
{
    match symbols {
        [] => false,
        [symbol, rest @ ..] => has(form, *symbol) || has_any(form, rest),
    }
}

fn is_named(form: &Lin, track: &Track) -> bool
    ensures { result ≡ spec.is_named (spec.track_seen track.now) form.now }
{
    has(form, track.symbol) || has_any(form, &track.lets)
}

fn are_named(forms: &[Lin], track: &Track) -> bool
    ensures { result ≡ list_any (spec.is_named (spec.track_seen track.now)) forms.now }
{
    forms.iter().any(|form| is_named(form, track))
}

/// Whether an end of a span moves with the loop: it has its symbol, or that of a let behind it.
pub fn moves(span: &Span1, track: &Track) -> bool
    ensures { result ≡ spec.moves (spec.track_seen track.now) span.now }
{
    are_named(span.lower.as_slice(), track) || are_named(span.upper.as_slice(), track)
}

fn are_low(form: &Lin, symbols: &[Sym]) -> bool
    ensures { result ≡ list_all (spec.is_low form.now) symbols.now }
{
    match symbols {
        [] => true,
        [symbol, rest @ ..] => is_low(form, *symbol) && are_low(form, rest),
    }
}

fn is_rising(form: &Lin, track: &Track) -> bool
    ensures { result ≡ spec.is_rising (spec.track_seen track.now) form.now }
{
    is_low(form, track.symbol) && are_low(form, &track.lets)
}

fn are_rising(forms: &[Lin], track: &Track) -> bool
    ensures { result ≡ list_all (spec.is_rising (spec.track_seen track.now)) forms.now }
{
    forms.iter().all(|form| is_rising(form, track))
}

// Whether neither end falls from turn to turn.
fn rises(span: &Span1, track: &Track) -> bool
    ensures { result ≡ spec.rises (spec.track_seen track.now) span.now }
{
    are_rising(span.lower.as_slice(), track) && are_rising(span.upper.as_slice(), track)
}

// Of the dimensions from this one on the only one that moves, where this one before them does, and where it never falls.
fn slid_from(
    spans: &[Span1],
    track: &Track,
    dimension: usize,
    found: Option<usize>,
) -> Result<Option<usize>, AllocError>
    ensures { IfOk result (λ last. last ≡ spec.slid_from (spec.track_seen track.now) dimension spans.now found) }
{
    match spans {
        [] => Ok(found),
        [span, rest @ ..] => {
            let Some(next) = dimension.checked_add(1) else {
                return Err(AllocError);
            };
            if !moves(span, track) {
                return slid_from(rest, track, next, found);
            }
            if found.is_some() {
                return Ok(None);
            }
            if !rises(span, track) {
                return Ok(None);
            }
            slid_from(rest, track, next, Some(dimension))
        }
    }
}

/// The dimension in which a region slides along the loop: the only one that moves, where it never falls.
pub fn sliding_dimension(region: &Region, track: &Track) -> Result<Option<usize>, AllocError>
    ensures { IfOk result (λ found. found ≡ spec.sliding_dimension (spec.track_seen track.now) region.now) }
{
    slid_from(region.as_slice(), track, 0, None)
}

// ---- what is new

// What a form needs to be one past what it was in the turn before.
fn offset(form: &Lin, symbol: Sym) -> i64
    ensures { result ≡ spec.offset symbol form.now }
{
    1_i64.saturating_sub(form.factor(symbol))
}

// One past what a form was in the turn before.
fn past(alloc: Global, form: &Lin, symbol: Sym) -> Result<Lin, Stop>
    ensures { Gives result (λ made. made) (spec.past symbol form.now) }
{
    raised(alloc, form, offset(form, symbol))
}

// One past the last number of the turn before, for each of the upper forms, behind others.
fn add_new(alloc: Global, upper: &[Lin], symbol: Sym, forms: &mut Forms) -> Result<(), Stop>
    ensures { Tells result forms.new (spec.add_new symbol upper.now forms.old) }
{
    match upper {
        [] => Ok(()),
        [form, rest @ ..] => {
            let one = past(alloc, form, symbol)?;
            forms.push(one)?;
            add_new(alloc, rest, symbol, forms)
        }
    }
}

/// The same of a span.
pub fn new_from(alloc: Global, span: &Span1, symbol: Sym) -> Result<Forms, Stop>
    ensures { Gives result (λ forms. forms) (spec.new_from symbol span.now) }
{
    let mut forms = Forms::new(alloc);
    add_new(alloc, span.upper.as_slice(), symbol, &mut forms)?;
    Ok(forms)
}

// Whether the form at a place is shown to be at most one of the others, of which the first has this number.
fn is_spare(
    alloc: Global,
    scope: &Scope,
    form: &Lin,
    place: usize,
    number: usize,
    others: &[Lin],
) -> Result<bool, AllocError>
    ensures { IfOk result (λ yes. yes ≡ spec.is_spare scope.now form.now place number others.now) }
{
    match others {
        [] => Ok(false),
        [one, rest @ ..] => {
            let Some(next) = number.checked_add(1) else {
                return Err(AllocError);
            };
            if number != place && scope.at_most(alloc, form, one)? {
                Ok(true)
            } else {
                is_spare(alloc, scope, form, place, next, rest)
            }
        }
    }
}

// The place of the first of these forms, from a place on, that is at most another one of all; else the last.
fn spare_from(
    alloc: Global,
    scope: &Scope,
    all: &[Lin],
    place: usize,
    forms: &[Lin],
) -> Result<usize, AllocError>
    ensures { IfOk result (λ spare. spare ≡ spec.spare_from scope.now all.now place forms.now) }
{
    match forms {
        [] => Ok(all.len().saturating_sub(1)),
        [form, rest @ ..] => {
            let Some(next) = place.checked_add(1) else {
                return Err(AllocError);
            };
            if is_spare(alloc, scope, form, place, 0, all)? {
                Ok(place)
            } else {
                spare_from(alloc, scope, all, next, rest)
            }
        }
    }
}

// The place of a lower form that is not needed where there are as many as a side may have.
fn spare_place(alloc: Global, scope: &Scope, forms: &[Lin]) -> Result<usize, AllocError>
    ensures { IfOk result (λ spare. spare ≡ spec.spare_place scope.now forms.now) }
{
    if forms.len() < MOST_FORMS {
        return Ok(forms.len());
    }
    Ok(spare_from(alloc, scope, forms, 0, forms)?)
}

// The forms but one, behind others.
fn add_others(
    alloc: Global,
    spare: usize,
    place: usize,
    forms: &[Lin],
    lower: &mut Forms,
) -> Result<(), AllocError>
    ensures { OnOk result (lower.new ≡ lower.old ++ spec.others_from spare place forms.now) }
{
    match forms {
        [] => Ok(()),
        [form, rest @ ..] => {
            let Some(next) = place.checked_add(1) else {
                return Err(AllocError);
            };
            if place != spare {
                lower.push(form.copy(alloc)?)?;
            }
            add_others(alloc, spare, next, rest, lower)
        }
    }
}

// The span from the symbol on that follows those of the scope; of as many forms as a side may have one goes.
fn from_symbol(alloc: Global, scope: &Scope, span: &Span1) -> Result<Span1, AllocError>
    ensures { IfOk result (λ new. new ≡ spec.from_symbol scope.now span.now) }
{
    let spare = spare_place(alloc, scope, span.lower.as_slice())?;
    let mut lower = Forms::new(alloc);
    lower.push(Lin::symbol(alloc, scope.len())?)?;
    add_others(alloc, spare, 0, span.lower.as_slice(), &mut lower)?;
    Ok(Span1 {
        lower,
        upper: span.upper.copy(alloc)?,
    })
}

fn new_span(alloc: Global, scope: &Scope, is_along: bool, span: &Span1) -> Result<Span1, AllocError>
    ensures { IfOk result (λ new. new ≡ (if is_along then spec.from_symbol scope.now span.now else span.now)) }
{
    if is_along {
        Ok(from_symbol(alloc, scope, span)?)
    } else {
        Ok(span.copy(alloc)?)
    }
}

/// The region, of the dimension from the symbol on that follows those of the scope.
pub fn new_region(
    alloc: Global,
    scope: &Scope,
    region: &Region,
    along: usize,
) -> Result<Region, AllocError>
    ensures { IfOk result (λ new. new ≡ spec.new_region scope.now along 0 region.now) }
{
    let mut made = Region::new(alloc);
    for (dimension, span) in region.as_slice().iter().enumerate() {
        let one = new_span(alloc, scope, dimension == along, span)?;
        made.push(one)?;
    }
    Ok(made)
}

// Whether the form is shown to be at most each of the others.
fn is_below(alloc: Global, scope: &Scope, form: &Lin, others: &[Lin]) -> Result<bool, AllocError>
    ensures { IfOk result (λ yes. yes ≡ spec.is_below scope.now form.now others.now) }
{
    match others {
        [] => Ok(true),
        [other, rest @ ..] => {
            if scope.at_most(alloc, form, other)? {
                is_below(alloc, scope, form, rest)
            } else {
                Ok(false)
            }
        }
    }
}

// Whether those of these lower forms that move are shown to be at most one past what the turn before holds.
fn are_joined(
    alloc: Global,
    scope: &Scope,
    track: &Track,
    new: &[Lin],
    lower: &[Lin],
) -> Result<bool, AllocError>
    ensures { IfOk result (λ yes. yes ≡ spec.are_joined scope.now (spec.track_seen track.now) new.now lower.now) }
{
    match lower {
        [] => Ok(true),
        [form, rest @ ..] => {
            if is_named(form, track) {
                if is_below(alloc, scope, form, new)? {
                    are_joined(alloc, scope, track, new, rest)
                } else {
                    Ok(false)
                }
            } else {
                are_joined(alloc, scope, track, new, rest)
            }
        }
    }
}

fn is_open(span: &Span1) -> bool
    ensures { result ≡ spec.is_open span.now }
{
    span.lower.as_slice().is_empty() || span.upper.as_slice().is_empty()
}

// The span that is held, where what a turn needs begins at most one past what the turn before holds.
fn joined(
    alloc: Global,
    scope: &Scope,
    needed: &Span1,
    held: Span1,
    track: &Track,
) -> Result<Option<Span1>, Stop>
    ensures { Gives result (λ found. found) (spec.joined scope.now (spec.track_seen track.now) needed.now held) }
{
    let new = new_from(alloc, &held, track.symbol)?;
    if are_joined(alloc, scope, track, new.as_slice(), needed.lower.as_slice())? {
        Ok(Some(held))
    } else {
        Ok(None)
    }
}

// The span that is needed over the loop's own symbol in place of the lets behind it, where it rises and the turns join.
fn over_loop(
    alloc: Global,
    scope: &Scope,
    needed: &Span1,
    track: &Track,
) -> Result<Option<Span1>, Stop>
    ensures { Gives result (λ found. found) (spec.over_loop scope.now (spec.track_seen track.now) needed.now) }
{
    let held = freed(alloc, scope, track.lets.as_slice(), needed)?;
    if is_open(&held) {
        return Ok(None);
    }
    if !rises(&held, track) {
        return Ok(None);
    }
    joined(alloc, scope, needed, held, track)
}

// The same, none where a form leaves the limits of forms.
fn over_loop_within(
    alloc: Global,
    scope: &Scope,
    needed: &Span1,
    track: &Track,
) -> Result<Option<Span1>, AllocError>
    ensures { IfOk result (λ found. found ≡ spec.if_told (spec.over_loop scope.now (spec.track_seen track.now) needed.now)) }
{
    match over_loop(alloc, scope, needed, track) {
        Ok(found) => Ok(found),
        Err(Stop::Limit) => Ok(None),
        Err(Stop::Memory) => Err(AllocError),
    }
}

// The span in one dimension, in the others the one that there is.
fn span_at(alloc: Global, is_along: bool, one: &Span1, span: &Span1) -> Result<Span1, AllocError>
    ensures { IfOk result (λ made. made ≡ (if is_along then span.now else one.now)) }
{
    if is_along {
        Ok(span.copy(alloc)?)
    } else {
        Ok(one.copy(alloc)?)
    }
}

// The region with another span in a dimension.
fn with_span(
    alloc: Global,
    region: &Region,
    along: usize,
    span: &Span1,
) -> Result<Region, AllocError>
    ensures { IfOk result (λ made. made ≡ spec.with_span along span.now 0 region.now) }
{
    let mut made = Region::new(alloc);
    for (dimension, one) in region.as_slice().iter().enumerate() {
        let one = span_at(alloc, dimension == along, one, span)?;
        made.push(one)?;
    }
    Ok(made)
}

fn has_split(cuts: &[Split], variable: &Name) -> bool
    ensures { result ≡ list_any (λ c. same_name c.whole variable.now) cuts.now }
{
    cuts.iter()
        .any(|cut| cut.whole.as_str() == variable.as_str())
}

// Whether the dimension's loop is split.
#[tactic(auto, using(crate::proofs::Along::split_in, crate::proofs::Along::not_split))]
fn is_split(root: &Root<'_>, dimension: usize) -> bool
    ensures { result ≡ spec.is_split (stored_of root.now.stored.now) dimension }
{
    match root.stored.subject.variables.get(dimension) {
        Some(variable) => has_split(&root.stored.placed.cuts, variable),
        None => false,
    }
}

// What is needed, freed of the lets behind the loop in the dimension in which the function slides; none where it is split there.
fn freed_region(
    alloc: Global,
    root: &Root<'_>,
    scope: &Scope,
    region: &Region,
    sliding: &Sliding,
) -> Result<Option<Region>, AllocError>
    ensures { IfOk result (λ found. found ≡ spec.freed_region (stored_of root.now.stored.now) scope.now (spec.sliding_seen sliding.now).0
        (spec.sliding_seen sliding.now).1 region.now) }
{
    let Some(span) = region.as_slice().get(sliding.dimension) else {
        return Ok(None);
    };
    if is_split(root, sliding.dimension) {
        return Ok(None);
    }
    let Some(held) = over_loop_within(alloc, scope, span, &sliding.track)? else {
        return Ok(None);
    };
    Ok(Some(with_span(alloc, region, sliding.dimension, &held)?))
}

/// What a function without updates holds in each turn of the loop along which it slides: what is needed of it; behind lets that
/// over the loop's own symbol, where it is not split there. None where it makes all in each turn: behind a guard, and where
/// numbers that nobody needs might lie between the turns.
pub fn held_region(
    alloc: Global,
    root: &Root<'_>,
    scope: &Scope,
    region: &Region,
    sliding: &Sliding,
) -> Result<Option<Region>, AllocError>
    ensures { IfOk result (λ found. found ≡ spec.held_region (stored_of root.now.stored.now) (map formula_of root.now.formulas.now) scope.now
        (spec.sliding_seen sliding.now).0 (spec.sliding_seen sliding.now).1 region.now) }
{
    let track = &sliding.track;
    if track.is_guarded {
        return Ok(None);
    }
    if !is_single(root.formulas) {
        return Ok(None);
    }
    if track.lets.is_empty() {
        return Ok(Some(region.copy(alloc)?));
    }
    freed_region(alloc, root, scope, region, sliding)
}

// ---- folds

/// Whether each fold of the function is one of the dimension in which it slides, with places for its window.
#[tactic(auto, using(crate::proofs::Along::fits_no_variable, crate::proofs::Along::fits_no_span, crate::proofs::Along::fits_along))]
pub fn folds_fit(
    alloc: Global,
    root: &Root<'_>,
    scope: &Scope,
    region: &Region,
    sliding: Option<usize>,
) -> Result<bool, AllocError>
    ensures { IfOk result (λ yes. yes ≡ spec.folds_fit (stored_of root.now.stored.now) scope.now region.now sliding) }
{
    let folds = root.stored.placed.folds.as_slice();
    let Some(dimension) = sliding else {
        return Ok(folds.is_empty());
    };
    let Some(variable) = root.stored.subject.variables.get(dimension) else {
        return Ok(false);
    };
    let Some(span) = region.as_slice().get(dimension) else {
        return Ok(false);
    };
    let size = window_size(alloc, scope, span)?;
    Ok(all_fit(variable, size, folds))
}

/// The places, folded in the dimension in which the function slides.
pub fn folded(places: Vec<Places>, sliding: Option<usize>, factor: u64) -> Vec<Places>
    ensures { result.items ≡ seats.folded sliding factor places.items }
{
    let mut places = places;
    let Some(dimension) = sliding else {
        return places;
    };
    if 0 < factor && dimension < places.len() {
        places[dimension] = Places::Folded { count: factor };
    }
    places
}
