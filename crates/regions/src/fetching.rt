//! What a piece fetches of another stored function, dimension by dimension.

ghost use Rattle.std.specs.Prelude.{◌≡◌, true, [], ◌++◌, IfOk, OnOk, Some, map};
ghost use Rattle.tree.specs.Term.{list_terms, indices};
ghost use Rattle.algo.specs.View.{algorithm_of};
ghost use Rattle.sched.specs.Skeleton.{nest_seen, skeleton_seen};
ghost use Rattle.plan.specs.declared.stmt.Places.TheVariants.{From};
ghost use Rattle.regions.specs.Asked as asked;
ghost use Rattle.regions.specs.Needs as needs;
ghost use Rattle.sched.specs.Around.{around_of, grid_scope as grid_scope_of};
ghost use Rattle.sched.specs.Calls.{call_of};
ghost use Rattle.regions.specs.Demanded as demanded;
ghost use Rattle.sched.specs.Groups.{root_of};
ghost use Rattle.sched.specs.Limited.{Tells, TellsIf, Gives};
ghost use Rattle.sched.specs.Placed.{inner_seen, later_seen};
ghost use Rattle.sched.specs.Stored.{formula_of, stored_of};
ghost use Rattle.regions.specs.Stored.{some_calls};
ghost use Rattle.regions.specs.Taken as spec;
ghost use Rattle.regions.specs.Taken.{FindsPart, FindsPlaces};
ghost use Rattle.sched.specs.Taken.{site_of};

use crate::pieces::pieces_of;
use crate::regions::formulas_call;
use algo::Algo;
use algo::scoping::same_name;
use lin::{Forms, Lin, Region, Scope, Span1, Sym};
use numeric::Ty;
use plan::Places;
use sched::calls::{Call, calls_of};
use sched::definitions::Formula;
use sched::ends::is_rounded;
use sched::forms::{is_inside, last_of, whole};
use sched::hosts::{Inner, Later};
use sched::roots::{Root, Site};
use sched::scopes::{Around, around_in, grid_scope, head_scope, interval};
use sched::stop::Stop;
use sched::windows::{freed, places_of, run_of, shortest, symbols_from};
use sched::{Extent, Nest};
use std::alloc::{AllocError, Global};
use tree::Expr;

/// How many forms of a side a fetched region has at most, beside a number.
const MOST_FORMS: usize = 3;

/// What a piece has of another function.
#[derive(Drop)]
pub struct Fetched {
    pub region: Region,
    pub places: Vec<Places>,
    /// The pieces that own what is fetched, in the other function's grid.
    pub needed: Region,
}

/// One dimension of what is fetched, and its places in the buffer.
#[derive(Drop)]
pub struct Part {
    pub span: Span1,
    pub places: Places,
}

// ---- what is called

// What indices stay within, behind others.
fn add_spans(
    alloc: Global,
    algo: &Algo,
    around: &Around<'_>,
    at: &[Expr],
    spans: &mut Region,
) -> Result<(), Stop>
    ensures { Tells result spans.new (spec.add_spans (algorithm_of algo.now) (around_of around.now) (indices (list_terms at.now)) spans.old) }
{
    match at {
        [] => Ok(()),
        [index, rest @ ..] => {
            let span = interval(alloc, algo, around, index)?;
            spans.push(span)?;
            add_spans(alloc, algo, around, rest, spans)
        }
    }
}

// What the indices of a call stay within, if it is of this function.
fn add_call(
    alloc: Global,
    algo: &Algo,
    around: &Around<'_>,
    callee: &str,
    call: &Call<'_>,
    found: &mut Vec<Region>,
) -> Result<(), Stop>
    ensures { Tells result found.new.items (spec.add_call (algorithm_of algo.now) (around_of around.now) callee.now (call_of call.now) found.old.items) }
{
    if same_name(call.name, callee) {
        let mut spans = Region::new(alloc);
        add_spans(alloc, algo, around, call.at, &mut spans)?;
        found.push(spans)?;
    }
    Ok(())
}

fn add_calls(
    alloc: Global,
    algo: &Algo,
    around: &Around<'_>,
    callee: &str,
    calls: &[Call<'_>],
    found: &mut Vec<Region>,
) -> Result<(), Stop>
    ensures { Tells result found.new.items (spec.add_calls (algorithm_of algo.now) (around_of around.now) callee.now (map call_of calls.now) found.old.items) }
{
    match calls {
        [] => Ok(()),
        [call, rest @ ..] => {
            add_call(alloc, algo, around, callee, call, found)?;
            add_calls(alloc, algo, around, callee, rest, found)
        }
    }
}

// The calls of a definition, if there are any.
#[tactic(auto, using(crate::proofs::Taken::site_none, crate::proofs::Taken::site_some))]
fn with_site(scope: Scope, calls: Vec<Region>, sites: &mut Vec<Site>) -> Result<(), AllocError>
    ensures { OnOk result (map site_of sites.new.items ≡ spec.with_site scope calls.items (map site_of sites.old.items)) }
{
    if calls.is_empty() {
        return Ok(());
    }
    sites.push(Site { scope, calls })?;
    Ok(())
}

fn add_site(
    alloc: Global,
    algo: &Algo,
    user: &Root<'_>,
    outer: &Scope,
    callee: &str,
    definition: usize,
    formula: &Formula,
    nest: &Nest,
    sites: &mut Vec<Site>,
) -> Result<(), Stop>
    ensures { Tells result (map site_of sites.new.items) (spec.add_site (algorithm_of algo.now) (stored_of user.now.stored.now) outer.now callee.now
        definition (formula_of formula.now) (nest_seen nest.now) (map site_of sites.old.items)) }
{
    let calls = calls_of(alloc, formula)?;
    let around = around_in(alloc, algo, user.stored, outer, nest, formula, definition)?;
    let mut found = Vec::new(alloc);
    add_calls(alloc, algo, &around, callee, &calls, &mut found)?;
    with_site(around.scope, found, sites)?;
    Ok(())
}

fn is_asked(only: Option<usize>, definition: usize) -> bool
    ensures { result ≡ spec.is_asked only definition }
{
    match only {
        Some(one) => one == definition,
        None => true,
    }
}

// The calls in the definitions from this number on.
fn sites_from(
    alloc: Global,
    algo: &Algo,
    user: &Root<'_>,
    outer: &Scope,
    only: Option<usize>,
    callee: &str,
    definition: usize,
    formulas: &[Formula],
    nests: &[Nest],
    sites: &mut Vec<Site>,
) -> Result<(), Stop>
    ensures { Tells result (map site_of sites.new.items) (spec.add_sites (algorithm_of algo.now) (stored_of user.now.stored.now) outer.now only callee.now
        definition (map formula_of formulas.now) (map nest_seen nests.now) (map site_of sites.old.items)) }
{
    match nests {
        [] => Ok(()),
        [nest, others @ ..] => match formulas {
            [] => Ok(()),
            [formula, rest @ ..] => {
                let Some(next) = definition.checked_add(1) else {
                    return Err(Stop::Memory);
                };
                if is_asked(only, definition) {
                    add_site(
                        alloc, algo, user, outer, callee, definition, formula, nest, sites,
                    )?;
                }
                sites_from(
                    alloc, algo, user, outer, only, callee, next, rest, others, sites,
                )
            }
        },
    }
}

/// Adds the calls of a function in the nests of another one, or in that of one definition, inside of other symbols.
pub(crate) fn add_sites(
    alloc: Global,
    algo: &Algo,
    user: &Root<'_>,
    outer: &Scope,
    nests: &[Nest],
    only: Option<usize>,
    callee: &str,
    sites: &mut Vec<Site>,
) -> Result<(), Stop>
    ensures { Tells result (map site_of sites.new.items) (spec.add_sites (algorithm_of algo.now) (stored_of user.now.stored.now) outer.now only callee.now
        0 (map formula_of user.now.formulas.now) (map nest_seen nests.now) (map site_of sites.old.items)) }
{
    sites_from(
        alloc,
        algo,
        user,
        outer,
        only,
        callee,
        0,
        user.formulas,
        nests,
        sites,
    )
}

// Adds the calls in the nests over what is new, where their last block runs past the end of what is needed.
fn add_later_sites(
    alloc: Global,
    algo: &Algo,
    root: &Root<'_>,
    later: &Later,
    callee: &str,
    sites: &mut Vec<Site>,
) -> Result<(), Stop>
    ensures { Tells result (map site_of sites.new.items) (demanded.add_later (algorithm_of algo.now) callee.now (stored_of root.now.stored.now)
        (map formula_of root.now.formulas.now) (Some (later_seen later.now)) (map site_of sites.old.items)) }
{
    if !is_rounded(root, later.dimension) {
        return Ok(());
    }
    let Later { scope, nests, .. } = later;
    add_sites(alloc, algo, root, scope, nests, None, callee, sites)
}

/// Adds the calls of a function in the nests of one that is computed inside loops: in those over what is new too, where their
/// last block runs past the end of what is needed.
pub(crate) fn add_inner_sites(
    alloc: Global,
    algo: &Algo,
    inner: &Inner<'_>,
    callee: &str,
    sites: &mut Vec<Site>,
) -> Result<(), Stop>
    ensures { Tells result (map site_of sites.new.items) (demanded.add_inner (algorithm_of algo.now) callee.now (inner_seen inner.now)
        (map site_of sites.old.items)) }
{
    let Inner {
        root,
        scope,
        nests,
        ..
    } = inner;
    add_sites(alloc, algo, root, scope, nests, None, callee, sites)?;
    match &inner.later {
        Some(later) => add_later_sites(alloc, algo, root, later, callee, sites),
        None => Ok(()),
    }
}

// Those of the functions that are computed inside loops.
fn add_inners(
    alloc: Global,
    algo: &Algo,
    inners: &[Inner<'_>],
    callee: &str,
    sites: &mut Vec<Site>,
) -> Result<(), Stop>
    ensures all { Tells result (map site_of sites.new.items) (asked.add_inners (algorithm_of algo.now) callee.now (map inner_seen inners.now)
        (map site_of sites.old.items)) }
    ensures made { OnOk result (inners.now ≡ [] → sites.new ≡ sites.old) }
    ensures told { inners.now ≡ [] → TellsIf result true }
{
    match inners {
        [] => Ok(()),
        [inner, rest @ ..] => {
            add_inner_sites(alloc, algo, inner, callee, sites)?;
            add_inners(alloc, algo, rest, callee, sites)
        }
    }
}

/// The calls of the function in a group: in the nests of its own function, and of those that are computed inside.
pub fn sites_of(
    alloc: Global,
    algo: &Algo,
    user: &Root<'_>,
    inners: &[Inner<'_>],
    callee: &str,
) -> Result<Vec<Site>, Stop>
    ensures all { Gives result (λ v. map site_of v.items) (asked.sites_in (algorithm_of algo.now) callee.now (root_of user.now) (map inner_seen inners.now)) }
    ensures own { inners.now ≡ [] → Gives result (λ v. map site_of v.items) (spec.sites_of (algorithm_of algo.now) (stored_of user.now.stored.now)
        (map formula_of user.now.formulas.now) (skeleton_seen user.now.laid.now.skeleton) callee.now) }
{
    let mut sites = Vec::new(alloc);
    let skeleton = &user.laid.skeleton;
    let outer = head_scope(alloc, skeleton)?;
    add_sites(
        alloc,
        algo,
        user,
        &outer,
        &skeleton.nests,
        None,
        callee,
        &mut sites,
    )?;
    add_inners(alloc, algo, inners, callee, &mut sites)?;
    Ok(sites)
}

// ---- the fetched region

fn with_span(alloc: Global, grid: &Scope, known: Option<Span1>, next: Span1) -> Result<Span1, Stop>
    ensures { Gives result (λ span. span) (spec.either grid.now known next) }
{
    match known {
        None => Ok(next),
        Some(known) => match bounds::choice(alloc, grid, Ty::I32, &known, &next)? {
            Some(both) => Ok(both),
            None => Err(Stop::Limit),
        },
    }
}

// What is known, with what a call needs in a dimension.
fn with_call(
    alloc: Global,
    grid: &Scope,
    scope: &Scope,
    inner: &[Sym],
    dimension: usize,
    call: &Region,
    known: Option<Span1>,
) -> Result<Option<Span1>, Stop>
    ensures { Gives result (λ o. o) (spec.with_call grid.now scope.now inner.now dimension call.now known) }
{
    let Some(span) = call.as_slice().get(dimension) else {
        return Err(Stop::Limit);
    };
    let free = freed(alloc, scope, inner, span)?;
    let both = with_span(alloc, grid, known, free)?;
    Ok(Some(both))
}

fn with_calls(
    alloc: Global,
    grid: &Scope,
    scope: &Scope,
    inner: &[Sym],
    dimension: usize,
    calls: &[Region],
    known: Option<Span1>,
) -> Result<Option<Span1>, Stop>
    ensures { Gives result (λ o. o) (spec.with_calls grid.now scope.now inner.now dimension calls.now known) }
{
    match calls {
        [] => Ok(known),
        [call, rest @ ..] => {
            let next = with_call(alloc, grid, scope, inner, dimension, call, known)?;
            with_calls(alloc, grid, scope, inner, dimension, rest, next)
        }
    }
}

// What is known, with what the calls of these definitions need in a dimension, over the grid alone.
fn with_sites(
    alloc: Global,
    grid: &Scope,
    sites: &[Site],
    dimension: usize,
    known: Option<Span1>,
) -> Result<Option<Span1>, Stop>
    ensures { Gives result (λ o. o) (spec.with_sites grid.now dimension (map site_of sites.now) known) }
{
    match sites {
        [] => Ok(known),
        [site, rest @ ..] => {
            let inner = symbols_from(alloc, grid.len(), site.scope.len())?;
            let next = with_calls(
                alloc,
                grid,
                &site.scope,
                &inner,
                dimension,
                &site.calls,
                known,
            )?;
            with_sites(alloc, grid, rest, dimension, next)
        }
    }
}

/// The union of what all calls need in a dimension.
pub(crate) fn needed_span(
    alloc: Global,
    grid: &Scope,
    sites: &[Site],
    dimension: usize,
) -> Result<Span1, Stop>
    ensures { Gives result (λ span. span) (spec.needed_span grid.now (map site_of sites.now) dimension) }
{
    match with_sites(alloc, grid, sites, dimension, None)? {
        Some(span) => Ok(span),
        None => Err(Stop::Limit),
    }
}

// The first forms that are no numbers.
fn symbolic(alloc: Global, forms: &[Lin]) -> Result<Forms, AllocError>
    ensures { IfOk result (λ kept. kept ≡ spec.add_symbolic [] forms.now) }
{
    let mut kept = Forms::new(alloc);
    for form in forms {
        if !form.is_number() && kept.as_slice().len() < MOST_FORMS {
            kept.push(form.copy(alloc)?)?;
        }
    }
    Ok(kept)
}

// The greatest of some numbers among the forms and another one.
fn greatest_from(forms: &[Lin], first: i64) -> i64
    ensures { result ≡ spec.greatest_from forms.now first }
{
    let mut greatest = first;
    for form in forms {
        if form.is_number() && greatest < form.constant() {
            greatest = form.constant();
        }
    }
    greatest
}

fn least_from(forms: &[Lin], first: i64) -> i64
    ensures { result ≡ spec.least_from forms.now first }
{
    let mut least = first;
    for form in forms {
        if form.is_number() && form.constant() < least {
            least = form.constant();
        }
    }
    least
}

// The span with the ends of the other function's region as further forms.
fn cut_span(alloc: Global, span: &Span1, extent: &Extent) -> Result<Span1, AllocError>
    ensures { IfOk result (λ cut. cut ≡ spec.cut span.now extent.now) }
{
    let low = greatest_from(span.lower.as_slice(), i64::from(extent.low));
    let high = least_from(span.upper.as_slice(), last_of(extent));
    let mut lower = symbolic(alloc, span.lower.as_slice())?;
    lower.push(Lin::number(alloc, low))?;
    let mut upper = symbolic(alloc, span.upper.as_slice())?;
    upper.push(Lin::number(alloc, high))?;
    Ok(Span1 { lower, upper })
}

// Whether each call of the dimension is shown to lie in the span.
fn hold_calls(
    alloc: Global,
    sites: &[Site],
    dimension: usize,
    span: &Span1,
) -> Result<bool, AllocError>
    ensures { IfOk result (λ yes. yes ≡ spec.hold_calls (map site_of sites.now) dimension span.now) }
{
    match sites {
        [] => Ok(true),
        [site, rest @ ..] => {
            if holds_calls(alloc, &site.scope, &site.calls, dimension, span)? {
                hold_calls(alloc, rest, dimension, span)
            } else {
                Ok(false)
            }
        }
    }
}

fn holds_call(
    alloc: Global,
    scope: &Scope,
    call: &Region,
    dimension: usize,
    span: &Span1,
) -> Result<bool, AllocError>
    ensures { IfOk result (λ yes. yes ≡ spec.holds_call scope.now dimension span.now call.now) }
{
    match call.as_slice().get(dimension) {
        Some(called) => is_inside(alloc, scope, called, span),
        None => Ok(false),
    }
}

fn holds_calls(
    alloc: Global,
    scope: &Scope,
    calls: &[Region],
    dimension: usize,
    span: &Span1,
) -> Result<bool, AllocError>
    ensures { IfOk result (λ yes. yes ≡ spec.holds_calls scope.now dimension span.now calls.now) }
{
    match calls {
        [] => Ok(true),
        [call, rest @ ..] => {
            if holds_call(alloc, scope, call, dimension, span)? {
                holds_calls(alloc, scope, rest, dimension, span)
            } else {
                Ok(false)
            }
        }
    }
}

// Whether a span and the numbers that have places are shown to hold all calls, and the places the span.
fn is_shown(
    alloc: Global,
    grid: &Scope,
    sites: &[Site],
    dimension: usize,
    span: &Span1,
    seats: &Span1,
) -> Result<bool, AllocError>
    ensures { IfOk result (λ yes. yes ≡ spec.is_shown grid.now (map site_of sites.now) dimension span.now seats.now) }
{
    if !hold_calls(alloc, sites, dimension, span)? {
        return Ok(false);
    }
    if !hold_calls(alloc, sites, dimension, seats)? {
        return Ok(false);
    }
    is_inside(alloc, grid, span, seats)
}

// Places for a span, where both are shown to hold the calls.
fn places_for(
    alloc: Global,
    grid: &Scope,
    sites: &[Site],
    dimension: usize,
    span: &Span1,
) -> Result<Option<Places>, Stop>
    ensures { FindsPlaces span.now result (spec.seated grid.now (map site_of sites.now) dimension span.now) }
{
    let Some((place, count)) = shortest(alloc, grid, span)? else {
        return Ok(None);
    };
    let Some(origin) = span.lower.as_slice().get(place) else {
        return Ok(None);
    };
    let seats = run_of(alloc, origin, count)?;
    if !is_shown(alloc, grid, sites, dimension, span, &seats)? {
        return Ok(None);
    }
    let places = places_of(alloc, origin, count)?;
    Ok(Some(places))
}

// The span with its places, where it has some.
fn seated(
    alloc: Global,
    grid: &Scope,
    sites: &[Site],
    dimension: usize,
    span: Span1,
) -> Result<Option<Part>, Stop>
    ensures { FindsPart result (spec.seated grid.now (map site_of sites.now) dimension span) }
{
    match places_for(alloc, grid, sites, dimension, &span)? {
        Some(places) => Ok(Some(Part { span, places })),
        None => Ok(None),
    }
}

// What the calls need of a dimension, cut to the region.
fn needed_part(
    alloc: Global,
    grid: &Scope,
    sites: &[Site],
    dimension: usize,
    extent: &Extent,
) -> Result<Span1, Stop>
    ensures { Gives result (λ span. span) (spec.needed_part grid.now (map site_of sites.now) dimension extent.now) }
{
    let needed = needed_span(alloc, grid, sites, dimension)?;
    Ok(cut_span(alloc, &needed, extent)?)
}

// The span that the calls need, with places for it, where both are shown to hold them.
fn tight(
    alloc: Global,
    grid: &Scope,
    sites: &[Site],
    dimension: usize,
    extent: &Extent,
) -> Result<Option<Part>, Stop>
    ensures { FindsPart result (spec.tight grid.now (map site_of sites.now) dimension extent.now) }
{
    let span = needed_part(alloc, grid, sites, dimension, extent)?;
    seated(alloc, grid, sites, dimension, span)
}

// All of a dimension.
fn all_of(alloc: Global, extent: &Extent) -> Result<Part, AllocError>
    ensures { IfOk result (λ part. part ≡ spec.all_of extent.now) }
{
    let low = Lin::number(alloc, i64::from(extent.low));
    Ok(Part {
        span: whole(alloc, extent)?,
        places: Places::From {
            origin: low,
            count: u64::from(extent.count),
        },
    })
}

// What is fetched of a dimension: what the calls need, or all of it.
fn part_of(
    alloc: Global,
    grid: &Scope,
    sites: &[Site],
    dimension: usize,
    extent: &Extent,
) -> Result<Part, AllocError>
    ensures { IfOk result (λ part. part ≡ spec.part_of grid.now (map site_of sites.now) dimension extent.now) }
{
    match tight(alloc, grid, sites, dimension, extent) {
        Ok(Some(part)) => Ok(part),
        Ok(None) | Err(Stop::Limit) => all_of(alloc, extent),
        Err(Stop::Memory) => Err(AllocError),
    }
}

// ---- what is called of another function

/// Whether a piece calls the function of this name, for itself or for what is computed inside its loops.
pub fn is_called(
    alloc: Global,
    user: &Root<'_>,
    inners: &[Inner<'_>],
    sites: &[Site],
    name: &str,
) -> Result<bool, AllocError>
    ensures { IfOk result (λ yes. inners.now ≡ [] → yes ≡ some_calls name.now (map formula_of user.now.formulas.now)) }
{
    match inners {
        [] => formulas_call(alloc, user.formulas, name),
        [_first, _rest @ ..] => Ok(!sites.is_empty()),
    }
}

// What is fetched from this dimension on, and its places.
fn add_parts(
    alloc: Global,
    grid: &Scope,
    sites: &[Site],
    dimension: usize,
    extents: &[Extent],
    region: &mut Region,
    places: &mut Vec<Places>,
) -> Result<(), AllocError>
    ensures region { OnOk result (region.new ≡ region.old ++ spec.taken_region grid.now (map site_of sites.now) dimension extents.now) }
    ensures places { OnOk result (places.new.items ≡ places.old.items ++ spec.taken_places grid.now (map site_of sites.now) dimension extents.now) }
{
    match extents {
        [] => Ok(()),
        [extent, rest @ ..] => {
            let Some(next) = dimension.checked_add(1) else {
                return Err(AllocError);
            };
            let part = part_of(alloc, grid, sites, dimension, extent)?;
            region.push(part.span)?;
            places.push(part.places)?;
            add_parts(alloc, grid, sites, next, rest, region, places)
        }
    }
}

/// What these calls fetch.
pub fn fetched_by(
    alloc: Global,
    user: &Root<'_>,
    callee: &Root<'_>,
    sites: &[Site],
) -> Result<Fetched, AllocError>
    ensures region { IfOk result (λ found. found.region ≡ spec.taken_region (grid_scope_of user.now.laid.now.skeleton.grid.items) (map site_of sites.now)
        0 callee.now.laid.now.region.items) }
    ensures places { IfOk result (λ found. found.places.items ≡ spec.taken_places (grid_scope_of user.now.laid.now.skeleton.grid.items)
        (map site_of sites.now) 0 callee.now.laid.now.region.items) }
    ensures pieces { IfOk result (λ found. found.needed ≡ needs.pieces_needed (stored_of callee.now.stored.now) callee.now.laid.now.region.items
        callee.now.laid.now.skeleton.grid.items found.region) }
{
    let grid = grid_scope(alloc, &user.laid.skeleton.grid)?;
    let mut region = Region::new(alloc);
    let mut places = Vec::new(alloc);
    let extents = &callee.laid.region;
    add_parts(alloc, &grid, sites, 0, extents, &mut region, &mut places)?;
    let needed = pieces_of(alloc, callee, &region)?;
    Ok(Fetched {
        region,
        places,
        needed,
    })
}
