//! The first flaw of a group's lines.

ghost use Rattle.std.specs.Prelude.{◌≡◌, ◌&&◌, ◌||◌, ◌==◌, not, ◌+◌, ◌++◌, ◌<◌, drop, ◌^◌, nat_le, nat_lt, length, Bool, true, IfOk, map, slice_get};
ghost use Rattle.std.specs.List.{list_all, list_any};
ghost use Rattle.std.specs.Option.{option_map};
ghost use Rattle.tree.specs.Term.{term_of};
ghost use Rattle.algo.specs.View.{algorithm_of};
ghost use Rattle.plan.specs.Lists.{list_statements};
ghost use Rattle.plan.specs.Plan.{Guard, block};
ghost use Rattle.plan.specs.View.{coordinate_of, statement_of};
ghost use Rattle.lin.specs.Forms.{is_within_limits as is_limited};
ghost use Rattle.soundness.specs.Outline.Forms.{are_over, are_within_limits, have_ends, is_listed, is_over as form_is_over};
ghost use Rattle.soundness.specs.Outline.Flaws.{first_of, told};
ghost use Rattle.soundness.specs.Outline.View.{certificate_in, group_in, outline_in, plan_in};
ghost use Rattle.validation.specs.Stored.Definitions.{definition_held, has_variables as known_with, parts_named};
ghost use Rattle.validation.specs.Groups.Sizes.{more, places_count};
ghost use Rattle.validation.specs.Stored.Sizes.{is_small};
ghost use Rattle.validation.specs.Groups.Here.{here_of};
ghost use Rattle.validation.specs.Groups.Lines.{alloc_flaws, block_flaws, definition_is_named, definition_is_stored, fetch_flaws, fetch_is_named, flaws, in_later, inside, is_claim_of, is_empty, is_foldable, is_new, is_one_of, line_flaws, loop_flaws, place_is_over, place_is_within, publish_flaws, store_flaws};
ghost use Rattle.validation.specs.Stored.Stored.{index_is_over, index_is_small, index_is_within};

use crate::among::{is_among, is_bound};
use crate::groups::here::Here;
use crate::groups::lanes::fits_mark;
use crate::groups::sizes::places_count;
use crate::stored::{
    Defined, Ground, definition_of, has_names, has_variables, indices_are_known, indices_are_small,
    is_defined, is_known, is_small, variable_count,
};
use algo::scoping::same_name;
use lin::{Forms, Lin, Span1, Sym};
use plan::{Coordinate, Index, Kind, Places, Stmt};
use soundness::outline::forms::{
    are_over, are_within_limits, have_ends, is_listed, is_over, spans_are_over,
    spans_are_within_limits,
};
use soundness::outline::refusals::{Flaw, K};
use std::alloc::{AllocError, Global};
use tree::Expr;

/// The most places of all buffers of a group together.
const MOST_PLACES: u64 = 1 << 22;
/// The most symbols of a group.
const MOST_SYMBOLS: u64 = 256;
/// The most buffers of a group.
const MOST_BUFFERS: u64 = 256;

/// The flaw of a line by the lowest code whose test fails: names, forms, the definition, limits.
pub(crate) fn line_flaw(
    line: u32,
    named: bool,
    within: bool,
    defined: bool,
    limited: bool,
) -> Option<Flaw>
    ensures { told result ≡ first_of (line_flaws line named within defined limited) }
{
    if !named {
        Some(Flaw { code: K::K2, line })
    } else if !within {
        Some(Flaw { code: K::K3, line })
    } else if !defined {
        Some(Flaw { code: K::K12, line })
    } else if !limited {
        Some(Flaw { code: K::K14, line })
    } else {
        None
    }
}

/// Whether a symbol is none of these.
fn is_new(symbols: &[Sym], symbol: Sym) -> bool
    ensures { result ≡ is_new symbols.now symbol }
{
    !is_bound(symbols, symbol)
}

/// The flaw of a line `for`.
fn loop_flaw(
    ground: Ground<'_, '_>,
    here: &Here,
    symbol: Sym,
    span: &Span1,
    kind: Kind,
    body: &Stmt,
) -> Option<Flaw>
    ensures { told result ≡ first_of (loop_flaws (algorithm_of ground.entry.algo.now) (plan_in ground.entry.outlined.now) (certificate_in ground.entry.outlined.now) (group_in ground.entry.outlined.now) (outline_in ground.entry.outlined.now) (here_of ground.entry.lines here.now true) symbol span.now kind (statement_of body.now)) }
{
    let lower = span.lower.as_slice();
    let upper = span.upper.as_slice();
    let line = here.line;
    let named = is_new(&here.symbols, symbol)
        && are_over(&here.symbols, lower)
        && are_over(&here.symbols, upper);
    if !named {
        Some(Flaw { code: K::K2, line })
    } else if !(are_within_limits(lower) && are_within_limits(upper)) {
        Some(Flaw { code: K::K3, line })
    } else if !fits_mark(ground, symbol, kind, body) {
        Some(Flaw { code: K::K13, line })
    } else if !(is_listed(&span.lower) && is_listed(&span.upper) && here.bound < MOST_SYMBOLS) {
        Some(Flaw { code: K::K14, line })
    } else {
        None
    }
}

/// The flaw of a line `let`.
fn let_flaw(here: &Here, symbol: Sym, forms: &Forms) -> Option<Flaw>
    ensures { told result ≡ first_of (line_flaws here.now.line
        (is_new here.now.symbols.items symbol && are_over here.now.symbols.items forms.now)
        (are_within_limits forms.now)
        true
        (is_listed forms.now && nat_lt here.now.bound 256)) }
{
    let all = forms.as_slice();
    let named = is_new(&here.symbols, symbol) && are_over(&here.symbols, all);
    line_flaw(
        here.line,
        named,
        are_within_limits(all),
        true,
        is_listed(forms) && here.bound < MOST_SYMBOLS,
    )
}

/// The flaw of a line `guard`.
fn guard_flaw(here: &Here, low: &Lin, high: &Lin) -> Option<Flaw>
    ensures { told result ≡ first_of (line_flaws here.now.line
        (form_is_over here.now.symbols.items low.now && form_is_over here.now.symbols.items high.now)
        (is_limited low.now && is_limited high.now)
        true
        true) }
{
    let named = is_over(&here.symbols, low) && is_over(&here.symbols, high);
    let within = low.is_within_limits() && high.is_within_limits();
    line_flaw(here.line, named, within, true, true)
}

/// Whether the symbols of the origin, if the places have one, are among these.
fn place_is_over(symbols: &[Sym], places: &Places) -> bool
    ensures { result ≡ place_is_over symbols.now places.now }
{
    match places {
        Places::From { origin, .. } => is_over(symbols, origin),
        Places::Folded { .. } => true,
    }
}

/// Whether the origin, if the places have one, is within the limits of linear forms.
fn place_is_within(places: &Places) -> bool
    ensures { result ≡ place_is_within places.now }
{
    match places {
        Places::From { origin, .. } => origin.is_within_limits(),
        Places::Folded { .. } => true,
    }
}

/// Whether the places, if they are folded, are so by one or more.
fn is_foldable(places: &Places) -> bool
    ensures { result ≡ is_foldable places.now }
{
    match places {
        Places::From { .. } => true,
        Places::Folded { count } => 1 <= *count,
    }
}

/// Whether the symbols of all origins are among these.
fn places_are_over(symbols: &[Sym], places: &[Places]) -> bool
    ensures { result ≡ list_all (place_is_over symbols.now) places.now }
{
    places.iter().all(|one| place_is_over(symbols, one))
}

/// Whether all origins are within the limits of linear forms.
fn places_are_within(places: &[Places]) -> bool
    ensures { result ≡ list_all place_is_within places.now }
{
    places.iter().all(place_is_within)
}

/// Whether all folds are by one or more.
fn are_foldable(places: &[Places]) -> bool
    ensures { result ≡ list_all is_foldable places.now }
{
    places.iter().all(is_foldable)
}

/// The flaw of a line `alloc`.
fn alloc_flaw(
    ground: Ground<'_, '_>,
    here: &Here,
    function: &str,
    places: &[Places],
) -> Option<Flaw>
    ensures { told result ≡ first_of (alloc_flaws (algorithm_of ground.entry.algo.now) (plan_in ground.entry.outlined.now) (certificate_in ground.entry.outlined.now) (group_in ground.entry.outlined.now) (outline_in ground.entry.outlined.now) (here_of ground.entry.lines here.now true) function.now places.now) }
{
    let named = alloc_is_named(ground, here, function, places);
    let within = places_are_within(places);
    line_flaw(
        here.line,
        named,
        within,
        true,
        alloc_is_limited(here, places),
    )
}

/// Whether the function of a line `alloc` is known, with as many variables, and the symbols of the places are.
fn alloc_is_named(ground: Ground<'_, '_>, here: &Here, function: &str, places: &[Places]) -> bool
    ensures { result ≡ (known_with (parts_named (algorithm_of ground.entry.algo.now) function.now) (length places.now) && list_all (place_is_over here.now.symbols.items) places.now) }
{
    has_variables(ground.algo, function, places.len()) && places_are_over(&here.symbols, places)
}

/// Whether all folds are by one or more, with these the buffers of the group have few places, and they are few.
fn alloc_is_limited(here: &Here, places: &[Places]) -> bool
    ensures { result ≡ (list_all is_foldable places.now && (nat_le (more here.now.used (places_count places.now)) (2 ^ 22) && nat_lt here.now.held 256)) }
{
    are_foldable(places)
        && here.used.saturating_add(places_count(places)) <= MOST_PLACES
        && here.held < MOST_BUFFERS
}

/// Whether the buffer and the group of a line `fetch` are known and of one function, and the region is one of it.
fn fetch_is_named(
    ground: Ground<'_, '_>,
    here: &Here,
    buffer: u64,
    group: u64,
    region: &[Span1],
) -> bool
    ensures { result ≡ fetch_is_named (algorithm_of ground.entry.algo.now) (plan_in ground.entry.outlined.now) (certificate_in ground.entry.outlined.now) (group_in ground.entry.outlined.now) (outline_in ground.entry.outlined.now) (here_of ground.entry.lines here.now true) buffer group region.now }
{
    let function = ground.outlined.group_function(group);
    is_among(&here.buffers, buffer)
        && is_group(ground, group)
        && same_name(function, ground.outlined.buffer_function(buffer))
        && has_variables(ground.algo, function, region.len())
        && spans_are_over(&here.symbols, region)
}

/// Whether there is a group of this number.
fn is_group(ground: Ground<'_, '_>, group: u64) -> bool
    ensures { result ≡ nat_lt group (length (plan_in ground.entry.outlined.now).groups) }
{
    group < ground.outlined.plan().groups.len() as u64
}

/// Whether a line `fetch` stands before loops, choices, guards and stores, and its region has ends.
fn fetch_is_taken(here: &Here, region: &[Span1]) -> bool
    ensures { result ≡ (here.now.fetching && have_ends region.now) }
{
    here.fetching && have_ends(region)
}

/// The flaw of a line `fetch`.
fn fetch_flaw(
    ground: Ground<'_, '_>,
    here: &Here,
    buffer: u64,
    group: u64,
    region: &[Span1],
) -> Option<Flaw>
    ensures { told result ≡ first_of (fetch_flaws (algorithm_of ground.entry.algo.now) (plan_in ground.entry.outlined.now) (certificate_in ground.entry.outlined.now) (group_in ground.entry.outlined.now) (outline_in ground.entry.outlined.now) (here_of ground.entry.lines here.now true) buffer group region.now) }
{
    let named = fetch_is_named(ground, here, buffer, group, region);
    let within = spans_are_within_limits(region);
    line_flaw(here.line, named, within, true, fetch_is_taken(here, region))
}

/// Whether the symbols of the coordinate's form, if it is given by one, are among these.
fn coordinate_is_over(symbols: &[Sym], coordinate: &Coordinate) -> bool
    ensures { result ≡ index_is_over symbols.now (coordinate_of coordinate.now).index }
{
    match &coordinate.index {
        Index::Form(form) => is_over(symbols, form),
        Index::Found(_) => true,
    }
}

/// Whether the symbols of all coordinates' forms are among these.
fn coordinates_are_over(symbols: &[Sym], coordinates: &[Coordinate]) -> bool
    ensures { result ≡ list_all (λ x. index_is_over symbols.now x.index) (map coordinate_of coordinates.now) }
{
    for one in coordinates {
        if !coordinate_is_over(symbols, one) {
            return false;
        }
    }
    true
}

/// Whether the coordinate's form, if it is given by one, is within the limits of linear forms.
fn coordinate_is_within(coordinate: &Coordinate) -> bool
    ensures { result ≡ index_is_within (coordinate_of coordinate.now).index }
{
    match &coordinate.index {
        Index::Form(form) => form.is_within_limits(),
        Index::Found(_) => true,
    }
}

/// Whether all coordinates' forms are within the limits of linear forms.
fn coordinates_are_within(coordinates: &[Coordinate]) -> bool
    ensures { result ≡ list_all (λ x. index_is_within x.index) (map coordinate_of coordinates.now) }
{
    for one in coordinates {
        if !coordinate_is_within(one) {
            return false;
        }
    }
    true
}

/// Whether the definition is known, and the store's variables, symbols and calls are.
fn definition_is_named(
    ground: Ground<'_, '_>,
    here: &Here,
    defined: Option<Defined<'_>>,
    buffer: u64,
    coordinates: &[Coordinate],
    value: &Expr,
) -> bool
    ensures { result ≡ definition_is_named (algorithm_of ground.entry.algo.now) (plan_in ground.entry.outlined.now) (certificate_in ground.entry.outlined.now) (group_in ground.entry.outlined.now) (outline_in ground.entry.outlined.now) (option_map definition_held defined.entry) (here_of ground.entry.lines here.now true) buffer (map coordinate_of coordinates.now) (term_of value.now) }
{
    match defined {
        None => false,
        Some(defined) => {
            has_names(defined, coordinates)
                && ground.outlined.dimensions(buffer) == variable_count(defined)
                && coordinates_are_over(&here.symbols, coordinates)
                && indices_are_known(ground, coordinates)
                && is_known(ground, coordinates, value)
        }
    }
}

/// Whether the store is of the definition, where there is one.
fn definition_is_stored(
    alloc: Global,
    ground: Ground<'_, '_>,
    defined: Option<Defined<'_>>,
    coordinates: &[Coordinate],
    value: &Expr,
) -> Result<bool, AllocError>
    requires { (is_small (term_of value.now) && list_all (λ x. index_is_small x.index) (map coordinate_of coordinates.now)) ≡ true }
    ensures { IfOk result (λ yes. yes ≡ definition_is_stored (algorithm_of ground.entry.algo.now) (plan_in ground.entry.outlined.now) (certificate_in ground.entry.outlined.now) (group_in ground.entry.outlined.now) (outline_in ground.entry.outlined.now) (option_map definition_held defined.entry) (map coordinate_of coordinates.now) (term_of value.now)) }
{
    match defined {
        None => Ok(true),
        Some(defined) => is_defined(alloc, ground, defined, coordinates, value),
    }
}

/// The flaw of a line `store`.
fn store_flaw(
    alloc: Global,
    ground: Ground<'_, '_>,
    here: &Here,
    buffer: u64,
    definition: u64,
    coordinates: &[Coordinate],
    value: &Expr,
) -> Result<Option<Flaw>, AllocError>
    ensures { IfOk result (λ flaw. told flaw ≡ first_of (store_flaws (algorithm_of ground.entry.algo.now) (plan_in ground.entry.outlined.now) (certificate_in ground.entry.outlined.now) (group_in ground.entry.outlined.now) (outline_in ground.entry.outlined.now) (here_of ground.entry.lines here.now true) buffer definition (map coordinate_of coordinates.now) (term_of value.now))) }
{
    let defined = definition_of(
        ground.algo,
        ground.outlined.buffer_function(buffer),
        definition,
    );
    let named = store_is_named(ground, here, defined, buffer, coordinates, value);
    let within = coordinates_are_within(coordinates);
    let small = store_is_small(coordinates, value);
    let stored = is_stored_if_small(alloc, ground, small, defined, coordinates, value)?;
    Ok(line_flaw(here.line, named, within, stored, small))
}

/// Whether the buffer of a store is in scope, the definition is known, and the store's variables, symbols and calls are.
fn store_is_named(
    ground: Ground<'_, '_>,
    here: &Here,
    defined: Option<Defined<'_>>,
    buffer: u64,
    coordinates: &[Coordinate],
    value: &Expr,
) -> bool
    ensures { result ≡ (list_any (λ x. x == buffer) here.now.buffers.items && definition_is_named (algorithm_of ground.entry.algo.now) (plan_in ground.entry.outlined.now) (certificate_in ground.entry.outlined.now) (group_in ground.entry.outlined.now) (outline_in ground.entry.outlined.now) (option_map definition_held defined.entry) (here_of ground.entry.lines here.now true) buffer (map coordinate_of coordinates.now) (term_of value.now)) }
{
    is_among(&here.buffers, buffer)
        && definition_is_named(ground, here, defined, buffer, coordinates, value)
}

/// Whether the expressions of a store are small.
fn store_is_small(coordinates: &[Coordinate], value: &Expr) -> bool
    ensures { result ≡ (is_small (term_of value.now) && list_all (λ x. index_is_small x.index) (map coordinate_of coordinates.now)) }
{
    is_small(value) && indices_are_small(coordinates)
}

/// Whether a store is of the definition, if its expressions are small.
fn is_stored_if_small(
    alloc: Global,
    ground: Ground<'_, '_>,
    small: bool,
    defined: Option<Defined<'_>>,
    coordinates: &[Coordinate],
    value: &Expr,
) -> Result<bool, AllocError>
    requires { small ≡ (is_small (term_of value.now) && list_all (λ x. index_is_small x.index) (map coordinate_of coordinates.now)) }
    ensures { IfOk result (λ yes. yes ≡ (not small || definition_is_stored (algorithm_of ground.entry.algo.now) (plan_in ground.entry.outlined.now) (certificate_in ground.entry.outlined.now) (group_in ground.entry.outlined.now) (outline_in ground.entry.outlined.now) (option_map definition_held defined.entry) (map coordinate_of coordinates.now) (term_of value.now))) }
{
    if small {
        definition_is_stored(alloc, ground, defined, coordinates, value)
    } else {
        Ok(true)
    }
}

/// Whether there is a claim of this number, of the group and of its function.
fn is_claim_of_group(ground: Ground<'_, '_>, claim: u64) -> bool
    ensures { result ≡ is_claim_of ground.entry.lines (slice_get (certificate_in ground.entry.outlined.now).claims claim) (group_in ground.entry.outlined.now).function }
{
    match ground.outlined.claim(claim) {
        Some(claim) => {
            ground.lines.has(claim.line)
                && same_name(
                    claim.function.as_str(),
                    ground.outlined.group().function.as_str(),
                )
        }
        None => false,
    }
}

/// The flaw of a line `publish`.
fn publish_flaw(ground: Ground<'_, '_>, here: &Here, last: bool, claim: u64) -> Option<Flaw>
    ensures { told result ≡ first_of (publish_flaws (algorithm_of ground.entry.algo.now) (plan_in ground.entry.outlined.now) (certificate_in ground.entry.outlined.now) (group_in ground.entry.outlined.now) (outline_in ground.entry.outlined.now) (here_of ground.entry.lines here.now last) claim) }
{
    line_flaw(
        here.line,
        is_claim_of_group(ground, claim),
        true,
        true,
        last,
    )
}

/// Whether the statement of this number is the last of its group, where the block is.
fn is_last(last: bool, k: usize, all: &[Stmt]) -> bool
    requires { k < length all.now }
    ensures { result ≡ (last && is_empty (block (list_statements (drop (k + 1) all.now)))) }
{
    last && k + 1 == all.len()
}

/// The first flaw of a statement's lines.
#[cycle(walk)]
pub(crate) fn stmt_flaw(
    alloc: Global,
    ground: Ground<'_, '_>,
    stmt: &Stmt,
    here: &Here,
    last: bool,
) -> Result<Option<Flaw>, AllocError>
    ensures { IfOk result (λ flaw. told flaw ≡ first_of (flaws (algorithm_of ground.entry.algo.now) (plan_in ground.entry.outlined.now) (certificate_in ground.entry.outlined.now) (group_in ground.entry.outlined.now) (outline_in ground.entry.outlined.now) (statement_of stmt.now) (here_of ground.entry.lines here.now last))) }
{
    match stmt {
        Stmt::Seq(all) => all_flaw(alloc, ground, all, here, last),
        Stmt::For {
            symbol,
            span,
            kind,
            body,
        } => {
            let flaw = loop_flaw(ground, here, *symbol, span, *kind, body);
            if flaw.is_some() {
                return Ok(flaw);
            }
            let inner = here.in_loop(*symbol)?;
            stmt_flaw(alloc, ground, body, &inner, false)
        }
        Stmt::Let { symbol, forms, .. } => Ok(let_flaw(here, *symbol, forms)),
        Stmt::First {
            symbol,
            first,
            later,
        } => {
            let flaw = first_part_flaw(alloc, ground, *symbol, first, here)?;
            if flaw.is_some() {
                return Ok(flaw);
            }
            let other = here.in_later(first)?;
            stmt_flaw(alloc, ground, later, &other, false)
        }
        Stmt::Guard { low, high, body } => guarded_flaw(alloc, ground, low, high, body, here),
        Stmt::Alloc {
            function,
            places,
            ..
        } => Ok(alloc_flaw(ground, here, function.as_str(), places)),
        Stmt::Fetch {
            buffer,
            group,
            region,
        } => Ok(fetch_flaw(ground, here, *buffer, *group, region.as_slice())),
        Stmt::Store {
            buffer,
            definition,
            coordinates,
            value,
        } => store_flaw(
            alloc,
            ground,
            here,
            *buffer,
            *definition,
            coordinates,
            value,
        ),
        Stmt::Publish { claim } => Ok(publish_flaw(ground, here, last, *claim)),
    }
}

/// The first flaw of the lines of a guard.
#[cycle(walk)]
fn guarded_flaw(
    alloc: Global,
    ground: Ground<'_, '_>,
    low: &Lin,
    high: &Lin,
    body: &Stmt,
    here: &Here,
) -> Result<Option<Flaw>, AllocError>
    ensures { (last : Bool) → IfOk result (λ flaw. told flaw ≡ first_of (flaws (algorithm_of ground.entry.algo.now) (plan_in ground.entry.outlined.now) (certificate_in ground.entry.outlined.now) (group_in ground.entry.outlined.now) (outline_in ground.entry.outlined.now) (Guard low.now high.now (statement_of body.now)) (here_of ground.entry.lines here.now last))) }
{
    let flaw = guard_flaw(here, low, high);
    if flaw.is_some() {
        return Ok(flaw);
    }
    let inner = here.inside()?;
    stmt_flaw(alloc, ground, body, &inner, false)
}

/// The first flaw of a line `first` and of the lines of its part for the first turn.
#[cycle(walk)]
fn first_part_flaw(
    alloc: Global,
    ground: Ground<'_, '_>,
    symbol: Sym,
    first: &Stmt,
    here: &Here,
) -> Result<Option<Flaw>, AllocError>
    ensures { (last : Bool) → IfOk result (λ flaw. told flaw ≡ first_of (line_flaws here.now.line (is_one_of here.now.loops.items symbol) true true true ++ flaws (algorithm_of ground.entry.algo.now) (plan_in ground.entry.outlined.now) (certificate_in ground.entry.outlined.now) (group_in ground.entry.outlined.now) (outline_in ground.entry.outlined.now) (statement_of first.now) (inside (here_of ground.entry.lines here.now last)))) }
{
    let flaw = line_flaw(here.line, is_bound(&here.loops, symbol), true, true, true);
    if flaw.is_some() {
        return Ok(flaw);
    }
    let inner = here.inside()?;
    stmt_flaw(alloc, ground, first, &inner, false)
}

/// The first flaw of the lines of a block's statements.
#[cycle(walk)]
fn all_flaw(
    alloc: Global,
    ground: Ground<'_, '_>,
    all: &[Stmt],
    here: &Here,
    last: bool,
) -> Result<Option<Flaw>, AllocError>
    ensures { IfOk result (λ flaw. told flaw ≡ first_of (block_flaws (algorithm_of ground.entry.algo.now) (plan_in ground.entry.outlined.now) (certificate_in ground.entry.outlined.now) (group_in ground.entry.outlined.now) (outline_in ground.entry.outlined.now) (block (list_statements all.now)) (here_of ground.entry.lines here.now last))) }
{
    let mut now = here.copy()?;
    for k in 0..all.len() {
        let stmt = &all[k];
        let flaw = stmt_flaw(alloc, ground, stmt, &now, is_last(last, k, all))?;
        if flaw.is_some() {
            return Ok(flaw);
        }
        now.pass(stmt)?;
    }
    Ok(None)
}
