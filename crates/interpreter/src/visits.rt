//! What is done at each point of a region.

ghost use Rattle.std.specs.Prelude.{◌≡◌, ◌∷◌, ◌+◌, ◌≤◌, ◌<◌, [], drop, flat_map, length, ℕ, ℤ, List, OnOk, map, slice_get, int_le};
ghost use Rattle.tree.specs.declared.value.Value.{Value as ValueFound};
ghost use Rattle.plan.specs.Symbols.{form_value};
ghost use Rattle.plan.specs.Certificate.Cells.{is_in_span, is_in_region};
ghost use Rattle.plan.specs.Certificate.Certificate.{claim_of};
ghost use Rattle.plan.specs.Semantics.Actions.{Give, Take};
ghost use Rattle.plan.specs.Semantics.Setting.{buffer_in};
ghost use Rattle.std.specs.List.{list_all};
ghost use Rattle.interpreter.specs.Bindings.{symbols_of};
ghost use Rattle.interpreter.specs.Narrow.{FormsAreNarrow, SpanIsNarrow, RegionIsNarrow};
ghost use Rattle.interpreter.specs.Pieces.{around};
ghost use Rattle.interpreter.specs.States.{progress_of, EndsIn, IsAsLarge, SetsOrFaults};
ghost use Rattle.interpreter.specs.Steps.{steps};
ghost use Rattle.interpreter.specs.Visits.{at_point, between, extended, KeepsFrom, VisitIsNarrow};

use crate::cells::Cells;
use crate::evaluation::Stop;
use crate::forms::{largest, smallest, value_of};
use crate::piece::Piece;
use crate::row_visits::visit_row;
use crate::state::State;
use crate::symbols::Symbols;
use lin::{Lin, Span1};
use plan::certificate::Claim;
use tree::Value;

/// What is done at each point.
#[derive(Clone, Copy, Drop)]
pub(crate) enum Visit<'a> {
    /// The cell of a function is set in a buffer.
    Fetch { buffer: u64, function: &'a str },
    /// What a claim's buffer holds is given, where the point is a cell of the group.
    Publish { claim: u64 },
}

/// A visit to the points of a region of this piece, where the symbols have these values.
#[derive(Clone, Copy, Drop)]
pub(crate) struct Walk<'a, 's> {
    pub piece: &'a Piece<'a>,
    pub visit: Visit<'a>,
    pub symbols: &'s Symbols,
}

/// Whether each of some forms is at most a number.
pub(crate) fn are_at_most(forms: &[Lin], number: i64, symbols: &Symbols) -> bool
    requires { FormsAreNarrow (symbols_of symbols.now) forms.now }
    ensures { result ≡ list_all (λ l. int_le (form_value l (symbols_of symbols.now)) number) forms.now }
{
    for form in forms {
        if value_of(form, symbols) > number {
            return false;
        }
    }
    true
}

/// Whether a number is at most each of some forms.
pub(crate) fn is_at_most(number: i64, forms: &[Lin], symbols: &Symbols) -> bool
    requires { FormsAreNarrow (symbols_of symbols.now) forms.now }
    ensures { result ≡ list_all (λ u. int_le number (form_value u (symbols_of symbols.now))) forms.now }
{
    for form in forms {
        if number > value_of(form, symbols) {
            return false;
        }
    }
    true
}

/// Whether a number lies in a span.
fn is_in_span(span: &Span1, number: i64, symbols: &Symbols) -> bool
    requires { SpanIsNarrow (symbols_of symbols.now) span.now }
    ensures { result ≡ is_in_span (symbols_of symbols.now) span.now number }
{
    are_at_most(span.lower.as_slice(), number, symbols)
        && is_at_most(number, span.upper.as_slice(), symbols)
}

/// Whether a point lies in a region.
pub(crate) fn is_in_region(region: &[Span1], point: &[i64], symbols: &Symbols) -> bool
    requires { RegionIsNarrow (symbols_of symbols.now) region.now }
    ensures { result ≡ is_in_region (symbols_of symbols.now) region.now point.now }
{
    match (region, point) {
        ([], []) => true,
        ([span, region @ ..], [number, point @ ..]) => {
            is_in_span(span, *number, symbols) && is_in_region(region, point, symbols)
        }
        _ => false,
    }
}

/// The buffer of which a claim speaks, 0 where there is no such claim.
pub(crate) fn claim_buffer(claims: &[Claim], claim: u64) -> u64
    ensures { result ≡ buffer_in (slice_get (map claim_of claims.now) claim) }
{
    match claims.get(claim as usize) {
        Some(claim) => claim.buffer,
        None => 0,
    }
}

/// Sets the place of the point in a buffer.
pub(crate) fn set(state: &mut State, buffer: u64, value: Value) -> Result<(), Stop>
    ensures set { SetsOrFaults result state.old state.new buffer state.old.point.items value }
    ensures large { IsAsLarge state.old state.new }
    ensures point { state.new.point ≡ state.old.point }
{
    if state.memory.write(buffer, state.point.as_slice(), value) {
        Ok(())
    } else {
        Err(Stop::Fault)
    }
}

/// Gives the number that a claim's buffer holds at the point.
fn give(piece: &Piece<'_>, claim: u64, state: &mut State) -> Result<(), Stop>
    ensures large { OnOk result (IsAsLarge state.old state.new) }
    ensures point { OnOk result (state.new.point ≡ state.old.point) }
    ensures give { (cell : List ℕ → List ℤ → ValueFound) → EndsIn state.old.given.room (λ _. progress_of state.new) result (steps (around piece.now cell) (Give claim state.old.point.items ∷ []) (progress_of state.old)) }
{
    let buffer = claim_buffer(&piece.cert.claims, claim);
    let Some(value) = state.memory.read(buffer, state.point.as_slice()) else {
        return Err(Stop::Fault);
    };
    if state.given.free() == 0 {
        return Err(Stop::Full);
    }
    state.given.push(value);
    Ok(())
}

/// Does at the point what the visit says.
fn visit_point<C: Cells>(walk: &Walk<'_, '_>, cells: &C, state: &mut State) -> Result<(), Stop>
    requires { VisitIsNarrow walk.now.piece.now walk.now.visit }
    ensures large { OnOk result (IsAsLarge state.old state.new) }
    ensures point { OnOk result (state.new.point ≡ state.old.point) }
    ensures run { EndsIn state.old.given.room (λ _. progress_of state.new) result (steps (around walk.now.piece.now (C.cell cells.now)) (at_point walk.now.piece.now walk.now.visit state.old.point.items) (progress_of state.old)) }
{
    match walk.visit {
        Visit::Fetch { buffer, function } => {
            let value = cells.cell(function, state.point.as_slice());
            set(state, buffer, value)
        }
        Visit::Publish { claim } => {
            let region = walk.piece.group.region.as_slice();
            if is_in_region(region, state.point.as_slice(), walk.piece.constants) {
                give(walk.piece, claim, state)
            } else {
                Ok(())
            }
        }
    }
}

/// The numbers of a span.
#[derive(Clone, Copy, Drop)]
pub(crate) struct Numbers {
    pub low: i64,
    pub high: i64,
}

/// Visits the points of a region, each followed by each of some numbers and by the other coordinates of the point.
#[cycle(visiting)]
fn visit_numbers<C: Cells>(
    walk: &Walk<'_, '_>,
    cells: &C,
    region: &[Span1],
    numbers: Numbers,
    state: &mut State,
) -> Result<(), Stop>
    requires region { RegionIsNarrow (symbols_of walk.now.symbols.now) region.now }
    requires visit { VisitIsNarrow walk.now.piece.now walk.now.visit }
    requires long { length region.now < length state.old.point.items }
    ensures large { OnOk result (IsAsLarge state.old state.new) }
    ensures kept { OnOk result (KeepsFrom (length region.now + 1) state.old.point state.new.point) }
    ensures run { EndsIn state.old.given.room (λ _. progress_of state.new) result (steps (around walk.now.piece.now (C.cell cells.now)) (flat_map (λ z. flat_map (at_point walk.now.piece.now walk.now.visit) (extended (symbols_of walk.now.symbols.now) region.now (z ∷ drop (length region.now + 1) state.old.point.items))) (between numbers.low numbers.high)) (progress_of state.old)) }
{
    for number in numbers.low..=numbers.high {
        state.point.set(region.len(), number);
        visit_region(walk, cells, region, state)?;
    }
    Ok(())
}

/// Visits the points of a region, each followed by the other coordinates of the point, the first coordinate fastest.
#[cycle(visiting)]
fn visit_region<C: Cells>(
    walk: &Walk<'_, '_>,
    cells: &C,
    region: &[Span1],
    state: &mut State,
) -> Result<(), Stop>
    requires region { RegionIsNarrow (symbols_of walk.now.symbols.now) region.now }
    requires visit { VisitIsNarrow walk.now.piece.now walk.now.visit }
    requires long { length region.now ≤ length state.old.point.items }
    ensures large { OnOk result (IsAsLarge state.old state.new) }
    ensures kept { OnOk result (KeepsFrom (length region.now) state.old.point state.new.point) }
    ensures run { EndsIn state.old.given.room (λ _. progress_of state.new) result (steps (around walk.now.piece.now (C.cell cells.now)) (flat_map (at_point walk.now.piece.now walk.now.visit) (extended (symbols_of walk.now.symbols.now) region.now (drop (length region.now) state.old.point.items))) (progress_of state.old)) }
{
    match region {
        [] => visit_point(walk, cells, state),
        [region @ .., span] => {
            let numbers = Numbers {
                low: largest(&span.lower, walk.symbols),
                high: smallest(&span.upper, walk.symbols),
            };
            let left = visit_row(walk, cells, region, numbers, state);
            visit_numbers(walk, cells, region, left, state)
        }
    }
}

/// Visits the points of a region, the first coordinate fastest.
pub(crate) fn visit_points<C: Cells>(
    walk: &Walk<'_, '_>,
    cells: &C,
    region: &[Span1],
    state: &mut State,
) -> Result<(), Stop>
    requires region { RegionIsNarrow (symbols_of walk.now.symbols.now) region.now }
    requires visit { VisitIsNarrow walk.now.piece.now walk.now.visit }
    requires room { length region.now ≤ state.old.point.room }
    ensures large { OnOk result (IsAsLarge state.old state.new) }
    ensures run { EndsIn state.old.given.room (λ _. progress_of state.new) result (steps (around walk.now.piece.now (C.cell cells.now)) (flat_map (at_point walk.now.piece.now walk.now.visit) (extended (symbols_of walk.now.symbols.now) region.now [])) (progress_of state.old)) }
{
    state.point.begin(region.len());
    visit_region(walk, cells, region, state)
}
