//! What is done at the points of a row together.

ghost use Rattle.std.specs.Prelude.{◌≡◌, ◌∷◌, ◌+◌, ◌≤◌, ◌<◌, ◌^◌, ◌+ℤ◌, ◌≤ℤ◌, ◌<ℤ◌, drop, length, ℕ, ℤ, List, Option, Some, IfSome, pos, slice_get, true};
ghost use Rattle.std.specs.Bool.{OnTrue};
ghost use Rattle.tree.specs.declared.value.Value.{Value as ValueFound};
ghost use Rattle.plan.specs.Certificate.Cells.{is_in_region, is_in_span};
ghost use Rattle.plan.specs.Semantics.Memory.{read};
ghost use Rattle.interpreter.specs.Bindings.{symbols_of};
ghost use Rattle.interpreter.specs.Buffers.Blocks.{memory_of};
ghost use Rattle.interpreter.specs.Buffers.Marks.{narrow_mark, places_held};
ghost use Rattle.interpreter.specs.Buffers.Spots.{HasPlace, IsSpot};
ghost use Rattle.interpreter.specs.Evaluation.Lending.{lent};
ghost use Rattle.interpreter.specs.Narrow.{RegionIsNarrow, SpanIsNarrow};
ghost use Rattle.interpreter.specs.Pieces.{around};
ghost use Rattle.interpreter.specs.RowVisits.{given_from, row_actions, row_takes};
ghost use Rattle.interpreter.specs.States.{progress_of, IsAsLarge};
ghost use Rattle.interpreter.specs.Steps.{steps};
ghost use Rattle.interpreter.specs.Visits.{between, extended, at_point, KeepsFrom, VisitIsNarrow};
ghost use Rattle.interpreter.specs.declared.piece.Piece.{Piece as PieceFound};
ghost use Rattle.interpreter.specs.declared.visits.Visit.TheVariants.{Publish};
ghost use Rattle.std.specs.Prelude.{flat_map};

use crate::buffers::{Buffers, Held, Spot, held_window, place_held};
use crate::cells::Cells;
use crate::evaluation::{
    LentNumbers, Signed8, Signed16, Signed32, Unsigned8, Unsigned16, Unsigned32, Width,
};
use crate::given::Given;
use crate::piece::Piece;
use crate::scanlines::{distance, row_type};
use crate::state::State;
use crate::symbols::Symbols;
use crate::visits::{Numbers, Visit, Walk, are_at_most, claim_buffer, is_at_most, is_in_region};
use lin::Span1;
use numeric::Ty;
use tree::Value;

/// Whether all these numbers lie in a span.
fn are_in_span(span: &Span1, numbers: Numbers, symbols: &Symbols) -> bool
    requires { SpanIsNarrow (symbols_of symbols.now) span.now }
    ensures { OnTrue result ((z : ℤ) → numbers.low ≤ℤ z → z ≤ℤ numbers.high → is_in_span (symbols_of symbols.now) span.now z ≡ true) }
{
    are_at_most(span.lower.as_slice(), numbers.low, symbols)
        && is_at_most(numbers.high, span.upper.as_slice(), symbols)
}

/// Whether all points of a row lie in a region: those whose first coordinate is one of the numbers, and whose others are these.
fn is_row_in_region(region: &[Span1], numbers: Numbers, others: &[i64], symbols: &Symbols) -> bool
    requires { RegionIsNarrow (symbols_of symbols.now) region.now }
    ensures { OnTrue result ((z : ℤ) → numbers.low ≤ℤ z → z ≤ℤ numbers.high → is_in_region (symbols_of symbols.now) region.now (z ∷ others.now) ≡ true) }
{
    match region {
        [span, later @ ..] => {
            are_in_span(span, numbers, symbols) && is_in_region(later, others, symbols)
        }
        [] => false,
    }
}

/// How many numbers there are, where one of 64 bits comes behind them.
fn count_of(numbers: Numbers) -> Option<usize>
    ensures { IfSome result (λ n. (numbers.low +ℤ pos n ≡ numbers.high +ℤ pos 1) × ((numbers.high +ℤ pos 1) <ℤ pos (2 ^ 63))) }
{
    let behind = numbers.high.checked_add(1)?;
    distance(numbers.low, behind)
}

/// The numbers behind the first so many.
fn behind(numbers: Numbers, count: usize) -> Numbers
    requires { (numbers.low +ℤ pos count) <ℤ pos (2 ^ 63) }
    ensures low { result.low ≡ numbers.low +ℤ pos count }
    ensures high { result.high ≡ numbers.high }
{
    Numbers {
        low: (i128::from(numbers.low) + count as i128) as i64,
        high: numbers.high,
    }
}

/// The coordinates behind the first.
fn others(point: &[i64]) -> &[i64]
    ensures { result.now ≡ drop 1 point.now }
{
    &point[1.min(point.len())..]
}

/// The places of a row in a buffer, where they lie side by side: those of so many points from the first number on.
fn places_of<'m>(
    memory: &'m Buffers,
    buffer: u64,
    first: i64,
    others: &[i64],
    count: usize,
) -> Option<Held<'m>>
    ensures count { IfSome result (λ held. length held.marks.now ≡ count) }
    ensures numbers { IfSome result (λ held. length (lent held.numbers) ≡ count) }
    ensures held { IfSome result (λ held. (k : ℕ) (v : ValueFound) → slice_get (places_held held) k ≡ Some (Some v) → read (memory_of memory.now) buffer ((first +ℤ pos k) ∷ others.now) ≡ Some v) }
{
    let line = memory.scanline(buffer, others)?;
    let start = distance(line.origin, first)?;
    let held = held_window(line.held, start, count)?;
    Some(held)
}

/// Takes the numbers that the first so many places hold, as long as each holds one: how many it took.
fn push_each(held: Held<'_>, count: usize, given: &mut Given) -> usize
    requires marks { count ≤ length held.marks.now }
    requires room { length given.old.items + count ≤ given.old.room }
    ensures count { result ≤ count }
    ensures given { given_from (places_held held.entry) given.old.items result ≡ Some given.new.items }
    ensures room { given.new.room ≡ given.old.room }
{
    for turn in 0..count {
        let Some(value) = place_held(held, turn) else {
            return turn;
        };
        given.push(value);
    }
    count
}

/// Takes the numbers that the first so many places hold, where these are set to values of the type that fit it.
#[inline(always)]
fn push_words<W: Width>(held: Held<'_>, count: usize, given: &mut Given)
    requires marked { (k : ℕ) → k < count → slice_get held.marks.now k ≡ Some (narrow_mark W.ty) }
    requires numbers { count ≤ length (lent held.numbers) }
    requires room { length given.old.items + count ≤ given.old.room }
    ensures given { given_from (places_held held.entry) given.old.items count ≡ Some given.new.items }
    ensures room { given.new.room ≡ given.old.room }
{
    match held.numbers {
        LentNumbers::Words(words) => {
            let (words, _) = words.split_at(count);
            given.append_words::<W>(words);
        }
        LentNumbers::Bytes(bytes) => {
            let (bytes, _) = bytes.split_at(count);
            given.append_bytes::<W>(bytes);
        }
    }
}

/// The same, by a loop of the type's own.
fn push_words_of(ty: Ty, held: Held<'_>, count: usize, given: &mut Given)
    requires marked { (k : ℕ) → k < count → slice_get held.marks.now k ≡ Some (narrow_mark ty) }
    requires numbers { count ≤ length (lent held.numbers) }
    requires room { length given.old.items + count ≤ given.old.room }
    ensures given { given_from (places_held held.entry) given.old.items count ≡ Some given.new.items }
    ensures room { given.new.room ≡ given.old.room }
{
    match ty {
        Ty::U8 => push_words::<Unsigned8>(held, count, given),
        Ty::U16 => push_words::<Unsigned16>(held, count, given),
        Ty::U32 => push_words::<Unsigned32>(held, count, given),
        Ty::I8 => push_words::<Signed8>(held, count, given),
        Ty::I16 => push_words::<Signed16>(held, count, given),
        Ty::I32 => push_words::<Signed32>(held, count, given),
    }
}

/// Takes the numbers that places hold, from the first on, as long as each holds one and there is room: how many it took.
fn push_held(held: Held<'_>, given: &mut Given) -> usize
    requires { length (lent held.numbers) ≡ length held.marks.now }
    ensures count { result ≤ length held.entry.marks.now }
    ensures given { given_from (places_held held.entry) given.old.items result ≡ Some given.new.items }
    ensures room { given.new.room ≡ given.old.room }
{
    let count = held.marks.len().min(given.free());
    match row_type(held.marks) {
        Some(ty) => {
            push_words_of(ty, held, count, given);
            count
        }
        None => push_each(held, count, given),
    }
}

/// Gives the numbers that a claim's buffer holds at the first points of a row, where their places lie side by side: the numbers
/// that are left.
fn give_row(piece: &Piece<'_>, claim: u64, numbers: Numbers, state: &mut State) -> Numbers
    requires { RegionIsNarrow (symbols_of piece.now.constants.now) piece.now.group.now.region }
    ensures large { IsAsLarge state.old state.new }
    ensures point { state.new.point ≡ state.old.point }
    ensures run { (cell : List ℕ → List ℤ → ValueFound) → steps (around piece.now cell) (row_actions piece.now (Publish claim) (drop 1 state.old.point.items) numbers.low numbers.high) (progress_of state.old) ≡ steps (around piece.now cell) (row_actions piece.now (Publish claim) (drop 1 state.old.point.items) result.low result.high) (progress_of state.new) }
{
    let buffer = claim_buffer(&piece.cert.claims, claim);
    let others = others(state.point.as_slice());
    let region = piece.group.region.as_slice();
    if !is_row_in_region(region, numbers, others, piece.constants) {
        return numbers;
    }
    let Some(count) = count_of(numbers) else {
        return numbers;
    };
    let Some(held) = places_of(&state.memory, buffer, numbers.low, others, count) else {
        return numbers;
    };
    let taken = push_held(held, &mut state.given);
    behind(numbers, taken)
}

/// Sets the cells of a function in the places of a row: those of so many points from the first number on.
fn fetch_places<C: Cells>(
    cells: &C,
    function: &str,
    spot: Spot,
    numbers: Numbers,
    count: usize,
    state: &mut State,
)
    requires long { 0 < length state.old.point.items }
    requires count { numbers.low +ℤ pos count ≡ numbers.high +ℤ pos 1 }
    requires high { (numbers.high +ℤ pos 1) <ℤ pos (2 ^ 63) }
    requires inside { (k : ℕ) → k < count → HasPlace state.old.memory spot.buffer (spot.place + k) }
    ensures large { IsAsLarge state.old state.new }
    ensures kept { KeepsFrom 1 state.old.point state.new.point }
    ensures run { (x : PieceFound) (buffer : ℕ) → ((k : ℕ) → k < count → IsSpot state.old.memory buffer ((numbers.low +ℤ pos k) ∷ drop 1 state.old.point.items) spot k) → steps (around x (C.cell cells.now)) (row_takes buffer function.now (drop 1 state.old.point.items) numbers.low numbers.high) (progress_of state.old) ≡ Some (progress_of state.new) }
{
    for turn in 0..count {
        state.point.set(0, behind(numbers, turn).low);
        let value = cells.cell(function, state.point.as_slice());
        state.memory.put(spot, turn, value);
    }
}

/// Sets the cells of a function in the places of a row, together where they are at hand side by side: those of so many points
/// from the first number on.
fn fetch_cells<C: Cells>(
    cells: &C,
    function: &str,
    spot: Spot,
    numbers: Numbers,
    count: usize,
    state: &mut State,
)
    requires long { 0 < length state.old.point.items }
    requires count { numbers.low +ℤ pos count ≡ numbers.high +ℤ pos 1 }
    requires high { (numbers.high +ℤ pos 1) <ℤ pos (2 ^ 63) }
    requires inside { (k : ℕ) → k < count → HasPlace state.old.memory spot.buffer (spot.place + k) }
    ensures large { IsAsLarge state.old state.new }
    ensures kept { KeepsFrom 1 state.old.point state.new.point }
    ensures run { (x : PieceFound) (buffer : ℕ) → ((k : ℕ) → k < count → IsSpot state.old.memory buffer ((numbers.low +ℤ pos k) ∷ drop 1 state.old.point.items) spot k) → steps (around x (C.cell cells.now)) (row_takes buffer function.now (drop 1 state.old.point.items) numbers.low numbers.high) (progress_of state.old) ≡ Some (progress_of state.new) }
{
    state.point.set(0, numbers.low);
    match cells.row(function, state.point.as_slice(), count) {
        Some(row) => state.memory.put_cells(spot, &row),
        None => fetch_places(cells, function, spot, numbers, count, state),
    }
}

/// Sets the cells of a function in a buffer at the points of a row, where their places lie side by side: the numbers that are left.
fn fetch_row<C: Cells>(
    piece: &Piece<'_>,
    cells: &C,
    buffer: u64,
    function: &str,
    numbers: Numbers,
    state: &mut State,
) -> Numbers
    requires long { 0 < length state.old.point.items }
    ensures large { IsAsLarge state.old state.new }
    ensures kept { KeepsFrom 1 state.old.point state.new.point }
    ensures run { steps (around piece.now (C.cell cells.now)) (row_takes buffer function.now (drop 1 state.old.point.items) numbers.low numbers.high) (progress_of state.old) ≡ steps (around piece.now (C.cell cells.now)) (row_takes buffer function.now (drop 1 state.old.point.items) result.low result.high) (progress_of state.new) }
{
    let others = others(state.point.as_slice());
    let Some(count) = count_of(numbers) else {
        return numbers;
    };
    let Some(spot) = state.memory.spot(buffer, numbers.low, others, count) else {
        return numbers;
    };
    fetch_cells(cells, function, spot, numbers, count, state);
    behind(numbers, count)
}

/// Does at the first points of a row what the visit says, where their places lie side by side: the numbers that are left. Nothing
/// where the points go along more coordinates than the first.
pub(crate) fn visit_row<C: Cells>(
    walk: &Walk<'_, '_>,
    cells: &C,
    region: &[Span1],
    numbers: Numbers,
    state: &mut State,
) -> Numbers
    requires visit { VisitIsNarrow walk.now.piece.now walk.now.visit }
    requires long { length region.now < length state.old.point.items }
    ensures large { IsAsLarge state.old state.new }
    ensures kept { KeepsFrom (length region.now + 1) state.old.point state.new.point }
    ensures run { steps (around walk.now.piece.now (C.cell cells.now)) (flat_map (λ z. flat_map (at_point walk.now.piece.now walk.now.visit) (extended (symbols_of walk.now.symbols.now) region.now (z ∷ drop (length region.now + 1) state.old.point.items))) (between numbers.low numbers.high)) (progress_of state.old) ≡ steps (around walk.now.piece.now (C.cell cells.now)) (flat_map (λ z. flat_map (at_point walk.now.piece.now walk.now.visit) (extended (symbols_of walk.now.symbols.now) region.now (z ∷ drop (length region.now + 1) state.old.point.items))) (between result.low result.high)) (progress_of state.new) }
{
    if !region.is_empty() {
        return numbers;
    }
    match walk.visit {
        Visit::Fetch { buffer, function } => {
            fetch_row(walk.piece, cells, buffer, function, numbers, state)
        }
        Visit::Publish { claim } => give_row(walk.piece, claim, numbers, state),
    }
}
