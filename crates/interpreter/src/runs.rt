//! Stores at several turns of a loop together.

ghost use Rattle.std.specs.Bool.{OnTrue};
ghost use Rattle.std.specs.Prelude.{◌≡◌, ◌∷◌, ◌<◌, ◌≤◌, ◌+◌, ℕ, ℤ, List, pos, ◌+ℤ◌, ◌≤ℤ◌, ◌^◌, length, map, take, flat_map, All, Contains, IfSome, MatchOption, OnOk, Some, int_le, string_bytes, true};
ghost use Rattle.tree.specs.declared.value.Value.{Value as ValueFound};
ghost use Rattle.tree.specs.Meaning.{typed};
ghost use Rattle.tree.specs.Term.{term_of};
ghost use Rattle.meaning.specs.Names.{bound};
ghost use Rattle.plan.specs.Semantics.Found.{found};
ghost use Rattle.plan.specs.Semantics.Memory.{Memory};
ghost use Rattle.plan.specs.Semantics.Run.{look};
ghost use Rattle.plan.specs.Symbols.{bind, rising};
ghost use Rattle.plan.specs.View.{statement_of};
ghost use Rattle.std.specs.Option.{option_map};
ghost use Rattle.plan.specs.Lists.{list_statements};
ghost use Rattle.plan.specs.Plan.{block};
ghost use Rattle.interpreter.specs.StoreLines.{alone, IsStore, IsStoreLine};
ghost use Rattle.interpreter.specs.Bindings.{symbols_of};
ghost use Rattle.interpreter.specs.Buffers.Blocks.{memory_of};
ghost use Rattle.interpreter.specs.Buffers.Spots.{HasPlace, IsSpot};
ghost use Rattle.interpreter.specs.Evaluation.Indices.{indices_in};
ghost use Rattle.interpreter.specs.Evaluation.Words.{word_at};
ghost use Rattle.interpreter.specs.Pieces.{around, no_cells, IsReady, LineIsCoded};
ghost use Rattle.interpreter.specs.Rows.{listed};
ghost use Rattle.interpreter.specs.Runs.{are_forms, longest_run, longest_update, numbers_at, numbers_of, store_at, FindsTurns, IsBut};
ghost use Rattle.interpreter.specs.Sizes.{size_in};
ghost use Rattle.interpreter.specs.States.{progress_of, EndsIn, IsAsLarge};
ghost use Rattle.interpreter.specs.Steps.{steps};
ghost use Rattle.interpreter.specs.Targets.{known_number, indices_of_all, CoordinateIsNarrow};
ghost use Rattle.interpreter.specs.Updates.{FindsUpdate};
ghost use Rattle.interpreter.specs.Visits.{between};

use crate::buffers::{Buffers, Spot};
use crate::evaluation::{Stop, evaluate_run};
use crate::piece::Piece;
use crate::placing::{LISTS, Places, Target, place_update};
use crate::registers::{LONGEST_RUN, LONGEST_UPDATE, SHORTEST_RUN, value_at};
use crate::row::Row;
use crate::run_reading::RunReading;
use crate::sizes::size_in;
use crate::state::State;
use crate::store::{known_numbers, later_numbers, of_function, store};
use crate::symbols::{Binding, Symbols};
use crate::turns::{Turns, turn};
use crate::updates::{Update, is_update, store_turns, update_part};
use numeric::Ty;
use plan::{Coordinate, Index, Stmt};
use std::mem::replace;
use tree::Expr;

/// Whether all coordinates are known by forms.
fn are_forms(coordinates: &[Coordinate]) -> bool
    ensures { result ≡ are_forms coordinates.now }
{
    coordinates
        .iter()
        .all(|coordinate| matches!(coordinate.index, Index::Form(_)))
}

/// Notes the numbers of all coordinates at a turn.
pub(crate) fn numbers_in(
    binding: Binding,
    coordinates: &[Coordinate],
    symbols: &mut Symbols,
    numbers: &mut Row,
)
    requires narrow { All (CoordinateIsNarrow (bind (symbols_of symbols.old) binding.symbol binding.value binding.first)) coordinates.now }
    requires room { length coordinates.now ≤ numbers.old.room }
    requires symbols { length symbols.old.bound < symbols.old.room }
    ensures numbers { numbers.new ≡ listed (map (known_number (bind (symbols_of symbols.old) binding.symbol binding.value binding.first)) coordinates.now) numbers.old.room }
    ensures symbols { symbols.new ≡ symbols.old }
{
    let mark = symbols.bound_count();
    symbols.bind(binding);
    known_numbers(coordinates, symbols, numbers);
    symbols.forget(mark);
}

/// A line that stores.
#[derive(Clone, Copy, Drop)]
pub(crate) struct StoreLine<'a> {
    pub buffer: u64,
    pub definition: u64,
    pub coordinates: &'a [Coordinate],
    pub value: &'a Expr,
}

/// The statement of a block that has one alone.
pub(crate) fn alone(all: &[Stmt]) -> Option<&Stmt>
    ensures { option_map (λ one. statement_of one.now) result ≡ alone (block (list_statements all.now)) }
{
    match all {
        [] => None,
        [one] => Some(one),
        [_, _, ..] => None,
    }
}

/// A statement as a line that stores, if it is one.
fn stored(stmt: &Stmt) -> Option<StoreLine<'_>>
    ensures { IfSome result (IsStore (statement_of stmt.now)) }
{
    let Stmt::Store {
        buffer,
        definition,
        coordinates,
        value,
    } = stmt
    else {
        return None;
    };
    Some(StoreLine {
        buffer: *buffer,
        definition: *definition,
        coordinates,
        value,
    })
}

/// The line that stores, where a statement or a block is that line alone.
pub(crate) fn store_line(stmt: &Stmt) -> Option<StoreLine<'_>>
    ensures { IfSome result (IsStoreLine (statement_of stmt.now)) }
{
    match stmt {
        Stmt::Seq(all) => stored(alone(all)?),
        _ => stored(stmt),
    }
}

/// Some turns of a loop, one after another from this number on.
#[derive(Clone, Copy, Drop)]
pub(crate) struct Part {
    pub turns: Turns,
    pub low: i64,
    pub count: usize,
}

/// What the loop's symbol is in the turn that so many of these come before.
fn turn_in(part: Part, index: usize) -> Binding
    requires inside { index < part.count }
    requires few { part.count ≤ longest_run }
    requires high { (part.low +ℤ pos part.count) ≤ℤ pos (2 ^ 63) }
    ensures { result ≡ record { symbol = part.turns.symbol; value = part.low +ℤ pos index; first = int_le (part.low +ℤ pos index) part.turns.low } }
{
    turn(part.turns, part.low + index as i64)
}

/// The number behind these turns, if there is one of 64 bits.
fn behind(part: Part) -> Option<i64>
    requires { part.count ≤ longest_run }
    ensures { MatchOption result (pos (2 ^ 63) ≤ℤ (part.low +ℤ pos part.count)) (λ z. z ≡ part.low +ℤ pos part.count) }
{
    part.low.checked_add(part.count as i64)
}

/// The numbers of an expression at so many turns of a run, put into the first register: their type.
fn evaluate_in(
    expr: &Expr,
    reader: &RunReading<'_, '_>,
    count: usize,
    words: &mut [u32],
) -> Option<Ty>
    ensures count { IfSome result (λ _. count ≤ length words.new) }
    ensures finds { IfSome result (λ t. (m : Memory ValueFound) → IsBut reader.now.buffer (memory_of reader.now.memory.now) m → (k : ℕ) → k < count → found (bound (map (λ c. string_bytes c.variable) reader.now.coordinates.now) (numbers_at reader.now.first.now reader.now.second.now k)) (look (around reader.now.piece.now no_cells) m) (term_of expr.now) ≡ Some (typed t (word_at t words.new k))) }
{
    if words.len() < count {
        return None;
    }
    let (out, rest) = words.split_at_mut(count);
    let ty = evaluate_run(expr, reader, out, rest)?;
    Some(ty)
}

/// The value of a store's line at some turns of a loop, put into the first register, where it can be found for all of them
/// together: its type. The state then has the numbers of its coordinates at the first turn and at the second.
fn evaluate_part<'a>(
    piece: &'a Piece<'a>,
    line: &StoreLine<'a>,
    part: Part,
    symbols: &mut Symbols,
    state: &mut State,
) -> Option<Ty>
    requires narrow { (k : ℕ) → k < part.count → All (CoordinateIsNarrow (bind (symbols_of symbols.old) part.turns.symbol (part.low +ℤ pos k) (int_le (part.low +ℤ pos k) part.turns.low))) line.now.coordinates.now }
    requires high { (part.low +ℤ pos part.count) ≤ℤ pos (2 ^ 63) }
    requires symbols { length symbols.old.bound < symbols.old.room }
    requires numbers { length line.now.coordinates.now ≤ state.old.numbers.room }
    requires point { length line.now.coordinates.now ≤ state.old.point.room }
    ensures finds { IfSome result (λ t. FindsTurns piece.now line.now.buffer line.now.coordinates.now (term_of line.now.value.now) (symbols_of symbols.old) part.turns.symbol part.turns.low part.low (memory_of state.old.memory) part.count t state.new.words.items) }
    ensures count { IfSome result (λ _. part.count ≤ length state.new.words.items) }
    ensures numbers { IfSome result (λ _. (k : ℕ) → numbers_at state.new.numbers.items state.new.point.items k ≡ numbers_of line.now.coordinates.now (symbols_of symbols.old) part.turns.symbol part.turns.low (part.low +ℤ pos k)) }
    ensures symbols { symbols.new ≡ symbols.old }
    ensures memory { progress_of state.new ≡ progress_of state.old }
    ensures large { IsAsLarge state.old state.new }
{
    if part.count < 2 {
        return None;
    }
    let first = turn(part.turns, part.low);
    let second = turn(part.turns, part.low + 1);
    numbers_in(first, line.coordinates, symbols, &mut state.numbers);
    later_numbers(
        first,
        second,
        line.coordinates,
        symbols,
        state.numbers.as_slice(),
        &mut state.point,
    );
    let reader = RunReading {
        piece,
        coordinates: line.coordinates,
        memory: &state.memory,
        buffer: line.buffer,
        first: state.numbers.as_slice(),
        second: state.point.as_slice(),
    };
    evaluate_in(line.value, &reader, part.count, &mut state.words)
}

/// Stores the numbers of the first register at some turns of a loop, by the point of each.
fn write_points<'a>(
    piece: &'a Piece<'a>,
    line: &StoreLine<'a>,
    ty: Ty,
    part: Part,
    symbols: &mut Symbols,
    state: &mut State,
) -> Result<(), Stop>
    requires ready { IsReady piece.now }
    requires forms { are_forms line.now.coordinates.now ≡ true }
    requires narrow { (k : ℕ) → k < part.count → All (CoordinateIsNarrow (bind (symbols_of symbols.old) part.turns.symbol (part.low +ℤ pos k) (int_le (part.low +ℤ pos k) part.turns.low))) line.now.coordinates.now }
    requires few { part.count ≤ longest_run }
    requires high { (part.low +ℤ pos part.count) ≤ℤ pos (2 ^ 63) }
    requires count { part.count ≤ length state.old.words.items }
    requires symbols { length symbols.old.bound < symbols.old.room }
    requires point { length line.now.coordinates.now ≤ state.old.point.room }
    requires finds { FindsTurns piece.now line.now.buffer line.now.coordinates.now (term_of line.now.value.now) (symbols_of symbols.old) part.turns.symbol part.turns.low part.low (memory_of state.old.memory) part.count ty state.old.words.items }
    ensures symbols { OnOk result (symbols.new ≡ symbols.old) }
    ensures large { OnOk result (IsAsLarge state.old state.new) }
    ensures run { (definition : ℕ) (cell : List ℕ → List ℤ → ValueFound) → EndsIn state.old.given.room (λ _. progress_of state.new) result (steps (around piece.now cell) (flat_map (store_at piece.now line.now.buffer line.now.coordinates.now (term_of line.now.value.now) (symbols_of symbols.old) part.turns.symbol part.turns.low definition) (rising part.low part.count)) (progress_of state.old)) }
{
    let place = of_function(line.coordinates, size_in(piece.sizes, line.buffer));
    for index in 0..part.count {
        let binding = turn_in(part, index);
        numbers_in(binding, place, symbols, &mut state.point);
        let value = value_at(ty, &state.words, index);
        if !state
            .memory
            .write(line.buffer, state.point.as_slice(), value)
        {
            return Err(Stop::Fault);
        }
    }
    Ok(())
}

/// Whether the numbers are the same.
fn are_same(left: &[i64], right: &[i64]) -> bool
    ensures { OnTrue result (left.now ≡ right.now) }
{
    left == right
}

/// Whether the second number is one more than the first.
fn is_one_more(first: i64, second: i64) -> bool
    ensures { OnTrue result (second ≡ first +ℤ pos 1) }
{
    if first < second {
        second - 1 == first
    } else {
        false
    }
}

/// Whether the second point's first coordinate is one more than this one, and its others are these.
fn is_next(first: i64, others: &[i64], second: &[i64]) -> bool
    ensures { OnTrue result (second.now ≡ (first +ℤ pos 1) ∷ others.now) }
{
    let [next, later @ ..] = second else {
        return false;
    };
    if !is_one_more(first, *next) {
        return false;
    }
    are_same(later, others)
}

/// Where the first of so many points lies, where each lies behind the one before. The first coordinate rises by one, as the
/// second point tells.
fn risen_spot(
    memory: &Buffers,
    buffer: u64,
    first: &[i64],
    second: &[i64],
    count: usize,
) -> Option<Spot>
    ensures lies { IfSome result (λ s. (k : ℕ) → k < count → IsSpot memory.now buffer (numbers_at first.now second.now k) s k) }
    ensures inside { IfSome result (λ s. (k : ℕ) → k < count → HasPlace memory.now s.buffer (s.place + k)) }
{
    let [x, others @ ..] = first else {
        return None;
    };
    if !is_next(*x, others, second) {
        return None;
    }
    memory.spot(buffer, *x, others, count)
}

/// The words of so many turns.
fn first_words(words: &[u32], count: usize) -> &[u32]
    requires { count ≤ length words.now }
    ensures { result.now ≡ take count words.now }
{
    &words[..count]
}

/// The first so many numbers.
fn first_numbers(numbers: &[i64], count: usize) -> &[i64]
    ensures { result.now ≡ take count numbers.now }
{
    &numbers[..count.min(numbers.len())]
}

/// Where the first of so many stores of a run lies, where those of its later turns lie behind it one by one. The state has the
/// numbers of the coordinates at the first turn and at the second, of which the first so many are the point's.
fn spot_of(state: &State, buffer: u64, size: usize, count: usize) -> Option<Spot>
    ensures lies { IfSome result (λ s. (k : ℕ) → k < count → IsSpot state.now.memory buffer (take size (numbers_at state.now.numbers.items state.now.point.items k)) s k) }
    ensures inside { IfSome result (λ s. (k : ℕ) → k < count → HasPlace state.now.memory s.buffer (s.place + k)) }
{
    risen_spot(
        &state.memory,
        buffer,
        first_numbers(state.numbers.as_slice(), size),
        first_numbers(state.point.as_slice(), size),
        count,
    )
}

/// Stores the numbers of the first register at some turns of a loop. The state has the numbers of the coordinates at the first turn and
/// at the second.
fn write_part<'a>(
    piece: &'a Piece<'a>,
    line: &StoreLine<'a>,
    ty: Ty,
    part: Part,
    symbols: &mut Symbols,
    state: &mut State,
) -> Result<(), Stop>
    requires ready { IsReady piece.now }
    requires forms { are_forms line.now.coordinates.now ≡ true }
    requires narrow { (k : ℕ) → k < part.count → All (CoordinateIsNarrow (bind (symbols_of symbols.old) part.turns.symbol (part.low +ℤ pos k) (int_le (part.low +ℤ pos k) part.turns.low))) line.now.coordinates.now }
    requires few { part.count ≤ longest_run }
    requires high { (part.low +ℤ pos part.count) ≤ℤ pos (2 ^ 63) }
    requires count { part.count ≤ length state.old.words.items }
    requires symbols { length symbols.old.bound < symbols.old.room }
    requires point { length line.now.coordinates.now ≤ state.old.point.room }
    requires known { (k : ℕ) → numbers_at state.old.numbers.items state.old.point.items k ≡ numbers_of line.now.coordinates.now (symbols_of symbols.old) part.turns.symbol part.turns.low (part.low +ℤ pos k) }
    requires finds { FindsTurns piece.now line.now.buffer line.now.coordinates.now (term_of line.now.value.now) (symbols_of symbols.old) part.turns.symbol part.turns.low part.low (memory_of state.old.memory) part.count ty state.old.words.items }
    ensures symbols { OnOk result (symbols.new ≡ symbols.old) }
    ensures large { OnOk result (IsAsLarge state.old state.new) }
    ensures run { (definition : ℕ) (cell : List ℕ → List ℤ → ValueFound) → EndsIn state.old.given.room (λ _. progress_of state.new) result (steps (around piece.now cell) (flat_map (store_at piece.now line.now.buffer line.now.coordinates.now (term_of line.now.value.now) (symbols_of symbols.old) part.turns.symbol part.turns.low definition) (rising part.low part.count)) (progress_of state.old)) }
{
    let size = size_in(piece.sizes, line.buffer);
    match spot_of(state, line.buffer, size, part.count) {
        Some(spot) => {
            let words = first_words(&state.words, part.count);
            state.memory.put_words(spot, ty, words);
            Ok(())
        }
        None => write_points(piece, line, ty, part, symbols, state),
    }
}

/// The store at some turns of a loop, one after another.
fn store_one_by_one<'a>(
    piece: &'a Piece<'a>,
    line: &StoreLine<'a>,
    part: Part,
    symbols: &mut Symbols,
    state: &mut State,
) -> Result<(), Stop>
    requires ready { IsReady piece.now }
    requires narrow { (k : ℕ) → k < part.count → All (CoordinateIsNarrow (bind (symbols_of symbols.old) part.turns.symbol (part.low +ℤ pos k) (int_le (part.low +ℤ pos k) part.turns.low))) line.now.coordinates.now }
    requires few { part.count ≤ longest_run }
    requires high { (part.low +ℤ pos part.count) ≤ℤ pos (2 ^ 63) }
    requires symbols { length symbols.old.bound < symbols.old.room }
    requires numbers { length line.now.coordinates.now ≤ state.old.numbers.room }
    requires point { length line.now.coordinates.now ≤ state.old.point.room }
    requires stack { indices_of_all line.now.coordinates.now + indices_in (term_of line.now.value.now) ≤ state.old.stack.room }
    requires code { LineIsCoded piece.now line.now.buffer line.now.definition line.now.coordinates.now (term_of line.now.value.now) }
    ensures symbols { OnOk result (symbols.new ≡ symbols.old) }
    ensures large { OnOk result (IsAsLarge state.old state.new) }
    ensures run { (definition : ℕ) (cell : List ℕ → List ℤ → ValueFound) → EndsIn state.old.given.room (λ _. progress_of state.new) result (steps (around piece.now cell) (flat_map (store_at piece.now line.now.buffer line.now.coordinates.now (term_of line.now.value.now) (symbols_of symbols.old) part.turns.symbol part.turns.low definition) (rising part.low part.count)) (progress_of state.old)) }
{
    let mark = symbols.bound_count();
    for index in 0..part.count {
        symbols.bind(turn_in(part, index));
        store(
            piece,
            line.buffer,
            line.definition,
            line.coordinates,
            line.value,
            symbols,
            state,
        )?;
        symbols.forget(mark);
    }
    Ok(())
}

/// The store at some turns of a loop. What it stores is found for all of them together, or else one by one.
fn store_known_part<'a>(
    piece: &'a Piece<'a>,
    line: &StoreLine<'a>,
    part: Part,
    symbols: &mut Symbols,
    state: &mut State,
) -> Result<(), Stop>
    requires ready { IsReady piece.now }
    requires narrow { (k : ℕ) → k < part.count → All (CoordinateIsNarrow (bind (symbols_of symbols.old) part.turns.symbol (part.low +ℤ pos k) (int_le (part.low +ℤ pos k) part.turns.low))) line.now.coordinates.now }
    requires few { part.count ≤ longest_run }
    requires high { (part.low +ℤ pos part.count) ≤ℤ pos (2 ^ 63) }
    requires symbols { length symbols.old.bound < symbols.old.room }
    requires numbers { length line.now.coordinates.now ≤ state.old.numbers.room }
    requires point { length line.now.coordinates.now ≤ state.old.point.room }
    requires stack { indices_of_all line.now.coordinates.now + indices_in (term_of line.now.value.now) ≤ state.old.stack.room }
    requires code { LineIsCoded piece.now line.now.buffer line.now.definition line.now.coordinates.now (term_of line.now.value.now) }
    ensures symbols { OnOk result (symbols.new ≡ symbols.old) }
    ensures large { OnOk result (IsAsLarge state.old state.new) }
    ensures run { (definition : ℕ) (cell : List ℕ → List ℤ → ValueFound) → EndsIn state.old.given.room (λ _. progress_of state.new) result (steps (around piece.now cell) (flat_map (store_at piece.now line.now.buffer line.now.coordinates.now (term_of line.now.value.now) (symbols_of symbols.old) part.turns.symbol part.turns.low definition) (rising part.low part.count)) (progress_of state.old)) }
{
    if !are_forms(line.coordinates) {
        return store_one_by_one(piece, line, part, symbols, state);
    }
    match evaluate_part(piece, line, part, symbols, state) {
        Some(ty) => write_part(piece, line, ty, part, symbols, state),
        None => store_one_by_one(piece, line, part, symbols, state),
    }
}

/// An update at some turns of a loop, which is known for all of them. The list has room for the places of its points. Where it has not
/// enough, or one of the points has no place, the store is found anew.
fn store_placed<'a>(
    piece: &'a Piece<'a>,
    line: &StoreLine<'a>,
    update: Update,
    part: Part,
    places: &mut [usize],
    symbols: &mut Symbols,
    state: &mut State,
) -> Result<(), Stop>
    requires ready { IsReady piece.now }
    requires narrow { (k : ℕ) → k < part.count → All (CoordinateIsNarrow (bind (symbols_of symbols.old) part.turns.symbol (part.low +ℤ pos k) (int_le (part.low +ℤ pos k) part.turns.low))) line.now.coordinates.now }
    requires few { part.count ≤ longest_update }
    requires high { (part.low +ℤ pos part.count) ≤ℤ pos (2 ^ 63) }
    requires symbols { length symbols.old.bound < symbols.old.room }
    requires numbers { length line.now.coordinates.now ≤ state.old.numbers.room }
    requires point { length line.now.coordinates.now ≤ state.old.point.room }
    requires stack { indices_of_all line.now.coordinates.now + indices_in (term_of line.now.value.now) ≤ state.old.stack.room }
    requires code { LineIsCoded piece.now line.now.buffer line.now.definition line.now.coordinates.now (term_of line.now.value.now) }
    requires finds { FindsUpdate piece.now line.now.buffer (size_in piece.now.sizes.now line.now.buffer) line.now.coordinates.now (term_of line.now.value.now) (symbols_of symbols.old) part.turns.symbol part.turns.low part.low (memory_of state.old.memory) part.count update state.old.registers.items }
    ensures symbols { OnOk result (symbols.new ≡ symbols.old) }
    ensures large { OnOk result (IsAsLarge state.old state.new) }
    ensures run { (definition : ℕ) (cell : List ℕ → List ℤ → ValueFound) → EndsIn state.old.given.room (λ _. progress_of state.new) result (steps (around piece.now cell) (flat_map (store_at piece.now line.now.buffer line.now.coordinates.now (term_of line.now.value.now) (symbols_of symbols.old) part.turns.symbol part.turns.low definition) (rising part.low part.count)) (progress_of state.old)) }
{
    let position = match state.memory.position_of(line.buffer) {
        Some(position) if part.count <= places.len() / LISTS => position,
        _ => return store_known_part(piece, line, part, symbols, state),
    };
    let target = Target {
        buffer: line.buffer,
        position,
        size: size_in(piece.sizes, line.buffer),
        count: part.count,
    };
    let (point, rest) = places.split_at_mut(part.count);
    let (left, right) = rest.split_at_mut(part.count);
    match place_update(
        &state.memory,
        target,
        update,
        &state.registers,
        point,
        left,
        right,
    ) {
        Some(()) => {
            let places = Places {
                position,
                point,
                left,
                right,
            };
            store_turns(piece, line, update, &places, part, symbols, state)
        }
        None => store_known_part(piece, line, part, symbols, state),
    }
}

/// An update at some turns of a loop, which is known for all of them. The places of its points are put into the state's list for them.
fn store_update<'a>(
    piece: &'a Piece<'a>,
    line: &StoreLine<'a>,
    update: Update,
    part: Part,
    symbols: &mut Symbols,
    state: &mut State,
) -> Result<(), Stop>
    requires ready { IsReady piece.now }
    requires narrow { (k : ℕ) → k < part.count → All (CoordinateIsNarrow (bind (symbols_of symbols.old) part.turns.symbol (part.low +ℤ pos k) (int_le (part.low +ℤ pos k) part.turns.low))) line.now.coordinates.now }
    requires few { part.count ≤ longest_update }
    requires high { (part.low +ℤ pos part.count) ≤ℤ pos (2 ^ 63) }
    requires symbols { length symbols.old.bound < symbols.old.room }
    requires numbers { length line.now.coordinates.now ≤ state.old.numbers.room }
    requires point { length line.now.coordinates.now ≤ state.old.point.room }
    requires stack { indices_of_all line.now.coordinates.now + indices_in (term_of line.now.value.now) ≤ state.old.stack.room }
    requires code { LineIsCoded piece.now line.now.buffer line.now.definition line.now.coordinates.now (term_of line.now.value.now) }
    requires finds { FindsUpdate piece.now line.now.buffer (size_in piece.now.sizes.now line.now.buffer) line.now.coordinates.now (term_of line.now.value.now) (symbols_of symbols.old) part.turns.symbol part.turns.low part.low (memory_of state.old.memory) part.count update state.old.registers.items }
    ensures symbols { OnOk result (symbols.new ≡ symbols.old) }
    ensures large { OnOk result (IsAsLarge state.old state.new) }
    ensures run { (definition : ℕ) (cell : List ℕ → List ℤ → ValueFound) → EndsIn state.old.given.room (λ _. progress_of state.new) result (steps (around piece.now cell) (flat_map (store_at piece.now line.now.buffer line.now.coordinates.now (term_of line.now.value.now) (symbols_of symbols.old) part.turns.symbol part.turns.low definition) (rising part.low part.count)) (progress_of state.old)) }
{
    let alloc = *state.places.allocator();
    let mut places = replace(&mut state.places, Vec::new(alloc));
    let done = store_placed(piece, line, update, part, &mut places, symbols, state);
    state.places = places;
    done
}

/// The store at no more turns of a loop than the places of an update have room for.
fn store_short_part<'a>(
    piece: &'a Piece<'a>,
    line: &StoreLine<'a>,
    part: Part,
    symbols: &mut Symbols,
    state: &mut State,
) -> Result<(), Stop>
    requires ready { IsReady piece.now }
    requires narrow { (k : ℕ) → k < part.count → All (CoordinateIsNarrow (bind (symbols_of symbols.old) part.turns.symbol (part.low +ℤ pos k) (int_le (part.low +ℤ pos k) part.turns.low))) line.now.coordinates.now }
    requires few { part.count ≤ longest_update }
    requires high { (part.low +ℤ pos part.count) ≤ℤ pos (2 ^ 63) }
    requires symbols { length symbols.old.bound < symbols.old.room }
    requires numbers { length line.now.coordinates.now ≤ state.old.numbers.room }
    requires point { length line.now.coordinates.now ≤ state.old.point.room }
    requires stack { indices_of_all line.now.coordinates.now + indices_in (term_of line.now.value.now) ≤ state.old.stack.room }
    requires code { LineIsCoded piece.now line.now.buffer line.now.definition line.now.coordinates.now (term_of line.now.value.now) }
    ensures symbols { OnOk result (symbols.new ≡ symbols.old) }
    ensures large { OnOk result (IsAsLarge state.old state.new) }
    ensures run { (definition : ℕ) (cell : List ℕ → List ℤ → ValueFound) → EndsIn state.old.given.room (λ _. progress_of state.new) result (steps (around piece.now cell) (flat_map (store_at piece.now line.now.buffer line.now.coordinates.now (term_of line.now.value.now) (symbols_of symbols.old) part.turns.symbol part.turns.low definition) (rising part.low part.count)) (progress_of state.old)) }
{
    match update_part(piece, line, part, symbols, state) {
        Some(update) => store_update(piece, line, update, part, symbols, state),
        None => store_known_part(piece, line, part, symbols, state),
    }
}

/// The store at some turns of a loop.
fn store_part<'a>(
    piece: &'a Piece<'a>,
    line: &StoreLine<'a>,
    part: Part,
    symbols: &mut Symbols,
    state: &mut State,
) -> Result<(), Stop>
    requires ready { IsReady piece.now }
    requires narrow { (k : ℕ) → k < part.count → All (CoordinateIsNarrow (bind (symbols_of symbols.old) part.turns.symbol (part.low +ℤ pos k) (int_le (part.low +ℤ pos k) part.turns.low))) line.now.coordinates.now }
    requires few { part.count ≤ longest_run }
    requires high { (part.low +ℤ pos part.count) ≤ℤ pos (2 ^ 63) }
    requires symbols { length symbols.old.bound < symbols.old.room }
    requires numbers { length line.now.coordinates.now ≤ state.old.numbers.room }
    requires point { length line.now.coordinates.now ≤ state.old.point.room }
    requires stack { indices_of_all line.now.coordinates.now + indices_in (term_of line.now.value.now) ≤ state.old.stack.room }
    requires code { LineIsCoded piece.now line.now.buffer line.now.definition line.now.coordinates.now (term_of line.now.value.now) }
    ensures symbols { OnOk result (symbols.new ≡ symbols.old) }
    ensures large { OnOk result (IsAsLarge state.old state.new) }
    ensures run { (definition : ℕ) (cell : List ℕ → List ℤ → ValueFound) → EndsIn state.old.given.room (λ _. progress_of state.new) result (steps (around piece.now cell) (flat_map (store_at piece.now line.now.buffer line.now.coordinates.now (term_of line.now.value.now) (symbols_of symbols.old) part.turns.symbol part.turns.low definition) (rising part.low part.count)) (progress_of state.old)) }
{
    if part.count < SHORTEST_RUN {
        return store_one_by_one(piece, line, part, symbols, state);
    }
    if part.count > LONGEST_UPDATE {
        store_known_part(piece, line, part, symbols, state)
    } else {
        store_short_part(piece, line, part, symbols, state)
    }
}

/// How many turns of a store are taken together at most. An update takes memory for the places of each of its turns. Where there is one
/// turn at most, nothing is asked.
fn most_turns(piece: &Piece<'_>, line: &StoreLine<'_>, turns: Turns) -> usize
    ensures some { 0 < result }
    ensures few { result ≤ longest_run }
{
    if turns.high <= turns.low {
        return 1;
    }
    if is_update(piece, line) {
        LONGEST_UPDATE
    } else {
        LONGEST_RUN
    }
}

/// The turns of a loop from this number on, at most so many.
fn first_part(turns: Turns, low: i64, most: usize) -> Part
    requires low { low ≤ℤ turns.high }
    requires some { 0 < most }
    requires few { most ≤ longest_run }
    ensures turns { result.turns ≡ turns }
    ensures low { result.low ≡ low }
    ensures some { 0 < result.count }
    ensures few { result.count ≤ longest_run }
    ensures high { (low +ℤ pos result.count) ≤ℤ (turns.high +ℤ pos 1) }
{
    let count = match turns.high.checked_sub(low) {
        Some(more) if more < most as i64 => more as usize + 1,
        _ => most,
    };
    Part { turns, low, count }
}

/// The store at all turns of a loop.
pub(crate) fn run_stores<'a>(
    piece: &'a Piece<'a>,
    line: &StoreLine<'a>,
    turns: Turns,
    symbols: &mut Symbols,
    state: &mut State,
) -> Result<(), Stop>
    requires ready { IsReady piece.now }
    requires narrow { (z : ℤ) → Contains (between turns.low turns.high) z → All (CoordinateIsNarrow (bind (symbols_of symbols.old) turns.symbol z (int_le z turns.low))) line.now.coordinates.now }
    requires symbols { length symbols.old.bound < symbols.old.room }
    requires numbers { length line.now.coordinates.now ≤ state.old.numbers.room }
    requires point { length line.now.coordinates.now ≤ state.old.point.room }
    requires stack { indices_of_all line.now.coordinates.now + indices_in (term_of line.now.value.now) ≤ state.old.stack.room }
    requires code { LineIsCoded piece.now line.now.buffer line.now.definition line.now.coordinates.now (term_of line.now.value.now) }
    ensures symbols { OnOk result (symbols.new ≡ symbols.old) }
    ensures large { OnOk result (IsAsLarge state.old state.new) }
    ensures run { (definition : ℕ) (cell : List ℕ → List ℤ → ValueFound) → EndsIn state.old.given.room (λ _. progress_of state.new) result (steps (around piece.now cell) (flat_map (store_at piece.now line.now.buffer line.now.coordinates.now (term_of line.now.value.now) (symbols_of symbols.old) turns.symbol turns.low definition) (between turns.low turns.high)) (progress_of state.old)) }
{
    let most = most_turns(piece, line, turns);
    let mut low = turns.low;
    while low <= turns.high {
        let part = first_part(turns, low, most);
        store_part(piece, line, part, symbols, state)?;
        let Some(next) = behind(part) else {
            return Ok(());
        };
        low = next;
    }
    Ok(())
}
