//! Stores and allocations.

ghost use Rattle.std.specs.Prelude.{◌≡◌, ◌∷◌, ◌+◌, ◌≤◌, [], ℕ, ℤ, pos, ◌+ℤ◌, List, Some, None, All, IfSome, MatchOption, OnOk, length, map, take, drop, string_bytes};
ghost use Rattle.tree.specs.declared.value.Value.{Value as ValueFound};
ghost use Rattle.tree.specs.Term.{term_of};
ghost use Rattle.meaning.specs.Names.{bound};
ghost use Rattle.plan.specs.Rooms.{room};
ghost use Rattle.plan.specs.Symbols.{bind};
ghost use Rattle.plan.specs.View.{coordinate_of};
ghost use Rattle.plan.specs.Semantics.Actions.{stored, Allot};
ghost use Rattle.plan.specs.Semantics.Run.{Around, found_target};
ghost use Rattle.interpreter.specs.Buffers.Rooms.{room_of};
ghost use Rattle.interpreter.specs.Buffers.Blocks.{limits_of, memory_of, HasMemoryFor};
ghost use Rattle.interpreter.specs.Evaluation.Indices.{indices_in};
ghost use Rattle.interpreter.specs.Bindings.{symbols_of};
ghost use Rattle.interpreter.specs.Narrow.{PlacesAreNarrow};
ghost use Rattle.interpreter.specs.Needs.{places_in};
ghost use Rattle.interpreter.specs.Pieces.{around, setting, found_in, no_cells, IsReady, LineIsCoded};
ghost use Rattle.interpreter.specs.Readings.{value_in};
ghost use Rattle.interpreter.specs.States.{progress_of, EndsIn, IsAsLarge};
ghost use Rattle.interpreter.specs.Steps.{steps};
ghost use Rattle.interpreter.specs.Rows.{listed};
ghost use Rattle.interpreter.specs.Targets.{indices_of, indices_of_all, target_of, known_number, target_number, CoordinateIsNarrow};

use crate::buffers::{Room, Rooms};
use crate::code::value_by;
use crate::evaluation::{Stop, evaluate};
use crate::forms::value_of;
use crate::line_codes::code_at;
use crate::piece::Piece;
use crate::reading::Reading;
use crate::row::Row;
use crate::sizes::size_in;
use crate::state::State;
use crate::symbols::{Binding, Symbols};
use crate::visits::set;
use plan::{Coordinate, Index, Places};
use smallvec::SmallVec;
use std::alloc::Global;
use tree::{Expr, Value};

/// The places of one coordinate.
fn room(places: &Places, symbols: &Symbols) -> Room
    requires { PlacesAreNarrow (symbols_of symbols.now) places.now }
    ensures { room_of result ≡ room (symbols_of symbols.now) places.now }
{
    match places {
        Places::From { origin, count } => Room::Straight {
            origin: value_of(origin, symbols),
            count: *count,
        },
        Places::Folded { count } => Room::Wrapped { count: *count },
    }
}

/// The places of all coordinates.
fn rooms(alloc: Global, places: &[Places], symbols: &Symbols) -> Rooms
    requires narrow { All (PlacesAreNarrow (symbols_of symbols.now)) places.now }
    requires short { length places.now ≤ 4 }
    ensures { map room_of result.items ≡ map (room (symbols_of symbols.now)) places.now }
{
    let mut rooms = SmallVec::new(alloc);
    for one in places {
        rooms.push_reserved(room(one, symbols));
    }
    rooms
}

/// Makes a buffer.
pub(crate) fn allot(
    alloc: Global,
    buffer: u64,
    places: &[Places],
    symbols: &Symbols,
    state: &mut State,
)
    requires narrow { All (PlacesAreNarrow (symbols_of symbols.now)) places.now }
    requires short { length places.now ≤ 4 }
    requires memory { HasMemoryFor (limits_of state.old.memory) buffer (places_in places.now) }
    ensures large { IsAsLarge state.old state.new }
    ensures allot { (surroundings : Around) → Some (progress_of state.new) ≡ steps surroundings (Allot buffer (map (room (symbols_of symbols.now)) places.now) ∷ []) (progress_of state.old) }
{
    let rooms = rooms(alloc, places, symbols);
    state.memory.allot(buffer, rooms);
}

/// The number of a coordinate, 0 where an expression finds it.
fn known_number(coordinate: &Coordinate, symbols: &Symbols) -> i64
    requires { CoordinateIsNarrow (symbols_of symbols.now) coordinate.now }
    ensures { result ≡ known_number (symbols_of symbols.now) coordinate.now }
{
    match &coordinate.index {
        Index::Form(form) => value_of(form, symbols),
        Index::Found(_) => 0,
    }
}

/// Notes the numbers of all coordinates, 0 where an expression finds one.
pub(crate) fn known_numbers(coordinates: &[Coordinate], symbols: &Symbols, numbers: &mut Row)
    requires narrow { All (CoordinateIsNarrow (symbols_of symbols.now)) coordinates.now }
    requires room { length coordinates.now ≤ numbers.old.room }
    ensures { numbers.new ≡ listed (map (known_number (symbols_of symbols.now)) coordinates.now) numbers.old.room }
{
    numbers.clear();
    for coordinate in coordinates {
        numbers.push(known_number(coordinate, symbols));
    }
}

/// The number of a coordinate at one turn of a loop, by that at the turn before: a form rises by the factor of the loop's symbol.
fn later_number(
    first: Binding,
    second: Binding,
    coordinate: &Coordinate,
    symbols: &Symbols,
    number: i64,
) -> i64
    requires same { second.symbol ≡ first.symbol }
    requires next { second.value ≡ first.value +ℤ pos 1 }
    requires number { number ≡ known_number (bind (symbols_of symbols.now) first.symbol first.value first.first) coordinate.now }
    requires narrow { CoordinateIsNarrow (bind (symbols_of symbols.now) second.symbol second.value second.first) coordinate.now }
    ensures { result ≡ known_number (bind (symbols_of symbols.now) second.symbol second.value second.first) coordinate.now }
{
    match &coordinate.index {
        Index::Form(form) => number.wrapping_add(form.factor(second.symbol)),
        Index::Found(_) => 0,
    }
}

/// Notes the numbers of all coordinates at one turn of a loop, by those at the turn before.
pub(crate) fn later_numbers(
    first: Binding,
    second: Binding,
    coordinates: &[Coordinate],
    symbols: &Symbols,
    numbers: &[i64],
    later: &mut Row,
)
    requires same { second.symbol ≡ first.symbol }
    requires next { second.value ≡ first.value +ℤ pos 1 }
    requires numbers { numbers.now ≡ map (known_number (bind (symbols_of symbols.now) first.symbol first.value first.first)) coordinates.now }
    requires narrow { All (CoordinateIsNarrow (bind (symbols_of symbols.now) second.symbol second.value second.first)) coordinates.now }
    requires room { length coordinates.now ≤ later.old.room }
    ensures { later.new ≡ listed (map (known_number (bind (symbols_of symbols.now) second.symbol second.value second.first)) coordinates.now) later.old.room }
{
    later.clear();
    for index in 0..coordinates.len() {
        let coordinate = &coordinates[index];
        let number = later_number(first, second, coordinate, symbols, numbers[index]);
        later.push(number);
    }
}

/// The number of a coordinate, which an expression may have to find.
fn found_number(
    coordinate: &Coordinate,
    symbols: &Symbols,
    reading: &Reading<'_, '_>,
    stack: &mut Row,
) -> Option<i64>
    requires narrow { CoordinateIsNarrow (symbols_of symbols.now) coordinate.now }
    requires room { length stack.old.items + indices_of coordinate.now ≤ stack.old.room }
    ensures number { result ≡ (target_number (bound (map (λ c. string_bytes c.variable) reading.now.coordinates.now) reading.now.numbers.now) (found_in reading.now.piece.now reading.now.memory.now) (target_of (symbols_of symbols.now) coordinate.now)) }
    ensures stack { stack.new ≡ stack.old }
{
    match &coordinate.index {
        Index::Form(form) => Some(value_of(form, symbols)),
        Index::Found(expr) => Some(evaluate(expr, reading, stack)?.number),
    }
}

/// Finds the point where a store writes, if there is one.
fn find_point(
    coordinates: &[Coordinate],
    symbols: &Symbols,
    reading: &Reading<'_, '_>,
    stack: &mut Row,
    point: &mut Row,
) -> Option<()>
    requires narrow { All (CoordinateIsNarrow (symbols_of symbols.now)) coordinates.now }
    requires room { length coordinates.now ≤ point.old.room }
    requires stack { length stack.old.items + indices_of_all coordinates.now ≤ stack.old.room }
    ensures stack { stack.new ≡ stack.old }
    ensures room { point.new.room ≡ point.old.room }
    ensures count { IfSome result (λ _. length point.new.items ≡ length coordinates.now) }
    ensures point { MatchOption result (found_target (around reading.now.piece.now no_cells) (bound (map (λ c. string_bytes c.variable) reading.now.coordinates.now) reading.now.numbers.now) (map (target_of (symbols_of symbols.now)) coordinates.now) (memory_of reading.now.memory.now) ≡ None) (λ _. found_target (around reading.now.piece.now no_cells) (bound (map (λ c. string_bytes c.variable) reading.now.coordinates.now) reading.now.numbers.now) (map (target_of (symbols_of symbols.now)) coordinates.now) (memory_of reading.now.memory.now) ≡ Some point.new.items) }
{
    point.clear();
    for coordinate in coordinates {
        let number = found_number(coordinate, symbols, reading, stack)?;
        point.push(number);
    }
    Some(())
}

/// The coordinates that are the function's, the first so many.
pub(crate) fn of_function(coordinates: &[Coordinate], count: usize) -> &[Coordinate]
    ensures { result.now ≡ take count coordinates.now }
{
    &coordinates[..count.min(coordinates.len())]
}

/// The numbers of the other coordinates, which are reduction variables.
fn of_reduction(numbers: &[i64], count: usize) -> &[i64]
    ensures { result.now ≡ drop count numbers.now }
{
    &numbers[count.min(numbers.len())..]
}

/// The value of a line, by its code where it has one.
fn line_value(
    buffer: u64,
    definition: u64,
    value: &Expr,
    reading: &Reading<'_, '_>,
    stack: &mut Row,
) -> Option<Value>
    requires ready { IsReady reading.now.piece.now }
    requires code { LineIsCoded reading.now.piece.now buffer definition reading.now.coordinates.now (term_of value.now) }
    requires room { length stack.old.items + indices_in (term_of value.now) ≤ stack.old.room }
    ensures value { result ≡ value_in reading.now (term_of value.now) }
    ensures stack { stack.new ≡ stack.old }
{
    match code_at(reading.piece.codes, buffer, definition) {
        Some(code) => value_by(code, reading, stack),
        None => evaluate(value, reading, stack),
    }
}

/// Stores the value of a definition at a point. A pure definition's point is known, an update's may have to be found.
pub(crate) fn store<'a>(
    piece: &'a Piece<'a>,
    buffer: u64,
    definition: u64,
    coordinates: &'a [Coordinate],
    value: &Expr,
    symbols: &Symbols,
    state: &mut State,
) -> Result<(), Stop>
    requires ready { IsReady piece.now }
    requires narrow { All (CoordinateIsNarrow (symbols_of symbols.now)) coordinates.now }
    requires numbers { length coordinates.now ≤ state.old.numbers.room }
    requires point { length coordinates.now ≤ state.old.point.room }
    requires stack { indices_of_all coordinates.now + indices_in (term_of value.now) ≤ state.old.stack.room }
    requires code { LineIsCoded piece.now buffer definition coordinates.now (term_of value.now) }
    ensures large { OnOk result (IsAsLarge state.old state.new) }
    ensures store { (k : ℕ) (cell : List ℕ → List ℤ → ValueFound) → EndsIn state.old.given.room (λ _. progress_of state.new) result (steps (around piece.now cell) (stored (setting piece.now) buffer k (map coordinate_of coordinates.now) (term_of value.now) (symbols_of symbols.now) ∷ []) (progress_of state.old)) }
{
    let count = size_in(piece.sizes, buffer);
    let place = of_function(coordinates, count);
    known_numbers(coordinates, symbols, &mut state.numbers);
    state.stack.clear();
    let left = Reading {
        piece,
        coordinates,
        memory: &state.memory,
        numbers: state.numbers.as_slice(),
    };
    let Some(()) = find_point(place, symbols, &left, &mut state.stack, &mut state.point) else {
        return Err(Stop::Fault);
    };
    state
        .point
        .append(of_reduction(state.numbers.as_slice(), count));
    let right = Reading {
        piece,
        coordinates,
        memory: &state.memory,
        numbers: state.point.as_slice(),
    };
    let Some(found) = line_value(buffer, definition, value, &right, &mut state.stack) else {
        return Err(Stop::Fault);
    };
    state.point.truncate(place.len());
    set(state, buffer, found)
}
