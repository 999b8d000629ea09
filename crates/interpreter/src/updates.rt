//! Updates at several turns of a loop together: what is known for all turns goes into registers, and what the buffer that is
//! stored to has is read and written turn by turn.

ghost use Rattle.std.specs.Bool.{OnTrue};
ghost use Rattle.std.specs.Prelude.{◌≡◌, ◌∷◌, ◌++◌, ◌<◌, ◌≤◌, ◌+◌, ℕ, ℤ, List, pos, ◌+ℤ◌, ◌-ℤ◌, ◌*ℤ◌, ◌≤ℤ◌, ◌^◌, drop, length, map, flat_map, All, IfSome, OnOk, Some, int_le, string_bytes};
ghost use Rattle.tree.specs.declared.value.Value.{Value as ValueFound};
ghost use Rattle.tree.specs.Term.{term_of};
ghost use Rattle.meaning.specs.Names.{bound};
ghost use Rattle.plan.specs.View.{coordinate_of};
ghost use Rattle.plan.specs.Semantics.Found.{found};
ghost use Rattle.plan.specs.Semantics.Memory.{Memory, read};
ghost use Rattle.plan.specs.Semantics.Run.{look};
ghost use Rattle.plan.specs.Symbols.{bind, rising};
ghost use Rattle.interpreter.specs.Bindings.{symbols_of};
ghost use Rattle.interpreter.specs.Buffers.Blocks.{memory_of};
ghost use Rattle.interpreter.specs.Evaluation.Lanes.{number_at};
ghost use Rattle.interpreter.specs.PlaceNumbers.{UpdateStands};
ghost use Rattle.interpreter.specs.Pieces.{around, no_cells, IsReady};
ghost use Rattle.interpreter.specs.Runs.{numbers_at, store_at, IsBut};
ghost use Rattle.interpreter.specs.Sizes.{size_in};
ghost use Rattle.interpreter.specs.States.{progress_of, EndsIn, IsAsLarge};
ghost use Rattle.interpreter.specs.Steps.{steps};
ghost use Rattle.interpreter.specs.Targets.{CoordinateIsNarrow};
ghost use Rattle.interpreter.specs.Updates.{columns_at, operand_at, operation_at, place_number, variables_at, place_numbers, registers_of, FindsTurn, FindsUpdate, IsOperation, IsOwnCall, IsPoint, IsShort};

use crate::columns::{column_run, columns_run};
use crate::evaluation::{Number, Stop, evaluate_numbers, fill, fill_rising, fill_steps};
use crate::loads::{claim_of, is_named};
use crate::piece::Piece;
use crate::placing::{Places, Target};
use crate::run_reading::RunReading;
use crate::runs::{Part, StoreLine, numbers_in};
use crate::sizes::size_in;
use crate::state::State;
use crate::store::later_numbers;
use crate::symbols::Symbols;
use crate::turns::turn;
use crate::update_reading::{UpdateReading, are_few};
use numeric::{Op, Ty};
use plan::{Coordinate, Index};
use tree::Expr;

/// An operand at the turns of a run.
#[derive(Clone, Copy, Drop)]
pub(crate) enum Operand {
    /// Its numbers, of this type, are known for all turns. They have a register.
    Known(Ty),
    /// What the buffer that is stored to has at a point of so many coordinates, which are known for all turns and have a
    /// register each.
    Own(usize),
}

/// An operator on two operands. The registers of the second lie so many numbers behind those of the first.
#[derive(Clone, Copy, Drop)]
pub(crate) struct Operation {
    pub op: Op,
    pub left: Operand,
    pub right: Operand,
    pub width: usize,
}

/// A store of an operation's value. Its coordinates have the first registers, and its operands those from a place on.
#[derive(Clone, Copy, Drop)]
pub(crate) struct Update {
    pub start: usize,
    pub operation: Operation,
}

/// How many registers an operand has.
fn registers_of(operand: Operand) -> usize
    ensures { result ≡ registers_of operand }
{
    match operand {
        Operand::Known(_) => 1,
        Operand::Own(width) => width,
    }
}

/// Puts the numbers of a coordinate in, by those of the first turn and of the second.
fn step_numbers(first: i64, second: i64, out: &mut [Number]) -> Option<()>
    ensures { IfSome result (λ _. (k : ℕ) → k < length out.new → number_at out.new k ≡ first +ℤ (second -ℤ first) *ℤ pos k) }
{
    let number = Number { value: first };
    if second == first {
        fill(number, out);
        return Some(());
    }
    let step = second.checked_sub(first)?;
    if step == 1 && are_few(out.len(), first) {
        fill_rising(number, out);
        return Some(());
    }
    fill_steps(first, step, out)
}

/// The numbers of a coordinate at the turns of a run, by those of the first turn and of the second as far as a form tells
/// them. Only one of a point is found by an expression.
fn coordinate_numbers(
    reader: &RunReading<'_, '_>,
    coordinate: &Coordinate,
    first: i64,
    second: i64,
    places: usize,
    out: &mut [Number],
    words: &mut [u32],
) -> Option<()>
    ensures { IfSome result (λ _. (m : Memory ValueFound) → IsBut reader.now.buffer (memory_of reader.now.memory.now) m → (k : ℕ) → k < length out.new → place_number (bound (map (λ c. string_bytes c.variable) reader.now.coordinates.now) (numbers_at reader.now.first.now reader.now.second.now k)) (look (around reader.now.piece.now no_cells) m) places (coordinate_of coordinate.now).index (first +ℤ (second -ℤ first) *ℤ pos k) ≡ Some (number_at out.new k)) }
{
    match &coordinate.index {
        Index::Found(expr) if places > 0 => {
            evaluate_numbers(expr, reader, words, out)?;
            Some(())
        }
        _ => step_numbers(first, second, out),
    }
}

/// The numbers of a coordinate at so many turns of a run, put into the first register.
fn coordinate_run(
    reader: &RunReading<'_, '_>,
    coordinate: &Coordinate,
    first: i64,
    second: i64,
    places: usize,
    count: usize,
    registers: &mut [Number],
    words: &mut [u32],
) -> Option<()>
    ensures { IfSome result (λ _. (m : Memory ValueFound) → IsBut reader.now.buffer (memory_of reader.now.memory.now) m → (k : ℕ) → k < count → place_number (bound (map (λ c. string_bytes c.variable) reader.now.coordinates.now) (numbers_at reader.now.first.now reader.now.second.now k)) (look (around reader.now.piece.now no_cells) m) places (coordinate_of coordinate.now).index (first +ℤ (second -ℤ first) *ℤ pos k) ≡ Some (number_at registers.new k)) }
{
    if registers.len() < count {
        return None;
    }
    let (out, _) = registers.split_at_mut(count);
    coordinate_numbers(reader, coordinate, first, second, places, out, words)?;
    Some(())
}

/// The numbers of the first so many of a store's coordinates, those of the point, at so many turns of a run, put into a register each,
/// one behind the other. The others are known by forms, and have registers that nothing is put into.
fn coordinates_run(
    reader: &RunReading<'_, '_>,
    coordinates: &[Coordinate],
    first: &[i64],
    second: &[i64],
    places: usize,
    count: usize,
    registers: &mut [Number],
    words: &mut [u32],
) -> Option<()>
    requires places { places ≤ length coordinates.now }
    requires numbers { length first.now ≡ length coordinates.now }
    ensures { IfSome result (λ _. (m : Memory ValueFound) → IsBut reader.now.buffer (memory_of reader.now.memory.now) m → (k : ℕ) → k < count → place_numbers (bound (map (λ c. string_bytes c.variable) reader.now.coordinates.now) (numbers_at reader.now.first.now reader.now.second.now k)) (look (around reader.now.piece.now no_cells) m) places coordinates.now (numbers_at first.now second.now k) ≡ Some (columns_at count places registers.new k ++ drop places (numbers_at first.now second.now k))) }
{
    if places == 0 {
        return Some(());
    }
    match (coordinates, first, second) {
        ([coordinate, coordinates @ ..], [number, first @ ..], [next, second @ ..]) => {
            coordinate_run(
                reader, coordinate, *number, *next, places, count, registers, words,
            )?;
            if registers.len() < count {
                return None;
            }
            let (_, rest) = registers.split_at_mut(count);
            coordinates_run(
                reader,
                coordinates,
                first,
                second,
                places - 1,
                count,
                rest,
                words,
            )
        }
        _ => None,
    }
}

/// The buffer of the claim that a call's name means, if it means one and not the input.
fn claimed_buffer(piece: &Piece<'_>, name: &str) -> Option<u64>
    ensures { IfSome result (λ b. (m : Memory ValueFound) (p : List ℤ) → look (around piece.now no_cells) m name.now p ≡ read m b p) }
{
    if is_named(name, piece.plan.input.name.as_str()) {
        return None;
    }
    let claim = piece.cert.claims.get(claim_of(name)?)?;
    Some(claim.buffer)
}

/// The indices of a call of the buffer that is stored to, if an expression is one.
fn own_call<'e>(piece: &Piece<'_>, buffer: u64, expr: &'e Expr) -> Option<&'e [Expr]>
    ensures { IfSome result (λ at. IsOwnCall piece.now buffer (term_of expr.now) at.now) }
{
    let Expr::Call { name, at, .. } = expr else {
        return None;
    };
    if claimed_buffer(piece, name.as_str())? == buffer {
        Some(at)
    } else {
        None
    }
}

/// An operand at so many turns of a run, of which the registers are the first ones.
fn operand_run(
    expr: &Expr,
    reader: &UpdateReading<'_, '_>,
    count: usize,
    registers: &mut [Number],
    words: &mut [u32],
) -> Option<Operand>
    ensures short { IfSome result IsShort }
    ensures finds { IfSome result (λ o. (m : Memory ValueFound) → IsBut reader.now.reading.buffer (memory_of reader.now.reading.memory.now) m → (k : ℕ) → k < count → found (variables_at reader.now k) (look (around reader.now.reading.piece.now no_cells) m) (term_of expr.now) ≡ operand_at count o registers.new m reader.now.reading.buffer k) }
{
    match own_call(reader.reading.piece, reader.reading.buffer, expr) {
        Some(indices) => {
            if indices.len() > 4 {
                return None;
            }
            columns_run(indices, reader, count, registers, words)?;
            Some(Operand::Own(indices.len()))
        }
        None => Some(Operand::Known(column_run(expr, reader, count, registers, words)?)),
    }
}

/// An operation at so many turns of a run, of which the registers are the first ones, if an expression is one.
fn operation_run(
    expr: &Expr,
    reader: &UpdateReading<'_, '_>,
    count: usize,
    registers: &mut [Number],
    words: &mut [u32],
) -> Option<Operation>
    ensures short { IfSome result IsOperation }
    ensures finds { IfSome result (λ o. (m : Memory ValueFound) → IsBut reader.now.reading.buffer (memory_of reader.now.reading.memory.now) m → (k : ℕ) → k < count → found (variables_at reader.now k) (look (around reader.now.reading.piece.now no_cells) m) (term_of expr.now) ≡ operation_at count o registers.new m reader.now.reading.buffer k) }
{
    let Expr::Binary {
        op,
        left,
        right,
        ..
    } = expr
    else {
        return None;
    };
    let left = operand_run(left, reader, count, registers, words)?;
    let width = registers_of(left).checked_mul(count)?;
    if registers.len() < width {
        return None;
    }
    let (_, rest) = registers.split_at_mut(width);
    let right = operand_run(right, reader, count, rest, words)?;
    Some(Operation {
        op: *op,
        left,
        right,
        width,
    })
}

/// A store to a point of so many coordinates at so many turns of a run, if its value is an operation.
fn update_run(
    value: &Expr,
    size: usize,
    reader: &RunReading<'_, '_>,
    count: usize,
    registers: &mut [Number],
    words: &mut [u32],
) -> Option<Update>
    ensures point { IfSome result (λ _. IsPoint size (length reader.now.coordinates.now)) }
    ensures operation { IfSome result (λ u. IsOperation u.operation) }
    ensures finds { IfSome result (λ u. (m : Memory ValueFound) → IsBut reader.now.buffer (memory_of reader.now.memory.now) m → (k : ℕ) → k < count → FindsTurn (bound (map (λ c. string_bytes c.variable) reader.now.coordinates.now) (numbers_at reader.now.first.now reader.now.second.now k)) (numbers_at reader.now.first.now reader.now.second.now k) reader.now.buffer size count reader.now.coordinates.now (term_of value.now) (look (around reader.now.piece.now no_cells) m) u registers.new m k) }
{
    let coordinates = reader.coordinates;
    if size > 4 || size > coordinates.len() || reader.first.len() != coordinates.len() {
        return None;
    }
    coordinates_run(
        reader,
        coordinates,
        reader.first,
        reader.second,
        size,
        count,
        registers,
        words,
    )?;
    let start = coordinates.len().checked_mul(count)?;
    if registers.len() < start {
        return None;
    }
    let (columns, rest) = registers.split_at_mut(start);
    let inner = UpdateReading {
        reading: *reader,
        size,
        columns,
        count,
    };
    let operation = operation_run(value, &inner, count, rest, words)?;
    Some(Update { start, operation })
}

/// Whether a line stores an operation of which an operand is what the buffer that is stored to has.
pub(crate) fn is_update(piece: &Piece<'_>, line: &StoreLine<'_>) -> bool {
    match line.value {
        Expr::Binary { left, right, .. } => {
            own_call(piece, line.buffer, left).is_some()
                || own_call(piece, line.buffer, right).is_some()
        }
        _ => false,
    }
}

/// The update that a store's line is at some turns of a loop, if it is one and is known for all of them together.
pub(crate) fn update_part<'a>(
    piece: &'a Piece<'a>,
    line: &StoreLine<'a>,
    part: Part,
    symbols: &mut Symbols,
    state: &mut State,
) -> Option<Update>
    requires narrow { (k : ℕ) → k < part.count → All (CoordinateIsNarrow (bind (symbols_of symbols.old) part.turns.symbol (part.low +ℤ pos k) (int_le (part.low +ℤ pos k) part.turns.low))) line.now.coordinates.now }
    requires high { (part.low +ℤ pos part.count) ≤ℤ pos (2 ^ 63) }
    requires symbols { length symbols.old.bound < symbols.old.room }
    requires numbers { length line.now.coordinates.now ≤ state.old.numbers.room }
    requires point { length line.now.coordinates.now ≤ state.old.point.room }
    ensures finds { IfSome result (λ u. FindsUpdate piece.now line.now.buffer (size_in piece.now.sizes.now line.now.buffer) line.now.coordinates.now (term_of line.now.value.now) (symbols_of symbols.old) part.turns.symbol part.turns.low part.low (memory_of state.old.memory) part.count u state.new.registers.items) }
    ensures symbols { symbols.new ≡ symbols.old }
    ensures memory { progress_of state.new ≡ progress_of state.old }
    ensures large { IsAsLarge state.old state.new }
{
    if part.count < 2 {
        return None;
    }
    if !is_update(piece, line) {
        return None;
    }
    let first = turn(part.turns, part.low);
    let second = turn(part.turns, part.low + 1);
    numbers_in(first, line.coordinates, symbols, &mut state.numbers);
    later_numbers(
        first,
        second,
        line.coordinates,
        symbols,
        state.numbers.as_slice(),
        &mut state.point,
    );
    let reader = RunReading {
        piece,
        coordinates: line.coordinates,
        memory: &state.memory,
        buffer: line.buffer,
        first: state.numbers.as_slice(),
        second: state.point.as_slice(),
    };
    let size = size_in(piece.sizes, line.buffer);
    update_run(
        line.value,
        size,
        &reader,
        part.count,
        &mut state.registers,
        &mut state.words,
    )
}

/// An update at some turns of a loop, one after another.
pub(crate) fn store_turns<'a>(
    piece: &'a Piece<'a>,
    line: &StoreLine<'a>,
    update: Update,
    places: &Places<'_>,
    part: Part,
    symbols: &Symbols,
    state: &mut State,
) -> Result<(), Stop>
    requires ready { IsReady piece.now }
    requires finds { FindsUpdate piece.now line.now.buffer (size_in piece.now.sizes.now line.now.buffer) line.now.coordinates.now (term_of line.now.value.now) (symbols_of symbols.now) part.turns.symbol part.turns.low part.low (memory_of state.old.memory) part.count update state.old.registers.items }
    requires stands { (k : ℕ) → k < part.count → UpdateStands state.old.memory line.now.buffer (size_in piece.now.sizes.now line.now.buffer) part.count places.now.position update state.old.registers.items places.now.point.now places.now.left.now places.now.right.now k }
    ensures large { OnOk result (IsAsLarge state.old state.new) }
    ensures run { (definition : ℕ) (cell : List ℕ → List ℤ → ValueFound) → EndsIn state.old.given.room (λ _. progress_of state.new) result (steps (around piece.now cell) (flat_map (store_at piece.now line.now.buffer line.now.coordinates.now (term_of line.now.value.now) (symbols_of symbols.now) part.turns.symbol part.turns.low definition) (rising part.low part.count)) (progress_of state.old)) }
{
    let target = Target {
        buffer: line.buffer,
        position: places.position,
        size: size_in(piece.sizes, line.buffer),
        count: part.count,
    };
    match state
        .memory
        .turn_all(target, update, &state.registers, places)
    {
        Some(()) => Ok(()),
        None => Err(Stop::Fault),
    }
}
