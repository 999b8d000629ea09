//! Loops over a named number and a store's loop, whose first turns are taken as those of one loop.

ghost use Rattle.std.specs.Prelude.{◌≡◌, ◌<◌, ◌≤◌, ◌+◌, ◌+ℤ◌, ◌*ℤ◌, ◌<ℤ◌, ◌≤ℤ◌, ℕ, ℤ, List, length, flat_map, All, Contains, IfOk, IfSome, OnOk, int_le};
ghost use Rattle.std.specs.Bool.{OnTrue};
ghost use Rattle.lin.specs.Forms.{factor_of};
ghost use Rattle.tree.specs.declared.value.Value.{Value as ValueFound};
ghost use Rattle.tree.specs.Term.{term_of};
ghost use Rattle.plan.specs.Lists.{list_statements};
ghost use Rattle.plan.specs.Plan.{Then, Empty, block};
ghost use Rattle.plan.specs.Semantics.Actions.{actions};
ghost use Rattle.plan.specs.Symbols.{bind};
ghost use Rattle.plan.specs.View.{statement_of};
ghost use Rattle.interpreter.specs.Bindings.{symbols_of};
ghost use Rattle.interpreter.specs.Evaluation.Indices.{indices_in};
ghost use Rattle.interpreter.specs.Joining.{in_first};
ghost use Rattle.interpreter.specs.Narrow.{StatementIsNarrow};
ghost use Rattle.interpreter.specs.Needs.{StatementFits};
ghost use Rattle.interpreter.specs.Pieces.{around, kept_of, setting, IsReady, OwnIsSmall, LineIsCoded};
ghost use Rattle.interpreter.specs.Runs.{store_at};
ghost use Rattle.interpreter.specs.Shifting.{in_name, in_turn, AreAlike, AreApart, AreTurnsTo, CoordinateRises, CoordinatesRise, GoesOn, IsFirstForm, IsLastAlike, IsName, IsNamedLoop, IsSeries, NameIsNarrow};
ghost use Rattle.interpreter.specs.States.{progress_of, space_of, EndsIn, IsAsLarge};
ghost use Rattle.interpreter.specs.Steps.{steps};
ghost use Rattle.interpreter.specs.Targets.{indices_of_all, CoordinateIsNarrow};
ghost use Rattle.interpreter.specs.Visits.{between};

use crate::evaluation::Stop;
use crate::forms::value_of;
use crate::joining::{StoreLoop, count_of, last_of, number_of, store_loop};
use crate::piece::Piece;
use crate::runs::{StoreLine, run_stores};
use crate::state::State;
use crate::symbols::{Binding, Symbols};
use crate::turns::{Turns, turn};
use lin::{Lin, Sym};
use plan::{Coordinate, Index, Pick, Stmt};

/// A name for the smaller of two forms.
#[derive(Clone, Copy, Drop)]
pub(crate) struct Name<'a> {
    pub symbol: Sym,
    pub form: &'a Lin,
    pub other: &'a Lin,
}

/// Such a name, and a loop over a line that stores behind it.
#[derive(Clone, Copy, Drop)]
pub(crate) struct NamedLoop<'a> {
    pub name: Name<'a>,
    pub inner: StoreLoop<'a>,
}

/// Turns one after another: the first, and how many there are.
#[derive(Clone, Copy, Drop)]
pub(crate) struct Series {
    pub low: i64,
    pub count: usize,
}

/// The turns of both loops that go on alike, as those of the inner one, and the next turn of the outer one.
#[derive(Clone, Copy, Drop)]
pub(crate) struct Alike {
    pub turns: Turns,
    pub next: i64,
}

/// A line as a name for the smaller of two forms, if it is one.
fn named(stmt: &Stmt) -> Option<Name<'_>>
    ensures { IfSome result (IsName (statement_of stmt.now)) }
{
    let Stmt::Let {
        symbol,
        pick,
        forms,
    } = stmt
    else {
        return None;
    };
    let Pick::Min = pick else {
        return None;
    };
    let [form, other] = forms.as_slice() else {
        return None;
    };
    Some(Name {
        symbol: *symbol,
        form,
        other,
    })
}

/// The statements of a block that has two.
fn pair(all: &[Stmt]) -> Option<(&Stmt, &Stmt)>
    ensures { IfSome result (λ both. block (list_statements all.now) ≡ Then (statement_of both.0.now) (Then (statement_of both.1.now) Empty)) }
{
    match all {
        [one, other] => Some((one, other)),
        _ => None,
    }
}

/// A statement as a block of a name and a loop over a line that stores, if it is one.
fn named_loop(stmt: &Stmt) -> Option<NamedLoop<'_>>
    ensures { IfSome result (IsNamedLoop (statement_of stmt.now)) }
{
    let Stmt::Seq(all) = stmt else {
        return None;
    };
    let lines = pair(all)?;
    let name = named(lines.0)?;
    let inner = store_loop(lines.1)?;
    Some(NamedLoop { name, inner })
}

/// By how much a form rises with one turn of the outer loop, with which the name rises by `rise`.
fn rise_of(form: &Lin, outer: Sym, name: Sym, rise: i64) -> Option<i64>
    ensures { IfSome result (λ z. z ≡ factor_of form.now.terms outer +ℤ factor_of form.now.terms name *ℤ rise) }
{
    let named = form.factor(name).checked_mul(rise)?;
    form.factor(outer).checked_add(named)
}

/// Whether a coordinate that is a form rises by as much with one turn of the outer loop, with which the name rises by `rise`, as
/// with so many of the inner one.
fn rises(coordinate: &Coordinate, outer: Sym, name: Sym, inner: Sym, rise: i64, count: i64) -> bool
    ensures { OnTrue result (CoordinateRises outer name inner rise count coordinate.now) }
{
    match &coordinate.index {
        Index::Form(form) => {
            let Some(risen) = rise_of(form, outer, name, rise) else {
                return false;
            };
            match form.factor(inner).checked_mul(count) {
                Some(all) => risen == all,
                None => false,
            }
        }
        Index::Found(_) => true,
    }
}

/// Whether all coordinates that are forms do.
fn coordinates_rise(
    coordinates: &[Coordinate],
    outer: Sym,
    name: Sym,
    inner: Sym,
    rise: i64,
    count: i64,
) -> bool
    ensures { OnTrue result (CoordinatesRise outer name inner rise count coordinates.now) }
{
    match coordinates {
        [] => true,
        [coordinate, later @ ..] => {
            rises(coordinate, outer, name, inner, rise, count)
                && coordinates_rise(later, outer, name, inner, rise, count)
        }
    }
}

/// The turns of the inner loop, where each coordinate rises by as much with all of them as with one turn of the outer loop.
fn series_of(inner: &StoreLoop<'_>, outer: Sym, name: Sym, rise: i64) -> Option<Series>
    ensures { IfSome result (IsSeries inner.now outer name rise) }
{
    let low = number_of(&inner.span.lower)?;
    let high = number_of(&inner.span.upper)?;
    let count = count_of(low, high)?;
    let all = i64::try_from(count).ok()?;
    if !coordinates_rise(inner.line.coordinates, outer, name, inner.symbol, rise, all) {
        return None;
    }
    Some(Series { low, count })
}

/// Whether three symbols are all different.
fn are_apart(outer: Sym, name: Sym, inner: Sym) -> bool
    ensures { OnTrue result (AreApart outer name inner) }
{
    outer != name && outer != inner && name != inner
}

/// Whether the second form rises by no more than the first with each turn of a loop.
fn is_slower(name: &Name<'_>, outer: Sym) -> bool
    ensures { OnTrue result (factor_of name.now.other.now.terms outer ≤ℤ factor_of name.now.form.now.terms outer) }
{
    name.other.factor(outer) <= name.form.factor(outer)
}

/// Whether the name is its first form.
fn is_smaller(name: &Name<'_>, symbols: &Symbols) -> bool
    requires { NameIsNarrow name.now (symbols_of symbols.now) }
    ensures { OnTrue result (IsFirstForm name.now (symbols_of symbols.now)) }
{
    value_of(name.form, symbols) <= value_of(name.other, symbols)
}

/// Whether the name is its first form in a turn of the outer loop.
fn is_first_form(name: &Name<'_>, outer: Turns, value: i64, symbols: &mut Symbols) -> bool
    requires narrow { NameIsNarrow name.now (in_turn outer value (symbols_of symbols.old)) }
    requires room { length symbols.old.bound < symbols.old.room }
    ensures first { OnTrue result (IsFirstForm name.now (in_turn outer value (symbols_of symbols.old))) }
    ensures symbols { symbols.new ≡ symbols.old }
{
    let mark = symbols.bound_count();
    symbols.bind(turn(outer, value));
    let first = is_smaller(name, symbols);
    symbols.forget(mark);
    first
}

/// The turn before a loop's last.
fn turn_before(outer: Turns) -> i64
    requires { outer.low <ℤ outer.high }
    ensures from { outer.low ≤ℤ result }
    ensures to { result ≤ℤ outer.high }
{
    outer.high - 1
}

/// The last turn of the outer loop, or the one before it, if the name is its first form there. Nothing for a loop of one turn.
fn last_alike(name: &Name<'_>, outer: Turns, symbols: &mut Symbols) -> Option<i64>
    requires narrow { (z : ℤ) → Contains (between outer.low outer.high) z → NameIsNarrow name.now (in_turn outer z (symbols_of symbols.old)) }
    requires room { length symbols.old.bound < symbols.old.room }
    ensures last { IfSome result (IsLastAlike name.now outer (symbols_of symbols.old)) }
    ensures symbols { symbols.new ≡ symbols.old }
{
    if outer.high <= outer.low {
        return None;
    }
    if is_first_form(name, outer, outer.high, symbols) {
        return Some(outer.high);
    }
    let before = turn_before(outer);
    if is_first_form(name, outer, before, symbols) {
        return Some(before);
    }
    None
}

/// The turns of both loops, as turns of the inner one that go on behind its last, up to this turn of the outer one.
fn turns_to(outer: Turns, symbol: Sym, series: Series, last: i64) -> Option<Alike>
    ensures { IfSome result (AreTurnsTo outer symbol series last) }
{
    let next = last.checked_add(1)?;
    let turns = count_of(outer.low, last)?;
    let all = turns.checked_mul(series.count)?;
    let high = last_of(series.low, all)?;
    Some(Alike {
        turns: Turns {
            symbol,
            low: series.low,
            high,
        },
        next,
    })
}

/// The turns of both loops that go on alike: all turns of the outer one, or all but its last, where the name is its first form in
/// each of them.
fn alike_turns(outer: Turns, both: &NamedLoop<'_>, symbols: &mut Symbols) -> Option<Alike>
    requires narrow { (z : ℤ) → Contains (between outer.low outer.high) z → NameIsNarrow both.now.name (in_turn outer z (symbols_of symbols.old)) }
    requires room { length symbols.old.bound < symbols.old.room }
    ensures alike { IfSome result (AreAlike outer both.now (symbols_of symbols.old)) }
    ensures symbols { symbols.new ≡ symbols.old }
{
    let name = &both.name;
    let inner = &both.inner;
    if !are_apart(outer.symbol, name.symbol, inner.symbol) {
        return None;
    }
    if !is_slower(name, outer.symbol) {
        return None;
    }
    let rise = name.form.factor(outer.symbol);
    let series = series_of(inner, outer.symbol, name.symbol, rise)?;
    let last = last_alike(name, outer, symbols)?;
    turns_to(outer, inner.symbol, series, last)
}

/// The store at all these turns of the inner loop, while the outer one is in its first and the name is its first form.
fn run_named<'a>(
    piece: &'a Piece<'a>,
    line: &StoreLine<'a>,
    name: &Name<'_>,
    outer: Turns,
    turns: Turns,
    symbols: &mut Symbols,
    state: &mut State,
) -> Result<(), Stop>
    requires ready { IsReady piece.now }
    requires form { NameIsNarrow name.now (in_first outer (symbols_of symbols.old)) }
    requires narrow { (z : ℤ) → Contains (between turns.low turns.high) z → All (CoordinateIsNarrow (bind (in_name name.now (in_first outer (symbols_of symbols.old))) turns.symbol z (int_le z turns.low))) line.now.coordinates.now }
    requires symbols { length symbols.old.bound + 2 < symbols.old.room }
    requires numbers { length line.now.coordinates.now ≤ state.old.numbers.room }
    requires point { length line.now.coordinates.now ≤ state.old.point.room }
    requires stack { indices_of_all line.now.coordinates.now + indices_in (term_of line.now.value.now) ≤ state.old.stack.room }
    requires code { LineIsCoded piece.now line.now.buffer line.now.definition line.now.coordinates.now (term_of line.now.value.now) }
    ensures symbols { OnOk result (symbols.new ≡ symbols.old) }
    ensures large { OnOk result (IsAsLarge state.old state.new) }
    ensures run { (definition : ℕ) (cell : List ℕ → List ℤ → ValueFound) → EndsIn state.old.given.room (λ _. progress_of state.new) result (steps (around piece.now cell) (flat_map (store_at piece.now line.now.buffer line.now.coordinates.now (term_of line.now.value.now) (in_name name.now (in_first outer (symbols_of symbols.old))) turns.symbol turns.low definition) (between turns.low turns.high)) (progress_of state.old)) }
{
    let mark = symbols.bound_count();
    symbols.bind(turn(outer, outer.low));
    let value = value_of(name.form, symbols);
    symbols.bind(Binding {
        symbol: name.symbol,
        value,
        first: true,
    });
    let ended = run_stores(piece, line, turns, symbols, state);
    symbols.forget(mark);
    ended
}

/// The first turns of a loop that go on alike with those of a loop in it, as one run: the next turn of the outer one. Without such
/// turns nothing is done.
pub(crate) fn run_alike<'a>(
    piece: &'a Piece<'a>,
    outer: Turns,
    body: &'a Stmt,
    symbols: &mut Symbols,
    state: &mut State,
) -> Result<i64, Stop>
    requires ready { IsReady piece.now }
    requires narrow { (z : ℤ) → Contains (between outer.low outer.high) z → StatementIsNarrow (OwnIsSmall piece.now) (statement_of body.now) (in_turn outer z (symbols_of symbols.old)) }
    requires room { length symbols.old.bound < symbols.old.room }
    requires fits { StatementFits (kept_of piece.now) (space_of state.old) symbols.old.room (statement_of body.now) (length symbols.old.bound + 1) }
    ensures symbols { OnOk result (symbols.new ≡ symbols.old) }
    ensures large { OnOk result (IsAsLarge state.old state.new) }
    ensures next { IfOk result (λ z. outer.low ≤ℤ z) }
    ensures run { (cell : List ℕ → List ℤ → ValueFound) → GoesOn state.old.given.room (progress_of state.new) (λ z. steps (around piece.now cell) (flat_map (λ w. actions (setting piece.now) (statement_of body.now) (in_turn outer w (symbols_of symbols.old))) (between z outer.high))) result (steps (around piece.now cell) (flat_map (λ w. actions (setting piece.now) (statement_of body.now) (in_turn outer w (symbols_of symbols.old))) (between outer.low outer.high)) (progress_of state.old)) }
{
    let Some(both) = named_loop(body) else {
        return Ok(outer.low);
    };
    let Some(alike) = alike_turns(outer, &both, symbols) else {
        return Ok(outer.low);
    };
    let line = &both.inner.line;
    run_named(piece, line, &both.name, outer, alike.turns, symbols, state)?;
    Ok(alike.next)
}
