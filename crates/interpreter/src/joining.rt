//! Loops over a store's loop, whose turns are taken as those of one loop.

ghost use Rattle.std.specs.Prelude.{◌≡◌, ◌∷◌, [], ◌<◌, ◌≤◌, ◌+◌, ℕ, ℤ, List, length, flat_map, All, Contains, IfSome, OnOk, int_le};
ghost use Rattle.std.specs.Bool.{OnTrue};
ghost use Rattle.lin.specs.Forms.{number};
ghost use Rattle.tree.specs.declared.value.Value.{Value as ValueFound};
ghost use Rattle.tree.specs.Term.{term_of};
ghost use Rattle.plan.specs.Symbols.{bind};
ghost use Rattle.plan.specs.View.{statement_of};
ghost use Rattle.interpreter.specs.Bindings.{symbols_of};
ghost use Rattle.interpreter.specs.Evaluation.Indices.{indices_in};
ghost use Rattle.interpreter.specs.Joining.{end_in, in_first, AreEnds, AreJoined, AreTurns, CoordinateJoins, CoordinatesJoin, EndFalls, EndIsNarrow, IsLoop, IsStoreLoop, Joins};
ghost use Rattle.interpreter.specs.Pieces.{around, IsReady, LineIsCoded};
ghost use Rattle.interpreter.specs.Runs.{store_at};
ghost use Rattle.interpreter.specs.States.{progress_of, EndsIn, IsAsLarge};
ghost use Rattle.interpreter.specs.Steps.{steps};
ghost use Rattle.interpreter.specs.Targets.{indices_of_all, CoordinateIsNarrow};
ghost use Rattle.interpreter.specs.Visits.{between};

use crate::evaluation::Stop;
use crate::forms::value_of;
use crate::piece::Piece;
use crate::runs::{StoreLine, alone, run_stores, store_line};
use crate::state::State;
use crate::symbols::Symbols;
use crate::turns::{Turns, turn};
use lin::{Forms, Lin, Span1, Sym};
use plan::{Coordinate, Index, Stmt};

/// A loop over a line that stores.
#[derive(Clone, Copy, Drop)]
pub(crate) struct StoreLoop<'a> {
    pub symbol: Sym,
    pub span: &'a Span1,
    pub line: StoreLine<'a>,
}

/// Where a loop ends: the number to which it goes at most, and a form that may end it before.
#[derive(Clone, Copy, Drop)]
pub(crate) struct Ends<'a> {
    pub high: i64,
    pub form: Option<&'a Lin>,
}

/// A loop in another one, and the turns of both as its own. What may end the inner loop before its last turn may so end these.
#[derive(Clone, Copy, Drop)]
pub(crate) struct Joined<'a> {
    pub inner: StoreLoop<'a>,
    pub ends: Ends<'a>,
    pub turns: Turns,
}

/// A statement as a loop over a line that stores, if it is one.
fn looped(stmt: &Stmt) -> Option<StoreLoop<'_>>
    ensures { IfSome result (IsLoop (statement_of stmt.now)) }
{
    let Stmt::For {
        symbol,
        span,
        body,
        ..
    } = stmt
    else {
        return None;
    };
    let line = store_line(body)?;
    Some(StoreLoop {
        symbol: *symbol,
        span,
        line,
    })
}

/// The loop over a line that stores, where a statement or a block is that loop alone.
pub(crate) fn store_loop(stmt: &Stmt) -> Option<StoreLoop<'_>>
    ensures { IfSome result (IsStoreLoop (statement_of stmt.now)) }
{
    match stmt {
        Stmt::Seq(all) => looped(alone(all)?),
        _ => looped(stmt),
    }
}

/// The number that a form is, if it is one alone.
fn number_alone(form: &Lin) -> Option<i64>
    ensures { IfSome result (λ z. form.now ≡ number z) }
{
    match form.terms() {
        [] => Some(form.constant()),
        _ => None,
    }
}

/// The number of forms that are one number alone.
pub(crate) fn number_of(forms: &Forms) -> Option<i64>
    ensures { IfSome result (λ z. forms.now ≡ number z ∷ []) }
{
    let [form] = forms.as_slice() else {
        return None;
    };
    number_alone(form)
}

/// Where a loop with these upper forms ends, if they are a number, or a number and one form.
fn ends_of(forms: &Forms) -> Option<Ends<'_>>
    ensures { IfSome result (λ e. AreEnds e.high e.form forms.now) }
{
    match forms.as_slice() {
        [high] => Some(Ends {
            high: number_alone(high)?,
            form: None,
        }),
        [high, form] => Some(Ends {
            high: number_alone(high)?,
            form: Some(form),
        }),
        _ => None,
    }
}

/// How many numbers there are from one to another, some at least.
pub(crate) fn count_of(low: i64, high: i64) -> Option<usize>
    ensures turns { IfSome result (AreTurns low high) }
    ensures some { IfSome result (λ n. 0 < n) }
{
    if high < low {
        return None;
    }
    let more = high.checked_sub(low)?;
    Some(more as usize + 1)
}

/// The last of so many numbers from this one on.
pub(crate) fn last_of(low: i64, count: usize) -> Option<i64>
    ensures { IfSome result (λ z. AreTurns low z count) }
{
    let count = i64::try_from(count).ok()?;
    low.checked_add(count)?.checked_sub(1)
}

/// Whether a coordinate that is a form rises by as much with one turn of the outer loop as with so many of the inner one.
fn joins(coordinate: &Coordinate, outer: Sym, inner: Sym, count: i64) -> bool
    ensures { OnTrue result (CoordinateJoins outer inner count coordinate.now) }
{
    match &coordinate.index {
        Index::Form(form) => match form.factor(inner).checked_mul(count) {
            Some(risen) => form.factor(outer) == risen,
            None => false,
        },
        Index::Found(_) => true,
    }
}

/// Whether all coordinates that are forms do.
fn coordinates_join(coordinates: &[Coordinate], outer: Sym, inner: Sym, count: i64) -> bool
    ensures { OnTrue result (CoordinatesJoin outer inner count coordinates.now) }
{
    match coordinates {
        [] => true,
        [coordinate, later @ ..] => {
            joins(coordinate, outer, inner, count) && coordinates_join(later, outer, inner, count)
        }
    }
}

/// Whether a form that may end a loop falls by so many with one turn of the outer loop.
fn falls(ends: Ends<'_>, outer: Sym, count: i64) -> bool
    ensures { OnTrue result (EndFalls outer count ends.entry.form) }
{
    match ends.form {
        Some(form) => match form.factor(outer).checked_add(count) {
            Some(sum) => sum == 0,
            None => false,
        },
        None => true,
    }
}

/// The turns of a loop and of the one in it, as turns of the inner one that go on behind its last, while the outer one stays in
/// its first. Nothing where they store elsewhere, or the inner loop's turns are others than such a form leaves of them in some
/// turn of the outer one.
fn joined_turns(outer: Turns, inner: &StoreLoop<'_>, ends: Ends<'_>) -> Option<Turns>
    ensures { IfSome result (Joins outer inner.now ends.entry) }
{
    let low = number_of(&inner.span.lower)?;
    let count = count_of(low, ends.high)?;
    let rise = i64::try_from(count).ok()?;
    if !falls(ends, outer.symbol, rise) {
        return None;
    }
    if outer.symbol == inner.symbol {
        return None;
    }
    if !coordinates_join(inner.line.coordinates, outer.symbol, inner.symbol, rise) {
        return None;
    }
    let turns = count_of(outer.low, outer.high)?;
    let all = turns.checked_mul(count)?;
    let last = last_of(low, all)?;
    Some(Turns {
        symbol: inner.symbol,
        low,
        high: last,
    })
}

/// The turns of a loop over another one, where they are taken as those of one loop.
pub(crate) fn joined_loops(outer: Turns, body: &Stmt) -> Option<Joined<'_>>
    ensures { IfSome result (AreJoined outer (statement_of body.now)) }
{
    let inner = store_loop(body)?;
    let ends = ends_of(&inner.span.upper)?;
    let turns = joined_turns(outer, &inner, ends)?;
    Some(Joined { inner, ends, turns })
}

/// Where turns up to a number end, if a form may end them before.
fn end_in(high: i64, ends: Ends<'_>, symbols: &Symbols) -> i64
    requires { EndIsNarrow (symbols_of symbols.now) ends.form }
    ensures { result ≡ end_in (symbols_of symbols.now) high ends.entry.form }
{
    match ends.form {
        Some(form) => high.min(value_of(form, symbols)),
        None => high,
    }
}

/// The store at all these turns of the inner loop, up to where a form ends them, while the outer one is in its first turn.
pub(crate) fn run_joined<'a>(
    piece: &'a Piece<'a>,
    line: &StoreLine<'a>,
    outer: Turns,
    both: Turns,
    ends: Ends<'_>,
    symbols: &mut Symbols,
    state: &mut State,
) -> Result<(), Stop>
    requires ready { IsReady piece.now }
    requires form { EndIsNarrow (in_first outer (symbols_of symbols.old)) ends.form }
    requires narrow { (z : ℤ) → Contains (between both.low (end_in (in_first outer (symbols_of symbols.old)) both.high ends.form)) z → All (CoordinateIsNarrow (bind (in_first outer (symbols_of symbols.old)) both.symbol z (int_le z both.low))) line.now.coordinates.now }
    requires symbols { length symbols.old.bound + 1 < symbols.old.room }
    requires numbers { length line.now.coordinates.now ≤ state.old.numbers.room }
    requires point { length line.now.coordinates.now ≤ state.old.point.room }
    requires stack { indices_of_all line.now.coordinates.now + indices_in (term_of line.now.value.now) ≤ state.old.stack.room }
    requires code { LineIsCoded piece.now line.now.buffer line.now.definition line.now.coordinates.now (term_of line.now.value.now) }
    ensures symbols { OnOk result (symbols.new ≡ symbols.old) }
    ensures large { OnOk result (IsAsLarge state.old state.new) }
    ensures run { (definition : ℕ) (cell : List ℕ → List ℤ → ValueFound) → EndsIn state.old.given.room (λ _. progress_of state.new) result (steps (around piece.now cell) (flat_map (store_at piece.now line.now.buffer line.now.coordinates.now (term_of line.now.value.now) (in_first outer (symbols_of symbols.old)) both.symbol both.low definition) (between both.low (end_in (in_first outer (symbols_of symbols.old)) both.high ends.entry.form))) (progress_of state.old)) }
{
    let mark = symbols.bound_count();
    symbols.bind(turn(outer, outer.low));
    let high = end_in(both.high, ends, symbols);
    let turns = Turns {
        symbol: both.symbol,
        low: both.low,
        high,
    };
    let ended = run_stores(piece, line, turns, symbols, state);
    symbols.forget(mark);
    ended
}
