//! The private run of a piece.

ghost use Rattle.std.specs.Prelude.{◌≡◌, ◌+◌, ◌≤◌, ◌<◌, [], ℕ, ℤ, None, Some, length, map, Contains, flat_map, int_le, MatchOption, OnOk, slice_get};
ghost use Rattle.meaning.specs.Image.View.{image_of};
ghost use Rattle.plan.specs.Lists.{list_statements};
ghost use Rattle.plan.specs.Plan.{Fetch, Publish, block};
ghost use Rattle.plan.specs.Symbols.{bind, largest, smallest};
ghost use Rattle.plan.specs.View.{group_of, plan_of, statement_of};
ghost use Rattle.plan.specs.Certificate.Certificate.{certificate_of};
ghost use Rattle.plan.specs.Semantics.Actions.{actions, after, block_actions};
ghost use Rattle.plan.specs.Semantics.Setting.{group_name};
ghost use Rattle.plan.specs.Certificate.Cells.{grid_point, group_pieces, own_region};
ghost use Rattle.interpreter.specs.Bindings.{symbols_of, named_value, Extends};
ghost use Rattle.interpreter.specs.Narrow.{BlockIsNarrow, FormsAreNarrow, PieceIsNarrow, RegionIsNarrow, SpanIsNarrow, StatementIsNarrow};
ghost use Rattle.interpreter.specs.Outcome.{rank_gives, IsInput};
ghost use Rattle.interpreter.specs.Pieces.{NamesAreNarrow, around, kept_of, own_of, setting, IsReady, OwnIsSmall};
ghost use Rattle.interpreter.specs.Needs.{name_count, BlockFits, IsLine, StatementFits};
ghost use Rattle.interpreter.specs.Scratches.{room_of, GivesIn, IsAgain, IsScratchFor, Suffices};
ghost use Rattle.interpreter.specs.States.{progress_of, space_of, EndsIn, IsAsLarge};
ghost use Rattle.interpreter.specs.Steps.{steps};
ghost use Rattle.interpreter.specs.Visits.{between};

use crate::cells::Cells;
use crate::evaluation::Stop;
use crate::forms::{largest, smallest, value_of};
use crate::joining::{joined_loops, run_joined};
use crate::line_codes::{LineCode, codes_at};
use crate::loads::means_none;
use crate::piece::Piece;
use crate::runs::{run_stores, store_line};
use crate::scratch::Scratch;
use crate::shifting::run_alike;
use crate::sizes::{Size, sizes_at};
use crate::state::State;
use crate::store::{allot, store};
use crate::symbols::{Binding, Symbols};
use crate::turns::{Turns, turn, turns_of};
use crate::visits::{Visit, Walk, visit_points};
use lin::{Forms, Region, Span1, Sym};
use meaning::image::Image;
use plan::certificate::{Cert, Own};
use plan::{Group, Pick, Plan, Stmt};
use std::alloc::Global;

/// The name of a group's function, empty where there is no such group.
fn group_name(groups: &[Group], group: u64) -> &str
    ensures { result.now ≡ group_name (slice_get (map group_of groups.now) group) }
{
    match groups.get(group as usize) {
        Some(group) => group.function.as_str(),
        None => "",
    }
}

/// Sets the cells of a region of another group in a buffer.
fn fetch<'a, C: Cells>(
    piece: &'a Piece<'a>,
    cells: &C,
    buffer: u64,
    group: u64,
    region: &Region,
    symbols: &Symbols,
    state: &mut State,
) -> Result<(), Stop>
    requires narrow { RegionIsNarrow (symbols_of symbols.now) region.now }
    requires room { length region.now ≤ state.old.point.room }
    ensures large { OnOk result (IsAsLarge state.old state.new) }
    ensures run { EndsIn state.old.given.room (λ _. progress_of state.new) result (steps (around piece.now (C.cell cells.now)) (actions (setting piece.now) (Fetch buffer group region.now) (symbols_of symbols.now)) (progress_of state.old)) }
{
    let walk = Walk {
        piece,
        visit: Visit::Fetch {
            buffer,
            function: group_name(&piece.plan.groups, group),
        },
        symbols,
    };
    visit_points(&walk, cells, region.as_slice(), state)
}

/// The region that the pieces of a group own, if the certificate says it.
pub(crate) fn own_region(all: &[Own], group: usize) -> Option<&Region>
    ensures { MatchOption result (own_region all.now group ≡ None) (λ r. own_region all.now group ≡ Some r.now) }
{
    for own in all {
        if own.group as usize == group {
            return Some(&own.region);
        }
    }
    None
}

/// Gives the values of the piece's own cells.
fn publish<'a, C: Cells>(
    piece: &'a Piece<'a>,
    cells: &C,
    claim: u64,
    symbols: &Symbols,
    state: &mut State,
) -> Result<(), Stop>
    requires ready { IsReady piece.now }
    requires narrow { OwnIsSmall piece.now (symbols_of symbols.now) }
    requires room { own_of piece.now ≤ state.old.point.room }
    ensures large { OnOk result (IsAsLarge state.old state.new) }
    ensures run { EndsIn state.old.given.room (λ _. progress_of state.new) result (steps (around piece.now (C.cell cells.now)) (actions (setting piece.now) (Publish claim) (symbols_of symbols.now)) (progress_of state.old)) }
{
    let Some(region) = own_region(&piece.cert.own, piece.number) else {
        return Ok(());
    };
    let walk = Walk {
        piece,
        visit: Visit::Publish { claim },
        symbols,
    };
    visit_points(&walk, cells, region.as_slice(), state)
}

/// The smallest or the largest of some forms.
fn named_value(pick: Pick, forms: &Forms, symbols: &Symbols) -> i64
    requires { FormsAreNarrow (symbols_of symbols.now) forms.now }
    ensures { result ≡ named_value pick (symbols_of symbols.now) forms.now }
{
    match pick {
        Pick::Min => smallest(forms, symbols),
        Pick::Max => largest(forms, symbols),
    }
}

/// Binds the name of a `let` line, which holds to the end of the block. Other lines bind nothing there.
fn name_from(stmt: &Stmt, symbols: &mut Symbols)
    requires narrow { NamesAreNarrow (statement_of stmt.now) (symbols_of symbols.old) }
    requires room { length symbols.old.bound + name_count (statement_of stmt.now) ≤ symbols.old.room }
    ensures value { symbols_of symbols.new ≡ after (statement_of stmt.now) (symbols_of symbols.old) }
    ensures extends { Extends symbols.old symbols.new }
    ensures count { length symbols.new.bound ≡ length symbols.old.bound + name_count (statement_of stmt.now) }
{
    let Stmt::Let {
        symbol,
        pick,
        forms,
    } = stmt
    else {
        return;
    };
    let value = named_value(*pick, forms, symbols);
    symbols.bind(Binding {
        symbol: *symbol,
        value,
        first: true,
    });
}

/// The turns of a loop.
#[cycle(run)]
fn run_turns<'a, C: Cells>(
    alloc: Global,
    piece: &'a Piece<'a>,
    cells: &C,
    turns: Turns,
    body: &'a Stmt,
    symbols: &mut Symbols,
    state: &mut State,
) -> Result<(), Stop>
    requires ready { IsReady piece.now }
    requires narrow { (z : ℤ) → Contains (between turns.low turns.high) z → StatementIsNarrow (OwnIsSmall piece.now) (statement_of body.now) (bind (symbols_of symbols.old) turns.symbol z (int_le z turns.low)) }
    requires room { length symbols.old.bound < symbols.old.room }
    requires fits { StatementFits (kept_of piece.now) (space_of state.old) symbols.old.room (statement_of body.now) (length symbols.old.bound + 1) }
    ensures run { EndsIn state.old.given.room (λ _. progress_of state.new) result (steps (around piece.now (C.cell cells.now)) (flat_map (λ z. actions (setting piece.now) (statement_of body.now) (bind (symbols_of symbols.old) turns.symbol z (int_le z turns.low))) (between turns.low turns.high)) (progress_of state.old)) }
    ensures symbols { OnOk result (symbols.new ≡ symbols.old) }
    ensures large { OnOk result (IsAsLarge state.old state.new) }
{
    if let Some(line) = store_line(body) {
        return run_stores(piece, &line, turns, symbols, state);
    }
    if let Some(both) = joined_loops(turns, body) {
        let line = &both.inner.line;
        return run_joined(piece, line, turns, both.turns, both.ends, symbols, state);
    }
    let next = run_alike(piece, turns, body, symbols, state)?;
    let mark = symbols.bound_count();
    for value in next..=turns.high {
        symbols.bind(turn(turns, value));
        run(alloc, piece, cells, body, symbols, state)?;
        symbols.forget(mark);
    }
    Ok(())
}

/// The statements of a block, one after another.
#[cycle(run)]
fn run_block<'a, C: Cells>(
    alloc: Global,
    piece: &'a Piece<'a>,
    cells: &C,
    all: &'a [Stmt],
    symbols: &mut Symbols,
    state: &mut State,
) -> Result<(), Stop>
    requires ready { IsReady piece.now }
    requires narrow { BlockIsNarrow (OwnIsSmall piece.now) (block (list_statements all.now)) (symbols_of symbols.old) }
    requires fits { BlockFits (kept_of piece.now) (space_of state.old) symbols.old.room (block (list_statements all.now)) (length symbols.old.bound) }
    ensures run { EndsIn state.old.given.room (λ _. progress_of state.new) result (steps (around piece.now (C.cell cells.now)) (block_actions (setting piece.now) (block (list_statements all.now)) (symbols_of symbols.old)) (progress_of state.old)) }
    ensures symbols { OnOk result (symbols.new ≡ symbols.old) }
    ensures large { OnOk result (IsAsLarge state.old state.new) }
{
    let mark = symbols.bound_count();
    for stmt in all {
        run(alloc, piece, cells, stmt, symbols, state)?;
        name_from(stmt, symbols);
    }
    symbols.forget(mark);
    Ok(())
}

/// The actions of a statement that has no statements in it.
fn run_line<'a, C: Cells>(
    alloc: Global,
    piece: &'a Piece<'a>,
    cells: &C,
    stmt: &'a Stmt,
    symbols: &mut Symbols,
    state: &mut State,
) -> Result<(), Stop>
    requires ready { IsReady piece.now }
    requires narrow { StatementIsNarrow (OwnIsSmall piece.now) (statement_of stmt.now) (symbols_of symbols.old) }
    requires fits { StatementFits (kept_of piece.now) (space_of state.old) symbols.old.room (statement_of stmt.now) (length symbols.old.bound) }
    requires line { IsLine (statement_of stmt.now) }
    ensures run { EndsIn state.old.given.room (λ _. progress_of state.new) result (steps (around piece.now (C.cell cells.now)) (actions (setting piece.now) (statement_of stmt.now) (symbols_of symbols.old)) (progress_of state.old)) }
    ensures symbols { OnOk result (symbols.new ≡ symbols.old) }
    ensures large { OnOk result (IsAsLarge state.old state.new) }
{
    match stmt {
        Stmt::Let { .. } => Ok(()),
        Stmt::Alloc { buffer, places, .. } => {
            allot(alloc, *buffer, places, symbols, state);
            Ok(())
        }
        Stmt::Fetch {
            buffer,
            group,
            region,
        } => fetch(piece, cells, *buffer, *group, region, symbols, state),
        Stmt::Store {
            buffer,
            definition,
            coordinates,
            value,
        } => store(
            piece,
            *buffer,
            *definition,
            coordinates,
            value,
            symbols,
            state,
        ),
        Stmt::Publish { claim } => publish(piece, cells, *claim, symbols, state),
        Stmt::Seq(_) | Stmt::For { .. } | Stmt::First { .. } | Stmt::Guard { .. } => unreachable!(),
    }
}

/// The actions of a statement.
#[cycle(run)]
fn run<'a, C: Cells>(
    alloc: Global,
    piece: &'a Piece<'a>,
    cells: &C,
    stmt: &'a Stmt,
    symbols: &mut Symbols,
    state: &mut State,
) -> Result<(), Stop>
    requires ready { IsReady piece.now }
    requires narrow { StatementIsNarrow (OwnIsSmall piece.now) (statement_of stmt.now) (symbols_of symbols.old) }
    requires fits { StatementFits (kept_of piece.now) (space_of state.old) symbols.old.room (statement_of stmt.now) (length symbols.old.bound) }
    ensures run { EndsIn state.old.given.room (λ _. progress_of state.new) result (steps (around piece.now (C.cell cells.now)) (actions (setting piece.now) (statement_of stmt.now) (symbols_of symbols.old)) (progress_of state.old)) }
    ensures symbols { OnOk result (symbols.new ≡ symbols.old) }
    ensures large { OnOk result (IsAsLarge state.old state.new) }
{
    match stmt {
        Stmt::Seq(all) => run_block(alloc, piece, cells, all, symbols, state),
        Stmt::For {
            symbol,
            span,
            body,
            ..
        } => {
            let turns = turns_of(*symbol, span, symbols);
            run_turns(alloc, piece, cells, turns, body, symbols, state)
        }
        Stmt::First {
            symbol,
            first,
            later,
        } => {
            if symbols.is_first(*symbol) {
                run(alloc, piece, cells, first, symbols, state)
            } else {
                run(alloc, piece, cells, later, symbols, state)
            }
        }
        Stmt::Guard { low, high, body } => {
            if value_of(low, symbols) <= value_of(high, symbols) {
                run(alloc, piece, cells, body, symbols, state)
            } else {
                Ok(())
            }
        }
        _ => run_line(alloc, piece, cells, stmt, symbols, state),
    }
}

/// The group of a number, if there is one.
fn group_at(groups: &[Group], number: usize) -> Option<&Group>
    ensures { MatchOption result (slice_get (map group_of groups.now) number ≡ None) (λ g. slice_get (map group_of groups.now) number ≡ Some (group_of g.now)) }
{
    groups.get(number)
}

/// The run of the piece of the group of a number that so many of the group's pieces come before, in this memory.
fn run_group<'a, C: Cells>(
    alloc: Global,
    sizes: &'a [Size],
    codes: &'a [LineCode],
    constants: &'a Symbols,
    symbols: &mut Symbols,
    state: &mut State,
    plan: &'a Plan,
    cert: &'a Cert,
    image: &'a Image,
    cells: &C,
    number: usize,
    rank: u32,
) -> Result<(), Stop>
    requires input { IsInput (plan_of plan.now) (image_of image.now) }
    requires narrow { MatchOption (slice_get (plan_of plan.now).groups number) ⊥ (λ g. PieceIsNarrow (certificate_of cert.now) number g (grid_point g.grid rank)) }
    requires memory { MatchOption (slice_get (plan_of plan.now).groups number) ⊥ (Suffices sizes.now codes.now constants.now symbols.old (space_of state.old) (certificate_of cert.now) number) }
    requires inside { MatchOption (slice_get (plan_of plan.now).groups number) ⊥ (λ g. rank < group_pieces g) }
    ensures gives { GivesIn state.old.given.room result state.new.given.items (rank_gives (plan_of plan.now) (certificate_of cert.now) (image_of image.now).samples (C.cell cells.now) number rank) }
    ensures symbols { OnOk result ((symbols.new.grid_room ≡ symbols.old.grid_room) × (symbols.new.room ≡ symbols.old.room)) }
    ensures large { OnOk result (IsAsLarge state.old state.new) }
{
    let Some(group) = group_at(&plan.groups, number) else {
        return Err(Stop::Fault);
    };
    symbols.begin(group.grid.as_slice(), rank);
    state.memory.clear();
    state.given.clear();
    let piece = Piece {
        plan: &*plan,
        cert: &*cert,
        image: &*image,
        group: &*group,
        number,
        sizes: &*sizes,
        codes: &*codes,
        is_plain: means_none(plan.input.name.as_str()),
        constants: &*constants,
    };
    run(alloc, &piece, cells, &group.body, symbols, state)
}

/// The private run of a piece, in memory that was taken before. The numbers for its own cells, in their order, are then
/// those that the scratch gives.
///
/// `group` is the number of the piece's group, and `rank` tells how many of the group's pieces come before it. It takes no
/// memory.
///
/// # Errors
/// `Fault` where the run has a fault. `Full` where it gives more numbers than the scratch has room for.
pub fn run_piece_in<C: Cells>(
    alloc: Global,
    scratch: &mut Scratch,
    plan: &Plan,
    cert: &Cert,
    image: &Image,
    cells: &C,
    group: usize,
    rank: u32,
) -> Result<(), Stop>
    requires input { IsInput (plan_of plan.now) (image_of image.now) }
    requires narrow { MatchOption (slice_get (plan_of plan.now).groups group) ⊥ (λ g. PieceIsNarrow (certificate_of cert.now) group g (grid_point g.grid rank)) }
    requires memory { MatchOption (slice_get (plan_of plan.now).groups group) ⊥ (IsScratchFor scratch.old (certificate_of cert.now) group) }
    requires inside { MatchOption (slice_get (plan_of plan.now).groups group) ⊥ (λ g. rank < group_pieces g) }
    ensures gives { GivesIn (room_of scratch.old) result scratch.new.state.given.items (rank_gives (plan_of plan.now) (certificate_of cert.now) (image_of image.now).samples (C.cell cells.now) group rank) }
    ensures memory { OnOk result (IsAgain scratch.old scratch.new) }
{
    run_group(
        alloc,
        sizes_at(&scratch.sizes, group),
        codes_at(&scratch.codes, group),
        &scratch.constants,
        &mut scratch.symbols,
        &mut scratch.state,
        &*plan,
        &*cert,
        &*image,
        cells,
        group,
        rank,
    )
}
