//! Vector loops, whose turns are lanes.

ghost use Rattle.std.specs.Prelude.{◌≡◌, ◌==◌, ◌&&◌, drop, length, map};
ghost use Rattle.std.specs.List.{list_any};
ghost use Rattle.std.specs.Option.{option_map};
ghost use Rattle.algo.specs.View.{algorithm_of};
ghost use Rattle.plan.specs.Lists.{list_statements};
ghost use Rattle.plan.specs.Plan.{block};
ghost use Rattle.plan.specs.View.{coordinate_of, statement_of};
ghost use Rattle.soundness.specs.Obligations.{form_has};
ghost use Rattle.soundness.specs.Outline.View.{outline_in};
ghost use Rattle.validation.specs.Groups.Lanes.{admits_lanes, fits_mark, goes_by, only, only_in, reductions, reductions_in, stores_lanes, takes_lanes};
ghost use Rattle.validation.specs.Stored.Definitions.{definition_held, function_in};
ghost use Rattle.validation.specs.Stored.Stored.{has_names};

use crate::stored::{Defined, Ground, definition_of, has_names, rest_of, variable_count};
use lin::{Lin, Sym};
use plan::{Coordinate, Index, Kind, Stmt};

/// The one line of a statement, in however many blocks it stands, if it has just one.
#[cycle(only)]
fn only(stmt: &Stmt) -> Option<&Stmt>
    ensures { option_map (λ one. statement_of one.now) result ≡ only (statement_of stmt.now) }
{
    match stmt {
        Stmt::Seq(all) => only_in(all),
        _ => Some(stmt),
    }
}

/// The same of a block.
#[cycle(only)]
fn only_in(all: &[Stmt]) -> Option<&Stmt>
    ensures { option_map (λ one. statement_of one.now) result ≡ only_in (block (list_statements all.now)) }
{
    match all {
        [] => None,
        [one] => only(one),
        [_, _, ..] => None,
    }
}

/// Whether the form has the symbol.
fn has(form: &Lin, symbol: Sym) -> bool
    ensures { result ≡ form_has symbol form.now }
{
    form.terms().iter().any(|term| term.symbol == symbol)
}

/// Whether the coordinate is a form with the lane.
fn goes_by(lane: Sym, coordinate: &Coordinate) -> bool
    ensures { result ≡ goes_by lane (coordinate_of coordinate.now).index }
{
    match &coordinate.index {
        Index::Form(form) => has(form, lane),
        Index::Found(_) => false,
    }
}

/// Whether one of the coordinates is a form with the lane.
fn any_goes_by(lane: Sym, coordinates: &[Coordinate]) -> bool
    ensures { result ≡ list_any (λ c. goes_by lane c.index) (map coordinate_of coordinates.now) }
{
    match coordinates {
        [] => false,
        [first, rest @ ..] => goes_by(lane, first) || any_goes_by(lane, rest),
    }
}

/// The coordinates behind so many.
fn behind(coordinates: &[Coordinate], count: usize) -> &[Coordinate]
    ensures { map coordinate_of result.now ≡ drop count (map coordinate_of coordinates.now) }
{
    rest_of(coordinates, count)
}

/// Whether the coordinates are the definition's, whose function has so many variables.
fn is_of(defined: Defined<'_>, count: usize, coordinates: &[Coordinate]) -> bool
    ensures { result ≡ (has_names (definition_held defined.entry) (map coordinate_of coordinates.now) && count == length (function_in (definition_held defined.entry)).variables) }
{
    has_names(defined, coordinates) && count == variable_count(defined)
}

/// The coordinates of a definition's reduction variables, behind those of so many variables; none where the coordinates are not the
/// definition's.
fn reductions_in<'c>(
    defined: Option<Defined<'_>>,
    count: usize,
    coordinates: &'c [Coordinate],
) -> &'c [Coordinate]
    ensures { map coordinate_of result.now ≡ reductions_in (option_map definition_held defined.entry) count (map coordinate_of coordinates.now) }
{
    match defined {
        Some(defined) if is_of(defined, count, coordinates) => behind(coordinates, count),
        _ => &[],
    }
}

/// The coordinates of the reduction variables of the definition that is stored.
fn reductions<'c>(
    ground: Ground<'_, '_>,
    buffer: u64,
    definition: u64,
    coordinates: &'c [Coordinate],
) -> &'c [Coordinate]
    ensures { map coordinate_of result.now ≡ reductions (algorithm_of ground.entry.algo.now) (outline_in ground.entry.outlined.now).setting buffer definition (map coordinate_of coordinates.now) }
{
    let function = ground.outlined.buffer_function(buffer);
    let defined = definition_of(ground.algo, function, definition);
    reductions_in(defined, ground.outlined.dimensions(buffer), coordinates)
}

/// Whether the left side alone has the lane, with a positive factor.
fn admits_lanes(lane: Sym, low: &Lin, high: &Lin) -> bool
    ensures { result ≡ admits_lanes lane low.now high.now }
{
    1 <= low.factor(lane) && !has(high, lane)
}

/// Whether the line is a store, of which no reduction variable goes by the lane.
fn stores_lanes(ground: Ground<'_, '_>, lane: Sym, line: Option<&Stmt>) -> bool
    ensures { result ≡ stores_lanes (algorithm_of ground.entry.algo.now) (outline_in ground.entry.outlined.now).setting lane (option_map (λ one. statement_of one.now) line.entry) }
{
    match line {
        Some(
            Stmt::Store {
                buffer,
                definition,
                coordinates,
                ..
            },
        ) => !any_goes_by(lane, reductions(ground, *buffer, *definition, coordinates)),
        _ => false,
    }
}

/// Whether the line is such a store, or a guard around one whose left side alone has the lane.
fn takes_lanes(ground: Ground<'_, '_>, lane: Sym, line: Option<&Stmt>) -> bool
    ensures { result ≡ takes_lanes (algorithm_of ground.entry.algo.now) (outline_in ground.entry.outlined.now).setting lane (option_map (λ one. statement_of one.now) line.entry) }
{
    match line {
        Some(Stmt::Guard { low, high, body }) => {
            admits_lanes(lane, low, high) && stores_lanes(ground, lane, only(body))
        }
        _ => stores_lanes(ground, lane, line),
    }
}

/// Whether a loop with this mark may be around the body: a vector loop is around one store, which one guard may admit.
pub(crate) fn fits_mark(ground: Ground<'_, '_>, lane: Sym, kind: Kind, body: &Stmt) -> bool
    ensures { result ≡ fits_mark (algorithm_of ground.entry.algo.now) (outline_in ground.entry.outlined.now).setting lane kind (statement_of body.now) }
{
    match kind {
        Kind::Vector => takes_lanes(ground, lane, only(body)),
        Kind::Serial | Kind::Unroll => true,
    }
}
