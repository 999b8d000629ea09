//! Loops and the coordinates that are their symbols.

ghost use Rattle.std.specs.Prelude.{◌≡◌, ◌&&◌};
ghost use Rattle.std.specs.List.{list_all, list_any};
ghost use Rattle.plan.specs.View.{coordinate_of};
ghost use Rattle.soundness.specs.Obligations.{is_form};
ghost use Rattle.soundness.specs.Nests.Nest.{is_symbol, symbol_of};
ghost use Rattle.soundness.specs.Nests.Tests.{are_matched, is_among, is_given, is_once};
ghost use Rattle.rules.specs.Nests.View.{coordinates_of, loop_of, loops_of};

use crate::nests::lines::PlainLoop;
use crate::nests::symbols::{are_apart, are_outside};
use lin::{Lin, Sym};
use plan::{Coordinate, Index};

/// The symbol that the form is, if it is one.
fn symbol_of(form: &Lin) -> Option<Sym>
    ensures { result ≡ symbol_of form.now }
{
    match form.terms() {
        [term] if form.constant() == 0 && term.factor == 1 => Some(term.symbol),
        _ => None,
    }
}

/// Whether the coordinate is the symbol.
pub(crate) fn is_symbol(symbol: Sym, coordinate: &Coordinate) -> bool
    ensures { result ≡ is_symbol symbol (coordinate_of coordinate.now) }
{
    match &coordinate.index {
        Index::Form(form) => match symbol_of(form) {
            Some(found) => found == symbol,
            None => false,
        },
        Index::Found(_) => false,
    }
}

/// Whether the coordinate is a form.
fn is_form(coordinate: &Coordinate) -> bool
    ensures { result ≡ is_form (coordinate_of coordinate.now) }
{
    match &coordinate.index {
        Index::Form(_) => true,
        Index::Found(_) => false,
    }
}

/// Whether all coordinates are forms.
pub(crate) fn are_forms(coordinates: &[Coordinate]) -> bool
    ensures { result ≡ list_all is_form (coordinates_of coordinates.now) }
{
    match coordinates {
        [] => true,
        [first, rest @ ..] => is_form(first) && are_forms(rest),
    }
}

/// Whether one of the coordinates is the symbol.
fn is_some(symbol: Sym, coordinates: &[Coordinate]) -> bool
    ensures { result ≡ list_any (is_symbol symbol) (coordinates_of coordinates.now) }
{
    match coordinates {
        [] => false,
        [first, rest @ ..] => is_symbol(symbol, first) || is_some(symbol, rest),
    }
}

/// Whether one of the coordinates is the loop's symbol.
pub(crate) fn is_among(coordinates: &[Coordinate], turns: &PlainLoop<'_>) -> bool
    ensures { result ≡ is_among (coordinates_of coordinates.now) (loop_of turns.now) }
{
    is_some(turns.symbol, coordinates)
}

/// Whether exactly one of the coordinates is the symbol.
fn is_once(symbol: Sym, coordinates: &[Coordinate]) -> bool
    ensures { result ≡ is_once symbol (coordinates_of coordinates.now) }
{
    match coordinates {
        [] => false,
        [first, rest @ ..] => {
            if is_symbol(symbol, first) {
                !is_some(symbol, rest)
            } else {
                is_once(symbol, rest)
            }
        }
    }
}

/// Whether each loop's symbol is exactly one of the coordinates.
fn are_once(loops: &[PlainLoop<'_>], coordinates: &[Coordinate]) -> bool
    ensures { result ≡ list_all (λ l. is_once l.symbol (coordinates_of coordinates.now)) (loops_of loops.now) }
{
    match loops {
        [] => true,
        [first, rest @ ..] => is_once(first.symbol, coordinates) && are_once(rest, coordinates),
    }
}

/// Whether the coordinate is the symbol of one of the loops.
fn is_turned(loops: &[PlainLoop<'_>], coordinate: &Coordinate) -> bool
    ensures { result ≡ list_any (λ l. is_symbol l.symbol (coordinate_of coordinate.now)) (loops_of loops.now) }
{
    match loops {
        [] => false,
        [first, rest @ ..] => is_symbol(first.symbol, coordinate) || is_turned(rest, coordinate),
    }
}

/// Whether the coordinate is found by an expression, or is the symbol of a loop.
fn is_given(loops: &[PlainLoop<'_>], coordinate: &Coordinate) -> bool
    ensures { result ≡ is_given (loops_of loops.now) (coordinate_of coordinate.now) }
{
    !is_form(coordinate) || is_turned(loops, coordinate)
}

/// Whether each coordinate is found by an expression, or is the symbol of a loop.
fn are_given(loops: &[PlainLoop<'_>], coordinates: &[Coordinate]) -> bool
    ensures { result ≡ list_all (is_given (loops_of loops.now)) (coordinates_of coordinates.now) }
{
    match coordinates {
        [] => true,
        [first, rest @ ..] => is_given(loops, first) && are_given(loops, rest),
    }
}

/// Whether each loop is that of exactly one coordinate, and each coordinate that is a form is the symbol of one loop. No two
/// loops have one symbol, and no loop's span has the symbol of one.
pub(crate) fn are_matched(loops: &[PlainLoop<'_>], coordinates: &[Coordinate]) -> bool
    ensures { result ≡ are_matched (loops_of loops.now) (coordinates_of coordinates.now) }
{
    are_apart(loops)
        && are_outside(loops, loops)
        && are_once(loops, coordinates)
        && are_given(loops, coordinates)
}
