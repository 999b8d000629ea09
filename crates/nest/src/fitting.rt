//! Which lines have a text that is read as that line.

ghost use Rattle.std.specs.Prelude.{◌≡◌, length, map};
ghost use Rattle.std.specs.List.{list_all};
ghost use Rattle.plan.specs.View.{coordinate_of, declaration_of, index_of};
ghost use Rattle.spelling.specs.Words.Fitting as words;
ghost use Rattle.nest.specs.Blocks.View.{line_of};
ghost use Rattle.nest.specs.Fitting as spec;

use crate::blocks::Line;
use plan::{Coordinate, Declaration, Index, Places};
use spelling::sizes::{fits_size, fits_sizes};
use spelling::terms::fits_term;
use spelling::words::{fits_form, fits_forms, fits_region, fits_span, fits_symbol, is_name};

/// Whether a number is one of 32 bits, which it is by its type.
fn fits_count(count: u32) -> bool
    ensures { result ≡ words.fits_count count }
{
    let _by_its_type = count;
    true
}

fn fits_declaration(declaration: &Declaration) -> bool
    ensures { result ≡ spec.fits_declaration (declaration_of declaration.now) }
{
    is_name(declaration.name.as_bytes()) && fits_sizes(&declaration.extents)
}

fn fits_place(place: &Places) -> bool
    ensures { result ≡ spec.fits_place place.now }
{
    match place {
        Places::From { origin, count } => fits_form(origin) && fits_size(*count),
        Places::Folded { count } => fits_size(*count),
    }
}

fn fits_places(all: &[Places]) -> bool
    ensures { result ≡ list_all spec.fits_place all.now }
{
    all.iter().all(|place| fits_place(place))
}

fn fits_index(index: &Index) -> bool
    ensures { result ≡ spec.fits_index (index_of index.now) }
{
    match index {
        Index::Form(form) => fits_form(form),
        Index::Found(expr) => fits_term(expr),
    }
}

fn fits_coordinate(coordinate: &Coordinate) -> bool
    ensures { result ≡ spec.fits_coordinate (coordinate_of coordinate.now) }
{
    is_name(coordinate.variable.as_bytes()) && fits_index(&coordinate.index)
}

fn all_coordinates_fit(all: &[Coordinate]) -> bool
    ensures { result ≡ list_all (λ c. spec.fits_coordinate (coordinate_of c)) all.now }
{
    all.iter().all(|coordinate| fits_coordinate(coordinate))
}

fn fits_coordinates(all: &[Coordinate]) -> bool
    ensures { result ≡ list_all spec.fits_coordinate (map coordinate_of all.now) }
{
    all_coordinates_fit(all)
}

/// Whether the line has a text that is read as the line.
pub(crate) fn fits_line(line: &Line) -> bool
    ensures { result ≡ spec.fits_line (line_of line.now) }
{
    match line {
        Line::Plan { name } => is_name(name.as_bytes()),
        Line::Input(declaration) | Line::Output(declaration) => fits_declaration(declaration),
        Line::Group {
            number,
            function,
            region,
            grid,
        } => {
            fits_count(*number)
                && is_name(function.as_bytes())
                && fits_region(region)
                && !grid.is_empty()
                && fits_sizes(grid)
        }
        Line::For { symbol, span, .. } => fits_symbol(*symbol) && fits_span(span),
        Line::Let { symbol, forms, .. } => fits_symbol(*symbol) && fits_forms(forms),
        Line::First { symbol } => fits_symbol(*symbol),
        Line::Else | Line::End => true,
        Line::Guard { low, high } => fits_form(low) && fits_form(high),
        Line::Alloc {
            buffer,
            function,
            places,
        } => fits_size(*buffer) && is_name(function.as_bytes()) && fits_places(places),
        Line::Fetch {
            buffer,
            group,
            region,
        } => fits_size(*buffer) && fits_size(*group) && fits_region(region),
        Line::Store {
            buffer,
            definition,
            coordinates,
            value,
        } => {
            fits_size(*buffer)
                && fits_size(*definition)
                && fits_coordinates(coordinates)
                && fits_term(value)
        }
        Line::Publish { claim } => fits_size(*claim),
    }
}
