//! The lines of a group's statements, indented.

use crate::memory::place_count;
use crate::nests::forms::{put_form, put_picked, put_region, put_span};
use crate::subject::{group_name, name_of};
use lin::{Forms, Lin, Region, Span1, Sym};
use plan::{Coordinate, Group, Index, Kind, Pick, Places, Stmt};
use spelling::sizes::put_size;
use spelling::terms::put_term;
use spelling::words::{put_separator, put_symbol};
use std::alloc::AllocError;
use tree::Expr;

/// What stands around the statements of a group.
#[derive(Drop)]
pub(crate) struct Scene<'a> {
    /// The plan's groups.
    pub groups: &'a [Group],
    /// The group itself.
    pub group: &'a Group,
    /// What each of its pieces owns.
    pub own: Option<&'a Region>,
}

/// Writes the blanks before a line that stands so deep.
pub(crate) fn indent(text: &mut String, depth: usize) -> Result<(), AllocError> {
    for _ in 0..depth {
        text.push_str("  ")?;
    }
    Ok(())
}

/// The word of a loop.
fn loop_word(kind: Kind) -> &'static str {
    match kind {
        Kind::Serial => "for ",
        Kind::Unroll => "unrolled ",
        Kind::Vector => "vectorized ",
    }
}

/// Writes a loop's line.
fn put_for(text: &mut String, symbol: Sym, span: &Span1, kind: Kind) -> Result<(), AllocError> {
    text.push_str(loop_word(kind))?;
    put_symbol(text, symbol)?;
    text.push_str(" in ")?;
    put_span(text, span)?;
    text.push_str(":\n")
}

/// Writes the line of a named number.
fn put_let(text: &mut String, symbol: Sym, pick: Pick, forms: &Forms) -> Result<(), AllocError> {
    text.push_str("let ")?;
    put_symbol(text, symbol)?;
    text.push_str(" = ")?;
    put_picked(text, pick, forms)?;
    text.push_str("\n")
}

/// Writes a guard's line.
fn put_guard(text: &mut String, low: &Lin, high: &Lin) -> Result<(), AllocError> {
    text.push_str("if ")?;
    put_form(text, low)?;
    text.push_str(" <= ")?;
    put_form(text, high)?;
    text.push_str(":\n")
}

/// Writes the places that a buffer has for one coordinate.
fn put_place(text: &mut String, place: &Places) -> Result<(), AllocError> {
    match place {
        Places::From { origin, count } => {
            put_form(text, origin)?;
            text.push_str("#")?;
            put_size(text, *count)
        }
        Places::Folded { count } => {
            text.push_str("%")?;
            put_size(text, *count)
        }
    }
}

/// Writes a buffer's line: its function, how many places it has, and which.
fn put_alloc(
    text: &mut String,
    buffer: u64,
    function: &str,
    places: &[Places],
) -> Result<(), AllocError> {
    text.push_str("buffer b")?;
    put_size(text, buffer)?;
    text.push_str(" of ")?;
    text.push_str(function)?;
    text.push_str(", places ")?;
    put_size(text, place_count(places))?;
    text.push_str(": ")?;
    for (i, place) in places.iter().enumerate() {
        put_separator(text, " x ", i)?;
        put_place(text, place)?;
    }
    text.push_str("\n")
}

/// Writes the line of cells that are fetched.
fn put_fetch(
    text: &mut String,
    scene: &Scene<'_>,
    buffer: u64,
    group: u64,
    region: &Region,
) -> Result<(), AllocError> {
    text.push_str("fetch b")?;
    put_size(text, buffer)?;
    text.push_str(" from group ")?;
    put_size(text, group)?;
    text.push_str(" ")?;
    text.push_str(group_name(scene.groups, group))?;
    text.push_str(" ")?;
    put_region(text, region)?;
    text.push_str("\n")
}

/// Writes what a variable stands for in a store.
fn put_coordinate(text: &mut String, coordinate: &Coordinate) -> Result<(), AllocError> {
    text.push_str(coordinate.variable.as_str())?;
    match &coordinate.index {
        Index::Form(form) => {
            text.push_str("=")?;
            put_form(text, form)
        }
        Index::Found(expr) => {
            text.push_str("~")?;
            put_term(text, expr)
        }
    }
}

/// Writes what the variables stand for, in brackets.
fn put_coordinates(text: &mut String, all: &[Coordinate]) -> Result<(), AllocError> {
    text.push_str("[")?;
    for (i, coordinate) in all.iter().enumerate() {
        put_separator(text, ", ", i)?;
        put_coordinate(text, coordinate)?;
    }
    text.push_str("]")
}

/// Writes which definition of a function a buffer's place gets.
fn put_definition(
    text: &mut String,
    scene: &Scene<'_>,
    buffer: u64,
    definition: u64,
) -> Result<(), AllocError> {
    if definition == 0 {
        text.push_str("store b")?;
    } else {
        text.push_str("update ")?;
        put_size(text, definition)?;
        text.push_str(" b")?;
    }
    put_size(text, buffer)?;
    text.push_str(" ")?;
    text.push_str(name_of(&scene.group.body, buffer))
}

/// Writes a store's line.
fn put_store(
    text: &mut String,
    coordinates: &[Coordinate],
    value: &Expr,
) -> Result<(), AllocError> {
    put_coordinates(text, coordinates)?;
    text.push_str(" = ")?;
    put_term(text, value)?;
    text.push_str("\n")
}

/// Writes the line of the cells that a piece gives.
fn put_publish(text: &mut String, scene: &Scene<'_>) -> Result<(), AllocError> {
    text.push_str("publish ")?;
    text.push_str(scene.group.function.as_str())?;
    if let Some(region) = scene.own {
        text.push_str(" ")?;
        put_region(text, region)?;
    }
    text.push_str("\n")
}

/// Writes the line of a statement without a body.
fn put_simple(text: &mut String, scene: &Scene<'_>, stmt: &Stmt) -> Result<(), AllocError> {
    match stmt {
        Stmt::Let {
            symbol,
            pick,
            forms,
        } => put_let(text, *symbol, *pick, forms),
        Stmt::Alloc {
            buffer,
            function,
            places,
        } => put_alloc(text, *buffer, function.as_str(), places),
        Stmt::Fetch {
            buffer,
            group,
            region,
        } => put_fetch(text, scene, *buffer, *group, region),
        Stmt::Store {
            buffer,
            definition,
            coordinates,
            value,
        } => {
            put_definition(text, scene, *buffer, *definition)?;
            put_store(text, coordinates, value)
        }
        Stmt::Publish { .. } => put_publish(text, scene),
        Stmt::Seq(_) | Stmt::For { .. } | Stmt::First { .. } | Stmt::Guard { .. } => Ok(()),
    }
}

/// Writes a statement's lines, which stand so deep.
#[cycle(put_stmt)]
pub(crate) fn put_stmt(
    text: &mut String,
    scene: &Scene<'_>,
    depth: usize,
    stmt: &Stmt,
) -> Result<(), AllocError> {
    let inside = depth.saturating_add(1);
    match stmt {
        Stmt::Seq(all) => put_block(text, scene, depth, all),
        Stmt::For {
            symbol,
            span,
            kind,
            body,
        } => {
            indent(text, depth)?;
            put_for(text, *symbol, span, *kind)?;
            put_stmt(text, scene, inside, body)
        }
        Stmt::First {
            symbol,
            first,
            later,
        } => {
            indent(text, depth)?;
            text.push_str("in the first turn of ")?;
            put_symbol(text, *symbol)?;
            text.push_str(":\n")?;
            put_stmt(text, scene, inside, first)?;
            indent(text, depth)?;
            text.push_str("in any other:\n")?;
            put_stmt(text, scene, inside, later)
        }
        Stmt::Guard { low, high, body } => {
            indent(text, depth)?;
            put_guard(text, low, high)?;
            put_stmt(text, scene, inside, body)
        }
        simple => {
            indent(text, depth)?;
            put_simple(text, scene, simple)
        }
    }
}

/// Writes the lines of statements.
#[cycle(put_stmt)]
fn put_block(
    text: &mut String,
    scene: &Scene<'_>,
    depth: usize,
    all: &[Stmt],
) -> Result<(), AllocError> {
    for stmt in all {
        put_stmt(text, scene, depth, stmt)?;
    }
    Ok(())
}
