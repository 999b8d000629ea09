//! The text of each line, and of whole plans.

ghost use Rattle.std.specs.Prelude.{◌≡◌, ◌++◌, ◌∷◌, [], IfOk, OnOk, codes, map, string_bytes};
ghost use Rattle.std.specs.List.{flat_map};
ghost use Rattle.tree.specs.Term.{term_of};
ghost use Rattle.plan.specs.Lists.{list_groups, list_statements};
ghost use Rattle.plan.specs.Plan.{block};
ghost use Rattle.plan.specs.View.{coordinate_of, declaration_of, group_of, index_of, plan_of, statement_of};
ghost use Rattle.spelling.specs.Lines.Lines.{lines_text};
ghost use Rattle.spelling.specs.Words.Spelling as words;
ghost use Rattle.nest.specs.Blocks.View.{line_of};
ghost use Rattle.nest.specs.Notation.{plan_notation};
ghost use Rattle.nest.specs.Spelling as spec;
ghost use Rattle.nest.specs.Writing as whole;

use crate::blocks::Line;
use itoa::Buffer;
use lin::{Forms, Lin, Region, Span1, Sym};
use plan::{Coordinate, Declaration, Group, Index, Kind, Pick, Places, Plan, Stmt};
use spelling::sizes::{put_size, put_sizes};
use spelling::terms::put_term;
use spelling::words::{
    put_form, put_forms, put_name, put_region, put_separator, put_span, put_symbol, put_type,
};
use std::alloc::{AllocError, Global};
use tree::Expr;

fn kind_text(kind: Kind) -> &'static str
    ensures { result.now ≡ spec.kind_text kind }
{
    match kind {
        Kind::Serial => "serial",
        Kind::Unroll => "unroll",
        Kind::Vector => "vector",
    }
}

fn pick_text(pick: Pick) -> &'static str
    ensures { result.now ≡ spec.pick_text pick }
{
    match pick {
        Pick::Min => "min",
        Pick::Max => "max",
    }
}

#[tactic(auto, unfolding(crate::specs::Spelling::declaration_text))]
fn put_declaration(text: &mut String, declaration: &Declaration) -> Result<(), AllocError>
    ensures { OnOk result (string_bytes text.new ≡ string_bytes text.old ++ spec.declaration_text (declaration_of declaration.now)) }
{
    put_name(text, &declaration.name)?;
    text.push_str(" ")?;
    put_type(text, declaration.ty)?;
    text.push_str(" ")?;
    put_sizes(text, &declaration.extents)
}

#[tactic(auto, unfolding(crate::specs::Spelling::place_text))]
fn put_place(text: &mut String, place: &Places) -> Result<(), AllocError>
    ensures { OnOk result (string_bytes text.new ≡ string_bytes text.old ++ spec.place_text place.now) }
{
    match place {
        Places::From { origin, count } => {
            put_form(text, origin)?;
            text.push_str("#")?;
            put_size(text, *count)
        }
        Places::Folded { count } => {
            text.push_str("%")?;
            put_size(text, *count)
        }
    }
}

fn put_by_semicolons(text: &mut String, all: &[Places]) -> Result<(), AllocError>
    ensures { OnOk result (string_bytes text.new ≡ string_bytes text.old ++ words.separated_text 59 spec.place_text all.now) }
{
    for (i, place) in all.iter().enumerate() {
        put_separator(text, ";", i)?;
        put_place(text, place)?;
    }
    Ok(())
}

#[tactic(auto, unfolding(crate::specs::Spelling::places_text))]
fn put_places(text: &mut String, all: &[Places]) -> Result<(), AllocError>
    ensures { OnOk result (string_bytes text.new ≡ string_bytes text.old ++ spec.places_text all.now) }
{
    text.push_str("[")?;
    put_by_semicolons(text, all)?;
    text.push_str("]")
}

#[tactic(auto, unfolding(crate::specs::Spelling::index_text))]
fn put_index(text: &mut String, index: &Index) -> Result<(), AllocError>
    ensures { OnOk result (string_bytes text.new ≡ string_bytes text.old ++ spec.index_text (index_of index.now)) }
{
    match index {
        Index::Form(form) => {
            text.push_str("=")?;
            put_form(text, form)
        }
        Index::Found(expr) => {
            text.push_str("~")?;
            put_term(text, expr)
        }
    }
}

#[tactic(auto, unfolding(crate::specs::Spelling::coordinate_text))]
fn put_coordinate(text: &mut String, coordinate: &Coordinate) -> Result<(), AllocError>
    ensures { OnOk result (string_bytes text.new ≡ string_bytes text.old ++ spec.spaced_coordinate (coordinate_of coordinate.now)) }
{
    put_name(text, &coordinate.variable)?;
    put_index(text, &coordinate.index)?;
    text.push_str(" ")
}

fn put_coordinates(text: &mut String, all: &[Coordinate]) -> Result<(), AllocError>
    ensures { OnOk result (string_bytes text.new ≡ string_bytes text.old ++ flat_map spec.spaced_coordinate (map coordinate_of all.now)) }
{
    for coordinate in all {
        put_coordinate(text, coordinate)?;
    }
    Ok(())
}

/// Sizes with blanks between them.
fn put_grid(text: &mut String, grid: &[u64]) -> Result<(), AllocError>
    ensures { OnOk result (string_bytes text.new ≡ string_bytes text.old ++ words.separated_text 32 words.count_text grid.now) }
{
    for (i, size) in grid.iter().enumerate() {
        put_separator(text, " ", i)?;
        put_size(text, *size)?;
    }
    Ok(())
}

#[tactic(auto, unfolding(crate::specs::Spelling::input_text))]
fn put_input(text: &mut String, input: &Declaration) -> Result<(), AllocError>
    ensures { OnOk result (string_bytes text.new ≡ string_bytes text.old ++ spec.input_text (declaration_of input.now)) }
{
    text.push_str("input ")?;
    put_declaration(text, input)
}

#[tactic(auto, unfolding(crate::specs::Spelling::output_text))]
fn put_output(text: &mut String, output: &Declaration) -> Result<(), AllocError>
    ensures { OnOk result (string_bytes text.new ≡ string_bytes text.old ++ spec.output_text (declaration_of output.now)) }
{
    text.push_str("output ")?;
    put_declaration(text, output)
}

/// Writes the number of a group.
fn put_group_number(text: &mut String, number: usize) -> Result<(), AllocError>
    ensures { OnOk result (string_bytes text.new ≡ string_bytes text.old ++ words.count_text number) }
{
    text.push_str(Buffer::new().format(number))
}

#[tactic(auto, unfolding(crate::specs::Spelling::group_text))]
fn put_group(
    text: &mut String,
    number: usize,
    function: &str,
    region: &Region,
    grid: &[u64],
) -> Result<(), AllocError>
    ensures { OnOk result (string_bytes text.new ≡ string_bytes text.old ++ spec.group_text number function.now region.now grid.now) }
{
    text.push_str("group ")?;
    put_group_number(text, number)?;
    text.push_str(" ")?;
    put_name(text, function)?;
    text.push_str(" ")?;
    put_region(text, region)?;
    text.push_str(" grid ")?;
    put_grid(text, grid)
}

#[tactic(auto, unfolding(crate::specs::Spelling::for_text))]
fn put_for(text: &mut String, symbol: Sym, span: &Span1, kind: Kind) -> Result<(), AllocError>
    ensures { OnOk result (string_bytes text.new ≡ string_bytes text.old ++ spec.for_text symbol span.now kind) }
{
    text.push_str("for ")?;
    put_symbol(text, symbol)?;
    text.push_str(" ")?;
    put_span(text, span)?;
    text.push_str(" ")?;
    text.push_str(kind_text(kind))
}

#[tactic(auto, unfolding(crate::specs::Spelling::let_text))]
fn put_let(text: &mut String, symbol: Sym, pick: Pick, forms: &Forms) -> Result<(), AllocError>
    ensures { OnOk result (string_bytes text.new ≡ string_bytes text.old ++ spec.let_text symbol pick forms.now) }
{
    text.push_str("let ")?;
    put_symbol(text, symbol)?;
    text.push_str(" ")?;
    text.push_str(pick_text(pick))?;
    text.push_str(" ")?;
    put_forms(text, forms)
}

#[tactic(auto, unfolding(crate::specs::Spelling::guard_text))]
fn put_guard(text: &mut String, low: &Lin, high: &Lin) -> Result<(), AllocError>
    ensures { OnOk result (string_bytes text.new ≡ string_bytes text.old ++ spec.guard_text low.now high.now) }
{
    text.push_str("guard ")?;
    put_form(text, low)?;
    text.push_str("<=")?;
    put_form(text, high)
}

#[tactic(auto, unfolding(crate::specs::Spelling::alloc_text))]
fn put_alloc(
    text: &mut String,
    buffer: u64,
    function: &str,
    places: &[Places],
) -> Result<(), AllocError>
    ensures { OnOk result (string_bytes text.new ≡ string_bytes text.old ++ spec.alloc_text buffer function.now places.now) }
{
    text.push_str("alloc b")?;
    put_size(text, buffer)?;
    text.push_str(" ")?;
    put_name(text, function)?;
    text.push_str(" ")?;
    put_places(text, places)
}

#[tactic(auto, unfolding(crate::specs::Spelling::fetch_text))]
fn put_fetch(text: &mut String, buffer: u64, group: u64, region: &Region) -> Result<(), AllocError>
    ensures { OnOk result (string_bytes text.new ≡ string_bytes text.old ++ spec.fetch_text buffer group region.now) }
{
    text.push_str("fetch b")?;
    put_size(text, buffer)?;
    text.push_str(" ")?;
    put_size(text, group)?;
    text.push_str(" ")?;
    put_region(text, region)
}

#[tactic(auto, unfolding(crate::specs::Spelling::store_text))]
fn put_store(
    text: &mut String,
    buffer: u64,
    definition: u64,
    coordinates: &[Coordinate],
    value: &Expr,
) -> Result<(), AllocError>
    ensures { OnOk result (string_bytes text.new ≡ string_bytes text.old ++ spec.store_text buffer definition (map coordinate_of coordinates.now) (term_of value.now)) }
{
    text.push_str("store b")?;
    put_size(text, buffer)?;
    text.push_str(" ")?;
    put_size(text, definition)?;
    text.push_str(" ")?;
    put_coordinates(text, coordinates)?;
    put_term(text, value)
}

fn put_plan_name(text: &mut String, name: &str) -> Result<(), AllocError>
    ensures { OnOk result (string_bytes text.new ≡ string_bytes text.old ++ (codes "plan 1 " ++ name.now)) }
{
    text.push_str("plan 1 ")?;
    put_name(text, name)
}

fn put_first(text: &mut String, symbol: Sym) -> Result<(), AllocError>
    ensures { OnOk result (string_bytes text.new ≡ string_bytes text.old ++ spec.first_text symbol) }
{
    text.push_str("first ")?;
    put_symbol(text, symbol)
}

fn put_publish(text: &mut String, claim: u64) -> Result<(), AllocError>
    ensures { OnOk result (string_bytes text.new ≡ string_bytes text.old ++ spec.publish_text claim) }
{
    text.push_str("publish @")?;
    put_size(text, claim)
}

/// Writes a line at the end of the text, without its line feed.
pub(crate) fn put_line(text: &mut String, line: &Line) -> Result<(), AllocError>
    ensures { OnOk result (string_bytes text.new ≡ string_bytes text.old ++ spec.line_text (line_of line.now)) }
{
    match line {
        Line::Plan { name } => put_plan_name(text, name),
        Line::Input(input) => put_input(text, input),
        Line::Output(output) => put_output(text, output),
        Line::Group {
            number,
            function,
            region,
            grid,
        } => put_group(text, *number as usize, function, region, grid),
        Line::For { symbol, span, kind } => put_for(text, *symbol, span, *kind),
        Line::Let {
            symbol,
            pick,
            forms,
        } => put_let(text, *symbol, *pick, forms),
        Line::First { symbol } => put_first(text, *symbol),
        Line::Else => text.push_str("else"),
        Line::Guard { low, high } => put_guard(text, low, high),
        Line::End => text.push_str("end"),
        Line::Alloc {
            buffer,
            function,
            places,
        } => put_alloc(text, *buffer, function, places),
        Line::Fetch {
            buffer,
            group,
            region,
        } => put_fetch(text, *buffer, *group, region),
        Line::Store {
            buffer,
            definition,
            coordinates,
            value,
        } => put_store(text, *buffer, *definition, coordinates, value),
        Line::Publish { claim } => put_publish(text, *claim),
    }
}

/// Writes the line of a simple statement, without its line feed, and nothing for one that has a body.
fn put_simple(text: &mut String, stmt: &Stmt) -> Result<(), AllocError>
    ensures { OnOk result (string_bytes text.new ≡ string_bytes text.old ++ whole.simple_text (statement_of stmt.now)) }
{
    match stmt {
        Stmt::Let {
            symbol,
            pick,
            forms,
        } => put_let(text, *symbol, *pick, forms),
        Stmt::Alloc {
            buffer,
            function,
            places,
        } => put_alloc(text, *buffer, function, places),
        Stmt::Fetch {
            buffer,
            group,
            region,
        } => put_fetch(text, *buffer, *group, region),
        Stmt::Store {
            buffer,
            definition,
            coordinates,
            value,
        } => put_store(text, *buffer, *definition, coordinates, value),
        Stmt::Publish { claim } => put_publish(text, *claim),
        Stmt::Seq(_) | Stmt::For { .. } | Stmt::First { .. } | Stmt::Guard { .. } => Ok(()),
    }
}

/// Writes a statement's lines at the end of the text.
#[cycle(put_stmt)]
fn put_stmt(text: &mut String, stmt: &Stmt) -> Result<(), AllocError>
    ensures { OnOk result (string_bytes text.new ≡ string_bytes text.old ++ whole.statement_text (statement_of stmt.now)) }
{
    match stmt {
        Stmt::Seq(all) => put_block(text, all),
        Stmt::For {
            symbol,
            span,
            kind,
            body,
        } => {
            put_for(text, *symbol, span, *kind)?;
            text.push_str("\n")?;
            put_stmt(text, body)?;
            text.push_str("end\n")
        }
        Stmt::First {
            symbol,
            first,
            later,
        } => {
            put_first(text, *symbol)?;
            text.push_str("\n")?;
            put_stmt(text, first)?;
            text.push_str("else\n")?;
            put_stmt(text, later)?;
            text.push_str("end\n")
        }
        Stmt::Guard { low, high, body } => {
            put_guard(text, low, high)?;
            text.push_str("\n")?;
            put_stmt(text, body)?;
            text.push_str("end\n")
        }
        simple => {
            put_simple(text, simple)?;
            text.push_str("\n")
        }
    }
}

/// Writes the lines of statements.
#[cycle(put_stmt)]
fn put_block(text: &mut String, all: &[Stmt]) -> Result<(), AllocError>
    ensures { OnOk result (string_bytes text.new ≡ string_bytes text.old ++ whole.block_text (block (list_statements all.now))) }
{
    for stmt in all {
        put_stmt(text, stmt)?;
    }
    Ok(())
}

/// Writes the lines of groups, of which the first has that number.
fn put_groups(text: &mut String, groups: &[Group]) -> Result<(), AllocError>
    ensures { OnOk result (string_bytes text.new ≡ string_bytes text.old ++ whole.groups_text 0 (list_groups groups.now)) }
{
    for (number, group) in groups.iter().enumerate() {
        put_whole_group(text, number, group)?;
    }
    Ok(())
}

/// Writes the lines of a group.
fn put_whole_group(text: &mut String, number: usize, group: &Group) -> Result<(), AllocError>
    ensures { OnOk result (string_bytes text.new ≡ string_bytes text.old ++ whole.whole_group_text number (group_of group.now)) }
{
    put_group(text, number, &group.function, &group.region, &group.grid)?;
    text.push_str("\n")?;
    put_stmt(text, &group.body)
}

/// Writes the lines before the groups.
fn put_head(text: &mut String, plan: &Plan) -> Result<(), AllocError>
    ensures { OnOk result (string_bytes text.new ≡ string_bytes text.old ++ whole.head_text (plan_of plan.now)) }
{
    put_plan_name(text, &plan.name)?;
    text.push_str("\n")?;
    put_input(text, &plan.input)?;
    text.push_str("\n")?;
    put_output(text, &plan.output)?;
    text.push_str("\n")
}

/// The plan's text: its lines up to the line `cert`, each with its line feed.
pub fn write(alloc: Global, plan: &Plan) -> Result<String, AllocError>
    ensures { IfOk result (λ text. string_bytes text ≡ lines_text (plan_notation.lines (plan_of plan.now))) }
{
    let mut text = String::new(alloc);
    put_head(&mut text, plan)?;
    put_groups(&mut text, &plan.groups)?;
    Ok(text)
}
