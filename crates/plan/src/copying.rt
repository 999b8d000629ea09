//! Copies of plans and their parts.

ghost use Rattle.std.specs.Prelude.{◌≡◌, IfOk, map, string_bytes};
ghost use Rattle.tree.specs.Term.{term_of};
ghost use Rattle.plan.specs.Lists.{list_groups, list_statements};
ghost use Rattle.plan.specs.Plan.{Alloc, Fetch, First, For, Guard, Let, Store};
ghost use Rattle.plan.specs.View.{coordinate_of, declaration_of, group_of, index_of, plan_of, statement_of};

use crate::plan::{Declaration, Group, Plan};
use crate::stmt::{Coordinate, Index, Kind, Pick, Places, Stmt};
use lin::{Forms, Lin, Region, Span1, Sym};
use std::alloc::{AllocError, Global};
use tree::Expr;

/// The same forms, in memory of their own.
pub fn copy_forms(alloc: Global, forms: &Forms) -> Result<Forms, AllocError>
    ensures { IfOk result (λ copied. copied ≡ forms.now) }
{
    let mut copied = Forms::new(alloc);
    for form in forms.as_slice() {
        copied.push(form.copy(alloc)?)?;
    }
    Ok(copied)
}

/// The same span, in memory of its own.
pub fn copy_span(alloc: Global, span: &Span1) -> Result<Span1, AllocError>
    ensures { IfOk result (λ copied. copied ≡ span.now) }
{
    let lower = copy_forms(alloc, &span.lower)?;
    let upper = copy_forms(alloc, &span.upper)?;
    Ok(Span1 { lower, upper })
}

/// The same region, in memory of its own.
pub fn copy_region(alloc: Global, region: &Region) -> Result<Region, AllocError>
    ensures { IfOk result (λ copied. copied ≡ region.now) }
{
    let mut copied = Region::new(alloc);
    for span in region.as_slice() {
        copied.push(copy_span(alloc, span)?)?;
    }
    Ok(copied)
}

fn copy_places(alloc: Global, places: &Places) -> Result<Places, AllocError>
    ensures { IfOk result (λ copied. copied ≡ places.now) }
{
    match places {
        Places::From { origin, count } => Ok(Places::From {
            origin: origin.copy(alloc)?,
            count: *count,
        }),
        Places::Folded { count } => Ok(Places::Folded { count: *count }),
    }
}

fn copy_all_places(alloc: Global, places: &[Places]) -> Result<Vec<Places>, AllocError>
    ensures { IfOk result (λ copied. copied.items ≡ places.now) }
{
    let mut copied = Vec::new(alloc);
    for one in places {
        copied.push(copy_places(alloc, one)?)?;
    }
    Ok(copied)
}

fn copy_coordinate(alloc: Global, coordinate: &Coordinate) -> Result<Coordinate, AllocError>
    ensures { IfOk result (λ copied. coordinate_of copied ≡ coordinate_of coordinate.now) }
{
    let variable = coordinate.variable.clone()?;
    let index = match &coordinate.index {
        Index::Form(form) => Index::Form(form.copy(alloc)?),
        Index::Found(expr) => Index::Found(tree::copy(alloc, expr)?),
    };
    Ok(Coordinate { variable, index })
}

fn copy_coordinates(
    alloc: Global,
    coordinates: &[Coordinate],
) -> Result<Vec<Coordinate>, AllocError>
    ensures { IfOk result (λ copied. map coordinate_of copied.items ≡ map coordinate_of coordinates.now) }
{
    let mut copied = Vec::new(alloc);
    for coordinate in coordinates {
        copied.push(copy_coordinate(alloc, coordinate)?)?;
    }
    Ok(copied)
}

fn copy_for(
    alloc: Global,
    symbol: Sym,
    span: &Span1,
    kind: Kind,
    body: Box<Stmt>,
) -> Result<Stmt, AllocError>
    ensures { IfOk result (λ copied. statement_of copied ≡ For symbol span.now kind (statement_of body.value)) }
{
    Ok(Stmt::For {
        symbol,
        span: copy_span(alloc, span)?,
        kind,
        body,
    })
}

fn copy_let(alloc: Global, symbol: Sym, pick: Pick, forms: &Forms) -> Result<Stmt, AllocError>
    ensures { IfOk result (λ copied. statement_of copied ≡ Let symbol pick forms.now) }
{
    Ok(Stmt::Let {
        symbol,
        pick,
        forms: copy_forms(alloc, forms)?,
    })
}

fn first_of(symbol: Sym, first: Box<Stmt>, later: Box<Stmt>) -> Stmt
    ensures { statement_of result ≡ First symbol (statement_of first.value) (statement_of later.value) }
{
    Stmt::First {
        symbol,
        first,
        later,
    }
}

fn copy_guard(alloc: Global, low: &Lin, high: &Lin, body: Box<Stmt>) -> Result<Stmt, AllocError>
    ensures { IfOk result (λ copied. statement_of copied ≡ Guard low.now high.now (statement_of body.value)) }
{
    let low = low.copy(alloc)?;
    let high = high.copy(alloc)?;
    Ok(Stmt::Guard { low, high, body })
}

fn copy_alloc(
    alloc: Global,
    buffer: u64,
    function: &String,
    places: &[Places],
) -> Result<Stmt, AllocError>
    ensures { IfOk result (λ copied. statement_of copied ≡ Alloc buffer (string_bytes function.now) places.now) }
{
    let function = function.clone()?;
    let places = copy_all_places(alloc, places)?;
    Ok(Stmt::Alloc {
        buffer,
        function,
        places,
    })
}

fn copy_fetch(alloc: Global, buffer: u64, group: u64, region: &Region) -> Result<Stmt, AllocError>
    ensures { IfOk result (λ copied. statement_of copied ≡ Fetch buffer group region.now) }
{
    Ok(Stmt::Fetch {
        buffer,
        group,
        region: copy_region(alloc, region)?,
    })
}

fn copy_store(
    alloc: Global,
    buffer: u64,
    definition: u64,
    coordinates: &[Coordinate],
    value: &Expr,
) -> Result<Stmt, AllocError>
    ensures { IfOk result (λ copied. statement_of copied ≡ Store buffer definition (map coordinate_of coordinates.now) (term_of value.now)) }
{
    let coordinates = copy_coordinates(alloc, coordinates)?;
    let value = tree::copy(alloc, value)?;
    Ok(Stmt::Store {
        buffer,
        definition,
        coordinates,
        value,
    })
}

/// The same statement, in memory of its own.
#[cycle(copying)]
pub fn copy_stmt(alloc: Global, stmt: &Stmt) -> Result<Stmt, AllocError>
    ensures { IfOk result (λ copied. statement_of copied ≡ statement_of stmt.now) }
{
    match stmt {
        Stmt::Seq(all) => Ok(Stmt::Seq(copy_block(alloc, all)?)),
        Stmt::For {
            symbol,
            span,
            kind,
            body,
        } => copy_for(alloc, *symbol, span, *kind, copy_boxed(alloc, body)?),
        Stmt::Let {
            symbol,
            pick,
            forms,
        } => copy_let(alloc, *symbol, *pick, forms),
        Stmt::First {
            symbol,
            first,
            later,
        } => {
            let first = copy_boxed(alloc, first)?;
            Ok(first_of(*symbol, first, copy_boxed(alloc, later)?))
        }
        Stmt::Guard { low, high, body } => copy_guard(alloc, low, high, copy_boxed(alloc, body)?),
        Stmt::Alloc {
            buffer,
            function,
            places,
        } => copy_alloc(alloc, *buffer, function, places),
        Stmt::Fetch {
            buffer,
            group,
            region,
        } => copy_fetch(alloc, *buffer, *group, region),
        Stmt::Store {
            buffer,
            definition,
            coordinates,
            value,
        } => copy_store(alloc, *buffer, *definition, coordinates, value),
        Stmt::Publish { claim } => Ok(Stmt::Publish { claim: *claim }),
    }
}

#[cycle(copying)]
fn copy_boxed(alloc: Global, stmt: &Stmt) -> Result<Box<Stmt>, AllocError>
    ensures { IfOk result (λ copied. statement_of copied.value ≡ statement_of stmt.now) }
{
    let copied = copy_stmt(alloc, stmt)?;
    Ok(Box::new(alloc, copied)?)
}

#[cycle(copying)]
fn copy_block(alloc: Global, all: &[Stmt]) -> Result<Vec<Stmt>, AllocError>
    ensures { IfOk result (λ copied. list_statements copied.items ≡ list_statements all.now) }
{
    let mut copied = Vec::new(alloc);
    for stmt in all {
        copied.push(copy_stmt(alloc, stmt)?)?;
    }
    Ok(copied)
}

fn copy_declaration(alloc: Global, declaration: &Declaration) -> Result<Declaration, AllocError>
    ensures { IfOk result (λ copied. declaration_of copied ≡ declaration_of declaration.now) }
{
    let name = declaration.name.clone()?;
    let extents = declaration.extents.clone()?;
    Ok(Declaration {
        name,
        ty: declaration.ty,
        extents,
    })
}

fn copy_group(alloc: Global, group: &Group) -> Result<Group, AllocError>
    ensures { IfOk result (λ copied. group_of copied ≡ group_of group.now) }
{
    let function = group.function.clone()?;
    let region = copy_region(alloc, &group.region)?;
    let grid = group.grid.clone()?;
    let body = copy_stmt(alloc, &group.body)?;
    Ok(Group {
        function,
        region,
        grid,
        body,
    })
}

fn copy_groups(alloc: Global, groups: &[Group]) -> Result<Vec<Group>, AllocError>
    ensures { IfOk result (λ copied. list_groups copied.items ≡ list_groups groups.now) }
{
    let mut copied = Vec::new(alloc);
    for group in groups {
        copied.push(copy_group(alloc, group)?)?;
    }
    Ok(copied)
}

/// An equal plan, in memory of its own.
pub fn copy(alloc: Global, plan: &Plan) -> Result<Plan, AllocError>
    ensures { IfOk result (λ copied. plan_of copied ≡ plan_of plan.now) }
{
    let name = plan.name.clone()?;
    let input = copy_declaration(alloc, &plan.input)?;
    let output = copy_declaration(alloc, &plan.output)?;
    let groups = copy_groups(alloc, &plan.groups)?;
    Ok(Plan {
        name,
        input,
        output,
        groups,
    })
}
