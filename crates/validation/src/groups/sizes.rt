//! Counts with limits: the places of buffers, the cells of a region.

ghost use Rattle.std.specs.Prelude.{◌≡◌, map};
ghost use Rattle.std.specs.List.{list_all};
ghost use Rattle.plan.specs.Certificate.Cells.{piece_count};
ghost use Rattle.plan.specs.Lists.{list_statements};
ghost use Rattle.plan.specs.Plan.{block};
ghost use Rattle.plan.specs.View.{statement_of};
ghost use Rattle.validation.specs.Groups.Sizes.{product, place_count, places_count, allotted, block_allotted, bound_in, block_bound_in, held_in, block_held_in, extent_of, cell_count, is_extent};
ghost use Rattle.validation.specs.Stored.Sizes.{counted};

use crate::groups::ends::{high_end, low_end};
use lin::Span1;
use plan::{Places, Stmt};
use soundness::outline::forms::is_listed;

/// How many places there are for one coordinate.
fn place_count(places: &Places) -> u64
    ensures { result ≡ place_count places.now }
{
    match places {
        Places::From { count, .. } | Places::Folded { count } => *count,
    }
}

/// How many places there are for all coordinates. More than a `u64` holds count as the greatest `u64`.
pub(crate) fn places_count(places: &[Places]) -> u64
    ensures { result ≡ places_count places.now }
{
    let mut total: u64 = 1;
    for one in places {
        total = total.saturating_mul(place_count(one));
    }
    total
}

/// How many places the buffers have that a statement allocates. More than a `u64` holds count as the greatest `u64`.
#[cycle(allotted)]
pub(crate) fn allotted(stmt: &Stmt) -> u64
    ensures { result ≡ allotted (statement_of stmt.now) }
{
    match stmt {
        Stmt::Seq(all) => all_allotted(all),
        Stmt::For { body, .. } | Stmt::Guard { body, .. } => allotted(body),
        Stmt::First { first, later, .. } => allotted(first).saturating_add(allotted(later)),
        Stmt::Alloc { places, .. } => places_count(places),
        Stmt::Let { .. } | Stmt::Fetch { .. } | Stmt::Store { .. } | Stmt::Publish { .. } => 0,
    }
}

/// The same of a block's statements.
#[cycle(allotted)]
fn all_allotted(all: &[Stmt]) -> u64
    ensures { result ≡ block_allotted (block (list_statements all.now)) }
{
    let mut total: u64 = 0;
    for stmt in all {
        total = total.saturating_add(allotted(stmt));
    }
    total
}

/// How many symbols a statement binds. More than a `u64` holds count as the greatest `u64`.
#[cycle(bound)]
pub(crate) fn bound_in(stmt: &Stmt) -> u64
    ensures { result ≡ bound_in (statement_of stmt.now) }
{
    match stmt {
        Stmt::Seq(all) => all_bound_in(all),
        Stmt::For { body, .. } => bound_in(body).saturating_add(1),
        Stmt::Guard { body, .. } => bound_in(body),
        Stmt::First { first, later, .. } => bound_in(first).saturating_add(bound_in(later)),
        Stmt::Let { .. } => 1,
        Stmt::Alloc { .. } | Stmt::Fetch { .. } | Stmt::Store { .. } | Stmt::Publish { .. } => 0,
    }
}

/// The same of a block's statements.
#[cycle(bound)]
fn all_bound_in(all: &[Stmt]) -> u64
    ensures { result ≡ block_bound_in (block (list_statements all.now)) }
{
    let mut total: u64 = 0;
    for stmt in all {
        total = total.saturating_add(bound_in(stmt));
    }
    total
}

/// How many buffers a statement allocates. More than a `u64` holds count as the greatest `u64`.
#[cycle(held)]
pub(crate) fn held_in(stmt: &Stmt) -> u64
    ensures { result ≡ held_in (statement_of stmt.now) }
{
    match stmt {
        Stmt::Seq(all) => all_held_in(all),
        Stmt::For { body, .. } | Stmt::Guard { body, .. } => held_in(body),
        Stmt::First { first, later, .. } => held_in(first).saturating_add(held_in(later)),
        Stmt::Alloc { .. } => 1,
        Stmt::Let { .. } | Stmt::Fetch { .. } | Stmt::Store { .. } | Stmt::Publish { .. } => 0,
    }
}

/// The same of a block's statements.
#[cycle(held)]
fn all_held_in(all: &[Stmt]) -> u64
    ensures { result ≡ block_held_in (block (list_statements all.now)) }
{
    let mut total: u64 = 0;
    for stmt in all {
        total = total.saturating_add(held_in(stmt));
    }
    total
}

/// How many numbers a span of constants has. More than a `u64` holds count as the greatest `u64`.
fn extent_of(span: &Span1) -> u64
    ensures { result ≡ counted (extent_of span.now) }
{
    let low = low_end(span);
    let high = high_end(span);
    if high < low {
        0
    } else {
        high.abs_diff(low).saturating_add(1)
    }
}

/// Whether the span has one to four forms at each end, and from 1 to 8192 numbers.
fn is_extent(span: &Span1) -> bool
    ensures { result ≡ is_extent span.now }
{
    let width = extent_of(span);
    is_listed(&span.lower) && is_listed(&span.upper) && 1 <= width && width <= 8192
}

/// Whether each span has one to four forms at each end, and from 1 to 8192 numbers.
pub(crate) fn are_extents(region: &[Span1]) -> bool
    ensures { result ≡ list_all is_extent region.now }
{
    region.iter().all(is_extent)
}

/// The points of a region of constants. More than a `u64` holds count as the greatest `u64`.
pub(crate) fn cell_count(region: &[Span1]) -> u64
    ensures { result ≡ cell_count region.now }
{
    let mut total: u64 = 1;
    for span in region {
        total = total.saturating_mul(extent_of(span));
    }
    total
}

/// The pieces of a grid. More than a `u64` holds count as the greatest `u64`.
pub(crate) fn piece_count(grid: &[u64]) -> u64
    ensures { result ≡ counted (piece_count grid.now) }
{
    let mut total: u64 = 1;
    for count in grid {
        total = total.saturating_mul(*count);
    }
    total
}
