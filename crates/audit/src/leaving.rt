//! What is told of a store at whose line both a number may be too large and a place is not shown: that it leaves its buffer,
//! where the buffer's places are i32 numbers.

ghost use Rattle.std.specs.Prelude.{◌≡◌, ◌<◌, ◌+◌, ◌^◌, true, IsTrue, MatchOption, Some, length};
ghost use Rattle.std.specs.List.{list_all};
ghost use Rattle.plan.specs.Plan.{block};
ghost use Rattle.plan.specs.View.{plan_of, statement_of};
ghost use Rattle.plan.specs.Lists.{list_statements};
ghost use Rattle.plan.specs.Lines.{group_line};
ghost use Rattle.soundness.specs.Outline.Flaws.{line_told};
ghost use Rattle.soundness.specs.Outline.Refusals.Codes.{number_of};
ghost use Rattle.audit.specs.Verdict.Left.{LeavesBuffer, all_leave, factors_fit, is_left, is_near_form, leaves, some_stores_at, stores_at};

use lin::{Lin, Multiple};
use plan::{Places, Plan, Stmt};
use soundness::outline::refusals::Flaw;

/// How far from 0 the constant of a buffer's first place may be.
const FARTHEST: u64 = 1 << 30;
/// How much the factors of its symbols may be in all.
const MOST_FACTORS: u64 = 1 << 9;

/// A store: its buffer, and how many coordinates it has.
#[derive(Clone, Copy, Drop)]
struct Target {
    buffer: u64,
    coordinates: usize,
}

/// The store at a line of a statement that begins at the line `begun`, if it is one.
#[cycle(finding)]
fn store_in(stmt: &Stmt, begun: u32, line: u32) -> Option<Target>
    ensures { MatchOption result (Unit {0}) (λ t. stores_at t.buffer t.coordinates line begun (statement_of stmt.now) ≡ true) }
{
    match stmt {
        Stmt::Seq(all) => store_among(all, begun, line),
        Stmt::For { body, .. } => store_in(body, begun.saturating_add(1), line),
        Stmt::First { first, later, .. } => {
            let middle = begun.saturating_add(1).saturating_add(first.line_count());
            if line < middle {
                store_in(first, begun.saturating_add(1), line)
            } else {
                store_in(later, middle.saturating_add(1), line)
            }
        }
        Stmt::Guard { body, .. } => store_in(body, begun.saturating_add(1), line),
        Stmt::Store {
            buffer,
            coordinates,
            ..
        } if begun == line => Some(Target {
            buffer: *buffer,
            coordinates: coordinates.len(),
        }),
        Stmt::Let { .. }
        | Stmt::Alloc { .. }
        | Stmt::Fetch { .. }
        | Stmt::Store { .. }
        | Stmt::Publish { .. } => None,
    }
}

/// The store at a line of a block's statements, of which the first begins at the line `begun`.
#[cycle(finding)]
fn store_among(all: &[Stmt], begun: u32, line: u32) -> Option<Target>
    ensures { MatchOption result (Unit {0}) (λ t. some_stores_at t.buffer t.coordinates line begun (block (list_statements all.now)) ≡ true) }
{
    let mut begin = begun;
    for stmt in all {
        let end = begin.saturating_add(stmt.line_count());
        if line < end {
            return store_in(stmt, begin, line);
        }
        begin = end;
    }
    None
}

/// Whether the factors of some terms come to at most as much as they may in all.
fn factors_fit(terms: &[Multiple]) -> bool
    ensures { result ≡ factors_fit (2 ^ 9) terms.now }
{
    let mut left = MOST_FACTORS;
    for term in terms {
        let size = term.factor.unsigned_abs();
        if left < size {
            return false;
        }
        left -= size;
    }
    true
}

/// Whether a buffer's first place is near 0, as its constant and its factors tell: an i32 number where its symbols are below 2^20.
fn is_near(origin: &Lin) -> bool
    ensures { result ≡ is_near_form origin.now }
{
    origin.constant().unsigned_abs() <= FARTHEST && factors_fit(origin.terms())
}

/// Whether the places of a dimension are near 0; where they are folded, no coordinate leaves them.
fn is_left(places: &Places) -> bool
    ensures { result ≡ is_left places.now }
{
    match places {
        Places::From { origin, .. } => is_near(origin),
        Places::Folded { .. } => false,
    }
}

/// Whether those of all dimensions are.
fn are_left(places: &[Places]) -> bool
    ensures { result ≡ list_all is_left places.now }
{
    for dimension in places {
        if !is_left(dimension) {
            return false;
        }
    }
    true
}

/// Whether a store that goes past the i32 numbers leaves each buffer of its number in a statement: all its coordinates are the
/// buffer's, as those of a pure definition are, and the buffer's places are near 0.
#[cycle(leaving)]
fn leaves(target: &Target, stmt: &Stmt) -> bool
    ensures { result ≡ leaves target.now.buffer target.now.coordinates (statement_of stmt.now) }
{
    match stmt {
        Stmt::Seq(all) => leaves_all(target, all),
        Stmt::For { body, .. } => leaves(target, body),
        Stmt::First { first, later, .. } => leaves(target, first) && leaves(target, later),
        Stmt::Guard { body, .. } => leaves(target, body),
        Stmt::Alloc { buffer, places, .. } => {
            *buffer != target.buffer || places.len() == target.coordinates && are_left(places)
        }
        Stmt::Let { .. } | Stmt::Fetch { .. } | Stmt::Store { .. } | Stmt::Publish { .. } => true,
    }
}

#[cycle(leaving)]
fn leaves_all(target: &Target, all: &[Stmt]) -> bool
    ensures { result ≡ all_leave target.now.buffer target.now.coordinates (block (list_statements all.now)) }
{
    for stmt in all {
        if !leaves(target, stmt) {
            return false;
        }
    }
    true
}

/// The number of the group in which a line of a plan's text stands, if it is one's.
fn group_at(plan: &Plan, line: u32) -> Option<usize>
    ensures { MatchOption result (Unit {0}) (λ n. (n < length plan.now.groups.items) × (line < line_told (group_line (plan_of plan.now) (n + 1)))) }
{
    for number in 0..plan.groups.len() {
        if line < plan.group_line(number + 1) {
            return Some(number);
        }
    }
    None
}

/// Whether at a line stands a store that leaves its buffer where it goes past the i32 numbers.
fn is_leaving(plan: &Plan, line: u32) -> bool
    ensures { IsTrue result → LeavesBuffer (plan_of plan.now) line }
{
    let Some(number) = group_at(plan, line) else {
        return false;
    };
    let Some(group) = plan.groups.get(number) else {
        return false;
    };
    let body = plan.group_line(number).saturating_add(1);
    if line < body {
        return false;
    }
    match store_in(&group.body, body, line) {
        Some(target) => leaves(&target, &group.body),
        None => false,
    }
}

/// What is owed, where it is that a store leaves its buffer, and the number that may be too large is that store's coordinate.
pub(crate) fn left_first(plan: &Plan, wide: Option<Flaw>, owed: Option<Flaw>) -> Option<Flaw>
    ensures is { MatchOption result (Unit {0}) (λ f. owed ≡ Some f) }
    ensures leaves { MatchOption result (Unit {0}) (λ f. (number_of f.code ≡ 4) × LeavesBuffer (plan_of plan.now) f.line) }
{
    let (Some(number), Some(place)) = (wide, owed) else {
        return None;
    };
    if place.line == number.line && place.code.number() == 4 && is_leaving(plan, place.line) {
        return owed;
    }
    None
}
