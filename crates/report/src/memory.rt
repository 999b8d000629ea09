//! The private cells of a function, and whether it has any.

ghost use Rattle.std.specs.Prelude.{◌≡◌};
ghost use Rattle.std.specs.List.{list_any};
ghost use Rattle.meaning.specs.Names.{same_name};
ghost use Rattle.plan.specs.Lists.{list_statements};
ghost use Rattle.plan.specs.Plan.{block};
ghost use Rattle.plan.specs.View.{statement_of};
ghost use Rattle.report.specs.Costs.{capped};
ghost use Rattle.report.specs.Memory.{block_buffers, buffers, count_in, place_count, places_of};

use plan::{Places, Stmt};

/// How many places one coordinate has.
fn count_in(places: &Places) -> u64
    ensures { result ≡ count_in places.now }
{
    match places {
        Places::From { count, .. } | Places::Folded { count } => *count,
    }
}

/// How many places all coordinates make.
#[tactic(auto, using(crate::proofs::Sums::saturated))]
pub(crate) fn place_count(places: &[Places]) -> u64
    ensures { result ≡ capped (place_count places.now) }
{
    match places {
        [] => 1,
        [first, rest @ ..] => place_count(rest).saturating_mul(count_in(first)),
    }
}

/// How many places the buffers of a function have that a statement allocates.
#[tactic(auto, using(crate::proofs::Places::more_places, crate::proofs::Places::places_append, crate::proofs::Sums::capped_sum))]
#[cycle(places)]
pub(crate) fn places_in(stmt: &Stmt, function: &str) -> u64
    ensures { result ≡ capped (places_of function.now (buffers (statement_of stmt.now))) }
{
    match stmt {
        Stmt::Seq(all) => places_in_block(all, function),
        Stmt::For { body, .. } | Stmt::Guard { body, .. } => places_in(body, function),
        Stmt::First { first, later, .. } => {
            places_in(first, function).saturating_add(places_in(later, function))
        }
        Stmt::Alloc {
            function: allocated,
            places,
            ..
        } => {
            if allocated.as_str() == function {
                place_count(places)
            } else {
                0
            }
        }
        Stmt::Let { .. } | Stmt::Fetch { .. } | Stmt::Store { .. } | Stmt::Publish { .. } => 0,
    }
}

/// The same of a block's statements.
#[tactic(auto, using(crate::proofs::Places::more_places, crate::proofs::Places::places_append, crate::proofs::Sums::capped_sum))]
#[cycle(places)]
fn places_in_block(all: &[Stmt], function: &str) -> u64
    ensures { result ≡ capped (places_of function.now (block_buffers (block (list_statements all.now)))) }
{
    let mut count: u64 = 0;
    for stmt in all {
        count = count.saturating_add(places_in(stmt, function));
    }
    count
}

/// Whether a statement allocates a buffer of a function.
#[cycle(allocates)]
pub(crate) fn allocates(stmt: &Stmt, function: &str) -> bool
    ensures { result ≡ list_any (λ b. same_name b.function function.now) (buffers (statement_of stmt.now)) }
{
    match stmt {
        Stmt::Seq(all) => block_allocates(all, function),
        Stmt::For { body, .. } | Stmt::Guard { body, .. } => allocates(body, function),
        Stmt::First { first, later, .. } => {
            allocates(first, function) || allocates(later, function)
        }
        Stmt::Alloc {
            function: allocated,
            ..
        } => allocated.as_str() == function,
        Stmt::Let { .. } | Stmt::Fetch { .. } | Stmt::Store { .. } | Stmt::Publish { .. } => false,
    }
}

/// The same of a block's statements.
#[cycle(allocates)]
fn block_allocates(all: &[Stmt], function: &str) -> bool
    ensures { result ≡ list_any (λ b. same_name b.function function.now) (block_buffers (block (list_statements all.now))) }
{
    for stmt in all {
        if allocates(stmt, function) {
            return true;
        }
    }
    false
}
