//! The calls of an expression, in the order of the text, with those that stand in them.

ghost use Rattle.std.specs.Prelude.{◌≡◌, ◌++◌, IfOk, map};
ghost use Rattle.tree.specs.Term.{term_of, test_of, list_terms, indices};
ghost use Rattle.algo.specs.Scoping.Standing.{calls_of, calls_of_test, calls_of_all};
ghost use Rattle.sched.specs.Stored.{formula_of, calls_in};
ghost use Rattle.sched.specs.Calls.{call_of};

use crate::definitions::Formula;
use std::alloc::{AllocError, Global};
use tree::{Cond, Expr};

/// A call: the name, and the indices.
#[derive(Clone, Copy, Drop)]
pub struct Call<'a> {
    pub name: &'a str,
    pub at: &'a [Expr],
}

/// The calls so far and those of an expression; a call comes before those of its indices.
#[cycle(calls)]
#[tactic(auto, using(crate::proofs::Calling::behind_two, crate::proofs::Calling::behind_three))]
pub fn with_calls<'a>(known: Vec<Call<'a>>, expr: &'a Expr) -> Result<Vec<Call<'a>>, AllocError>
    ensures { IfOk result (λ v. map call_of v.items ≡ map call_of known.entry.items ++ calls_of (term_of expr.now)) }
{
    match expr {
        Expr::Literal { .. } | Expr::Variable { .. } => Ok(known),
        Expr::Call { name, at, .. } => {
            let mut known = known;
            known.push(Call {
                name: name.as_str(),
                at,
            })?;
            with_calls_of_all(known, at)
        }
        Expr::Negate { value, .. } | Expr::Cast { value, .. } => with_calls(known, value),
        Expr::Binary { left, right, .. } => {
            let known = with_calls(known, left)?;
            with_calls(known, right)
        }
        Expr::Clamp {
            value,
            low,
            high,
            ..
        } => {
            let known = with_calls(known, value)?;
            let known = with_calls(known, low)?;
            with_calls(known, high)
        }
        Expr::Select { cond, yes, no, .. } => {
            let known = with_calls_of_test(known, cond)?;
            let known = with_calls(known, yes)?;
            with_calls(known, no)
        }
    }
}

// The same of a condition.
#[cycle(calls)]
#[tactic(auto, using(crate::proofs::Calling::behind_two))]
fn with_calls_of_test<'a>(known: Vec<Call<'a>>, cond: &'a Cond) -> Result<Vec<Call<'a>>, AllocError>
    ensures { IfOk result (λ v. map call_of v.items ≡ map call_of known.entry.items ++ calls_of_test (test_of cond.now)) }
{
    match cond {
        Cond::Compare { left, right, .. } => {
            let known = with_calls(known, left)?;
            with_calls(known, right)
        }
        Cond::Not { cond, .. } => with_calls_of_test(known, cond),
        Cond::All { first, second, .. } | Cond::Any { first, second, .. } => {
            let known = with_calls_of_test(known, first)?;
            with_calls_of_test(known, second)
        }
    }
}

/// The same of indices.
#[cycle(calls)]
#[tactic(auto, using(crate::proofs::Calling::behind_two))]
pub fn with_calls_of_all<'a>(
    known: Vec<Call<'a>>,
    at: &'a [Expr],
) -> Result<Vec<Call<'a>>, AllocError>
    ensures { IfOk result (λ v. map call_of v.items ≡ map call_of known.entry.items ++ calls_of_all (indices (list_terms at.now))) }
{
    let mut known = known;
    for index in at {
        known = with_calls(known, index)?;
    }
    Ok(known)
}

/// The calls of a definition: those of its left indices, and then those of its value.
pub fn calls_of<'a>(alloc: Global, formula: &'a Formula) -> Result<Vec<Call<'a>>, AllocError>
    ensures { IfOk result (λ v. map call_of v.items ≡ calls_in (formula_of formula.now)) }
{
    let mut calls = Vec::new(alloc);
    for index in &formula.at {
        if let Some(index) = index {
            calls = with_calls(calls, index)?;
        }
    }
    with_calls(calls, &formula.value)
}
