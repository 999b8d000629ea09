//! Expressions as a plan stores them: each call of a stored function is a load by a claim.

ghost use Rattle.std.specs.Prelude.{◌≡◌, IfOk, None, map, string_bytes};
ghost use Rattle.tree.specs.Term.{term_of, test_of, list_terms, indices, Call};
ghost use Rattle.tree.specs.Substitution.{with_calls, test_with_calls, all_with_calls};
ghost use Rattle.sched.specs.Loading.{as_load, last_of, loaded_name as name_after};
ghost use Rattle.blocks.specs.Loading.{load_of};

use std::alloc::{AllocError, Global};
use tree::token::Span;
use tree::{Cond, Expr};

/// A function, and the claim by which what it holds is loaded.
#[derive(Clone, Copy, Drop)]
pub struct Load<'a> {
    pub function: &'a str,
    pub claim: u64,
}

// The claim of the last load of this function.
fn last_claim(loads: &[Load<'_>], name: &str) -> Option<u64>
    ensures { result ≡ last_of None (map load_of loads.now) name.now }
{
    let mut found = None;
    for load in loads {
        if load.function == name {
            found = Some(load.claim);
        }
    }
    found
}

// The name by which the function is loaded, by the last claim of it; another name stays.
fn loaded_name(alloc: Global, name: &str, loads: &[Load<'_>]) -> Result<String, AllocError>
    ensures { IfOk result (λ s. string_bytes s ≡ name_after (map load_of loads.now) name.now) }
{
    match last_claim(loads, name) {
        Some(claim) => format!(in alloc; "@{claim}"),
        None => String::from_str(alloc, name),
    }
}

fn loaded_box(alloc: Global, expr: Expr) -> Result<Box<Expr>, AllocError>
    ensures { IfOk result (λ b. term_of b.value ≡ term_of expr) }
{
    Ok(Box::new(alloc, expr)?)
}

fn test_box(alloc: Global, cond: Cond) -> Result<Box<Cond>, AllocError>
    ensures { IfOk result (λ b. test_of b.value ≡ test_of cond) }
{
    Ok(Box::new(alloc, cond)?)
}

#[tactic(auto, using(crate::proofs::Loads::call_made))]
fn loaded_call(
    alloc: Global,
    name: &str,
    at: Vec<Expr>,
    span: Span,
    loads: &[Load<'_>],
) -> Result<Expr, AllocError>
    ensures { IfOk result (λ e. term_of e ≡ Call (name_after (map load_of loads.now) name.now) (indices (list_terms at.items))) }
{
    Ok(Expr::Call {
        name: loaded_name(alloc, name, loads)?,
        at,
        span,
    })
}

/// The expression with each call of one of these functions as a load by its claim.
#[cycle(load)]
#[tactic(auto, using(crate::proofs::Loads::call_loaded))]
pub(crate) fn loaded(alloc: Global, expr: &Expr, loads: &[Load<'_>]) -> Result<Expr, AllocError>
    ensures { IfOk result (λ e. term_of e ≡ with_calls (as_load (map load_of loads.now)) (term_of expr.now)) }
{
    match expr {
        Expr::Literal { .. } | Expr::Variable { .. } => tree::copy(alloc, expr),
        Expr::Call { name, at, span } => {
            let at = loaded_all(alloc, at, loads)?;
            loaded_call(alloc, name.as_str(), at, *span, loads)
        }
        Expr::Negate { value, span } => Ok(Expr::Negate {
            value: loaded_box(alloc, loaded(alloc, value, loads)?)?,
            span: *span,
        }),
        Expr::Cast { ty, value, span } => Ok(Expr::Cast {
            ty: *ty,
            value: loaded_box(alloc, loaded(alloc, value, loads)?)?,
            span: *span,
        }),
        Expr::Binary {
            op,
            left,
            right,
            span,
        } => {
            let left = loaded_box(alloc, loaded(alloc, left, loads)?)?;
            let right = loaded_box(alloc, loaded(alloc, right, loads)?)?;
            Ok(Expr::Binary {
                op: *op,
                left,
                right,
                span: *span,
            })
        }
        Expr::Clamp {
            value,
            low,
            high,
            span,
        } => {
            let value = loaded_box(alloc, loaded(alloc, value, loads)?)?;
            let low = loaded_box(alloc, loaded(alloc, low, loads)?)?;
            let high = loaded_box(alloc, loaded(alloc, high, loads)?)?;
            Ok(Expr::Clamp {
                value,
                low,
                high,
                span: *span,
            })
        }
        Expr::Select {
            cond,
            yes,
            no,
            span,
        } => {
            let cond = test_box(alloc, loaded_test(alloc, cond, loads)?)?;
            let yes = loaded_box(alloc, loaded(alloc, yes, loads)?)?;
            let no = loaded_box(alloc, loaded(alloc, no, loads)?)?;
            Ok(Expr::Select {
                cond,
                yes,
                no,
                span: *span,
            })
        }
    }
}

// The same of a condition.
#[cycle(load)]
fn loaded_test(alloc: Global, cond: &Cond, loads: &[Load<'_>]) -> Result<Cond, AllocError>
    ensures { IfOk result (λ c. test_of c ≡ test_with_calls (as_load (map load_of loads.now)) (test_of cond.now)) }
{
    match cond {
        Cond::Compare {
            by,
            left,
            right,
            span,
        } => {
            let left = loaded(alloc, left, loads)?;
            let right = loaded(alloc, right, loads)?;
            Ok(Cond::Compare {
                by: *by,
                left,
                right,
                span: *span,
            })
        }
        Cond::Not { cond, span } => Ok(Cond::Not {
            cond: test_box(alloc, loaded_test(alloc, cond, loads)?)?,
            span: *span,
        }),
        Cond::All {
            first,
            second,
            span,
        } => {
            let first = test_box(alloc, loaded_test(alloc, first, loads)?)?;
            let second = test_box(alloc, loaded_test(alloc, second, loads)?)?;
            Ok(Cond::All {
                first,
                second,
                span: *span,
            })
        }
        Cond::Any {
            first,
            second,
            span,
        } => {
            let first = test_box(alloc, loaded_test(alloc, first, loads)?)?;
            let second = test_box(alloc, loaded_test(alloc, second, loads)?)?;
            Ok(Cond::Any {
                first,
                second,
                span: *span,
            })
        }
    }
}

// The same of indices.
#[cycle(load)]
#[tactic(auto, using(crate::proofs::Loads::more_loaded, crate::proofs::Loads::all_loaded))]
fn loaded_all(alloc: Global, at: &[Expr], loads: &[Load<'_>]) -> Result<Vec<Expr>, AllocError>
    ensures { IfOk result (λ v. indices (list_terms v.items) ≡ all_with_calls (as_load (map load_of loads.now)) (indices (list_terms at.now))) }
{
    let mut made = Vec::new(alloc);
    for index in at {
        let one = loaded(alloc, index, loads)?;
        made.push(one)?;
    }
    Ok(made)
}
