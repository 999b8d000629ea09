//! Calls of functions that are not stored, put in.

ghost use Rattle.std.specs.Prelude.{◌≡◌, MatchResult};
ghost use Rattle.tree.specs.Term.{term_of, test_of, list_terms, indices};
ghost use Rattle.tree.specs.Substitution.{with_calls, test_with_calls, all_with_calls};
ghost use Rattle.subst.specs.Built.{Makes, MakesTest, MakesRow, Holds};
ghost use Rattle.subst.specs.Limits.{IsMemory};
ghost use Rattle.subst.specs.Filled.{AreHeld};
ghost use Rattle.subst.specs.Table.{stands, AreBodies, FillsBody};

use crate::bodies::{Body, body_of_name};
use crate::built::{Built, BuiltCond, Row};
use crate::error::SubstError;
use crate::filling::fill;
use crate::nodes::{
    all, any, binary, call, cast, clamp, compare, literal, negate, no_indices, not, select,
    variable, with_index,
};
use std::alloc::Global;
use tree::{Cond, Expr};

/// The expression with what stands for its calls put in.
#[cycle(put)]
pub fn put(alloc: Global, bodies: &[Body<'_>], expr: &Expr) -> Result<Built, SubstError>
    requires { AreBodies bodies.now }
    ensures { Makes (with_calls (stands bodies.now) (term_of expr.now)) result }
{
    match expr {
        Expr::Literal { ty, number, span } => Ok(literal(*ty, *number, *span)),
        Expr::Variable { name, span } => variable(alloc, name, *span),
        Expr::Call { name, at, span } => match body_of_name(bodies, name) {
            None => call(alloc, name, put_row(alloc, bodies, at)?, *span),
            Some(body) => call_put_in(alloc, body, &put_each(alloc, bodies, at)?),
        },
        Expr::Negate { value, span } => negate(alloc, put(alloc, bodies, value)?, *span),
        Expr::Binary {
            op,
            left,
            right,
            span,
        } => {
            let left = put(alloc, bodies, left)?;
            let right = put(alloc, bodies, right)?;
            binary(alloc, *op, left, right, *span)
        }
        Expr::Clamp {
            value,
            low,
            high,
            span,
        } => {
            let value = put(alloc, bodies, value)?;
            let low = put(alloc, bodies, low)?;
            let high = put(alloc, bodies, high)?;
            clamp(alloc, value, low, high, *span)
        }
        Expr::Cast { ty, value, span } => cast(alloc, *ty, put(alloc, bodies, value)?, *span),
        Expr::Select {
            cond,
            yes,
            no,
            span,
        } => {
            let cond = put_cond(alloc, bodies, cond)?;
            let yes = put(alloc, bodies, yes)?;
            let no = put(alloc, bodies, no)?;
            select(alloc, cond, yes, no, *span)
        }
    }
}

// The same of a condition.
#[cycle(put)]
fn put_cond(alloc: Global, bodies: &[Body<'_>], cond: &Cond) -> Result<BuiltCond, SubstError>
    requires { AreBodies bodies.now }
    ensures { MakesTest (test_with_calls (stands bodies.now) (test_of cond.now)) result }
{
    match cond {
        Cond::Compare {
            by,
            left,
            right,
            span,
        } => {
            let left = put(alloc, bodies, left)?;
            let right = put(alloc, bodies, right)?;
            compare(alloc, *by, left, right, *span)
        }
        Cond::Not { cond, span } => not(alloc, put_cond(alloc, bodies, cond)?, *span),
        Cond::All {
            first,
            second,
            span,
        } => {
            let first = put_cond(alloc, bodies, first)?;
            let second = put_cond(alloc, bodies, second)?;
            all(alloc, first, second, *span)
        }
        Cond::Any {
            first,
            second,
            span,
        } => {
            let first = put_cond(alloc, bodies, first)?;
            let second = put_cond(alloc, bodies, second)?;
            any(alloc, first, second, *span)
        }
    }
}

// The indices of a call that stays.
#[cycle(put)]
fn put_row(alloc: Global, bodies: &[Body<'_>], at: &[Expr]) -> Result<Row, SubstError>
    requires { AreBodies bodies.now }
    ensures { MakesRow (all_with_calls (stands bodies.now) (indices (list_terms at.now))) result }
{
    let mut row = no_indices(alloc);
    for index in at {
        row = with_index(row, put(alloc, bodies, index)?)?;
    }
    Ok(row)
}

// The indices of a call that is put in, with nothing for one that passes the limits: a definition may not use it.
#[cycle(put)]
fn put_each(
    alloc: Global,
    bodies: &[Body<'_>],
    at: &[Expr],
) -> Result<Vec<Option<Built>>, SubstError>
    requires { AreBodies bodies.now }
    ensures { MatchResult result (λ v. AreHeld (all_with_calls (stands bodies.now) (indices (list_terms at.now))) v.items) (λ error. IsMemory error) }
{
    let mut held = Vec::new(alloc);
    for index in at {
        let built = put_within(alloc, bodies, index)?;
        held.push(built)?;
    }
    Ok(held)
}

/// The same as `put`, with nothing in place of what passes the limits.
#[cycle(put)]
pub fn put_within(
    alloc: Global,
    bodies: &[Body<'_>],
    expr: &Expr,
) -> Result<Option<Built>, SubstError>
    requires { AreBodies bodies.now }
    ensures { MatchResult result (Holds (with_calls (stands bodies.now) (term_of expr.now))) (λ error. IsMemory error) }
{
    match put(alloc, bodies, expr) {
        Ok(built) => Ok(Some(built)),
        Err(SubstError::TooLarge) => Ok(None),
        Err(error) => Err(error),
    }
}

// The definition of the function with these indices.
fn call_put_in(alloc: Global, body: &Body<'_>, held: &[Option<Built>]) -> Result<Built, SubstError>
    ensures { FillsBody body.now held.now result }
{
    match &body.value {
        Some(value) => fill(alloc, &body.function.variables, held, &value.expr),
        None => Err(SubstError::TooLarge),
    }
}
