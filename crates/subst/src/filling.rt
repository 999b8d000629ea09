//! Indices put in for the variables of a definition.

ghost use Rattle.std.specs.Prelude.{◌≡◌, map, string_bytes};
ghost use Rattle.tree.specs.Term.{term_of, test_of, list_terms, indices, Term};
ghost use Rattle.subst.specs.Built.{Makes};
ghost use Rattle.subst.specs.Filled.{Fills, FillsName, FillsTest, FillsRow};

use crate::built::{Built, BuiltCond, Row};
use crate::error::SubstError;
use crate::nodes::{
    all, any, binary, call, cast, clamp, compare, literal, negate, no_indices, not, select,
    variable, with_index,
};
use std::alloc::Global;
use tree::token::Span;
use tree::{Cond, Expr, copy};

/// A definition with the indices put in for its variables. An index that is nothing passes the limits.
#[cycle(fill)]
pub fn fill(
    alloc: Global,
    names: &[String],
    at: &[Option<Built>],
    expr: &Expr,
) -> Result<Built, SubstError>
    ensures { Fills names.now at.now (term_of expr.now) result }
{
    match expr {
        Expr::Literal { ty, number, span } => Ok(literal(*ty, *number, *span)),
        Expr::Variable { name, span } => index_or_variable(alloc, names, at, name, *span),
        Expr::Call { name, at: by, span } => call(
            alloc,
            name,
            fill_row(alloc, names, at, by)?,
            *span,
        ),
        Expr::Negate { value, span } => negate(alloc, fill(alloc, names, at, value)?, *span),
        Expr::Binary {
            op,
            left,
            right,
            span,
        } => {
            let left = fill(alloc, names, at, left)?;
            let right = fill(alloc, names, at, right)?;
            binary(alloc, *op, left, right, *span)
        }
        Expr::Clamp {
            value,
            low,
            high,
            span,
        } => {
            let value = fill(alloc, names, at, value)?;
            let low = fill(alloc, names, at, low)?;
            let high = fill(alloc, names, at, high)?;
            clamp(alloc, value, low, high, *span)
        }
        Expr::Cast { ty, value, span } => cast(alloc, *ty, fill(alloc, names, at, value)?, *span),
        Expr::Select {
            cond,
            yes,
            no,
            span,
        } => {
            let cond = fill_cond(alloc, names, at, cond)?;
            let yes = fill(alloc, names, at, yes)?;
            let no = fill(alloc, names, at, no)?;
            select(alloc, cond, yes, no, *span)
        }
    }
}

// The same of a condition.
#[cycle(fill)]
fn fill_cond(
    alloc: Global,
    names: &[String],
    at: &[Option<Built>],
    cond: &Cond,
) -> Result<BuiltCond, SubstError>
    ensures { FillsTest names.now at.now (test_of cond.now) result }
{
    match cond {
        Cond::Compare {
            by,
            left,
            right,
            span,
        } => {
            let left = fill(alloc, names, at, left)?;
            let right = fill(alloc, names, at, right)?;
            compare(alloc, *by, left, right, *span)
        }
        Cond::Not { cond, span } => not(alloc, fill_cond(alloc, names, at, cond)?, *span),
        Cond::All {
            first,
            second,
            span,
        } => {
            let first = fill_cond(alloc, names, at, first)?;
            let second = fill_cond(alloc, names, at, second)?;
            all(alloc, first, second, *span)
        }
        Cond::Any {
            first,
            second,
            span,
        } => {
            let first = fill_cond(alloc, names, at, first)?;
            let second = fill_cond(alloc, names, at, second)?;
            any(alloc, first, second, *span)
        }
    }
}

// The same of the indices of a call.
#[cycle(fill)]
fn fill_row(
    alloc: Global,
    names: &[String],
    at: &[Option<Built>],
    by: &[Expr],
) -> Result<Row, SubstError>
    ensures { FillsRow names.now at.now (indices (list_terms by.now)) result }
{
    let mut row = no_indices(alloc);
    for index in by {
        row = with_index(row, fill(alloc, names, at, index)?)?;
    }
    Ok(row)
}

// The index at the place of the variable, or the variable where there is none.
fn index_or_variable(
    alloc: Global,
    names: &[String],
    at: &[Option<Built>],
    name: &str,
    span: Span,
) -> Result<Built, SubstError>
    ensures { FillsName names.now at.now name.now result }
{
    for k in 0..names.len().min(at.len()) {
        if names[k].as_str() == name {
            return match &at[k] {
                Some(index) => copied(alloc, index),
                None => Err(SubstError::TooLarge),
            };
        }
    }
    variable(alloc, name, span)
}

// A copy, with the places of the parts.
fn copied(alloc: Global, built: &Built) -> Result<Built, SubstError>
    ensures { Makes (term_of built.now.expr) result }
{
    Ok(Built {
        expr: copy(alloc, &built.expr)?,
        nodes: built.nodes,
        levels: built.levels,
    })
}
