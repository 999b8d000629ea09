//! Nodes made of parts that are within the limits.

ghost use Rattle.std.specs.Prelude.{◌≡◌, ◌∷◌, ◌++◌, [], string_bytes, MatchResult};
ghost use Rattle.tree.specs.Term.{
  term_of,
  test_of,
  list_terms,
  indices,
  Number,
  Name,
  Call,
  Minus,
  Binary,
  Clamp,
  Cast,
  Choice,
  Compares,
  Fails,
  Both,
  Either,
  End,
  More,
};
ghost use Rattle.tree.specs.Tree.{node_counts, depths};
ghost use Rattle.subst.specs.Limits.{Within, IsSizeRefused};
ghost use Rattle.subst.specs.Built.{Makes, MakesTest, MakesRow};

use crate::built::{Built, BuiltCond, Row};
use crate::error::SubstError;
use numeric::{Comparison, Op, Ty};
use std::alloc::Global;
use tree::token::Span;
use tree::{Cond, Expr};

// The greatest number of nodes, and of nodes on a way down.
const NODES: usize = 4096;

const LEVELS: usize = 256;

// Refuses what passes the limits.
fn allowed(nodes: usize, levels: usize) -> Result<(), SubstError>
    ensures { MatchResult result (λ u. Within nodes levels) (λ error. IsSizeRefused error nodes levels) }
{
    if nodes <= NODES && levels <= LEVELS {
        Ok(())
    } else {
        Err(SubstError::TooLarge)
    }
}

/// A number.
pub fn literal(ty: Ty, number: i64, span: Span) -> Built
    ensures { term_of result.expr ≡ Number ty number }
{
    Built {
        expr: Expr::Literal { ty, number, span },
        nodes: 1,
        levels: 1,
    }
}

/// A variable.
pub fn variable(alloc: Global, name: &str, span: Span) -> Result<Built, SubstError>
    ensures { Makes (Name name.now) result }
{
    Ok(Built {
        expr: Expr::Variable {
            name: name.to_owned(alloc)?,
            span,
        },
        nodes: 1,
        levels: 1,
    })
}

/// A negation.
pub fn negate(alloc: Global, value: Built, span: Span) -> Result<Built, SubstError>
    ensures { Makes (Minus (term_of value.expr)) result }
{
    let nodes = value.nodes + 1;
    let levels = value.levels + 1;
    allowed(nodes, levels)?;
    let expr = Expr::Negate {
        value: Box::new(alloc, value.expr)?,
        span,
    };
    Ok(Built {
        expr,
        nodes,
        levels,
    })
}

/// An operator on two expressions.
pub fn binary(
    alloc: Global,
    op: Op,
    left: Built,
    right: Built,
    span: Span,
) -> Result<Built, SubstError>
    ensures { Makes (Binary op (term_of left.expr) (term_of right.expr)) result }
{
    let nodes = left.nodes + right.nodes + 1;
    let levels = left.levels.max(right.levels) + 1;
    allowed(nodes, levels)?;
    let expr = Expr::Binary {
        op,
        left: Box::new(alloc, left.expr)?,
        right: Box::new(alloc, right.expr)?,
        span,
    };
    Ok(Built {
        expr,
        nodes,
        levels,
    })
}

/// A clamp.
pub fn clamp(
    alloc: Global,
    value: Built,
    low: Built,
    high: Built,
    span: Span,
) -> Result<Built, SubstError>
    ensures { Makes (Clamp (term_of value.expr) (term_of low.expr) (term_of high.expr)) result }
{
    let nodes = value.nodes + low.nodes + high.nodes + 1;
    let levels = value.levels.max(low.levels.max(high.levels)) + 1;
    allowed(nodes, levels)?;
    let expr = Expr::Clamp {
        value: Box::new(alloc, value.expr)?,
        low: Box::new(alloc, low.expr)?,
        high: Box::new(alloc, high.expr)?,
        span,
    };
    Ok(Built {
        expr,
        nodes,
        levels,
    })
}

/// A cast.
pub fn cast(alloc: Global, ty: Ty, value: Built, span: Span) -> Result<Built, SubstError>
    ensures { Makes (Cast ty (term_of value.expr)) result }
{
    let nodes = value.nodes + 1;
    let levels = value.levels + 1;
    allowed(nodes, levels)?;
    let expr = Expr::Cast {
        ty,
        value: Box::new(alloc, value.expr)?,
        span,
    };
    Ok(Built {
        expr,
        nodes,
        levels,
    })
}

/// A choice between two expressions.
pub fn select(
    alloc: Global,
    cond: BuiltCond,
    yes: Built,
    no: Built,
    span: Span,
) -> Result<Built, SubstError>
    ensures { Makes (Choice (test_of cond.cond.value) (term_of yes.expr) (term_of no.expr)) result }
{
    let nodes = cond.nodes + yes.nodes + no.nodes + 1;
    let levels = cond.levels.max(yes.levels.max(no.levels)) + 1;
    allowed(nodes, levels)?;
    let expr = Expr::Select {
        cond: cond.cond,
        yes: Box::new(alloc, yes.expr)?,
        no: Box::new(alloc, no.expr)?,
        span,
    };
    Ok(Built {
        expr,
        nodes,
        levels,
    })
}

/// A comparison.
pub fn compare(
    alloc: Global,
    by: Comparison,
    left: Built,
    right: Built,
    span: Span,
) -> Result<BuiltCond, SubstError>
    ensures { MakesTest (Compares by (term_of left.expr) (term_of right.expr)) result }
{
    let nodes = left.nodes + right.nodes + 1;
    let levels = left.levels.max(right.levels) + 1;
    allowed(nodes, levels)?;
    let cond = Box::new(
        alloc,
        Cond::Compare {
            by,
            left: left.expr,
            right: right.expr,
            span,
        },
    )?;
    Ok(BuiltCond {
        cond,
        nodes,
        levels,
    })
}

/// The negation of a condition.
pub fn not(alloc: Global, cond: BuiltCond, span: Span) -> Result<BuiltCond, SubstError>
    ensures { MakesTest (Fails (test_of cond.cond.value)) result }
{
    let nodes = cond.nodes + 1;
    let levels = cond.levels + 1;
    allowed(nodes, levels)?;
    let cond = Box::new(
        alloc,
        Cond::Not {
            cond: cond.cond,
            span,
        },
    )?;
    Ok(BuiltCond {
        cond,
        nodes,
        levels,
    })
}

/// Both conditions.
pub fn all(
    alloc: Global,
    first: BuiltCond,
    second: BuiltCond,
    span: Span,
) -> Result<BuiltCond, SubstError>
    ensures { MakesTest (Both (test_of first.cond.value) (test_of second.cond.value)) result }
{
    let nodes = first.nodes + second.nodes + 1;
    let levels = first.levels.max(second.levels) + 1;
    allowed(nodes, levels)?;
    let cond = Box::new(
        alloc,
        Cond::All {
            first: first.cond,
            second: second.cond,
            span,
        },
    )?;
    Ok(BuiltCond {
        cond,
        nodes,
        levels,
    })
}

/// One of the conditions, or both.
pub fn any(
    alloc: Global,
    first: BuiltCond,
    second: BuiltCond,
    span: Span,
) -> Result<BuiltCond, SubstError>
    ensures { MakesTest (Either (test_of first.cond.value) (test_of second.cond.value)) result }
{
    let nodes = first.nodes + second.nodes + 1;
    let levels = first.levels.max(second.levels) + 1;
    allowed(nodes, levels)?;
    let cond = Box::new(
        alloc,
        Cond::Any {
            first: first.cond,
            second: second.cond,
            span,
        },
    )?;
    Ok(BuiltCond {
        cond,
        nodes,
        levels,
    })
}

/// A call at indices.
pub fn call(alloc: Global, name: &str, row: Row, span: Span) -> Result<Built, SubstError>
    ensures { Makes (Call name.now (indices (list_terms row.at.items))) result }
{
    let nodes = row.nodes + 1;
    let levels = row.levels + 1;
    allowed(nodes, levels)?;
    let expr = Expr::Call {
        name: name.to_owned(alloc)?,
        at: row.at,
        span,
    };
    Ok(Built {
        expr,
        nodes,
        levels,
    })
}

/// No indices.
pub fn no_indices(alloc: Global) -> Row
    ensures { result.at.items ≡ [] }
{
    Row {
        at: Vec::new(alloc),
        nodes: 0,
        levels: 0,
    }
}

/// One index more, at the end.
pub fn with_index(row: Row, index: Built) -> Result<Row, SubstError>
    ensures { MakesRow (indices (list_terms (row.at.items ++ index.expr ∷ []))) result }
{
    let (nodes, levels) = size_with(&row, &index);
    allowed(nodes, levels)?;
    let mut at = row.at;
    at.push(index.expr)?;
    Ok(Row { at, nodes, levels })
}

// The nodes and the levels of a row with one index more.
fn size_with(row: &Row, index: &Built) -> (usize, usize)
    ensures nodes { result.0 ≡ node_counts (indices (list_terms (row.now.at.items ++ index.now.expr ∷ []))) }
    ensures levels { result.1 ≡ depths (indices (list_terms (row.now.at.items ++ index.now.expr ∷ []))) }
{
    (row.nodes + index.nodes, row.levels.max(index.levels))
}
