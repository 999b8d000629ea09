//! A copy of an expression.

ghost use Rattle.std.specs.Prelude.{◌≡◌, [], ◌∷◌, ◌++◌, IfOk};
ghost use Rattle.tree.specs.Term.{term_of, test_of, list_terms, Number, Minus, Binary, Clamp, Cast};
ghost use Rattle.tree.specs.Place.{spans_of, spans_of_test, list_spans};

use crate::expr::{Cond, Expr};
use crate::token::Span;
use numeric::{Op, Ty};
use std::alloc::{AllocError, Global};

/// An equal expression, with the same places, in memory of its own.
#[cycle(copy)]
pub fn copy(alloc: Global, expr: &Expr) -> Result<Expr, AllocError>
    ensures term { IfOk result (λ e. term_of e ≡ term_of expr.now) }
    ensures spans { IfOk result (λ e. spans_of e ≡ spans_of expr.now) }
{
    match expr {
        Expr::Literal { ty, number, span } => Ok(literal(*ty, *number, *span)),
        Expr::Variable { name, span } => Ok(Expr::Variable {
            name: name.clone()?,
            span: *span,
        }),
        Expr::Call { name, at, span } => Ok(Expr::Call {
            name: name.clone()?,
            at: copy_all(alloc, at)?,
            span: *span,
        }),
        Expr::Negate { value, span } => Ok(negate(copy_boxed(alloc, value)?, *span)),
        Expr::Binary {
            op,
            left,
            right,
            span,
        } => {
            let left = copy_boxed(alloc, left)?;
            Ok(binary(*op, left, copy_boxed(alloc, right)?, *span))
        }
        Expr::Clamp {
            value,
            low,
            high,
            span,
        } => {
            let value = copy_boxed(alloc, value)?;
            let low = copy_boxed(alloc, low)?;
            Ok(clamp(value, low, copy_boxed(alloc, high)?, *span))
        }
        Expr::Cast { ty, value, span } => Ok(cast(*ty, copy_boxed(alloc, value)?, *span)),
        Expr::Select {
            cond,
            yes,
            no,
            span,
        } => Ok(Expr::Select {
            cond: copy_cond(alloc, cond)?,
            yes: copy_boxed(alloc, yes)?,
            no: copy_boxed(alloc, no)?,
            span: *span,
        }),
    }
}

// The same in a box.
#[cycle(copy)]
fn copy_boxed(alloc: Global, expr: &Expr) -> Result<Box<Expr>, AllocError>
    ensures term { IfOk result (λ e. term_of e.value ≡ term_of expr.now) }
    ensures spans { IfOk result (λ e. spans_of e.value ≡ spans_of expr.now) }
{
    let copied = copy(alloc, expr)?;
    Ok(Box::new(alloc, copied)?)
}

// Each of the expressions.
#[cycle(copy)]
fn copy_all(alloc: Global, at: &[Expr]) -> Result<Vec<Expr>, AllocError>
    ensures terms { IfOk result (λ v. list_terms v.items ≡ list_terms at.now) }
    ensures spans { IfOk result (λ v. list_spans v.items ≡ list_spans at.now) }
{
    let mut copied = Vec::new(alloc);
    for expr in at {
        copied.push(copy(alloc, expr)?)?;
    }
    Ok(copied)
}

// The same of a condition.
#[cycle(copy)]
fn copy_cond(alloc: Global, cond: &Cond) -> Result<Box<Cond>, AllocError>
    ensures test { IfOk result (λ c. test_of c.value ≡ test_of cond.now) }
    ensures spans { IfOk result (λ c. spans_of_test c.value ≡ spans_of_test cond.now) }
{
    let copied = match cond {
        Cond::Compare {
            by,
            left,
            right,
            span,
        } => Cond::Compare {
            by: *by,
            left: copy(alloc, left)?,
            right: copy(alloc, right)?,
            span: *span,
        },
        Cond::Not { cond, span } => Cond::Not {
            cond: copy_cond(alloc, cond)?,
            span: *span,
        },
        Cond::All {
            first,
            second,
            span,
        } => Cond::All {
            first: copy_cond(alloc, first)?,
            second: copy_cond(alloc, second)?,
            span: *span,
        },
        Cond::Any {
            first,
            second,
            span,
        } => Cond::Any {
            first: copy_cond(alloc, first)?,
            second: copy_cond(alloc, second)?,
            span: *span,
        },
    };
    Ok(Box::new(alloc, copied)?)
}

// A literal.
fn literal(ty: Ty, number: i64, span: Span) -> Expr
    ensures term { term_of result ≡ Number ty number }
    ensures spans { spans_of result ≡ span ∷ [] }
{
    Expr::Literal { ty, number, span }
}

// A negation.
fn negate(value: Box<Expr>, span: Span) -> Expr
    ensures term { term_of result ≡ Minus (term_of value.value) }
    ensures spans { spans_of result ≡ span ∷ spans_of value.value }
{
    Expr::Negate { value, span }
}

// An operator on two expressions.
fn binary(op: Op, left: Box<Expr>, right: Box<Expr>, span: Span) -> Expr
    ensures term { term_of result ≡ Binary op (term_of left.value) (term_of right.value) }
    ensures spans { spans_of result ≡ span ∷ (spans_of left.value ++ spans_of right.value) }
{
    Expr::Binary {
        op,
        left,
        right,
        span,
    }
}

// A clamp.
fn clamp(value: Box<Expr>, low: Box<Expr>, high: Box<Expr>, span: Span) -> Expr
    ensures term { term_of result ≡ Clamp (term_of value.value) (term_of low.value) (term_of high.value) }
    ensures spans { spans_of result ≡ span ∷ (spans_of value.value ++ spans_of low.value ++ spans_of high.value) }
{
    Expr::Clamp {
        value,
        low,
        high,
        span,
    }
}

// A cast.
fn cast(ty: Ty, value: Box<Expr>, span: Span) -> Expr
    ensures term { term_of result ≡ Cast ty (term_of value.value) }
    ensures spans { spans_of result ≡ span ∷ spans_of value.value }
{
    Expr::Cast { ty, value, span }
}
