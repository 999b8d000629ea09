//! How many indices the calls of an expression have.

ghost use Rattle.std.specs.Prelude.{◌≡◌, ◌+◌, IfSome};
ghost use Rattle.tree.specs.Term.{term_of, test_of, indices, list_terms};
ghost use Rattle.interpreter.specs.Evaluation.Indices.{indices_in, indices_in_all, indices_in_test};

use tree::{Cond, Expr};

/// A number, and one more for each index of the calls in an expression, if that is a `usize`.
#[cycle(indices_after)]
pub fn indices_after(expr: &Expr, before: usize) -> Option<usize>
    ensures { IfSome result (λ n. n ≡ before + indices_in (term_of expr.now)) }
{
    match expr {
        Expr::Literal { .. } | Expr::Variable { .. } => Some(before),
        Expr::Call { at, .. } => indices_after_all(at, before),
        Expr::Negate { value, .. } | Expr::Cast { value, .. } => indices_after(value, before),
        Expr::Binary { left, right, .. } => indices_after(right, indices_after(left, before)?),
        Expr::Clamp {
            value,
            low,
            high,
            ..
        } => {
            let before = indices_after(value, before)?;
            indices_after(high, indices_after(low, before)?)
        }
        Expr::Select { cond, yes, no, .. } => {
            let before = indices_after_test(cond, before)?;
            indices_after(no, indices_after(yes, before)?)
        }
    }
}

// The same of a condition.
#[cycle(indices_after)]
fn indices_after_test(cond: &Cond, before: usize) -> Option<usize>
    ensures { IfSome result (λ n. n ≡ before + indices_in_test (test_of cond.now)) }
{
    match cond {
        Cond::Compare { left, right, .. } => indices_after(right, indices_after(left, before)?),
        Cond::Not { cond, .. } => indices_after_test(cond, before),
        Cond::All { first, second, .. } | Cond::Any { first, second, .. } => {
            indices_after_test(second, indices_after_test(first, before)?)
        }
    }
}

// The same of the indices of a call.
#[cycle(indices_after)]
fn indices_after_all(all: &[Expr], before: usize) -> Option<usize>
    ensures { IfSome result (λ n. n ≡ before + indices_in_all (indices (list_terms all.now))) }
{
    let mut count = before;
    for expr in all {
        count = indices_after(expr, count)?.checked_add(1)?;
    }
    Some(count)
}
