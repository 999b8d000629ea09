//! The first variable of an expression that a test refuses.

ghost use Rattle.std.specs.Prelude.{◌≡◌, ℕ, List, Bool, IsTrue, IsNone, IfSome, All, ◌↔◌};
ghost use Rattle.tree.specs.Term.{term_of};
ghost use Rattle.tree.specs.Uses.{variables_of};
ghost use Rattle.algo.specs.Scoping.Standing.{refused_variable, RefusedVariableAt, first_refused, placed_variables, placed_variables_of_test, list_variables};
ghost use Rattle.std.specs.Option.{option_map};

use tree::token::Span;
use tree::{Cond, Expr};

/// A test of the names of variables.
pub trait VariableTest {
    /// Whether a variable of this name passes.
    ghost accepted: { Self → List ℕ → Bool };

    /// Whether a variable of this name passes.
    fn accepts(&self, name: &str) -> bool
        ensures { result ≡ accepted self.now name.now };
}

/// The place of the first variable, in the text's order, that the test refuses.
pub fn first_variable<T: VariableTest>(expr: &Expr, test: &T) -> Option<Span>
    ensures first { result ≡ refused_variable (T.accepted test.now) expr.now }
    ensures none { IsNone result ↔ All (λ name. IsTrue (T.accepted test.now name)) (variables_of (term_of expr.now)) }
    ensures some { IfSome result (RefusedVariableAt (T.accepted test.now) expr.now) }
{
    in_expr(expr, test)
}

// The same, by recursion.
#[cycle(variables)]
#[tactic(auto, using(crate::proofs::Standing::refused_in_two, crate::proofs::Standing::refused_in_three))]
fn in_expr<T: VariableTest>(expr: &Expr, test: &T) -> Option<Span>
    ensures { result ≡ refused_variable (T.accepted test.now) expr.now }
{
    match expr {
        Expr::Literal { .. } => None,
        Expr::Variable { name, span } => {
            if test.accepts(name.as_str()) {
                None
            } else {
                Some(*span)
            }
        }
        Expr::Call { at, .. } => in_all(at, test),
        Expr::Negate { value, .. } | Expr::Cast { value, .. } => in_expr(value, test),
        Expr::Binary { left, right, .. } => in_expr(left, test).or(in_expr(right, test)),
        Expr::Clamp {
            value,
            low,
            high,
            ..
        } => in_expr(value, test)
            .or(in_expr(low, test))
            .or(in_expr(high, test)),
        Expr::Select { cond, yes, no, .. } => in_cond(cond, test)
            .or(in_expr(yes, test))
            .or(in_expr(no, test)),
    }
}

// The same of a condition.
#[cycle(variables)]
#[tactic(auto, using(crate::proofs::Standing::refused_in_two))]
fn in_cond<T: VariableTest>(cond: &Cond, test: &T) -> Option<Span>
    ensures { result ≡ option_map (λ p. p.1) (first_refused (T.accepted test.now) (placed_variables_of_test cond.now)) }
{
    match cond {
        Cond::Compare { left, right, .. } => in_expr(left, test).or(in_expr(right, test)),
        Cond::Not { cond, .. } => in_cond(cond, test),
        Cond::All { first, second, .. } | Cond::Any { first, second, .. } => {
            in_cond(first, test).or(in_cond(second, test))
        }
    }
}

// The same of several expressions.
#[cycle(variables)]
#[tactic(auto, using(crate::proofs::Standing::refused_in_two))]
fn in_all<T: VariableTest>(at: &[Expr], test: &T) -> Option<Span>
    ensures { result ≡ option_map (λ p. p.1) (first_refused (T.accepted test.now) (list_variables at.now)) }
{
    for index in at {
        let found = in_expr(index, test);
        if found.is_some() {
            return found;
        }
    }
    None
}
