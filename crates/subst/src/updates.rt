//! Whether calls come to functions that have updates and are not stored.

ghost use Rattle.std.specs.Prelude.{◌≡◌};
ghost use Rattle.tree.specs.Term.{term_of, test_of, list_terms, indices};
ghost use Rattle.meaning.specs.Inlining.PutIn.{calls_some, test_calls_some, all_call_some};
ghost use Rattle.subst.specs.Table.{marked, AreBodies};

use crate::bodies::{Body, body_of_name};
use tree::{Cond, Expr};

/// Whether a call in the expression comes to a function that has updates and is not stored.
#[cycle(updates)]
pub fn calls_updates(bodies: &[Body<'_>], expr: &Expr) -> bool
    requires { AreBodies bodies.now }
    ensures { result ≡ calls_some (marked bodies.now) (term_of expr.now) }
{
    match expr {
        Expr::Literal { .. } | Expr::Variable { .. } => false,
        Expr::Call { name, at, .. } => comes_to_updates(bodies, name)
            || any_calls_updates(bodies, at),
        Expr::Negate { value, .. } | Expr::Cast { value, .. } => calls_updates(bodies, value),
        Expr::Binary { left, right, .. } => calls_updates(bodies, left)
            || calls_updates(bodies, right),
        Expr::Clamp {
            value,
            low,
            high,
            ..
        } => {
            calls_updates(bodies, value)
                || calls_updates(bodies, low)
                || calls_updates(bodies, high)
        }
        Expr::Select { cond, yes, no, .. } => {
            cond_calls_updates(bodies, cond)
                || calls_updates(bodies, yes)
                || calls_updates(bodies, no)
        }
    }
}

// The same of a condition.
#[cycle(updates)]
fn cond_calls_updates(bodies: &[Body<'_>], cond: &Cond) -> bool
    requires { AreBodies bodies.now }
    ensures { result ≡ test_calls_some (marked bodies.now) (test_of cond.now) }
{
    match cond {
        Cond::Compare { left, right, .. } => calls_updates(bodies, left)
            || calls_updates(bodies, right),
        Cond::Not { cond, .. } => cond_calls_updates(bodies, cond),
        Cond::All { first, second, .. } | Cond::Any { first, second, .. } => {
            cond_calls_updates(bodies, first) || cond_calls_updates(bodies, second)
        }
    }
}

// The same of several expressions.
#[cycle(updates)]
fn any_calls_updates(bodies: &[Body<'_>], at: &[Expr]) -> bool
    requires { AreBodies bodies.now }
    ensures { result ≡ all_call_some (marked bodies.now) (indices (list_terms at.now)) }
{
    for index in at {
        if calls_updates(bodies, index) {
            return true;
        }
    }
    false
}

// The same of a call by the name.
fn comes_to_updates(bodies: &[Body<'_>], name: &str) -> bool
    requires { AreBodies bodies.now }
    ensures { result ≡ marked bodies.now name.now }
{
    match body_of_name(bodies, name) {
        Some(body) => body.updates,
        None => false,
    }
}
