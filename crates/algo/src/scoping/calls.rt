//! The first call of an expression that a test refuses.

ghost use Rattle.std.specs.Prelude.{◌≡◌, ℕ, List, [], ◌∷◌, Bool, IsTrue, IsNone, IfSome, ◌↔◌};
ghost use Rattle.std.specs.Option.{option_map};
ghost use Rattle.tree.specs.Term.{Terms, term_of, indices, list_terms};
ghost use Rattle.tree.specs.Uses.{EachCall};
ghost use Rattle.algo.specs.Scoping.Standing.{refused_call, RefusedCallAt, first_refused, accepts, placed_calls_of_test, list_calls, call_place, name_place, written};

use tree::token::Span;
use tree::{Cond, Expr};

/// The place of a call, and of its name.
#[derive(Clone, Copy, Drop)]
pub struct CallPlace {
    /// The whole call, with its indices.
    pub call: Span,
    /// The name alone, with which the call begins.
    pub name: Span,
}

/// A test of calls by their names and indices.
pub trait CallTest {
    /// Whether a call of this name at these indices passes.
    ghost accepted: { Self → List ℕ → Terms → Bool };

    /// Whether a call of this name at these indices passes.
    fn accepts(&self, name: &str, at: &[Expr]) -> bool
        ensures { result ≡ accepted self.now name.now (indices (list_terms at.now)) };
}

/// The place of the first call, in the text's order, that the test refuses. A call stands before
/// those in its indices.
pub fn first_call<T: CallTest>(expr: &Expr, test: &T) -> Option<CallPlace>
    ensures first { result ≡ refused_call (T.accepted test.now) expr.now }
    ensures none { IsNone result ↔ EachCall (λ name at. IsTrue (T.accepted test.now name at)) (term_of expr.now) }
    ensures some { IfSome result (RefusedCallAt (T.accepted test.now) expr.now) }
{
    in_expr(expr, test)
}

// The same, by recursion.
#[cycle(calls)]
#[tactic(auto, using(crate::proofs::Standing::refused_in_two, crate::proofs::Standing::refused_in_three))]
fn in_expr<T: CallTest>(expr: &Expr, test: &T) -> Option<CallPlace>
    ensures { result ≡ refused_call (T.accepted test.now) expr.now }
{
    match expr {
        Expr::Literal { .. } | Expr::Variable { .. } => None,
        Expr::Call { name, at, span } => {
            let inner = in_all(at, test);
            here(name.as_str(), at, *span, test).or(inner)
        }
        Expr::Negate { value, .. } | Expr::Cast { value, .. } => in_expr(value, test),
        Expr::Binary { left, right, .. } => in_expr(left, test).or(in_expr(right, test)),
        Expr::Clamp {
            value,
            low,
            high,
            ..
        } => in_expr(value, test)
            .or(in_expr(low, test))
            .or(in_expr(high, test)),
        Expr::Select { cond, yes, no, .. } => in_cond(cond, test)
            .or(in_expr(yes, test))
            .or(in_expr(no, test)),
    }
}

// The same of a condition.
#[cycle(calls)]
#[tactic(auto, using(crate::proofs::Standing::refused_in_two))]
fn in_cond<T: CallTest>(cond: &Cond, test: &T) -> Option<CallPlace>
    ensures { result ≡ option_map call_place (first_refused (accepts (T.accepted test.now)) (placed_calls_of_test cond.now)) }
{
    match cond {
        Cond::Compare { left, right, .. } => in_expr(left, test).or(in_expr(right, test)),
        Cond::Not { cond, .. } => in_cond(cond, test),
        Cond::All { first, second, .. } | Cond::Any { first, second, .. } => {
            in_cond(first, test).or(in_cond(second, test))
        }
    }
}

// The same of several expressions.
#[cycle(calls)]
#[tactic(auto, using(crate::proofs::Standing::refused_in_two))]
fn in_all<T: CallTest>(at: &[Expr], test: &T) -> Option<CallPlace>
    ensures { result ≡ option_map call_place (first_refused (accepts (T.accepted test.now)) (list_calls at.now)) }
{
    for index in at {
        let found = in_expr(index, test);
        if found.is_some() {
            return found;
        }
    }
    None
}

// The place of this call, where the test refuses it.
fn here<T: CallTest>(name: &str, at: &[Expr], span: Span, test: &T) -> Option<CallPlace>
    ensures { result ≡ option_map call_place (first_refused (accepts (T.accepted test.now)) ((written name.now (indices (list_terms at.now)), span) ∷ [])) }
{
    if test.accepts(name, at) {
        None
    } else {
        Some(CallPlace {
            call: span,
            name: name_place(name, span),
        })
    }
}

// The first bytes of the place, as many as the name has, and no more than the place has.
fn name_place(name: &str, span: Span) -> Span
    ensures { result ≡ name_place name.now span }
{
    Span {
        start: span.start,
        end: span.start.saturating_add(name.len()).min(span.end),
    }
}
