//! The tests that decide what is asked around a line, for all values of the symbols bound there.

ghost use Rattle.std.specs.Prelude.{◌≡◌, IfOk, map};
ghost use Rattle.soundness.specs.Obligations.{Rules};
ghost use Rattle.soundness.specs.Shown.{is_within, is_seated, Nests};
ghost use Rattle.plan.specs.View.{statement_of};
ghost use Rattle.tree.specs.Term.{term_of};
ghost use Rattle.soundness.specs.Binders.View.{binders_of};

use crate::binders::binder::Binder;
use lin::{Region, Span1};
use plan::certificate::Window;
use plan::{Places, Stmt};
use std::alloc::{AllocError, Global};
use tree::Expr;

/// Bounds of forms and of expressions. The binders are given from the outermost on.
pub trait Bounds {
    /// The rules that decide.
    ghost rules: { Self → Rules };

    /// Whether a span is shown to lie in another.
    fn is_within(
        &self,
        alloc: Global,
        binders: &[Binder<'_>],
        inner: &Span1,
        outer: &Span1,
    ) -> Result<bool, AllocError>
        ensures { IfOk result (λ yes. yes ≡ is_within (rules self.now) (binders_of binders.now) inner.now outer.now) };

    /// Whether each number of a span is shown to have a place.
    fn is_seated(
        &self,
        alloc: Global,
        binders: &[Binder<'_>],
        span: &Span1,
        places: &Places,
    ) -> Result<bool, AllocError>
        ensures { IfOk result (λ yes. yes ≡ is_seated (rules self.now) (binders_of binders.now) span.now places.now) };

    /// What an expression stays within where its variables, of these names, have these spans.
    fn interval(
        &self,
        alloc: Global,
        binders: &[Binder<'_>],
        names: &[&str],
        vars: &Region,
        expr: &Expr,
    ) -> Result<Span1, AllocError>
        ensures { IfOk result (λ span. span ≡ (rules self.now).interval (binders_of binders.now) (map (λ x. x.now) names.now) vars.now (term_of expr.now)) };
}

/// Tests of statements that make claims.
pub trait NestTests {
    /// The tests that decide.
    ghost nests: { Self → Nests };

    /// Whether the statement is shown to make the claim's definition at each point of its region, from nothing or from the
    /// definition before.
    fn is_made(
        &self,
        alloc: Global,
        binders: &[Binder<'_>],
        claim: u64,
        from: Option<u64>,
        places: &[Places],
        by: &Stmt,
    ) -> Result<bool, AllocError>
        ensures { IfOk result (λ yes. yes ≡ (nests self.now).is_made (binders_of binders.now) claim from places.now (statement_of by.now)) };

    /// Whether the statement is shown to do the steps of the claim's definition in their order.
    fn is_in_turn(
        &self,
        alloc: Global,
        binders: &[Binder<'_>],
        claim: u64,
        by: &Stmt,
    ) -> Result<bool, AllocError>
        ensures { IfOk result (λ yes. yes ≡ (nests self.now).is_in_turn (binders_of binders.now) claim (statement_of by.now)) };

    /// Whether the statement is shown to make the claim along the window: all of its region in the first
    /// turn of the window's loop, in each later one all that the turn before did not need.
    fn is_slid(
        &self,
        alloc: Global,
        binders: &[Binder<'_>],
        window: &Window,
        claim: u64,
        places: &[Places],
        by: &Stmt,
    ) -> Result<bool, AllocError>
        ensures { IfOk result (λ yes. yes ≡ (nests self.now).is_slid (binders_of binders.now) window.now claim places.now (statement_of by.now)) };

    /// Whether the places of the window's buffer are shown to hold what the statement makes so, at each
    /// turn of the window's loop.
    fn is_held(
        &self,
        alloc: Global,
        binders: &[Binder<'_>],
        window: &Window,
        claim: u64,
        places: &[Places],
        by: &Stmt,
    ) -> Result<bool, AllocError>
        ensures { IfOk result (λ yes. yes ≡ (nests self.now).is_held (binders_of binders.now) window.now claim places.now (statement_of by.now)) };
}
