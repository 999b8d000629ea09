//! Bounds around the lines of a group of a plan.

ghost use Rattle.std.specs.Prelude.{◌≡◌, IfOk, OnOk, map};
ghost use Rattle.tree.specs.Term.{term_of};
ghost use Rattle.algo.specs.View.{algorithm_of};
ghost use Rattle.soundness.specs.Shown.{is_within, is_seated as is_seated_by};
ghost use Rattle.soundness.specs.Binders.View.{binders_of};
ghost use Rattle.soundness.specs.Outline.View.{plan_in, certificate_in};
ghost use Rattle.rules.specs.Bounding.Rules.{is_bounded_in, interval_in};
ghost use Rattle.rules.specs.Bounding.View.{rules_in};

use crate::bounding::called::Called;
use crate::bounding::kept::Kept;
use crate::bounding::scope::{anything, scope_of};
use crate::bounding::seats::{are_indices, is_seated};
use algo::Algo;
use bounds::BoundsError;
use lin::{Region, Span1};
use plan::Places;
use soundness::binders::{Binder, Bounds};
use soundness::outline::Outlined;
use std::alloc::{AllocError, Global};
use tree::{Expr, ty_of};

/// The bounds that decide around the lines of a group of a plan: of forms by what the binders around a line tell of
/// their symbols, and of expressions whose loads are of the input and of claims.
#[derive(Clone, Copy, Drop)]
pub struct PlanBounds<'a> {
    /// The algorithm, whose functions the claims are of.
    pub algo: &'a Algo,
    /// The group, with its plan and certificate.
    pub outlined: &'a Outlined<'a>,
}

/// Whether each variable has a span of i32 values, and the expression has a type.
fn is_bounded(
    alloc: Global,
    kept: &mut Kept,
    called: &Called<'_>,
    vars: &Region,
    expr: &Expr,
) -> Result<bool, AllocError>
    ensures same { OnOk result (kept.new ≡ kept.old) }
    ensures shown { IfOk result (λ yes. yes ≡ is_bounded_in (algorithm_of called.now.algo.now) (plan_in called.now.outlined.now) (certificate_in called.now.outlined.now) kept.old (map (λ x. x.now) called.now.variables.now) vars.now (term_of expr.now)) }
{
    Ok(
        are_indices(alloc, kept, vars.as_slice())?
            && called.variables.len() == vars.as_slice().len()
            && ty_of(expr, called).is_ok(),
    )
}

/// What an expression stays within.
fn interval(
    alloc: Global,
    kept: &mut Kept,
    called: &Called<'_>,
    vars: &Region,
    expr: &Expr,
) -> Result<Span1, AllocError>
    ensures { IfOk result (λ span. span ≡ interval_in (algorithm_of called.now.algo.now) (plan_in called.now.outlined.now) (certificate_in called.now.outlined.now) kept.old (map (λ x. x.now) called.now.variables.now) vars.now (term_of expr.now)) }
{
    if !is_bounded(alloc, kept, called, vars, expr)? {
        return Ok(anything(alloc));
    }
    match bounds::interval(alloc, kept.scope(), expr, called, called.variables, vars) {
        Ok(span) => Ok(span),
        Err(BoundsError::Limit) => Ok(anything(alloc)),
        Err(BoundsError::Memory) => Err(AllocError),
    }
}

impl PlanBounds<'_> {
    /// Whether a span is shown to lie in another, by what was answered before where that was asked.
    pub fn is_within_kept(
        &self,
        alloc: Global,
        kept: &mut Kept,
        binders: &[Binder<'_>],
        inner: &Span1,
        outer: &Span1,
    ) -> Result<bool, AllocError>
        ensures { IfOk result (λ yes. yes ≡ is_within (rules_in self.now) (binders_of binders.now) inner.now outer.now) }
    {
        kept.turn_to(alloc, scope_of(alloc, binders)?);
        kept.is_inside(alloc, inner, outer)
    }

    /// Whether each number of a span is shown to have a place, by what was answered before where that was asked.
    pub fn is_seated_kept(
        &self,
        alloc: Global,
        kept: &mut Kept,
        binders: &[Binder<'_>],
        span: &Span1,
        places: &Places,
    ) -> Result<bool, AllocError>
        ensures { IfOk result (λ yes. yes ≡ is_seated_by (rules_in self.now) (binders_of binders.now) span.now places.now) }
    {
        kept.turn_to(alloc, scope_of(alloc, binders)?);
        is_seated(alloc, kept, span, places)
    }

    /// What an expression stays within where its variables, of these names, have these spans; that they are indices is known
    /// by what was answered before where that was asked.
    pub fn interval_kept(
        &self,
        alloc: Global,
        kept: &mut Kept,
        binders: &[Binder<'_>],
        names: &[&str],
        vars: &Region,
        expr: &Expr,
    ) -> Result<Span1, AllocError>
        ensures { IfOk result (λ span. span ≡ (rules_in self.now).interval (binders_of binders.now) (map (λ x. x.now) names.now) vars.now (term_of expr.now)) }
    {
        kept.turn_to(alloc, scope_of(alloc, binders)?);
        let called = Called {
            algo: self.algo,
            outlined: self.outlined,
            variables: names,
        };
        interval(alloc, kept, &called, vars, expr)
    }
}

impl Bounds for PlanBounds<'_> {
    ghost rules = { rules_in };

    fn is_within(
        &self,
        alloc: Global,
        binders: &[Binder<'_>],
        inner: &Span1,
        outer: &Span1,
    ) -> Result<bool, AllocError> {
        let mut kept = Kept::new(alloc);
        self.is_within_kept(alloc, &mut kept, binders, inner, outer)
    }

    fn is_seated(
        &self,
        alloc: Global,
        binders: &[Binder<'_>],
        span: &Span1,
        places: &Places,
    ) -> Result<bool, AllocError> {
        let mut kept = Kept::new(alloc);
        self.is_seated_kept(alloc, &mut kept, binders, span, places)
    }

    fn interval(
        &self,
        alloc: Global,
        binders: &[Binder<'_>],
        names: &[&str],
        vars: &Region,
        expr: &Expr,
    ) -> Result<Span1, AllocError> {
        let mut kept = Kept::new(alloc);
        self.interval_kept(alloc, &mut kept, binders, names, vars, expr)
    }
}
