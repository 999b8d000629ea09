//! Bounds around the lines of a group, and the other facts by which its lines are decided.

ghost use Rattle.std.specs.Prelude.{◌≡◌, ◌-◌, ◌^◌, min, IfOk, map, MatchOption, None, Some};
ghost use Rattle.algo.specs.Parts.{functions_of};
ghost use Rattle.algo.specs.View.{algorithm_of};
ghost use Rattle.plan.specs.Lines.{certificate_line};
ghost use Rattle.plan.specs.Certificate.Cells.{own_region};
ghost use Rattle.soundness.specs.Given.{function_named};
ghost use Rattle.soundness.specs.Obligations.{first_window};
ghost use Rattle.soundness.specs.Binders.View.{grid_span};
ghost use Rattle.soundness.specs.Outline.View.{certificate_in, number_in, plan_in};
ghost use Rattle.rules.specs.Bounding.Called.{update_count};
ghost use Rattle.rules.specs.Bounding.Rules.{or_nowhere};
ghost use Rattle.rules.specs.Bounding.View.{rules_in};

use algo::{Algo, Function};
use indexmap::IndexMap;
use lin::{Forms, Lin, Region, Span1};
use obligations::context::Facts;
use plan::Places;
use plan::certificate::{Own, Window};
use rules::bounding::{Kept, PlanBounds};
use soundness::binders::{Binder, Bounds};
use soundness::outline::Outlined;
use std::alloc::{AllocError, Global};
use std::cell::RefCell;
use tree::Expr;

/// The bounds that decide around the lines of a group, with the input's extents as spans and the region that the group's
/// pieces own. What lines ask again in one scope is answered by what is kept of it.
#[derive(Drop)]
pub(crate) struct GroupBounds<'a> {
    pub bounds: PlanBounds<'a>,
    /// What was answered in the scope that was asked in last.
    pub kept: RefCell<Kept>,
    pub extents: Vec<Span1>,
    pub own: &'a [Span1],
    /// The line `cert`.
    pub line: u32,
    pub ghost extents_are: { ∥ extents.items ≡ map grid_span (algorithm_of bounds.algo.now).input_extents ∥₁ },
    pub ghost own_is: { ∥ own.now ≡ or_nowhere (own_region (certificate_in bounds.outlined.now).own (number_in bounds.outlined.now)) ∥₁ },
    pub ghost line_is: { line ≡ min (certificate_line (plan_in bounds.outlined.now)) (2 ^ 32 - 1) },
}

/// The span from 0 to one less than an extent.
fn extent_span(alloc: Global, extent: u32) -> Result<Span1, AllocError>
    ensures { IfOk result (λ span. span ≡ grid_span extent) }
{
    let mut lower = Forms::new(alloc);
    lower.push(Lin::number(alloc, 0))?;
    let mut upper = Forms::new(alloc);
    upper.push(Lin::number(alloc, i64::from(extent) - 1))?;
    Ok(Span1 { lower, upper })
}

/// The spans from 0 to one less than each extent.
fn extent_spans(alloc: Global, extents: &[u32]) -> Result<Vec<Span1>, AllocError>
    ensures { IfOk result (λ spans. spans.items ≡ map grid_span extents.now) }
{
    let mut spans = Vec::new(alloc);
    for extent in extents {
        spans.push(extent_span(alloc, *extent)?)?;
    }
    Ok(spans)
}

/// The region that the pieces of a group own, if one of these lines says it.
fn own_region(all: &[Own], group: u64) -> Option<&Region>
    ensures { MatchOption result (own_region all.now group ≡ None) (λ r. own_region all.now group ≡ Some r.now) }
{
    for own in all {
        if own.group == group {
            return Some(&own.region);
        }
    }
    None
}

/// The spans of the region that the pieces of a group own, none where no line says it.
fn own_spans(all: &[Own], group: u64) -> &[Span1]
    ensures { result.now ≡ or_nowhere (own_region all.now group) }
{
    match own_region(all, group) {
        Some(region) => region.as_slice(),
        None => &[],
    }
}

/// How many updates the function of a name has, 0 where there is none of that name.
fn update_count(functions: &IndexMap<String, Function>, name: &str) -> u64
    ensures { result ≡ update_count (function_named (functions_of functions.now.entries) name.now) }
{
    match functions.get(name) {
        Some(function) => function.updates.len() as u64,
        None => 0,
    }
}

/// The place of the first window of a claim; how many there are, where none is of it.
fn first_window(windows: &[Window], claim: u64) -> usize
    ensures { result ≡ first_window windows.now claim }
{
    for (number, window) in windows.iter().enumerate() {
        if window.claim == claim {
            return number;
        }
    }
    windows.len()
}

impl<'a> GroupBounds<'a> {
    /// The bounds around the lines of a group of a plan whose line `cert` is this one.
    pub(crate) fn of<'o: 'a>(
        alloc: Global,
        algo: &'a Algo,
        outlined: &'a Outlined<'o>,
        line: u32,
    ) -> Result<GroupBounds<'a>, AllocError>
        requires { line ≡ min (certificate_line (plan_in outlined.now)) (2 ^ 32 - 1) }
        ensures algo { IfOk result (λ x. x.bounds.algo.now ≡ algo.now) }
        ensures outlined { IfOk result (λ x. x.bounds.outlined.now ≡ outlined.now) }
    {
        let extents = extent_spans(alloc, algo.input().shape.extents.as_slice())?;
        Ok(GroupBounds {
            bounds: PlanBounds {
                algo,
                outlined: &*outlined,
            },
            kept: RefCell::new(Kept::new(alloc)),
            extents,
            own: own_spans(&outlined.cert().own, outlined.number() as u64),
            line,
        })
    }
}

impl Bounds for GroupBounds<'_> {
    ghost rules = { λ x. rules_in x.bounds };

    fn is_within(
        &self,
        alloc: Global,
        binders: &[Binder<'_>],
        inner: &Span1,
        outer: &Span1,
    ) -> Result<bool, AllocError> {
        match self.kept.try_borrow_mut() {
            Ok(mut kept) => self
                .bounds
                .is_within_kept(alloc, &mut *kept, binders, inner, outer),
            Err(_) => self.bounds.is_within(alloc, binders, inner, outer),
        }
    }

    fn is_seated(
        &self,
        alloc: Global,
        binders: &[Binder<'_>],
        span: &Span1,
        places: &Places,
    ) -> Result<bool, AllocError> {
        match self.kept.try_borrow_mut() {
            Ok(mut kept) => self
                .bounds
                .is_seated_kept(alloc, &mut *kept, binders, span, places),
            Err(_) => self.bounds.is_seated(alloc, binders, span, places),
        }
    }

    fn interval(
        &self,
        alloc: Global,
        binders: &[Binder<'_>],
        names: &[&str],
        vars: &Region,
        expr: &Expr,
    ) -> Result<Span1, AllocError> {
        match self.kept.try_borrow_mut() {
            Ok(mut kept) => self
                .bounds
                .interval_kept(alloc, &mut *kept, binders, names, vars, expr),
            Err(_) => self.bounds.interval(alloc, binders, names, vars, expr),
        }
    }
}

impl Facts for GroupBounds<'_> {
    fn extents(&self) -> &[Span1] {
        &self.extents
    }

    fn own(&self) -> &[Span1] {
        self.own
    }

    fn is_last(&self, function: &str, definition: u64) -> bool {
        definition == update_count(self.bounds.algo.funcs(), function)
    }

    fn claim_line(&self, claim: u64) -> u32 {
        let cert = self.bounds.outlined.cert();
        cert.claim_line(self.line, claim as usize)
    }

    fn window_line(&self, claim: u64) -> u32 {
        let cert = self.bounds.outlined.cert();
        cert.window_line(self.line, first_window(&cert.windows, claim))
    }
}
