//! The first number of the lines of a plan's groups that may be too large.

ghost use Rattle.std.specs.Prelude.{◌≡◌, ◌<◌, Some, None, MatchOption, IfOk, length, slice_get};
ghost use Rattle.algo.specs.View.{algorithm_of};
ghost use Rattle.plan.specs.Lines.{body_line};
ghost use Rattle.plan.specs.Plan.{Group};
ghost use Rattle.plan.specs.View.{plan_of};
ghost use Rattle.plan.specs.Certificate.Certificate.{certificate_of};
ghost use Rattle.soundness.specs.declared.outline.refusals.code.K.TheVariants.{K14};
ghost use Rattle.soundness.specs.Binders.View.{binders_of, grid_binders};
ghost use Rattle.soundness.specs.Outline.View.{group_in, number_in, plan_in};
ghost use Rattle.rules.specs.Bounding.View.{rules_in};
ghost use Rattle.rules.specs.Widths.Widths.{first_told, wide_lines};
ghost use Rattle.audit.specs.Stand.{AreNarrow, IsFirstOf, IsFirstOfAll, IsFlaw, IsNarrow};

use algo::Algo;
use plan::Plan;
use plan::certificate::Cert;
use rules::bounding::PlanBounds;
use rules::widths::first_wide_line;
use soundness::binders::Binder;
use soundness::outline::Outlined;
use soundness::outline::refusals::{Flaw, K, least};
use std::alloc::{AllocError, Global};

/// The symbols of a grid, of which each takes so many values.
fn grid_binders<'a>(alloc: Global, counts: &[u64]) -> Result<Vec<Binder<'a>>, AllocError>
    ensures { IfOk result (λ binders. binders_of binders.items ≡ grid_binders counts.now) }
{
    let mut binders = Vec::new(alloc);
    for (symbol, count) in counts.iter().enumerate() {
        binders.push(Binder::Grid {
            symbol,
            count: *count,
        })?;
    }
    Ok(binders)
}

/// The first line of a group with a loop's symbol or a store's coordinate that is not shown to be a small number.
fn wide_line(alloc: Global, bounds: &PlanBounds<'_>) -> Result<Option<u32>, AllocError>
    ensures { IfOk result (λ found. found ≡ first_told (wide_lines (rules_in bounds.now) (grid_binders (group_in bounds.now.outlined.now).grid)
        (body_line (plan_in bounds.now.outlined.now) (number_in bounds.now.outlined.now)) (group_in bounds.now.outlined.now).body)) }
{
    let outlined = bounds.outlined;
    let binders = grid_binders(alloc, &outlined.group().grid)?;
    first_wide_line(
        alloc,
        bounds,
        &binders,
        outlined.body_line(),
        outlined.body(),
    )
}

/// The flaw at a line with a number that may be too large, if there is one.
fn wide_flaw(line: Option<u32>) -> Option<Flaw>
    ensures { MatchOption line (result ≡ None) (λ n. result ≡ Some (record { code = K14; line = n })) }
{
    match line {
        Some(line) => Some(Flaw { code: K::K14, line }),
        None => None,
    }
}

/// The bounds around the lines of a group.
fn bounds_of<'a, 'o: 'a>(algo: &'a Algo, outlined: &'a Outlined<'o>) -> PlanBounds<'a>
    ensures algo { result.algo.now ≡ algo.now }
    ensures outlined { result.outlined.now ≡ outlined.now }
{
    PlanBounds {
        algo,
        outlined: &*outlined,
    }
}

/// The flaw at the first line of a group with a number that may be too large, if there is one.
fn group_flaw(
    alloc: Global,
    algo: &Algo,
    plan: &Plan,
    cert: &Cert,
    number: usize,
) -> Result<Option<Flaw>, AllocError>
    requires { number < length plan.now.groups.items }
    ensures { (g : Group) → slice_get (plan_of plan.now).groups number ≡ Some g → IfOk result (λ flaw.
        MatchOption flaw (IsNarrow (algorithm_of algo.now) (plan_of plan.now) (certificate_of cert.now) number g) (IsFlaw (algorithm_of algo.now) (plan_of plan.now) (certificate_of cert.now))
        × IsFirstOf (algorithm_of algo.now) (plan_of plan.now) (certificate_of cert.now) number g flaw) }
{
    let outlined = Outlined::new(alloc, plan, cert, number)?;
    let bounds = bounds_of(algo, &outlined);
    let wide = wide_line(alloc, &bounds)?;
    Ok(wide_flaw(wide))
}

/// The flaw at the first line of all groups with a number that may be too large, if there is one.
pub(crate) fn first_wide(
    alloc: Global,
    algo: &Algo,
    plan: &Plan,
    cert: &Cert,
) -> Result<Option<Flaw>, AllocError>
    ensures told { IfOk result (λ flaw. MatchOption flaw (AreNarrow (algorithm_of algo.now) (plan_of plan.now) (certificate_of cert.now))
        (IsFlaw (algorithm_of algo.now) (plan_of plan.now) (certificate_of cert.now))) }
    ensures first { IfOk result (IsFirstOfAll (algorithm_of algo.now) (plan_of plan.now) (certificate_of cert.now)) }
{
    let count = plan.groups.len();
    let mut found = None;
    for number in 0..count {
        let flaw = group_flaw(alloc, algo, plan, cert, number)?;
        found = least(found, flaw);
    }
    Ok(found)
}
