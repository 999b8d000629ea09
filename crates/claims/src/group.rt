//! The first that the lines of one group owe and that is not shown.

ghost use Rattle.std.specs.Prelude.{◌≡◌, ◌<◌, ◌-◌, ◌^◌, min, Some, MatchOption, IfOk, length, slice_get};
ghost use Rattle.algo.specs.View.{algorithm_of};
ghost use Rattle.plan.specs.Lines.{certificate_line};
ghost use Rattle.plan.specs.Plan.{Group};
ghost use Rattle.plan.specs.View.{plan_of};
ghost use Rattle.plan.specs.Certificate.Certificate.{certificate_of};
ghost use Rattle.soundness.specs.Nests.Laws.{domains_of};
ghost use Rattle.soundness.specs.Outline.View.{outline_in};
ghost use Rattle.rules.specs.Bounding.View.{rules_in};
ghost use Rattle.tails.specs.Nests.{split_nests};
ghost use Rattle.claims.specs.First.{IsFirstIn, IsFirstInGroup, IsUnmetInGroup, unmet_in};

use crate::group_bounds::GroupBounds;
use algo::Algo;
use obligations::{Part, first_unmet};
use plan::Plan;
use plan::certificate::Cert;
use rules::nests::PlainNests;
use soundness::binders::NestTests;
use soundness::outline::Outlined;
use soundness::outline::refusals::{Flaw, K};
use std::alloc::{AllocError, Global};
use tails::nests::SplitNests;
use tails::windows::nests::SlidNests;

/// What is asked after: an algorithm, and a plan with its certificate, whose line `cert` is given. Lines past the greatest `u32` count
/// as that.
#[derive(Clone, Copy, Drop)]
pub(crate) struct Asked<'a> {
    pub alloc: Global,
    pub algo: &'a Algo,
    pub plan: &'a Plan,
    pub cert: &'a Cert,
    pub line: u32,
    pub ghost line_is: { line ≡ min (certificate_line (plan_of plan.now)) (2 ^ 32 - 1) },
}

/// The first of a group's obligations, in the order of its statements, that is asked after and not shown, by these tests of
/// plain nests and of split ones, and by those of windows.
fn unmet_with<'a, N: NestTests>(
    alloc: Global,
    bounds: &'a GroupBounds<'_>,
    others: &'a N,
    part: Part,
) -> Result<Option<Flaw>, AllocError>
    requires { N.nests others.now ≡ split_nests (outline_in bounds.now.bounds.outlined.now) (rules_in bounds.now.bounds) (domains_of (algorithm_of bounds.now.bounds.algo.now)) }
    ensures { IfOk result (λ flaw. flaw ≡ unmet_in bounds.now.bounds part) }
{
    let nests = SlidNests {
        outlined: bounds.bounds.outlined,
        bounds,
        others,
    };
    first_unmet(alloc, bounds.bounds.outlined, bounds, &nests, part)
}

/// The first of a group's obligations, in the order of its statements, that is asked after and not shown.
fn unmet_part(
    alloc: Global,
    bounds: &GroupBounds<'_>,
    part: Part,
) -> Result<Option<Flaw>, AllocError>
    ensures { IfOk result (λ flaw. flaw ≡ unmet_in bounds.now.bounds part) }
{
    let plain = PlainNests {
        outlined: bounds.bounds.outlined,
        algo: bounds.bounds.algo,
        bounds,
    };
    let nests = SplitNests {
        outlined: bounds.bounds.outlined,
        algo: bounds.bounds.algo,
        bounds,
        others: &plain,
    };
    unmet_with(alloc, bounds, &nests, part)
}

/// One of a group's flaws that is not told after this one: by halves, one at the first line that has any.
fn at_first_line(alloc: Global, bounds: &GroupBounds<'_>, flaw: Flaw) -> Result<Flaw, AllocError>
    requires { IsUnmetInGroup bounds.now.bounds flaw }
    ensures { IfOk result (IsUnmetInGroup bounds.now.bounds) }
{
    let mut found = flaw;
    let mut low: u32 = 0;
    while low < found.line {
        let middle = low + (found.line - low).div_ceil(2);
        let line = Flaw {
            code: K::K1,
            line: middle,
        };
        match unmet_part(alloc, bounds, Part::Before(line))? {
            Some(earlier) => found = earlier,
            None => low = middle,
        }
    }
    Ok(found)
}

/// The first of a group's flaws, if this is one of them: one that is told before it takes its place, while there is one.
fn down_to_first(alloc: Global, bounds: &GroupBounds<'_>, flaw: Flaw) -> Result<Flaw, AllocError>
    requires { IsUnmetInGroup bounds.now.bounds flaw }
    ensures { IfOk result (IsFirstInGroup bounds.now.bounds) }
{
    let mut found = flaw;
    loop {
        match unmet_part(alloc, bounds, Part::Before(found))? {
            Some(earlier) => found = earlier,
            None => return Ok(found),
        }
    }
}

/// The first of a group's flaws, where this is one of them.
fn first_of_group(alloc: Global, bounds: &GroupBounds<'_>, flaw: Flaw) -> Result<Flaw, AllocError>
    requires { IsUnmetInGroup bounds.now.bounds flaw }
    ensures { IfOk result (IsFirstInGroup bounds.now.bounds) }
{
    match unmet_part(alloc, bounds, Part::Before(flaw))? {
        None => Ok(flaw),
        Some(earlier) => {
            let near = at_first_line(alloc, bounds, earlier)?;
            down_to_first(alloc, bounds, near)
        }
    }
}

/// The first of all flaws of a group, if this part of its obligations has one.
pub(crate) fn first_with(
    asked: Asked<'_>,
    number: usize,
    part: Part,
) -> Result<Option<Flaw>, AllocError>
    requires { number < length asked.plan.now.groups.items }
    ensures { (g : Group) → slice_get (plan_of asked.entry.plan.now).groups number ≡ Some g → IfOk result (IsFirstIn (algorithm_of asked.entry.algo.now) (plan_of asked.entry.plan.now) (certificate_of asked.entry.cert.now) number g part) }
{
    let outlined = Outlined::new(asked.alloc, asked.plan, asked.cert, number)?;
    let bounds = GroupBounds::of(asked.alloc, asked.algo, &outlined, asked.line)?;
    let unmet = unmet_part(asked.alloc, &bounds, part)?;
    let Some(flaw) = unmet else {
        return Ok(None);
    };
    let first = first_of_group(asked.alloc, &bounds, flaw)?;
    Ok(Some(first))
}
