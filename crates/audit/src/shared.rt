//! The shares of a plan's pieces, where the output's group has each point of the output.

ghost use Rattle.std.specs.Prelude.{◌≡◌, ℕ, [], List, IfOk, IfErr, MatchOption, Some, length};
ghost use Rattle.algo.specs.View.{algorithm_of};
ghost use Rattle.plan.specs.View.{plan_of};
ghost use Rattle.plan.specs.Certificate.Cells.{cells};
ghost use Rattle.plan.specs.Certificate.Certificate.{certificate_of};
ghost use Rattle.validation.specs.Groups.Lines.{flaws_of_groups};
ghost use Rattle.validation.specs.Certificate.Certificate.{flaws_of_regions};
ghost use Rattle.shares.specs.Before.{OwnLinesStand};
ghost use Rattle.shares.specs.Early.{FetchLinesStand};
ghost use Rattle.shares.specs.Has.{HasShares};
ghost use Rattle.soundness.specs.Outline.Flaws.{first_of, told};
ghost use Rattle.audit.specs.Verdict.Shown.Wide.{HasOutput};
ghost use Rattle.checked_plan.specs.Lists.{ListsAreOf};
ghost use Rattle.audit.specs.Refused.{AreOfPieces, IsEarlyFetch, IsLacking, IsOfPieces};
ghost use Rattle.audit.specs.Stand.{IsGroupOf};

use crate::output::{has_extents, output_extents, own_line};
use crate::verdict::clear::{
    fetches_are_read, groups_are_apart, plans_are_drawn, plans_are_shared, regions_are_small,
};
use algo::Algo;
use plan::Plan;
use plan::certificate::Cert;
use shares::{Shares, SharesError, fetch_flaw_before, flaw_before, shares_of};
use soundness::outline::refusals::{Flaw, K, least, lesser};
use std::alloc::{AllocError, Global};
use validation::certificate::laws::no_region_flaw_is_shared;

/// The flaw of the group of this number, which is the output's, if it lacks a point of the output.
fn output_flaw(algo: &Algo, plan: &Plan, cert: &Cert, number: usize) -> Option<Flaw>
    requires named { flaws_of_groups (algorithm_of algo.now) (plan_of plan.now) (certificate_of cert.now) ≡ [] }
    requires number { IsGroupOf (plan_of plan.now).groups (algorithm_of algo.now).output number }
    ensures { MatchOption result (HasOutput (algorithm_of algo.now) (plan_of plan.now)) (IsLacking (algorithm_of algo.now) (plan_of plan.now) (certificate_of cert.now)) }
{
    regions_are_small();
    groups_are_apart();
    let group = &plan.groups[number];
    if has_extents(group.region.as_slice(), output_extents(algo)) {
        return None;
    }
    Some(Flaw {
        code: K::K10,
        line: own_line(plan, cert, number),
    })
}

/// What is wrong at fetch lines, at own lines before a broken line of own and needed regions, and with the group of this number,
/// which is the output's, if anything is: the first of own lines and of that, or a fetch line.
pub(crate) fn flaw_before_broken(
    alloc: Global,
    algo: &Algo,
    plan: &Plan,
    cert: &Cert,
    number: usize,
    broken: Flaw,
) -> Result<Option<Flaw>, AllocError>
    requires named { flaws_of_groups (algorithm_of algo.now) (plan_of plan.now) (certificate_of cert.now) ≡ [] }
    requires broken { told (Some broken) ≡ first_of (flaws_of_regions (plan_of plan.now) (certificate_of cert.now)) }
    requires number { IsGroupOf (plan_of plan.now).groups (algorithm_of algo.now).output number }
    ensures { IfOk result (λ found. MatchOption found
        (OwnLinesStand (plan_of plan.now) (certificate_of cert.now) broken.line × HasOutput (algorithm_of algo.now) (plan_of plan.now))
        (IsOfPieces (algorithm_of algo.now) (plan_of plan.now) (certificate_of cert.now))) }
{
    plans_are_drawn();
    let lacking = output_flaw(algo, plan, cert, number);
    let found = flaw_before(alloc, plan, cert, broken.line)?;
    Ok(least(found, lacking))
}

/// What is wrong at fetch lines before the first broken line of a group, if anything is.
pub(crate) fn fetch_flaw_before_broken(
    alloc: Global,
    algo: &Algo,
    plan: &Plan,
    cert: &Cert,
    broken: Flaw,
) -> Result<Option<Flaw>, AllocError>
    requires { told (Some broken) ≡ first_of (flaws_of_groups (algorithm_of algo.now) (plan_of plan.now) (certificate_of cert.now)) }
    ensures { IfOk result (λ found. MatchOption found (FetchLinesStand (plan_of plan.now) broken.line) (IsEarlyFetch (plan_of plan.now) broken.line)) }
{
    fetches_are_read();
    let found = fetch_flaw_before(alloc, plan, broken.line)?;
    match found {
        None => Ok(None),
        Some(line) => Ok(Some(Flaw { code: K::K14, line })),
    }
}

/// The shares of the pieces of a plan of which no line of a group and no line of own and needed regions has a flaw, where each
/// point of the output has a cell: the group of this number is the output's.
pub(crate) fn shares_with_output(
    alloc: Global,
    algo: &Algo,
    plan: &Plan,
    cert: &Cert,
    number: usize,
) -> Result<Shares, SharesError>
    requires named { flaws_of_groups (algorithm_of algo.now) (plan_of plan.now) (certificate_of cert.now) ≡ [] }
    requires regions { flaws_of_regions (plan_of plan.now) (certificate_of cert.now) ≡ [] }
    requires number { IsGroupOf (plan_of plan.now).groups (algorithm_of algo.now).output number }
    ensures shares { IfOk result (λ _. HasShares (plan_of plan.now) (certificate_of cert.now)) }
    ensures output { IfOk result (λ _. HasOutput (algorithm_of algo.now) (plan_of plan.now)) }
    ensures lists { IfOk result (λ made. ListsAreOf (algorithm_of algo.now) (plan_of plan.now) (certificate_of cert.now) made.pieces.items) }
    ensures counted { IfOk result (λ made. made.cells ≡ length (cells (plan_of plan.now))) }
    ensures told { IfErr result (AreOfPieces (algorithm_of algo.now) (plan_of plan.now) (certificate_of cert.now)) }
{
    no_region_flaw_is_shared();
    plans_are_shared();
    let lacking = output_flaw(algo, plan, cert, number);
    match shares_of(alloc, plan, cert) {
        Ok(shares) => match lacking {
            None => Ok(shares),
            Some(flaw) => Err(SharesError::Flaw(flaw)),
        },
        Err(SharesError::Memory) => Err(SharesError::Memory),
        Err(SharesError::Flaw(flaw)) => match lacking {
            None => Err(SharesError::Flaw(flaw)),
            Some(other) => Err(SharesError::Flaw(lesser(flaw, other))),
        },
    }
}
