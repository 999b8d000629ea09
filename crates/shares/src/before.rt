//! What is wrong at fetch lines, and at own lines before a line of the certificate that is broken.

ghost use Rattle.std.specs.Prelude.{◌≡◌, ◌≤◌, ◌<◌, ◌++◌, IfOk, OnOk, MatchOption, length, map};
ghost use Rattle.plan.specs.View.{group_of, plan_of};
ghost use Rattle.plan.specs.Certificate.Certificate.{certificate_of};
ghost use Rattle.shares.specs.Before.{AreLikeBefore, IsCut, IsDrawn, LineIsTold, OwnLinesStand, StandsBefore, blank_needs, told_before, wholes};
ghost use Rattle.shares.specs.Made.{ErrorMeans, LinesStand};
ghost use Rattle.shares.specs.Shared.{AreShared, IsLike};
ghost use Rattle.shares.specs.declared.answer.SharesError.TheVariants.{Flaw as Told};

use crate::answer::{cell_count, line_flaw};
use crate::layout::layout_of;
use crate::owners::owners_of;
use lin::{Forms, Region, Span1};
use plan::certificate::{Cert, Need, Own};
use plan::{Group, Plan};
use soundness::outline::refusals::{Flaw, K};
use std::alloc::{AllocError, Global};

/// How many own lines stand before a line.
fn kept_count(plan: &Plan, cert: &Cert, line: u32) -> usize
    ensures { StandsBefore (plan_of plan.now) (certificate_of cert.now) line result }
{
    let room = line
        .saturating_sub(plan.certificate_line())
        .saturating_sub(1) as usize;
    room.min(cert.own.len())
}

/// Equal own lines.
fn kept_owns(alloc: Global, all: &[Own]) -> Result<Vec<Own>, AllocError>
    ensures { IfOk result (λ made. made.items ≡ all.now) }
{
    let mut made = Vec::new(alloc);
    for own in all {
        let region = own.region.copy(alloc)?;
        made.push(Own {
            group: own.group,
            region,
        })?;
    }
    Ok(made)
}

/// Adds a line for each group by which all its pieces own all its cells.
fn push_wholes(alloc: Global, groups: &[Group], owns: &mut Vec<Own>) -> Result<(), AllocError>
    ensures { OnOk result (owns.new.items ≡ owns.old.items ++ wholes (map group_of groups.now)) }
{
    for number in 0..groups.len() {
        let region = groups[number].region.copy(alloc)?;
        owns.push(Own {
            group: number as u64,
            region,
        })?;
    }
    Ok(())
}

/// So many spans without ends.
fn blank(alloc: Global, count: usize) -> Result<Region, AllocError>
    ensures { IfOk result (λ made. IsLike made count) }
{
    let mut made = Region::new(alloc);
    for _ in 0..count {
        made.push(Span1 {
            lower: Forms::new(alloc),
            upper: Forms::new(alloc),
        })?;
    }
    Ok(made)
}

/// Lines of the same groups as these, by which they need pieces of the first group in this region.
fn blank_needs(alloc: Global, region: &Region, all: &[Need]) -> Result<Vec<Need>, AllocError>
    ensures { IfOk result (λ made. made.items ≡ blank_needs region.now all.now) }
{
    let mut made = Vec::new(alloc);
    for need in all {
        let region = region.copy(alloc)?;
        made.push(Need {
            group: need.group,
            needed: 0,
            region,
        })?;
    }
    Ok(made)
}

/// A certificate of which no line is broken, with the own lines that stand before a line: each group that has none of these has
/// a line behind them. Need lines are of the same groups.
fn cut(alloc: Global, plan: &Plan, cert: &Cert, line: u32) -> Result<Cert, AllocError>
    requires some { 1 ≤ length (plan_of plan.now).groups }
    requires drawn { IsDrawn (plan_of plan.now) }
    requires own { AreLikeBefore (plan_of plan.now) (certificate_of cert.now) line }
    ensures { IfOk result (λ made. IsCut (plan_of plan.now) (certificate_of cert.now) line (certificate_of made)) }
{
    let kept = kept_count(plan, cert, line);
    let mut own = kept_owns(alloc, &cert.own[..kept])?;
    push_wholes(alloc, &plan.groups, &mut own)?;
    let region = blank(alloc, plan.groups[0].grid.len())?;
    let needs = blank_needs(alloc, &region, &cert.needs)?;
    Ok(Cert {
        own,
        needs,
        claims: Vec::new(alloc),
        windows: Vec::new(alloc),
    })
}

/// The first of what is wrong at fetch lines and at own lines, if anything is, or what is wrong before a fetch line.
fn first_line_flaw(alloc: Global, plan: &Plan, cert: &Cert) -> Result<Option<Flaw>, AllocError>
    requires { AreShared (plan_of plan.now) (certificate_of cert.now) }
    ensures { IfOk result (λ found. MatchOption found (LinesStand (plan_of plan.now) (certificate_of cert.now)) (LineIsTold (plan_of plan.now) (certificate_of cert.now))) }
{
    let made = layout_of(alloc, plan, cert)?;
    let layout = match made {
        Ok(layout) => layout,
        Err(line) => return Ok(Some(Flaw { code: K::K14, line })),
    };
    let count = cell_count(&layout);
    let owned = owners_of(alloc, &layout, count)?;
    line_flaw(alloc, &layout, count, &owned)
}

/// A flaw, if it is of a fetch line or stands before a line.
fn told_before(flaw: Flaw, line: u32) -> Option<Flaw>
    ensures { result ≡ told_before flaw line }
{
    if flaw.code.number() == 14 || flaw.line < line {
        Some(flaw)
    } else {
        None
    }
}

/// What is wrong at fetch lines, and at own lines before a line, if anything is, where the lines of groups and the own lines before
/// it have no flaw by names and limits: K9, K10, or K11 of a group that needs no pieces, the first of all of them, or K14 of a
/// fetch line. Nothing is asked of the lines from this one on, as of those of which the first is broken.
///
/// The time is about linear in the cells, the own lines, and for each group in the pieces; where a group has no own line before it,
/// in all cells and the pieces for each group.
pub fn flaw_before(
    alloc: Global,
    plan: &Plan,
    cert: &Cert,
    line: u32,
) -> Result<Option<Flaw>, AllocError>
    requires some { 1 ≤ length (plan_of plan.now).groups }
    requires drawn { IsDrawn (plan_of plan.now) }
    requires own { AreLikeBefore (plan_of plan.now) (certificate_of cert.now) line }
    ensures { IfOk result (λ found. MatchOption found (OwnLinesStand (plan_of plan.now) (certificate_of cert.now) line) (λ f. ErrorMeans (plan_of plan.now) (certificate_of cert.now) (Told f))) }
{
    let kept = cut(alloc, plan, cert, line)?;
    let found = first_line_flaw(alloc, plan, &kept)?;
    match found {
        None => Ok(None),
        Some(flaw) => Ok(told_before(flaw, line)),
    }
}
