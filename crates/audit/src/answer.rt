//! What is told of a plan whose head is the algorithm's: the first of all that is wrong with its lines, its certificate's
//! lines, its shares and its output.

ghost use Rattle.std.specs.Prelude.{◌≡◌, ◌<◌, ◌↔◌, [], Some, MatchOption, IfOk, IfErr, IsTrue, length};
ghost use Rattle.algo.specs.View.{algorithm_of};
ghost use Rattle.plan.specs.View.{plan_of};
ghost use Rattle.plan.specs.Certificate.Cells.{cells};
ghost use Rattle.plan.specs.Certificate.Certificate.{certificate_of};
ghost use Rattle.validation.specs.Groups.Lines.{flaws_of_groups};
ghost use Rattle.validation.specs.Certificate.Certificate.{flaws_of_certificate, flaws_of_regions};
ghost use Rattle.checked_plan.specs.Lists.{ListsAreOf};
ghost use Rattle.soundness.specs.Outline.Flaws.{first_of, told};
ghost use Rattle.audit.specs.Verdict.Accepted.{IsAccepted};
ghost use Rattle.audit.specs.Verdict.Shown.Wide.{HasHead};
ghost use Rattle.audit.specs.Refused.{EndsUnowned, IsBesideBroken, IsBesideBrokenGroups, IsBesideFetches, IsBesideOwnLines, IsBesidePieces, IsTold, IsUnownedEnd, but_symbols, told_first, wide_or_owed, with_owed};
ghost use Rattle.audit.specs.Stand.{AreShown, IsFlaw, IsGroupOf};

use crate::groups::first_wide;
use crate::leaving::left_first;
use crate::output::own_place;
use crate::shared::{fetch_flaw_before_broken, flaw_before_broken, shares_with_output};
use algo::Algo;
use claims::first_fault;
use plan::Plan;
use plan::certificate::Cert;
use shares::{Shares, SharesError};
use soundness::outline::refusals::{Flaw, least, lesser};
use std::alloc::{AllocError, Global};
use std::thread::Threads;

/// The first flaw of the lines of a plan's groups by names, limits and stored expressions.
fn named_flaw(
    alloc: Global,
    algo: &Algo,
    plan: &Plan,
    cert: &Cert,
) -> Result<Option<Flaw>, AllocError>
    ensures told { IfOk result (λ flaw. MatchOption flaw (flaws_of_groups (algorithm_of algo.now) (plan_of plan.now) (certificate_of cert.now) ≡ [])
        (IsFlaw (algorithm_of algo.now) (plan_of plan.now) (certificate_of cert.now))) }
    ensures first { IfOk result (λ flaw. told flaw ≡ first_of (flaws_of_groups (algorithm_of algo.now) (plan_of plan.now) (certificate_of cert.now))) }
{
    let found = validation::groups::first_flaw(alloc, algo, plan, cert)?;
    Ok(found)
}

/// The first flaw of a certificate's lines by names and limits.
fn listed_flaw(
    alloc: Global,
    algo: &Algo,
    plan: &Plan,
    cert: &Cert,
) -> Result<Option<Flaw>, AllocError>
    ensures { IfOk result (λ flaw. MatchOption flaw (flaws_of_certificate (algorithm_of algo.now) (plan_of plan.now) (certificate_of cert.now) ≡ [])
        (IsFlaw (algorithm_of algo.now) (plan_of plan.now) (certificate_of cert.now))) }
{
    let found = validation::certificate::first_flaw(alloc, algo, plan, cert)?;
    Ok(found)
}

/// The first of a number that may be too large and of what lines owe: at one line the number, since what is owed is shown where
/// numbers are small (but for a store that leaves its buffer, `left_first`).
fn wide_or_owed(wide: Option<Flaw>, owed: Option<Flaw>) -> Option<Flaw>
    ensures { result ≡ wide_or_owed wide owed }
{
    let Some(number) = wide else {
        return owed;
    };
    match owed {
        None => wide,
        Some(other) => { if other.line < number.line { owed } else { wide } }
    }
}

/// What is owed, but for a symbol that stands elsewhere: it is so only where a claim names it though it is not bound there.
fn but_symbols(owed: Option<Flaw>) -> Option<Flaw>
    ensures { result ≡ but_symbols owed }
{
    match owed {
        None => None,
        Some(flaw) => { if flaw.code.number() == 2 { None } else { owed } }
    }
}

/// The first of a flaw by names and limits and one by bounds.
fn with_owed(named: Flaw, owed: Option<Flaw>) -> Flaw
    ensures { result ≡ with_owed named owed }
{
    match owed {
        None => named,
        Some(other) => lesser(named, other),
    }
}

/// The first flaw by bounds: a number that may be too large, or what the lines of a group owe.
fn owed_flaw<R: Threads + Sync>(
    rt: &R,
    alloc: Global,
    algo: &Algo,
    plan: &Plan,
    cert: &Cert,
) -> Result<Option<Flaw>, AllocError>
    ensures { IfOk result (λ flaw. MatchOption flaw (AreShown (algorithm_of algo.now) (plan_of plan.now) (certificate_of cert.now))
        (IsFlaw (algorithm_of algo.now) (plan_of plan.now) (certificate_of cert.now))) }
{
    let wide = first_wide(alloc, algo, plan, cert)?;
    let owed = first_fault(rt, alloc, algo, plan, cert)?;
    if let Some(flaw) = left_first(plan, wide, owed) {
        return Ok(Some(flaw));
    }
    Ok(wide_or_owed(wide, owed))
}

/// Whether a group has no own line, and its last line is this one.
fn is_unowned_end(plan: &Plan, cert: &Cert, number: usize, line: u32) -> bool
    requires { number < length plan.now.groups.items }
    ensures { IsTrue result ↔ IsUnownedEnd (plan_of plan.now) (certificate_of cert.now) line number }
{
    own_place(&cert.own, number) == cert.own.len()
        && plan.group_line(number + 1).saturating_sub(1) == line
}

/// Whether a line is the last of a group that has no own line: what its `publish` owes is then not shown.
fn ends_unowned(plan: &Plan, cert: &Cert, line: u32) -> bool
    ensures { IsTrue result ↔ EndsUnowned (plan_of plan.now) (certificate_of cert.now) line }
{
    for number in 0..plan.groups.len() {
        if is_unowned_end(plan, cert, number, line) {
            return true;
        }
    }
    false
}

/// The one that is told of a flaw by names and limits and of one by bounds, where that of the certificate is known. A symbol
/// that stands elsewhere is told as the flaw of the claim that names it. Where the first is a K5 at the last line of a group
/// without an own region, as the test says, the flaw by names and limits is told: what such a `publish` owes is not shown.
fn told_first(named: Flaw, owed: Option<Flaw>, listed: Option<Flaw>, unowned: bool) -> Flaw
    ensures { result ≡ told_first named owed listed unowned }
{
    match listed {
        None => with_owed(named, owed),
        Some(_) => {
            let first = with_owed(named, but_symbols(owed));
            if first.code.number() == 5 && unowned {
                named
            } else {
                first
            }
        }
    }
}

/// The line of what is owed, 0 where nothing is.
fn owed_line(owed: Option<Flaw>) -> u32 {
    match owed {
        None => 0,
        Some(flaw) => flaw.line,
    }
}

/// The shares of the pieces of a plan of which the head and all lines by names and limits stand, where all else that is
/// asked of it holds: the group of this number is the output's, and the flaw is the first by bounds.
fn shares_where_named(
    alloc: Global,
    algo: &Algo,
    plan: &Plan,
    cert: &Cert,
    number: usize,
    owed: Option<Flaw>,
) -> Result<Shares, SharesError>
    requires head { HasHead (algorithm_of algo.now) (plan_of plan.now) }
    requires groups { flaws_of_groups (algorithm_of algo.now) (plan_of plan.now) (certificate_of cert.now) ≡ [] }
    requires certificate { flaws_of_certificate (algorithm_of algo.now) (plan_of plan.now) (certificate_of cert.now) ≡ [] }
    requires number { IsGroupOf (plan_of plan.now).groups (algorithm_of algo.now).output number }
    requires owed { MatchOption owed (AreShown (algorithm_of algo.now) (plan_of plan.now) (certificate_of cert.now)) (IsFlaw (algorithm_of algo.now) (plan_of plan.now) (certificate_of cert.now)) }
    ensures accepted { IfOk result (λ _. IsAccepted (algorithm_of algo.now) (plan_of plan.now) (certificate_of cert.now)) }
    ensures lists { IfOk result (λ made. ListsAreOf (algorithm_of algo.now) (plan_of plan.now) (certificate_of cert.now) made.pieces.items) }
    ensures counted { IfOk result (λ made. made.cells ≡ length (cells (plan_of plan.now))) }
    ensures told { IfErr result (IsTold (algorithm_of algo.now) (plan_of plan.now) (certificate_of cert.now)) }
{
    match owed {
        None => {
            let shares = shares_with_output(alloc, algo, plan, cert, number)?;
            Ok(shares)
        }
        Some(flaw) => Err(told_with_shares(alloc, algo, plan, cert, number, flaw)),
    }
}

/// What is told of a plan of which no line of a group and no line of own and needed regions has a flaw by names and limits,
/// where this flaw is the first of all else: it, or what the pieces share, which stands at a line of a group or of a region.
fn told_with_shares(
    alloc: Global,
    algo: &Algo,
    plan: &Plan,
    cert: &Cert,
    number: usize,
    flaw: Flaw,
) -> SharesError
    requires groups { flaws_of_groups (algorithm_of algo.now) (plan_of plan.now) (certificate_of cert.now) ≡ [] }
    requires regions { flaws_of_regions (plan_of plan.now) (certificate_of cert.now) ≡ [] }
    requires number { IsGroupOf (plan_of plan.now).groups (algorithm_of algo.now).output number }
    requires flaw { IsFlaw (algorithm_of algo.now) (plan_of plan.now) (certificate_of cert.now) flaw }
    ensures told { IsTold (algorithm_of algo.now) (plan_of plan.now) (certificate_of cert.now) result }
    ensures first { IsBesidePieces (algorithm_of algo.now) (plan_of plan.now) (certificate_of cert.now) flaw result }
{
    match shares_with_output(alloc, algo, plan, cert, number) {
        Ok(_) => SharesError::Flaw(flaw),
        Err(SharesError::Memory) => SharesError::Memory,
        Err(SharesError::Flaw(other)) => SharesError::Flaw(lesser(flaw, other)),
    }
}

/// The first flaw of the lines of own and needed regions by names and limits.
fn region_flaw(alloc: Global, plan: &Plan, cert: &Cert) -> Result<Option<Flaw>, AllocError>
    ensures first { IfOk result (λ flaw. told flaw ≡ first_of (flaws_of_regions (plan_of plan.now) (certificate_of cert.now))) }
    ensures known { IfOk result (λ flaw. MatchOption flaw (flaws_of_regions (plan_of plan.now) (certificate_of cert.now) ≡ [])
        (λ _. ¬ (flaws_of_regions (plan_of plan.now) (certificate_of cert.now) ≡ []))) }
{
    let found = validation::certificate::first_region_flaw(alloc, plan, cert)?;
    Ok(found)
}

/// What is told of a plan of which no line of a group has a flaw by names and limits and this line of own and needed regions is
/// the first broken one, where this flaw is the first of all else: it, or what is wrong at an own line before the broken one, at a
/// fetch line, or with the output's group.
fn told_beside_broken(
    alloc: Global,
    algo: &Algo,
    plan: &Plan,
    cert: &Cert,
    number: usize,
    flaw: Flaw,
    broken: Flaw,
) -> SharesError
    requires groups { flaws_of_groups (algorithm_of algo.now) (plan_of plan.now) (certificate_of cert.now) ≡ [] }
    requires broken { told (Some broken) ≡ first_of (flaws_of_regions (plan_of plan.now) (certificate_of cert.now)) }
    requires number { IsGroupOf (plan_of plan.now).groups (algorithm_of algo.now).output number }
    requires flaw { IsFlaw (algorithm_of algo.now) (plan_of plan.now) (certificate_of cert.now) flaw }
    ensures told { IsTold (algorithm_of algo.now) (plan_of plan.now) (certificate_of cert.now) result }
    ensures first { IsBesideOwnLines (algorithm_of algo.now) (plan_of plan.now) (certificate_of cert.now) broken.line flaw result }
{
    match flaw_before_broken(alloc, algo, plan, cert, number, broken) {
        Ok(None) => SharesError::Flaw(flaw),
        Ok(Some(other)) => SharesError::Flaw(lesser(flaw, other)),
        Err(_) => SharesError::Memory,
    }
}

/// What is told of a plan of which no line of a group has a flaw by names and limits, where this flaw is the first of all else:
/// it, or what the pieces share: of that, where a line of own and needed regions is broken, what stands at own lines before it, at
/// fetch lines, and with the output's group.
fn told_beside_claims(
    alloc: Global,
    algo: &Algo,
    plan: &Plan,
    cert: &Cert,
    number: usize,
    flaw: Flaw,
) -> SharesError
    requires groups { flaws_of_groups (algorithm_of algo.now) (plan_of plan.now) (certificate_of cert.now) ≡ [] }
    requires number { IsGroupOf (plan_of plan.now).groups (algorithm_of algo.now).output number }
    requires flaw { IsFlaw (algorithm_of algo.now) (plan_of plan.now) (certificate_of cert.now) flaw }
    ensures told { IsTold (algorithm_of algo.now) (plan_of plan.now) (certificate_of cert.now) result }
    ensures first { flaws_of_regions (plan_of plan.now) (certificate_of cert.now) ≡ []
        → IsBesidePieces (algorithm_of algo.now) (plan_of plan.now) (certificate_of cert.now) flaw result }
    ensures own { IsBesideBroken (algorithm_of algo.now) (plan_of plan.now) (certificate_of cert.now) flaw result }
{
    match region_flaw(alloc, plan, cert) {
        Ok(None) => told_with_shares(alloc, algo, plan, cert, number, flaw),
        Ok(Some(broken)) => told_beside_broken(alloc, algo, plan, cert, number, flaw, broken),
        Err(_) => SharesError::Memory,
    }
}

/// What is told of a plan of which this line of a group is the first broken one by names and limits, where this flaw is the first of
/// all but the shares: it, or what is wrong at a fetch line before the broken one.
fn told_beside_fetches(
    alloc: Global,
    algo: &Algo,
    plan: &Plan,
    cert: &Cert,
    flaw: Flaw,
    broken: Flaw,
) -> SharesError
    requires broken { told (Some broken) ≡ first_of (flaws_of_groups (algorithm_of algo.now) (plan_of plan.now) (certificate_of cert.now)) }
    requires flaw { IsFlaw (algorithm_of algo.now) (plan_of plan.now) (certificate_of cert.now) flaw }
    ensures told { IsTold (algorithm_of algo.now) (plan_of plan.now) (certificate_of cert.now) result }
    ensures first { IsBesideFetches (plan_of plan.now) broken.line flaw result }
{
    match fetch_flaw_before_broken(alloc, algo, plan, cert, broken) {
        Ok(None) => SharesError::Flaw(flaw),
        Ok(Some(early)) => SharesError::Flaw(lesser(flaw, early)),
        Err(_) => SharesError::Memory,
    }
}

/// What is told of a plan of which a line has a flaw by names and limits, where this flaw is the first of all but the shares and
/// the first one of the lines of groups is known: the shares are asked where these lines have none, else what is wrong at the fetch
/// lines before it.
fn told_where_flawed(
    alloc: Global,
    algo: &Algo,
    plan: &Plan,
    cert: &Cert,
    number: usize,
    named: Option<Flaw>,
    flaw: Flaw,
) -> SharesError
    requires named { told named ≡ first_of (flaws_of_groups (algorithm_of algo.now) (plan_of plan.now) (certificate_of cert.now)) }
    requires number { IsGroupOf (plan_of plan.now).groups (algorithm_of algo.now).output number }
    requires flaw { IsFlaw (algorithm_of algo.now) (plan_of plan.now) (certificate_of cert.now) flaw }
    ensures told { IsTold (algorithm_of algo.now) (plan_of plan.now) (certificate_of cert.now) result }
    ensures first { flaws_of_groups (algorithm_of algo.now) (plan_of plan.now) (certificate_of cert.now) ≡ []
        → flaws_of_regions (plan_of plan.now) (certificate_of cert.now) ≡ []
        → IsBesidePieces (algorithm_of algo.now) (plan_of plan.now) (certificate_of cert.now) flaw result }
    ensures own { flaws_of_groups (algorithm_of algo.now) (plan_of plan.now) (certificate_of cert.now) ≡ []
        → IsBesideBroken (algorithm_of algo.now) (plan_of plan.now) (certificate_of cert.now) flaw result }
    ensures fetches { IsBesideBrokenGroups (algorithm_of algo.now) (plan_of plan.now) (certificate_of cert.now) flaw result }
{
    match named {
        None => told_beside_claims(alloc, algo, plan, cert, number, flaw),
        Some(broken) => told_beside_fetches(alloc, algo, plan, cert, flaw, broken),
    }
}

/// The shares of the pieces of a plan of which the head is the algorithm's, where all else that is asked of it holds: the
/// group of this number is the output's.
pub(crate) fn shares_where_accepted<R: Threads + Sync>(
    rt: &R,
    alloc: Global,
    algo: &Algo,
    plan: &Plan,
    cert: &Cert,
    number: usize,
) -> Result<Shares, SharesError>
    requires head { HasHead (algorithm_of algo.now) (plan_of plan.now) }
    requires number { IsGroupOf (plan_of plan.now).groups (algorithm_of algo.now).output number }
    ensures accepted { IfOk result (λ _. IsAccepted (algorithm_of algo.now) (plan_of plan.now) (certificate_of cert.now)) }
    ensures lists { IfOk result (λ made. ListsAreOf (algorithm_of algo.now) (plan_of plan.now) (certificate_of cert.now) made.pieces.items) }
    ensures counted { IfOk result (λ made. made.cells ≡ length (cells (plan_of plan.now))) }
    ensures told { IfErr result (IsTold (algorithm_of algo.now) (plan_of plan.now) (certificate_of cert.now)) }
{
    let named = named_flaw(alloc, algo, plan, cert)?;
    let listed = listed_flaw(alloc, algo, plan, cert)?;
    let owed = owed_flaw(rt, alloc, algo, plan, cert)?;
    match least(named, listed) {
        None => shares_where_named(alloc, algo, plan, cert, number, owed),
        Some(flaw) => {
            let unowned = ends_unowned(plan, cert, owed_line(owed));
            let told = told_first(flaw, owed, listed, unowned);
            Err(told_where_flawed(alloc, algo, plan, cert, number, named, told))
        }
    }
}
