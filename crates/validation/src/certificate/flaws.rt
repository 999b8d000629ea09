//! The first flaw of a certificate's lines.

ghost use Rattle.std.specs.Prelude.{◌≡◌, IfOk};
ghost use Rattle.plan.specs.Lines.{certificate_line};
ghost use Rattle.plan.specs.View.{plan_of};
ghost use Rattle.plan.specs.Certificate.Certificate.{certificate_of};
ghost use Rattle.algo.specs.View.{algorithm_of};
ghost use Rattle.soundness.specs.Outline.Flaws.{first_of, told, line_told};
ghost use Rattle.validation.specs.Certificate.Certificate.{flaws_of_regions, flaws_of_claims, flaws_of_certificate};

use crate::certificate::claim_lines::claim_flaw;
use crate::certificate::need_lines::need_flaw;
use crate::certificate::own_lines::{cert_flaw, own_flaw};
use crate::certificate::window_lines::window_flaw;
use algo::Algo;
use plan::Plan;
use plan::certificate::Cert;
use soundness::outline::refusals::Flaw;
use std::alloc::{AllocError, Global};

/// The first flaw of the lines of claims and windows, where the line `cert` is given.
fn claims_flaw(
    alloc: Global,
    algo: &Algo,
    plan: &Plan,
    cert: &Cert,
    line: u32,
) -> Result<Option<Flaw>, AllocError>
    requires { line ≡ line_told (certificate_line (plan_of plan.now)) }
    ensures { IfOk result (λ found. told found ≡ first_of (flaws_of_claims (algorithm_of algo.now) (plan_of plan.now) (certificate_of cert.now))) }
{
    if let Some(flaw) = claim_flaw(alloc, algo, plan, cert, line)? {
        return Ok(Some(flaw));
    }
    window_flaw(alloc, plan, cert, line)
}

/// The first flaw of the line `cert` and of the lines of own and needed regions: at one line the lowest code. None exactly
/// where there is none.
///
/// It asks that each group has an own region, and that own and needed regions are of known groups, with as many spans as
/// those have coordinates, in symbols of the grid. Of claims and windows it asks nothing.
///
/// # Errors
/// Want of memory.
pub fn first_region_flaw(
    alloc: Global,
    plan: &Plan,
    cert: &Cert,
) -> Result<Option<Flaw>, AllocError>
    ensures { IfOk result (λ found. told found ≡ first_of (flaws_of_regions (plan_of plan.now) (certificate_of cert.now))) }
{
    let line = plan.certificate_line();
    if let Some(flaw) = cert_flaw(plan, cert, line) {
        return Ok(Some(flaw));
    }
    if let Some(flaw) = own_flaw(alloc, plan, cert, line)? {
        return Ok(Some(flaw));
    }
    need_flaw(alloc, plan, cert, line)
}

/// The first flaw of the lines of a plan's certificate, from its line `cert` on: at one line the lowest code. None exactly
/// where there is none.
///
/// It asks of names, limits and lists of forms alone: what `first_region_flaw` asks, and that claims are of known buffers,
/// functions and definitions, with as many spans as those have coordinates, in symbols that are bound at the line, and windows of
/// known claims, along a loop round the claim's statement and in one of its dimensions. Whether claims and windows hold is not
/// asked. The time is about the groups and one group's lines for each claim, and the groups' lines for each window.
///
/// # Errors
/// Want of memory.
pub fn first_flaw(
    alloc: Global,
    algo: &Algo,
    plan: &Plan,
    cert: &Cert,
) -> Result<Option<Flaw>, AllocError>
    ensures { IfOk result (λ found. told found ≡ first_of (flaws_of_certificate (algorithm_of algo.now) (plan_of plan.now) (certificate_of cert.now))) }
{
    if let Some(flaw) = first_region_flaw(alloc, plan, cert)? {
        return Ok(Some(flaw));
    }
    claims_flaw(alloc, algo, plan, cert, plan.certificate_line())
}
