//! What is wrong with the lines of own regions.

ghost use Rattle.std.specs.Prelude.{◌≡◌, ℕ, ◌==◌, take, length, map, IfOk, slice_get};
ghost use Rattle.plan.specs.Lines.{certificate_line};
ghost use Rattle.plan.specs.Lists.{list_groups};
ghost use Rattle.plan.specs.View.{group_of, plan_of};
ghost use Rattle.plan.specs.Certificate.Certificate.{certificate_of};
ghost use Rattle.soundness.specs.Outline.Forms.{spans_are_within_limits, have_ends};
ghost use Rattle.soundness.specs.Outline.Flaws.{first_of, told, line_told};
ghost use Rattle.validation.specs.Certificate.Lines.{line_flaws, each_line, told_at};
ghost use Rattle.validation.specs.Certificate.View.{group_held};
ghost use Rattle.validation.specs.Certificate.Certificate.{is_owned, are_owned, is_region_of, own_is_known, cert_flaws, own_flaws};

use crate::certificate::codes::line_code;
use crate::certificate::groups::group_at;
use lin::Span1;
use plan::certificate::{Cert, Own};
use plan::{Group, Plan};
use soundness::outline::forms::{grid_symbols, have_ends, spans_are_over, spans_are_within_limits};
use soundness::outline::refusals::{Flaw, K};
use std::alloc::{AllocError, Global};

/// Whether one of these lines is of the group.
fn is_owned(own: &[Own], group: u64) -> bool
    ensures { result ≡ is_owned own.now group }
{
    own.iter().any(|one| one.group == group)
}

/// Whether each of so many groups has a line.
fn are_owned(own: &[Own], count: usize) -> bool
    ensures { result ≡ are_owned own.now count }
{
    (0..count).all(|group| is_owned(own, group as u64))
}

/// Whether a region has as many spans as the group's, in the symbols of the group's grid.
fn is_region_of(alloc: Global, group: Option<&Group>, region: &[Span1]) -> Result<bool, AllocError>
    ensures { IfOk result (λ yes. yes ≡ is_region_of (group_held group.entry) region.now) }
{
    let Some(group) = group else {
        return Ok(false);
    };
    let symbols = grid_symbols(alloc, group.grid.len())?;
    Ok(region.len() == group.region.as_slice().len() && spans_are_over(&symbols, region))
}

/// What is wrong with the line of an own region, behind these earlier ones.
fn own_code(
    alloc: Global,
    groups: &[Group],
    earlier: &[Own],
    own: &Own,
) -> Result<Option<K>, AllocError>
    ensures { IfOk result (λ code. (line : ℕ) → told_at code line ≡ first_of (line_flaws (own_is_known (list_groups groups.now) earlier.now own.now) (spans_are_within_limits own.now.region) (have_ends own.now.region) line)) }
{
    let region = own.region.as_slice();
    let group = group_at(groups, own.group);
    let fits = is_region_of(alloc, group, region)?;
    let known = !is_owned(earlier, own.group) && fits;
    Ok(line_code(known, spans_are_within_limits(region), have_ends(region)))
}

/// The first flaw of the lines of own regions, where the line `cert` is given.
pub(crate) fn own_flaw(
    alloc: Global,
    plan: &Plan,
    cert: &Cert,
    line: u32,
) -> Result<Option<Flaw>, AllocError>
    requires { line ≡ line_told (certificate_line (plan_of plan.now)) }
    ensures { IfOk result (λ found. told found ≡ first_of (each_line (own_flaws (plan_of plan.now) (certificate_of cert.now)) 0 cert.now.own.items)) }
{
    for (index, own) in cert.own.iter().enumerate() {
        if let Some(code) = own_code(alloc, &plan.groups, &cert.own[..index], own)? {
            let line = cert.own_line(line, index);
            return Ok(Some(Flaw { code, line }));
        }
    }
    Ok(None)
}

/// The flaw of the line `cert`: a group without an own region.
pub(crate) fn cert_flaw(plan: &Plan, cert: &Cert, line: u32) -> Option<Flaw>
    requires { line ≡ line_told (certificate_line (plan_of plan.now)) }
    ensures { told result ≡ first_of (cert_flaws (plan_of plan.now) (certificate_of cert.now)) }
{
    if are_owned(&cert.own, plan.groups.len()) {
        None
    } else {
        Some(Flaw { code: K::K10, line })
    }
}
