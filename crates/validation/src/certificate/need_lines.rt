//! What is wrong with the lines of needed regions.

ghost use Rattle.std.specs.Prelude.{◌≡◌, ℕ, IfOk};
ghost use Rattle.plan.specs.Lines.{certificate_line};
ghost use Rattle.plan.specs.Lists.{list_groups};
ghost use Rattle.plan.specs.View.{plan_of};
ghost use Rattle.plan.specs.Certificate.Certificate.{certificate_of};
ghost use Rattle.soundness.specs.Outline.Forms.{spans_are_within_limits, have_ends};
ghost use Rattle.soundness.specs.Outline.Flaws.{first_of, told, line_told};
ghost use Rattle.validation.specs.Certificate.Lines.{line_flaws, each_line, told_at};
ghost use Rattle.validation.specs.Certificate.Certificate.{is_need_of, need_is_known, need_flaws};
ghost use Rattle.validation.specs.Certificate.View.{group_held};

use crate::certificate::codes::line_code;
use crate::certificate::groups::group_at;
use lin::Span1;
use plan::certificate::{Cert, Need};
use plan::{Group, Plan};
use soundness::outline::forms::{grid_symbols, have_ends, spans_are_over, spans_are_within_limits};
use soundness::outline::refusals::{Flaw, K};
use std::alloc::{AllocError, Global};

/// Whether a region has as many spans as the needed group's grid has numbers, in the symbols of the group's own grid.
fn is_need_of(
    alloc: Global,
    group: Option<&Group>,
    needed: Option<&Group>,
    region: &[Span1],
) -> Result<bool, AllocError>
    ensures { IfOk result (λ yes. yes ≡ is_need_of (group_held group.entry) (group_held needed.entry) region.now) }
{
    let (Some(group), Some(needed)) = (group, needed) else {
        return Ok(false);
    };
    let symbols = grid_symbols(alloc, group.grid.len())?;
    Ok(region.len() == needed.grid.len() && spans_are_over(&symbols, region))
}

/// What is wrong with the line of a needed region.
fn need_code(alloc: Global, groups: &[Group], need: &Need) -> Result<Option<K>, AllocError>
    ensures { IfOk result (λ code. (line : ℕ) → told_at code line ≡ first_of (line_flaws (need_is_known (list_groups groups.now) need.now) (spans_are_within_limits need.now.region) (have_ends need.now.region) line)) }
{
    let region = need.region.as_slice();
    let group = group_at(groups, need.group);
    let needed = group_at(groups, need.needed);
    let known = is_need_of(alloc, group, needed, region)?;
    Ok(line_code(known, spans_are_within_limits(region), have_ends(region)))
}

/// The first flaw of the lines of needed regions, where the line `cert` is given.
pub(crate) fn need_flaw(
    alloc: Global,
    plan: &Plan,
    cert: &Cert,
    line: u32,
) -> Result<Option<Flaw>, AllocError>
    requires { line ≡ line_told (certificate_line (plan_of plan.now)) }
    ensures { IfOk result (λ found. told found ≡ first_of (each_line (need_flaws (plan_of plan.now) (certificate_of cert.now)) 0 cert.now.needs.items)) }
{
    for (index, need) in cert.needs.iter().enumerate() {
        if let Some(code) = need_code(alloc, &plan.groups, need)? {
            let line = cert.need_line(line, index);
            return Ok(Some(Flaw { code, line }));
        }
    }
    Ok(None)
}
