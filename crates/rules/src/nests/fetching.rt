//! Fetches of a claim's region.

ghost use Rattle.std.specs.Prelude.{◌≡◌, [], IfOk};
ghost use Rattle.std.specs.List.{list_all};
ghost use Rattle.plan.specs.Plan.{Fetch};
ghost use Rattle.plan.specs.Certificate.Certificate.{claim_of};
ghost use Rattle.soundness.specs.Binders.View.{binders_of};
ghost use Rattle.soundness.specs.Outline.View.{outline_in};
ghost use Rattle.soundness.specs.Nests.Tests.{has_ends, is_fetched};
ghost use Rattle.rules.specs.Nests.View.{nest_held};

use crate::nests::at::At;
use crate::nests::covering::are_within;
use crate::nests::folds::fold_holds;
use crate::nests::lines::Nested;
use crate::nests::seats::are_seated;
use crate::nests::symbols::has_ends;
use algo::scoping::same_name;
use lin::Span1;
use plan::certificate::Claim;
use plan::{Places, Stmt};
use soundness::binders::Bounds;
use soundness::outline::Outlined;
use std::alloc::AllocError;

/// Whether each span has both ends.
fn have_ends(region: &[Span1]) -> bool
    ensures { result ≡ list_all has_ends region.now }
{
    region.iter().all(has_ends)
}

/// Whether a fetch of another group's region, with no loop round it, fills the claim's region. The last definition of the
/// claim's function has the number `last`.
fn fetches<B: Bounds>(
    at: &At<'_, B>,
    outlined: &Outlined<'_>,
    last: u64,
    claim: &Claim,
    places: &[Places],
    buffer: u64,
    group: u64,
    region: &[Span1],
) -> Result<bool, AllocError>
    requires { last ≡ (B.rules at.now.bounds.now).last (claim_of claim.now).function }
    ensures { IfOk result (λ yes. yes ≡ is_fetched (outline_in outlined.now).setting (B.rules at.now.bounds.now) (binders_of at.now.binders.now) (claim_of claim.now) places.now [] (Fetch buffer group region.now)) }
{
    if !same_name(outlined.group_function(group), claim.function.as_str()) {
        return Ok(false);
    }
    if claim.definition != last {
        return Ok(false);
    }
    if !have_ends(region) {
        return Ok(false);
    }
    if !are_within(at, claim.region.as_slice(), region)? {
        return Ok(false);
    }
    if !fold_holds(at, region, places)? {
        return Ok(false);
    }
    are_seated(at, region, places)
}

/// Whether the line, with its loops round it, is a fetch that fills the claim's region, of the function after all its updates.
/// The last definition of the claim's function has the number `last`.
pub(crate) fn is_fetched<B: Bounds>(
    at: &At<'_, B>,
    outlined: &Outlined<'_>,
    last: u64,
    claim: &Claim,
    places: &[Places],
    nested: &Nested<'_>,
) -> Result<bool, AllocError>
    requires { last ≡ (B.rules at.now.bounds.now).last (claim_of claim.now).function }
    ensures { IfOk result (λ yes. yes ≡ is_fetched (outline_in outlined.now).setting (B.rules at.now.bounds.now) (binders_of at.now.binders.now) (claim_of claim.now) places.now (nest_held nested.now).loops (nest_held nested.now).line) }
{
    if !nested.loops.is_empty() {
        return Ok(false);
    }
    match nested.line {
        Stmt::Fetch {
            buffer,
            group,
            region,
        } => fetches(
            at,
            outlined,
            last,
            claim,
            places,
            *buffer,
            *group,
            region.as_slice(),
        ),
        _ => Ok(false),
    }
}
