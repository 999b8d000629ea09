//! Claims that are made in folded buffers without a window.

ghost use Rattle.std.specs.Prelude.{◌≡◌, IfOk};
ghost use Rattle.plan.specs.View.{statement_of};
ghost use Rattle.plan.specs.Certificate.Certificate.{claim_of};
ghost use Rattle.soundness.specs.Binders.View.{binders_of};
ghost use Rattle.soundness.specs.Outline.View.{outline_in};
ghost use Rattle.tails.specs.Windows.Nests.{folded_by};

use crate::windows::held::one_stays;
use crate::windows::slid::makes_all;
use plan::certificate::Claim;
use plan::{Places, Stmt};
use soundness::binders::{Binder, Bounds};
use soundness::outline::Outlined;
use std::alloc::{AllocError, Global};

/// Whether the statement is shown to make the claim's region from nothing, in a buffer that may be folded: what it stores leaves the
/// places of the region's points alone, in the first dimension and in all others.
pub(crate) fn folded_by<B: Bounds>(
    alloc: Global,
    bounds: &B,
    outlined: &Outlined<'_>,
    binders: &[Binder<'_>],
    claim: &Claim,
    from: Option<u64>,
    places: &[Places],
    by: &Stmt,
) -> Result<bool, AllocError>
    ensures { IfOk result (λ yes. yes ≡ folded_by (outline_in outlined.now).setting (B.rules bounds.now) (binders_of binders.now) (claim_of claim.now) from places.now (statement_of by.now)) }
{
    if from.is_some() {
        return Ok(false);
    }
    if makes_all(alloc, bounds, outlined, binders, claim, places, 0, by)? {
        one_stays(alloc, bounds, outlined, binders, claim, places, 0, by)
    } else {
        Ok(false)
    }
}
