//! Which obligations are asked after, and how one that is not shown is told.

ghost use Rattle.std.specs.Prelude.{◌≡◌, ◌-◌, ◌^◌, min};
ghost use Rattle.obligations.specs.Asked.{is_asked, unless};

use crate::context::Part;
use soundness::outline::refusals::{Flaw, K};

/// Whether obligations that are told as this flaw are asked after.
fn is_asked(part: Part, flaw: Flaw) -> bool
    ensures { result ≡ is_asked part flaw }
{
    match part {
        Part::Lines => !matches!(flaw.code, K::K6),
        Part::Claims => matches!(flaw.code, K::K6),
        Part::Before(first) => flaw.is_before(first),
    }
}

/// What is told of an obligation of this code and line: nothing if it is shown, or not asked after.
#[tactic(auto, unfolding(crate::specs::Asked::unless))]
pub(crate) fn unless(part: Part, code: K, line: u32, shown: bool) -> Option<Flaw>
    ensures { result ≡ unless part code line shown }
{
    let flaw = Flaw { code, line };
    if is_asked(part, flaw) && !shown {
        Some(flaw)
    } else {
        None
    }
}

/// The same of an obligation of a line of the plan.
#[tactic(auto, using(crate::proofs::Unmet::fits_line))]
pub(crate) fn told(part: Part, code: K, line: u32, shown: bool) -> Option<Flaw>
    ensures { result ≡ unless part code (min line (2 ^ 32 - 1)) shown }
{
    unless(part, code, line, shown)
}
