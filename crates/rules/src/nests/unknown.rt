//! Claims by number, of which some are unknown.

ghost use Rattle.std.specs.Prelude.{◌≡◌};
ghost use Rattle.plan.specs.Certificate.Certificate.{claim_of};
ghost use Rattle.soundness.specs.Given.{no_claim};
ghost use Rattle.soundness.specs.Outline.View.{outline_in};

use lin::Region;
use plan::certificate::Claim;
use soundness::outline::Outlined;
use std::alloc::Global;

/// A claim that is never in force.
pub(crate) fn no_claim(alloc: Global) -> Claim
    ensures { claim_of result ≡ no_claim }
{
    Claim {
        line: 0,
        buffer: 0,
        function: String::new(alloc),
        definition: 0,
        region: Region::new(alloc),
    }
}

/// The claim of this number, or in place of an unknown one the claim that is never in force.
pub(crate) fn claim_in<'c, 'a: 'c>(
    outlined: &'c Outlined<'a>,
    unknown: &'c Claim,
    number: u64,
) -> &'c Claim
    requires { claim_of unknown.now ≡ no_claim }
    ensures { claim_of result.now ≡ (outline_in outlined.now).claim number }
{
    match outlined.claim(number) {
        Some(claim) => claim,
        None => unknown,
    }
}
