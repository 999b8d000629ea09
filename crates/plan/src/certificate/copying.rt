//! Copies of certificates.

ghost use Rattle.std.specs.Prelude.{◌≡◌, IfOk, map};
ghost use Rattle.plan.specs.Certificate.Certificate.{certificate_of, claim_of};

use crate::certificate::cert::{Cert, Claim, Need, Own, Window};
use crate::copying::{copy_region, copy_span};
use std::alloc::{AllocError, Global};

fn copy_own(alloc: Global, all: &[Own]) -> Result<Vec<Own>, AllocError>
    ensures { IfOk result (λ copied. copied.items ≡ all.now) }
{
    let mut copied = Vec::new(alloc);
    for one in all {
        let region = copy_region(alloc, &one.region)?;
        copied.push(Own {
            group: one.group,
            region,
        })?;
    }
    Ok(copied)
}

fn copy_needs(alloc: Global, all: &[Need]) -> Result<Vec<Need>, AllocError>
    ensures { IfOk result (λ copied. copied.items ≡ all.now) }
{
    let mut copied = Vec::new(alloc);
    for one in all {
        let region = copy_region(alloc, &one.region)?;
        copied.push(Need {
            group: one.group,
            needed: one.needed,
            region,
        })?;
    }
    Ok(copied)
}

fn copy_claim(alloc: Global, claim: &Claim) -> Result<Claim, AllocError>
    ensures { IfOk result (λ copied. claim_of copied ≡ claim_of claim.now) }
{
    let function = claim.function.clone()?;
    let region = copy_region(alloc, &claim.region)?;
    Ok(Claim {
        line: claim.line,
        buffer: claim.buffer,
        function,
        definition: claim.definition,
        region,
    })
}

fn copy_claims(alloc: Global, all: &[Claim]) -> Result<Vec<Claim>, AllocError>
    ensures { IfOk result (λ copied. map claim_of copied.items ≡ map claim_of all.now) }
{
    let mut copied = Vec::new(alloc);
    for one in all {
        copied.push(copy_claim(alloc, one)?)?;
    }
    Ok(copied)
}

fn copy_windows(alloc: Global, all: &[Window]) -> Result<Vec<Window>, AllocError>
    ensures { IfOk result (λ copied. copied.items ≡ all.now) }
{
    let mut copied = Vec::new(alloc);
    for one in all {
        let span = copy_span(alloc, &one.span)?;
        copied.push(Window {
            claim: one.claim,
            symbol: one.symbol,
            dimension: one.dimension,
            fold: one.fold,
            span,
        })?;
    }
    Ok(copied)
}

/// An equal certificate, in memory of its own.
pub fn copy(alloc: Global, certificate: &Cert) -> Result<Cert, AllocError>
    ensures { IfOk result (λ copied. certificate_of copied ≡ certificate_of certificate.now) }
{
    let own = copy_own(alloc, &certificate.own)?;
    let needs = copy_needs(alloc, &certificate.needs)?;
    let claims = copy_claims(alloc, &certificate.claims)?;
    let windows = copy_windows(alloc, &certificate.windows)?;
    Ok(Cert {
        own,
        needs,
        claims,
        windows,
    })
}
