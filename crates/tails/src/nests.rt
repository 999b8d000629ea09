//! The tests that a nest of split loops makes a claim, or does an update's steps in turn, beside other tests of nests.

ghost use Rattle.std.specs.Prelude.{◌≡◌, IfOk};
ghost use Rattle.plan.specs.View.{statement_of};
ghost use Rattle.plan.specs.Certificate.Certificate.{claim_of};
ghost use Rattle.soundness.specs.Given.{no_claim};
ghost use Rattle.soundness.specs.Binders.View.{binders_of};
ghost use Rattle.soundness.specs.Outline.View.{outline_in};
ghost use Rattle.tails.specs.Steps.{spine_of};
ghost use Rattle.tails.specs.Stored.{stored_by};
ghost use Rattle.tails.specs.Nests.{makes_split};

use crate::stored::{has_places, stored_by};
use crate::updates::{is_in_steps, makes_update};
use algo::Algo;
use lin::Region;
use plan::certificate::{Claim, Window};
use plan::{Places, Stmt};
use soundness::binders::{Binder, Bounds, NestTests};
use soundness::outline::Outlined;
use std::alloc::{AllocError, Global};

/// Other tests of nests, and beside them the tests that a nest of split loops makes a claim, and does an update's steps in turn, in a
/// group of a plan for an algorithm.
#[derive(Drop)]
pub struct SplitNests<'a, B: Bounds, N: NestTests> {
    pub outlined: &'a Outlined<'a>,
    pub algo: &'a Algo,
    pub bounds: &'a B,
    pub others: &'a N,
}

/// Whether the statement, by its one line that changes the claim's buffer, reaches the claim's region.
fn makes_split<B: Bounds>(
    alloc: Global,
    bounds: &B,
    outlined: &Outlined<'_>,
    binders: &[Binder<'_>],
    claim: &Claim,
    places: &[Places],
    by: &Stmt,
) -> Result<bool, AllocError>
    ensures { IfOk result (λ yes. yes ≡ makes_split (B.rules bounds.now) (binders_of binders.now) (claim_of claim.now) places.now (stored_by (outline_in outlined.now).setting (claim_of claim.now) (spine_of (statement_of by.now) (claim_of claim.now).buffer))) }
{
    match stored_by(alloc, outlined, claim, by)? {
        Some(map) => {
            if has_places(alloc, false, bounds, binders, &map, places)? {
                map.covers(alloc, bounds, binders, claim.region.as_slice())
            } else {
                Ok(false)
            }
        }
        None => Ok(false),
    }
}

/// A claim that is never in force.
pub fn no_claim(alloc: Global) -> Claim
    ensures { claim_of result ≡ no_claim }
{
    Claim {
        line: 0,
        buffer: 0,
        function: String::new(alloc),
        definition: 0,
        region: Region::new(alloc),
    }
}

/// The claim of this number, or in place of an unknown one the claim that is never in force.
pub fn claim_in<'c, 'a: 'c>(
    outlined: &'c Outlined<'a>,
    unknown: &'c Claim,
    number: u64,
) -> &'c Claim
    requires { claim_of unknown.now ≡ no_claim }
    ensures { claim_of result.now ≡ (outline_in outlined.now).claim number }
{
    match outlined.claim(number) {
        Some(claim) => claim,
        None => unknown,
    }
}

impl<B: Bounds, N: NestTests> NestTests for SplitNests<'_, B, N> {
    ghost use Rattle.algo.specs.View.{algorithm_of};
    ghost use Rattle.soundness.specs.Outline.View.{outline_in};
    ghost use Rattle.soundness.specs.Nests.Laws.{domains_of};
    ghost use Rattle.tails.specs.Nests.{with_split};

    ghost nests = { λ t. with_split (outline_in t.outlined.now) (B.rules t.bounds.now) (domains_of (algorithm_of t.algo.now)) (N.nests t.others.now) };

    fn is_made(
        &self,
        alloc: Global,
        binders: &[Binder<'_>],
        claim: u64,
        from: Option<u64>,
        places: &[Places],
        by: &Stmt,
    ) -> Result<bool, AllocError> {
        if self
            .others
            .is_made(alloc, binders, claim, from, places, by)?
        {
            return Ok(true);
        }
        let unknown = no_claim(alloc);
        let claim = claim_in(self.outlined, &unknown, claim);
        match from {
            Some(before) => makes_update(
                alloc,
                self.bounds,
                self.outlined,
                self.algo,
                binders,
                claim,
                before,
                by,
            ),
            None => makes_split(
                alloc,
                self.bounds,
                self.outlined,
                binders,
                claim,
                places,
                by,
            ),
        }
    }

    fn is_in_turn(
        &self,
        alloc: Global,
        binders: &[Binder<'_>],
        claim: u64,
        by: &Stmt,
    ) -> Result<bool, AllocError> {
        if self.others.is_in_turn(alloc, binders, claim, by)? {
            return Ok(true);
        }
        let unknown = no_claim(alloc);
        let claim = claim_in(self.outlined, &unknown, claim);
        is_in_steps(
            alloc,
            self.bounds,
            self.outlined,
            self.algo,
            binders,
            claim,
            by,
        )
    }

    fn is_slid(
        &self,
        alloc: Global,
        binders: &[Binder<'_>],
        window: &Window,
        claim: u64,
        places: &[Places],
        by: &Stmt,
    ) -> Result<bool, AllocError> {
        self.others
            .is_slid(alloc, binders, window, claim, places, by)
    }

    fn is_held(
        &self,
        alloc: Global,
        binders: &[Binder<'_>],
        window: &Window,
        claim: u64,
        places: &[Places],
        by: &Stmt,
    ) -> Result<bool, AllocError> {
        self.others
            .is_held(alloc, binders, window, claim, places, by)
    }
}
