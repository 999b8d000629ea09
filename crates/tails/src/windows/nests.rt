//! The tests that a claim is made in a folded buffer, or along a window, beside other tests of nests.

use crate::nests::{claim_in, no_claim};
use crate::windows::folded::folded_by;
use crate::windows::held::is_held;
use crate::windows::slid::is_slid;
use plan::{Places, Stmt, certificate};
use soundness::binders::{Binder, Bounds, NestTests};
use soundness::outline::Outlined;
use std::alloc::{AllocError, Global};

/// Other tests of nests, and the tests that a statement makes a claim in a folded buffer, that it makes one along a window, and that the
/// window's buffer holds its rows, in a group of a plan.
#[derive(Drop)]
pub struct SlidNests<'a, B: Bounds, N: NestTests> {
    pub outlined: &'a Outlined<'a>,
    pub bounds: &'a B,
    pub others: &'a N,
}

impl<B: Bounds, N: NestTests> NestTests for SlidNests<'_, B, N> {
    ghost use Rattle.soundness.specs.Outline.View.{outline_in};
    ghost use Rattle.tails.specs.Windows.Nests.{with_windows};

    ghost nests = { λ t. with_windows (outline_in t.outlined.now) (B.rules t.bounds.now) (N.nests t.others.now) };

    fn is_made(
        &self,
        alloc: Global,
        binders: &[Binder<'_>],
        claim: u64,
        from: Option<u64>,
        places: &[Places],
        by: &Stmt,
    ) -> Result<bool, AllocError> {
        if self
            .others
            .is_made(alloc, binders, claim, from, places, by)?
        {
            return Ok(true);
        }
        let unknown = no_claim(alloc);
        let claim = claim_in(self.outlined, &unknown, claim);
        folded_by(
            alloc,
            self.bounds,
            self.outlined,
            binders,
            claim,
            from,
            places,
            by,
        )
    }

    fn is_in_turn(
        &self,
        alloc: Global,
        binders: &[Binder<'_>],
        claim: u64,
        by: &Stmt,
    ) -> Result<bool, AllocError> {
        self.others.is_in_turn(alloc, binders, claim, by)
    }

    fn is_slid(
        &self,
        alloc: Global,
        binders: &[Binder<'_>],
        window: &certificate::Window,
        claim: u64,
        places: &[Places],
        by: &Stmt,
    ) -> Result<bool, AllocError> {
        let unknown = no_claim(alloc);
        let claim = claim_in(self.outlined, &unknown, claim);
        is_slid(
            alloc,
            self.bounds,
            self.outlined,
            binders,
            claim,
            places,
            window,
            by,
        )
    }

    fn is_held(
        &self,
        alloc: Global,
        binders: &[Binder<'_>],
        window: &certificate::Window,
        claim: u64,
        places: &[Places],
        by: &Stmt,
    ) -> Result<bool, AllocError> {
        let unknown = no_claim(alloc);
        let claim = claim_in(self.outlined, &unknown, claim);
        is_held(
            alloc,
            self.bounds,
            self.outlined,
            binders,
            claim,
            places,
            window,
            by,
        )
    }
}
