//! The tests of nests.

ghost use Rattle.std.specs.Prelude.{◌≡◌, ℕ, List};
ghost use Rattle.std.proofs.Props.{props};
ghost use Rattle.algo.specs.View.{algorithm_of};
ghost use Rattle.soundness.specs.Obligations.{is_next};
ghost use Rattle.rules.specs.Nests.Last.{last_in};

use crate::nests::advancing::{is_advanced, is_ordered};
use crate::nests::at::At;
use crate::nests::fetching::is_fetched;
use crate::nests::filling::is_filled;
use crate::nests::lines::line_in;
use crate::nests::ranges::last_of;
use crate::nests::unknown::{claim_in, no_claim};
use algo::Algo;
use plan::certificate::Window;
use plan::{Places, Stmt};
use soundness::binders::{Binder, Bounds, NestTests};
use soundness::outline::Outlined;
use std::alloc::{AllocError, Global};

/// The tests of nests in a group of a plan for an algorithm, which ask tests by bounds. By their rules the last definition of a
/// function is the algorithm's.
#[derive(Drop)]
pub struct PlainNests<'a, B: Bounds> {
    pub outlined: &'a Outlined<'a>,
    pub algo: &'a Algo,
    pub bounds: &'a B,
    pub ghost counted: { (f : List ℕ) → (B.rules bounds.now).last f ≡ last_in (algorithm_of algo.now) f } by { Prim.hlevel props },
}

impl<B: Bounds> PlainNests<'_, B> {
    /// Where the tests by bounds are asked.
    fn at<'b>(&'b self, alloc: Global, binders: &'b [Binder<'b>]) -> At<'b, B>
        ensures bounds { result.bounds.now ≡ self.now.bounds.now }
        ensures binders { result.binders.now ≡ binders.now }
    {
        At {
            alloc,
            bounds: self.bounds,
            binders,
        }
    }

    /// The number of the last definition of the function of this name, by the rules of the bounds too.
    fn last_of(&self, name: &str) -> u64
        ensures { result ≡ (B.rules self.now.bounds.now).last name.now }
    {
        last_of(self.algo, name)
    }
}

/// Whether the definition is the one after another.
fn is_next(before: u64, definition: u64) -> bool
    ensures { result ≡ is_next before definition }
{
    match definition.checked_sub(1) {
        None => false,
        Some(last) => last == before,
    }
}

impl<B: Bounds> NestTests for PlainNests<'_, B> {
    ghost use Rattle.soundness.specs.Outline.View.{outline_in};
    ghost use Rattle.soundness.specs.Nests.Laws.{domains_of};
    ghost use Rattle.soundness.specs.Nests.Tests.{plain_nests};

    ghost nests = { λ t. plain_nests (outline_in t.outlined.now) (B.rules t.bounds.now) (domains_of (algorithm_of t.algo.now)) };

    fn is_made(
        &self,
        alloc: Global,
        binders: &[Binder<'_>],
        claim: u64,
        from: Option<u64>,
        places: &[Places],
        by: &Stmt,
    ) -> Result<bool, AllocError> {
        let at = self.at(alloc, binders);
        let unknown = no_claim(alloc);
        let claim = claim_in(self.outlined, &unknown, claim);
        let Some(nested) = line_in(alloc, by, claim.buffer)? else {
            return Ok(false);
        };
        match from {
            None => {
                if is_filled(&at, self.outlined, claim, places, &nested)? {
                    return Ok(true);
                }
                let last = self.last_of(claim.function.as_str());
                is_fetched(&at, self.outlined, last, claim, places, &nested)
            }
            Some(before) => {
                if is_next(before, claim.definition) {
                    is_advanced(&at, self.outlined, self.algo, claim, &nested)
                } else {
                    Ok(false)
                }
            }
        }
    }

    fn is_in_turn(
        &self,
        alloc: Global,
        binders: &[Binder<'_>],
        claim: u64,
        by: &Stmt,
    ) -> Result<bool, AllocError> {
        let at = self.at(alloc, binders);
        let unknown = no_claim(alloc);
        let claim = claim_in(self.outlined, &unknown, claim);
        match line_in(alloc, by, claim.buffer)? {
            None => Ok(false),
            Some(nested) => is_ordered(&at, self.outlined, self.algo, claim, &nested),
        }
    }

    fn is_slid(
        &self,
        alloc: Global,
        binders: &[Binder<'_>],
        window: &Window,
        claim: u64,
        places: &[Places],
        by: &Stmt,
    ) -> Result<bool, AllocError> {
        Ok(false)
    }

    fn is_held(
        &self,
        alloc: Global,
        binders: &[Binder<'_>],
        window: &Window,
        claim: u64,
        places: &[Places],
        by: &Stmt,
    ) -> Result<bool, AllocError> {
        Ok(false)
    }
}
