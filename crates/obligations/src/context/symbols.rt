//! Where symbols stand.

ghost use Rattle.std.specs.Prelude.{◌≡◌, ◌||◌, map};
ghost use Rattle.std.specs.List.{list_any};
ghost use Rattle.soundness.specs.Obligations.{span_has, binder_has, places_have, region_of};
ghost use Rattle.soundness.specs.Binders.View.{binder_of};
ghost use Rattle.soundness.specs.Outline.View.{outline_in};
ghost use Rattle.obligations.specs.Context.Around.{around_has, known_of, nest_of, buffer_of};

use crate::context::facts::Facts;
use crate::context::judge::{Judge, said_by};
use crate::context::known::{Buffer, Known, Nest};
use lin::Sym;
use plan::Places;
use soundness::binders::symbols::{binder_has, places_have, spans_have};
use soundness::binders::{Binder, NestTests};

/// Whether a symbol stands in one of the binders.
fn binders_have(symbol: Sym, binders: &[Binder<'_>]) -> bool
    ensures { result ≡ list_any (λ b. binder_has symbol (binder_of b)) binders.now }
{
    for binder in binders {
        if binder_has(symbol, binder) {
            return true;
        }
    }
    false
}

/// Whether a symbol stands in the places of a buffer.
fn buffer_has(symbol: Sym, places: &[Places]) -> bool
    ensures { result ≡ list_any (places_have symbol) places.now }
{
    places.iter().any(|one| places_have(symbol, one))
}

/// Whether a symbol stands in the places of one of the buffers.
fn buffers_have(symbol: Sym, buffers: &[Buffer<'_>]) -> bool
    ensures { result ≡ list_any (λ b. list_any (places_have symbol) b.places.now) buffers.now }
{
    for buffer in buffers {
        if buffer_has(symbol, buffer.places) {
            return true;
        }
    }
    false
}

/// Whether a symbol stands in the region of a claim.
fn claim_has<B: Facts, T: NestTests>(judge: &Judge<'_, B, T>, symbol: Sym, claim: u64) -> bool
    ensures { result ≡ list_any (span_has symbol) (region_of (outline_in judge.now.outlined.now) (B.rules judge.now.bounds.now) claim) }
{
    spans_have(symbol, said_by(judge.outlined, claim).region)
}

/// Whether a symbol stands in the region of one of the claims.
fn claims_have<B: Facts, T: NestTests>(judge: &Judge<'_, B, T>, symbol: Sym, claims: &[u64]) -> bool
    ensures { result ≡ list_any (λ c. list_any (span_has symbol) (region_of (outline_in judge.now.outlined.now) (B.rules judge.now.bounds.now) c)) claims.now }
{
    for claim in claims {
        if claim_has(judge, symbol, *claim) {
            return true;
        }
    }
    false
}

/// Whether a symbol stands in the region of a claim of one of the nests.
fn nests_have<B: Facts, T: NestTests>(judge: &Judge<'_, B, T>, symbol: Sym, nests: &[Nest]) -> bool
    ensures { result ≡ list_any (λ u. list_any (span_has symbol) (region_of (outline_in judge.now.outlined.now) (B.rules judge.now.bounds.now) u.before) || list_any (span_has symbol) (region_of (outline_in judge.now.outlined.now) (B.rules judge.now.bounds.now) u.next)) nests.now }
{
    for nest in nests {
        if claim_has(judge, symbol, nest.before) || claim_has(judge, symbol, nest.next) {
            return true;
        }
    }
    false
}

/// Whether a symbol stands in what is known.
#[tactic(auto, using(crate::proofs::Bound::any_binders, crate::proofs::Bound::any_buffers, crate::proofs::Bound::any_nests))]
pub fn around_has<B: Facts, T: NestTests>(
    judge: &Judge<'_, B, T>,
    symbol: Sym,
    known: &Known<'_>,
    updating: &[Nest],
) -> bool
    ensures { result ≡ around_has (outline_in judge.now.outlined.now) (B.rules judge.now.bounds.now) symbol (known_of known.now updating.now) }
{
    binders_have(symbol, &known.binders)
        || buffers_have(symbol, &known.buffers)
        || claims_have(judge, symbol, &known.claims)
        || nests_have(judge, symbol, updating)
}
