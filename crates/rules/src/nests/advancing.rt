//! Nests of a function's updates.

ghost use Rattle.std.specs.Prelude.{◌≡◌, ◌==◌, ◌<◌, ◌&&◌, ◌||◌, length, IfOk};
ghost use Rattle.std.specs.List.{list_all};
ghost use Rattle.tree.specs.Term.{term_of};
ghost use Rattle.plan.specs.Plan.{Store};
ghost use Rattle.algo.specs.View.{algorithm_of};
ghost use Rattle.plan.specs.Certificate.Certificate.{claim_of};
ghost use Rattle.soundness.specs.Binders.View.{binders_of};
ghost use Rattle.soundness.specs.Outline.View.{outline_in};
ghost use Rattle.soundness.specs.Nests.Laws.{domains_of};
ghost use Rattle.soundness.specs.Nests.Tests.{is_advanced, is_among, is_ordered, runs_over};
ghost use Rattle.rules.specs.Nests.View.{coordinates_of, loops_of, nest_held};

use crate::nests::at::At;
use crate::nests::covering::others_run_over;
use crate::nests::lines::{Nested, PlainLoop};
use crate::nests::matching::{are_forms, are_matched};
use crate::nests::ranges::domain_of;
use crate::nests::reduction::is_reduced;
use crate::nests::sides::{left_of, over_of};
use algo::Algo;
use algo::scoping::same_name;
use lin::Span1;
use plan::certificate::Claim;
use plan::{Coordinate, Stmt};
use soundness::binders::Bounds;
use soundness::outline::Outlined;
use std::alloc::AllocError;
use tree::Expr;

/// Whether a store of an update, with these loops round it, does each step of the claim's definition in its turn.
#[tactic(auto, using(crate::proofs::Stores::both_sides, crate::proofs::Stores::ordered_by))]
fn orders<B: Bounds>(
    at: &At<'_, B>,
    outlined: &Outlined<'_>,
    algo: &Algo,
    claim: &Claim,
    loops: &[PlainLoop<'_>],
    buffer: u64,
    definition: u64,
    coordinates: &[Coordinate],
    value: &Expr,
) -> Result<bool, AllocError>
    requires { 0 < definition }
    ensures { IfOk result (λ yes. yes ≡ is_ordered (outline_in outlined.now).setting (B.rules at.now.bounds.now) (domains_of (algorithm_of algo.now)) (binders_of at.now.binders.now) (claim_of claim.now) (loops_of loops.now) (Store buffer definition (coordinates_of coordinates.now) (term_of value.now))) }
{
    if claim.definition != definition {
        return Ok(false);
    }
    if !same_name(outlined.buffer_function(buffer), claim.function.as_str()) {
        return Ok(false);
    }
    let over = over_of(coordinates, outlined.dimensions(buffer));
    if !are_forms(over) {
        return Ok(false);
    }
    if !are_matched(loops, coordinates) {
        return Ok(false);
    }
    let domain = domain_of(algo, claim.function.as_str(), definition);
    is_reduced(at, domain, over, loops)
}

/// Whether the line, with its loops round it, is a store of an update that does each step of the claim's definition in its turn.
#[tactic(auto, using(crate::proofs::Stores::pure_unordered))]
pub(crate) fn is_ordered<B: Bounds>(
    at: &At<'_, B>,
    outlined: &Outlined<'_>,
    algo: &Algo,
    claim: &Claim,
    nested: &Nested<'_>,
) -> Result<bool, AllocError>
    ensures { IfOk result (λ yes. yes ≡ is_ordered (outline_in outlined.now).setting (B.rules at.now.bounds.now) (domains_of (algorithm_of algo.now)) (binders_of at.now.binders.now) (claim_of claim.now) (nest_held nested.now).loops (nest_held nested.now).line) }
{
    match nested.line {
        Stmt::Store {
            buffer,
            definition,
            coordinates,
            value,
        } => {
            if *definition == 0 {
                Ok(false)
            } else {
                orders(
                    at,
                    outlined,
                    algo,
                    claim,
                    &nested.loops,
                    *buffer,
                    *definition,
                    coordinates,
                    value,
                )
            }
        }
        _ => Ok(false),
    }
}

/// Whether the loops but those of the reduction are shown to run over the region, of each coordinate's span by one loop.
#[tactic(auto, using(crate::proofs::Stores::mapped_length))]
fn others_cover<B: Bounds>(
    at: &At<'_, B>,
    region: &[Span1],
    left: &[Coordinate],
    over: &[Coordinate],
    loops: &[PlainLoop<'_>],
) -> Result<bool, AllocError>
    ensures { IfOk result (λ yes. yes ≡ ((length (coordinates_of left.now) == length region.now) && list_all (λ l. is_among (coordinates_of over.now) l || runs_over (B.rules at.now.bounds.now) (binders_of at.now.binders.now) (coordinates_of left.now) region.now l) (loops_of loops.now))) }
{
    if left.len() == region.len() {
        others_run_over(at, left, region, over, loops)
    } else {
        Ok(false)
    }
}

/// Whether the line, with its loops round it, is a store of an update that does each step of the claim's definition in its turn
/// at each point of the claim's region.
pub(crate) fn is_advanced<B: Bounds>(
    at: &At<'_, B>,
    outlined: &Outlined<'_>,
    algo: &Algo,
    claim: &Claim,
    nested: &Nested<'_>,
) -> Result<bool, AllocError>
    ensures { IfOk result (λ yes. yes ≡ is_advanced (outline_in outlined.now).setting (B.rules at.now.bounds.now) (domains_of (algorithm_of algo.now)) (binders_of at.now.binders.now) (claim_of claim.now) (nest_held nested.now).loops (nest_held nested.now).line) }
{
    let ordered = is_ordered(at, outlined, algo, claim, nested)?;
    match nested.line {
        Stmt::Store {
            buffer,
            coordinates,
            ..
        } => {
            if ordered {
                let count = outlined.dimensions(*buffer);
                let left = left_of(coordinates, count);
                let over = over_of(coordinates, count);
                others_cover(at, claim.region.as_slice(), left, over, &nested.loops)
            } else {
                Ok(false)
            }
        }
        _ => Ok(false),
    }
}
