//! Nests of a function's pure definition.

ghost use Rattle.std.specs.Prelude.{◌≡◌, ◌==◌, ◌&&◌, length, map, zero, IfOk};
ghost use Rattle.std.specs.List.{list_all};
ghost use Rattle.tree.specs.Term.{term_of};
ghost use Rattle.plan.specs.Plan.{Store};
ghost use Rattle.plan.specs.Certificate.Certificate.{claim_of};
ghost use Rattle.soundness.specs.Shown.{are_seated};
ghost use Rattle.soundness.specs.Binders.View.{binders_of};
ghost use Rattle.soundness.specs.Outline.View.{outline_in};
ghost use Rattle.soundness.specs.Nests.Tests.{binders_in, is_filled, is_new, known_span, loops_hold, runs_over};
ghost use Rattle.rules.specs.Nests.View.{coordinates_of, loops_of, nest_held};

use crate::nests::at::At;
use crate::nests::covering::all_run_over;
use crate::nests::folds::loops_hold;
use crate::nests::lines::{Nested, PlainLoop};
use crate::nests::matching::{are_forms, are_matched};
use crate::nests::seats::{binders_in, coordinates_are_seated};
use crate::nests::sides::{left_of, over_of};
use crate::nests::symbols::are_new;
use algo::scoping::same_name;
use lin::Span1;
use plan::certificate::Claim;
use plan::{Coordinate, Places, Stmt};
use soundness::binders::Bounds;
use soundness::outline::Outlined;
use std::alloc::AllocError;
use tree::Expr;

/// Whether the loops are shown to run over the region, of each coordinate's span by one loop.
#[tactic(auto, using(crate::proofs::Stores::mapped_length))]
fn covers<B: Bounds>(
    at: &At<'_, B>,
    region: &[Span1],
    left: &[Coordinate],
    loops: &[PlainLoop<'_>],
) -> Result<bool, AllocError>
    ensures { IfOk result (λ yes. yes ≡ ((length (coordinates_of left.now) == length region.now) && list_all (runs_over (B.rules at.now.bounds.now) (binders_of at.now.binders.now) (coordinates_of left.now) region.now) (loops_of loops.now))) }
{
    if left.len() == region.len() {
        all_run_over(at, left, region, loops)
    } else {
        Ok(false)
    }
}

/// Whether the points of the store are shown to have places of their own in the buffer.
fn has_places<'a, B: Bounds>(
    at: &At<'a, B>,
    left: &[Coordinate],
    loops: &[PlainLoop<'a>],
    places: &[Places],
) -> Result<bool, AllocError>
    ensures { IfOk result (λ yes. yes ≡ (loops_hold (B.rules at.now.bounds.now) (binders_of at.now.binders.now) (loops_of loops.now) (coordinates_of left.now) places.now && (list_all (is_new (binders_of at.now.binders.now) places.now) (loops_of loops.now) && are_seated (B.rules at.now.bounds.now) (binders_in (loops_of loops.now) (binders_of at.now.binders.now)) (map known_span (coordinates_of left.now)) places.now))) }
{
    if !loops_hold(at, loops, left, places)? {
        return Ok(false);
    }
    if !are_new(at.binders, places, loops) {
        return Ok(false);
    }
    let inner = binders_in(at.alloc, at.binders, loops)?;
    let within = At {
        alloc: at.alloc,
        bounds: at.bounds,
        binders: &inner,
    };
    coordinates_are_seated(&within, left, places)
}

/// Whether a store of definition 0 with these loops round it fills the claim's region.
fn fills<'a, B: Bounds>(
    at: &At<'a, B>,
    outlined: &Outlined<'_>,
    claim: &Claim,
    places: &[Places],
    loops: &[PlainLoop<'a>],
    buffer: u64,
    coordinates: &[Coordinate],
    value: &Expr,
) -> Result<bool, AllocError>
    ensures { IfOk result (λ yes. yes ≡ is_filled (outline_in outlined.now).setting (B.rules at.now.bounds.now) (binders_of at.now.binders.now) (claim_of claim.now) places.now (loops_of loops.now) (Store buffer zero (coordinates_of coordinates.now) (term_of value.now))) }
{
    if claim.definition != 0 {
        return Ok(false);
    }
    if !same_name(outlined.buffer_function(buffer), claim.function.as_str()) {
        return Ok(false);
    }
    let count = outlined.dimensions(buffer);
    let left = left_of(coordinates, count);
    if !are_forms(left) {
        return Ok(false);
    }
    if !over_of(coordinates, count).is_empty() {
        return Ok(false);
    }
    if !are_matched(loops, left) {
        return Ok(false);
    }
    if !covers(at, claim.region.as_slice(), left, loops)? {
        return Ok(false);
    }
    has_places(at, left, loops, places)
}

/// Whether the line, with its loops round it, is a store of the function's pure definition that fills the claim's region.
#[tactic(auto, using(crate::proofs::Stores::update_unfilled))]
pub(crate) fn is_filled<'a, B: Bounds>(
    at: &At<'a, B>,
    outlined: &Outlined<'_>,
    claim: &Claim,
    places: &[Places],
    nested: &Nested<'a>,
) -> Result<bool, AllocError>
    ensures { IfOk result (λ yes. yes ≡ is_filled (outline_in outlined.now).setting (B.rules at.now.bounds.now) (binders_of at.now.binders.now) (claim_of claim.now) places.now (nest_held nested.now).loops (nest_held nested.now).line) }
{
    match nested.line {
        Stmt::Store {
            buffer,
            definition,
            coordinates,
            value,
        } => {
            if *definition == 0 {
                fills(
                    at,
                    outlined,
                    claim,
                    places,
                    &nested.loops,
                    *buffer,
                    coordinates,
                    value,
                )
            } else {
                Ok(false)
            }
        }
        _ => Ok(false),
    }
}
