//! What a store asks for.

ghost use Rattle.std.specs.Prelude.{◌≡◌, ◌∷◌, [], ◌++◌, IfOk, OnOk, map, filter, flat_map};
ghost use Rattle.std.specs.List.{list_any};
ghost use Rattle.tree.specs.Term.{term_of};
ghost use Rattle.plan.specs.Plan.{Store};
ghost use Rattle.plan.specs.View.{coordinate_of, index_of};
ghost use Rattle.soundness.specs.Obligations.{claimed, coordinate_loads, index_loads, index_place, is_begun, obligation, obligations, region_of, seated, serves, store_obligations, target_span, variable_span, places_of, Inside, Named, NotClaimed};
ghost use Rattle.soundness.specs.Outline.View.{outline_in};
ghost use Rattle.obligations.specs.Context.Around.{known_of, nest_of};
ghost use Rattle.obligations.specs.Asked.{first_unmet};
ghost use Rattle.obligations.specs.Loads.{asked_by_nests, asked_by_store, coordinates_of, known_in, loads_in, may_in, meets_in, names_in, variable_spans};

use crate::asked::told;
use crate::context::{Facts, Judge, Known, Nest, are_within, have_room, said_by};
use crate::loads::{Reads, serves, unmet_loads};
use crate::spans::{exactly, names_of, push_variables};
use lin::{Region, Span1};
use plan::{Coordinate, Index};
use soundness::binders::NestTests;
use soundness::outline::refusals::{Flaw, K};
use std::alloc::AllocError;
use tree::Expr;

/// Where an index of a store's left side, whose variables have these spans, writes.
fn index_place<B: Facts, T: NestTests>(
    judge: &Judge<'_, B, T>,
    reads: &Reads<'_, '_>,
    left: &Region,
    index: &Index,
) -> Result<Span1, AllocError>
    ensures { IfOk result (λ span. span ≡ index_place (outline_in judge.now.outlined.now) (B.rules judge.now.bounds.now) (known_in reads.now) (names_in reads.now) left.now (index_of index.now)) }
{
    match index {
        Index::Form(form) => exactly(judge.alloc, form.copy(judge.alloc)?),
        Index::Found(expr) => judge
            .bounds
            .interval(judge.alloc, &reads.known.binders, reads.names, left, expr),
    }
}

/// Where a store writes.
fn target_spans<B: Facts, T: NestTests>(
    judge: &Judge<'_, B, T>,
    reads: &Reads<'_, '_>,
    left: &Region,
) -> Result<Region, AllocError>
    ensures { IfOk result (λ places. places ≡ map (target_span (outline_in judge.now.outlined.now) (B.rules judge.now.bounds.now) (known_in reads.now) (names_in reads.now) left.now) (coordinates_of reads.now.at.now)) }
{
    let mut places = Region::new(judge.alloc);
    for coordinate in reads.at {
        places.push(index_place(judge, reads, left, &coordinate.index)?)?;
    }
    Ok(places)
}

/// An update that leaves the region of a nest's claim, if that does the update's steps.
#[tactic(auto, using(crate::proofs::Unmet::one, crate::proofs::Unmet::alone, crate::proofs::Unmet::nothing, crate::proofs::Unmet::append, crate::proofs::Unmet::stops, crate::proofs::Unmet::goes))]
fn unmet_by<B: Facts, T: NestTests>(
    judge: &Judge<'_, B, T>,
    reads: &Reads<'_, '_>,
    places: &[Span1],
    nest: Nest,
) -> Result<Option<Flaw>, AllocError>
    ensures { IfOk result (λ flaw. flaw ≡ first_unmet (B.rules judge.now.bounds.now) (T.nests judge.now.tests.now) judge.now.part (asked_by_nests (outline_in judge.now.outlined.now) (B.rules judge.now.bounds.now) reads.now places.now (nest ∷ []))) }
{
    if !serves(judge, reads.buffer, reads.function, reads.definition, nest) {
        return Ok(None);
    }
    let region = said_by(judge.outlined, nest.next).region;
    let shown = are_within(judge, &reads.known.binders, places, region)?;
    Ok(told(judge.part, K::K5, reads.line, shown))
}

/// An update that leaves the region of its nest's claim.
fn unmet_claimed<B: Facts, T: NestTests>(
    judge: &Judge<'_, B, T>,
    reads: &Reads<'_, '_>,
    places: &[Span1],
) -> Result<Option<Flaw>, AllocError>
    ensures { IfOk result (λ flaw. flaw ≡ first_unmet (B.rules judge.now.bounds.now) (T.nests judge.now.tests.now) judge.now.part (asked_by_nests (outline_in judge.now.outlined.now) (B.rules judge.now.bounds.now) reads.now places.now reads.now.updating.now)) }
{
    for nest in reads.updating {
        if let Some(flaw) = unmet_by(judge, reads, places, *nest)? {
            return Ok(Some(flaw));
        }
    }
    Ok(None)
}

/// Whether a nest under way does the steps of a store's definition.
fn is_served<B: Facts, T: NestTests>(judge: &Judge<'_, B, T>, reads: &Reads<'_, '_>) -> bool
    ensures { result ≡ list_any (λ u. serves (outline_in judge.now.outlined.now) (B.rules judge.now.bounds.now) reads.now.buffer reads.now.function.now reads.now.definition (nest_of u)) reads.now.updating.now }
{
    for nest in reads.updating {
        if serves(judge, reads.buffer, reads.function, reads.definition, *nest) {
            return true;
        }
    }
    false
}

/// An update that stands in no nest of its claim, or leaves the claim's region.
fn unmet_nest<B: Facts, T: NestTests>(
    judge: &Judge<'_, B, T>,
    reads: &Reads<'_, '_>,
    places: &[Span1],
) -> Result<Option<Flaw>, AllocError>
    ensures { IfOk result (λ flaw. flaw ≡ first_unmet (B.rules judge.now.bounds.now) (T.nests judge.now.tests.now) judge.now.part (obligation (outline_in judge.now.outlined.now) (B.rules judge.now.bounds.now) NotClaimed reads.now.line (known_in reads.now) (Named (is_begun (outline_in judge.now.outlined.now) (B.rules judge.now.bounds.now) (known_in reads.now) reads.now.buffer reads.now.function.now reads.now.definition)) ∷ claimed (outline_in judge.now.outlined.now) (B.rules judge.now.bounds.now) reads.now.line (known_in reads.now) reads.now.buffer reads.now.function.now reads.now.definition places.now)) }
{
    if reads.definition == 0 {
        return Ok(None);
    }
    let begun = is_served(judge, reads);
    if let Some(flaw) = told(judge.part, K::K5, reads.line, begun) {
        return Ok(Some(flaw));
    }
    unmet_claimed(judge, reads, places)
}

/// What the loads of an index of a left side ask for.
#[tactic(auto, using(crate::proofs::Unmet::one, crate::proofs::Unmet::alone, crate::proofs::Unmet::nothing, crate::proofs::Unmet::append, crate::proofs::Unmet::stops, crate::proofs::Unmet::goes))]
fn unmet_index<B: Facts, T: NestTests>(
    judge: &Judge<'_, B, T>,
    reads: &Reads<'_, '_>,
    left: &Region,
    index: &Index,
) -> Result<Option<Flaw>, AllocError>
    ensures { IfOk result (λ flaw. flaw ≡ first_unmet (B.rules judge.now.bounds.now) (T.nests judge.now.tests.now) judge.now.part (index_loads (outline_in judge.now.outlined.now) (B.rules judge.now.bounds.now) reads.now.line (known_in reads.now) (may_in (outline_in judge.now.outlined.now) (B.rules judge.now.bounds.now) reads.now) (meets_in (outline_in judge.now.outlined.now) (B.rules judge.now.bounds.now) reads.now) (names_in reads.now) left.now (index_of index.now))) }
{
    match index {
        Index::Form(_) => Ok(None),
        Index::Found(expr) => unmet_loads(judge, reads, left, expr),
    }
}

/// What the loads of a left side ask for.
fn unmet_targets<B: Facts, T: NestTests>(
    judge: &Judge<'_, B, T>,
    reads: &Reads<'_, '_>,
    left: &Region,
) -> Result<Option<Flaw>, AllocError>
    ensures { IfOk result (λ flaw. flaw ≡ first_unmet (B.rules judge.now.bounds.now) (T.nests judge.now.tests.now) judge.now.part (flat_map (coordinate_loads (outline_in judge.now.outlined.now) (B.rules judge.now.bounds.now) reads.now.line (known_in reads.now) (may_in (outline_in judge.now.outlined.now) (B.rules judge.now.bounds.now) reads.now) (meets_in (outline_in judge.now.outlined.now) (B.rules judge.now.bounds.now) reads.now) (names_in reads.now) left.now) (coordinates_of reads.now.at.now))) }
{
    for coordinate in reads.at {
        if let Some(flaw) = unmet_index(judge, reads, left, &coordinate.index)? {
            return Ok(Some(flaw));
        }
    }
    Ok(None)
}

/// What the loads of a store ask for, where its left side's variables and its places have these spans.
#[tactic(auto, using(crate::proofs::Unmet::one, crate::proofs::Unmet::alone, crate::proofs::Unmet::nothing, crate::proofs::Unmet::append, crate::proofs::Unmet::stops, crate::proofs::Unmet::goes))]
fn unmet_reads<B: Facts, T: NestTests>(
    judge: &Judge<'_, B, T>,
    reads: &Reads<'_, '_>,
    over: &[Coordinate],
    left: &Region,
    places: Region,
    value: &Expr,
) -> Result<Option<Flaw>, AllocError>
    ensures { IfOk result (λ flaw. flaw ≡ first_unmet (B.rules judge.now.bounds.now) (T.nests judge.now.tests.now) judge.now.part (flat_map (coordinate_loads (outline_in judge.now.outlined.now) (B.rules judge.now.bounds.now) reads.now.line (known_in reads.now) (may_in (outline_in judge.now.outlined.now) (B.rules judge.now.bounds.now) reads.now) (meets_in (outline_in judge.now.outlined.now) (B.rules judge.now.bounds.now) reads.now) (names_in reads.now) left.now) (coordinates_of reads.now.at.now) ++ loads_in (outline_in judge.now.outlined.now) (B.rules judge.now.bounds.now) reads.now (places ++ variable_spans (outline_in judge.now.outlined.now) (B.rules judge.now.bounds.now) over.now) (term_of value.now))) }
{
    if let Some(flaw) = unmet_targets(judge, reads, left)? {
        return Ok(Some(flaw));
    }
    let mut right = places;
    push_variables(judge, over, &mut right)?;
    unmet_loads(judge, reads, &right, value)
}

/// What a store asks for, where its left side's variables have these spans.
#[tactic(auto, using(crate::proofs::Unmet::one, crate::proofs::Unmet::alone, crate::proofs::Unmet::nothing, crate::proofs::Unmet::append, crate::proofs::Unmet::stops, crate::proofs::Unmet::goes, crate::proofs::Unmet::some_apart))]
fn unmet_parts<B: Facts, T: NestTests>(
    judge: &Judge<'_, B, T>,
    reads: &Reads<'_, '_>,
    over: &[Coordinate],
    left: &Region,
    value: &Expr,
) -> Result<Option<Flaw>, AllocError>
    ensures { IfOk result (λ flaw. flaw ≡ first_unmet (B.rules judge.now.bounds.now) (T.nests judge.now.tests.now) judge.now.part (asked_by_store (outline_in judge.now.outlined.now) (B.rules judge.now.bounds.now) reads.now over.now left.now (term_of value.now))) }
{
    let places = target_spans(judge, reads, left)?;
    let room = reads.known.places_of(reads.buffer);
    let seated = have_room(judge, &reads.known.binders, places.as_slice(), room)?;
    if let Some(flaw) = told(judge.part, K::K4, reads.line, seated) {
        return Ok(Some(flaw));
    }
    if let Some(flaw) = unmet_nest(judge, reads, places.as_slice())? {
        return Ok(Some(flaw));
    }
    unmet_reads(judge, reads, over, left, places, value)
}

/// What a store asks for.
pub(crate) fn unmet_store<B: Facts, T: NestTests>(
    judge: &Judge<'_, B, T>,
    line: u32,
    known: &Known<'_>,
    updating: &[Nest],
    buffer: u64,
    definition: u64,
    coordinates: &[Coordinate],
    value: &Expr,
) -> Result<Option<Flaw>, AllocError>
    ensures { IfOk result (λ flaw. flaw ≡ first_unmet (B.rules judge.now.bounds.now) (T.nests judge.now.tests.now) judge.now.part (obligations (outline_in judge.now.outlined.now) (B.rules judge.now.bounds.now) (Store buffer definition (coordinates_of coordinates.now) (term_of value.now)) line (known_of known.now updating.now))) }
{
    let dimensions = judge.outlined.dimensions(buffer).min(coordinates.len());
    let (at, over) = coordinates.split_at(dimensions);
    let names = names_of(judge.alloc, coordinates)?;
    let mut left = Region::new(judge.alloc);
    push_variables(judge, coordinates, &mut left)?;
    let reads = Reads {
        line,
        known,
        updating,
        buffer,
        function: judge.outlined.buffer_function(buffer),
        definition,
        at,
        names: names.as_slice(),
    };
    unmet_parts(judge, &reads, over, &left, value)
}
