//! The left side of a store, its reduction variables, and the coordinates that are forms.

ghost use Rattle.std.specs.Prelude.{◌≡◌, ◌∷◌, drop, map, take, IfOk};
ghost use Rattle.plan.specs.View.{coordinate_of};
ghost use Rattle.tails.specs.Updates.{at_forms, forms_in};

use crate::spans::Spans;
use lin::{Lin, Span1};
use plan::{Coordinate, Index};
use std::alloc::{AllocError, Global};

/// The coordinates of the left side: so many, from the first on.
#[tactic(auto, using(crate::proofs::Stores::mapped_left, crate::proofs::Stores::mapped_all))]
pub(crate) fn left_of(coordinates: &[Coordinate], count: usize) -> &[Coordinate]
    ensures { map coordinate_of result.now ≡ take count (map coordinate_of coordinates.now) }
{
    if count < coordinates.len() {
        &coordinates[..count]
    } else {
        coordinates
    }
}

/// The coordinates behind those of the left side.
#[tactic(auto, using(crate::proofs::Stores::mapped_over, crate::proofs::Stores::mapped_none))]
pub(crate) fn over_of(coordinates: &[Coordinate], count: usize) -> &[Coordinate]
    ensures { map coordinate_of result.now ≡ drop count (map coordinate_of coordinates.now) }
{
    if count < coordinates.len() {
        &coordinates[count..]
    } else {
        &[]
    }
}

/// The forms with one more before them.
fn form_before<'a>(first: &'a Lin, forms: Vec<&'a Lin>) -> Result<Vec<&'a Lin>, AllocError>
    ensures { IfOk result (λ all. map (λ f. f.now) all.items ≡ first.now ∷ map (λ f. f.now) forms.entry.items) }
{
    let mut all = forms;
    all.insert(0, first)?;
    Ok(all)
}

/// What the coordinates are, but for those that are found by an expression.
pub(crate) fn forms_in<'a>(
    alloc: Global,
    coordinates: &'a [Coordinate],
) -> Result<Vec<&'a Lin>, AllocError>
    ensures { IfOk result (λ forms. map (λ f. f.now) forms.items ≡ forms_in (map coordinate_of coordinates.now)) }
{
    match coordinates {
        [] => Ok(Vec::new(alloc)),
        [first, rest @ ..] => {
            let more = forms_in(alloc, rest)?;
            match &first.index {
                Index::Form(form) => form_before(form, more),
                Index::Found(_) => Ok(more),
            }
        }
    }
}

/// The region's spans at the coordinates that are forms.
pub(crate) fn spans_in(
    alloc: Global,
    coordinates: &[Coordinate],
    region: &[Span1],
) -> Result<Spans, AllocError>
    ensures { IfOk result (λ spans. spans ≡ at_forms (map coordinate_of coordinates.now) region.now) }
{
    match (coordinates, region) {
        ([], _) => Ok(Spans::new(alloc)),
        ([_, ..], []) => Ok(Spans::new(alloc)),
        ([first, coordinates @ ..], [span, region @ ..]) => {
            let more = spans_in(alloc, coordinates, region)?;
            match &first.index {
                Index::Form(_) => more.behind(span.copy(alloc)?),
                Index::Found(_) => Ok(more),
            }
        }
    }
}
