//! Stores of a pure definition, with the steps down to them.

ghost use Rattle.std.specs.Prelude.{◌≡◌, ◌&&◌, ◌++◌, map, false, IfOk, MatchOption};
ghost use Rattle.std.specs.List.{list_all};
ghost use Rattle.std.specs.Option.{option_map};
ghost use Rattle.meaning.specs.Names.{same_name};
ghost use Rattle.plan.specs.View.{coordinate_of, statement_of};
ghost use Rattle.plan.specs.Certificate.Certificate.{claim_of};
ghost use Rattle.soundness.specs.Obligations.{exactly, is_form};
ghost use Rattle.soundness.specs.Shown.{are_seated};
ghost use Rattle.soundness.specs.Binders.View.{binders_of};
ghost use Rattle.soundness.specs.Outline.View.{outline_in};
ghost use Rattle.tails.specs.Steps.{along, spine_of};
ghost use Rattle.tails.specs.Apart.{is_apart, is_steady};
ghost use Rattle.tails.specs.Stored.{forms_at, has_places, pure_forms, stored_by};
ghost use Rattle.tails.specs.View.{step_of};
ghost use Rattle.tails.specs.SplitMaps.{stored_of, FormsAre};
ghost use Rattle.tails.specs.Held.{pendings_of};

use crate::apart::{binder_of, is_apart};
use crate::descent::{Spine, Step, spine_of};
use crate::guarded::along;
use crate::maps::{SplitMap, each_exactly};
use crate::pending::{Pending, is_outer};
use crate::sides::{left_of, over_of};
use algo::scoping::same_name;
use lin::{Lin, Span1};
use plan::certificate::Claim;
use plan::{Coordinate, Index, Places, Stmt};
use soundness::binders::{Binder, Bounds};
use soundness::outline::Outlined;
use std::alloc::{AllocError, Global};

/// What the coordinates are; None where one is found by an expression.
#[tactic(auto, using(crate::proofs::Splitting::forms_more, crate::proofs::Splitting::not_form, crate::proofs::Splitting::not_forms))]
fn forms_of<'a>(
    alloc: Global,
    coordinates: &'a [Coordinate],
) -> Result<Option<Vec<&'a Lin>>, AllocError>
    ensures { IfOk result (λ found. MatchOption found (list_all is_form (map coordinate_of coordinates.now) ≡ false) (λ forms. FormsAre (map coordinate_of coordinates.now) (map (λ f. f.now) forms.items))) }
{
    match coordinates {
        [] => Ok(Some(Vec::new(alloc))),
        [first, rest @ ..] => {
            let Index::Form(form) = &first.index else {
                return Ok(None);
            };
            match forms_of(alloc, rest)? {
                Some(mut forms) => {
                    forms.insert(0, form)?;
                    Ok(Some(forms))
                }
                None => Ok(None),
            }
        }
    }
}

/// What the coordinates of the left side are, if it is that of a pure definition of the claim's function and all of them are forms.
#[tactic(auto, using(crate::proofs::Splitting::over_is_not))]
fn pure_forms<'a>(
    alloc: Global,
    outlined: &Outlined<'_>,
    claim: &Claim,
    buffer: u64,
    coordinates: &'a [Coordinate],
) -> Result<Option<Vec<&'a Lin>>, AllocError>
    ensures { IfOk result (λ found. option_map (λ fs. map (λ f. f.now) fs.items) found ≡ pure_forms (outline_in outlined.now).setting (claim_of claim.now) buffer (map coordinate_of coordinates.now)) }
{
    if claim.definition != 0 {
        return Ok(None);
    }
    if !same_name(outlined.buffer_function(buffer), claim.function.as_str()) {
        return Ok(None);
    }
    let count = outlined.dimensions(buffer);
    if !over_of(coordinates, count).is_empty() {
        return Ok(None);
    }
    forms_of(alloc, left_of(coordinates, count))
}

/// What the coordinates of the line are, if it is a store of the pure definition of the claim's function and all of them are forms.
fn forms_at<'a>(
    alloc: Global,
    outlined: &Outlined<'_>,
    claim: &Claim,
    line: &'a Stmt,
) -> Result<Option<Vec<&'a Lin>>, AllocError>
    ensures { IfOk result (λ found. option_map (λ fs. map (λ f. f.now) fs.items) found ≡ forms_at (outline_in outlined.now).setting (claim_of claim.now) (statement_of line.now)) }
{
    match line {
        Stmt::Store {
            buffer,
            definition,
            coordinates,
            ..
        } => {
            if *definition == 0 {
                pure_forms(alloc, outlined, claim, *buffer, coordinates)
            } else {
                Ok(None)
            }
        }
        _ => Ok(None),
    }
}

/// The points that the statement stores in the claim's buffer, if its one line that changes the buffer is a store of the pure
/// definition of the claim's function, of which all coordinates are forms.
pub fn stored_by<'a>(
    alloc: Global,
    outlined: &Outlined<'_>,
    claim: &Claim,
    by: &'a Stmt,
) -> Result<Option<SplitMap<'a>>, AllocError>
    ensures { IfOk result (λ found. option_map stored_of found ≡ stored_by (outline_in outlined.now).setting (claim_of claim.now) (spine_of (statement_of by.now) (claim_of claim.now).buffer)) }
{
    let Some(Spine { steps, line }) = spine_of(alloc, by, claim.buffer)? else {
        return Ok(None);
    };
    match forms_at(alloc, outlined, claim, line)? {
        Some(forms) => Ok(Some(SplitMap { steps, forms })),
        None => Ok(None),
    }
}

/// Whether the binders have nothing to do with the steps' symbols.
#[tactic(auto, using(crate::proofs::Splitting::all_of_last))]
fn are_apart(steps: &[Pending<'_>], binders: &[Binder<'_>]) -> bool
    ensures { result ≡ list_all (is_apart (pendings_of steps.now)) (binders_of binders.now) }
{
    match binders {
        [] => true,
        [first, rest @ ..] => is_apart(steps, first) && are_apart(steps, rest),
    }
}

/// Whether the first place is the same at all turns of the steps. Folded places have no first one, and are taken or not.
fn is_steady(folded: bool, steps: &[Pending<'_>], places: &Places) -> bool
    ensures { result ≡ is_steady folded (pendings_of steps.now) places.now }
{
    match places {
        Places::From { origin, .. } => is_outer(steps, origin),
        Places::Folded { .. } => folded,
    }
}

/// Whether the first place of each coordinate is the same at all turns of the steps.
fn are_steady(folded: bool, steps: &[Pending<'_>], places: &[Places]) -> bool
    ensures { result ≡ list_all (is_steady folded (pendings_of steps.now)) places.now }
{
    places.iter().all(|one| is_steady(folded, steps, one))
}

/// Whether what is bound around, and where the places begin, is the same at all turns of the steps.
fn is_fixed(
    alloc: Global,
    folded: bool,
    binders: &[Binder<'_>],
    steps: &[Step<'_>],
    places: &[Places],
) -> Result<bool, AllocError>
    ensures { IfOk result (λ yes. yes ≡ (list_all (is_apart (along (map step_of steps.now))) (binders_of binders.now) && list_all (is_steady folded (along (map step_of steps.now))) places.now)) }
{
    let steps = along(alloc, steps)?;
    Ok(are_apart(&steps, binders) && are_steady(folded, &steps, places))
}

/// The same binders.
fn copied<'a>(alloc: Global, binders: &[Binder<'a>]) -> Result<Vec<Binder<'a>>, AllocError>
    ensures { IfOk result (λ all. all.items ≡ binders.now) }
{
    let mut all = Vec::new(alloc);
    for binder in binders {
        all.push(*binder)?;
    }
    Ok(all)
}

/// The binders and behind them the steps, from the outermost on.
#[tactic(auto, using(crate::proofs::Splitting::binders_more, crate::proofs::Pairing::along_more))]
pub fn inner_binders<'a>(
    alloc: Global,
    binders: &[Binder<'a>],
    steps: &[Step<'a>],
) -> Result<Vec<Binder<'a>>, AllocError>
    ensures { IfOk result (λ all. binders_of all.items ≡ along (map step_of steps.now) ++ binders_of binders.now) }
{
    let mut all = copied(alloc, binders)?;
    for step in steps {
        all.push(binder_of(step))?;
    }
    Ok(all)
}

/// Whether each number of each span is shown to have a place.
fn are_seated<B: Bounds>(
    alloc: Global,
    bounds: &B,
    binders: &[Binder<'_>],
    spans: &[Span1],
    places: &[Places],
) -> Result<bool, AllocError>
    ensures { IfOk result (λ yes. yes ≡ are_seated (B.rules bounds.now) (binders_of binders.now) spans.now places.now) }
{
    match (spans, places) {
        ([], []) => Ok(true),
        ([], [_, ..]) => Ok(false),
        ([_, ..], []) => Ok(false),
        ([span, spans @ ..], [one, places @ ..]) => {
            if bounds.is_seated(alloc, binders, span, one)? {
                are_seated(alloc, bounds, binders, spans, places)
            } else {
                Ok(false)
            }
        }
    }
}

/// Whether each point of the steps is shown to have a place.
fn are_placed<B: Bounds>(
    alloc: Global,
    bounds: &B,
    binders: &[Binder<'_>],
    steps: &[Step<'_>],
    forms: &[&Lin],
    places: &[Places],
) -> Result<bool, AllocError>
    ensures { IfOk result (λ yes. yes ≡ are_seated (B.rules bounds.now) (along (map step_of steps.now) ++ binders_of binders.now) (map exactly (map (λ f. f.now) forms.now)) places.now) }
{
    let inner = inner_binders(alloc, binders, steps)?;
    let spans = each_exactly(alloc, forms)?;
    are_seated(alloc, bounds, &inner, spans.as_slice(), places)
}

/// Whether the points are shown to have places, folded ones or not, whatever the symbols of the binders around stand for.
pub fn has_places<B: Bounds>(
    alloc: Global,
    folded: bool,
    bounds: &B,
    binders: &[Binder<'_>],
    map: &SplitMap<'_>,
    places: &[Places],
) -> Result<bool, AllocError>
    ensures { IfOk result (λ yes. yes ≡ has_places folded (B.rules bounds.now) (binders_of binders.now) (stored_of map.now) places.now) }
{
    if is_fixed(alloc, folded, binders, &map.steps, places)? {
        are_placed(alloc, bounds, binders, &map.steps, &map.forms, places)
    } else {
        Ok(false)
    }
}
