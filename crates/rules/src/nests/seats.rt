//! Places of a nest's points.

ghost use Rattle.std.specs.Prelude.{◌≡◌, [], ◌∷◌, map, IfOk};
ghost use Rattle.plan.specs.View.{coordinate_of};
ghost use Rattle.soundness.specs.Shown.{are_seated};
ghost use Rattle.soundness.specs.Binders.View.{binders_of};
ghost use Rattle.soundness.specs.Nests.Tests.{binders_in, known_span};
ghost use Rattle.rules.specs.Nests.View.{coordinates_of, loops_of};

use crate::nests::at::At;
use crate::nests::lines::PlainLoop;
use lin::{Forms, Lin, Span1};
use plan::{Coordinate, Index, Places};
use soundness::binders::{Binder, Bounds};
use std::alloc::{AllocError, Global};

/// The same binders.
fn copied<'a>(alloc: Global, binders: &[Binder<'a>]) -> Result<Vec<Binder<'a>>, AllocError>
    ensures { IfOk result (λ all. all.items ≡ binders.now) }
{
    let mut all = Vec::new(alloc);
    for binder in binders {
        all.push(*binder)?;
    }
    Ok(all)
}

/// The binders and behind them those of the loops.
#[tactic(auto, using(crate::proofs::Chains::bound_from, crate::proofs::Chains::binders_more))]
pub(crate) fn binders_in<'a>(
    alloc: Global,
    binders: &[Binder<'a>],
    loops: &[PlainLoop<'a>],
) -> Result<Vec<Binder<'a>>, AllocError>
    ensures { IfOk result (λ all. binders_of all.items ≡ binders_in (loops_of loops.now) (binders_of binders.now)) }
{
    let mut all = copied(alloc, binders)?;
    for turns in loops {
        let binder = Binder::Ranged {
            symbol: turns.symbol,
            span: turns.span,
        };
        all.push(binder)?;
    }
    Ok(all)
}

/// The list of one form.
fn form_alone(alloc: Global, form: &Lin) -> Result<Forms, AllocError>
    ensures { IfOk result (λ forms. forms ≡ form.now ∷ []) }
{
    let mut forms = Forms::new(alloc);
    forms.push(form.copy(alloc)?)?;
    Ok(forms)
}

/// What is known of the coordinate before an expression is evaluated.
fn known_span(alloc: Global, coordinate: &Coordinate) -> Result<Span1, AllocError>
    ensures { IfOk result (λ span. span ≡ known_span (coordinate_of coordinate.now)) }
{
    match &coordinate.index {
        Index::Form(form) => Ok(Span1 {
            lower: form_alone(alloc, form)?,
            upper: form_alone(alloc, form)?,
        }),
        Index::Found(_) => Ok(Span1 {
            lower: Forms::new(alloc),
            upper: Forms::new(alloc),
        }),
    }
}

/// Whether each coordinate is shown to have a place.
pub(crate) fn coordinates_are_seated<B: Bounds>(
    at: &At<'_, B>,
    coordinates: &[Coordinate],
    places: &[Places],
) -> Result<bool, AllocError>
    ensures { IfOk result (λ yes. yes ≡ are_seated (B.rules at.now.bounds.now) (binders_of at.now.binders.now) (map known_span (coordinates_of coordinates.now)) places.now) }
{
    match (coordinates, places) {
        ([], []) => Ok(true),
        ([], [_, ..]) => Ok(false),
        ([_, ..], []) => Ok(false),
        ([first, coordinates @ ..], [one, places @ ..]) => {
            let span = known_span(at.alloc, first)?;
            if at.bounds.is_seated(at.alloc, at.binders, &span, one)? {
                coordinates_are_seated(at, coordinates, places)
            } else {
                Ok(false)
            }
        }
    }
}

/// Whether each number of each span is shown to have a place.
pub(crate) fn are_seated<B: Bounds>(
    at: &At<'_, B>,
    region: &[Span1],
    places: &[Places],
) -> Result<bool, AllocError>
    ensures { IfOk result (λ yes. yes ≡ are_seated (B.rules at.now.bounds.now) (binders_of at.now.binders.now) region.now places.now) }
{
    match (region, places) {
        ([], []) => Ok(true),
        ([], [_, ..]) => Ok(false),
        ([_, ..], []) => Ok(false),
        ([span, region @ ..], [one, places @ ..]) => {
            if at.bounds.is_seated(at.alloc, at.binders, span, one)? {
                are_seated(at, region, places)
            } else {
                Ok(false)
            }
        }
    }
}
