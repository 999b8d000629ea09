//! Spans and names of coordinates.

ghost use Rattle.std.specs.Prelude.{◌≡◌, ◌++◌, IfOk, OnOk, map};
ghost use Rattle.plan.specs.View.{index_of};
ghost use Rattle.soundness.specs.Obligations.{exactly, anything, index_met, index_span};
ghost use Rattle.soundness.specs.Outline.View.{outline_in};
ghost use Rattle.obligations.specs.Loads.{met_spans, names_of, variable_spans};

use crate::context::{Facts, Judge};
use lin::{Forms, Lin, Region, Span1};
use plan::{Coordinate, Index};
use soundness::binders::NestTests;
use std::alloc::{AllocError, Global};

/// The span of one number.
pub(crate) fn exactly(alloc: Global, form: Lin) -> Result<Span1, AllocError>
    ensures { IfOk result (λ span. span ≡ exactly form) }
{
    let mut lower = Forms::new(alloc);
    let mut upper = Forms::new(alloc);
    lower.push(form.copy(alloc)?)?;
    upper.push(form)?;
    Ok(Span1 { lower, upper })
}

/// The span of all numbers.
fn anything(alloc: Global) -> Span1
    ensures { result ≡ anything }
{
    Span1 {
        lower: Forms::new(alloc),
        upper: Forms::new(alloc),
    }
}

/// The points that an index of a left side may be, as far as forms tell.
fn index_met<B: Facts, T: NestTests>(
    judge: &Judge<'_, B, T>,
    index: &Index,
) -> Result<Span1, AllocError>
    ensures { IfOk result (λ span. span ≡ index_met (outline_in judge.now.outlined.now) (B.rules judge.now.bounds.now) (index_of index.now)) }
{
    match index {
        Index::Form(form) => exactly(judge.alloc, form.copy(judge.alloc)?),
        Index::Found(_) => Ok(anything(judge.alloc)),
    }
}

/// The points that a left side may be, as far as forms tell.
pub(crate) fn met_spans<B: Facts, T: NestTests>(
    judge: &Judge<'_, B, T>,
    at: &[Coordinate],
) -> Result<Region, AllocError>
    ensures { IfOk result (λ region. region ≡ met_spans (outline_in judge.now.outlined.now) (B.rules judge.now.bounds.now) at.now) }
{
    let mut region = Region::new(judge.alloc);
    for coordinate in at {
        region.push(index_met(judge, &coordinate.index)?)?;
    }
    Ok(region)
}

/// What an index is as a variable of the left side.
fn index_span<B: Facts, T: NestTests>(
    judge: &Judge<'_, B, T>,
    index: &Index,
) -> Result<Span1, AllocError>
    ensures { IfOk result (λ span. span ≡ index_span (outline_in judge.now.outlined.now) (B.rules judge.now.bounds.now) (index_of index.now)) }
{
    match index {
        Index::Form(form) => exactly(judge.alloc, form.copy(judge.alloc)?),
        Index::Found(_) => exactly(judge.alloc, Lin::number(judge.alloc, 0)),
    }
}

/// Adds what coordinates are as variables of the left side.
pub(crate) fn push_variables<B: Facts, T: NestTests>(
    judge: &Judge<'_, B, T>,
    coordinates: &[Coordinate],
    region: &mut Region,
) -> Result<(), AllocError>
    ensures { OnOk result (region.new ≡ region.old ++ variable_spans (outline_in judge.now.outlined.now) (B.rules judge.now.bounds.now) coordinates.now) }
{
    for coordinate in coordinates {
        region.push(index_span(judge, &coordinate.index)?)?;
    }
    Ok(())
}

/// The variables' names.
pub(crate) fn names_of<'c>(
    alloc: Global,
    coordinates: &'c [Coordinate],
) -> Result<Vec<&'c str>, AllocError>
    ensures { IfOk result (λ names. map (λ x. x.now) names.items ≡ names_of coordinates.now) }
{
    let mut names = Vec::new(alloc);
    for coordinate in coordinates {
        names.push(coordinate.variable.as_str())?;
    }
    Ok(names)
}
