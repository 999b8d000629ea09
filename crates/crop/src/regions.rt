//! Boxes as regions, and the names of their coordinates.

ghost use Rattle.std.specs.Prelude.{◌≡◌, IfOk, map};
ghost use Rattle.algo.specs.Parts.{names_of, range_of};
ghost use Rattle.bounds.specs.Spans.{numbers};
ghost use Rattle.crop.specs.Inference.Needed.{names_beside, with_domain};
ghost use Rattle.crop.specs.Cutting.{spans_of};

use crate::cut::Stretch;
use algo::Range;
use bounds::numbers;
use lin::{Region, Span1};
use std::alloc::{AllocError, Global};

// The span of a stretch.
fn span_of(alloc: Global, stretch: &Stretch) -> Result<Span1, AllocError>
    ensures { IfOk result (λ made. made ≡ numbers stretch.now.low stretch.now.high) }
{
    numbers(alloc, i64::from(stretch.low), i64::from(stretch.high))
}

/// A box as a region.
pub(crate) fn region_of(alloc: Global, stretches: &[Stretch]) -> Result<Region, AllocError>
    ensures { IfOk result (λ made. made ≡ spans_of stretches.now) }
{
    let mut region = Region::new(alloc);
    for stretch in stretches {
        region.push(span_of(alloc, stretch)?)?;
    }
    Ok(region)
}

/// A region, and beside it the ranges of an update's reduction variables.
pub(crate) fn with_domain(
    alloc: Global,
    region: &Region,
    ranges: &[Range],
) -> Result<Region, AllocError>
    ensures { IfOk result (λ made. made ≡ with_domain region.now (map range_of ranges.now)) }
{
    let mut made = region.copy(alloc)?;
    for range in ranges {
        made.push(numbers(alloc, i64::from(range.low), i64::from(range.high))?)?;
    }
    Ok(made)
}

/// A box, and beside it the ranges of an update's reduction variables.
pub(crate) fn region_with(
    alloc: Global,
    stretches: &[Stretch],
    ranges: &[Range],
) -> Result<Region, AllocError>
    ensures { IfOk result (λ made. made ≡ with_domain (spans_of stretches.now) (map range_of ranges.now)) }
{
    let region = region_of(alloc, stretches)?;
    with_domain(alloc, &region, ranges)
}

/// The names of a function's variables.
pub(crate) fn variable_names<'a>(
    alloc: Global,
    variables: &'a [String],
) -> Result<Vec<&'a str>, AllocError>
    ensures { IfOk result (λ names. map (λ x. x.now) names.items ≡ names_of variables.now) }
{
    let mut names = Vec::new(alloc);
    for variable in variables {
        names.push(variable.as_str())?;
    }
    Ok(names)
}

/// The names of a function's variables and of an update's reduction variables.
pub(crate) fn update_names<'a>(
    alloc: Global,
    variables: &'a [String],
    ranges: &'a [Range],
) -> Result<Vec<&'a str>, AllocError>
    ensures { IfOk result (λ names. map (λ x. x.now) names.items ≡ names_beside (names_of variables.now) (map range_of ranges.now)) }
{
    let mut names = variable_names(alloc, variables)?;
    for range in ranges {
        names.push(range.variable.as_str())?;
    }
    Ok(names)
}
