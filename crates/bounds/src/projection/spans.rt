//! Spans and regions without the symbols of inner loops.

ghost use Rattle.std.specs.Prelude.{◌≡◌, IfOk, Some, None, negsuc, false};
ghost use Rattle.lin.specs.declared.form.LinError.{LinError as LimitError};
ghost use Rattle.bounds.specs.Spans.{multiples};
ghost use Rattle.bounds.specs.Projection.Projection.{form_bounds, side_bounds, projected_span, projected};
ghost use Rattle.bounds.specs.Projection.Sound.{IsOuterSpan, IsOuter, HoldsSpan, HoldsRegion};

use crate::projection::search::{both, eliminated};
use crate::{BoundsError, sums};
use lin::{Forms, Lin, LinError, Region, Scope, Span1, Sym};
use std::alloc::{AllocError, Global};

/// The negations of some forms; none where one is outside the limits.
fn negations(alloc: Global, forms: &[Lin]) -> Result<Option<Forms>, AllocError>
    ensures { IfOk result (λ found. found ≡ multiples (negsuc 0) forms.now) }
{
    let mut zero = Forms::new(alloc);
    zero.push(Lin::number(alloc, 0))?;
    sums(alloc, zero.as_slice(), -1, forms)
}

/// The bounds of a lower form: the negations of the bounds of its negation.
fn lower_bounds(
    alloc: Global,
    scope: &Scope,
    inner: &[Sym],
    form: &Lin,
) -> Result<Option<Forms>, AllocError>
    ensures { IfOk result (λ found. found ≡ form_bounds scope.now inner.now false form.now) }
{
    let negated = match form.scale(alloc, -1) {
        Ok(negated) => negated,
        Err(LinError::Limit) => return Ok(None),
        Err(LinError::Memory) => return Err(AllocError),
    };
    match eliminated(alloc, scope, inner, &negated)? {
        Some(bounds) => negations(alloc, bounds.as_slice()),
        None => Ok(None),
    }
}

/// The bounds of an upper, or lower, form.
fn form_bounds(
    alloc: Global,
    scope: &Scope,
    inner: &[Sym],
    upper: bool,
    form: &Lin,
) -> Result<Option<Forms>, AllocError>
    ensures { IfOk result (λ found. found ≡ form_bounds scope.now inner.now upper form.now) }
{
    if upper {
        eliminated(alloc, scope, inner, form)
    } else {
        lower_bounds(alloc, scope, inner, form)
    }
}

/// The bounds of all upper, or lower, forms: at most four, without doubles.
fn side_bounds(
    alloc: Global,
    scope: &Scope,
    inner: &[Sym],
    upper: bool,
    forms: &[Lin],
) -> Result<Option<Forms>, AllocError>
    ensures { IfOk result (λ found. found ≡ side_bounds scope.now inner.now upper forms.now) }
{
    let mut found = Some(Forms::new(alloc));
    for form in forms {
        let more = form_bounds(alloc, scope, inner, upper, form)?;
        found = both(alloc, scope, false, found, more)?;
    }
    Ok(found)
}

/// A span without the inner symbols; none where a form leaves the limits.
fn projected_span(
    alloc: Global,
    scope: &Scope,
    inner: &[Sym],
    span: &Span1,
) -> Result<Option<Span1>, AllocError>
    ensures { IfOk result (λ found. found ≡ projected_span scope.now inner.now span.now) }
{
    let lower = side_bounds(alloc, scope, inner, false, span.lower.as_slice())?;
    let upper = side_bounds(alloc, scope, inner, true, span.upper.as_slice())?;
    match (lower, upper) {
        (Some(lower), Some(upper)) => Ok(Some(Span1 { lower, upper })),
        _ => Ok(None),
    }
}

/// The spans of a region without the inner symbols; none where a form leaves the limits.
fn projected(
    alloc: Global,
    scope: &Scope,
    inner: &[Sym],
    spans: &[Span1],
) -> Result<Option<Region>, AllocError>
    ensures { IfOk result (λ found. found ≡ projected scope.now inner.now spans.now) }
{
    let mut made = Region::new(alloc);
    for span in spans {
        let Some(outer) = projected_span(alloc, scope, inner, span)? else {
            return Ok(None);
        };
        made.push(outer)?;
    }
    Ok(Some(made))
}

/// A span without the inner symbols: each number that lies in the given span, at any values of the inner symbols, lies in
/// it, and none of its forms names one of them. `inner` has the numbers of the symbols to be eliminated: those of the
/// loops inside a place, and of the lets over them. The rules are those of `Scope::sup`, which eliminates all symbols:
///
/// - The latest symbol goes first, since its bounds name earlier ones. In an upper form it is replaced by each of its
///   upper bounds where its factor is positive, by each of its lower ones where it is negative. A lower form's bounds are
///   the negations of the bounds of its negation.
/// - Where the smallest result counts, each result is a bound, so all stay, as several forms of one side. Where the
///   largest counts (a let's greatest value as an upper bound, its least as a lower one), any of them may be the value, so
///   they are joined as in a union, the first two first.
/// - A list has at most four forms, without doubles, the first found kept, after each symbol as at the end: a union takes
///   and gives such lists.
/// - A search for one form that takes more than 4096 replacements, all branches counted, finds no bound; nor does a branch
///   that still names an inner symbol at its end. Where the smallest result counts such a branch is left out, else it
///   leaves no bound. A side of which no bound is found has no forms and bounds nothing, so the promise needs no type.
///
/// # Errors
/// `Limit` where a form of the span is outside the limits, or one that a replacement or a union makes: it is told, and not
/// left out, as in an interval. `Memory` where memory runs out.
pub fn project_span(
    alloc: Global,
    scope: &Scope,
    inner: &[Sym],
    span: &Span1,
) -> Result<Span1, BoundsError>
    ensures ok { IfOk result (λ found. projected_span scope.now inner.now span.now ≡ Some found) }
    ensures limit { result ≡ Err LimitError.Limit → projected_span scope.now inner.now span.now ≡ None }
    ensures outer { IfOk result (λ found. IsOuterSpan inner.now found) }
    ensures sound { IfOk result (λ found. HoldsSpan scope.now inner.now span.now found) }
{
    match projected_span(alloc, scope, inner, span)? {
        Some(found) => Ok(found),
        None => Err(BoundsError::Limit),
    }
}

/// A region without the inner symbols, coordinate by coordinate by the rules of `project_span`: each point of the given
/// region, at any values of the inner symbols, lies in it, and none of its forms names one of them.
///
/// # Errors
/// As those of `project_span`.
pub fn project(
    alloc: Global,
    scope: &Scope,
    inner: &[Sym],
    region: &Region,
) -> Result<Region, BoundsError>
    ensures ok { IfOk result (λ found. projected scope.now inner.now region.now ≡ Some found) }
    ensures limit { result ≡ Err LimitError.Limit → projected scope.now inner.now region.now ≡ None }
    ensures outer { IfOk result (λ found. IsOuter inner.now found) }
    ensures sound { IfOk result (λ found. HoldsRegion scope.now inner.now region.now found) }
{
    match projected(alloc, scope, inner, region.as_slice())? {
        Some(found) => Ok(found),
        None => Err(BoundsError::Limit),
    }
}
