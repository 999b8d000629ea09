//! The spans of the results of operators. None stands for one with a form outside the limits.

ghost use Rattle.std.specs.Prelude.{◌≡◌, IfOk, ℤ, pos, Some, None, map, ◌++◌, [], ◌∷◌, ◌^◌, ◌<ℤ◌};
ghost use Rattle.lin.specs.Forms.{number, IsWithin};
ghost use Rattle.bounds.specs.Lists.{checked, kept};
ghost use Rattle.bounds.specs.Spans.{span_of, numbers, range_of, exactly, fitted, fitted_if, between, sum_of, difference_of, multiples, multiple_of, ends_product, product_of, ends_quotient, quotient_of, remainder_of, or_range, or_range_if, minimum_of, maximum_of, choice_of, binary_of};

use crate::ends::{Ends, constant_ends, product_ends, quotient_ends, stay};
use crate::lists::{joined, kept_copies, sums, union};
use lin::{Forms, Lin, Scope, Span1};
use numeric::{Op, Ty};
use std::alloc::{AllocError, Global};

/// The list of one number.
fn one_number(alloc: Global, value: i64) -> Result<Forms, AllocError>
    ensures { IfOk result (λ forms. forms ≡ number value ∷ []) }
{
    let mut forms = Forms::new(alloc);
    forms.push(Lin::number(alloc, value))?;
    Ok(forms)
}

/// From one number to another.
pub fn numbers(alloc: Global, low: i64, high: i64) -> Result<Span1, AllocError>
    ensures { IfOk result (λ span. span ≡ numbers low high) }
{
    Ok(Span1 {
        lower: one_number(alloc, low)?,
        upper: one_number(alloc, high)?,
    })
}

/// All values of a type.
pub fn range(alloc: Global, ty: Ty) -> Result<Span1, AllocError>
    ensures { IfOk result (λ span. span ≡ range_of ty) }
{
    numbers(alloc, ty.least(), ty.greatest())
}

/// The span of two lists of forms.
fn span_of(lower: Option<Forms>, upper: Option<Forms>) -> Option<Span1>
    ensures { result ≡ span_of lower upper }
{
    match (lower, upper) {
        (Some(lower), Some(upper)) => Some(Span1 { lower, upper }),
        _ => None,
    }
}

/// The span of a span's forms: at most four on each side, without doubles.
pub fn kept_span(alloc: Global, span: &Span1) -> Result<Option<Span1>, AllocError>
    ensures { IfOk result (λ found. found ≡ span_of (kept (map checked span.now.lower)) (kept (map checked span.now.upper))) }
{
    let lower = kept_copies(alloc, span.lower.as_slice())?;
    let upper = kept_copies(alloc, span.upper.as_slice())?;
    Ok(span_of(lower, upper))
}

/// One number.
pub fn exactly(alloc: Global, value: i64) -> Result<Option<Span1>, AllocError>
    ensures { IfOk result (λ found. found ≡ exactly value) }
{
    kept_span(alloc, &numbers(alloc, value, value)?)
}

/// The span of a result, or the type's range where it is not shown to stay in the type.
pub fn fitted(alloc: Global, scope: &Scope, ty: Ty, span: Span1) -> Result<Span1, AllocError>
    ensures { IfOk result (λ r. r ≡ fitted scope.now ty span) }
{
    if stay(ty, constant_ends(alloc, scope, &span)?) {
        Ok(span)
    } else {
        range(alloc, ty)
    }
}

/// The same, where there is a span.
fn fitted_if(
    alloc: Global,
    scope: &Scope,
    ty: Ty,
    made: Option<Span1>,
) -> Result<Option<Span1>, AllocError>
    ensures { IfOk result (λ found. found ≡ fitted_if scope.now ty made) }
{
    match made {
        Some(span) => Ok(Some(fitted(alloc, scope, ty, span)?)),
        None => Ok(None),
    }
}

/// The span between two ends, or the type's range where they do not stay in the type.
#[tactic(auto, unfolding(crate::specs::Spans::between))]
fn between(alloc: Global, ty: Ty, ends: Ends) -> Result<Span1, AllocError>
    ensures { IfOk result (λ r. r ≡ between ty ends) }
{
    if ends.are_of(ty) {
        numbers(alloc, ends.low, ends.high)
    } else {
        range(alloc, ty)
    }
}

/// The span of a sum.
pub fn sum(
    alloc: Global,
    scope: &Scope,
    ty: Ty,
    a: &Span1,
    b: &Span1,
) -> Result<Option<Span1>, AllocError>
    ensures { IfOk result (λ found. found ≡ sum_of scope.now ty a.now b.now) }
{
    let lower = sums(alloc, a.lower.as_slice(), 1, b.lower.as_slice())?;
    let upper = sums(alloc, a.upper.as_slice(), 1, b.upper.as_slice())?;
    fitted_if(alloc, scope, ty, span_of(lower, upper))
}

/// The span of a difference.
pub fn difference(
    alloc: Global,
    scope: &Scope,
    ty: Ty,
    a: &Span1,
    b: &Span1,
) -> Result<Option<Span1>, AllocError>
    ensures { IfOk result (λ found. found ≡ difference_of scope.now ty a.now b.now) }
{
    let lower = sums(alloc, a.lower.as_slice(), -1, b.upper.as_slice())?;
    let upper = sums(alloc, a.upper.as_slice(), -1, b.lower.as_slice())?;
    fitted_if(alloc, scope, ty, span_of(lower, upper))
}

/// The multiples of some forms.
fn multiples(alloc: Global, factor: i64, forms: &[Lin]) -> Result<Option<Forms>, AllocError>
    ensures { IfOk result (λ found. found ≡ multiples factor forms.now) }
{
    let zero = one_number(alloc, 0)?;
    sums(alloc, zero.as_slice(), factor, forms)
}

/// The span of a multiple; a negative factor changes the sides.
pub fn multiple(
    alloc: Global,
    scope: &Scope,
    ty: Ty,
    factor: i64,
    span: &Span1,
) -> Result<Option<Span1>, AllocError>
    ensures { IfOk result (λ found. found ≡ multiple_of scope.now ty factor span.now) }
{
    let of_lower = multiples(alloc, factor, span.lower.as_slice())?;
    let of_upper = multiples(alloc, factor, span.upper.as_slice())?;
    if factor >= 0 {
        fitted_if(alloc, scope, ty, span_of(of_lower, of_upper))
    } else {
        fitted_if(alloc, scope, ty, span_of(of_upper, of_lower))
    }
}

/// The span of a product of values between these ends.
fn ends_product(
    alloc: Global,
    ty: Ty,
    a: Option<Ends>,
    b: Option<Ends>,
) -> Result<Span1, AllocError>
    ensures { IfOk result (λ r. r ≡ ends_product ty a b) }
{
    let (Some(a), Some(b)) = (a, b) else {
        return range(alloc, ty);
    };
    between(alloc, ty, product_ends(ty, a, b))
}

/// The span of a product: a multiple where one side is a literal, else from the constant ends.
pub fn product(
    alloc: Global,
    scope: &Scope,
    ty: Ty,
    first: Option<i64>,
    second: Option<i64>,
    a: &Span1,
    b: &Span1,
) -> Result<Option<Span1>, AllocError>
    ensures { IfOk result (λ found. found ≡ product_of scope.now ty first second a.now b.now) }
{
    match (first, second) {
        (Some(factor), _) => multiple(alloc, scope, ty, factor, b),
        (None, Some(factor)) => multiple(alloc, scope, ty, factor, a),
        (None, None) => {
            let ends = (
                constant_ends(alloc, scope, a)?,
                constant_ends(alloc, scope, b)?,
            );
            Ok(Some(ends_product(alloc, ty, ends.0, ends.1)?))
        }
    }
}

/// The span of a quotient of a value between these ends by a positive number.
fn ends_quotient(alloc: Global, ty: Ty, divisor: i64, a: Option<Ends>) -> Result<Span1, AllocError>
    requires { pos 0 <ℤ divisor }
    ensures { IfOk result (λ r. r ≡ ends_quotient ty divisor a) }
{
    match a {
        Some(a) => between(alloc, ty, quotient_ends(a, divisor)),
        None => range(alloc, ty),
    }
}

/// The span of a division by a positive literal; of another divisor the type's range.
pub fn quotient(
    alloc: Global,
    scope: &Scope,
    ty: Ty,
    divisor: Option<i64>,
    a: &Span1,
) -> Result<Span1, AllocError>
    ensures { IfOk result (λ r. r ≡ quotient_of scope.now ty divisor a.now) }
{
    match divisor {
        Some(number) if number > 0 => ends_quotient(
            alloc,
            ty,
            number,
            constant_ends(alloc, scope, a)?,
        ),
        _ => range(alloc, ty),
    }
}

/// The span of the remainder of a division by a positive literal; of another divisor the type's range.
pub fn remainder(alloc: Global, ty: Ty, divisor: Option<i64>) -> Result<Span1, AllocError>
    ensures { IfOk result (λ r. r ≡ remainder_of ty divisor) }
{
    match divisor {
        Some(number) if number > 0 => numbers(alloc, 0, number - 1),
        _ => range(alloc, ty),
    }
}

/// The span, or the type's range where no lower or no upper form is left.
fn or_range_if(alloc: Global, ty: Ty, made: Option<Span1>) -> Result<Option<Span1>, AllocError>
    ensures { IfOk result (λ found. found ≡ or_range_if ty made) }
{
    let Some(span) = made else {
        return Ok(None);
    };
    if span.lower.as_slice().is_empty() || span.upper.as_slice().is_empty() {
        Ok(Some(range(alloc, ty)?))
    } else {
        Ok(Some(span))
    }
}

/// The span of the smaller of two values.
pub fn minimum(
    alloc: Global,
    scope: &Scope,
    ty: Ty,
    a: &Span1,
    b: &Span1,
) -> Result<Option<Span1>, AllocError>
    ensures { IfOk result (λ found. found ≡ minimum_of scope.now ty a.now b.now) }
{
    let lower = union(alloc, scope, false, a.lower.as_slice(), b.lower.as_slice())?;
    let upper = joined(alloc, a.upper.as_slice(), b.upper.as_slice())?;
    or_range_if(alloc, ty, span_of(lower, upper))
}

/// The span of the larger of two values.
pub fn maximum(
    alloc: Global,
    scope: &Scope,
    ty: Ty,
    a: &Span1,
    b: &Span1,
) -> Result<Option<Span1>, AllocError>
    ensures { IfOk result (λ found. found ≡ maximum_of scope.now ty a.now b.now) }
{
    let lower = joined(alloc, a.lower.as_slice(), b.lower.as_slice())?;
    let upper = union(alloc, scope, true, a.upper.as_slice(), b.upper.as_slice())?;
    or_range_if(alloc, ty, span_of(lower, upper))
}

/// The span of one of two values.
pub fn choice(
    alloc: Global,
    scope: &Scope,
    ty: Ty,
    a: &Span1,
    b: &Span1,
) -> Result<Option<Span1>, AllocError>
    ensures { IfOk result (λ found. found ≡ choice_of scope.now ty a.now b.now) }
{
    let lower = union(alloc, scope, false, a.lower.as_slice(), b.lower.as_slice())?;
    let upper = union(alloc, scope, true, a.upper.as_slice(), b.upper.as_slice())?;
    or_range_if(alloc, ty, span_of(lower, upper))
}

/// The span of the result of an operator, whose sides may be literals.
pub fn binary(
    alloc: Global,
    scope: &Scope,
    op: Op,
    ty: Ty,
    first: Option<i64>,
    second: Option<i64>,
    a: &Span1,
    b: &Span1,
) -> Result<Option<Span1>, AllocError>
    ensures { IfOk result (λ found. found ≡ binary_of scope.now op ty first second a.now b.now) }
{
    match op {
        Op::Add => sum(alloc, scope, ty, a, b),
        Op::Sub => difference(alloc, scope, ty, a, b),
        Op::Mul => product(alloc, scope, ty, first, second, a, b),
        Op::Div => Ok(Some(quotient(alloc, scope, ty, second, a)?)),
        Op::Rem => Ok(Some(remainder(alloc, ty, second)?)),
        Op::Min => minimum(alloc, scope, ty, a, b),
        Op::Max => maximum(alloc, scope, ty, a, b),
    }
}
