//! The span of an expression's value.

ghost use Rattle.std.specs.Prelude.{◌≡◌, IfOk, map, Some, None, IsSome, pos, option_map, slice_get};
ghost use Rattle.lin.specs.declared.form.LinError.{LinError as LimitError};
ghost use Rattle.numeric.specs.declared.ty.Ty.TheVariants.{I32 as Index};
ghost use Rattle.tree.specs.Term.{term_of};
ghost use Rattle.tree.specs.Typing.{shape_type, type_of};
ghost use Rattle.tree.specs.Names.{called_type};
ghost use Rattle.bounds.specs.Spans.{range_of, exactly as exact, difference_of, binary_of, minimum_of, maximum_of, choice_of, fitted as fitted_to};
ghost use Rattle.bounds.specs.Interval.{coordinate_of, span_named, literal_of, both, interval};
ghost use Rattle.bounds.specs.Sound.{Contains};

use crate::spans::{
    binary, choice, difference, exactly, fitted, kept_span, maximum, minimum, range,
};
use lin::{LinError, Region, Scope, Span1};
use numeric::{Op, Ty};
use std::alloc::{AllocError, Global};
use tree::{Expr, Names};

/// What is known of an expression's value: its type and its span, none where a form leaves the limits.
#[derive(Drop)]
struct Bounded {
    ty: Ty,
    span: Option<Span1>,
}

/// The span of an expression's value where each coordinate lies in its span of the region: the largest lower form is at
/// most the value, the smallest upper form at least, whatever the symbols stand for and calls answer. The i-th of `vars`
/// is the name of the region's i-th coordinate.
///
/// # Errors
/// `Limit` where a form that the rules make is outside the limits, `Memory` where memory runs out.
pub fn interval<N: Names>(
    alloc: Global,
    scope: &Scope,
    expr: &Expr,
    names: &N,
    vars: &[&str],
    region: &Region,
) -> Result<Span1, LinError>
    ensures ok { IfOk result (λ span. interval scope.now (N.functions names.now) (map (λ x. x.now) vars.now) region.now (term_of expr.now) ≡ Some span) }
    ensures limit { result ≡ Err LimitError.Limit → interval scope.now (N.functions names.now) (map (λ x. x.now) vars.now) region.now (term_of expr.now) ≡ None }

    // Where the expression has a type, each value that it can have lies in the span.
    ensures sound { IfOk result (λ span. IsSome (type_of (N.variables names.now) (N.functions names.now) (term_of expr.now)) → Contains scope.now (N.variables names.now) (N.functions names.now) (map (λ x. x.now) vars.now) region.now (term_of expr.now) span) }
{
    match typed_span(alloc, scope, expr, names, vars, region.as_slice())?.span {
        Some(span) => Ok(span),
        None => Err(LinError::Limit),
    }
}

/// The span of the coordinate at a place; past the last one that of an i32.
fn coordinate_at(alloc: Global, region: &[Span1], place: usize) -> Result<Option<Span1>, AllocError>
    ensures { IfOk result (λ found. found ≡ coordinate_of (slice_get region.now place)) }
{
    match region.get(place) {
        Some(span) => kept_span(alloc, span),
        None => Ok(Some(range(alloc, Ty::I32)?)),
    }
}

/// The span of a coordinate, by its name; a name of no coordinate is an i32.
fn coordinate(
    alloc: Global,
    vars: &[&str],
    region: &[Span1],
    name: &str,
) -> Result<Option<Span1>, AllocError>
    ensures { IfOk result (λ found. found ≡ coordinate_of (span_named (map (λ x. x.now) vars.now) region.now name.now)) }
{
    for (place, var) in vars.iter().enumerate() {
        if *var == name {
            return coordinate_at(alloc, region, place);
        }
    }
    Ok(Some(range(alloc, Ty::I32)?))
}

/// The number that an expression is, if it is a literal.
fn literal(expr: &Expr) -> Option<i64>
    ensures { result ≡ literal_of (term_of expr.now) }
{
    match expr {
        Expr::Literal { number, .. } => Some(*number),
        _ => None,
    }
}

/// The type of what is called by a name.
fn called<N: Names>(names: &N, name: &str) -> Ty
    ensures { result ≡ called_type (N.functions names.now name.now) }
{
    match names.func(name) {
        Some((ty, _)) => ty,
        None => Ty::I32,
    }
}

/// The span of the negation of a value.
fn negated(
    alloc: Global,
    scope: &Scope,
    ty: Ty,
    made: Option<Span1>,
) -> Result<Option<Span1>, AllocError>
    ensures { IfOk result (λ found. found ≡ both (exact (pos 0)) made (λ zero s. difference_of scope.now ty zero s)) }
{
    match (exactly(alloc, 0)?, made) {
        (Some(zero), Some(span)) => difference(alloc, scope, ty, &zero, &span),
        _ => Ok(None),
    }
}

/// The span of the result of an operator, where both sides have one.
fn operated(
    alloc: Global,
    scope: &Scope,
    op: Op,
    ty: Ty,
    first: Option<i64>,
    second: Option<i64>,
    a: Option<Span1>,
    b: Option<Span1>,
) -> Result<Option<Span1>, AllocError>
    ensures { IfOk result (λ found. found ≡ both a b (λ s t. binary_of scope.now op ty first second s t)) }
{
    match (a, b) {
        (Some(a), Some(b)) => binary(alloc, scope, op, ty, first, second, &a, &b),
        _ => Ok(None),
    }
}

/// The span of a value that is not above another.
fn capped(
    alloc: Global,
    scope: &Scope,
    ty: Ty,
    value: Option<Span1>,
    high: Option<Span1>,
) -> Result<Option<Span1>, AllocError>
    ensures { IfOk result (λ found. found ≡ both value high (λ s t. minimum_of scope.now ty s t)) }
{
    match (value, high) {
        (Some(value), Some(high)) => minimum(alloc, scope, ty, &value, &high),
        _ => Ok(None),
    }
}

/// The span of a value that is not below another.
fn raised(
    alloc: Global,
    scope: &Scope,
    ty: Ty,
    value: Option<Span1>,
    low: Option<Span1>,
) -> Result<Option<Span1>, AllocError>
    ensures { IfOk result (λ found. found ≡ both value low (λ s t. maximum_of scope.now ty s t)) }
{
    match (value, low) {
        (Some(value), Some(low)) => maximum(alloc, scope, ty, &value, &low),
        _ => Ok(None),
    }
}

/// The span of a value that is not above another and then not below a third.
fn clamped(
    alloc: Global,
    scope: &Scope,
    ty: Ty,
    value: Option<Span1>,
    low: Option<Span1>,
    high: Option<Span1>,
) -> Result<Option<Span1>, AllocError>
    ensures { IfOk result (λ found. found ≡ both (both value high (λ s t. minimum_of scope.now ty s t)) low (λ s t. maximum_of scope.now ty s t)) }
{
    let low_enough = capped(alloc, scope, ty, value, high)?;
    raised(alloc, scope, ty, low_enough, low)
}

/// The span of a value cast to a type.
fn cast(
    alloc: Global,
    scope: &Scope,
    ty: Ty,
    made: Option<Span1>,
) -> Result<Option<Span1>, AllocError>
    ensures { IfOk result (λ found. found ≡ option_map (fitted_to scope.now ty) made) }
{
    match made {
        Some(span) => Ok(Some(fitted(alloc, scope, ty, span)?)),
        None => Ok(None),
    }
}

/// The span of one of two values.
fn chosen(
    alloc: Global,
    scope: &Scope,
    ty: Ty,
    a: Option<Span1>,
    b: Option<Span1>,
) -> Result<Option<Span1>, AllocError>
    ensures { IfOk result (λ found. found ≡ both a b (λ s t. choice_of scope.now ty s t)) }
{
    match (a, b) {
        (Some(a), Some(b)) => choice(alloc, scope, ty, &a, &b),
        _ => Ok(None),
    }
}

/// A type and a span.
fn typed(ty: Ty, span: Option<Span1>) -> Bounded
    ensures span { result.span ≡ span }
    ensures ty { result.ty ≡ ty }
{
    Bounded { ty, span }
}

/// A variable, by its name.
fn variable(
    alloc: Global,
    vars: &[&str],
    region: &[Span1],
    name: &str,
) -> Result<Bounded, AllocError>
    ensures span { IfOk result (λ b. b.span ≡ coordinate_of (span_named (map (λ x. x.now) vars.now) region.now name.now)) }
    ensures ty { IfOk result (λ b. b.ty ≡ Index) }
{
    Ok(typed(Ty::I32, coordinate(alloc, vars, region, name)?))
}

/// Any value of a type.
fn any_of(alloc: Global, ty: Ty) -> Result<Bounded, AllocError>
    ensures span { IfOk result (λ b. b.span ≡ Some (range_of ty)) }
    ensures ty { IfOk result (λ b. b.ty ≡ ty) }
{
    Ok(typed(ty, Some(range(alloc, ty)?)))
}

/// Type and span of an expression's value.
fn typed_span<N: Names>(
    alloc: Global,
    scope: &Scope,
    expr: &Expr,
    names: &N,
    vars: &[&str],
    region: &[Span1],
) -> Result<Bounded, AllocError>
    ensures span { IfOk result (λ b. b.span ≡ interval scope.now (N.functions names.now) (map (λ x. x.now) vars.now) region.now (term_of expr.now)) }
    ensures ty { IfOk result (λ b. b.ty ≡ shape_type (N.functions names.now) (term_of expr.now)) }
{
    match expr {
        Expr::Literal { ty, number, .. } => Ok(typed(*ty, exactly(alloc, *number)?)),
        Expr::Variable { name, .. } => variable(alloc, vars, region, name.as_str()),
        Expr::Call { name, .. } => any_of(alloc, called(names, name.as_str())),
        Expr::Negate { value, .. } => {
            let a = typed_span(alloc, scope, value, names, vars, region)?;
            Ok(typed(a.ty, negated(alloc, scope, a.ty, a.span)?))
        }
        Expr::Binary {
            op,
            left,
            right,
            ..
        } => {
            let a = typed_span(alloc, scope, left, names, vars, region)?;
            let b = typed_span(alloc, scope, right, names, vars, region)?;
            let ty = op.result_type(a.ty);
            let (first, second) = (literal(left), literal(right));
            let span = operated(alloc, scope, *op, ty, first, second, a.span, b.span)?;
            Ok(typed(ty, span))
        }
        Expr::Clamp {
            value,
            low,
            high,
            ..
        } => {
            let a = typed_span(alloc, scope, value, names, vars, region)?;
            let l = typed_span(alloc, scope, low, names, vars, region)?;
            let h = typed_span(alloc, scope, high, names, vars, region)?;
            Ok(typed(a.ty, clamped(alloc, scope, a.ty, a.span, l.span, h.span)?))
        }
        Expr::Cast { ty, value, .. } => {
            let a = typed_span(alloc, scope, value, names, vars, region)?;
            Ok(typed(*ty, cast(alloc, scope, *ty, a.span)?))
        }
        Expr::Select { yes, no, .. } => {
            let a = typed_span(alloc, scope, yes, names, vars, region)?;
            let b = typed_span(alloc, scope, no, names, vars, region)?;
            Ok(typed(a.ty, chosen(alloc, scope, a.ty, a.span, b.span)?))
        }
    }
}
