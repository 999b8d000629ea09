//! The constant ends of a span.

ghost use Rattle.std.specs.Prelude.{◌≡◌, IfOk, pos, ◌<ℤ◌};
ghost use Rattle.numeric.specs.declared.ty.Ty.{Ty};
ghost use Rattle.numeric.specs.Apply.{quotient};
ghost use Rattle.bounds.specs.Spans.{highest, depth, ends_of, are_of, stay, between, product_ends};

use crate::lists::smaller;
use lin::{Lin, Scope, Span1};
use numeric::Ty;
use std::alloc::{AllocError, Global};

/// The least and the greatest number that a value may be.
#[derive(Clone, Copy, PartialEq, Eq, Drop)]
pub struct Ends {
    /// The least number.
    pub low: i64,
    /// The greatest number.
    pub high: i64,
}

/// The least number that the upper forms show a value to be at most.
fn highest(alloc: Global, scope: &Scope, uppers: &[Lin]) -> Result<Option<i64>, AllocError>
    ensures { IfOk result (λ found. found ≡ highest scope.now uppers.now) }
{
    let mut least = None;
    for form in uppers {
        least = smaller(least, scope.sup(alloc, form)?);
    }
    Ok(least)
}

/// How far below 0 the lower forms show a value to be at most.
fn depth(alloc: Global, scope: &Scope, lowers: &[Lin]) -> Result<Option<i64>, AllocError>
    ensures { IfOk result (λ found. found ≡ depth scope.now lowers.now) }
{
    let zero = Lin::number(alloc, 0);
    let mut least = None;
    for form in lowers {
        least = smaller(least, scope.sup_of_difference(alloc, &zero, form)?);
    }
    Ok(least)
}

/// The constant ends of a span, where it has both.
pub fn constant_ends(alloc: Global, scope: &Scope, span: &Span1) -> Result<Option<Ends>, AllocError>
    ensures { IfOk result (λ found. found ≡ ends_of scope.now span.now) }
{
    let Some(below) = depth(alloc, scope, span.lower.as_slice())? else {
        return Ok(None);
    };
    let Some(high) = highest(alloc, scope, span.upper.as_slice())? else {
        return Ok(None);
    };
    Ok(Some(Ends { low: -below, high }))
}

impl Ends {
    /// Whether both are values of a type.
    pub(crate) fn are_of(self, ty: Ty) -> bool
        ensures { result ≡ are_of ty self }
    {
        ty.least() <= self.low && self.high <= ty.greatest()
    }
}

/// Whether there are ends and both are values of a type.
pub(crate) fn stay(ty: Ty, ends: Option<Ends>) -> bool
    ensures { result ≡ stay ty ends }
{
    match ends {
        Some(ends) => ends.are_of(ty),
        None => false,
    }
}

/// The ends of a product of values of a type. Ends past 64 bits are past every type, as are the nearest that have 64.
pub(crate) fn product_ends(ty: Ty, a: Ends, b: Ends) -> Ends
    ensures { between ty result ≡ between ty (product_ends a b) }
{
    let first = a.low.saturating_mul(b.low);
    let second = a.low.saturating_mul(b.high);
    let third = a.high.saturating_mul(b.low);
    let fourth = a.high.saturating_mul(b.high);
    Ends {
        low: first.min(second).min(third.min(fourth)),
        high: first.max(second).max(third.max(fourth)),
    }
}

/// The ends of a quotient by a positive number.
pub(crate) fn quotient_ends(a: Ends, divisor: i64) -> Ends
    requires { pos 0 <ℤ divisor }
    ensures low { result.low ≡ quotient a.low divisor }
    ensures high { result.high ≡ quotient a.high divisor }
{
    Ends {
        low: a.low.div_euclid(divisor),
        high: a.high.div_euclid(divisor),
    }
}
