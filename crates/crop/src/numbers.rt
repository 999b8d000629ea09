//! Numbers of i32, and expressions to which they are added.

ghost use Rattle.std.specs.Prelude.{◌≡◌, IfOk, pos, negsuc, ◌≤ℤ◌, ◌<ℤ◌, ◌+ℤ◌, ◌-ℤ◌, ◌*ℤ◌, Some, None, if◌then◌else◌, string_bytes};
ghost use Rattle.tree.specs.Typing.{is_of};
ghost use Rattle.numeric.specs.declared.ty.Ty.TheVariants.{I32 as Index};
ghost use Rattle.numeric.specs.declared.op.Op.TheVariants.{Sub};
ghost use Rattle.numeric.specs.Wrap.{wrap as wrap_of};
ghost use Rattle.tree.specs.Term.{term_of, test_of, list_terms, indices, Number, Name, Call, Minus, Binary, Clamp, Cast, Choice, Fails, Both, Either};
ghost use Rattle.crop.specs.Moving.{against, least, literal, number_in, plus, multiple_in};

use numeric::{Op, Ty, apply, wrap};
use std::alloc::{AllocError, Global};
use tree::token::Span;
use tree::{Cond, Expr};

/// The i32 that differs from the number by a multiple of 2 to the 32.
pub(crate) fn wrapped(number: i64) -> i32
    ensures { result ≡ wrap_of Index number }
{
    wrap(Ty::I32, number) as i32
}

/// The number that takes another one away.
pub(crate) fn against(number: i32) -> i32
    ensures { result ≡ against number }
{
    wrapped(-i64::from(number))
}

/// The number as an i32, if it is one.
pub(crate) fn small(number: i64) -> Option<i32>
    ensures { result ≡ (if is_of Index number then Some number else None) }
{
    if (-2_147_483_648..=2_147_483_647).contains(&number) {
        Some(number as i32)
    } else {
        None
    }
}

/// Whether the number is an i32.
pub(crate) fn fits(number: i64) -> bool
    ensures { result ≡ is_of Index number }
{
    (-2_147_483_648..=2_147_483_647).contains(&number)
}

/// A sum, wrapped.
pub(crate) fn added(first: i32, second: i32) -> i32
    ensures { result ≡ wrap_of Index (first +ℤ second) }
{
    wrapped(i64::from(first) + i64::from(second))
}

/// A sum of three numbers, wrapped.
pub(crate) fn with_sum(c: i32, first: i32, second: i32) -> i32
    ensures { result ≡ wrap_of Index (c +ℤ (first +ℤ second)) }
{
    wrapped(i64::from(c) + (i64::from(first) + i64::from(second)))
}

/// A number and the difference of two others, wrapped.
pub(crate) fn with_difference(c: i32, first: i32, second: i32) -> i32
    ensures { result ≡ wrap_of Index (c +ℤ (first -ℤ second)) }
{
    wrapped(i64::from(c) + (i64::from(first) - i64::from(second)))
}

/// A product, wrapped.
pub(crate) fn product(left: i32, right: i32) -> i32
    ensures { result ≡ wrap_of Index (left *ℤ right) }
{
    apply(Op::Mul, Ty::I32, i64::from(left), i64::from(right)) as i32
}

/// The number that an i32 literal is, with a minus or without.
pub(crate) fn number_in(expr: &Expr) -> Option<i32>
    ensures { result ≡ number_in (term_of expr.now) }
{
    match expr {
        Expr::Literal {
            ty: Ty::I32,
            number,
            ..
        } => small(*number),
        Expr::Negate { value, .. } => match &**value {
            Expr::Literal {
                ty: Ty::I32,
                number,
                ..
            } => small(*number).map(against),
            _ => None,
        },
        _ => None,
    }
}

/// A literal of i32.
fn whole(number: i64, span: Span) -> Expr
    ensures { term_of result ≡ Number Index number }
{
    Expr::Literal {
        ty: Ty::I32,
        number,
        span,
    }
}

/// An operator on an expression and a number from 0 up.
fn with_number(
    alloc: Global,
    op: Op,
    expr: Expr,
    number: i64,
    span: Span,
) -> Result<Expr, AllocError>
    ensures { IfOk result (λ e. term_of e ≡ Binary op (term_of expr) (Number Index number)) }
{
    let left = boxed(alloc, expr)?;
    Ok(binary(op, left, boxed(alloc, whole(number, span))?, span))
}

/// The least number of i32, which no literal with a minus before it can write: -2147483647 - 1.
fn least(alloc: Global, span: Span) -> Result<Expr, AllocError>
    ensures { IfOk result (λ e. term_of e ≡ least) }
{
    let greatest = boxed(alloc, whole(2_147_483_647, span))?;
    with_number(alloc, Op::Sub, negate(greatest, span), 1, span)
}

/// A number as it stands in a text, where no literal is below 0 or above the greatest number of its type.
pub(crate) fn literal(alloc: Global, number: i32, span: Span) -> Result<Expr, AllocError>
    ensures { IfOk result (λ e. term_of e ≡ literal number) }
{
    if number == -2_147_483_648 {
        return least(alloc, span);
    }
    let number = i64::from(number);
    if number >= 0 {
        return Ok(whole(number, span));
    }
    Ok(negate(boxed(alloc, whole(-number, span))?, span))
}

/// An expression on the heap.
pub(crate) fn boxed(alloc: Global, expr: Expr) -> Result<Box<Expr>, AllocError>
    ensures { IfOk result (λ e. term_of e.value ≡ term_of expr) }
{
    Ok(Box::new(alloc, expr)?)
}

/// A condition on the heap.
pub(crate) fn boxed_test(alloc: Global, cond: Cond) -> Result<Box<Cond>, AllocError>
    ensures { IfOk result (λ t. test_of t.value ≡ test_of cond) }
{
    Ok(Box::new(alloc, cond)?)
}

/// An operator on two expressions.
pub(crate) fn binary(op: Op, left: Box<Expr>, right: Box<Expr>, span: Span) -> Expr
    ensures { term_of result ≡ Binary op (term_of left.value) (term_of right.value) }
{
    Expr::Binary {
        op,
        left,
        right,
        span,
    }
}

/// A clamp.
pub(crate) fn clamp(value: Box<Expr>, low: Box<Expr>, high: Box<Expr>, span: Span) -> Expr
    ensures { term_of result ≡ Clamp (term_of value.value) (term_of low.value) (term_of high.value) }
{
    Expr::Clamp {
        value,
        low,
        high,
        span,
    }
}

/// An expression less 2147483647 and 1, where no literal writes both.
fn less_most(alloc: Global, expr: Expr, span: Span) -> Result<Expr, AllocError>
    ensures { IfOk result (λ e. term_of e ≡ Binary Sub (Binary Sub (term_of expr) (Number Index (pos 2147483647))) (Number Index (pos 1))) }
{
    let less = with_number(alloc, Op::Sub, expr, 2_147_483_647, span)?;
    with_number(alloc, Op::Sub, less, 1, span)
}

/// An expression and a number.
pub(crate) fn plus(alloc: Global, expr: Expr, number: i32, span: Span) -> Result<Expr, AllocError>
    ensures { IfOk result (λ e. term_of e ≡ plus (term_of expr) number) }
{
    if number == 0 {
        return Ok(expr);
    }
    if number == -2_147_483_648 {
        return less_most(alloc, expr, span);
    }
    let number = i64::from(number);
    if number > 0 {
        with_number(alloc, Op::Add, expr, number, span)
    } else {
        with_number(alloc, Op::Sub, expr, -number, span)
    }
}

/// The greatest multiple of a positive number up to another.
pub(crate) fn multiple_in(divisor: i32, number: i32) -> i64
    requires { pos 0 <ℤ divisor }
    ensures value { result ≡ multiple_in divisor number }
    ensures near { (negsuc 4294967295 ≤ℤ result) × (result ≤ℤ pos 2147483647) }
{
    let number = i64::from(number);
    number - number.rem_euclid(i64::from(divisor))
}

/// A variable.
pub(crate) fn variable(name: &String, span: Span) -> Result<Expr, AllocError>
    ensures { IfOk result (λ e. term_of e ≡ Name (string_bytes name.now)) }
{
    Ok(Expr::Variable {
        name: name.clone()?,
        span,
    })
}

/// A call.
pub(crate) fn call(name: &String, at: Vec<Expr>, span: Span) -> Result<Expr, AllocError>
    ensures { IfOk result (λ e. term_of e ≡ Call (string_bytes name.now) (indices (list_terms at.items))) }
{
    Ok(Expr::Call {
        name: name.clone()?,
        at,
        span,
    })
}

/// A negation.
pub(crate) fn negate(value: Box<Expr>, span: Span) -> Expr
    ensures { term_of result ≡ Minus (term_of value.value) }
{
    Expr::Negate { value, span }
}

/// A cast.
pub(crate) fn cast(ty: Ty, value: Box<Expr>, span: Span) -> Expr
    ensures { term_of result ≡ Cast ty (term_of value.value) }
{
    Expr::Cast { ty, value, span }
}

/// A choice.
pub(crate) fn select(cond: Box<Cond>, yes: Box<Expr>, no: Box<Expr>, span: Span) -> Expr
    ensures { term_of result ≡ Choice (test_of cond.value) (term_of yes.value) (term_of no.value) }
{
    Expr::Select {
        cond,
        yes,
        no,
        span,
    }
}

/// A condition that does not hold.
pub(crate) fn fails(cond: Box<Cond>, span: Span) -> Cond
    ensures { test_of result ≡ Fails (test_of cond.value) }
{
    Cond::Not { cond, span }
}

/// Two conditions that both hold.
pub(crate) fn both(first: Box<Cond>, second: Box<Cond>, span: Span) -> Cond
    ensures { test_of result ≡ Both (test_of first.value) (test_of second.value) }
{
    Cond::All {
        first,
        second,
        span,
    }
}

/// Two conditions of which one holds.
pub(crate) fn either(first: Box<Cond>, second: Box<Cond>, span: Span) -> Cond
    ensures { test_of result ≡ Either (test_of first.value) (test_of second.value) }
{
    Cond::Any {
        first,
        second,
        span,
    }
}
