//! Expressions moved to an origin: the same tree with other numbers.

ghost use Rattle.std.specs.Prelude.{◌≡◌, IfOk, ◌*ℤ◌, pos, if◌then◌else◌, string_bytes};
ghost use Rattle.numeric.specs.declared.ty.Ty.TheVariants.{I32 as Index};
ghost use Rattle.numeric.specs.Wrap.{wrap as wrap_of};
ghost use Rattle.tree.specs.Term.{term_of, test_of, list_terms, indices, Name, Call, Binary, Clamp, Choice, Compares};
ghost use Rattle.crop.specs.Moving.{constant, constant_of, moved, negated_moved, test_moved};
ghost use Rattle.crop.specs.Cutting.{small_ends};
ghost use Rattle.crop.specs.Plan.{IsOperatorPlan, coordinate_against, each_moved, literal_with, side_of};
ghost use Rattle.crop.specs.View.{move_of, span_in};

use crate::callees::Callees;
use crate::cut::{Cut, Stretch};
use crate::lookup::{is_i32, origin_named, variable_origin};
use crate::numbers::{
    added, against, binary, both, boxed, boxed_test, call, cast, clamp, either, fails, literal,
    negate, number_in, plus, product, select, variable, wrapped,
};
use crate::plans::{
    Plan, Side, clamp_plan, compare_plan, difference_plan, greatest_plan, least_plan, plain,
    product_plan, quotient_plan, remainder_plan, sum_plan,
};
use bounds::{BoundsError, Ends, constant_ends, interval};
use lin::{Region, Scope, Span1};
use numeric::{Comparison, Op, Ty};
use std::alloc::{AllocError, Global};
use tree::token::Span;
use tree::{Cond, Expr, copy};

/// A definition that is moved: what it may use, the names of the coordinates of the region over which it is moved, and its
/// function's variables and origin.
#[derive(Clone, Copy, Drop)]
pub(crate) struct Mover<'a, 'r> {
    pub cut: &'a Cut,
    pub names: Callees<'a>,
    pub region: &'r Region,
    pub variables: &'a [String],
    pub origin: &'a [i32],
}

// The interval of an expression, if no form leaves the limits.
fn span_of(alloc: Global, mover: &Mover<'_, '_>, expr: &Expr) -> Result<Option<Span1>, AllocError>
    ensures { IfOk result (λ found. found ≡ span_in mover.now (term_of expr.now)) }
{
    let scope = Scope::new(alloc);
    let names = mover.names;
    match interval(alloc, &scope, expr, &names, names.variables, mover.region) {
        Ok(span) => Ok(Some(span)),
        Err(BoundsError::Limit) => Ok(None),
        Err(BoundsError::Memory) => Err(AllocError),
    }
}

// The ends, if they are numbers of i32.
fn small_ends(ends: Option<Ends>) -> Option<Stretch>
    ensures { result ≡ small_ends ends }
{
    let ends = ends?;
    if -2_147_483_648 <= ends.low && ends.high <= 2_147_483_647 && ends.low <= ends.high {
        return Some(Stretch {
            low: ends.low as i32,
            high: ends.high as i32,
        });
    }
    None
}

// Between which numbers of i32 the value lies, if such are found.
fn ends(alloc: Global, mover: &Mover<'_, '_>, expr: &Expr) -> Result<Option<Stretch>, AllocError>
    ensures { IfOk result (λ found. found ≡ (move_of mover.now).ends (term_of expr.now)) }
{
    match span_of(alloc, mover, expr)? {
        Some(span) => Ok(small_ends(constant_ends(alloc, &Scope::new(alloc), &span)?)),
        None => Ok(None),
    }
}

// The number of a sum that stands before its end.
fn constant(mover: &Mover<'_, '_>, expr: &Expr) -> i32
    ensures { result ≡ constant (move_of mover.now) (term_of expr.now) }
{
    match expr {
        Expr::Literal {
            ty: Ty::I32,
            number,
            ..
        } => wrapped(*number),
        Expr::Variable { name, .. } => variable_origin(mover.variables, mover.origin, name),
        Expr::Negate { value, .. } => against(constant(mover, value)),
        Expr::Binary {
            op,
            left,
            right,
            ..
        } => {
            let some = number_in(left).is_some() || number_in(right).is_some();
            constant_of(*op, some, constant(mover, left), constant(mover, right))
        }
        _ => 0,
    }
}

// The same of an operator; `some` is whether one side is a literal.
fn constant_of(op: Op, some: bool, left: i32, right: i32) -> i32
    ensures { result ≡ constant_of op some left right }
{
    match op {
        Op::Add => added(left, right),
        Op::Sub => wrapped(i64::from(left) - i64::from(right)),
        Op::Mul => product_if(some, left, right),
        _ => 0,
    }
}

// A product, if one side is a literal.
fn product_if(some: bool, left: i32, right: i32) -> i32
    ensures { result ≡ (if some then wrap_of Index (left *ℤ right) else pos 0) }
{
    if some { product(left, right) } else { 0 }
}

// What becomes of an operator on two expressions.
fn operator_plan(
    alloc: Global,
    mover: &Mover<'_, '_>,
    op: Op,
    c: i32,
    left: &Expr,
    right: &Expr,
) -> Result<Plan, AllocError>
    ensures { IfOk result (IsOperatorPlan (move_of mover.now) op c (term_of left.now) (term_of right.now)) }
{
    if !is_i32(&mover.names, left) {
        return Ok(plain(0));
    }
    let one = number_in(left);
    let other = number_in(right);
    let first = constant(mover, left);
    let second = constant(mover, right);
    match op {
        Op::Add => Ok(sum_plan(c, one, other, first, second)),
        Op::Sub => Ok(difference_plan(c, one, other, first, second)),
        Op::Mul => Ok(product_plan(c, one, other, first, second)),
        Op::Div => Ok(quotient_plan(c, other, ends(alloc, mover, left)?, first)),
        Op::Rem => Ok(remainder_plan(c, other, ends(alloc, mover, left)?, first)),
        Op::Min => Ok(least_plan(c, other, ends(alloc, mover, left)?)),
        Op::Max => Ok(greatest_plan(c, other, ends(alloc, mover, left)?)),
    }
}

// The number that takes the coordinate at a place of the origin away; 0 past its last one.
fn coordinate_against(origin: &[i32], place: usize) -> i32
    ensures { result ≡ coordinate_against origin.now place }
{
    match origin.get(place) {
        Some(number) => against(*number),
        None => 0,
    }
}

// A literal to which a number is added.
fn literal_moved(alloc: Global, c: i32, ty: Ty, number: i64, span: Span) -> Result<Expr, AllocError>
    ensures { IfOk result (λ e. term_of e ≡ literal_with c ty number) }
{
    match ty {
        Ty::I32 => literal(alloc, added(wrapped(number), c), span),
        _ => Ok(Expr::Literal { ty, number, span }),
    }
}

// A variable to which a number is added.
fn variable_moved(
    alloc: Global,
    mover: &Mover<'_, '_>,
    c: i32,
    name: &String,
    span: Span,
) -> Result<Expr, AllocError>
    ensures { IfOk result (λ e. term_of e ≡ moved (move_of mover.now) c (Name (string_bytes name.now))) }
{
    let by = variable_origin(mover.variables, mover.origin, name.as_str());
    plus(alloc, variable(name, span)?, added(by, c), span)
}

/// The expression with a number added to its value; where its type is not i32, the number is 0.
#[cycle(moving)]
pub(crate) fn moved(
    alloc: Global,
    mover: &Mover<'_, '_>,
    c: i32,
    expr: &Expr,
) -> Result<Expr, AllocError>
    ensures { IfOk result (λ e. term_of e ≡ moved (move_of mover.now) c (term_of expr.now)) }
{
    match expr {
        Expr::Literal { ty, number, span } => literal_moved(alloc, c, *ty, *number, *span),
        Expr::Variable { name, span } => variable_moved(alloc, mover, c, name, *span),
        Expr::Call { name, at, span } => call_moved(alloc, mover, c, name, at, *span),
        Expr::Negate { value, span } => {
            negated_moved(alloc, mover, c, number_in(expr), value, *span)
        }
        Expr::Binary {
            op,
            left,
            right,
            span,
        } => operator_moved(alloc, mover, *op, c, left, right, *span),
        Expr::Clamp {
            value,
            low,
            high,
            span,
        } => clamp_moved(alloc, mover, c, value, low, high, *span),
        Expr::Cast { ty, value, span } => {
            let value = side_boxed(alloc, mover, Side::Moved(0), value, *span)?;
            plus(alloc, cast(*ty, value, *span), c, *span)
        }
        Expr::Select {
            cond,
            yes,
            no,
            span,
        } => choice_moved(alloc, mover, c, cond, yes, no, *span),
    }
}

// One side of an operator.
#[cycle(moving)]
fn side_moved(
    alloc: Global,
    mover: &Mover<'_, '_>,
    side: Side,
    expr: &Expr,
    span: Span,
) -> Result<Expr, AllocError>
    ensures { IfOk result (λ e. term_of e ≡ side_of side (term_of expr.now) (λ d. moved (move_of mover.now) d (term_of expr.now))) }
{
    match side {
        Side::Moved(c) => moved(alloc, mover, c, expr),
        Side::Kept => copy(alloc, expr),
        Side::Number(number) => literal(alloc, number, span),
    }
}

// The same on the heap.
#[cycle(moving)]
fn side_boxed(
    alloc: Global,
    mover: &Mover<'_, '_>,
    side: Side,
    expr: &Expr,
    span: Span,
) -> Result<Box<Expr>, AllocError>
    ensures { IfOk result (λ e. term_of e.value ≡ side_of side (term_of expr.now) (λ d. moved (move_of mover.now) d (term_of expr.now))) }
{
    boxed(alloc, side_moved(alloc, mover, side, expr, span)?)
}

// An expression with a minus before it, to which a number is added; where both are one number, that is given.
#[cycle(moving)]
fn negated_moved(
    alloc: Global,
    mover: &Mover<'_, '_>,
    c: i32,
    number: Option<i32>,
    value: &Expr,
    span: Span,
) -> Result<Expr, AllocError>
    ensures { IfOk result (λ e. term_of e ≡ negated_moved c number (λ d. moved (move_of mover.now) d (term_of value.now))) }
{
    match number {
        Some(number) => literal(alloc, added(number, c), span),
        None => {
            let side = Side::Moved(against(c));
            Ok(negate(side_boxed(alloc, mover, side, value, span)?, span))
        }
    }
}

// An operator on two expressions, to which a number is added.
#[cycle(moving)]
fn operator_moved(
    alloc: Global,
    mover: &Mover<'_, '_>,
    op: Op,
    c: i32,
    left: &Expr,
    right: &Expr,
    span: Span,
) -> Result<Expr, AllocError>
    ensures { IfOk result (λ e. term_of e ≡ moved (move_of mover.now) c (Binary op (term_of left.now) (term_of right.now))) }
{
    match operator_plan(alloc, mover, op, c, left, right)? {
        Plan::Left(c) => moved(alloc, mover, c, left),
        Plan::Right(c) => moved(alloc, mover, c, right),
        Plan::Both {
            left: one,
            right: other,
            more,
        } => {
            let left = side_boxed(alloc, mover, one, left, span)?;
            let right = side_boxed(alloc, mover, other, right, span)?;
            plus(alloc, binary(op, left, right, span), more, span)
        }
    }
}

// A clamp to which a number is added.
#[cycle(moving)]
fn clamp_moved(
    alloc: Global,
    mover: &Mover<'_, '_>,
    c: i32,
    value: &Expr,
    low: &Expr,
    high: &Expr,
    span: Span,
) -> Result<Expr, AllocError>
    ensures { IfOk result (λ e. term_of e ≡ moved (move_of mover.now) c (Clamp (term_of value.now) (term_of low.now) (term_of high.now))) }
{
    let plan = clamp_plan(
        c,
        number_in(low),
        number_in(high),
        ends(alloc, mover, value)?,
    );
    let value = side_boxed(alloc, mover, Side::Moved(plan.value), value, span)?;
    let low = side_boxed(alloc, mover, plan.low, low, span)?;
    let high = side_boxed(alloc, mover, plan.high, high, span)?;
    plus(alloc, clamp(value, low, high, span), plan.more, span)
}

// A choice to which a number is added.
#[cycle(moving)]
fn choice_moved(
    alloc: Global,
    mover: &Mover<'_, '_>,
    c: i32,
    cond: &Cond,
    yes: &Expr,
    no: &Expr,
    span: Span,
) -> Result<Expr, AllocError>
    ensures { IfOk result (λ e. term_of e ≡ moved (move_of mover.now) c (Choice (test_of cond.now) (term_of yes.now) (term_of no.now))) }
{
    let cond = test_moved(alloc, mover, cond)?;
    let yes = side_boxed(alloc, mover, Side::Moved(c), yes, span)?;
    let no = side_boxed(alloc, mover, Side::Moved(c), no, span)?;
    Ok(select(cond, yes, no, span))
}

// A call to which a number is added.
#[cycle(moving)]
fn call_moved(
    alloc: Global,
    mover: &Mover<'_, '_>,
    c: i32,
    name: &String,
    at: &[Expr],
    span: Span,
) -> Result<Expr, AllocError>
    ensures { IfOk result (λ e. term_of e ≡ moved (move_of mover.now) c (Call (string_bytes name.now) (indices (list_terms at.now)))) }
{
    let origin = origin_named(alloc, mover.names.algo, mover.cut, name.as_str())?;
    let at = all_moved(alloc, mover, origin.as_slice(), at)?;
    plus(alloc, call(name, at, span)?, c, span)
}

/// The expressions, each less the coordinate of an origin.
#[cycle(moving)]
pub(crate) fn all_moved(
    alloc: Global,
    mover: &Mover<'_, '_>,
    origin: &[i32],
    at: &[Expr],
) -> Result<Vec<Expr>, AllocError>
    ensures { IfOk result (λ v. list_terms v.items ≡ each_moved (move_of mover.now) origin.now (list_terms at.now)) }
{
    let mut made = Vec::new(alloc);
    for index in at {
        let c = coordinate_against(origin, made.len());
        made.push(moved(alloc, mover, c, index)?)?;
    }
    Ok(made)
}

// A condition with its expressions moved.
#[cycle(moving)]
fn test_moved(alloc: Global, mover: &Mover<'_, '_>, cond: &Cond) -> Result<Box<Cond>, AllocError>
    ensures { IfOk result (λ t. test_of t.value ≡ test_moved (move_of mover.now) (test_of cond.now)) }
{
    match cond {
        Cond::Compare {
            by,
            left,
            right,
            span,
        } => boxed_test(alloc, compare_moved(alloc, mover, *by, left, right, *span)?),
        Cond::Not { cond, span } => {
            boxed_test(alloc, fails(test_moved(alloc, mover, cond)?, *span))
        }
        Cond::All {
            first,
            second,
            span,
        } => {
            let first = test_moved(alloc, mover, first)?;
            boxed_test(alloc, both(first, test_moved(alloc, mover, second)?, *span))
        }
        Cond::Any {
            first,
            second,
            span,
        } => {
            let first = test_moved(alloc, mover, first)?;
            boxed_test(
                alloc,
                either(first, test_moved(alloc, mover, second)?, *span),
            )
        }
    }
}

// A comparison with its sides moved.
#[cycle(moving)]
fn compare_moved(
    alloc: Global,
    mover: &Mover<'_, '_>,
    by: Comparison,
    left: &Expr,
    right: &Expr,
    span: Span,
) -> Result<Cond, AllocError>
    ensures { IfOk result (λ t. test_of t ≡ test_moved (move_of mover.now) (Compares by (term_of left.now) (term_of right.now))) }
{
    let plan = compare_plan(number_in(right), ends(alloc, mover, left)?);
    let left = moved(alloc, mover, plan.left, left)?;
    let right = side_moved(alloc, mover, plan.right, right, span)?;
    Ok(Cond::Compare {
        by,
        left,
        right,
        span,
    })
}
