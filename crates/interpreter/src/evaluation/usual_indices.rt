//! Indices of calls as most are: variables and literals, operators on them, and these between others, where all of them stay at all
//! turns of a run or rise by one from turn to turn. They take no register.

ghost use Rattle.std.specs.Prelude.{◌≡◌, ◌<◌, ℕ, ℤ, List, Option, IfSome, Some, length};
ghost use Rattle.plan.specs.Semantics.Found.{found};
ghost use Rattle.plan.specs.Semantics.Memory.{Memory};
ghost use Rattle.tree.specs.Term.{term_of};
ghost use Rattle.tree.specs.declared.value.Value.{Value as ValueFound};
ghost use Rattle.interpreter.specs.Evaluation.Lanes.{FindsRun, IsNarrowFor};

use crate::evaluation::lanes::{Lanes, Number};
use crate::evaluation::run_reader::RunReader;
use crate::evaluation::whole::{apply_whole, clamp_whole};
use tree::{Expr, Value};

/// The value of an expression that is a literal.
#[inline(always)]
pub(crate) fn literal_value(expr: &Expr) -> Option<Value>
    ensures { IfSome result (λ v. (vs : List ℕ → ℤ) (look : List ℕ → List ℤ → Option ValueFound) → found vs look (term_of expr.now) ≡ Some v) }
{
    match expr {
        Expr::Literal { ty, number, .. } => Some(Value {
            ty: *ty,
            number: *number,
        }),
        _ => None,
    }
}

/// Whether an expression is a variable or a literal.
#[inline(always)]
pub(crate) fn is_leaf(expr: &Expr) -> bool {
    match expr {
        Expr::Literal { .. } | Expr::Variable { .. } => true,
        _ => false,
    }
}

/// The values of an expression that is a variable or a literal.
#[inline(always)]
pub(crate) fn leaf_lanes<R: RunReader>(expr: &Expr, reader: &R, out: &mut [u32]) -> Option<Lanes>
    ensures narrow { IfSome result (IsNarrowFor (length out.new)) }
    ensures value { IfSome result (λ x. (m : Memory ValueFound) → R.agrees reader.now m → FindsRun (length out.new) x out.new (λ k. found (R.variables reader.now k) (R.look reader.now m) (term_of expr.now))) }
{
    match expr {
        Expr::Literal { ty, number, .. } => Some(Lanes::Broadcast(*ty, Number { value: *number })),
        Expr::Variable { name, .. } => reader.variable(name.as_str(), out),
        _ => None,
    }
}

/// The values of an operator, of an expression that is one on two others.
#[cycle(usual_lanes)]
fn usual_binary<R: RunReader>(expr: &Expr, reader: &R, out: &mut [u32]) -> Option<Lanes>
    ensures narrow { IfSome result (IsNarrowFor (length out.new)) }
    ensures value { IfSome result (λ x. (m : Memory ValueFound) → R.agrees reader.now m → FindsRun (length out.new) x out.new (λ k. found (R.variables reader.now k) (R.look reader.now m) (term_of expr.now))) }
{
    let Expr::Binary {
        op,
        left,
        right,
        ..
    } = expr
    else {
        return None;
    };
    let first = usual_lanes(left, reader, out)?;
    let second = usual_lanes(right, reader, out)?;
    let lanes = apply_whole(*op, first, second, out.len())?;
    Some(lanes)
}

/// The values between two others, of an expression that is such.
#[cycle(usual_lanes)]
fn usual_clamp<R: RunReader>(expr: &Expr, reader: &R, out: &mut [u32]) -> Option<Lanes>
    ensures narrow { IfSome result (IsNarrowFor (length out.new)) }
    ensures value { IfSome result (λ x. (m : Memory ValueFound) → R.agrees reader.now m → FindsRun (length out.new) x out.new (λ k. found (R.variables reader.now k) (R.look reader.now m) (term_of expr.now))) }
{
    let Expr::Clamp {
        value,
        low,
        high,
        ..
    } = expr
    else {
        return None;
    };
    let value = usual_lanes(value, reader, out)?;
    let low = usual_lanes(low, reader, out)?;
    let high = usual_lanes(high, reader, out)?;
    let lanes = clamp_whole(value, low, high, out.len())?;
    Some(lanes)
}

/// The values of an expression that takes no register but for a variable alone, which is put into it where it neither stays nor rises.
#[cycle(usual_lanes)]
pub(crate) fn usual_lanes<R: RunReader>(expr: &Expr, reader: &R, out: &mut [u32]) -> Option<Lanes>
    ensures narrow { IfSome result (IsNarrowFor (length out.new)) }
    ensures value { IfSome result (λ x. (m : Memory ValueFound) → R.agrees reader.now m → FindsRun (length out.new) x out.new (λ k. found (R.variables reader.now k) (R.look reader.now m) (term_of expr.now))) }
{
    match expr {
        Expr::Binary { .. } => usual_binary(expr, reader, out),
        Expr::Clamp { .. } => usual_clamp(expr, reader, out),
        _ => leaf_lanes(expr, reader, out),
    }
}
