//! The values of an expression at the turns of a run.

ghost use Rattle.std.specs.Prelude.{◌≡◌, ◌<◌, ◌*◌, ℕ, IfSome, Some, drop, length};
ghost use Rattle.plan.specs.Semantics.Found.{found, test_found, all_found, with};
ghost use Rattle.plan.specs.Semantics.Memory.{Memory};
ghost use Rattle.tree.specs.Meaning.{typed};
ghost use Rattle.tree.specs.Term.{term_of, test_of, indices, list_terms, Cast};
ghost use Rattle.tree.specs.declared.value.Value.{Value as ValueFound};
ghost use Rattle.interpreter.specs.Evaluation.Lanes.{found_as, lane, number_at, FindsMask, FindsRun, IsNarrowFor};
ghost use Rattle.interpreter.specs.Evaluation.Multiples.{multiplied_value};
ghost use Rattle.interpreter.specs.Evaluation.Words.{bits_at};
ghost use Rattle.interpreter.specs.declared.evaluation.lanes.Lanes.TheVariants.{Vector};

use crate::evaluation::kernels::{both_each, either_each, not_each};
use crate::evaluation::lanes::{Lanes, Number};
use crate::evaluation::lent_firsts::lent_first;
use crate::evaluation::lent_seconds::{apply_second, lent_second};
use crate::evaluation::looking::look_run;
use crate::evaluation::multiples::{Multiple, apply_multiple, makes_multiple};
use crate::evaluation::repeats::repeat_of;
use crate::evaluation::run_reader::RunReader;
use crate::evaluation::usual_calls::usual_call;
use crate::evaluation::usual_indices::{is_leaf, leaf_lanes, literal_value, usual_lanes};
use crate::evaluation::whole::{
    apply_repeated, choose_lanes, clamp_lanes, compare_lanes, negate_lanes, put_lanes, type_of,
    widen, wrap_lanes,
};
use numeric::{Op, Ty};
use tree::{Cond, Expr};

/// The values of an expression that is a variable or a literal, put into the register: their type.
fn leaf_run<R: RunReader>(expr: &Expr, reader: &R, out: &mut [u32]) -> Option<Ty>
    ensures { IfSome result (λ t. (m : Memory ValueFound) → R.agrees reader.now m → FindsRun (length out.new) (Vector t) out.new (λ k. found (R.variables reader.now k) (R.look reader.now m) (term_of expr.now))) }
{
    let lanes = leaf_lanes(expr, reader, out)?;
    let ty = put_lanes(lanes, out)?;
    Some(ty)
}

/// The numbers of an expression at as many turns of a run as the register has words, put into it, and their type. Nothing where they
/// are not taken for all turns together; then there may still be values.
///
/// It takes no memory: the parts of the expression lie in the further registers.
#[cycle(evaluate_run)]
pub fn evaluate_run<R: RunReader>(
    expr: &Expr,
    reader: &R,
    out: &mut [u32],
    rest: &mut [u32],
) -> Option<Ty>
    ensures { IfSome result (λ t. (m : Memory ValueFound) → R.agrees reader.now m → FindsRun (length out.new) (Vector t) out.new (λ k. found (R.variables reader.now k) (R.look reader.now m) (term_of expr.now))) }
{
    match expr {
        Expr::Literal { .. } | Expr::Variable { .. } => leaf_run(expr, reader, out),
        Expr::Call { name, at, .. } => {
            let ty = call_run(name.as_str(), at, None, reader, out, rest)?;
            Some(ty)
        }
        Expr::Negate { value, .. } => {
            let value = operand_run(value, reader, out, rest)?;
            let ty = negate_lanes(value, out)?;
            Some(ty)
        }
        Expr::Binary { .. } => binary_run(expr, reader, out, rest),
        Expr::Clamp { .. } => clamp_run(expr, reader, out, rest),
        Expr::Cast { ty, value, .. } => cast_run(*ty, value, reader, out, rest),
        Expr::Select { .. } => select_run(expr, reader, out, rest),
    }
}

/// The values of an expression at the turns of a run. Variables, literals and operators on two of them take no register, where they
/// stay or rise.
#[cycle(evaluate_run)]
#[inline(always)]
fn operand_run<R: RunReader>(
    expr: &Expr,
    reader: &R,
    out: &mut [u32],
    rest: &mut [u32],
) -> Option<Lanes>
    ensures narrow { IfSome result (IsNarrowFor (length out.new)) }
    ensures value { IfSome result (λ x. (m : Memory ValueFound) → R.agrees reader.now m → FindsRun (length out.new) x out.new (λ k. found (R.variables reader.now k) (R.look reader.now m) (term_of expr.now))) }
{
    match expr {
        Expr::Literal { .. } | Expr::Variable { .. } => leaf_lanes(expr, reader, out),
        Expr::Binary { left, right, .. } if is_leaf(left) && is_leaf(right) => {
            lanes_run(expr, reader, out, rest)
        }
        _ => {
            let ty = evaluate_run(expr, reader, out, rest)?;
            Some(Lanes::Vector(ty))
        }
    }
}

/// The values of an expression at the turns of a run. Usual ones take no register.
#[cycle(evaluate_run)]
fn lanes_run<R: RunReader>(
    expr: &Expr,
    reader: &R,
    out: &mut [u32],
    rest: &mut [u32],
) -> Option<Lanes>
    ensures narrow { IfSome result (IsNarrowFor (length out.new)) }
    ensures value { IfSome result (λ x. (m : Memory ValueFound) → R.agrees reader.now m → FindsRun (length out.new) x out.new (λ k. found (R.variables reader.now k) (R.look reader.now m) (term_of expr.now))) }
{
    if let Some(lanes) = usual_lanes(expr, reader, out) {
        return Some(lanes);
    }
    let ty = evaluate_run(expr, reader, out, rest)?;
    Some(Lanes::Vector(ty))
}

/// The values of an expression at the turns of a run, cast to the type. What a call finds is taken as of the type at once.
#[cycle(evaluate_run)]
fn cast_run<R: RunReader>(
    ty: Ty,
    expr: &Expr,
    reader: &R,
    out: &mut [u32],
    rest: &mut [u32],
) -> Option<Ty>
    ensures { IfSome result (λ t. (m : Memory ValueFound) → R.agrees reader.now m → FindsRun (length out.new) (Vector t) out.new (λ k. found (R.variables reader.now k) (R.look reader.now m) (Cast ty (term_of expr.now)))) }
{
    match expr {
        Expr::Call { name, at, .. } => {
            let ty = call_run(name.as_str(), at, Some(ty), reader, out, rest)?;
            Some(ty)
        }
        _ => {
            let value = operand_run(expr, reader, out, rest)?;
            wrap_lanes(ty, value, out)?;
            Some(ty)
        }
    }
}

/// The values of an operator, of an expression that is one on two others. A second operand that repeats the first is not evaluated, and
/// where it is a literal times another expression, that one is.
#[cycle(evaluate_run)]
fn binary_run<R: RunReader>(
    expr: &Expr,
    reader: &R,
    out: &mut [u32],
    rest: &mut [u32],
) -> Option<Ty>
    ensures { IfSome result (λ t. (m : Memory ValueFound) → R.agrees reader.now m → FindsRun (length out.new) (Vector t) out.new (λ k. found (R.variables reader.now k) (R.look reader.now m) (term_of expr.now))) }
{
    let Expr::Binary {
        op,
        left,
        right,
        ..
    } = expr
    else {
        return None;
    };
    if let Some(ty) = lent_first(*op, left, right, reader, out) {
        return Some(ty);
    }
    let first = operand_run(left, reader, out, rest)?;
    if rest.len() < out.len() {
        return None;
    }
    let (other, rest) = rest.split_at_mut(out.len());
    if let Some(repeat) = repeat_of(*op, left, right) {
        let ty = apply_repeated(*op, repeat, first, out, other)?;
        return Some(ty);
    }
    if let Some(operand) = lent_second(*op, right, type_of(first), reader, other) {
        let ty = apply_second(*op, first, operand, out)?;
        return Some(ty);
    }
    let second = multiple_run(right, reader, other, rest)?;
    let ty = apply_multiple(*op, second.factor, first, second.lanes, out, other)?;
    Some(ty)
}

/// The values of an expression at the turns of a run. Of the product of a literal and another expression they are the other one's, with
/// the literal as their factor.
#[cycle(evaluate_run)]
fn multiple_run<R: RunReader>(
    expr: &Expr,
    reader: &R,
    out: &mut [u32],
    rest: &mut [u32],
) -> Option<Multiple>
    ensures { IfSome result (λ x. (m : Memory ValueFound) → R.agrees reader.now m → (k : ℕ) → k < length out.new → found (R.variables reader.now k) (R.look reader.now m) (term_of expr.now) ≡ Some (multiplied_value x.factor (lane x.lanes out.new k))) }
{
    match expr {
        Expr::Binary {
            op: Op::Mul,
            left,
            right,
            ..
        } if makes_multiple(left, right) => {
            let factor = literal_value(left)?;
            let lanes = operand_run(right, reader, out, rest)?;
            Some(Multiple {
                factor: Some(factor),
                lanes,
            })
        }
        _ => {
            let lanes = operand_run(expr, reader, out, rest)?;
            Some(Multiple {
                factor: None,
                lanes,
            })
        }
    }
}

/// The values between two others, of an expression that is such.
#[cycle(evaluate_run)]
fn clamp_run<R: RunReader>(expr: &Expr, reader: &R, out: &mut [u32], rest: &mut [u32]) -> Option<Ty>
    ensures { IfSome result (λ t. (m : Memory ValueFound) → R.agrees reader.now m → FindsRun (length out.new) (Vector t) out.new (λ k. found (R.variables reader.now k) (R.look reader.now m) (term_of expr.now))) }
{
    let Expr::Clamp {
        value,
        low,
        high,
        ..
    } = expr
    else {
        return None;
    };
    let value = operand_run(value, reader, out, rest)?;
    if rest.len() < out.len() {
        return None;
    }
    let (lows, rest) = rest.split_at_mut(out.len());
    let low = operand_run(low, reader, lows, rest)?;
    if rest.len() < out.len() {
        return None;
    }
    let (highs, rest) = rest.split_at_mut(out.len());
    let high = operand_run(high, reader, highs, rest)?;
    let ty = clamp_lanes(value, low, high, out, lows, highs)?;
    Some(ty)
}

/// The chosen values, of an expression that is a choice. All of its condition and both its arms are evaluated.
#[cycle(evaluate_run)]
fn select_run<R: RunReader>(
    expr: &Expr,
    reader: &R,
    out: &mut [u32],
    rest: &mut [u32],
) -> Option<Ty>
    ensures { IfSome result (λ t. (m : Memory ValueFound) → R.agrees reader.now m → FindsRun (length out.new) (Vector t) out.new (λ k. found (R.variables reader.now k) (R.look reader.now m) (term_of expr.now))) }
{
    let Expr::Select { cond, yes, no, .. } = expr else {
        return None;
    };
    test_run(cond, reader, out, rest)?;
    if rest.len() < out.len() {
        return None;
    }
    let (yeses, rest) = rest.split_at_mut(out.len());
    let yes = operand_run(yes, reader, yeses, rest)?;
    if rest.len() < out.len() {
        return None;
    }
    let (noes, rest) = rest.split_at_mut(out.len());
    let no = operand_run(no, reader, noes, rest)?;
    let ty = choose_lanes(yes, no, out, yeses, noes)?;
    Some(ty)
}

/// What a condition comes to at the turns of a run, put into the register as a mask. All of it is evaluated.
#[cycle(evaluate_run)]
fn test_run<R: RunReader>(cond: &Cond, reader: &R, out: &mut [u32], rest: &mut [u32]) -> Option<()>
    ensures { IfSome result (λ _. (m : Memory ValueFound) → R.agrees reader.now m → FindsMask (length out.new) out.new (λ k. test_found (R.variables reader.now k) (R.look reader.now m) (test_of cond.now))) }
{
    match cond {
        Cond::Compare { .. } => compare_run(cond, reader, out, rest),
        Cond::Not { cond, .. } => {
            test_run(cond, reader, out, rest)?;
            not_each(out);
            Some(())
        }
        Cond::All { first, second, .. } => {
            test_run(first, reader, out, rest)?;
            if rest.len() < out.len() {
                return None;
            }
            let (other, rest) = rest.split_at_mut(out.len());
            test_run(second, reader, other, rest)?;
            both_each(out, other);
            Some(())
        }
        Cond::Any { first, second, .. } => {
            test_run(first, reader, out, rest)?;
            if rest.len() < out.len() {
                return None;
            }
            let (other, rest) = rest.split_at_mut(out.len());
            test_run(second, reader, other, rest)?;
            either_each(out, other);
            Some(())
        }
    }
}

/// What a comparison comes to at the turns of a run, of a condition that is one.
#[cycle(evaluate_run)]
fn compare_run<R: RunReader>(
    cond: &Cond,
    reader: &R,
    out: &mut [u32],
    rest: &mut [u32],
) -> Option<()>
    ensures { IfSome result (λ _. (m : Memory ValueFound) → R.agrees reader.now m → FindsMask (length out.new) out.new (λ k. test_found (R.variables reader.now k) (R.look reader.now m) (test_of cond.now))) }
{
    let Cond::Compare {
        by,
        left,
        right,
        ..
    } = cond
    else {
        return None;
    };
    let left = operand_run(left, reader, out, rest)?;
    if rest.len() < out.len() {
        return None;
    }
    let (other, rest) = rest.split_at_mut(out.len());
    let right = operand_run(right, reader, other, rest)?;
    compare_lanes(*by, left, right, out, other)?;
    Some(())
}

/// What a call of at most four indices finds at the turns of a run, cast to the type, if there is one.
#[cycle(evaluate_run)]
fn call_run<R: RunReader>(
    name: &str,
    at: &[Expr],
    cast: Option<Ty>,
    reader: &R,
    out: &mut [u32],
    rest: &mut [u32],
) -> Option<Ty>
    ensures { IfSome result (λ t. (m : Memory ValueFound) → R.agrees reader.now m → FindsRun (length out.new) (Vector t) out.new (λ k. found_as cast (with (all_found (R.variables reader.now k) (R.look reader.now m) (indices (list_terms at.now))) (λ zs. R.look reader.now m name.now zs)))) }
{
    if let Some(ty) = usual_call(name, at, cast, reader, out) {
        return Some(ty);
    }
    if at.len() > 4 {
        return None;
    }
    let count = out.len();
    let mut lanes = [Lanes::Vector(Ty::I32); 4];
    for (i, index) in at.iter().enumerate() {
        lanes[i] = index_run(index, i, count, reader, rest)?;
    }
    look_run(name, &lanes[..at.len()], rest, cast, reader, out)
}

/// The values of an index of a call at so many turns, of which so many registers are before its own.
#[cycle(evaluate_run)]
fn index_run<R: RunReader>(
    expr: &Expr,
    before: usize,
    count: usize,
    reader: &R,
    registers: &mut [u32],
) -> Option<Lanes>
    ensures before { (j : ℕ) → j < before * count → bits_at registers.new j ≡ bits_at registers.old j }
    ensures value { IfSome result (λ x. (m : Memory ValueFound) → R.agrees reader.now m → FindsRun count x (drop (before * count) registers.new) (λ k. found (R.variables reader.now k) (R.look reader.now m) (term_of expr.now))) }
{
    let start = before.checked_mul(count)?;
    if registers.len() < start {
        return None;
    }
    let (_, registers) = registers.split_at_mut(start);
    register_run(expr, count, reader, registers)
}

/// The values of an expression at so many turns, in the first register.
#[cycle(evaluate_run)]
fn register_run<R: RunReader>(
    expr: &Expr,
    count: usize,
    reader: &R,
    registers: &mut [u32],
) -> Option<Lanes>
    ensures { IfSome result (λ x. (m : Memory ValueFound) → R.agrees reader.now m → FindsRun count x registers.new (λ k. found (R.variables reader.now k) (R.look reader.now m) (term_of expr.now))) }
{
    if registers.len() < count {
        return None;
    }
    let (out, rest) = registers.split_at_mut(count);
    let lanes = lanes_run(expr, reader, out, rest)?;
    Some(lanes)
}

/// The numbers of an expression at as many turns of a run as the list has, and their type. Nothing where they are not taken for all
/// turns together; then there may still be values.
///
/// It takes no memory: the parts of the expression lie in the registers.
pub fn evaluate_numbers<R: RunReader>(
    expr: &Expr,
    reader: &R,
    registers: &mut [u32],
    out: &mut [Number],
) -> Option<Ty>
    ensures { IfSome result (λ t. (m : Memory ValueFound) → R.agrees reader.now m → (k : ℕ) → k < length out.new → found (R.variables reader.now k) (R.look reader.now m) (term_of expr.now) ≡ Some (typed t (number_at out.new k))) }
{
    if registers.len() < out.len() {
        return None;
    }
    let (words, rest) = registers.split_at_mut(out.len());
    let lanes = lanes_run(expr, reader, words, rest)?;
    widen(lanes, words, out);
    Some(type_of(lanes))
}
