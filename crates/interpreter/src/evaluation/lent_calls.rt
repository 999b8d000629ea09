//! Calls, perhaps cast, whose values lie in a row at the turns of a run: the numbers there are lent. The first index rises by one at each
//! turn, and may stay at ends; the others are the same at all turns.

ghost use Rattle.std.specs.Prelude.{◌≡◌, ◌∷◌, ◌≤◌, ◌+◌, ℕ, ℤ, List, Option, IfSome, length};
ghost use Rattle.plan.specs.Semantics.Found.{found, all_found, with};
ghost use Rattle.plan.specs.Semantics.Memory.{Memory};
ghost use Rattle.tree.specs.Term.{term_of, indices, list_terms};
ghost use Rattle.tree.specs.declared.value.Value.{Value as ValueFound};
ghost use Rattle.interpreter.specs.Evaluation.Lanes.{clamped_number, found_as};
ghost use Rattle.interpreter.specs.Evaluation.Lending.{lent, FindsLent, FindsTerm};

use crate::evaluation::lanes::ClampedRamp;
use crate::evaluation::lent_row::{LentOperand, LentTerm, word_of};
use crate::evaluation::looking::bends_of;
use crate::evaluation::run_reader::RunReader;
use crate::evaluation::usual_calls::{later_numbers, moved_rising, ramp_between};
use crate::evaluation::usual_indices::literal_value;
use crate::evaluation::whole::number_of;
use crate::scanlines::window;
use numeric::{Op, Ty};
use tree::Expr;

/// The numbers that are lent for so many turns, where the first index is a clamped ramp's number, which rises in them.
fn lend_bent<'a, R: RunReader>(
    name: &str,
    ramp: ClampedRamp,
    others: &[i64],
    cast: Option<Ty>,
    reader: &'a R,
    count: usize,
) -> Option<LentOperand<'a>>
    ensures room { IfSome result (λ o. o.before + length (lent o.numbers) ≤ count) }
    ensures value { IfSome result (λ o. (m : Memory ValueFound) → R.agrees reader.now m → FindsLent count o (λ k. found_as cast (R.look reader.now m name.now (clamped_number ramp k ∷ others.now)))) }
{
    let bends = bends_of(ramp, count)?;
    let long = bends.after - bends.before;
    let row = reader.lend_row(name, bends.start, others, cast, long)?;
    let low = word_of(row.numbers, 0)?;
    let high = word_of(row.numbers, long - 1)?;
    Some(LentOperand {
        ty: row.ty,
        before: bends.before,
        low,
        numbers: row.numbers,
        high,
    })
}

/// The numbers that are lent for a call whose first index rises, and these are the others.
fn lend_rising<'a, R: RunReader>(
    name: &str,
    first: &Expr,
    others: &[i64],
    cast: Option<Ty>,
    reader: &'a R,
    register: &mut [u32],
) -> Option<LentOperand<'a>>
    ensures room { IfSome result (λ o. o.before + length (lent o.numbers) ≤ length register.new) }
    ensures value { IfSome result (λ o. (m : Memory ValueFound) → R.agrees reader.now m → FindsLent (length register.new) o (λ k. found_as cast (with (found (R.variables reader.now k) (R.look reader.now m) (term_of first.now)) (λ x. R.look reader.now m name.now (x.number ∷ others.now))))) }
{
    let first = moved_rising(first, reader, register)?;
    let row = reader.lend_row(name, first, others, cast, register.len())?;
    Some(LentOperand {
        ty: row.ty,
        before: 0,
        low: 0,
        numbers: row.numbers,
        high: 0,
    })
}

/// The numbers that are lent for a call whose first index rises between two literals, and these are the others.
fn lend_clamped<'a, R: RunReader>(
    name: &str,
    first: &Expr,
    others: &[i64],
    cast: Option<Ty>,
    reader: &'a R,
    register: &mut [u32],
) -> Option<LentOperand<'a>>
    ensures room { IfSome result (λ o. o.before + length (lent o.numbers) ≤ length register.new) }
    ensures value { IfSome result (λ o. (m : Memory ValueFound) → R.agrees reader.now m → FindsLent (length register.new) o (λ k. found_as cast (with (found (R.variables reader.now k) (R.look reader.now m) (term_of first.now)) (λ x. R.look reader.now m name.now (x.number ∷ others.now))))) }
{
    let Expr::Clamp {
        value,
        low,
        high,
        ..
    } = first
    else {
        return None;
    };
    let value = moved_rising(value, reader, register)?;
    let low = literal_value(low)?;
    let high = literal_value(high)?;
    let ramp = ramp_between(value, low, high);
    let operand = lend_bent(name, ramp, others, cast, reader, register.len())?;
    Some(operand)
}

/// The numbers that are lent for a call whose first index rises, between two literals or not, and these are the others.
fn lend_along<'a, R: RunReader>(
    name: &str,
    first: &Expr,
    others: &[i64],
    cast: Option<Ty>,
    reader: &'a R,
    register: &mut [u32],
) -> Option<LentOperand<'a>>
    ensures room { IfSome result (λ o. o.before + length (lent o.numbers) ≤ length register.new) }
    ensures value { IfSome result (λ o. (m : Memory ValueFound) → R.agrees reader.now m → FindsLent (length register.new) o (λ k. found_as cast (with (found (R.variables reader.now k) (R.look reader.now m) (term_of first.now)) (λ x. R.look reader.now m name.now (x.number ∷ others.now))))) }
{
    match first {
        Expr::Clamp { .. } => lend_clamped(name, first, others, cast, reader, register),
        _ => lend_rising(name, first, others, cast, reader, register),
    }
}

/// The numbers that are lent for such a call, cast to the type, if there is one.
fn lend_call<'a, R: RunReader>(
    name: &str,
    at: &[Expr],
    cast: Option<Ty>,
    reader: &'a R,
    register: &mut [u32],
) -> Option<LentOperand<'a>>
    ensures room { IfSome result (λ o. o.before + length (lent o.numbers) ≤ length register.new) }
    ensures value { IfSome result (λ o. (m : Memory ValueFound) → R.agrees reader.now m → FindsLent (length register.new) o (λ k. found_as cast (with (all_found (R.variables reader.now k) (R.look reader.now m) (indices (list_terms at.now))) (λ zs. R.look reader.now m name.now zs)))) }
{
    let [first, behind @ ..] = at else {
        return None;
    };
    let later = later_numbers(behind, reader, register)?;
    let numbers = [later.second, later.third];
    let others = window(&numbers, 0, later.count)?;
    let operand = lend_along(name, first, others, cast, reader, register)?;
    Some(operand)
}

/// What an expression is the cast of, and the type that it is cast to; the expression itself, where it is no cast.
#[inline(always)]
fn uncast(expr: &Expr) -> (Option<Ty>, &Expr)
    ensures { (vs : List ℕ → ℤ) (look : List ℕ → List ℤ → Option ValueFound) → found vs look (term_of expr.now) ≡ found_as result.0 (found vs look (term_of result.1.now)) }
{
    match expr {
        Expr::Cast { ty, value, .. } => (Some(*ty), value),
        _ => (None, expr),
    }
}

/// Whether an expression is a call.
fn is_call(expr: &Expr) -> bool {
    match expr {
        Expr::Call { .. } => true,
        _ => false,
    }
}

/// Whether an expression is a call or the cast of one.
pub(crate) fn may_be_lent(expr: &Expr) -> bool {
    match expr {
        Expr::Cast { value, .. } => is_call(value),
        _ => is_call(expr),
    }
}

/// The numbers that are lent for an expression that is such a call or the cast of one, as many as the register has words at most. The
/// register is for indices that are refused.
pub(crate) fn lend_value<'a, R: RunReader>(
    expr: &Expr,
    reader: &'a R,
    register: &mut [u32],
) -> Option<LentOperand<'a>>
    ensures room { IfSome result (λ o. o.before + length (lent o.numbers) ≤ length register.new) }
    ensures value { IfSome result (λ o. (m : Memory ValueFound) → R.agrees reader.now m → FindsLent (length register.new) o (λ k. found (R.variables reader.now k) (R.look reader.now m) (term_of expr.now))) }
{
    let (cast, called) = uncast(expr);
    let Expr::Call { name, at, .. } = called else {
        return None;
    };
    let operand = lend_call(name.as_str(), at, cast, reader, register)?;
    Some(operand)
}

/// The numbers that are lent for an expression that is the product of a literal and such a call, or the cast of one.
fn lend_product<'a, R: RunReader>(
    expr: &Expr,
    reader: &'a R,
    register: &mut [u32],
) -> Option<LentTerm<'a>>
    ensures room { IfSome result (λ x. x.operand.before + length (lent x.operand.numbers) ≤ length register.new) }
    ensures value { IfSome result (λ x. (m : Memory ValueFound) → R.agrees reader.now m → FindsTerm (length register.new) x (λ k. found (R.variables reader.now k) (R.look reader.now m) (term_of expr.now))) }
{
    let Expr::Binary {
        op,
        left,
        right,
        ..
    } = expr
    else {
        return None;
    };
    if *op != Op::Mul || !may_be_lent(right) {
        return None;
    }
    let factor = literal_value(left)?;
    let operand = lend_value(right, reader, register)?;
    if operand.ty != factor.ty {
        return None;
    }
    Some(LentTerm {
        factor: Some(number_of(factor)),
        operand,
    })
}

/// The numbers that are lent for an expression that is such a call, the cast of one, or the product of a literal and one of these.
#[inline(always)]
pub(crate) fn lend_term<'a, R: RunReader>(
    expr: &Expr,
    reader: &'a R,
    register: &mut [u32],
) -> Option<LentTerm<'a>>
    ensures room { IfSome result (λ x. x.operand.before + length (lent x.operand.numbers) ≤ length register.new) }
    ensures value { IfSome result (λ x. (m : Memory ValueFound) → R.agrees reader.now m → FindsTerm (length register.new) x (λ k. found (R.variables reader.now k) (R.look reader.now m) (term_of expr.now))) }
{
    if is_product(expr) {
        return lend_product(expr, reader, register);
    }
    let operand = lend_value(expr, reader, register)?;
    Some(LentTerm {
        factor: None,
        operand,
    })
}

/// Whether an expression is a product.
pub(crate) fn is_product(expr: &Expr) -> bool {
    match expr {
        Expr::Binary { op: Op::Mul, .. } => true,
        _ => false,
    }
}
