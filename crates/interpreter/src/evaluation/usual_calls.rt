//! Calls as most are: the first index is a variable that rises by one from turn to turn, the others are variables that stay, or
//! literals; each with a literal added or taken away, perhaps, and between two literals. Their numbers take no registers.

ghost use Rattle.std.specs.Prelude.{◌≡◌, ◌∷◌, [], ◌<◌, ◌+ℤ◌, ℕ, pos, take, IfSome, Some, length};
ghost use Rattle.numeric.specs.declared.ty.Ty.TheVariants.{I32};
ghost use Rattle.plan.specs.Semantics.Found.{found, all_found, with};
ghost use Rattle.plan.specs.Semantics.Memory.{Memory};
ghost use Rattle.tree.specs.Meaning.{typed, clamped};
ghost use Rattle.tree.specs.Term.{term_of, indices, list_terms};
ghost use Rattle.tree.specs.declared.value.Value.{Value as ValueFound};
ghost use Rattle.interpreter.specs.Evaluation.Lanes.{clamped_number, found_as, FindsRun};
ghost use Rattle.interpreter.specs.declared.evaluation.lanes.Lanes.TheVariants.{Vector};

use crate::evaluation::lanes::{ClampedRamp, Number};
use crate::evaluation::looking::look_bent;
use crate::evaluation::operators::{applied, clamped};
use crate::evaluation::run_reader::RunReader;
use crate::evaluation::usual_indices::literal_value;
use crate::evaluation::whole::{move_ramp, number_of};
use crate::scanlines::window;
use numeric::Ty;
use tree::{Expr, Value};

/// The value of an index's number.
#[inline(always)]
fn value_of_index(number: i64) -> Value
    ensures { result ≡ typed I32 number }
{
    Value {
        ty: Ty::I32,
        number,
    }
}

/// The number of a value that an index may have.
#[inline(always)]
fn number_of_index(value: Value) -> Option<i64>
    ensures { IfSome result (λ z. value ≡ typed I32 z) }
{
    if value.ty != Ty::I32 {
        return None;
    }
    Some(value.number)
}

/// The number of an expression that is a variable that stays, or a literal.
#[inline(always)]
fn standing_part<R: RunReader>(expr: &Expr, reader: &R, out: &mut [u32]) -> Option<i64>
    ensures { IfSome result (λ z. (m : Memory ValueFound) → R.agrees reader.now m → (k : ℕ) → k < length out.new → found (R.variables reader.now k) (R.look reader.now m) (term_of expr.now) ≡ Some (typed I32 z)) }
{
    match expr {
        Expr::Variable { name, .. } => {
            let number = reader.standing(name.as_str(), out.len())?;
            Some(number)
        }
        _ => {
            let value = literal_value(expr)?;
            number_of_index(value)
        }
    }
}

/// The number at the first turn of an expression that is a variable that rises by one.
#[inline(always)]
fn rising_part<R: RunReader>(expr: &Expr, reader: &R, out: &mut [u32]) -> Option<i64>
    ensures { IfSome result (λ z. (m : Memory ValueFound) → R.agrees reader.now m → (k : ℕ) → k < length out.new → found (R.variables reader.now k) (R.look reader.now m) (term_of expr.now) ≡ Some (typed I32 (z +ℤ pos k))) }
{
    match expr {
        Expr::Variable { name, .. } => {
            let number = reader.rising(name.as_str(), out.len())?;
            Some(number)
        }
        _ => None,
    }
}

/// The number of such an expression that stays, or of an operator on one and a literal.
#[inline(always)]
fn moved_standing<R: RunReader>(expr: &Expr, reader: &R, out: &mut [u32]) -> Option<i64>
    ensures { IfSome result (λ z. (m : Memory ValueFound) → R.agrees reader.now m → (k : ℕ) → k < length out.new → found (R.variables reader.now k) (R.look reader.now m) (term_of expr.now) ≡ Some (typed I32 z)) }
{
    let Expr::Binary {
        op,
        left,
        right,
        ..
    } = expr
    else {
        return standing_part(expr, reader, out);
    };
    let first = standing_part(left, reader, out)?;
    let second = literal_value(right)?;
    let number = number_of_index(applied(*op, value_of_index(first), second))?;
    Some(number)
}

/// The number at the first turn of such an expression that rises, or of one with a literal added or taken away, if it rises by one too.
#[inline(always)]
pub(crate) fn moved_rising<R: RunReader>(expr: &Expr, reader: &R, out: &mut [u32]) -> Option<i64>
    ensures { IfSome result (λ z. (m : Memory ValueFound) → R.agrees reader.now m → (k : ℕ) → k < length out.new → found (R.variables reader.now k) (R.look reader.now m) (term_of expr.now) ≡ Some (typed I32 (z +ℤ pos k))) }
{
    let Expr::Binary {
        op,
        left,
        right,
        ..
    } = expr
    else {
        return rising_part(expr, reader, out);
    };
    let first = rising_part(left, reader, out)?;
    let second = literal_value(right)?;
    let moved = move_ramp(*op, value_of_index(first), second, out.len())?;
    let number = number_of_index(moved)?;
    Some(number)
}

/// The number of such an expression that stays, or of one between two literals.
pub(crate) fn standing_number<R: RunReader>(expr: &Expr, reader: &R, out: &mut [u32]) -> Option<i64>
    ensures { IfSome result (λ z. (m : Memory ValueFound) → R.agrees reader.now m → (k : ℕ) → k < length out.new → found (R.variables reader.now k) (R.look reader.now m) (term_of expr.now) ≡ Some (typed I32 z)) }
{
    let Expr::Clamp {
        value,
        low,
        high,
        ..
    } = expr
    else {
        return moved_standing(expr, reader, out);
    };
    let value = moved_standing(value, reader, out)?;
    let low = literal_value(low)?;
    let high = literal_value(high)?;
    Some(clamped(value_of_index(value), low, high).number)
}

/// The ramp from a number on between two values.
#[inline(always)]
pub(crate) fn ramp_between(first: i64, low: Value, high: Value) -> ClampedRamp
    ensures { (k : ℕ) → typed I32 (clamped_number result k) ≡ clamped (typed I32 (first +ℤ pos k)) low high }
{
    ClampedRamp {
        first: Number { value: first },
        low: number_of(low),
        high: number_of(high),
    }
}

/// The numbers of a call's indices behind the first one, which are two at most, and how many there are.
#[derive(Clone, Copy, Drop)]
pub(crate) struct LaterNumbers {
    pub second: i64,
    pub third: i64,
    pub count: usize,
}

/// The numbers of a call's indices behind the first one, where each of these stays.
#[inline(always)]
pub(crate) fn later_numbers<R: RunReader>(
    later: &[Expr],
    reader: &R,
    out: &mut [u32],
) -> Option<LaterNumbers>
    ensures { IfSome result (λ n. (m : Memory ValueFound) → R.agrees reader.now m → (k : ℕ) → k < length out.new → all_found (R.variables reader.now k) (R.look reader.now m) (indices (list_terms later.now)) ≡ Some (take n.count (n.second ∷ n.third ∷ []))) }
{
    match later {
        [] => Some(LaterNumbers {
            second: 0,
            third: 0,
            count: 0,
        }),
        [only] => {
            let second = standing_number(only, reader, out)?;
            Some(LaterNumbers {
                second,
                third: 0,
                count: 1,
            })
        }
        [next, last] => {
            let second = standing_number(next, reader, out)?;
            let third = standing_number(last, reader, out)?;
            Some(LaterNumbers {
                second,
                third,
                count: 2,
            })
        }
        _ => None,
    }
}

/// What a name finds at the turns of a run along a row, where the first index rises and these are the others.
fn rising_row<R: RunReader>(
    name: &str,
    first: &Expr,
    others: &[i64],
    cast: Option<Ty>,
    reader: &R,
    out: &mut [u32],
) -> Option<Ty>
    ensures { IfSome result (λ t. (m : Memory ValueFound) → R.agrees reader.now m → FindsRun (length out.new) (Vector t) out.new (λ k. found_as cast (with (found (R.variables reader.now k) (R.look reader.now m) (term_of first.now)) (λ x. R.look reader.now m name.now (x.number ∷ others.now))))) }
{
    let first = moved_rising(first, reader, out)?;
    let ty = reader.look_row(name, first, others, cast, out)?;
    Some(ty)
}

/// What a name finds at the turns of a run along a row and at its ends, where the first index rises between two literals and these are
/// the others.
fn clamped_row<R: RunReader>(
    name: &str,
    first: &Expr,
    others: &[i64],
    cast: Option<Ty>,
    reader: &R,
    out: &mut [u32],
) -> Option<Ty>
    ensures { IfSome result (λ t. (m : Memory ValueFound) → R.agrees reader.now m → FindsRun (length out.new) (Vector t) out.new (λ k. found_as cast (with (found (R.variables reader.now k) (R.look reader.now m) (term_of first.now)) (λ x. R.look reader.now m name.now (x.number ∷ others.now))))) }
{
    let Expr::Clamp {
        value,
        low,
        high,
        ..
    } = first
    else {
        return None;
    };
    let value = moved_rising(value, reader, out)?;
    let low = literal_value(low)?;
    let high = literal_value(high)?;
    let ramp = ramp_between(value, low, high);
    let ty = look_bent(name, ramp, others, cast, reader, out)?;
    Some(ty)
}

/// What a name finds at the turns of a run, where the first index rises, between two literals or not, and these are the others.
fn usual_row<R: RunReader>(
    name: &str,
    first: &Expr,
    others: &[i64],
    cast: Option<Ty>,
    reader: &R,
    out: &mut [u32],
) -> Option<Ty>
    ensures { IfSome result (λ t. (m : Memory ValueFound) → R.agrees reader.now m → FindsRun (length out.new) (Vector t) out.new (λ k. found_as cast (with (found (R.variables reader.now k) (R.look reader.now m) (term_of first.now)) (λ x. R.look reader.now m name.now (x.number ∷ others.now))))) }
{
    match first {
        Expr::Clamp { .. } => clamped_row(name, first, others, cast, reader, out),
        _ => rising_row(name, first, others, cast, reader, out),
    }
}

/// What a usual call finds at the turns of a run, cast to the type, if there is one. Nothing where the call is none, or does not lie
/// along a row; then it may still find something.
pub(crate) fn usual_call<R: RunReader>(
    name: &str,
    at: &[Expr],
    cast: Option<Ty>,
    reader: &R,
    out: &mut [u32],
) -> Option<Ty>
    ensures { IfSome result (λ t. (m : Memory ValueFound) → R.agrees reader.now m → FindsRun (length out.new) (Vector t) out.new (λ k. found_as cast (with (all_found (R.variables reader.now k) (R.look reader.now m) (indices (list_terms at.now))) (λ zs. R.look reader.now m name.now zs)))) }
{
    let [first, behind @ ..] = at else {
        return None;
    };
    let later = later_numbers(behind, reader, out)?;
    let numbers = [later.second, later.third];
    let others = window(&numbers, 0, later.count)?;
    let ty = usual_row(name, first, others, cast, reader, out)?;
    Some(ty)
}
