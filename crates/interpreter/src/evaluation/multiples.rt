//! Second operands that are an expression as many times as a literal says: the factor is applied together with the operator.

ghost use Rattle.std.specs.Prelude.{◌≡◌, ◌<◌, ℕ, IfSome, length};
ghost use Rattle.numeric.specs.declared.op.Op.TheVariants.{Mul};
ghost use Rattle.numeric.specs.declared.ty.Ty.{Ty as TyFound};
ghost use Rattle.numeric.specs.Apply.{apply};
ghost use Rattle.tree.specs.Meaning.{applied, typed};
ghost use Rattle.interpreter.specs.Evaluation.Lanes.{lane, type_of};
ghost use Rattle.interpreter.specs.Evaluation.Multiples.{multiplied_value};
ghost use Rattle.interpreter.specs.Evaluation.Words.{word_at};

use crate::evaluation::lanes::{Lanes, Number};
use crate::evaluation::lent_operands::is_residue;
use crate::evaluation::operations::{Difference, Product, Sum};
use crate::evaluation::residue_kernels::{apply_residues_from, apply_scaled};
use crate::evaluation::usual_indices::{is_leaf, literal_value};
use crate::evaluation::whole::{apply_lanes, number_of, spread_as, type_of};
use numeric::{Op, Ty};
use tree::{Expr, Value};

/// What an expression comes to at the turns of a run, as many times as a factor says, if there is one.
#[derive(Clone, Copy, Drop)]
pub(crate) struct Multiple {
    pub factor: Option<Value>,
    pub lanes: Lanes,
}

/// Whether operands of a product make it a multiple of the second one: the first is a literal, and the second no variable or literal.
pub(crate) fn makes_multiple(left: &Expr, right: &Expr) -> bool {
    literal_value(left).is_some() && !is_leaf(right)
}

/// The operator on each word and the one of another register, as many times as the factor says, where it needs nothing but the lowest
/// bits of them.
fn apply_scaled_by(op: Op, out: &mut [u32], factor: Number, right: &[u32]) -> Option<()>
    requires { length right.now ≡ length out.old }
    ensures { IfSome result (λ _. (t : TyFound) (k : ℕ) → k < length out.new → word_at t out.new k ≡ apply op t (word_at t out.old k) (apply Mul t factor.value (word_at t right.now k))) }
{
    match op {
        Op::Add => apply_scaled::<Sum>(out, factor, right),
        Op::Sub => apply_scaled::<Difference>(out, factor, right),
        Op::Mul => apply_scaled::<Product>(out, factor, right),
        _ => return None,
    }
    Some(())
}

/// The operator on lanes of the factor's type, over this register, into which the values are put, and on those over another as many times
/// as the factor says, where it needs nothing but the lowest bits of them: their type.
fn apply_at_once(
    op: Op,
    factor: Value,
    left: Lanes,
    right: Lanes,
    out: &mut [u32],
    other: &mut [u32],
) -> Option<Ty>
    requires { length other.old ≡ length out.old }
    ensures { IfSome result (λ t. (k : ℕ) → k < length out.new → typed t (word_at t out.new k) ≡ applied op (lane left out.old k) (applied Mul factor (lane right other.old k))) }
{
    spread_as(factor.ty, left, out)?;
    spread_as(factor.ty, right, other)?;
    apply_scaled_by(op, out, number_of(factor), other)?;
    Some(factor.ty)
}

/// A value times lanes over this register, into which the products are put, if these are of its type: their type.
fn multiply_lanes(value: Value, lanes: Lanes, out: &mut [u32]) -> Option<Ty>
    ensures { IfSome result (λ t. (k : ℕ) → k < length out.new → typed t (word_at t out.new k) ≡ applied Mul value (lane lanes out.old k)) }
{
    spread_as(value.ty, lanes, out)?;
    apply_residues_from::<Product>(number_of(value), out);
    Some(value.ty)
}

/// The operator on lanes over this register, into which the values are put, and on those over another times the factor: their type.
fn apply_product(
    op: Op,
    factor: Value,
    left: Lanes,
    right: Lanes,
    out: &mut [u32],
    other: &mut [u32],
) -> Option<Ty>
    requires { length other.old ≡ length out.old }
    ensures { IfSome result (λ t. (k : ℕ) → k < length out.new → typed t (word_at t out.new k) ≡ applied op (lane left out.old k) (applied Mul factor (lane right other.old k))) }
{
    if is_residue(op) && type_of(left) == factor.ty {
        return apply_at_once(op, factor, left, right, out, other);
    }
    let ty = multiply_lanes(factor, right, other)?;
    apply_lanes(op, left, Lanes::Vector(ty), out, other)
}

/// The operator on lanes over this register, into which the values are put, and on those over another as many times as the factor says,
/// if there is one: their type.
pub(crate) fn apply_multiple(
    op: Op,
    factor: Option<Value>,
    left: Lanes,
    right: Lanes,
    out: &mut [u32],
    other: &mut [u32],
) -> Option<Ty>
    requires { length other.old ≡ length out.old }
    ensures { IfSome result (λ t. (k : ℕ) → k < length out.new → typed t (word_at t out.new k) ≡ applied op (lane left out.old k) (multiplied_value factor (lane right other.old k))) }
{
    match factor {
        Some(factor) => apply_product(op, factor, left, right, out, other),
        None => apply_lanes(op, left, right, out, other),
    }
}
