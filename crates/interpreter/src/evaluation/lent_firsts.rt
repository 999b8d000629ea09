//! Sums, differences and products of which the first operand is lent, and not copied into a register first: where the second one is lent
//! too, or is a literal.

ghost use Rattle.std.specs.Prelude.{◌≡◌, ◌<◌, ◌≤◌, ◌+◌, ℕ, IfSome, length, pos};
ghost use Rattle.plan.specs.Semantics.Found.{found};
ghost use Rattle.plan.specs.Semantics.Memory.{Memory};
ghost use Rattle.numeric.specs.declared.ty.Ty.{Ty as TyFound};
ghost use Rattle.numeric.specs.Apply.{apply};
ghost use Rattle.numeric.specs.Wrap.{wrap};
ghost use Rattle.tree.specs.Term.{term_of, Binary};
ghost use Rattle.tree.specs.declared.value.Value.{Value as ValueFound};
ghost use Rattle.interpreter.specs.Evaluation.Lanes.{FindsRun};
ghost use Rattle.interpreter.specs.Evaluation.Lending.{lent, lent_bits};
ghost use Rattle.interpreter.specs.Evaluation.Words.{word_at};
ghost use Rattle.interpreter.specs.declared.evaluation.lanes.Lanes.TheVariants.{Vector};

use crate::evaluation::byte_kernels::apply_byte_row_by;
use crate::evaluation::kernels::fill_words;
use crate::evaluation::lanes::Number;
use crate::evaluation::lent_calls::{lend_value, may_be_lent};
use crate::evaluation::lent_operands::is_residue;
use crate::evaluation::lent_pairs::lent_both;
use crate::evaluation::lent_row::{LentNumbers, LentOperand};
use crate::evaluation::lent_triples::lent_three;
use crate::evaluation::operations::{Difference, Product, Sum};
use crate::evaluation::residue_kernels::{ResidueOperator, apply_row_by};
use crate::evaluation::run_reader::RunReader;
use crate::evaluation::usual_indices::literal_value;
use crate::evaluation::whole::number_of;
use numeric::{Op, Ty};
use tree::Expr;

/// The operator on each lent number and one number, put into a register.
fn apply_numbers_by<O: ResidueOperator>(left: LentNumbers<'_>, right: Number, out: &mut [u32])
    requires { length (lent left) ≡ length out.old }
    ensures { (t : TyFound) (k : ℕ) → k < length out.new → word_at t out.new k ≡ apply O.op t (word_at t (lent left.entry) k) right.value }
{
    match left {
        LentNumbers::Words(words) => apply_row_by::<O>(words, right, out),
        LentNumbers::Bytes(bytes) => apply_byte_row_by::<O>(bytes, right, out),
    }
}

/// The operator on one number and another, put into a register for each turn.
fn fill_result_by<O: ResidueOperator>(left: u32, right: Number, out: &mut [u32])
    ensures { (t : TyFound) (k : ℕ) → k < length out.new → word_at t out.new k ≡ apply O.op t (wrap t (pos left)) right.value }
{
    fill_words(O::residue(i64::from(left), right.value), out);
}

/// The operator on the number of a lent operand at each turn and one number, put into a register.
fn apply_operand_by<O: ResidueOperator>(left: LentOperand<'_>, right: Number, out: &mut [u32])
    requires { left.before + length (lent left.numbers) ≤ length out.old }
    ensures { (t : TyFound) (k : ℕ) → k < length out.new → word_at t out.new k ≡ apply O.op t (wrap t (pos (lent_bits left.entry k))) right.value }
{
    let (low, rest) = out.split_at_mut(left.before);
    let (middle, high) = rest.split_at_mut(left.numbers.count());
    fill_result_by::<O>(left.low, right, low);
    apply_numbers_by::<O>(left.numbers, right, middle);
    fill_result_by::<O>(left.high, right, high);
}

/// The same of an operator that is one of these.
fn apply_op_by(op: Op, left: LentOperand<'_>, right: Number, out: &mut [u32]) -> Option<()>
    requires { left.before + length (lent left.numbers) ≤ length out.old }
    ensures { IfSome result (λ _. (t : TyFound) (k : ℕ) → k < length out.new → word_at t out.new k ≡ apply op t (wrap t (pos (lent_bits left.entry k))) right.value) }
{
    match op {
        Op::Add => apply_operand_by::<Sum>(left, right, out),
        Op::Sub => apply_operand_by::<Difference>(left, right, out),
        Op::Mul => apply_operand_by::<Product>(left, right, out),
        _ => return None,
    }
    Some(())
}

/// The values of an operator on an operand that is lent and a literal, put into the register.
fn lent_by_literal<R: RunReader>(
    op: Op,
    left: &Expr,
    right: &Expr,
    reader: &R,
    out: &mut [u32],
) -> Option<Ty>
    ensures { IfSome result (λ t. (m : Memory ValueFound) → R.agrees reader.now m → FindsRun (length out.new) (Vector t) out.new (λ k. found (R.variables reader.now k) (R.look reader.now m) (Binary op (term_of left.now) (term_of right.now)))) }
{
    let second = literal_value(right)?;
    let first = lend_value(left, reader, out)?;
    apply_op_by(op, first, number_of(second), out)?;
    Some(first.ty)
}

/// The values of an operator on two operands, put into the register, where the first is lent, and the second is lent too or is a literal.
fn lent_beside<R: RunReader>(
    op: Op,
    left: &Expr,
    right: &Expr,
    reader: &R,
    out: &mut [u32],
) -> Option<Ty>
    ensures { IfSome result (λ t. (m : Memory ValueFound) → R.agrees reader.now m → FindsRun (length out.new) (Vector t) out.new (λ k. found (R.variables reader.now k) (R.look reader.now m) (Binary op (term_of left.now) (term_of right.now)))) }
{
    if !may_be_lent(left) {
        return None;
    }
    match right {
        Expr::Literal { .. } => lent_by_literal(op, left, right, reader, out),
        _ => lent_both(op, left, right, reader, out),
    }
}

/// The values of an operator on two operands, put into the register, where the first is lent, the second is lent too or is a literal, and
/// the operator needs nothing but the lowest bits of them; or where the first is a sum of two that are lent, and the second one too.
/// Nothing where that is not so; then they may still have values.
pub(crate) fn lent_first<R: RunReader>(
    op: Op,
    left: &Expr,
    right: &Expr,
    reader: &R,
    out: &mut [u32],
) -> Option<Ty>
    ensures { IfSome result (λ t. (m : Memory ValueFound) → R.agrees reader.now m → FindsRun (length out.new) (Vector t) out.new (λ k. found (R.variables reader.now k) (R.look reader.now m) (Binary op (term_of left.now) (term_of right.now)))) }
{
    if !is_residue(op) {
        return None;
    }
    match left {
        Expr::Binary { .. } => lent_three(op, left, right, reader, out),
        _ => lent_beside(op, left, right, reader, out),
    }
}
