//! Second operands of sums, differences and products that are lent, and not copied into a register first.

ghost use Rattle.std.specs.Prelude.{◌≡◌, ◌<◌, ◌≤◌, ◌+◌, ℕ, Some, IfSome, length, pos};
ghost use Rattle.plan.specs.Semantics.Found.{found};
ghost use Rattle.plan.specs.Semantics.Memory.{Memory};
ghost use Rattle.numeric.specs.declared.op.Op.TheVariants.{Mul};
ghost use Rattle.numeric.specs.declared.ty.Ty.{Ty as TyFound};
ghost use Rattle.numeric.specs.Apply.{apply};
ghost use Rattle.numeric.specs.Wrap.{wrap};
ghost use Rattle.tree.specs.Meaning.{applied, typed};
ghost use Rattle.tree.specs.Term.{term_of};
ghost use Rattle.tree.specs.declared.value.Value.{Value as ValueFound};
ghost use Rattle.interpreter.specs.Evaluation.Lanes.{lane, lane_number, type_of};
ghost use Rattle.interpreter.specs.Evaluation.Lending.{lent, lent_bits, lent_number, times_factor};
ghost use Rattle.interpreter.specs.Evaluation.Words.{word_at};

use crate::evaluation::byte_kernels::{apply_bytes, apply_bytes_to, apply_scaled_bytes};
use crate::evaluation::kernels::fill_words;
use crate::evaluation::lanes::{Lanes, Number};
use crate::evaluation::lent_calls::lend_term;
use crate::evaluation::lent_row::{LentNumbers, LentOperand, LentTerm, word_by_factor};
use crate::evaluation::operations::{Difference, Product, Sum};
use crate::evaluation::residue_kernels::{
    ResidueOperator, apply_residues, apply_residues_to, apply_scaled, apply_word,
};
use crate::evaluation::run_reader::RunReader;
use crate::evaluation::whole::{spread, type_of};
use numeric::{Op, Ty};
use tree::Expr;

/// Whether the lowest bits of an operator's operands make those of its result.
pub(crate) fn is_residue(op: Op) -> bool {
    match op {
        Op::Add | Op::Sub | Op::Mul => true,
        _ => false,
    }
}

/// A term that is lent, if its numbers are of the type.
fn term_of_type<'a>(term: LentTerm<'a>, ty: Ty) -> Option<LentTerm<'a>>
    ensures ty { IfSome result (λ _. term.entry.operand.ty ≡ ty) }
    ensures same { IfSome result (λ x. x ≡ term.entry) }
{
    if term.operand.ty == ty {
        Some(term)
    } else {
        None
    }
}

/// The numbers that are lent for the second operand of an operator, if these are of the type and the operator needs nothing else of
/// them. The register is for the indices of a call.
pub(crate) fn lent_operand<'a, R: RunReader>(
    op: Op,
    expr: &Expr,
    ty: Ty,
    reader: &'a R,
    register: &mut [u32],
) -> Option<LentTerm<'a>>
    ensures room { IfSome result (λ x. x.operand.before + length (lent x.operand.numbers) ≤ length register.new) }
    ensures value { IfSome result (λ x. (m : Memory ValueFound) → R.agrees reader.now m → (k : ℕ) → k < length register.new → found (R.variables reader.now k) (R.look reader.now m) (term_of expr.now) ≡ Some (typed ty (lent_number ty x k))) }
{
    if !is_residue(op) {
        return None;
    }
    let term = lend_term(expr, reader, register)?;
    let term = term_of_type(term, ty)?;
    Some(term)
}

/// The operator on each word and a lent number.
fn apply_numbers<O: ResidueOperator>(out: &mut [u32], right: LentNumbers<'_>)
    requires { length (lent right) ≡ length out.old }
    ensures { (t : TyFound) (k : ℕ) → k < length out.new → word_at t out.new k ≡ apply O.op t (word_at t out.old k) (word_at t (lent right.entry) k) }
{
    match right {
        LentNumbers::Words(words) => apply_residues::<O>(out, words),
        LentNumbers::Bytes(bytes) => apply_bytes::<O>(out, bytes),
    }
}

/// The operator on each word and a lent number, as many times as the factor says.
fn apply_scaled_numbers<O: ResidueOperator>(out: &mut [u32], factor: Number, right: LentNumbers<'_>)
    requires { length (lent right) ≡ length out.old }
    ensures { (t : TyFound) (k : ℕ) → k < length out.new → word_at t out.new k ≡ apply O.op t (word_at t out.old k) (apply Mul t factor.value (word_at t (lent right.entry) k)) }
{
    match right {
        LentNumbers::Words(words) => apply_scaled::<O>(out, factor, words),
        LentNumbers::Bytes(bytes) => apply_scaled_bytes::<O>(out, factor, bytes),
    }
}

/// The operator on each word and a lent number, as many times as the factor says, if there is one.
fn apply_by_factor<O: ResidueOperator>(
    out: &mut [u32],
    factor: Option<Number>,
    right: LentNumbers<'_>,
)
    requires { length (lent right) ≡ length out.old }
    ensures { (t : TyFound) (k : ℕ) → k < length out.new → word_at t out.new k ≡ apply O.op t (word_at t out.old k) (times_factor t factor (word_at t (lent right.entry) k)) }
{
    match factor {
        Some(factor) => apply_scaled_numbers::<O>(out, factor, right),
        None => apply_numbers::<O>(out, right),
    }
}

/// The operator on one number and each lent number, put into a register.
fn apply_numbers_to<O: ResidueOperator>(left: Number, right: LentNumbers<'_>, out: &mut [u32])
    requires { length (lent right) ≡ length out.old }
    ensures { (t : TyFound) (k : ℕ) → k < length out.new → word_at t out.new k ≡ apply O.op t left.value (word_at t (lent right.entry) k) }
{
    match right {
        LentNumbers::Words(words) => apply_residues_to::<O>(left, words, out),
        LentNumbers::Bytes(bytes) => apply_bytes_to::<O>(left, bytes, out),
    }
}

/// The operator on one number and another, put into a register for each turn.
fn fill_result<O: ResidueOperator>(left: Number, right: u32, out: &mut [u32])
    ensures { (t : TyFound) (k : ℕ) → k < length out.new → word_at t out.new k ≡ apply O.op t left.value (wrap t (pos right)) }
{
    fill_words(O::residue(left.value, i64::from(right)), out);
}

/// The operator on each word and the number of a lent term at its turn.
fn apply_term<O: ResidueOperator>(out: &mut [u32], right: LentTerm<'_>)
    requires { right.operand.before + length (lent right.operand.numbers) ≤ length out.old }
    ensures { (t : TyFound) (k : ℕ) → k < length out.new → word_at t out.new k ≡ apply O.op t (word_at t out.old k) (lent_number t right.entry k) }
{
    let operand = right.operand;
    let (low, rest) = out.split_at_mut(operand.before);
    let (middle, high) = rest.split_at_mut(operand.numbers.count());
    apply_word::<O>(low, word_by_factor(right.factor, operand.low));
    apply_by_factor::<O>(middle, right.factor, operand.numbers);
    apply_word::<O>(high, word_by_factor(right.factor, operand.high));
}

/// The operator on one number and that of a lent operand at each turn, put into a register.
fn apply_operand_to<O: ResidueOperator>(left: Number, right: LentOperand<'_>, out: &mut [u32])
    requires { right.before + length (lent right.numbers) ≤ length out.old }
    ensures { (t : TyFound) (k : ℕ) → k < length out.new → word_at t out.new k ≡ apply O.op t left.value (wrap t (pos (lent_bits right.entry k))) }
{
    let (low, rest) = out.split_at_mut(right.before);
    let (middle, high) = rest.split_at_mut(right.numbers.count());
    fill_result::<O>(left, right.low, low);
    apply_numbers_to::<O>(left, right.numbers, middle);
    fill_result::<O>(left, right.high, high);
}

/// A sum, a difference or a product of lanes over this register and a lent term of their type. One number is not put into the register
/// first where the term has no factor.
fn apply_lent_by<O: ResidueOperator>(
    left: Lanes,
    right: LentTerm<'_>,
    out: &mut [u32],
) -> Option<()>
    requires { right.operand.before + length (lent right.operand.numbers) ≤ length out.old }
    ensures { IfSome result (λ _. (k : ℕ) → k < length out.new → word_at (type_of left) out.new k ≡ apply O.op (type_of left) (lane_number left out.old k) (lent_number (type_of left) right.entry k)) }
{
    match (left, right.factor) {
        (Lanes::Broadcast(_, number), None) => {
            apply_operand_to::<O>(number, right.operand, out);
            Some(())
        }
        _ => {
            spread(left, out)?;
            apply_term::<O>(out, right);
            Some(())
        }
    }
}

/// The same of an operator that is one of these.
fn apply_lent_op(op: Op, left: Lanes, right: LentTerm<'_>, out: &mut [u32]) -> Option<()>
    requires { right.operand.before + length (lent right.operand.numbers) ≤ length out.old }
    ensures { IfSome result (λ _. (k : ℕ) → k < length out.new → word_at (type_of left) out.new k ≡ apply op (type_of left) (lane_number left out.old k) (lent_number (type_of left) right.entry k)) }
{
    match op {
        Op::Add => apply_lent_by::<Sum>(left, right, out),
        Op::Sub => apply_lent_by::<Difference>(left, right, out),
        Op::Mul => apply_lent_by::<Product>(left, right, out),
        _ => None,
    }
}

/// The operator on lanes over this register, into which the values are put, and a lent term of their type: their type.
pub(crate) fn apply_lent(op: Op, left: Lanes, right: LentTerm<'_>, out: &mut [u32]) -> Option<Ty>
    requires { right.operand.before + length (lent right.operand.numbers) ≤ length out.old }
    ensures { IfSome result (λ t. (k : ℕ) → k < length out.new → typed t (word_at t out.new k) ≡ applied op (lane left out.old k) (typed (type_of left) (lent_number (type_of left) right.entry k))) }
{
    apply_lent_op(op, left, right, out)?;
    Some(type_of(left))
}
