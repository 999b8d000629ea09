//! Sums, differences and products of which both operands are lent: neither is copied into a register first.

ghost use Rattle.std.specs.Prelude.{◌≡◌, ◌<◌, ◌≤◌, ◌+◌, ◌^◌, ℕ, IfSome, length, pos};
ghost use Rattle.plan.specs.Semantics.Found.{found};
ghost use Rattle.plan.specs.Semantics.Memory.{Memory};
ghost use Rattle.numeric.specs.declared.op.Op.TheVariants.{Mul};
ghost use Rattle.numeric.specs.declared.ty.Ty.{Ty as TyFound};
ghost use Rattle.numeric.specs.Apply.{apply};
ghost use Rattle.numeric.specs.Wrap.{wrap};
ghost use Rattle.tree.specs.Meaning.{applied, typed};
ghost use Rattle.tree.specs.Term.{term_of, Binary};
ghost use Rattle.tree.specs.declared.value.Value.{Value as ValueFound};
ghost use Rattle.interpreter.specs.Evaluation.Lanes.{FindsRun};
ghost use Rattle.interpreter.specs.Evaluation.Lending.{lent, lent_bits, lent_number, times_factor};
ghost use Rattle.interpreter.specs.Evaluation.Words.{word_at};
ghost use Rattle.interpreter.specs.declared.evaluation.lanes.Lanes.TheVariants.{Vector};

use crate::evaluation::byte_kernels::{apply_byte_rows, apply_scaled_byte_rows};
use crate::evaluation::lanes::Number;
use crate::evaluation::lent_calls::{is_product, lend_term, lend_value, may_be_lent};
use crate::evaluation::lent_row::{LentNumbers, LentOperand, LentTerm, part_of, word_by_factor};
use crate::evaluation::operations::{Difference, Product, Sum};
use crate::evaluation::residue_kernels::{ResidueOperator, apply_scaled_rows, apply_word_rows};
use crate::evaluation::run_reader::RunReader;
use numeric::{Op, Ty};
use tree::Expr;

/// Of so many turns, one at most may be taken by itself.
const TURNS_FOR_ONE_APART: usize = 4;

/// The operator on each lent number of one row and the one of another, put into a register, where both are kept alike.
fn apply_rows<O: ResidueOperator>(
    left: LentNumbers<'_>,
    right: LentNumbers<'_>,
    out: &mut [u32],
) -> Option<()>
    requires left { length (lent left) ≡ length out.old }
    requires right { length (lent right) ≡ length out.old }
    ensures { IfSome result (λ _. (t : TyFound) (k : ℕ) → k < length out.new → word_at t out.new k ≡ apply O.op t (word_at t (lent left.entry) k) (word_at t (lent right.entry) k)) }
{
    match left {
        LentNumbers::Words(left) => match right {
            LentNumbers::Words(right) => {
                apply_word_rows::<O>(left, right, out);
                Some(())
            }
            LentNumbers::Bytes(_) => None,
        },
        LentNumbers::Bytes(left) => match right {
            LentNumbers::Words(_) => None,
            LentNumbers::Bytes(right) => {
                apply_byte_rows::<O>(left, right, out);
                Some(())
            }
        },
    }
}

/// The operator on each lent number of one row and the one of another, as many times as the factor says, put into a register, where both
/// are kept alike.
fn apply_rows_scaled<O: ResidueOperator>(
    left: LentNumbers<'_>,
    factor: Number,
    right: LentNumbers<'_>,
    out: &mut [u32],
) -> Option<()>
    requires left { length (lent left) ≡ length out.old }
    requires right { length (lent right) ≡ length out.old }
    ensures { IfSome result (λ _. (t : TyFound) (k : ℕ) → k < length out.new → word_at t out.new k ≡ apply O.op t (word_at t (lent left.entry) k) (apply Mul t factor.value (word_at t (lent right.entry) k))) }
{
    match left {
        LentNumbers::Words(left) => match right {
            LentNumbers::Words(right) => {
                apply_scaled_rows::<O>(left, factor, right, out);
                Some(())
            }
            LentNumbers::Bytes(_) => None,
        },
        LentNumbers::Bytes(left) => match right {
            LentNumbers::Words(_) => None,
            LentNumbers::Bytes(right) => {
                apply_scaled_byte_rows::<O>(left, factor, right, out);
                Some(())
            }
        },
    }
}

/// The same where there may be a factor.
fn apply_rows_by_factor<O: ResidueOperator>(
    left: LentNumbers<'_>,
    factor: Option<Number>,
    right: LentNumbers<'_>,
    out: &mut [u32],
) -> Option<()>
    requires left { length (lent left) ≡ length out.old }
    requires right { length (lent right) ≡ length out.old }
    ensures { IfSome result (λ _. (t : TyFound) (k : ℕ) → k < length out.new → word_at t out.new k ≡ apply O.op t (word_at t (lent left.entry) k) (times_factor t factor (word_at t (lent right.entry) k))) }
{
    match factor {
        Some(factor) => apply_rows_scaled::<O>(left, factor, right, out),
        None => apply_rows::<O>(left, right, out),
    }
}

/// The operator on the numbers of a lent operand and of a lent term at the turns from this one on, put into a register, at one after another.
fn apply_turns<O: ResidueOperator>(
    left: LentOperand<'_>,
    right: LentTerm<'_>,
    start: usize,
    out: &mut [u32],
)
    requires { start + length out.old < 2 ^ 64 }
    ensures { (t : TyFound) (k : ℕ) → k < length out.new → word_at t out.new k ≡ apply O.op t (wrap t (pos (lent_bits left.entry (start + k)))) (lent_number t right.entry (start + k)) }
{
    for turn in 0..out.len() {
        let first = left.bits(start + turn);
        let second = word_by_factor(right.factor, right.operand.bits(start + turn));
        out[turn] = O::residue(i64::from(first), i64::from(second));
    }
}

/// Turns at which the numbers of two operands are lent.
#[derive(Clone, Copy, Drop)]
pub(crate) struct Common {
    pub start: usize,
    pub end: usize,
}

/// The turns of so many at which the numbers of both operands are lent, if these are nearly all.
pub(crate) fn common_turns(
    left: LentOperand<'_>,
    right: LentOperand<'_>,
    count: usize,
) -> Option<Common>
    requires left { left.before + length (lent left.numbers) ≤ count }
    requires right { right.before + length (lent right.numbers) ≤ count }
    ensures order { IfSome result (λ c. (c.start ≤ c.end) × (c.end ≤ count)) }
    ensures left { IfSome result (λ c. left.entry.before ≤ c.start) }
    ensures right { IfSome result (λ c. right.entry.before ≤ c.start) }
{
    let start = if left.before < right.before {
        right.before
    } else {
        left.before
    };
    let left_end = left.before + left.numbers.count();
    let right_end = right.before + right.numbers.count();
    let end = if left_end < right_end {
        left_end
    } else {
        right_end
    };
    if end < start || (count - (end - start)) > count / TURNS_FOR_ONE_APART {
        return None;
    }
    Some(Common { start, end })
}

/// Those of turns at which the numbers of an operand are lent too, if these are nearly all of so many.
pub(crate) fn narrowed_turns(
    common: Common,
    operand: LentOperand<'_>,
    count: usize,
) -> Option<Common>
    requires common { common.end ≤ count }
    requires operand { operand.before + length (lent operand.numbers) ≤ count }
    ensures order { IfSome result (λ c. (c.start ≤ c.end) × (c.end ≤ count)) }
    ensures within { IfSome result (λ c. common.start ≤ c.start) }
    ensures operand { IfSome result (λ c. operand.entry.before ≤ c.start) }
{
    let start = if common.start < operand.before {
        operand.before
    } else {
        common.start
    };
    let behind = operand.before + operand.numbers.count();
    let end = if behind < common.end {
        behind
    } else {
        common.end
    };
    if end < start || (count - (end - start)) > count / TURNS_FOR_ONE_APART {
        return None;
    }
    Some(Common { start, end })
}

/// The operator on the numbers of a lent operand and of a lent term at each turn, put into a register, where both are kept alike.
fn apply_pair_by<O: ResidueOperator>(
    left: LentOperand<'_>,
    right: LentTerm<'_>,
    out: &mut [u32],
) -> Option<()>
    requires left { left.before + length (lent left.numbers) ≤ length out.old }
    requires right { right.operand.before + length (lent right.operand.numbers) ≤ length out.old }
    ensures { IfSome result (λ _. (t : TyFound) (k : ℕ) → k < length out.new → word_at t out.new k ≡ apply O.op t (wrap t (pos (lent_bits left.entry k))) (lent_number t right.entry k)) }
{
    let common = common_turns(left, right.operand, out.len())?;
    let long = common.end - common.start;
    let first = part_of(left.numbers, common.start - left.before, long)?;
    let second = part_of(
        right.operand.numbers,
        common.start - right.operand.before,
        long,
    )?;
    let (low, rest) = out.split_at_mut(common.start);
    let (middle, high) = rest.split_at_mut(long);
    apply_rows_by_factor::<O>(first, right.factor, second, middle)?;
    apply_turns::<O>(left, right, 0, low);
    apply_turns::<O>(left, right, common.end, high);
    Some(())
}

/// The same of an operator that is one of these.
fn apply_pair_op(op: Op, left: LentOperand<'_>, right: LentTerm<'_>, out: &mut [u32]) -> Option<()>
    requires left { left.before + length (lent left.numbers) ≤ length out.old }
    requires right { right.operand.before + length (lent right.operand.numbers) ≤ length out.old }
    ensures { IfSome result (λ _. (t : TyFound) (k : ℕ) → k < length out.new → word_at t out.new k ≡ apply op t (wrap t (pos (lent_bits left.entry k))) (lent_number t right.entry k)) }
{
    match op {
        Op::Add => apply_pair_by::<Sum>(left, right, out),
        Op::Sub => apply_pair_by::<Difference>(left, right, out),
        Op::Mul => apply_pair_by::<Product>(left, right, out),
        _ => None,
    }
}

/// The operator on a lent operand and a lent term of one type, put into a register.
fn apply_pair(op: Op, left: LentOperand<'_>, right: LentTerm<'_>, out: &mut [u32]) -> Option<Ty>
    requires left { left.before + length (lent left.numbers) ≤ length out.old }
    requires right { right.operand.before + length (lent right.operand.numbers) ≤ length out.old }
    ensures { IfSome result (λ t. (k : ℕ) → k < length out.new → typed t (word_at t out.new k) ≡ applied op (typed left.entry.ty (wrap left.entry.ty (pos (lent_bits left.entry k)))) (typed right.entry.operand.ty (lent_number right.entry.operand.ty right.entry k))) }
{
    if left.ty != right.operand.ty {
        return None;
    }
    apply_pair_op(op, left, right, out)?;
    Some(left.ty)
}

/// The values of an operator on two operands, put into the register, where both are lent and the operator needs nothing but the lowest
/// bits of them. Nothing where they are not; then they may still have values.
pub(crate) fn lent_both<R: RunReader>(
    op: Op,
    left: &Expr,
    right: &Expr,
    reader: &R,
    out: &mut [u32],
) -> Option<Ty>
    ensures { IfSome result (λ t. (m : Memory ValueFound) → R.agrees reader.now m → FindsRun (length out.new) (Vector t) out.new (λ k. found (R.variables reader.now k) (R.look reader.now m) (Binary op (term_of left.now) (term_of right.now)))) }
{
    if !may_be_lent(right) && !is_product(right) {
        return None;
    }
    let second = lend_term(right, reader, out)?;
    let first = lend_value(left, reader, out)?;
    let ty = apply_pair(op, first, second, out)?;
    Some(ty)
}
