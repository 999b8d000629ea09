//! Sums and differences of three operands all of which are lent: `A + B + C`, `A + 2u16 * B - C`. One pass over the three rows, and
//! none of them is copied into a register first.

ghost use Rattle.std.specs.Prelude.{◌≡◌, ◌<◌, ◌≤◌, ◌+◌, ◌^◌, ℕ, IfSome, length, pos};
ghost use Rattle.plan.specs.Semantics.Found.{found};
ghost use Rattle.plan.specs.Semantics.Memory.{Memory};
ghost use Rattle.numeric.specs.declared.ty.Ty.{Ty as TyFound};
ghost use Rattle.numeric.specs.Apply.{apply};
ghost use Rattle.numeric.specs.Wrap.{wrap};
ghost use Rattle.tree.specs.Meaning.{applied, typed};
ghost use Rattle.tree.specs.Term.{term_of, Binary};
ghost use Rattle.tree.specs.declared.value.Value.{Value as ValueFound};
ghost use Rattle.interpreter.specs.Evaluation.Lanes.{FindsRun};
ghost use Rattle.interpreter.specs.Evaluation.Lending.{lent, lent_bits, lent_number, times_factor};
ghost use Rattle.interpreter.specs.Evaluation.Words.{word_at};
ghost use Rattle.interpreter.specs.declared.evaluation.lanes.Lanes.TheVariants.{Vector};

use crate::evaluation::lanes::Number;
use crate::evaluation::lent_calls::{is_product, lend_term, lend_value, may_be_lent};
use crate::evaluation::lent_pairs::{Common, common_turns, narrowed_turns};
use crate::evaluation::lent_row::{LentNumbers, LentOperand, LentTerm, part_of, word_by_factor};
use crate::evaluation::operations::{Difference, Sum};
use crate::evaluation::residue_kernels::ResidueOperator;
use crate::evaluation::run_reader::RunReader;
use crate::evaluation::triple_kernels::{
    apply_three_byte_rows, apply_three_rows, apply_three_scaled_byte_rows, apply_three_scaled_rows,
    combined_word,
};
use numeric::{Op, Ty};
use tree::Expr;

/// The words that are lent, where the numbers are kept in words.
pub(crate) fn words_of(numbers: LentNumbers<'_>) -> Option<&[u32]>
    ensures { IfSome result (λ ws. ws.now ≡ lent numbers.entry) }
{
    match numbers {
        LentNumbers::Words(words) => Some(words),
        LentNumbers::Bytes(_) => None,
    }
}

/// The bytes that are lent, where the numbers are kept in bytes.
pub(crate) fn bytes_of(numbers: LentNumbers<'_>) -> Option<&[u8]>
    ensures { IfSome result (λ bs. bs.now ≡ lent numbers.entry) }
{
    match numbers {
        LentNumbers::Words(_) => None,
        LentNumbers::Bytes(bytes) => Some(bytes),
    }
}

/// One operator on the lent numbers of two rows, the second one's as many times as the factor says, if there is one, and another operator
/// on that and those of a third row, put into a register, where all of them are kept in words.
fn apply_words<O: ResidueOperator, P: ResidueOperator>(
    left: LentNumbers<'_>,
    factor: Option<Number>,
    right: LentNumbers<'_>,
    last: LentNumbers<'_>,
    out: &mut [u32],
) -> Option<()>
    requires left { length (lent left) ≡ length out.old }
    requires right { length (lent right) ≡ length out.old }
    requires last { length (lent last) ≡ length out.old }
    ensures { IfSome result (λ _. (t : TyFound) (k : ℕ) → k < length out.new → word_at t out.new k ≡ apply P.op t (apply O.op t (word_at t (lent left.entry) k) (times_factor t factor (word_at t (lent right.entry) k))) (word_at t (lent last.entry) k)) }
{
    let left = words_of(left)?;
    let right = words_of(right)?;
    let last = words_of(last)?;
    match factor {
        Some(factor) => apply_three_scaled_rows::<O, P>(left, factor, right, last, out),
        None => apply_three_rows::<O, P>(left, right, last, out),
    }
    Some(())
}

/// The same where all of them are kept in bytes.
fn apply_bytes<O: ResidueOperator, P: ResidueOperator>(
    left: LentNumbers<'_>,
    factor: Option<Number>,
    right: LentNumbers<'_>,
    last: LentNumbers<'_>,
    out: &mut [u32],
) -> Option<()>
    requires left { length (lent left) ≡ length out.old }
    requires right { length (lent right) ≡ length out.old }
    requires last { length (lent last) ≡ length out.old }
    ensures { IfSome result (λ _. (t : TyFound) (k : ℕ) → k < length out.new → word_at t out.new k ≡ apply P.op t (apply O.op t (word_at t (lent left.entry) k) (times_factor t factor (word_at t (lent right.entry) k))) (word_at t (lent last.entry) k)) }
{
    let left = bytes_of(left)?;
    let right = bytes_of(right)?;
    let last = bytes_of(last)?;
    match factor {
        Some(factor) => apply_three_scaled_byte_rows::<O, P>(left, factor, right, last, out),
        None => apply_three_byte_rows::<O, P>(left, right, last, out),
    }
    Some(())
}

/// The same where all of them are kept alike.
fn apply_alike<O: ResidueOperator, P: ResidueOperator>(
    left: LentNumbers<'_>,
    factor: Option<Number>,
    right: LentNumbers<'_>,
    last: LentNumbers<'_>,
    out: &mut [u32],
) -> Option<()>
    requires left { length (lent left) ≡ length out.old }
    requires right { length (lent right) ≡ length out.old }
    requires last { length (lent last) ≡ length out.old }
    ensures { IfSome result (λ _. (t : TyFound) (k : ℕ) → k < length out.new → word_at t out.new k ≡ apply P.op t (apply O.op t (word_at t (lent left.entry) k) (times_factor t factor (word_at t (lent right.entry) k))) (word_at t (lent last.entry) k)) }
{
    match left {
        LentNumbers::Words(_) => apply_words::<O, P>(left, factor, right, last, out),
        LentNumbers::Bytes(_) => apply_bytes::<O, P>(left, factor, right, last, out),
    }
}

/// One operator on the numbers of a lent operand and of a lent term at the turns from this one on, and another operator on that and the
/// numbers of a third operand, put into a register, at one turn after another.
fn apply_three_turns<O: ResidueOperator, P: ResidueOperator>(
    left: LentOperand<'_>,
    right: LentTerm<'_>,
    last: LentOperand<'_>,
    start: usize,
    out: &mut [u32],
)
    requires { start + length out.old < 2 ^ 64 }
    ensures { (t : TyFound) (k : ℕ) → k < length out.new → word_at t out.new k ≡ apply P.op t (apply O.op t (wrap t (pos (lent_bits left.entry (start + k)))) (lent_number t right.entry (start + k))) (wrap t (pos (lent_bits last.entry (start + k)))) }
{
    for turn in 0..out.len() {
        let first = left.bits(start + turn);
        let second = word_by_factor(right.factor, right.operand.bits(start + turn));
        let third = last.bits(start + turn);
        out[turn] = combined_word::<O, P>(first, second, third);
    }
}

/// The turns of so many at which the numbers of three operands are lent, if these are nearly all.
fn three_common_turns(
    left: LentOperand<'_>,
    right: LentOperand<'_>,
    last: LentOperand<'_>,
    count: usize,
) -> Option<Common>
    requires left { left.before + length (lent left.numbers) ≤ count }
    requires right { right.before + length (lent right.numbers) ≤ count }
    requires last { last.before + length (lent last.numbers) ≤ count }
    ensures order { IfSome result (λ c. (c.start ≤ c.end) × (c.end ≤ count)) }
    ensures left { IfSome result (λ c. left.entry.before ≤ c.start) }
    ensures right { IfSome result (λ c. right.entry.before ≤ c.start) }
    ensures last { IfSome result (λ c. last.entry.before ≤ c.start) }
{
    let common = common_turns(left, right, count)?;
    let common = narrowed_turns(common, last, count)?;
    Some(common)
}

/// One operator on the numbers of a lent operand and of a lent term at each turn, and another operator on that and the number of a third
/// operand, put into a register, where all three are kept alike.
fn apply_three_by<O: ResidueOperator, P: ResidueOperator>(
    left: LentOperand<'_>,
    right: LentTerm<'_>,
    last: LentOperand<'_>,
    out: &mut [u32],
) -> Option<()>
    requires left { left.before + length (lent left.numbers) ≤ length out.old }
    requires right { right.operand.before + length (lent right.operand.numbers) ≤ length out.old }
    requires last { last.before + length (lent last.numbers) ≤ length out.old }
    ensures { IfSome result (λ _. (t : TyFound) (k : ℕ) → k < length out.new → word_at t out.new k ≡ apply P.op t (apply O.op t (wrap t (pos (lent_bits left.entry k))) (lent_number t right.entry k)) (wrap t (pos (lent_bits last.entry k)))) }
{
    let common = three_common_turns(left, right.operand, last, out.len())?;
    let long = common.end - common.start;
    let first = part_of(left.numbers, common.start - left.before, long)?;
    let second = part_of(
        right.operand.numbers,
        common.start - right.operand.before,
        long,
    )?;
    let third = part_of(last.numbers, common.start - last.before, long)?;
    let (low, rest) = out.split_at_mut(common.start);
    let (middle, high) = rest.split_at_mut(long);
    apply_alike::<O, P>(first, right.factor, second, third, middle)?;
    apply_three_turns::<O, P>(left, right, last, 0, low);
    apply_three_turns::<O, P>(left, right, last, common.end, high);
    Some(())
}

/// The same of a second operator that is one of these.
fn apply_three_then<O: ResidueOperator>(
    op: Op,
    left: LentOperand<'_>,
    right: LentTerm<'_>,
    last: LentOperand<'_>,
    out: &mut [u32],
) -> Option<()>
    requires left { left.before + length (lent left.numbers) ≤ length out.old }
    requires right { right.operand.before + length (lent right.operand.numbers) ≤ length out.old }
    requires last { last.before + length (lent last.numbers) ≤ length out.old }
    ensures { IfSome result (λ _. (t : TyFound) (k : ℕ) → k < length out.new → word_at t out.new k ≡ apply op t (apply O.op t (wrap t (pos (lent_bits left.entry k))) (lent_number t right.entry k)) (wrap t (pos (lent_bits last.entry k)))) }
{
    match op {
        Op::Add => apply_three_by::<O, Sum>(left, right, last, out),
        Op::Sub => apply_three_by::<O, Difference>(left, right, last, out),
        _ => None,
    }
}

/// The same where both operators are of these.
fn apply_three_ops(
    first: Op,
    second: Op,
    left: LentOperand<'_>,
    right: LentTerm<'_>,
    last: LentOperand<'_>,
    out: &mut [u32],
) -> Option<()>
    requires left { left.before + length (lent left.numbers) ≤ length out.old }
    requires right { right.operand.before + length (lent right.operand.numbers) ≤ length out.old }
    requires last { last.before + length (lent last.numbers) ≤ length out.old }
    ensures { IfSome result (λ _. (t : TyFound) (k : ℕ) → k < length out.new → word_at t out.new k ≡ apply second t (apply first t (wrap t (pos (lent_bits left.entry k))) (lent_number t right.entry k)) (wrap t (pos (lent_bits last.entry k)))) }
{
    match first {
        Op::Add => apply_three_then::<Sum>(second, left, right, last, out),
        Op::Sub => apply_three_then::<Difference>(second, left, right, last, out),
        _ => None,
    }
}

/// One operator on a lent operand and a lent term of one type, and another on that and a third operand, put into a register: their type.
fn apply_three(
    first: Op,
    second: Op,
    left: LentOperand<'_>,
    right: LentTerm<'_>,
    last: LentOperand<'_>,
    out: &mut [u32],
) -> Option<Ty>
    requires left { left.before + length (lent left.numbers) ≤ length out.old }
    requires right { right.operand.before + length (lent right.operand.numbers) ≤ length out.old }
    requires last { last.before + length (lent last.numbers) ≤ length out.old }
    ensures { IfSome result (λ t. (k : ℕ) → k < length out.new → typed t (word_at t out.new k) ≡ applied second (applied first (typed left.entry.ty (wrap left.entry.ty (pos (lent_bits left.entry k)))) (typed right.entry.operand.ty (lent_number right.entry.operand.ty right.entry k))) (typed last.entry.ty (wrap last.entry.ty (pos (lent_bits last.entry k))))) }
{
    if left.ty != right.operand.ty || left.ty != last.ty {
        return None;
    }
    apply_three_ops(first, second, left, right, last, out)?;
    Some(left.ty)
}

/// Whether an operator is a sum or a difference.
pub(crate) fn is_sum(op: Op) -> bool {
    match op {
        Op::Add | Op::Sub => true,
        _ => false,
    }
}

/// Whether three operands are such that the numbers of all may be lent.
fn may_be_lent_all(left: &Expr, right: &Expr, last: &Expr) -> bool {
    may_be_lent(last) && may_be_lent(left) && (may_be_lent(right) || is_product(right))
}

/// The values of an operator on an operand, that is a sum or a difference, and another one, put into the register, where all three
/// parts are lent and the operator is a sum or a difference too. Nothing where that is not so; then they may still have values.
pub(crate) fn lent_three<R: RunReader>(
    op: Op,
    expr: &Expr,
    last: &Expr,
    reader: &R,
    out: &mut [u32],
) -> Option<Ty>
    ensures { IfSome result (λ t. (m : Memory ValueFound) → R.agrees reader.now m → FindsRun (length out.new) (Vector t) out.new (λ k. found (R.variables reader.now k) (R.look reader.now m) (Binary op (term_of expr.now) (term_of last.now)))) }
{
    let Expr::Binary {
        op: inner,
        left,
        right,
        ..
    } = expr
    else {
        return None;
    };
    if !is_sum(op) || !is_sum(*inner) || !may_be_lent_all(left, right, last) {
        return None;
    }
    let third = lend_value(last, reader, out)?;
    let first = lend_value(left, reader, out)?;
    let second = lend_term(right, reader, out)?;
    let ty = apply_three(*inner, op, first, second, third, out)?;
    Some(ty)
}
