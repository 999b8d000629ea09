//! Second operands that are lent: a row, perhaps times a literal, or, of a sum or a difference, a sum or a difference of two rows, perhaps
//! times a literal. They go in one pass with the operator, and nothing is copied into a register first.

ghost use Rattle.std.specs.Prelude.{◌≡◌, ◌<◌, ◌≤◌, ◌+◌, ◌^◌, ℕ, ℤ, Some, IfSome, length, pos};
ghost use Rattle.plan.specs.Semantics.Found.{found};
ghost use Rattle.plan.specs.Semantics.Memory.{Memory};
ghost use Rattle.numeric.specs.declared.op.Op.TheVariants.{Mul};
ghost use Rattle.numeric.specs.declared.ty.Ty.{Ty as TyFound};
ghost use Rattle.numeric.specs.Apply.{apply};
ghost use Rattle.numeric.specs.Wrap.{wrap};
ghost use Rattle.tree.specs.Meaning.{applied, typed};
ghost use Rattle.tree.specs.Term.{term_of};
ghost use Rattle.tree.specs.declared.value.Value.{Value as ValueFound};
ghost use Rattle.interpreter.specs.Evaluation.Lanes.{lane, type_of};
ghost use Rattle.interpreter.specs.Evaluation.Lending.{lent, lent_bits};
ghost use Rattle.interpreter.specs.Evaluation.LentPairs.{pair_value, second_value, PairIsWithin, SecondIsWithin};
ghost use Rattle.interpreter.specs.Evaluation.Multiples.{multiplied_value};
ghost use Rattle.interpreter.specs.Evaluation.Words.{word_at};

use crate::evaluation::lanes::{Lanes, Number};
use crate::evaluation::lent_calls::{lend_value, may_be_lent};
use crate::evaluation::lent_operands::{apply_lent, lent_operand};
use crate::evaluation::lent_pairs::common_turns;
use crate::evaluation::lent_row::{LentNumbers, LentOperand, LentTerm, part_of};
use crate::evaluation::lent_triples::{bytes_of, is_sum, words_of};
use crate::evaluation::operations::{Difference, Sum};
use crate::evaluation::pair_kernels::{apply_byte_multiples, apply_multiples, multiple_word};
use crate::evaluation::residue_kernels::ResidueOperator;
use crate::evaluation::run_reader::RunReader;
use crate::evaluation::usual_indices::literal_value;
use crate::evaluation::whole::{number_of, spread, type_of};
use numeric::{Op, Ty};
use tree::{Expr, Value};

/// A sum or a difference of two operands that are lent.
#[derive(Clone, Copy, Drop)]
pub(crate) struct LentPair<'a> {
    pub op: Op,
    pub left: LentOperand<'a>,
    pub right: LentOperand<'a>,
}

/// What a sum or a difference of two operands gives, as many times as a factor says, if there is one.
#[derive(Clone, Copy, Drop)]
pub(crate) struct LentMultiple<'a> {
    pub factor: Option<Value>,
    pub pair: LentPair<'a>,
}

/// What is lent for a second operand.
#[derive(Clone, Copy, Drop)]
pub(crate) enum LentSecond<'a> {
    /// The numbers of an operand, perhaps times a factor.
    Term(LentTerm<'a>),
    /// What a sum or a difference of two operands gives, perhaps times a factor.
    Multiple(LentMultiple<'a>),
}

/// The number by which those of a type are multiplied: the factor's, if there is one, and 1 if not. Nothing where it is of another type.
fn factor_in(factor: Option<Value>, ty: Ty) -> Option<Number>
    ensures { IfSome result (λ w. (z : ℤ) → typed ty (apply Mul ty w.value (wrap ty z)) ≡ multiplied_value factor (typed ty (wrap ty z))) }
{
    match factor {
        Some(value) if value.ty == ty => Some(number_of(value)),
        Some(_) => None,
        None => Some(Number { value: 1 }),
    }
}

/// Whether the numbers of two operands are kept alike.
fn are_alike(left: LentNumbers<'_>, right: LentNumbers<'_>) -> bool {
    match left {
        LentNumbers::Words(_) => words_of(right).is_some(),
        LentNumbers::Bytes(_) => bytes_of(right).is_some(),
    }
}

/// Whether a multiple of two operands goes in one pass with an operator on numbers of the type, in so many turns.
fn is_in_one_pass(multiple: LentMultiple<'_>, ty: Ty, count: usize) -> bool
    requires { PairIsWithin count multiple.pair }
{
    let left = multiple.pair.left;
    let right = multiple.pair.right;
    if left.ty != ty || right.ty != ty || factor_in(multiple.factor, ty).is_none() {
        return false;
    }
    are_alike(left.numbers, right.numbers) && common_turns(left, right, count).is_some()
}

/// The numbers that are lent for an expression that is a sum or a difference of two operands.
fn lent_sum<'a, R: RunReader>(
    expr: &Expr,
    reader: &'a R,
    register: &mut [u32],
) -> Option<LentPair<'a>>
    ensures room { IfSome result (λ p. PairIsWithin (length register.new) p) }
    ensures value { IfSome result (λ p. (m : Memory ValueFound) → R.agrees reader.now m → (k : ℕ) → k < length register.new → found (R.variables reader.now k) (R.look reader.now m) (term_of expr.now) ≡ Some (pair_value p k)) }
{
    let Expr::Binary {
        op,
        left,
        right,
        ..
    } = expr
    else {
        return None;
    };
    if !is_sum(*op) || !may_be_lent(left) || !may_be_lent(right) {
        return None;
    }
    let first = lend_value(left, reader, register)?;
    let second = lend_value(right, reader, register)?;
    Some(LentPair {
        op: *op,
        left: first,
        right: second,
    })
}

/// The numbers that are lent for an expression that is such a sum or difference, or the product of a literal and one.
fn lent_multiple<'a, R: RunReader>(
    expr: &Expr,
    reader: &'a R,
    register: &mut [u32],
) -> Option<LentMultiple<'a>>
    ensures room { IfSome result (λ x. PairIsWithin (length register.new) x.pair) }
    ensures value { IfSome result (λ x. (m : Memory ValueFound) → R.agrees reader.now m → (k : ℕ) → k < length register.new → found (R.variables reader.now k) (R.look reader.now m) (term_of expr.now) ≡ Some (multiplied_value x.factor (pair_value x.pair k))) }
{
    match expr {
        Expr::Binary {
            op: Op::Mul,
            left,
            right,
            ..
        } => {
            let factor = literal_value(left)?;
            let pair = lent_sum(right, reader, register)?;
            Some(LentMultiple {
                factor: Some(factor),
                pair,
            })
        }
        _ => {
            let pair = lent_sum(expr, reader, register)?;
            Some(LentMultiple { factor: None, pair })
        }
    }
}

/// The same where it goes in one pass with an operator on numbers of the type, which is a sum or a difference.
fn lent_in_one_pass<'a, R: RunReader>(
    op: Op,
    expr: &Expr,
    ty: Ty,
    reader: &'a R,
    register: &mut [u32],
) -> Option<LentMultiple<'a>>
    ensures room { IfSome result (λ x. PairIsWithin (length register.new) x.pair) }
    ensures value { IfSome result (λ x. (m : Memory ValueFound) → R.agrees reader.now m → (k : ℕ) → k < length register.new → found (R.variables reader.now k) (R.look reader.now m) (term_of expr.now) ≡ Some (multiplied_value x.factor (pair_value x.pair k))) }
{
    if !is_sum(op) {
        return None;
    }
    let multiple = lent_multiple(expr, reader, register)?;
    if is_in_one_pass(multiple, ty, register.len()) {
        Some(multiple)
    } else {
        None
    }
}

/// What is lent for the second operand of an operator on numbers of the type, if the operator needs nothing but the lowest bits of them:
/// a row, perhaps times a literal; for a sum or a difference also that of two rows. The register is for the indices of calls.
pub(crate) fn lent_second<'a, R: RunReader>(
    op: Op,
    expr: &Expr,
    ty: Ty,
    reader: &'a R,
    register: &mut [u32],
) -> Option<LentSecond<'a>>
    ensures room { IfSome result (λ x. SecondIsWithin (length register.new) x) }
    ensures value { IfSome result (λ x. (m : Memory ValueFound) → R.agrees reader.now m → (k : ℕ) → k < length register.new → found (R.variables reader.now k) (R.look reader.now m) (term_of expr.now) ≡ Some (second_value ty x k)) }
{
    if let Some(term) = lent_operand(op, expr, ty, reader, register) {
        return Some(LentSecond::Term(term));
    }
    let multiple = lent_in_one_pass(op, expr, ty, reader, register)?;
    Some(LentSecond::Multiple(multiple))
}

/// One operator on each word and, as many times as the factor says, what another one gives of the lent numbers of two rows, where both
/// are kept alike.
fn apply_alike<O: ResidueOperator, P: ResidueOperator>(
    out: &mut [u32],
    factor: Number,
    left: LentNumbers<'_>,
    right: LentNumbers<'_>,
) -> Option<()>
    requires left { length (lent left) ≡ length out.old }
    requires right { length (lent right) ≡ length out.old }
    ensures { IfSome result (λ _. (t : TyFound) (k : ℕ) → k < length out.new → word_at t out.new k ≡ apply O.op t (word_at t out.old k) (apply Mul t factor.value (apply P.op t (word_at t (lent left.entry) k) (word_at t (lent right.entry) k)))) }
{
    match left {
        LentNumbers::Words(left) => {
            let right = words_of(right)?;
            apply_multiples::<O, P>(out, factor, left, right);
        }
        LentNumbers::Bytes(left) => {
            let right = bytes_of(right)?;
            apply_byte_multiples::<O, P>(out, factor, left, right);
        }
    }
    Some(())
}

/// The same with the numbers of two lent operands at the turns from this one on, at one turn after another.
fn apply_turns<O: ResidueOperator, P: ResidueOperator>(
    out: &mut [u32],
    factor: Number,
    left: LentOperand<'_>,
    right: LentOperand<'_>,
    start: usize,
)
    requires { start + length out.old < 2 ^ 64 }
    ensures { (t : TyFound) (k : ℕ) → k < length out.new → word_at t out.new k ≡ apply O.op t (word_at t out.old k) (apply Mul t factor.value (apply P.op t (wrap t (pos (lent_bits left.entry (start + k)))) (wrap t (pos (lent_bits right.entry (start + k)))))) }
{
    for turn in 0..out.len() {
        let first = left.bits(start + turn);
        let second = right.bits(start + turn);
        out[turn] = multiple_word::<O, P>(out[turn], factor, first, second);
    }
}

/// The same at all turns, where both operands are kept alike.
fn apply_pair_by<O: ResidueOperator, P: ResidueOperator>(
    out: &mut [u32],
    factor: Number,
    left: LentOperand<'_>,
    right: LentOperand<'_>,
) -> Option<()>
    requires left { left.before + length (lent left.numbers) ≤ length out.old }
    requires right { right.before + length (lent right.numbers) ≤ length out.old }
    ensures { IfSome result (λ _. (t : TyFound) (k : ℕ) → k < length out.new → word_at t out.new k ≡ apply O.op t (word_at t out.old k) (apply Mul t factor.value (apply P.op t (wrap t (pos (lent_bits left.entry k))) (wrap t (pos (lent_bits right.entry k)))))) }
{
    let common = common_turns(left, right, out.len())?;
    let long = common.end - common.start;
    let first = part_of(left.numbers, common.start - left.before, long)?;
    let second = part_of(right.numbers, common.start - right.before, long)?;
    let (low, rest) = out.split_at_mut(common.start);
    let (middle, high) = rest.split_at_mut(long);
    apply_alike::<O, P>(middle, factor, first, second)?;
    apply_turns::<O, P>(low, factor, left, right, 0);
    apply_turns::<O, P>(high, factor, left, right, common.end);
    Some(())
}

/// The same of an inner operator that is one of these.
fn apply_pair_after<O: ResidueOperator>(
    inner: Op,
    out: &mut [u32],
    factor: Number,
    left: LentOperand<'_>,
    right: LentOperand<'_>,
) -> Option<()>
    requires left { left.before + length (lent left.numbers) ≤ length out.old }
    requires right { right.before + length (lent right.numbers) ≤ length out.old }
    ensures { IfSome result (λ _. (t : TyFound) (k : ℕ) → k < length out.new → word_at t out.new k ≡ apply O.op t (word_at t out.old k) (apply Mul t factor.value (apply inner t (wrap t (pos (lent_bits left.entry k))) (wrap t (pos (lent_bits right.entry k)))))) }
{
    match inner {
        Op::Add => apply_pair_by::<O, Sum>(out, factor, left, right),
        Op::Sub => apply_pair_by::<O, Difference>(out, factor, left, right),
        _ => None,
    }
}

/// The same where both operators are of these.
fn apply_pair_ops(
    op: Op,
    inner: Op,
    out: &mut [u32],
    factor: Number,
    left: LentOperand<'_>,
    right: LentOperand<'_>,
) -> Option<()>
    requires left { left.before + length (lent left.numbers) ≤ length out.old }
    requires right { right.before + length (lent right.numbers) ≤ length out.old }
    ensures { IfSome result (λ _. (t : TyFound) (k : ℕ) → k < length out.new → word_at t out.new k ≡ apply op t (word_at t out.old k) (apply Mul t factor.value (apply inner t (wrap t (pos (lent_bits left.entry k))) (wrap t (pos (lent_bits right.entry k)))))) }
{
    match op {
        Op::Add => apply_pair_after::<Sum>(inner, out, factor, left, right),
        Op::Sub => apply_pair_after::<Difference>(inner, out, factor, left, right),
        _ => None,
    }
}

/// The operator on lanes over this register, into which the values are put, and a lent multiple: their type.
fn apply_lent_multiple(op: Op, left: Lanes, right: LentMultiple<'_>, out: &mut [u32]) -> Option<Ty>
    requires { PairIsWithin (length out.old) right.pair }
    ensures { IfSome result (λ t. (k : ℕ) → k < length out.new → typed t (word_at t out.new k) ≡ applied op (lane left out.old k) (multiplied_value right.entry.factor (pair_value right.entry.pair k))) }
{
    let ty = type_of(left);
    let pair = right.pair;
    if pair.left.ty != ty || pair.right.ty != ty {
        return None;
    }
    let factor = factor_in(right.factor, ty)?;
    spread(left, out)?;
    apply_pair_ops(op, pair.op, out, factor, pair.left, pair.right)?;
    Some(ty)
}

/// The operator on lanes over this register, into which the values are put, and what is lent for numbers of their type: their type.
pub(crate) fn apply_second(
    op: Op,
    left: Lanes,
    right: LentSecond<'_>,
    out: &mut [u32],
) -> Option<Ty>
    requires { SecondIsWithin (length out.old) right }
    ensures { IfSome result (λ t. (k : ℕ) → k < length out.new → typed t (word_at t out.new k) ≡ applied op (lane left out.old k) (second_value (type_of left) right.entry k)) }
{
    match right {
        LentSecond::Term(term) => apply_lent(op, left, term, out),
        LentSecond::Multiple(multiple) => apply_lent_multiple(op, left, multiple, out),
    }
}
