//! Registers side by side, which hold the numbers of a point at the turns of a run.

ghost use Rattle.std.specs.Prelude.{◌≡◌, ◌<◌, ℕ, IfSome, Some, length};
ghost use Rattle.plan.specs.Semantics.Found.{all_found, found};
ghost use Rattle.plan.specs.Semantics.Memory.{Memory};
ghost use Rattle.tree.specs.Meaning.{typed};
ghost use Rattle.tree.specs.Term.{indices, list_terms, term_of};
ghost use Rattle.tree.specs.declared.value.Value.{Value as ValueFound};
ghost use Rattle.interpreter.specs.Evaluation.Lanes.{number_at};
ghost use Rattle.interpreter.specs.Updates.{columns_at};

use crate::evaluation::{Number, RunReader, evaluate_numbers};
use numeric::Ty;
use tree::Expr;

/// What a register holds for a turn, 0 behind its last number.
#[inline(always)]
pub(crate) fn number_of(register: &[Number], turn: usize) -> i64
    ensures { result ≡ number_at register.now turn }
{
    match register.get(turn) {
        Some(number) => number.value,
        None => 0,
    }
}

/// The numbers of an expression at so many turns of a run, put into the first register: their type. Its parts lie in words.
pub(crate) fn column_run<R: RunReader>(
    expr: &Expr,
    reader: &R,
    count: usize,
    registers: &mut [Number],
    words: &mut [u32],
) -> Option<Ty>
    ensures { IfSome result (λ t. (m : Memory ValueFound) → R.agrees reader.now m → (k : ℕ) → k < count → found (R.variables reader.now k) (R.look reader.now m) (term_of expr.now) ≡ Some (typed t (number_at registers.new k))) }
{
    if registers.len() < count {
        return None;
    }
    let (out, _) = registers.split_at_mut(count);
    let ty = evaluate_numbers(expr, reader, words, out)?;
    Some(ty)
}

/// The numbers of a call's indices at so many turns of a run, put into a register each, one behind the other.
pub(crate) fn columns_run<R: RunReader>(
    at: &[Expr],
    reader: &R,
    count: usize,
    registers: &mut [Number],
    words: &mut [u32],
) -> Option<()>
    ensures { IfSome result (λ _. (m : Memory ValueFound) → R.agrees reader.now m → (k : ℕ) → k < count → all_found (R.variables reader.now k) (R.look reader.now m) (indices (list_terms at.now)) ≡ Some (columns_at count (length at.now) registers.new k)) }
{
    let [index, later @ ..] = at else {
        return Some(());
    };
    column_run(index, reader, count, registers, words)?;
    if registers.len() < count {
        return None;
    }
    let (_, rest) = registers.split_at_mut(count);
    columns_run(later, reader, count, rest, words)
}
