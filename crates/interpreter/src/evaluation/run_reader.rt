//! What an expression is evaluated over at the turns of a run.

ghost use Rattle.std.specs.Prelude.{◌≡◌, ◌∷◌, ◌<◌, ◌+ℤ◌, ℕ, ℤ, pos, List, Option, Some, IfSome, length};
ghost use Rattle.numeric.specs.declared.ty.Ty.TheVariants.{I32};
ghost use Rattle.tree.specs.declared.value.Value.{Value as ValueFound};
ghost use Rattle.tree.specs.Meaning.{typed};
ghost use Rattle.plan.specs.Semantics.Memory.{Memory};
ghost use Rattle.interpreter.specs.Evaluation.Lanes.{found_as, lane, lanes_at, number_at, IsNarrowFor};
ghost use Rattle.interpreter.specs.Evaluation.Lending.{lent};
ghost use Rattle.interpreter.specs.Evaluation.Words.{word_at};

use crate::evaluation::lanes::{Lanes, Number};
use crate::evaluation::lent_row::LentRow;
use numeric::Ty;
use tree::Value;

/// The numbers that variables stand for at each turn of a run, and what calls find in every memory that agrees with the
/// reader's. Nothing is found where that is not known.
pub trait RunReader {
    ghost variables: { Self → ℕ → List ℕ → ℤ };

    ghost look: { Self → Memory ValueFound → List ℕ → List ℤ → Option ValueFound };

    ghost agrees: { Self → Memory ValueFound → Type 0 };

    /// The numbers that a variable stands for at as many turns as the register has words. They are put into the register
    /// where they neither stay nor rise by one.
    fn variable(&self, name: &str, out: &mut [u32]) -> Option<Lanes>
        ensures narrow { IfSome result (IsNarrowFor (length out.new)) }
        ensures lanes { IfSome result (λ x. (k : ℕ) → k < length out.new → typed I32 (variables self.now k name.now) ≡ lane x out.new k) };

    /// The number that a variable stands for at all of so many turns, where it is seen to stay.
    fn standing(&self, name: &str, count: usize) -> Option<i64>
        ensures { IfSome result (λ z. (k : ℕ) → k < count → variables self.now k name.now ≡ z) };

    /// The number that a variable stands for at the first of so many turns, where it is seen to rise by one from turn to turn.
    fn rising(&self, name: &str, count: usize) -> Option<i64>
        ensures { IfSome result (λ z. (k : ℕ) → k < count → variables self.now k name.now ≡ z +ℤ pos k) };

    /// What a call of a name finds where the first index is each of the numbers in the list, and these are the others.
    fn look_each(&self, name: &str, others: &[i64], out: &mut [Number]) -> Option<Ty>
        ensures { IfSome result (λ t. (m : Memory ValueFound) → agrees self.now m → (k : ℕ) → k < length out.new → look self.now m name.now (number_at out.old k ∷ others.now) ≡ Some (typed t (number_at out.new k))) };

    /// What a call of a name finds where the first index is this number at the first turn and one more at each turn after it,
    /// and these are the others; cast to the type, if there is one.
    fn look_row(
        &self,
        name: &str,
        first: i64,
        others: &[i64],
        cast: Option<Ty>,
        out: &mut [u32],
    ) -> Option<Ty>
        ensures { IfSome result (λ t. (m : Memory ValueFound) → agrees self.now m → (k : ℕ) → k < length out.new → found_as cast (look self.now m name.now ((first +ℤ pos k) ∷ others.now)) ≡ Some (typed t (word_at t out.new k))) };

    /// The numbers at so many turns, lent, where what a call of a name finds lies side by side: its first index is this number at
    /// the first turn and one more at each turn after it, and these are the others; cast to the type, if there is one.
    fn lend_row(
        &self,
        name: &str,
        first: i64,
        others: &[i64],
        cast: Option<Ty>,
        count: usize,
    ) -> Option<LentRow<'_>>
        ensures count { IfSome result (λ row. length (lent row.numbers) ≡ count) }
        ensures value { IfSome result (λ row. (m : Memory ValueFound) → agrees self.now m → (k : ℕ) → k < count → found_as cast (look self.now m name.now ((first +ℤ pos k) ∷ others.now)) ≡ Some (typed row.ty (word_at row.ty (lent row.numbers) k))) };

    /// What a call of a name finds where each index may change from turn to turn: the registers have so many words as the
    /// list has numbers, one behind the other, for each index the next one.
    fn look_points(
        &self,
        name: &str,
        indices: &[Lanes],
        registers: &[u32],
        out: &mut [Number],
    ) -> Option<Ty>
        ensures { IfSome result (λ t. (m : Memory ValueFound) → agrees self.now m → (k : ℕ) → k < length out.new → look self.now m name.now (lanes_at (length out.new) indices.now registers.now k) ≡ Some (typed t (number_at out.new k))) };
}
