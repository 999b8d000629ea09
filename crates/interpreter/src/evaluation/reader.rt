//! What an expression is evaluated over.

ghost use Rattle.std.specs.Prelude.{◌≡◌, ℕ, ℤ, List, Option};
ghost use Rattle.tree.specs.declared.value.Value.{Value as ValueFound};

use tree::Value;

/// The numbers that variables stand for, and what calls find.
pub trait Reader {
    ghost variables: { Self → List ℕ → ℤ };

    ghost look: { Self → List ℕ → List ℤ → Option ValueFound };

    /// The number that a variable stands for.
    fn variable(&self, name: &str) -> i64
        ensures { result ≡ variables self.now name.now };

    /// What a call of a name at these indices finds.
    fn look(&self, name: &str, at: &[i64]) -> Option<Value>
        ensures { result ≡ look self.now name.now at.now };
}
