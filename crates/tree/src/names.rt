//! What an expression's names stand for.

ghost use Rattle.std.specs.Prelude.{◌≡◌, ℕ, List, ℤ, Bool, Option, IsTrue, length, All};
ghost use Rattle.numeric.specs.declared.ty.Ty.{Ty};
ghost use Rattle.numeric.specs.Wrap.{IsOf};
ghost use Rattle.tree.specs.Names.{IsIndex, TakesCall, AnswersWithin};

use numeric::Ty;

/// Which names are variables, and which can be called.
pub trait Names {
    /// Whether a name is a variable.
    ghost variables: { Self → List ℕ → Bool };

    /// The type and the number of indices of what can be called by a name.
    ghost functions: { Self → List ℕ → Option (Ty × ℕ) };

    /// Whether the name is a variable, which is an i32.
    fn var(&self, name: &str) -> bool
        ensures { result ≡ variables self.now name.now };

    /// The type and the number of indices of what can be called by the name.
    fn func(&self, name: &str) -> Option<(Ty, usize)>
        ensures { result ≡ functions self.now name.now };
}

/// The values of variables, and the answers of calls.
pub trait Env: Names {
    /// The number of a variable.
    ghost numbers: { Self → List ℕ → ℤ };

    /// What a call answers at its indices.
    ghost answers: { Self → List ℕ → List ℤ → ℤ };

    /// The number of a variable.
    fn value(&self, name: &str) -> i64
        requires { IsTrue (Self.variables self.now name.now) }
        ensures is { result ≡ numbers self.now name.now }
        ensures within { IsIndex result };

    /// What a call answers at its indices.
    fn call(&self, name: &str, at: &[i64]) -> i64
        requires known { TakesCall (Self.functions self.now name.now) (length at.now) }
        requires indices { All IsIndex at.now }
        ensures is { result ≡ answers self.now name.now at.now }
        ensures within { AnswersWithin (Self.functions self.now name.now) result };
}
