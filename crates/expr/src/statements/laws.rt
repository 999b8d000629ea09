//! Laws of the definitions that the contracts are written with.

ghost use Rattle.std.specs.Prelude.{◌≡◌, ℕ, List, Ok, Err};
ghost use Rattle.tree.specs.declared.token.token.Token.{Token as AnyToken};
ghost use Rattle.tree.specs.Term.{Term as AnyTerm};
ghost use Rattle.expr.specs.Grammar.{Sums, sums_term};
ghost use Rattle.expr.specs.declared.statements.error.Refusal.TheVariants.{TooLarge};
ghost use Rattle.expr.specs.Statements.Text.{FileText, file_with};
ghost use Rattle.expr.specs.Statements.Reading.{file};
ghost use Rattle.expr.specs.Statements.Grammar.{file_then, IsWhole, StandsFor, IsSmall};

/// What the grammar allows is read as what it stands for, unless an expression of it is too large.
pub fn grammar_is_read()
    ensures small { (rules : FileText Sums) → IsWhole rules → IsSmall (file_with sums_term rules) → file (file_then rules) ≡ Ok (file_with sums_term rules) }
    ensures large { (rules : FileText Sums) → IsWhole rules → (IsSmall (file_with sums_term rules) → ⊥) → (left : ℕ) × (file (file_then rules) ≡ Err (TooLarge left)) }
{}

/// What is read is what the grammar allows, and each of its expressions is within the limits.
pub fn read_is_grammar()
    ensures { (tokens : List AnyToken) (f : FileText AnyTerm) → file tokens ≡ Ok f → StandsFor tokens f × IsSmall f }
{}
