//! Laws of the definitions that the contracts are written with.

ghost use Rattle.std.specs.Prelude.{◌≡◌, List, Ok};
ghost use Rattle.tree.specs.declared.token.token.Token.{Token as AnyToken};
ghost use Rattle.tree.specs.Term.{Term as AnyTerm};
ghost use Rattle.expr.specs.Parsing.{expression, made};
ghost use Rattle.expr.specs.Grammar.{Sums, sums_then, sums_term, Ends, Fits, StandsFor};

/// What the grammar allows is read as what it stands for, unless that is too large, before any tokens that do not
/// go on with it.
pub fn grammar_is_read()
    ensures { (rules : Sums) (rest : List AnyToken) → Ends rest → expression (sums_then rules rest) ≡ made 512 63 (sums_term rules) rest }
{}

/// What is read is what the grammar allows, within the limits.
pub fn read_is_grammar()
    ensures { (tokens rest : List AnyToken) (term : AnyTerm) → expression tokens ≡ Ok (term, rest) → StandsFor tokens rest term × Fits 512 64 term }
{}
