//! Names among others, and expressions that are a variable alone.

ghost use Rattle.std.specs.Prelude.{◌≡◌, ℕ, List, map, not, IsTrue, IsNone, IfSome, ◌↔◌, string_bytes};
ghost use Rattle.tree.specs.Term.{term_of, indices, list_terms};
ghost use Rattle.meaning.specs.Names.{same_name, is_among};
ghost use Rattle.meaning.specs.Conditions.{AreDistinct, is_variable, has_variable};
ghost use Rattle.algo.specs.Scoping.Doubles.{IsFirstDouble};

use crate::scoping::variables::VariableTest;
use tree::Expr;

/// Whether the names are the same.
pub fn same_name(left: &str, right: &str) -> bool
    ensures { result ≡ same_name left.now right.now }
{
    left == right
}

/// Whether the name is one of these.
pub fn is_among(names: &[String], name: &str) -> bool
    ensures { result ≡ is_among (map string_bytes names.now) name.now }
{
    for other in names {
        if other.as_str() == name {
            return true;
        }
    }
    false
}

/// The place in the list of the first name that stands in it before.
pub fn first_double(names: &[String]) -> Option<usize>
    ensures none { IsNone result ↔ AreDistinct (map string_bytes names.now) }
    ensures some { IfSome result (IsFirstDouble (map string_bytes names.now)) }
{
    for i in 0..names.len() {
        if is_among(&names[..i], names[i].as_str()) {
            return Some(i);
        }
    }
    None
}

/// Whether the expression is this variable alone.
pub fn is_variable(name: &str, expr: &Expr) -> bool
    ensures { result ≡ is_variable name.now (term_of expr.now) }
{
    match expr {
        Expr::Variable { name: other, .. } => name == other.as_str(),
        _ => false,
    }
}

/// Whether the k-th of these indices, counted from 0, is this variable alone.
pub fn has_variable(name: &str, k: usize, at: &[Expr]) -> bool
    ensures { result ≡ has_variable name.now k (indices (list_terms at.now)) }
{
    k < at.len() && is_variable(name, &at[k])
}

/// The test that a variable is one of these names.
#[derive(Clone, Copy, Drop)]
pub struct Among<'a> {
    pub names: &'a [String],
}

impl VariableTest for Among<'_> {
    ghost accepted = { λ t name. is_among (map string_bytes t.names.now) name };

    fn accepts(&self, name: &str) -> bool {
        is_among(self.names, name)
    }
}

/// The test that a variable is none of these names.
#[derive(Clone, Copy, Drop)]
pub struct NotAmong<'a> {
    pub names: &'a [String],
}

impl VariableTest for NotAmong<'_> {
    ghost accepted = { λ t name. not (is_among (map string_bytes t.names.now) name) };

    fn accepts(&self, name: &str) -> bool {
        !is_among(self.names, name)
    }
}
