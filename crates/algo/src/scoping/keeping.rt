//! The left indices of an update, which keep the places of its function's variables.

ghost use Rattle.std.specs.Prelude.{◌≡◌, ◌↔◌, ◌||◌, map, not, IsTrue, IsNone, IfSome, string_bytes};
ghost use Rattle.tree.specs.Term.{term_of, list_terms};
ghost use Rattle.meaning.specs.Names.{same_name};
ghost use Rattle.meaning.specs.Conditions.{has_variable};
ghost use Rattle.algo.specs.Scoping.Keeping.{KeepsPlaceOf, KeepPlaces, MisplacedAt};

use crate::scoping::calls::{CallTest, first_call};
use crate::scoping::names::{NotAmong, has_variable, is_variable, same_name};
use crate::scoping::variables::first_variable;
use tree::Expr;
use tree::token::Span;

/// The test that a call, if it is of this function, has this variable alone as its k-th index,
/// counted from 0.
#[derive(Clone, Copy, Drop)]
pub struct HoldsPlace<'a> {
    pub function: &'a str,
    pub variable: &'a str,
    pub k: usize,
}

impl CallTest for HoldsPlace<'_> {
    ghost accepted = { λ t name at. not (same_name t.function.now name) || has_variable t.variable.now t.k at };

    fn accepts(&self, name: &str, at: &[Expr]) -> bool {
        !same_name(self.function, name) || has_variable(self.variable, self.k, at)
    }
}

/// Whether the k-th left index, counted from 0, keeps the place of this variable in an update of the
/// function, which has these variables: it is the variable alone, which then stands alone at that
/// place in each call of the function in the value that is set; or it uses none of the variables.
pub fn keeps_place(
    function: &str,
    variables: &[String],
    k: usize,
    variable: &str,
    index: &Expr,
    value: &Expr,
) -> bool
    ensures { IsTrue result ↔ KeepsPlaceOf function.now (map string_bytes variables.now) (term_of value.now) k variable.now (term_of index.now) }
{
    if is_variable(variable, index) {
        let test = HoldsPlace {
            function,
            variable,
            k,
        };
        first_call(value, &test).is_none()
    } else {
        first_variable(index, &NotAmong { names: variables }).is_none()
    }
}

/// The place in the text of the first left index that does not keep its variable's place, in an
/// update of the function, which has these variables, that sets this value.
pub fn first_misplaced(
    function: &str,
    variables: &[String],
    at: &[Expr],
    value: &Expr,
) -> Option<Span>
    ensures none { IsNone result ↔ KeepPlaces function.now (map string_bytes variables.now) (term_of value.now) (list_terms at.now) }
    ensures some { IfSome result (MisplacedAt function.now (map string_bytes variables.now) (term_of value.now) at.now) }
{
    for k in 0..at.len().min(variables.len()) {
        let variable = variables[k].as_str();
        if !keeps_place(function, variables, k, variable, &at[k], value) {
            return Some(at[k].span());
        }
    }
    None
}
