//! The stored functions and their definitions with the calls of other functions put in: what they are, and which loads count.

ghost use Rattle.std.specs.Prelude.{◌≡◌, ◌-◌, map};
ghost use Rattle.std.specs.Option.{option_map};
ghost use Rattle.sched.specs.Stored.{formula_of, are_calls_of};
ghost use Rattle.sched.specs.Calls.{call_of};
ghost use Rattle.sched.specs.Regions as spec;
ghost use Rattle.sched.specs.Slid as slid;

use crate::calls::Call;
use crate::scopes::left_index;
use crate::{Placed, Subject};
use algo::Function;
use algo::scoping::same_name;
use plan::Pick;
use tree::Expr;

/// Whether an index at this place is looked at: of an update's own calls only where its left index is not the variable.
pub fn counts(own: Option<&Formula>, place: usize) -> bool
    ensures { result ≡ spec.counts (option_map (λ f. formula_of f.now) own.entry) place }
{
    match own {
        Some(formula) => match left_index(formula, place) {
            Some(_) => true,
            None => false,
        },
        None => true,
    }
}

/// Whether one of the calls is of the function of this name.
pub fn are_calls_of(callee: &str, calls: &[Call<'_>]) -> bool
    ensures { result ≡ are_calls_of callee.now (map call_of calls.now) }
{
    match calls {
        [] => false,
        [call, rest @ ..] => same_name(call.name, callee) || are_calls_of(callee, rest),
    }
}

/// A definition over stored functions and the input alone.
#[derive(Drop)]
pub struct Formula {
    /// The left index of each variable; none where it is the variable alone.
    pub at: Vec<Option<Expr>>,
    pub value: Expr,
}

/// A stored function.
#[derive(Drop)]
pub struct Stored<'a> {
    pub subject: &'a Subject,
    pub function: &'a Function,
    pub placed: &'a Placed,
    /// The pure definition and the updates; none where one of them is too large with the calls put in.
    pub formulas: Option<Vec<Formula>>,
}

/// Whether the function has no updates.
#[tactic(auto, using(crate::proofs::Along::single_seen))]
pub fn is_single(formulas: &[Formula]) -> bool
    ensures { result ≡ slid.is_single (map formula_of formulas.now) }
{
    formulas.len() == 1
}
