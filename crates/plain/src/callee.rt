//! The functions of an algorithm, by number and by name.

ghost use Rattle.std.specs.Prelude.{◌≡◌, ◌<◌, ◌≤◌, length, MatchOption};
ghost use Rattle.algo.specs.Parts.{function_of, change_of};
ghost use Rattle.algo.specs.View.{algorithm_of};
ghost use Rattle.plain.specs.Scopes.{function_at, change_at, NoneBefore, IsFirstNamed};

use algo::scoping::same_name;
use algo::{Algo, Function, Update};

/// A function and its name, by its number in the order of declaration.
pub(crate) fn function_at(algo: &Algo, number: usize) -> (&String, &Function)
    requires { number < length (algorithm_of algo.now).functions }
    ensures { function_of (result.0.now, result.1.now) ≡ function_at (algorithm_of algo.now) number }
{
    match algo.funcs().get_index(number) {
        Some((name, function)) => (name, function),
        None => unreachable!(),
    }
}

/// An update of a function, both by number.
pub(crate) fn update_at(algo: &Algo, function: usize, update: usize) -> &Update
    requires function { function < length (algorithm_of algo.now).functions }
    requires update { update < length (function_at (algorithm_of algo.now) function).changes }
    ensures { change_of result.now ≡ change_at (function_at (algorithm_of algo.now) function) update }
{
    let (_, defined) = function_at(algo, function);
    &defined.updates[update]
}

/// The number of the first function of this name, if it is one of the first `callees` functions.
pub(crate) fn number_of(algo: &Algo, callees: usize, name: &str) -> Option<usize>
    requires { callees ≤ length (algorithm_of algo.now).functions }
    ensures { MatchOption result (NoneBefore (algorithm_of algo.now) callees name.now) (IsFirstNamed (algorithm_of algo.now) callees name.now) }
{
    for number in 0..callees {
        let (known, _) = function_at(algo, number);
        if same_name(known.as_str(), name) {
            return Some(number);
        }
    }
    None
}
