//! What a definition may use: its variables, the input and the first functions of an algorithm.

ghost use Rattle.std.specs.Prelude.{◌≡◌, ◌<◌, ◌≤◌, map, length, take, slice_get, Some};
ghost use Rattle.meaning.specs.Names.{is_among};
ghost use Rattle.meaning.specs.Conditions.{callable};
ghost use Rattle.algo.specs.Parts.{function_of};
ghost use Rattle.algo.specs.View.{algorithm_of};

use algo::scoping::same_name;
use algo::{Algo, Function};
use numeric::Ty;
use tree::Names;

/// A function and its name, by its number in the order of declaration.
pub(crate) fn function_at(algo: &Algo, number: usize) -> (&String, &Function)
    requires { number < length (algorithm_of algo.now).functions }
    ensures { slice_get (algorithm_of algo.now).functions number ≡ Some (function_of (result.0.now, result.1.now)) }
{
    match algo.funcs().get_index(number) {
        Some((name, function)) => (name, function),
        None => unreachable!(),
    }
}

/// The variables of a definition, and how many of an algorithm's functions it may call.
#[derive(Clone, Copy, Drop)]
pub(crate) struct Callees<'a> {
    pub algo: &'a Algo,
    pub count: usize,
    pub variables: &'a [&'a str],
    pub ghost known: { count ≤ length (algorithm_of algo.now).functions },
}

impl Names for Callees<'_> {
    ghost variables = { λ s name. is_among (map (λ x. x.now) s.variables.now) name };

    ghost functions = { λ s name. callable (algorithm_of s.algo.now) (take s.count (algorithm_of s.algo.now).functions) name };

    fn var(&self, name: &str) -> bool {
        is_variable(self.variables, name)
    }

    fn func(&self, name: &str) -> Option<(Ty, usize)> {
        callable(self.algo, self.count, name)
    }
}

/// Whether the name is one of the variables.
fn is_variable(variables: &[&str], name: &str) -> bool
    ensures { result ≡ is_among (map (λ x. x.now) variables.now) name.now }
{
    for variable in variables {
        if same_name(variable, name) {
            return true;
        }
    }
    false
}

/// The type and the number of indices of what can be called by the name.
fn callable(algo: &Algo, count: usize, name: &str) -> Option<(Ty, usize)>
    requires { count ≤ length (algorithm_of algo.now).functions }
    ensures { result ≡ callable (algorithm_of algo.now) (take count (algorithm_of algo.now).functions) name.now }
{
    for number in 0..count {
        let (known, function) = function_at(algo, number);
        if same_name(known.as_str(), name) {
            return Some((function.ty, function.variables.len()));
        }
    }
    let input = algo.input();
    if same_name(input.name.as_str(), name) {
        Some((input.shape.ty, input.shape.extents.len()))
    } else {
        None
    }
}
