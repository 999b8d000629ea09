//! What a definition may name: its variables, the functions and the input.

ghost use Rattle.std.specs.Prelude.{◌≡◌, map};
ghost use Rattle.meaning.specs.Names.{is_among};
ghost use Rattle.algo.specs.View.{algorithm_of};
ghost use Rattle.meaning.specs.Conditions.{function_named};
ghost use Rattle.algo.specs.Parts.{functions_of};
ghost use Rattle.sched.specs.Called as spec;

use algo::scoping::same_name;
use algo::{Algo, Function};
use indexmap::IndexMap;
use numeric::Ty;
use tree::Names;

/// The variables of a definition, with its algorithm.
#[derive(Clone, Copy, Drop)]
pub(crate) struct Named<'a> {
    pub algo: &'a Algo,
    pub variables: &'a [&'a str],
}

// Whether the name is one of these.
fn is_among(names: &[&str], name: &str) -> bool
    ensures { result ≡ is_among (map (λ x. x.now) names.now) name.now }
{
    for other in names {
        if same_name(other, name) {
            return true;
        }
    }
    false
}

// The type and the number of indices of the function of this name.
fn function_call(functions: &IndexMap<String, Function>, name: &str) -> Option<(Ty, usize)>
    ensures { result ≡ spec.function_call (function_named (functions_of functions.now.entries) name.now) }
{
    match functions.get(name) {
        Some(function) => Some((function.ty, function.variables.len())),
        None => None,
    }
}

// Those of the input, where it has this name.
fn input_call(algo: &Algo, name: &str) -> Option<(Ty, usize)>
    ensures { result ≡ spec.input_call (algorithm_of algo.now) name.now }
{
    let input = algo.input();
    if same_name(input.name.as_str(), name) {
        Some((input.shape.ty, input.shape.extents.len()))
    } else {
        None
    }
}

// The type and the number of indices of what can be called by the name.
fn called(algo: &Algo, name: &str) -> Option<(Ty, usize)>
    ensures { result ≡ spec.called (algorithm_of algo.now) name.now }
{
    match function_call(algo.funcs(), name) {
        Some(found) => Some(found),
        None => input_call(algo, name),
    }
}

impl Names for Named<'_> {
    ghost variables = { λ n name. is_among (map (λ x. x.now) n.variables.now) name };

    ghost functions = { λ n name. spec.called (algorithm_of n.algo.now) name };

    fn var(&self, name: &str) -> bool {
        is_among(self.variables, name)
    }

    fn func(&self, name: &str) -> Option<(Ty, usize)> {
        called(self.algo, name)
    }
}
