//! What the names of an expression stand for while calls are answered one by one.

ghost use Rattle.std.specs.Prelude.{◌≡◌, ◌≤◌, map, length, take};
ghost use Rattle.meaning.specs.Names.{is_among, bound};
ghost use Rattle.meaning.specs.Conditions.{callable};
ghost use Rattle.algo.specs.View.{algorithm_of, picture_of};
ghost use Rattle.plain.specs.Works.{entry_of, bound_name, bound_number, recorded};
ghost use Rattle.plain.specs.Scopes.{answered, AreIndices, AreIndices-prop, AnswerWithin, AnswerWithin-prop};

use crate::callee::{function_at, number_of};
use algo::scoping::same_name;
use algo::{Algo, Inputs};
use numeric::Ty;
use tree::{Env, Names};

/// A name and the number that it stands for.
#[derive(Clone, Copy, Drop)]
pub(crate) struct Binding<'a> {
    pub name: &'a str,
    pub number: i64,
}

/// A call and its answer.
#[derive(Drop)]
pub(crate) struct Answer<'a> {
    pub name: &'a str,
    pub at: Vec<i64>,
    pub number: i64,
}

/// What an expression is evaluated over: its variables, the first functions of an algorithm that it may call, and the answers
/// to its calls so far.
#[derive(Clone, Copy, Drop)]
pub(crate) struct Scope<'a> {
    pub algo: &'a Algo,
    pub inputs: &'a Inputs,
    /// How many functions may be called.
    pub callees: usize,
    pub bindings: &'a [Binding<'a>],
    pub answers: &'a [Answer<'a>],
    pub ghost known: { callees ≤ length (algorithm_of algo.now).functions },
    pub ghost indices: { AreIndices (map bound_number bindings.now) } by { AreIndices-prop (map bound_number bindings.now) },
    pub ghost within: { AnswerWithin (algorithm_of algo.now) callees (answered (algorithm_of algo.now) (picture_of inputs.now) (map entry_of answers.now)) } by { AnswerWithin-prop (algorithm_of algo.now) callees (answered (algorithm_of algo.now) (picture_of inputs.now) (map entry_of answers.now)) },
}

impl Names for Scope<'_> {
    ghost variables = { λ s name. is_among (map bound_name s.bindings.now) name };

    ghost functions = { λ s name. callable (algorithm_of s.algo.now) (take s.callees (algorithm_of s.algo.now).functions) name };

    fn var(&self, name: &str) -> bool {
        is_bound(self.bindings, name)
    }

    fn func(&self, name: &str) -> Option<(Ty, usize)> {
        called(self.algo, self.callees, name)
    }
}

impl Env for Scope<'_> {
    ghost numbers = { λ s name. bound (map bound_name s.bindings.now) (map bound_number s.bindings.now) name };

    ghost answers = { λ s name at. answered (algorithm_of s.algo.now) (picture_of s.inputs.now) (map entry_of s.answers.now) name at };

    fn value(&self, name: &str) -> i64 {
        bound(self.bindings, name)
    }

    fn call(&self, name: &str, at: &[i64]) -> i64 {
        if same_name(self.algo.input().name.as_str(), name) {
            self.inputs.image().sample(at)
        } else {
            recorded(self.answers, name, at)
        }
    }
}

// The type and the number of indices of what can be called by the name.
fn called(algo: &Algo, callees: usize, name: &str) -> Option<(Ty, usize)>
    requires { callees ≤ length (algorithm_of algo.now).functions }
    ensures { result ≡ callable (algorithm_of algo.now) (take callees (algorithm_of algo.now).functions) name.now }
{
    let input = algo.input();
    match number_of(algo, callees, name) {
        Some(number) => {
            let (_, function) = function_at(algo, number);
            Some((function.ty, function.variables.len()))
        }
        None if same_name(input.name.as_str(), name) => {
            Some((input.shape.ty, input.shape.extents.len()))
        }
        None => None,
    }
}

// Whether the name is bound.
fn is_bound(bindings: &[Binding<'_>], name: &str) -> bool
    ensures { result ≡ is_among (map bound_name bindings.now) name.now }
{
    for binding in bindings {
        if same_name(binding.name, name) {
            return true;
        }
    }
    false
}

// The number that is bound to the name first, and 0 where none is.
fn bound(bindings: &[Binding<'_>], name: &str) -> i64
    ensures { result ≡ bound (map bound_name bindings.now) (map bound_number bindings.now) name.now }
{
    for binding in bindings {
        if same_name(binding.name, name) {
            return binding.number;
        }
    }
    0
}

// The answer that is recorded first for a call, and 0 where none is.
fn recorded(answers: &[Answer<'_>], name: &str, at: &[i64]) -> i64
    ensures { result ≡ recorded (map entry_of answers.now) name.now at.now }
{
    for answer in answers {
        if same_name(answer.name, name) && answer.at.as_slice() == at {
            return answer.number;
        }
    }
    0
}
