//! What was answered in a scope, kept for the lines that ask the same again.

ghost use Rattle.std.specs.Prelude.{◌≡◌, List, [], IfOk, IfSome, OnOk};
ghost use Rattle.lin.specs.Regions.{span_inside};
ghost use Rattle.lin.specs.declared.scope.Binding.{Binding};
ghost use Rattle.rules.specs.Bounding.Kept.{AreRight};

use crate::bounding::inside::is_inside;
use crate::bounding::same::{are_same_bindings, is_same_span};
use lin::{Scope, Span1};
use std::alloc::{AllocError, Global};
use std::marker::Model;

/// The most answers that are kept.
const MOST_ANSWERS: usize = 64;

/// Whether each number of a span is shown to be one of another.
#[derive(Drop)]
struct Answer {
    inner: Span1,
    outer: Span1,
    yes: bool,
}

/// A scope, and what was answered there.
#[derive(Drop)]
pub struct Kept {
    scope: Scope,
    answers: Vec<Answer>,
}

impl Model for Kept {
    ghost use Rattle.std.specs.Prelude.{List};
    ghost use Rattle.lin.specs.declared.scope.Binding.{Binding};
    ghost use Rattle.rules.specs.Bounding.Kept.{AreRight};

    ghost Value = { List Binding };

    ghost view = { λ k. k.scope };

    ghost invariant = { λ k. AreRight k.scope k.answers.items };
}

/// What was answered to a question, if it is one of these.
fn answer_of(answers: &[Answer], inner: &Span1, outer: &Span1) -> Option<bool>
    ensures { (scope : List Binding) → AreRight scope answers.now → IfSome result (λ yes. yes ≡ span_inside scope inner.now outer.now) }
{
    match answers {
        [] => None,
        [answer, rest @ ..] => {
            if is_same_span(&answer.inner, inner) && is_same_span(&answer.outer, outer) {
                Some(answer.yes)
            } else {
                answer_of(rest, inner, outer)
            }
        }
    }
}

impl Kept {
    /// No symbol, and no answer.
    pub fn new(alloc: Global) -> Self
        ensures { result ≡ [] }
    {
        Kept::of(alloc, Scope::new(alloc))
    }

    /// A scope in which nothing was asked yet.
    pub(crate) fn of(alloc: Global, scope: Scope) -> Self
        ensures { result ≡ scope }
    {
        Kept {
            scope,
            answers: Vec::new(alloc),
        }
    }

    /// The scope.
    pub(crate) fn scope(&self) -> &Scope
        ensures { result.now ≡ self.now }
    {
        &self.scope
    }

    /// Goes on to a scope: if it is another one, what was answered is forgotten.
    pub(crate) fn turn_to(&mut self, alloc: Global, scope: Scope)
        ensures { self.new ≡ scope }
    {
        if !are_same_bindings(self.scope.as_slice(), scope.as_slice()) {
            *self = Kept::of(alloc, scope);
        }
    }

    /// Keeps an answer; where there is no room left, the others are forgotten.
    fn keep(&mut self, answer: Answer) -> Result<(), AllocError>
        requires { answer.yes ≡ span_inside self.old answer.inner answer.outer }
        ensures { OnOk result (self.new ≡ self.old) }
    {
        if self.answers.len() >= MOST_ANSWERS {
            self.answers.clear();
        }
        self.answers.push(answer)?;
        Ok(())
    }

    /// Whether each number of a span is shown to be one of another.
    pub(crate) fn is_inside(
        &mut self,
        alloc: Global,
        inner: &Span1,
        outer: &Span1,
    ) -> Result<bool, AllocError>
        ensures same { OnOk result (self.new ≡ self.old) }
        ensures shown { IfOk result (λ yes. yes ≡ span_inside self.old inner.now outer.now) }
    {
        if let Some(yes) = answer_of(&self.answers, inner, outer) {
            return Ok(yes);
        }
        let yes = is_inside(alloc, &self.scope, inner, outer)?;
        self.keep(Answer {
            inner: inner.copy(alloc)?,
            outer: outer.copy(alloc)?,
            yes,
        })?;
        Ok(yes)
    }
}
