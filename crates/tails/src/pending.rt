//! Steps that are still to be taken, and where symbols stand in them.

ghost use Rattle.std.specs.Prelude.{◌≡◌, ◌<◌, length};
ghost use Rattle.std.specs.List.{list_all, list_any};
ghost use Rattle.soundness.specs.Obligations.{binder_has};
ghost use Rattle.tails.specs.Steps.{binder, binds};
ghost use Rattle.tails.specs.Moves.{is_loose, is_outer};
ghost use Rattle.tails.specs.Maps.{is_beyond, is_new, is_scoped};
ghost use Rattle.tails.specs.View.{step_of};
ghost use Rattle.tails.specs.Held.{others_at, others_of, pending_of, pendings_of};

use crate::descent::Step;
use lin::{Lin, Sym};
use plan::Pick;
use soundness::binders::symbols::{form_has, forms_have};

/// A step that is still to be taken.
#[derive(Clone, Copy, Drop)]
pub(crate) enum Pending<'a> {
    /// The turns of a loop, from the largest of the lower forms to the smallest of the upper ones.
    Ranged {
        symbol: Sym,
        lower: &'a [Lin],
        upper: &'a [Lin],
    },
    /// A symbol for the smallest or largest of some forms.
    Picked {
        symbol: Sym,
        pick: Pick,
        forms: &'a [Lin],
    },
    /// A guard: the one form is at most the other.
    Passed {
        low: &'a Lin,
        high: &'a Lin,
    },
}

/// The steps but one: those before it and those after it.
#[derive(Clone, Copy, Drop)]
pub(crate) struct Others<'b, 'a> {
    pub before: &'b [Pending<'a>],
    pub after: &'b [Pending<'a>],
}

/// The steps but the one of this number.
#[tactic(auto, using(crate::proofs::Joined::slice_rest))]
pub(crate) fn others_of<'b, 'a>(steps: &'b [Pending<'a>], place: usize) -> Others<'b, 'a>
    requires { place < length steps.now }
    ensures { others_of result ≡ others_at steps.now place }
{
    Others {
        before: &steps[..place],
        after: &steps[place + 1..],
    }
}

/// Whether the step binds the symbol.
pub(crate) fn binds(symbol: Sym, step: &Pending<'_>) -> bool
    ensures { result ≡ binds symbol (pending_of step.now) }
{
    match step {
        Pending::Ranged { symbol: bound, .. } | Pending::Picked { symbol: bound, .. } => {
            symbol == *bound
        }
        Pending::Passed { .. } => false,
    }
}

/// Whether one of the steps binds the symbol.
pub(crate) fn is_bound(symbol: Sym, steps: &[Pending<'_>]) -> bool
    ensures { result ≡ list_any (binds symbol) (pendings_of steps.now) }
{
    match steps {
        [] => false,
        [first, rest @ ..] => binds(symbol, first) || is_bound(symbol, rest),
    }
}

/// Whether the step binds the symbol, or the symbol stands in it.
fn step_has(symbol: Sym, step: &Pending<'_>) -> bool
    ensures { result ≡ binder_has symbol (pending_of step.now) }
{
    match step {
        Pending::Ranged {
            symbol: bound,
            lower,
            upper,
        } => *bound == symbol || (forms_have(symbol, lower) || forms_have(symbol, upper)),
        Pending::Picked {
            symbol: bound,
            forms,
            ..
        } => *bound == symbol || forms_have(symbol, forms),
        Pending::Passed { low, high } => form_has(symbol, low) || form_has(symbol, high),
    }
}

/// Whether one of the steps binds the symbol, or the symbol stands in one.
fn steps_have(symbol: Sym, steps: &[Pending<'_>]) -> bool
    ensures { result ≡ list_any (binder_has symbol) (pendings_of steps.now) }
{
    match steps {
        [] => false,
        [first, rest @ ..] => step_has(symbol, first) || steps_have(symbol, rest),
    }
}

/// Whether no symbol of the form is bound by the steps.
pub(crate) fn is_outer(steps: &[Pending<'_>], form: &Lin) -> bool
    ensures { result ≡ is_outer (pendings_of steps.now) form.now }
{
    form.terms()
        .iter()
        .all(|term| !is_bound(term.symbol, steps))
}

/// Whether no symbol of the forms is bound by the steps.
pub(crate) fn are_outer(steps: &[Pending<'_>], forms: &[Lin]) -> bool
    ensures { result ≡ list_all (is_outer (pendings_of steps.now)) forms.now }
{
    forms.iter().all(|form| is_outer(steps, form))
}

impl Others<'_, '_> {
    /// Whether one of the steps binds the symbol.
    #[tactic(auto, using(crate::proofs::Lists::any_append))]
    fn bind(&self, symbol: Sym) -> bool
        ensures { result ≡ list_any (binds symbol) (others_of self.now) }
    {
        is_bound(symbol, self.before) || is_bound(symbol, self.after)
    }

    /// Whether the steps have nothing to do with the symbol.
    #[tactic(auto, using(crate::proofs::Lists::any_append))]
    pub fn are_without(&self, symbol: Sym) -> bool
        ensures { result ≡ is_loose symbol (others_of self.now) }
    {
        !(steps_have(symbol, self.before) || steps_have(symbol, self.after))
    }

    /// Whether the steps bind no symbol of the form.
    pub fn are_within(&self, form: &Lin) -> bool
        ensures { result ≡ is_outer (others_of self.now) form.now }
    {
        form.terms().iter().all(|term| !self.bind(term.symbol))
    }
}

/// Whether the forms of the step have no symbol that the steps bind, and a loop has both ends.
fn is_beyond(steps: &[Pending<'_>], step: &Pending<'_>) -> bool
    ensures { result ≡ is_beyond (pendings_of steps.now) (pending_of step.now) }
{
    match step {
        Pending::Ranged { lower, upper, .. } => {
            (!lower.is_empty() && !upper.is_empty())
                && (are_outer(steps, lower) && are_outer(steps, upper))
        }
        Pending::Picked { forms, .. } => are_outer(steps, forms),
        Pending::Passed { low, high } => is_outer(steps, low) && is_outer(steps, high),
    }
}

/// Whether the forms of these steps have no symbol that the steps bind, and loops have both ends.
pub(crate) fn are_beyond(steps: &[Pending<'_>], inner: &[Pending<'_>]) -> bool
    ensures { result ≡ list_all (is_beyond (pendings_of steps.now)) (pendings_of inner.now) }
{
    match inner {
        [] => true,
        [first, rest @ ..] => is_beyond(steps, first) && are_beyond(steps, rest),
    }
}

/// Whether the step binds no symbol that the steps bind.
fn is_new(steps: &[Pending<'_>], step: &Pending<'_>) -> bool
    ensures { result ≡ is_new (pendings_of steps.now) (pending_of step.now) }
{
    match step {
        Pending::Ranged { symbol, .. } | Pending::Picked { symbol, .. } => {
            !is_bound(*symbol, steps)
        }
        Pending::Passed { .. } => true,
    }
}

/// Whether each step, the outermost first, has symbols of earlier ones and of what is around them alone, and binds a new one.
pub(crate) fn is_scoped(steps: &[Pending<'_>]) -> bool
    ensures { result ≡ is_scoped (pendings_of steps.now) }
{
    match steps {
        [] => true,
        [first, rest @ ..] => is_beyond(steps, first) && (is_new(rest, first) && is_scoped(rest)),
    }
}

/// The step as it is taken.
pub(crate) fn pending_of<'a>(step: &Step<'a>) -> Pending<'a>
    ensures { pending_of result ≡ binder (step_of step.now) }
{
    match step {
        Step::Turns { symbol, span, .. } => Pending::Ranged {
            symbol: *symbol,
            lower: span.lower.as_slice(),
            upper: span.upper.as_slice(),
        },
        Step::Named {
            symbol,
            pick,
            forms,
        } => Pending::Picked {
            symbol: *symbol,
            pick: *pick,
            forms: forms.as_slice(),
        },
        Step::Tested { low, high } => Pending::Passed { low, high },
    }
}
