//! Steps from the innermost on, with each guard and the name behind it taken together.

ghost use Rattle.std.specs.Prelude.{◌≡◌, ◌∷◌, length, map, IfOk, MatchOption, None, Some};
ghost use Rattle.soundness.specs.Obligations.{Picked, Ranged};
ghost use Rattle.tails.specs.Steps.{along, binder};
ghost use Rattle.tails.specs.Moves.{is_fixed, paired, settled, unguarded};
ghost use Rattle.tails.specs.View.{step_of};
ghost use Rattle.tails.specs.Held.{is_guard, paired_step, pending_of, pendings_of, span_of};

use crate::descent::Step;
use crate::moves::copied;
use crate::pending::{Pending, pending_of};
use lin::{Lin, Sym};
use plan::Pick;
use std::alloc::{AllocError, Global};

/// The steps with one before them.
fn behind<'a>(first: Pending<'a>, steps: Vec<Pending<'a>>) -> Result<Vec<Pending<'a>>, AllocError>
    ensures { IfOk result (λ all. all.items ≡ first.entry ∷ steps.entry.items) }
{
    let mut all = steps;
    all.insert(0, first)?;
    Ok(all)
}

/// The steps as they are taken, in their order.
pub(crate) fn in_order<'a>(
    alloc: Global,
    steps: &[Step<'a>],
) -> Result<Vec<Pending<'a>>, AllocError>
    ensures { IfOk result (λ all. pendings_of all.items ≡ map binder (map step_of steps.now)) }
{
    match steps {
        [] => Ok(Vec::new(alloc)),
        [first, rest @ ..] => behind(pending_of(first), in_order(alloc, rest)?),
    }
}

/// The steps as they are taken, the innermost first.
#[tactic(auto, using(crate::proofs::Pairing::along_more))]
pub(crate) fn along<'a>(alloc: Global, steps: &[Step<'a>]) -> Result<Vec<Pending<'a>>, AllocError>
    ensures { IfOk result (λ all. pendings_of all.items ≡ along (map step_of steps.now)) }
{
    let mut all = Vec::new(alloc);
    for step in steps {
        all.insert(0, pending_of(step))?;
    }
    Ok(all)
}

/// Whether the step is the guard that the one form is at most the other.
fn is_guard(low: &Lin, high: &Lin, step: &Pending<'_>) -> bool
    ensures { result ≡ is_guard low.now high.now (pending_of step.now) }
{
    match step {
        Pending::Passed {
            low: least,
            high: most,
        } => least.is_same(low) && most.is_same(high),
        Pending::Ranged { .. } | Pending::Picked { .. } => false,
    }
}

/// The steps without the guard that the one form is at most the other, if they have it.
#[tactic(auto, using(crate::proofs::Pairing::guard_here, crate::proofs::Pairing::guard_later))]
fn unguarded<'a>(
    alloc: Global,
    low: &Lin,
    high: &Lin,
    steps: &[Pending<'a>],
) -> Result<Option<Vec<Pending<'a>>>, AllocError>
    ensures { IfOk result (λ found. MatchOption found (unguarded low.now high.now (pendings_of steps.now) ≡ None) (λ rest. unguarded low.now high.now (pendings_of steps.now) ≡ Some (pendings_of rest.items))) }
{
    match steps {
        [] => Ok(None),
        [first, rest @ ..] => {
            if is_guard(low, high, first) {
                return Ok(Some(copied(alloc, rest)?));
            }
            match unguarded(alloc, low, high, rest)? {
                Some(more) => Ok(Some(behind(*first, more)?)),
                None => Ok(None),
            }
        }
    }
}

/// The name for the smaller of two forms before the steps, or where these have the guard that the one is at most the other, a loop of
/// one turn or none in place of both.
fn turned<'a>(
    alloc: Global,
    symbol: Sym,
    forms: &'a [Lin],
    steps: Vec<Pending<'a>>,
) -> Result<Vec<Pending<'a>>, AllocError>
    requires { length forms.now ≡ 2 }
    ensures { IfOk result (λ all. pendings_of all.items ≡ paired_step (Picked symbol Pick.Min forms.now) (pendings_of steps.entry.items)) }
{
    match unguarded(alloc, &forms[0], &forms[1], &steps)? {
        Some(others) => behind(
            Pending::Ranged {
                symbol,
                lower: &forms[..1],
                upper: forms,
            },
            others,
        ),
        None => behind(
            Pending::Picked {
                symbol,
                pick: Pick::Min,
                forms,
            },
            steps,
        ),
    }
}

/// Whether there is one form below, and the same one above.
fn is_fixed(lower: &[Lin], upper: &[Lin]) -> bool
    ensures { result ≡ is_fixed lower.now upper.now }
{
    match lower {
        [first] => match upper {
            [last] => first.is_same(last),
            _ => false,
        },
        _ => false,
    }
}

/// The loop; if it has just one turn, the name that its symbol is for a form.
fn settled<'a>(symbol: Sym, lower: &'a [Lin], upper: &'a [Lin]) -> Pending<'a>
    ensures { pending_of result ≡ settled (Ranged symbol (span_of lower.now upper.now)) }
{
    if is_fixed(lower, upper) {
        Pending::Picked {
            symbol,
            pick: Pick::Min,
            forms: lower,
        }
    } else {
        Pending::Ranged {
            symbol,
            lower,
            upper,
        }
    }
}

/// The step before others with which it is taken together, if it is a name for the smaller of two forms; a loop of one turn as a name.
#[tactic(auto, using(crate::proofs::Pairing::alone_many))]
fn with_guard<'a>(
    alloc: Global,
    step: Pending<'a>,
    steps: Vec<Pending<'a>>,
) -> Result<Vec<Pending<'a>>, AllocError>
    ensures { IfOk result (λ all. pendings_of all.items ≡ paired_step (pending_of step.entry) (pendings_of steps.entry.items)) }
{
    match step {
        Pending::Picked {
            symbol,
            pick: Pick::Min,
            forms,
        } => {
            if forms.len() == 2 {
                turned(alloc, symbol, forms, steps)
            } else {
                behind(step, steps)
            }
        }
        Pending::Ranged {
            symbol,
            lower,
            upper,
        } => behind(settled(symbol, lower, upper), steps),
        Pending::Picked {
            pick: Pick::Max,
            ..
        }
        | Pending::Passed { .. } => behind(step, steps),
    }
}

/// The steps with each guard and the name behind it taken together.
#[tactic(auto, using(crate::proofs::Pairing::paired_next))]
pub(crate) fn paired<'a>(
    alloc: Global,
    steps: &[Pending<'a>],
) -> Result<Vec<Pending<'a>>, AllocError>
    ensures { IfOk result (λ all. pendings_of all.items ≡ paired (pendings_of steps.now)) }
{
    match steps {
        [] => Ok(Vec::new(alloc)),
        [first, rest @ ..] => with_guard(alloc, *first, paired(alloc, rest)?),
    }
}
