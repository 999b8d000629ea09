//! What has nothing to do with steps.

ghost use Rattle.std.specs.Prelude.{◌≡◌};
ghost use Rattle.soundness.specs.Binders.View.{binder_of};
ghost use Rattle.tails.specs.Steps.{binder};
ghost use Rattle.tails.specs.Apart.{is_apart};
ghost use Rattle.tails.specs.View.{step_of};
ghost use Rattle.tails.specs.Held.{pendings_of};

use crate::descent::Step;
use crate::pending::{Pending, are_outer, is_bound, is_outer};
use soundness::binders::Binder;

/// Whether the binder has nothing to do with the steps' symbols.
pub(crate) fn is_apart(steps: &[Pending<'_>], binder: &Binder<'_>) -> bool
    ensures { result ≡ is_apart (pendings_of steps.now) (binder_of binder.now) }
{
    match binder {
        Binder::Grid { symbol, .. } => !is_bound(*symbol, steps),
        Binder::Ranged { symbol, span } => {
            !is_bound(*symbol, steps)
                && (are_outer(steps, span.lower.as_slice())
                    && are_outer(steps, span.upper.as_slice()))
        }
        Binder::Picked { symbol, forms, .. } => {
            !is_bound(*symbol, steps) && are_outer(steps, forms.as_slice())
        }
        Binder::Passed { low, high } => is_outer(steps, low) && is_outer(steps, high),
    }
}

/// The step as it binds what is inside.
pub(crate) fn binder_of<'a>(step: &Step<'a>) -> Binder<'a>
    ensures { binder_of result ≡ binder (step_of step.now) }
{
    match step {
        Step::Turns { symbol, span, .. } => Binder::Ranged {
            symbol: *symbol,
            span,
        },
        Step::Named {
            symbol,
            pick,
            forms,
        } => Binder::Picked {
            symbol: *symbol,
            pick: *pick,
            forms,
        },
        Step::Tested { low, high } => Binder::Passed { low, high },
    }
}
