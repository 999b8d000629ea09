//! Which loop is taken next.

ghost use Rattle.std.specs.Prelude.{◌≡◌, ◌<◌, ℕ, List, Some, length, IfSome};
ghost use Rattle.std.specs.List.{list_any};
ghost use Rattle.std.specs.Option.{option_map};
ghost use Rattle.lin.specs.Forms.{factor_of, same_form};
ghost use Rattle.tails.specs.Moves.{best, choices, first_naming, is_before, is_free_loop, is_single, lower_factor, preferred, ready};
ghost use Rattle.tails.specs.Held.{others_of, pending_of, pendings_of, span_of};
ghost use Rattle.tails.specs.Ready.{ready_of, ready_with};
ghost use Rattle.tails.specs.declared.pending.Pending.{Pending};

use crate::pending::{Others, Pending, others_of};
use crate::turns::Ready;
use lin::{Lin, Span1, Sym};
use soundness::binders::symbols::{form_has, forms_have};

/// The factor of a symbol in the first of the forms that has it.
fn factor_in(symbol: Sym, forms: &[Lin]) -> Option<i64>
    ensures { result ≡ option_map (λ f. factor_of f.terms symbol) (first_naming symbol forms.now) }
{
    match forms {
        [] => None,
        [first, rest @ ..] => {
            if form_has(symbol, first) {
                Some(first.factor(symbol))
            } else {
                factor_in(symbol, rest)
            }
        }
    }
}

/// The factor of a symbol in the first lower form that has it.
#[tactic(auto, using(crate::proofs::Factors::factor_here, crate::proofs::Factors::factor_later))]
fn lower_factor(symbol: Sym, spans: &[Span1]) -> Option<i64>
    ensures { result ≡ lower_factor symbol spans.now }
{
    match spans {
        [] => None,
        [first, rest @ ..] => match factor_in(symbol, first.lower.as_slice()) {
            Some(factor) => Some(factor),
            None => lower_factor(symbol, rest),
        },
    }
}

/// Whether the form is one of the forms.
fn is_among(form: &Lin, forms: &[Lin]) -> bool
    ensures { result ≡ list_any (same_form form.now) forms.now }
{
    forms.iter().any(|one| form.is_same(one))
}

/// Whether some upper form is some lower form.
pub(crate) fn is_single(lower: &[Lin], upper: &[Lin]) -> bool
    ensures { result ≡ is_single (span_of lower.now upper.now) }
{
    upper.iter().any(|form| is_among(form, lower))
}

/// Whether the other steps do without the loop's symbol, its span too, and it has both ends.
fn is_free_loop(symbol: Sym, lower: &[Lin], upper: &[Lin], others: &Others<'_, '_>) -> bool
    ensures { result ≡ is_free_loop symbol (span_of lower.now upper.now) (others_of others.now) }
{
    others.are_without(symbol)
        && (!(forms_have(symbol, lower) || forms_have(symbol, upper))
            && (!lower.is_empty() && !upper.is_empty()))
}

/// The step as a loop that may be taken next.
fn ready<'a>(
    spans: &[Span1],
    place: usize,
    step: &Pending<'a>,
    others: &Others<'_, '_>,
) -> Option<Ready<'a>>
    ensures value { option_map (ready_with (others_of others.now)) result ≡ ready spans.now (pending_of step.now) (others_of others.now) }
    ensures place { IfSome result (λ r. r.place ≡ place) }
{
    match step {
        Pending::Ranged {
            symbol,
            lower,
            upper,
        } => {
            if !is_free_loop(*symbol, lower, upper, others) {
                return None;
            }
            match lower_factor(*symbol, spans) {
                Some(factor) => Some(Ready {
                    place,
                    symbol: *symbol,
                    lower,
                    upper,
                    factor,
                    is_single: is_single(lower, upper),
                }),
                None => None,
            }
        }
        Pending::Picked { .. } | Pending::Passed { .. } => None,
    }
}

/// Whether a later loop is taken before an earlier one: of smaller factor, or of one factor and of one turn.
fn is_before(later: &Ready<'_>, earlier: &Ready<'_>) -> bool
    ensures { (steps : List Pending) → result ≡ is_before (ready_of steps later.now) (ready_of steps earlier.now) }
{
    i128::from(later.factor) + 1 <= i128::from(earlier.factor)
        || (later.factor == earlier.factor && (later.is_single && !earlier.is_single))
}

/// Which of two loops is taken, the first or one behind it.
fn preferred<'a>(first: Ready<'a>, later: Option<Ready<'a>>) -> Ready<'a>
    ensures value { (steps : List Pending) → Some (ready_of steps result) ≡ preferred (Some (ready_of steps first.entry)) (option_map (ready_of steps) later.entry) }
    ensures known { (n : ℕ) → first.entry.place < n → IfSome later.entry (λ r. r.place < n) → result.place < n }
{
    match later {
        Some(one) => { if is_before(&one, &first) { one } else { first } }
        None => first,
    }
}

/// The loop that is taken next, if one may be.
#[tactic(auto, using(crate::proofs::Picking::best_end, crate::proofs::Picking::best_all))]
pub(crate) fn best<'a>(spans: &[Span1], steps: &[Pending<'a>]) -> Option<Ready<'a>>
    ensures value { option_map (ready_of steps.now) result ≡ best spans.now (choices (pendings_of steps.now)) }
    ensures known { IfSome result (λ r. r.place < length steps.now) }
{
    let mut found = None;
    for k in 0..steps.len() {
        let place = steps.len() - 1 - k;
        if let Some(one) = ready(spans, place, &steps[place], &others_of(steps, place)) {
            found = Some(preferred(one, found));
        }
    }
    found
}
