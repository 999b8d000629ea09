//! Names that are opened: the smallest or largest of some forms.

ghost use Rattle.std.specs.Prelude.{◌≡◌, false, IfOk};
ghost use Rattle.tails.specs.Moves.{above, below, expanded, is_alone, is_free_let, is_idle, opened, span_from, without_let};
ghost use Rattle.tails.specs.Held.{let_spans, others_of, pending_of};

use crate::forms::expanded;
use crate::pending::{Others, Pending};
use crate::spans::{Spans, copied};
use lin::{Lin, Span1, Sym};
use plan::Pick;
use soundness::binders::symbols::{forms_have, spans_have};
use std::alloc::{AllocError, Global};

/// The first of the forms, if there is one.
#[tactic(auto, using(crate::proofs::Factors::first_taken))]
fn first_of(forms: &[Lin]) -> &[Lin]
    ensures { result.now ≡ below false (λ a b. false) Pick.Min forms.now }
{
    if forms.is_empty() { forms } else { &forms[..1] }
}

/// Forms that are at least what a name stands for, where each of them counts: for the smallest of forms one is enough.
#[tactic(auto, using(crate::proofs::Factors::largest_is_first))]
fn below(pick: Pick, forms: &[Lin]) -> &[Lin]
    ensures { result.now ≡ below false (λ a b. false) pick forms.now }
{
    match pick {
        Pick::Min => first_of(forms),
        Pick::Max => forms,
    }
}

/// Forms that are at most what a name stands for, where each of them counts: for the largest of forms one is enough.
#[tactic(auto, using(crate::proofs::Factors::largest_is_first))]
fn above(pick: Pick, forms: &[Lin]) -> &[Lin]
    ensures { result.now ≡ above false (λ a b. false) pick forms.now }
{
    match pick {
        Pick::Min => forms,
        Pick::Max => first_of(forms),
    }
}

/// The span with forms in the place of the name.
fn opened_span(
    alloc: Global,
    symbol: Sym,
    pick: Pick,
    forms: &[Lin],
    span: &Span1,
) -> Result<Option<Span1>, AllocError>
    ensures { IfOk result (λ made. made ≡ span_from (expanded false (λ a b. false) symbol (below false (λ a b. false) pick forms.now) span.now.lower) (expanded false (λ a b. false) symbol (above false (λ a b. false) pick forms.now) span.now.upper)) }
{
    let Some(lower) = expanded(alloc, symbol, below(pick, forms), span.lower.as_slice())? else {
        return Ok(None);
    };
    match expanded(alloc, symbol, above(pick, forms), span.upper.as_slice())? {
        Some(upper) => Ok(Some(Span1 { lower, upper })),
        None => Ok(None),
    }
}

/// The spans with forms in the place of the name.
fn opened(
    alloc: Global,
    symbol: Sym,
    pick: Pick,
    forms: &[Lin],
    spans: &[Span1],
) -> Result<Option<Spans>, AllocError>
    ensures { IfOk result (λ made. made ≡ opened false (λ a b. false) symbol pick forms.now spans.now) }
{
    match spans {
        [] => Ok(Some(Spans::new(alloc))),
        [first, rest @ ..] => {
            let Some(span) = opened_span(alloc, symbol, pick, forms, first)? else {
                return Ok(None);
            };
            match opened(alloc, symbol, pick, forms, rest)? {
                Some(more) => Ok(Some(more.behind(span)?)),
                None => Ok(None),
            }
        }
    }
}

/// Whether there is one form, and no other.
fn is_alone(forms: &[Lin]) -> bool
    ensures { result ≡ is_alone forms.now }
{
    match forms {
        [_] => true,
        _ => false,
    }
}

/// The spans without the name; where no number may be met twice, only if none of them has it, or it stands for one form.
#[tactic(auto, using(crate::proofs::Alike::opened_plain))]
fn without_let(
    alloc: Global,
    exact: bool,
    symbol: Sym,
    pick: Pick,
    forms: &[Lin],
    spans: &[Span1],
) -> Result<Option<Spans>, AllocError>
    ensures { IfOk result (λ made. made ≡ without_let exact (λ a b. false) symbol pick forms.now spans.now) }
{
    if !spans_have(symbol, spans) {
        return Ok(Some(copied(alloc, spans)?));
    }
    if exact && !is_alone(forms) {
        Ok(None)
    } else {
        opened(alloc, symbol, pick, forms, spans)
    }
}

/// Whether the other steps and the forms do without the name, and there is a form.
fn is_free_let(symbol: Sym, forms: &[Lin], others: &Others<'_, '_>) -> bool
    ensures { result ≡ is_free_let false (λ a b. false) symbol forms.now (others_of others.now) }
{
    others.are_without(symbol) && (!forms_have(symbol, forms) && !forms.is_empty())
}

/// The spans without the name that the step gives, if it gives one and that may be done without.
pub(crate) fn let_spans(
    alloc: Global,
    exact: bool,
    spans: &[Span1],
    step: &Pending<'_>,
    others: &Others<'_, '_>,
) -> Result<Option<Spans>, AllocError>
    ensures { IfOk result (λ made. made ≡ let_spans exact (λ a b. false) spans.now (pending_of step.now) (others_of others.now)) }
{
    match step {
        Pending::Picked {
            symbol,
            pick,
            forms,
        } => {
            if is_free_let(*symbol, forms, others) {
                without_let(alloc, exact, *symbol, *pick, forms, spans)
            } else {
                Ok(None)
            }
        }
        Pending::Ranged { .. } | Pending::Passed { .. } => Ok(None),
    }
}

/// Whether the step gives a name that no other step and no span has.
pub(crate) fn is_idle(spans: &[Span1], step: &Pending<'_>, others: &Others<'_, '_>) -> bool
    ensures { result ≡ is_idle spans.now (pending_of step.now) (others_of others.now) }
{
    match step {
        Pending::Picked { symbol, forms, .. } => {
            is_free_let(*symbol, forms, others) && !spans_have(*symbol, spans)
        }
        Pending::Ranged { .. } | Pending::Passed { .. } => false,
    }
}
