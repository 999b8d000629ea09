//! Where a symbol stands: in forms, spans, binders and places.

ghost use Rattle.std.specs.Prelude.{◌≡◌};
ghost use Rattle.std.specs.List.{list_any};
ghost use Rattle.soundness.specs.Binders.View.{binder_of};
ghost use Rattle.soundness.specs.Obligations.{binder_has, form_has, places_have, span_has};

use crate::binders::binder::Binder;
use lin::{Lin, Span1, Sym};
use plan::Places;

/// Whether a symbol stands in a form.
pub fn form_has(symbol: Sym, form: &Lin) -> bool
    ensures { result ≡ form_has symbol form.now }
{
    form.terms().iter().any(|term| term.symbol == symbol)
}

/// Whether a symbol stands in one of the forms.
pub fn forms_have(symbol: Sym, forms: &[Lin]) -> bool
    ensures { result ≡ list_any (form_has symbol) forms.now }
{
    forms.iter().any(|form| form_has(symbol, form))
}

/// Whether a symbol stands in a span.
pub fn span_has(symbol: Sym, span: &Span1) -> bool
    ensures { result ≡ span_has symbol span.now }
{
    forms_have(symbol, span.lower.as_slice()) || forms_have(symbol, span.upper.as_slice())
}

/// Whether a symbol stands in one of the spans.
pub fn spans_have(symbol: Sym, spans: &[Span1]) -> bool
    ensures { result ≡ list_any (span_has symbol) spans.now }
{
    spans.iter().any(|span| span_has(symbol, span))
}

/// Whether a symbol is bound by a binder or stands in it.
pub fn binder_has(symbol: Sym, binder: &Binder<'_>) -> bool
    ensures { result ≡ binder_has symbol (binder_of binder.now) }
{
    match binder {
        Binder::Grid { symbol: bound, .. } => *bound == symbol,
        Binder::Ranged {
            symbol: bound,
            span,
        } => *bound == symbol || span_has(symbol, span),
        Binder::Picked {
            symbol: bound,
            forms,
            ..
        } => *bound == symbol || forms_have(symbol, forms.as_slice()),
        Binder::Passed { low, high } => form_has(symbol, low) || form_has(symbol, high),
    }
}

/// Whether a symbol stands in the places of one coordinate.
pub fn places_have(symbol: Sym, places: &Places) -> bool
    ensures { result ≡ places_have symbol places.now }
{
    match places {
        Places::From { origin, .. } => form_has(symbol, origin),
        Places::Folded { .. } => false,
    }
}
