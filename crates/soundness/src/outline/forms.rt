//! Tests of the forms of a line: their symbols, their limits, and how many there are.

ghost use Rattle.std.specs.Prelude.{◌≡◌, ◌==◌, IfOk};
ghost use Rattle.std.specs.List.{list_any};
ghost use Rattle.soundness.specs.Outline.Forms.{is_over, are_over, spans_are_over, are_within_limits, spans_are_within_limits, is_listed, have_ends, grid_symbols};

use lin::{Forms, Lin, Span1, Sym};
use std::alloc::{AllocError, Global};

/// Whether a symbol is among these.
fn is_among(symbols: &[Sym], symbol: Sym) -> bool
    ensures { result ≡ list_any (λ s. s == symbol) symbols.now }
{
    symbols.iter().any(|one| *one == symbol)
}

/// Whether all symbols of a form are among these.
pub fn is_over(symbols: &[Sym], form: &Lin) -> bool
    ensures { result ≡ is_over symbols.now form.now }
{
    form.terms()
        .iter()
        .all(|term| is_among(symbols, term.symbol))
}

/// Whether all symbols of the forms are among these.
pub fn are_over(symbols: &[Sym], forms: &[Lin]) -> bool
    ensures { result ≡ are_over symbols.now forms.now }
{
    forms.iter().all(|form| is_over(symbols, form))
}

/// Whether all symbols of the spans' forms are among these.
pub fn spans_are_over(symbols: &[Sym], spans: &[Span1]) -> bool
    ensures { result ≡ spans_are_over symbols.now spans.now }
{
    spans.iter().all(|span| {
        are_over(symbols, span.lower.as_slice()) && are_over(symbols, span.upper.as_slice())
    })
}

/// Whether the forms are within the limits of linear forms.
pub fn are_within_limits(forms: &[Lin]) -> bool
    ensures { result ≡ are_within_limits forms.now }
{
    forms.iter().all(|form| form.is_within_limits())
}

/// Whether the spans' forms are within the limits of linear forms.
pub fn spans_are_within_limits(spans: &[Span1]) -> bool
    ensures { result ≡ spans_are_within_limits spans.now }
{
    spans.iter().all(|span| {
        are_within_limits(span.lower.as_slice()) && are_within_limits(span.upper.as_slice())
    })
}

/// Whether there are one to four forms.
pub fn is_listed(forms: &Forms) -> bool
    ensures { result ≡ is_listed forms.now }
{
    let count = forms.as_slice().len();
    1 <= count && count <= 4
}

/// Whether each span has one to four forms at each end.
pub fn have_ends(spans: &[Span1]) -> bool
    ensures { result ≡ have_ends spans.now }
{
    spans
        .iter()
        .all(|span| is_listed(&span.lower) && is_listed(&span.upper))
}

/// The symbols of a grid of so many numbers.
#[tactic(auto, using(crate::proofs::OfOutline::Ranges::range_more))]
pub fn grid_symbols(alloc: Global, count: usize) -> Result<Vec<Sym>, AllocError>
    ensures { IfOk result (λ symbols. symbols.items ≡ grid_symbols count) }
{
    let mut symbols = Vec::new(alloc);
    for symbol in 0..count {
        symbols.push(symbol)?;
    }
    Ok(symbols)
}
