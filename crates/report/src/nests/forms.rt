//! Forms, spans and regions as a reader writes them.

use itoa::Buffer;
use lin::{Forms, Lin, Multiple, Region, Span1};
use plan::Pick;
use spelling::sizes::put_size;
use spelling::words::{put_number, put_separator, put_symbol};
use std::alloc::AllocError;

/// Writes a multiple of a symbol, as `3*s0`, or `s0` for once the symbol. Its sign stands before it, but for a `+` at the
/// front of a form.
fn put_multiple(text: &mut String, front: bool, term: &Multiple) -> Result<(), AllocError> {
    if term.factor < 0 {
        text.push_str("-")?;
    } else if !front {
        text.push_str("+")?;
    }
    let times = term.factor.unsigned_abs();
    if times != 1 {
        text.push_str(Buffer::new().format(times))?;
        text.push_str("*")?;
    }
    put_symbol(text, term.symbol)
}

/// Writes a form, as `2+3*s0-s1`: a constant 0 is left out before terms.
pub(crate) fn put_form(text: &mut String, form: &Lin) -> Result<(), AllocError> {
    let terms = form.terms();
    let begins_with_term = form.constant() == 0 && !terms.is_empty();
    if !begins_with_term {
        put_number(text, form.constant())?;
    }
    for (place, term) in terms.iter().enumerate() {
        put_multiple(text, begins_with_term && place == 0, term)?;
    }
    Ok(())
}

/// Writes forms by commas.
fn put_list(text: &mut String, forms: &[Lin]) -> Result<(), AllocError> {
    for (place, form) in forms.iter().enumerate() {
        put_separator(text, ", ", place)?;
        put_form(text, form)?;
    }
    Ok(())
}

/// Writes the smallest or the largest of some forms, and a single one as it is.
pub(crate) fn put_picked(text: &mut String, pick: Pick, forms: &Forms) -> Result<(), AllocError> {
    if let [form] = forms.as_slice() {
        return put_form(text, form);
    }
    text.push_str(match pick {
        Pick::Min => "min(",
        Pick::Max => "max(",
    })?;
    put_list(text, forms.as_slice())?;
    text.push_str(")")
}

/// Writes a span by its ends, as `[0, 9]`.
pub(crate) fn put_span(text: &mut String, span: &Span1) -> Result<(), AllocError> {
    text.push_str("[")?;
    put_picked(text, Pick::Max, &span.lower)?;
    text.push_str(", ")?;
    put_picked(text, Pick::Min, &span.upper)?;
    text.push_str("]")
}

/// Writes that a symbol goes from 0 to its last value.
pub(crate) fn put_bounds(text: &mut String, last: u64) -> Result<(), AllocError> {
    text.push_str(" in [0, ")?;
    put_size(text, last)?;
    text.push_str("]")
}

/// Writes a region: its spans, with `x` between them.
pub(crate) fn put_region(text: &mut String, region: &Region) -> Result<(), AllocError> {
    for (place, span) in region.as_slice().iter().enumerate() {
        put_separator(text, " x ", place)?;
        put_span(text, span)?;
    }
    Ok(())
}
