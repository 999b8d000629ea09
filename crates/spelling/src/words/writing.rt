//! Writing numbers, forms, spans, regions, names and types at the end of a text.

ghost use Rattle.std.specs.Prelude.{◌≡◌, ◌++◌, ◌∷◌, [], OnOk, string_bytes};
ghost use Rattle.tree.specs.Token.Spelling.{type_text};
ghost use Rattle.spelling.specs.Words.Spelling as spec;

use itoa::Buffer;
use lin::{Forms, Lin, Multiple, Region, Span1, Sym};
use numeric::Ty;
use std::alloc::AllocError;
use tree::token::type_text;

/// Writes a count.
pub fn put_count(text: &mut String, count: u32) -> Result<(), AllocError>
    ensures { OnOk result (string_bytes text.new ≡ string_bytes text.old ++ spec.count_text count) }
{
    text.push_str(Buffer::new().format(count))
}

/// Writes a number, with a `-` where it is below 0.
pub fn put_number(text: &mut String, number: i64) -> Result<(), AllocError>
    ensures { OnOk result (string_bytes text.new ≡ string_bytes text.old ++ spec.number_text number) }
{
    text.push_str(Buffer::new().format(number))
}

/// Writes a symbol: `s` and its number.
pub fn put_symbol(text: &mut String, symbol: Sym) -> Result<(), AllocError>
    ensures { OnOk result (string_bytes text.new ≡ string_bytes text.old ++ spec.symbol_text symbol) }
{
    text.push_str("s")?;
    text.push_str(Buffer::new().format(symbol))
}

fn put_signed(text: &mut String, number: i64) -> Result<(), AllocError>
    ensures { OnOk result (string_bytes text.new ≡ string_bytes text.old ++ spec.signed_text number) }
{
    if number >= 0 {
        text.push_str("+")?;
    }
    put_number(text, number)
}

#[tactic(auto, unfolding(crate::specs::Words::Spelling::term_text))]
fn put_term(text: &mut String, term: &Multiple) -> Result<(), AllocError>
    ensures { OnOk result (string_bytes text.new ≡ string_bytes text.old ++ spec.term_text term.now) }
{
    put_signed(text, term.factor)?;
    text.push_str("*")?;
    put_symbol(text, term.symbol)
}

/// Writes a form: its constant, and its terms with their signs.
#[tactic(auto, unfolding(crate::specs::Words::Spelling::form_text))]
pub fn put_form(text: &mut String, form: &Lin) -> Result<(), AllocError>
    ensures { OnOk result (string_bytes text.new ≡ string_bytes text.old ++ spec.form_text form.now) }
{
    put_number(text, form.constant())?;
    for term in form.terms() {
        put_term(text, term)?;
    }
    Ok(())
}

/// Writes what stands before the part of that number in a list: the separator, and nothing before the first part.
pub fn put_separator(text: &mut String, separator: &str, part: usize) -> Result<(), AllocError>
    ensures { OnOk result (string_bytes text.new ≡ string_bytes text.old ++ spec.separator_before separator.now part) }
{
    if part == 0 {
        Ok(())
    } else {
        text.push_str(separator)
    }
}

fn put_by_commas(text: &mut String, forms: &[Lin]) -> Result<(), AllocError>
    ensures { OnOk result (string_bytes text.new ≡ string_bytes text.old ++ spec.forms_text forms.now) }
{
    for (i, form) in forms.iter().enumerate() {
        put_separator(text, ",", i)?;
        put_form(text, form)?;
    }
    Ok(())
}

/// Writes forms by commas.
pub fn put_forms(text: &mut String, forms: &Forms) -> Result<(), AllocError>
    ensures { OnOk result (string_bytes text.new ≡ string_bytes text.old ++ spec.forms_text forms.now) }
{
    put_by_commas(text, forms.as_slice())
}

/// Writes a span: its lower forms, `:` and its upper forms.
#[tactic(auto, unfolding(crate::specs::Words::Spelling::span_text))]
pub fn put_span(text: &mut String, span: &Span1) -> Result<(), AllocError>
    ensures { OnOk result (string_bytes text.new ≡ string_bytes text.old ++ spec.span_text span.now) }
{
    put_forms(text, &span.lower)?;
    text.push_str(":")?;
    put_forms(text, &span.upper)
}

fn put_spans(text: &mut String, spans: &[Span1]) -> Result<(), AllocError>
    ensures { OnOk result (string_bytes text.new ≡ string_bytes text.old ++ spec.separated_text 59 spec.span_text spans.now) }
{
    for (i, span) in spans.iter().enumerate() {
        put_separator(text, ";", i)?;
        put_span(text, span)?;
    }
    Ok(())
}

/// Writes a region: its spans by semicolons, in brackets.
#[tactic(auto, unfolding(crate::specs::Words::Spelling::region_text))]
pub fn put_region(text: &mut String, region: &Region) -> Result<(), AllocError>
    ensures { OnOk result (string_bytes text.new ≡ string_bytes text.old ++ spec.region_text region.now) }
{
    text.push_str("[")?;
    put_spans(text, region.as_slice())?;
    text.push_str("]")
}

/// Writes a name.
pub fn put_name(text: &mut String, name: &str) -> Result<(), AllocError>
    ensures { OnOk result (string_bytes text.new ≡ string_bytes text.old ++ name.now) }
{
    text.push_str(name)
}

/// Writes a type.
pub fn put_type(text: &mut String, ty: Ty) -> Result<(), AllocError>
    ensures { OnOk result (string_bytes text.new ≡ string_bytes text.old ++ type_text ty) }
{
    text.push_str(type_text(ty))
}
