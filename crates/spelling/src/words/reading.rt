//! Reading forms, spans, regions, names and types, without a look at what stands between their parts.

ghost use Rattle.std.specs.Prelude.{◌≡◌, ◌≤◌, IfOk, OnOk, [], length, nat_lt, string_bytes};
ghost use Rattle.std.specs.List.{list_all, prefix_len};
ghost use Rattle.lin.specs.Forms.{Form, IsCanonical};
ghost use Rattle.tree.specs.Token.Spelling.{is_word_byte};
ghost use Rattle.tree.specs.Token.Lexical.{type_named};
ghost use Rattle.spelling.specs.Words.Reading as spec;

use crate::words::bytes::{begins, first, is_word_byte, skip};
use crate::words::fitting::TYPES;
use crate::words::numbers::{number_from, symbol_from};
use lin::{Forms, Lin, Multiple, Region, Span1, Sym};
use numeric::Ty;
use std::alloc::{AllocError, Global};
use tree::token::type_text;

/// The term at the front, with its sign.
#[tactic(auto, unfolding(crate::specs::Words::Reading::term_from))]
fn term_from(text: &[u8]) -> (Multiple, &[u8])
    ensures term { result.0 ≡ (spec.term_from text.now).0 }
    ensures rest { result.1.now ≡ (spec.term_from text.now).1 }
{
    let signed = if begins(b'+', text) {
        skip(1, text)
    } else {
        text
    };
    let (factor, rest) = number_from(signed);
    let (symbol, rest) = symbol_from(skip(1, rest));
    (Multiple { symbol, factor }, rest)
}

fn is_sign(byte: u8) -> bool
    ensures { result ≡ spec.is_sign byte }
{
    byte == b'+' || byte == b'-'
}

/// Whether all symbols of terms by rising symbol are below one.
fn are_below(terms: &[Multiple], symbol: Sym) -> bool
    requires { IsCanonical terms.now }
    ensures { result ≡ list_all (λ u. nat_lt u.symbol symbol) terms.now }
{
    match terms {
        [] => true,
        [.., last] => last.symbol < symbol,
    }
}

/// Adds a term behind the others, if it may stand there.
fn push_if_next(form: &mut Lin, term: Multiple) -> Result<(), AllocError>
    ensures { OnOk result (form.new ≡ record { constant = form.old.constant; terms = spec.with_term form.old.terms term }) }
{
    if term.factor != 0 && are_below(form.terms(), term.symbol) {
        form.push_term(term.symbol, term.factor)?;
    }
    Ok(())
}

/// Adds terms behind those of a form, as long as a sign follows.
fn push_terms<'a>(form: &mut Lin, text: &'a [u8]) -> Result<&'a [u8], AllocError>
    ensures form { OnOk result (form.new ≡ record { constant = form.old.constant; terms = (spec.terms_from (length text.now) form.old.terms text.now).0 }) }
    ensures rest { IfOk result (λ rest. rest.now ≡ (spec.terms_from (length text.now) form.old.terms text.now).1) }
{
    let mut rest = text;
    for _ in 0..text.len() {
        if !is_sign(first(rest)) {
            return Ok(rest);
        }
        let (term, next) = term_from(rest);
        push_if_next(form, term)?;
        rest = next;
    }
    Ok(rest)
}

/// The form at the front: a constant, and terms as long as a sign follows.
#[tactic(auto, unfolding(crate::specs::Words::Reading::form_from))]
pub fn form_from(alloc: Global, text: &[u8]) -> Result<(Lin, &[u8]), AllocError>
    ensures form { IfOk result (λ r. r.0 ≡ (spec.form_from text.now).0) }
    ensures rest { IfOk result (λ r. r.1.now ≡ (spec.form_from text.now).1) }
{
    let (constant, rest) = number_from(text);
    let mut form = Lin::number(alloc, constant);
    let rest = push_terms(&mut form, rest)?;
    Ok((form, rest))
}

/// The forms at the front, by commas.
pub fn forms_from(alloc: Global, text: &[u8]) -> Result<(Forms, &[u8]), AllocError>
    ensures forms { IfOk result (λ r. r.0 ≡ (spec.forms_from text.now).0) }
    ensures rest { IfOk result (λ r. r.1.now ≡ (spec.forms_from text.now).1) }
{
    let mut found = Forms::new(alloc);
    let mut rest = text;
    for _ in 0..text.len() {
        let (form, next) = form_from(alloc, rest)?;
        found.push(form)?;
        if !begins(b',', next) {
            return Ok((found, next));
        }
        rest = skip(1, next);
    }
    Ok((found, rest))
}

/// The span at the front.
#[tactic(auto, unfolding(crate::specs::Words::Reading::span_from))]
pub fn span_from(alloc: Global, text: &[u8]) -> Result<(Span1, &[u8]), AllocError>
    ensures span { IfOk result (λ r. r.0 ≡ (spec.span_from text.now).0) }
    ensures rest { IfOk result (λ r. r.1.now ≡ (spec.span_from text.now).1) }
{
    let (lower, rest) = forms_from(alloc, text)?;
    let (upper, rest) = forms_from(alloc, skip(1, rest))?;
    Ok((Span1 { lower, upper }, rest))
}

/// Spans as long as a semicolon follows, but not more than a number.
fn spans_from(alloc: Global, most: usize, text: &[u8]) -> Result<(Region, &[u8]), AllocError>
    ensures spans { IfOk result (λ r. r.0 ≡ (spec.separated_from 59 spec.span_from most [] text.now).0) }
    ensures rest { IfOk result (λ r. r.1.now ≡ (spec.separated_from 59 spec.span_from most [] text.now).1) }
{
    let mut found = Region::new(alloc);
    let mut rest = text;
    for _ in 0..most {
        let (span, next) = span_from(alloc, rest)?;
        found.push(span)?;
        if !begins(b';', next) {
            return Ok((found, next));
        }
        rest = skip(1, next);
    }
    Ok((found, rest))
}

/// The region at the front, in brackets.
#[tactic(auto, unfolding(crate::specs::Words::Reading::bracketed_from))]
pub fn region_from(alloc: Global, text: &[u8]) -> Result<(Region, &[u8]), AllocError>
    ensures region { IfOk result (λ r. r.0 ≡ (spec.region_from text.now).0) }
    ensures rest { IfOk result (λ r. r.1.now ≡ (spec.region_from text.now).1) }
{
    if begins(b']', skip(1, text)) {
        return Ok((Region::new(alloc), skip(2, text)));
    }
    let (region, rest) = spans_from(alloc, text.len(), skip(1, text))?;
    Ok((region, skip(1, rest)))
}

/// How many letters, digits and `_` stand at the front.
fn word_len(text: &[u8]) -> usize
    ensures len { result ≡ prefix_len is_word_byte text.now }
    ensures within { result ≤ length text.now }
{
    for (i, byte) in text.iter().enumerate() {
        if !is_word_byte(*byte) {
            return i;
        }
    }
    text.len()
}

/// The letters, digits and `_` at the front, and what follows them.
fn word_from(text: &[u8]) -> (&[u8], &[u8])
    ensures word { result.0.now ≡ (spec.name_from text.now).0 }
    ensures rest { result.1.now ≡ (spec.name_from text.now).1 }
{
    text.split_at(word_len(text))
}

/// The name at the front: the longest run of letters, digits and `_`.
pub fn name_from(alloc: Global, text: &[u8]) -> Result<(String, &[u8]), AllocError>
    ensures name { IfOk result (λ r. string_bytes r.0 ≡ (spec.name_from text.now).0) }
    ensures rest { IfOk result (λ r. r.1.now ≡ (spec.name_from text.now).1) }
{
    let (word, rest) = word_from(text);
    Ok((String::from_utf8_lossy(alloc, word)?, rest))
}

/// The type that is spelled so.
#[tactic(auto, unfolding(tree::specs::Token::Lexical::type_named))]
fn type_named(word: &[u8]) -> Option<Ty>
    ensures { result ≡ type_named word.now }
{
    TYPES
        .iter()
        .copied()
        .find(|ty| type_text(*ty).as_bytes() == word)
}

/// The type at the front, u8 where none of the types is spelled so.
#[tactic(auto, unfolding(crate::specs::Words::Reading::type_from))]
pub fn type_from(text: &[u8]) -> (Ty, &[u8])
    ensures ty { result.0 ≡ (spec.type_from text.now).0 }
    ensures rest { result.1.now ≡ (spec.type_from text.now).1 }
{
    let (word, rest) = word_from(text);
    (type_named(word).unwrap_or(Ty::U8), rest)
}
