//! Which values have a text that is read as that value.

ghost use Rattle.std.specs.Prelude.{◌≡◌};
ghost use Rattle.std.specs.List.{list_all, list_any};
ghost use Rattle.std.specs.Str.{bytes_eq};
ghost use Rattle.tree.specs.Token.Spelling.{is_word_byte, type_text, word_text};
ghost use Rattle.tree.specs.Token.Lexical.{types, words};
ghost use Rattle.spelling.specs.Words.Fitting as spec;

use crate::words::bytes::is_word_byte;
use lin::{Forms, Lin, Multiple, Region, Span1, Sym};
use numeric::Ty;
use tree::token::{MAX_NAME, Word, type_text};

/// The most bounds on one side of a span, and in a list of forms.
const MOST_BOUNDS: usize = 4;
/// Symbols are below this.
const SYMBOL_BOUND: usize = 1 << 63;

/// Whether the number of a symbol takes at most 63 bits.
pub fn fits_symbol(symbol: Sym) -> bool
    ensures { result ≡ spec.fits_symbol symbol }
{
    symbol < SYMBOL_BOUND
}

fn fits_term(term: &Multiple) -> bool
    ensures { result ≡ spec.fits_term term.now }
{
    fits_symbol(term.symbol) && term.factor != 0
}

fn all_terms_fit(terms: &[Multiple]) -> bool
    ensures { result ≡ list_all spec.fits_term terms.now }
{
    terms.iter().all(|term| fits_term(term))
}

/// Whether the form's numbers take at most 64 bits with a sign. Its terms rise in any case.
#[tactic(auto, using(crate::proofs::Rising::canonical_rise))]
pub fn fits_form(form: &Lin) -> bool
    ensures { result ≡ spec.fits_form form.now }
{
    let _constant = form.constant();
    all_terms_fit(form.terms())
}

fn all_forms_fit(forms: &[Lin]) -> bool
    ensures { result ≡ list_all spec.fits_form forms.now }
{
    forms.iter().all(|form| fits_form(form))
}

/// Whether there are one to four forms, and each fits.
pub fn fits_forms(forms: &Forms) -> bool
    ensures { result ≡ spec.fits_forms forms.now }
{
    let forms = forms.as_slice();
    !forms.is_empty() && forms.len() <= MOST_BOUNDS && all_forms_fit(forms)
}

/// Whether both sides of a span fit.
pub fn fits_span(span: &Span1) -> bool
    ensures { result ≡ spec.fits_span span.now }
{
    fits_forms(&span.lower) && fits_forms(&span.upper)
}

/// Whether each span of a region fits.
pub fn fits_region(region: &Region) -> bool
    ensures { result ≡ spec.fits_region region.now }
{
    region.as_slice().iter().all(|span| fits_span(span))
}

/// The types of values.
pub(crate) const TYPES: [Ty; 6] = [Ty::U8, Ty::U16, Ty::U32, Ty::I8, Ty::I16, Ty::I32];

/// The words of the grammar.
const WORDS: [Word; 13] = [
    Word::Pipeline,
    Word::Input,
    Word::Func,
    Word::Update,
    Word::Over,
    Word::Output,
    Word::Min,
    Word::Max,
    Word::Clamp,
    Word::Select,
    Word::Not,
    Word::All,
    Word::Any,
];

fn is_type(name: &[u8]) -> bool
    ensures { result ≡ list_any (λ t. bytes_eq (type_text t) name.now) types }
{
    TYPES.iter().any(|ty| type_text(*ty).as_bytes() == name)
}

fn is_word(name: &[u8]) -> bool
    ensures { result ≡ list_any (λ w. bytes_eq (word_text w) name.now) words }
{
    WORDS.iter().any(|word| word.text().as_bytes() == name)
}

fn are_word_bytes(name: &[u8]) -> bool
    ensures { result ≡ list_all is_word_byte name.now }
{
    name.iter().all(|byte| is_word_byte(*byte))
}

/// Whether the bytes are a name: 1 to 16 letters, digits and `_`, the first of them no digit, and neither a type nor a
/// word of the grammar.
pub fn is_name(name: &[u8]) -> bool
    ensures { result ≡ spec.is_name name.now }
{
    !name.is_empty()
        && name.len() <= MAX_NAME
        && are_word_bytes(name)
        && !name[0].is_ascii_digit()
        && !is_type(name)
        && !is_word(name)
}
