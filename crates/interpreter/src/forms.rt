//! Numbers that forms come to.

ghost use Rattle.std.specs.Prelude.{◌≡◌, pos, fold, map};
ghost use Rattle.std.specs.Int.{int_max, int_min, int_wrap, w64};
ghost use Rattle.lin.specs.Forms.{sum_of};
ghost use Rattle.plan.specs.Symbols.{form_value, largest, smallest};
ghost use Rattle.interpreter.specs.Bindings.{symbols_of};
ghost use Rattle.interpreter.specs.Narrow.{FormIsNarrow, FormsAreNarrow};

use crate::symbols::Symbols;
use lin::{Forms, Lin, Multiple};

/// What multiples of symbols come to, modulo 2^64.
fn sum_of(terms: &[Multiple], symbols: &Symbols) -> i64
    ensures { result ≡ int_wrap w64 (sum_of terms.now (symbols_of symbols.now).value) }
{
    match terms {
        [] => 0,
        [term, rest @ ..] => term
            .factor
            .wrapping_mul(symbols.value(term.symbol))
            .wrapping_add(sum_of(rest, symbols)),
    }
}

/// The value of a form.
pub(crate) fn value_of(form: &Lin, symbols: &Symbols) -> i64
    requires { FormIsNarrow (symbols_of symbols.now) form.now }
    ensures { result ≡ form_value form.now (symbols_of symbols.now) }
{
    form.constant().wrapping_add(sum_of(form.terms(), symbols))
}

/// The largest of a number and some forms.
fn larger_of(first: i64, forms: &[Lin], symbols: &Symbols) -> i64
    requires { FormsAreNarrow (symbols_of symbols.now) forms.now }
    ensures { result ≡ fold int_max first (map (λ m. form_value m (symbols_of symbols.now)) forms.now) }
{
    let mut found = first;
    for form in forms {
        found = found.max(value_of(form, symbols));
    }
    found
}

/// The smallest of a number and some forms.
fn smaller_of(first: i64, forms: &[Lin], symbols: &Symbols) -> i64
    requires { FormsAreNarrow (symbols_of symbols.now) forms.now }
    ensures { result ≡ fold int_min first (map (λ m. form_value m (symbols_of symbols.now)) forms.now) }
{
    let mut found = first;
    for form in forms {
        found = found.min(value_of(form, symbols));
    }
    found
}

/// The largest of some forms, 0 of none.
pub(crate) fn largest(forms: &Forms, symbols: &Symbols) -> i64
    requires { FormsAreNarrow (symbols_of symbols.now) forms.now }
    ensures { result ≡ largest (symbols_of symbols.now) forms.now }
{
    match forms.as_slice() {
        [] => 0,
        [first, rest @ ..] => larger_of(value_of(first, symbols), rest, symbols),
    }
}

/// The smallest of some forms, 0 of none.
pub(crate) fn smallest(forms: &Forms, symbols: &Symbols) -> i64
    requires { FormsAreNarrow (symbols_of symbols.now) forms.now }
    ensures { result ≡ smallest (symbols_of symbols.now) forms.now }
{
    match forms.as_slice() {
        [] => 0,
        [first, rest @ ..] => smaller_of(value_of(first, symbols), rest, symbols),
    }
}
