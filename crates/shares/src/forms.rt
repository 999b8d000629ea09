//! Numbers that forms come to at a grid point, where further symbols have values.

ghost use Rattle.std.specs.Prelude.{◌≡◌, ◌==◌, ◌^◌, if◌then◌else◌, pos, fold, map, slice_get, IsTrue};
ghost use Rattle.std.specs.Int.{int_max, int_min, int_wrap, w64};
ghost use Rattle.lin.specs.Forms.{sum_of, is_within_limits, IsWithin};
ghost use Rattle.plan.specs.Symbols.{form_value, largest, smallest};
ghost use Rattle.plan.specs.Certificate.Cells.{grid_value};
ghost use Rattle.shares.specs.Boxes.{AreLimited, IsSmall};
ghost use Rattle.shares.specs.Lets.{ValuesAreSmall, symbols_at};

use lin::{Forms, Lin, Multiple, Sym};

/// The value of a symbol that is none of the grid's.
#[derive(Clone, Copy, Drop)]
pub struct Value {
    pub symbol: Sym,
    pub value: i64,
}

/// A coordinate of a grid point, if it has so many.
fn coordinate(at: &[u64], symbol: Sym) -> Option<u64>
    ensures { result ≡ slice_get at.now symbol }
{
    at.get(symbol).copied()
}

/// The value of one of the grid's symbols, 0 where the grid has not so many.
pub(crate) fn grid_value(at: &[u64], symbol: Sym) -> i64
    requires { IsSmall at.now }
    ensures value { result ≡ grid_value at.now symbol }
    ensures small { IsWithin (2 ^ 20) result }
{
    match coordinate(at, symbol) {
        Some(number) => number as i64,
        None => 0,
    }
}

/// The value of a symbol, if this is its value, else what was found before.
fn value_or(value: &Value, symbol: Sym, before: i64) -> i64
    ensures { result ≡ (if symbol == value.now.symbol then value.now.value else before) }
{
    if symbol == value.symbol {
        return value.value;
    }
    before
}

/// The value of a symbol, of which the last counts, else of one of the grid's.
fn symbol_value(at: &[u64], lets: &[Value], symbol: Sym) -> i64
    requires at { IsSmall at.now }
    requires lets { ValuesAreSmall lets.now }
    ensures value { result ≡ (symbols_at at.now lets.now).value symbol }
    ensures small { IsWithin (2 ^ 20) result }
{
    let mut found = grid_value(at, symbol);
    for value in lets {
        found = value_or(value, symbol, found);
    }
    found
}

/// What multiples of symbols come to, modulo 2^64.
fn sum_of(terms: &[Multiple], at: &[u64], lets: &[Value]) -> i64
    requires at { IsSmall at.now }
    requires lets { ValuesAreSmall lets.now }
    ensures { result ≡ int_wrap w64 (sum_of terms.now (symbols_at at.now lets.now).value) }
{
    match terms {
        [] => 0,
        [term, rest @ ..] => term
            .factor
            .wrapping_mul(symbol_value(at, lets, term.symbol))
            .wrapping_add(sum_of(rest, at, lets)),
    }
}

/// The value of a form.
fn value_of(form: &Lin, at: &[u64], lets: &[Value]) -> i64
    requires limits { IsTrue (is_within_limits form.now) }
    requires at { IsSmall at.now }
    requires lets { ValuesAreSmall lets.now }
    ensures value { result ≡ form_value form.now (symbols_at at.now lets.now) }
    ensures small { IsWithin (2 ^ 44) result }
{
    form.constant().wrapping_add(sum_of(form.terms(), at, lets))
}

/// The largest of a number and some forms.
fn larger_of(first: i64, forms: &[Lin], at: &[u64], lets: &[Value]) -> i64
    requires limits { AreLimited forms.now }
    requires at { IsSmall at.now }
    requires lets { ValuesAreSmall lets.now }
    requires small { IsWithin (2 ^ 44) first }
    ensures value { result ≡ fold int_max first (map (λ m. form_value m (symbols_at at.now lets.now)) forms.now) }
    ensures small { IsWithin (2 ^ 44) result }
{
    let mut found = first;
    for form in forms {
        found = found.max(value_of(form, at, lets));
    }
    found
}

/// The smallest of a number and some forms.
fn smaller_of(first: i64, forms: &[Lin], at: &[u64], lets: &[Value]) -> i64
    requires limits { AreLimited forms.now }
    requires at { IsSmall at.now }
    requires lets { ValuesAreSmall lets.now }
    requires small { IsWithin (2 ^ 44) first }
    ensures value { result ≡ fold int_min first (map (λ m. form_value m (symbols_at at.now lets.now)) forms.now) }
    ensures small { IsWithin (2 ^ 44) result }
{
    let mut found = first;
    for form in forms {
        found = found.min(value_of(form, at, lets));
    }
    found
}

/// The largest of some forms at a grid point and further values, 0 of none.
pub(crate) fn largest(forms: &Forms, at: &[u64], lets: &[Value]) -> i64
    requires limits { AreLimited forms.now }
    requires at { IsSmall at.now }
    requires lets { ValuesAreSmall lets.now }
    ensures value { result ≡ largest (symbols_at at.now lets.now) forms.now }
    ensures small { IsWithin (2 ^ 44) result }
{
    match forms.as_slice() {
        [] => 0,
        [first, rest @ ..] => larger_of(value_of(first, at, lets), rest, at, lets),
    }
}

/// The smallest of some forms at a grid point and further values, 0 of none.
pub(crate) fn smallest(forms: &Forms, at: &[u64], lets: &[Value]) -> i64
    requires limits { AreLimited forms.now }
    requires at { IsSmall at.now }
    requires lets { ValuesAreSmall lets.now }
    ensures value { result ≡ smallest (symbols_at at.now lets.now) forms.now }
    ensures small { IsWithin (2 ^ 44) result }
{
    match forms.as_slice() {
        [] => 0,
        [first, rest @ ..] => smaller_of(value_of(first, at, lets), rest, at, lets),
    }
}
