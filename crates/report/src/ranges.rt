//! Between which numbers the values of forms lie.

ghost use Rattle.std.specs.Prelude.{◌≡◌, length, fold, map, true, IfSome, None, ℤ};
ghost use Rattle.std.specs.Int.{int_max, int_min, int_wrap, w64};
ghost use Rattle.std.specs.List.{list_all};
ghost use Rattle.lin.specs.Forms.{sum_of};
ghost use Rattle.plan.specs.Symbols.{Symbols, form_value, largest, smallest};
ghost use Rattle.interpreter.specs.Narrow.{FormIsNarrow, FormsAreNarrow, SpanIsNarrow};
ghost use Rattle.report.specs.Costs.{capped};
ghost use Rattle.report.specs.Known.{AllowsAll, AllSettled, known_of};
ghost use Rattle.report.specs.Ranges.{has_one, lows, numbers, Holds, HoldsEnds, IsOne};

use crate::known::{Binding, known_of};
use lin::{Forms, Lin, Multiple, Span1};

/// The numbers from one to another.
#[derive(Clone, Copy, Drop)]
pub(crate) struct Range {
    pub low: i64,
    pub high: i64,
}

/// Whether each of the terms' symbols can have but one value.
fn are_settled(terms: &[Multiple], known: &[Binding]) -> bool
    ensures { result ≡ list_all (λ t. has_one (known_of known.now t.symbol)) terms.now }
{
    for term in terms {
        let binding = known_of(known, term.symbol);
        if binding.low != binding.high {
            return false;
        }
    }
    true
}

/// What multiples of symbols come to modulo 2^64, where each symbol has its lowest value.
fn sum_of(terms: &[Multiple], known: &[Binding]) -> i64
    ensures { result ≡ int_wrap w64 (sum_of terms.now (lows known.now)) }
{
    match terms {
        [] => 0,
        [term, rest @ ..] => term
            .factor
            .wrapping_mul(known_of(known, term.symbol).low)
            .wrapping_add(sum_of(rest, known)),
    }
}

/// Between which numbers the value of a form lies: one number where its symbols can have but one value.
pub(crate) fn range_of(form: &Lin, known: &[Binding]) -> Range
    ensures holds { (s : Symbols) → AllowsAll known.now s → FormIsNarrow s form.now → Holds result (form_value form.now s) }
    ensures one { AllSettled known.now → IsOne result }
{
    if are_settled(form.terms(), known) {
        let value = form.constant().wrapping_add(sum_of(form.terms(), known));
        Range {
            low: value,
            high: value,
        }
    } else {
        Range {
            low: i64::MIN,
            high: i64::MAX,
        }
    }
}

/// Between which numbers the largest of two numbers lies.
fn larger(one: Range, other: Range) -> Range
    ensures { result ≡ record { low = int_max one.low other.low; high = int_max one.high other.high } }
{
    Range {
        low: one.low.max(other.low),
        high: one.high.max(other.high),
    }
}

/// Between which numbers the largest of a number and some forms lies.
#[tactic(auto, using(crate::proofs::Ends::one_max))]
fn larger_of(first: Range, forms: &[Lin], known: &[Binding]) -> Range
    ensures holds { (s : Symbols) (z : ℤ) → AllowsAll known.now s → FormsAreNarrow s forms.now → Holds first z → Holds result (fold int_max z (map (λ m. form_value m s) forms.now)) }
    ensures one { AllSettled known.now → IsOne first → IsOne result }
{
    let mut found = first;
    for form in forms {
        found = larger(found, range_of(form, known));
    }
    found
}

/// Between which numbers the largest of some forms lies, 0 of none.
pub(crate) fn largest(forms: &Forms, known: &[Binding]) -> Range
    ensures holds { (s : Symbols) → AllowsAll known.now s → FormsAreNarrow s forms.now → Holds result (largest s forms.now) }
    ensures one { AllSettled known.now → IsOne result }
{
    match forms.as_slice() {
        [] => Range { low: 0, high: 0 },
        [first, rest @ ..] => larger_of(range_of(first, known), rest, known),
    }
}

/// Between which numbers the smallest of two numbers lies.
fn smaller(one: Range, other: Range) -> Range
    ensures { result ≡ record { low = int_min one.low other.low; high = int_min one.high other.high } }
{
    Range {
        low: one.low.min(other.low),
        high: one.high.min(other.high),
    }
}

/// Between which numbers the smallest of a number and some forms lies.
#[tactic(auto, using(crate::proofs::Ends::one_min))]
fn smaller_of(first: Range, forms: &[Lin], known: &[Binding]) -> Range
    ensures holds { (s : Symbols) (z : ℤ) → AllowsAll known.now s → FormsAreNarrow s forms.now → Holds first z → Holds result (fold int_min z (map (λ m. form_value m s) forms.now)) }
    ensures one { AllSettled known.now → IsOne first → IsOne result }
{
    let mut found = first;
    for form in forms {
        found = smaller(found, range_of(form, known));
    }
    found
}

/// Between which numbers the smallest of some forms lies, 0 of none.
pub(crate) fn smallest(forms: &Forms, known: &[Binding]) -> Range
    ensures holds { (s : Symbols) → AllowsAll known.now s → FormsAreNarrow s forms.now → Holds result (smallest s forms.now) }
    ensures one { AllSettled known.now → IsOne result }
{
    match forms.as_slice() {
        [] => Range { low: 0, high: 0 },
        [first, rest @ ..] => smaller_of(range_of(first, known), rest, known),
    }
}

/// The numbers of a span, where its ends can have but one value.
pub(crate) fn ends_of(span: &Span1, known: &[Binding]) -> Option<Range>
    ensures holds { (s : Symbols) → AllowsAll known.now s → SpanIsNarrow s span.now → IfSome result (λ ends. HoldsEnds s span.now ends) }
    ensures one { AllSettled known.now → result ≡ None → ⊥ }
{
    let low = largest(&span.lower, known);
    let high = smallest(&span.upper, known);
    if low.low == low.high && high.low == high.high {
        Some(Range {
            low: low.low,
            high: high.low,
        })
    } else {
        None
    }
}

/// How many numbers these are. More than a `u64` holds count as the greatest `u64`.
pub(crate) fn count_of(range: Range) -> u64
    ensures { result ≡ capped (length (numbers range)) }
{
    if range.low > range.high {
        0
    } else {
        range.high.abs_diff(range.low).saturating_add(1)
    }
}
