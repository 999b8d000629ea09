//! The ends of spans of constants.

ghost use Rattle.std.specs.Prelude.{◌≡◌, fold, map};
ghost use Rattle.std.specs.Int.{int_max, int_min};
ghost use Rattle.plan.specs.Symbols.{form_value};
ghost use Rattle.plan.specs.Certificate.Cells.{no_symbols};
ghost use Rattle.checked_plan.specs.Ready.Ready.{high_end, low_end};

use lin::{Lin, Span1};

/// The largest of a number and the constants of these forms.
fn largest_with(first: i64, rest: &[Lin]) -> i64
    ensures { result ≡ fold int_max first (map (λ m. form_value m no_symbols) rest.now) }
{
    let mut most = first;
    for form in rest {
        most = most.max(form.constant());
    }
    most
}

/// The smallest of a number and the constants of these forms.
fn smallest_with(first: i64, rest: &[Lin]) -> i64
    ensures { result ≡ fold int_min first (map (λ m. form_value m no_symbols) rest.now) }
{
    let mut least = first;
    for form in rest {
        least = least.min(form.constant());
    }
    least
}

/// The low end of a span of constants: the largest lower one, 0 where there is none.
pub fn low_end(span: &Span1) -> i64
    ensures { result ≡ low_end span.now }
{
    match span.lower.as_slice() {
        [] => 0,
        [first, rest @ ..] => largest_with(first.constant(), rest),
    }
}

/// The high end of a span of constants: the smallest upper one, 0 where there is none.
pub fn high_end(span: &Span1) -> i64
    ensures { result ≡ high_end span.now }
{
    match span.upper.as_slice() {
        [] => 0,
        [first, rest @ ..] => smallest_with(first.constant(), rest),
    }
}
