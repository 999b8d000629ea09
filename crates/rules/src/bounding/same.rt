//! Whether spans, and what is known of symbols, are the same.

ghost use Rattle.std.specs.Prelude.{◌≡◌, IsTrue};

use lin::{Binding, Lin, Span1};

/// Whether two forms are the same. A yes is sure.
fn is_same_form(first: &Lin, second: &Lin) -> bool
    ensures { IsTrue result → first.now ≡ second.now }
{
    first.is_same(second)
}

/// Whether two lists have the same forms. A yes is sure.
fn are_same_forms(first: &[Lin], second: &[Lin]) -> bool
    ensures { IsTrue result → first.now ≡ second.now }
{
    match first {
        [] => match second {
            [] => true,
            [_, ..] => false,
        },
        [form, rest @ ..] => match second {
            [] => false,
            [other, others @ ..] => is_same_form(form, other) && are_same_forms(rest, others),
        },
    }
}

/// Whether two spans have the same forms. A yes is sure.
pub(crate) fn is_same_span(first: &Span1, second: &Span1) -> bool
    ensures { IsTrue result → first.now ≡ second.now }
{
    are_same_forms(first.lower.as_slice(), second.lower.as_slice())
        && are_same_forms(first.upper.as_slice(), second.upper.as_slice())
}

/// Whether the same is known of two symbols. A yes is sure.
fn is_same_binding(first: &Binding, second: &Binding) -> bool
    ensures { IsTrue result → first.now ≡ second.now }
{
    match first {
        Binding::Loop(span) => match second {
            Binding::Loop(other) => is_same_span(span, other),
            _ => false,
        },
        Binding::LetMin(forms) => match second {
            Binding::LetMin(others) => are_same_forms(forms.as_slice(), others.as_slice()),
            _ => false,
        },
        Binding::LetMax(forms) => match second {
            Binding::LetMax(others) => are_same_forms(forms.as_slice(), others.as_slice()),
            _ => false,
        },
    }
}

/// Whether the same is known of as many symbols. A yes is sure.
pub(crate) fn are_same_bindings(first: &[Binding], second: &[Binding]) -> bool
    ensures { IsTrue result → first.now ≡ second.now }
{
    match first {
        [] => match second {
            [] => true,
            [_, ..] => false,
        },
        [binding, rest @ ..] => match second {
            [] => false,
            [other, others @ ..] => {
                is_same_binding(binding, other) && are_same_bindings(rest, others)
            }
        },
    }
}
