//! Whether two functions say the same.

ghost use Rattle.std.specs.Prelude.{◌≡◌, IsTrue, map, string_bytes};
ghost use Rattle.algo.specs.Parts.{range_of, change_of, names_of, function_of};

use algo::scoping::same_name;
use algo::{Function, Range, Update};
use meaning::sameness::{same_expr, same_row};

// Whether two names are the same.
fn same_text(first: &String, second: &String) -> bool
    ensures { IsTrue result → string_bytes first.now ≡ string_bytes second.now }
{
    same_name(first.as_str(), second.as_str())
}

// Whether two lists have the same names.
fn same_names(first: &[String], second: &[String]) -> bool
    ensures { IsTrue result → names_of first.now ≡ names_of second.now }
{
    match first {
        [] => match second {
            [] => true,
            [_, ..] => false,
        },
        [name, rest @ ..] => match second {
            [] => false,
            [other, others @ ..] => same_text(name, other) && same_names(rest, others),
        },
    }
}

fn same_range(first: &Range, second: &Range) -> bool
    ensures { IsTrue result → range_of first.now ≡ range_of second.now }
{
    same_name(first.variable.as_str(), second.variable.as_str())
        && first.low == second.low
        && first.high == second.high
}

fn same_ranges(first: &[Range], second: &[Range]) -> bool
    ensures { IsTrue result → map range_of first.now ≡ map range_of second.now }
{
    match first {
        [] => match second {
            [] => true,
            [_, ..] => false,
        },
        [range, rest @ ..] => match second {
            [] => false,
            [other, others @ ..] => same_range(range, other) && same_ranges(rest, others),
        },
    }
}

fn same_update(first: &Update, second: &Update) -> bool
    ensures { IsTrue result → change_of first.now ≡ change_of second.now }
{
    same_ranges(&first.ranges, &second.ranges)
        && same_row(&first.at, &second.at)
        && same_expr(&first.value, &second.value)
}

fn same_updates(first: &[Update], second: &[Update]) -> bool
    ensures { IsTrue result → map change_of first.now ≡ map change_of second.now }
{
    match first {
        [] => match second {
            [] => true,
            [_, ..] => false,
        },
        [update, rest @ ..] => match second {
            [] => false,
            [other, others @ ..] => same_update(update, other) && same_updates(rest, others),
        },
    }
}

/// Whether two functions, each with its name, say the same. A yes is sure.
pub(crate) fn same_function(
    name: &String,
    function: &Function,
    other: &String,
    second: &Function,
) -> bool
    ensures { IsTrue result → function_of (name.now, function.now) ≡ function_of (other.now, second.now) }
{
    same_name(name.as_str(), other.as_str())
        && function.ty == second.ty
        && same_names(&function.variables, &second.variables)
        && same_expr(&function.value, &second.value)
        && same_updates(&function.updates, &second.updates)
}
