//! The points of a reduction domain.

ghost use Rattle.std.specs.Prelude.{◌≡◌, ◌≤◌, ◌^◌, ◌++◌, map, All, OnOk};
ghost use Rattle.meaning.specs.Reduction.{width, size, point};
ghost use Rattle.meaning.specs.Conditions.{IsRange};
ghost use Rattle.algo.specs.Parts.{range_of};
ghost use Rattle.plain.specs.Works.{bound_name, bound_number};
ghost use Rattle.plain.specs.Stages.{range_name};

use crate::scope::Binding;
use algo::Range;
use std::alloc::AllocError;

// How many values the variable takes.
fn width(range: &Range) -> u64
    ensures { result ≡ width (range_of range.now) }
{
    u64::from(range.high.abs_diff(range.low)) + 1
}

/// How many points the ranges have.
pub(crate) fn size(ranges: &[Range]) -> u64
    requires { size (map range_of ranges.now) ≤ 2 ^ 24 }
    ensures { result ≡ size (map range_of ranges.now) }
{
    let mut points = 1;
    for range in ranges {
        points *= width(range);
    }
    points
}

/// Binds the reduction variables to the point of this number, counted from 0: the first variable runs fastest.
pub(crate) fn bind_point<'a>(
    ranges: &'a [Range],
    number: u64,
    bindings: &mut Vec<Binding<'a>>,
) -> Result<(), AllocError>
    requires { All IsRange (map range_of ranges.now) }
    ensures names { OnOk result (map bound_name bindings.new.items ≡ map bound_name bindings.old.items ++ map range_name (map range_of ranges.now)) }
    ensures numbers { OnOk result (map bound_number bindings.new.items ≡ map bound_number bindings.old.items ++ point (map range_of ranges.now) number) }
{
    let mut rest = number;
    for range in ranges {
        let width = width(range);
        bindings.push(Binding {
            name: range.variable.as_str(),
            number: i64::from(range.low) + (rest % width) as i64,
        })?;
        rest /= width;
    }
    Ok(())
}
