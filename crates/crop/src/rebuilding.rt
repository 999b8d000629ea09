//! Whether an algorithm that was read is the one whose text was written.

ghost use Rattle.std.specs.Prelude.{◌≡◌, ◌<◌, IsTrue, Some, length, map, slice_get};
ghost use Rattle.algo.specs.Parts.{function_of};
ghost use Rattle.algo.specs.View.{algorithm_of};
ghost use Rattle.crop.specs.Rebuilt.{rebuilt};

use crate::callees::function_at;
use crate::compare::same_function;
use algo::scoping::same_name;
use algo::{Algo, Function};

// Whether two lists of extents are the same. A yes is sure, as of all tests here.
fn same_extents(first: &[u32], second: &[u32]) -> bool
    ensures { IsTrue result → first.now ≡ second.now }
{
    match first {
        [] => match second {
            [] => true,
            [_, ..] => false,
        },
        [extent, rest @ ..] => match second {
            [] => false,
            [other, others @ ..] => *extent == *other && same_extents(rest, others),
        },
    }
}

// Whether the algorithm's input has the other's name and type, and these extents.
fn same_input(read: &Algo, algo: &Algo, extents: &[u32]) -> bool
    ensures name { IsTrue result → (algorithm_of read.now).input ≡ (algorithm_of algo.now).input }
    ensures ty { IsTrue result → (algorithm_of read.now).input_ty ≡ (algorithm_of algo.now).input_ty }
    ensures extents { IsTrue result → (algorithm_of read.now).input_extents ≡ extents.now }
{
    let input = read.input();
    let other = algo.input();
    same_name(input.name.as_str(), other.name.as_str())
        && input.shape.ty == other.shape.ty
        && same_extents(&input.shape.extents, extents)
}

// Whether the algorithm's output has the other's name, and these extents.
fn same_output(read: &Algo, algo: &Algo, extents: &[u32]) -> bool
    ensures name { IsTrue result → (algorithm_of read.now).output ≡ (algorithm_of algo.now).output }
    ensures extents { IsTrue result → (algorithm_of read.now).output_extents ≡ extents.now }
{
    let output = read.output();
    let other = algo.output();
    same_name(output.name.as_str(), other.name.as_str())
        && same_extents(&output.shape.extents, extents)
}

// Whether the algorithm's function of a number is this one.
fn is_function(read: &Algo, number: usize, item: &(String, Function)) -> bool
    requires { number < length (algorithm_of read.now).functions }
    ensures { IsTrue result → slice_get (algorithm_of read.now).functions number ≡ Some (function_of item.now) }
{
    let (name, function) = function_at(read, number);
    same_function(name, function, &item.0, &item.1)
}

// Whether the algorithm has these functions.
fn has_functions(read: &Algo, functions: &[(String, Function)]) -> bool
    ensures { IsTrue result → (algorithm_of read.now).functions ≡ map function_of functions.now }
{
    if read.funcs().len() != functions.len() {
        return false;
    }
    for (number, item) in functions.iter().enumerate() {
        if !is_function(read, number, item) {
            return false;
        }
    }
    true
}

/// Whether the algorithm that was read is the other with these functions and extents.
pub(crate) fn is_rebuilt(
    read: &Algo,
    algo: &Algo,
    input_extents: &[u32],
    functions: &[(String, Function)],
    output_extents: &[u32],
) -> bool
    ensures { IsTrue result → algorithm_of read.now
        ≡ rebuilt (algorithm_of algo.now) (map function_of functions.now) input_extents.now output_extents.now }
{
    same_name(read.name(), algo.name())
        && same_input(read, algo, input_extents)
        && same_output(read, algo, output_extents)
        && has_functions(read, functions)
}
