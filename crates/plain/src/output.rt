//! The samples of the output, each by its place in the raster.

ghost use Rattle.std.specs.Prelude.{◌≡◌, ◌<◌, ◌≤◌, ◌^◌, length, true, pos, IfOk, IfErr};
ghost use Rattle.algo.specs.View.{algorithm_of, samples_of, IsFor};
ghost use Rattle.meaning.specs.Image.Raster.{is_within, natural, sample_count};
ghost use Rattle.meaning.specs.Count.{output_count};
ghost use Rattle.meaning.specs.Value.{output_value};
ghost use Rattle.plain.specs.declared.error.PlainError.TheVariants.{Budget};
ghost use Rattle.plain.specs.Picture.{count_at, sample_at, IsOutput};

use crate::callee::number_of;
use crate::error::PlainError;
use crate::evaluation::value;
use algo::{Algo, Inputs};
use std::alloc::Global;

/// What the samples of the output are evaluated from.
#[derive(Drop)]
pub(crate) struct Output<'a> {
    pub alloc: Global,
    pub algo: &'a Algo,
    pub inputs: &'a Inputs,
    /// The number of the output's function.
    pub function: usize,
    /// How many evaluations a sample may take.
    pub budget: u64,
    pub ghost input: { IsFor algo.now inputs.now },
    pub ghost output: { IsOutput (algorithm_of algo.now) function },
}

/// The number of the output's function.
pub(crate) fn output_number(algo: &Algo) -> usize
    ensures { IsOutput (algorithm_of algo.now) result }
{
    algo.is_well_formed();
    match number_of(algo, algo.funcs().len(), algo.output().name.as_str()) {
        Some(number) => number,
        None => unreachable!(),
    }
}

// The coordinate of a place.
fn coordinate(place: usize) -> i32
    requires { place < 2 ^ 31 }
    ensures { result ≡ pos place }
{
    place as i32
}

// The output's sample at a point.
fn sample_of(output: &Output<'_>, at: &[i32]) -> Result<u16, PlainError>
    requires { is_within (algorithm_of output.now.algo.now).output_extents at.now ≡ true }
    ensures sample { IfOk result (λ s. (s ≡ natural (output_value (algorithm_of output.now.algo.now) (samples_of output.now.inputs.now) at.now))
        × (output_count (algorithm_of output.now.algo.now) (samples_of output.now.inputs.now) at.now ≤ output.now.budget)) }
    ensures spent { IfErr result (λ e. e ≡ Budget → output.now.budget < output_count (algorithm_of output.now.algo.now) (samples_of output.now.inputs.now) at.now) }
{
    output.algo.is_well_formed();
    let sample = value(
        output.alloc,
        output.algo,
        output.inputs,
        output.function,
        at,
        output.budget,
    )?;
    Ok(sample as u16)
}

/// The output's sample at a place of the raster, where the output has these extents.
pub(crate) fn sample_at(
    output: &Output<'_>,
    extents: &[u32],
    place: usize,
) -> Result<u16, PlainError>
    requires extents { extents.now ≡ (algorithm_of output.now.algo.now).output_extents }
    requires place { place < sample_count extents.now }
    ensures sample { IfOk result (λ s. (s ≡ sample_at (algorithm_of output.now.algo.now) (samples_of output.now.inputs.now) place)
        × (count_at (algorithm_of output.now.algo.now) (samples_of output.now.inputs.now) place ≤ output.now.budget)) }
    ensures spent { IfErr result (λ e. e ≡ Budget → output.now.budget < count_at (algorithm_of output.now.algo.now) (samples_of output.now.inputs.now) place) }
{
    output.algo.is_well_formed();
    match extents {
        [_] => sample_of(output, &[coordinate(place)]),
        [width, _] => {
            let width = *width as usize;
            sample_of(
                output,
                &[coordinate(place % width), coordinate(place / width)],
            )
        }
        [width, _, colours] => {
            let (width, colours) = (*width as usize, *colours as usize);
            let pixel = place / colours;
            let at = [
                coordinate(pixel % width),
                coordinate(pixel / width),
                coordinate(place % colours),
            ];
            sample_of(output, &at)
        }
        _ => unreachable!(),
    }
}
