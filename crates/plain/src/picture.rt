//! The picture of an algorithm, its samples shared out among threads.

ghost use Rattle.std.specs.Prelude.{◌≡◌, ◌<◌, ◌≤◌, IfOk, IfErr};
ghost use Rattle.std.specs.List.{range_with_len};
ghost use Rattle.algo.specs.View.{algorithm_of, picture_said, samples_of, IsFor};
ghost use Rattle.meaning.specs.Image.Raster.{sample_count};
ghost use Rattle.meaning.specs.Image.View.{image_of};
ghost use Rattle.plain.specs.declared.error.PlainError.TheVariants.{Budget};
ghost use Rattle.plain.specs.Picture.{count_at, sample_at, AllWithin, Extends, Gives, GivesNone, Joins, SomeAbove};

use crate::error::PlainError;
use crate::output::{Output, output_number, sample_at};
use algo::{Algo, Inputs};
use meaning::image::{Image, Samples};
use rayon::prelude::*;
use std::alloc::Global;
use std::thread::Threads;

// The samples of a part of the raster, in order.
type Part = Result<Vec<u16>, PlainError>;

/// The picture that the algorithm says of the input, with a budget of evaluations for each of its samples.
///
/// The raster is cut into parts for as many threads as there are processors, up to 32. A sample takes 2 bytes, and up to
/// four times as much while the parts are put together; in each thread the evaluation of one value takes memory beside, as
/// `value` does.
///
/// # Errors
/// `Budget` where a sample takes more evaluations than the budget, `Memory` where memory runs out. Of several errors the
/// first in the order of the raster is given; the samples that follow it in its part are not evaluated.
pub fn image<R: Threads + Sync>(
    threads: &R,
    alloc: Global,
    algo: &Algo,
    inputs: &Inputs,
    budget: u64,
) -> Result<Image, PlainError>
    requires { IsFor algo.now inputs.now }
    ensures picture { IfOk result (λ image. image_of image ≡ picture_said (algorithm_of algo.now) (samples_of inputs.now)) }
    ensures within { IfOk result (λ image. AllWithin (algorithm_of algo.now) (samples_of inputs.now) budget) }
    ensures spent { IfErr result (λ e. e ≡ Budget → SomeAbove (algorithm_of algo.now) (samples_of inputs.now) budget) }
{
    algo.is_well_formed();
    let function = output_number(algo);
    let output = Output {
        alloc,
        algo,
        inputs,
        function,
        budget,
    };
    let shape = algo.output().shape.copy(alloc)?;
    let samples = samples_below(threads, &output, shape.sample_count())?;
    Ok(Image {
        ty: shape.ty,
        extents: shape.extents,
        samples: Samples::Words(samples),
    })
}

// The samples at the first places of the raster, in order.
fn samples_below<R: Threads + Sync>(threads: &R, output: &Output<'_>, places: usize) -> Part
    requires { places ≤ sample_count (algorithm_of output.now.algo.now).output_extents }
    ensures { Gives (sample_at (algorithm_of output.now.algo.now) (samples_of output.now.inputs.now)) (count_at (algorithm_of output.now.algo.now) (samples_of output.now.inputs.now)) output.now.budget (range_with_len 0 places) result }
{
    let alloc = output.alloc;
    (0..places)
        .into_par_iter()
        .with_min_len(1)
        .fold(
            || -> Part
                ensures { GivesNone result }
            { Ok(Vec::new(alloc)) },
            |part: Part, place: usize| -> Part
                requires { place < sample_count (algorithm_of output.now.algo.now).output_extents }
                ensures { Extends (sample_at (algorithm_of output.entry.now.algo.now) (samples_of output.entry.now.inputs.now)) (count_at (algorithm_of output.entry.now.algo.now) (samples_of output.entry.now.inputs.now)) output.entry.now.budget part place result }
            { extended(output, part, place) },
        )
        .reduce(
            threads,
            || -> Part
                ensures { GivesNone result }
            { Ok(Vec::new(alloc)) },
            |front: Part, back: Part| -> Part
                ensures { Joins front back result }
            { joined(front, back) },
        )
}

// The part with the sample at one more place. Behind an error nothing is evaluated.
fn extended(output: &Output<'_>, part: Part, place: usize) -> Part
    requires { place < sample_count (algorithm_of output.now.algo.now).output_extents }
    ensures { Extends (sample_at (algorithm_of output.now.algo.now) (samples_of output.now.inputs.now)) (count_at (algorithm_of output.now.algo.now) (samples_of output.now.inputs.now)) output.now.budget part place result }
{
    let mut samples = part?;
    let extents = output.algo.output().shape.extents.as_slice();
    samples.push(sample_at(output, extents, place)?)?;
    Ok(samples)
}

// Two parts side by side.
fn joined(front: Part, back: Part) -> Part
    ensures { Joins front back result }
{
    let mut samples = front?;
    samples.append(&mut back?)?;
    Ok(samples)
}
