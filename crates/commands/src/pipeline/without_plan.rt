//! From an algorithm and an image to the picture, each pixel by the definitions alone, without any plan.

ghost use Rattle.std.specs.Prelude.{◌≡◌, IfErr, IfOk, OnOk};
ghost use Rattle.algo.specs.View.{algorithm_of, picture_said, samples_of, IsFor};
ghost use Rattle.meaning.specs.Image.View.{image_of};
ghost use Rattle.plain.specs.Picture.{AllWithin};
ghost use Rattle.commands.specs.Pipeline.Pictures.{IsBudgetSpent};

use crate::pipeline::fault::Fault;
use algo::{Algo, Inputs};
use meaning::image::Image;
use std::alloc::Global;
use std::thread::Threads;

/// How many evaluations a pixel may take where nothing else is asked.
pub const BUDGET: u64 = 1 << 32;

/// The picture that an algorithm says of an input, each pixel computed by the definitions alone, in as many threads as
/// serve. A pixel may take so many evaluations.
///
/// # Errors
/// `Budget` where a pixel takes more, `Memory` where memory runs out.
pub fn plain_picture<T: Threads + Sync>(
    rt: &T,
    alloc: Global,
    algo: &Algo,
    inputs: &Inputs,
    budget: u64,
) -> Result<Image, Fault>
    requires { IsFor algo.now inputs.now }
    ensures picture { IfOk result (λ image. image_of image ≡ picture_said (algorithm_of algo.now) (samples_of inputs.now)) }
    ensures within { OnOk result (AllWithin (algorithm_of algo.now) (samples_of inputs.now) budget) }
    ensures refused { IfErr result (IsBudgetSpent (algorithm_of algo.now) (samples_of inputs.now) budget) }
{
    Ok(plain::image(rt, alloc, algo, inputs, budget)?)
}
