//! How the picture of a checked plan compares with another one.

ghost use Rattle.std.specs.Prelude.{◌≡◌, ℕ, IfErr, IfOk};
ghost use Rattle.algo.specs.View.{picture_said, samples_of, IsFor};
ghost use Rattle.checked_plan.specs.View.{algorithm_checked};
ghost use Rattle.meaning.specs.Image.View.{image_of, numbers};
ghost use Rattle.commands.specs.declared.comparing.Comparison.{Comparison};
ghost use Rattle.commands.specs.Pictures.{IsFirstDifference, IsOfDevice};

use crate::device::Files;
use crate::pipeline::{Fault, plan_picture};
use crate::plan_command::costs_told;
use crate::stream::flush;
use algo::{Algo, Inputs};
use checked_plan::Checked;
use meaning::image::{Image, Samples};
use pnm::PnmError;
use std::alloc::Global;
use std::io::Write;

/// How the samples of two pictures compare.
#[derive(Clone, Copy, PartialEq, Eq, Drop)]
pub enum Comparison {
    /// They are the same.
    Same,
    /// The place, in raster order, of the first sample that is another.
    DiffersAt(usize),
}

/// What schedules' pictures are compared with: the picture that an algorithm says of an input.
#[derive(Clone, Copy, Drop)]
pub struct Baseline<'a> {
    /// The algorithm.
    pub algo: &'a Algo,
    /// The input.
    pub inputs: &'a Inputs,
    /// Its picture.
    pub picture: &'a Image,
}

fn compared(plain: &Samples, picture: &Samples) -> Comparison
    ensures same { result ≡ Comparison.Same → numbers plain.now ≡ numbers picture.now }
    ensures differs { (place : ℕ) → result ≡ Comparison.DiffersAt place → IsFirstDifference place (numbers plain.now) (numbers picture.now) }
{
    let (all, found) = (plain.len(), picture.len());
    let mut place = 0;
    while place < all && place < found && plain.at(place) == picture.at(place) {
        place += 1;
    }
    if place == all && place == found {
        Comparison::Same
    } else {
        Comparison::DiffersAt(place)
    }
}

/// Tells how a schedule's picture compares, and what its plan costs.
fn tell<W: Write>(out: &mut W, name: &str, comparison: Comparison, costs: &str) -> Result<(), Fault>
    ensures { IfErr result IsOfDevice }
{
    let told = match comparison {
        Comparison::Same => write!(out, "{name} same\n{costs}"),
        Comparison::DiffersAt(place) => write!(out, "{name} differs at {place}\n{costs}"),
    };
    match told {
        Ok(()) => flush(out),
        Err(_) => Err(Fault::Image(PnmError::Device)),
    }
}

/// The picture that one worker computes by a checked plan. Who watches it is told of each piece.
fn picture_watched<F: Files>(
    alloc: Global,
    files: &F,
    checked: &Checked<'_>,
    inputs: &Inputs,
) -> Result<Image, Fault>
    requires { IsFor checked.now.algo.now inputs.now }
    ensures picture { IfOk result (λ image. image_of image ≡ picture_said (algorithm_checked checked.now) (samples_of inputs.now)) }
    ensures refused { IfErr result IsOfDevice }
{
    let watch = files.watch(checked.pieces());
    plan_picture(alloc, checked, inputs, &watch)
}

/// Has one worker compute the picture by a checked plan, and tells how it compares. All memory is taken before the first piece.
pub fn compare_checked<F: Files, W: Write>(
    alloc: Global,
    files: &F,
    out: &mut W,
    baseline: &Baseline<'_>,
    checked: &Checked<'_>,
    name: &str,
) -> Result<Comparison, Fault>
    requires inputs { IsFor checked.now.algo.now baseline.now.inputs.now }
    requires picture { image_of baseline.now.picture.now ≡ picture_said (algorithm_checked checked.now) (samples_of baseline.now.inputs.now) }
    ensures picture { IfOk result (λ comparison. comparison ≡ Comparison.Same) }
    ensures refused { IfErr result IsOfDevice }
{
    let costs = costs_told(alloc, checked)?;
    let image = picture_watched(alloc, files, checked, baseline.inputs)?;
    let comparison = compared(&baseline.picture.samples, &image.samples);
    tell(out, name, comparison, costs.as_str())?;
    Ok(comparison)
}

/// Tells that pictures are compared with the one of this schedule, and what its plan costs.
fn tell_first<W: Write>(out: &mut W, name: &str, costs: &str) -> Result<(), Fault>
    ensures { IfErr result IsOfDevice }
{
    match write!(out, "pictures are compared with that of {name}\n{costs}") {
        Ok(()) => flush(out),
        Err(_) => Err(Fault::Image(PnmError::Device)),
    }
}

/// The picture that one worker computes by a checked plan, which is told to be what others are compared with.
pub fn first_of<F: Files, W: Write>(
    alloc: Global,
    files: &F,
    out: &mut W,
    checked: &Checked<'_>,
    inputs: &Inputs,
    name: &str,
) -> Result<Image, Fault>
    requires inputs { IsFor checked.now.algo.now inputs.now }
    ensures picture { IfOk result (λ image. image_of image ≡ picture_said (algorithm_checked checked.now) (samples_of inputs.now)) }
    ensures refused { IfErr result IsOfDevice }
{
    let costs = costs_told(alloc, checked)?;
    let image = picture_watched(alloc, files, checked, inputs)?;
    tell_first(out, name, costs.as_str())?;
    Ok(image)
}
