//! The image file of the picture that a checked plan computes.

ghost use Rattle.std.specs.Prelude.{◌≡◌, ◌≤◌, IfErr, IfOk};
ghost use Rattle.algo.specs.View.{picture_said, samples_of, IsFor};
ghost use Rattle.checked_plan.specs.View.{algorithm_checked};
ghost use Rattle.meaning.specs.Image.View.{image_of};
ghost use Rattle.crew.specs.Opening.Layouts.{layout_of, values_of};
ghost use Rattle.pnm.specs.Text.{text_of};
ghost use Rattle.commands.specs.declared.pipeline.fault.Fault.TheVariants.{Memory};

use crate::file::{file_in, room_for};
use crate::pipeline::by_plan::picture_on;
use crate::pipeline::fault::Fault;
use algo::Inputs;
use checked_plan::Checked;
use checked_plan::output::PlanCells;
use crew::{Gate, Prepared, Run};
use meaning::image::Image;
use std::alloc::{AllocError, Global};
use std::marker::Brand;
use std::sync::Wait;
use std::thread::Threads;

/// The most workers that compute at once.
const MOST_WORKERS: usize = 64;

/// The picture, computed by a crew on a board for this checked plan and this input.
fn crew_on<J: Run + Send + Sync, T: Threads + Wait + Sync, G: Gate>(
    rt: &T,
    alloc: Global,
    checked: &Checked<'_>,
    inputs: &Inputs,
    workers: usize,
    gate: &G,
) -> Result<Image, AllocError>
    requires layout { J.layout ≡ layout_of checked.now }
    requires values { J.values ≡ values_of checked.now inputs.now }
    requires input { IsFor checked.now.algo.now inputs.now }
    requires workers { (1 ≤ workers) × (workers ≤ 64) }
    ensures { IfOk result (λ image. image_of image ≡ picture_said (algorithm_checked checked.now) (samples_of inputs.now)) }
{
    let cells = PlanCells::of(alloc, checked)?;
    let run = Prepared::<J>::new(alloc, checked, inputs, &cells, workers)?;
    Ok(run.picture(rt, alloc, gate))
}

/// The picture, computed by so many workers.
fn picture_by<T: Threads + Wait + Sync, G: Gate>(
    rt: &T,
    alloc: Global,
    checked: &Checked<'_>,
    inputs: &Inputs,
    workers: usize,
    gate: &G,
) -> Result<Image, AllocError>
    requires { IsFor checked.now.algo.now inputs.now }
    ensures { IfOk result (λ image. image_of image ≡ picture_said (algorithm_checked checked.now) (samples_of inputs.now)) }
{
    if workers <= 1 {
        return picture_on::<Brand, G>(alloc, checked, inputs, gate);
    }
    crew_on::<Brand, T, G>(rt, alloc, checked, inputs, workers.min(MOST_WORKERS), gate)
}

/// The image file of the picture that the algorithm says of an input, computed by the pieces of a checked plan in the hands of
/// so many workers: in the caller's thread and in threads that are started through `rt`. Fewer than one are one, and more than
/// 64 are 64. One alone waits for nobody. The gate hears of each piece.
///
/// All memory is taken before the first worker starts. The file's bytes go where the input's samples were, if these were kept in
/// one byte each and their memory suffices. What computes the picture (`crew::Prepared::picture`, `crew::PreparedAlone::picture`)
/// and what puts its bytes have no refusal in their types.
///
/// # Errors
/// `Memory` where memory runs out.
pub fn plan_file<T: Threads + Wait + Sync, G: Gate>(
    rt: &T,
    alloc: Global,
    checked: &Checked<'_>,
    inputs: Inputs,
    workers: usize,
    gate: &G,
) -> Result<Vec<u8>, Fault>
    requires { IsFor checked.now.algo.now inputs }
    ensures written { IfOk result (λ file. file.items ≡ text_of (picture_said (algorithm_checked checked.now) (samples_of inputs))) }
    ensures refused { IfErr result (λ fault. fault ≡ Memory) }
{
    let file = room_for(alloc, checked.algo(), &inputs)?;
    let image = picture_by(rt, alloc, checked, &inputs, workers, gate)?;
    Ok(file_in(alloc, file, inputs, &image))
}
