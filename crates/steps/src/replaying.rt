//! Orders of steps, replayed.

ghost use Rattle.std.specs.Prelude.{◌≡◌, ◌<◌, All, IfOk};
ghost use Rattle.algo.specs.View.{IsFor, picture_said, samples_of};
ghost use Rattle.checked_plan.specs.View.{algorithm_checked};
ghost use Rattle.meaning.specs.Image.View.{image_of};
ghost use Rattle.orders.specs.Crew.{go};
ghost use Rattle.orders.specs.Seen.{crew_of};
ghost use Rattle.steps.specs.Work.{work_on};

use crate::alone::finish_alone;
use crate::counts::{most_cells, seats_of};
use crate::crew::Crew;
use crate::desk::Desk;
use crate::job::PlanJob;
use crate::samples::output_samples;
use crate::state::State;
use algo::Inputs;
use checked_plan::Checked;
use checked_plan::output::PlanCells;
use headline::laws::inputs_are_samples;
use meaning::image::{Image, Samples};
use std::alloc::{AllocError, Global};

/// The workers' state after an order of steps: each entry is one step of the worker of that number, 0 to 63.
///
/// A cell takes 16 bytes, and a piece 1. Each worker up to the greatest number that the order names takes 8 bytes for each
/// cell of the piece that fetches or owns most; all of them share one desk, with a scratch for each group and an index of the
/// cells that a piece fetches. All this is taken before the first step; the steps take no memory.
///
/// # Errors
/// `AllocError` where memory runs out, which is before the first step.
pub fn replay(
    alloc: Global,
    checked: &Checked<'_>,
    inputs: &Inputs,
    order: &[u8],
) -> Result<State, AllocError>
    requires input { IsFor checked.now.algo.now inputs.now }
    requires workers { All (λ worker. worker < 64) order.now }
    ensures { IfOk result (λ state. crew_of state ≡ go (work_on checked.now inputs.now) order.now) }
{
    let cells = PlanCells::of(alloc, checked)?;
    let job = PlanJob { checked, inputs };
    let most = most_cells::<PlanJob<'_>>(&job);
    let mut desk = Desk::new(alloc, &job, &cells, most)?;
    let mut crew = Crew::new::<PlanJob<'_>>(alloc, &job, seats_of(order), most)?;
    crew.go(alloc, &job, &mut desk, order);
    Ok(State { crew })
}

/// The picture that the algorithm says of the input, computed piece after piece by one worker.
///
/// A cell takes 16 bytes, a piece 1, and a sample of the picture 2, beside the memory of a piece's run: that of its buffers,
/// and the values of the cells that it fetches with an index of them. The time is that of the pieces' runs, and linear in the
/// cells, the fetched cells and the samples.
///
/// # Errors
/// `AllocError` where memory runs out.
pub fn picture(alloc: Global, checked: &Checked<'_>, inputs: &Inputs) -> Result<Image, AllocError>
    requires { IsFor checked.now.algo.now inputs.now }
    ensures { IfOk result (λ image. image_of image ≡ picture_said (algorithm_checked checked.now) (samples_of inputs.now)) }
{
    checked.algo().is_well_formed();
    inputs_are_samples();
    let cells = PlanCells::of(alloc, checked)?;
    let job = PlanJob { checked, inputs };
    let most = most_cells::<PlanJob<'_>>(&job);
    let mut desk = Desk::new(alloc, &job, &cells, most)?;
    let mut crew = Crew::new::<PlanJob<'_>>(alloc, &job, 1, most)?;
    finish_alone(alloc, &job, &mut desk, &mut crew);
    let state = State { crew };
    let shape = checked.algo().output().shape.copy(alloc)?;
    let samples = output_samples(alloc, &job, &state)?;
    Ok(Image {
        ty: shape.ty,
        extents: shape.extents,
        samples: Samples::Words(samples),
    })
}
