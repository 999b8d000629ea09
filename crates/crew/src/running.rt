//! The run of a checked plan by a crew.

ghost use Rattle.std.specs.Prelude.{◌≡◌, ◌≤◌, IfErr, IfOk};
ghost use Rattle.algo.specs.View.{picture_said, samples_of, IsFor};
ghost use Rattle.checked_plan.specs.View.{algorithm_checked};
ghost use Rattle.crew.specs.Opening.Layouts.{layout_of, values_of};
ghost use Rattle.crew.specs.Crews.{ArePieces};
ghost use Rattle.crew.specs.declared.running.RunError.TheVariants.{Memory as OutOfMemory};
ghost use Rattle.meaning.specs.Image.View.{image_of};

use crate::counts::most_own;
use crate::gate::Gate;
use crate::opening::laws::{own_is_of_work, runs_give_values, values_are_targets, works_are_sound};
use crate::prepared::Prepared;
use crate::values::Pieces;
use algo::Inputs;
use board::Run;
use checked_plan::Checked;
use checked_plan::output::PlanCells;
use headline::laws::cells_are_numbered;
use meaning::image::Image;
use piece::laws::{pieces_are_narrow, runs_are_the_work};
use std::alloc::{AllocError, Global};
use std::marker::Brand;
use std::sync::Wait;
use std::thread::Threads;

/// Why a run gives no picture.
#[derive(Clone, Copy, PartialEq, Eq, Drop)]
pub enum RunError {
    /// Memory ran out: for the board, or for the private runs of a worker. No worker was started.
    Memory,
    /// The piece of this number, the lowest, is not finished. No run of a checked plan answers it.
    Unfinished(u32),
}

impl From<AllocError> for RunError {
    ghost from_gives = { λ _ e. e ≡ OutOfMemory };

    fn from(_: AllocError) -> RunError {
        RunError::Memory
    }
}

impl<'a> Pieces<'a> {
    /// The pieces of a checked plan on an input of its algorithm, for workers at a board that is for both.
    ///
    /// It takes no memory. The time is linear in the pieces.
    pub fn of<J: Run>(checked: &'a Checked<'a>, inputs: &'a Inputs) -> Pieces<'a>
        requires layout { J.layout ≡ layout_of checked.now }
        requires values { J.values ≡ values_of checked.now inputs.now }
        requires input { IsFor checked.now.algo.now inputs.now }
        ensures ready { ArePieces J.layout J.values result }
        ensures same { (result.checked.now ≡ checked.now) × (result.inputs.now ≡ inputs.now) }
    {
        own_is_of_work();
        works_are_sound();
        values_are_targets();
        runs_give_values();
        runs_are_the_work();
        pieces_are_narrow();
        cells_are_numbered();
        let _count = checked.pieces();
        Pieces {
            checked,
            inputs,
            most: most_own(checked),
        }
    }
}

/// The run, on a board for this checked plan and this input.
fn run_on<J: Run + Send + Sync, G: Gate, R: Threads + Wait + Sync>(
    rt: &R,
    alloc: Global,
    checked: &Checked<'_>,
    inputs: &Inputs,
    workers: usize,
    gate: &G,
) -> Result<Image, RunError>
    requires layout { J.layout ≡ layout_of checked.now }
    requires values { J.values ≡ values_of checked.now inputs.now }
    requires workers { (1 ≤ workers) × (workers ≤ 64) }
    requires input { IsFor checked.now.algo.now inputs.now }
    ensures picture { IfOk result (λ image. image_of image ≡ picture_said (algorithm_checked checked.now) (samples_of inputs.now)) }
    ensures refused { IfErr result (λ error. error ≡ OutOfMemory) }
{
    let cells = PlanCells::of(alloc, checked)?;
    let prepared = Prepared::<J>::new(alloc, checked, inputs, &cells, workers)?;
    Ok(prepared.picture(rt, alloc, gate))
}

/// The picture that the algorithm says of the input, computed by a crew of so many workers, from 1 to 64: one in the caller's
/// thread, and each other in one of its own where it can be started. Where no thread can be started the workers take their turns
/// in the caller's. A worker looks at the cells that a piece fetches and computes the piece by its private run.
///
/// Pieces that follow each other, each of which needs only pieces before all of them, are a stage. Where, on the average, a stage
/// has a piece for each worker, they go stage by stage: of each stage each worker has some pieces that follow each other, as many as
/// every other, but for one. Where no piece before the stage has samples of the picture, it has a part of these as well, in which it
/// writes each piece whose samples all lie there. What else it has computed it keeps, and once all have come back the caller puts it
/// on the sheet of which they all read in the next stage.
///
/// Else they share a board: each draws a piece, waits until the pieces that it needs are finished, computes it, puts its own
/// cells and finishes it, until all pieces are drawn. Where no thread can be started the first computes them all.
///
/// The gate hears of each piece from the worker that computes it, before and after. The worker goes on once the gate's call
/// returns.
///
/// In stages there is room for what is kept, 4 bytes for a cell, and the sheet takes one for each sample of the picture and 4 for a
/// cell of another group than the output's (or 4 for each cell and 2 for each sample, where the samples have 16 bits, the region of
/// the output's group is larger than the picture, or cells of other groups come after its own), and each piece 32. A board takes 8
/// bytes for each piece and each cell (twice as much while it opens), 8 more for each piece, and 2 for each sample of the picture.
/// Both take 4 more for each sample where the region of the output's group is larger than the picture. For each coordinate of a
/// group's region 16 bytes are kept. Each worker has a desk. On it lies a scratch for all groups, which takes 2 bytes for each place of
/// the buffers as long as a buffer has held values of `u8` alone, then 6, and room of 8 that is not touched unless a number does not
/// fit its type, of each number as many as the group asks for that asks for most, 24 for each line that binds a symbol, 4 for each
/// count of the largest grid, 16 for each coordinate of own cells and of the points at which lines fetch and store, 8 for each index of
/// the calls in stores, and 8 for each own cell of the piece that owns most; and for each fetched cell of the piece that fetches
/// most 8 bytes, and 16 or more in an index of these cells. All this is taken before the first worker starts; the workers take no
/// memory.
///
/// # Errors
/// `Memory` where memory runs out, which is before the first worker starts. No piece is left unfinished.
pub fn run<G: Gate, R: Threads + Wait + Sync>(
    rt: &R,
    alloc: Global,
    checked: &Checked<'_>,
    inputs: &Inputs,
    workers: usize,
    gate: &G,
) -> Result<Image, RunError>
    requires workers { (1 ≤ workers) × (workers ≤ 64) }
    requires input { IsFor checked.now.algo.now inputs.now }
    ensures picture { IfOk result (λ image. image_of image ≡ picture_said (algorithm_checked checked.now) (samples_of inputs.now)) }
    ensures refused { IfErr result (λ error. error ≡ OutOfMemory) }
{
    run_on::<Brand, G, R>(rt, alloc, checked, inputs, workers, gate)
}
