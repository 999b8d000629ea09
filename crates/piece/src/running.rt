//! The private runs of a checked plan's pieces.

ghost use Rattle.std.specs.Prelude.{◌≡◌, ◌<◌, IfOk, MatchOption, OnOk, length, option_map, slice_get};
ghost use Rattle.algo.specs.View.{picture_of, samples_of, IsFor};
ghost use Rattle.checked_plan.specs.View.{algorithm_checked, certificate_checked, plan_checked};
ghost use Rattle.headline.specs.Work.{work_of};
ghost use Rattle.interpreter.specs.Outcome.{rank_gives};
ghost use Rattle.interpreter.specs.Scratches.{room_of, GivesIn, IsAgain, IsScratchFor};
ghost use Rattle.piece.specs.Places.Places.{IsPlaceOf};
ghost use Rattle.plan.specs.Certificate.Cells.{pieces};

use crate::cells::LookedCells;
use crate::laws::{pieces_are_narrow, runs_are_the_work};
use crate::places::{Place, place_of};
use algo::Inputs;
use checked_plan::Checked;
use checked_plan::output::PlanCells;
use interpreter::evaluation::Stop;
use interpreter::{Cells, Scratch, run_piece_in};
use std::alloc::{AllocError, Global};

/// The private run of the piece that stands at this place, which is told of the cells that it fetches, in a scratch that suffices
/// for its group. The numbers for its own cells, in their order, are then those that the scratch gives. It takes no memory.
///
/// # Errors
/// `Fault` where the run has a fault, and `Full` where it gives more numbers than the scratch has room for.
pub fn run_in<C: Cells>(
    alloc: Global,
    scratch: &mut Scratch,
    checked: &Checked<'_>,
    inputs: &Inputs,
    cells: &C,
    piece: u32,
    place: Place,
) -> Result<(), Stop>
    requires input { (picture_of inputs.now).extents ≡ (plan_checked checked.now).input.extents }
    requires place { IsPlaceOf (plan_checked checked.now).groups piece place.group place.rank }
    requires memory { MatchOption (slice_get (plan_checked checked.now).groups place.group) ⊥ (IsScratchFor scratch.old (certificate_checked checked.now) place.group) }
    ensures gives { GivesIn (room_of scratch.old) result scratch.new.state.given.items (rank_gives (plan_checked checked.now) (certificate_checked checked.now) (samples_of inputs.now) (C.cell cells.now) place.group place.rank) }
    ensures memory { OnOk result (IsAgain scratch.old scratch.new) }
{
    pieces_are_narrow();
    run_piece_in(
        alloc,
        scratch,
        checked.plan(),
        checked.cert(),
        inputs.image(),
        cells,
        place.group,
        place.rank,
    )
}

/// The private run of a piece over the values of the cells that it fetches, in the order in which it looked at them: the
/// values of its own cells, in their order, or nothing where the run has a fault.
///
/// The memory of the run is taken here, that of a scratch for the plan's groups and an index of the values, and given back at
/// the end.
///
/// # Errors
/// `AllocError` where memory runs out.
pub fn private_run(
    alloc: Global,
    cells: &PlanCells<'_>,
    inputs: &Inputs,
    piece: u32,
    looked: &[i64],
) -> Result<Option<Vec<i64>>, AllocError>
    requires input { IsFor cells.now.checked.now.algo.now inputs.now }
    requires piece { piece < length (pieces (plan_checked cells.now.checked.now)) }
    ensures { let x = cells.now.checked.now in IfOk result (λ o. option_map (λ v. v.items) o ≡ (work_of (algorithm_checked x) (plan_checked x) (certificate_checked x) (samples_of inputs.now)).private_run piece looked.now) }
{
    runs_are_the_work();
    let checked = cells.checked();
    let plan = checked.plan();
    let place = place_of(plan, piece);
    let most = checked.own(piece as usize).len();
    let mut scratch = Scratch::new(alloc, &plan.groups, checked.cert(), most)?;
    let told = LookedCells::of(alloc, cells, piece, looked)?;
    match run_in(alloc, &mut scratch, checked, inputs, &told, piece, place) {
        Ok(()) => {
            let mut numbers = Vec::with_capacity(alloc, scratch.given_count())?;
            scratch.copy_given(&mut numbers);
            Ok(Some(numbers))
        }
        Err(Stop::Fault) => Ok(None),
        Err(Stop::Full) => Err(AllocError),
    }
}
