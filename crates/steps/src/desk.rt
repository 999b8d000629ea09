//! The memory that the private runs of a plan's pieces take.

ghost use Rattle.std.specs.Prelude.{◌≡◌, ◌≤◌, IfOk, length, vec_capacity};
ghost use Rattle.checked_plan.specs.View.{certificate_checked, plan_checked};
ghost use Rattle.steps.specs.Desks.{HasMemory, IsDeskFor};
ghost use Rattle.steps.specs.Seats.{IsMost};
ghost use Rattle.steps.specs.Work.{work_on};

use crate::job::PlanJob;
use checked_plan::output::PlanCells;
use interpreter::Scratch;
use piece::LookedCells;
use std::alloc::{AllocError, Global};

/// The memory of the private runs of all pieces, and of what a piece is told of the cells that it fetches. Runs come one after
/// another, so one desk serves all workers.
#[derive(Drop)]
pub(crate) struct Desk<'a> {
    pub(crate) scratch: Scratch,
    pub(crate) told: LookedCells<'a>,
}

/// A scratch for all groups, where no piece owns more than so many cells.
fn scratch_for(alloc: Global, job: &PlanJob<'_>, most: usize) -> Result<Scratch, AllocError>
    requires { IsMost (work_on job.now.checked.now job.now.inputs.now) most }
    ensures { IfOk result (λ scratch. HasMemory (work_on job.now.checked.now job.now.inputs.now) (plan_checked job.now.checked.now)
        (certificate_checked job.now.checked.now) scratch) }
{
    let plan = job.checked.plan();
    let scratch = Scratch::new(alloc, &plan.groups, job.checked.cert(), most)?;
    Ok(scratch)
}

impl<'a> Desk<'a> {
    /// A desk with all the memory that the run of any piece takes, where none fetches or owns more than so many cells.
    ///
    /// # Errors
    /// `AllocError` where memory runs out.
    pub(crate) fn new(
        alloc: Global,
        job: &PlanJob<'_>,
        cells: &'a PlanCells<'a>,
        most: usize,
    ) -> Result<Desk<'a>, AllocError>
        requires cells { cells.now.checked.now ≡ job.now.checked.now }
        requires most { IsMost (work_on job.now.checked.now job.now.inputs.now) most }
        ensures { IfOk result (IsDeskFor job.now.checked.now job.now.inputs.now) }
    {
        let scratch = scratch_for(alloc, job, most)?;
        let told = LookedCells::new(alloc, cells, most)?;
        Ok(Desk { scratch, told })
    }
}

/// Tells a piece the values of the cells that it fetches. It takes no memory.
pub(crate) fn tell(told: &mut LookedCells<'_>, piece: u32, values: &[i64])
    requires { length values.now ≤ vec_capacity told.old.looked }
    ensures same { (told.new.cells.now ≡ told.old.cells.now) × (told.new.piece ≡ piece) }
    ensures values { told.new.looked.items ≡ values.now }
    ensures room { vec_capacity told.new.looked ≡ vec_capacity told.old.looked }
{
    told.begin(piece);
    for value in values {
        told.push(*value);
    }
}
