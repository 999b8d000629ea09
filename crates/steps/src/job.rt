//! A checked plan on an input, as the work of a crew.

ghost use Rattle.std.specs.Prelude.{◌≡◌};
ghost use Rattle.algo.specs.View.{IsFor};
ghost use Rattle.steps.specs.Desks.{IsDeskFor};
ghost use Rattle.steps.specs.Work.{targets_on, work_on};

use crate::desk::{Desk, tell};
use crate::runs::Runs;
use algo::Inputs;
use checked_plan::Checked;
use headline::laws::inputs_are_samples;
use orders::CellRuns;
use piece::laws::runs_are_the_work;
use piece::places::place_of;
use piece::run_in;
use std::alloc::Global;

/// A checked plan, and an input of its algorithm.
#[derive(Drop)]
pub(crate) struct PlanJob<'a> {
    pub(crate) checked: &'a Checked<'a>,
    pub(crate) inputs: &'a Inputs,
    ghost input: { IsFor checked.now.algo.now inputs.now },
}

impl Runs for PlanJob<'_> {
    ghost work = { λ job. work_on job.checked.now job.inputs.now };

    ghost target = { λ job. targets_on job.checked.now job.inputs.now };

    ghost suffices = { λ job desk. IsDeskFor job.checked.now job.inputs.now desk };

    fn pieces(&self) -> u32 {
        self.checked.pieces() as u32
    }

    fn cells(&self) -> u32 {
        self.checked.cells()
    }

    fn own(&self, piece: u32) -> &CellRuns {
        self.checked.own(piece as usize)
    }

    fn fetched(&self, piece: u32) -> &[u32] {
        self.checked.fetched(piece as usize)
    }

    fn needs(&self, piece: u32) -> &[u32] {
        self.checked.needs(piece as usize)
    }

    fn run(&self, alloc: Global, desk: &mut Desk<'_>, piece: u32, numbers: &mut Vec<i64>) {
        inputs_are_samples();
        runs_are_the_work();
        let place = place_of(self.checked.plan(), piece);
        tell(&mut desk.told, piece, numbers.as_slice());
        let Ok(()) = run_in(
            alloc,
            &mut desk.scratch,
            self.checked,
            self.inputs,
            &desk.told,
            piece,
            place,
        ) else {
            unreachable!()
        };
        desk.scratch.copy_given(numbers);
    }
}
