//! The cells of the output.

ghost use Rattle.std.specs.Prelude.{◌≡◌, IfOk, IfSome, true};
ghost use Rattle.meaning.specs.Image.Raster.{is_within};
ghost use Rattle.checked_plan.specs.View.{algorithm_checked, plan_checked};
ghost use Rattle.checked_plan.specs.Output.Cells.{HoldsOutput, OutputFollows, number_of_point};
ghost use Rattle.checked_plan.specs.Ready.Ready.{place_of_group};

use crate::Checked;
use crate::output::plan_cells::PlanCells;
use std::alloc::{AllocError, Global};

/// Which cell of a checked plan has each point of the output.
#[derive(Drop)]
pub struct OutputCells<'a> {
    checked: &'a Checked<'a>,
    cells: PlanCells<'a>,
    place: usize,
    ghost cells_are: { cells.checked.now ≡ checked.now },
    ghost place_is: { place ≡ place_of_group (plan_checked checked.now).groups (algorithm_checked checked.now).output },
}

impl<'a> OutputCells<'a> {
    /// The cells of a checked plan's output.
    ///
    /// # Errors
    /// `AllocError` where memory runs out.
    pub fn of(alloc: Global, checked: &'a Checked<'a>) -> Result<OutputCells<'a>, AllocError>
        ensures { IfOk result (λ cells. cells.checked.now ≡ checked.now) }
    {
        let cells = PlanCells::of(alloc, checked)?;
        let place = cells.place(checked.algo().output().name.as_str());
        Ok(OutputCells {
            checked,
            cells,
            place,
        })
    }

    /// The cell that has a point of the output.
    ///
    /// It allocates nothing, and the time is linear in the coordinates.
    pub fn cell_of(&self, at: &[i64]) -> u32
        requires { is_within (algorithm_checked self.now.checked.now).output_extents at.now ≡ true }
        ensures number { result ≡ number_of_point (algorithm_checked self.now.checked.now) (plan_checked self.now.checked.now) at.now }
        ensures holds { HoldsOutput (algorithm_checked self.now.checked.now) (plan_checked self.now.checked.now) at.now }
    {
        match self.cells.number(self.place, at) {
            Some(number) => number,
            None => unreachable!(),
        }
    }

    /// The number of the output's first cell, where the region of its group is just the output's extents, so that the cells of its
    /// points follow each other from there on, the first coordinate fastest. `None` where the region has another form.
    ///
    /// It allocates nothing, and the time is linear in the coordinates.
    pub fn first(&self) -> Option<u32>
        ensures { IfSome result (OutputFollows (algorithm_checked self.now.checked.now) (plan_checked self.now.checked.now)) }
    {
        let extents = self.checked.algo().output().shape.extents.as_slice();
        self.cells.first(self.place, extents)
    }
}
