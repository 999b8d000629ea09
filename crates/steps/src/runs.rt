//! The private runs of pieces, in memory that was taken before.

ghost use Rattle.std.specs.Prelude.{◌≡◌, ◌<◌, ℕ, ℤ, Some, length, map, vec_capacity};
ghost use Rattle.orders.specs.Work.{Work};
ghost use Rattle.steps.specs.Seats.{IsMost};
ghost use Rattle.steps.specs.declared.desk.Desk.{Desk as PlanDesk};

use crate::desk::Desk;
use orders::CellRuns;
use std::alloc::Global;

/// Accepted work: its pieces and cells, the right value of each cell, and the private runs of its pieces, which have all their
/// memory on a desk.
pub(crate) trait Runs {
    ghost work: { Self → Work };

    ghost target: { Self → ℕ → ℤ };

    ghost suffices: { Self → PlanDesk → Type 0 };

    fn pieces(&self) -> u32
        ensures { result ≡ (work self.now).pieces };

    fn cells(&self) -> u32
        ensures { result ≡ (work self.now).cells };

    /// The cells that the piece puts, in their order.
    fn own(&self, piece: u32) -> &CellRuns
        requires { piece < (work self.now).pieces }
        ensures { result.now ≡ (work self.now).own piece };

    /// The cells that the piece looks at, in their order.
    fn fetched(&self, piece: u32) -> &[u32]
        requires { piece < (work self.now).pieces }
        ensures { result.now ≡ (work self.now).fetched piece };

    /// The pieces that must be finished before.
    fn needs(&self, piece: u32) -> &[u32]
        requires { piece < (work self.now).pieces }
        ensures { result.now ≡ (work self.now).needs piece };

    /// The private run of a piece over the right values of the cells that it looks at. The values of its own cells take their
    /// place. It takes no memory.
    fn run(&self, alloc: Global, desk: &mut Desk<'_>, piece: u32, numbers: &mut Vec<i64>)
        requires piece { piece < (work self.now).pieces }
        requires desk { suffices self.now desk.old }
        requires looked { numbers.old.items ≡ map (target self.now) ((work self.now).fetched piece) }
        requires room { IsMost (work self.now) (vec_capacity numbers.old) }
        ensures desk { suffices self.now desk.new }
        ensures values { Some numbers.new.items ≡ (work self.now).private_run piece numbers.old.items }
        ensures room { vec_capacity numbers.new ≡ vec_capacity numbers.old };
}
