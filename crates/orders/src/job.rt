//! What the machine is told of the work.

ghost use Rattle.std.specs.Prelude.{◌≡◌, ◌<◌, IfOk};
ghost use Rattle.std.specs.Option.{option_map};
ghost use Rattle.orders.specs.Work.{Work};

use crate::cell_runs::CellRuns;
use std::alloc::{AllocError, Global};

/// Accepted work: its pieces and cells, and the private run of a piece.
pub trait Job {
    ghost work: { Self → Work };

    fn pieces(&self) -> u32
        ensures { result ≡ (work self.now).pieces };

    fn cells(&self) -> u32
        ensures { result ≡ (work self.now).cells };

    /// The cells that the piece puts, in their order.
    fn own(&self, piece: u32) -> &CellRuns
        requires { piece < (work self.now).pieces }
        ensures { result.now ≡ (work self.now).own piece };

    /// The cells that the piece looks at, in their order.
    fn fetched(&self, piece: u32) -> &[u32]
        requires { piece < (work self.now).pieces }
        ensures { result.now ≡ (work self.now).fetched piece };

    /// The pieces that must be finished before.
    fn needs(&self, piece: u32) -> &[u32]
        requires { piece < (work self.now).pieces }
        ensures { result.now ≡ (work self.now).needs piece };

    /// The values of the own cells, or `None` where the private run has a fault.
    fn private_run(
        &self,
        alloc: Global,
        piece: u32,
        looked: &[i64],
    ) -> Result<Option<Vec<i64>>, AllocError>
        requires { piece < (work self.now).pieces }
        ensures { IfOk result (λ values. option_map (λ v. v.items) values ≡ (work self.now).private_run piece looked.now) };
}
